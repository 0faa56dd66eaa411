//! Laws of autolink literals. Each is a function that does nothing; its contract is the law.

ghost use Rattle.std.specs.Prelude.{◌≡◌};
ghost use Rattle.mdgfm_literals.specs.Examples.{lines, lines_told, lines_with, literals, of_emails, of_ends, of_escapes, of_protocols, of_www, told};
ghost use Rattle.mdgfm_literals.specs.Laws.{BalanceIsKept, BytesBehindDoNothing, EventsStayFew, LinksStay, LiteralsAreLiterals, LiteralsMove, LiteralsOfBoth, LiteralsOfParts, NamesAreKept, NoLiteralChangesNothing, OffChangesNothing, OrderIsKept, TilesAreKept};

/// The literals of some texts, on each side of each rule, and events with literals.
pub fn literals_of_texts()
    ensures www { literals of_www ≡ told of_www }
    ensures protocols { literals of_protocols ≡ told of_protocols }
    ensures ends { literals of_ends ≡ told of_ends }
    ensures emails { literals of_emails ≡ told of_emails }
    ensures escapes { literals of_escapes ≡ told of_escapes }
    ensures lines { lines_with lines ≡ lines_told lines }
{}

/// Without the option, or without a literal, `with_literals` changes nothing.
pub fn no_literals_change_nothing()
    ensures off { OffChangesNothing }
    ensures none { NoLiteralChangesNothing }
{}

/// Balanced events stay balanced.
pub fn literals_keep_balance()
    ensures { BalanceIsKept }
{}

/// Events stay in order of place.
pub fn literals_keep_order()
    ensures { OrderIsKept }
{}

/// The bytes of innermost spans tile what they did.
pub fn literals_keep_tiles()
    ensures { TilesAreKept }
{}

/// Literals make few events.
pub fn literals_are_few()
    ensures { EventsStayFew }
{}

/// The literals of both of two parts are those of the one and of the other.
pub fn literals_of_both()
    ensures { LiteralsOfBoth }
{}

/// Literals of a part of a document are those of the document there.
pub fn literals_of_parts()
    ensures moved { LiteralsMove }
    ensures behind { BytesBehindDoNothing }
    ensures parts { LiteralsOfParts }
{}

/// In a link, an image, and each other span that holds no literal, nothing changes.
pub fn links_have_no_literals()
    ensures { LinksStay }
{}

/// The literals of a text are literals at their places, one behind the other.
pub fn literals_are_literals()
    ensures { LiteralsAreLiterals }
{}

/// Literals bring no names but theirs and that of data.
pub fn literals_keep_names()
    ensures { NamesAreKept }
{}
