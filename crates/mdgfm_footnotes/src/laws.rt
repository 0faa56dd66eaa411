//! Laws of calls of footnotes. Each is a function that does nothing; its contract is the law.

ghost use Rattle.std.specs.Prelude.{◌≡◌};
ghost use Rattle.mdgfm_footnotes.specs.Examples.{calls_of_texts, calls_told, lines_told, lines_with};
ghost use Rattle.mdgfm_footnotes.specs.Laws.{BalanceIsKept, BytesBehindDoNothing, CallsAreCalls, CallsMove, CallsOfParts, EventsStayFew, LabelsAreReadOnce, NamesAreKept, NoDefinitionChangesNothing, OffChangesNothing, OrderIsKept};

/// The calls of some texts, on each side of each rule, and events with calls.
pub fn calls_of_some_texts()
    ensures texts { calls_of_texts ≡ calls_told }
    ensures lines { lines_with ≡ lines_told }
{}

/// Without the option, or without a footnote definition, `with_calls` changes nothing.
pub fn no_calls_change_nothing()
    ensures off { OffChangesNothing }
    ensures none { NoDefinitionChangesNothing }
{}

/// Balanced events stay balanced.
pub fn calls_keep_balance()
    ensures { BalanceIsKept }
{}

/// Events stay in order of place.
pub fn calls_keep_order()
    ensures { OrderIsKept }
{}

/// Calls make few events.
pub fn calls_are_few()
    ensures { EventsStayFew }
{}

/// Calls bring no names but their own, and that of data.
pub fn calls_keep_names()
    ensures { NamesAreKept }
{}

/// Each call of a text is one at its place, and its label is defined.
pub fn calls_are_calls()
    ensures { CallsAreCalls }
{}

/// Each byte of a text is read once for a label.
pub fn labels_are_read_once()
    ensures { LabelsAreReadOnce }
{}

/// Calls of a part of a document are those of the document there.
pub fn calls_of_parts()
    ensures moved { CallsMove }
    ensures behind { BytesBehindDoNothing }
    ensures parts { CallsOfParts }
{}
