//! Laws of text, of addresses and of pieces of HTML. Each is a function that does nothing; its contract is the law.

ghost use Rattle.mdhtml_markup.specs.Laws.{AddressesAreQuoted, AddressesAreShort, AllowedAddressesAreSafe, EscapesAreShort, EscapesAreText, ExamplesAreTested, FlowIsSafe, PiecesAreWrittenInOrder, SafeHtmlIsTested, SafePiecesAreSafeHtml, TextIsKept};

/// What is written of a text is text, with no marks, whatever the text is, and at most six times as long.
pub fn escapes_are_text()
    ensures text { EscapesAreText }
    ensures short { EscapesAreShort }
{}

/// What is written of an address that is allowed is an address whose scheme is known, or that has none; in quotes. Of any address, it is at most
/// nine times as long.
pub fn allowed_addresses_are_safe()
    ensures quoted { AddressesAreQuoted }
    ensures short { AddressesAreShort }
    ensures safe { AllowedAddressesAreSafe }
{}

/// The bytes of safe pieces are safe HTML.
pub fn safe_pieces_are_safe_html()
    ensures { SafePiecesAreSafeHtml }
{}

/// The bytes of pieces are those of the first ones, and then those of the others.
pub fn pieces_are_written_in_order()
    ensures { PiecesAreWrittenInOrder }
{}

/// The test of safe HTML that can be run passes what is safe HTML, and nothing else.
pub fn safe_html_is_tested()
    ensures { SafeHtmlIsTested }
{}

/// HTML whose tree is read as it is written is safe HTML.
pub fn flow_is_safe()
    ensures { FlowIsSafe }
{}

/// Examples of HTML that is safe, and of HTML that is not.
pub fn examples_are_tested()
    ensures { ExamplesAreTested }
{}

/// The text between the tags of safe pieces is what they say.
pub fn text_is_kept()
    ensures { TextIsKept }
{}
