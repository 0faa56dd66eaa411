//! Laws of the HTML of documents. Each is a function that does nothing; its contract is the law.

ghost use Rattle.std.specs.Prelude.{◌≡◌, map};
ghost use Rattle.mdhtml_document.specs.HtmlExamples.{html_examples, html_of};
ghost use Rattle.mdhtml_document.specs.HtmlLaws.{HtmlIsFlow, HtmlIsLinear, HtmlIsSafe, HtmlIsShort, HtmlKeepsText, HtmlOfBoth, HtmlWithNotesIsFlow, HtmlWithNotesIsSafe, HtmlWithNotesKeepsText};
ghost use Rattle.mdhtml_document.specs.Spans.{SpansKeepEvents};

/// Whatever the document is, its HTML is safe, if no option lets something through.
pub fn html_is_safe()
    ensures { HtmlIsSafe }
{}

/// The text between the tags of the HTML is what its pieces say.
pub fn html_keeps_text()
    ensures { HtmlKeepsText }
{}

/// A browser reads the HTML as the tree that it is written as, if no option lets something through, and no link is in a link.
pub fn html_is_flow()
    ensures { HtmlIsFlow }
{}

/// With the section of its footnotes it is safe as well.
pub fn html_with_notes_is_safe()
    ensures { HtmlWithNotesIsSafe }
{}

/// So is the text between its tags what its pieces say.
pub fn html_with_notes_keeps_text()
    ensures { HtmlWithNotesKeepsText }
{}

/// And a browser reads it as it is written.
pub fn html_with_notes_is_flow()
    ensures { HtmlWithNotesIsFlow }
{}

/// The HTML of a document whose events go forward, but for its section of footnotes, is in proportion to the document and its events, where no link is in a link.
pub fn html_is_linear()
    ensures { HtmlIsLinear }
{}

/// How long the HTML is at most, where no link is in a link: in proportion to the document, its events, and what links and images refer to.
pub fn html_is_short()
    ensures { HtmlIsShort }
{}

/// The tree of a document's spans has all its events.
pub fn spans_keep_events()
    ensures { SpansKeepEvents }
{}

/// The HTML of a document that is read in two parts is that of the one and then of the other.
pub fn html_of_both()
    ensures { HtmlOfBoth }
{}

/// The HTML of nine documents.
pub fn html_of_documents()
    ensures { map html_of html_examples ≡ html_examples }
{}
