//! Laws of the HTML of documents. Each is a function that does nothing; its contract is the law.

ghost use Rattle.mdhtml_calls.specs.Laws.{DocumentsAreApart, HtmlOfDocumentsIsLinear, HtmlWithoutCallsIsLinear, OtherOptionsDoNothing};

/// Of the options for HTML only `allow_any_img_src`, `allow_dangerous_html`, `allow_dangerous_protocol` and `gfm_tagfilter` do something.
pub fn other_options_do_nothing()
    ensures { OtherOptionsDoNothing }
{}

/// The HTML of a document is in proportion to the document, its events, its rows of tables and its calls of footnotes, where no link is in a link. A footnote is
/// written once, however often it is called; where none is called, it is at most half of that.
pub fn html_of_documents_is_linear()
    ensures calls { HtmlOfDocumentsIsLinear }
    ensures uncalled { HtmlWithoutCallsIsLinear }
{}

/// Calls of footnotes and autolink literals bring no link into a link. So in a document no link is in a link, but for an autolink that was there.
pub fn documents_are_apart()
    ensures { DocumentsAreApart }
{}
