//! Laws of the HTML of events. Each is a function that does nothing; its contract is the law.

ghost use Rattle.mdhtml_laws.specs.Depth.{HtmlIsShallow, HtmlWithNotesIsShallow, HtmlWithoutCallsIsShallow};
ghost use Rattle.mdhtml_laws.specs.DocumentSections.{HtmlOfDocumentSections};
ghost use Rattle.mdhtml_laws.specs.Moved.{BytesBehindDoNothing, HtmlMoves, HtmlOfSections};
ghost use Rattle.mdhtml_laws.specs.Parts.{HtmlEndsLines, HtmlOfParts};

/// How deep the elements of HTML are within a limit: at most twice as deep, and six more; five more where nothing calls a footnote,
/// and nine more with the section of footnotes.
pub fn html_is_shallow()
    ensures blocks { HtmlIsShallow }
    ensures uncalled { HtmlWithoutCallsIsShallow }
    ensures notes { HtmlWithNotesIsShallow }
{}

/// HTML of events ends a line, or is nothing. So the HTML of parts of a document that are read apart, by the same labels, is that of each, one behind
/// another.
pub fn html_of_parts()
    ensures lines { HtmlEndsLines }
    ensures parts { HtmlOfParts }
{}

/// HTML depends on places only through the bytes at them. So events of lines that are read alone have the same HTML, moved behind other lines, and before
/// others; and the HTML of a document is that of its sections, one behind another, by what labels are defined as in all.
pub fn html_of_sections()
    ensures moved { HtmlMoves }
    ensures behind { BytesBehindDoNothing }
    ensures sections { HtmlOfSections }
{}

/// So the HTML of a document that is cut at a rest is that of its parts, each read alone by the same labels.
pub fn html_of_document_sections()
    ensures { HtmlOfDocumentSections }
{}
