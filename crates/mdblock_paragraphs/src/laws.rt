//! Laws about paragraphs. Each is a function that does nothing; its contract is the law.

ghost use Rattle.mdblock_paragraphs.specs.Paragraphs.{LinesOfTextAreAParagraph, OpenLinesAreAParagraph, OpenLinesAreReadAsAParagraph};

/// A line of text, and lines behind it of which none underlines it or interrupts a paragraph, are one paragraph by the definition of leaf blocks.
pub fn lines_of_text_are_a_paragraph()
    ensures { LinesOfTextAreAParagraph }
{}

/// In a document each stretch of lines behind each of which a paragraph is open is one paragraph by the definition of leaf blocks, whatever containers
/// it stands in: no line of it begins another block, underlines it or interrupts it. Stretches directly behind definitions
/// are left out. What is read of it is a paragraph, with a chunk of text for each line.
pub fn open_lines_are_a_paragraph()
    ensures blocks { OpenLinesAreAParagraph }
    ensures events { OpenLinesAreReadAsAParagraph }
{}
