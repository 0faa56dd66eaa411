//! Paragraphs of a document by its lines: where a paragraph is open behind each line of a stretch, leaf blocks read one paragraph of it.
#![tactic(auto)]

// laws: the lines of a paragraph are one paragraph
pub mod laws;
