//! Documents with what GFM adds by rewriting events, section by section.
#![tactic(auto)]

// laws: of parts of documents
pub mod laws;
// notes: labels of footnotes, of a document and of its sections
pub mod notes;
