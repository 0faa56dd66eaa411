//! Lines of a document that are blank, and lines that are text whatever they look like: its blocks by where blank lines stand, and by numbers of lines,
//! without a copy of the document that has letters.
#![tactic(auto)]

// laws: parts, sections and blocks of a document are those that its code reads
pub mod laws;
