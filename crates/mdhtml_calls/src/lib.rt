//! HTML of documents: what is called.
#![tactic(auto)]

// html: a document as HTML
pub mod html;

// laws: which options do something
pub mod laws;
