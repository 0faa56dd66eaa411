//! HTML as bytes: text, addresses and tags; HTML as pieces; and what safe HTML is, with a test of it.
#![tactic(auto)]

// addresses: which are allowed, and how one is written
pub mod addresses;
// safe HTML: the grammar, and a test of it that runs
pub mod checks;
// elements: their names and those of attributes
pub mod elements;
// text: how it is written, and what is kept of HTML
pub mod escape;
// laws: of safe HTML, of its test, and of pieces
pub mod laws;
// raw HTML: the filter of its tags
pub mod tag_filter;
