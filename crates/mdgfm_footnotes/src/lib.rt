//! Calls of footnotes, by rewriting events: a call takes the place of the data that it covers. Footnote definitions are containers of the document.
#![tactic(auto)]

// calls: the call at the front of a text, and all of a text
pub mod calls;
// events: the labels that are defined, and the events with calls
pub mod events;
// laws: what calls leave as it was; examples
pub mod laws;
