//! Autolink literals of GFM, by rewriting events: literals take the place of the data that they cover.
#![tactic(auto)]

// grammar: the literal at the front of a text, of bytes alone
mod addresses;
pub mod bytes;
pub mod found;
pub mod grammar;
// texts: all literals of a text, and whether there can be any
mod signs;
pub mod texts;
// events: stretches of text among them, and the events with literals
pub mod events;
pub mod stretches;
// laws: what literals are, and what they leave as it was; examples
pub mod laws;
