//! Strings: the escapes and the character references of destinations, titles and labels, by plain code.
#![tactic(auto)]

// items: of a string
mod items;

// places: bytes between places; events at them
mod data;
mod placed;
mod seats;

// strings: of links in a list
mod names;
mod rewriting;
pub mod strings;

// laws: of strings
pub mod laws;
