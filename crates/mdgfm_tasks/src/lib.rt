//! Checks of task list items of GFM, by rewriting events: a check takes the place of the text that it covers.
#![tactic(auto)]

// awaited: what comes behind an event, the first block of an item or its text
pub mod awaited;
// checks: the one at the front of events, if one is there
pub mod checks;
// events: with their checks
pub mod events;
// laws: what checks are, and what they leave as it was; examples
pub mod laws;
