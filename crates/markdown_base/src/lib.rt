//! The plain data of the tokenizer engine: events, names of states, options, messages and places.
#![tactic(auto)]

// options: value by value; `TabSize`
pub mod configuration;
// events: names, kinds, points, links; balance, void spans, order of place
pub mod event;
// equality: laws of constants, names and equality
pub mod laws;
// messages: points and positions with them, and how they are shown
pub mod message;
// owned values: lists, texts and boxes, as contracts see them
pub mod owned;
// states: their names, and what a state returns
pub mod state;
// messages
pub mod unist;
// helpers: characters, places, slices: `src/util.rt` says their rooms
pub mod util;
