//! Links, images and emphasis among events: the brackets of a text, what they make, and the edits that put it in their place.
#![tactic(auto)]

// fates: what becomes of each span
mod brackets;
// definition: links and images among events, by one fold over spans
pub mod laws;
// edits: one writes all anew
pub mod link_edits;
// pieces: what is written
mod pieces;
