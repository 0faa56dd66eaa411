//! What a line is, and which containers it goes on with or begins, by plain code over its bytes. Each loop takes a turn at its top; no iterator
//! of std stands in place of one.
#![tactic(auto)]

// kinds: what a line is
pub mod bytes;
pub mod html;
pub mod kinds;

// containers: of a line
pub mod containers;

// places: virtual lines and their places; thematic breaks
pub mod breaks;
pub mod laws;
pub mod places;
