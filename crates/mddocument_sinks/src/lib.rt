//! A document whose events are handed on as they are made: no list of all of them is there.
#![tactic(auto)]

// sinks: what takes events
pub mod sink;

// pieces: where a document is cut, and the labels that it defines
mod pieces;

// moved events: those of a piece, as those of the document
mod moved;

// reading: piece after piece
pub mod reading;
