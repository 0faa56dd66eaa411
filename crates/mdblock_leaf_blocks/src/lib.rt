//! What leaf blocks are read as, without states: the lines of a text, cut into blocks, and the events of these.
#![tactic(auto)]

// whole texts: every text is read as its leaf blocks
pub mod laws;
