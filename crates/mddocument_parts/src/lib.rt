//! Where leaf blocks are cut apart, and what stays the same.
#![tactic(auto)]

// rests: where sections end, and the sections between them
pub mod laws;
