//! How many calls of states reading a document takes.
#![tactic(auto)]

// calls: of all passes
pub mod laws;
