//! The table of the machine of leaf blocks, without its code: its rows, what they write and cost, names of its states, and its laws.
#![tactic(auto)]

// laws: the cost at the start; no document is refused
pub mod laws;
// names: of states that the Rust crate has no name for
pub mod names;
