//! Laws of whole documents.
#![tactic(auto)]

// names: constructs that are off leave no span
pub mod laws;
