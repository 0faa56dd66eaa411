//! The rules of CommonMark as laws of the events of documents.
#![tactic(auto)]

// standing: what may stand in what
pub mod laws;
