//! A limit of depth for HTML, by rewriting events: spans that too many others are around lose their enters and exits.
#![tactic(auto)]

// spans: the events without those of spans that are too deep
pub mod spans;
// laws: what is left out, and what stays as it was
pub mod laws;
