//! Laws of the HTML of events: how deep its elements are, and what the HTML of parts is.
#![tactic(auto)]

// laws: of depth, and of parts
pub mod laws;
