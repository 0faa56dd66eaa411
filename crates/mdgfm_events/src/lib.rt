//! What rewriting events for GFM shares: places in a line, and spans among events.
#![tactic(auto)]

// places: in a line, and the events of a span between two
pub mod places;
// spans: their sizes and ends
pub mod spans;
