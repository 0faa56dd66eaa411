//! Documents with what GFM adds by rewriting events: checks of task list items, calls of footnotes, and autolink literals.
#![tactic(auto)]

// documents: their events
pub mod documents;
// laws: what these events are
pub mod laws;
