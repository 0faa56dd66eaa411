//! Emphasis: the delimiter runs of a text, their pairs, and the edits that put emphasis in their place.
#![tactic(auto)]

// classes: of characters; `tools/tables.py` writes and compares their tables
pub mod classes;
// edits: one a run; the laws of emphasis
pub mod emphasis;
pub mod laws;
// pairs: in linear time; balanced events
pub mod pairs;
// runs: the delimiter runs of a list, and the balanced texts between them
pub mod runs;
// classes
pub mod unicode;
