//! What is done to lists of events: edits that are all made at once, links, and walks across spans.
#![tactic(auto)]

// map: the map of edits, and what they mean; edits by parts of a list
pub mod edit_map;
// store: where a map keeps its edits: in one list while their indices ascend, and else in a tree
mod entry;
// laws: of changes; results of one variant
pub mod laws;
// links: `link`, `link_to`, chains
pub mod links;
// map
pub mod part;
// store
mod pool;
mod replacement;
// splicing: the one pass that makes the edited list, and the new indices of link ends
mod shift;
// walks: over whole spans
pub mod skip;
// splicing
mod splice;
// store
mod tree;
