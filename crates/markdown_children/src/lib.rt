//! Content in content: chains of chunks in a list of events, the parts of their children, and the check that a list is
//! ready.
#![tactic(auto)]

// subtokenizing: `subtokenize`: each chain is read, and its child put in place
mod children;
pub mod subtokenize;

// division: `divide_events`: a child's parts, one a chunk
mod division;

// weaving: with no filter: the list, written once with these parts
mod weaving;

// readiness: `ready`, event by event, and where the bytes of a document begin
mod byte_starts;
mod readiness;

// chains: along the links; the first paragraph of a list item
mod chains;
mod first_paragraph;

// laws: of ready lists, parts and children; when a list is ready for the next content
pub mod laws;
