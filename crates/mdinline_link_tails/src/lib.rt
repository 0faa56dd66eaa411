//! Resources, the tails of links, as a construct of inline text.
#![tactic(auto)]

// resources: the tails of links, as a construct of inline text
pub mod names;
pub mod resource;

// looks: at resources are linear
pub mod laws;
