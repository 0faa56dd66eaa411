//! Full references, labels behind the texts of links, as a construct of inline text.
#![tactic(auto)]

// full references: a construct of inline text
pub mod full_reference;
pub mod names;

// looks: at them are linear
pub mod laws;
