//! What links and images lead to: destinations, titles and labels, decoded, and the definitions of labels. It is told by the events of a document.
#![tactic(auto)]

// spans: what is in a span
pub mod spans;

// strings: their text
pub mod strings;

// targets: what links lead to; where labels are defined
pub mod definitions;
pub mod targets;

// laws: of targets and definitions; turns of loops
pub mod laws;
