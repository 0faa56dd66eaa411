//! References that nothing defines, by the events of a document.
#![tactic(auto)]

// references: brackets that were left, and the labels in them
pub mod references;

// reading: documents by a set of labels
pub mod reading;
