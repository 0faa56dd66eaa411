//! What tests share: how events, results and documents are shown, and how a document is read. It has no tests of its own.
#![tactic(auto)]

// shown: events and results as tests compare them
pub mod chunks;
// read: documents at once, call by call, by ranges
pub mod documents;
pub mod driven;
pub mod pushed;
// shown
pub mod shown;
