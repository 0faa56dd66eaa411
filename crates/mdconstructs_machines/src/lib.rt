//! Machines of states for the tokenizer, each proved lawful.
#![tactic(auto)]

// plain machines: a file each; reading data, which they share
pub mod back;
pub mod deep;
pub mod lines;
pub mod peek;
mod reading;
pub mod save;

// knowing machines: machines that know more: of chunks, of edits
pub mod paragraphs;
pub mod words;

// refusing machines: machines that refuse; `Wrap` has resolvers
pub mod fail;
mod message;
pub mod wrap;

// beginning: of a call
pub mod begin;

// laws: costs from the starts, tables that do not fit, no document is refused
pub mod laws;
