//! All of the program that writes HTML but its `main`: it reads a document and writes its HTML, for any reader and writer.
#![tactic(auto)]

// program: `write_html`: reads, makes HTML, writes
pub mod program;

// arguments: what those of the command line choose
pub mod arguments;

// input: reading to the end, within the limit
pub mod read;

// call: what a call does, for any system, reader and writer
pub mod call;

// laws: that the usage line stays
pub mod laws;

pub use mdprograms::failure;
