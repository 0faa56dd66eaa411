//! All of the program but its `main`: it reads a document, makes its events and writes their lines, for any reader and
//! writer.
#![tactic(auto)]

// program: `write_events`: reads, makes events, writes
pub mod program;

// arguments: what those of the command line choose, and the events of a choice
pub mod arguments;
pub mod choice;

// input and output: reading to the end, within the limit; writing
pub mod read;
pub mod write;

// printing: lines of events, and what they are made of
mod block;
mod buffer;
mod digits;
mod last_point;
mod names;
mod print;

// call: what a call does, for any system, reader and writer
pub mod call;

// laws: that the usage line stays
pub mod laws;

pub use mdprograms::failure;
