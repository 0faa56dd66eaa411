//! Containers of a document: block quotes, lists and items, and what of each line is in them.
#![tactic(auto)]

// rows: the lines of a document with their containers
pub mod going;
pub mod leaves;
pub mod lines;
pub mod rows;
pub mod texts;

// ahead: what is known from the lines behind
pub mod ahead;

// writing: events of prefixes, chunks and ends
pub mod chunks;
pub mod frames;
pub mod spans;
pub mod writing;

// lists: loose lists, markers, numbers, of events
pub mod list_shapes;
pub mod lists;

// letters: keep places; documents, computed
pub mod laws;
pub mod letters;

// prefixes: of a line; what is written of a skeleton, and left
pub mod prefixes;

// parts: of a document; stretches of lines
pub mod parts;
pub mod stretches;

// skeleton: part by part
pub mod skeleton;
