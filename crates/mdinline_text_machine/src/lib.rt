//! The machine of texts, and the definition of a text's events: code spans, autolinks, escapes, line endings and plain
//! data.
#![tactic(auto)]

// constructs: of each its events, rows, costs, code; that it is read
pub mod autolink;
pub mod code_span;
pub mod escape;

// machine: its constructs, and its states between them; that it is lawful
pub mod text;

// sizes: names, sizes, classes and prices that constructs share
pub mod names;
pub mod sizes;

// chains: `read_text`; laws of chains of text
pub mod laws;
pub mod read;
