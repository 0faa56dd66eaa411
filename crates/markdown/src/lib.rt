//! The tokenizer engine, under the paths of the Rust crate `markdown`.
//!
//! This crate has no code. It re-exports its four parts, which have the code and the proofs: `markdown_base` (events, names,
//! options, places), `markdown_edits` (lists of events), `markdown_tokenizer` (`Machine`, `Tokenizer`, `run`) and
//! `markdown_children` (content in content).
#![tactic(auto)]

// paths: what the parts have, under the paths of the Rust crate
pub mod laws;
pub mod subtokenize;
pub mod util;

pub use markdown_base::configuration::{
    CompileOptions, Constructs, Options, ParseOptions, TabSize,
};
pub use markdown_base::{configuration, event, message, owned, unist};
pub use markdown_tokenizer::{copies, parser, state, tokenizer, waiting};
