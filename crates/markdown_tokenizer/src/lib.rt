//! The tokenizer engine: a machine of states reads a document, range by range, and makes a list of events.
#![tactic(auto)]

// copies: what can be copied; `copy` of `tokenizer` copies one
pub mod copies;
// waiting: a byte, the end, choices; the count of calls; bytes that a state reads over; turns of the loop
mod count;
// cursor: the place of a reader and how it moves; `point_at`, `cuts_every`, `follow_on`; gaps
mod cursor;
// promises: of `push`, `flush` and `run`; laws of cuts, choices, what stays, other names; documents that begin alike
pub mod laws;
// machines: the rules of a machine, its laws, costs with reserves, the trait `Machine`, `ParseState`
pub mod parser;
// cursor
mod places;
mod ranges;
mod skips;
// machines
pub mod state;
// paths: of the crates below; `Subresult`
pub mod subtokenize;
// tokenizer: its calls: `paths` are fast and slow, `running` has `push`, `flush`, `run` and the loop
pub mod tokenizer;
// paths
pub mod util;
// waiting
pub mod waiting;

pub use markdown_base::configuration::{
    CompileOptions, Constructs, Options, ParseOptions, TabSize,
};
pub use markdown_base::{configuration, event, message, owned, unist};
