//! State machines, each proved lawful, `read_text`, `events_of`, and what the author of a machine needs.
//!
//! This crate has no code. It re-exports its parts, which have the code and the proofs: `mdconstructs_tables` (machines as
//! tables), `mdconstructs_machines` (the small machines), `mdinline_text_machine` (`Text` and its definition), `mdinline_labels` (labels of
//! links), `mdinline_emphasis` (emphasis, as edits), `mdinline_characters` (the characters of references),
//! `mdinline_constructs` (further constructs of inline text), `mdinline_link_strings` (the strings of links, read in a list of
//! events), `mdinline_machine` (`Inlines`, inline text and strings), `mdblock_leaf_rows` (the table of `Flow`),
//! `mdblock_leaf_machine` (`Flow`, the machine of leaf blocks),
//! `mdblock_leaf_blocks` (what `Flow` reads, without states), `mdblock_lines` (what a line is and which containers it begins or goes
//! on), `mdblock_containers` (block quotes and lists around leaf blocks), `mddocument` (how a document is read, and its
//! events), `mddocument_costs` (how many calls of states that takes), `mddocument_laws` (laws of whole documents),
//! `mddocument_parts` (where a document can be cut, so that its parts are read apart), `mddocument_link_targets` (what links and images
//! lead to, and where labels are defined), `mddocument_references` (references that nothing defines) and `mddocument_editing` (a document that can be
//! edited).
#![tactic(auto)]

// paths: what the parts have; each machine stands at the root
pub mod emphasis;
pub mod laws;
pub mod references;

pub use mdblock_containers::{list_shapes, lists};
pub use mdblock_leaf_machine::flow;
pub use mdblock_leaf_machine::flow::Flow;
pub use mdconstructs_machines::back::Back;
pub use mdconstructs_machines::deep::Deep;
pub use mdconstructs_machines::fail::Fail;
pub use mdconstructs_machines::lines::Lines;
pub use mdconstructs_machines::paragraphs::Paragraphs;
pub use mdconstructs_machines::peek::Peek;
pub use mdconstructs_machines::save::Save;
pub use mdconstructs_machines::words::Words;
pub use mdconstructs_machines::wrap::Wrap;
pub use mdconstructs_machines::{
    back, begin, deep, fail, lines, paragraphs, peek, save, words, wrap,
};
pub use mdconstructs_tables::{answers, chunks, marker};
pub use mddocument::choice::{Choice, Which};
pub use mddocument::documents::{
    events_of, options_with, read_document, read_leaf_blocks, text_events_of,
};
pub use mddocument::limit::limit_of;
pub use mddocument::{choice, documents, limit, ranges};
pub use mddocument_editing::{edit, packed, positions, sections};
pub use mddocument_link_targets::{definitions, targets};
pub use mddocument_references::reading::undefined_references;
pub use mddocument_references::references::{Reference, undefined_in};
pub use mddocument_sinks::reading::read_document_into;
pub use mddocument_sinks::sink;
pub use mdinline_labels::labels::Labels;
pub use mdinline_machine::inlines;
pub use mdinline_machine::inlines::Inlines;
pub use mdinline_machine::read::read_inline_text;
pub use mdinline_text_machine::read::read_text;
pub use mdinline_text_machine::text::Text;
pub use mdinline_text_machine::{read, text};
