//! HTML of a document, by its events.
#![tactic(auto)]

// blocks: what is written of them, and the text of code and of HTML
mod block_shapes;
mod blocks;
// inline text: what images are described by
mod descriptions;
// HTML: of a document's events, by options
pub mod html;
// laws: HTML is safe, stands where it may, and keeps its text
pub mod laws;
// blocks
mod lines;
// links: what they lead to, and how much of a document they refer to
mod links;
// notes: calls of footnotes and their numbers, and the section at the end
mod note_section;
mod notes;
// spans: names as what HTML makes of them, shapes, events in a span
pub mod names;
// links
mod references;
// spans
pub mod shapes;
mod spans;
// tables: their columns, and what is written of their parts
mod tables;
// inline text
mod text_shapes;
// HTML
mod writer;
