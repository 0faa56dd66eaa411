//! The machine of leaf blocks: it looks at a line first, and then reads it.
#![tactic(auto)]

// constructs: all but HTML blocks
mod blank_line;
mod code_fenced;
mod code_indented;
mod fence;
// machine: of leaf blocks
pub mod flow;
// constructs
mod heading_atx;
mod heading_edits;
mod heading_setext;
// HTML blocks: their looks, their reading, and names of tags
mod html_flow;
mod html_names;
mod html_tags;
// lines: between blocks; the look at a line, which says its kind
mod lines;
mod look;
// bytes: that states read over
mod over;
// constructs
mod paragraph;
// sizes: what constructs share
mod sizes;
// constructs
mod thematic_break;
