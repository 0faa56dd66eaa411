//! Further constructs of inline text: character references, hard breaks by a backslash, email autolinks and raw HTML.
#![tactic(auto)]

// character references: what they are, and their events; rows and costs; their code; that they are read
pub mod reference;

// email autolinks: what they are, and their events; rows and costs; their code; that they are read
pub mod email;

// hard breaks: also white space at the end of a line, which `Inlines` reads with its data
pub mod hard_break;

// raw HTML: its lines, and what reads it in general
pub mod html_text;

// kinds of HTML: tags; comments, instructions, declarations and CDATA
pub mod html_marked;
pub mod html_tag;

// remembered code: code spans, read by a machine that remembers backtick strings
pub mod remembered_code;

// names: of states that the Rust crate has no name for
pub mod names;
