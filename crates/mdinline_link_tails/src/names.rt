//! The names of states of resources that the Rust crate has none for, with numbers from 1,120 on.
#![allow(non_upper_case_globals)]

use markdown_tokenizer::state::Name;

/// Resource: in white space.
pub const ResourceGapWhite: Name = Name { number: 1_120 };

/// Resource: after the line ending of white space.
pub const ResourceGapLine: Name = Name { number: 1_121 };

/// Resource: in white space after its line ending.
pub const ResourceGapLineWhite: Name = Name { number: 1_122 };

/// Resource: at the `>` of a destination.
pub const ResourceDestinationEnd: Name = Name { number: 1_123 };

/// Resource: in a title, in white space after a line ending.
pub const ResourceTitleWhite: Name = Name { number: 1_124 };

/// Resource: at the last mark of a title.
pub const ResourceTitleEnd: Name = Name { number: 1_125 };
