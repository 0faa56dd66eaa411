//! The names of states of full references that the Rust crate has none for, with numbers from 1,130 on.
#![allow(non_upper_case_globals)]

use markdown_tokenizer::state::Name;

/// Label: in white space after a line ending.
pub const LabelLineWhite: Name = Name { number: 1_130 };

/// Full reference: at the `]` of its label.
pub const LabelEndReferenceFullEnd: Name = Name { number: 1_131 };
