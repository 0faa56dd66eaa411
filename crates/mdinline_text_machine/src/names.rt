//! The names of states of code spans that the Rust crate has none for, with numbers from 1,000 on.
#![allow(non_upper_case_globals)]

use markdown_tokenizer::state::Name;

/// Code span: after the backtick string that closed it.
pub const RawTextAfter: Name = Name { number: 1_000 };

/// Code span: at a backtick string that closes nothing, so that it begins data.
pub const RawTextBackticksStart: Name = Name { number: 1_001 };

/// Code span: in a backtick string that begins data.
pub const RawTextBackticksInside: Name = Name { number: 1_002 };
