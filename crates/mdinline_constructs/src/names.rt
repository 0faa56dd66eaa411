//! The names of states of raw HTML, of code spans and of hard breaks that the Rust crate has none for, with numbers from 1,100 on.
#![allow(non_upper_case_globals)]

use markdown_tokenizer::state::Name;

/// Raw HTML between marks: start.
pub const HtmlTextMarkStart: Name = Name { number: 1_100 };

/// Raw HTML between marks: after `<`.
pub const HtmlTextMarkOpen: Name = Name { number: 1_101 };

/// Raw HTML between marks: after the opening mark, where no byte of the closing mark is directly before.
pub const HtmlTextMarkInside: Name = Name { number: 1_102 };

/// Raw HTML between marks: after a line ending.
pub const HtmlTextMarkLine: Name = Name { number: 1_103 };

/// Raw HTML between marks: in white space after a line ending.
pub const HtmlTextMarkWhite: Name = Name { number: 1_104 };

/// Raw HTML between marks: after bytes of the closing mark.
pub const HtmlTextMarkClose: Name = Name { number: 1_105 };

/// Code span: after a line ending.
pub const RawTextLineStart: Name = Name { number: 1_106 };

/// Code span: in white space after a line ending.
pub const RawTextLineWhite: Name = Name { number: 1_107 };
