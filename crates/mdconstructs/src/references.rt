//! Character references: the characters that a name or a number stands for.

pub use mdinline_characters::{find, name_from, numeric};
