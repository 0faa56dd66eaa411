//! The version of the functions, and how a call ends, as numbers.

/// The version of the functions, options and records. It changes with each of their layouts and meanings. A function that is added
/// does not change it: a caller of that function cannot be linked to a library without it.
pub const VERSION: u32 = 5;

/// The document was read.
pub const READ: u32 = 0;
/// The call ran out of memory.
pub const OUT_OF_MEMORY: u32 = 1;
/// The tab size times the length of the document, and one more, does not fit `usize`.
pub const TOO_LONG: u32 = 2;
/// The options have another size.
pub const OTHER_SIZE: u32 = 3;
/// The tab size is above 16.
pub const NO_SUCH_TAB_SIZE: u32 = 4;
/// A bit is set that is no construct's.
pub const NO_SUCH_CONSTRUCT: u32 = 5;
/// There is no machine of this number.
pub const NO_SUCH_MACHINE: u32 = 6;
/// `deep` is on for a machine that links no text.
pub const LINKS_NO_TEXT: u32 = 7;
/// The ranges cannot be read as one text, or the document has no such sections.
pub const NO_SUCH_RANGES: u32 = 8;
/// The document has no such bytes: a range is not in it, or a place is at none of its characters.
pub const NO_SUCH_BYTES: u32 = 9;
/// The document is not open.
pub const NOT_OPEN: u32 = 10;
/// A bit is set of what HTML may let through that lets nothing through.
pub const NO_SUCH_PERMISSION: u32 = 11;
