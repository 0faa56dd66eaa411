//! Small helpers: characters, constants, line endings, offsets, tab stops and slices.

// characters: classes and printed forms
pub mod char;
// constants: single bytes and lists of names; line endings as they are written
pub mod constant;
pub mod line_ending;
// lines: from offsets to lines and columns
pub mod location;
// places: their points; widths of tabs and ends of lines, for all that decide them
pub mod place;
// slices: the bytes between two places
pub mod slice;
