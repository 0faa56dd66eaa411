//! States of leaf blocks that the Rust crate has no name for, by construct. A look makes no event.
//!
//! All others are named in [`Name`].

#![allow(non_upper_case_globals)]

use markdown_tokenizer::state::Name;

/// ATX heading, a look: in the white space before the text.
pub const HeadingAtxLookStart: Name = Name { number: 1_000 };
/// ATX heading, a look: in the text.
pub const HeadingAtxLookText: Name = Name { number: 1_001 };
/// ATX heading, a look: in white space in or behind the text.
pub const HeadingAtxLookBlank: Name = Name { number: 1_002 };
/// ATX heading, a look: in number signs behind white space.
pub const HeadingAtxLookSigns: Name = Name { number: 1_003 };
/// ATX heading, a look: in white space behind such number signs.
pub const HeadingAtxLookAfter: Name = Name { number: 1_004 };

/// Setext heading, a look: behind the marks of an underline.
pub const HeadingSetextLookAfter: Name = Name { number: 1_010 };
/// Setext heading: behind its text, which was read as a paragraph.
pub const HeadingSetextTextAfter: Name = Name { number: 1_011 };

/// Indented code: at the end of a line, if the code goes on.
pub const CodeIndentedLineAfter: Name = Name { number: 1_020 };

/// Fenced code, a look: in the info string of a fence of grave accents.
pub const RawFlowLookInfo: Name = Name { number: 1_030 };
/// Fenced code: in white space behind the first word of the info string.
pub const RawFlowInfoAfter: Name = Name { number: 1_031 };
/// Fenced code: before the closing fence.
pub const RawFlowCloseBefore: Name = Name { number: 1_032 };
/// Fenced code: in white space of the closing fence.
pub const RawFlowCloseBlank: Name = Name { number: 1_033 };
/// Fenced code: in the marks of the closing fence.
pub const RawFlowCloseSequence: Name = Name { number: 1_034 };
/// Fenced code: in the closing fence, before white space or marks, or at its end.
pub const RawFlowCloseBetween: Name = Name { number: 1_035 };

/// HTML, a look: in the white space of a line that may be blank.
pub const HtmlFlowBlankLineInside: Name = Name { number: 1_040 };

/// Paragraph, a look: at the end of a line, before the look at the next one.
pub const ParagraphLookStart: Name = Name { number: 1_050 };
/// Paragraph: at the end of a line, if the paragraph goes on.
pub const ParagraphLineAfter: Name = Name { number: 1_051 };
