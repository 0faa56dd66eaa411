//! The names of states between constructs, and of data, that the Rust crate has none for, with numbers from 1,200 on.
#![allow(non_upper_case_globals)]

use markdown_tokenizer::state::Name;

/// Text: at the beginning of a line.
pub const TextLineStart: Name = Name { number: 1_200 };

/// Text: in white space at the beginning of a line.
pub const TextLineWhite: Name = Name { number: 1_201 };

/// Text: at `<` that begins no autolink around an absolute URI. An email autolink is tried.
pub const TextBeforeEmail: Name = Name { number: 1_202 };

/// Text: at `<` that begins no raw HTML between marks. A tag is tried.
pub const TextBeforeTag: Name = Name { number: 1_203 };

/// Text: behind one space, with no data before it. The place before it is noted.
pub const TextSpace: Name = Name { number: 1_204 };

/// Text: behind two spaces or more, with no data before them. The place before them is noted.
pub const TextSpaces: Name = Name { number: 1_205 };

/// Text: behind white space with a tab, with no data before it. The place before it is noted.
pub const TextWhite: Name = Name { number: 1_206 };

/// Data: behind one space. The place before it is noted.
pub const DataSpace: Name = Name { number: 1_207 };

/// Data: behind two spaces or more. The place before them is noted.
pub const DataSpaces: Name = Name { number: 1_208 };

/// Data: behind white space with a tab. The place before it is noted.
pub const DataWhite: Name = Name { number: 1_209 };

/// Label end: at `]` with no resource behind it. A full reference is tried.
pub const LabelEndNotResource: Name = Name { number: 1_210 };

/// Label end: at `]`, of which a full reference is tried.
pub const LabelEndReferenceStart: Name = Name { number: 1_211 };
