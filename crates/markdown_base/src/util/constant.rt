//! Numbers and names that limit the constructs.
//!
//! If CommonMark or GFM gives one, its section is named.

/// How many characters the scheme of an autolink may have at most: CommonMark, "Autolinks".
pub const AUTOLINK_SCHEME_SIZE_MAX: usize = 32;

/// How many characters each part of the domain of an email autolink may have at most: CommonMark, "Autolinks", as
/// HTML has it for email addresses.
pub const AUTOLINK_DOMAIN_SIZE_MAX: usize = 63;

/// How many digits a decimal character reference may have at most: CommonMark, "Entity and numeric character
/// references".
///
/// This many are needed for 0x10FFFF, the greatest code of a character.
pub const CHARACTER_REFERENCE_DECIMAL_SIZE_MAX: usize = 7;

/// How many digits a hexadecimal character reference may have at most: CommonMark, "Entity and numeric character
/// references".
///
/// This many are needed for 0x10FFFF, the greatest code of a character.
pub const CHARACTER_REFERENCE_HEXADECIMAL_SIZE_MAX: usize = 6;

/// How many characters the name in a character reference may have at most: the longest name that HTML has,
/// `CounterClockwiseContourIntegral`.
pub const CHARACTER_REFERENCE_NAMED_SIZE_MAX: usize = 31;

/// How many markers a fence of fenced code has at least: CommonMark, "Fenced code blocks".
pub const CODE_FENCED_SEQUENCE_SIZE_MIN: usize = 3;

/// How many markers a fence of frontmatter has.
pub const FRONTMATTER_SEQUENCE_SIZE: usize = 3;

/// The length of the longest of [`GFM_HTML_TAGFILTER_NAMES`], `plaintext`.
pub const GFM_HTML_TAGFILTER_SIZE_MAX: usize = 9;

/// The names of the tags that GFM's filter takes out, in lowercase: GFM, "Disallowed Raw HTML".
///
/// A tag's name is compared with these whatever its case.
pub const GFM_HTML_TAGFILTER_NAMES: [&str; 9] = [
    "iframe",
    "noembed",
    "noframes",
    "plaintext",
    "script",
    "style",
    "textarea",
    "title",
    "xmp",
];

/// How many spaces before a line ending make it a hard break, at least: CommonMark, "Hard line breaks".
pub const HARD_BREAK_PREFIX_SIZE_MIN: usize = 2;

/// How many `#` open a heading at most: CommonMark, "ATX headings". HTML has as many ranks of headings.
pub const HEADING_ATX_OPENING_FENCE_SIZE_MAX: usize = 6;

/// The names of the tags that begin a block of HTML which a blank line ends, in lowercase: CommonMark, "HTML
/// blocks", start condition 6.
///
/// A tag's name is compared with these whatever its case.
pub const HTML_BLOCK_NAMES: [&str; 62] = [
    "address",
    "article",
    "aside",
    "base",
    "basefont",
    "blockquote",
    "body",
    "caption",
    "center",
    "col",
    "colgroup",
    "dd",
    "details",
    "dialog",
    "dir",
    "div",
    "dl",
    "dt",
    "fieldset",
    "figcaption",
    "figure",
    "footer",
    "form",
    "frame",
    "frameset",
    "h1",
    "h2",
    "h3",
    "h4",
    "h5",
    "h6",
    "head",
    "header",
    "hr",
    "html",
    "iframe",
    "legend",
    "li",
    "link",
    "main",
    "menu",
    "menuitem",
    "nav",
    "noframes",
    "ol",
    "optgroup",
    "option",
    "p",
    "param",
    "search",
    "section",
    "summary",
    "table",
    "tbody",
    "td",
    "tfoot",
    "th",
    "thead",
    "title",
    "tr",
    "track",
    "ul",
];

/// What follows `<![` at the start of CDATA, `CDATA[`: CommonMark, "HTML blocks", start condition 5, and "Raw HTML".
pub const HTML_CDATA_PREFIX: [u8; 6] = *b"CDATA[";

/// The names of the tags that begin a block of HTML which only the closing tag ends, in lowercase: CommonMark,
/// "HTML blocks", start condition 1.
///
/// A tag's name is compared with these whatever its case.
pub const HTML_RAW_NAMES: [&str; 4] = ["pre", "script", "style", "textarea"];

/// The length of the longest of [`HTML_RAW_NAMES`], `textarea`.
pub const HTML_RAW_SIZE_MAX: usize = 8;

/// How many characters a link label may have at most: CommonMark, "Links".
pub const LINK_REFERENCE_SIZE_MAX: usize = 999;

/// One more than the digits that the number of an ordered list item may have: CommonMark, "List items", allows nine.
pub const LIST_ITEM_VALUE_SIZE_MAX: usize = 10;

/// How many markers a fence of math has at least.
pub const MATH_FLOW_SEQUENCE_SIZE_MIN: usize = 2;

/// How many parentheses may be open in a link destination at once: CommonMark, "Links", requires at least three.
pub const RESOURCE_DESTINATION_BALANCE_MAX: usize = 32;

/// The protocols that a link may have in safe HTML, as on GitHub.
pub const SAFE_PROTOCOL_HREF: [&str; 6] = ["http", "https", "irc", "ircs", "mailto", "xmpp"];

/// The protocols that an image may have in safe HTML, as on GitHub.
pub const SAFE_PROTOCOL_SRC: [&str; 2] = ["http", "https"];

/// The distance from one tab stop to the next, in columns: CommonMark, "Tabs".
pub const TAB_SIZE: usize = 4;

/// How many markers a thematic break has at least: CommonMark, "Thematic breaks".
pub const THEMATIC_BREAK_MARKER_COUNT_MIN: usize = 3;
