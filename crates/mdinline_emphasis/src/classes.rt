//! The classes of the characters beside a place of a document, as CommonMark's rules of emphasis ask for them.

ghost use Rattle.std.specs.Prelude.{◌≡◌, length, take, drop, true};
ghost use Rattle.mdinline_emphasis.specs.Classes.{in_ranges, are_sorted, shown_char, class_of, char_of, first_char, last_bytes, last_char, class_at_end, class_before, class_after};

use crate::unicode::{PUNCTUATION, WHITE_SPACE};
use markdown_base::util::char::Kind;
use std::str;

/// Whether a code point is in one of the ranges, which are sorted.
fn is_in(ranges: &[(u32, u32)], code: u32) -> bool
    requires sorted { are_sorted 0 ranges.now ≡ true }
    ensures { result ≡ in_ranges ranges.now code }
{
    let mut low = 0;
    let mut high = ranges.len();
    while low < high {
        let middle = low + (high - low) / 2;
        let (first, last) = ranges[middle];
        if code < first {
            high = middle;
        } else if last < code {
            low = middle + 1;
        } else {
            return true;
        }
    }
    false
}

/// The character that CommonMark sees: U+FFFD in place of U+0000.
fn shown_char(char: char) -> char
    ensures { result ≡ shown_char char }
{
    if char == '\0' {
        char::REPLACEMENT_CHARACTER
    } else {
        char
    }
}

/// The class of a character: white space is Unicode's category Zs, tab, line feed, form feed and carriage return, and punctuation the
/// categories P and S. U+0000 has the class of U+FFFD, which CommonMark sees in its place.
pub fn class_of(char: char) -> Kind
    ensures { result ≡ class_of char }
{
    let code = shown_char(char) as u32;
    if is_in(&WHITE_SPACE, code) {
        Kind::Whitespace
    } else if is_in(&PUNCTUATION, code) {
        Kind::Punctuation
    } else {
        Kind::Other
    }
}

/// The character whose UTF-8 these bytes are, if they are that of one character.
fn char_of(bytes: &[u8]) -> Option<char>
    ensures { result ≡ char_of bytes.now }
{
    match str::from_utf8(bytes) {
        Err(_) => None,
        Ok(text) => {
            let mut chars = text.chars();
            let first = chars.next();
            if chars.next().is_some() { None } else { first }
        }
    }
}

/// The first bytes, at most so many.
fn first_bytes(bytes: &[u8], count: usize) -> &[u8]
    ensures { result.now ≡ take count bytes.now }
{
    &bytes[..count.min(bytes.len())]
}

/// The last bytes, at most so many.
fn last_bytes(bytes: &[u8], count: usize) -> &[u8]
    ensures { result.now ≡ last_bytes count bytes.now }
{
    &bytes[bytes.len().saturating_sub(count)..]
}

/// The character with which bytes begin, if they begin with the UTF-8 of one.
fn first_char(bytes: &[u8]) -> Option<char>
    ensures { result ≡ first_char bytes.now }
{
    if let Some(char) = char_of(first_bytes(bytes, 1)) {
        return Some(char);
    }
    if let Some(char) = char_of(first_bytes(bytes, 2)) {
        return Some(char);
    }
    if let Some(char) = char_of(first_bytes(bytes, 3)) {
        return Some(char);
    }
    char_of(first_bytes(bytes, 4))
}

/// The character with which bytes end, if they end with the UTF-8 of one.
fn last_char(bytes: &[u8]) -> Option<char>
    ensures { result ≡ last_char bytes.now }
{
    if let Some(char) = char_of(last_bytes(bytes, 1)) {
        return Some(char);
    }
    if let Some(char) = char_of(last_bytes(bytes, 2)) {
        return Some(char);
    }
    if let Some(char) = char_of(last_bytes(bytes, 3)) {
        return Some(char);
    }
    char_of(last_bytes(bytes, 4))
}

/// The class of the character at an end of bytes, if they have one there.
fn class_at_end(bytes: &[u8], char: Option<char>) -> Kind
    ensures { result ≡ class_at_end bytes.now char }
{
    match char {
        _ if bytes.is_empty() => Kind::Whitespace,
        None => Kind::Other,
        Some(char) => class_of(char),
    }
}

/// The class of the character that ends at an index of a document's bytes. The start of the document counts as white space, and bytes
/// that are no UTF-8 as letters.
pub fn class_before(bytes: &[u8], index: usize) -> Kind
    ensures { result ≡ class_before bytes.now index }
{
    let before = first_bytes(bytes, index);
    class_at_end(before, last_char(before))
}

/// The class of the character that begins at an index of a document's bytes. The end of the document counts as white space, and bytes
/// that are no UTF-8 as letters.
pub fn class_after(bytes: &[u8], index: usize) -> Kind
    ensures { result ≡ class_after bytes.now index }
{
    let behind = &bytes[index.min(bytes.len())..];
    class_at_end(behind, first_char(behind))
}
