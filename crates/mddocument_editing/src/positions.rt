//! Places in a document as editors ask for them: by line and character, as the Language Server Protocol has it.
//!
//! A line ends with a line feed, a carriage return, or both in this order. The document is any bytes: its characters are those of UTF-8, and
//! each byte that is in none is a character of its own, of one unit. A decoder may put one U+FFFD in the place of up to three such bytes; an
//! editor that does so and keeps the U+FFFD has other units there.

ghost use Rattle.std.specs.Prelude.{◌≡◌, ◌+◌, ◌<◌, ◌≤◌, IfSome, length, slice_get, take_while};
ghost use Rattle.std.specs.Str.{continuation_len, is_utf8};
ghost use Rattle.mddocument_editing.specs.PositionParts.{endings};
ghost use Rattle.mddocument_editing.specs.Positions.{character_in, first_size, index_in, is_in_line, line_of, offset_of, position_of, start_of, starts, text_at, units};

use markdown_base::util::place::ends_line;
use std::str;

/// A place in a document.
#[derive(Clone, Copy, Debug, PartialEq, Eq)]
pub struct Position {
    /// The line, from 0.
    pub line: usize,
    /// The units of the line in front of the place.
    pub character: usize,
}

/// What the units of characters are.
#[derive(Clone, Copy, Debug, PartialEq, Eq)]
pub enum Encoding {
    /// The bytes of UTF-8.
    Utf8,
    /// The units of UTF-16, of which a character above U+FFFF has two.
    Utf16,
}

/// The number of bytes of the character that a byte begins, if it begins one.
fn led_size(byte: u8) -> usize
    ensures { result ≡ continuation_len byte + 1 }
{
    match byte {
        0..=0x7f => 1,
        0x80..=0xdf => 2,
        0xe0..=0xef => 3,
        _ => 4,
    }
}

/// Whether bytes are UTF-8.
fn is_utf8(bytes: &[u8]) -> bool
    ensures { result ≡ is_utf8 bytes.now }
{
    str::from_utf8(bytes).is_ok()
}

/// The number of bytes of the character with which bytes begin. A byte that is in no character of UTF-8 is one.
fn first_size(bytes: &[u8]) -> usize
    requires { 0 < length bytes.now }
    ensures size { result ≡ first_size bytes.now }
    ensures some { 0 < result }
    ensures within { result ≤ length bytes.now }
{
    let size = led_size(bytes[0]);
    if size > 1 && size <= bytes.len() && is_utf8(&bytes[..size]) {
        size
    } else {
        1
    }
}

/// The units of a character, by its number of bytes.
fn units(size: usize, encoding: Encoding) -> usize
    ensures { result ≡ units encoding size }
{
    match encoding {
        Encoding::Utf8 => size,
        Encoding::Utf16 => { if size == 4 { 2 } else { 1 } }
    }
}

/// The byte index of a place in a text, by the units in front of it; of the text's end, if there are fewer. `None` in a character.
fn index_in(text: &[u8], character: usize, encoding: Encoding) -> Option<usize>
    ensures index { result ≡ index_in encoding text.now character }
    ensures within { IfSome result (λ index. index ≤ length text.now) }
{
    let mut index = 0;
    let mut passed = 0;
    while index < text.len() && passed < character {
        let size = first_size(&text[index..]);
        index += size;
        passed += units(size, encoding);
    }
    if passed > character {
        None
    } else {
        Some(index)
    }
}

/// The units in front of a place in a text, by its byte index; of the text's end, if it is behind that. `None` in a character.
fn character_in(text: &[u8], index: usize, encoding: Encoding) -> Option<usize>
    ensures { result ≡ character_in encoding text.now index }
{
    let place = index.min(text.len());
    let mut passed = 0;
    let mut character = 0;
    while passed < place {
        let size = first_size(&text[passed..]);
        passed += size;
        character += units(size, encoding);
    }
    if passed > place {
        None
    } else {
        Some(character)
    }
}

/// How many bytes are in front of the first line ending.
fn line_size(bytes: &[u8]) -> usize
    ensures size { result ≡ length (take_while is_in_line bytes.now) }
{
    bytes
        .iter()
        .take_while(|byte| **byte != b'\n' && **byte != b'\r')
        .count()
}

/// The text of the line that starts at a byte index, without its line ending.
fn text_at(bytes: &[u8], start: usize) -> &[u8]
    requires { start ≤ length bytes.now }
    ensures text { result.now ≡ text_at bytes.now start }
    ensures within { start + length result.now ≤ length bytes.now }
{
    let rest = &bytes[start..];
    &rest[..line_size(rest)]
}

/// Where a line starts, if there is one of this number.
fn line_start(bytes: &[u8], line: usize) -> Option<usize>
    ensures start { result ≡ slice_get (starts bytes.now) line }
    ensures within { IfSome result (λ start. start ≤ length bytes.now) }
{
    if line == 0 {
        return Some(0);
    }
    let mut passed = 0;
    for index in 0..bytes.len() {
        if ends_line(bytes, index) {
            passed += 1;
            if passed == line {
                return Some(index + 1);
            }
        }
    }
    None
}

/// The number of the line that a byte index is in, and where it starts.
fn line_at(bytes: &[u8], offset: usize) -> (usize, usize)
    requires { offset ≤ length bytes.now }
    ensures line { result.0 ≡ line_of bytes.now offset }
    ensures start { result.1 ≡ start_of bytes.now offset }
    ensures within { result.1 ≤ offset }
    ensures few { result.0 ≤ offset }
{
    let mut line = 0;
    let mut start = 0;
    for index in 0..offset {
        if ends_line(bytes, index) {
            line += 1;
            start = index + 1;
        }
    }
    (line, start)
}

/// The number of line endings. One less than the number of lines.
pub fn line_endings(bytes: &[u8]) -> usize
    ensures { result ≡ endings bytes.now }
{
    line_at(bytes, bytes.len()).0
}

/// The byte index of a position.
///
/// `None` for a line that the document does not have, and in a character: between the two units of UTF-16 of one, or at a byte that does not
/// begin one. A position behind a line's end is the line's end, in front of its line ending.
pub fn offset_of(bytes: &[u8], position: Position, encoding: Encoding) -> Option<usize>
    ensures offset { result ≡ offset_of encoding bytes.now position }
    ensures within { IfSome result (λ offset. offset ≤ length bytes.now) }
{
    let start = line_start(bytes, position.line)?;
    let index = index_in(text_at(bytes, start), position.character, encoding)?;
    Some(start + index)
}

/// The position of a byte index.
///
/// `None` behind the document's end, and in a character. Between a carriage return and its line feed it is the line's end.
pub fn position_of(bytes: &[u8], offset: usize, encoding: Encoding) -> Option<Position>
    ensures position { result ≡ position_of encoding bytes.now offset }
    ensures few { IfSome result (λ position. position.line ≤ offset) }
{
    if offset > bytes.len() {
        return None;
    }
    let (line, start) = line_at(bytes, offset);
    let character = character_in(text_at(bytes, start), offset - start, encoding)?;
    Some(Position { line, character })
}
