//! Characters: the one at an index of a text's bytes, its class, and how messages show it.

ghost use Rattle.std.specs.Prelude.{◌≡◌, ◌<◌, ◌≤◌, length, MatchBool, IsUtf8, IsCharBoundary, IfOk, string_bytes};
ghost use Rattle.markdown_base.specs.Classes.{char_before, char_after, IsClassOf, IsClassOfOpt};
ghost use Rattle.markdown_base.specs.CharTexts.{code_point, shown_char, shown_char_opt, shown_byte_opt};

use std::alloc::{AllocError, Global};

/// The class of a character.
#[derive(Debug, Drop, PartialEq, Eq)]
pub enum Kind {
    /// White space, or no character.
    Whitespace,
    /// Punctuation.
    Punctuation,
    /// Any other character.
    Other,
}

/// The character that ends at an index into the bytes of a text, if it is not the text's start.
pub fn before_index(bytes: &[u8], index: usize) -> Option<char>
    requires text { IsUtf8 bytes.now }
    requires boundary { IsCharBoundary bytes.now index }
    ensures character { result ≡ char_before bytes.now index }
{
    if index == 0 {
        return None;
    }
    let start = char_start(bytes, index);
    match str::from_utf8(&bytes[start..index]) {
        Ok(text) => text.chars().last(),
        Err(_) => None,
    }
}

/// The character that begins at an index into the bytes of a text, if it is not the text's end.
pub fn after_index(bytes: &[u8], index: usize) -> Option<char>
    requires text { IsUtf8 bytes.now }
    requires boundary { IsCharBoundary bytes.now index }
    ensures character { result ≡ char_after bytes.now index }
{
    if index == bytes.len() {
        return None;
    }
    let end = char_end(bytes, index);
    match str::from_utf8(&bytes[index..end]) {
        Ok(text) => text.chars().next(),
        Err(_) => None,
    }
}

/// The class of the character that begins at an index into the bytes of a text.
///
/// White space, the end of the text and ASCII punctuation are known without `punctuation`, which is called for any other
/// character. If it is a function, this is the class that [`classify_opt`] returns for that character.
pub fn kind_after_index<P: Fn(char) -> bool>(bytes: &[u8], index: usize, punctuation: &P) -> Kind
    requires text { IsUtf8 bytes.now }
    requires boundary { IsCharBoundary bytes.now index }
    requires callable { P.IsAlwaysCallable punctuation.now }
    ensures class { IsClassOfOpt (P.post punctuation.now) (char_after bytes.now index) result }
{
    match bytes.get(index) {
        None => Kind::Whitespace,
        Some(byte) if byte.is_ascii_whitespace() => Kind::Whitespace,
        Some(byte) if byte.is_ascii_punctuation() => Kind::Punctuation,
        Some(_) => classify_opt(after_index(bytes, index), punctuation),
    }
}

/// The class of a character: white space, else punctuation, else other.
///
/// `punctuation` is asked of a character that is neither white space nor ASCII punctuation, also of a letter or a digit.
pub fn classify<P: Fn(char) -> bool>(char: char, punctuation: &P) -> Kind
    requires callable { P.IsAlwaysCallable punctuation.now }
    ensures class { IsClassOf (P.post punctuation.now) char result }
{
    if char.is_whitespace() {
        Kind::Whitespace
    } else if char.is_ascii_punctuation() || punctuation(char) {
        Kind::Punctuation
    } else {
        Kind::Other
    }
}

/// The class of a character, or of the end of a text, which counts as white space.
///
/// `punctuation` is asked of a character that is neither white space nor ASCII punctuation, also of a letter or a digit.
pub fn classify_opt<P: Fn(char) -> bool>(char: Option<char>, punctuation: &P) -> Kind
    requires callable { P.IsAlwaysCallable punctuation.now }
    ensures class { IsClassOfOpt (P.post punctuation.now) char result }
{
    match char {
        None => Kind::Whitespace,
        Some(char) => classify(char, punctuation),
    }
}

/// A character as messages show it: itself, if it is visible ASCII, and its number.
///
/// Returns `AllocError` if it runs out of memory.
pub fn format(alloc: Global, char: char) -> Result<String, AllocError>
    ensures shown { IfOk result (λ text. string_bytes text ≡ shown_char char) }
{
    let code = code_point(alloc, char as u32)?;
    match char {
        '`' => format!(in alloc; "`` ` `` ({code})"),
        '!'..='~' => format!(in alloc; "`{char}` ({code})"),
        _ => Ok(code),
    }
}

/// A character, or the end of the input, as messages show it.
///
/// Returns `AllocError` if it runs out of memory.
pub fn format_opt(alloc: Global, char: Option<char>) -> Result<String, AllocError>
    ensures shown { IfOk result (λ text. string_bytes text ≡ shown_char_opt char) }
{
    match char {
        None => String::from_str(alloc, "end of file"),
        Some(char) => {
            let shown = format(alloc, char)?;
            format!(in alloc; "character {shown}")
        }
    }
}

/// A byte as messages show it: as the character with its number.
///
/// Returns `AllocError` if it runs out of memory.
pub fn format_byte(alloc: Global, byte: u8) -> Result<String, AllocError>
    ensures shown { IfOk result (λ text. string_bytes text ≡ shown_char byte) }
{
    format(alloc, char::from(byte))
}

/// A byte, or the end of the input, as messages show it.
///
/// Returns `AllocError` if it runs out of memory.
pub fn format_byte_opt(alloc: Global, byte: Option<u8>) -> Result<String, AllocError>
    ensures shown { IfOk result (λ text. string_bytes text ≡ shown_byte_opt byte) }
{
    match byte {
        None => String::from_str(alloc, "end of file"),
        Some(byte) => {
            let shown = format_byte(alloc, byte)?;
            format!(in alloc; "byte {shown}")
        }
    }
}

/// The number of a character as a code point.
fn code_point(alloc: Global, number: u32) -> Result<String, AllocError>
    ensures shown { IfOk result (λ text. string_bytes text ≡ code_point number) }
{
    format!(in alloc; "U+{number:04X}")
}

/// The index at which the character that ends at an index begins.
fn char_start(bytes: &[u8], index: usize) -> usize
    requires text { IsUtf8 bytes.now }
    requires some { 0 < index }
    requires inside { index ≤ length bytes.now }
    ensures before { result < index }
    ensures boundary { IsCharBoundary bytes.now result }
{
    let mut start = index - 1;
    while is_continuation(bytes[start]) {
        start -= 1;
    }
    start
}

/// The index at which the character that begins at an index ends.
fn char_end(bytes: &[u8], index: usize) -> usize
    requires inside { index < length bytes.now }
    ensures after { index < result }
    ensures inside { result ≤ length bytes.now }
    ensures boundary { IsCharBoundary bytes.now result }
{
    let mut end = index + 1;
    while end < bytes.len() && is_continuation(bytes[end]) {
        end += 1;
    }
    end
}

/// Whether a byte goes on with a character of UTF-8, and does not begin one.
fn is_continuation(byte: u8) -> bool
    ensures cases { MatchBool result ((128 ≤ byte) × (byte < 192)) (128 ≤ byte → 192 ≤ byte) }
{
    matches!(byte, 0x80..=0xbf)
}
