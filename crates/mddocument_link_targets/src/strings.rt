//! The text of strings: what a destination, a title or a label says.

ghost use Rattle.std.specs.Char.{encode_utf8};
ghost use Rattle.std.specs.Prelude.{◌≡◌, ◌⊎◌, ◌+◌, ◌++◌, ◌<◌, ◌≤◌, IfOk, OnOk, length, slice_get, slice_range};
ghost use Rattle.mddocument_link_targets.specs.declared.strings.Reading.TheVariants as reading;
ghost use Rattle.mddocument_link_targets.specs.Strings.{given, given_at, is_numeral, named, numeric, reference, text};

use markdown_base::event::{Event, Kind, Name};
use mdconstructs_loop_counts::Turns;
use mdinline_characters::{find, numeric};
use std::alloc::{AllocError, Global};
use std::str;
use std::sync::ledger::Ledger;

/// How the text of a string is read.
#[derive(Clone, Copy, Debug, PartialEq, Eq)]
pub enum Reading {
    /// Byte by byte, without the markers of block quotes.
    AsWritten,
    /// With what its escapes and references stand for.
    Decoded,
}

/// The bytes from an index up to another, as far as there are any.
pub fn slice(bytes: &[u8], from: usize, to: usize) -> &[u8]
    ensures { result.now ≡ slice_range bytes.now from to }
{
    let end = to.min(bytes.len());
    if from < end { &bytes[from..end] } else { &[] }
}

/// Whether these bytes are one digit or more of a base.
fn is_numeral(base: u32, digits: &[u8]) -> bool
    requires { (base ≡ 10) ⊎ (base ≡ 16) }
    ensures { result ≡ is_numeral base digits.now }
{
    let mut next = 0;
    while next < digits.len() {
        if !char::from(digits[next]).is_digit(base) {
            return false;
        }
        next += 1;
    }
    next > 0
}

/// Adds a character in UTF-8.
fn push_character(text: &mut Vec<u8>, character: char) -> Result<(), AllocError>
    ensures { OnOk result (text.new.items ≡ text.old.items ++ encode_utf8 character) }
{
    let mut buffer = [0; 4];
    text.extend_from_slice(character.encode_utf8(&mut buffer).as_bytes())
}

/// Adds the character with a number.
fn push_numeric(text: &mut Vec<u8>, base: u32, digits: &[u8]) -> Result<(), AllocError>
    requires { (base ≡ 10) ⊎ (base ≡ 16) }
    ensures { OnOk result (text.new.items ≡ text.old.items ++ numeric base digits.now) }
{
    if !is_numeral(base, digits) {
        return Ok(());
    }
    match str::from_utf8(digits) {
        Ok(digits) => push_character(text, numeric(digits, base)),
        Err(_) => Ok(()),
    }
}

/// Adds the characters that a name stands for.
fn push_named(text: &mut Vec<u8>, name: &[u8]) -> Result<(), AllocError>
    ensures { OnOk result (text.new.items ≡ text.old.items ++ named name.now) }
{
    match find(name) {
        None => Ok(()),
        Some((first, None)) => push_character(text, first),
        Some((first, Some(second))) => {
            push_character(text, first)?;
            push_character(text, second)
        }
    }
}

/// Adds what a character reference stands for, by the byte in front of its value.
fn push_reference(text: &mut Vec<u8>, mark: Option<u8>, value: &[u8]) -> Result<(), AllocError>
    ensures { OnOk result (text.new.items ≡ text.old.items ++ reference mark value.now) }
{
    match mark {
        None => Ok(()),
        Some(b'#') => push_numeric(text, 10, value),
        Some(b'x' | b'X') => push_numeric(text, 16, value),
        Some(_) => push_named(text, value),
    }
}

/// Adds what an innermost span from a byte up to another gives, if it is decoded.
fn push_decoded(
    text: &mut Vec<u8>,
    bytes: &[u8],
    name: Name,
    from: usize,
    to: usize,
) -> Result<(), AllocError>
    ensures { OnOk result (text.new.items ≡ text.old.items ++ given bytes.now reading.Decoded name from to) }
{
    match name {
        Name::LineEnding => Ok(text.push(b'\n')?),
        Name::CharacterReferenceValue => {
            let mark = bytes.get(from.saturating_sub(1)).copied();
            push_reference(text, mark, slice(bytes, from, to))
        }
        Name::Data | Name::CharacterEscapeValue => text.extend_from_slice(slice(bytes, from, to)),
        _ => Ok(()),
    }
}

/// Adds what an innermost span from a byte up to another gives.
fn push_given(
    text: &mut Vec<u8>,
    bytes: &[u8],
    reading: Reading,
    name: Name,
    from: usize,
    to: usize,
) -> Result<(), AllocError>
    ensures { OnOk result (text.new.items ≡ text.old.items ++ given bytes.now reading name from to) }
{
    match reading {
        Reading::Decoded => push_decoded(text, bytes, name, from, to),
        Reading::AsWritten => {
            if name == Name::BlockQuoteMarker {
                Ok(())
            } else {
                text.extend_from_slice(slice(bytes, from, to))
            }
        }
    }
}

/// Adds what the span that an event enters gives, if it is an innermost one, by the events behind its enter. Fails only if it runs out of memory.
pub fn push_given_at(
    text: &mut Vec<u8>,
    bytes: &[u8],
    reading: Reading,
    event: &Event,
    behind: &[Event],
) -> Result<(), AllocError>
    ensures { OnOk result (text.new.items ≡ text.old.items ++ given_at bytes.now reading event.now behind.now) }
{
    match behind {
        [exit, ..] if event.kind == Kind::Enter && exit.kind == Kind::Exit => push_given(
            text,
            bytes,
            reading,
            event.name,
            event.point.index,
            exit.point.index,
        ),
        _ => Ok(()),
    }
}

/// The text of a string, by the events in it. A turn is a look at an event.
pub(crate) fn text_of<L: Ledger>(
    alloc: Global,
    bytes: &[u8],
    reading: Reading,
    events: &[Event],
    turns: &mut Turns<L>,
) -> Result<Vec<u8>, AllocError>
    ensures text { IfOk result (λ out. out.items ≡ text bytes.now reading events.now) }
    ensures turns { turns.new ≤ turns.old + length events.now }
{
    let mut out = Vec::new(alloc);
    for (i, event) in events.iter().enumerate() {
        turns.add_one();
        push_given_at(&mut out, bytes, reading, event, &events[i + 1..])?;
    }
    Ok(out)
}
