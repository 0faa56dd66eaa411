//! A list of events as nested spans, with the text of each innermost one.

use crate::points::is_exit_of;
use markdown::event::{Event, Kind};
use std::alloc::{AllocError, Global};

/// A list of events over a document: `Paragraph[Data"a" LineEnding"%0A" Data"b"]`. A span with spans in it shows these in brackets, and
/// another one its text: a byte of printable ASCII is shown as it is, but a quotation mark and a percent sign, and each other byte as a
/// percent sign and two hexadecimal digits. A span that begins or ends in a tab, at its n-th column above 0, has `+n` there, as in
/// `SpaceOrTab"  "+2 Data+2"%09a"`.
///
/// It fails only if it runs out of memory.
pub fn spans_of(alloc: Global, bytes: &[u8], events: &[Event]) -> Result<String, AllocError> {
    let mut text = String::new(alloc);
    let mut before = None;
    for (index, event) in events.iter().enumerate() {
        push_event(
            &mut text,
            bytes,
            event,
            before,
            events.get(index.saturating_add(1)),
        )?;
        before = Some(event);
    }
    Ok(text)
}

/// Appends what an event adds, between the event before it and the one behind it.
fn push_event(
    text: &mut String,
    bytes: &[u8],
    event: &Event,
    before: Option<&Event>,
    behind: Option<&Event>,
) -> Result<(), AllocError> {
    match (event.kind, before) {
        (Kind::Exit, Some(enter)) if is_exit_of(Some(event), before) => {
            push_text(text, bytes, enter, event)
        }
        (Kind::Exit, _) => text.push(']'),
        (Kind::Enter, _) => {
            if before.is_some_and(|it| it.kind == Kind::Exit) {
                text.push(' ')?;
            }
            text.push_str(event.name.as_str())?;
            if is_exit_of(behind, Some(event)) {
                return Ok(());
            }
            text.push('[')
        }
    }
}

/// Appends the text of a span from one event to another, and the columns of tabs at which it begins and ends.
fn push_text(
    text: &mut String,
    bytes: &[u8],
    enter: &Event,
    exit: &Event,
) -> Result<(), AllocError> {
    push_column(text, enter.point.vs)?;
    text.push('"')?;
    for byte in bytes.iter().take(exit.point.index).skip(enter.point.index) {
        push_byte(text, *byte)?;
    }
    text.push('"')?;
    push_column(text, exit.point.vs)
}

/// Appends a column in a tab, if it is not the first one.
fn push_column(text: &mut String, vs: usize) -> Result<(), AllocError> {
    if vs > 0 {
        return write!(text, "+{vs}");
    }
    Ok(())
}

/// The digits of hexadecimal numbers.
const DIGITS: &[u8; 16] = b"0123456789ABCDEF";

/// Appends a byte: itself, or a percent sign and its two digits.
fn push_byte(text: &mut String, byte: u8) -> Result<(), AllocError> {
    if matches!(byte, b' '..=b'~') && byte != b'"' && byte != b'%' {
        return text.push(char::from(byte));
    }
    text.push('%')?;
    text.push(char::from(DIGITS[usize::from(byte / 16)]))?;
    text.push(char::from(DIGITS[usize::from(byte % 16)]))
}
