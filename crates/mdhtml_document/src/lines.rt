//! Lines of text that spans say: code, and HTML within text.

ghost use Rattle.std.specs.List.{list_all};
ghost use Rattle.std.specs.Prelude.{◌≡◌, ◌==◌, ◌++◌, ◌∷◌, IfOk, IfSome, OnOk};
ghost use Rattle.mdhtml_document.specs.Values.{cell_text, code_text, html_text, is_escape, lines_from, stripped, unescaped};

use crate::spans::bytes_at;
use markdown_base::event::{Event, Name};
use mddocument_link_targets::spans::enters;
use std::alloc::{AllocError, Global};

/// Whether all bytes are spaces.
fn is_spaces(text: &[u8]) -> bool
    ensures { result ≡ list_all (λ b. b == 32) text.now }
{
    text.iter().all(|byte| *byte == b' ')
}

/// A text without a space at both ends, if it has both, and more than spaces.
fn stripped(text: &[u8]) -> &[u8]
    ensures { result.now ≡ stripped text.now }
{
    let len = text.len();
    if len > 1 && text[0] == b' ' && text[len - 1] == b' ' && !is_spaces(text) {
        &text[1..len - 1]
    } else {
        text
    }
}

/// Adds what an event says in lines.
fn push_line(
    text: &mut Vec<u8>,
    bytes: &[u8],
    name: Name,
    ending: u8,
    event: &Event,
    behind: &[Event],
) -> Result<(), AllocError>
    ensures { OnOk result (text.new.items ++ lines_from bytes.now name ending behind.now ≡ text.old.items ++ lines_from bytes.now name ending (event.now ∷ behind.now)) }
{
    if enters(event, Name::LineEnding) {
        text.push(ending)?;
    } else if enters(event, name) {
        text.extend_from_slice(bytes_at(bytes, event, behind))?;
    }
    Ok(())
}

/// Lines of spans of a name, with this byte for each line ending.
fn lines_of(
    alloc: Global,
    bytes: &[u8],
    name: Name,
    ending: u8,
    events: &[Event],
) -> Result<Vec<u8>, AllocError>
    ensures { IfOk result (λ text. text.items ≡ lines_from bytes.now name ending events.now) }
{
    let mut text = Vec::new(alloc);
    for (i, event) in events.iter().enumerate() {
        push_line(&mut text, bytes, name, ending, event, &events[i + 1..])?;
    }
    Ok(text)
}

/// The bytes of the one span of a name behind an event, by those of the one before it. Nothing, if there are both, or a line ending.
fn one_behind<'a>(
    bytes: &'a [u8],
    name: Name,
    text: &'a [u8],
    event: &Event,
    behind: &[Event],
) -> Option<&'a [u8]>
    ensures { IfSome result (λ next. next.now ++ lines_from bytes.now name 32 behind.now ≡ text.now ++ lines_from bytes.now name 32 (event.now ∷ behind.now)) }
{
    if enters(event, Name::LineEnding) {
        return None;
    }
    if !enters(event, name) {
        return Some(text);
    }
    if text.is_empty() {
        Some(bytes_at(bytes, event, behind))
    } else {
        None
    }
}

/// The bytes of the one span of a name. Nothing, if there are more, or a line ending.
fn one_of<'a>(bytes: &'a [u8], name: Name, events: &[Event]) -> Option<&'a [u8]>
    ensures { IfSome result (λ text. text.now ≡ lines_from bytes.now name 32 events.now) }
{
    let mut text: &[u8] = &[];
    for (i, event) in events.iter().enumerate() {
        match one_behind(bytes, name, text, event, &events[i + 1..]) {
            None => return None,
            Some(next) => text = next,
        }
    }
    Some(text)
}

/// What a code span says, by the events in it, if that is bytes of the document.
pub(crate) fn code_in<'a>(bytes: &'a [u8], events: &[Event]) -> Option<&'a [u8]>
    ensures { IfSome result (λ text. text.now ≡ code_text bytes.now events.now) }
{
    match one_of(bytes, Name::CodeTextData, events) {
        None => None,
        Some(text) => Some(stripped(text)),
    }
}

/// What a code span says, by the events in it.
pub(crate) fn code_text(
    alloc: Global,
    bytes: &[u8],
    events: &[Event],
) -> Result<Vec<u8>, AllocError>
    ensures { IfOk result (λ text. text.items ≡ code_text bytes.now events.now) }
{
    let text = lines_of(alloc, bytes, Name::CodeTextData, b' ', events)?;
    let mut inner = Vec::new(alloc);
    inner.extend_from_slice(stripped(text.as_slice()))?;
    Ok(inner)
}

/// HTML within text, by the events in it.
pub(crate) fn html_text(
    alloc: Global,
    bytes: &[u8],
    events: &[Event],
) -> Result<Vec<u8>, AllocError>
    ensures { IfOk result (λ text. text.items ≡ html_text bytes.now events.now) }
{
    lines_of(alloc, bytes, Name::HtmlTextData, b'\n', events)
}

/// Whether a byte is a backslash directly before a pipe, by the bytes behind it.
fn is_escape(byte: u8, behind: &[u8]) -> bool
    ensures { result ≡ is_escape byte behind.now }
{
    match behind.first() {
        None => false,
        Some(next) => byte == b'\\' && *next == b'|',
    }
}

/// A text without a backslash directly before a pipe.
fn unescaped(alloc: Global, text: &[u8]) -> Result<Vec<u8>, AllocError>
    ensures { IfOk result (λ out. out.items ≡ unescaped text.now) }
{
    let mut out = Vec::new(alloc);
    let mut rest = text;
    'bytes: while let [byte, behind @ ..] = rest {
        rest = behind;
        if is_escape(*byte, behind) {
            continue;
        }
        out.push(*byte)?;
    }
    Ok(out)
}

/// Code or HTML, by whether it is in a cell of a table.
pub(crate) fn cell_text(
    alloc: Global,
    is_in_cell: bool,
    text: Vec<u8>,
) -> Result<Vec<u8>, AllocError>
    ensures { IfOk result (λ out. out.items ≡ cell_text is_in_cell text.items) }
{
    if is_in_cell {
        unescaped(alloc, text.as_slice())
    } else {
        Ok(text)
    }
}
