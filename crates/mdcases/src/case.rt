//! A case: a document, how it is read, and the form of its events.

ghost use Rattle.std.specs.Prelude.{◌<◌, IfSome};

use mdevents_program::arguments::read_words;
use mdevents_program::choice::Choice;
use std::alloc::{AllocError, Global};
use std::str;

/// How events are shown.
#[derive(Clone, Copy)]
pub(crate) enum Form {
    /// Nested spans, with the text of each innermost one.
    Spans,
    /// All places and links.
    Points,
    /// The lines that `mdevents` writes.
    Lines,
}

/// How a document is read.
#[derive(Clone, Copy)]
pub(crate) enum Reading {
    /// As `mdevents` reads it.
    Program(Choice),
    /// As inline text.
    InlineText,
    /// As text.
    Text,
}

/// A document, how it is read, and how its events are shown.
#[derive(Drop)]
pub(crate) struct Case {
    pub(crate) form: Form,
    pub(crate) reading: Reading,
    pub(crate) document: Vec<u8>,
}

/// The case of a line. Returns `None` if it is none. It fails only if it runs out of memory.
pub(crate) fn case_of(alloc: Global, line: &[u8]) -> Result<Option<Case>, AllocError> {
    let Ok(line) = str::from_utf8(line) else {
        return Ok(None);
    };
    let Some((head, document)) = line.split_once('|') else {
        return Ok(None);
    };
    let mut words = head.split(' ');
    let Some(form) = form_of(words.next().unwrap_or("")) else {
        return Ok(None);
    };
    let mut others = Vec::new(alloc);
    for word in words {
        others.push(String::from_str(alloc, word)?)?;
    }
    let Some(reading) = reading_of(others.as_slice()) else {
        return Ok(None);
    };
    let document = document_of(alloc, document.as_bytes())?;
    Ok(Some(Case {
        form,
        reading,
        document,
    }))
}

/// The form with this name.
fn form_of(word: &str) -> Option<Form> {
    match word {
        "spans" => Some(Form::Spans),
        "points" => Some(Form::Points),
        "lines" => Some(Form::Lines),
        _ => None,
    }
}

/// What these words choose.
fn reading_of(words: &[String]) -> Option<Reading> {
    if let [word] = words {
        if word.as_str() == "inline-text" {
            return Some(Reading::InlineText);
        }
        if word.as_str() == "text" {
            return Some(Reading::Text);
        }
    }
    let choice = read_words(words)?;
    Some(Reading::Program(choice))
}

/// The bytes of a document in which a percent sign and two digits are a byte. Other percent signs are themselves.
fn document_of(alloc: Global, text: &[u8]) -> Result<Vec<u8>, AllocError> {
    let mut bytes = Vec::new(alloc);
    let mut parts = text.split(|byte| *byte == b'%');
    bytes.extend_from_slice(parts.next().unwrap_or(&[]))?;
    for part in parts {
        match byte_of(part) {
            Some((byte, behind)) => {
                bytes.push(byte)?;
                bytes.extend_from_slice(behind)?;
            }
            None => {
                bytes.push(b'%')?;
                bytes.extend_from_slice(part)?;
            }
        }
    }
    Ok(bytes)
}

/// The byte of two digits at the start of a text, and what is behind them.
fn byte_of(text: &[u8]) -> Option<(u8, &[u8])> {
    match text {
        [high, low, behind @ ..] => Some((digit_of(*high)? * 16 + digit_of(*low)?, behind)),
        _ => None,
    }
}

/// The number of a hexadecimal digit.
fn digit_of(byte: u8) -> Option<u8>
    ensures { IfSome result (λ digit. digit < 16) }
{
    match byte {
        b'0'..=b'9' => Some(byte - b'0'),
        b'A'..=b'F' => Some(byte - b'A' + 10),
        _ => None,
    }
}
