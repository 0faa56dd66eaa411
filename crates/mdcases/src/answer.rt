//! The answers to cases: the events of their documents.

ghost use Rattle.std.specs.Prelude.{◌≤◌, IfSome};

use crate::case::{Case, Form, Reading, case_of};
use markdown::configuration::{ParseOptions, TabSize};
use markdown::event::Event;
use markdown::tokenizer::cuts_every;
use mdcases_forms::points::shown;
use mdcases_forms::spans::spans_of;
use mdconstructs::limit::limit_of;
use mdconstructs::{read_inline_text, read_text};
use mdevents_program::choice::{Choice, events_by};
use mdevents_program::failure::Failure;
use mdevents_program::program::write_events;
use mdevents_program::read::read_to_end;
use mdevents_program::write::write_lines;
use std::alloc::{AllocError, Global};
use std::io::{Read, Write};

/// Reads cases to the end, and writes each with its answer.
pub(crate) fn answer_cases<R: Read, W: Write>(
    alloc: Global,
    reader: &mut R,
    writer: &mut W,
) -> Result<(), Failure> {
    let bytes = read_to_end(alloc, reader, TabSize::default())?;
    for line in bytes.split(|byte| *byte == b'\n') {
        if line.is_empty() {
            continue;
        }
        let answer = answered(alloc, line)?;
        if writer.write_all(answer.as_slice()).is_err() {
            return Err(Failure::Write);
        }
    }
    Ok(())
}

/// A line, and below it the answer to its case.
fn answered(alloc: Global, line: &[u8]) -> Result<Vec<u8>, Failure> {
    let mut text = Vec::new(alloc);
    text.extend_from_slice(line)?;
    text.extend_from_slice(b"\n")?;
    match case_of(alloc, line)? {
        Some(case) => push_answer(alloc, &mut text, &case)?,
        None => text.extend_from_slice(b"no case\n")?,
    }
    Ok(text)
}

/// Appends the answer to a case: the events of its document, and again those of each way to cut it in which they are others.
fn push_answer(alloc: Global, text: &mut Vec<u8>, case: &Case) -> Result<(), Failure> {
    let uncut = events_cut(alloc, case, None)?;
    push_form(alloc, text, case, None, uncut.as_slice())?;
    for cut in 1..13 {
        let cut = Some(cut);
        let events = events_cut(alloc, case, cut)?;
        if events.as_slice() != uncut.as_slice() {
            text.extend_from_slice(b"cut otherwise: ")?;
            push_form(alloc, text, case, cut, events.as_slice())?;
        }
    }
    Ok(())
}

/// Appends the events of a document in the form of its case, and ends the line. No events are a word of their own.
fn push_form(
    alloc: Global,
    text: &mut Vec<u8>,
    case: &Case,
    cut: Option<usize>,
    events: &[Event],
) -> Result<(), Failure>
    requires cut { IfSome cut (λ n. 1 ≤ n) }
{
    match case.form {
        Form::Lines => push_lines(alloc, text, case, cut, events)?,
        _ if events.is_empty() => {}
        Form::Spans => {
            let spans = spans_of(alloc, case.document.as_slice(), events)?;
            push_line(text, spans.as_str())?;
        }
        Form::Points => {
            let points = shown(alloc, events)?;
            push_line(text, points.as_str())?;
        }
    }
    if events.is_empty() {
        push_line(text, "nothing")?;
    }
    Ok(())
}

/// Appends a line.
fn push_line(text: &mut Vec<u8>, line: &str) -> Result<(), AllocError> {
    text.extend_from_slice(line.as_bytes())?;
    text.extend_from_slice(b"\n")
}

/// Appends the lines of the events of a document, as the program writes them.
fn push_lines(
    alloc: Global,
    text: &mut Vec<u8>,
    case: &Case,
    cut: Option<usize>,
    events: &[Event],
) -> Result<(), Failure>
    requires cut { IfSome cut (λ n. 1 ≤ n) }
{
    let Reading::Program(choice) = case.reading else {
        return write_lines(text, events);
    };
    let mut reader = case.document.as_slice();
    write_events(alloc, &mut reader, text, &Choice { cut, ..choice })
}

/// The events of the document of a case, cut after each so many virtual bytes.
fn events_cut(alloc: Global, case: &Case, cut: Option<usize>) -> Result<Vec<Event>, Failure>
    requires cut { IfSome cut (λ n. 1 ≤ n) }
{
    let bytes = case.document.as_slice();
    match case.reading {
        Reading::Program(choice) => events_of(alloc, bytes, &Choice { cut, ..choice }),
        Reading::InlineText => events_of_text(alloc, bytes, cut, true),
        Reading::Text => events_of_text(alloc, bytes, cut, false),
    }
}

/// The events that a choice makes of a document.
fn events_of(alloc: Global, bytes: &[u8], choice: &Choice) -> Result<Vec<Event>, Failure>
    requires { IfSome choice.now.cut (λ n. 1 ≤ n) }
{
    if bytes.len() > limit_of(choice.tab) {
        return Err(Failure::TooLong);
    }
    Ok(events_by(alloc, bytes, choice)?)
}

/// The events of a document that is read as inline text, or else as text. Reading fails only if it runs out of memory.
fn events_of_text(
    alloc: Global,
    bytes: &[u8],
    cut: Option<usize>,
    inline: bool,
) -> Result<Vec<Event>, Failure>
    requires { IfSome cut (λ n. 1 ≤ n) }
{
    let options = ParseOptions::default();
    if bytes.len() > limit_of(options.tab_size) {
        return Err(Failure::TooLong);
    }
    let cuts = match cut {
        Some(count) => cuts_every(alloc, bytes, options.tab_size, count)?,
        None => Vec::new(alloc),
    };
    let events = if inline {
        read_inline_text(alloc, bytes, &options, cuts.as_slice())
    } else {
        read_text(alloc, bytes, &options, cuts.as_slice())
    };
    match events {
        Ok(events) => Ok(events),
        Err(_) => Err(Failure::Memory),
    }
}
