//! Spans among events, by the events behind their enters.

ghost use Rattle.std.specs.Prelude.{◌≡◌, ◌++◌, ◌≤◌, MatchOption, None, OnOk, Some, drop, length, take};
ghost use Rattle.mddocument_link_targets.specs.Spans.{inside, size_from};
ghost use Rattle.mdhtml_document.specs.Values.{bytes_at};
ghost use Rattle.mdhtml_document.specs.Walks.{said_at};

use crate::names::{inline_of, reading_of};
use markdown_base::event::{Event, Kind};
use mddocument_link_targets::strings::{push_given_at, slice};
use std::alloc::AllocError;

/// How many events are in a span, by the events behind its enter.
fn size_in(events: &[Event]) -> usize
    ensures size { result ≡ size_from 0 events.now }
    ensures within { result ≤ length events.now }
{
    let mut depth = 0usize;
    let mut next = 0;
    while next < events.len() {
        match events[next].kind {
            Kind::Enter => depth += 1,
            Kind::Exit => {
                if depth == 0 {
                    return next;
                }
                depth -= 1;
            }
        }
        next += 1;
    }
    next
}

/// The events in a span, by the events behind its enter.
pub(crate) fn inside(events: &[Event]) -> &[Event]
    ensures inside { result.now ≡ inside events.now }
    ensures within { length result.now ≤ length events.now }
{
    &events[..size_in(events)]
}

/// The bytes of the innermost span that an event enters, by the events behind that.
pub(crate) fn bytes_at<'a>(bytes: &'a [u8], event: &Event, behind: &[Event]) -> &'a [u8]
    ensures { result.now ≡ bytes_at bytes.now event.now behind.now }
{
    match behind.first() {
        None => &[],
        Some(exit) => slice(bytes, event.point.index, exit.point.index),
    }
}

/// Events without the first ones.
pub(crate) fn behind_first(events: &[Event], count: usize) -> &[Event]
    ensures { result.now ≡ drop count events.now }
{
    events.get(count..).unwrap_or(&[])
}

/// The first events; all, if they are not so many.
pub(crate) fn first_events(events: &[Event], count: usize) -> &[Event]
    ensures { result.now ≡ take count events.now }
{
    if count < events.len() {
        &events[..count]
    } else {
        events
    }
}

/// Adds what the span of inline text that an event enters says, if it is an innermost one, by the events behind that.
pub(crate) fn push_said(
    text: &mut Vec<u8>,
    bytes: &[u8],
    event: &Event,
    behind: &[Event],
) -> Result<(), AllocError>
    ensures { OnOk result (text.new.items ≡ text.old.items ++ said_at bytes.now event.now behind.now) }
{
    push_given_at(
        text,
        bytes,
        reading_of(inline_of(event.name)),
        event,
        behind,
    )
}
