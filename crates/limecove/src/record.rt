//! Events as records of numbers.

ghost use Rattle.std.specs.Prelude.{◌≡◌, length, unwrap_or};
ghost use Rattle.limecove.specs.Records.{record_of, filled, content_number, no_index};

use markdown::event::{Content, Event, Kind, Link};
use std::cmp;

/// In place of an index: there is no such event.
pub const NO_INDEX: usize = usize::MAX;

/// An event, with its link.
#[repr(C)]
#[derive(Clone, Copy, Debug, PartialEq, Eq)]
pub struct Record {
    /// 0 if a span begins, 1 if it ends.
    pub kind: u16,
    /// What the chain of the event is read as, if the event is linked: 1 for flow, 2 for content, 3 for string, 4 for text. If it is
    /// not linked, 0.
    pub content: u16,
    /// What the span is: the number of its name, in the order of the names.
    pub name: u32,
    /// Line, from 1.
    pub line: usize,
    /// Virtual column in the line, from 1.
    pub column: usize,
    /// Byte index into the document, from 0.
    pub index: usize,
    /// Number of the virtual byte of a tab, from 0; 0 elsewhere.
    pub vs: usize,
    /// Index into the events of the enter before in the chain. If there is none, [`NO_INDEX`].
    pub previous: usize,
    /// Index into the events of the enter after in the chain. If there is none, [`NO_INDEX`].
    pub next: usize,
}

/// Writes the records of the events over the first records, as many as fit. Returns the number of events.
pub(crate) fn write_records(records: &mut [Record], events: &[Event]) -> usize
    ensures written { records.new ≡ filled records.old events.now }
    ensures count { result ≡ length events.now }
{
    let written = cmp::min(records.len(), events.len());
    'writing: for i in 0..written {
        records[i] = record_of(&events[i]);
    }
    events.len()
}

/// The record of an event.
fn record_of(event: &Event) -> Record
    ensures { result ≡ record_of event.now }
{
    let kind = match event.kind {
        Kind::Enter => 0,
        Kind::Exit => 1,
    };
    let (content, previous, next) = match event.link {
        None => (0, NO_INDEX, NO_INDEX),
        Some(link) => (
            content_number(link.content),
            index_number(link.previous),
            index_number(link.next),
        ),
    };
    Record {
        kind,
        content,
        name: event.name as u32,
        line: event.point.line,
        column: event.point.column,
        index: event.point.index,
        vs: event.point.vs,
        previous,
        next,
    }
}

/// The number of what a chain is read as.
fn content_number(content: Content) -> u16
    ensures { result ≡ content_number content }
{
    match content {
        Content::Flow => 1,
        Content::Content => 2,
        Content::String => 3,
        Content::Text => 4,
    }
}

/// An index as a number.
fn index_number(index: Option<usize>) -> usize
    ensures { result ≡ unwrap_or index no_index }
{
    index.unwrap_or(NO_INDEX)
}
