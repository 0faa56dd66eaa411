//! A child's events in place of the chunks from which it was read, with expected lists worked by hand.

ghost use Rattle.markdown.specs.Virtual.{IsWithinLimit};
ghost use Rattle.std.specs.Prelude.{◌≡◌, ◌+◌, ◌*◌, ◌<◌, true, length, None, IfSome, IfOk, All};
ghost use Rattle.markdown.specs.Events.{EndsBelow};
ghost use Rattle.markdown.specs.Edits.{AreDisjoint};
ghost use Rattle.markdown.specs.Chains.{begins};
ghost use Rattle.markdown.specs.ChildrenLawStatements.{HasEndsWithin};

use crate::shown::assert_shown;
use markdown::configuration::TabSize;
use markdown::event::{Content, Event, Name};
use markdown::subtokenize::{divide_events, ready};
use markdown::util::edit_map::EditMap;
use mdtests_base::chunks::Row::{Chunk, Span};
use mdtests_base::chunks::{QUOTE, Row, listed};
use mdtests_base::shown::push_events;
use std::alloc::{AllocError, Global};

/// Whether a chain begins at an index.
fn begins_at(events: &[Event], index: usize) -> bool
    requires { index < length events.now }
    ensures { result ≡ begins None events.now index }
{
    match events[index].link {
        Some(link) => link.previous.is_none(),
        None => false,
    }
}

/// Whether an end of a link, if it has one, is below a number.
fn is_below(end: Option<usize>, limit: usize) -> bool
    ensures { result ≡ true → IfSome end (λ k. k < limit) }
{
    match end {
        Some(end) => end < limit,
        None => true,
    }
}

/// Whether the ends of an event's link are below a number.
fn has_ends_below(event: Event, limit: usize) -> bool
    ensures { result ≡ true → EndsBelow limit event }
{
    match event.link {
        Some(link) => is_below(link.previous, limit) && is_below(link.next, limit),
        None => true,
    }
}

/// Whether all link ends lie inside a list.
fn has_ends_within(events: &[Event]) -> bool
    ensures { result ≡ true → HasEndsWithin events.now }
{
    for event in events {
        if !has_ends_below(*event, events.len()) {
            return false;
        }
    }
    true
}

/// The edits that put a child in place of the chain that begins at an index. Returns `None` if `divide_events` may not
/// be called.
fn edits_of(
    alloc: Global,
    events: &[Event],
    bytes: &[u8],
    index: usize,
    child: &mut Vec<Event>,
) -> Result<Option<((usize, usize), EditMap)>, AllocError>
    requires limit { IsWithinLimit 4 bytes.now }
    ensures { IfOk result (λ o. IfSome o (λ r. AreDisjoint 0 r.1 (length events.now) × All (EndsBelow (length events.now)) events.now)) }
{
    let tab_size = TabSize::default();
    if !ready(alloc, events, bytes, tab_size, None)? {
        return Ok(None);
    }
    if index >= events.len() || events.len() > 99 || child.len() > 99 {
        return Ok(None);
    }
    if !begins_at(events, index) {
        return Ok(None);
    }
    if !has_ends_within(child.as_slice()) {
        return Ok(None);
    }
    let mut map = EditMap::new(alloc);
    let sums = divide_events(alloc, &mut map, events, index, child, (0, 0))?;
    Ok(Some((sums, map)))
}

/// How many events were removed and added, how many events of the child are left, and the list.
fn told(
    alloc: Global,
    sums: (usize, usize),
    left: usize,
    events: &[Event],
) -> Result<String, AllocError> {
    let (removed, added) = sums;
    let mut text = format!(in alloc; "removed {removed}, added {added}, left {left}\n")?;
    push_events(&mut text, events)?;
    Ok(text)
}

/// Puts a child in the place of the chain that begins at an index, and returns what was done. A function that owns no lists is proved in
/// less time.
fn put_child(
    alloc: Global,
    events: &mut Vec<Event>,
    bytes: &[u8],
    index: usize,
    child: &mut Vec<Event>,
) -> Result<String, AllocError>
    requires { IsWithinLimit 4 bytes.now }
{
    match edits_of(alloc, events.as_slice(), bytes, index, child)? {
        None => String::from_str(alloc, "not ready"),
        Some((sums, mut map)) => {
            map.consume(events)?;
            told(alloc, sums, child.len(), events.as_slice())
        }
    }
}

/// Puts a child in the place of the chain that begins at an index, in a document of at most 99 bytes.
fn put(
    alloc: Global,
    list: &[Row],
    bytes: &[u8],
    index: usize,
    child: &[Row],
) -> Result<String, AllocError> {
    if bytes.len() > 99 {
        return Err(AllocError);
    }
    let mut events = listed(alloc, list)?;
    let mut child = listed(alloc, child)?;
    put_child(alloc, &mut events, bytes, index, &mut child)
}

/// `"a\nb\nc"`, a line a chunk, in one chain.
const THREE_LINES: [Row; 3] = [
    Chunk((1, 1, 0, 0), (2, 1, 2, 0), Content::Text, None, Some(2)),
    Chunk((2, 1, 2, 0), (3, 1, 4, 0), Content::Text, Some(0), Some(4)),
    Chunk((3, 1, 4, 0), (3, 2, 5, 0), Content::Text, Some(2), None),
];

/// Data over all three lines.
const ONE_DATA: [Row; 1] = [Span(Name::Data, (1, 1, 0, 0), (3, 2, 5, 0))];

/// Two lines of data, which are linked.
const LINKED_DATA: [Row; 3] = [
    Chunk((1, 3, 2, 0), (1, 4, 3, 0), Content::String, None, Some(4)),
    Span(Name::LineEnding, (1, 4, 3, 0), (2, 1, 4, 0)),
    Chunk((2, 3, 6, 0), (2, 4, 7, 0), Content::String, Some(0), None),
];

/// A list, its document, where the chain begins, its child, and the expected list: a chunk without events is removed, and
/// links of a child lead to their places.
const PUT: &[(&[Row], &[u8], usize, &[Row], &str)] = &[
    (
        &THREE_LINES,
        b"a\nb\nc",
        0,
        &ONE_DATA,
        "removed 6, added 2, left 0\nData 1:1 (0+0) to 3:2 (5+0)",
    ),
    (
        &QUOTE,
        b"> a\n> b",
        4,
        &LINKED_DATA,
        "removed 4, added 6, left 0\n\
            enter BlockQuote 1:1 (0+0); BlockQuotePrefix 1:1 (0+0) to 1:3 (2+0); enter Paragraph 1:3 (2+0); \
            Data 1:3 (2+0) String None Some(10) to 1:4 (3+0); LineEnding 1:4 (3+0) to 2:1 (4+0); \
            BlockQuotePrefix 2:1 (4+0) to 2:3 (6+0); Data 2:3 (6+0) String Some(4) None to 2:4 (7+0); \
            exit Paragraph 2:4 (7+0); exit BlockQuote 2:4 (7+0)",
    ),
];

#[test]
fn child_is_divided_over_its_chunks(rt: HostRuntime) {
    for &(list, bytes, index, child, want) in PUT {
        assert_shown(&rt, put(rt.alloc(), list, bytes, index, child), want);
    }
}
