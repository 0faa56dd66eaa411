//! Measures the edit map, and the links of children: `bench/run.sh` counts the instructions of its runs.
//!
//! Standard input has one byte for each span of a list of linked spans, and an edit for each span puts two events in front of
//! it. If the first byte is `d` the edits are made at descending indices, and else at ascending ones. If it is `l`, each 64 bytes are a
//! chunk of one chain in place of that, as a line of text is, and a child with a linked span for each byte is divided over them. The
//! number of events afterwards is printed.
#![tactic(auto)]

ghost use Rattle.std.specs.Prelude.{◌≡◌, ◌+◌, ◌*◌, ◌^◌, ◌<◌, ◌≤◌, length, All, None, IfOk, IfSome};
ghost use Rattle.markdown.specs.ChildrenLawStatements.{HasEndsWithin};
ghost use Rattle.markdown.specs.Chains.{begins};
ghost use Rattle.markdown.specs.Edits.{AreDisjoint};
ghost use Rattle.markdown.specs.Events.{EndsBelow};
ghost use Rattle.markdown.specs.Virtual.{IsWithinLimit};

use markdown::configuration::TabSize;
use markdown::event::{Content, Event, Kind, Link, Name, Point};
use markdown::subtokenize::{divide_events, ready};
use markdown::util::edit_map::EditMap;
use std::alloc::{AllocError, Global};
use std::io::{self, Read};

fn main(rt: HostRuntime) -> io::Result<()> {
    let mut input = Vec::new(rt.alloc());
    rt.stdin().read_to_end(&mut input)?;
    let count = measured(rt.alloc(), &input)?;
    println!(rt; "{count} events")?;
    Ok(())
}

/// The number of events of what the first byte of the input asks for.
fn measured(alloc: Global, input: &[u8]) -> Result<usize, AllocError> {
    match input.first() {
        Some(b'l') => divided(alloc, input),
        Some(b'd') => edited(alloc, input.len(), true),
        _ => edited(alloc, input.len(), false),
    }
}

/// An event without a link, at a byte of the first line.
fn event_of(kind: Kind, index: usize) -> Event
    requires { index + 1 < 2 ^ 64 }
    ensures { result.link ≡ None }
{
    Event {
        kind,
        name: Name::Data,
        point: Point {
            line: 1,
            column: index + 1,
            index,
            vs: 0,
        },
        link: None,
    }
}

/// The enter of the span before span `k`.
fn enter_before(k: usize) -> Option<usize>
    requires { 2 * k < 2 ^ 64 }
    ensures { IfSome result (λ p. p < 2 * k) }
{
    if k > 0 { Some(2 * k - 2) } else { None }
}

/// The enter of the span after span `k`, of `count` spans.
fn enter_behind(k: usize, count: usize) -> Option<usize>
    requires fits { 2 * count < 2 ^ 64 }
    requires inside { k < count }
    ensures { IfSome result (λ n. n < 2 * count) }
{
    if k + 1 < count { Some(2 * k + 2) } else { None }
}

/// The byte at which span `k` begins, of spans that are 64 bytes wide, or one.
fn byte_of(k: usize, wide: bool) -> usize
    requires { 64 * k < 2 ^ 64 }
    ensures { result ≤ 64 * k }
{
    if wide { 64 * k } else { k }
}

/// The enter of span `k`, of `count` spans. It is linked to the spans before and after it. It begins at this byte.
fn linked_enter(k: usize, count: usize, index: usize) -> Event
    requires fits { 2 * count < 2 ^ 64 }
    requires inside { k < count }
    requires place { index + 1 < 2 ^ 64 }
    ensures { EndsBelow (2 * count) result }
{
    let link = Link {
        previous: enter_before(k),
        next: enter_behind(k, count),
        content: Content::Text,
    };
    Event {
        link: Some(link),
        ..event_of(Kind::Enter, index)
    }
}

/// So many spans in one chain, each over 64 bytes, or over one.
fn chain(alloc: Global, count: usize, wide: bool) -> Result<Vec<Event>, AllocError>
    requires { 64 * count + 1 < 2 ^ 64 }
    ensures len { IfOk result (λ v. length v.items ≡ 2 * count) }
    ensures ends { IfOk result (λ v. All (EndsBelow (2 * count)) v.items) }
{
    let mut events = Vec::new(alloc);
    for k in 0..count {
        events.push(linked_enter(k, count, byte_of(k, wide)))?;
        events.push(event_of(Kind::Exit, byte_of(k + 1, wide)))?;
    }
    Ok(events)
}

/// The span that is edited at a step, of `count` spans.
fn span_at(step: usize, count: usize, descending: bool) -> usize
    requires { step < count }
    ensures { result < count }
{
    if descending { count - 1 - step } else { step }
}

/// An edit before each span, from the first to the last, or from the last to the first.
fn edits(alloc: Global, count: usize, descending: bool) -> Result<EditMap, AllocError>
    requires { 2 * count < 2 ^ 64 }
    ensures { IfOk result (λ map. AreDisjoint 0 map (2 * count)) }
{
    let mut map = EditMap::new(alloc);
    for step in 0..count {
        let k = span_at(step, count, descending);
        let additions = vec![in alloc; event_of(Kind::Enter, k), event_of(Kind::Exit, k)]?;
        map.add(2 * k, 0, additions)?;
    }
    Ok(map)
}

/// The number of events of a chain of `count` spans, after its edits.
fn edited(alloc: Global, count: usize, descending: bool) -> Result<usize, AllocError> {
    if count >= usize::MAX / 64 {
        return Err(AllocError);
    }
    let mut events = chain(alloc, count, false)?;
    let mut map = edits(alloc, count, descending)?;
    map.consume(&mut events)?;
    Ok(events.len())
}

/// Whether a chain begins at an index.
fn begins_at(events: &[Event], index: usize) -> bool
    requires { index < length events.now }
    ensures { result ≡ begins None events.now index }
{
    match events[index].link {
        Some(link) => link.previous.is_none(),
        None => false,
    }
}

/// The edits that put a child in the place of the chain that begins with the first event; `None` if no such chain can be read.
fn child_edits(
    alloc: Global,
    bytes: &[u8],
    events: &[Event],
    child: &mut Vec<Event>,
) -> Result<Option<EditMap>, AllocError>
    requires limit { IsWithinLimit 4 bytes.now }
    requires some { 1 < length events.now }
    requires ends { HasEndsWithin child.old.items }
    requires fits { length events.now + length child.old.items < 2 ^ 64 }
    ensures { IfOk result (λ o. IfSome o (λ map. AreDisjoint 0 map (length events.now))) }
{
    if !begins_at(events, 0) {
        return Ok(None);
    }
    if !ready(alloc, events, bytes, TabSize::default(), None)? {
        return Ok(None);
    }
    let mut map = EditMap::new(alloc);
    divide_events(alloc, &mut map, events, 0, child, (0, 0))?;
    Ok(Some(map))
}

/// The number of events of a chain with a chunk for each 64 bytes, once a child with a linked span for each byte is put in its place.
/// There are none if the chain cannot be read.
fn divided(alloc: Global, bytes: &[u8]) -> Result<usize, AllocError> {
    let chunks = bytes.len() / 64;
    if chunks == 0 || bytes.len() >= usize::MAX / 64 {
        return Err(AllocError);
    }
    let mut events = chain(alloc, chunks, true)?;
    let mut child = chain(alloc, bytes.len(), false)?;
    let Some(mut map) = child_edits(alloc, bytes, &events, &mut child)? else {
        return Ok(0);
    };
    map.consume(&mut events)?;
    Ok(events.len())
}
