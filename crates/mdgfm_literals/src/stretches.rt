//! Stretches of text among events: which bytes of a document are searched for literals.

ghost use Rattle.std.specs.Prelude.{ℕ, ◌≡◌, ◌+◌, ◌++◌, ◌==◌, ◌<◌, ◌^◌, ◌≤◌, ◌&&◌, ◌||◌, IfOk, OnOk, Option, length, true};
ghost use Rattle.mdgfm_literals.specs.Stretches.{before_stretch, begins_line, byte_before, depth_behind, holds_none, is_fresh, is_plain, is_text, literals_between, literals_of, reach};

use crate::signs::has_sign;
use crate::texts::{Literal, push_literals};
use markdown_base::event::{Event, Kind, Name};
use mdgfm_events::places::slice;
use mdgfm_events::spans::span_of;
use std::alloc::{AllocError, Global};

/// How far a stretch of text reaches.
#[derive(Clone, Copy, PartialEq, Eq, Debug)]
pub struct Reach {
    /// How many events go on with it.
    pub size: usize,
    /// The byte index of its end.
    pub stop: usize,
}

/// Whether a span of this name is text.
fn is_plain(name: Name) -> bool
    ensures { result ≡ is_plain name }
{
    name == Name::Data || name == Name::CharacterReference || name == Name::CharacterEscape
}

/// Whether no literal is in a span of this name.
fn holds_none(name: Name) -> bool
    ensures { result ≡ holds_none name }
{
    name == Name::Link
        || name == Name::Image
        || name == Name::Definition
        || name == Name::CodeFencedFence
        || name == Name::Resource
        || name == Name::Reference
        || name == Name::GfmFootnoteCall
        || name == Name::GfmFootnoteDefinitionPrefix
}

/// Whether a line of a text begins behind a span of this name.
fn begins_line(name: Name) -> bool
    ensures { result ≡ begins_line name }
{
    name == Name::LineEnding || name == Name::SpaceOrTab || name == Name::BlockQuotePrefix
}

/// Whether an event enters a span of text.
pub fn is_text(depth: usize, event: &Event) -> bool
    ensures { result ≡ is_text depth event.now }
{
    depth == 0 && event.kind == Kind::Enter && is_plain(event.name)
}

/// In how many spans that hold no literal is what is behind an event.
pub fn depth_behind(depth: usize, event: &Event) -> usize
    requires { depth + 1 < 2 ^ 64 }
    ensures depth { result ≡ depth_behind depth event.now }
    ensures few { result ≤ depth + 1 }
{
    if !holds_none(event.name) {
        depth
    } else if event.kind == Kind::Enter {
        depth + 1
    } else {
        depth.saturating_sub(1)
    }
}

/// Whether a line or a text begins behind an event.
fn is_fresh(event: &Event) -> bool
    ensures { result ≡ is_fresh event.now }
{
    event.kind == Kind::Enter || begins_line(event.name)
}

/// Whether an event enters a span with which a stretch goes on that has come to a byte index.
fn goes_on(event: &Event, stop: usize) -> bool
    ensures { result ≡ (is_text 0 event.now && (event.now.point.index == stop)) }
{
    is_text(0, event) && event.point.index == stop
}

/// How far a stretch reaches that has come to a byte index, by the events that come.
pub fn stretch_from(events: &[Event], from: usize) -> Reach
    ensures reach { result ≡ reach 0 from events.now }
    ensures within { result.size ≤ length events.now }
{
    let mut stop = from;
    let mut size = 0;
    while size < events.len() {
        let event = &events[size];
        if !goes_on(event, stop) {
            return Reach { size, stop };
        }
        let span = span_of(event.point, &events[size + 1..]);
        stop = span.end.index;
        size += 1 + span.size;
    }
    Reach { size, stop }
}

/// The byte before an index.
fn byte_before(bytes: &[u8], at: usize) -> Option<u8>
    ensures { result ≡ byte_before bytes.now at }
{
    if at == 0 {
        None
    } else {
        bytes.get(at - 1).copied()
    }
}

/// What comes before a stretch: nothing, where a line or a text begins.
fn before_stretch(bytes: &[u8], fresh: bool, at: usize) -> Option<u8>
    ensures { result ≡ before_stretch bytes.now fresh at }
{
    if fresh { None } else { byte_before(bytes, at) }
}

/// Adds the literals of the bytes from an index up to another.
fn push_between(
    all: &mut Vec<Literal>,
    bytes: &[u8],
    fresh: bool,
    from: usize,
    to: usize,
) -> Result<(), AllocError>
    ensures { OnOk result (all.new.items ≡ all.old.items ++ literals_between bytes.now fresh from to) }
{
    let text = slice(bytes, from, to);
    if has_sign(text) {
        push_literals(all, before_stretch(bytes, fresh, from), from, text)
    } else {
        Ok(())
    }
}

/// The literals of a document, by its events. It fails only if it runs out of memory.
pub fn literals_of(
    alloc: Global,
    bytes: &[u8],
    events: &[Event],
) -> Result<Vec<Literal>, AllocError>
    ensures { IfOk result (λ all. all.items ≡ literals_of bytes.now true 0 0 events.now) }
{
    let mut all = Vec::new(alloc);
    let mut fresh = true;
    let mut depth = 0;
    let mut at = 0;
    while at < events.len() {
        let event = &events[at];
        if is_text(depth, event) {
            let span = span_of(event.point, &events[at + 1..]);
            let next = at + 1 + span.size;
            let stretch = stretch_from(&events[next..], span.end.index);
            push_between(&mut all, bytes, fresh, event.point.index, stretch.stop)?;
            fresh = false;
            at = next + stretch.size;
        } else {
            fresh = is_fresh(event);
            depth = depth_behind(depth, event);
            at += 1;
        }
    }
    Ok(all)
}
