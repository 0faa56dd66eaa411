//! The events of a document with autolink literals in place of the data that they cover.

ghost use Rattle.std.specs.Prelude.{ℕ, ◌≡◌, ◌+◌, ◌++◌, ◌<◌, ◌≤◌, IfOk, IsOk, OnOk, drop, false, length, take};
ghost use Rattle.markdown_base.specs.Virtual.{point};
ghost use Rattle.mdgfm_literals.specs.LiteralEvents.{end_of, events_with, left_over, literal_events, with_one, written};

use crate::stretches::{depth_behind, is_text, literals_of};
use crate::texts::Literal;
use markdown_base::configuration::ParseOptions;
use markdown_base::event::{Event, Name, Point};
use mdgfm_events::places::{later, place_at, push_leaf};
use mdgfm_events::spans::span_of;
use std::alloc::{AllocError, Global};

/// How far literals were written.
#[derive(Clone, Copy)]
struct Written {
    /// Where the last one ended.
    place: Point,
    /// How many were written.
    count: usize,
}

/// Adds data from a place up to a literal, and the literal. Returns its end.
fn push_one(
    out: &mut Vec<Event>,
    bytes: &[u8],
    tab: usize,
    from: Point,
    literal: &Literal,
) -> Result<Point, AllocError>
    requires { 0 < tab }
    ensures events { OnOk result (out.new.items ≡ out.old.items ++ with_one tab bytes.now from literal.now) }
    ensures end { IfOk result (λ end. end ≡ end_of tab bytes.now from literal.now) }
{
    let start = place_at(bytes, tab, from, literal.from);
    push_leaf(out, Name::Data, from, start)?;
    let end = place_at(bytes, tab, start, literal.to);
    push_leaf(out, literal.name, start, end)?;
    Ok(end)
}

/// Adds the literals that begin in a span, which begins at a place and ends at a byte index, if some were written.
fn push_written(
    out: &mut Vec<Event>,
    bytes: &[u8],
    tab: usize,
    literals: &[Literal],
    before: Written,
    first: Point,
    stop: usize,
) -> Result<Written, AllocError>
    requires tab { 0 < tab }
    requires inside { before.count ≤ length literals.now }
    ensures events { OnOk result (out.new.items ≡ out.old.items ++ (written tab bytes.now first stop before.place (drop before.count literals.now)).events) }
    ensures place { IfOk result (λ w. w.place ≡ (written tab bytes.now first stop before.place (drop before.count literals.now)).place) }
    ensures left { IfOk result (λ w. drop w.count literals.now ≡ (written tab bytes.now first stop before.place (drop before.count literals.now)).left) }
    ensures inside { IfOk result (λ w. w.count ≤ length literals.now) }
{
    let mut place = before.place;
    let mut count = before.count;
    while count < literals.len() {
        let literal = &literals[count];
        if literal.from >= stop {
            return Ok(Written { place, count });
        }
        place = push_one(out, bytes, tab, later(place, first), literal)?;
        count += 1;
    }
    Ok(Written { place, count })
}

/// Adds what literals that end at a place leave of a span, by its events, and the place of the last of them.
fn push_left(
    out: &mut Vec<Event>,
    place: Point,
    first: Point,
    last: Point,
    span: &[Event],
) -> Result<(), AllocError>
    ensures { OnOk result (out.new.items ≡ out.old.items ++ left_over place first last span.now) }
{
    if place.index <= first.index {
        out.extend_from_slice(span)
    } else {
        push_leaf(out, Name::Data, place, last)
    }
}

/// The events with these literals. It fails only if it runs out of memory.
pub fn events_with(
    alloc: Global,
    bytes: &[u8],
    tab: usize,
    literals: &[Literal],
    events: &[Event],
) -> Result<Vec<Event>, AllocError>
    requires { 0 < tab }
    ensures { IfOk result (λ all. all.items ≡ events_with tab bytes.now 0 0 (point 1 1 0 0) literals.now events.now) }
{
    let mut out = Vec::new(alloc);
    let mut place = Point::START;
    let mut count = 0;
    let mut depth = 0;
    let mut at = 0;
    while at < events.len() {
        let event = &events[at];
        if is_text(depth, event) {
            let span = span_of(event.point, &events[at + 1..]);
            let before = Written { place, count };
            let stop = span.end.index;
            let written = push_written(&mut out, bytes, tab, literals, before, event.point, stop)?;
            let behind = at + 1 + span.size;
            push_left(
                &mut out,
                written.place,
                event.point,
                span.end,
                &events[at..behind],
            )?;
            place = written.place;
            count = written.count;
            at = behind;
        } else {
            out.push(*event)?;
            depth = depth_behind(depth, event);
            at += 1;
        }
    }
    Ok(out)
}

/// The events of a document with autolink literals in place of the data that they cover, if the option is on. It fails only if it runs out of memory.
///
/// Without the option, or if there is no literal, they are returned as they are, and not copied.
pub fn with_literals(
    alloc: Global,
    bytes: &[u8],
    options: &ParseOptions,
    events: Vec<Event>,
) -> Result<Vec<Event>, AllocError>
    ensures events { IfOk result (λ all. all.items ≡ literal_events options.now bytes.now events.items) }
    ensures off { options.now.constructs.gfm_autolink_literal ≡ false → IsOk result }
{
    if !options.constructs.gfm_autolink_literal {
        return Ok(events);
    }
    let literals = literals_of(alloc, bytes, events.as_slice())?;
    if literals.is_empty() {
        return Ok(events);
    }
    events_with(
        alloc,
        bytes,
        options.tab_size.get(),
        literals.as_slice(),
        events.as_slice(),
    )
}
