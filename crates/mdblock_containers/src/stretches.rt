//! Stretches of lines that leaf blocks are read from: a chain of chunks.

ghost use Rattle.std.specs.Prelude.{◌≡◌, ◌≤◌, ◌<◌, ◌++◌, ℕ, Bool, false, List, None, Some, IfOk, length, drop, map, ◌+◌, ◌*◌};
ghost use Rattle.markdown_base.specs.Virtual.{IsWithinLimit, Seat, point};
ghost use Rattle.mdblock_leaf_blocks.specs.LeafBlocks.{bytes_of};
ghost use Rattle.mdblock_leaf_blocks.specs.LeafEvents.{Mark};
ghost use Rattle.mdblock_lines.specs.Lines.{line_bytes, place_after};
ghost use Rattle.mdblock_containers.specs.Parts.{with_chunk};
ghost use Rattle.mdblock_containers.specs.PlaceEvents.{HasColumns};
ghost use Rattle.mdblock_containers.specs.Prefixes.{columns_of, going_on};
ghost use Rattle.mdblock_containers.specs.SeatPlaces.{AreSeatsAt, events_of};
ghost use Rattle.mdblock_containers.specs.Skeleton.{prefixes_marks};
ghost use Rattle.mdblock_containers.specs.Stretches.{HasFurther, InStretch};
ghost use Rattle.mdblock_containers.specs.Views.{open_of};
ghost use Rattle.mdblock_containers.specs.Written.{Written};
ghost use Rattle.mdblock_containers.specs.Costs.{HaveSizes, columns_in};

use crate::chunks::begin_chunk;
use crate::going::{Open, first_of};
use crate::prefixes::{At, going_prefixes};
use crate::spans::{RowAt, start_of};
use crate::texts::{read_text, text_at};
use crate::writing::exit;
use markdown_base::configuration::TabSize;
use markdown_base::event::{Content, Event, Name, Point};
use mdconstructs_loop_counts::Turns;
use std::alloc::AllocError;
use std::sync::ledger::Ledger;

/// A chunk of this content from one place to another, linked to the one at an index, if there is one. Returns the index of its enter.
pub fn chunk(
    events: &mut Vec<Event>,
    content: Content,
    previous: Option<usize>,
    from: Point,
    to: Point,
) -> Result<usize, AllocError>
    requires { (before : ℕ) → previous ≡ Some before → before < length events.old.items }
    ensures index { IfOk result (λ index. index ≡ length events.old.items) }
    ensures events { IfOk result (λ _. events.new.items ≡ with_chunk content previous from to events.old.items) }
{
    let index = begin_chunk(events, content, previous, from)?;
    exit(events, Name::Data, to)?;
    Ok(index)
}

/// The prefixes of a line's first containers. `line` is room for its bytes. Returns the place behind them.
pub fn prefixes_of<L: Ledger>(
    events: &mut Vec<Event>,
    bytes: &[u8],
    tab: TabSize,
    stack: &[Open],
    at: &RowAt,
    line: &mut Vec<u8>,
    turns: &mut Turns<L>,
) -> Result<At, AllocError>
    requires inside { at.now.span.start ≤ length bytes.now }
    requires columns { let s = at.now.span in HasColumns tab bytes.now (point s.number 1 s.start 0) (length (line_bytes tab s.number 1 s.start (drop s.start bytes.now))) }
    requires sizes { HaveSizes (map open_of stack.now) }
    ensures line { let s = at.now.span in IfOk result (λ _. line.new.items ≡ line_bytes tab s.number 1 s.start (drop s.start bytes.now)) }
    ensures marks { let s = at.now.span in let t = line_bytes tab s.number 1 s.start (drop s.start bytes.now) in IfOk result (λ _. (seats : List Seat) → AreSeatsAt tab bytes.now (point s.number 1 s.start 0) seats → t ≡ bytes_of seats → events.new.items ≡ events.old.items ++ events_of (prefixes_marks bytes.now (going_on (map open_of stack.now) s.number t) seats)) }
    ensures columns { let s = at.now.span in IfOk result (λ p. p.columns ≡ columns_of (going_on (map open_of stack.now) s.number (line_bytes tab s.number 1 s.start (drop s.start bytes.now)))) }
    ensures within { let s = at.now.span in IfOk result (λ p. p.columns ≤ length (line_bytes tab s.number 1 s.start (drop s.start bytes.now))) }
    ensures place { let s = at.now.span in IfOk result (λ p. p.place ≡ place_after tab bytes.now (point s.number 1 s.start 0) p.columns) }
    ensures turns { let s = at.now.span in turns.new ≤ turns.old + 8 * length (line_bytes tab s.number 1 s.start (drop s.start bytes.now)) + 4 }
{
    let span = at.span;
    read_text(line, bytes, tab, span.start, turns)?;
    going_prefixes(
        events,
        bytes,
        tab,
        start_of(span),
        stack,
        span.number,
        line.as_slice(),
        turns,
    )
}

/// The same, with `line` as room alone: a line without tabs is not copied.
fn prefixes_at<L: Ledger>(
    events: &mut Vec<Event>,
    bytes: &[u8],
    tab: TabSize,
    stack: &[Open],
    at: &RowAt,
    line: &mut Vec<u8>,
    turns: &mut Turns<L>,
) -> Result<At, AllocError>
    requires inside { at.now.span.start ≤ length bytes.now }
    requires columns { let s = at.now.span in HasColumns tab bytes.now (point s.number 1 s.start 0) (length (line_bytes tab s.number 1 s.start (drop s.start bytes.now))) }
    requires sizes { HaveSizes (map open_of stack.now) }
    ensures marks { let s = at.now.span in let t = line_bytes tab s.number 1 s.start (drop s.start bytes.now) in IfOk result (λ _. (seats : List Seat) → AreSeatsAt tab bytes.now (point s.number 1 s.start 0) seats → t ≡ bytes_of seats → events.new.items ≡ events.old.items ++ events_of (prefixes_marks bytes.now (going_on (map open_of stack.now) s.number t) seats)) }
    ensures columns { let s = at.now.span in IfOk result (λ p. p.columns ≡ columns_of (going_on (map open_of stack.now) s.number (line_bytes tab s.number 1 s.start (drop s.start bytes.now)))) }
    ensures within { let s = at.now.span in IfOk result (λ p. p.columns ≤ length (line_bytes tab s.number 1 s.start (drop s.start bytes.now))) }
    ensures place { let s = at.now.span in IfOk result (λ p. p.place ≡ place_after tab bytes.now (point s.number 1 s.start 0) p.columns) }
    ensures turns { let s = at.now.span in turns.new ≤ turns.old + 8 * length (line_bytes tab s.number 1 s.start (drop s.start bytes.now)) + 4 }
{
    let span = at.span;
    let text = text_at(line, bytes, tab, span.start, turns)?;
    going_prefixes(
        events,
        bytes,
        tab,
        start_of(span),
        stack,
        span.number,
        text.bytes,
        turns,
    )
}

/// The chunks of a stretch that begins at a place of its first line, has these further lines and ends at another place: one chunk for lines that no
/// prefix divides.
pub fn stretch<L: Ledger>(
    events: &mut Vec<Event>,
    bytes: &[u8],
    tab: TabSize,
    stack: &[Open],
    from: Point,
    more: &[RowAt],
    to: Point,
    line: &mut Vec<u8>,
    turns: &mut Turns<L>,
) -> Result<(), AllocError>
    requires limit { IsWithinLimit tab bytes.now }
    requires further { HasFurther tab bytes.now (map open_of stack.now) more.now }
    ensures value { IfOk result (λ _. (is_held : Bool) → (rest : List Mark) → (all : List Mark) → InStretch tab bytes.now (map open_of stack.now) is_held events.old.items None from to more.now rest all → Written events.new.items None false rest all) }
    ensures turns { turns.new ≤ turns.old + 8 * columns_in more.now }
{
    let tab_size = tab.get();
    prove!(tab_size >= 1);
    let mut previous = None;
    let mut place = from;
    for at in more {
        turns.add_one();
        if at.row.going > 0 {
            let index = chunk(events, Content::Content, previous, place, start_of(at.span))?;
            previous = Some(index);
            let front = first_of(stack, at.row.many);
            place = prefixes_at(events, bytes, tab, front, at, line, turns)?.place;
        }
    }
    if place.index < to.index {
        chunk(events, Content::Content, previous, place, to)?;
    }
    Ok(())
}
