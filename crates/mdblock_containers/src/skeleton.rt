//! The skeleton of a document: the events of its containers, and a chain of chunks for each stretch of lines that leaf blocks are read from.

ghost use Rattle.std.specs.Prelude.{◌≡◌, ◌≤◌, ◌<◌, ◌+◌, ◌-◌, ◌^◌, ◌++◌, ◌==◌, ◌&&◌, not, min, nat_le, cond, ℕ, Bool, true, false, List, [], ◌∷◌, Some, None, is_some, IfOk, length, drop, map, slice_index_or, take, ◌*◌};
ghost use Rattle.std.specs.List.{flat_map};
ghost use Rattle.markdown_base.specs.declared.event.Name.TheVariants.{SpaceOrTab};
ghost use Rattle.markdown_base.specs.Virtual.{virtual, IsWithinLimit, Seat, point};
ghost use Rattle.mdblock_leaf_blocks.specs.LeafBlocks.{bytes_of};
ghost use Rattle.mdblock_leaf_blocks.specs.LeafEvents.{Mark};
ghost use Rattle.mdblock_leaf_blocks.specs.LineKinds.{indent, underline_rank};
ghost use Rattle.mdblock_lines.specs.Lines.{line_bytes, place_after};
ghost use Rattle.mdblock_containers.specs.declared.ahead.Ahead.{Ahead};
ghost use Rattle.mdblock_containers.specs.Ahead.{ahead_of};
ghost use Rattle.mdblock_containers.specs.Frames.{frame_of, frames_in};
ghost use Rattle.mdblock_containers.specs.Letters.{lazy_underline, lazy_underlines};
ghost use Rattle.mdblock_containers.specs.Over.{AreEarlier};
ghost use Rattle.mdblock_containers.specs.PlaceEvents.{HasColumns, span_at};
ghost use Rattle.mdblock_containers.specs.Prefixes.{columns_of, going_on};
ghost use Rattle.mdblock_containers.specs.Rest.{AreLeft, HasPart, ending_to, exits_to, rest_marks};
ghost use Rattle.mdblock_containers.specs.Rows.{Row as RowOf, has_none, holds_ending};
ghost use Rattle.mdblock_containers.specs.SeatPlaces.{AreInside, AreSeatsAt, events_of};
ghost use Rattle.mdblock_containers.specs.Skeleton.{begun_all, chained_from, frames_of, parts, parts_marks, prefixes_marks, shared, skeleton};
ghost use Rattle.mdblock_containers.specs.Spans.{AreRowsIn};
ghost use Rattle.mdblock_containers.specs.Stood.{HasSpans, IsStood};
ghost use Rattle.mdblock_containers.specs.Stretches.{HasFurther, InStretch, end_at, last_at};
ghost use Rattle.mdblock_containers.specs.Views.{begun_of, leaf_of, open_of};
ghost use Rattle.mdblock_containers.specs.Written.{Written};
ghost use Rattle.mdblock_containers.specs.Costs.{ArePaid, FirstIsNotLazy, HaveSizes, IsEnough, columns_in};

use crate::ahead::{Ahead, aheads_of};
use crate::frames::{
    Frame, Stood, behind_frames, drop_frames, exit_frames, exit_others, push_frames, push_list,
    shared, stood_in,
};
use crate::going::{Open, first_of, rest_of};
use crate::lines::rows_of;
use crate::parts::{PartEnd, open_in, part_end, standing, write_ending};
use crate::prefixes::{At, begun_prefixes, going_prefixes};
use crate::rows::Row;
use crate::spans::{RowAt, Span, start_of};
use crate::stretches::stretch;
use crate::texts::text_at;
use crate::writing::white;
use markdown_base::configuration::{Constructs, TabSize};
use markdown_base::event::{Event, Point};
use mdblock_lines::bytes::{behind, indent};
use mdblock_lines::kinds::underline_rank;
use mdblock_lines::places::{moved, read_line};
use mdconstructs_loop_counts::Turns;
use std::alloc::{AllocError, Global};
use std::marker::Brand;
use std::sync::ledger::{Blank, Ledger};

/// The skeleton of a document.
#[derive(Drop)]
pub struct Skeleton {
    /// Its events.
    pub events: Vec<Event>,
    /// The indices of the first marks of lazy underlines.
    pub letters: Vec<usize>,
}

/// The containers that begin in a line, with their prefixes, if any do. `at` is behind the prefixes of those that go on, and `t` are the line's
/// virtual bytes. Returns the place behind all prefixes.
fn begun_of<L: Ledger>(
    events: &mut Vec<Event>,
    bytes: &[u8],
    tab: TabSize,
    at: At,
    span: Span,
    row: &Row,
    t: &[u8],
    turns: &mut Turns<L>,
) -> Result<At, AllocError>
    requires columns { HasColumns tab bytes.now (point span.number 1 span.start 0) (length t.now) }
    requires going { row.now.going ≤ length t.now }
    requires inside { AreInside row.now.begun.items (drop row.now.going t.now) }
    requires sum { row.now.columns ≡ row.now.going + columns_of (begun_of row.now.list span.number row.now.begun.items) }
    requires place { at.place ≡ place_after tab bytes.now (point span.number 1 span.start 0) at.columns }
    ensures marks { IfOk result (λ _. (seats : List Seat) → AreSeatsAt tab bytes.now (point span.number 1 span.start 0) seats → t.now ≡ bytes_of seats → events.new.items ≡ events.old.items ++ events_of (begun_all bytes.now (begun_of row.now.list span.number row.now.begun.items) (drop row.now.going seats))) }
    ensures columns { IfOk result (λ p. p.columns ≡ cond (has_none row.now.begun.items) at.columns row.now.columns) }
    ensures place { IfOk result (λ p. p.place ≡ place_after tab bytes.now (point span.number 1 span.start 0) p.columns) }
    ensures turns { turns.new ≤ turns.old + 3 * length t.now }
{
    if row.begun.is_empty() {
        return Ok(at);
    }
    let start = moved(bytes, tab, start_of(span), row.going, turns);
    let place = begun_prefixes(
        events,
        bytes,
        tab,
        start,
        row.list,
        span.number,
        row.begun.as_slice(),
        behind(t, row.going),
        turns,
    )?;
    Ok(At {
        place,
        columns: row.columns,
    })
}

/// Between two parts: the spans end that the next part is not in, and the line ending comes. The next part stands in the first `kept` spans, and
/// in `next` behind them.
pub fn end_part<L: Ledger>(
    events: &mut Vec<Event>,
    frames: &mut Vec<Frame>,
    kept: usize,
    end: PartEnd,
    next: &[Frame],
    turns: &mut Turns<L>,
) -> Result<(), AllocError>
    requires { kept ≤ length frames.old.items }
    ensures events { IfOk result (λ _. events.new.items ≡ events.old.items ++ (events_of (exits_to (drop (kept + shared (drop kept (map frame_of frames.old.items)) (map frame_of next.now)) (map frame_of frames.old.items)) end.place) ++ events_of (ending_to end))) }
    ensures frames { IfOk result (λ _. take kept frames.new.items ≡ take kept frames.old.items) }
    ensures turns { turns.new + kept ≤ turns.old + length frames.old.items }
{
    let more = shared(behind_frames(frames.as_slice(), kept), next, turns);
    exit_frames(events, frames, kept + more, end.place, turns)?;
    write_ending(events, end)?;
    Ok(())
}

/// The next part comes: the spans become its own. They are those of these containers, and of a list that goes on behind them, if there is one. The
/// part that ends stands in some of the containers too.
pub fn go_to_part<L: Ledger>(
    alloc: Global,
    events: &mut Vec<Event>,
    frames: &mut Vec<Frame>,
    kept: Stood,
    stack: &[Open],
    list: Option<Frame>,
    end: PartEnd,
    turns: &mut Turns<L>,
) -> Result<Stood, AllocError>
    requires stood { IsStood kept (map open_of stack.now) }
    requires spans { HasSpans frames.old.items kept (map open_of stack.now) }
    ensures frames { IfOk result (λ _. map frame_of frames.new.items ≡ flat_map frames_of (map open_of stack.now) ++ frames_in list) }
    ensures events { IfOk result (λ _. events.new.items ≡ events.old.items ++ (events_of (exits_to (drop (shared (map frame_of frames.old.items) (map frame_of frames.new.items)) (map frame_of frames.old.items)) end.place) ++ events_of (ending_to end))) }
    ensures stood { IfOk result (λ s. IsStood s (map open_of stack.now)) }
    ensures containers { IfOk result (λ s. s.containers ≡ length stack.now) }
    ensures paid { IfOk result (λ _. turns.new + length frames.new.items ≤ turns.old + length frames.old.items + 3 * (length stack.now - kept.containers) + 1) }
    ensures turns { turns.new ≤ turns.old + length frames.old.items + (length stack.now - kept.containers) }
{
    let opened = frames.len();
    push_frames(frames, rest_of(stack, kept.containers), turns)?;
    let added = frames.len() - opened;
    let spans = kept.spans + added;
    push_list(frames, list)?;
    exit_others(
        events,
        frames.as_slice(),
        kept.spans,
        opened,
        end.place,
        turns,
    )?;
    write_ending(events, end)?;
    drop_frames(frames, kept.spans, opened);
    let containers = stack.len();
    Ok(Stood { containers, spans })
}

/// The list that goes on behind a line, if the line is left blank and stands in all containers that go on.
pub fn list_behind(row: &Row, ahead: Ahead, stands: usize) -> Option<Frame>
    ensures { frames_in result ≡ cond (row.now.is_left_blank && (stands == ahead.many)) (frames_in ahead.list) [] }
{
    if row.is_left_blank && stands == ahead.many {
        ahead.list
    } else {
        None
    }
}

/// No container goes on with a line, of these, and none begins in it.
fn has_no_prefix(stack: &[Open], row: &Row) -> bool
    ensures { result ≡ (has_none stack.now && has_none row.now.begun.items) }
{
    stack.is_empty() && row.begun.is_empty()
}

/// The prefixes of a part's first line: those of its first containers, and those of containers that begin in it. Returns the place behind them.
pub fn begin_part<L: Ledger>(
    events: &mut Vec<Event>,
    bytes: &[u8],
    tab: TabSize,
    stack: &[Open],
    at: &RowAt,
    line: &mut Vec<u8>,
    turns: &mut Turns<L>,
) -> Result<At, AllocError>
    requires inside { at.now.span.start ≤ length bytes.now }
    requires columns { let s = at.now.span in HasColumns tab bytes.now (point s.number 1 s.start 0) (length (line_bytes tab s.number 1 s.start (drop s.start bytes.now))) }
    requires going { let s = at.now.span in at.now.row.going ≤ length (line_bytes tab s.number 1 s.start (drop s.start bytes.now)) }
    requires fits { let s = at.now.span in AreInside at.now.row.begun.items (drop at.now.row.going (line_bytes tab s.number 1 s.start (drop s.start bytes.now))) }
    requires sum { at.now.row.columns ≡ at.now.row.going + columns_of (begun_of at.now.row.list at.now.span.number at.now.row.begun.items) }
    requires sizes { HaveSizes (map open_of stack.now) }
    ensures marks { let s = at.now.span in let t = line_bytes tab s.number 1 s.start (drop s.start bytes.now) in IfOk result (λ _. (seats : List Seat) → AreSeatsAt tab bytes.now (point s.number 1 s.start 0) seats → t ≡ bytes_of seats → events.new.items ≡ events.old.items ++ (events_of (prefixes_marks bytes.now (going_on (map open_of stack.now) s.number t) seats) ++ events_of (begun_all bytes.now (begun_of at.now.row.list s.number at.now.row.begun.items) (drop at.now.row.going seats)))) }
    ensures columns { let s = at.now.span in IfOk result (λ p. p.columns ≡ cond (has_none at.now.row.begun.items) (columns_of (going_on (map open_of stack.now) s.number (line_bytes tab s.number 1 s.start (drop s.start bytes.now)))) at.now.row.columns) }
    ensures place { let s = at.now.span in IfOk result (λ p. p.place ≡ place_after tab bytes.now (point s.number 1 s.start 0) p.columns) }
    ensures turns { let s = at.now.span in turns.new ≤ turns.old + 11 * length (line_bytes tab s.number 1 s.start (drop s.start bytes.now)) + 4 }
{
    if has_no_prefix(stack, &at.row) {
        let place = start_of(at.span);
        return Ok(At { place, columns: 0 });
    }
    let span = at.span;
    let text = text_at(line, bytes, tab, span.start, turns)?;
    let behind = going_prefixes(
        events,
        bytes,
        tab,
        start_of(span),
        stack,
        span.number,
        text.bytes,
        turns,
    )?;
    let begin = begun_of(events, bytes, tab, behind, span, &at.row, text.bytes, turns)?;
    Ok(begin)
}

/// A part that is written: how many further lines it has, where it ends, and in how many containers it stands.
#[derive(Clone, Copy)]
struct Part {
    lines: usize,
    end: PartEnd,
    stood: Stood,
    passed: Passed,
}

/// Open containers that are items and began before: from one on up to another. A blank line was asked before whether it stands in them.
#[derive(Clone, Copy)]
pub struct Passed {
    /// From this one on.
    pub from: usize,
    /// Up to this one, which is not among them.
    pub to: usize,
}

/// From where on the open containers of a line are items that began before it, as far as this is known. There are so many of them.
pub fn passed_in(passed: Passed, row: &Row, all: usize) -> usize
    ensures { result ≡ cond (has_none row.now.begun.items && nat_le all passed.to) passed.from all }
{
    if row.begun.is_empty() && all <= passed.to {
        passed.from
    } else {
        all
    }
}

/// What is known of open containers behind a line that stands in so many of them.
pub fn passed_by(row: &Row, stands: usize, all: usize) -> Passed
    ensures from { result.from ≡ cond (row.now.is_blank && has_none row.now.begun.items) stands 0 }
    ensures to { result.to ≡ cond (row.now.is_blank && has_none row.now.begun.items) all 0 }
{
    if row.is_blank && row.begun.is_empty() {
        Passed {
            from: stands,
            to: all,
        }
    } else {
        Passed { from: 0, to: 0 }
    }
}

/// The lesser of two numbers.
pub fn least(m: usize, n: usize) -> usize
    ensures { result ≡ min m n }
{
    if m < n { m } else { n }
}

/// How many further lines a part has: a blank line has none.
pub fn lines_of(row: &Row, ahead: Ahead) -> usize
    ensures { result ≡ cond row.now.is_blank 0 ahead.further }
{
    if row.is_blank { 0 } else { ahead.further }
}

/// Where a part ends, by its first line and those behind it.
pub fn end_of_part(first: &RowAt, more: &[RowAt]) -> PartEnd
    requires size { (last_at first.now more.now).span.size + 1 < 2 ^ 64 }
    requires number { (last_at first.now more.now).span.number + 1 < 2 ^ 64 }
    ensures is_blank { result.is_blank ≡ first.now.row.is_blank }
    ensures place { let last = last_at first.now more.now in result.place ≡ end_at (not first.now.row.is_blank && holds_ending (leaf_of last.row.leaf)) last }
    ensures behind { let last = last_at first.now more.now in result.behind ≡ cond (not first.now.row.is_blank && holds_ending (leaf_of last.row.leaf)) None (cond (last.span.end == last.span.next) None (Some (point (last.span.number + 1) 1 last.span.next 0))) }
{
    match more {
        [.., last] => part_end(first.row.is_blank, last),
        [] => part_end(first.row.is_blank, first),
    }
}

/// What is in a part, behind the prefixes of its first line: white space of a blank line, or the chunks of a stretch.
fn fill_part<L: Ledger>(
    events: &mut Vec<Event>,
    bytes: &[u8],
    tab: TabSize,
    stack: &[Open],
    begin: At,
    first: &RowAt,
    more: &[RowAt],
    end: Point,
    line: &mut Vec<u8>,
    turns: &mut Turns<L>,
) -> Result<(), AllocError>
    requires limit { IsWithinLimit tab bytes.now }
    requires within { first.now.row.is_blank ≡ true → begin.columns ≤ first.now.span.size }
    requires columns { first.now.row.is_blank ≡ true → HasColumns tab bytes.now begin.place (first.now.span.size - begin.columns) }
    requires further { first.now.row.is_blank ≡ false → HasFurther tab bytes.now (map open_of stack.now) more.now }
    ensures blank { IfOk result (λ _. first.now.row.is_blank ≡ true → events.new.items ≡ events.old.items ++ span_at tab bytes.now SpaceOrTab begin.place (first.now.span.size - begin.columns)) }
    ensures stretch { IfOk result (λ _. first.now.row.is_blank ≡ false → (is_held : Bool) → (rest : List Mark) → (all : List Mark) → InStretch tab bytes.now (map open_of stack.now) is_held events.old.items None begin.place end more.now rest all → Written events.new.items None false rest all) }
    ensures turns { turns.new ≤ turns.old + first.now.span.size + 8 * columns_in more.now }
{
    if first.row.is_blank {
        white(
            events,
            bytes,
            tab,
            begin.place,
            first.span.size - begin.columns,
            turns,
        )?;
        return Ok(());
    }
    stretch(
        events,
        bytes,
        tab,
        stack,
        begin.place,
        more,
        end,
        line,
        turns,
    )?;
    Ok(())
}

/// The part that begins at a line, behind one that ends so and stands in these spans, which become those of the part.
fn write_part<L: Ledger>(
    alloc: Global,
    events: &mut Vec<Event>,
    bytes: &[u8],
    tab: TabSize,
    stack: &mut Vec<Open>,
    frames: &mut Vec<Frame>,
    stood: Stood,
    passed: Passed,
    first: &RowAt,
    behind: &[RowAt],
    ahead: Ahead,
    end: PartEnd,
    line: &mut Vec<u8>,
    turns: &mut Turns<L>,
) -> Result<Part, AllocError>
    requires limit { IsWithinLimit tab bytes.now }
    requires part { HasPart bytes.now tab (map open_of stack.old.items) ahead first.now behind.now }
    requires stood { IsStood stood (map open_of stack.old.items) }
    requires spans { HasSpans frames.old.items stood (map open_of stack.old.items) }
    requires passed { AreEarlier first.now.span.number passed.from passed.to (map open_of stack.old.items) }
    ensures passed { IfOk result (λ p. AreEarlier first.now.span.number p.passed.from p.passed.to (map open_of stack.new.items)) }
    ensures stood { IfOk result (λ p. IsStood p.stood (map open_of stack.new.items)) }
    ensures spans { IfOk result (λ p. HasSpans frames.new.items p.stood (map open_of stack.new.items)) }
    ensures few { IfOk result (λ p. p.lines ≤ length behind.now) }
    ensures left { IfOk result (λ p. (r : RowOf) → (rs : List RowOf) → AreLeft bytes.now tab (map open_of stack.old.items) (first.now ∷ behind.now) (r ∷ rs) → ahead ≡ ahead_of rs → AreLeft bytes.now tab (map open_of stack.new.items) (drop p.lines behind.now) (drop p.lines rs)) }
    ensures written { IfOk result (λ p. (r : RowOf) → (rs : List RowOf) → (all : List Mark) → AreLeft bytes.now tab (map open_of stack.old.items) (first.now ∷ behind.now) (r ∷ rs) → ahead ≡ ahead_of rs → Written events.old.items None false (rest_marks bytes.now (map frame_of frames.old.items) end (parts (r ∷ rs))) all → Written events.new.items None false (rest_marks bytes.now (map frame_of frames.new.items) p.end (parts (drop p.lines rs))) all) }
    ensures paid { IfOk result (λ p. (r : RowOf) → (rs : List RowOf) → (budget : ℕ) → AreLeft bytes.now tab (map open_of stack.old.items) (first.now ∷ behind.now) (r ∷ rs) → ahead ≡ ahead_of rs → ArePaid (r ∷ rs) → IsEnough turns.old budget (length frames.old.items) stood.containers passed.from passed.to (length stack.old.items) (r ∷ rs) → IsEnough turns.new (budget + 19 * first.now.span.size + 5 + 8 * columns_in (take p.lines behind.now)) (length frames.new.items) p.stood.containers p.passed.from p.passed.to (length stack.new.items) (drop p.lines rs)) }
    ensures turns { (r : RowOf) → (rs : List RowOf) → (budget : ℕ) → AreLeft bytes.now tab (map open_of stack.old.items) (first.now ∷ behind.now) (r ∷ rs) → ahead ≡ ahead_of rs → ArePaid (r ∷ rs) → IsEnough turns.old budget (length frames.old.items) stood.containers passed.from passed.to (length stack.old.items) (r ∷ rs) → turns.new ≤ budget + 19 * first.now.span.size + 5 + 8 * columns_in behind.now }
{
    let tab_size = tab.get();
    prove!(tab_size >= 1);
    let row = &first.row;
    let number = first.span.number;
    let went = stood_in(stood, stack.as_slice(), row.many, turns);
    let all = open_in(stack, number, row, turns)?;
    let own = first_of(stack.as_slice(), all);
    let seen = passed_in(passed, row, all);
    let stands = standing(own, row.is_blank, ahead.many, number, seen, turns);
    let next_passed = passed_by(row, stands, all);
    let list = list_behind(row, ahead, stands);
    let shown = first_of(own, stands);
    let kept = stood_in(went, own, stands, turns);
    let next = go_to_part(alloc, events, frames, kept, shown, list, end, turns)?;
    let going = first_of(own, least(stands, row.many));
    let begin = begin_part(events, bytes, tab, going, first, line, turns)?;
    let lines = lines_of(row, ahead);
    let more = &behind[..lines];
    let end = end_of_part(first, more);
    fill_part(
        events,
        bytes,
        tab,
        stack.as_slice(),
        begin,
        first,
        more,
        end.place,
        line,
        turns,
    )?;
    Ok(Part {
        lines,
        end,
        stood: next,
        passed: next_passed,
    })
}

/// The events of a skeleton, by the lines of a document and what lies ahead of each; that of the last line comes first.
fn write_parts<L: Ledger>(
    alloc: Global,
    bytes: &[u8],
    tab: TabSize,
    rows: &[RowAt],
    aheads: &[Ahead],
    turns: &mut Turns<L>,
) -> Result<Vec<Event>, AllocError>
    ghost all: { List RowOf }
    requires limit { IsWithinLimit tab bytes.now }
    requires rows { AreRowsIn tab bytes.now [] 1 0 rows.now all }
    requires len { length aheads.now ≡ length rows.now }
    requires aheads { (d : Ahead) → (k : ℕ) → k < length rows.now → slice_index_or aheads.now k d ≡ ahead_of (drop (length rows.now - k) all) }
    requires first { FirstIsNotLazy all }
    requires paid { ArePaid all }
    ensures value { IfOk result (λ events. events.items ≡ chained_from 0 None (parts_marks bytes.now (parts all))) }
    ensures turns { turns.new ≤ turns.old + 19 * columns_in rows.now }
{
    let mut events = Vec::new(alloc);
    let mut stack = Vec::new(alloc);
    let mut frames = Vec::new(alloc);
    let mut line = Vec::new(alloc);
    let mut end = PartEnd {
        is_blank: false,
        place: Point {
            line: 1,
            column: 1,
            index: 0,
            vs: 0,
        },
        behind: None,
    };
    let mut stood = Stood {
        containers: 0,
        spans: 0,
    };
    let mut passed = Passed { from: 0, to: 0 };
    let mut i = 0;
    while i < rows.len() {
        turns.add_one();
        let part = write_part(
            alloc,
            &mut events,
            bytes,
            tab,
            &mut stack,
            &mut frames,
            stood,
            passed,
            &rows[i],
            &rows[i + 1..],
            aheads[rows.len() - 1 - i],
            end,
            &mut line,
            turns,
        )?;
        end = part.end;
        stood = part.stood;
        passed = part.passed;
        i += 1 + part.lines;
    }
    end_part(&mut events, &mut frames, 0, end, &[], turns)?;
    Ok(events)
}

/// The index of the first mark of a lazy underline goes to a list, if the line is one. `line` is room for its bytes.
pub fn push_letter<L: Ledger>(
    letters: &mut Vec<usize>,
    bytes: &[u8],
    tab: TabSize,
    on: &Constructs,
    at: &RowAt,
    line: &mut Vec<u8>,
    turns: &mut Turns<L>,
) -> Result<(), AllocError>
    requires inside { at.now.span.start ≤ length bytes.now }
    requires columns { let s = at.now.span in HasColumns tab bytes.now (point s.number 1 s.start 0) (length (line_bytes tab s.number 1 s.start (drop s.start bytes.now))) }
    requires within { let s = at.now.span in at.now.row.columns ≤ length (line_bytes tab s.number 1 s.start (drop s.start bytes.now)) }
    ensures value { let s = at.now.span in let rest = drop at.now.row.columns (line_bytes tab s.number 1 s.start (drop s.start bytes.now)) in IfOk result (λ _. letters.new.items ≡ letters.old.items ++ cond (at.now.row.is_lazy && is_some (underline_rank on.now rest)) ((place_after tab bytes.now (point s.number 1 s.start 0) (at.now.row.columns + indent rest)).index ∷ []) []) }
    ensures turns { let s = at.now.span in turns.new ≤ turns.old + 9 * length (line_bytes tab s.number 1 s.start (drop s.start bytes.now)) + 6 }
{
    if !at.row.is_lazy {
        return Ok(());
    }
    let tab_size = tab.get();
    prove!(tab_size >= 1);
    read_line(line, bytes, tab, at.span.start, turns)?;
    let rest = behind(line.as_slice(), at.row.columns);
    if underline_rank(on, rest, turns).is_some() {
        let columns = at.row.columns + indent(rest, turns);
        letters.push(moved(bytes, tab, start_of(at.span), columns, turns).index)?;
    }
    Ok(())
}

/// The indices of the first marks of lazy underlines.
fn letters_of<L: Ledger>(
    alloc: Global,
    bytes: &[u8],
    tab: TabSize,
    on: &Constructs,
    rows: &[RowAt],
    turns: &mut Turns<L>,
) -> Result<Vec<usize>, AllocError>
    ghost all: { List RowOf }
    requires limit { IsWithinLimit tab bytes.now }
    requires rows { AreRowsIn tab bytes.now [] 1 0 rows.now all }
    ensures value { IfOk result (λ letters. letters.items ≡ flat_map (lazy_underline on.now) all) }
    ensures turns { turns.new ≤ turns.old + 9 * columns_in rows.now }
{
    let tab_size = tab.get();
    prove!(tab_size >= 1);
    let mut letters = Vec::new(alloc);
    let mut line = Vec::new(alloc);
    for at in rows {
        turns.add_one();
        push_letter(&mut letters, bytes, tab, on, at, &mut line, turns)?;
    }
    Ok(letters)
}

/// The skeleton of a document, by its lines and what lies ahead of each; that of the last line comes first.
fn skeleton_by<L: Ledger>(
    alloc: Global,
    bytes: &[u8],
    tab: TabSize,
    on: &Constructs,
    rows: &[RowAt],
    aheads: &[Ahead],
    turns: &mut Turns<L>,
) -> Result<Skeleton, AllocError>
    ghost all: { List RowOf }
    requires limit { IsWithinLimit tab bytes.now }
    requires rows { AreRowsIn tab bytes.now [] 1 0 rows.now all }
    requires len { length aheads.now ≡ length rows.now }
    requires aheads { (d : Ahead) → (k : ℕ) → k < length rows.now → slice_index_or aheads.now k d ≡ ahead_of (drop (length rows.now - k) all) }
    requires first { FirstIsNotLazy all }
    requires paid { ArePaid all }
    ensures events { IfOk result (λ s. s.events.items ≡ chained_from 0 None (parts_marks bytes.now (parts all))) }
    ensures letters { IfOk result (λ s. s.letters.items ≡ flat_map (lazy_underline on.now) all) }
    ensures turns { turns.new ≤ turns.old + 28 * columns_in rows.now }
{
    let events = write_parts(alloc, bytes, tab, rows, aheads, turns)?;
    let letters = letters_of(alloc, bytes, tab, on, rows, turns)?;
    Ok(Skeleton { events, letters })
}

/// The skeleton of a document. Fails only for want of memory.
///
/// It is linear: each line is paid by its columns, and what is looked at of other lines is looked at once. A blank line goes over its containers
/// only as far as no blank line before it did; a container or a span that ends began before, at a column of its own.
pub fn skeleton_counted<L: Ledger>(
    alloc: Global,
    bytes: &[u8],
    tab: TabSize,
    on: &Constructs,
    turns: &mut Turns<L>,
) -> Result<Skeleton, AllocError>
    requires limit { IsWithinLimit tab bytes.now }
    ensures events { IfOk result (λ s. s.events.items ≡ skeleton on.now bytes.now (virtual tab bytes.now)) }
    ensures letters { IfOk result (λ s. s.letters.items ≡ lazy_underlines on.now (virtual tab bytes.now)) }
    ensures turns { turns.new ≤ turns.old + 1681 * length (virtual tab bytes.now) + 1681 }
{
    let tab_size = tab.get();
    prove!(tab_size >= 1);
    let rows = rows_of(alloc, bytes, tab, on, turns)?;
    let aheads = aheads_of(alloc, rows.as_slice(), turns)?;
    let skeleton = skeleton_by(
        alloc,
        bytes,
        tab,
        on,
        rows.as_slice(),
        aheads.as_slice(),
        turns,
    )?;
    Ok(skeleton)
}

/// The skeleton of a document, counted from nothing.
fn skeleton_uncounted<L: Ledger>(
    alloc: Global,
    bytes: &[u8],
    tab: TabSize,
    on: &Constructs,
    blank: Blank,
) -> Result<Skeleton, AllocError>
    requires limit { IsWithinLimit tab bytes.now }
    requires name { blank.name ≡ L.name }
    requires parts { blank.parts ≡ L.parts }
    requires some { 0 < blank.parts }
    ensures events { IfOk result (λ s. s.events.items ≡ skeleton on.now bytes.now (virtual tab bytes.now)) }
    ensures letters { IfOk result (λ s. s.letters.items ≡ lazy_underlines on.now (virtual tab bytes.now)) }
{
    let mut turns = Turns::<L>::new(blank);
    skeleton_counted(alloc, bytes, tab, on, &mut turns)
}

/// The skeleton of a document, as `skeleton_counted`. Fails only for want of memory.
pub fn skeleton_of(
    alloc: Global,
    bytes: &[u8],
    tab: TabSize,
    on: &Constructs,
) -> Result<Skeleton, AllocError>
    requires limit { IsWithinLimit tab bytes.now }
    ensures events { IfOk result (λ s. s.events.items ≡ skeleton on.now bytes.now (virtual tab bytes.now)) }
    ensures letters { IfOk result (λ s. s.letters.items ≡ lazy_underlines on.now (virtual tab bytes.now)) }
{
    skeleton_uncounted::<Brand>(alloc, bytes, tab, on, Blank::new(1))
}
