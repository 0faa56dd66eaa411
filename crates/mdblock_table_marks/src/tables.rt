//! The events of tables, from the places of their lines.

ghost use Rattle.std.specs.Prelude.{◌≡◌, ◌≤◌, ◌+◌, ◌*◌, ◌++◌, ◌∷◌, List, IfOk, None, drop, false, length, map};
ghost use Rattle.std.specs.List.{AllByRecursion};
ghost use Rattle.markdown_base.specs.Virtual.{IsWithinLimit};
ghost use Rattle.mdblock_leaf_blocks.specs.LeafEvents.{Mark};
ghost use Rattle.mdblock_lines.specs.Lines.{line_bytes, place_after};
ghost use Rattle.mdblock_tables.specs.declared.rows.RowKind.TheVariants.{Text};
ghost use Rattle.mdblock_containers.specs.Costs.{columns_in};
ghost use Rattle.mdblock_containers.specs.Rows.{Row as RowOf};
ghost use Rattle.mdblock_containers.specs.SeatPlaces.{events_of};
ghost use Rattle.mdblock_containers.specs.Skeleton.{Part as PartOf};
ghost use Rattle.mdblock_containers.specs.Views.{open_of};
ghost use Rattle.mdblock_containers.specs.Written.{Written};
ghost use Rattle.mdblock_table_marks.specs.Lines.{AreLines, AreNext, CanBeTable, HasText, HaveLines, IsBegin, IsFurther, IsLine, IsNext, IsStanding, begin_at, end_at, last_end};
ghost use Rattle.mdblock_table_marks.specs.TableMarks.{body_marks, head_marks, marks_behind, marks_between, row_marks, table_marks};

use crate::pieces::write_row;
use markdown_base::configuration::TabSize;
use markdown_base::event::{Event, Name, Point};
use mdblock_containers::going::{Open, first_of};
use mdblock_containers::parts::{PartEnd, write_ending};
use mdblock_containers::prefixes::At;
use mdblock_containers::spans::{RowAt, start_of};
use mdblock_containers::stretches::prefixes_of;
use mdblock_containers::texts::read_text;
use mdblock_containers::writing::{enter, exit};
use mdblock_tables::rows::RowKind;
use mdconstructs_loop_counts::Turns;
use std::alloc::{AllocError, Global};
use std::sync::ledger::Ledger;

/// Lines behind the first.
fn rows_behind(rows: &[RowAt], many: usize) -> &[RowAt]
    requires { many ≤ length rows.now }
    ensures { result.now ≡ drop many rows.now }
{
    &rows[many..]
}

/// The line ending behind a row that ends at a place, and the prefixes of the next line. `line` then holds the bytes of that. Returns the place behind
/// the prefixes.
fn write_between<L: Ledger>(
    events: &mut Vec<Event>,
    bytes: &[u8],
    tab: TabSize,
    stack: &[Open],
    end: Point,
    next: &RowAt,
    line: &mut Vec<u8>,
    turns: &mut Turns<L>,
) -> Result<At, AllocError>
    requires limit { IsWithinLimit tab bytes.now }
    requires further { IsFurther tab bytes.now (map open_of stack.now) next.now }
    ensures events { IfOk result (λ _. (r s : RowOf) → IsNext tab bytes.now (map open_of stack.now) end r next.now s → events.new.items ≡ events.old.items ++ events_of (marks_between bytes.now r s)) }
    ensures columns { IfOk result (λ at. (r s : RowOf) → IsNext tab bytes.now (map open_of stack.now) end r next.now s → at.columns ≡ s.columns) }
    ensures within { IfOk result (λ at. at.columns ≤ next.now.span.size) }
    ensures place { IfOk result (λ at. at.place ≡ place_after tab bytes.now (begin_at next.now) at.columns) }
    ensures line { let s = next.now.span in IfOk result (λ _. line.new.items ≡ line_bytes tab s.number 1 s.start (drop s.start bytes.now)) }
    ensures turns { turns.new ≤ turns.old + 8 * next.now.span.size + 4 }
{
    let tab_size = tab.get();
    prove!(tab_size >= 1);
    let ending = PartEnd {
        is_blank: false,
        place: end,
        behind: Some(start_of(next.span)),
    };
    write_ending(events, ending)?;
    let front = first_of(stack, next.row.many);
    let at = prefixes_of(events, bytes, tab, front, next, line, turns)?;
    Ok(at)
}

/// The row of a line, from behind its prefixes on, by its bytes. Returns the place behind it.
fn write_line<L: Ledger>(
    alloc: Global,
    events: &mut Vec<Event>,
    bytes: &[u8],
    tab: TabSize,
    kind: RowKind,
    at: &RowAt,
    begin: At,
    line: &[u8],
    turns: &mut Turns<L>,
) -> Result<Point, AllocError>
    requires limit { IsWithinLimit tab bytes.now }
    requires stands { IsStanding tab bytes.now at.now }
    requires within { begin.columns ≤ at.now.span.size }
    requires place { begin.place ≡ place_after tab bytes.now (begin_at at.now) begin.columns }
    requires line { let s = at.now.span in line.now ≡ line_bytes tab s.number 1 s.start (drop s.start bytes.now) }
    ensures events { IfOk result (λ _. (r : RowOf) → IsLine tab bytes.now at.now r → begin.columns ≡ r.columns → events.new.items ≡ events.old.items ++ events_of (row_marks bytes.now kind r)) }
    ensures place { IfOk result (λ p. p ≡ end_at tab bytes.now at.now) }
    ensures turns { turns.new ≤ turns.old + 17 * at.now.span.size + 10 }
{
    let tab_size = tab.get();
    prove!(tab_size >= 1);
    let end = write_row(alloc, events, bytes, tab, kind, begin, line, turns)?;
    Ok(end)
}

/// The line ending behind a row that ends at a place, and the next row, with the prefixes of its line. Returns the place behind it.
fn write_next<L: Ledger>(
    alloc: Global,
    events: &mut Vec<Event>,
    bytes: &[u8],
    tab: TabSize,
    stack: &[Open],
    kind: RowKind,
    end: Point,
    next: &RowAt,
    line: &mut Vec<u8>,
    turns: &mut Turns<L>,
) -> Result<Point, AllocError>
    requires limit { IsWithinLimit tab bytes.now }
    requires further { IsFurther tab bytes.now (map open_of stack.now) next.now }
    ensures events { IfOk result (λ _. (r s : RowOf) → IsNext tab bytes.now (map open_of stack.now) end r next.now s → events.new.items ≡ events.old.items ++ events_of (marks_between bytes.now r s ++ row_marks bytes.now kind s)) }
    ensures place { IfOk result (λ p. p ≡ end_at tab bytes.now next.now) }
    ensures turns { turns.new ≤ turns.old + 25 * next.now.span.size + 14 }
{
    let at = write_between(events, bytes, tab, stack, end, next, line, turns)?;
    let place = write_line(
        alloc,
        events,
        bytes,
        tab,
        kind,
        next,
        at,
        line.as_slice(),
        turns,
    )?;
    Ok(place)
}

/// The rows of these lines, behind a row that ends at a place. Returns where the last ends.
fn write_behind<L: Ledger>(
    alloc: Global,
    events: &mut Vec<Event>,
    bytes: &[u8],
    tab: TabSize,
    stack: &[Open],
    rows: &[RowAt],
    end: Point,
    line: &mut Vec<u8>,
    turns: &mut Turns<L>,
) -> Result<Point, AllocError>
    requires limit { IsWithinLimit tab bytes.now }
    requires further { AllByRecursion (IsFurther tab bytes.now (map open_of stack.now)) rows.now }
    ensures events { IfOk result (λ _. (r : RowOf) → (rs : List RowOf) → AreNext tab bytes.now (map open_of stack.now) end r rows.now rs → events.new.items ≡ events.old.items ++ events_of (marks_behind bytes.now r rs)) }
    ensures end { IfOk result (λ p. p ≡ last_end tab bytes.now end rows.now) }
    ensures turns { turns.new ≤ turns.old + 25 * columns_in rows.now }
{
    let mut place = end;
    let mut i = 0;
    while i < rows.len() {
        turns.add_one();
        let next = &rows[i];
        let kind = RowKind::Text;
        place = write_next(
            alloc, events, bytes, tab, stack, kind, place, next, line, turns,
        )?;
        i += 1;
    }
    Ok(place)
}

/// The row of the first of these lines, from behind its prefixes on. `line` is room for its bytes. Returns the place behind it.
fn write_header<L: Ledger>(
    alloc: Global,
    events: &mut Vec<Event>,
    bytes: &[u8],
    tab: TabSize,
    first: &RowAt,
    begin: At,
    line: &mut Vec<u8>,
    turns: &mut Turns<L>,
) -> Result<Point, AllocError>
    requires limit { IsWithinLimit tab bytes.now }
    requires stands { IsStanding tab bytes.now first.now }
    requires columns { begin.columns ≡ first.now.row.columns }
    requires place { begin.place ≡ place_after tab bytes.now (begin_at first.now) begin.columns }
    ensures events { IfOk result (λ _. (r : RowOf) → IsLine tab bytes.now first.now r → events.new.items ≡ events.old.items ++ events_of (row_marks bytes.now Text r)) }
    ensures place { IfOk result (λ p. p ≡ end_at tab bytes.now first.now) }
    ensures turns { turns.new ≤ turns.old + 21 * first.now.span.size + 12 }
{
    let tab_size = tab.get();
    prove!(tab_size >= 1);
    read_text(line, bytes, tab, first.span.start, turns)?;
    let kind = RowKind::Text;
    let end = write_line(
        alloc,
        events,
        bytes,
        tab,
        kind,
        first,
        begin,
        line.as_slice(),
        turns,
    )?;
    Ok(end)
}

/// The head of a table: the rows of its first two lines, from behind the prefixes of the first on. Returns the place behind it.
fn write_head<L: Ledger>(
    alloc: Global,
    events: &mut Vec<Event>,
    bytes: &[u8],
    tab: TabSize,
    stack: &[Open],
    first: &RowAt,
    next: &RowAt,
    begin: At,
    line: &mut Vec<u8>,
    turns: &mut Turns<L>,
) -> Result<Point, AllocError>
    requires limit { IsWithinLimit tab bytes.now }
    requires stands { IsStanding tab bytes.now first.now }
    requires columns { begin.columns ≡ first.now.row.columns }
    requires place { begin.place ≡ place_after tab bytes.now (begin_at first.now) begin.columns }
    requires further { IsFurther tab bytes.now (map open_of stack.now) next.now }
    ensures events { IfOk result (λ _. (r s : RowOf) → IsLine tab bytes.now first.now r → IsNext tab bytes.now (map open_of stack.now) (end_at tab bytes.now first.now) r next.now s → events.new.items ≡ events.old.items ++ events_of (head_marks bytes.now r s)) }
    ensures end { IfOk result (λ p. p ≡ end_at tab bytes.now next.now) }
    ensures turns { turns.new ≤ turns.old + 25 * first.now.span.size + 25 * next.now.span.size + 26 }
{
    let tab_size = tab.get();
    prove!(tab_size >= 1);
    let kind = RowKind::Delimiter;
    enter(events, Name::GfmTableHead, begin.place)?;
    let header = write_header(alloc, events, bytes, tab, first, begin, line, turns)?;
    let end = write_next(
        alloc, events, bytes, tab, stack, kind, header, next, line, turns,
    )?;
    exit(events, Name::GfmTableHead, end)?;
    Ok(end)
}

/// The body of a table: the rows of a line and of those behind it, behind a delimiter row that ends at a place. Returns where the last ends.
fn write_body<L: Ledger>(
    alloc: Global,
    events: &mut Vec<Event>,
    bytes: &[u8],
    tab: TabSize,
    stack: &[Open],
    first: &RowAt,
    more: &[RowAt],
    end: Point,
    line: &mut Vec<u8>,
    turns: &mut Turns<L>,
) -> Result<Point, AllocError>
    requires limit { IsWithinLimit tab bytes.now }
    requires first { IsFurther tab bytes.now (map open_of stack.now) first.now }
    requires text { HasText first.now }
    requires more { AllByRecursion (IsFurther tab bytes.now (map open_of stack.now)) more.now }
    ensures events { IfOk result (λ _. (r : RowOf) → (rs : List RowOf) → AreNext tab bytes.now (map open_of stack.now) end r (first.now ∷ more.now) rs → events.new.items ≡ events.old.items ++ events_of (body_marks bytes.now r rs)) }
    ensures end { IfOk result (λ p. p ≡ last_end tab bytes.now end (first.now ∷ more.now)) }
    ensures turns { turns.new ≤ turns.old + 25 * columns_in (first.now ∷ more.now) }
{
    let tab_size = tab.get();
    prove!(tab_size >= 1);
    let kind = RowKind::Text;
    let at = write_between(events, bytes, tab, stack, end, first, line, turns)?;
    enter(events, Name::GfmTableBody, at.place)?;
    let row = write_line(
        alloc,
        events,
        bytes,
        tab,
        kind,
        first,
        at,
        line.as_slice(),
        turns,
    )?;
    let last = write_behind(alloc, events, bytes, tab, stack, more, row, line, turns)?;
    exit(events, Name::GfmTableBody, last)?;
    Ok(last)
}

/// The body of a table, if there are rows behind its delimiter row, which ends at a place. Returns where the last row ends.
fn write_rest<L: Ledger>(
    alloc: Global,
    events: &mut Vec<Event>,
    bytes: &[u8],
    tab: TabSize,
    stack: &[Open],
    rows: &[RowAt],
    end: Point,
    line: &mut Vec<u8>,
    turns: &mut Turns<L>,
) -> Result<Point, AllocError>
    requires limit { IsWithinLimit tab bytes.now }
    requires further { AllByRecursion (IsFurther tab bytes.now (map open_of stack.now)) rows.now }
    requires text { AllByRecursion HasText rows.now }
    ensures events { IfOk result (λ _. (r : RowOf) → (rs : List RowOf) → AreNext tab bytes.now (map open_of stack.now) end r rows.now rs → events.new.items ≡ events.old.items ++ events_of (body_marks bytes.now r rs)) }
    ensures end { IfOk result (λ p. p ≡ last_end tab bytes.now end rows.now) }
    ensures turns { turns.new ≤ turns.old + 25 * columns_in rows.now }
{
    if rows.is_empty() {
        return Ok(end);
    }
    let first = &rows[0];
    let more = rows_behind(rows, 1);
    let last = write_body(
        alloc, events, bytes, tab, stack, first, more, end, line, turns,
    )?;
    Ok(last)
}

/// The events of a table over these lines of a part, from behind the prefixes of the first on. `line` is room for the bytes of one. Fails only for
/// want of memory.
pub fn write_table<L: Ledger>(
    alloc: Global,
    events: &mut Vec<Event>,
    bytes: &[u8],
    tab: TabSize,
    stack: &[Open],
    rows: &[RowAt],
    begin: At,
    line: &mut Vec<u8>,
    turns: &mut Turns<L>,
) -> Result<(), AllocError>
    requires limit { IsWithinLimit tab bytes.now }
    requires lines { HaveLines tab bytes.now (map open_of stack.now) rows.now }
    requires begin { IsBegin tab bytes.now rows.now begin }
    requires table { CanBeTable rows.now }
    ensures events { IfOk result (λ _. (part : PartOf) → AreLines tab bytes.now (map open_of stack.now) rows.now (part.first ∷ part.more) → (rest : List Mark) → (all : List Mark) → Written events.old.items None false (table_marks bytes.now part ++ rest) all → Written events.new.items None false rest all) }
    ensures turns { turns.new ≤ turns.old + 25 * columns_in rows.now }
{
    let tab_size = tab.get();
    prove!(tab_size >= 1);
    let first = &rows[0];
    let next = &rows[1];
    let more = rows_behind(rows, 2);
    enter(events, Name::GfmTable, begin.place)?;
    let head = write_head(
        alloc, events, bytes, tab, stack, first, next, begin, line, turns,
    )?;
    let last = write_rest(alloc, events, bytes, tab, stack, more, head, line, turns)?;
    exit(events, Name::GfmTable, last)?;
    Ok(())
}
