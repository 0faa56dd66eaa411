//! The events of link reference definitions, from the places of their lines.

ghost use Rattle.std.specs.Prelude.{◌≡◌, ◌≤◌, ◌<◌, ◌+◌, ◌-◌, ◌*◌, ◌^◌, ◌++◌, ℕ, List, Some, IfOk, cond, drop, false, length, map, nat_lt, take, true};
ghost use Rattle.markdown_base.specs.declared.event.Name.TheVariants.{DefinitionDestinationLiteral, DefinitionDestinationLiteralMarker, DefinitionDestinationRaw, DefinitionDestinationString};
ghost use Rattle.std.specs.List.{flat_map, prefix_len};
ghost use Rattle.markdown_base.specs.Places.{shown};
ghost use Rattle.markdown_base.specs.Virtual.{IsWithinLimit, end_after};
ghost use Rattle.mdblock_lines.specs.Lines.{place_after};
ghost use Rattle.mdblock_lines.specs.Containers.{Container as ContainerOf};
ghost use Rattle.mdblock_containers.specs.PlaceEvents.{HasColumns};
ghost use Rattle.mdblock_containers.specs.Rows.{Row as RowOf};
ghost use Rattle.mdblock_containers.specs.SeatPlaces.{events_of};
ghost use Rattle.mdblock_containers.specs.Views.{open_of};
ghost use Rattle.mdinline_labels.specs.Definitions.{definition_at, definitions as definitions_of, end, end_of};
ghost use Rattle.mdinline_labels.specs.Tails.{begins_with};
ghost use Rattle.mdblock_containers.specs.declared.spans.RowAt.{RowAt as RowAtOf};
ghost use Rattle.mdblock_definitions.specs.Costs.{left_to_write, to_write};
ghost use Rattle.mdblock_definitions.specs.Cursor.{AreLines, EndsLines, IsBeforeFeed, FitsDefinition, FitsDestination, FitsGap, FitsMarks, FitsTitle, Goes, HasColumn, HaveLines, IsBegin, IsCursor, IsHeld, columns_left, label_marks, left_at, title_length, title_marks};
ghost use Rattle.mdblock_definitions.specs.Definitions.{before_prefixes, between, definition_marks, definitions_marks, destination_marks, ending_marks, further_line, gap_marks, is_byte, last_prefixes, leaf, line_marks, marked, parts_marks, places_in, seats_of, span, string, string_lines, text_of};
ghost use Rattle.mdblock_definitions.specs.Sections.{text_in};
ghost use Rattle.mdblock_definitions.specs.Seen.{rows_by};

use markdown_base::configuration::TabSize;
use markdown_base::event::{Event, Name, Point};
use mdblock_containers::going::{Open, first_of};
use mdblock_containers::parts::{PartEnd, write_ending};
use mdblock_containers::prefixes::At;
use mdblock_containers::spans::{RowAt, start_of};
use mdblock_containers::stretches::prefixes_of;
use mdblock_containers::writing::{enter, exit, span};
use mdblock_lines::bytes::{behind, front, indent};
use mdconstructs_loop_counts::Turns;
use mdinline_labels::definitions::{Definition, Stretch};
use std::alloc::AllocError;
use std::sync::ledger::Ledger;

/// A place in one of the lines of a part.
#[derive(Clone, Copy)]
pub struct Cursor {
    /// The index of the line.
    pub row: usize,
    /// The place.
    pub at: At,
}

/// How many columns are left of the line of a cursor.
fn left_in(rows: &[RowAt], cursor: Cursor) -> usize
    requires row { cursor.row < length rows.now }
    requires column { HasColumn cursor.at.columns (drop cursor.row rows.now) }
    ensures { result ≡ columns_left cursor.at.columns (drop cursor.row rows.now) }
{
    rows[cursor.row].span.size - cursor.at.columns
}

/// How many of so many bytes are in the line of a cursor.
fn first_in(rows: &[RowAt], cursor: Cursor, size: usize) -> usize
    requires row { cursor.row < length rows.now }
    requires column { HasColumn cursor.at.columns (drop cursor.row rows.now) }
    ensures few { result ≤ size }
    ensures fits { result ≤ columns_left cursor.at.columns (drop cursor.row rows.now) }
    ensures full { result < size → result ≡ columns_left cursor.at.columns (drop cursor.row rows.now) }
{
    let left = left_in(rows, cursor);
    if size < left { size } else { left }
}

/// A span over so many columns of a line, if there are any.
fn write_leaf<L: Ledger>(
    events: &mut Vec<Event>,
    bytes: &[u8],
    tab: TabSize,
    cursor: Cursor,
    name: Name,
    columns: usize,
    turns: &mut Turns<L>,
) -> Result<Cursor, AllocError>
    requires columns { HasColumns tab bytes.now cursor.at.place columns }
    requires room { cursor.at.columns + columns < 2 ^ 64 }
    ensures events { IfOk result (λ _. (stack : List ContainerOf) → (xs : List RowAtOf) → IsCursor tab bytes.now stack xs cursor → columns ≤ columns_left cursor.at.columns (drop cursor.row xs) → events.new.items ≡ events.old.items ++ events_of (leaf bytes.now name (take columns (left_at tab bytes.now stack xs cursor)))) }
    ensures goes { IfOk result (λ c. (stack : List ContainerOf) → (xs : List RowAtOf) → IsCursor tab bytes.now stack xs cursor → columns ≤ columns_left cursor.at.columns (drop cursor.row xs) → Goes tab bytes.now stack xs cursor columns c) }
    ensures place { IfOk result (λ c. c.at.place ≡ place_after tab bytes.now cursor.at.place columns) }
    ensures row { IfOk result (λ c. c.row ≡ cursor.row) }
    ensures column { IfOk result (λ c. c.at.columns ≡ cursor.at.columns + columns) }
    ensures paid { IfOk result (λ c. (xs : List RowAtOf) → columns ≤ columns_left cursor.at.columns (drop cursor.row xs) → left_to_write xs c + 2 * columns ≡ left_to_write xs cursor) }
    ensures turns { turns.new ≤ turns.old + columns }
{
    let at = cursor.at;
    let place = span(events, bytes, tab, name, at.place, columns, turns)?;
    Ok(Cursor {
        row: cursor.row,
        at: At {
            place,
            columns: at.columns + columns,
        },
    })
}

/// The line ending at the end of a line, and the place behind it.
fn write_feed(events: &mut Vec<Event>, rows: &[RowAt], cursor: Cursor) -> Result<Point, AllocError>
    requires row { cursor.row + 1 < length rows.now }
    ensures events { IfOk result (λ _. (t : ℕ) → (bytes : List ℕ) → (stack : List ContainerOf) → IsBeforeFeed t bytes stack rows.now cursor → events.new.items ≡ events.old.items ++ events_of (flat_map (ending_marks bytes) (before_prefixes (take 1 (left_at t bytes stack rows.now cursor))))) }
    ensures place { IfOk result (λ p. (t : ℕ) → (bytes : List ℕ) → (stack : List ContainerOf) → IsBeforeFeed t bytes stack rows.now cursor → p ≡ shown bytes (end_after cursor.at.place (seats_of (before_prefixes (take 1 (left_at t bytes stack rows.now cursor)))))) }
{
    let row = cursor.row + 1;
    let next = &rows[row];
    let behind = start_of(next.span);
    let end = PartEnd {
        is_blank: false,
        place: cursor.at.place,
        behind: Some(behind),
    };
    write_ending(events, end)?;
    Ok(behind)
}

/// The prefixes of the line behind one, at whose end this is. `line` then holds the bytes of that.
fn write_prefixes<L: Ledger>(
    events: &mut Vec<Event>,
    bytes: &[u8],
    tab: TabSize,
    stack: &[Open],
    rows: &[RowAt],
    cursor: Cursor,
    line: &mut Vec<u8>,
    turns: &mut Turns<L>,
) -> Result<Cursor, AllocError>
    requires cursor { IsCursor tab bytes.now (map open_of stack.now) rows.now cursor }
    requires end { columns_left cursor.at.columns (drop cursor.row rows.now) ≡ 0 }
    requires more { 0 < length (left_at tab bytes.now (map open_of stack.now) rows.now cursor) }
    ensures events { IfOk result (λ _. events.new.items ≡ events.old.items ++ events_of (flat_map (ending_marks bytes.now) (last_prefixes (take 1 (left_at tab bytes.now (map open_of stack.now) rows.now cursor))))) }
    ensures goes { IfOk result (λ c. Goes tab bytes.now (map open_of stack.now) rows.now cursor 1 c) }
    ensures line { IfOk result (λ c. IsHeld tab bytes.now (drop c.row rows.now) line.new.items) }
    ensures paid { IfOk result (λ c. turns.new + left_to_write rows.now c + 8 ≤ turns.old + left_to_write rows.now cursor) }
    ensures turns { turns.new ≤ turns.old + left_to_write rows.now cursor }
{
    let row = cursor.row + 1;
    let next = &rows[row];
    let front = first_of(stack, next.row.many);
    let at = prefixes_of(events, bytes, tab, front, next, line, turns)?;
    Ok(Cursor { row, at })
}

/// A line ending at the end of a line, and the prefixes of the next. `line` then holds the bytes of that.
fn write_line_ending<L: Ledger>(
    events: &mut Vec<Event>,
    bytes: &[u8],
    tab: TabSize,
    stack: &[Open],
    rows: &[RowAt],
    cursor: Cursor,
    line: &mut Vec<u8>,
    turns: &mut Turns<L>,
) -> Result<Cursor, AllocError>
    requires cursor { IsCursor tab bytes.now (map open_of stack.now) rows.now cursor }
    requires end { columns_left cursor.at.columns (drop cursor.row rows.now) ≡ 0 }
    requires more { 0 < length (left_at tab bytes.now (map open_of stack.now) rows.now cursor) }
    ensures events { IfOk result (λ _. events.new.items ≡ events.old.items ++ events_of (flat_map (ending_marks bytes.now) (take 1 (left_at tab bytes.now (map open_of stack.now) rows.now cursor)))) }
    ensures goes { IfOk result (λ c. Goes tab bytes.now (map open_of stack.now) rows.now cursor 1 c) }
    ensures line { IfOk result (λ c. IsHeld tab bytes.now (drop c.row rows.now) line.new.items) }
    ensures paid { IfOk result (λ c. turns.new + left_to_write rows.now c + 8 ≤ turns.old + left_to_write rows.now cursor) }
    ensures turns { turns.new ≤ turns.old + left_to_write rows.now cursor }
{
    write_feed(events, rows, cursor)?;
    let next = write_prefixes(events, bytes, tab, stack, rows, cursor, line, turns)?;
    Ok(next)
}

/// White space of so many bytes, with one line ending at most.
fn write_gap<L: Ledger>(
    events: &mut Vec<Event>,
    bytes: &[u8],
    tab: TabSize,
    stack: &[Open],
    rows: &[RowAt],
    cursor: Cursor,
    size: usize,
    line: &mut Vec<u8>,
    turns: &mut Turns<L>,
) -> Result<Cursor, AllocError>
    requires cursor { IsCursor tab bytes.now (map open_of stack.now) rows.now cursor }
    requires gap { FitsGap size (left_at tab bytes.now (map open_of stack.now) rows.now cursor) }
    ensures events { IfOk result (λ _. events.new.items ≡ events.old.items ++ events_of (gap_marks bytes.now (take size (left_at tab bytes.now (map open_of stack.now) rows.now cursor)))) }
    ensures goes { IfOk result (λ c. Goes tab bytes.now (map open_of stack.now) rows.now cursor size c) }
    ensures paid { IfOk result (λ c. turns.new + left_to_write rows.now c ≤ turns.old + left_to_write rows.now cursor) }
    ensures turns { turns.new ≤ turns.old + left_to_write rows.now cursor }
{
    let name = Name::SpaceOrTab;
    let left = left_in(rows, cursor);
    if size <= left {
        let whole = write_leaf(events, bytes, tab, cursor, name, size, turns)?;
        return Ok(whole);
    }
    let end = write_leaf(events, bytes, tab, cursor, name, left, turns)?;
    let next = write_line_ending(events, bytes, tab, stack, rows, end, line, turns)?;
    let last = write_leaf(events, bytes, tab, next, name, size - left - 1, turns)?;
    Ok(last)
}

/// So many columns of a further line of a string, by the line's bytes: the white space in front is no data.
fn write_further<L: Ledger>(
    events: &mut Vec<Event>,
    bytes: &[u8],
    tab: TabSize,
    cursor: Cursor,
    size: usize,
    line: &[u8],
    turns: &mut Turns<L>,
) -> Result<Cursor, AllocError>
    requires columns { HasColumns tab bytes.now cursor.at.place size }
    requires within { cursor.at.columns + size ≤ length line.now }
    ensures events { IfOk result (λ _. (stack : List ContainerOf) → (xs : List RowAtOf) → IsCursor tab bytes.now stack xs cursor → size ≤ columns_left cursor.at.columns (drop cursor.row xs) → IsHeld tab bytes.now (drop cursor.row xs) line.now → events.new.items ≡ events.old.items ++ events_of (further_line bytes.now (seats_of (take size (left_at tab bytes.now stack xs cursor))))) }
    ensures goes { IfOk result (λ c. (stack : List ContainerOf) → (xs : List RowAtOf) → IsCursor tab bytes.now stack xs cursor → size ≤ columns_left cursor.at.columns (drop cursor.row xs) → Goes tab bytes.now stack xs cursor size c) }
    ensures row { IfOk result (λ c. c.row ≡ cursor.row) }
    ensures column { IfOk result (λ c. c.at.columns ≡ cursor.at.columns + size) }
    ensures paid { IfOk result (λ c. (xs : List RowAtOf) → size ≤ columns_left cursor.at.columns (drop cursor.row xs) → left_to_write xs c + 2 * size ≡ left_to_write xs cursor) }
    ensures turns { turns.new ≤ turns.old + 2 * size + 1 }
{
    let part = front(behind(line, cursor.at.columns), size);
    let white = indent(part, turns);
    let text = write_leaf(events, bytes, tab, cursor, Name::SpaceOrTab, white, turns)?;
    let end = write_leaf(events, bytes, tab, text, Name::Data, size - white, turns)?;
    Ok(end)
}

/// What is written of a string.
#[derive(Clone, Copy)]
struct Written {
    /// Where it is written up to.
    cursor: Cursor,
    /// How many of its bytes are left: one, if it ends with a line ending.
    left: usize,
}

/// So many bytes of a string, from its second line on, without a line ending at its end. `line` holds the bytes of that line.
fn write_further_lines<L: Ledger>(
    events: &mut Vec<Event>,
    bytes: &[u8],
    tab: TabSize,
    stack: &[Open],
    rows: &[RowAt],
    cursor: Cursor,
    size: usize,
    line: &mut Vec<u8>,
    turns: &mut Turns<L>,
) -> Result<Written, AllocError>
    requires cursor { IsCursor tab bytes.now (map open_of stack.now) rows.now cursor }
    requires size { size ≤ length (left_at tab bytes.now (map open_of stack.now) rows.now cursor) }
    requires some { 1 ≤ size }
    requires line { IsHeld tab bytes.now (drop cursor.row rows.now) line.old.items }
    ensures events { IfOk result (λ w. events.new.items ≡ events.old.items ++ events_of (line_marks bytes.now false (string_lines (take (size - w.left) (left_at tab bytes.now (map open_of stack.now) rows.now cursor))))) }
    ensures ends { IfOk result (λ w. EndsLines tab bytes.now (map open_of stack.now) rows.now cursor size w) }
    ensures paid { IfOk result (λ w. turns.new + left_to_write rows.now w.cursor ≤ turns.old + left_to_write rows.now cursor + 1) }
    ensures turns { turns.new ≤ turns.old + left_to_write rows.now cursor + 2 }
{
    let mut here = cursor;
    let mut rest = size;
    let mut columns = first_in(rows, here, rest);
    while rest - columns > 1 {
        turns.add_one();
        let end = write_further(events, bytes, tab, here, columns, line.as_slice(), turns)?;
        here = write_line_ending(events, bytes, tab, stack, rows, end, line, turns)?;
        rest -= columns + 1;
        columns = first_in(rows, here, rest);
    }
    let last = write_further(events, bytes, tab, here, columns, line.as_slice(), turns)?;
    Ok(Written {
        cursor: last,
        left: rest - columns,
    })
}

/// So many bytes of a string, line by line, without a line ending at its end.
fn write_lines<L: Ledger>(
    events: &mut Vec<Event>,
    bytes: &[u8],
    tab: TabSize,
    stack: &[Open],
    rows: &[RowAt],
    cursor: Cursor,
    size: usize,
    line: &mut Vec<u8>,
    turns: &mut Turns<L>,
) -> Result<Written, AllocError>
    requires cursor { IsCursor tab bytes.now (map open_of stack.now) rows.now cursor }
    requires size { size ≤ length (left_at tab bytes.now (map open_of stack.now) rows.now cursor) }
    requires some { 1 ≤ size }
    ensures events { IfOk result (λ w. events.new.items ≡ events.old.items ++ events_of (line_marks bytes.now true (string_lines (take (size - w.left) (left_at tab bytes.now (map open_of stack.now) rows.now cursor))))) }
    ensures ends { IfOk result (λ w. EndsLines tab bytes.now (map open_of stack.now) rows.now cursor size w) }
    ensures paid { IfOk result (λ w. turns.new + left_to_write rows.now w.cursor ≤ turns.old + left_to_write rows.now cursor + 1) }
    ensures turns { turns.new ≤ turns.old + left_to_write rows.now cursor + 1 }
{
    let columns = first_in(rows, cursor, size);
    let end = write_leaf(events, bytes, tab, cursor, Name::Data, columns, turns)?;
    let rest = size - columns;
    if rest <= 1 {
        return Ok(Written {
            cursor: end,
            left: rest,
        });
    }
    let next = write_line_ending(events, bytes, tab, stack, rows, end, line, turns)?;
    let last = write_further_lines(events, bytes, tab, stack, rows, next, rest - 1, line, turns)?;
    Ok(last)
}

/// A string of so many bytes, if it is not empty. It ends before the prefixes of its last line, if that is empty.
fn write_string<L: Ledger>(
    events: &mut Vec<Event>,
    bytes: &[u8],
    tab: TabSize,
    stack: &[Open],
    rows: &[RowAt],
    cursor: Cursor,
    name: Name,
    size: usize,
    line: &mut Vec<u8>,
    turns: &mut Turns<L>,
) -> Result<Cursor, AllocError>
    requires cursor { IsCursor tab bytes.now (map open_of stack.now) rows.now cursor }
    requires size { size ≤ length (left_at tab bytes.now (map open_of stack.now) rows.now cursor) }
    ensures events { IfOk result (λ _. events.new.items ≡ events.old.items ++ events_of (string bytes.now name (take size (left_at tab bytes.now (map open_of stack.now) rows.now cursor)))) }
    ensures goes { IfOk result (λ c. Goes tab bytes.now (map open_of stack.now) rows.now cursor size c) }
    ensures paid { IfOk result (λ c. turns.new + left_to_write rows.now c ≤ turns.old + left_to_write rows.now cursor + 1) }
    ensures turns { turns.new ≤ turns.old + left_to_write rows.now cursor + 1 }
{
    if size == 0 {
        return Ok(cursor);
    }
    enter(events, name, cursor.at.place)?;
    let lines = write_lines(events, bytes, tab, stack, rows, cursor, size, line, turns)?;
    let end = lines.cursor;
    let left = lines.left;
    if left == 0 {
        exit(events, name, end.at.place)?;
        return Ok(end);
    }
    let behind = write_feed(events, rows, end)?;
    exit(events, name, behind)?;
    let next = write_prefixes(events, bytes, tab, stack, rows, end, line, turns)?;
    Ok(next)
}

/// A span of so many bytes: a mark, a string and a mark.
fn write_marked<L: Ledger>(
    events: &mut Vec<Event>,
    bytes: &[u8],
    tab: TabSize,
    stack: &[Open],
    rows: &[RowAt],
    cursor: Cursor,
    all: Name,
    mark: Name,
    inside: Name,
    size: usize,
    line: &mut Vec<u8>,
    turns: &mut Turns<L>,
) -> Result<Cursor, AllocError>
    requires cursor { IsCursor tab bytes.now (map open_of stack.now) rows.now cursor }
    requires marks { FitsMarks size (left_at tab bytes.now (map open_of stack.now) rows.now cursor) }
    ensures events { let places = take size (left_at tab bytes.now (map open_of stack.now) rows.now cursor) in IfOk result (λ _. events.new.items ≡ events.old.items ++ events_of (span bytes.now all places (marked bytes.now mark inside places))) }
    ensures goes { IfOk result (λ c. Goes tab bytes.now (map open_of stack.now) rows.now cursor size c) }
    ensures paid { IfOk result (λ c. turns.new + left_to_write rows.now c ≤ turns.old + left_to_write rows.now cursor + 1) }
    ensures turns { turns.new ≤ turns.old + left_to_write rows.now cursor + 1 }
{
    enter(events, all, cursor.at.place)?;
    let first = write_leaf(events, bytes, tab, cursor, mark, 1, turns)?;
    let rest = size - 2;
    let last = write_string(
        events, bytes, tab, stack, rows, first, inside, rest, line, turns,
    )?;
    let end = write_leaf(events, bytes, tab, last, mark, 1, turns)?;
    exit(events, all, end.at.place)?;
    Ok(end)
}

/// A destination without marks, of so many bytes.
fn write_raw<L: Ledger>(
    events: &mut Vec<Event>,
    bytes: &[u8],
    tab: TabSize,
    stack: &[Open],
    rows: &[RowAt],
    cursor: Cursor,
    size: usize,
    line: &mut Vec<u8>,
    turns: &mut Turns<L>,
) -> Result<Cursor, AllocError>
    requires cursor { IsCursor tab bytes.now (map open_of stack.now) rows.now cursor }
    requires size { size ≤ length (left_at tab bytes.now (map open_of stack.now) rows.now cursor) }
    requires some { 1 ≤ size }
    ensures events { let places = take size (left_at tab bytes.now (map open_of stack.now) rows.now cursor) in IfOk result (λ _. events.new.items ≡ events.old.items ++ events_of (span bytes.now DefinitionDestinationRaw places (string bytes.now DefinitionDestinationString places))) }
    ensures goes { IfOk result (λ c. Goes tab bytes.now (map open_of stack.now) rows.now cursor size c) }
    ensures paid { IfOk result (λ c. turns.new + left_to_write rows.now c ≤ turns.old + left_to_write rows.now cursor + 1) }
    ensures turns { turns.new ≤ turns.old + left_to_write rows.now cursor + 1 }
{
    let inside = Name::DefinitionDestinationString;
    enter(events, Name::DefinitionDestinationRaw, cursor.at.place)?;
    let end = write_string(
        events, bytes, tab, stack, rows, cursor, inside, size, line, turns,
    )?;
    exit(events, Name::DefinitionDestinationRaw, end.at.place)?;
    Ok(end)
}

/// What is in a destination of so many bytes, with marks or without.
fn write_target<L: Ledger>(
    events: &mut Vec<Event>,
    bytes: &[u8],
    tab: TabSize,
    stack: &[Open],
    rows: &[RowAt],
    cursor: Cursor,
    is_marked: bool,
    size: usize,
    line: &mut Vec<u8>,
    turns: &mut Turns<L>,
) -> Result<Cursor, AllocError>
    requires cursor { IsCursor tab bytes.now (map open_of stack.now) rows.now cursor }
    requires fits { FitsDestination size (left_at tab bytes.now (map open_of stack.now) rows.now cursor) }
    requires marks { is_marked ≡ begins_with 60 (text_of (left_at tab bytes.now (map open_of stack.now) rows.now cursor)) }
    ensures events { let places = take size (left_at tab bytes.now (map open_of stack.now) rows.now cursor) in IfOk result (λ _. events.new.items ≡ events.old.items ++ events_of (cond is_marked (span bytes.now DefinitionDestinationLiteral places (marked bytes.now DefinitionDestinationLiteralMarker DefinitionDestinationString places)) (span bytes.now DefinitionDestinationRaw places (string bytes.now DefinitionDestinationString places)))) }
    ensures goes { IfOk result (λ c. Goes tab bytes.now (map open_of stack.now) rows.now cursor size c) }
    ensures paid { IfOk result (λ c. turns.new + left_to_write rows.now c ≤ turns.old + left_to_write rows.now cursor + 1) }
    ensures turns { turns.new ≤ turns.old + left_to_write rows.now cursor + 1 }
{
    if !is_marked {
        let raw = write_raw(events, bytes, tab, stack, rows, cursor, size, line, turns)?;
        return Ok(raw);
    }
    let all = Name::DefinitionDestinationLiteral;
    let mark = Name::DefinitionDestinationLiteralMarker;
    let inside = Name::DefinitionDestinationString;
    let end = write_marked(
        events, bytes, tab, stack, rows, cursor, all, mark, inside, size, line, turns,
    )?;
    Ok(end)
}

/// A destination of so many bytes.
fn write_destination<L: Ledger>(
    events: &mut Vec<Event>,
    bytes: &[u8],
    tab: TabSize,
    stack: &[Open],
    rows: &[RowAt],
    cursor: Cursor,
    is_marked: bool,
    size: usize,
    line: &mut Vec<u8>,
    turns: &mut Turns<L>,
) -> Result<Cursor, AllocError>
    requires cursor { IsCursor tab bytes.now (map open_of stack.now) rows.now cursor }
    requires fits { FitsDestination size (left_at tab bytes.now (map open_of stack.now) rows.now cursor) }
    requires marks { is_marked ≡ begins_with 60 (text_of (left_at tab bytes.now (map open_of stack.now) rows.now cursor)) }
    ensures events { IfOk result (λ _. events.new.items ≡ events.old.items ++ events_of (destination_marks bytes.now (take size (left_at tab bytes.now (map open_of stack.now) rows.now cursor)))) }
    ensures goes { IfOk result (λ c. Goes tab bytes.now (map open_of stack.now) rows.now cursor size c) }
    ensures paid { IfOk result (λ c. turns.new + left_to_write rows.now c ≤ turns.old + left_to_write rows.now cursor + 1) }
    ensures turns { turns.new ≤ turns.old + left_to_write rows.now cursor + 1 }
{
    let name = Name::DefinitionDestination;
    enter(events, name, cursor.at.place)?;
    let end = write_target(
        events, bytes, tab, stack, rows, cursor, is_marked, size, line, turns,
    )?;
    exit(events, name, end.at.place)?;
    Ok(end)
}

/// The label of a definition, with the white space before it and the colon behind it.
fn write_label<L: Ledger>(
    events: &mut Vec<Event>,
    bytes: &[u8],
    tab: TabSize,
    stack: &[Open],
    rows: &[RowAt],
    cursor: Cursor,
    label: Stretch,
    line: &mut Vec<u8>,
    turns: &mut Turns<L>,
) -> Result<Cursor, AllocError>
    requires cursor { IsCursor tab bytes.now (map open_of stack.now) rows.now cursor }
    requires gap { FitsGap label.from (left_at tab bytes.now (map open_of stack.now) rows.now cursor) }
    requires label { FitsMarks label.size (drop label.from (left_at tab bytes.now (map open_of stack.now) rows.now cursor)) }
    requires colon { 1 ≤ prefix_len is_byte (drop (end label) (left_at tab bytes.now (map open_of stack.now) rows.now cursor)) }
    ensures events { IfOk result (λ _. events.new.items ≡ events.old.items ++ events_of (label_marks bytes.now label (left_at tab bytes.now (map open_of stack.now) rows.now cursor))) }
    ensures goes { IfOk result (λ c. Goes tab bytes.now (map open_of stack.now) rows.now cursor (end label + 1) c) }
    ensures paid { IfOk result (λ c. turns.new + left_to_write rows.now c ≤ turns.old + left_to_write rows.now cursor + 1) }
    ensures turns { turns.new ≤ turns.old + left_to_write rows.now cursor + 1 }
{
    let all = Name::DefinitionLabel;
    let mark = Name::DefinitionLabelMarker;
    let inside = Name::DefinitionLabelString;
    let size = label.size;
    let begin = write_gap(
        events, bytes, tab, stack, rows, cursor, label.from, line, turns,
    )?;
    let end = write_marked(
        events, bytes, tab, stack, rows, begin, all, mark, inside, size, line, turns,
    )?;
    let colon = write_leaf(events, bytes, tab, end, Name::DefinitionMarker, 1, turns)?;
    Ok(colon)
}

/// The title of a definition, behind so many bytes of it, with the white space before it, if there is one.
fn write_title<L: Ledger>(
    events: &mut Vec<Event>,
    bytes: &[u8],
    tab: TabSize,
    stack: &[Open],
    rows: &[RowAt],
    cursor: Cursor,
    from: usize,
    title: Option<Stretch>,
    line: &mut Vec<u8>,
    turns: &mut Turns<L>,
) -> Result<Cursor, AllocError>
    requires cursor { IsCursor tab bytes.now (map open_of stack.now) rows.now cursor }
    requires title { FitsTitle title from (left_at tab bytes.now (map open_of stack.now) rows.now cursor) }
    ensures events { IfOk result (λ _. events.new.items ≡ events.old.items ++ events_of (title_marks bytes.now title from (left_at tab bytes.now (map open_of stack.now) rows.now cursor))) }
    ensures goes { IfOk result (λ c. Goes tab bytes.now (map open_of stack.now) rows.now cursor (title_length title from) c) }
    ensures paid { IfOk result (λ c. turns.new + left_to_write rows.now c ≤ turns.old + left_to_write rows.now cursor + 1) }
    ensures turns { turns.new ≤ turns.old + left_to_write rows.now cursor + 1 }
{
    let Some(title) = title else {
        return Ok(cursor);
    };
    let all = Name::DefinitionTitle;
    let mark = Name::DefinitionTitleMarker;
    let inside = Name::DefinitionTitleString;
    let size = title.size;
    let begin = write_gap(
        events,
        bytes,
        tab,
        stack,
        rows,
        cursor,
        title.from - from,
        line,
        turns,
    )?;
    let end = write_marked(
        events, bytes, tab, stack, rows, begin, all, mark, inside, size, line, turns,
    )?;
    Ok(end)
}

/// Where a stretch ends.
fn end_of_stretch(stretch: Stretch) -> usize
    requires { end stretch < 2 ^ 64 }
    ensures { result ≡ end stretch }
{
    stretch.from + stretch.size
}

/// Where the parts of a definition end: behind its title, or behind its destination.
fn end_of_parts(definition: Definition) -> usize
    requires { end_of definition.title definition.destination < 2 ^ 64 }
    ensures { result ≡ end_of definition.title definition.destination }
{
    match definition.title {
        None => end_of_stretch(definition.destination),
        Some(title) => end_of_stretch(title),
    }
}

/// The parts of a definition, up to the end of its last line.
fn write_parts<L: Ledger>(
    events: &mut Vec<Event>,
    bytes: &[u8],
    tab: TabSize,
    stack: &[Open],
    rows: &[RowAt],
    cursor: Cursor,
    definition: Definition,
    is_marked: bool,
    line: &mut Vec<u8>,
    turns: &mut Turns<L>,
) -> Result<Cursor, AllocError>
    requires cursor { IsCursor tab bytes.now (map open_of stack.now) rows.now cursor }
    requires fits { FitsDefinition definition (left_at tab bytes.now (map open_of stack.now) rows.now cursor) }
    requires marks { is_marked ≡ begins_with 60 (text_of (drop definition.destination.from (left_at tab bytes.now (map open_of stack.now) rows.now cursor))) }
    ensures events { IfOk result (λ _. events.new.items ≡ events.old.items ++ events_of (parts_marks bytes.now definition (take definition.size (left_at tab bytes.now (map open_of stack.now) rows.now cursor)))) }
    ensures goes { IfOk result (λ c. Goes tab bytes.now (map open_of stack.now) rows.now cursor definition.size c) }
    ensures paid { IfOk result (λ c. turns.new + left_to_write rows.now c ≤ turns.old + left_to_write rows.now cursor + 3) }
    ensures turns { turns.new ≤ turns.old + left_to_write rows.now cursor + 3 }
{
    let size = definition.destination.size;
    let title = definition.title;
    let to = end_of_stretch(definition.destination);
    let gap = definition.destination.from - end_of_stretch(definition.label) - 1;
    let left = definition.size - end_of_parts(definition);
    let colon = write_label(
        events,
        bytes,
        tab,
        stack,
        rows,
        cursor,
        definition.label,
        line,
        turns,
    )?;
    let begin = write_gap(events, bytes, tab, stack, rows, colon, gap, line, turns)?;
    let end = write_destination(
        events, bytes, tab, stack, rows, begin, is_marked, size, line, turns,
    )?;
    let last = write_title(events, bytes, tab, stack, rows, end, to, title, line, turns)?;
    let whole = write_gap(events, bytes, tab, stack, rows, last, left, line, turns)?;
    Ok(whole)
}

/// A definition, up to the end of its last line.
fn write_definition<L: Ledger>(
    events: &mut Vec<Event>,
    bytes: &[u8],
    tab: TabSize,
    stack: &[Open],
    rows: &[RowAt],
    cursor: Cursor,
    definition: Definition,
    is_marked: bool,
    line: &mut Vec<u8>,
    turns: &mut Turns<L>,
) -> Result<Cursor, AllocError>
    requires cursor { IsCursor tab bytes.now (map open_of stack.now) rows.now cursor }
    requires fits { FitsDefinition definition (left_at tab bytes.now (map open_of stack.now) rows.now cursor) }
    requires marks { is_marked ≡ begins_with 60 (text_of (drop definition.destination.from (left_at tab bytes.now (map open_of stack.now) rows.now cursor))) }
    ensures events { IfOk result (λ _. events.new.items ≡ events.old.items ++ events_of (definition_marks bytes.now definition (left_at tab bytes.now (map open_of stack.now) rows.now cursor))) }
    ensures goes { IfOk result (λ c. Goes tab bytes.now (map open_of stack.now) rows.now cursor definition.size c) }
    ensures paid { IfOk result (λ c. turns.new + left_to_write rows.now c ≤ turns.old + left_to_write rows.now cursor + 3) }
    ensures turns { turns.new ≤ turns.old + left_to_write rows.now cursor + 3 }
{
    enter(events, Name::Definition, cursor.at.place)?;
    let end = write_parts(
        events, bytes, tab, stack, rows, cursor, definition, is_marked, line, turns,
    )?;
    exit(events, Name::Definition, end.at.place)?;
    Ok(end)
}

/// The definition that a text begins with, and the line ending behind it, if one comes.
fn write_next<L: Ledger>(
    events: &mut Vec<Event>,
    bytes: &[u8],
    tab: TabSize,
    stack: &[Open],
    rows: &[RowAt],
    cursor: Cursor,
    definition: Definition,
    text: &[u8],
    line: &mut Vec<u8>,
    turns: &mut Turns<L>,
) -> Result<Cursor, AllocError>
    requires cursor { IsCursor tab bytes.now (map open_of stack.now) rows.now cursor }
    requires text { text.now ≡ text_of (left_at tab bytes.now (map open_of stack.now) rows.now cursor) }
    requires definition { definition_at text.now ≡ Some definition }
    ensures events { let places = left_at tab bytes.now (map open_of stack.now) rows.now cursor in IfOk result (λ _. events.new.items ≡ events.old.items ++ events_of (definition_marks bytes.now definition places ++ flat_map (ending_marks bytes.now) (between definition.size (definition.size + 1) places))) }
    ensures at { IfOk result (λ c. IsCursor tab bytes.now (map open_of stack.now) rows.now c) }
    ensures left { IfOk result (λ c. left_at tab bytes.now (map open_of stack.now) rows.now c ≡ drop (definition.size + 1) (left_at tab bytes.now (map open_of stack.now) rows.now cursor)) }
    ensures paid { IfOk result (λ c. turns.new + left_to_write rows.now c ≤ turns.old + left_to_write rows.now cursor + 3) }
    ensures turns { turns.new ≤ turns.old + left_to_write rows.now cursor + 3 }
{
    let is_marked = text[definition.destination.from] == b'<';
    let end = write_definition(
        events, bytes, tab, stack, rows, cursor, definition, is_marked, line, turns,
    )?;
    if definition.size < text.len() {
        let next = write_line_ending(events, bytes, tab, stack, rows, end, line, turns)?;
        return Ok(next);
    }
    Ok(end)
}

/// A definition of a list.
fn owned(definition: &Definition) -> Definition
    ensures { result ≡ definition.now }
{
    *definition
}

/// Where the next line of a text of so many bytes begins, behind a line that ends there; or where the text ends.
fn line_behind(end: usize, size: usize) -> usize
    ensures { result ≡ cond (nat_lt end size) (end + 1) end }
{
    if end < size { end + 1 } else { end }
}

/// The events of the definitions with which a paragraph begins, over these lines of it, from behind the prefixes of the first. `text` is the text of
/// the lines, and `line` is room for the bytes of one. Fails only for want of memory.
pub fn write_definitions<L: Ledger>(
    events: &mut Vec<Event>,
    bytes: &[u8],
    tab: TabSize,
    stack: &[Open],
    rows: &[RowAt],
    begin: At,
    definitions: &[Definition],
    text: &[u8],
    line: &mut Vec<u8>,
    turns: &mut Turns<L>,
) -> Result<(), AllocError>
    requires limit { IsWithinLimit tab bytes.now }
    requires lines { HaveLines tab bytes.now (map open_of stack.now) rows.now }
    requires begin { IsBegin tab bytes.now rows.now begin }
    requires text { text.now ≡ text_in (rows_by tab bytes.now rows.now) }
    requires definitions { definitions.now ≡ definitions_of text.now }
    ensures events { IfOk result (λ _. (all : List RowOf) → AreLines tab bytes.now (map open_of stack.now) rows.now all → events.new.items ≡ events.old.items ++ events_of (definitions_marks bytes.now definitions.now (places_in bytes.now all))) }
    ensures turns { turns.new ≤ turns.old + to_write begin.columns rows.now + 4 * length definitions.now }
{
    let tab_size = tab.get();
    prove!(tab_size >= 1);
    let mut here = Cursor { row: 0, at: begin };
    let mut next = 0;
    for definition in definitions {
        turns.add_one();
        let own = owned(definition);
        let rest = behind(text, next);
        here = write_next(
            events, bytes, tab, stack, rows, here, own, rest, line, turns,
        )?;
        let end = next + own.size;
        next = line_behind(end, text.len());
    }
    Ok(())
}
