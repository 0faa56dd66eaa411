//! Places in a line, by the indices of bytes, and spans between them.

ghost use Rattle.std.specs.Prelude.{ℕ, ◌≡◌, ◌++◌, ◌<◌, OnOk, slice_range};
ghost use Rattle.mdgfm_events.specs.Places.{column_behind, event, later, leaf, next_column, place_at};

use markdown_base::event::{Event, Kind, Name, Point};
use std::alloc::AllocError;

/// The bytes from an index up to another, as far as there are any.
pub fn slice(bytes: &[u8], from: usize, to: usize) -> &[u8]
    ensures { result.now ≡ slice_range bytes.now from to }
{
    let end = to.min(bytes.len());
    if from < end { &bytes[from..end] } else { &[] }
}

/// The column behind a byte at a column, with tab stops at every `tab` columns.
fn next_column(tab: usize, column: usize, byte: u8) -> usize
    requires { 0 < tab }
    ensures { result ≡ next_column tab column byte }
{
    if byte == b'\t' {
        column.saturating_add(tab - column.saturating_sub(1) % tab)
    } else {
        column.saturating_add(1)
    }
}

/// The column behind these bytes of a line.
fn column_behind(tab: usize, first: usize, text: &[u8]) -> usize
    requires { 0 < tab }
    ensures { result ≡ column_behind tab first text.now }
{
    let mut column = first;
    let mut next = 0;
    while next < text.len() {
        column = next_column(tab, column, text[next]);
        next += 1;
    }
    column
}

/// The place at a byte index that is further on in the line of a place.
pub fn place_at(bytes: &[u8], tab: usize, place: Point, index: usize) -> Point
    requires { 0 < tab }
    ensures { result ≡ place_at tab bytes.now place index }
{
    if index <= place.index {
        return place;
    }
    Point {
        line: place.line,
        column: column_behind(tab, place.column, slice(bytes, place.index, index)),
        index,
        vs: 0,
    }
}

/// The place that is further on.
pub fn later(place: Point, other: Point) -> Point
    ensures { result ≡ later place other }
{
    if place.index <= other.index {
        other
    } else {
        place
    }
}

/// An event without a link.
pub fn event(kind: Kind, name: Name, place: Point) -> Event
    ensures { result ≡ event kind name place }
{
    Event {
        kind,
        name,
        point: place,
        link: None,
    }
}

/// Adds a span between two places with nothing in it, if there are bytes between them. It fails only if it runs out of memory.
pub fn push_leaf(out: &mut Vec<Event>, name: Name, from: Point, to: Point) -> Result<(), AllocError>
    ensures { OnOk result (out.new.items ≡ out.old.items ++ leaf name from to) }
{
    if from.index < to.index {
        out.push(event(Kind::Enter, name, from))?;
        out.push(event(Kind::Exit, name, to))?;
    }
    Ok(())
}
