//! Parts of a document between two places.

ghost use Rattle.std.specs.Prelude.{◌≡◌, ◌<◌, ◌≤◌, ◌^◌, ◌+◌, ◌++◌, ℕ, List, false, length, slice_get, slice_range, option_map, IsSome, Some, IsUtf8, IfOk, OnOk, replicate, string_bytes};
ghost use Rattle.markdown_base.specs.Places.{IsPointOf, stands_before};
ghost use Rattle.markdown_base.specs.Slices.{nearest_enter, bytes_between, spaces_before, spaces_after, slice_text, is_enter_of};
ghost use Rattle.markdown_base.specs.SlicesInner.{first_byte};

use crate::configuration::TabSize;
use crate::event::{Event, Kind, Point};
use crate::util::place::tab_width;
use std::alloc::{AllocError, Global};

/// A range between two points.
#[derive(Debug, Drop)]
pub struct Position<'a> {
    /// Where the range begins.
    pub start: &'a Point,
    /// Where the range ends; the byte here is not in it.
    pub end: &'a Point,
}

impl<'a> Position<'a> {
    /// The range of a span, given the index of its exit: from the nearest earlier enter with its name.
    ///
    /// A span that holds a span of its own name is not supported.
    pub fn from_exit_event(events: &'a [Event], index: usize) -> Position<'a>
        requires opened { IsSome (nearest_enter events.now index) }
        ensures start { option_map (λ event. event.point) (nearest_enter events.now index) ≡ Some result.start.now }
        ensures end { option_map (λ event. event.point) (slice_get events.now index) ≡ Some result.end.now }
    {
        let exit = &events[index];
        let mut before = events[..index].iter().rev();
        let start = match before.find(|event| is_enter_of(event, exit)) {
            Some(enter) => &enter.point,
            None => unreachable!(),
        };
        Position {
            start,
            end: &exit.point,
        }
    }

    /// The byte indices of the range's points.
    pub fn to_indices(&self) -> (usize, usize)
        ensures indices { result ≡ (self.now.start.now.index, self.now.end.now.index) }
    {
        (self.start.index, self.end.index)
    }
}

/// Bytes of a document, with virtual spaces on both sides.
///
/// A tab is as many virtual bytes as it takes to reach the next tab stop, and a range may begin or end inside it.
#[derive(Debug, Drop)]
pub struct Slice<'a> {
    /// The bytes.
    pub bytes: &'a [u8],
    /// Number of virtual spaces before the bytes.
    pub before: usize,
    /// Number of virtual spaces after the bytes.
    pub after: usize,
}

impl<'a> Slice<'a> {
    /// The part of a document in a range, with tab stops at every `tab_size` columns.
    ///
    /// If the range begins inside a tab, the rest of the tab is spaces before the bytes. If it ends inside a tab, the
    /// tab is the last byte, and its other columns in the range are spaces after the bytes. If both ends are inside one
    /// tab, there are no bytes, and the spaces are before.
    pub fn from_position(bytes: &'a [u8], tab_size: TabSize, position: &Position) -> Slice<'a>
        requires start_is_place { IsPointOf tab_size bytes.now position.now.start.now }
        requires end_is_place { IsPointOf tab_size bytes.now position.now.end.now }
        requires ordered { stands_before position.now.end.now position.now.start.now ≡ false }
        ensures bytes { result.bytes.now ≡ bytes_between bytes.now position.now.start.now position.now.end.now }
        ensures before { result.before ≡ spaces_before tab_size bytes.now position.now.start.now position.now.end.now }
        ensures after { result.after ≡ spaces_after tab_size bytes.now position.now.start.now position.now.end.now }
    {
        let t = tab_size.get();
        let start = position.start;
        let end = position.end;
        let from = first_byte(start);
        let to = first_byte(end);
        Slice {
            bytes: &bytes[from..to],
            before: spaces_before(t, start, end),
            after: spaces_after(start, end),
        }
    }

    /// The part of a document between two byte indices, with no spaces.
    pub fn from_indices(bytes: &'a [u8], start: usize, end: usize) -> Slice<'a>
        requires ordered { start ≤ end }
        requires inside { end ≤ length bytes.now }
        ensures bytes { result.bytes.now ≡ slice_range bytes.now start end }
        ensures before { result.before ≡ 0 }
        ensures after { result.after ≡ 0 }
    {
        Slice {
            bytes: &bytes[start..end],
            before: 0,
            after: 0,
        }
    }

    /// The number of bytes and of spaces.
    pub fn len(&self) -> usize
        requires fits { self.now.before + length self.now.bytes.now + self.now.after < 2 ^ 64 }
        ensures all { result ≡ self.now.before + length self.now.bytes.now + self.now.after }
    {
        self.before + self.bytes.len() + self.after
    }

    /// The bytes as a text, without the spaces.
    pub fn as_str(&self) -> &str
        requires text { IsUtf8 self.now.bytes.now }
        ensures bytes { result.now ≡ self.now.bytes.now }
    {
        match str::from_utf8(self.bytes) {
            Ok(text) => text,
            Err(_) => "",
        }
    }

    /// The spaces before, the bytes and the spaces after, as a text. Returns `AllocError` if it runs
    /// out of memory.
    pub fn serialize(&self, alloc: Global) -> Result<String, AllocError>
        requires text { IsUtf8 self.now.bytes.now }
        requires fits { self.now.before + length self.now.bytes.now + self.now.after < 2 ^ 64 }
        ensures text { IfOk result (λ text. string_bytes text ≡ slice_text self.now.before self.now.bytes.now self.now.after) }
    {
        let mut text = String::new(alloc);
        push_spaces(&mut text, self.before)?;
        text.push_str(self.as_str())?;
        push_spaces(&mut text, self.after)?;
        Ok(text)
    }
}

/// Puts spaces at the end of a text.
fn push_spaces(text: &mut String, count: usize) -> Result<(), AllocError>
    ensures spaces { OnOk result (string_bytes text.new ≡ string_bytes text.old ++ replicate count 32) }
{
    for _i in 0..count {
        text.push(' ')?;
    }
    Ok(())
}

/// Whether an event enters a span of another event's name.
fn is_enter_of(event: &Event, exit: &Event) -> bool
    ensures { result ≡ is_enter_of event.now exit.now }
{
    matches!(event.kind, Kind::Enter) && event.name == exit.name
}

/// The index of the first byte that is not before a place.
fn first_byte(point: &Point) -> usize
    requires fits { point.now.index + 1 < 2 ^ 64 }
    ensures { result ≡ first_byte point.now }
{
    if point.vs > 0 {
        point.index + 1
    } else {
        point.index
    }
}

/// The number of virtual bytes in a range that belong to a tab which the range's start cuts. There is a tab stop at
/// every `t` columns.
fn spaces_before(t: usize, start: &Point, end: &Point) -> usize
    requires tab { 0 < t }
    requires column { 0 < start.now.vs → 1 ≤ start.now.column }
    requires ordered { stands_before end.now start.now ≡ false }
    ensures { (bytes : List ℕ) → IsPointOf t bytes start.now → IsPointOf t bytes end.now → result ≡ spaces_before t bytes start.now end.now }
{
    if start.vs == 0 {
        0
    } else if start.index == end.index {
        end.vs - start.vs
    } else {
        tab_width(t, start.column)
    }
}

/// The number of virtual bytes in a range that belong to a tab which only the range's end cuts, not counting its tab
/// byte.
fn spaces_after(start: &Point, end: &Point) -> usize
    requires ordered { stands_before end.now start.now ≡ false }
    ensures { (t : ℕ) (bytes : List ℕ) → 0 < t → IsPointOf t bytes start.now → IsPointOf t bytes end.now → result ≡ spaces_after t bytes start.now end.now }
{
    if end.vs == 0 {
        return 0;
    }
    if start.vs == 0 || start.index != end.index {
        end.vs - 1
    } else {
        0
    }
}
