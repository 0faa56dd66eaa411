//! Which section a byte or a line is in, and where it starts.

ghost use Rattle.std.specs.Prelude.{◌≡◌, ◌≤◌, ◌<◌, ◌+◌, ◌^◌, length, take, false, true};
ghost use Rattle.mddocument_parts.specs.Sections.{document_of};
ghost use Rattle.mddocument_editing.specs.Divided.{bytes_of};
ghost use Rattle.mddocument_editing.specs.Kept.{IsKept, bytes_of_sections, divided_of};
ghost use Rattle.mddocument_editing.specs.Finds.{IsByteIn, IsLineIn};
ghost use Rattle.mddocument_editing.specs.Lookups.{IsSectionAt, IsSectionAtLine, lookup_turns, start_of};
ghost use Rattle.mddocument_editing.specs.Positions.{offset_of, position_of};

use crate::kept::Kept;
use crate::positions::{self, Encoding, Position};
use mdconstructs_loop_counts::Turns;
use std::marker::Brand;
use std::sync::ledger::{Blank, Ledger};

/// What is kept is so short that a `usize` can be its length. It does nothing; its contract says so.
fn is_short(kept: &Kept)
    requires { IsKept kept.now }
    ensures { length (bytes_of (divided_of kept.now)) < 2 ^ 64 }
{
    let _columns = kept.options.tab_size.get();
}

/// Where a section starts; the document's length, if it is the number of sections. Counted.
pub(crate) fn start_of_counted<L: Ledger>(
    kept: &Kept,
    section: usize,
    turns: &mut Turns<L>,
) -> usize
    requires kept { IsKept kept.now }
    requires within { section ≤ length kept.now.sections.items }
    ensures start { result ≡ length (document_of (take section (divided_of kept.now).sections)) }
    ensures turns { turns.new ≤ turns.old + lookup_turns (length kept.now.sections.items) }
{
    is_short(kept);
    let sums = kept.sections.in_front(section, turns);
    sums.bytes
}

fn start_of_uncounted<L: Ledger>(kept: &Kept, section: usize, blank: Blank) -> usize
    requires kept { IsKept kept.now }
    requires within { section ≤ length kept.now.sections.items }
    requires name { blank.name ≡ L.name }
    requires parts { blank.parts ≡ L.parts }
    requires some { 0 < blank.parts }
    ensures { result ≡ length (document_of (take section (divided_of kept.now).sections)) }
{
    let mut turns = Turns::<L>::new(blank);
    start_of_counted(kept, section, &mut turns)
}

/// Where a section starts; the document's length, if it is the number of sections.
pub(crate) fn start_of(kept: &Kept, section: usize) -> usize
    requires kept { IsKept kept.now }
    requires within { section ≤ length kept.now.sections.items }
    ensures { result ≡ length (document_of (take section (divided_of kept.now).sections)) }
{
    start_of_uncounted::<Brand>(kept, section, Blank::new(1))
}

/// Where a place is that is looked up: in which section, what is in front of that, and what of the byte or line is left there.
#[derive(Clone, Copy)]
struct Found {
    /// The section.
    section: usize,
    /// How many bytes are in front of it.
    bytes: usize,
    /// How many line endings.
    lines: usize,
}

/// The section that a byte is in; the last one, if it is behind all. Counted.
fn byte_in_counted<L: Ledger>(kept: &Kept, byte: usize, turns: &mut Turns<L>) -> Found
    requires kept { IsKept kept.now }
    requires some { 0 < length kept.now.sections.items }
    ensures byte { IsByteIn (divided_of kept.now).sections byte result }
    ensures turns { turns.new ≤ turns.old + lookup_turns (length kept.now.sections.items) }
{
    is_short(kept);
    let (section, front) = kept.sections.find(false, byte, turns);
    Found {
        section,
        bytes: front.bytes,
        lines: front.lines,
    }
}

fn byte_in_uncounted<L: Ledger>(kept: &Kept, byte: usize, blank: Blank) -> Found
    requires kept { IsKept kept.now }
    requires filled { 0 < length kept.now.sections.items }
    requires name { blank.name ≡ L.name }
    requires parts { blank.parts ≡ L.parts }
    requires some { 0 < blank.parts }
    ensures { IsByteIn (divided_of kept.now).sections byte result }
{
    let mut turns = Turns::<L>::new(blank);
    byte_in_counted(kept, byte, &mut turns)
}

/// The section that a byte is in; the last one, if it is behind all.
fn byte_in(kept: &Kept, byte: usize) -> Found
    requires kept { IsKept kept.now }
    requires some { 0 < length kept.now.sections.items }
    ensures { IsByteIn (divided_of kept.now).sections byte result }
{
    byte_in_uncounted::<Brand>(kept, byte, Blank::new(1))
}

/// The section that a byte is in, and what of the byte is left there; the number of sections, and what is left behind them, if it is behind all.
/// Counted.
fn section_and_left_counted<L: Ledger>(
    kept: &Kept,
    byte: usize,
    turns: &mut Turns<L>,
) -> (usize, usize)
    requires { IsKept kept.now }
    ensures section { IsSectionAt (bytes_of_sections kept.now.sections.items) byte result.0 }
    ensures left { start_of (bytes_of_sections kept.now.sections.items) result.0 + result.1 ≡ byte }
    ensures turns { turns.new ≤ turns.old + lookup_turns (length kept.now.sections.items) }
{
    kept.sections.are_few();
    if kept.sections.is_empty() {
        return (0, byte);
    }
    let found = byte_in_counted(kept, byte, turns);
    let size = kept.sections.one(found.section).part.bytes.len();
    let left = byte - found.bytes;
    if left < size {
        (found.section, left)
    } else {
        (found.section + 1, left - size)
    }
}

fn section_and_left_uncounted<L: Ledger>(kept: &Kept, byte: usize, blank: Blank) -> (usize, usize)
    requires kept { IsKept kept.now }
    requires name { blank.name ≡ L.name }
    requires parts { blank.parts ≡ L.parts }
    requires some { 0 < blank.parts }
    ensures section { IsSectionAt (bytes_of_sections kept.now.sections.items) byte result.0 }
    ensures left { start_of (bytes_of_sections kept.now.sections.items) result.0 + result.1 ≡ byte }
{
    let mut turns = Turns::<L>::new(blank);
    section_and_left_counted(kept, byte, &mut turns)
}

/// The section that a byte is in, and what of the byte is left there; the number of sections, and what is left behind them, if it is behind all.
pub(crate) fn section_and_left(kept: &Kept, byte: usize) -> (usize, usize)
    requires { IsKept kept.now }
    ensures section { IsSectionAt (bytes_of_sections kept.now.sections.items) byte result.0 }
    ensures left { start_of (bytes_of_sections kept.now.sections.items) result.0 + result.1 ≡ byte }
{
    section_and_left_uncounted::<Brand>(kept, byte, Blank::new(1))
}

/// The section that a byte is in; the number of sections, if it is behind all. Counted.
pub(crate) fn section_at_counted<L: Ledger>(kept: &Kept, byte: usize, turns: &mut Turns<L>) -> usize
    requires { IsKept kept.now }
    ensures section { IsSectionAt (divided_of kept.now).sections byte result }
    ensures turns { turns.new ≤ turns.old + lookup_turns (length kept.now.sections.items) }
{
    section_and_left_counted(kept, byte, turns).0
}

/// The section that a byte is in; the number of sections, if it is behind all.
pub(crate) fn section_at(kept: &Kept, byte: usize) -> usize
    requires { IsKept kept.now }
    ensures { IsSectionAt (divided_of kept.now).sections byte result }
{
    section_and_left(kept, byte).0
}

/// The position of a byte index in the document.
pub(crate) fn position_of(kept: &Kept, byte: usize, encoding: Encoding) -> Option<Position>
    requires { IsKept kept.now }
    ensures { result ≡ position_of encoding (bytes_of (divided_of kept.now)) byte }
{
    if kept.sections.is_empty() {
        return positions::position_of(&[], byte, encoding);
    }
    let found = byte_in(kept, byte);
    let bytes = kept.sections.one(found.section).part.bytes.as_slice();
    let position = positions::position_of(bytes, byte - found.bytes, encoding)?;
    Some(Position {
        line: found.lines + position.line,
        character: position.character,
    })
}

/// The section that a line starts in; the last one, if it is behind all. Counted.
fn line_in_counted<L: Ledger>(kept: &Kept, line: usize, turns: &mut Turns<L>) -> Found
    requires kept { IsKept kept.now }
    requires some { 0 < length kept.now.sections.items }
    ensures line { IsLineIn (divided_of kept.now).sections line result }
    ensures turns { turns.new ≤ turns.old + lookup_turns (length kept.now.sections.items) }
{
    is_short(kept);
    let (section, front) = kept.sections.find(true, line, turns);
    Found {
        section,
        bytes: front.bytes,
        lines: front.lines,
    }
}

fn line_in_uncounted<L: Ledger>(kept: &Kept, line: usize, blank: Blank) -> Found
    requires kept { IsKept kept.now }
    requires filled { 0 < length kept.now.sections.items }
    requires name { blank.name ≡ L.name }
    requires parts { blank.parts ≡ L.parts }
    requires some { 0 < blank.parts }
    ensures { IsLineIn (divided_of kept.now).sections line result }
{
    let mut turns = Turns::<L>::new(blank);
    line_in_counted(kept, line, &mut turns)
}

/// The section that a line starts in; the last one, if it is behind all.
fn line_in(kept: &Kept, line: usize) -> Found
    requires kept { IsKept kept.now }
    requires some { 0 < length kept.now.sections.items }
    ensures { IsLineIn (divided_of kept.now).sections line result }
{
    line_in_uncounted::<Brand>(kept, line, Blank::new(1))
}

/// The byte index of a position in the document.
pub(crate) fn offset_of(kept: &Kept, position: Position, encoding: Encoding) -> Option<usize>
    requires { IsKept kept.now }
    ensures { result ≡ offset_of encoding (bytes_of (divided_of kept.now)) position }
{
    if kept.sections.is_empty() {
        return positions::offset_of(&[], position, encoding);
    }
    let found = line_in(kept, position.line);
    let bytes = kept.sections.one(found.section).part.bytes.as_slice();
    let there = Position {
        line: position.line - found.lines,
        character: position.character,
    };
    let offset = positions::offset_of(bytes, there, encoding)?;
    Some(found.bytes + offset)
}

/// The section in which a line starts; the number of sections, if it starts at the document's end, or there is no such line.
pub(crate) fn section_at_line(kept: &Kept, line: usize) -> usize
    requires { IsKept kept.now }
    ensures { IsSectionAtLine (divided_of kept.now).sections line result }
{
    let start = Position { line, character: 0 };
    match offset_of(kept, start, Encoding::Utf8) {
        None => kept.sections.len(),
        Some(byte) => section_at(kept, byte),
    }
}
