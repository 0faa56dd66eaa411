//! Ranges of a document, read as one text.

ghost use Rattle.std.specs.Prelude.{◌≡◌, ◌≤◌, ◌<◌, ◌↔◌, ◌+◌, ◌^◌, IfErr, IfOk, IsTrue, Some, length, true};
ghost use Rattle.markdown_base.specs.Lines.{HasNoLineEnding, is_line_start};
ghost use Rattle.markdown_base.specs.Places.{point_at};
ghost use Rattle.markdown_base.specs.Virtual.{IsWithinLimit};
ghost use Rattle.markdown_children.specs.ByteStarts.{line_at};
ghost use Rattle.markdown_tokenizer.specs.Configuration.{start_seen};
ghost use Rattle.markdown_tokenizer.specs.Engine.{IsWellFormed, given_of};
ghost use Rattle.markdown_tokenizer.specs.Text.{IsDocument, empty_text};
ghost use Rattle.mddocument.specs.Documents.{document};
ghost use Rattle.mddocument.specs.ByteRanges.{AreRanges, FollowFrom, IsRangeFrom, text_events_in};

use markdown_base::configuration::{ParseOptions, TabSize};
use markdown_base::event::{Event, Point};
use markdown_base::state::{Name, State};
use markdown_base::util::place::ends_line;
use markdown_tokenizer::parser::ParseState;
use markdown_tokenizer::subtokenize::Subresult;
use markdown_tokenizer::tokenizer::{Fault, Tokenizer, point_at};
use mdinline_text_machine::text::Text;
use std::alloc::{AllocError, Global};

/// A range of a document: its bytes from one index up to another.
#[repr(C)]
#[derive(Clone, Copy, Debug, PartialEq, Eq)]
pub struct ByteRange {
    /// The index of its first byte.
    pub from: usize,
    /// The index of the byte behind its last one.
    pub to: usize,
}

/// Whether these ranges of a document can be read as one text: exactly then it returns true.
///
/// They are in the document, and none runs backwards. Each begins where the one before it ends; or that one ends at the beginning of
/// a line, and the next begins later in the line. The first begins anywhere.
pub fn are_ranges(bytes: &[u8], ranges: &[ByteRange]) -> bool
    ensures { IsTrue result ↔ AreRanges bytes.now ranges.now }
{
    let Some(first) = ranges.first() else {
        return true;
    };
    let mut end = first.from;
    for range in ranges {
        if !is_range_from(bytes, end, *range) {
            return false;
        }
        end = range.to;
    }
    true
}

/// Whether a range can be read behind one that ends at this index.
fn is_range_from(bytes: &[u8], end: usize, range: ByteRange) -> bool
    ensures { IsTrue result ↔ IsRangeFrom bytes.now end range }
{
    range.from <= range.to
        && range.to <= bytes.len()
        && (range.from == end
            || (end < range.from
                && starts_line(bytes, end)
                && has_no_line_ending(bytes, end, range.from)))
}

/// Whether a line starts at an index.
fn starts_line(bytes: &[u8], index: usize) -> bool
    ensures { result ≡ is_line_start bytes.now index }
{
    index == 0 || ends_line(bytes, index - 1)
}

/// Whether no byte from one index up to another is a line feed or a carriage return.
fn has_no_line_ending(bytes: &[u8], from: usize, to: usize) -> bool
    requires inside { to ≤ length bytes.now }
    ensures { IsTrue result ↔ HasNoLineEnding bytes.now from to }
{
    for index in from..to {
        if bytes[index] == b'\n' || bytes[index] == b'\r' {
            return false;
        }
    }
    true
}

/// The events of ranges of a document, read as one text: that of the virtual bytes in them, one range after another. What is between
/// two ranges is never read. Each event stands at a place of the whole document.
///
/// The ranges must be such as [`are_ranges`] lets through. The document is walked once, however many ranges there are. It fails only
/// if it runs out of memory.
pub fn text_events_in(
    alloc: Global,
    bytes: &[u8],
    options: &ParseOptions,
    ranges: &[ByteRange],
) -> Result<Vec<Event>, AllocError>
    requires limit { IsWithinLimit options.now.tab_size bytes.now }
    requires ranges { AreRanges bytes.now ranges.now }
    ensures events { IfOk result (λ events. events.items ≡ text_events_in options.now bytes.now ranges.now) }
    ensures formed { IfOk result (λ events. IsWellFormed (document options.now bytes.now) events.items) }
{
    let Some(first) = ranges.first() else {
        return Ok(Vec::new(alloc));
    };
    match read_from(alloc, bytes, options, first.from, ranges) {
        Ok(events) => Ok(events),
        Err(Fault::Memory) => Err(AllocError),
        Err(_) => unreachable!(),
    }
}

/// As [`text_events_in`], of ranges of which the first begins at this index, with the reason for which there are no events.
fn read_from(
    alloc: Global,
    bytes: &[u8],
    options: &ParseOptions,
    start: usize,
    ranges: &[ByteRange],
) -> Result<Vec<Event>, Fault>
    requires limit { IsWithinLimit options.now.tab_size bytes.now }
    requires inside { start ≤ length bytes.now }
    requires ranges { FollowFrom bytes.now start ranges.now }
    ensures events { IfOk result (λ events. events.items ≡ text_events_in options.now bytes.now ranges.now) }
    ensures formed { IfOk result (λ events. IsWellFormed (document options.now bytes.now) events.items) }
    ensures err { IfErr result (λ fault. fault ≡ Fault.Memory) }
{
    let machine = Text {};
    let Some(parse_state) = ParseState::new(bytes, options, &machine) else {
        unreachable!();
    };
    let Some(place) = point_at(bytes, options.tab_size, (start, 0)) else {
        unreachable!();
    };
    let mut tokenizer = Tokenizer::new(alloc, place, &parse_state);
    let read = push_ranges(&mut tokenizer, &parse_state, place, ranges);
    let events = tokenizer.into_events();
    read?;
    Ok(events)
}

/// Pushes the ranges to a tokenizer of texts that has read nothing, passes the gaps between them, and feeds the end.
fn push_ranges(
    tokenizer: &mut Tokenizer<Text>,
    parse_state: &ParseState<Text>,
    place: Point,
    ranges: &[ByteRange],
) -> Result<Subresult, Fault>
    requires new { let p = parse_state.now in tokenizer.old ≡ start_seen (given_of p) p.machine.now (empty_text place) }
    requires document { IsDocument (given_of parse_state.now) }
    requires place { let p = parse_state.now in point_at p.options.now.tab_size p.bytes.now (place.index, 0) ≡ Some place }
    requires inside { place.index ≤ length parse_state.now.bytes.now }
    requires ranges { FollowFrom parse_state.now.bytes.now place.index ranges.now }
    ensures events { let p = parse_state.now in
        IfOk result (λ _. tokenizer.new.configuration.events ≡ text_events_in p.options.now p.bytes.now ranges.now) }
    ensures formed { IfOk result (λ _. IsWellFormed (given_of parse_state.now) tokenizer.new.configuration.events) }
    ensures err { IfErr result (λ fault. fault ≡ Fault.Memory) }
{
    let bytes = parse_state.bytes;
    let mut end = place.index;
    let mut line = place.line;
    let mut state = State::Next(Name::TextStart);
    for range in ranges {
        if range.from != end {
            let gap = in_line(bytes, parse_state.options.tab_size, line, end, range.from);
            tokenizer.define_skip(gap)?;
        }
        state = tokenizer.push((range.from, 0), (range.to, 0), state)?;
        line = counted(bytes, line, end, range.to);
        end = range.to;
    }
    tokenizer.flush(state, false)
}

/// The place of an index in the line that starts at a lower one.
fn in_line(bytes: &[u8], tab: TabSize, line: usize, start: usize, index: usize) -> Point
    requires some { 0 < tab }
    requires limit { IsWithinLimit tab bytes.now }
    requires line { line ≡ line_at bytes.now start }
    requires starts { is_line_start bytes.now start ≡ true }
    requires forward { start < index }
    requires inside { index ≤ length bytes.now }
    requires in_line { HasNoLineEnding bytes.now start index }
    ensures { point_at tab bytes.now (index, 0) ≡ Some result }
{
    let start = Point {
        line,
        column: 1,
        index: start,
        vs: 0,
    };
    start.shift_to(bytes, tab, index)
}

/// The line of an index, from that of a lower one.
fn counted(bytes: &[u8], line: usize, from: usize, to: usize) -> usize
    requires line { line ≡ line_at bytes.now from }
    requires order { from ≤ to }
    requires inside { to ≤ length bytes.now }
    requires short { length bytes.now + 1 < 2 ^ 64 }
    ensures { result ≡ line_at bytes.now to }
{
    let mut line = line;
    for index in from..to {
        if ends_line(bytes, index) {
            line += 1;
        }
    }
    line
}
