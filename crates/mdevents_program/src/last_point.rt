//! The text of a point, which is kept for the events that are at the same point.

ghost use Rattle.std.specs.Prelude.{◌≡◌, ◌+◌, ◌++◌, ◌≤◌, length, take, codes, decimal};
ghost use Rattle.markdown.specs.declared.event.Point.{Point};
ghost use Rattle.markdown.specs.Virtual.{point};
ghost use Rattle.mdevents_program.specs.Printed.{printed_point, printed_column};

use crate::block::put_block;
use crate::buffer::{Buffer, SIZE};
use crate::digits::put_number;
use markdown::event::Point;
use std::marker::Model;

/// The greatest length of the text of a point and a line feed: four numbers of 20 digits, and six bytes between and after
/// them.
pub(crate) const MOST: usize = 86;

/// The length of a block that is copied if the text fits into it.
const BLOCK: usize = 32;

/// The length of the array. There is room behind the text for what is written with a number.
const ROOM: usize = 128;

/// A point, and its text with a line feed, in the first `count` bytes. Many events are at the point of the event before them, so the text is made once
/// for all of them. Many others are in its line, so its column begins at `column_at` behind the line's number, which is kept.
#[derive(Drop)]
pub(crate) struct LastPoint {
    point: Point,
    bytes: [u8; ROOM],
    column_at: usize,
    count: usize,
}

impl Model for LastPoint {
    ghost Value = { Point };

    ghost view = { λ last. last.point };

    ghost invariant = { λ last. (last.column_at ≤ 21) × (last.count ≤ 86)
        × (take last.column_at last.bytes ≡ decimal last.point.line ++ codes ":")
        × (take last.count last.bytes ≡ printed_point last.point ++ codes "\n") };
}

impl LastPoint {
    /// The point at which a document begins.
    pub(crate) fn new() -> LastPoint
        ensures { result ≡ point 1 1 0 0 }
    {
        let mut bytes = [0; ROOM];
        let column_at = write_line(&mut bytes, 1);
        let count = write_column(&mut bytes, column_at, &Point::START);
        LastPoint {
            point: Point::START,
            bytes,
            column_at,
            count,
        }
    }

    /// Appends the text of a point and a line feed to the buffer. The text is made anew if the point is not the last one.
    #[inline(always)]
    pub(crate) fn push_point(&mut self, buffer: &mut Buffer, point: &Point)
        requires { length buffer.old + MOST ≤ SIZE }
        ensures { buffer.new ≡ buffer.old ++ printed_point point.now ++ codes "\n" }
    {
        if self.point != *point {
            self.move_to(point);
        }
        self.push_text(buffer);
    }

    /// Makes the text of another point. The number of a line is written only if the line is not the last one.
    #[inline(always)]
    fn move_to(&mut self, point: &Point)
        ensures { self.new ≡ point.now }
    {
        self.column_at = go_to_line(&mut self.bytes, self.column_at, self.point.line, point.line);
        self.count = write_column(&mut self.bytes, self.column_at, point);
        self.point = *point;
    }

    /// Appends the text of the point and a line feed to the buffer.
    #[inline(always)]
    fn push_text(&self, buffer: &mut Buffer)
        requires { length buffer.old + MOST ≤ SIZE }
        ensures { buffer.new ≡ buffer.old ++ printed_point self.now ++ codes "\n" }
    {
        if self.count <= BLOCK {
            buffer.push_block::<BLOCK>(&self.bytes, self.count);
        } else {
            buffer.push_text(&self.bytes[..self.count]);
        }
    }
}

/// Makes the number of a line and a colon of those of another one, which end before an index. Returns the index behind them.
#[inline(always)]
fn go_to_line(bytes: &mut [u8; ROOM], column_at: usize, last: usize, line: usize) -> usize
    requires { (column_at ≤ 21) × (take column_at bytes.old ≡ decimal last ++ codes ":") }
    ensures text { take result bytes.new ≡ decimal line ++ codes ":" }
    ensures most { result ≤ 21 }
{
    if line == last {
        column_at
    } else {
        write_line(bytes, line)
    }
}

/// Writes the number of a line and a colon. Returns the index behind them.
#[inline(never)]
fn write_line(bytes: &mut [u8; ROOM], line: usize) -> usize
    ensures text { take result bytes.new ≡ decimal line ++ codes ":" }
    ensures most { result ≤ 21 }
{
    let at = put_number(line, bytes, 0);
    put_block::<4>(bytes, at, b":   ", 1)
}

/// Writes the text of a point from its column on, and a line feed, at an index. Returns the index behind them.
#[inline(always)]
fn write_column(bytes: &mut [u8; ROOM], at: usize, point: &Point) -> usize
    requires { at ≤ 21 }
    ensures text { take result bytes.new ≡ take at bytes.old ++ printed_column point.now ++ codes "\n" }
    ensures front { take at bytes.new ≡ take at bytes.old }
    ensures most { (at ≤ result) × (result ≤ at + 65) }
{
    let at = put_number(point.column, bytes, at);
    let at = put_block::<4>(bytes, at, b" (  ", 2);
    let at = put_number(point.index, bytes, at);
    if point.vs == 0 {
        return put_block::<4>(bytes, at, b"+0)\n", 4);
    }
    let at = put_block::<4>(bytes, at, b"+   ", 1);
    let at = put_number(point.vs, bytes, at);
    put_block::<4>(bytes, at, b")\n  ", 2)
}
