//! Places in a document: from byte offsets to lines and columns. A text may be joined from several parts of a document;
//! offsets into it are converted to offsets into the document.

ghost use Rattle.std.specs.Prelude.{◌≡◌, ◌<◌, ◌^◌, ◌+◌, IfOk, IfSome, option_and_then};
ghost use Rattle.markdown_base.specs.Lines.{Lines, lines_of, point_in, is_line_start, absolute_offset, IsKept};

use crate::unist::Point;
use crate::util::place::ends_line;
use std::alloc::{AllocError, Global};
use std::marker::Model;

/// Where a part of a text begins: the byte offset into the text, and the byte offset into the document.
pub type Stop = (usize, usize);

/// The lines of a document.
#[derive(Debug, Drop)]
pub struct Location {
    /// Byte offset of the document's end.
    end: usize,
    /// Byte offsets at which lines start, ascending.
    starts: Vec<usize>,
}

impl Model for Location {
    ghost Value = { Lines };

    ghost view = { λ a. record { end = a.end; starts = a.starts.items } };

    ghost invariant = { λ a. IsKept a.end a.starts.items };
}

impl Location {
    /// Finds the lines of a document.
    ///
    /// A line ends with a line feed, a carriage return, or both in this order. Returns `AllocError` if
    /// it runs out of memory.
    pub fn new(alloc: Global, bytes: &[u8]) -> Result<Location, AllocError>
        ensures lines { IfOk result (λ location. location ≡ lines_of bytes.now) }
    {
        let mut starts = Vec::new(alloc);
        for index in 0..bytes.len() + 1 {
            if starts_line(bytes, index) {
                starts.push(index)?;
            }
        }
        Ok(Location {
            end: bytes.len(),
            starts,
        })
    }

    /// The point of a byte offset into the document. Columns count bytes, from 1.
    ///
    /// The offset of the document's end has a point too. Returns `None` past it.
    pub fn to_point(&self, offset: usize) -> Option<Point>
        ensures point { result ≡ point_in self.now offset }
    {
        if offset > self.end {
            return None;
        }
        let line = self.starts.partition_point(|start| *start <= offset);
        Some(Point::new(line, offset - self.starts[line - 1] + 1, offset))
    }

    /// The point of a byte offset into a text that was joined from parts of the document.
    ///
    /// Returns `None` if the text has no part that begins at or before the offset, or if the offset into the document
    /// is past its end.
    pub fn relative_to_point(&self, stops: &[Stop], relative: usize) -> Option<Point>
        requires fits { IfSome (absolute_offset stops.now relative) (λ offset. offset < 2 ^ 64) }
        ensures point { result ≡ option_and_then (point_in self.now) (absolute_offset stops.now relative) }
    {
        Location::relative_to_absolute(stops, relative).and_then(|absolute| self.to_point(absolute))
    }

    /// Converts a byte offset into a text joined from parts of the document to a byte offset into the document.
    ///
    /// Returns `None` if the text has no part that begins at or before the offset.
    pub fn relative_to_absolute(stops: &[Stop], relative: usize) -> Option<usize>
        requires fits { IfSome (absolute_offset stops.now relative) (λ offset. offset < 2 ^ 64) }
        ensures offset { result ≡ absolute_offset stops.now relative }
    {
        let mut last = None;
        for stop in stops {
            if stop.0 > relative {
                break;
            }
            last = Some(*stop);
        }
        let (start, absolute) = last?;
        Some(absolute + (relative - start))
    }
}

/// Whether a line starts at a byte index, of at most the length: at the first one, and after each byte that ends one.
fn starts_line(bytes: &[u8], index: usize) -> bool
    ensures { result ≡ is_line_start bytes.now index }
{
    index == 0 || ends_line(bytes, index - 1)
}
