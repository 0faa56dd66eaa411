//! Where lines are in a document.

ghost use Rattle.std.specs.Prelude.{◌≡◌, ◌+◌, ◌^◌, ◌<◌, ◌==◌, cond};
ghost use Rattle.markdown_base.specs.Virtual.{point};

use crate::rows::Row;
use markdown_base::event::Point;

/// Where a line is in a document.
#[derive(Clone, Copy)]
pub struct Span {
    /// Its number.
    pub number: usize,
    /// The index of its first byte.
    pub start: usize,
    /// The index of its line ending, or of the document's end.
    pub end: usize,
    /// The index of the next line, or of the document's end.
    pub next: usize,
    /// How many columns its text has.
    pub size: usize,
}

/// A line with its place and its containers.
#[derive(Drop)]
pub struct RowAt {
    /// Where it is.
    pub span: Span,
    /// Its containers.
    pub row: Row,
}

/// The place of a line's first byte.
pub fn start_of(span: Span) -> Point
    ensures { result ≡ point span.number 1 span.start 0 }
{
    Point {
        line: span.number,
        column: 1,
        index: span.start,
        vs: 0,
    }
}

/// The place of a line's line ending, or of the document's end.
pub fn text_end_of(span: Span) -> Point
    requires { span.size + 1 < 2 ^ 64 }
    ensures { result ≡ point span.number (span.size + 1) span.end 0 }
{
    Point {
        line: span.number,
        column: span.size + 1,
        index: span.end,
        vs: 0,
    }
}

/// The place behind a line.
pub fn end_of(span: Span) -> Point
    requires size { span.size + 1 < 2 ^ 64 }
    requires number { span.number + 1 < 2 ^ 64 }
    ensures { result ≡ cond (span.end == span.next) (point span.number (span.size + 1) span.end 0) (point (span.number + 1) 1 span.next 0) }
{
    if span.end == span.next {
        return text_end_of(span);
    }
    Point {
        line: span.number + 1,
        column: 1,
        index: span.next,
        vs: 0,
    }
}
