//! Points and positions of [unist](https://github.com/syntax-tree/unist), the syntax tree format.

ghost use Rattle.std.specs.Prelude.{◌≡◌, Some};
ghost use Rattle.markdown_base.specs.Shown.{point_debug_text, position_debug_text};

use std::fmt;

/// One place in a document.
#[derive(Clone, Copy, PartialEq, Eq)]
pub struct Point {
    /// Line, from 1.
    pub line: usize,
    /// Column, from 1.
    pub column: usize,
    /// Byte index into the document, from 0.
    pub offset: usize,
}

impl Point {
    /// The point of these three numbers.
    pub fn new(line: usize, column: usize, offset: usize) -> Point
        ensures { result ≡ record { line = line; column = column; offset = offset } }
    {
        Point {
            line,
            column,
            offset,
        }
    }
}

/// Two places in a document, from the first to before the second.
#[derive(Clone, Copy, PartialEq, Eq)]
pub struct Position {
    /// The place of the first character.
    pub start: Point,
    /// The place after the last character.
    pub end: Point,
}

impl Position {
    /// The position between two points, each given by its three numbers.
    pub fn new(
        start_line: usize,
        start_column: usize,
        start_offset: usize,
        end_line: usize,
        end_column: usize,
        end_offset: usize,
    ) -> Position
        ensures start { result.start ≡ record { line = start_line; column = start_column; offset = start_offset } }
        ensures end { result.end ≡ record { line = end_line; column = end_column; offset = end_offset } }
    {
        Position {
            start: Point::new(start_line, start_column, start_offset),
            end: Point::new(end_line, end_column, end_offset),
        }
    }
}

impl fmt::Debug for Point {
    ghost debug_output = { λ p. Some (point_debug_text p) };

    /// Writes the point as `line:column (offset)`.
    fn fmt<W: fmt::Write>(&self, f: &mut fmt::Formatter<W>) -> fmt::Result {
        write!(f, "{}:{} ({})", self.line, self.column, self.offset)
    }
}

impl fmt::Debug for Position {
    ghost debug_output = { λ p. Some (position_debug_text p) };

    /// Writes the position as `line:column-line:column (offset-offset)`.
    fn fmt<W: fmt::Write>(&self, f: &mut fmt::Formatter<W>) -> fmt::Result {
        write!(
            f,
            "{}:{}-{}:{} ({}-{})",
            self.start.line,
            self.start.column,
            self.end.line,
            self.end.column,
            self.start.offset,
            self.end.offset
        )
    }
}
