//! Where the bytes of a document begin, to tell its places.

ghost use Rattle.std.specs.Prelude.{◌≡◌, ◌+◌, ◌*◌, ◌/◌, ◌^◌, ◌<◌, ◌≤◌, length, IfOk};
ghost use Rattle.markdown_base.specs.Virtual.{IsWithinLimit};
ghost use Rattle.markdown_children.specs.ByteStarts.{width_at, column_after, byte_start, eighth_starts};
ghost use Rattle.markdown_children.specs.StartTests.{AreStarts, is_place_of};

use markdown_base::event::Point;
use markdown_base::util::place::{ends_line, tab_width};
use std::alloc::{AllocError, Global};

/// The line and the column at which a byte, or the document's end, begins.
#[derive(Clone, Copy)]
pub(crate) struct ByteStart {
    /// The line of the byte, from 1.
    pub(crate) line: usize,
    /// The virtual column at which the byte begins, from 1.
    pub(crate) column: usize,
}

/// How many bytes there are for each one whose start is kept.
const STEP: usize = 8;

/// Where the bytes of a document begin. The starts of each eighth byte are kept, and those of the others are found from there: one for
/// each byte would take 16 times the memory of the document.
#[derive(Drop)]
pub(crate) struct ByteStarts<'a> {
    pub(crate) bytes: &'a [u8],
    pub(crate) tab_size: usize,
    pub(crate) kept: Vec<ByteStart>,
}

impl<'a> ByteStarts<'a> {
    /// Where the bytes of a document begin. There is a tab stop at every `tab_size` columns.
    pub(crate) fn new(
        alloc: Global,
        bytes: &'a [u8],
        tab_size: usize,
    ) -> Result<ByteStarts<'a>, AllocError>
        requires some { 0 < tab_size }
        requires limit { IsWithinLimit tab_size bytes.now }
        ensures starts { IfOk result (λ starts. AreStarts starts) }
        ensures bytes { IfOk result (λ starts. starts.bytes.now ≡ bytes.now) }
        ensures tab_size { IfOk result (λ starts. starts.tab_size ≡ tab_size) }
    {
        let kept = kept_starts(alloc, bytes, tab_size)?;
        Ok(ByteStarts {
            bytes,
            tab_size,
            kept,
        })
    }

    /// Whether a point is the point of a place of the document, and shown.
    pub(crate) fn is_place(&self, point: Point) -> bool
        requires { AreStarts self.now }
        ensures { result ≡ is_place_of self.now point }
    {
        if point.index > self.bytes.len() {
            return false;
        }
        let near = point.index / STEP;
        let start = walked(
            self.bytes,
            self.tab_size,
            STEP * near,
            self.kept[near],
            point.index,
        );
        let width = width_at(self.bytes, self.tab_size, point.index, start.column);
        (start.line == point.line && start.column <= point.column)
            && (point.column - start.column == point.vs && point.vs < width)
    }
}

/// Where each eighth byte begins. Room for all is taken at once.
fn kept_starts(alloc: Global, bytes: &[u8], t: usize) -> Result<Vec<ByteStart>, AllocError>
    requires some { 0 < t }
    requires limit { IsWithinLimit t bytes.now }
    ensures { IfOk result (λ v. v.items ≡ eighth_starts t bytes.now (length bytes.now / 8 + 1)) }
{
    let count = bytes.len() / STEP;
    let mut starts = Vec::with_capacity(alloc, count + 1)?;
    let mut start = ByteStart { line: 1, column: 1 };
    starts.push_reserved(start);
    for k in 0..count {
        start = walked(bytes, t, STEP * k, start, STEP * (k + 1));
        starts.push_reserved(start);
    }
    Ok(starts)
}

/// Where the byte at `to` begins, found from where the one at `from` does.
fn walked(bytes: &[u8], t: usize, from: usize, start: ByteStart, to: usize) -> ByteStart
    requires some { 0 < t }
    requires limit { IsWithinLimit t bytes.now }
    requires order { from ≤ to }
    requires inside { to ≤ length bytes.now }
    requires start { start ≡ byte_start t bytes.now from }
    ensures { result ≡ byte_start t bytes.now to }
{
    let mut line = start.line;
    let mut column = start.column;
    for index in from..to {
        // Most bytes: neither a tab nor a line ending, as these are at most a CR.
        if bytes[index] > b'\r' {
            column += 1;
            continue;
        }
        if ends_line(bytes, index) {
            line += 1;
            column = 1;
            continue;
        }
        column = column_after(bytes, t, index, column);
    }
    ByteStart { line, column }
}

/// How many places of a byte are shown: one for each column of a tab, none for the LF of a CR LF, else one. The
/// document's end has one.
fn width_at(bytes: &[u8], t: usize, index: usize, column: usize) -> usize
    requires some { 0 < t }
    requires inside { index ≤ length bytes.now }
    requires first { 1 ≤ column }
    ensures { result ≡ width_at t bytes.now column index }
{
    if index == bytes.len() {
        return 1;
    }
    if bytes[index] == b'\t' {
        return tab_width(t, column);
    }
    if bytes[index] == b'\n' && index > 0 && bytes[index - 1] == b'\r' {
        0
    } else {
        1
    }
}

/// The column after a byte at this column.
fn column_after(bytes: &[u8], t: usize, index: usize, column: usize) -> usize
    requires some { 0 < t }
    requires inside { index < length bytes.now }
    requires first { 1 ≤ column }
    requires limit { column + t < 2 ^ 64 }
    ensures { result ≡ column_after t bytes.now column index }
{
    if ends_line(bytes, index) {
        return 1;
    }
    match bytes[index] {
        b'\r' => column,
        b'\t' => column + tab_width(t, column),
        _ => column + 1,
    }
}
