//! Places of a document, as callers name them: byte index and number in a tab.

ghost use Rattle.markdown_tokenizer.specs.Cuts;
ghost use Rattle.markdown_tokenizer.specs.Engine.{AreCuts};
ghost use Rattle.markdown_base.specs.Places;
ghost use Rattle.markdown_base.specs.Virtual.{IsWithinLimit};
ghost use Rattle.std.specs.Prelude.{◌==◌, ◌≡◌, ◌&&◌, ◌<◌, All, IfOk};

use crate::cursor::{pass, seat_at, shown};
use markdown_base::configuration::TabSize;
use markdown_base::event::Point;
use std::alloc::{AllocError, Global};

/// A law: a document's bytes are below 256, by their type.
pub fn bytes_are_below_256(bytes: &[u8])
    ensures { All (λ b. b < 256) bytes.now }
{}

/// Whether a point is at a place, given by byte index and number in a tab.
fn is_at(point: Point, place: (usize, usize)) -> bool
    ensures { result ≡ ((point.index == place.0) && (point.vs == place.1)) }
{
    point.index == place.0 && point.vs == place.1
}

/// The point of a place of a document. The place is a byte index and a number in a tab: of a virtual byte, of the CR of
/// a CR LF, or of the document's end. Returns `None` if there is no such place. Line and virtual column are counted
/// from the document's start, with a tab stop at every `tab_size` columns.
pub fn point_at(bytes: &[u8], tab_size: TabSize, place: (usize, usize)) -> Option<Point>
    requires fits { IsWithinLimit tab_size bytes.now }
    ensures { result ≡ Places.point_at tab_size bytes.now place }
{
    let t = tab_size.get();
    let mut after_previous = Point::START;
    while let Some((byte, seat)) = seat_at(bytes, after_previous) {
        let first = shown(bytes, seat);
        if is_at(first, place) {
            return Some(first);
        }
        if is_at(seat, place) {
            return Some(seat);
        }
        pass(bytes, &t, &mut after_previous, byte);
    }
    if is_at(after_previous, place) {
        Some(after_previous)
    } else {
        None
    }
}

/// The places (byte index, number in a tab) of the virtual bytes number `n`, `2n`, `3n`, .., numbered from 0: a
/// document can be cut there (`run`). There is a tab stop at every `tab_size` columns. Returns `AllocError` if it runs
/// out of memory.
pub fn cuts_every(
    alloc: Global,
    bytes: &[u8],
    tab_size: TabSize,
    n: usize,
) -> Result<Vec<(usize, usize)>, AllocError>
    requires some { 0 < n }
    requires fits { IsWithinLimit tab_size bytes.now }
    ensures places { IfOk result (λ cuts. cuts.items ≡ Cuts.cuts_every tab_size bytes.now n) }
    ensures cuts { IfOk result (λ cuts. AreCuts tab_size bytes.now cuts.items) }
{
    let t = tab_size.get();
    let mut cuts = Vec::new(alloc);
    let mut after_previous = Point::START;
    let mut number: usize = 0;
    while let Some((byte, seat)) = seat_at(bytes, after_previous) {
        if number > 0 && number % n == 0 {
            cuts.push((seat.index, seat.vs))?;
        }
        number += 1;
        pass(bytes, &t, &mut after_previous, byte);
    }
    Ok(cuts)
}
