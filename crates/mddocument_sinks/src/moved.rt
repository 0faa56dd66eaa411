//! Events of a piece, as those of the document.

ghost use Rattle.std.specs.Prelude.{◌≡◌, IfOk, IfSome, map};
ghost use Rattle.mddocument_parts.specs.Moved.{moved_event, moved_point};

use markdown_base::event::{Event, Point};
use std::alloc::{AllocError, Global};

/// A place so many lines and bytes further on. `None` if a number would be above what a `usize` can be, which no place of a document in memory has.
fn moved_point(point: Point, lines: usize, bytes: usize) -> Option<Point>
    ensures { IfSome result (λ moved. moved ≡ moved_point lines bytes point) }
{
    let line = point.line.checked_add(lines)?;
    let index = point.index.checked_add(bytes)?;
    Some(Point {
        line,
        column: point.column,
        index,
        vs: point.vs,
    })
}

/// An event so many lines and bytes further on. If it has a link, that stays.
fn moved_event(event: &Event, lines: usize, bytes: usize) -> Option<Event>
    ensures { IfSome result (λ moved. moved ≡ moved_event lines bytes 0 event.now) }
{
    let point = moved_point(event.point, lines, bytes)?;
    Some(Event {
        kind: event.kind,
        name: event.name,
        point,
        link: event.link,
    })
}

/// Events so many lines and bytes further on. It fails only if it runs out of memory, or a number would be above what a `usize` can be.
pub(crate) fn moved_events(
    alloc: Global,
    events: &[Event],
    lines: usize,
    bytes: usize,
) -> Result<Vec<Event>, AllocError>
    ensures { IfOk result (λ moved. moved.items ≡ map (moved_event lines bytes 0) events.now) }
{
    let mut all = Vec::with_capacity(alloc, events.len())?;
    for event in events {
        match moved_event(event, lines, bytes) {
            None => return Err(AllocError),
            Some(moved) => all.push(moved)?,
        }
    }
    Ok(all)
}
