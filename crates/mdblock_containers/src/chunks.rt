//! Chunks of lines.

ghost use Rattle.std.specs.Prelude.{◌≡◌, ◌<◌, ◌++◌, ◌∷◌, [], ℕ, IfOk, Some, length};
ghost use Rattle.mdblock_containers.specs.Chunks.{chunk_enter, linked, set_next, with_next};

use markdown_base::event::{Content, Event, Kind, Link, Name, Point};
use std::alloc::AllocError;

/// A chunk of this content begins, linked to the one at an index, if there is one. Returns the index of its enter.
pub fn begin_chunk(
    events: &mut Vec<Event>,
    content: Content,
    previous: Option<usize>,
    point: Point,
) -> Result<usize, AllocError>
    requires { (before : ℕ) → previous ≡ Some before → before < length events.old.items }
    ensures index { IfOk result (λ index. index ≡ length events.old.items) }
    ensures events { IfOk result (λ _. events.new.items ≡ linked previous (length events.old.items) events.old.items ++ chunk_enter content previous point ∷ []) }
{
    let index = events.len();
    link_if(events, previous, index);
    events.push(Event {
        kind: Kind::Enter,
        name: Name::Data,
        point,
        link: Some(Link {
            previous,
            next: None,
            content,
        }),
    })?;
    Ok(index)
}

/// The chunk at an index, if there is one, is linked to the next.
fn link_if(events: &mut Vec<Event>, previous: Option<usize>, next: usize)
    requires { (before : ℕ) → previous ≡ Some before → before < length events.old.items }
    ensures { events.new.items ≡ linked previous next events.old.items }
{
    if let Some(before) = previous {
        link_to(events.as_mut_slice(), before, next);
    }
}

/// The chunk at an index is linked to the next.
fn link_to(events: &mut [Event], before: usize, next: usize)
    requires { before < length events.old }
    ensures { events.new ≡ set_next before next events.old }
{
    let linked = with_next(events[before], next);
    events[before] = linked;
}

/// An event with a link to the next chunk, if it has a link.
fn with_next(event: Event, next: usize) -> Event
    ensures { result ≡ with_next next event }
{
    match event.link {
        Some(link) => Event {
            kind: event.kind,
            name: event.name,
            point: event.point,
            link: Some(Link {
                previous: link.previous,
                next: Some(next),
                content: link.content,
            }),
        },
        None => event,
    }
}
