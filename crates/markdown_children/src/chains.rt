//! Chains of a list of events, link by link.

ghost use Rattle.std.specs.Prelude.{◌≡◌, ◌<◌, length};
ghost use Rattle.markdown_base.specs.Places.{stands_before};
ghost use Rattle.markdown_edits.specs.Links.{next_of};
ghost use Rattle.markdown_children.specs.Chains.{begins, lets_through};
ghost use Rattle.markdown_children.specs.Ready.{place_at};

use markdown_base::event::{Content, Event, Point};

/// The index of the next event in the chain of an event, if there is one.
pub(crate) fn next_of(events: &[Event], index: usize) -> Option<usize>
    requires { index < length events.now }
    ensures { result ≡ next_of events.now index }
{
    events[index].link?.next
}

/// The place of an event.
pub(crate) fn place_at(events: &[Event], index: usize) -> Point
    requires { index < length events.now }
    ensures { result ≡ place_at events.now index }
{
    events[index].point
}

/// Whether one place is before another.
pub(crate) fn stands_before(place: Point, other: Point) -> bool
    ensures { result ≡ stands_before place other }
{
    place.index < other.index || (place.index == other.index && place.vs < other.vs)
}

/// Whether a content passes a filter. Without a filter each content passes.
pub(crate) fn lets_through(filter: Option<Content>, content: Content) -> bool
    ensures { result ≡ lets_through filter content }
{
    match filter {
        Some(wanted) => wanted == content,
        None => true,
    }
}

/// Whether a chain that fits the filter begins at an index.
pub(crate) fn begins_at(events: &[Event], index: usize, filter: Option<Content>) -> bool
    requires { index < length events.now }
    ensures { result ≡ begins filter events.now index }
{
    match events[index].link {
        Some(link) => lets_through(filter, link.content) && link.previous.is_none(),
        None => false,
    }
}
