//! Links between the events of a list.
//!
//! A chain links the enters of some void spans of a list of events. Their text together is content of its own.

ghost use Rattle.std.specs.Prelude.{◌≡◌, ◌-◌, ◌≤◌};
ghost use Rattle.markdown_edits.specs.Links.{CanLink, linked_to, with_next, with_previous};

use markdown_base::event::Event;

/// Links an event to the one two places before it, as [`link_to`] does from `index - 2` to `index`.
///
/// `index` is an index into the events. The span that begins two places before ends directly before the event.
pub fn link(events: &mut [Event], index: usize)
    requires behind { 2 ≤ index }
    requires can_link { CanLink events.old (index - 2) index }
    ensures { events.new ≡ linked_to (index - 2) index events.old }
{
    link_to(events, index - 2, index);
}

/// Links two events: the one at `next` becomes the next of the one at `previous`, and that one its previous.
/// Nothing else changes.
///
/// Both are indices into the events, of enters of void spans that have links of one content; the span at
/// `previous` ends before `next`.
pub fn link_to(events: &mut [Event], previous: usize, next: usize)
    requires can_link { CanLink events.old previous next }
    ensures { events.new ≡ linked_to previous next events.old }
{
    set_next(&mut events[previous], next);
    set_previous(&mut events[next], previous);
}

/// Sets the next end of an event's link, if it has one.
fn set_next(event: &mut Event, next: usize)
    ensures { event.new ≡ with_next next event.old }
{
    if let Some(link) = &mut event.link {
        link.next = Some(next);
    }
}

/// Sets the previous end of an event's link, if it has one.
fn set_previous(event: &mut Event, previous: usize)
    ensures { event.new ≡ with_previous previous event.old }
{
    if let Some(link) = &mut event.link {
        link.previous = Some(previous);
    }
}
