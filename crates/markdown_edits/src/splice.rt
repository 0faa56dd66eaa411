//! The list of events after edits.

ghost use Rattle.std.specs.Prelude.{◌≡◌, ◌-◌, ◌≤◌, ◌++◌, length, take, drop, OnOk, IfOk, IfSome, All, option_and_then};
ghost use Rattle.markdown_base.specs.Events.{EndsBelow, relinked};
ghost use Rattle.markdown_edits.specs.Edits.{AreDisjoint};
ghost use Rattle.markdown_edits.specs.Shifts.{shifts, place_by, AreShifts, EndsFit};
ghost use Rattle.markdown_edits.specs.Spliced.{relinked_by, spliced};
ghost use Rattle.markdown_edits.specs.Stored.{pooled, IsPart};

use crate::entry::Entry;
use crate::shift::{Shift, place_after, shifts_of};
use markdown_base::event::{Event, Link};
use std::alloc::{AllocError, Global};

/// The index in the new list to which a link end points; `None` if its event is removed.
fn moved_end(shifts: &[Shift], end: Option<usize>) -> Option<usize>
    requires { IfSome end (λ n. AreShifts n 0 shifts.now) }
    ensures { result ≡ option_and_then (place_by shifts.now 0 0) end }
{
    place_after(shifts, end?)
}

/// An event with both ends of its link moved to indices of the new list.
fn moved_event(shifts: &[Shift], event: Event) -> Event
    requires { EndsFit shifts.now event }
    ensures { result ≡ relinked (place_by shifts.now 0 0) event }
{
    match event.link {
        None => event,
        Some(link) => Event {
            link: Some(Link {
                previous: moved_end(shifts, link.previous),
                next: moved_end(shifts, link.next),
                ..link
            }),
            ..event
        },
    }
}

/// Appends the events from one index to another, with their link ends moved.
fn push_moved(
    out: &mut Vec<Event>,
    shifts: &[Shift],
    events: &[Event],
    from: usize,
    to: usize,
) -> Result<(), AllocError>
    requires ends { All (EndsFit shifts.now) events.now }
    requires order { from ≤ to }
    requires within { to ≤ length events.now }
    ensures { OnOk result (out.new.items ≡ out.old.items ++ relinked_by (place_by shifts.now 0 0) (take (to - from) (drop from events.now))) }
{
    for event in &events[from..to] {
        out.push(moved_event(shifts, *event))?;
    }
    Ok(())
}

/// Appends the events after the edits: what stays between them, and what they add.
fn push_spliced(
    out: &mut Vec<Event>,
    shifts: &[Shift],
    edits: &[Entry],
    additions: &[Event],
    events: &[Event],
) -> Result<(), AllocError>
    requires ends { All (EndsFit shifts.now) events.now }
    requires parts { All (IsPart (length additions.now)) edits.now }
    requires disjoint { AreDisjoint 0 (pooled additions.now edits.now) (length events.now) }
    ensures { OnOk result (out.new.items ≡ out.old.items ++ spliced (place_by shifts.now 0 0) (pooled additions.now edits.now) 0 events.now) }
{
    let mut from = 0;
    for edit in edits {
        push_moved(out, shifts, events, from, edit.index)?;
        out.extend_from_slice(&additions[edit.start..edit.end])?;
        from = edit.index + edit.remove;
    }
    push_moved(out, shifts, events, from, events.len())
}

/// The events after the edits.
///
/// The place of the old list's end is the new list's length, so that memory is taken once.
pub(crate) fn spliced_events(
    alloc: Global,
    edits: &[Entry],
    additions: &[Event],
    events: &[Event],
) -> Result<Vec<Event>, AllocError>
    requires parts { All (IsPart (length additions.now)) edits.now }
    requires disjoint { AreDisjoint 0 (pooled additions.now edits.now) (length events.now) }
    requires links { All (EndsBelow (length events.now)) events.now }
    ensures { let es = pooled additions.now edits.now in IfOk result (λ v. v.items ≡ spliced (place_by (shifts 0 0 es) 0 0) es 0 events.now) }
{
    let shifts = shifts_of(alloc, edits, additions, events.len())?;
    let total = place_after(&shifts, events.len()).unwrap_or(events.len());
    let mut out = Vec::with_capacity(alloc, total)?;
    push_spliced(&mut out, &shifts, edits, additions, events)?;
    Ok(out)
}
