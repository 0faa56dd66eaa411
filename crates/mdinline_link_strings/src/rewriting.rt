//! A list of events that is written anew in the memory that it has: what is written stands in front, and what is left behind a gap.

ghost use Rattle.std.specs.Prelude.{◌≡◌, ◌+◌, ◌<◌, ◌≤◌, ◌++◌, [], length, take, drop, IfOk, OnOk, OnErr};

use markdown_base::event::Event;
use std::alloc::AllocError;
use std::marker::Model;

/// Moves the events from an index on towards the end, so that these fit before them. The list grows by an eighth at least, so that it seldom does.
///
/// Returns the index at which they begin then. If it runs out of memory, nothing changes.
fn make_room(events: &mut Vec<Event>, left: usize, more: &[Event]) -> Result<usize, AllocError>
    requires within { left ≤ length events.old.items }
    requires some { 0 < length more.now }
    ensures room { IfOk result (λ at. left + length more.now ≤ at) }
    ensures front { take left events.new.items ≡ take left events.old.items }
    ensures back { IfOk result (λ at. drop at events.new.items ≡ drop left events.old.items) }
    ensures within { IfOk result (λ at. at ≤ length events.new.items) }
    ensures err { OnErr result (events.new.items ≡ events.old.items) }
{
    let len = events.len();
    let by = more.len().max(len / 8);
    events.reserve_exact(by)?;
    events.resize(len + by, more[0])?;
    events.copy_within(left..len, left + by);
    Ok(left + by)
}

/// Events that are written anew, from the front: those that are written, and those that are left.
#[derive(Drop)]
pub(crate) struct Rewriting {
    /// Events that are written, a gap, and events that are left.
    events: Vec<Event>,
    /// Where the gap begins.
    gap: usize,
    /// Where the events begin that are left.
    left: usize,
}

impl Model for Rewriting {
    ghost use Rattle.std.specs.Prelude.{List, take, drop, length, ◌≤◌};
    ghost use Rattle.markdown_base.specs.declared.event.Event.{Event};

    ghost Value = { List Event × List Event };

    ghost view = { λ r. (take r.gap r.events.items, drop r.left r.events.items) };

    ghost invariant = { λ r. (r.gap ≤ r.left) × (r.left ≤ length r.events.items) };
}

impl Rewriting {
    /// A list of which nothing is written.
    pub(crate) fn new(events: Vec<Event>) -> Self
        ensures { result ≡ ([], events.items) }
    {
        Rewriting {
            events,
            gap: 0,
            left: 0,
        }
    }

    /// The events that are left.
    pub(crate) fn left(&self) -> &[Event]
        ensures { result.now ≡ self.now.1 }
    {
        &self.events[self.left..]
    }

    /// Writes so many of the events that are left.
    pub(crate) fn keep(&mut self, count: usize)
        requires within { count ≤ length self.old.1 }
        ensures { self.new ≡ (self.old.0 ++ take count self.old.1, drop count self.old.1) }
    {
        let end = self.left + count;
        if self.gap < self.left {
            self.events.copy_within(self.left..end, self.gap);
        }
        self.gap += count;
        self.left = end;
    }

    /// Leaves so many of the events out that are left.
    pub(crate) fn skip(&mut self, count: usize)
        requires within { count ≤ length self.old.1 }
        ensures { self.new ≡ (self.old.0, drop count self.old.1) }
    {
        self.left += count;
    }

    /// Writes more events.
    pub(crate) fn add(&mut self, more: &[Event]) -> Result<(), AllocError>
        ensures { OnOk result (self.new ≡ (self.old.0 ++ more.now, self.old.1)) }
    {
        if self.left - self.gap < more.len() {
            self.left = make_room(&mut self.events, self.left, more)?;
        }
        let end = self.gap + more.len();
        self.events[self.gap..end].copy_from_slice(more);
        self.gap = end;
        Ok(())
    }

    /// The events that are written.
    pub(crate) fn into_events(mut self) -> Vec<Event>
        ensures { result.items ≡ self.0 }
    {
        self.events.truncate(self.gap);
        self.events
    }
}
