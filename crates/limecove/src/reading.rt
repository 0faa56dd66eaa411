//! Readings: how their lists are kept, taken and copied.

ghost use Rattle.std.specs.Prelude.{◌≡◌, ◌-◌, [], drop, length, min};
ghost use Rattle.limecove.specs.Readings.{IsClosed, events_in, listed};
ghost use Rattle.limecove.specs.Records.{filled};

use crate::kept::{Kept, Reading};
use crate::loose::Loose;
use crate::record::{Record, write_records};
use markdown::event::Event;
use std::alloc::Global;
use std::{cmp, mem};

impl Reading {
    /// A reading that is not open.
    pub(crate) fn closed() -> Reading
        ensures { IsClosed result }
    {
        Reading {
            is_open: 0,
            kept: Kept::none(),
        }
    }

    /// An open reading with these events.
    pub(crate) fn of(list: Box<Vec<Event>>) -> Reading
        ensures { events_in result ≡ list.value.items }
    {
        Reading {
            is_open: 1,
            kept: Kept::of(Loose::of(list)),
        }
    }

    /// The list, which the reading has no more. `None` if it was not open.
    pub(crate) fn take(&mut self, alloc: Global) -> Option<Box<Vec<Event>>>
        ensures taken { listed result ≡ events_in self.old }
        ensures closed { IsClosed self.new }
    {
        let Reading { is_open, kept } = mem::replace(self, Reading::closed());
        if is_open == 0 {
            return None;
        }
        Some(kept.into_loose(alloc).into_box())
    }
}

/// Writes the records of the events from this one on over the first records, as many as fit. Returns how many were written.
pub(crate) fn copy_from(list: &[Event], from: usize, records: &mut [Record]) -> usize
    ensures copied { records.new ≡ filled records.old (drop from list.now) }
    ensures count { result ≡ min (length records.old) (length list.now - from) }
{
    let room = records.len();
    match list.get(from..) {
        Some(events) => cmp::min(room, write_records(records, events)),
        None => 0,
    }
}
