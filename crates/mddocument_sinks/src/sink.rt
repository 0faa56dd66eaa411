//! What takes the events of a document as they are made.

ghost use Rattle.std.specs.Prelude.{◌≡◌};

use markdown_base::event::Event;
use std::alloc::AllocError;

/// A sink takes no more events.
#[derive(Clone, Copy, Debug, PartialEq, Eq)]
pub struct Stopped {}

/// What takes events: a list that keeps them, or what writes them and keeps none.
pub trait EventSink {
    ghost use Rattle.std.specs.Prelude.{◌≡◌, ◌++◌, List, OnErr, OnOk};
    ghost use Rattle.markdown_base.specs.declared.event.Event.{Event};
    ghost use Rattle.mddocument_sinks.specs.Taken.{TookFront};

    /// The events that it took, in order.
    ghost taken: { Self → List Event };

    /// Takes the next events. If it fails, it took a front of them: none, some or all.
    fn take_events(&mut self, events: &[Event]) -> Result<(), Stopped>
        ensures ok { OnOk result (taken self.new ≡ taken self.old ++ events.now) }
        ensures err { OnErr result (TookFront events.now (taken self.old) (taken self.new)) };
}

impl EventSink for Vec<Event> {
    /// The events in the list.
    ghost taken = { λ list. list.items };

    /// Appends them. It fails only if it runs out of memory, and is then as it was.
    fn take_events(&mut self, events: &[Event]) -> Result<(), Stopped> {
        match self.extend_from_slice(events) {
            Ok(()) => Ok(()),
            Err(_) => Err(Stopped {}),
        }
    }
}

/// Why a document was not read to its end.
#[derive(Clone, Copy, Debug, PartialEq, Eq)]
pub enum Unread {
    /// It ran out of memory.
    Memory,
    /// The sink took no more.
    Stopped,
}

impl From<AllocError> for Unread {
    ghost use Rattle.mddocument_sinks.specs.declared.sink.Unread.TheVariants.{Memory};

    ghost from_gives = { λ _ unread. unread ≡ Memory };

    /// A failed allocation is `Memory`.
    fn from(_error: AllocError) -> Unread {
        Unread::Memory
    }
}

impl From<Stopped> for Unread {
    ghost use Rattle.mddocument_sinks.specs.declared.sink.Unread.TheVariants.{Stopped as SinkStopped};

    ghost from_gives = { λ _ unread. unread ≡ SinkStopped };

    /// A sink that takes no more is `Stopped`.
    fn from(_stopped: Stopped) -> Unread {
        Unread::Stopped
    }
}
