//! The calls that only read a tokenizer.

ghost use Rattle.std.specs.Prelude.{◌≡◌, Some, true, map};
ghost use Rattle.markdown_base.specs.Places.{stands_before};
ghost use Rattle.markdown_tokenizer.specs.Calls.{innermost};
ghost use Rattle.markdown_tokenizer.specs.Noted.{IsNoted};
ghost use Rattle.std.specs.List.{IsDistinct};
ghost use Rattle.markdown_base.specs.Events.{open_events};
ghost use Rattle.markdown_tokenizer.specs.Sight.{sight_of};
ghost use Rattle.markdown_tokenizer.specs.Engine.{given_of};

use super::Tokenizer;
use crate::cursor::{resumed, seat_at, shown_after};
use crate::parser::ParseState;
use crate::state::MachineTypes;
use crate::waiting::{Phase, Waits};
use markdown_base::event::{Event, Name, Point};

impl<'a, M: MachineTypes> Tokenizer<'a, M> {
    /// The events so far.
    pub fn events(&self) -> &[Event]
        ensures { result.now ≡ self.now.configuration.events }
    {
        self.events.as_slice()
    }

    /// The names of the open spans, the innermost last, until a flush resolves.
    pub fn stack(&self) -> &[Name]
        ensures stack { result.now ≡ self.now.configuration.stack }
        ensures open_spans { self.now.phase ≡ Phase.Reading → result.now ≡ map (λ e. e.name) (open_events self.now.configuration.events) }
    {
        self.stack.as_slice()
    }

    /// The place of the byte that waits; the text's end while that waits; else the place after the previous byte.
    pub fn point(&self) -> Point
        ensures { result ≡ (sight_of self.now).point }
    {
        match self.waits {
            Waits::Nothing => self.after_previous,
            Waits::Byte => {
                let place = *resumed(&self.skips, &self.after_previous);
                match seat_at(self.parse_state.bytes, place) {
                    Some((_, seat)) => seat,
                    None => place,
                }
            }
            Waits::End => Point {
                index: self.end.0,
                vs: self.end.1,
                ..*resumed(&self.skips, &self.after_previous)
            },
        }
    }

    /// The place after the byte before, as an exit there shows it. A machine may note it, and later end or begin a span there (`exit_at`,
    /// `enter_at`).
    #[inline(always)]
    pub fn exit_place(&self) -> Point
        ensures place { result ≡ (sight_of self.now).exit_place }
        ensures noted { let t = self.now in t.phase ≡ Phase.Reading
            → ((enter : _) → innermost t.configuration.events ≡ Some enter → stands_before enter.point result ≡ true) → IsNoted result t }
    {
        let bytes = self.parse_state.bytes;
        let read = self.previous.is_some();
        shown_after(bytes, read, &self.after_previous)
    }

    /// The previous virtual byte, if one was read. It is never a byte in a gap.
    pub fn previous(&self) -> Option<u8>
        ensures { result ≡ (sight_of self.now).previous }
    {
        self.previous
    }

    /// The virtual byte that waits, if one does: 10 for each line ending, and for a tab 9 and then 32.
    pub fn current(&self) -> Option<u8>
        ensures { result ≡ (sight_of self.now).current }
    {
        match self.waits {
            Waits::Byte => Some(self.byte),
            Waits::Nothing | Waits::End => None,
        }
    }

    /// The names of the resolvers that are registered, none of them twice, in the order in which a flush runs them.
    pub fn resolvers(&self) -> &[M::Resolver]
        ensures resolvers { result.now ≡ self.now.configuration.local.resolvers }
        ensures once { IsDistinct M.Resolver.eq result.now }
    {
        self.resolvers.as_slice()
    }

    /// The document, the options and the machine.
    pub fn parse_state(&self) -> &'a ParseState<'a, M>
        ensures given { given_of result.now ≡ self.now.given }
        ensures machine { result.now.machine.now ≡ self.now.machine }
    {
        self.parse_state
    }
}
