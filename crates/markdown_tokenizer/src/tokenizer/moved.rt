//! A tokenizer goes on in another document, which begins as its own does.

ghost use Rattle.std.specs.Prelude.{◌≡◌, ◌==◌, ◌&&◌, ◌+◌, ◌<◌, ◌≤◌, ◌^◌, ◌↔◌, IsTrue, cond, length, slice_index, suc, take};
ghost use Rattle.markdown_base.specs.Places.{follows_cr};
ghost use Rattle.markdown_tokenizer.specs.Alike.{CanMove};
ghost use Rattle.markdown_tokenizer.specs.AtPlaces.{AreAtPlaces};
ghost use Rattle.markdown_tokenizer.specs.Engine.{given_of};

use super::Tokenizer;
use crate::cursor::{Moves, is_pair};
use crate::parser::ParseState;
use crate::places::bytes_are_below_256;
use crate::state::MachineTypes;
use crate::waiting::Phase;

/// How many bytes a place needs, given by index and number in a tab: those before it, and of a tab that it cuts the tab too.
fn bytes_needed(place: (usize, usize)) -> usize
    requires { place.0 + 1 < 2 ^ 64 }
    ensures { result ≡ cond (place.1 == 0) place.0 (suc place.0) }
{
    if place.1 == 0 { place.0 } else { place.0 + 1 }
}

/// Whether two documents have the same first `n` bytes. The first one has as many.
fn begin_alike(one: &[u8], other: &[u8], n: usize) -> bool
    requires { n ≤ length one.now }
    ensures { IsTrue result ↔ (take n one.now ≡ take n other.now) }
{
    other.starts_with(&one[..n])
}

/// Whether an index is between the CR and the LF of a CR LF.
fn cuts_pair(bytes: &[u8], index: usize) -> bool
    requires { index + 1 < 2 ^ 64 }
    ensures { result ≡ ((slice_index bytes.now index == 10) && follows_cr bytes.now index) }
{
    index > 0 && is_pair(bytes, index - 1)
}

impl<'a, M: MachineTypes> Tokenizer<'a, M> {
    /// Whether it can be moved to another document that is read with the same options ([`Tokenizer::moved_to`]). It compares the bytes up to
    /// where the text ends.
    pub fn can_move_to(&self, document: &ParseState<M>) -> bool
        requires options { document.now.options.now ≡ self.now.given.options }
        ensures { IsTrue result ↔ CanMove self.now.given (given_of document.now) self.now.text.end }
    {
        bytes_are_below_256(document.bytes);
        let index = self.end.0;
        let alike = begin_alike(self.bytes, document.bytes, bytes_needed(self.end));
        let cut_here = cuts_pair(self.bytes, index);
        let cut_there = cuts_pair(document.bytes, index);
        let at_pair = is_pair(self.bytes, index);
        alike & !cut_here & !cut_there & !at_pair
    }

    /// The same tokenizer in another document, which is read from here on. Takes no memory.
    ///
    /// The two documents must be alike up to where the text ends: the options, and the bytes up to there. The text must not end between
    /// the CR and the LF of a CR LF, of either document, nor right before a CR LF of its own. The machine must be the same. The events
    /// stand at places of the other document too, until a flush resolves.
    pub fn moved_to<'b>(self, document: &'b ParseState<'b, M>) -> Tokenizer<'b, M>
        requires alike { CanMove self.given (given_of document.now) self.text.end }
        requires machine { document.now.machine.now ≡ self.machine }
        ensures moved { result ≡ record self.entry { given = given_of document.now } }
        ensures at_places { let p = given_of document.now in self.entry.phase ≡ Phase.Reading → AreAtPlaces p.tab p.bytes result.configuration.events }
    {
        let Tokenizer {
            interrupt,
            concrete,
            pierce,
            lazy,
            map,
            start,
            end,
            skips,
            after_previous,
            ended,
            waits,
            previous,
            byte,
            events,
            stack,
            resolvers,
            kept_choices,
            tab_size,
            closed,
            phase,
            noted,
            calls,
            tokenize_state,
            ..
        } = self;
        Tokenizer {
            interrupt,
            concrete,
            pierce,
            lazy,
            map,
            start,
            end,
            skips,
            after_previous,
            ended,
            waits,
            moves: Moves::Other,
            previous,
            byte,
            plain_until: 0,
            bytes: document.bytes,
            events,
            stack,
            resolvers,
            kept_choices,
            tab_size,
            closed,
            phase,
            noted,
            calls,
            parse_state: document,
            tokenize_state,
        }
    }
}
