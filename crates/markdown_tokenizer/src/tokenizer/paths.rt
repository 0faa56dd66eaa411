//! The fast and slow paths of `consume`, `enter`, `exit` and of feeding a byte.
//!
//! A fast path does the work if it needs little for it, as nearly always, and says whether it did. A slow path does it whatever there
//! is. The slow ones are functions of their own, so that the loop over bytes has the code of the fast ones alone.

ghost use Rattle.std.specs.Prelude.{◌≡◌, ◌+◌, ◌-◌, ◌<◌, ◌≤◌, ◌∷◌, ◌++◌, [], length, take, OnOk, OnErr, None, Some, vec_capacity, vec_len};
ghost use Rattle.std.specs.Bool.{OnTrue, OnFalse};
ghost use Rattle.markdown_tokenizer.specs.Configuration.{at_configuration};
ghost use Rattle.markdown_tokenizer.specs.Calls.{consumed, with_enter, with_exit, CanExit};
ghost use Rattle.markdown_tokenizer.specs.Reading.{fed};

use super::Tokenizer;
use crate::cursor::{
    Moves, is_where_more_is, next_byte_from, pass, pass_plain, plain_until, quick_byte, resume,
    shown, shown_after, standing, step,
};
use crate::state::MachineTypes;
use crate::waiting::Waits;
use markdown_base::event::{Event, Kind, Link, Name, Point};
use std::alloc::AllocError;

/// Makes room for an event. It is called if there is none.
///
/// Events grow by a quarter, so that little of their memory is unused. If there is not so much memory, they grow by one event. If it
/// runs out of memory, nothing changes.
#[cold]
#[inline(never)]
fn make_room(events: &mut Vec<Event>) -> Result<(), AllocError>
    ensures items { events.new.items ≡ events.old.items }
    ensures len { vec_len events.new ≡ vec_len events.old }
    ensures room { OnOk result (vec_len events.new < vec_capacity events.new) }
{
    let more = if events.len() < 64 {
        32
    } else {
        events.len() / 2
    };
    match events.reserve_exact(more) {
        Ok(()) => Ok(()),
        Err(_) => events.reserve_exact(1),
    }
}

/// Makes room for an event, if there is none. If it runs out of memory, nothing changes.
#[inline(always)]
pub(crate) fn with_room(events: &mut Vec<Event>) -> Result<(), AllocError>
    ensures items { events.new.items ≡ events.old.items }
    ensures len { vec_len events.new ≡ vec_len events.old }
    ensures room { OnOk result (vec_len events.new < vec_capacity events.new) }
{
    if events.len() < events.capacity() {
        return Ok(());
    }
    make_room(events)
}

/// Puts an enter behind the events, and its name on the stack: there is room for both.
#[inline(always)]
pub(crate) fn put_enter(
    events: &mut Vec<Event>,
    stack: &mut Vec<Name>,
    name: Name,
    point: Point,
    link: Option<Link>,
)
    requires event { vec_len events.old < vec_capacity events.old }
    requires name { vec_len stack.old < vec_capacity stack.old }
    ensures events { events.new.items ≡ events.old.items ++ record { kind = Kind.Enter; name = name; point = point; link = link } ∷ [] }
    ensures stack { stack.new.items ≡ stack.old.items ++ name ∷ [] }
{
    stack.push_reserved(name);
    events.push_reserved(Event {
        kind: Kind::Enter,
        name,
        point,
        link,
    });
}

/// Puts an exit behind the events, for which there is room, and takes the last name from the stack.
#[inline(always)]
pub(crate) fn put_exit(events: &mut Vec<Event>, stack: &mut Vec<Name>, name: Name, point: Point)
    requires { vec_len events.old < vec_capacity events.old }
    ensures events { events.new.items ≡ events.old.items ++ record { kind = Kind.Exit; name = name; point = point; link = None } ∷ [] }
    ensures stack { stack.new.items ≡ take (length stack.old.items - 1) stack.old.items }
{
    events.push_reserved(Event {
        kind: Kind::Exit,
        name,
        point,
        link: None,
    });
    let _ = stack.pop();
}

impl<'a, M: MachineTypes> Tokenizer<'a, M> {
    /// Consumes the byte that waits if it is in no tab and ends no line, as nearly every byte. Returns whether it did.
    #[inline(always)]
    pub(crate) fn consume_plain(&mut self) -> bool
        requires { self.old.configuration.waiting ≡ Waits.Byte }
        ensures done { OnTrue result (self.new ≡ at_configuration self.old (consumed self.old.configuration)) }
        ensures same { OnFalse result (self.new ≡ self.old) }
    {
        match self.moves {
            Moves::Plain => {
                pass_plain(&mut self.after_previous);
                self.previous = Some(self.byte);
                self.ended = false;
                self.waits = Waits::Nothing;
                // `feed` sets it again before it is read. With it LLVM writes all that is next to it at once.
                self.moves = Moves::Other;
                true
            }
            _ => false,
        }
    }

    /// As `consume`. It is called for a byte in a tab, and for a line ending. A byte of which less is known goes on to `consume_any`.
    #[inline(never)]
    pub(crate) fn consume_known(&mut self)
        requires { self.old.configuration.waiting ≡ Waits.Byte }
        ensures { self.new ≡ at_configuration self.old (consumed self.old.configuration) }
    {
        match step(
            self.moves,
            &self.skips,
            &self.end.0,
            &mut self.after_previous,
        ) {
            Some(plain_until) => {
                self.plain_until = plain_until;
                self.previous = Some(self.byte);
                self.ended = false;
                self.waits = Waits::Nothing;
                self.moves = Moves::Other;
            }
            None => self.consume_any(),
        }
    }

    /// As `consume`. It is called if `feed` did not tell how the place moves: after a gap, for a CR, at the end of the text, and after a
    /// choice ended. It looks at the bytes of the document.
    #[cold]
    #[inline(never)]
    fn consume_any(&mut self)
        requires { self.old.configuration.waiting ≡ Waits.Byte }
        ensures { self.new ≡ at_configuration self.old (consumed self.old.configuration) }
    {
        let byte = self.byte;
        let bytes = self.parse_state.bytes;
        resume(&self.skips, &mut self.after_previous);
        pass(bytes, &self.tab_size, &mut self.after_previous, byte);
        self.plain_until = plain_until(&self.skips, &self.after_previous, self.end.0);
        self.previous = Some(byte);
        self.ended = false;
        self.waits = Waits::Nothing;
        self.moves = Moves::Other;
    }

    /// Begins a span, with a link if one is given, if there is room, and no gap to look for, as nearly always. Returns whether it did.
    #[inline(always)]
    pub(crate) fn enter_fast(&mut self, name: Name, link: Option<Link>) -> bool
        ensures done { OnTrue result (self.new ≡ with_enter name link self.old) }
        ensures same { OnFalse result (self.new ≡ self.old) }
    {
        if self.events.len() < self.events.capacity()
            && self.stack.len() < self.stack.capacity()
            && is_where_more_is(&self.skips, &self.after_previous)
        {
            let point = shown_after(
                self.parse_state.bytes,
                self.previous.is_some(),
                &self.after_previous,
            );
            put_enter(&mut self.events, &mut self.stack, name, point, link);
            return true;
        }
        false
    }

    /// As `enter`. It is called if there may be no room, or a gap to look for. It takes no link: `enter` would write one to memory at
    /// each call, to hand it on.
    #[cold]
    #[inline(never)]
    pub(crate) fn enter_slow_unlinked(&mut self, name: Name) -> Result<(), AllocError>
        ensures ok { OnOk result (self.new ≡ with_enter name None self.old) }
        ensures err { OnErr result (self.new ≡ self.old) }
    {
        self.enter_slow(name, None)
    }

    /// As `enter`, with a link if one is given. It is called if there may be no room, or a gap to look for.
    #[cold]
    #[inline(never)]
    pub(crate) fn enter_slow(&mut self, name: Name, link: Option<Link>) -> Result<(), AllocError>
        ensures ok { OnOk result (self.new ≡ with_enter name link self.old) }
        ensures err { OnErr result (self.new ≡ self.old) }
    {
        make_room(&mut self.events)?;
        self.stack.reserve(1)?;
        let place = standing(&self.skips, self.after_previous, self.waits);
        let point = shown(self.parse_state.bytes, place);
        put_enter(&mut self.events, &mut self.stack, name, point, link);
        Ok(())
    }

    /// Ends the innermost span if there is room, as nearly always. Returns whether it did.
    #[inline(always)]
    pub(crate) fn exit_fast(&mut self, name: Name) -> bool
        requires { CanExit name self.old }
        ensures done { OnTrue result (self.new ≡ with_exit name self.old) }
        ensures same { OnFalse result (self.new ≡ self.old) }
    {
        if self.events.len() == self.events.capacity() {
            return false;
        }
        let point = shown_after(
            self.parse_state.bytes,
            self.previous.is_some(),
            &self.after_previous,
        );
        put_exit(&mut self.events, &mut self.stack, name, point);
        true
    }

    /// As `exit`. It is called if there is no room.
    #[cold]
    #[inline(never)]
    pub(crate) fn exit_slow(&mut self, name: Name) -> Result<(), AllocError>
        requires { CanExit name self.old }
        ensures ok { OnOk result (self.new ≡ with_exit name self.old) }
        ensures err { OnErr result (self.new ≡ self.old) }
    {
        make_room(&mut self.events)?;
        let point = shown(self.parse_state.bytes, self.after_previous);
        put_exit(&mut self.events, &mut self.stack, name, point);
        Ok(())
    }

    /// Feeds the next byte of the text. Returns whether there is one.
    ///
    /// If the byte at the index of the place is enough to tell it, as nearly always, it is fed here.
    #[inline(always)]
    pub(crate) fn feed(&mut self) -> bool
        ensures fed { OnTrue result (self.new ≡ at_configuration self.old (fed self.old.text self.old.configuration)) }
        ensures more { OnTrue result (self.old.configuration.position < length self.old.text.seats) }
        ensures same { OnFalse result (self.new ≡ self.old) }
        ensures end { OnFalse result (length self.old.text.seats ≤ self.old.configuration.position) }
    {
        let next = quick_byte(
            self.bytes,
            &self.tab_size,
            &self.after_previous,
            self.plain_until,
            self.end.0,
        );
        match next {
            Some((byte, moves)) => match moves {
                // Written once more, as here it is known what is stored: two of the stores become one.
                Moves::Plain => {
                    self.byte = byte;
                    self.waits = Waits::Byte;
                    self.moves = Moves::Plain;
                    true
                }
                _ => {
                    self.byte = byte;
                    self.waits = Waits::Byte;
                    self.moves = moves;
                    true
                }
            },
            None => self.feed_slow(),
        }
    }

    /// As `feed`. It is called at the end of the text, after a gap, for a CR, and for a control character.
    #[cold]
    #[inline(never)]
    fn feed_slow(&mut self) -> bool
        ensures fed { OnTrue result (self.new ≡ at_configuration self.old (fed self.old.text self.old.configuration)) }
        ensures more { OnTrue result (self.old.configuration.position < length self.old.text.seats) }
        ensures same { OnFalse result (self.new ≡ self.old) }
        ensures end { OnFalse result (length self.old.text.seats ≤ self.old.configuration.position) }
    {
        let bytes = self.parse_state.bytes;
        match next_byte_from(bytes, &self.skips, &self.after_previous, self.end) {
            None => false,
            Some(byte) => {
                self.byte = byte;
                self.waits = Waits::Byte;
                self.moves = Moves::Other;
                true
            }
        }
    }
}
