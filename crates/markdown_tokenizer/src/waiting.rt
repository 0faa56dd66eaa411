//! What waits in a tokenizer: a byte, the end, or choices.

use markdown_base::event::{self, Event, Point};
use markdown_base::state::{Name, State};

/// What waits to be read.
#[derive(Clone, Copy, Debug, PartialEq, Eq)]
pub enum Waits {
    /// Nothing: the next byte is not fed yet.
    Nothing,
    /// A byte.
    Byte,
    /// The end of the text.
    End,
}

/// Whether a choice goes back after `Ok`.
#[derive(Clone, Copy, Debug, PartialEq, Eq)]
pub enum AttemptKind {
    /// It goes back only after `Nok`.
    Attempt,
    /// It goes back after `Ok` and after `Nok`.
    Check,
}

/// What a tokenizer does.
#[derive(Clone, Copy, Debug, PartialEq, Eq)]
pub enum Phase {
    /// It reads, or has read all.
    Reading,
    /// All was read, and resolvers go over the events.
    Resolving,
    /// Resolvers have gone over the events.
    Resolved,
}

/// What a choice goes on with: `Next`, `Ok` or `Nok`. Contracts see the [`State`] (`state_of`).
#[derive(Clone, Copy)]
pub(crate) enum GoesOn {
    /// This state, with the next byte.
    Next(Name),
    /// The enclosing choice ends with `Ok`.
    Ok,
    /// The enclosing choice ends with `Nok`.
    Nok,
}

impl GoesOn {
    ghost use Rattle.std.specs.Prelude.{◌≡◌};
    ghost use Rattle.markdown_tokenizer.specs.Calls.{CanGoOn};
    ghost use Rattle.markdown_tokenizer.specs.View.{state_of};

    /// Makes it of a state that is `Next`, `Ok` or `Nok`.
    pub(crate) fn of(state: State) -> GoesOn
        requires { CanGoOn state }
        ensures { state_of result ≡ state }
    {
        match state {
            State::Next(name) => GoesOn::Next(name),
            State::Ok => GoesOn::Ok,
            State::Nok => GoesOn::Nok,
            State::Retry(_) => unreachable!(),
            State::Error(_) => unreachable!(),
        }
    }

    /// The state that means the same.
    pub(crate) fn state(self) -> State
        ensures { result ≡ state_of self }
    {
        match self {
            GoesOn::Next(name) => State::Next(name),
            GoesOn::Ok => State::Ok,
            GoesOn::Nok => State::Nok,
        }
    }
}

/// How far a text was read, as a choice saves it.
#[derive(Clone, Copy)]
pub(crate) struct Progress {
    /// The place after the byte before.
    pub(crate) after_previous: Point,
    /// The byte before.
    pub(crate) previous: Option<u8>,
    /// Whether the end was fed.
    pub(crate) ended: bool,
    /// How many events there were.
    pub(crate) events_len: usize,
    /// How many spans were open.
    pub(crate) stack_len: usize,
}

/// A waiting choice as the tokenizer keeps it. Contracts see the choice that it means (`choice_of`): that one has a number of
/// bytes read and a list of open spans, and this one a place and a length of the stack.
#[derive(Clone, Copy)]
pub(crate) struct KeptChoice {
    /// Whether it goes back after `Ok`.
    pub(crate) kind: AttemptKind,
    /// What it goes on with after `Ok`.
    pub(crate) ok: GoesOn,
    /// What it goes on with after `Nok`.
    pub(crate) nok: GoesOn,
    /// What it puts back, if it saved something.
    pub(crate) saved: Option<Progress>,
}

impl KeptChoice {
    ghost use Rattle.std.specs.Prelude.{◌≡◌};
    ghost use Rattle.markdown_tokenizer.specs.Unwound.{continuation_of, saved_for};

    /// What it goes on with.
    pub(crate) fn continuation(&self, ok: bool) -> GoesOn
        ensures { result ≡ continuation_of self.now ok }
    {
        if ok { self.ok } else { self.nok }
    }

    /// What it puts back.
    pub(crate) fn saved_for(&self, ok: bool) -> Option<Progress>
        ensures { result ≡ saved_for self.now ok }
    {
        if ok && self.kind == AttemptKind::Attempt {
            None
        } else {
            self.saved
        }
    }
}

ghost use Rattle.std.specs.Prelude.{◌≡◌, length, reverse, take};
ghost use Rattle.markdown_tokenizer.specs.Unwound.{unwound, ended_by, unwinding, progress_at, AreWithin};

/// Ends choices, the last first, until one goes on with a state, or none is left. Returns what to go on with.
///
/// A choice that goes back puts back what it saved, in place: the place, the byte before it, whether the end was fed, and how many
/// events and open spans there were.
#[inline(always)]
pub(crate) fn unwind(
    kept_choices: &mut Vec<KeptChoice>,
    ok: bool,
    after_previous: &mut Point,
    previous: &mut Option<u8>,
    ended: &mut bool,
    events: &mut Vec<Event>,
    stack: &mut Vec<event::Name>,
) -> GoesOn
    requires within { AreWithin events.old.items stack.old.items (reverse kept_choices.old.items) }
    ensures ends { unwinding (reverse kept_choices.new.items) result (progress_at after_previous.new previous.new ended.new events.new.items stack.new.items)
        ≡ unwound (reverse kept_choices.old.items) (ended_by ok) (progress_at after_previous.old previous.old ended.old events.old.items stack.old.items) }
    ensures events { events.new.items ≡ take (length events.new.items) events.old.items }
    ensures stack { stack.new.items ≡ take (length stack.new.items) stack.old.items }
{
    let mut continuation = if ok { GoesOn::Ok } else { GoesOn::Nok };
    loop {
        let ok = match continuation {
            GoesOn::Next(_) => return continuation,
            GoesOn::Ok => true,
            GoesOn::Nok => false,
        };
        match kept_choices.pop() {
            None => return continuation,
            Some(choice) => {
                continuation = choice.continuation(ok);
                match choice.saved_for(ok) {
                    None => {}
                    Some(saved) => {
                        *after_previous = saved.after_previous;
                        *previous = saved.previous;
                        *ended = saved.ended;
                        events.truncate(saved.events_len);
                        stack.truncate(saved.stack_len);
                    }
                }
            }
        }
    }
}
