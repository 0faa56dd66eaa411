//! The tokenizer: it feeds the virtual bytes of a document to the states of a machine.
//!
//! This module has the tokenizer and the calls that states make. `paths` has the fast and slow paths of those that each byte or span
//! needs. `running` calls the states, `resolve` runs resolvers, `look` has the calls that only read, `noted` those of a place that is noted, `state` has what states share, and
//! `copy` copies a tokenizer.

mod copy;
mod fault;
mod look;
mod moved;
mod noted;
mod paths;
mod resolve;
mod running;
mod state;

use crate::count::Calls;
use crate::cursor::{Moves, is_after, shown};
use crate::parser::ParseState;
use crate::places::bytes_are_below_256;
pub use crate::places::{cuts_every, point_at};
pub use crate::ranges::{AfterGap, follow_on};
use crate::skips::Skips;
use crate::state::{MachineTypes, Name as StateName, State};
use crate::subtokenize;
pub use crate::tokenizer::fault::Fault;
pub use crate::tokenizer::noted::Noted;
use crate::tokenizer::paths::{put_enter, put_exit, with_room};
pub use crate::tokenizer::running::run;
pub use crate::tokenizer::state::{
    Container, ContainerState, Label, LabelKind, LabelStart, TokenizeState,
};
use crate::util::edit_map::EditMap;
use crate::waiting::{AttemptKind, GoesOn, KeptChoice, Phase, Progress, Waits};
use markdown_base::event::{Event, Link, Name, Point};
use std::alloc::{AllocError, Global};
use std::marker::Model;

/// The tokenizer.
///
/// It is given ranges of a document and a state of its machine, and reads until a range is used up. When it is flushed,
/// the end of the input is fed. Contracts see what a reading sees: the text, how much of it was read, the events, and
/// what else states share.
#[derive(Drop)]
pub struct Tokenizer<'a, M: MachineTypes> {
    /// Whether what is read may interrupt another construct, as a list item a paragraph. Machines write it; the engine
    /// does not.
    pub interrupt: bool,
    /// Whether what is read cannot be interrupted, as fenced code. Machines write it; the engine does not.
    pub concrete: bool,
    /// Whether a lazy line is pierced.
    pub pierce: bool,
    /// Whether the line is lazy.
    pub lazy: bool,
    /// Edits of the events, which wait until they are consumed.
    pub map: EditMap,
    /// Where the text starts.
    start: Point,
    /// Where the text ends: byte index and number in a tab.
    end: (usize, usize),
    /// The gaps: up to where beginnings of lines are passed.
    skips: Skips,
    /// The place after the byte before, or the start.
    after_previous: Point,
    // These five are next to one another in this order, as each byte changes all of them: some of the writes become one.
    /// Whether the end was fed here.
    ended: bool,
    /// What waits.
    waits: Waits,
    /// How the place after the byte before moves over the byte that waits.
    moves: Moves,
    /// The byte before.
    previous: Option<u8>,
    /// The byte that waits, if one does.
    byte: u8,
    /// An index up to which bytes are before the end of the text. If the place after the byte before has a smaller one, it is in no
    /// tab, and no gap begins there.
    plain_until: usize,
    /// The bytes of the document, those of `parse_state`. They are here too because each byte that is fed needs them.
    bytes: &'a [u8],
    /// The events so far.
    events: Vec<Event>,
    /// The names of the open spans, the innermost last.
    stack: Vec<Name>,
    /// The resolvers that were registered.
    resolvers: Vec<M::Resolver>,
    /// The waiting choices, the last one last.
    kept_choices: Vec<KeptChoice>,
    /// The tab size of the options, copied here as each byte that is consumed needs it.
    tab_size: usize,
    /// Whether nothing more can be pushed: it ran out of memory, or the end was fed.
    closed: bool,
    /// Whether a flush resolves, or has resolved.
    phase: Phase,
    /// The place that was noted last.
    noted: Noted,
    /// How many states were called. Only contracts see it.
    calls: Calls,
    // The fields with the longest types are last: a proof about a borrowed field spells out the fields before it.
    /// The document, the options and the machine.
    parse_state: &'a ParseState<'a, M>,
    /// What states share.
    pub tokenize_state: TokenizeState<M::Document>,
}

impl<'a, M: MachineTypes> Model for Tokenizer<'a, M> {
    ghost use Rattle.markdown_tokenizer.specs.Configuration.{TokenizerValue};

    ghost Value = { TokenizerValue M M.Resolver M.Document };

    ghost use Rattle.markdown_tokenizer.specs.View.{seen, IsSound};

    ghost view = { seen };

    ghost invariant = { IsSound M.Resolver.eq };
}

ghost use Rattle.std.specs.Prelude.{◌≡◌, ◌+◌, ◌-◌, ◌≤◌, OnOk, OnErr, None, Some};
ghost use Rattle.markdown_base.specs.Places.{IsPointOf};
ghost use Rattle.markdown_tokenizer.specs.Text.{FitsAfter, followed_by, passed, empty_text, IsDocument};
ghost use Rattle.markdown_tokenizer.specs.Configuration.{at_configuration, start_seen};
ghost use Rattle.markdown_base.specs.declared.state.State.TheVariants.{Next};
ghost use Rattle.markdown_edits.specs.Links.{CanLink, linked_to};
ghost use Rattle.markdown_tokenizer.specs.Calls.{consumed, linked, with_enter, with_exit, attempt_at, check_at, with_choice, CanExit, CanGoOn};
ghost use Rattle.markdown_tokenizer.specs.Engine.{given_of};
ghost use Rattle.markdown_tokenizer.specs.Noted.{IsNoted, CanExitAt, with_enter_at, with_exit_at};
ghost use Rattle.markdown_tokenizer.specs.View.{state_of, choice_at};

/// As `link_to`, on a `Vec`.
fn link_items(events: &mut Vec<Event>, previous: usize, next: usize)
    requires can_link { CanLink events.old.items previous next }
    ensures { events.new.items ≡ linked_to previous next events.old.items }
{
    subtokenize::link_to(events.as_mut_slice(), previous, next);
}

impl<'a, M: MachineTypes> Tokenizer<'a, M> {
    /// A tokenizer that has read nothing, from this place of the document on. Takes no memory.
    ///
    /// The point must be the point of a place of the document.
    pub fn new(alloc: Global, point: Point, parse_state: &'a ParseState<'a, M>) -> Self
        requires place { IsPointOf parse_state.now.options.now.tab_size parse_state.now.bytes.now point }
        ensures start { result ≡ start_seen (given_of parse_state.now) parse_state.now.machine.now (empty_text point) }
        ensures document { IsDocument (given_of parse_state.now) }
    {
        bytes_are_below_256(parse_state.bytes);
        let tab_size = parse_state.options.tab_size.get();
        let tokenize_state = TokenizeState::new(alloc);
        let map = EditMap::new(alloc);
        let events = Vec::new(alloc);
        let stack = Vec::new(alloc);
        let resolvers = Vec::new(alloc);
        let kept_choices = Vec::new(alloc);
        let skips = Skips::new(alloc);
        let calls = Calls::new();
        Tokenizer {
            tokenize_state,
            interrupt: false,
            concrete: false,
            pierce: false,
            lazy: false,
            map,
            parse_state,
            start: point,
            end: (point.index, point.vs),
            skips,
            after_previous: point,
            ended: false,
            waits: Waits::Nothing,
            moves: Moves::Other,
            previous: None,
            byte: 0,
            plain_until: 0,
            bytes: parse_state.bytes,
            events,
            stack,
            resolvers,
            kept_choices,
            tab_size,
            closed: false,
            phase: Phase::Reading,
            noted: Noted::START,
            calls,
        }
    }

    /// Begins anew: becomes what [`Tokenizer::new`] gives, but keeps the memory of its lists for what is read next. Takes no memory.
    ///
    /// The point must be the point of a place of the document.
    pub fn restart(&mut self, point: Point, parse_state: &'a ParseState<'a, M>)
        requires place { IsPointOf parse_state.now.options.now.tab_size parse_state.now.bytes.now point }
        ensures start { self.new ≡ start_seen (given_of parse_state.now) parse_state.now.machine.now (empty_text point) }
    {
        bytes_are_below_256(parse_state.bytes);
        self.tab_size = parse_state.options.tab_size.get();
        self.parse_state = parse_state;
        self.bytes = parse_state.bytes;
        self.tokenize_state.reset();
        self.map.clear();
        self.skips.clear();
        self.events.clear();
        self.stack.clear();
        self.resolvers.clear();
        self.kept_choices.clear();
        self.interrupt = false;
        self.concrete = false;
        self.pierce = false;
        self.lazy = false;
        self.start = point;
        self.end = (point.index, point.vs);
        self.after_previous = point;
        self.ended = false;
        self.waits = Waits::Nothing;
        self.moves = Moves::Other;
        self.previous = None;
        self.byte = 0;
        self.plain_until = 0;
        self.closed = false;
        self.phase = Phase::Reading;
        self.noted = Noted::START;
        self.calls = Calls::new();
    }

    /// Counts a call. The count takes no bytes, and only contracts see it.
    pub fn tick(&mut self)
        ensures { self.new ≡ record self.old { calls = self.old.calls + 1 } }
    {
        self.calls = self.calls.next();
    }

    /// Consumes the byte that waits. Takes no memory.
    ///
    /// Bytes are virtual: a line ending is one LF, and a tab is the tab byte and then spaces, one virtual byte for each
    /// of its columns. `point().vs` is the number of one of them.
    #[inline(always)]
    pub fn consume(&mut self)
        requires { self.old.configuration.waiting ≡ Waits.Byte }
        ensures { self.new ≡ at_configuration self.old (consumed self.old.configuration) }
    {
        if !self.consume_plain() {
            self.consume_known();
        }
    }

    /// Begins a span: adds an enter at the current place, as it is shown (a CR LF at its CR). If it runs out of memory,
    /// events and stack stay as they were.
    pub fn enter(&mut self, name: Name) -> Result<(), AllocError>
        ensures ok { OnOk result (self.new ≡ with_enter name None self.old) }
        ensures err { OnErr result (self.new ≡ self.old) }
    {
        if self.enter_fast(name, None) {
            return Ok(());
        }
        self.enter_slow_unlinked(name)
    }

    /// As `enter`, with a link. If it runs out of memory, events and stack stay as they were.
    pub fn enter_link(&mut self, name: Name, link: Link) -> Result<(), AllocError>
        ensures ok { OnOk result (self.new ≡ with_enter name (Some link) self.old) }
        ensures err { OnErr result (self.new ≡ self.old) }
    {
        if self.enter_fast(name, Some(link)) {
            return Ok(());
        }
        self.enter_slow(name, Some(link))
    }

    /// Ends the innermost span: an exit at the place after the byte before.
    ///
    /// `name` must be the name of the innermost span, and a byte was consumed since it began. A void span holds no
    /// event. If it runs out of memory, events and stack stay as they were.
    pub fn exit(&mut self, name: Name) -> Result<(), AllocError>
        requires { CanExit name self.old }
        ensures ok { OnOk result (self.new ≡ with_exit name self.old) }
        ensures err { OnErr result (self.new ≡ self.old) }
    {
        if self.exit_fast(name) {
            return Ok(());
        }
        self.exit_slow(name)
    }

    /// As `exit`, but the exit is at a place that was noted before (`exit_place`), and no event is after that. If it runs out of memory, events
    /// and stack stay as they were.
    pub fn exit_at(&mut self, name: Name, point: Point) -> Result<(), AllocError>
        requires noted { IsNoted point self.old }
        requires ends { CanExitAt name point self.old }
        ensures ok { OnOk result (self.new ≡ with_exit_at name point self.old) }
        ensures err { OnErr result (self.new ≡ self.old) }
    {
        with_room(&mut self.events)?;
        put_exit(&mut self.events, &mut self.stack, name, point);
        Ok(())
    }

    /// As `enter`, but the enter is at a place that was noted before (`exit_place`), and no event is after that. If it runs out of memory,
    /// events and stack stay as they were.
    pub fn enter_at(&mut self, name: Name, point: Point) -> Result<(), AllocError>
        requires noted { IsNoted point self.old }
        ensures ok { OnOk result (self.new ≡ with_enter_at name point self.old) }
        ensures err { OnErr result (self.new ≡ self.old) }
    {
        with_room(&mut self.events)?;
        self.stack.reserve(1)?;
        put_enter(&mut self.events, &mut self.stack, name, point, None);
        Ok(())
    }

    /// Links the event at `index`, an index into the events, to the one two places before it, as `link_to` does. Takes no memory.
    pub fn link(&mut self, index: usize)
        requires behind { 2 ≤ index }
        requires can_link { CanLink self.old.configuration.events (index - 2) index }
        ensures { self.new ≡ at_configuration self.old (linked (index - 2) index self.old.configuration) }
    {
        self.link_to(index - 2, index);
    }

    /// Links two events, given by their indices: `next` becomes the next of `previous`, and that one its previous. Takes no memory.
    ///
    /// Both are enters of void spans with links of the same content. `previous` is before `next`, and directly followed by its
    /// exit.
    pub fn link_to(&mut self, previous: usize, next: usize)
        requires can_link { CanLink self.old.configuration.events previous next }
        ensures { self.new ≡ at_configuration self.old (linked previous next self.old.configuration) }
    {
        link_items(&mut self.events, previous, next);
    }

    /// Begins a choice: what is read from here on may be taken back.
    ///
    /// A state that returns `Ok` or `Nok` ends the last choice that waits. After `Ok` this choice goes on with `ok`,
    /// from the place reached. After `Nok` it goes back to this place and goes on with `nok`: the position, the number
    /// of events and the open spans are as now. `tokenize_state`, `map`, the flags, the registered resolvers and link
    /// ends of events are not put back.
    ///
    /// If `nok` is [`State::Nok`], nothing is saved: the enclosing choice then fails too, and restores its own save.
    /// `ok` and `nok` are each `Next`, `Ok` or `Nok`. If it runs out of memory, nothing changes.
    pub fn attempt(&mut self, ok: State, nok: State) -> Result<(), AllocError>
        requires ok { CanGoOn ok }
        requires nok { CanGoOn nok }
        ensures ok { OnOk result (self.new ≡ with_choice self.old (attempt_at ok nok self.old.configuration)) }
        ensures err { OnErr result (self.new ≡ self.old) }
    {
        let nok = GoesOn::of(nok);
        let saves = !matches!(nok, GoesOn::Nok);
        self.push_choice(AttemptKind::Attempt, GoesOn::of(ok), nok, saves)
    }

    /// As `attempt`, with two states that are called next: `ok` after `Ok`, and `nok` after `Nok`. If it runs out of memory, nothing changes.
    pub fn attempt_next(&mut self, ok: StateName, nok: StateName) -> Result<(), AllocError>
        ensures ok { OnOk result (self.new ≡ with_choice self.old (attempt_at (Next ok) (Next nok) self.old.configuration)) }
        ensures err { OnErr result (self.new ≡ self.old) }
    {
        let (ok, nok) = (GoesOn::Next(ok), GoesOn::Next(nok));
        self.push_choice(AttemptKind::Attempt, ok, nok, true)
    }

    /// As `attempt`, but only looks ahead: it goes back to this place after `Ok` too, and goes on with `ok`.
    pub fn check(&mut self, ok: State, nok: State) -> Result<(), AllocError>
        requires ok { CanGoOn ok }
        requires nok { CanGoOn nok }
        ensures ok { OnOk result (self.new ≡ with_choice self.old (check_at ok nok self.old.configuration)) }
        ensures err { OnErr result (self.new ≡ self.old) }
    {
        self.push_choice(AttemptKind::Check, GoesOn::of(ok), GoesOn::of(nok), true)
    }

    /// Adds a waiting choice. If it runs out of memory, nothing changes.
    fn push_choice(
        &mut self,
        kind: AttemptKind,
        ok: GoesOn,
        nok: GoesOn,
        saves: bool,
    ) -> Result<(), AllocError>
        ensures ok { OnOk result (self.new ≡ with_choice self.old (choice_at kind (state_of ok) (state_of nok) saves self.old.configuration)) }
        ensures err { OnErr result (self.new ≡ self.old) }
    {
        let saved = if saves {
            Some(Progress {
                after_previous: self.after_previous,
                previous: self.previous,
                ended: self.ended,
                events_len: self.events.len(),
                stack_len: self.stack.len(),
            })
        } else {
            None
        };
        self.kept_choices.push(KeptChoice {
            kind,
            ok,
            nok,
            saved,
        })?;
        Ok(())
    }

    /// Passes a gap. If the text ends at the beginning of a line, the bytes from there to `point`, a later place of the
    /// line, are never read.
    ///
    /// A point that denotes the text's end changes nothing. No other point is allowed. The call `point` returns the
    /// beginning of the line until a byte, or the end, is fed. If it runs out of memory, nothing changes.
    pub fn define_skip(&mut self, point: Point) -> Result<(), AllocError>
        requires { FitsAfter self.old.given self.old.text (passed point) }
        ensures ok { OnOk result (self.new ≡ record self.old { text = followed_by self.old.given self.old.text (passed point) }) }
        ensures err { OnErr result (self.new ≡ self.old) }
    {
        if is_after(shown(self.parse_state.bytes, point), self.end) {
            self.skips.push(point)?;
            self.end = (point.index, point.vs);
            self.plain_until = 0;
            self.moves = Moves::Other;
        }
        Ok(())
    }
}
