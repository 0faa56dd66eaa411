//! The work of a tokenizer: it calls states until a range is used up, or until the reading has ended.

ghost use Rattle.std.specs.Prelude.{◌≡◌, ◌≢◌, ◌≤◌, ◌<◌, ◌+◌, ◌-◌, ◌^◌, ℕ, slice_index, Contains, length, [], Option, false, true, IfOk, IfErr, IfSome, IsErrOf, IsTrue};
ghost use Rattle.markdown_tokenizer.specs.Over.{AreOverUpto, AreReadOver, HasReadOver, IsByteOver, IsPairOver, noted_upto};
ghost use Rattle.std.specs.Bool.{OnTrue};
ghost use Rattle.markdown_base.specs.Virtual.{point};
ghost use Rattle.markdown_tokenizer.specs.declared.waiting.Waits.TheVariants.{Nothing, End};
ghost use Rattle.markdown_tokenizer.specs.Configuration.{at_configuration, start_seen};
ghost use Rattle.markdown_tokenizer.specs.Engine.{HoldsOf, CanPush, IsPushed, IsFlushed, IsRefused, AreCuts, IsRun, IsRunOf, IsRunRefused, ForPoints, IsWellFormed, given_of};
ghost use Rattle.markdown_tokenizer.specs.Fault.{IfMessage};
ghost use Rattle.markdown_tokenizer.specs.Lawful.{DidStep, step_of};
ghost use Rattle.markdown_tokenizer.specs.Reading.{fed};
ghost use Rattle.markdown_tokenizer.specs.Resolving.{found, taken};
ghost use Rattle.markdown_tokenizer.specs.Text.{IsDocument, IsText, empty_text, followed_by, pushed};
ghost use Rattle.markdown_tokenizer.specs.View.{taken_continuation};
ghost use Rattle.markdown_tokenizer.specs.Work.{IsInText, extended, answer_of, HoldsAll, LeadsAll, ComesTo, OnlyWorked, Stops, settled_all, EndsClosed, GoesOnTo, taken_up, taken_by_next};

use super::{Fault, Noted, Tokenizer};
use crate::cursor::{Moves, next_byte_from, pass_over, plain_until, quick_byte};
use crate::parser::ParseState;
use crate::state::{ByteSet, Machine, MachineTypes, Name, State};
use crate::subtokenize::Subresult;
use crate::waiting::{GoesOn, Phase, Waits, unwind};
use markdown_base::event::{Event, Point};
use markdown_base::owned::Items;
use std::alloc::{AllocError, Global};
use std::mem::replace;

/// Reads a whole document, cut at these places: pushes a range up to each cut, and one up to the end, and flushes.
///
/// `start` is a state with which the machine may start. The cuts are places, each a byte index and a number in a tab, in an
/// order that never decreases. If `resolve` is true, the registered resolvers then run over the events, as in a flush. The
/// result does not depend on the cuts.
///
/// Returns `Message` exactly if the reading, or a resolver, ends in that message. Returns `Memory` if it runs out of memory,
/// and never `Failed`.
pub fn run<M: Machine>(
    alloc: Global,
    parse_state: &ParseState<M>,
    start: Name,
    cuts: &[(usize, usize)],
    resolve: bool,
) -> Result<(Vec<Event>, Subresult), Fault>
    requires start { Contains (M.rules parse_state.now.machine.now (given_of parse_state.now)).starts start }
    requires cuts { AreCuts parse_state.now.options.now.tab_size parse_state.now.bytes.now cuts.now }
    ensures ok { let p = parse_state.now in IfOk result (λ r. IsRun (given_of p) (M.rules p.machine.now) resolve start r.0.items r.1) }
    ensures message { let p = parse_state.now in IfMessage result (IsRunRefused (given_of p) (M.rules p.machine.now) resolve start) }
    ensures err { IfErr result (λ fault. fault ≢ Fault.Failed) }
{
    let mut tokenizer = Tokenizer::new(alloc, Point::START, parse_state);
    let sub = read_cut(&mut tokenizer, parse_state, start, cuts, resolve);
    let events = tokenizer.into_events();
    Ok((events, sub?))
}

/// Pushes one range up to each cut, and one up to the end, to a tokenizer that has read nothing, and flushes it.
///
/// The early returns by `?` are here and not in [`run`]. `run` owns the tokenizer: each of its returns drops all fields, and
/// the proof follows every drop.
fn read_cut<M: Machine>(
    tokenizer: &mut Tokenizer<M>,
    parse_state: &ParseState<M>,
    start: Name,
    cuts: &[(usize, usize)],
    resolve: bool,
) -> Result<Subresult, Fault>
    requires begins { tokenizer.old ≡ start_seen (given_of parse_state.now) parse_state.now.machine.now (empty_text (point 1 1 0 0)) }
    requires document { IsDocument (given_of parse_state.now) }
    requires start { Contains (M.rules parse_state.now.machine.now (given_of parse_state.now)).starts start }
    requires cuts { AreCuts parse_state.now.options.now.tab_size parse_state.now.bytes.now cuts.now }
    ensures ok { let p = parse_state.now in IfOk result (IsRunOf (given_of p) (M.rules p.machine.now) resolve start tokenizer.new) }
    ensures message { let p = parse_state.now in IfMessage result (IsRunRefused (given_of p) (M.rules p.machine.now) resolve start) }
    ensures err { IfErr result (λ fault. fault ≢ Fault.Failed) }
{
    let mut state = State::Next(start);
    let mut from = (0, 0);
    for cut in cuts {
        state = tokenizer.push(from, *cut, state)?;
        from = *cut;
    }
    let end = (parse_state.bytes.len(), 0);
    let state = tokenizer.push(from, end, state)?;
    tokenizer.flush(state, resolve)
}

/// Up to which index a state reads over whole blocks of 16 bytes from one index on, as far as the machine tells it of a block. It is at most
/// `until`, if that is not before `from`; else it is `from`.
#[inline(always)]
fn over_blocks<M: Machine>(
    machine: &M,
    name: Name,
    bytes: &[u8],
    from: usize,
    until: usize,
) -> usize
    requires inside { until ≤ length bytes.now }
    ensures from { from ≤ result }
    ensures until { from < result → result ≤ until }
    ensures over { (k : ℕ) → from ≤ k → k < result → IsByteOver (M.rules machine.now) name (slice_index bytes.now k) }
{
    let mut at = from;
    while at < until && until - at >= 16 {
        if !machine.reads_over_all(name, &bytes[at..at + 16]) {
            return at;
        }
        at += 16;
    }
    at
}

/// Up to which index a state reads over the bytes from one index on, and the index of the last of them that it notes. It is at most `until`, if
/// that is not before `from`; else it is `from`.
///
/// The machine says once which bytes these are, so that the loops only look each byte up, and blocks of them at once where it can.
#[inline(always)]
fn over_until<M: Machine>(
    machine: &M,
    name: Name,
    bytes: &[u8],
    from: usize,
    until: usize,
) -> (usize, Option<usize>)
    requires inside { until ≤ length bytes.now }
    ensures from { from ≤ result.0 }
    ensures until { from < result.0 → result.0 ≤ until }
    ensures over { AreOverUpto (M.rules machine.now) name bytes.now from result.0 result.1 }
{
    let Some(over) = machine.reads_over(name) else {
        return (from, None);
    };
    let at = over_blocks(machine, name, bytes, from, until);
    over_from(machine, name, bytes, from, at, until, over)
}

/// As `over_until`, by bytes of this set, and by two bytes of which the machine notes the first, from a later index on.
#[inline(always)]
fn over_from<M: Machine>(
    machine: &M,
    name: Name,
    bytes: &[u8],
    from: usize,
    later: usize,
    until: usize,
    over: &ByteSet,
) -> (usize, Option<usize>)
    requires inside { until ≤ length bytes.now }
    requires later { from ≤ later }
    requires before { from < later → later ≤ until }
    requires read { (k : ℕ) → from ≤ k → k < later → IsByteOver (M.rules machine.now) name (slice_index bytes.now k) }
    requires over { AreReadOver (M.rules machine.now) name over.now }
    ensures from { from ≤ result.0 }
    ensures until { from < result.0 → result.0 ≤ until }
    ensures over { AreOverUpto (M.rules machine.now) name bytes.now from result.0 result.1 }
{
    let mut at = later;
    let mut last = None;
    while at < until {
        if over[bytes[at] as usize] {
            at += 1;
        } else if until - at >= 2 && is_pair_over(machine, name, bytes[at], bytes[at + 1]) {
            last = Some(at);
            at += 2;
        } else {
            return (at, last);
        }
    }
    (at, last)
}

/// Whether a state notes one byte and reads over it and the one behind it, as the machine says.
#[inline(always)]
fn is_pair_over<M: Machine>(machine: &M, name: Name, byte: u8, next: u8) -> bool
    ensures { OnTrue result (IsPairOver (M.rules machine.now) name byte next) }
{
    match machine.notes_over(name) {
        Some((noted, behind)) => noted[byte as usize] && behind[next as usize],
        None => false,
    }
}

/// What is noted once bytes were read over from this place on: the place of the last of them that was, if one was.
#[inline(always)]
fn noted_upto(last: Option<usize>, place: &Point, noted: Noted) -> Noted
    requires from { IfSome last (λ n. place.now.index ≤ n) }
    requires column { IfSome last (λ n. place.now.column + (n - place.now.index) < 2 ^ 64) }
    requires flat { place.now.vs ≡ 0 }
    ensures { result ≡ noted_upto last place.now noted }
{
    match last {
        None => noted,
        Some(last) => {
            let mut place = *place;
            let passed = last - place.index;
            pass_over(&mut place, passed);
            Noted {
                exit: place,
                enter: place,
            }
        }
    }
}

impl<'a, M: MachineTypes> Tokenizer<'a, M> {
    /// Feeds the end.
    fn feed_end(&mut self)
        requires read { length self.old.text.seats ≤ self.old.configuration.position }
        requires closed { self.old.closed ≡ true }
        ensures { self.new ≡ at_configuration self.old (fed self.old.text self.old.configuration) }
    {
        self.waits = Waits::End;
        self.ended = true;
    }

    /// Feeds the next byte; or the end, if there is none and this is a flush. Returns whether it fed one of them.
    #[inline(always)]
    fn feed_next(&mut self, flush: bool) -> bool
        requires closed { self.old.closed ≡ flush }
        ensures { (name : _) → GoesOnTo flush self.old (State.Next name) self.new (taken_by_next result name) }
    {
        if self.feed() {
            return true;
        }
        if flush {
            self.feed_end();
        }
        flush
    }

    /// Ends choices, the last first, until one goes on with a state, which is fed. If no choice is left, no span is open. If
    /// the work ends, returns the state in which it ends.
    ///
    /// This must be one step: between its parts an enter could be put before an event that is there.
    #[inline(never)]
    fn go_on(&mut self, flush: bool, ok: bool) -> Result<Name, GoesOn>
        requires closed { self.old.closed ≡ flush }
        requires ends { EndsClosed (settled_all self.old.configuration self.old.choices (answer_of ok)) }
        ensures { GoesOnTo flush self.old (answer_of ok) self.new (taken_continuation result) }
    {
        if self.kept_choices.is_empty() {
            let last = if ok { GoesOn::Ok } else { GoesOn::Nok };
            return Err(last);
        }
        let continuation = unwind(
            &mut self.kept_choices,
            ok,
            &mut self.after_previous,
            &mut self.previous,
            &mut self.ended,
            &mut self.events,
            &mut self.stack,
        );
        self.waits = Waits::Nothing;
        self.plain_until = plain_until(&self.skips, &self.after_previous, self.end.0);
        self.moves = Moves::Other;
        let name = match continuation {
            GoesOn::Next(name) => name,
            GoesOn::Ok => return Err(GoesOn::Ok),
            GoesOn::Nok => return Err(GoesOn::Nok),
        };
        let next = quick_byte(
            self.bytes,
            &self.tab_size,
            &self.after_previous,
            self.plain_until,
            self.end.0,
        );
        match next {
            Some((byte, moves)) => {
                self.waits = Waits::Byte;
                self.byte = byte;
                self.moves = moves;
                return Ok(name);
            }
            None => {}
        }
        let bytes = self.parse_state.bytes;
        match next_byte_from(bytes, &self.skips, &self.after_previous, self.end) {
            Some(byte) => {
                self.waits = Waits::Byte;
                self.byte = byte;
                Ok(name)
            }
            None if flush => {
                self.waits = Waits::End;
                self.ended = true;
                Ok(name)
            }
            None => Err(GoesOn::Next(name)),
        }
    }

    /// A tokenizer has read no more than its text.
    ///
    /// It does nothing. It is called where a proof needs this fact and no field is used: only a use of a field opens the invariant,
    /// from which the fact comes.
    fn shows_in_text(&self)
        ensures { IsInText self.now }
    {
        let _ = &self.after_previous;
    }

    /// If no span is open, the events are well formed, until a flush resolves.
    ///
    /// It does nothing, and is called as `shows_in_text` is.
    fn shows_events(&self)
        ensures { let t = self.now in t.phase ≡ Phase.Reading → t.configuration.stack ≡ [] → IsWellFormed t.given t.configuration.events }
    {
        let _ = &self.after_previous;
    }

    /// From now on nothing more can be pushed.
    fn close(&mut self)
        ensures { self.new ≡ record self.old { closed = true } }
    {
        self.closed = true;
    }

    /// Whether nothing more can be pushed.
    fn is_closed(&self) -> bool
        ensures { result ≡ self.now.closed }
    {
        self.closed
    }

    /// The allocator of its lists.
    pub(crate) fn allocator(&self) -> Global {
        *self.events.allocator()
    }

    /// Puts a range at the end of the text.
    fn extend(&mut self, from: (usize, usize), to: (usize, usize))
        requires range { CanPush self.old.given self.old.text from to }
        requires open_still { self.old.closed ≡ false }
        ensures { let t = self.old in
            ForPoints t.given from to (λ f l. self.new ≡ extended t (followed_by t.given t.text (pushed f l))) }
    {
        self.end = to;
        self.plain_until = plain_until(&self.skips, &self.after_previous, to.0);
    }

    /// Takes out the definitions that states found. Takes no memory.
    fn take_definitions(&mut self) -> Subresult
        ensures answer { result ≡ found self.old.configuration }
        ensures rest { self.new ≡ at_configuration self.old (taken self.old.configuration) }
    {
        let alloc = self.allocator();
        let definitions = replace(&mut self.tokenize_state.definitions, Items::new(alloc));
        let gfm_footnote_definitions = replace(
            &mut self.tokenize_state.gfm_footnote_definitions,
            Items::new(alloc),
        );
        Subresult {
            done: false,
            gfm_footnote_definitions,
            definitions,
        }
    }

    /// The events; the tokenizer is dropped. Takes no memory.
    pub fn into_events(self) -> Vec<Event>
        ensures { result.items ≡ self.entry.configuration.events }
    {
        let mut tokenizer = self;
        let events = tokenizer.take_events();
        // Dropped as a whole, by a call: else the proof follows each of its fields.
        drop(tokenizer);
        events
    }

    /// Takes out the events. The tokenizer that is left has no events, and so neither open spans nor choices. Takes no
    /// memory.
    fn take_events(&mut self) -> Vec<Event>
        ensures { result.items ≡ self.old.configuration.events }
    {
        let none = Vec::new(self.allocator());
        self.stack.clear();
        self.kept_choices.clear();
        replace(&mut self.events, none)
    }
}

impl<'a, M: Machine> Tokenizer<'a, M> {
    /// Feeds the state that is called next, and returns its name. Returns `None` if the work ends; then `state` is the state
    /// in which it ends.
    #[inline(always)]
    fn next_call(&mut self, flush: bool, state: &mut State) -> Option<Name>
        requires closed { self.old.closed ≡ flush }
        requires ends { EndsClosed (settled_all self.old.configuration self.old.choices state.old) }
        ensures { GoesOnTo flush self.old state.old self.new (taken_up result state.new) }
    {
        let ok = match state {
            State::Next(name) => {
                let name = *name;
                return if self.feed_next(flush) {
                    Some(name)
                } else {
                    None
                };
            }
            State::Retry(name) => return Some(*name),
            State::Error(_) => return None,
            State::Ok => true,
            State::Nok => false,
        };
        match self.go_on(flush, ok) {
            Ok(name) => Some(name),
            Err(end) => {
                drop(replace(state, end.state()));
                None
            }
        }
    }

    /// Calls one state.
    fn call_state(&mut self, name: Name) -> Result<State, AllocError>
        requires reading { self.old.phase ≡ Phase.Reading }
        requires waits { self.old.configuration.waiting ≢ Nothing }
        requires holds { HoldsOf (M.rules self.old.machine self.old.given) self.old (State.Retry name) }
        ensures { IfOk result (DidStep self.old self.new (step_of (M.rules self.old.machine) self.old name)) }
    {
        let alloc = self.allocator();
        self.parse_state().machine.call(alloc, self, name)
    }

    /// Reads over the bytes that come next, as long as the state of this name does: it is not called for them.
    ///
    /// It looks at the bytes first, and then moves once over all of them.
    #[inline(always)]
    fn read_over(&mut self, name: Name)
        ensures { HasReadOver (M.rules self.old.machine) name self.old self.new }
    {
        let from = self.after_previous.index;
        let until = self.plain_until;
        let (to, last) = over_until(self.parse_state.machine, name, self.bytes, from, until);
        if from < to {
            let byte = self.bytes[to - 1];
            self.noted = noted_upto(last, &self.after_previous, self.noted);
            pass_over(&mut self.after_previous, to - from);
            self.byte = byte;
            self.previous = Some(byte);
            self.ended = false;
            self.waits = Waits::Nothing;
            self.moves = Moves::Other;
            self.calls = self.calls.more(to - from);
        }
    }

    /// Calls states until the text is used up, or until the reading has ended.
    fn run_states(&mut self, flush: bool, state: State) -> Result<State, AllocError>
        requires text { IsText self.old.given self.old.text }
        requires holds { HoldsAll (M.rules self.old.machine self.old.given) flush self.old state }
        requires closed { self.old.closed ≡ flush }
        requires reading { self.old.phase ≡ Phase.Reading }
        requires waits { flush ≡ false → self.old.configuration.waiting ≢ End }
        ensures same { IfOk result (λ _. OnlyWorked self.old self.new) }
        ensures leads { let t = self.old in IfOk result (LeadsAll t.given (M.rules t.machine t.given) flush t state self.new) }
        ensures comes { let t = self.old in IfOk result (ComesTo t.given (M.rules t.machine t.given) flush t state self.new) }
        ensures stops { IfOk result (λ answer. Stops flush self.new answer) }
        ensures message { (m : _) → state ≡ State.Error m → IfOk result (λ answer. (answer ≡ State.Error m) × (self.new ≡ self.old)) }
    {
        let mut state = state;
        let mut name = match self.next_call(flush, &mut state) {
            Some(name) => name,
            None => return Ok(state),
        };
        // By a call: dropped in place, its fields are in the proof at each return.
        drop(state);
        loop {
            self.shows_in_text();
            // Each variant is made again where it is known. A state that is joined again, or read through a reference, would be kept
            // in memory.
            let answer = match self.call_state(name) {
                Ok(answer) => answer,
                Err(error) => return Err(error),
            };
            name = match answer {
                State::Next(next) => {
                    self.read_over(next);
                    if self.feed_next(flush) {
                        next
                    } else {
                        return Ok(State::Next(next));
                    }
                }
                State::Retry(next) => next,
                State::Ok => match self.go_on(flush, true) {
                    Ok(next) => next,
                    Err(end) => return Ok(end.state()),
                },
                State::Nok => match self.go_on(flush, false) {
                    Ok(next) => next,
                    Err(end) => return Ok(end.state()),
                },
                State::Error(message) => return Ok(State::Error(message)),
            };
        }
    }

    /// Puts a range of the document at the end of the text, and reads until it is used up.
    ///
    /// `from` and `to` are places, each a byte index and a number in a tab. `from` denotes the text's end, and `to` is not before
    /// it. `state` is one with which the machine may start, or what the last push returned. Returns the state that waits for the
    /// next byte, or `State::Error` with a message, which later pushes return again.
    ///
    /// If it runs out of memory, it returns `Memory`, and the tokenizer has failed. It returns `Failed` if the tokenizer had
    /// failed, or was flushed, before; then nothing changes.
    pub fn push(
        &mut self,
        from: (usize, usize),
        to: (usize, usize),
        state: State,
    ) -> Result<State, Fault>
        requires range { self.old.closed ≡ false → CanPush self.old.given self.old.text from to }
        requires holds { self.old.closed ≡ false → HoldsOf (M.rules self.old.machine self.old.given) self.old state }
        ensures failed { IsTrue self.old.closed → IsErrOf result Fault.Failed × (self.new ≡ self.old) }
        ensures ok { IfOk result (λ answer. IsPushed (M.rules self.old.machine self.old.given) self.old from to state self.new answer) }
        ensures err { self.old.closed ≡ false → IfErr result (λ fault. (fault ≡ Fault.Memory) × (self.new.closed ≡ true)) }
    {
        if self.is_closed() {
            drop(state);
            return Err(Fault::Failed);
        }
        self.shows_in_text();
        self.extend(from, to);
        match self.run_states(false, state) {
            Ok(answer) => {
                self.shows_in_text();
                Ok(answer)
            }
            Err(_) => {
                self.close();
                Err(Fault::Memory)
            }
        }
    }

    /// Feeds the end, and reads until the reading has ended.
    ///
    /// `state` is as for `push`. Returns the definitions that states found, with `done` false.
    ///
    /// If `resolve` is true, the registered resolvers are then taken out and run over the events, in order. The definitions
    /// that they find are returned too, and the edits of `map` are made. A resolver that is registered meanwhile stays
    /// registered, and is not run.
    ///
    /// Returns `Message` exactly if the reading, or a resolver, ends in that message. Returns `Memory` if it runs out of
    /// memory, and `Failed` as `push` does. After any of these, nothing more can be pushed or flushed.
    pub fn flush(&mut self, state: State, resolve: bool) -> Result<Subresult, Fault>
        requires holds { self.old.closed ≡ false → HoldsOf (M.rules self.old.machine self.old.given) self.old state }
        ensures failed { IsTrue self.old.closed → IsErrOf result Fault.Failed × (self.new ≡ self.old) }
        ensures closed { self.new.closed ≡ true }
        ensures ok { IfOk result (λ sub. IsFlushed (M.rules self.old.machine self.old.given) resolve self.old state self.new sub) }
        ensures message { IfMessage result (IsRefused (M.rules self.old.machine self.old.given) resolve self.old state self.new) }
        ensures err { self.old.closed ≡ false → IfErr result (λ fault. fault ≢ Fault.Failed) }
    {
        if self.is_closed() {
            drop(state);
            return Err(Fault::Failed);
        }
        self.shows_in_text();
        self.close();
        match self.run_states(true, state) {
            Ok(answer) => match answer {
                State::Error(message) => Err(Fault::Message(message)),
                State::Ok => {
                    self.shows_events();
                    let sub = self.take_definitions();
                    if resolve {
                        self.resolve_all(sub)
                    } else {
                        Ok(sub)
                    }
                }
                State::Nok => unreachable!(),
                State::Next(_) => unreachable!(),
                State::Retry(_) => unreachable!(),
            },
            Err(_) => {
                // Closed once more: a state has a `&mut` to the whole tokenizer, and could have put an open one in its
                // place.
                self.close();
                Err(Fault::Memory)
            }
        }
    }
}
