//! Move across lists of events.
//!
//! A span is an enter, the events inside it, and its exit. Each walk takes an index into the events and returns
//! another. An index past the end (at least the length) is returned as it is.

ghost use Rattle.std.specs.Prelude.{◌≡◌, ℕ, ◌+◌, ◌≤◌, ◌<◌, ◌-◌, length, drop, take, Any};
ghost use Rattle.markdown_base.specs.Events.{IsBalanced};
ghost use Rattle.markdown_edits.specs.SpanWalks.{is_wanted, HasWanted, IsFirstWanted, IsFront, IsLastWanted, IsLongestRunFrom, IsLongestRunTo};
ghost use Rattle.markdown_edits.specs.SpanWalksInner.{flip, is_stop, mirror, run_len};

use markdown_base::event::{Event, Kind, Name};

/// Skip whole spans of the names, forwards.
///
/// Returns the index after the longest run of such spans that begins at `index`; `index` itself if there is none.
pub fn opt(events: &[Event], index: usize, names: &[Name]) -> usize
    requires { IsBalanced events.now }
    ensures { IsLongestRunFrom names.now events.now index result }
{
    if index < events.len() {
        run_end(events, index, names)
    } else {
        index
    }
}

/// Skip whole spans of the names, backwards.
///
/// Returns the index before the longest run of such spans that ends with the event at `index`, or 0 if the run
/// begins at 0; `index` itself if there is none.
pub fn opt_back(events: &[Event], index: usize, names: &[Name]) -> usize
    requires { IsFront events.now }
    ensures skipped { index < length events.now
        → (start : ℕ) × IsLongestRunTo names.now events.now index start × (result ≡ start - 1) }
    ensures past { length events.now ≤ index → result ≡ index }
{
    if index < events.len() {
        run_start(events, index, names).saturating_sub(1)
    } else {
        index
    }
}

/// Skip forwards to an event, enter or exit, with one of the names.
///
/// Returns the index of the first one at or after `index`, or the number of events if none follows.
pub fn to(events: &[Event], index: usize, names: &[Name]) -> usize
    ensures { IsFirstWanted names.now events.now index result }
{
    let mut first = index;
    while first < events.len() && !is_wanted(names, events[first].name) {
        first += 1;
    }
    first
}

/// Skip backwards to an event, enter or exit, with one of the names.
///
/// Returns the index of the last one at or before `index`.
pub fn to_back(events: &[Event], index: usize, names: &[Name]) -> usize
    requires { index < length events.now → Any (HasWanted names.now) (take (index + 1) events.now) }
    ensures found { index < length events.now → IsLastWanted names.now events.now index result }
    ensures past { length events.now ≤ index → result ≡ index }
{
    let mut last = index;
    while last < events.len() && !is_wanted(names, events[last].name) {
        last -= 1;
    }
    last
}

/// The index at which the longest run from `index` on ends.
fn run_end(events: &[Event], index: usize, names: &[Name]) -> usize
    requires { index ≤ length events.now }
    ensures { result ≡ index + run_len names.now 0 (drop index events.now) }
{
    let mut at = index;
    let mut depth = 0;
    while at < events.len() {
        let event = events[at];
        if is_stop(names, event, depth) {
            return at;
        }
        match event.kind {
            Kind::Enter => depth += 1,
            Kind::Exit => depth -= 1,
        }
        at += 1;
    }
    at
}

/// The index at which the longest run begins whose last event is at `index`.
fn run_start(events: &[Event], index: usize, names: &[Name]) -> usize
    requires { index < length events.now }
    ensures { result + run_len names.now 0 (mirror (take (index + 1) events.now)) ≡ index + 1 }
{
    let mut at = index + 1;
    let mut depth = 0;
    while at > 0 {
        let event = flipped(events[at - 1]);
        if is_stop(names, event, depth) {
            return at;
        }
        match event.kind {
            Kind::Enter => depth += 1,
            Kind::Exit => depth -= 1,
        }
        at -= 1;
    }
    at
}

/// Whether a walk inside `depth` spans stops at an event.
fn is_stop(names: &[Name], event: Event, depth: usize) -> bool
    ensures { result ≡ is_stop names.now event depth }
{
    depth == 0 && !(event.kind == Kind::Enter && is_wanted(names, event.name))
}

/// Whether a name is one of the names.
fn is_wanted(names: &[Name], name: Name) -> bool
    ensures { result ≡ is_wanted names.now name }
{
    names.contains(&name)
}

/// The event as a walk backwards sees it: an enter is an exit.
fn flipped(event: Event) -> Event
    ensures { result ≡ flip event }
{
    let kind = match event.kind {
        Kind::Enter => Kind::Exit,
        Kind::Exit => Kind::Enter,
    };
    Event { kind, ..event }
}
