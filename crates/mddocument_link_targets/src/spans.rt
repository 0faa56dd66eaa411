//! Spans among events. A turn is a look at an event.

ghost use Rattle.std.specs.Prelude.{◌≡◌, ◌+◌, ◌≤◌, IfSome, MatchOption, None, Some, length};
ghost use Rattle.mddocument_link_targets.specs.Spans.{behind, enters, first_in, inside, size_from};

use markdown_base::event::{Event, Kind, Name};
use mdconstructs_loop_counts::Turns;
use std::sync::ledger::Ledger;

/// Whether an event enters a span of a name.
pub fn enters(event: &Event, name: Name) -> bool
    ensures { result ≡ enters name event.now }
{
    event.kind == Kind::Enter && event.name == name
}

/// How many events are in a span, by the events behind its enter: those up to its exit.
fn size_in<L: Ledger>(events: &[Event], turns: &mut Turns<L>) -> usize
    ensures size { result ≡ size_from 0 events.now }
    ensures within { result ≤ length events.now }
    ensures turns { turns.new ≤ turns.old + result + 1 }
{
    let mut depth = 0usize;
    let mut next = 0;
    while next < events.len() {
        turns.add_one();
        match events[next].kind {
            Kind::Enter => depth += 1,
            Kind::Exit => {
                if depth == 0 {
                    return next;
                }
                depth -= 1;
            }
        }
        next += 1;
    }
    next
}

/// The events in a span, by the events behind its enter.
pub(crate) fn inside<'a, L: Ledger>(events: &'a [Event], turns: &mut Turns<L>) -> &'a [Event]
    ensures inside { result.now ≡ inside events.now }
    ensures within { length result.now ≤ length events.now }
    ensures turns { turns.new ≤ turns.old + length result.now + 1 }
{
    let size = size_in(events, turns);
    &events[..size]
}

/// The events in a span and those behind it, by the events behind its enter.
pub(crate) fn split<'a, L: Ledger>(
    events: &'a [Event],
    turns: &mut Turns<L>,
) -> (&'a [Event], &'a [Event])
    ensures inside { result.0.now ≡ inside events.now }
    ensures behind { result.1.now ≡ behind events.now }
    ensures within { length result.0.now + length result.1.now ≤ length events.now }
    ensures turns { turns.new ≤ turns.old + length result.0.now + 1 }
{
    let size = size_in(events, turns);
    match events.get(size + 1..) {
        Some(behind) => (&events[..size], behind),
        None => (&events[..size], &[]),
    }
}

/// The events in the first span of a name, if there is one.
pub(crate) fn first_in<'a, L: Ledger>(
    events: &'a [Event],
    name: Name,
    turns: &mut Turns<L>,
) -> Option<&'a [Event]>
    ensures value { MatchOption result (first_in name events.now ≡ None) (λ found. first_in name events.now ≡ Some found.now) }
    ensures within { IfSome result (λ found. length found.now ≤ length events.now) }
    ensures turns { turns.new ≤ turns.old + length events.now + 1 }
{
    for (i, event) in events.iter().enumerate() {
        turns.add_one();
        if enters(event, name) {
            return Some(inside(&events[i + 1..], turns));
        }
    }
    None
}
