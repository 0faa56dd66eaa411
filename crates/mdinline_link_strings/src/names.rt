//! Events at which strings begin or end.

ghost use Rattle.std.specs.Prelude.{◌≡◌, ◌+◌, ◌<◌, ◌≤◌, ℕ, false, length, slice_index_or};
ghost use Rattle.markdown_base.specs.declared.event.Event.{Event};
ghost use Rattle.mdinline_link_strings.specs.Strings.{is_string};

use markdown_base::event::{Event, Name};
use mdconstructs_loop_counts::Turns;
use std::sync::ledger::Ledger;

/// Whether a name is of a string: of a destination, a title or a label.
#[inline(always)]
pub(crate) fn is_string(name: Name) -> bool
    ensures { result ≡ is_string name }
{
    ARE_STRINGS[name as usize]
}

/// Whether a string begins or ends at one of these events. It looks at all of them: a loop that ends early does not look at several at once.
#[inline(always)]
fn has_string(events: &[Event]) -> bool
    ensures { result ≡ false → (d : Event) → (k : ℕ) → k < length events.now → is_string (slice_index_or events.now k d).name ≡ false }
{
    let mut any = false;
    for event in events {
        any |= is_string(event.name);
    }
    any
}

/// How many events are in the first blocks of 8 at which no string begins or ends.
fn blocks_outside<L: Ledger>(events: &[Event], turns: &mut Turns<L>) -> usize
    ensures none { (d : Event) → (k : ℕ) → k < result → is_string (slice_index_or events.now k d).name ≡ false }
    ensures within { result ≤ length events.now }
    ensures turns { turns.new ≤ turns.old + result }
{
    let mut next = 0;
    while events.len() - next >= 8 {
        if has_string(&events[next..next + 8]) {
            return next;
        }
        turns.add_one();
        next += 8;
    }
    next
}

/// How many events come before the first at which a string begins or ends, or all.
pub(crate) fn events_outside<L: Ledger>(events: &[Event], turns: &mut Turns<L>) -> usize
    ensures none { (d : Event) → (k : ℕ) → k < result → is_string (slice_index_or events.now k d).name ≡ false }
    ensures within { result ≤ length events.now }
    ensures turns { turns.new ≤ turns.old + result }
{
    let mut next = blocks_outside(events, turns);
    while next < events.len() {
        if is_string(events[next].name) {
            return next;
        }
        turns.add_one();
        next += 1;
    }
    next
}

/// Which names are of a string, in the order of the enum.
static ARE_STRINGS: [bool; 142] = [
    false, false, false, false, false, false, false, false, false, false, false, false, false,
    false, false, false, false, false, false, false, false, false, false, false, false, false,
    false, false, false, false, false, false, false, false, false, false, true, false, false, true,
    false, false, false, true, false, false, false, false, false, false, false, false, false,
    false, false, false, false, false, false, false, false, false, false, false, false, false,
    false, false, false, false, false, false, false, false, false, false, false, false, false,
    false, false, false, false, false, false, false, false, false, false, false, false, false,
    false, false, false, false, false, false, false, false, false, false, false, false, false,
    false, false, false, false, false, false, false, false, false, false, false, false, false,
    false, false, false, false, false, false, true, false, false, false, false, false, true, false,
    false, false, true, false, false, false, false, false, false, false,
];
