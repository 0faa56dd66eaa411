//! Links, images and emphasis in place of brackets and delimiter runs.

ghost use Rattle.std.specs.Prelude.{◌≡◌, ◌+◌, ◌*◌, ◌<◌, ◌≤◌, length, option_map, IfOk, OnErr, OnOk};
ghost use Rattle.std.specs.List.{position_or_len};
ghost use Rattle.std.specs.Option.{unwrap_or};
ghost use Rattle.markdown_base.specs.Events.{IsBalanced};
ghost use Rattle.markdown_edits.specs.Edited.{edited};
ghost use Rattle.markdown_tokenizer.specs.Plain.{HaveNoLinks};
ghost use Rattle.mdinline_emphasis.specs.Costs.{emphasis_a_run, markers_left};
ghost use Rattle.mdinline_emphasis.specs.Places.{ArePlacesInside};
ghost use Rattle.mdinline_emphasis.specs.Runs.{runs_in};
ghost use Rattle.mdinline_links.specs.LinkEdits.{has_brackets, is_mark, is_of_bracket, link_edits};

use crate::brackets::linked;
use markdown_base::event::{Event, Name};
use mdconstructs_loop_counts::Turns;
use mdinline_emphasis::emphasis::emphasized_counted;
use std::alloc::{AllocError, Global};
use std::marker::Brand;
use std::sync::ledger::{Blank, Ledger};

/// Whether a name is of a bracket, of an end or of a `]` alone.
fn is_of_bracket(name: Name) -> bool
    ensures { result ≡ is_of_bracket name }
{
    name == Name::LabelLink
        || name == Name::LabelImage
        || name == Name::LabelEnd
        || name == Name::LabelMarker
}

/// Whether an event is of a bracket, of an end, of a `]` alone or of an attention sequence.
fn is_mark(event: &Event) -> bool
    ensures { result ≡ is_mark event.now }
{
    event.name == Name::AttentionSequence || is_of_bracket(event.name)
}

/// The index of the first event that is such a mark, or how many events there are.
fn first_mark<L: Ledger>(events: &[Event], turns: &mut Turns<L>) -> usize
    ensures mark { result ≡ position_or_len is_mark events.now }
    ensures inside { result ≤ length events.now }
    ensures turns { turns.new ≤ turns.old + length events.now }
{
    let mut next = 0;
    while next < events.len() {
        turns.add_one();
        if is_mark(&events[next]) {
            return next;
        }
        next += 1;
    }
    next
}

/// Whether a bracket, an end or a `]` alone is among events.
fn has_brackets<L: Ledger>(events: &[Event], turns: &mut Turns<L>) -> bool
    ensures brackets { result ≡ has_brackets events.now }
    ensures turns { turns.new ≤ turns.old + length events.now }
{
    let mut next = 0;
    while next < events.len() {
        turns.add_one();
        if is_of_bracket(events[next].name) {
            return true;
        }
        next += 1;
    }
    false
}

/// A list of events with links, images and emphasis in place of its brackets and delimiter runs. It is `None` if it has none of these, as
/// most texts: then it stays as it is.
///
/// A turn is a look at an event, a run, a span or an end of a pair, or a try to make one more pair. Events that are written are copied
/// besides.
fn linked_counted<L: Ledger>(
    alloc: Global,
    bytes: &[u8],
    one_tilde: bool,
    events: &[Event],
    turns: &mut Turns<L>,
) -> Result<Option<Vec<Event>>, AllocError>
    requires balanced { IsBalanced events.now }
    requires unlinked { HaveNoLinks events.now }
    requires room { ArePlacesInside bytes.now events.now }
    ensures edits { IfOk result (λ new. unwrap_or (option_map (λ v. v.items) new) events.now ≡ edited (link_edits one_tilde bytes.now events.now) events.now) }
    ensures linear { OnOk result (turns.new ≤ turns.old + (emphasis_a_run * length (runs_in one_tilde bytes.now events.now) + 3 * markers_left (runs_in one_tilde bytes.now events.now)) + 5 * length events.now) }
{
    let first = first_mark(events, turns);
    if first >= events.len() {
        return Ok(None);
    }
    if !has_brackets(&events[first..], turns) {
        let new = emphasized_counted(alloc, bytes, one_tilde, events, turns)?;
        return Ok(Some(new));
    }
    let all = linked(alloc, bytes, one_tilde, events, turns)?;
    Ok(Some(all))
}

/// Makes a list this one. If there is room for it, it is copied, so that the list keeps its room.
fn put_in(events: &mut Vec<Event>, new: Vec<Event>)
    ensures { events.new.items ≡ new.items }
{
    events.clear();
    if new.len() > events.capacity() || events.extend_from_slice(new.as_slice()).is_err() {
        *events = new;
    }
}

/// Puts links, images and emphasis in place of the brackets and the delimiter runs of a list of events: it makes the edits of the list.
///
/// The edits can be made: they are disjoint, and leave the list balanced and without links. If it runs out of memory, the list stays as it
/// was. A turn is a look at an event, a run, a span or an end of a pair, or a try to make one more pair. Events that are written are copied
/// besides.
pub fn link_events_counted<L: Ledger>(
    alloc: Global,
    bytes: &[u8],
    one_tilde: bool,
    events: &mut Vec<Event>,
    turns: &mut Turns<L>,
) -> Result<(), AllocError>
    requires balanced { IsBalanced events.old.items }
    requires unlinked { HaveNoLinks events.old.items }
    requires room { ArePlacesInside bytes.now events.old.items }
    ensures edits { OnOk result (events.new.items ≡ edited (link_edits one_tilde bytes.now events.old.items) events.old.items) }
    ensures same { OnErr result (events.new.items ≡ events.old.items) }
    ensures linear { let es = events.old.items in OnOk result (turns.new ≤ turns.old + (emphasis_a_run * length (runs_in one_tilde bytes.now es) + 3 * markers_left (runs_in one_tilde bytes.now es)) + 5 * length es) }
{
    let found = linked_counted(alloc, bytes, one_tilde, events.as_slice(), turns)?;
    match found {
        None => Ok(()),
        Some(list) => {
            put_in(events, list);
            Ok(())
        }
    }
}

/// Puts links, images and emphasis in place, and counts from nothing.
fn link_events_uncounted<L: Ledger>(
    alloc: Global,
    bytes: &[u8],
    one_tilde: bool,
    events: &mut Vec<Event>,
    blank: Blank,
) -> Result<(), AllocError>
    requires name { blank.name ≡ L.name }
    requires parts { blank.parts ≡ L.parts }
    requires some { 0 < blank.parts }
    requires balanced { IsBalanced events.old.items }
    requires unlinked { HaveNoLinks events.old.items }
    requires room { ArePlacesInside bytes.now events.old.items }
    ensures edits { OnOk result (events.new.items ≡ edited (link_edits one_tilde bytes.now events.old.items) events.old.items) }
    ensures same { OnErr result (events.new.items ≡ events.old.items) }
{
    let mut turns = Turns::<L>::new(blank);
    link_events_counted(alloc, bytes, one_tilde, events, &mut turns)
}

/// Puts links, images and emphasis in place, as `link_events_counted` does.
///
/// If it runs out of memory, the list stays as it was.
pub fn link_events(
    alloc: Global,
    bytes: &[u8],
    one_tilde: bool,
    events: &mut Vec<Event>,
) -> Result<(), AllocError>
    requires balanced { IsBalanced events.old.items }
    requires unlinked { HaveNoLinks events.old.items }
    requires room { ArePlacesInside bytes.now events.old.items }
    ensures edits { OnOk result (events.new.items ≡ edited (link_edits one_tilde bytes.now events.old.items) events.old.items) }
    ensures same { OnErr result (events.new.items ≡ events.old.items) }
{
    link_events_uncounted::<Brand>(alloc, bytes, one_tilde, events, Blank::new(1))
}
