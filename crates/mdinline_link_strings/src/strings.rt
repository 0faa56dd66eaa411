//! Strings among events: each line of a string that stands as data is read, and its escapes and character references come in its place.

ghost use Rattle.std.specs.Prelude.{◌≡◌, ◌+◌, ◌*◌, ◌<◌, ◌≤◌, ◌++◌, ◌∷◌, [], ◌&&◌, ℕ, List, drop, take, length, true, None, IfOk, OnOk};
ghost use Rattle.markdown_base.specs.declared.configuration.Constructs.{Constructs};
ghost use Rattle.markdown_base.specs.Places.{IsPointOf};
ghost use Rattle.markdown_base.specs.Virtual.{IsWithinLimit};
ghost use Rattle.markdown_tokenizer.specs.AtPlaces.{AreAtPlaces};
ghost use Rattle.mdinline_link_strings.specs.Costs.{string_size, string_size_from};
ghost use Rattle.mdinline_link_strings.specs.Reached.{begins_with_data};
ghost use Rattle.mdinline_link_strings.specs.Strings.{in_string_after, is_data, line_as_string, seats_between, with_strings, with_strings_from};

use crate::names::{events_outside, is_string};
use crate::placed::{push_items, write_items};
use crate::rewriting::Rewriting;
use crate::seats::{are_plain_between, range_between};
use markdown_base::configuration::{Constructs, TabSize};
use markdown_base::event::{Event, Kind, Name, Point};
use mdconstructs_loop_counts::Turns;
use std::alloc::{AllocError, Global};
use std::marker::Brand;
use std::sync::ledger::{Blank, Ledger};

/// Reads what is between two places of a document as a string, and adds its events.
///
/// The virtual bytes are those from `from` up to `to`, with a tab stop at every `tab` columns: a place may be in a tab. Returns
/// `AllocError` if it runs out of memory; then some events were added. A turn is a look at a virtual byte or an item.
pub fn read_line_counted<L: Ledger>(
    alloc: Global,
    on: &Constructs,
    bytes: &[u8],
    tab: TabSize,
    from: &Point,
    to: &Point,
    out: &mut Vec<Event>,
    turns: &mut Turns<L>,
) -> Result<(), AllocError>
    requires limit { IsWithinLimit tab bytes.now }
    requires place { IsPointOf tab bytes.now from.now }
    ensures events { OnOk result (out.new.items ≡ out.old.items ++ line_as_string on.now tab bytes.now from.now to.now) }
    ensures linear { OnOk result (turns.new ≤ turns.old + 3 * length (seats_between tab bytes.now from.now to.now)) }
{
    let range = range_between(alloc, bytes, tab, from, to, turns)?;
    push_items(on, &range, out, turns)
}

/// Whether an event stands in a string behind this one.
fn in_string_after(inside: bool, event: &Event) -> bool
    ensures { result ≡ in_string_after inside event.now }
{
    if is_string(event.name) {
        event.kind == Kind::Enter
    } else {
        inside
    }
}

/// Whether two events are a span of data.
fn is_data(enter: &Event, exit: &Event) -> bool
    ensures { result ≡ is_data enter.now exit.now }
{
    enter.kind == Kind::Enter
        && enter.name == Name::Data
        && exit.kind == Kind::Exit
        && exit.name == Name::Data
}

/// Whether events begin with a span of data, from an index on.
fn is_data_at(events: &[Event], at: usize) -> bool
    requires inside { at ≤ length events.now }
    ensures { result ≡ begins_with_data (drop at events.now) }
{
    match &events[at..] {
        [enter, exit, ..] => is_data(enter, exit),
        _ => false,
    }
}

/// Whether data of a string is at an index, by whether the event there stands in one.
fn is_string_data(inside: bool, events: &[Event], at: usize) -> bool
    requires inside { at ≤ length events.now }
    ensures { result ≡ (inside && begins_with_data (drop at events.now)) }
{
    inside && is_data_at(events, at)
}

/// The events of a document with their strings read: in place of each span of data that stands in a string come the escapes, the
/// character references and the data of its line.
///
/// Each event stands at a place of the document. Returns `AllocError` if it runs out of memory. A turn is a look at an event, at a
/// virtual byte of a string or at an item of it.
pub fn put_strings_counted<L: Ledger>(
    alloc: Global,
    on: &Constructs,
    bytes: &[u8],
    tab: TabSize,
    events: &[Event],
    turns: &mut Turns<L>,
) -> Result<Vec<Event>, AllocError>
    requires limit { IsWithinLimit tab bytes.now }
    requires places { AreAtPlaces tab bytes.now events.now }
    ensures events { IfOk result (λ out. out.items ≡ with_strings on.now tab bytes.now events.now) }
    ensures linear { OnOk result (turns.new ≤ turns.old + length events.now + 3 * string_size tab bytes.now events.now) }
{
    let mut out = Vec::with_capacity(alloc, events.len())?;
    let mut inside = false;
    let mut from = 0;
    let mut next = 0;
    while next < events.len() {
        turns.add_one();
        if is_string_data(inside, events, next) {
            let start = &events[next].point;
            let end = &events[next + 1].point;
            out.extend_from_slice(&events[from..next])?;
            read_line_counted(alloc, on, bytes, tab, start, end, &mut out, turns)?;
            next += 2;
            from = next;
        } else {
            inside = in_string_after(inside, &events[next]);
            next += 1;
        }
    }
    out.extend_from_slice(&events[from..])?;
    Ok(out)
}

/// Reads a line as a string, and counts from nothing.
fn read_line_uncounted<L: Ledger>(
    alloc: Global,
    on: &Constructs,
    bytes: &[u8],
    tab: TabSize,
    from: &Point,
    to: &Point,
    out: &mut Vec<Event>,
    blank: Blank,
) -> Result<(), AllocError>
    requires name { blank.name ≡ L.name }
    requires parts { blank.parts ≡ L.parts }
    requires some { 0 < blank.parts }
    requires limit { IsWithinLimit tab bytes.now }
    requires place { IsPointOf tab bytes.now from.now }
    ensures { OnOk result (out.new.items ≡ out.old.items ++ line_as_string on.now tab bytes.now from.now to.now) }
{
    let mut turns = Turns::<L>::new(blank);
    read_line_counted(alloc, on, bytes, tab, from, to, out, &mut turns)
}

/// Reads what is between two places of a document as a string, and adds its events, as `read_line_counted` does.
pub fn read_line(
    alloc: Global,
    on: &Constructs,
    bytes: &[u8],
    tab: TabSize,
    from: &Point,
    to: &Point,
    out: &mut Vec<Event>,
) -> Result<(), AllocError>
    requires limit { IsWithinLimit tab bytes.now }
    requires place { IsPointOf tab bytes.now from.now }
    ensures { OnOk result (out.new.items ≡ out.old.items ++ line_as_string on.now tab bytes.now from.now to.now) }
{
    read_line_uncounted::<Brand>(alloc, on, bytes, tab, from, to, out, Blank::new(1))
}

/// The events with their strings read, counted from nothing.
fn put_strings_uncounted<L: Ledger>(
    alloc: Global,
    on: &Constructs,
    bytes: &[u8],
    tab: TabSize,
    events: &[Event],
    blank: Blank,
) -> Result<Vec<Event>, AllocError>
    requires name { blank.name ≡ L.name }
    requires parts { blank.parts ≡ L.parts }
    requires some { 0 < blank.parts }
    requires limit { IsWithinLimit tab bytes.now }
    requires places { AreAtPlaces tab bytes.now events.now }
    ensures { IfOk result (λ out. out.items ≡ with_strings on.now tab bytes.now events.now) }
{
    let mut turns = Turns::<L>::new(blank);
    put_strings_counted(alloc, on, bytes, tab, events, &mut turns)
}

/// The events of a document with their strings read, as `put_strings_counted` has them.
pub fn put_strings(
    alloc: Global,
    on: &Constructs,
    bytes: &[u8],
    tab: TabSize,
    events: &[Event],
) -> Result<Vec<Event>, AllocError>
    requires limit { IsWithinLimit tab bytes.now }
    requires places { AreAtPlaces tab bytes.now events.now }
    ensures { IfOk result (λ out. out.items ≡ with_strings on.now tab bytes.now events.now) }
{
    put_strings_uncounted::<Brand>(alloc, on, bytes, tab, events, Blank::new(1))
}

/// Whether two events are a span of data, and have no links.
fn is_data_alone(enter: &Event, exit: &Event) -> bool
    ensures data { result ≡ true → is_data enter.now exit.now ≡ true }
    ensures enter { result ≡ true → enter.now.link ≡ None }
    ensures exit { result ≡ true → exit.now.link ≡ None }
{
    is_data(enter, exit) && enter.link.is_none() && exit.link.is_none()
}

/// Whether data of a string is plain: no line feed, no backslash and no `&` is between its two events. May return false where it is.
fn is_plain_data<L: Ledger>(
    bytes: &[u8],
    tab: TabSize,
    enter: &Event,
    exit: &Event,
    turns: &mut Turns<L>,
) -> bool
    requires limit { IsWithinLimit tab bytes.now }
    requires place { IsPointOf tab bytes.now enter.now.point }
    ensures plain { result ≡ true → (on : Constructs) → line_as_string on tab bytes.now enter.now.point exit.now.point ≡ enter.now ∷ exit.now ∷ [] }
    ensures turns { turns.new ≤ turns.old + length (seats_between tab bytes.now enter.now.point exit.now.point) }
{
    if !is_data_alone(enter, exit) {
        return false;
    }
    are_plain_between(bytes, tab, &enter.point, &exit.point, turns)
}

/// How many events come before the first at which a string begins, or all; none if the first one stands in a string. They stay as they are.
#[inline(always)]
fn kept_events<L: Ledger>(events: &[Event], inside: bool, turns: &mut Turns<L>) -> usize
    ensures within { result ≤ length events.now }
    ensures events { (on : Constructs) → (t : ℕ) → (bytes : List ℕ) → with_strings_from on t bytes inside events.now ≡ take result events.now ++ with_strings_from on t bytes inside (drop result events.now) }
    ensures size { (t : ℕ) → (bytes : List ℕ) → string_size_from t bytes inside events.now ≡ string_size_from t bytes inside (drop result events.now) }
    ensures turns { turns.new ≤ turns.old + result }
{
    if inside {
        return 0;
    }
    events_outside(events, turns)
}

/// How many events come before the first data of a string that is not plain, or all; and whether the event behind them stands in a string, by
/// whether the first one does. Data that is plain may be taken for some that is not.
fn plain_events<L: Ledger>(
    bytes: &[u8],
    tab: TabSize,
    events: &[Event],
    first: bool,
    turns: &mut Turns<L>,
) -> (usize, bool)
    requires limit { IsWithinLimit tab bytes.now }
    requires places { AreAtPlaces tab bytes.now events.now }
    ensures plain { (on : Constructs) → with_strings_from on tab bytes.now first events.now ≡ take result.0 events.now ++ with_strings_from on tab bytes.now result.1 (drop result.0 events.now) }
    ensures within { result.0 ≤ length events.now }
    ensures data { result.0 < length events.now → (result.1 && begins_with_data (drop result.0 events.now)) ≡ true }
    ensures size { string_size_from tab bytes.now result.1 (drop result.0 events.now) ≤ string_size_from tab bytes.now first events.now }
    ensures linear { turns.new + string_size_from tab bytes.now result.1 (drop (result.0 + 2) events.now) ≤ turns.old + result.0 + 1 + string_size_from tab bytes.now first events.now }
{
    let mut inside = first;
    let mut next = 0;
    while next < events.len() {
        let kept = kept_events(&events[next..], inside, turns);
        next += kept;
        if next >= events.len() {
            return (next, inside);
        }
        turns.add_one();
        if is_string_data(inside, events, next) {
            if !is_plain_data(bytes, tab, &events[next], &events[next + 1], turns) {
                return (next, inside);
            }
            next += 2;
        } else {
            inside = in_string_after(inside, &events[next]);
            next += 1;
        }
    }
    (next, inside)
}

/// Reads what is between two places of a document as a string, and writes its events, as `read_line_counted` adds them.
fn write_line<L: Ledger>(
    alloc: Global,
    on: &Constructs,
    bytes: &[u8],
    tab: TabSize,
    from: &Point,
    to: &Point,
    list: &mut Rewriting,
    turns: &mut Turns<L>,
) -> Result<(), AllocError>
    requires limit { IsWithinLimit tab bytes.now }
    requires place { IsPointOf tab bytes.now from.now }
    ensures events { OnOk result (list.new ≡ (list.old.0 ++ line_as_string on.now tab bytes.now from.now to.now, list.old.1)) }
    ensures linear { OnOk result (turns.new ≤ turns.old + 3 * length (seats_between tab bytes.now from.now to.now)) }
{
    let line = range_between(alloc, bytes, tab, from, to, turns)?;
    write_items(alloc, on, &line, list, turns)
}

/// Writes the events that are left up to the first data of a string that is not plain, and reads this data, if there is one. Returns whether the
/// event behind it stands in a string, by whether the first event that is left does.
fn write_next<L: Ledger>(
    alloc: Global,
    on: &Constructs,
    bytes: &[u8],
    tab: TabSize,
    list: &mut Rewriting,
    first: bool,
    turns: &mut Turns<L>,
) -> Result<bool, AllocError>
    requires limit { IsWithinLimit tab bytes.now }
    requires places { AreAtPlaces tab bytes.now list.old.1 }
    requires some { 0 < length list.old.1 }
    ensures events { IfOk result (λ inside. list.new.0 ++ with_strings_from on.now tab bytes.now inside list.new.1 ≡ list.old.0 ++ with_strings_from on.now tab bytes.now first list.old.1) }
    ensures places { OnOk result (AreAtPlaces tab bytes.now list.new.1) }
    ensures fewer { OnOk result (length list.new.1 < length list.old.1) }
    ensures linear { IfOk result (λ inside. turns.new + 2 * length list.new.1 + 4 * string_size_from tab bytes.now inside list.new.1 ≤ turns.old + 2 * length list.old.1 + 4 * string_size_from tab bytes.now first list.old.1) }
{
    let (count, inside) = plain_events(bytes, tab, list.left(), first, turns);
    list.keep(count);
    if list.left().is_empty() {
        return Ok(inside);
    }
    let from = list.left()[0].point;
    let to = list.left()[1].point;
    list.skip(2);
    write_line(alloc, on, bytes, tab, &from, &to, list, turns)?;
    Ok(inside)
}

/// The events of a document with their strings read, as `put_strings_counted` has them, in the memory of these: it grows by an eighth at a time.
/// What is plain stays where it is. If the data of all strings is plain, no memory is taken.
pub fn with_strings_counted<L: Ledger>(
    alloc: Global,
    on: &Constructs,
    bytes: &[u8],
    tab: TabSize,
    events: Vec<Event>,
    turns: &mut Turns<L>,
) -> Result<Vec<Event>, AllocError>
    requires limit { IsWithinLimit tab bytes.now }
    requires places { AreAtPlaces tab bytes.now events.items }
    ensures events { IfOk result (λ out. out.items ≡ with_strings on.now tab bytes.now events.items) }
    ensures linear { OnOk result (turns.new ≤ turns.old + 2 * length events.items + 4 * string_size tab bytes.now events.items) }
{
    let mut list = Rewriting::new(events);
    let mut inside = false;
    while !list.left().is_empty() {
        inside = write_next(alloc, on, bytes, tab, &mut list, inside, turns)?;
    }
    Ok(list.into_events())
}

/// The events with their strings read, counted from nothing.
fn with_strings_uncounted<L: Ledger>(
    alloc: Global,
    on: &Constructs,
    bytes: &[u8],
    tab: TabSize,
    events: Vec<Event>,
    blank: Blank,
) -> Result<Vec<Event>, AllocError>
    requires name { blank.name ≡ L.name }
    requires parts { blank.parts ≡ L.parts }
    requires some { 0 < blank.parts }
    requires limit { IsWithinLimit tab bytes.now }
    requires places { AreAtPlaces tab bytes.now events.items }
    ensures { IfOk result (λ out. out.items ≡ with_strings on.now tab bytes.now events.items) }
{
    let mut turns = Turns::<L>::new(blank);
    with_strings_counted(alloc, on, bytes, tab, events, &mut turns)
}

/// The events of a document with their strings read, as `with_strings_counted` has them.
pub fn with_strings(
    alloc: Global,
    on: &Constructs,
    bytes: &[u8],
    tab: TabSize,
    events: Vec<Event>,
) -> Result<Vec<Event>, AllocError>
    requires limit { IsWithinLimit tab bytes.now }
    requires places { AreAtPlaces tab bytes.now events.items }
    ensures { IfOk result (λ out. out.items ≡ with_strings on.now tab bytes.now events.items) }
{
    with_strings_uncounted::<Brand>(alloc, on, bytes, tab, events, Blank::new(1))
}
