//! The events of items, by the places between the bytes of a range.

ghost use Rattle.std.specs.Prelude.{◌≡◌, ◌+◌, ◌*◌, ◌<◌, ◌≤◌, ◌++◌, ◌∷◌, [], ℕ, List, cond, length, nat_lt, OnOk};
ghost use Rattle.markdown_base.specs.declared.event.Kind.TheVariants as kind;
ghost use Rattle.markdown_base.specs.Virtual.{Seat};
ghost use Rattle.mdinline_constructs.specs.Reference.{marks};
ghost use Rattle.mdinline_link_strings.specs.Laid.{bare, found_of, item_between, kind_of, leaf_between, marks_at, place_at, IsRange, IsRangeOf};
ghost use Rattle.mdinline_constructs.specs.StringItems.{string_seat_events};

use crate::items::{Item, Kind, item_at, marks, size};
use crate::rewriting::Rewriting;
use crate::seats::Range;
use markdown_base::configuration::Constructs;
use markdown_base::event::{self, Event, Name, Point};
use mdconstructs_loop_counts::Turns;
use std::alloc::{AllocError, Global};
use std::sync::ledger::Ledger;

/// Adds an event without a link.
fn push_event(
    out: &mut Vec<Event>,
    kind: event::Kind,
    name: Name,
    point: Point,
) -> Result<(), AllocError>
    ensures { OnOk result (out.new.items ≡ out.old.items ++ bare kind name point ∷ []) }
{
    out.push(Event {
        kind,
        name,
        point,
        link: None,
    })?;
    Ok(())
}

/// Adds a span with nothing in it, from one place up to another, if there is something between them.
fn push_leaf(
    out: &mut Vec<Event>,
    places: &[Point],
    name: Name,
    from: usize,
    to: usize,
) -> Result<(), AllocError>
    requires from { from < length places.now }
    requires to { to < length places.now }
    ensures { OnOk result (out.new.items ≡ out.old.items ++ leaf_between places.now name from to) }
{
    if from >= to {
        return Ok(());
    }
    push_event(out, event::Kind::Enter, name, places[from])?;
    push_event(out, event::Kind::Exit, name, places[to])
}

/// Adds the marks before the value of a reference.
fn push_marks(
    out: &mut Vec<Event>,
    places: &[Point],
    kind: Kind,
    at: usize,
) -> Result<(), AllocError>
    requires inside { at + marks (kind_of kind) < length places.now }
    ensures { OnOk result (out.new.items ≡ out.old.items ++ marks_at places.now kind at) }
{
    push_leaf(out, places, Name::CharacterReferenceMarker, at, at + 1)?;
    if matches!(kind, Kind::Named) {
        return Ok(());
    }
    push_leaf(
        out,
        places,
        Name::CharacterReferenceMarkerNumeric,
        at + 1,
        at + 2,
    )?;
    if matches!(kind, Kind::Decimal) {
        return Ok(());
    }
    push_leaf(
        out,
        places,
        Name::CharacterReferenceMarkerHexadecimal,
        at + 2,
        at + 3,
    )
}

/// Adds a backslash escape.
fn push_escape(out: &mut Vec<Event>, places: &[Point], at: usize) -> Result<(), AllocError>
    requires inside { at + 2 < length places.now }
    ensures { OnOk result (out.new.items ≡ out.old.items ++ item_between places.now Item.Escape at) }
{
    push_event(out, event::Kind::Enter, Name::CharacterEscape, places[at])?;
    push_leaf(out, places, Name::CharacterEscapeMarker, at, at + 1)?;
    push_leaf(out, places, Name::CharacterEscapeValue, at + 1, at + 2)?;
    push_event(
        out,
        event::Kind::Exit,
        Name::CharacterEscape,
        places[at + 2],
    )
}

/// Adds a character reference whose value has `n` bytes.
fn push_reference(
    out: &mut Vec<Event>,
    places: &[Point],
    at: usize,
    kind: Kind,
    n: usize,
) -> Result<(), AllocError>
    requires inside { at + (marks (kind_of kind) + n + 1) < length places.now }
    ensures { OnOk result (out.new.items ≡ out.old.items ++ item_between places.now (Item.Reference kind n) at) }
{
    let from = at + marks(kind);
    let to = from + n;
    push_event(
        out,
        event::Kind::Enter,
        Name::CharacterReference,
        places[at],
    )?;
    push_marks(out, places, kind, at)?;
    push_leaf(out, places, Name::CharacterReferenceValue, from, to)?;
    push_leaf(out, places, Name::CharacterReferenceMarkerSemi, to, to + 1)?;
    push_event(
        out,
        event::Kind::Exit,
        Name::CharacterReference,
        places[to + 1],
    )
}

/// Adds the events of the item that begins at an index.
fn push_item(
    out: &mut Vec<Event>,
    places: &[Point],
    at: usize,
    item: Item,
) -> Result<(), AllocError>
    requires inside { at + (found_of item).size < length places.now }
    ensures { OnOk result (out.new.items ≡ out.old.items ++ item_between places.now item at) }
{
    match item {
        Item::Ending => push_leaf(out, places, Name::LineEnding, at, at + 1),
        Item::Plain(n) => push_leaf(out, places, Name::Data, at, at + n),
        Item::Escape => push_escape(out, places, at),
        Item::Reference(kind, n) => push_reference(out, places, at, kind, n),
    }
}

/// Adds the events of a range, read as a string.
pub(crate) fn push_items<L: Ledger>(
    on: &Constructs,
    range: &Range,
    out: &mut Vec<Event>,
    turns: &mut Turns<L>,
) -> Result<(), AllocError>
    requires many { IsRange range.now }
    ensures items { OnOk result ((bytes : List ℕ) (seats : List Seat) → IsRangeOf bytes seats range.now → out.new.items ≡ out.old.items ++ string_seat_events on.now bytes seats) }
    ensures turns { OnOk result (turns.new ≤ turns.old + 2 * length range.now.bytes.items) }
{
    let text = range.bytes.as_slice();
    let mut next = 0;
    while next < text.len() {
        turns.add_one();
        let item = item_at(on, &text[next..], turns);
        push_item(out, range.places.as_slice(), next, item)?;
        next += size(item);
    }
    Ok(())
}

/// Writes the events of a range, read as a string, as [`push_items`] adds them.
pub(crate) fn write_items<L: Ledger>(
    alloc: Global,
    on: &Constructs,
    range: &Range,
    list: &mut Rewriting,
    turns: &mut Turns<L>,
) -> Result<(), AllocError>
    requires many { IsRange range.now }
    ensures items { OnOk result ((bytes : List ℕ) (seats : List Seat) → IsRangeOf bytes seats range.now → list.new ≡ (list.old.0 ++ string_seat_events on.now bytes seats, list.old.1)) }
    ensures turns { OnOk result (turns.new ≤ turns.old + 2 * length range.now.bytes.items) }
{
    let text = range.bytes.as_slice();
    let mut events = Vec::new(alloc);
    let mut next = 0;
    while next < text.len() {
        turns.add_one();
        let item = item_at(on, &text[next..], turns);
        events.clear();
        push_item(&mut events, range.places.as_slice(), next, item)?;
        let more = events.as_slice();
        list.add(more)?;
        next += size(item);
    }
    Ok(())
}
