//! Events of containers, and chunks of lines.

ghost use Rattle.std.specs.Prelude.{◌≡◌, ◌≤◌, ◌+◌, ◌++◌, ◌∷◌, [], cond, true, false, IfOk, ℕ, List, length, ◌*◌};
ghost use Rattle.markdown_base.specs.declared.event.Kind.TheVariants.{Enter, Exit};
ghost use Rattle.markdown_base.specs.declared.event.Name.TheVariants.{SpaceOrTab};
ghost use Rattle.markdown_base.specs.Virtual.{Seat};
ghost use Rattle.mdblock_leaf_blocks.specs.LeafBlocks.{bytes_of};
ghost use Rattle.mdblock_leaf_blocks.specs.LineKinds.{indent};
ghost use Rattle.mdblock_lines.specs.Lines.{place_after};
ghost use Rattle.mdblock_lines.specs.declared.containers.ContainerKind.TheVariants as kinds;
ghost use Rattle.mdblock_lines.specs.Views.{container_of};
ghost use Rattle.mdblock_containers.specs.SeatPlaces.{AreSeatsAt, events_of};
ghost use Rattle.mdblock_containers.specs.Skeleton.{begun_marks, going_marks};
ghost use Rattle.mdblock_containers.specs.PlaceEvents.{HasColumns, event_at, span_at, quote_prefix_at, item_prefix_at, footnote_label_at, footnote_prefix_at, going_prefix_places, begun_prefix_places};

use markdown_base::configuration::TabSize;
use markdown_base::event::{Event, Kind, Name, Point};
use mdblock_lines::bytes::indent;
use mdblock_lines::containers::{Container, ContainerKind};
use mdblock_lines::places::moved;
use mdconstructs_loop_counts::Turns;
use std::alloc::AllocError;
use std::sync::ledger::Ledger;

/// Enters a span.
pub fn enter(events: &mut Vec<Event>, name: Name, point: Point) -> Result<(), AllocError>
    ensures { IfOk result (λ _. events.new.items ≡ events.old.items ++ event_at Enter name point ∷ []) }
{
    events.push(Event {
        kind: Kind::Enter,
        name,
        point,
        link: None,
    })?;
    Ok(())
}

/// Exits a span.
pub fn exit(events: &mut Vec<Event>, name: Name, point: Point) -> Result<(), AllocError>
    ensures { IfOk result (λ _. events.new.items ≡ events.old.items ++ event_at Exit name point ∷ []) }
{
    events.push(Event {
        kind: Kind::Exit,
        name,
        point,
        link: None,
    })?;
    Ok(())
}

/// A span over so many columns from a place on, if there are any. Returns the place behind it.
pub fn span<L: Ledger>(
    events: &mut Vec<Event>,
    bytes: &[u8],
    tab: TabSize,
    name: Name,
    place: Point,
    columns: usize,
    turns: &mut Turns<L>,
) -> Result<Point, AllocError>
    requires { HasColumns tab bytes.now place columns }
    ensures events { IfOk result (λ _. events.new.items ≡ events.old.items ++ span_at tab bytes.now name place columns) }
    ensures place { IfOk result (λ p. p ≡ place_after tab bytes.now place columns) }
    ensures turns { turns.new ≤ turns.old + columns }
{
    if columns == 0 {
        return Ok(place);
    }
    let end = moved(bytes, tab, place, columns, turns);
    enter(events, name, place)?;
    exit(events, name, end)?;
    Ok(end)
}

/// White space, if there is any. Returns the place behind it.
pub fn white<L: Ledger>(
    events: &mut Vec<Event>,
    bytes: &[u8],
    tab: TabSize,
    place: Point,
    columns: usize,
    turns: &mut Turns<L>,
) -> Result<Point, AllocError>
    requires { HasColumns tab bytes.now place columns }
    ensures events { IfOk result (λ _. events.new.items ≡ events.old.items ++ span_at tab bytes.now SpaceOrTab place columns) }
    ensures place { IfOk result (λ p. p ≡ place_after tab bytes.now place columns) }
    ensures turns { turns.new ≤ turns.old + columns }
{
    span(events, bytes, tab, Name::SpaceOrTab, place, columns, turns)
}

/// The prefix with which a quote goes on or begins, by its virtual bytes. Returns the place behind it.
pub fn quote_prefix<L: Ledger>(
    events: &mut Vec<Event>,
    bytes: &[u8],
    tab: TabSize,
    place: Point,
    t: &[u8],
    turns: &mut Turns<L>,
) -> Result<Point, AllocError>
    requires columns { HasColumns tab bytes.now place (length t.now) }
    requires marker { indent t.now + 1 ≤ length t.now }
    ensures events { IfOk result (λ _. events.new.items ≡ events.old.items ++ quote_prefix_at tab bytes.now place t.now) }
    ensures place { IfOk result (λ p. p ≡ place_after tab bytes.now place (length t.now)) }
    ensures turns { turns.new ≤ turns.old + 2 * length t.now }
{
    let columns = indent(t, turns);
    let start = white(events, bytes, tab, place, columns, turns)?;
    enter(events, Name::BlockQuotePrefix, start)?;
    let marked = span(events, bytes, tab, Name::BlockQuoteMarker, start, 1, turns)?;
    let end = white(events, bytes, tab, marked, t.len() - columns - 1, turns)?;
    exit(events, Name::BlockQuotePrefix, end)?;
    Ok(end)
}

/// The prefix with which an item begins, by its virtual bytes and its number of digits. Returns the place behind it.
pub fn item_prefix<L: Ledger>(
    events: &mut Vec<Event>,
    bytes: &[u8],
    tab: TabSize,
    place: Point,
    digits: usize,
    t: &[u8],
    turns: &mut Turns<L>,
) -> Result<Point, AllocError>
    requires columns { HasColumns tab bytes.now place (length t.now) }
    requires marker { indent t.now + digits + 1 ≤ length t.now }
    ensures events { IfOk result (λ _. events.new.items ≡ events.old.items ++ item_prefix_at tab bytes.now digits place t.now) }
    ensures place { IfOk result (λ p. p ≡ place_after tab bytes.now place (length t.now)) }
    ensures turns { turns.new ≤ turns.old + 2 * length t.now }
{
    let columns = indent(t, turns);
    let start = white(events, bytes, tab, place, columns, turns)?;
    enter(events, Name::ListItemPrefix, start)?;
    let counted = span(
        events,
        bytes,
        tab,
        Name::ListItemValue,
        start,
        digits,
        turns,
    )?;
    let marked = span(events, bytes, tab, Name::ListItemMarker, counted, 1, turns)?;
    let end = white(
        events,
        bytes,
        tab,
        marked,
        t.len() - columns - digits - 1,
        turns,
    )?;
    exit(events, Name::ListItemPrefix, end)?;
    Ok(end)
}

/// The label of a footnote definition, by how many bytes it has: a bracket, `^`, its bytes, and a bracket. Returns the place behind it.
fn footnote_label<L: Ledger>(
    events: &mut Vec<Event>,
    bytes: &[u8],
    tab: TabSize,
    place: Point,
    label: usize,
    turns: &mut Turns<L>,
) -> Result<Point, AllocError>
    requires columns { HasColumns tab bytes.now place (label + 3) }
    ensures events { IfOk result (λ _. events.new.items ≡ events.old.items ++ footnote_label_at tab bytes.now label place) }
    ensures place { IfOk result (λ p. p ≡ place_after tab bytes.now place (label + 3)) }
    ensures turns { turns.new ≤ turns.old + label + 3 }
{
    let bracket = Name::GfmFootnoteDefinitionLabelMarker;
    let caret = Name::GfmFootnoteDefinitionMarker;
    let opened = span(events, bytes, tab, bracket, place, 1, turns)?;
    let start = span(events, bytes, tab, caret, opened, 1, turns)?;
    enter(events, Name::GfmFootnoteDefinitionLabelString, start)?;
    let end = span(events, bytes, tab, Name::Data, start, label, turns)?;
    exit(events, Name::GfmFootnoteDefinitionLabelString, end)?;
    let closed = span(events, bytes, tab, bracket, end, 1, turns)?;
    Ok(closed)
}

/// The prefix with which a footnote definition begins, by its virtual bytes and how many bytes its label has. Returns the place behind it.
pub fn footnote_prefix<L: Ledger>(
    events: &mut Vec<Event>,
    bytes: &[u8],
    tab: TabSize,
    place: Point,
    label: usize,
    t: &[u8],
    turns: &mut Turns<L>,
) -> Result<Point, AllocError>
    requires columns { HasColumns tab bytes.now place (length t.now) }
    requires marker { indent t.now + label + 4 ≤ length t.now }
    ensures events { IfOk result (λ _. events.new.items ≡ events.old.items ++ footnote_prefix_at tab bytes.now label place t.now) }
    ensures place { IfOk result (λ p. p ≡ place_after tab bytes.now place (length t.now)) }
    ensures turns { turns.new ≤ turns.old + 2 * length t.now }
{
    let columns = indent(t, turns);
    let start = white(events, bytes, tab, place, columns, turns)?;
    enter(events, Name::GfmFootnoteDefinitionPrefix, start)?;
    enter(events, Name::GfmFootnoteDefinitionLabel, start)?;
    let named = footnote_label(events, bytes, tab, start, label, turns)?;
    exit(events, Name::GfmFootnoteDefinitionLabel, named)?;
    let marked = span(events, bytes, tab, Name::DefinitionMarker, named, 1, turns)?;
    let rest = t.len() - columns - label - 4;
    let end = white(events, bytes, tab, marked, rest, turns)?;
    exit(events, Name::GfmFootnoteDefinitionPrefix, end)?;
    Ok(end)
}

/// As [`going_prefix`], by places.
fn going_prefix_at<L: Ledger>(
    events: &mut Vec<Event>,
    bytes: &[u8],
    tab: TabSize,
    place: Point,
    c: &Container,
    t: &[u8],
    turns: &mut Turns<L>,
) -> Result<Point, AllocError>
    requires columns { HasColumns tab bytes.now place (length t.now) }
    requires marker { c.now.kind ≡ kinds.Quote → indent t.now + 1 ≤ length t.now }
    ensures events { IfOk result (λ _. events.new.items ≡ events.old.items ++ going_prefix_places tab bytes.now c.now.kind place t.now) }
    ensures place { IfOk result (λ p. p ≡ place_after tab bytes.now place (length t.now)) }
    ensures turns { turns.new ≤ turns.old + 2 * length t.now }
{
    match c.kind {
        ContainerKind::Quote => quote_prefix(events, bytes, tab, place, t, turns),
        ContainerKind::Item | ContainerKind::Footnote => {
            white(events, bytes, tab, place, t.len(), turns)
        }
    }
}

/// The prefix with which a container goes on, by its virtual bytes. Returns the place behind it.
pub fn going_prefix<L: Ledger>(
    events: &mut Vec<Event>,
    bytes: &[u8],
    tab: TabSize,
    place: Point,
    c: &Container,
    t: &[u8],
    turns: &mut Turns<L>,
) -> Result<Point, AllocError>
    requires columns { HasColumns tab bytes.now place (length t.now) }
    requires marker { c.now.kind ≡ kinds.Quote → indent t.now + 1 ≤ length t.now }
    ensures marks { IfOk result (λ _. (list : ℕ) → (seats : List Seat) → AreSeatsAt tab bytes.now place seats → t.now ≡ bytes_of seats → events.new.items ≡ events.old.items ++ events_of (going_marks bytes.now (container_of list c.now) seats)) }
    ensures place { IfOk result (λ p. p ≡ place_after tab bytes.now place (length t.now)) }
    ensures turns { turns.new ≤ turns.old + 2 * length t.now }
{
    let end = going_prefix_at(events, bytes, tab, place, c, t, turns)?;
    Ok(end)
}

/// As [`begun_prefix`], by places.
fn begun_prefix_at<L: Ledger>(
    events: &mut Vec<Event>,
    bytes: &[u8],
    tab: TabSize,
    place: Point,
    c: &Container,
    t: &[u8],
    turns: &mut Turns<L>,
) -> Result<Point, AllocError>
    requires columns { HasColumns tab bytes.now place (length t.now) }
    requires quote { c.now.kind ≡ kinds.Quote → indent t.now + 1 ≤ length t.now }
    requires item { c.now.kind ≡ kinds.Item → indent t.now + c.now.digits + 1 ≤ length t.now }
    requires footnote { c.now.kind ≡ kinds.Footnote → (1 ≤ c.now.label) × (indent t.now + c.now.label + 4 ≤ length t.now) }
    ensures events { IfOk result (λ _. events.new.items ≡ events.old.items ++ begun_prefix_places tab bytes.now c.now place t.now) }
    ensures place { IfOk result (λ p. p ≡ place_after tab bytes.now place (length t.now)) }
    ensures turns { turns.new ≤ turns.old + 2 * length t.now }
{
    match c.kind {
        ContainerKind::Quote => quote_prefix(events, bytes, tab, place, t, turns),
        ContainerKind::Item => item_prefix(events, bytes, tab, place, c.digits, t, turns),
        ContainerKind::Footnote => footnote_prefix(events, bytes, tab, place, c.label, t, turns),
    }
}

/// The prefix with which a container begins, by its virtual bytes. Returns the place behind it.
pub fn begun_prefix<L: Ledger>(
    events: &mut Vec<Event>,
    bytes: &[u8],
    tab: TabSize,
    place: Point,
    c: &Container,
    t: &[u8],
    turns: &mut Turns<L>,
) -> Result<Point, AllocError>
    requires columns { HasColumns tab bytes.now place (length t.now) }
    requires quote { c.now.kind ≡ kinds.Quote → indent t.now + 1 ≤ length t.now }
    requires item { c.now.kind ≡ kinds.Item → indent t.now + c.now.digits + 1 ≤ length t.now }
    requires footnote { c.now.kind ≡ kinds.Footnote → (1 ≤ c.now.label) × (indent t.now + c.now.label + 4 ≤ length t.now) }
    ensures marks { IfOk result (λ _. (list : ℕ) → (seats : List Seat) → AreSeatsAt tab bytes.now place seats → t.now ≡ bytes_of seats → events.new.items ≡ events.old.items ++ events_of (begun_marks bytes.now (container_of list c.now) seats)) }
    ensures place { IfOk result (λ p. p ≡ place_after tab bytes.now place (length t.now)) }
    ensures turns { turns.new ≤ turns.old + 2 * length t.now }
{
    let end = begun_prefix_at(events, bytes, tab, place, c, t, turns)?;
    Ok(end)
}
