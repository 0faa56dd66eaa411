//! The outermost spans of a text, and what comes in the place of each.

ghost use Rattle.std.specs.Prelude.{◌≡◌, ◌+◌, ◌≤◌, ◌<◌, ◌++◌, ◌∷◌, [], cond, drop, length, IfOk, IsTrue, OnOk};
ghost use Rattle.std.specs.List.{AllByRecursion, between};
ghost use Rattle.mdinline_emphasis.specs.Emphasis.{unlinked_event};
ghost use Rattle.mdinline_emphasis.specs.Runs.{depth_after};
ghost use Rattle.mdinline_links.specs.Costs.{ends_in, to_write};
ghost use Rattle.mdinline_links.specs.declared.pieces.Fate.TheVariants.{Same};
ghost use Rattle.mdinline_links.specs.Linked.{as_data, is_bracket, is_named, is_run, is_tail, last_place, span_at};
ghost use Rattle.mdinline_links.specs.Pieces.{Fits, HasRoomFor, closing_events, in_fate, opening_events, put, tail_events, whole, written_from};

use markdown_base::event::{Event, Kind, Name, Point};
use mdconstructs_loop_counts::Turns;
use mdinline_emphasis::emphasis::push_in_place;
use mdinline_emphasis::pairs::Delimiters;
use std::alloc::{AllocError, Global};
use std::sync::ledger::Ledger;

/// What becomes of an outermost span.
#[derive(Drop)]
pub enum Fate {
    /// It stays as it is.
    Same,
    /// Data comes in its place: it is a bracket or a `]` that makes nothing.
    AsData,
    /// A bracket that makes a link or an image: whether it is an image, and whether a text is behind it.
    Opens(bool, bool),
    /// The end of a link's or an image's label: whether it is an image, whether a text is before it, and whether no tail is behind it.
    Ends(bool, bool, bool),
    /// The tail of a link or an image: whether it is an image.
    Tail(bool),
    /// A delimiter run that is in no pair yet.
    Waits,
    /// A delimiter run with its pairs.
    Paired(Delimiters),
}

/// An outermost span: the index of its first event, the index behind its last one, and what becomes of it.
#[derive(Drop)]
pub struct Piece {
    /// Index of its first event.
    pub start: usize,
    /// Index behind its last event.
    pub end: usize,
    /// What becomes of it.
    pub fate: Fate,
}

/// How many spans are open after an event.
fn depth_after(kind: Kind, depth: usize) -> usize
    requires fits { depth + 1 ≤ 18446744073709551615 }
    ensures { result ≡ depth_after kind depth }
{
    match kind {
        Kind::Enter => depth + 1,
        Kind::Exit => depth.saturating_sub(1),
    }
}

/// The index behind the span that begins at an index.
pub(crate) fn span_end<L: Ledger>(events: &[Event], from: usize, turns: &mut Turns<L>) -> usize
    requires inside { from ≤ length events.now }
    ensures order { from ≤ result }
    ensures some { from < length events.now → from < result }
    ensures inside { result ≤ length events.now }
    ensures span { span_at 0 (drop from events.now) ≡ (between from result events.now, drop result events.now) }
    ensures turns { turns.new + from ≡ turns.old + result }
{
    let mut depth = 0;
    let mut next = from;
    while next < events.len() {
        turns.add_one();
        depth = depth_after(events[next].kind, depth);
        next += 1;
        if depth == 0 {
            return next;
        }
    }
    next
}

/// Whether events begin with a span of this name.
pub(crate) fn is_named(name: Name, events: &[Event]) -> bool
    ensures { result ≡ is_named name events.now }
{
    match events {
        [first, ..] => first.kind == Kind::Enter && first.name == name,
        [] => false,
    }
}

/// Whether a span is a bracket.
pub(crate) fn is_bracket(span: &[Event]) -> bool
    ensures { result ≡ is_bracket span.now }
{
    is_named(Name::LabelLink, span) || is_named(Name::LabelImage, span)
}

/// Whether events begin with the tail of a link or an image.
pub(crate) fn is_tail(events: &[Event]) -> bool
    ensures { result ≡ is_tail events.now }
{
    is_named(Name::Resource, events) || is_named(Name::Reference, events)
}

/// Whether a span is a delimiter run: an attention sequence with nothing in it.
pub(crate) fn is_run(span: &[Event]) -> bool
    ensures { result ≡ is_run span.now }
{
    match span {
        [enter, exit] => {
            enter.kind == Kind::Enter
                && enter.name == Name::AttentionSequence
                && exit.kind == Kind::Exit
                && exit.name == Name::AttentionSequence
        }
        _ => false,
    }
}

/// Where events end, behind an event at a place.
fn last_place(place: Point, events: &[Event]) -> Point
    ensures { result ≡ last_place place events.now }
{
    match events.last() {
        None => place,
        Some(event) => event.point,
    }
}

/// The name of an image's span, or a link's.
fn whole(image: bool) -> Name
    ensures { result ≡ whole image }
{
    if image { Name::Image } else { Name::Link }
}

/// Adds an event without a link, if it is wanted.
fn push_event(
    out: &mut Vec<Event>,
    wanted: bool,
    kind: Kind,
    name: Name,
    point: Point,
) -> Result<(), AllocError>
    ensures { OnOk result (out.new.items ≡ out.old.items ++ cond wanted (unlinked_event kind name point ∷ []) []) }
{
    if wanted {
        out.push(Event {
            kind,
            name,
            point,
            link: None,
        })?;
    }
    Ok(())
}

/// Adds data in place of a span.
fn push_data(out: &mut Vec<Event>, span: &[Event]) -> Result<(), AllocError>
    ensures { OnOk result (out.new.items ≡ out.old.items ++ as_data span.now) }
{
    let [first, rest @ ..] = span else {
        return Ok(());
    };
    push_event(out, true, Kind::Enter, Name::Data, first.point)?;
    push_event(
        out,
        true,
        Kind::Exit,
        Name::Data,
        last_place(first.point, rest),
    )
}

/// Adds a bracket that makes a link or an image, with what is around it.
fn push_opening(
    out: &mut Vec<Event>,
    span: &[Event],
    image: bool,
    filled: bool,
) -> Result<(), AllocError>
    ensures { OnOk result (out.new.items ≡ out.old.items ++ opening_events image filled span.now) }
{
    let [first, rest @ ..] = span else {
        return Ok(());
    };
    let end = last_place(first.point, rest);
    push_event(out, true, Kind::Enter, whole(image), first.point)?;
    push_event(out, true, Kind::Enter, Name::Label, first.point)?;
    out.extend_from_slice(span)?;
    push_event(out, filled, Kind::Enter, Name::LabelText, end)
}

/// Adds the end of a label, with what is around it. Its text ends where the events before it do.
fn push_closing(
    out: &mut Vec<Event>,
    span: &[Event],
    image: bool,
    filled: bool,
    last: bool,
) -> Result<(), AllocError>
    ensures { OnOk result (out.new.items ≡ out.old.items ++ closing_events out.old.items image filled last span.now) }
{
    let [first, rest @ ..] = span else {
        return Ok(());
    };
    let end = last_place(first.point, rest);
    let text_end = last_place(first.point, out.as_slice());
    push_event(out, filled, Kind::Exit, Name::LabelText, text_end)?;
    out.extend_from_slice(span)?;
    push_event(out, true, Kind::Exit, Name::Label, end)?;
    push_event(out, last, Kind::Exit, whole(image), end)
}

/// Adds the tail of a link or an image, and its end.
fn push_tail(out: &mut Vec<Event>, span: &[Event], image: bool) -> Result<(), AllocError>
    ensures { OnOk result (out.new.items ≡ out.old.items ++ tail_events image span.now) }
{
    let [first, rest @ ..] = span else {
        return Ok(());
    };
    out.extend_from_slice(span)?;
    push_event(
        out,
        true,
        Kind::Exit,
        whole(image),
        last_place(first.point, rest),
    )
}

/// Adds what comes in the place of a span.
fn push_fate<L: Ledger>(
    out: &mut Vec<Event>,
    span: &[Event],
    fate: &Fate,
    turns: &mut Turns<L>,
) -> Result<(), AllocError>
    requires room { HasRoomFor fate.now }
    ensures written { OnOk result (out.new.items ≡ out.old.items ++ in_fate out.old.items fate.now span.now) }
    ensures turns { turns.new ≤ turns.old + ends_in fate.now }
{
    match fate {
        Fate::Same | Fate::Waits => out.extend_from_slice(span),
        Fate::AsData => push_data(out, span),
        Fate::Opens(image, filled) => push_opening(out, span, *image, *filled),
        Fate::Ends(image, filled, last) => push_closing(out, span, *image, *filled, *last),
        Fate::Tail(image) => push_tail(out, span, *image),
        Fate::Paired(run) => push_in_place(out, run, turns),
    }
}

/// Whether a piece stays as it is and begins at an index.
fn goes_on(index: usize, piece: &Piece) -> bool
    ensures { IsTrue result → (piece.now.start ≡ index) × (piece.now.fate ≡ Same) }
{
    match piece.fate {
        Fate::Same => piece.start == index,
        _ => false,
    }
}

/// Adds what comes in the place of a piece, behind the events between two indices, which stay and are not added yet. Returns between which
/// indices events stay then: a piece that stays goes on with them, so that they are copied at once.
fn push_piece<L: Ledger>(
    out: &mut Vec<Event>,
    events: &[Event],
    held: (usize, usize),
    piece: &Piece,
    turns: &mut Turns<L>,
) -> Result<(usize, usize), AllocError>
    requires order { held.0 ≤ held.1 }
    requires inside { held.1 ≤ length events.now }
    requires fits { Fits (length events.now) piece.now }
    ensures order { IfOk result (λ new. new.0 ≤ new.1) }
    ensures inside { IfOk result (λ new. new.1 ≤ length events.now) }
    ensures written { IfOk result (λ new. out.new.items ++ between new.0 new.1 events.now ≡ (out.old.items ++ between held.0 held.1 events.now) ++ put events.now (out.old.items ++ between held.0 held.1 events.now) piece.now) }
    ensures turns { turns.new ≤ turns.old + ends_in piece.now.fate }
{
    if goes_on(held.1, piece) {
        return Ok((held.0, piece.end));
    }
    out.extend_from_slice(&events[held.0..held.1])?;
    push_fate(out, &events[piece.start..piece.end], &piece.fate, turns)?;
    Ok((piece.end, piece.end))
}

/// The events of a text, by what becomes of each of its outermost spans.
pub(crate) fn written<L: Ledger>(
    alloc: Global,
    events: &[Event],
    pieces: &[Piece],
    turns: &mut Turns<L>,
) -> Result<Vec<Event>, AllocError>
    requires fit { AllByRecursion (Fits (length events.now)) pieces.now }
    ensures written { IfOk result (λ out. out.items ≡ written_from events.now [] pieces.now) }
    ensures turns { turns.new ≤ turns.old + to_write pieces.now }
{
    // (a link of one reference has ten events, and six come around them)
    let room = events.len().saturating_add(events.len() / 2);
    let mut out = Vec::with_capacity(alloc, room.saturating_add(8))?;
    let mut held = (0, 0);
    let mut next = 0;
    while next < pieces.len() {
        turns.add_one();
        held = push_piece(&mut out, events, held, &pieces[next], turns)?;
        next += 1;
    }
    out.extend_from_slice(&events[held.0..held.1])?;
    Ok(out)
}
