//! The events that take the place of delimiter runs, as edits, and in lists.

ghost use Rattle.std.specs.Prelude.{ℕ, ◌≡◌, ◌+◌, ◌*◌, ◌<◌, ◌≤◌, ◌^◌, ◌∷◌, [], ◌++◌, length, map, reverse, All, OnOk, IfOk};
ghost use Rattle.markdown_base.specs.Events.{IsBalanced};
ghost use Rattle.markdown_edits.specs.Edited.{edited};
ghost use Rattle.markdown_edits.specs.Edits.{AreDisjoint};
ghost use Rattle.markdown_tokenizer.specs.Plain.{HaveNoLinks};
ghost use Rattle.mdinline_emphasis.specs.Costs.{emphasis_a_run, ends_at, ends_of_pairs, markers_left};
ghost use Rattle.mdinline_emphasis.specs.Emphasis.{paired, later, unlinked_event, outer_name, sequence_name, inner_name, markers_of, markers_of_all, closings, openings, data_of};
ghost use Rattle.mdinline_emphasis.specs.Places.{HasRoom, markers, AreApart, AllHaveRoom, ArePlacesInside, standing};
ghost use Rattle.mdinline_emphasis.specs.RunEdits.{in_place, edits_of, index_of};
ghost use Rattle.mdinline_emphasis.specs.Runs.{runs_in};
ghost use Rattle.mdinline_emphasis.specs.Searches.{as_run};

use crate::pairs::{Delimiters, Style, markers_of, pair_counted};
use crate::runs::runs_of_counted;
use markdown_base::event::{Event, Kind, Name, Point};
use markdown_edits::edit_map::EditMap;
use mdconstructs_loop_counts::Turns;
use std::alloc::{AllocError, Global};
use std::marker::Brand;
use std::sync::ledger::{Blank, Ledger};

/// A place some bytes later in the same line.
fn later(point: Point, by: usize) -> Point
    requires room { HasRoom by point }
    ensures { result ≡ later by point }
{
    Point {
        column: point.column + by,
        index: point.index + by,
        ..point
    }
}

/// The name of a pair's whole span.
fn outer_name(style: Style) -> Name
    ensures { result ≡ outer_name style }
{
    match style {
        Style::Emphasis => Name::Emphasis,
        Style::Strong => Name::Strong,
        Style::Struck | Style::StruckTwice => Name::GfmStrikethrough,
    }
}

/// The name of the markers at an end of a pair.
fn sequence_name(style: Style) -> Name
    ensures { result ≡ sequence_name style }
{
    match style {
        Style::Emphasis => Name::EmphasisSequence,
        Style::Strong => Name::StrongSequence,
        Style::Struck | Style::StruckTwice => Name::GfmStrikethroughSequence,
    }
}

/// The name of the text of a pair.
fn inner_name(style: Style) -> Name
    ensures { result ≡ inner_name style }
{
    match style {
        Style::Emphasis => Name::EmphasisText,
        Style::Strong => Name::StrongText,
        Style::Struck | Style::StruckTwice => Name::GfmStrikethroughText,
    }
}

/// Adds an event without a link.
fn push_event(
    events: &mut Vec<Event>,
    kind: Kind,
    name: Name,
    point: Point,
) -> Result<(), AllocError>
    ensures { OnOk result (events.new.items ≡ events.old.items ++ unlinked_event kind name point ∷ []) }
{
    events.push(Event {
        kind,
        name,
        point,
        link: None,
    })?;
    Ok(())
}

/// Adds the events with which a pair ends. Returns the place behind its markers.
fn push_closing(events: &mut Vec<Event>, point: Point, style: Style) -> Result<Point, AllocError>
    requires room { HasRoom (markers_of style) point }
    ensures events { OnOk result (events.new.items ≡ events.old.items ++ closings point (style ∷ [])) }
    ensures end { IfOk result (λ end. end ≡ later (markers_of style) point) }
{
    let end = later(point, markers_of(style));
    push_event(events, Kind::Exit, inner_name(style), point)?;
    push_event(events, Kind::Enter, sequence_name(style), point)?;
    push_event(events, Kind::Exit, sequence_name(style), end)?;
    push_event(events, Kind::Exit, outer_name(style), end)?;
    Ok(end)
}

/// Adds the events with which a pair begins. Returns the place behind its markers.
fn push_opening(events: &mut Vec<Event>, point: Point, style: Style) -> Result<Point, AllocError>
    requires room { HasRoom (markers_of style) point }
    ensures events { OnOk result (events.new.items ≡ events.old.items ++ openings point (style ∷ [])) }
    ensures end { IfOk result (λ end. end ≡ later (markers_of style) point) }
{
    let end = later(point, markers_of(style));
    push_event(events, Kind::Enter, outer_name(style), point)?;
    push_event(events, Kind::Enter, sequence_name(style), point)?;
    push_event(events, Kind::Exit, sequence_name(style), end)?;
    push_event(events, Kind::Enter, inner_name(style), end)?;
    Ok(end)
}

/// Adds the events of the pairs that a run closes, the inner ones first. Returns the place behind their markers.
fn push_closed<L: Ledger>(
    events: &mut Vec<Event>,
    start: Point,
    closed: &[Style],
    turns: &mut Turns<L>,
) -> Result<Point, AllocError>
    requires room { HasRoom (markers_of_all closed.now) start }
    ensures events { OnOk result (events.new.items ≡ events.old.items ++ closings start closed.now) }
    ensures end { IfOk result (λ end. end ≡ later (markers_of_all closed.now) start) }
    ensures turns { turns.new ≤ turns.old + length closed.now }
{
    let mut point = start;
    let mut next = 0;
    while next < closed.len() {
        turns.add_one();
        point = push_closing(events, point, closed[next])?;
        next += 1;
    }
    Ok(point)
}

/// Adds the events of the pairs that a run opens. The list has the inner ones first, and the events begin with the outer ones.
fn push_opened<L: Ledger>(
    events: &mut Vec<Event>,
    start: Point,
    opened: &[Style],
    turns: &mut Turns<L>,
) -> Result<(), AllocError>
    requires room { HasRoom (markers_of_all (reverse opened.now)) start }
    ensures events { OnOk result (events.new.items ≡ events.old.items ++ openings start (reverse opened.now)) }
    ensures turns { turns.new ≤ turns.old + length opened.now }
{
    let mut point = start;
    let mut left = opened.len();
    while left > 0 {
        turns.add_one();
        left -= 1;
        point = push_opening(events, point, opened[left])?;
    }
    Ok(())
}

/// Adds the markers of a run that are in no pair, as data. Returns the place behind them.
fn push_data(events: &mut Vec<Event>, point: Point, left: usize) -> Result<Point, AllocError>
    requires room { HasRoom left point }
    ensures events { OnOk result (events.new.items ≡ events.old.items ++ data_of point left) }
    ensures end { IfOk result (λ end. end ≡ later left point) }
{
    let end = later(point, left);
    if left > 0 {
        push_event(events, Kind::Enter, Name::Data, point)?;
        push_event(events, Kind::Exit, Name::Data, end)?;
    }
    Ok(end)
}

/// Adds the events that take the place of a run: what it closes, what is left of it as data, and what it opens.
///
/// A turn is a look at a pair that the run closes or opens. Returns `AllocError` if it runs out of memory; then some events were added.
pub fn push_in_place<L: Ledger>(
    events: &mut Vec<Event>,
    run: &Delimiters,
    turns: &mut Turns<L>,
) -> Result<(), AllocError>
    requires room { HasRoom (markers (as_run run.now)) run.now.start }
    ensures events { OnOk result (events.new.items ≡ events.old.items ++ in_place (as_run run.now)) }
    ensures turns { turns.new ≤ turns.old + ends_at (as_run run.now) }
{
    let behind_closed = push_closed(events, run.start, run.closed.as_slice(), turns)?;
    let behind_data = push_data(events, behind_closed, run.left)?;
    push_opened(events, behind_data, run.opened.as_slice(), turns)
}

/// The events that take the place of a run, as `push_in_place` adds them.
///
/// A turn is a look at a pair that the run closes or opens.
pub fn in_place_counted<L: Ledger>(
    alloc: Global,
    run: &Delimiters,
    turns: &mut Turns<L>,
) -> Result<Vec<Event>, AllocError>
    requires room { HasRoom (markers (as_run run.now)) run.now.start }
    ensures events { IfOk result (λ events. events.items ≡ in_place (as_run run.now)) }
    ensures turns { turns.new ≤ turns.old + ends_at (as_run run.now) }
{
    let mut events = Vec::new(alloc);
    push_in_place(&mut events, run, turns)?;
    Ok(events)
}

/// The events that take the place of a run, counted from nothing.
fn in_place_uncounted<L: Ledger>(
    alloc: Global,
    run: &Delimiters,
    blank: Blank,
) -> Result<Vec<Event>, AllocError>
    requires name { blank.name ≡ L.name }
    requires parts { blank.parts ≡ L.parts }
    requires some { 0 < blank.parts }
    requires room { HasRoom (markers (as_run run.now)) run.now.start }
    ensures { IfOk result (λ events. events.items ≡ in_place (as_run run.now)) }
{
    let mut turns = Turns::<L>::new(blank);
    in_place_counted(alloc, run, &mut turns)
}

/// The events that take the place of a run, as `in_place_counted` makes them.
pub fn in_place(alloc: Global, run: &Delimiters) -> Result<Vec<Event>, AllocError>
    requires room { HasRoom (markers (as_run run.now)) run.now.start }
    ensures { IfOk result (λ events. events.items ≡ in_place (as_run run.now)) }
{
    in_place_uncounted::<Brand>(alloc, run, Blank::new(1))
}

/// Adds one edit for each run: its two events go, and what the run closes, leaves and opens comes in their place.
///
/// A turn is a look at a run, or at an end of a pair. Returns `AllocError` if it runs out of memory; then some edits were added.
pub fn put_edits_counted<L: Ledger>(
    alloc: Global,
    runs: &[Delimiters],
    edits: &mut EditMap,
    turns: &mut Turns<L>,
) -> Result<(), AllocError>
    requires none { edits.old ≡ [] }
    requires apart { AreApart 0 (map index_of (map as_run runs.now)) }
    requires room { AllHaveRoom (map standing (map as_run runs.now)) }
    ensures edits { OnOk result (edits.new ≡ edits_of (map as_run runs.now)) }
    ensures turns { turns.new ≤ turns.old + length runs.now + ends_of_pairs (map as_run runs.now) }
{
    let mut next = 0;
    while next < runs.len() {
        turns.add_one();
        let events = in_place_counted(alloc, &runs[next], turns)?;
        edits.add(runs[next].index, 2, events)?;
        next += 1;
    }
    Ok(())
}

/// Adds one edit for each run, and counts from nothing.
fn put_edits_uncounted<L: Ledger>(
    alloc: Global,
    runs: &[Delimiters],
    edits: &mut EditMap,
    blank: Blank,
) -> Result<(), AllocError>
    requires name { blank.name ≡ L.name }
    requires parts { blank.parts ≡ L.parts }
    requires some { 0 < blank.parts }
    requires none { edits.old ≡ [] }
    requires apart { AreApart 0 (map index_of (map as_run runs.now)) }
    requires room { AllHaveRoom (map standing (map as_run runs.now)) }
    ensures { OnOk result (edits.new ≡ edits_of (map as_run runs.now)) }
{
    let mut turns = Turns::<L>::new(blank);
    put_edits_counted(alloc, runs, edits, &mut turns)
}

/// Adds one edit for each run, as `put_edits_counted` does.
///
/// Returns `AllocError` if it runs out of memory; then some edits were added.
pub fn put_edits(alloc: Global, runs: &[Delimiters], edits: &mut EditMap) -> Result<(), AllocError>
    requires none { edits.old ≡ [] }
    requires apart { AreApart 0 (map index_of (map as_run runs.now)) }
    requires room { AllHaveRoom (map standing (map as_run runs.now)) }
    ensures { OnOk result (edits.new ≡ edits_of (map as_run runs.now)) }
{
    put_edits_uncounted::<Brand>(alloc, runs, edits, Blank::new(1))
}

/// Puts emphasis in place of the delimiter runs of a list of events, by one edit for each run.
///
/// A turn is a look at an event, a run or an end of a pair, or a try to make one more pair. Events that are written are copied
/// besides. Returns `AllocError` if it runs out of memory; then some edits were added.
pub fn emphasize_counted<L: Ledger>(
    alloc: Global,
    bytes: &[u8],
    one_tilde: bool,
    events: &[Event],
    edits: &mut EditMap,
    turns: &mut Turns<L>,
) -> Result<(), AllocError>
    requires none { edits.old ≡ [] }
    requires balanced { IsBalanced events.now }
    requires room { ArePlacesInside bytes.now events.now }
    ensures edits { OnOk result (edits.new ≡ edits_of (paired (runs_in one_tilde bytes.now events.now))) }
    ensures linear { turns.new ≤ turns.old + (emphasis_a_run * length (runs_in one_tilde bytes.now events.now) + 3 * markers_left (runs_in one_tilde bytes.now events.now)) + length events.now }
{
    let mut runs = runs_of_counted(alloc, bytes, one_tilde, events, turns)?;
    pair_counted(alloc, runs.as_mut_slice(), turns)?;
    put_edits_counted(alloc, runs.as_slice(), edits, turns)
}

/// Puts emphasis in place of the delimiter runs, and counts from nothing.
fn emphasize_uncounted<L: Ledger>(
    alloc: Global,
    bytes: &[u8],
    one_tilde: bool,
    events: &[Event],
    edits: &mut EditMap,
    blank: Blank,
) -> Result<(), AllocError>
    requires name { blank.name ≡ L.name }
    requires parts { blank.parts ≡ L.parts }
    requires some { 0 < blank.parts }
    requires none { edits.old ≡ [] }
    requires balanced { IsBalanced events.now }
    requires room { ArePlacesInside bytes.now events.now }
    ensures { OnOk result (edits.new ≡ edits_of (paired (runs_in one_tilde bytes.now events.now))) }
{
    let mut turns = Turns::<L>::new(blank);
    emphasize_counted(alloc, bytes, one_tilde, events, edits, &mut turns)
}

/// Puts emphasis in place of the delimiter runs of a list of events, as `emphasize_counted` does.
///
/// The edits can be made: they are disjoint, and leave the list balanced and without links, if it was so. Returns `AllocError` if it
/// runs out of memory; then some edits were added.
pub fn emphasize(
    alloc: Global,
    bytes: &[u8],
    one_tilde: bool,
    events: &[Event],
    edits: &mut EditMap,
) -> Result<(), AllocError>
    requires none { edits.old ≡ [] }
    requires balanced { IsBalanced events.now }
    requires room { ArePlacesInside bytes.now events.now }
    ensures { OnOk result (edits.new ≡ edits_of (paired (runs_in one_tilde bytes.now events.now))) }
{
    emphasize_uncounted::<Brand>(alloc, bytes, one_tilde, events, edits, Blank::new(1))
}

/// A list of events with what takes the place of runs in their place.
///
/// A turn is a look at a run, or at an end of a pair.
fn placed_counted<L: Ledger>(
    alloc: Global,
    events: &[Event],
    runs: &[Delimiters],
    turns: &mut Turns<L>,
) -> Result<Vec<Event>, AllocError>
    requires disjoint { AreDisjoint 0 (edits_of (map as_run runs.now)) (length events.now) }
    requires unlinked { HaveNoLinks events.now }
    requires room { AllHaveRoom (map standing (map as_run runs.now)) }
    ensures placed { IfOk result (λ out. out.items ≡ edited (edits_of (map as_run runs.now)) events.now) }
    ensures turns { turns.new ≤ turns.old + length runs.now + ends_of_pairs (map as_run runs.now) }
{
    let room = events.len().saturating_add(runs.len());
    let mut out = Vec::with_capacity(alloc, room.saturating_add(runs.len()))?;
    let mut from = 0;
    for run in runs {
        turns.add_one();
        out.extend_from_slice(&events[from..run.index])?;
        push_in_place(&mut out, run, turns)?;
        from = run.index + 2;
    }
    out.extend_from_slice(&events[from..])?;
    Ok(out)
}

/// A list of events with emphasis in place of its delimiter runs: what the edits of [`emphasize_counted`] leave, without a map of edits.
///
/// A turn is a look at an event, a run or an end of a pair, or a try to make one more pair. Events that are written are copied besides.
pub fn emphasized_counted<L: Ledger>(
    alloc: Global,
    bytes: &[u8],
    one_tilde: bool,
    events: &[Event],
    turns: &mut Turns<L>,
) -> Result<Vec<Event>, AllocError>
    requires balanced { IsBalanced events.now }
    requires unlinked { HaveNoLinks events.now }
    requires room { ArePlacesInside bytes.now events.now }
    ensures emphasis { IfOk result (λ out. out.items ≡ edited (edits_of (paired (runs_in one_tilde bytes.now events.now))) events.now) }
    ensures linear { turns.new ≤ turns.old + (emphasis_a_run * length (runs_in one_tilde bytes.now events.now) + 3 * markers_left (runs_in one_tilde bytes.now events.now)) + length events.now }
{
    let mut delimiters = runs_of_counted(alloc, bytes, one_tilde, events, turns)?;
    pair_counted(alloc, delimiters.as_mut_slice(), turns)?;
    placed_counted(alloc, events, delimiters.as_slice(), turns)
}
