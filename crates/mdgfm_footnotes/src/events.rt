//! The events of a document with calls of footnotes in place of the data that they cover.

ghost use Rattle.std.specs.Prelude.{ℕ, ◌≡◌, ◌+◌, ◌++◌, ◌<◌, ◌≤◌, IfOk, IsOk, IsTrue, List, OnOk, [], false, length, true};
ghost use Rattle.std.specs.List.{AllByRecursion, list_any};
ghost use Rattle.markdown_base.specs.declared.event.Name.TheVariants.{GfmFootnoteDefinitionLabelString};
ghost use Rattle.mdinline_labels.specs.Defined.{defines};
ghost use Rattle.mdgfm_footnotes.specs.CallEvents.{call_events, call_events_by, enters, inside_call, is_bare, is_one_of, labels_in, with_calls, with_insides};
ghost use Rattle.mdgfm_footnotes.specs.Calls.{calls_of};

use crate::calls::push_calls;
use markdown_base::configuration::ParseOptions;
use markdown_base::event::{Event, Kind, Name, Point};
use mdgfm_events::places::{event, place_at, push_leaf, slice};
use mdgfm_events::spans::span_of;
use mdgfm_literals::events::events_with;
use mdgfm_literals::stretches::{depth_behind, is_text, stretch_from};
use mdgfm_literals::texts::Literal;
use mdinline_labels::labels::Labels;
use std::alloc::{AllocError, Global};

/// Whether an event enters a span of a name.
fn enters(name: Name, event: &Event) -> bool
    ensures { result ≡ enters name event.now }
{
    event.kind == Kind::Enter && event.name == name
}

/// Whether there is a footnote definition among events.
fn has_definition(events: &[Event]) -> bool
    ensures { result ≡ list_any (enters GfmFootnoteDefinitionLabelString) events.now }
{
    let mut at = 0;
    while at < events.len() {
        if enters(Name::GfmFootnoteDefinitionLabelString, &events[at]) {
            return true;
        }
        at += 1;
    }
    false
}

/// The labels of the footnote definitions among events. It fails only if it runs out of memory.
pub fn labels_of(alloc: Global, bytes: &[u8], events: &[Event]) -> Result<Labels, AllocError>
    ensures { IfOk result (λ labels. (label : List ℕ) → defines labels label ≡ is_one_of (labels_in bytes.now events.now) label) }
{
    let mut labels = Labels::new(alloc);
    let mut at = 0;
    while at < events.len() {
        let event = &events[at];
        at += 1;
        if enters(Name::GfmFootnoteDefinitionLabelString, event) {
            let span = span_of(event.point, &events[at..]);
            labels.define(alloc, slice(bytes, event.point.index, span.end.index))?;
        }
    }
    Ok(labels)
}

/// The calls of all stretches of text, by the labels that are defined. It fails only if it runs out of memory.
fn calls_of(
    alloc: Global,
    bytes: &[u8],
    labels: &Labels,
    events: &[Event],
) -> Result<Vec<Literal>, AllocError>
    ensures { IfOk result (λ all. all.items ≡ calls_of (defines labels.now) bytes.now 0 0 events.now) }
{
    let mut all = Vec::new(alloc);
    let mut depth = 0;
    let mut at = 0;
    while at < events.len() {
        let event = &events[at];
        if is_text(depth, event) {
            let span = span_of(event.point, &events[at + 1..]);
            let next = at + 1 + span.size;
            let stretch = stretch_from(&events[next..], span.end.index);
            let from = event.point.index;
            push_calls(
                alloc,
                &mut all,
                labels,
                from,
                slice(bytes, from, stretch.stop),
            )?;
            at = next + stretch.size;
        } else {
            depth = depth_behind(depth, event);
            at += 1;
        }
    }
    Ok(all)
}

/// Adds what is in a call between two places.
fn push_inside(
    out: &mut Vec<Event>,
    bytes: &[u8],
    tab: usize,
    from: Point,
    to: Point,
) -> Result<(), AllocError>
    requires tab { 0 < tab }
    requires long { from.index + 4 ≤ to.index }
    ensures { OnOk result (out.new.items ≡ out.old.items ++ inside_call tab bytes.now from to) }
{
    let caret = place_at(bytes, tab, from, from.index + 1);
    let label = place_at(bytes, tab, caret, from.index + 2);
    let end = place_at(bytes, tab, label, to.index - 1);
    out.push(event(Kind::Enter, Name::Label, from))?;
    out.push(event(Kind::Enter, Name::GfmFootnoteCallLabel, from))?;
    push_leaf(out, Name::LabelMarker, from, caret)?;
    push_leaf(out, Name::GfmFootnoteCallMarker, caret, label)?;
    out.push(event(Kind::Exit, Name::GfmFootnoteCallLabel, label))?;
    push_leaf(out, Name::Data, label, end)?;
    out.push(event(Kind::Enter, Name::LabelEnd, end))?;
    push_leaf(out, Name::LabelMarker, end, to)?;
    out.push(event(Kind::Exit, Name::LabelEnd, to))?;
    out.push(event(Kind::Exit, Name::Label, to))?;
    Ok(())
}

/// Whether an event and the next one are the enter and the exit of the first of these calls, with nothing in it yet.
fn is_bare(calls: &[Literal], event: &Event, behind: &[Event]) -> bool
    ensures value { result ≡ is_bare calls.now event.now behind.now }
    ensures some { IsTrue result → 1 ≤ length calls.now }
{
    match (calls, behind) {
        ([call, ..], [next, ..]) => {
            enters(Name::GfmFootnoteCall, event)
                && next.kind == Kind::Exit
                && event.point.index == call.from
                && next.point.index == call.to
        }
        _ => false,
    }
}

/// The events with what is in these calls. It fails only if it runs out of memory.
fn with_insides(
    alloc: Global,
    bytes: &[u8],
    tab: usize,
    calls: &[Literal],
    events: &[Event],
) -> Result<Vec<Event>, AllocError>
    requires tab { 0 < tab }
    requires long { AllByRecursion (λ l. l.from + 4 ≤ l.to) calls.now }
    ensures { IfOk result (λ all. all.items ≡ with_insides tab bytes.now calls.now events.now) }
{
    let mut out = Vec::new(alloc);
    let mut count = 0;
    let mut at = 0;
    while at < events.len() {
        let event = &events[at];
        at += 1;
        let behind = &events[at..];
        out.push(*event)?;
        if is_bare(&calls[count..], event, behind) {
            let span = span_of(event.point, behind);
            push_inside(&mut out, bytes, tab, event.point, span.end)?;
            count += 1;
        }
    }
    Ok(out)
}

/// The events with calls, by the labels that are noted. It fails only if it runs out of memory.
fn with_noted(
    alloc: Global,
    bytes: &[u8],
    tab: usize,
    labels: &Labels,
    events: Vec<Event>,
) -> Result<Vec<Event>, AllocError>
    requires { 0 < tab }
    ensures { IfOk result (λ all. all.items ≡ with_calls (defines labels.now) tab bytes.now events.items) }
{
    let calls = calls_of(alloc, bytes, labels, events.as_slice())?;
    if calls.is_empty() {
        return Ok(events);
    }
    let called = events_with(alloc, bytes, tab, calls.as_slice(), events.as_slice())?;
    with_insides(alloc, bytes, tab, calls.as_slice(), called.as_slice())
}

/// The events of a document with calls of footnotes in place of the data that they cover, of the footnotes that are noted, if the option is on. It fails
/// only if it runs out of memory.
///
/// Without the option, or if nothing is noted, or there is no call, they are returned as they are, and not copied.
pub fn with_calls_by(
    alloc: Global,
    bytes: &[u8],
    options: &ParseOptions,
    noted: &Labels,
    events: Vec<Event>,
) -> Result<Vec<Event>, AllocError>
    ensures events { IfOk result (λ all. all.items ≡ call_events_by (defines noted.now) options.now bytes.now events.items) }
    ensures off { options.now.constructs.gfm_label_start_footnote ≡ false → IsOk result }
{
    if !options.constructs.gfm_label_start_footnote {
        return Ok(events);
    }
    if noted.is_empty() {
        return Ok(events);
    }
    with_noted(alloc, bytes, options.tab_size.get(), noted, events)
}

/// The labels of the footnote definitions among events, if calls are on. It fails only if it runs out of memory.
///
/// Without the option, or without a footnote definition, there are none, and it takes no memory.
pub fn noted_in(
    alloc: Global,
    bytes: &[u8],
    options: &ParseOptions,
    events: &[Event],
) -> Result<Labels, AllocError>
    ensures labels { options.now.constructs.gfm_label_start_footnote ≡ true → IfOk result (λ noted. (label : List ℕ) → defines noted label ≡ is_one_of (labels_in bytes.now events.now) label) }
    ensures off { options.now.constructs.gfm_label_start_footnote ≡ false → IsOk result }
    ensures none { labels_in bytes.now events.now ≡ [] → IsOk result }
{
    if !options.constructs.gfm_label_start_footnote {
        return Ok(Labels::new(alloc));
    }
    if !has_definition(events) {
        return Ok(Labels::new(alloc));
    }
    labels_of(alloc, bytes, events)
}

/// The events of a document with calls of the labels of its own footnote definitions, if the option is on. It fails only if it runs out of memory.
///
/// Without the option, without a footnote definition, or if there is no call, they are returned as they are, and not copied.
pub fn with_calls(
    alloc: Global,
    bytes: &[u8],
    options: &ParseOptions,
    events: Vec<Event>,
) -> Result<Vec<Event>, AllocError>
    ensures events { IfOk result (λ all. all.items ≡ call_events options.now bytes.now events.items) }
    ensures off { options.now.constructs.gfm_label_start_footnote ≡ false → IsOk result }
    ensures none { labels_in bytes.now events.items ≡ [] → IsOk result }
{
    if !options.constructs.gfm_label_start_footnote {
        return Ok(events);
    }
    if !has_definition(events.as_slice()) {
        return Ok(events);
    }
    let noted = labels_of(alloc, bytes, events.as_slice())?;
    with_calls_by(alloc, bytes, options, &noted, events)
}
