//! Labels of references: what was read between brackets, and whether it is defined (CommonMark, "Links").

ghost use Rattle.std.specs.Prelude.{◌≡◌, ◌+◌, ◌∷◌, [], drop, reverse, IfOk, true};
ghost use Rattle.std.specs.List.{between};
ghost use Rattle.markdown_base.specs.Places.{shown, stands_before};
ghost use Rattle.markdown_tokenizer.specs.declared.waiting.Waits.TheVariants.{Byte};
ghost use Rattle.markdown_tokenizer.specs.Sight.{sight_of};
ghost use Rattle.mdinline_labels.specs.Defined.{defines};
ghost use Rattle.mdinline_machine.specs.Brackets.{has_bracket, is_defined_label, is_own_label, spanned_bytes};
ghost use Rattle.mdinline_machine.specs.BracketRows.{has_own_label, label_is_wanted, own_label_is_defined, read_before};

use markdown_base::event::{Event, Kind, Name, Point};
use markdown_tokenizer::state::MachineTypes;
use markdown_tokenizer::tokenizer::{LabelStart, Tokenizer};
use mdinline_full_references::full_reference::label_behind;
use mdinline_labels::is_label;
use mdinline_labels::labels::Labels;
use std::alloc::{AllocError, Global};

/// The bytes from one index up to another, as far as there are any.
fn bytes_between(bytes: &[u8], from: usize, to: usize) -> &[u8]
    ensures { result.now ≡ between from to bytes.now }
{
    let end = to.min(bytes.len());
    if from < end { &bytes[from..end] } else { &[] }
}

/// The bytes that two events stand for, if they are an innermost span.
fn span_bytes<'a>(bytes: &'a [u8], first: &Event, second: &Event) -> &'a [u8]
    ensures { result.now ≡ spanned_bytes bytes.now (first.now ∷ second.now ∷ []) }
{
    match (first.kind, second.kind) {
        (Kind::Enter, Kind::Exit) => bytes_between(bytes, first.point.index, second.point.index),
        _ => &[],
    }
}

/// The bytes of a document that the innermost spans of events stand for.
fn spanned_bytes(alloc: Global, bytes: &[u8], events: &[Event]) -> Result<Vec<u8>, AllocError>
    ensures { IfOk result (λ spanned. spanned.items ≡ spanned_bytes bytes.now events.now) }
{
    let mut spanned = Vec::new(alloc);
    let mut next = 1;
    while next < events.len() {
        spanned.extend_from_slice(span_bytes(bytes, &events[next - 1], &events[next]))?;
        next += 1;
    }
    Ok(spanned)
}

/// Whether a bracket of a link or an image is among events.
fn has_bracket(events: &[Event]) -> bool
    ensures { result ≡ has_bracket events.now }
{
    events.iter().any(|event| event.name == Name::LabelLink || event.name == Name::LabelImage)
}

/// Whether what these events stand for is a label, and is defined.
fn is_defined_label(
    alloc: Global,
    labels: &Labels,
    bytes: &[u8],
    events: &[Event],
) -> Result<bool, AllocError>
    ensures { IfOk result (λ is. is ≡ is_defined_label (defines labels.now) bytes.now events.now) }
{
    let label = spanned_bytes(alloc, bytes, events)?;
    if !is_label(label.as_slice()) {
        return Ok(false);
    }
    labels.contains(alloc, label.as_slice())
}

/// Whether what was read behind a bracket is a label, and is defined. It is none if it has a bracket itself, so each event is looked at for one
/// bracket alone.
fn is_own_label(
    alloc: Global,
    labels: &Labels,
    bytes: &[u8],
    events: &[Event],
) -> Result<bool, AllocError>
    ensures { IfOk result (λ is. is ≡ is_own_label (defines labels.now) bytes.now events.now) }
{
    if labels.is_empty() || has_bracket(events) {
        return Ok(false);
    }
    is_defined_label(alloc, labels, bytes, events)
}

/// The index at which a place is shown: the LF of a CR LF is at its CR.
fn shown_index(bytes: &[u8], point: Point) -> usize
    ensures { result ≡ (shown bytes.now point).index }
{
    let index = point.index;
    if index == 0 || index >= bytes.len() {
        return index;
    }
    if bytes[index] == b'\n' && bytes[index - 1] == b'\r' {
        index - 1
    } else {
        index
    }
}

/// The bytes of the document before the byte that waits.
fn read_before<'a, M: MachineTypes>(t: &Tokenizer<'a, M>) -> &'a [u8]
    requires waits { t.now.configuration.waiting ≡ Byte }
    requires order { stands_before (sight_of t.now).enter_place (sight_of t.now).next ≡ true }
    ensures { result.now ≡ read_before t.now.given (sight_of t.now) }
{
    let bytes = t.parse_state().bytes;
    bytes_between(bytes, 0, shown_index(bytes, t.point()))
}

/// The events behind an index.
fn events_behind(events: &[Event], index: usize) -> &[Event]
    ensures { result.now ≡ drop (index + 1) events.now }
{
    if index < events.len() {
        &events[index + 1..]
    } else {
        &[]
    }
}

/// Whether the own label of the last of these brackets is defined.
fn has_own_label(
    alloc: Global,
    labels: &Labels,
    bytes: &[u8],
    events: &[Event],
    starts: &[LabelStart],
) -> Result<bool, AllocError>
    ensures { IfOk result (λ is. is ≡ has_own_label (defines labels.now) bytes.now events.now (reverse starts.now)) }
{
    match starts.last() {
        None => Ok(false),
        Some(last) => is_own_label(alloc, labels, bytes, events_behind(events, last.start.1)),
    }
}

/// Whether the label of a full reference, which was read up to the `]` that waits, is defined.
pub(crate) fn label_is_wanted<'a, M: MachineTypes>(
    alloc: Global,
    t: &Tokenizer<'a, M>,
    labels: &Labels,
) -> Result<bool, AllocError>
    requires waits { t.now.configuration.waiting ≡ Byte }
    requires order { stands_before (sight_of t.now).enter_place (sight_of t.now).next ≡ true }
    ensures { IfOk result (λ is. is ≡ label_is_wanted (defines labels.now) t.now.given (sight_of t.now) t.now.configuration) }
{
    let events = t.events();
    let label = &events[label_behind(events)..];
    is_defined_label(alloc, labels, read_before(t), label)
}

/// Whether the own label of the last bracket, which was read up to the `]` that waits, is defined.
pub(crate) fn own_label_is_defined<'a, M: MachineTypes>(
    alloc: Global,
    t: &Tokenizer<'a, M>,
    labels: &Labels,
) -> Result<bool, AllocError>
    requires waits { t.now.configuration.waiting ≡ Byte }
    requires order { stands_before (sight_of t.now).enter_place (sight_of t.now).next ≡ true }
    ensures { IfOk result (λ is. is ≡ own_label_is_defined (defines labels.now) t.now.given (sight_of t.now) t.now.configuration) }
{
    let starts = t.tokenize_state.label_starts.as_slice();
    has_own_label(alloc, labels, read_before(t), t.events(), starts)
}
