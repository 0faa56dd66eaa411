//! References that nothing defines, by the events of a document.

ghost use Rattle.std.specs.Prelude.{◌≡◌, ◌+◌, ◌<◌, ◌≤◌, IfOk, length, true};
ghost use Rattle.mdinline_labels.specs.Defined.{defines};
ghost use Rattle.mddocument_link_targets.specs.Strings.{as_written};
ghost use Rattle.mddocument_references.specs.References.{ahead, begun, bounds, closed, closes, has_byte, is_in_text, is_label_ahead, is_link, is_text, is_undefined, opened, opens_image, opens_link, undefined_in};

use markdown_base::configuration::Constructs;
use markdown_base::event::{Event, Kind, Name};
use mdconstructs_loop_counts::Turns;
use mddocument_link_targets::spans::enters;
use mddocument_link_targets::strings::{Reading, push_given_at};
use mdinline_labels::is_label;
use mdinline_labels::labels::Labels;
use mdinline_labels::tails::label_size;
use std::alloc::{AllocError, Global};
use std::marker::Brand;
use std::sync::ledger::{Blank, Ledger};

/// A reference, by the bytes of its label: what stands between its brackets.
#[derive(Clone, Copy, Debug, PartialEq, Eq)]
pub struct Reference {
    /// Where the label begins: a byte index.
    pub from: usize,
    /// Where it ends: the index of its `]`.
    pub to: usize,
}

/// Whether spans of a name hold inline text.
fn is_text(name: Name) -> bool
    ensures { result ≡ is_text name }
{
    name == Name::Paragraph
        || name == Name::HeadingAtxText
        || name == Name::HeadingSetextText
        || name == Name::LabelText
}

/// Whether spans of a name are links or images.
fn is_link(name: Name) -> bool
    ensures { result ≡ is_link name }
{
    name == Name::Link || name == Name::Image
}

/// Whether inline text is behind an event.
fn is_in_text(before: bool, event: &Event) -> bool
    ensures { result ≡ is_in_text before event.now }
{
    let enters = event.kind == Kind::Enter;
    if is_link(event.name) {
        !enters
    } else if is_text(event.name) {
        enters
    } else {
        before
    }
}

/// Whether a byte is at an index.
fn has_byte(bytes: &[u8], index: usize, byte: u8) -> bool
    ensures has { result ≡ has_byte bytes.now index byte }
    ensures within { result ≡ true → index < length bytes.now }
{
    index < bytes.len() && bytes[index] == byte
}

/// Whether `[` was left.
fn opens_link(on: &Constructs, bytes: &[u8], event: &Event) -> bool
    ensures opens { result ≡ opens_link on.now bytes.now event.now }
    ensures within { result ≡ true → event.now.point.index < length bytes.now }
{
    enters(event, Name::Data) && on.label_start_link && has_byte(bytes, event.point.index, b'[')
}

/// Whether `![` was left.
fn opens_image(on: &Constructs, bytes: &[u8], event: &Event) -> bool
    ensures opens { result ≡ opens_image on.now bytes.now event.now }
    ensures within { result ≡ true → event.now.point.index + 1 < length bytes.now }
{
    enters(event, Name::Data)
        && on.label_start_image
        && has_byte(bytes, event.point.index, b'!')
        && has_byte(bytes, event.point.index + 1, b'[')
}

/// Whether `]` was left.
fn closes(on: &Constructs, bytes: &[u8], event: &Event) -> bool
    ensures closes { result ≡ closes on.now bytes.now event.now }
    ensures within { result ≡ true → event.now.point.index < length bytes.now }
{
    enters(event, Name::Data) && on.label_end && has_byte(bytes, event.point.index, b']')
}

/// Where the label begins, if `[` or `![` was left.
fn opened(on: &Constructs, bytes: &[u8], event: &Event) -> Option<usize>
    ensures { result ≡ opened on.now bytes.now event.now }
{
    if opens_link(on, bytes, event) {
        Some(event.point.index + 1)
    } else if opens_image(on, bytes, event) {
        Some(event.point.index + 2)
    } else {
        None
    }
}

/// Whether no label goes over an event.
fn bounds(on: &Constructs, bytes: &[u8], event: &Event) -> bool
    ensures { result ≡ bounds on.now bytes.now event.now }
{
    is_text(event.name)
        || is_link(event.name)
        || opened(on, bytes, event).is_some()
        || closes(on, bytes, event)
}

/// How many events come before the first one that no label goes over.
fn events_ahead(on: &Constructs, bytes: &[u8], events: &[Event]) -> usize
    ensures ahead { result ≡ ahead on.now bytes.now events.now }
    ensures within { result ≤ length events.now }
{
    let mut next = 0;
    while next < events.len() {
        if bounds(on, bytes, &events[next]) {
            return next;
        }
        next += 1;
    }
    next
}

/// Whether a label in brackets is at the front of bytes.
fn is_label_ahead_counted<L: Ledger>(bytes: &[u8], blank: Blank) -> bool
    requires name { blank.name ≡ L.name }
    requires parts { blank.parts ≡ L.parts }
    requires some { 0 < blank.parts }
    ensures { result ≡ is_label_ahead bytes.now }
{
    let mut turns = Turns::<L>::new(blank);
    if !has_byte(bytes, 0, b'[') {
        return false;
    }
    let behind = &bytes[1..];
    match label_size(behind, &mut turns) {
        None => false,
        Some(size) => is_label(&behind[..size]),
    }
}

/// Whether a label in brackets is at the front of bytes. It looks at no byte behind the next bracket.
fn is_label_ahead(bytes: &[u8]) -> bool
    ensures { result ≡ is_label_ahead bytes.now }
{
    is_label_ahead_counted::<Brand>(bytes, Blank::new(1))
}

/// The text of a label as it is written, by its events.
fn label_of(alloc: Global, bytes: &[u8], events: &[Event]) -> Result<Vec<u8>, AllocError>
    ensures { IfOk result (λ label. label.items ≡ as_written bytes.now events.now) }
{
    let mut label = Vec::new(alloc);
    for (i, event) in events.iter().enumerate() {
        push_given_at(
            &mut label,
            bytes,
            Reading::AsWritten,
            event,
            &events[i + 1..],
        )?;
    }
    Ok(label)
}

/// Whether bytes are a label that nothing defines.
fn is_undefined(alloc: Global, labels: &Labels, label: &[u8]) -> Result<bool, AllocError>
    ensures { IfOk result (λ is. is ≡ is_undefined (defines labels.now) label.now) }
{
    if !is_label(label) {
        return Ok(false);
    }
    Ok(!labels.contains(alloc, label)?)
}

/// The reference with a label that begins at a place, by its events and those behind, if nothing defines it.
fn closed(
    alloc: Global,
    on: &Constructs,
    bytes: &[u8],
    labels: &Labels,
    from: usize,
    label: &[Event],
    behind: &[Event],
) -> Result<Option<Reference>, AllocError>
    ensures { IfOk result (λ found. found ≡ closed on.now bytes.now (defines labels.now) from label.now behind.now) }
{
    let [end, ..] = behind else {
        return Ok(None);
    };
    if !closes(on, bytes, end) {
        return Ok(None);
    }
    let to = end.point.index;
    if is_label_ahead(&bytes[to + 1..]) {
        return Ok(None);
    }
    let label = label_of(alloc, bytes, label)?;
    if is_undefined(alloc, labels, label.as_slice())? {
        Ok(Some(Reference { from, to }))
    } else {
        Ok(None)
    }
}

/// The reference that an event begins, by the events behind it, if nothing defines it.
fn begun(
    alloc: Global,
    on: &Constructs,
    bytes: &[u8],
    labels: &Labels,
    event: &Event,
    behind: &[Event],
) -> Result<Option<Reference>, AllocError>
    ensures { IfOk result (λ found. found ≡ begun on.now bytes.now (defines labels.now) event.now behind.now) }
{
    let Some(from) = opened(on, bytes, event) else {
        return Ok(None);
    };
    let size = events_ahead(on, bytes, behind);
    closed(
        alloc,
        on,
        bytes,
        labels,
        from,
        &behind[..size],
        &behind[size..],
    )
}

/// The references among events of a document that nothing defines, in their order. Places of the events are indices of the bytes. It fails only if
/// it runs out of memory.
///
/// A reference is `[label]`, `[label][]` or `![label]`, or the end of `[text][label]`. Its brackets were left as text, no bracket is between them, and
/// the label is not defined. It looks at each event and at each byte a few times at most.
pub fn undefined_in(
    alloc: Global,
    on: &Constructs,
    bytes: &[u8],
    labels: &Labels,
    events: &[Event],
) -> Result<Vec<Reference>, AllocError>
    ensures { IfOk result (λ found. found.items ≡ undefined_in on.now bytes.now (defines labels.now) events.now) }
{
    let mut found = Vec::new(alloc);
    let mut in_text = false;
    for (i, event) in events.iter().enumerate() {
        if in_text {
            let reference = begun(alloc, on, bytes, labels, event, &events[i + 1..])?;
            if let Some(reference) = reference {
                found.push(reference)?;
            }
        }
        in_text = is_in_text(in_text, event);
    }
    Ok(found)
}
