//! What links and images lead to, and what link reference definitions say.

ghost use Rattle.std.specs.Option.{option_or};
ghost use Rattle.std.specs.Prelude.{◌≡◌, ◌+◌, ◌*◌, ◌<◌, ◌≤◌, IfOk, length, option_copied};
ghost use Rattle.markdown_base.specs.Events.{is_enter};
ghost use Rattle.markdown_base.specs.declared.event.Name.TheVariants as name;
ghost use Rattle.mddocument_link_targets.specs.Costs.{size_of};
ghost use Rattle.mddocument_link_targets.specs.Spans.{enters, first_in, inside_at};
ghost use Rattle.mddocument_link_targets.specs.Strings.{decoded};
ghost use Rattle.mddocument_link_targets.specs.Targets.{decoded_at, defined_label, enters_link, label_at, label_by, label_of, parts_in, parts_of, string_in, target_behind, target_in, target_of, written};

use crate::spans::{enters, first_in, inside, split};
use crate::strings::{Reading, text_of};
use markdown_base::event::{Event, Kind, Name};
use markdown_base::owned::Items;
use mdconstructs_loop_counts::Turns;
use mdinline_labels::normalised;
use std::alloc::{AllocError, Global};
use std::marker::Brand;
use std::sync::ledger::{Blank, Ledger};

/// A destination, and a title if there is one: bytes, decoded.
#[derive(Debug, PartialEq, Eq, Drop)]
pub struct Parts {
    /// The destination. It is empty if there is none.
    pub destination: Items<u8>,
    /// The title.
    pub title: Option<Items<u8>>,
}

/// What a link or an image leads to.
#[derive(Debug, PartialEq, Eq, Drop)]
pub enum Target {
    /// What its resource says.
    Parts(Parts),
    /// What the definition of this label says. The label is normalised.
    Label(Items<u8>),
}

/// The names of the strings of a destination and a title, and of the title.
struct Names {
    destination: Name,
    title: Name,
    title_string: Name,
}

const OF_RESOURCES: Names = Names {
    destination: Name::ResourceDestinationString,
    title: Name::ResourceTitle,
    title_string: Name::ResourceTitleString,
};

const OF_DEFINITIONS: Names = Names {
    destination: Name::DefinitionDestinationString,
    title: Name::DefinitionTitle,
    title_string: Name::DefinitionTitleString,
};

/// The decoded text of the first string of a name. It is empty if there is none.
fn string_in<L: Ledger>(
    alloc: Global,
    bytes: &[u8],
    events: &[Event],
    name: Name,
    turns: &mut Turns<L>,
) -> Result<Items<u8>, AllocError>
    ensures string { IfOk result (λ out. out ≡ string_in bytes.now name events.now) }
    ensures turns { turns.new ≤ turns.old + 2 * length events.now + 1 }
{
    match first_in(events, name, turns) {
        None => Ok(Items::new(alloc)),
        Some(string) => {
            let text = text_of(alloc, bytes, Reading::Decoded, string, turns)?;
            Ok(Items::from_vec(text))
        }
    }
}

/// The decoded text of a title, if there is one.
fn title_in<L: Ledger>(
    alloc: Global,
    bytes: &[u8],
    events: &[Event],
    names: &Names,
    turns: &mut Turns<L>,
) -> Result<Option<Items<u8>>, AllocError>
    ensures title { IfOk result (λ title. title ≡ (parts_in bytes.now names.now.destination names.now.title names.now.title_string events.now).title) }
    ensures turns { turns.new ≤ turns.old + 3 * length events.now + 2 }
{
    match first_in(events, names.title, turns) {
        None => Ok(None),
        Some(title) => {
            let text = string_in(alloc, bytes, title, names.title_string, turns)?;
            Ok(Some(text))
        }
    }
}

/// The destination and the title among events.
fn parts_in<L: Ledger>(
    alloc: Global,
    bytes: &[u8],
    events: &[Event],
    names: &Names,
    turns: &mut Turns<L>,
) -> Result<Parts, AllocError>
    ensures parts { IfOk result (λ parts. parts ≡ parts_in bytes.now names.now.destination names.now.title names.now.title_string events.now) }
    ensures turns { turns.new ≤ turns.old + 5 * length events.now + 3 }
{
    let destination = string_in(alloc, bytes, events, names.destination, turns)?;
    let title = title_in(alloc, bytes, events, names, turns)?;
    Ok(Parts { destination, title })
}

/// The text of a string as it is written, by the events in it, if it is there.
fn written<L: Ledger>(
    alloc: Global,
    bytes: &[u8],
    string: Option<&[Event]>,
    turns: &mut Turns<L>,
) -> Result<Vec<u8>, AllocError>
    ensures text { IfOk result (λ out. out.items ≡ written bytes.now (option_copied string.entry)) }
    ensures turns { turns.new ≤ turns.old + size_of (option_copied string.entry) }
{
    match string {
        None => Ok(Vec::new(alloc)),
        Some(string) => text_of(alloc, bytes, Reading::AsWritten, string, turns),
    }
}

/// The string of the label by which a link is looked up, by the events in its own label and those behind it.
fn label_string<'a, L: Ledger>(
    own: &'a [Event],
    tail: &'a [Event],
    turns: &mut Turns<L>,
) -> Option<&'a [Event]>
    ensures string { option_copied result ≡ option_or (first_in name.ReferenceString tail.now) (first_in name.LabelText own.now) }
    ensures within { size_of (option_copied result) ≤ length own.now + length tail.now }
    ensures turns { turns.new ≤ turns.old + length own.now + length tail.now + 2 }
{
    match first_in(tail, Name::ReferenceString, turns) {
        None => first_in(own, Name::LabelText, turns),
        Some(string) => Some(string),
    }
}

/// The label by which a link is looked up, normalised, by the events in its own label and those behind it.
fn label_of<L: Ledger>(
    alloc: Global,
    bytes: &[u8],
    own: &[Event],
    tail: &[Event],
    turns: &mut Turns<L>,
) -> Result<Items<u8>, AllocError>
    ensures label { IfOk result (λ label. label ≡ label_of bytes.now own.now tail.now) }
    ensures turns { turns.new ≤ turns.old + 2 * (length own.now + length tail.now) + 2 }
{
    let string = label_string(own, tail, turns);
    let text = written(alloc, bytes, string, turns)?;
    Ok(Items::from_vec(normalised(alloc, text.as_slice())?))
}

/// What a link leads to, by the events in its own label and those behind it.
fn target_behind<L: Ledger>(
    alloc: Global,
    bytes: &[u8],
    own: &[Event],
    tail: &[Event],
    turns: &mut Turns<L>,
) -> Result<Target, AllocError>
    ensures target { IfOk result (λ target. target ≡ target_behind bytes.now own.now tail.now) }
    ensures turns { turns.new ≤ turns.old + 6 * (length own.now + length tail.now) + 4 }
{
    match first_in(tail, Name::Resource, turns) {
        None => {
            let label = label_of(alloc, bytes, own, tail, turns)?;
            Ok(Target::Label(label))
        }
        Some(resource) => {
            let parts = parts_in(alloc, bytes, resource, &OF_RESOURCES, turns)?;
            Ok(Target::Parts(parts))
        }
    }
}

/// What a link leads to, by the events in it.
fn target_in<L: Ledger>(
    alloc: Global,
    bytes: &[u8],
    link: &[Event],
    turns: &mut Turns<L>,
) -> Result<Target, AllocError>
    ensures target { IfOk result (λ target. target ≡ target_in bytes.now link.now) }
    ensures turns { turns.new ≤ turns.old + 7 * length link.now + 5 }
{
    let (own, tail) = split(link.get(1..).unwrap_or(&[]), turns);
    target_behind(alloc, bytes, own, tail, turns)
}

/// What a link or an image leads to, by the events in it, counted from nothing.
fn target_inside_uncounted<L: Ledger>(
    alloc: Global,
    bytes: &[u8],
    link: &[Event],
    blank: Blank,
) -> Result<Target, AllocError>
    requires name { blank.name ≡ L.name }
    requires parts { blank.parts ≡ L.parts }
    requires some { 0 < blank.parts }
    ensures { IfOk result (λ target. target ≡ target_in bytes.now link.now) }
{
    let mut turns = Turns::<L>::new(blank);
    target_in(alloc, bytes, link, &mut turns)
}

/// What a link or an image leads to, by the events in it. Fails only if it runs out of memory. It looks at each of them seven times at most.
pub fn target_inside(alloc: Global, bytes: &[u8], link: &[Event]) -> Result<Target, AllocError>
    ensures { IfOk result (λ target. target ≡ target_in bytes.now link.now) }
{
    target_inside_uncounted::<Brand>(alloc, bytes, link, Blank::new(1))
}

/// The label that a link or an image goes by, if it has no resource, by the events in its own label and those behind it.
fn label_by<L: Ledger>(
    alloc: Global,
    bytes: &[u8],
    own: &[Event],
    tail: &[Event],
    turns: &mut Turns<L>,
) -> Result<Option<Items<u8>>, AllocError>
    ensures label { IfOk result (λ label. label ≡ label_by (target_behind bytes.now own.now tail.now)) }
    ensures turns { turns.new ≤ turns.old + 3 * (length own.now + length tail.now) + 3 }
{
    match first_in(tail, Name::Resource, turns) {
        None => {
            let label = label_of(alloc, bytes, own, tail, turns)?;
            Ok(Some(label))
        }
        Some(_) => Ok(None),
    }
}

/// The label that a link or an image goes by, if it has no resource, by the events in its own label and those behind it, counted from nothing.
fn label_behind_uncounted<L: Ledger>(
    alloc: Global,
    bytes: &[u8],
    own: &[Event],
    tail: &[Event],
    blank: Blank,
) -> Result<Option<Items<u8>>, AllocError>
    requires name { blank.name ≡ L.name }
    requires parts { blank.parts ≡ L.parts }
    requires some { 0 < blank.parts }
    ensures { IfOk result (λ label. label ≡ label_by (target_behind bytes.now own.now tail.now)) }
{
    let mut turns = Turns::<L>::new(blank);
    label_by(alloc, bytes, own, tail, &mut turns)
}

/// The label that a link or an image goes by, normalised, by the events in its own label and those behind it. None if it has a resource. Fails only if it
/// runs out of memory. It looks at each event behind its label three times at most, and at each in its label twice, if it is looked up by that, else not.
pub fn label_behind(
    alloc: Global,
    bytes: &[u8],
    own: &[Event],
    tail: &[Event],
) -> Result<Option<Items<u8>>, AllocError>
    ensures { IfOk result (λ label. label ≡ label_by (target_behind bytes.now own.now tail.now)) }
{
    label_behind_uncounted::<Brand>(alloc, bytes, own, tail, Blank::new(1))
}

/// The events in the link or image that is entered at an index, if one is.
fn link_at<'a, L: Ledger>(
    events: &'a [Event],
    at: usize,
    turns: &mut Turns<L>,
) -> Option<&'a [Event]>
    ensures link { option_copied result ≡ inside_at enters_link at events.now }
    ensures turns { turns.new ≤ turns.old + size_of (option_copied result) + 1 }
{
    let event = events.get(at)?;
    if enters(event, Name::Link) || enters(event, Name::Image) {
        Some(inside(&events[at + 1..], turns))
    } else {
        None
    }
}

/// The events in the definition that is entered at an index, if one is.
fn definition_in<'a, L: Ledger>(
    events: &'a [Event],
    at: usize,
    turns: &mut Turns<L>,
) -> Option<&'a [Event]>
    ensures definition { option_copied result ≡ inside_at (enters name.Definition) at events.now }
    ensures turns { turns.new ≤ turns.old + size_of (option_copied result) + 1 }
{
    let event = events.get(at)?;
    if enters(event, Name::Definition) {
        Some(inside(&events[at + 1..], turns))
    } else {
        None
    }
}

/// The events in the span that is entered at an index, if one is.
fn string_at<'a, L: Ledger>(
    events: &'a [Event],
    at: usize,
    turns: &mut Turns<L>,
) -> Option<&'a [Event]>
    ensures string { option_copied result ≡ inside_at (λ e. is_enter e.kind) at events.now }
    ensures turns { turns.new ≤ turns.old + size_of (option_copied result) + 1 }
{
    let event = events.get(at)?;
    match event.kind {
        Kind::Enter => Some(inside(&events[at + 1..], turns)),
        Kind::Exit => None,
    }
}

/// What the link or the image leads to that is entered at an index. None if none is entered there. Fails only if it runs out of memory. It looks at
/// each event in the link eight times at most.
pub fn target_of_counted<L: Ledger>(
    alloc: Global,
    bytes: &[u8],
    events: &[Event],
    at: usize,
    turns: &mut Turns<L>,
) -> Result<Option<Target>, AllocError>
    ensures target { IfOk result (λ target. target ≡ target_of bytes.now events.now at) }
    ensures turns { turns.new ≤ turns.old + 8 * size_of (inside_at enters_link at events.now) + 6 }
{
    match link_at(events, at, turns) {
        None => Ok(None),
        Some(link) => {
            let target = target_in(alloc, bytes, link, turns)?;
            Ok(Some(target))
        }
    }
}

/// What the link or the image leads to that is entered at an index, counted from nothing.
fn target_of_uncounted<L: Ledger>(
    alloc: Global,
    bytes: &[u8],
    events: &[Event],
    at: usize,
    blank: Blank,
) -> Result<Option<Target>, AllocError>
    requires name { blank.name ≡ L.name }
    requires parts { blank.parts ≡ L.parts }
    requires some { 0 < blank.parts }
    ensures { IfOk result (λ target. target ≡ target_of bytes.now events.now at) }
{
    let mut turns = Turns::<L>::new(blank);
    target_of_counted(alloc, bytes, events, at, &mut turns)
}

/// What the link or the image leads to that is entered at an index. None if none is entered there. Fails only if it runs out of memory. It takes the
/// turns of `target_of_counted`.
pub fn target_of(
    alloc: Global,
    bytes: &[u8],
    events: &[Event],
    at: usize,
) -> Result<Option<Target>, AllocError>
    ensures { IfOk result (λ target. target ≡ target_of bytes.now events.now at) }
{
    target_of_uncounted::<Brand>(alloc, bytes, events, at, Blank::new(1))
}

/// What the definition says that is entered at an index. None if none is entered there. Fails only if it runs out of memory. It looks at each event in
/// the definition six times at most.
pub fn parts_of_counted<L: Ledger>(
    alloc: Global,
    bytes: &[u8],
    events: &[Event],
    at: usize,
    turns: &mut Turns<L>,
) -> Result<Option<Parts>, AllocError>
    ensures parts { IfOk result (λ parts. parts ≡ parts_of bytes.now events.now at) }
    ensures turns { turns.new ≤ turns.old + 6 * size_of (inside_at (enters name.Definition) at events.now) + 4 }
{
    match definition_in(events, at, turns) {
        None => Ok(None),
        Some(definition) => {
            let parts = parts_in(alloc, bytes, definition, &OF_DEFINITIONS, turns)?;
            Ok(Some(parts))
        }
    }
}

/// What the definition says that is entered at an index, counted from nothing.
fn parts_of_uncounted<L: Ledger>(
    alloc: Global,
    bytes: &[u8],
    events: &[Event],
    at: usize,
    blank: Blank,
) -> Result<Option<Parts>, AllocError>
    requires name { blank.name ≡ L.name }
    requires parts { blank.parts ≡ L.parts }
    requires some { 0 < blank.parts }
    ensures { IfOk result (λ parts. parts ≡ parts_of bytes.now events.now at) }
{
    let mut turns = Turns::<L>::new(blank);
    parts_of_counted(alloc, bytes, events, at, &mut turns)
}

/// What the definition says that is entered at an index. None if none is entered there. Fails only if it runs out of memory. It takes the turns of
/// `parts_of_counted`.
pub fn parts_of(
    alloc: Global,
    bytes: &[u8],
    events: &[Event],
    at: usize,
) -> Result<Option<Parts>, AllocError>
    ensures { IfOk result (λ parts. parts ≡ parts_of bytes.now events.now at) }
{
    parts_of_uncounted::<Brand>(alloc, bytes, events, at, Blank::new(1))
}

/// The decoded text of the string that is entered at an index: of a destination, or a title. None if no span is entered there. Fails only if it
/// runs out of memory. It looks at each event in the string twice.
pub fn decoded_counted<L: Ledger>(
    alloc: Global,
    bytes: &[u8],
    events: &[Event],
    at: usize,
    turns: &mut Turns<L>,
) -> Result<Option<Items<u8>>, AllocError>
    ensures text { IfOk result (λ text. text ≡ decoded_at bytes.now events.now at) }
    ensures turns { turns.new ≤ turns.old + 2 * size_of (inside_at (λ e. is_enter e.kind) at events.now) + 1 }
{
    match string_at(events, at, turns) {
        None => Ok(None),
        Some(string) => {
            let text = text_of(alloc, bytes, Reading::Decoded, string, turns)?;
            Ok(Some(Items::from_vec(text)))
        }
    }
}

/// The decoded text of the string that is entered at an index, counted from nothing.
fn decoded_uncounted<L: Ledger>(
    alloc: Global,
    bytes: &[u8],
    events: &[Event],
    at: usize,
    blank: Blank,
) -> Result<Option<Items<u8>>, AllocError>
    requires name { blank.name ≡ L.name }
    requires parts { blank.parts ≡ L.parts }
    requires some { 0 < blank.parts }
    ensures { IfOk result (λ text. text ≡ decoded_at bytes.now events.now at) }
{
    let mut turns = Turns::<L>::new(blank);
    decoded_counted(alloc, bytes, events, at, &mut turns)
}

/// The decoded text of the string that is entered at an index: of a destination, or a title. None if no span is entered there. Fails only if it
/// runs out of memory. It takes the turns of `decoded_counted`.
pub fn decoded(
    alloc: Global,
    bytes: &[u8],
    events: &[Event],
    at: usize,
) -> Result<Option<Items<u8>>, AllocError>
    ensures { IfOk result (λ text. text ≡ decoded_at bytes.now events.now at) }
{
    decoded_uncounted::<Brand>(alloc, bytes, events, at, Blank::new(1))
}

/// The decoded text of a string, by the events in it, counted from nothing.
fn decoded_inside_uncounted<L: Ledger>(
    alloc: Global,
    bytes: &[u8],
    string: &[Event],
    blank: Blank,
) -> Result<Vec<u8>, AllocError>
    requires name { blank.name ≡ L.name }
    requires parts { blank.parts ≡ L.parts }
    requires some { 0 < blank.parts }
    ensures { IfOk result (λ text. text.items ≡ decoded bytes.now string.now) }
{
    let mut turns = Turns::<L>::new(blank);
    text_of(alloc, bytes, Reading::Decoded, string, &mut turns)
}

/// The decoded text of a string, by the events in it. Fails only if it runs out of memory. It looks at each of them once.
pub fn decoded_inside(alloc: Global, bytes: &[u8], string: &[Event]) -> Result<Vec<u8>, AllocError>
    ensures { IfOk result (λ text. text.items ≡ decoded bytes.now string.now) }
{
    decoded_inside_uncounted::<Brand>(alloc, bytes, string, Blank::new(1))
}

/// The label of a definition, normalised, by the events in it.
pub(crate) fn defined_label<L: Ledger>(
    alloc: Global,
    bytes: &[u8],
    definition: &[Event],
    turns: &mut Turns<L>,
) -> Result<Vec<u8>, AllocError>
    ensures label { IfOk result (λ label. label.items ≡ defined_label bytes.now definition.now) }
    ensures turns { turns.new ≤ turns.old + 2 * length definition.now + 1 }
{
    let string = first_in(definition, Name::DefinitionLabelString, turns);
    let text = written(alloc, bytes, string, turns)?;
    normalised(alloc, text.as_slice())
}

/// The label of the definition that is entered at an index, normalised. None if none is entered there. Fails only if it runs out of memory. It looks at
/// each event in the definition three times at most.
pub fn label_at_counted<L: Ledger>(
    alloc: Global,
    bytes: &[u8],
    events: &[Event],
    at: usize,
    turns: &mut Turns<L>,
) -> Result<Option<Items<u8>>, AllocError>
    ensures label { IfOk result (λ label. label ≡ label_at bytes.now events.now at) }
    ensures turns { turns.new ≤ turns.old + 3 * size_of (inside_at (enters name.Definition) at events.now) + 2 }
{
    match definition_in(events, at, turns) {
        None => Ok(None),
        Some(definition) => {
            let label = defined_label(alloc, bytes, definition, turns)?;
            Ok(Some(Items::from_vec(label)))
        }
    }
}

/// The label of the definition that is entered at an index, counted from nothing.
fn label_at_uncounted<L: Ledger>(
    alloc: Global,
    bytes: &[u8],
    events: &[Event],
    at: usize,
    blank: Blank,
) -> Result<Option<Items<u8>>, AllocError>
    requires name { blank.name ≡ L.name }
    requires parts { blank.parts ≡ L.parts }
    requires some { 0 < blank.parts }
    ensures { IfOk result (λ label. label ≡ label_at bytes.now events.now at) }
{
    let mut turns = Turns::<L>::new(blank);
    label_at_counted(alloc, bytes, events, at, &mut turns)
}

/// The label of the definition that is entered at an index, normalised. None if none is entered there. Fails only if it runs out of memory. It takes
/// the turns of `label_at_counted`.
pub fn label_at(
    alloc: Global,
    bytes: &[u8],
    events: &[Event],
    at: usize,
) -> Result<Option<Items<u8>>, AllocError>
    ensures { IfOk result (λ label. label ≡ label_at bytes.now events.now at) }
{
    label_at_uncounted::<Brand>(alloc, bytes, events, at, Blank::new(1))
}
