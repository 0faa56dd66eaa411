//! What programs in C and in Rust call for labels: what one is, how they are compared, and where one is defined.

ghost use Rattle.std.specs.Prelude.{◌≡◌, ◌≢◌, ◌≤◌, ◌↔◌, ◌⊎◌, None, IfOk, IsSomeAnd, cond, drop, length};
ghost use Rattle.mdconstructs.specs.Lookups.{IsSectionAt};
ghost use Rattle.mddocument_link_targets.specs.Targets.{definition_of};
ghost use Rattle.mdinline_labels.specs.Labels.{is_label, normalised};
ghost use Rattle.limecove.specs.Editing.{written};
ghost use Rattle.limecove.specs.Labels.{IsDefinition, TellsDefinition, definition_end, ends_definition, first_place};

use crate::code::{NOT_OPEN, OUT_OF_MEMORY, READ, VERSION};
use crate::document::Document;
use crate::held::Held;
use crate::html::write_bytes;
use crate::{Answer, ended};
use markdown::event::{Event, Kind, Name};
use mdconstructs::definitions::definitions_of;
use mdconstructs::sections::Sections;
use mdinline_labels::{is_label, normalised};
use std::alloc::{AllocError, Global};

/// A definition in a document.
#[repr(C)]
#[derive(Clone, Copy, Debug, PartialEq, Eq)]
pub struct Defined {
    /// The section in which it begins.
    pub section: usize,
    /// Where it begins: a byte index into the document.
    pub from: usize,
    /// Where it ends: the index of the byte behind it.
    pub to: usize,
}

/// Whether bytes may stand between the brackets of a label: 1 if they may, else 0. There is no bracket in them that is not escaped, they have
/// at most 999 characters, and are not only white space.
#[unsafe(no_mangle)]
pub extern "C" fn limecove_is_label(bytes: &[u8]) -> u32
    ensures { result ≡ cond (is_label bytes.now) 1 0 }
{
    if is_label(bytes) { 1 } else { 0 }
}

/// Writes the form of a label by which labels are compared over the first bytes of `out`, as many as fit. The count is how many bytes it has.
#[unsafe(no_mangle)]
pub extern "C" fn limecove_normalized_label(alloc: Global, label: &[u8], out: &mut [u8]) -> Answer
    ensures read { result.code ≡ READ → (result.count ≡ length (normalised label.now)) × (out.new ≡ written out.old (normalised label.now)) }
    ensures kept { result.code ≢ READ → out.new ≡ out.old }
    ensures none { result.code ≢ READ → result.count ≡ 0 }
    ensures codes { result.code ≤ OUT_OF_MEMORY }
    ensures version { result.version ≡ VERSION }
{
    match normalised(alloc, label) {
        Ok(normal) => ended(READ, write_bytes(out, normal.as_slice())),
        Err(_) => ended(OUT_OF_MEMORY, 0),
    }
}

/// Writes where the first definition of a label is. The label is as it stands in brackets, and need not be normalised. The count is 1; it is 0,
/// and nothing is written, if nothing defines the label.
#[unsafe(no_mangle)]
pub extern "C" fn limecove_document_definition_of(
    alloc: Global,
    document: &mut Document,
    label: &[u8],
    found: &mut Defined,
) -> Answer
    ensures read { result.code ≡ READ → IsSomeAnd document.old.kept.held (TellsDefinition label.now result.count found.old found.new) }
    ensures unwritten { result.code ≢ READ → found.new ≡ found.old }
    ensures none { result.code ≢ READ → result.count ≡ 0 }
    ensures not_open { (result.code ≡ NOT_OPEN) ↔ (document.old.kept.held ≡ None) }
    ensures codes { (result.code ≤ OUT_OF_MEMORY) ⊎ (result.code ≡ NOT_OPEN) }
    ensures kept { document.new.kept.held ≡ document.old.kept.held }
    ensures version { result.version ≡ VERSION }
{
    let Some(held) = document.take(alloc) else {
        return ended(NOT_OPEN, 0);
    };
    let told = held.definition_of(alloc, label);
    *document = Document::of(held);
    match told {
        Ok(Some(definition)) => {
            *found = definition;
            ended(READ, 1)
        }
        Ok(None) => ended(READ, 0),
        Err(_) => ended(OUT_OF_MEMORY, 0),
    }
}

impl Held {
    /// The first definition of a label, if there is one. It goes over all events. It fails only if it runs out of memory.
    fn definition_of(&self, alloc: Global, label: &[u8]) -> Result<Option<Defined>, AllocError>
        ensures { IfOk result (IsDefinition label.now self.now) }
    {
        let bytes = self.sections.bytes(alloc)?;
        let events = self.sections.events_in(alloc, 0, self.sections.count())?;
        match index_of(alloc, bytes.as_slice(), events.as_slice(), label)? {
            None => Ok(None),
            Some(at) => Ok(Some(defined_at(&self.sections, events.as_slice(), at))),
        }
    }
}

/// The index, among events, of the enter of the first definition of a label.
fn index_of(
    alloc: Global,
    bytes: &[u8],
    events: &[Event],
    label: &[u8],
) -> Result<Option<usize>, AllocError>
    ensures { IfOk result (λ at. at ≡ definition_of bytes.now events.now (normalised label.now)) }
{
    let normal = normalised(alloc, label)?;
    let all = definitions_of(alloc, bytes, events)?;
    Ok(all.get(normal.as_slice()))
}

/// The definition that is entered at an index, by the events of the document.
fn defined_at(sections: &Sections, events: &[Event], at: usize) -> Defined
    ensures from { result.from ≡ first_place (drop at events.now) }
    ensures to { result.to ≡ definition_end (drop at events.now) }
    ensures section { IsSectionAt sections.now.sections result.from result.section }
{
    let definition = events.get(at..).unwrap_or(&[]);
    let from = first_place(definition);
    let to = definition_end(definition);
    let section = sections.section_at(from);
    Defined { section, from, to }
}

/// The place of the first event. 0 if there is none.
fn first_place(events: &[Event]) -> usize
    ensures { result ≡ first_place events.now }
{
    match events {
        [first, ..] => first.point.index,
        _ => 0,
    }
}

/// Whether a definition ends at an event.
fn ends_definition(event: &Event) -> bool
    ensures { result ≡ ends_definition event.now }
{
    match event.kind {
        Kind::Enter => false,
        Kind::Exit => event.name == Name::Definition,
    }
}

/// Where the first definition ends. 0 if none ends.
fn definition_end(events: &[Event]) -> usize
    ensures { result ≡ definition_end events.now }
{
    let mut next = 0;
    while next < events.len() {
        if ends_definition(&events[next]) {
            return events[next].point.index;
        }
        next += 1;
    }
    0
}
