//! What the definitions of sections say.

ghost use Rattle.std.specs.Prelude.{◌≡◌, ◌↔◌, ◌++◌, IfOk, OnOk, drop, option_to_list, true};
ghost use Rattle.std.specs.List.{list_any};
ghost use Rattle.markdown_base.specs.declared.event.Name.TheVariants as name;
ghost use Rattle.mddocument_link_targets.specs.Spans.{enters};
ghost use Rattle.mddocument_editing.specs.Said.{said_at, saids};

use markdown_base::event::{Event, Name};
use markdown_base::owned::Items;
use mddocument_link_targets::spans::enters;
use mddocument_link_targets::targets::{Parts, label_at, parts_of};
use std::alloc::{AllocError, Global};

/// A definition: its label, normalised, and what it says.
#[derive(Drop)]
pub(crate) struct Said {
    /// Its label.
    pub(crate) label: Items<u8>,
    /// What it says.
    pub(crate) parts: Parts,
}

/// The definition that is entered at an index, if one is.
fn said_at(
    alloc: Global,
    bytes: &[u8],
    events: &[Event],
    at: usize,
) -> Result<Option<Said>, AllocError>
    ensures { IfOk result (λ said. said ≡ said_at bytes.now (drop at events.now)) }
{
    let label = label_at(alloc, bytes, events, at)?;
    let parts = parts_of(alloc, bytes, events, at)?;
    match (label, parts) {
        (Some(label), Some(parts)) => Ok(Some(Said { label, parts })),
        _ => Ok(None),
    }
}

/// Appends a definition, if there is one.
fn push_found(all: &mut Vec<Said>, found: Option<Said>) -> Result<(), AllocError>
    ensures { OnOk result (all.new.items ≡ all.old.items ++ option_to_list found) }
{
    if let Some(said) = found {
        all.push(said)?;
    }
    Ok(())
}

/// Appends the definitions among events.
fn push_all(
    all: &mut Vec<Said>,
    alloc: Global,
    bytes: &[u8],
    events: &[Event],
) -> Result<(), AllocError>
    ensures { OnOk result (all.new.items ≡ all.old.items ++ saids bytes.now events.now) }
{
    for at in 0..events.len() {
        let found = said_at(alloc, bytes, events, at)?;
        push_found(all, found)?;
    }
    Ok(())
}

/// Whether an event enters a definition.
fn enters_definition(event: &Event) -> bool
    ensures { result ≡ enters name.Definition event.now }
{
    enters(event, Name::Definition)
}

/// Whether a definition is among events.
fn define(events: &[Event]) -> bool
    ensures { result ≡ list_any (enters name.Definition) events.now }
{
    events.iter().any(enters_definition)
}

/// The definitions among the events of a section.
pub(crate) fn saids_of(
    alloc: Global,
    bytes: &[u8],
    events: &[Event],
) -> Result<Items<Said>, AllocError>
    ensures { IfOk result (λ all. all ≡ saids bytes.now events.now) }
{
    if !define(events) {
        return Ok(Items::new(alloc));
    }
    let mut all = Vec::new(alloc);
    push_all(&mut all, alloc, bytes, events)?;
    Ok(Items::from_vec(all))
}

/// A copy of bytes.
fn copied(alloc: Global, bytes: &Items<u8>) -> Result<Items<u8>, AllocError>
    ensures { IfOk result (λ copy. copy ≡ bytes.now) }
{
    Ok(Items::from_vec(bytes.as_slice().to_vec(alloc)?))
}

/// A copy of a title, if there is one.
fn copied_title(alloc: Global, title: &Option<Items<u8>>) -> Result<Option<Items<u8>>, AllocError>
    ensures { IfOk result (λ copy. copy ≡ title.now) }
{
    match title {
        None => Ok(None),
        Some(title) => Ok(Some(copied(alloc, title)?)),
    }
}

/// A copy of a definition.
fn copied_said(alloc: Global, said: &Said) -> Result<Said, AllocError>
    ensures { IfOk result (λ copy. copy ≡ said.now) }
{
    let label = copied(alloc, &said.label)?;
    let destination = copied(alloc, &said.parts.destination)?;
    let title = copied_title(alloc, &said.parts.title)?;
    Ok(Said {
        label,
        parts: Parts { destination, title },
    })
}

/// Appends copies of definitions.
pub(crate) fn push_saids(
    all: &mut Vec<Said>,
    alloc: Global,
    saids: &[Said],
) -> Result<(), AllocError>
    ensures { OnOk result (all.new.items ≡ all.old.items ++ saids.now) }
{
    for index in 0..saids.len() {
        let copy = copied_said(alloc, &saids[index])?;
        all.push(copy)?;
    }
    Ok(())
}

/// Whether these are the same bytes.
fn same_bytes(one: &[u8], other: &[u8]) -> bool
    ensures { (result ≡ true) ↔ (one.now ≡ other.now) }
{
    one == other
}

/// Whether these are the same titles.
fn same_titles(one: &Option<Items<u8>>, other: &Option<Items<u8>>) -> bool
    ensures { (result ≡ true) ↔ (one.now ≡ other.now) }
{
    match (one, other) {
        (None, None) => true,
        (Some(one), Some(other)) => same_bytes(one.as_slice(), other.as_slice()),
        _ => false,
    }
}

/// Whether these are the same destinations and titles.
pub(crate) fn same_parts(one: &Parts, other: &Parts) -> bool
    ensures { (result ≡ true) ↔ (one.now ≡ other.now) }
{
    same_bytes(one.destination.as_slice(), other.destination.as_slice())
        && same_titles(&one.title, &other.title)
}

/// Whether these are the same definitions.
fn same_said(one: &Said, other: &Said) -> bool
    ensures { (result ≡ true) ↔ (one.now ≡ other.now) }
{
    same_bytes(one.label.as_slice(), other.label.as_slice()) && same_parts(&one.parts, &other.parts)
}

/// Whether these are the same definitions, in the same order.
pub(crate) fn same_saids(one: &[Said], other: &[Said]) -> bool
    ensures { result ≡ true → one.now ≡ other.now }
{
    if one.len() != other.len() {
        return false;
    }
    for index in 0..one.len() {
        let same = same_said(&one[index], &other[index]);
        if !same {
            return false;
        }
    }
    true
}
