//! What links of a section go by.

ghost use Rattle.std.specs.Prelude.{◌≡◌, ◌++◌, ◌≤◌, IfOk, OnOk, drop, length, option_to_list, reverse};
ghost use Rattle.std.specs.List.{list_any};
ghost use Rattle.mddocument_link_targets.specs.Spans.{inside, size_from};
ghost use Rattle.mddocument_link_targets.specs.Targets.{enters_link, label_by, target_in};
ghost use Rattle.mddocument_editing.specs.Exits.{exits_before, exits_from};
ghost use Rattle.mddocument_editing.specs.Said.{link_label, link_labels, linking};

use crate::said::{Said, saids_of};
use markdown_base::event::{Event, Kind, Name};
use markdown_base::owned::{Boxed, Items};
use mddocument_link_targets::spans::enters;
use mddocument_link_targets::targets::label_behind;
use std::alloc::{AllocError, Global};

/// What links of a section go by, by its events. It is kept in a box, so that a section is small: those behind an edit are moved.
#[derive(Drop)]
pub(crate) struct Linking {
    /// The definitions.
    pub(crate) saids: Items<Said>,
    /// The labels by which links and images are, normalised: those of full, collapsed and shortcut references.
    pub(crate) labels: Items<Items<u8>>,
}

/// Whether an event enters a link or an image.
fn enters_link(event: &Event) -> bool
    ensures { result ≡ enters_link event.now }
{
    enters(event, Name::Link) || enters(event, Name::Image)
}

/// All events but the first one.
fn behind_first(events: &[Event]) -> &[Event]
    ensures { result.now ≡ drop 1 events.now }
{
    events.get(1..).unwrap_or(&[])
}

/// The label that a link or an image goes by, if it has no resource, by the events behind its enter: the first ones, so many, are in it. Behind its first
/// event so many are in its own label.
fn label_behind_enter(
    alloc: Global,
    bytes: &[u8],
    behind: &[Event],
    size: usize,
    own_size: usize,
) -> Result<Option<Items<u8>>, AllocError>
    requires size { size ≡ size_from 0 behind.now }
    requires own_size { own_size ≡ size_from 0 (drop 1 behind.now) }
    ensures { IfOk result (λ label. label ≡ label_by (target_in bytes.now (inside behind.now))) }
{
    let rest = behind_first(&behind[..size]);
    let (own, tail) = rest.split_at(own_size.min(rest.len()));
    label_behind(alloc, bytes, own, behind_first(tail))
}

/// The label that the link or the image goes by that the first of events enters, if it enters one without a resource. So many events would be in a span
/// that the first event enters, and so many in one that the second event enters.
fn link_label(
    alloc: Global,
    bytes: &[u8],
    events: &[Event],
    size: usize,
    own_size: usize,
) -> Result<Option<Items<u8>>, AllocError>
    requires size { size ≡ size_from 0 (drop 1 events.now) }
    requires own_size { own_size ≡ size_from 0 (drop 2 events.now) }
    ensures { IfOk result (λ label. label ≡ link_label bytes.now events.now) }
{
    match events.split_first() {
        Some((first, behind)) if enters_link(first) => {
            label_behind_enter(alloc, bytes, behind, size, own_size)
        }
        _ => Ok(None),
    }
}

/// Appends a label, if there is one.
fn push_found(all: &mut Vec<Items<u8>>, found: Option<Items<u8>>) -> Result<(), AllocError>
    ensures { OnOk result (all.new.items ≡ all.old.items ++ option_to_list found) }
{
    if let Some(label) = found {
        all.push(label)?;
    }
    Ok(())
}

/// An event comes before, at an index. An exit is kept; of an enter the last one that was kept is its exit, which goes.
fn keep_exit(exits: &mut Vec<usize>, event: &Event, at: usize) -> Result<(), AllocError>
    ensures { OnOk result (reverse exits.new.items ≡ exits_before event.now.kind at (reverse exits.old.items)) }
{
    match event.kind {
        Kind::Enter => {
            let _ = exits.pop();
        }
        Kind::Exit => exits.push(at)?,
    }
    Ok(())
}

/// How many events would be in a span that were entered directly before an index, by the exits from there on whose enters are before.
fn size_at(exits: &Vec<usize>, events: &[Event], at: usize) -> usize
    requires exits { reverse exits.now.items ≡ exits_from at (drop at events.now) }
    requires inside { at ≤ length events.now }
    ensures { result ≡ size_from 0 (drop at events.now) }
{
    match exits.last() {
        Some(exit) => *exit - at,
        None => events.len() - at,
    }
}

/// Appends the labels that links and images among events go by, from the last one to the first. Each event is passed once; then only what is behind a
/// link's own label is looked at, and the label if nothing else says by which one it is: in neither is a link, in documents.
fn push_all(
    all: &mut Vec<Items<u8>>,
    alloc: Global,
    bytes: &[u8],
    events: &[Event],
) -> Result<(), AllocError>
    ensures { OnOk result (all.new.items ≡ all.old.items ++ link_labels bytes.now events.now) }
{
    let mut exits = Vec::new(alloc);
    let mut own_size = 0;
    let mut at = events.len();
    while at > 0 {
        let size = size_at(&exits, events, at);
        at -= 1;
        let found = link_label(alloc, bytes, &events[at..], size, own_size)?;
        push_found(all, found)?;
        keep_exit(&mut exits, &events[at], at)?;
        own_size = size;
    }
    Ok(())
}

/// Whether a link or an image is among events.
fn link(events: &[Event]) -> bool
    ensures { result ≡ list_any enters_link events.now }
{
    events.iter().any(enters_link)
}

/// The labels that links and images among the events of a section go by, from the last one to the first.
fn labels_of(alloc: Global, bytes: &[u8], events: &[Event]) -> Result<Items<Items<u8>>, AllocError>
    ensures { IfOk result (λ all. all ≡ link_labels bytes.now events.now) }
{
    if !link(events) {
        return Ok(Items::new(alloc));
    }
    let mut all = Vec::new(alloc);
    push_all(&mut all, alloc, bytes, events)?;
    Ok(Items::from_vec(all))
}

/// What links go by that are among the events of a section.
pub(crate) fn linking_of(
    alloc: Global,
    bytes: &[u8],
    events: &[Event],
) -> Result<Boxed<Linking>, AllocError>
    ensures { IfOk result (λ all. all ≡ linking bytes.now events.now) }
{
    let saids = saids_of(alloc, bytes, events)?;
    let labels = labels_of(alloc, bytes, events)?;
    let linking = Box::new(alloc, Linking { saids, labels })?;
    Ok(Boxed::from_box(linking))
}
