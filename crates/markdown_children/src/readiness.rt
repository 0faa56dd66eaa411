//! Whether the chains of a list can be read.

ghost use Rattle.std.specs.Prelude.{◌≡◌, ◌+◌, ◌<◌, ◌↔◌, false, true, cond, length, reverse, Some, None, IfOk};
ghost use Rattle.std.specs.Option.{option_copied};
ghost use Rattle.markdown_base.specs.Virtual.{IsWithinLimit};
ghost use Rattle.markdown_base.specs.declared.event.Kind.TheVariants.{Exit};
ghost use Rattle.markdown_base.specs.OpenNames.{names_after};
ghost use Rattle.markdown_children.specs.Ready.{IsReady};
ghost use Rattle.markdown_children.specs.ReadyTests.{closes, link_at, is_chunk, leads_back_to, is_joined_on, is_joined_back, is_sound_at, is_in_line, has_no_link, is_gap, is_readable, AllBelow, FailsSomewhere};
ghost use Rattle.markdown_children.specs.StartTests.{AreStarts, is_place_of, can_be_read_from};

use crate::byte_starts::ByteStarts;
use crate::chains::{lets_through, place_at, stands_before};
use markdown_base::configuration::TabSize;
use markdown_base::event::{Content, Event, Kind, Link, Name, Point};
use std::alloc::{AllocError, Global};

/// Whether the chains of a list that fit can be read. `filter` is their content; `None` means all chains.
///
/// The list must be balanced, and each linked event must enter a void span whose exit follows it. The next event of a link must link
/// back to it, and the previous one on to it. A chain goes forwards and has one content. In each chain that fits, that content is not
/// Flow. Its chunks begin and end at places of the document that are shown, and none ends before it begins. Between two of its chunks
/// are only whole spans without links. They cover no text, or text from the beginning of a line on, within that line.
///
/// The list may be any, and its link ends may be any numbers. There is a tab stop at every `tab_size` columns. Returns `AllocError`
/// if it runs out of memory.
pub fn ready(
    alloc: Global,
    events: &[Event],
    bytes: &[u8],
    tab_size: TabSize,
    filter: Option<&Content>,
) -> Result<bool, AllocError>
    requires limit { IsWithinLimit tab_size bytes.now }
    ensures { IfOk result (λ b. (b ≡ true) ↔ IsReady tab_size bytes.now (option_copied filter.entry) events.now) }
{
    let t = tab_size.get();
    if !closes(alloc, events)? {
        return Ok(false);
    }
    if !are_sound(events) {
        return Ok(false);
    }
    let starts = ByteStarts::new(alloc, bytes, t)?;
    can_be_read(alloc, events, &starts, filter.copied())
}

/// Whether a list is balanced, by a stack of the open names.
fn closes(alloc: Global, events: &[Event]) -> Result<bool, AllocError>
    ensures { IfOk result (λ b. b ≡ closes events.now) }
{
    let mut names: Vec<Name> = Vec::new(alloc);
    for event in events {
        match event.kind {
            Kind::Enter => names.push(event.name)?,
            Kind::Exit => {
                if !exits_last(&mut names, event.name) {
                    return Ok(false);
                }
            }
        }
    }
    Ok(names.is_empty())
}

/// Takes the last name from the open names. Returns whether it is `name`.
fn exits_last(names: &mut Vec<Name>, name: Name) -> bool
    ensures { names_after Exit name (reverse names.old.items) ≡ cond result (Some (reverse names.new.items)) None }
{
    names.pop() == Some(name)
}

/// The link of the event at an index, if there is one.
fn link_at(events: &[Event], index: usize) -> Option<Link>
    ensures { result ≡ link_at events.now index }
{
    events.get(index)?.link
}

/// Whether an event enters a void name, and the next one exits it.
fn is_chunk(events: &[Event], index: usize) -> bool
    requires inside { index < length events.now }
    ensures { result ≡ is_chunk events.now index }
{
    let enter = &events[index];
    match events.get(index + 1) {
        None => false,
        Some(exit) => {
            (enter.kind == Kind::Enter && enter.name.is_void())
                && (exit.kind == Kind::Exit && exit.name == enter.name)
        }
    }
}

/// Whether there is a link, its previous event is at `index`, and its content is this one.
fn leads_back_to(link: Option<Link>, index: usize, content: Content) -> bool
    ensures { result ≡ leads_back_to index content link }
{
    link.is_some_and(|link| link.previous == Some(index) && link.content == content)
}

/// Whether the next event in the chain, if there is one, links back to this one.
fn is_joined_on(events: &[Event], index: usize, link: Link) -> bool
    ensures { result ≡ is_joined_on events.now index link.content link.next }
{
    match link.next {
        None => true,
        Some(next) => { index < next && leads_back_to(link_at(events, next), index, link.content) }
    }
}

/// Whether the previous event in the chain, if there is one, links on to this one.
fn is_joined_back(events: &[Event], index: usize, link: Link) -> bool
    ensures { result ≡ is_joined_back events.now index link.previous }
{
    match link.previous {
        None => true,
        Some(previous) => match link_at(events, previous) {
            None => false,
            Some(other) => other.next == Some(index),
        },
    }
}

/// Whether the event at an index has no link, or begins a chunk whose neighbours link to it.
fn is_sound_at(events: &[Event], index: usize) -> bool
    requires inside { index < length events.now }
    ensures { result ≡ is_sound_at events.now index }
{
    match link_at(events, index) {
        None => true,
        Some(link) => {
            is_chunk(events, index)
                && (is_joined_on(events, index, link) && is_joined_back(events, index, link))
        }
    }
}

/// Whether each linked event begins a chunk whose neighbours link to it.
fn are_sound(events: &[Event]) -> bool
    ensures all { result ≡ true → AllBelow (length events.now) (is_sound_at events.now) }
    ensures some { result ≡ false → FailsSomewhere (length events.now) (is_sound_at events.now) }
{
    for index in 0..events.len() {
        if !is_sound_at(events, index) {
            return false;
        }
    }
    true
}

/// Whether there is no text between two places, or text that begins a line and ends in it.
fn is_in_line(from: Point, to: Point) -> bool
    ensures { result ≡ is_in_line from to }
{
    !stands_before(to, from) && (from == to || (from.column == 1 && to.line == from.line))
}

/// Whether no event has a link.
fn has_no_link(events: &[Event]) -> bool
    ensures { result ≡ has_no_link events.now }
{
    events.iter().all(|event| event.link.is_none())
}

/// Whether the events between the chunk at `index` and the next one are a gap, which a tokenizer can pass.
fn is_gap(alloc: Global, events: &[Event], index: usize, next: usize) -> Result<bool, AllocError>
    requires inside { index + 1 < length events.now }
    requires end { next < length events.now }
    ensures { IfOk result (λ b. b ≡ is_gap events.now index next) }
{
    if next < index + 2 {
        return Ok(false);
    }
    if !is_in_line(place_at(events, index + 1), place_at(events, next)) {
        return Ok(false);
    }
    let inside = &events[index + 2..next];
    if !has_no_link(inside) {
        return Ok(false);
    }
    closes(alloc, inside)
}

/// Whether the text of a chunk can be read: it begins and ends at places of the document, and does not run backwards.
fn is_readable(events: &[Event], starts: &ByteStarts, index: usize, content: Content) -> bool
    requires starts { AreStarts starts.now }
    requires inside { index + 1 < length events.now }
    ensures { result ≡ is_readable (is_place_of starts.now) events.now index content }
{
    let from = place_at(events, index);
    let to = place_at(events, index + 1);
    (content != Content::Flow && !stands_before(to, from))
        && (starts.is_place(from) && starts.is_place(to))
}

/// Whether the event at an index is in no chain that fits, or its chunk and the gap behind it can be read.
fn can_be_read_at(
    alloc: Global,
    events: &[Event],
    starts: &ByteStarts,
    filter: Option<Content>,
    index: usize,
) -> Result<bool, AllocError>
    requires starts { AreStarts starts.now }
    requires inside { index < length events.now }
    requires sound { is_sound_at events.now index ≡ true }
    ensures { IfOk result (λ b. b ≡ can_be_read_from starts.now filter events.now index) }
{
    let Some(link) = link_at(events, index) else {
        return Ok(true);
    };
    if !lets_through(filter, link.content) {
        return Ok(true);
    }
    if !is_readable(events, starts, index, link.content) {
        return Ok(false);
    }
    match link.next {
        None => Ok(true),
        Some(next) => is_gap(alloc, events, index, next),
    }
}

/// Whether each chunk that fits, and the gap behind it, can be read.
fn can_be_read(
    alloc: Global,
    events: &[Event],
    starts: &ByteStarts,
    filter: Option<Content>,
) -> Result<bool, AllocError>
    requires starts { AreStarts starts.now }
    requires sound { AllBelow (length events.now) (is_sound_at events.now) }
    ensures all { IfOk result (λ b. b ≡ true → AllBelow (length events.now) (can_be_read_from starts.now filter events.now)) }
    ensures some { IfOk result (λ b. b ≡ false → FailsSomewhere (length events.now) (can_be_read_from starts.now filter events.now)) }
{
    for index in 0..events.len() {
        if !can_be_read_at(alloc, events, starts, filter, index)? {
            return Ok(false);
        }
    }
    Ok(true)
}
