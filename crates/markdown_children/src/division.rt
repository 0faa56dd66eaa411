//! A child divided over the chunks of its chain.

ghost use Rattle.std.specs.Prelude.{◌≡◌, ◌+◌, ◌-◌, ◌*◌, ◌<◌, ◌≤◌, ◌^◌, ◌++◌, length, drop, map, IfOk, OnOk, OnErr, IfSome, Some, All};
ghost use Rattle.std.specs.Option.{option_and_then};
ghost use Rattle.std.specs.List.{between, AllByRecursion};
ghost use Rattle.std.specs.List.Sorted.{IsNonDecreasingBy};
ghost use Rattle.markdown_base.specs.Events.{EachEnd, relinked};
ghost use Rattle.markdown_edits.specs.Edits.{removed_by, added_by};
ghost use Rattle.markdown_children.specs.Chains.{chain_of};
ghost use Rattle.markdown_children.specs.LawStatements.{HasEndsWithin};
ghost use Rattle.markdown_children.specs.Parts.{front_until, edits_of_chain, CountsOn, IsForward, StandBefore};
ghost use Rattle.markdown_children.specs.Tables.{rest_table, table_place, AreAbove, AreRising, chunk_edit};

use crate::chains::{next_of, place_at, stands_before};
use markdown_base::event::{Event, Link, Point};
use markdown_edits::part::{add_part, reserve_parts};
use markdown_tokenizer::util::edit_map::EditMap;
use std::alloc::{AllocError, Global};

/// Adds to the map one edit for each chunk of a chain: the chunk's two events are removed, and its part of the child is
/// added.
///
/// Child events are assigned in order. Event `j` goes to the first chunk that ends at or after it; the search starts at the chunk of
/// event `j - 1`. If every chunk ends before the event, it goes to the last one. Links of child events are changed to indices into
/// the final list.
///
/// `link_index` is the index of the chain's first chunk. Every edit in the map is before it. `acc_before` is how many events these
/// edits remove, and how many they add. Returns both counts with the edits of the chain included. If it runs out of memory, the map
/// and the child events stay as they were; else no child event is left.
pub fn divide_events(
    alloc: Global,
    map: &mut EditMap,
    events: &[Event],
    link_index: usize,
    child_events: &mut Vec<Event>,
    acc_before: (usize, usize),
) -> Result<(usize, usize), AllocError>
    requires chain { AllByRecursion (IsForward events.now) (chain_of events.now link_index) }
    requires within { link_index + 1 < length events.now }
    requires before { StandBefore map.old link_index }
    requires sums { (acc_before.0 ≡ removed_by map.old) × (acc_before.1 ≡ added_by map.old) }
    requires ends { HasEndsWithin child_events.old.items }
    requires fits { length events.now + acc_before.1 + length child_events.old.items < 2 ^ 64 }
    ensures ok { OnOk result (map.new ≡ map.old ++ edits_of_chain acc_before events.now link_index child_events.old.items) }
    ensures sums { IfOk result (λ acc. CountsOn acc_before acc events.now link_index child_events.old.items) }
    ensures emptied { OnOk result (length child_events.new.items ≡ 0) }
    ensures err { OnErr result ((map.new ≡ map.old) × (child_events.new.items ≡ child_events.old.items)) }
{
    let chunks = chunks_of(alloc, events, link_index, child_events.as_slice())?;
    let mut edits = edits_of(alloc, &chunks, acc_before, child_events.as_slice())?;
    map.append(&mut edits)?;
    let sums = (
        acc_before.0 + 2 * chunks.len(),
        acc_before.1 + child_events.len(),
    );
    child_events.clear();
    Ok(sums)
}

/// A chunk, with the bounds of its part in the child.
#[derive(Clone, Copy)]
pub(crate) struct Chunk {
    /// The index of its enter in the events.
    pub(crate) index: usize,
    /// Where its part starts, an index into the child's events.
    pub(crate) start: usize,
    /// Where its part ends, an index into the child's events.
    pub(crate) end: usize,
}

/// The end of the part that begins at an event of the child: the index of the first event from there on that is after the
/// chunk's end.
fn part_end(child: &[Event], start: usize, end: Point) -> usize
    requires { start ≤ length child.now }
    ensures { result ≡ start + length (front_until end (drop start child.now)) }
{
    let mut at = start;
    while at < child.len() {
        if stands_before(end, child[at].point) {
            return at;
        }
        at += 1;
    }
    at
}

/// The chunks of the chain that begins at an index, with their parts. Returns `AllocError` if it runs out of memory.
fn chunks_of(
    alloc: Global,
    events: &[Event],
    link_index: usize,
    child: &[Event],
) -> Result<Vec<Chunk>, AllocError>
    requires first { link_index + 1 < length events.now }
    requires forward { AllByRecursion (IsForward events.now) (chain_of events.now link_index) }
    ensures { IfOk result (λ v. v.items ≡ rest_table events.now child.now (length events.now) link_index 0) }
{
    let mut chunks = Vec::new(alloc);
    set_chunks(&mut chunks, events, link_index, child)?;
    Ok(chunks)
}

/// As [`chunks_of`], in place of what the list has.
pub(crate) fn set_chunks(
    chunks: &mut Vec<Chunk>,
    events: &[Event],
    link_index: usize,
    child: &[Event],
) -> Result<(), AllocError>
    requires first { link_index + 1 < length events.now }
    requires forward { AllByRecursion (IsForward events.now) (chain_of events.now link_index) }
    ensures { OnOk result (chunks.new.items ≡ rest_table events.now child.now (length events.now) link_index 0) }
{
    chunks.clear();
    let mut index = link_index;
    let mut start = 0;
    while let Some(next) = next_of(events, index) {
        let exit = place_at(events, index + 1);
        let end = part_end(child, start, exit);
        chunks.push(Chunk { index, start, end })?;
        index = next;
        start = end;
    }
    chunks.push(Chunk {
        index,
        start,
        end: child.len(),
    })?;
    Ok(())
}

/// The index of a child event in the final list. Its chunk is the first one that ends after it. As the ends rise, it is found by binary
/// search: a walk along the chunks for each link would take time proportional to links times chunks.
fn place_in(chunks: &[Chunk], acc: (usize, usize), index: usize) -> Option<usize>
    requires apart { AreAbove acc.0 chunks.now }
    requires ends { IsNonDecreasingBy (λ c. c.end) chunks.now }
    requires fits { All (λ c. c.index + 2 + acc.1 + index < 2 ^ 64) chunks.now }
    ensures { result ≡ table_place chunks.now acc.0 acc.1 index }
{
    let (before, added) = acc;
    let passed = chunks.partition_point(|chunk| chunk.end <= index);
    let chunk = chunks.get(passed)?;
    let removed = before + 2 * passed;
    Some(chunk.index - removed + added + index)
}

/// The index in the final list to which a link end of a child event leads.
fn placed_end(chunks: &[Chunk], acc: (usize, usize), end: Option<usize>) -> Option<usize>
    requires apart { AreAbove acc.0 chunks.now }
    requires ends { IsNonDecreasingBy (λ c. c.end) chunks.now }
    requires fits { IfSome end (λ n. All (λ c. c.index + 2 + acc.1 + n < 2 ^ 64) chunks.now) }
    ensures { result ≡ option_and_then (table_place chunks.now acc.0 acc.1) end }
{
    place_in(chunks, acc, end?)
}

/// Changes the link ends of a child event to indices into the final list. An event without a link is not written to.
fn place_link(chunks: &[Chunk], acc: (usize, usize), event: &mut Event)
    requires apart { AreAbove acc.0 chunks.now }
    requires ends { IsNonDecreasingBy (λ c. c.end) chunks.now }
    requires fits { IfSome event.old.link (EachEnd (λ n. All (λ c. c.index + 2 + acc.1 + n < 2 ^ 64) chunks.now)) }
    ensures { event.new ≡ relinked (table_place chunks.now acc.0 acc.1) event.old }
{
    if let Some(link) = event.link {
        event.link = Some(Link {
            previous: placed_end(chunks, acc, link.previous),
            next: placed_end(chunks, acc, link.next),
            ..link
        });
    }
}

/// Changes the link ends of these child events to indices into the final list.
pub(crate) fn place_links(chunks: &[Chunk], acc: (usize, usize), events: &mut [Event])
    requires apart { AreAbove acc.0 chunks.now }
    requires ends { IsNonDecreasingBy (λ c. c.end) chunks.now }
    requires fits { All (λ e. IfSome e.link (EachEnd (λ n. All (λ c. c.index + 2 + acc.1 + n < 2 ^ 64) chunks.now))) events.old }
    ensures { events.new ≡ map (relinked (table_place chunks.now acc.0 acc.1)) events.old }
{
    for event in events.iter_mut() {
        place_link(chunks, acc, event);
    }
}

/// Makes a list the part of a chunk, with link ends as indices into the final list. It is copied as a whole first, as few
/// events have a link.
fn place_part(
    part: &mut Vec<Event>,
    chunks: &[Chunk],
    acc: (usize, usize),
    child: &[Event],
    chunk: Chunk,
) -> Result<(), AllocError>
    requires apart { AreAbove acc.0 chunks.now }
    requires ends { IsNonDecreasingBy (λ c. c.end) chunks.now }
    requires fits { All (λ e. IfSome e.link (EachEnd (λ n. All (λ c. c.index + 2 + acc.1 + n < 2 ^ 64) chunks.now))) child.now }
    requires order { chunk.start ≤ chunk.end }
    requires within { chunk.end ≤ length child.now }
    ensures { OnOk result (part.new.items ≡ map (relinked (table_place chunks.now acc.0 acc.1)) (between chunk.start chunk.end child.now)) }
{
    part.clear();
    part.extend_from_slice(&child[chunk.start..chunk.end])?;
    place_links(chunks, acc, part.as_mut_slice());
    Ok(())
}

/// The edits that replace each chunk by its part. Returns `AllocError` if it runs out of memory.
pub(crate) fn edits_of(
    alloc: Global,
    chunks: &[Chunk],
    acc: (usize, usize),
    child: &[Event],
) -> Result<EditMap, AllocError>
    requires apart { AreAbove acc.0 chunks.now }
    requires ends { IsNonDecreasingBy (λ c. c.end) chunks.now }
    requires rising { AreRising chunks.now }
    requires fits { All (λ e. IfSome e.link (EachEnd (λ n. All (λ c. c.index + 2 + acc.1 + n < 2 ^ 64) chunks.now))) child.now }
    requires within { All (λ c. (c.start ≤ c.end) × (c.end ≤ length child.now)) chunks.now }
    ensures { IfOk result (λ m. m ≡ map (chunk_edit (table_place chunks.now acc.0 acc.1) child.now) chunks.now) }
{
    let mut edits = EditMap::new(alloc);
    reserve_parts(&mut edits, chunks.len(), child.len())?;
    let mut part = Vec::new(alloc);
    for chunk in chunks {
        place_part(&mut part, chunks, acc, child, *chunk)?;
        add_part(&mut edits, chunk.index, 2, &part)?;
    }
    Ok(edits)
}
