//! A list written anew, with the parts of a child in place of the chunks of its chain.

ghost use Rattle.std.specs.Prelude.{◌≡◌, ◌+◌, ◌*◌, ◌<◌, ◌≤◌, ◌^◌, ◌++◌, length, map, IfOk, IfErr, OnOk, IfSome, All};
ghost use Rattle.std.specs.List.{between, AllByRecursion};
ghost use Rattle.std.specs.List.Sorted.{IsNonDecreasingBy};
ghost use Rattle.markdown_base.specs.Events.{EachEnd, relinked};
ghost use Rattle.markdown_edits.specs.Edits.{AreDisjoint};
ghost use Rattle.markdown_children.specs.Chains.{chain_of};
ghost use Rattle.markdown_children.specs.LawStatements.{HasEndsWithin};
ghost use Rattle.markdown_children.specs.Parts.{edits_of_chain, CountsOn, IsForward};
ghost use Rattle.markdown_children.specs.Tables.{table_place, AreAbove, chunk_edit};
ghost use Rattle.markdown_children.specs.Written.{written, end_of};

use crate::division::{Chunk, place_links, set_chunks};
use markdown_base::event::Event;
use markdown_tokenizer::tokenizer::Fault;
use std::alloc::AllocError;

/// A list of so many events grows by a sixteenth, and a shorter one by a quarter.
const MANY: usize = 16384;

/// Makes room for so many events more. If there is not enough, the list grows by a quarter at least, and from [`MANY`] events on by a sixteenth,
/// so that little of its memory is unused, or, if there is not so much memory, by these alone. If it runs out of memory, nothing changes.
fn make_room(woven: &mut Vec<Event>, more: usize) -> Result<(), AllocError>
    ensures { woven.new.items ≡ woven.old.items }
{
    if more <= woven.capacity() - woven.len() {
        return Ok(());
    }
    let least = if woven.len() < MANY {
        woven.len() / 4
    } else {
        woven.len() / 16
    };
    match woven.reserve_exact(more.max(least)) {
        Ok(()) => Ok(()),
        Err(_) => woven.reserve_exact(more),
    }
}

/// Pushes the events between two indices.
pub(crate) fn push_between(
    woven: &mut Vec<Event>,
    events: &[Event],
    from: usize,
    to: usize,
) -> Result<(), AllocError>
    requires order { from ≤ to }
    requires within { to ≤ length events.now }
    ensures { OnOk result (woven.new.items ≡ woven.old.items ++ between from to events.now) }
{
    make_room(woven, to - from)?;
    woven.extend_from_slice(&events[from..to])
}

/// Pushes the part of a chunk, with link ends as indices into the final list.
fn push_part(
    woven: &mut Vec<Event>,
    chunks: &[Chunk],
    acc: (usize, usize),
    child: &[Event],
    chunk: Chunk,
) -> Result<(), AllocError>
    requires apart { AreAbove acc.0 chunks.now }
    requires ends { IsNonDecreasingBy (λ c. c.end) chunks.now }
    requires fits { All (λ e. IfSome e.link (EachEnd (λ n. All (λ c. c.index + 2 + acc.1 + n < 2 ^ 64) chunks.now))) child.now }
    requires order { chunk.start ≤ chunk.end }
    requires within { chunk.end ≤ length child.now }
    ensures { OnOk result (woven.new.items ≡ woven.old.items ++ map (relinked (table_place chunks.now acc.0 acc.1)) (between chunk.start chunk.end child.now)) }
{
    let at = woven.len();
    push_between(woven, child, chunk.start, chunk.end)?;
    place_links(chunks, acc, &mut woven.as_mut_slice()[at..]);
    Ok(())
}

/// Pushes the events from an index on, with the part of each chunk in place of its two events. Returns the index behind the last chunk.
fn push_parts(
    woven: &mut Vec<Event>,
    events: &[Event],
    chunks: &[Chunk],
    acc: (usize, usize),
    child: &[Event],
    from: usize,
) -> Result<usize, AllocError>
    requires apart { AreAbove acc.0 chunks.now }
    requires ends { IsNonDecreasingBy (λ c. c.end) chunks.now }
    requires fits { All (λ e. IfSome e.link (EachEnd (λ n. All (λ c. c.index + 2 + acc.1 + n < 2 ^ 64) chunks.now))) child.now }
    requires within { All (λ c. (c.start ≤ c.end) × (c.end ≤ length child.now)) chunks.now }
    requires disjoint { AreDisjoint from (map (chunk_edit (table_place chunks.now acc.0 acc.1) child.now) chunks.now) (length events.now) }
    ensures written { OnOk result (woven.new.items ≡ woven.old.items ++ written from (map (chunk_edit (table_place chunks.now acc.0 acc.1) child.now) chunks.now) events.now) }
    ensures end { IfOk result (λ to. to ≡ end_of from (map (chunk_edit (table_place chunks.now acc.0 acc.1) child.now) chunks.now)) }
{
    let mut at = from;
    for chunk in chunks {
        push_between(woven, events, at, chunk.index)?;
        push_part(woven, chunks, acc, child, *chunk)?;
        at = chunk.index + 2;
    }
    Ok(at)
}

/// Pushes the events from an index on up to the end of the chain that begins at `link_index`, with the parts of its child in place of its
/// chunks. `acc` is how many events the edits before remove, and how many they add. Returns the index behind the chain, and both counts
/// with the edits of the chain included. Returns `Memory` also if the lists together are too long. `chunks` is room for the chunks.
pub(crate) fn push_child(
    chunks: &mut Vec<Chunk>,
    woven: &mut Vec<Event>,
    events: &[Event],
    link_index: usize,
    child: &[Event],
    from: usize,
    acc: (usize, usize),
) -> Result<(usize, (usize, usize)), Fault>
    requires chain { AllByRecursion (IsForward events.now) (chain_of events.now link_index) }
    requires within { link_index + 1 < length events.now }
    requires before { from ≤ link_index }
    requires removed { acc.0 ≤ link_index }
    requires ends { HasEndsWithin child.now }
    ensures written { OnOk result (woven.new.items ≡ woven.old.items ++ written from (edits_of_chain acc events.now link_index child.now) events.now) }
    ensures end { IfOk result (λ r. r.0 ≡ end_of from (edits_of_chain acc events.now link_index child.now)) }
    ensures sums { IfOk result (λ r. CountsOn acc r.1 events.now link_index child.now) }
    ensures err { IfErr result (λ fault. fault ≡ Fault.Memory) }
{
    let Some(most) = events.len().checked_add(acc.1) else {
        return Err(Fault::Memory);
    };
    if most.checked_add(child.len()).is_none() {
        return Err(Fault::Memory);
    }
    set_chunks(chunks, events, link_index, child)?;
    let chunks = chunks.as_slice();
    let end = push_parts(woven, events, chunks, acc, child, from)?;
    Ok((end, (acc.0 + 2 * chunks.len(), acc.1 + child.len())))
}
