//! The children of chains: each is read from the text of its chain's chunks.

ghost use Rattle.std.specs.Prelude.{◌≡◌, ◌+◌, ◌<◌, ◌++◌, [], true, length, Some, None, IfOk, IfErr, OnOk, IsTrue};
ghost use Rattle.std.specs.List.{AllByRecursion};
ghost use Rattle.markdown_edits.specs.Edits.{removed_by, added_by};
ghost use Rattle.markdown_tokenizer.specs.Text.{IsDocument, empty_text};
ghost use Rattle.markdown_tokenizer.specs.Configuration.{start_seen};
ghost use Rattle.markdown_tokenizer.specs.Engine.{given_of};
ghost use Rattle.markdown_tokenizer.specs.Resolving.{with_more};
ghost use Rattle.markdown_children.specs.Chains.{chain_of, begins};
ghost use Rattle.markdown_children.specs.Ready.{IsReady, place_at};
ghost use Rattle.markdown_children.specs.LawStatements.{HasEndsWithin};
ghost use Rattle.markdown_children.specs.Parts.{edits_of_chain, CountsOn, IsForward, StandBefore};
ghost use Rattle.markdown_children.specs.Reads.{start_at, MayStart, GivesChild, GivesNoChild, GivesNoChildren};
ghost use Rattle.markdown_children.specs.SoFar.{HasGathered, with_flag};
ghost use Rattle.markdown_children.specs.Written.{HasWoven};

use crate::chains::{begins_at, next_of, place_at};
use crate::division::divide_events;
use crate::first_paragraph::at_first_paragraph_of_list_item;
use crate::weaving::{push_between, push_child};
use markdown_base::event::{Content, Event, Point};
use markdown_base::owned::Items;
use markdown_tokenizer::parser::ParseState;
use markdown_tokenizer::state::{Machine, Name, State};
use markdown_tokenizer::subtokenize::{Subresult, joined};
use markdown_tokenizer::tokenizer::{Fault, Tokenizer};
use markdown_tokenizer::util::edit_map::EditMap;
use std::alloc::{AllocError, Global};

/// Reads the chains that fit. Adds to an empty map the edits that replace each chain's chunks by its child. Returns
/// `Message` if a chain ends in one, and `Memory` if it runs out of memory.
pub(crate) fn gather<M: Machine>(
    alloc: Global,
    map: &mut EditMap,
    events: &[Event],
    parse_state: &ParseState<M>,
    filter: Option<Content>,
) -> Result<Subresult, Fault>
    requires empty { map.old ≡ [] }
    requires ready { IsReady parse_state.now.options.now.tab_size parse_state.now.bytes.now filter events.now }
    requires starts { MayStart M.rules parse_state.now filter events.now }
    ensures ok { let p = parse_state.now in IfOk result (HasGathered (given_of p) (M.rules p.machine.now) filter events.now map.new) }
    ensures err { IfErr result (GivesNoChildren M.rules parse_state.now filter events.now) }
{
    let mut acc = (0, 0);
    let mut found = Subresult {
        done: true,
        gfm_footnote_definitions: Items::new(alloc),
        definitions: Items::new(alloc),
    };
    for index in 0..events.len() {
        if begins_at(events, index, filter) {
            let (mut child, more) = read_child(alloc, events, index, parse_state, filter)?;
            acc = divide(alloc, map, events, index, &mut child, acc)?;
            found = joined(found, more)?;
            found.done = false;
        }
    }
    Ok(found)
}

/// Reads all chains. Returns the list with their children in place of the chunks, written once: no two chains of a list that is ready
/// interleave, and each event with a link begins a chunk, so no link of the list is left. Returns `Message` if a chain ends in one, and
/// `Memory` if it runs out of memory.
///
/// One tokenizer reads all chains, one after the other, so that its lists are not made anew for each.
pub(crate) fn weave<M: Machine>(
    alloc: Global,
    events: &[Event],
    parse_state: &ParseState<M>,
) -> Result<(Vec<Event>, Subresult), Fault>
    requires ready { IsReady parse_state.now.options.now.tab_size parse_state.now.bytes.now None events.now }
    requires starts { MayStart M.rules parse_state.now None events.now }
    ensures ok { let p = parse_state.now in IfOk result (λ r. HasWoven (given_of p) (M.rules p.machine.now) events.now r.0.items r.1) }
    ensures err { IfErr result (GivesNoChildren M.rules parse_state.now None events.now) }
{
    let mut tokenizer = Tokenizer::new(alloc, Point::START, parse_state);
    let woven = weave_by(alloc, &mut tokenizer, events, parse_state);
    drop(tokenizer);
    woven
}

/// As [`weave`], by this tokenizer.
fn weave_by<'a, M: Machine>(
    alloc: Global,
    tokenizer: &mut Tokenizer<'a, M>,
    events: &[Event],
    parse_state: &'a ParseState<'a, M>,
) -> Result<(Vec<Event>, Subresult), Fault>
    requires document { IsDocument (given_of parse_state.now) }
    requires ready { IsReady parse_state.now.options.now.tab_size parse_state.now.bytes.now None events.now }
    requires starts { MayStart M.rules parse_state.now None events.now }
    ensures ok { let p = parse_state.now in IfOk result (λ r. HasWoven (given_of p) (M.rules p.machine.now) events.now r.0.items r.1) }
    ensures err { IfErr result (GivesNoChildren M.rules parse_state.now None events.now) }
{
    // A child has more events than its chunks. With so much room at once the list seldom moves while chains are read.
    let mut woven = Vec::with_capacity(alloc, events.len().saturating_add(events.len() / 2))?;
    let mut chunks = Vec::new(alloc);
    let mut from = 0;
    let mut acc = (0, 0);
    let mut found = Subresult {
        done: true,
        gfm_footnote_definitions: Items::new(alloc),
        definitions: Items::new(alloc),
    };
    for index in 0..events.len() {
        if begins_at(events, index, None) {
            let more = read_again(tokenizer, events, index, parse_state, None)?;
            let child = tokenizer.events();
            let (end, sums) = push_child(&mut chunks, &mut woven, events, index, child, from, acc)?;
            from = end;
            acc = sums;
            found = with_found(found, more)?;
            found.done = false;
        }
    }
    push_between(&mut woven, events, from, events.len())?;
    Ok((woven, found))
}

/// The state with which the chain of the event at an index is read.
fn start_at(events: &[Event], index: usize) -> Option<Name>
    requires { index < length events.now }
    ensures { result ≡ start_at events.now index }
{
    match events[index].link {
        None => None,
        Some(link) => match link.content {
            Content::Flow => None,
            Content::Content => Some(Name::ContentDefinitionBefore),
            Content::String => Some(Name::StringStart),
            Content::Text => Some(Name::TextStart),
        },
    }
}

/// Reads the child of the chain that begins at `index`, by a tokenizer of its own.
fn read_child<M: Machine>(
    alloc: Global,
    events: &[Event],
    index: usize,
    parse_state: &ParseState<M>,
    filter: Option<Content>,
) -> Result<(Vec<Event>, Subresult), Fault>
    requires ready { IsReady parse_state.now.options.now.tab_size parse_state.now.bytes.now filter events.now }
    requires begins { begins filter events.now index ≡ true }
    requires starts { MayStart M.rules parse_state.now filter events.now }
    ensures ok { IfOk result (λ r. GivesChild M.rules parse_state.now events.now index r.0.items r.1) }
    ensures err { IfErr result (GivesNoChild M.rules parse_state.now events.now index) }
{
    let mut tokenizer = Tokenizer::new(alloc, Point::START, parse_state);
    let read = read_again(&mut tokenizer, events, index, parse_state, filter);
    let events = tokenizer.into_events();
    Ok((events, read?))
}

/// Reads the child of the chain that begins at `index`, by a tokenizer that begins anew: pushes its chunks, and passes the gaps
/// between them.
fn read_again<'a, M: Machine>(
    tokenizer: &mut Tokenizer<'a, M>,
    events: &[Event],
    index: usize,
    parse_state: &'a ParseState<'a, M>,
    filter: Option<Content>,
) -> Result<Subresult, Fault>
    requires document { IsDocument (given_of parse_state.now) }
    requires ready { IsReady parse_state.now.options.now.tab_size parse_state.now.bytes.now filter events.now }
    requires begins { begins filter events.now index ≡ true }
    requires starts { MayStart M.rules parse_state.now filter events.now }
    ensures ok { IfOk result (GivesChild M.rules parse_state.now events.now index tokenizer.new.configuration.events) }
    ensures err { IfErr result (GivesNoChild M.rules parse_state.now events.now index) }
{
    let Some(start) = start_at(events, index) else {
        unreachable!();
    };
    tokenizer.restart(place_at(events, index), parse_state);
    read_chunks(tokenizer, events, index, parse_state, filter, start)
}

/// Reads the chain that begins at `index` with a tokenizer that has read nothing: pushes the chunks, passes the gaps
/// between them, and feeds the end.
fn read_chunks<M: Machine>(
    tokenizer: &mut Tokenizer<M>,
    events: &[Event],
    index: usize,
    parse_state: &ParseState<M>,
    filter: Option<Content>,
    start: Name,
) -> Result<Subresult, Fault>
    requires new { let p = parse_state.now in tokenizer.old ≡ start_seen (given_of p) p.machine.now (empty_text (place_at events.now index)) }
    requires document { IsDocument (given_of parse_state.now) }
    requires ready { IsReady parse_state.now.options.now.tab_size parse_state.now.bytes.now filter events.now }
    requires begins { begins filter events.now index ≡ true }
    requires start { start_at events.now index ≡ Some start }
    requires starts { MayStart M.rules parse_state.now filter events.now }
    ensures ok { IfOk result (GivesChild M.rules parse_state.now events.now index tokenizer.new.configuration.events) }
    ensures err { IfErr result (GivesNoChild M.rules parse_state.now events.now index) }
{
    let first = at_first_paragraph_of_list_item(events, index, &parse_state.options.constructs);
    set_first_paragraph(tokenizer, first);
    let mut at = index;
    let (from, to) = range_of(events, at);
    let mut state = tokenizer.push(from, to, State::Next(start))?;
    while let Some(next) = next_of(events, at) {
        let gap = place_at(events, next);
        tokenizer.define_skip(gap)?;
        let (from, to) = range_of(events, next);
        state = tokenizer.push(from, to, state)?;
        at = next;
    }
    tokenizer.flush(state, true)
}

/// As [`joined`]. Few children find a definition, so mostly nothing is moved.
#[inline(always)]
fn with_found(found: Subresult, more: Subresult) -> Result<Subresult, AllocError>
    ensures { IfOk result (λ all. all ≡ with_more found (Some more)) }
{
    if finds_nothing(&more) {
        return Ok(found);
    }
    joined(found, more)
}

/// No definition was found.
fn finds_nothing(sub: &Subresult) -> bool
    ensures { IsTrue result → (sub.now.gfm_footnote_definitions ≡ []) × (sub.now.definitions ≡ []) }
{
    sub.gfm_footnote_definitions.as_slice().is_empty() && sub.definitions.as_slice().is_empty()
}

/// Sets in a tokenizer whether its text is in the first paragraph of a list item.
fn set_first_paragraph<'a, M: Machine>(t: &mut Tokenizer<'a, M>, first: bool)
    ensures { t.new ≡ with_flag first t.old }
{
    t.tokenize_state.document_at_first_paragraph_of_list_item = first;
}

/// The range of a chunk, by its places.
fn range_of(events: &[Event], index: usize) -> ((usize, usize), (usize, usize))
    requires inside { index + 1 < length events.now }
    ensures { let from = place_at events.now index in let to = place_at events.now (index + 1) in
        result ≡ ((from.index, from.vs), (to.index, to.vs)) }
{
    let from = events[index].point;
    let to = events[index + 1].point;
    ((from.index, from.vs), (to.index, to.vs))
}

/// Divides a child as [`divide_events`] does. Returns `Memory` also if the lists together are too long.
fn divide(
    alloc: Global,
    map: &mut EditMap,
    events: &[Event],
    index: usize,
    child: &mut Vec<Event>,
    acc: (usize, usize),
) -> Result<(usize, usize), Fault>
    requires chain { AllByRecursion (IsForward events.now) (chain_of events.now index) }
    requires within { index + 1 < length events.now }
    requires before { StandBefore map.old index }
    requires sums { (acc.0 ≡ removed_by map.old) × (acc.1 ≡ added_by map.old) }
    requires ends { HasEndsWithin child.old.items }
    ensures ok { OnOk result (map.new ≡ map.old ++ edits_of_chain acc events.now index child.old.items) }
    ensures sums { IfOk result (λ sums. CountsOn acc sums events.now index child.old.items) }
    ensures err { IfErr result (λ fault. fault ≡ Fault.Memory) }
{
    let Some(most) = events.len().checked_add(acc.1) else {
        return Err(Fault::Memory);
    };
    if most.checked_add(child.len()).is_none() {
        return Err(Fault::Memory);
    }
    let sums = divide_events(alloc, map, events, index, child, acc)?;
    Ok(sums)
}
