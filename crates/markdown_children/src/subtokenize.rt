//! Content in content: a child's events replace the chunks from which it was read.

ghost use Rattle.std.specs.Prelude.{◌≡◌, None, Some, IfOk, IfErr, OnErr};
ghost use Rattle.std.specs.Option.{option_copied};
ghost use Rattle.markdown_children.specs.Ready.{IsReady};
ghost use Rattle.markdown_children.specs.Reads.{MayStart, GivesChildren, GivesNoChildren};

use crate::children::{gather, weave};
pub use crate::division::divide_events;
pub use crate::first_paragraph::at_first_paragraph_of_list_item;
pub use crate::readiness::ready;
use markdown_base::event::{Content, Event};
use markdown_tokenizer::parser::ParseState;
use markdown_tokenizer::state::Machine;
use markdown_tokenizer::subtokenize::Subresult;
use markdown_tokenizer::tokenizer::Fault;
use markdown_tokenizer::util::edit_map::EditMap;
use std::alloc::Global;

/// Reads the chains that fit, and replaces their chunks by their children, all at once.
///
/// `filter` is the content of the chains; `None` means all chains. The list must be ready ([`ready`](crate::readiness::ready)), and
/// the machine may start with the state of each content. Each child is read from its chain's chunks, with the gaps between them
/// passed, and resolved. Its tokenizer has `first_paragraph_of_list_item` set if it is there.
///
/// Returns the definitions of both kinds that the children found, in order of chains; `done` is true exactly if no chain fits.
/// Returns `Message` exactly if reading a chain, or a resolver after it, ends in one: the message of the first such chain. Returns
/// `Memory` if it runs out of memory, and never `Failed`. After an error the events are as they were.
pub fn subtokenize<M: Machine>(
    alloc: Global,
    events: &mut Vec<Event>,
    parse_state: &ParseState<M>,
    filter: Option<&Content>,
) -> Result<Subresult, Fault>
    requires ready { IsReady parse_state.now.options.now.tab_size parse_state.now.bytes.now (option_copied filter) events.old.items }
    requires starts { MayStart M.rules parse_state.now (option_copied filter) events.old.items }
    ensures ok { IfOk result (GivesChildren M.rules parse_state.now (option_copied filter.entry) events.old.items events.new.items) }
    ensures err { IfErr result (GivesNoChildren M.rules parse_state.now (option_copied filter.entry) events.old.items) }
    ensures unchanged { OnErr result (events.new.items ≡ events.old.items) }
{
    match filter {
        None => weave_in(alloc, events, parse_state),
        Some(content) => replace_chunks(alloc, events, parse_state, *content),
    }
}

/// As [`subtokenize`], for all chains: the list is written anew, once.
fn weave_in<M: Machine>(
    alloc: Global,
    events: &mut Vec<Event>,
    parse_state: &ParseState<M>,
) -> Result<Subresult, Fault>
    requires ready { IsReady parse_state.now.options.now.tab_size parse_state.now.bytes.now None events.old.items }
    requires starts { MayStart M.rules parse_state.now None events.old.items }
    ensures ok { IfOk result (GivesChildren M.rules parse_state.now None events.old.items events.new.items) }
    ensures err { IfErr result (GivesNoChildren M.rules parse_state.now None events.old.items) }
    ensures unchanged { OnErr result (events.new.items ≡ events.old.items) }
{
    let (woven, found) = weave(alloc, events, parse_state)?;
    *events = woven;
    Ok(found)
}

/// As [`subtokenize`], for the chains of one content: what stays of the list may have links, whose ends move.
fn replace_chunks<M: Machine>(
    alloc: Global,
    events: &mut Vec<Event>,
    parse_state: &ParseState<M>,
    content: Content,
) -> Result<Subresult, Fault>
    requires ready { IsReady parse_state.now.options.now.tab_size parse_state.now.bytes.now (Some content) events.old.items }
    requires starts { MayStart M.rules parse_state.now (Some content) events.old.items }
    ensures ok { IfOk result (GivesChildren M.rules parse_state.now (Some content) events.old.items events.new.items) }
    ensures err { IfErr result (GivesNoChildren M.rules parse_state.now (Some content) events.old.items) }
    ensures unchanged { OnErr result (events.new.items ≡ events.old.items) }
{
    let mut map = EditMap::new(alloc);
    let found = gather(alloc, &mut map, events, parse_state, Some(content))?;
    map.consume(events)?;
    Ok(found)
}
