//! Chunks of a paragraph, each linked to the chunk before: what a machine that links them does besides its calls.
//!
//! Two fields of the tokenizer's state say whether a chunk came before in the paragraph, `connect`, and the index of its enter,
//! `start`.

ghost use Rattle.std.specs.Prelude.{◌≡◌};
ghost use Rattle.markdown_tokenizer.specs.Calls.{with_local};
ghost use Rattle.markdown_tokenizer.specs.Configuration.{at_configuration};
ghost use Rattle.markdown_edits.specs.Links.{CanLink};
ghost use Rattle.mdconstructs_tables.specs.Chunks.{alone, chunk_before, connected, last_event, chained};

use markdown_tokenizer::state::MachineTypes;
use markdown_tokenizer::tokenizer::Tokenizer;

/// The index of the last event, or 0 if there is none.
pub fn last_event<'a, M: MachineTypes>(t: &Tokenizer<'a, M>) -> usize
    ensures { result ≡ last_event t.now.configuration }
{
    t.events().len().saturating_sub(1)
}

/// Whether a chunk came before in the paragraph.
pub fn is_connected<'a, M: MachineTypes>(t: &Tokenizer<'a, M>) -> bool
    ensures { result ≡ t.now.configuration.local.tokenize_state.connect }
{
    t.tokenize_state.connect
}

/// Links the chunk that the last event begins to the chunk before, whose enter is at the index that [`connect`] noted. Nothing
/// else changes.
pub fn link_chunk<'a, M: MachineTypes>(t: &mut Tokenizer<'a, M>)
    requires { CanLink t.old.configuration.events (chunk_before t.old.configuration) (last_event t.old.configuration) }
    ensures { t.new ≡ at_configuration t.old (chained t.old.configuration) }
{
    let before = t.tokenize_state.start;
    t.link_to(before, last_event(t));
}

/// Notes that no chunk came before in the paragraph. Nothing else changes.
pub fn disconnect<'a, M: MachineTypes>(t: &mut Tokenizer<'a, M>)
    ensures { t.new ≡ at_configuration t.old (with_local t.old.configuration (alone t.old.configuration)) }
{
    t.tokenize_state.connect = false;
}

/// Notes the last event as the enter of the chunk that came before. Nothing else changes.
pub fn connect<'a, M: MachineTypes>(t: &mut Tokenizer<'a, M>)
    ensures { t.new ≡ at_configuration t.old (with_local t.old.configuration (connected t.old.configuration)) }
{
    t.tokenize_state.start = last_event(t);
    t.tokenize_state.connect = true;
}
