//! A whole document, read as inline text.

ghost use Rattle.std.specs.Prelude.{◌≡◌, IfOk, IfErr};
ghost use Rattle.markdown_base.specs.Virtual.{IsWithinLimit};
ghost use Rattle.markdown_tokenizer.specs.Engine.{AreCuts, given_by, whole_text};
ghost use Rattle.mdinline_machine.specs.InlineEvents.{inline_events};
ghost use Rattle.mdinline_machine.specs.InlineRules.{no_labels};
ghost use Rattle.mdinline_machine.specs.LawStatements.{IsRunOfInlines};

use crate::inlines::Inlines;
use markdown_tokenizer::configuration::ParseOptions;
use markdown_tokenizer::event::Event;
use markdown_tokenizer::parser::ParseState;
use markdown_tokenizer::state::Name;
use markdown_tokenizer::tokenizer::{Fault, run};
use mdinline_labels::labels::Labels;
use std::alloc::Global;

/// Reads a whole document as inline text, cut at these places: as `read_text` does, with emphasis if the options have attention on
/// (CommonMark, "Inlines"), and no labels. The definition of these events has no states. The events do not depend on the cuts. They are those of a
/// run that resolves: balanced, and without links.
///
/// The cuts are places, each a byte index and a number in a tab, in an order that never decreases. The only fault is
/// `Memory`: it runs out of memory.
pub fn read_inline_text(
    alloc: Global,
    bytes: &[u8],
    options: &ParseOptions,
    cuts: &[(usize, usize)],
) -> Result<Vec<Event>, Fault>
    requires limit { IsWithinLimit options.now.tab_size bytes.now }
    requires cuts { AreCuts options.now.tab_size bytes.now cuts.now }
    ensures ok { IfOk result (λ events. let g = given_by bytes.now options.now in events.items ≡ inline_events no_labels g (whole_text g)) }
    ensures run { IfOk result (λ events. IsRunOfInlines no_labels (given_by bytes.now options.now) events.items) }
    ensures err { IfErr result (λ fault. fault ≡ Fault.Memory) }
{
    let machine = Inlines {
        labels: Labels::new(alloc),
    };
    let Some(parse_state) = ParseState::new(bytes, options, &machine) else {
        unreachable!();
    };
    match run(alloc, &parse_state, Name::TextStart, cuts, true) {
        Ok((events, _)) => Ok(events),
        Err(Fault::Memory) => Err(Fault::Memory),
        Err(Fault::Message(_message)) => unreachable!(),
        Err(Fault::Failed) => unreachable!(),
    }
}
