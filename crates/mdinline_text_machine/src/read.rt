//! A whole document, read as text.

ghost use Rattle.std.specs.Prelude.{◌≡◌, IfOk, IfErr};
ghost use Rattle.markdown_base.specs.Virtual.{IsWithinLimit};
ghost use Rattle.markdown_tokenizer.specs.Engine.{AreCuts, given_by, whole_text};
ghost use Rattle.mdinline_text_machine.specs.ChainTexts.{IsRunOfTexts};
ghost use Rattle.mdinline_text_machine.specs.TextEvents.{text_events};

use crate::text::Text;
use markdown_tokenizer::configuration::ParseOptions;
use markdown_tokenizer::event::Event;
use markdown_tokenizer::parser::ParseState;
use markdown_tokenizer::state::Name;
use markdown_tokenizer::tokenizer::{Fault, run};
use std::alloc::Global;

/// Reads a whole document as text, cut at these places. Code spans, autolinks and backslash escapes are read if the options have
/// them on, line endings always, and all else is data (CommonMark, "Inlines"). The definition of these events has no states. The
/// events do not depend on the cuts. They are those of a run: balanced, in order, and each at a place of the document.
///
/// The cuts are places, each a byte index and a number in a tab, in an order that never decreases. The only fault is
/// `Memory`: it runs out of memory.
pub fn read_text(
    alloc: Global,
    bytes: &[u8],
    options: &ParseOptions,
    cuts: &[(usize, usize)],
) -> Result<Vec<Event>, Fault>
    requires limit { IsWithinLimit options.now.tab_size bytes.now }
    requires cuts { AreCuts options.now.tab_size bytes.now cuts.now }
    ensures ok { IfOk result (λ events. let g = given_by bytes.now options.now in events.items ≡ text_events g (whole_text g)) }
    ensures run { IfOk result (λ events. IsRunOfTexts (given_by bytes.now options.now) events.items) }
    ensures err { IfErr result (λ fault. fault ≡ Fault.Memory) }
{
    let machine = Text {};
    let Some(parse_state) = ParseState::new(bytes, options, &machine) else {
        unreachable!();
    };
    match run(alloc, &parse_state, Name::TextStart, cuts, false) {
        Ok((events, _)) => Ok(events),
        Err(Fault::Memory) => Err(Fault::Memory),
        Err(Fault::Message(_message)) => unreachable!(),
        Err(Fault::Failed) => unreachable!(),
    }
}
