//! Delimiter runs: one or more bytes `*`, `_` or `~` (CommonMark, "Emphasis and strong emphasis"; GFM, "Strikethrough").

ghost use Rattle.std.specs.Prelude.{◌≡◌, IfOk};
ghost use Rattle.markdown_tokenizer.specs.Sight.{sight_of};
ghost use Rattle.mdconstructs_tables.specs.RowInvariant.{DoesAll, IsCallable, step_in};
ghost use Rattle.mdinline_machine.specs.RunRows.{attention_start, attention_inside, run_begins, run_goes_on};
ghost use Rattle.mdinline_text_machine.specs.TextBytes.{text_byte};

use markdown_tokenizer::event;
use markdown_tokenizer::state::{MachineTypes, Name, State};
use markdown_tokenizer::tokenizer::Tokenizer;
use std::alloc::AllocError;

/// At the first byte of a delimiter run.
pub(crate) fn attention_start<'a, M: MachineTypes>(
    t: &mut Tokenizer<'a, M>,
) -> Result<State, AllocError>
    requires { IsCallable text_byte attention_start t.old }
    ensures { IfOk result (DoesAll (step_in text_byte attention_start t.old) t.old t.new) }
{
    t.enter(event::Name::AttentionSequence)?;
    t.consume();
    Ok(State::Next(Name::AttentionInside))
}

/// In a delimiter run.
pub(crate) fn attention_inside<'a, M: MachineTypes>(
    t: &mut Tokenizer<'a, M>,
) -> Result<State, AllocError>
    requires { IsCallable text_byte attention_inside t.old }
    ensures { IfOk result (DoesAll (step_in text_byte attention_inside t.old) t.old t.new) }
{
    match t.current() {
        None => {
            t.exit(event::Name::AttentionSequence)?;
            Ok(State::Retry(Name::TextBefore))
        }
        Some(_) => {
            if run_goes_on(t) {
                t.consume();
                return Ok(State::Next(Name::AttentionInside));
            }
            t.exit(event::Name::AttentionSequence)?;
            Ok(State::Retry(Name::TextBefore))
        }
    }
}

/// Whether a run begins: attention is on, and `*` or `_` waits; or strikethrough is on, and `~` waits.
pub(crate) fn run_begins<'a, M: MachineTypes>(t: &Tokenizer<'a, M>) -> bool
    ensures { result ≡ run_begins t.now.given (sight_of t.now) t.now.configuration }
{
    let on = &t.parse_state().options.constructs;
    match t.current() {
        Some(b'*' | b'_') => on.attention,
        Some(b'~') => on.gfm_strikethrough,
        _ => false,
    }
}

/// Whether the run goes on: the byte before waits once more.
fn run_goes_on<'a, M: MachineTypes>(t: &Tokenizer<'a, M>) -> bool
    ensures { result ≡ run_goes_on t.now.given (sight_of t.now) t.now.configuration }
{
    match (t.previous(), t.current()) {
        (Some(before), Some(byte)) => byte == before,
        _ => false,
    }
}
