//! The machine that fails: it passes each byte, and refuses the document at a stated call.

ghost use Rattle.std.specs.Prelude.{◌≡◌, ◌==◌, IfOk};
ghost use Rattle.markdown_tokenizer.specs.Calls.{with_local};
ghost use Rattle.markdown_tokenizer.specs.Configuration.{at_configuration};
ghost use Rattle.mdconstructs_tables.specs.RowInvariant.{DoesAll, IsCallable, step_in};
ghost use Rattle.mdconstructs_tables.specs.Tables.{line_byte};
ghost use Rattle.mdconstructs_machines.specs.Fail.{counted, text_start};

use crate::message::refusal;
use markdown_tokenizer::state::{Machine, MachineTypes, Name, State};
use markdown_tokenizer::subtokenize::Subresult;
use markdown_tokenizer::tokenizer::{Fault, Tokenizer};
use std::alloc::{AllocError, Global};

/// Passes each byte. If `at` calls were counted before a call, that call refuses the document.
///
/// It takes at most n + 1 calls for n virtual bytes. The message is `1:2: x (markdown:r)`.
#[derive(Drop)]
pub struct Fail {
    /// How many calls are counted in `size` before the call that refuses the document.
    pub at: usize,
}

impl MachineTypes for Fail {
    type Resolver = ();

    type Document = ();
}

impl Machine for Fail {
    ghost use Rattle.mdconstructs_tables.proofs.Tables.Lawful.{writing-lawful};
    ghost use Rattle.mdconstructs_machines.specs.Fail.{fail, fail_rules};
    ghost use Rattle.mdconstructs_machines.specs.Laws.Fail.{fail-fit, fail-plain};

    ghost rules = { λ m. fail_rules m.at };

    /// Counts the call, and runs the state of this name.
    fn call<'a>(
        &self,
        alloc: Global,
        t: &mut Tokenizer<'a, Self>,
        name: Name,
    ) -> Result<State, AllocError> {
        t.tick();
        match name {
            Name::TextStart => text_start(alloc, t, self.at),
            _ => unreachable!(),
        }
    }

    /// Never called, as it registers no resolver.
    fn resolve<'a>(
        &self,
        alloc: Global,
        t: &mut Tokenizer<'a, Self>,
        name: (),
    ) -> Result<Option<Subresult>, Fault> {
        Ok(None)
    }

    ghost lawful = { λ m g. writing-lawful (fail m.at) g (fail-fit m.at) (fail-plain m.at) };
}

/// Passes a byte, or returns `Ok` at the end, unless this is the call that refuses the document.
fn text_start<'a>(
    alloc: Global,
    t: &mut Tokenizer<'a, Fail>,
    at: usize,
) -> Result<State, AllocError>
    requires { IsCallable line_byte (text_start at) t.old }
    ensures { IfOk result (DoesAll (step_in line_byte (text_start at) t.old) t.old t.new) }
{
    let refuses = is_refused(t, at);
    count(t);
    if refuses {
        return Ok(State::Error(refusal(alloc)?));
    }
    match t.current() {
        None => Ok(State::Ok),
        Some(_) => {
            t.consume();
            Ok(State::Next(Name::TextStart))
        }
    }
}

/// Whether this call refuses the document: `at` calls were counted before it.
fn is_refused<'a>(t: &Tokenizer<'a, Fail>, at: usize) -> bool
    ensures { result ≡ (t.now.configuration.local.tokenize_state.size == at) }
{
    t.tokenize_state.size == at
}

/// Counts a call.
fn count<'a>(t: &mut Tokenizer<'a, Fail>)
    ensures { t.new ≡ at_configuration t.old (with_local t.old.configuration (counted t.old.configuration)) }
{
    t.tokenize_state.size = t.tokenize_state.size.saturating_add(1);
}
