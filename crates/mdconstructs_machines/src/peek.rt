//! The machine that peeks: it looks at the whole text first, goes back, and then reads it as data.

ghost use Rattle.std.specs.Prelude.{IfOk};
ghost use Rattle.mdconstructs_tables.specs.RowInvariant.{DoesAll, IsCallable, step_in};
ghost use Rattle.mdconstructs_tables.specs.Tables.{line_byte};
ghost use Rattle.mdconstructs_machines.specs.Peek.{text_start, text_before};

use crate::begin::begin;
use crate::reading::{data_inside, data_start};
use markdown_tokenizer::state::{Machine, MachineTypes, Name, State};
use markdown_tokenizer::subtokenize::Subresult;
use markdown_tokenizer::tokenizer::{Fault, Tokenizer};
use std::alloc::{AllocError, Global};

/// Looks at the whole text, and then reads each line as data.
///
/// It takes at most 3 n + 3 calls for n virtual bytes.
#[derive(Drop)]
pub struct Peek {}

impl MachineTypes for Peek {
    type Resolver = ();

    type Document = ();
}

impl Machine for Peek {
    ghost use Rattle.mdconstructs_tables.proofs.Tables.Lawful.{plain-lawful};
    ghost use Rattle.mdconstructs_machines.specs.Peek.{peek, peek_rules};
    ghost use Rattle.mdconstructs_machines.specs.Laws.Peek.{peek-fit, peek-plain};

    ghost rules = { λ _. peek_rules };

    /// Counts the call, and runs the state of this name.
    #[tactic(auto, using(crate::proofs::RowSteps::peek_called))]
    fn call<'a>(
        &self,
        alloc: Global,
        t: &mut Tokenizer<'a, Self>,
        name: Name,
    ) -> Result<State, AllocError> {
        begin(t);
        match name {
            Name::TextStart => text_start(t),
            Name::TextBefore => text_before(t),
            Name::DataStart => data_start(t),
            Name::DataInside => data_inside(t),
            _ => unreachable!(),
        }
    }

    /// Never called, as it registers no resolver.
    fn resolve<'a>(
        &self,
        alloc: Global,
        t: &mut Tokenizer<'a, Self>,
        name: (),
    ) -> Result<Option<Subresult>, Fault> {
        Ok(None)
    }

    ghost lawful = { λ _ g. plain-lawful peek g peek-fit peek-plain };
}

/// Before the look: a check begins, which goes on with data after `Ok` and after `Nok`.
fn text_start<'a>(t: &mut Tokenizer<'a, Peek>) -> Result<State, AllocError>
    requires { IsCallable line_byte text_start t.old }
    ensures { IfOk result (DoesAll (step_in line_byte text_start t.old) t.old t.new) }
{
    t.check(State::Next(Name::DataStart), State::Next(Name::DataStart))?;
    Ok(State::Retry(Name::TextBefore))
}

/// In the look: passes each byte, and fails at the end.
fn text_before<'a>(t: &mut Tokenizer<'a, Peek>) -> Result<State, AllocError>
    requires { IsCallable line_byte text_before t.old }
    ensures { IfOk result (DoesAll (step_in line_byte text_before t.old) t.old t.new) }
{
    match t.current() {
        None => Ok(State::Nok),
        Some(_) => {
            t.consume();
            Ok(State::Next(Name::TextBefore))
        }
    }
}
