//! The machine that saves its place. It passes the first line, and makes an attempt there, which fails. It goes back to
//! the end of that line, and reads the rest as data.

ghost use Rattle.std.specs.Prelude.{IfOk};
ghost use Rattle.mdconstructs_tables.specs.RowInvariant.{DoesAll, IsCallable, step_in};
ghost use Rattle.mdconstructs_tables.specs.Tables.{line_byte};
ghost use Rattle.mdconstructs_machines.specs.Save.{text_start, text_before};

use crate::begin::begin;
use crate::reading::{data_inside, data_start};
use markdown_tokenizer::state::{Machine, MachineTypes, Name, State};
use markdown_tokenizer::subtokenize::Subresult;
use markdown_tokenizer::tokenizer::{Fault, Tokenizer};
use std::alloc::{AllocError, Global};

/// Passes the first line, and makes an attempt directly after the line ending, which fails. It goes back to that place,
/// and reads each line of the rest as data.
///
/// It takes at most 2 n + 1 calls for n virtual bytes.
#[derive(Drop)]
pub struct Save {}

impl MachineTypes for Save {
    type Resolver = ();

    type Document = ();
}

impl Machine for Save {
    ghost use Rattle.mdconstructs_tables.proofs.Tables.Lawful.{plain-lawful};
    ghost use Rattle.mdconstructs_machines.specs.Save.{save, save_rules};
    ghost use Rattle.mdconstructs_machines.specs.Laws.Save.{save-fit, save-plain};

    ghost rules = { λ _. save_rules };

    /// Counts the call, and runs the state of this name.
    #[tactic(auto, using(crate::proofs::RowSteps::save_called))]
    fn call<'a>(
        &self,
        alloc: Global,
        t: &mut Tokenizer<'a, Self>,
        name: Name,
    ) -> Result<State, AllocError> {
        begin(t);
        match name {
            Name::TextStart => text_start(t),
            Name::TextBefore => text_before(t),
            Name::DataStart => data_start(t),
            Name::DataInside => data_inside(t),
            _ => unreachable!(),
        }
    }

    /// Never called, as it registers no resolver.
    fn resolve<'a>(
        &self,
        alloc: Global,
        t: &mut Tokenizer<'a, Self>,
        name: (),
    ) -> Result<Option<Subresult>, Fault> {
        Ok(None)
    }

    ghost lawful = { λ _ g. plain-lawful save g save-fit save-plain };
}

/// In the first line: passes each byte. After the line ending an attempt begins, which goes on with data after `Ok` and
/// after `Nok`.
fn text_start<'a>(t: &mut Tokenizer<'a, Save>) -> Result<State, AllocError>
    requires { IsCallable line_byte text_start t.old }
    ensures { IfOk result (DoesAll (step_in line_byte text_start t.old) t.old t.new) }
{
    match t.current() {
        None => Ok(State::Ok),
        Some(b'\n') => {
            t.consume();
            t.attempt(State::Next(Name::DataStart), State::Next(Name::DataStart))?;
            Ok(State::Next(Name::TextBefore))
        }
        Some(_) => {
            t.consume();
            Ok(State::Next(Name::TextStart))
        }
    }
}

/// In the attempt, which fails whatever waits.
fn text_before<'a>(t: &mut Tokenizer<'a, Save>) -> Result<State, AllocError>
    requires { IsCallable line_byte text_before t.old }
    ensures { IfOk result (DoesAll (step_in line_byte text_before t.old) t.old t.new) }
{
    Ok(State::Nok)
}
