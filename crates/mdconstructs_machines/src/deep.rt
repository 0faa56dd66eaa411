//! The machine of nested attempts: it tries something at every byte, each attempt inside the one before. All fail at
//! the end, and the text is read as data.

ghost use Rattle.std.specs.Prelude.{IfOk};
ghost use Rattle.mdconstructs_tables.specs.RowInvariant.{DoesAll, IsCallable, step_in};
ghost use Rattle.mdconstructs_tables.specs.Tables.{line_byte};
ghost use Rattle.mdconstructs_machines.specs.Deep.{string_start, string_before};

use crate::begin::begin;
use crate::reading::{data_inside, data_start};
use markdown_tokenizer::state::{Machine, MachineTypes, Name, State};
use markdown_tokenizer::subtokenize::Subresult;
use markdown_tokenizer::tokenizer::{Fault, Tokenizer};
use std::alloc::{AllocError, Global};

/// Tries something at every byte, which always fails, and then reads each line as data.
///
/// It takes at most n (n - 1) / 2 + 4 n + 1 calls for n virtual bytes.
#[derive(Drop)]
pub struct Deep {}

impl MachineTypes for Deep {
    type Resolver = ();

    type Document = ();
}

impl Machine for Deep {
    ghost use Rattle.mdconstructs_tables.proofs.Tables.Lawful.{plain-lawful};
    ghost use Rattle.mdconstructs_machines.specs.Deep.{deep, deep_rules};
    ghost use Rattle.mdconstructs_machines.specs.Laws.Deep.{deep-fit, deep-plain};

    ghost rules = { λ _. deep_rules };

    /// Counts the call, and runs the state of this name.
    #[tactic(auto, using(crate::proofs::RowSteps::deep_called))]
    fn call<'a>(
        &self,
        alloc: Global,
        t: &mut Tokenizer<'a, Self>,
        name: Name,
    ) -> Result<State, AllocError> {
        begin(t);
        match name {
            Name::StringStart => string_start(t),
            Name::StringBefore => string_before(t),
            Name::DataStart => data_start(t),
            Name::DataInside => data_inside(t),
            _ => unreachable!(),
        }
    }

    /// Never called, as it registers no resolver.
    fn resolve<'a>(
        &self,
        alloc: Global,
        t: &mut Tokenizer<'a, Self>,
        name: (),
    ) -> Result<Option<Subresult>, Fault> {
        Ok(None)
    }

    ghost lawful = { λ _ g. plain-lawful deep g deep-fit deep-plain };
}

/// At a byte to try something at, or at the end, where each attempt fails.
fn string_start<'a>(t: &mut Tokenizer<'a, Deep>) -> Result<State, AllocError>
    requires { IsCallable line_byte string_start t.old }
    ensures { IfOk result (DoesAll (step_in line_byte string_start t.old) t.old t.new) }
{
    match t.current() {
        None => match t.previous() {
            None => Ok(State::Ok),
            Some(_) => Ok(State::Nok),
        },
        Some(_) => {
            let after = match t.previous() {
                None => Name::DataStart,
                Some(_) => Name::StringBefore,
            };
            t.attempt(State::Next(after), State::Next(after))?;
            t.consume();
            Ok(State::Next(Name::StringStart))
        }
    }
}

/// The state with which a failed attempt goes on. It fails at the end too.
fn string_before<'a>(t: &mut Tokenizer<'a, Deep>) -> Result<State, AllocError>
    requires { IsCallable line_byte string_before t.old }
    ensures { IfOk result (DoesAll (step_in line_byte string_before t.old) t.old t.new) }
{
    match t.current() {
        None => Ok(State::Nok),
        Some(_) => {
            t.consume();
            Ok(State::Next(Name::StringBefore))
        }
    }
}
