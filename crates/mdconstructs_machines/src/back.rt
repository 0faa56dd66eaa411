//! The machine that goes back. It reads the first line as data and looks over the next line. Then it goes back, and reads the rest as one
//! more data.

ghost use Rattle.std.specs.Prelude.{IfOk};
ghost use Rattle.mdconstructs_tables.specs.RowInvariant.{DoesAll, IsCallable, step_in};
ghost use Rattle.mdconstructs_tables.specs.Tables.{line_byte};
ghost use Rattle.mdconstructs_machines.specs.Back.{text_start, text_before, data_start, data_inside, data_at_break, string_before};

use crate::begin::begin;
use markdown_tokenizer::event;
use markdown_tokenizer::state::{Machine, MachineTypes, Name, State};
use markdown_tokenizer::subtokenize::Subresult;
use markdown_tokenizer::tokenizer::{Fault, Tokenizer};
use mdconstructs_tables::answers::exit_to;
use std::alloc::{AllocError, Global};

/// Reads the first line as data, with its line ending. Then it looks over the next line with its line ending, goes back
/// to the start of that line, and reads the rest as one more data. A text of one line is one data.
///
/// It takes at most 2 n + 4 calls for n virtual bytes.
#[derive(Drop)]
pub struct Back {}

impl MachineTypes for Back {
    type Resolver = ();

    type Document = ();
}

impl Machine for Back {
    ghost use Rattle.mdconstructs_tables.proofs.Tables.Lawful.{plain-lawful};
    ghost use Rattle.mdconstructs_machines.specs.Back.{back, back_rules};
    ghost use Rattle.mdconstructs_machines.specs.Laws.Back.{back-fit, back-plain};

    ghost rules = { λ _. back_rules };

    /// Counts the call, and runs the state of this name.
    #[tactic(auto, using(crate::proofs::RowSteps::back_called))]
    fn call<'a>(
        &self,
        alloc: Global,
        t: &mut Tokenizer<'a, Self>,
        name: Name,
    ) -> Result<State, AllocError> {
        begin(t);
        match name {
            Name::TextStart => text_start(t),
            Name::TextBefore => text_before(t),
            Name::DataStart => data_start(t),
            Name::DataInside => data_inside(t),
            // After the look, which always fails.
            Name::StringStart => Ok(State::Nok),
            Name::DataAtBreak => data_at_break(t),
            Name::StringBefore => string_before(t),
            _ => unreachable!(),
        }
    }

    /// Never called, as it registers no resolver.
    fn resolve<'a>(
        &self,
        alloc: Global,
        t: &mut Tokenizer<'a, Self>,
        name: (),
    ) -> Result<Option<Subresult>, Fault> {
        Ok(None)
    }

    ghost lawful = { λ _ g. plain-lawful back g back-fit back-plain };
}

/// Before the text: data begins at its first byte.
fn text_start<'a>(t: &mut Tokenizer<'a, Back>) -> Result<State, AllocError>
    requires { IsCallable line_byte text_start t.old }
    ensures { IfOk result (DoesAll (step_in line_byte text_start t.old) t.old t.new) }
{
    match t.current() {
        None => Ok(State::Ok),
        Some(_) => {
            t.enter(event::Name::Data)?;
            Ok(State::Retry(Name::TextBefore))
        }
    }
}

/// In the first line, which ends with its line ending.
fn text_before<'a>(t: &mut Tokenizer<'a, Back>) -> Result<State, AllocError>
    requires { IsCallable line_byte text_before t.old }
    ensures { IfOk result (DoesAll (step_in line_byte text_before t.old) t.old t.new) }
{
    match t.current() {
        None => exit_to(t, event::Name::Data, State::Ok),
        Some(b'\n') => {
            t.consume();
            Ok(State::Next(Name::DataStart))
        }
        Some(_) => {
            t.consume();
            Ok(State::Next(Name::TextBefore))
        }
    }
}

/// Before the next line: the look begins. After it, reading goes on from here.
fn data_start<'a>(t: &mut Tokenizer<'a, Back>) -> Result<State, AllocError>
    requires { IsCallable line_byte data_start t.old }
    ensures { IfOk result (DoesAll (step_in line_byte data_start t.old) t.old t.new) }
{
    match t.current() {
        None => exit_to(t, event::Name::Data, State::Ok),
        Some(_) => {
            t.check(
                State::Next(Name::DataAtBreak),
                State::Next(Name::DataAtBreak),
            )?;
            Ok(State::Retry(Name::DataInside))
        }
    }
}

/// In the look: it passes the line and its line ending, and then it fails.
fn data_inside<'a>(t: &mut Tokenizer<'a, Back>) -> Result<State, AllocError>
    requires { IsCallable line_byte data_inside t.old }
    ensures { IfOk result (DoesAll (step_in line_byte data_inside t.old) t.old t.new) }
{
    match t.current() {
        None => Ok(State::Nok),
        Some(b'\n') => {
            t.consume();
            Ok(State::Next(Name::StringStart))
        }
        Some(_) => {
            t.consume();
            Ok(State::Next(Name::DataInside))
        }
    }
}

/// The look went back to this place: the first data ends here, and another one begins.
fn data_at_break<'a>(t: &mut Tokenizer<'a, Back>) -> Result<State, AllocError>
    requires { IsCallable line_byte data_at_break t.old }
    ensures { IfOk result (DoesAll (step_in line_byte data_at_break t.old) t.old t.new) }
{
    t.exit(event::Name::Data)?;
    t.enter(event::Name::Data)?;
    Ok(State::Retry(Name::StringBefore))
}

/// In the rest, which ends with the text.
fn string_before<'a>(t: &mut Tokenizer<'a, Back>) -> Result<State, AllocError>
    requires { IsCallable line_byte string_before t.old }
    ensures { IfOk result (DoesAll (step_in line_byte string_before t.old) t.old t.new) }
{
    match t.current() {
        None => exit_to(t, event::Name::Data, State::Ok),
        Some(_) => {
            t.consume();
            Ok(State::Next(Name::StringBefore))
        }
    }
}
