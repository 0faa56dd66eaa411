//! Reading data: each line is data, with line endings between them. Machines with choices end in it.

ghost use Rattle.std.specs.Prelude.{IfOk};
ghost use Rattle.mdconstructs_tables.specs.RowInvariant.{DoesAll, IsCallable, step_in};
ghost use Rattle.mdconstructs_tables.specs.Tables.{line_byte};
ghost use Rattle.mdconstructs_tables.specs.DataRows.{data_start, data_inside};

use markdown_tokenizer::event;
use markdown_tokenizer::state::{MachineTypes, Name, State};
use markdown_tokenizer::tokenizer::Tokenizer;
use mdconstructs_tables::answers::exit_to;
use mdconstructs_tables::marker;
use std::alloc::AllocError;

/// State at the beginning of a line. Returns `AllocError` if it runs out of memory.
pub(crate) fn data_start<'a, M: MachineTypes>(t: &mut Tokenizer<'a, M>) -> Result<State, AllocError>
    requires { IsCallable line_byte data_start t.old }
    ensures { IfOk result (DoesAll (step_in line_byte data_start t.old) t.old t.new) }
{
    match t.current() {
        None => Ok(State::Ok),
        Some(b'\n') => {
            marker(t, event::Name::LineEnding)?;
            Ok(State::Next(Name::DataStart))
        }
        Some(_) => {
            t.enter(event::Name::Data)?;
            Ok(State::Retry(Name::DataInside))
        }
    }
}

/// State in a line. Returns `AllocError` if it runs out of memory.
pub(crate) fn data_inside<'a, M: MachineTypes>(
    t: &mut Tokenizer<'a, M>,
) -> Result<State, AllocError>
    requires { IsCallable line_byte data_inside t.old }
    ensures { IfOk result (DoesAll (step_in line_byte data_inside t.old) t.old t.new) }
{
    match t.current() {
        None => exit_to(t, event::Name::Data, State::Ok),
        Some(b'\n') => exit_to(t, event::Name::Data, State::Retry(Name::DataStart)),
        Some(_) => {
            t.consume();
            Ok(State::Next(Name::DataInside))
        }
    }
}
