//! Blank lines.

ghost use Rattle.std.specs.Prelude.{IfOk};
ghost use Rattle.mdconstructs_tables.specs.RowInvariant.{DoesAll, IsCallable, step_in};
ghost use Rattle.mdblock_leaf_rows.specs.FlowBytes.{flow_byte};
ghost use Rattle.mdblock_leaf_rows.specs.BlankLine.{blank_line_start};

use markdown_tokenizer::event;
use markdown_tokenizer::state::{MachineTypes, Name, State};
use markdown_tokenizer::tokenizer::Tokenizer;
use mdconstructs_tables::answers::exit_to;
use mdconstructs_tables::marker;
use std::alloc::AllocError;

/// In the white space of a blank line.
pub(crate) fn blank_line_start<'a, M: MachineTypes>(
    t: &mut Tokenizer<'a, M>,
) -> Result<State, AllocError>
    requires { IsCallable flow_byte blank_line_start t.old }
    ensures { IfOk result (DoesAll (step_in flow_byte blank_line_start t.old) t.old t.new) }
{
    match t.current() {
        None => exit_to(t, event::Name::SpaceOrTab, State::Ok),
        Some(b'\n') => {
            t.exit(event::Name::SpaceOrTab)?;
            marker(t, event::Name::BlankLineEnding)?;
            Ok(State::Next(Name::FlowStart))
        }
        Some(_) => {
            t.consume();
            Ok(State::Next(Name::BlankLineStart))
        }
    }
}
