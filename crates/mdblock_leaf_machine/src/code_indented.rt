//! Indented code: lines that begin with four columns of white space, and blank lines between them (CommonMark, 4.4).

ghost use Rattle.std.specs.Prelude.{IfOk};
ghost use Rattle.mdconstructs_tables.specs.RowInvariant.{DoesAll, IsCallable, step_in};
ghost use Rattle.mdblock_leaf_rows.specs.FlowBytes.{flow_byte};
ghost use Rattle.mdblock_leaf_rows.specs.CodeIndented.{code_indented_start, code_indented_at_break, code_indented_further_after, code_indented_inside, code_indented_line_after, code_indented_after, code_indented_further_begin, code_indented_further_start};

use crate::sizes::{add_to_count, counts_to_four, set_count};
use markdown_tokenizer::event;
use markdown_tokenizer::state::{MachineTypes, Name, State};
use markdown_tokenizer::tokenizer::Tokenizer;
use mdblock_leaf_rows::names;
use mdconstructs_tables::answers::{enter_over, exit_to};
use mdconstructs_tables::marker;
use std::alloc::AllocError;

/// In the white space before a line of indented code: at most four columns of it.
pub(crate) fn code_indented_start<'a, M: MachineTypes>(
    t: &mut Tokenizer<'a, M>,
) -> Result<State, AllocError>
    requires { IsCallable flow_byte code_indented_start t.old }
    ensures { IfOk result (DoesAll (step_in flow_byte code_indented_start t.old) t.old t.new) }
{
    match t.current() {
        Some(b'\t' | b' ') => {
            if counts_to_four(t) {
                add_to_count(t);
                t.consume();
                return Ok(State::Next(Name::CodeIndentedStart));
            }
            exit_to(
                t,
                event::Name::SpaceOrTab,
                State::Retry(Name::CodeIndentedAtBreak),
            )
        }
        _ => exit_to(
            t,
            event::Name::SpaceOrTab,
            State::Retry(Name::CodeIndentedAtBreak),
        ),
    }
}

/// Behind the white space before a line of indented code.
pub(crate) fn code_indented_at_break<'a, M: MachineTypes>(
    t: &mut Tokenizer<'a, M>,
) -> Result<State, AllocError>
    requires { IsCallable flow_byte code_indented_at_break t.old }
    ensures { IfOk result (DoesAll (step_in flow_byte code_indented_at_break t.old) t.old t.new) }
{
    match t.current() {
        None => exit_to(t, event::Name::CodeIndented, State::Retry(Name::FlowAfter)),
        Some(b'\n') => {
            marker(t, event::Name::LineEnding)?;
            Ok(State::Next(Name::CodeIndentedFurtherBegin))
        }
        Some(_) => {
            t.enter(event::Name::CodeFlowChunk)?;
            Ok(State::Retry(Name::CodeIndentedFurtherAfter))
        }
    }
}

/// In a line of indented code, where only white space came so far: if it ends, the line is blank.
pub(crate) fn code_indented_further_after<'a, M: MachineTypes>(
    t: &mut Tokenizer<'a, M>,
) -> Result<State, AllocError>
    requires { IsCallable flow_byte code_indented_further_after t.old }
    ensures { IfOk result (DoesAll (step_in flow_byte code_indented_further_after t.old) t.old t.new) }
{
    match t.current() {
        None => {
            t.exit(event::Name::CodeFlowChunk)?;
            exit_to(t, event::Name::CodeIndented, State::Retry(Name::FlowAfter))
        }
        Some(b'\n') => {
            t.exit(event::Name::CodeFlowChunk)?;
            marker(t, event::Name::LineEnding)?;
            Ok(State::Next(Name::CodeIndentedFurtherBegin))
        }
        Some(b'\t' | b' ') => {
            t.consume();
            Ok(State::Next(Name::CodeIndentedFurtherAfter))
        }
        Some(_) => {
            t.consume();
            Ok(State::Next(Name::CodeIndentedInside))
        }
    }
}

/// In a line of indented code. At its end a look says whether the code goes on.
pub(crate) fn code_indented_inside<'a, M: MachineTypes>(
    t: &mut Tokenizer<'a, M>,
) -> Result<State, AllocError>
    requires { IsCallable flow_byte code_indented_inside t.old }
    ensures { IfOk result (DoesAll (step_in flow_byte code_indented_inside t.old) t.old t.new) }
{
    match t.current() {
        None => {
            t.exit(event::Name::CodeFlowChunk)?;
            exit_to(t, event::Name::CodeIndented, State::Retry(Name::FlowAfter))
        }
        Some(b'\n') => {
            t.check(
                State::Next(names::CodeIndentedLineAfter),
                State::Next(Name::CodeIndentedAfter),
            )?;
            Ok(State::Retry(Name::CodeIndentedFurtherStart))
        }
        Some(_) => {
            t.consume();
            Ok(State::Next(Name::CodeIndentedInside))
        }
    }
}

/// At the end of a line of indented code that goes on.
pub(crate) fn code_indented_line_after<'a, M: MachineTypes>(
    t: &mut Tokenizer<'a, M>,
) -> Result<State, AllocError>
    requires { IsCallable flow_byte code_indented_line_after t.old }
    ensures { IfOk result (DoesAll (step_in flow_byte code_indented_line_after t.old) t.old t.new) }
{
    t.exit(event::Name::CodeFlowChunk)?;
    marker(t, event::Name::LineEnding)?;
    Ok(State::Next(Name::CodeIndentedFurtherBegin))
}

/// At the end of the last line of indented code.
pub(crate) fn code_indented_after<'a, M: MachineTypes>(
    t: &mut Tokenizer<'a, M>,
) -> Result<State, AllocError>
    requires { IsCallable flow_byte code_indented_after t.old }
    ensures { IfOk result (DoesAll (step_in flow_byte code_indented_after t.old) t.old t.new) }
{
    t.exit(event::Name::CodeFlowChunk)?;
    exit_to(t, event::Name::CodeIndented, State::Retry(Name::FlowAfter))
}

/// Before a further line of indented code.
pub(crate) fn code_indented_further_begin<'a, M: MachineTypes>(
    t: &mut Tokenizer<'a, M>,
) -> Result<State, AllocError>
    requires { IsCallable flow_byte code_indented_further_begin t.old }
    ensures { IfOk result (DoesAll (step_in flow_byte code_indented_further_begin t.old) t.old t.new) }
{
    match t.current() {
        None => exit_to(t, event::Name::CodeIndented, State::Retry(Name::FlowAfter)),
        Some(b'\n') => {
            // A blank line. The look behind the last line saw that an indented one follows.
            marker(t, event::Name::LineEnding)?;
            Ok(State::Next(Name::CodeIndentedFurtherBegin))
        }
        Some(b'\t' | b' ') => {
            t.enter(event::Name::SpaceOrTab)?;
            set_count(t, 1);
            t.consume();
            Ok(State::Next(Name::CodeIndentedStart))
        }
        Some(_) => enter_over(
            t,
            event::Name::CodeFlowChunk,
            State::Next(Name::CodeIndentedInside),
        ),
    }
}

/// A look over blank lines: is the next other line indented?
pub(crate) fn code_indented_further_start<'a, M: MachineTypes>(
    t: &mut Tokenizer<'a, M>,
) -> Result<State, AllocError>
    requires { IsCallable flow_byte code_indented_further_start t.old }
    ensures { IfOk result (DoesAll (step_in flow_byte code_indented_further_start t.old) t.old t.new) }
{
    match t.current() {
        Some(b'\n') => {
            set_count(t, 0);
            t.consume();
            Ok(State::Next(Name::CodeIndentedFurtherStart))
        }
        Some(b'\t' | b' ') => {
            add_to_count(t);
            t.consume();
            Ok(State::Next(Name::CodeIndentedFurtherStart))
        }
        None => Ok(State::Nok),
        Some(_) => {
            if counts_to_four(t) {
                return Ok(State::Nok);
            }
            Ok(State::Ok)
        }
    }
}
