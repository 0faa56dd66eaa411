//! Fenced code behind its opening fence: its lines, and the closing fence (CommonMark, 4.5).

ghost use Rattle.std.specs.Prelude.{IfOk};
ghost use Rattle.mdconstructs_tables.specs.RowInvariant.{DoesAll, IsCallable, step_in};
ghost use Rattle.mdblock_leaf_rows.specs.FlowBytes.{flow_byte};
ghost use Rattle.mdblock_leaf_rows.specs.CodeFenced.{raw_flow_at_non_lazy_break, raw_flow_close_start, raw_flow_before_sequence_close, raw_flow_sequence_close, raw_flow_after_sequence_close, raw_flow_content_before, raw_flow_content_start, raw_flow_before_content_chunk, raw_flow_content_chunk, raw_flow_after, raw_flow_close_before, raw_flow_close_blank, raw_flow_close_sequence, raw_flow_close_between};

use crate::sizes::{
    add_to_count, at_mark, counts_to_indent, is_as_long, is_stripped, may_be_indented, set_count,
};
use markdown_tokenizer::event;
use markdown_tokenizer::state::{MachineTypes, Name, State};
use markdown_tokenizer::tokenizer::Tokenizer;
use mdblock_leaf_rows::names;
use mdconstructs_tables::answers::{enter_over, exit_to};
use mdconstructs_tables::marker;
use std::alloc::AllocError;

/// In fenced code, at the end of a line: a look says whether the next line closes the code.
pub(crate) fn raw_flow_at_non_lazy_break<'a, M: MachineTypes>(
    t: &mut Tokenizer<'a, M>,
) -> Result<State, AllocError>
    requires { IsCallable flow_byte raw_flow_at_non_lazy_break t.old }
    ensures { IfOk result (DoesAll (step_in flow_byte raw_flow_at_non_lazy_break t.old) t.old t.new) }
{
    match t.current() {
        None => exit_to(t, event::Name::CodeFenced, State::Retry(Name::FlowAfter)),
        Some(b'\n') => {
            t.check(
                State::Next(Name::RawFlowAfter),
                State::Next(Name::RawFlowContentBefore),
            )?;
            Ok(State::Retry(Name::RawFlowCloseStart))
        }
        Some(_) => Ok(State::Ok),
    }
}

/// A look: at the line ending before a line that may close fenced code.
pub(crate) fn raw_flow_close_start<'a, M: MachineTypes>(
    t: &mut Tokenizer<'a, M>,
) -> Result<State, AllocError>
    requires { IsCallable flow_byte raw_flow_close_start t.old }
    ensures { IfOk result (DoesAll (step_in flow_byte raw_flow_close_start t.old) t.old t.new) }
{
    set_count(t, 0);
    t.consume();
    Ok(State::Next(Name::RawFlowBeforeSequenceClose))
}

/// A look: in the white space before a closing fence.
pub(crate) fn raw_flow_before_sequence_close<'a, M: MachineTypes>(
    t: &mut Tokenizer<'a, M>,
) -> Result<State, AllocError>
    requires { IsCallable flow_byte raw_flow_before_sequence_close t.old }
    ensures { IfOk result (DoesAll (step_in flow_byte raw_flow_before_sequence_close t.old) t.old t.new) }
{
    match t.current() {
        Some(b'\t' | b' ') => {
            if may_be_indented(t) {
                add_to_count(t);
                t.consume();
                return Ok(State::Next(Name::RawFlowBeforeSequenceClose));
            }
            Ok(State::Nok)
        }
        Some(b'`' | b'~') => {
            if at_mark(t) {
                set_count(t, 1);
                t.consume();
                return Ok(State::Next(Name::RawFlowSequenceClose));
            }
            Ok(State::Nok)
        }
        _ => Ok(State::Nok),
    }
}

/// A look: in the sequence of a closing fence. It is at least as long as the opening one.
pub(crate) fn raw_flow_sequence_close<'a, M: MachineTypes>(
    t: &mut Tokenizer<'a, M>,
) -> Result<State, AllocError>
    requires { IsCallable flow_byte raw_flow_sequence_close t.old }
    ensures { IfOk result (DoesAll (step_in flow_byte raw_flow_sequence_close t.old) t.old t.new) }
{
    match t.current() {
        None | Some(b'\n') => {
            if is_as_long(t) {
                return Ok(State::Ok);
            }
            Ok(State::Nok)
        }
        Some(b'\t' | b' ') => {
            if is_as_long(t) {
                t.consume();
                return Ok(State::Next(Name::RawFlowAfterSequenceClose));
            }
            Ok(State::Nok)
        }
        Some(b'`' | b'~') => {
            if at_mark(t) {
                add_to_count(t);
                t.consume();
                return Ok(State::Next(Name::RawFlowSequenceClose));
            }
            Ok(State::Nok)
        }
        Some(_) => Ok(State::Nok),
    }
}

/// A look: in the white space behind a closing fence.
pub(crate) fn raw_flow_after_sequence_close<'a, M: MachineTypes>(
    t: &mut Tokenizer<'a, M>,
) -> Result<State, AllocError>
    requires { IsCallable flow_byte raw_flow_after_sequence_close t.old }
    ensures { IfOk result (DoesAll (step_in flow_byte raw_flow_after_sequence_close t.old) t.old t.new) }
{
    match t.current() {
        None | Some(b'\n') => Ok(State::Ok),
        Some(b'\t' | b' ') => {
            t.consume();
            Ok(State::Next(Name::RawFlowAfterSequenceClose))
        }
        Some(_) => Ok(State::Nok),
    }
}

/// At the line ending before a line of code.
pub(crate) fn raw_flow_content_before<'a, M: MachineTypes>(
    t: &mut Tokenizer<'a, M>,
) -> Result<State, AllocError>
    requires { IsCallable flow_byte raw_flow_content_before t.old }
    ensures { IfOk result (DoesAll (step_in flow_byte raw_flow_content_before t.old) t.old t.new) }
{
    marker(t, event::Name::LineEnding)?;
    Ok(State::Next(Name::RawFlowContentStart))
}

/// Before a line of code. White space is stripped as wide as that of the opening fence.
pub(crate) fn raw_flow_content_start<'a, M: MachineTypes>(
    t: &mut Tokenizer<'a, M>,
) -> Result<State, AllocError>
    requires { IsCallable flow_byte raw_flow_content_start t.old }
    ensures { IfOk result (DoesAll (step_in flow_byte raw_flow_content_start t.old) t.old t.new) }
{
    match t.current() {
        None | Some(b'\n') => Ok(State::Retry(Name::RawFlowAtNonLazyBreak)),
        Some(b'\t' | b' ') => {
            if is_stripped(t) {
                t.enter(event::Name::SpaceOrTab)?;
                set_count(t, 1);
                t.consume();
                return Ok(State::Next(Name::RawFlowBeforeContentChunk));
            }
            enter_over(
                t,
                event::Name::CodeFlowChunk,
                State::Next(Name::RawFlowContentChunk),
            )
        }
        Some(_) => enter_over(
            t,
            event::Name::CodeFlowChunk,
            State::Next(Name::RawFlowContentChunk),
        ),
    }
}

/// In the white space that is stripped from a line of code.
pub(crate) fn raw_flow_before_content_chunk<'a, M: MachineTypes>(
    t: &mut Tokenizer<'a, M>,
) -> Result<State, AllocError>
    requires { IsCallable flow_byte raw_flow_before_content_chunk t.old }
    ensures { IfOk result (DoesAll (step_in flow_byte raw_flow_before_content_chunk t.old) t.old t.new) }
{
    match t.current() {
        None | Some(b'\n') => exit_to(
            t,
            event::Name::SpaceOrTab,
            State::Retry(Name::RawFlowAtNonLazyBreak),
        ),
        Some(b'\t' | b' ') => {
            if counts_to_indent(t) {
                add_to_count(t);
                t.consume();
                return Ok(State::Next(Name::RawFlowBeforeContentChunk));
            }
            t.exit(event::Name::SpaceOrTab)?;
            enter_over(
                t,
                event::Name::CodeFlowChunk,
                State::Next(Name::RawFlowContentChunk),
            )
        }
        Some(_) => {
            t.exit(event::Name::SpaceOrTab)?;
            enter_over(
                t,
                event::Name::CodeFlowChunk,
                State::Next(Name::RawFlowContentChunk),
            )
        }
    }
}

/// In a line of code.
pub(crate) fn raw_flow_content_chunk<'a, M: MachineTypes>(
    t: &mut Tokenizer<'a, M>,
) -> Result<State, AllocError>
    requires { IsCallable flow_byte raw_flow_content_chunk t.old }
    ensures { IfOk result (DoesAll (step_in flow_byte raw_flow_content_chunk t.old) t.old t.new) }
{
    match t.current() {
        None | Some(b'\n') => exit_to(
            t,
            event::Name::CodeFlowChunk,
            State::Retry(Name::RawFlowAtNonLazyBreak),
        ),
        Some(_) => {
            t.consume();
            Ok(State::Next(Name::RawFlowContentChunk))
        }
    }
}

/// At the line ending before a closing fence.
pub(crate) fn raw_flow_after<'a, M: MachineTypes>(
    t: &mut Tokenizer<'a, M>,
) -> Result<State, AllocError>
    requires { IsCallable flow_byte raw_flow_after t.old }
    ensures { IfOk result (DoesAll (step_in flow_byte raw_flow_after t.old) t.old t.new) }
{
    marker(t, event::Name::LineEnding)?;
    Ok(State::Next(names::RawFlowCloseBefore))
}

/// Before a closing fence.
pub(crate) fn raw_flow_close_before<'a, M: MachineTypes>(
    t: &mut Tokenizer<'a, M>,
) -> Result<State, AllocError>
    requires { IsCallable flow_byte raw_flow_close_before t.old }
    ensures { IfOk result (DoesAll (step_in flow_byte raw_flow_close_before t.old) t.old t.new) }
{
    match t.current() {
        None | Some(b'\n') => exit_to(t, event::Name::CodeFenced, State::Retry(Name::FlowAfter)),
        Some(b'\t' | b' ') => {
            t.enter(event::Name::CodeFencedFence)?;
            enter_over(
                t,
                event::Name::SpaceOrTab,
                State::Next(names::RawFlowCloseBlank),
            )
        }
        Some(_) => {
            t.enter(event::Name::CodeFencedFence)?;
            enter_over(
                t,
                event::Name::CodeFencedFenceSequence,
                State::Next(names::RawFlowCloseSequence),
            )
        }
    }
}

/// In white space of a closing fence.
pub(crate) fn raw_flow_close_blank<'a, M: MachineTypes>(
    t: &mut Tokenizer<'a, M>,
) -> Result<State, AllocError>
    requires { IsCallable flow_byte raw_flow_close_blank t.old }
    ensures { IfOk result (DoesAll (step_in flow_byte raw_flow_close_blank t.old) t.old t.new) }
{
    match t.current() {
        Some(b'\t' | b' ') => {
            t.consume();
            Ok(State::Next(names::RawFlowCloseBlank))
        }
        _ => exit_to(
            t,
            event::Name::SpaceOrTab,
            State::Retry(names::RawFlowCloseBetween),
        ),
    }
}

/// In the sequence of a closing fence.
pub(crate) fn raw_flow_close_sequence<'a, M: MachineTypes>(
    t: &mut Tokenizer<'a, M>,
) -> Result<State, AllocError>
    requires { IsCallable flow_byte raw_flow_close_sequence t.old }
    ensures { IfOk result (DoesAll (step_in flow_byte raw_flow_close_sequence t.old) t.old t.new) }
{
    match t.current() {
        Some(b'`' | b'~') => {
            t.consume();
            Ok(State::Next(names::RawFlowCloseSequence))
        }
        _ => exit_to(
            t,
            event::Name::CodeFencedFenceSequence,
            State::Retry(names::RawFlowCloseBetween),
        ),
    }
}

/// In a closing fence, between its sequence and its white space.
pub(crate) fn raw_flow_close_between<'a, M: MachineTypes>(
    t: &mut Tokenizer<'a, M>,
) -> Result<State, AllocError>
    requires { IsCallable flow_byte raw_flow_close_between t.old }
    ensures { IfOk result (DoesAll (step_in flow_byte raw_flow_close_between t.old) t.old t.new) }
{
    match t.current() {
        None | Some(b'\n') => {
            t.exit(event::Name::CodeFencedFence)?;
            exit_to(t, event::Name::CodeFenced, State::Retry(Name::FlowAfter))
        }
        Some(b'\t' | b' ') => enter_over(
            t,
            event::Name::SpaceOrTab,
            State::Next(names::RawFlowCloseBlank),
        ),
        Some(_) => enter_over(
            t,
            event::Name::CodeFencedFenceSequence,
            State::Next(names::RawFlowCloseSequence),
        ),
    }
}
