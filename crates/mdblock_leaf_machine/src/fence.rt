//! The opening fence of fenced code: its sequence, its info string and the rest, the meta string (CommonMark, 4.5).

ghost use Rattle.std.specs.Prelude.{IfOk};
ghost use Rattle.markdown_tokenizer.specs.declared.waiting.Waits.TheVariants.{Byte};
ghost use Rattle.mdblock_leaf_rows.specs.Steps.{rows_step};
ghost use Rattle.mdconstructs_tables.specs.RowInvariant.{DoesAll, IsCallable, step_in};
ghost use Rattle.mdblock_leaf_rows.specs.FlowBytes.{flow_byte};
ghost use Rattle.mdblock_leaf_rows.specs.CodeFenced.{flow_before_raw, raw_flow_look_info, raw_flow_start, raw_flow_sequence_open, raw_flow_info_before, raw_flow_before_sequence_open, raw_flow_info, raw_flow_info_after, raw_flow_meta_before, raw_flow_meta, fence_ends};

use crate::sizes::{STRING, add_to_size, at_mark, has_three, is_tilde_fence, set_kind};
use markdown_tokenizer::event;
use markdown_tokenizer::state::{MachineTypes, Name, State};
use markdown_tokenizer::tokenizer::Tokenizer;
use mdblock_leaf_rows::names;
use mdconstructs_tables::answers::{enter_over, exit_to};
use std::alloc::AllocError;

/// A look: in the sequence of an opening fence.
pub(crate) fn flow_before_raw<'a, M: MachineTypes>(
    t: &mut Tokenizer<'a, M>,
) -> Result<State, AllocError>
    requires { IsCallable flow_byte flow_before_raw t.old }
    ensures { IfOk result (DoesAll (step_in flow_byte flow_before_raw t.old) t.old t.new) }
{
    match t.current() {
        Some(b'`' | b'~') => {
            if at_mark(t) {
                add_to_size(t);
                t.consume();
                return Ok(State::Next(Name::FlowBeforeRaw));
            }
            Ok(fence_ends(t))
        }
        _ => Ok(fence_ends(t)),
    }
}

/// A look: behind backticks that open a fence no further backtick may come in the line.
pub(crate) fn raw_flow_look_info<'a, M: MachineTypes>(
    t: &mut Tokenizer<'a, M>,
) -> Result<State, AllocError>
    requires { IsCallable flow_byte raw_flow_look_info t.old }
    ensures { IfOk result (DoesAll (step_in flow_byte raw_flow_look_info t.old) t.old t.new) }
{
    match t.current() {
        None | Some(b'\n') => {
            set_kind(t, event::Name::CodeFenced);
            Ok(State::Ok)
        }
        Some(b'`') => Ok(State::Nok),
        Some(_) => {
            t.consume();
            Ok(State::Next(names::RawFlowLookInfo))
        }
    }
}

/// In the white space before an opening fence.
pub(crate) fn raw_flow_start<'a, M: MachineTypes>(
    t: &mut Tokenizer<'a, M>,
) -> Result<State, AllocError>
    requires { IsCallable flow_byte raw_flow_start t.old }
    ensures { IfOk result (DoesAll (step_in flow_byte raw_flow_start t.old) t.old t.new) }
{
    match t.current() {
        Some(b'\t' | b' ') => {
            t.consume();
            Ok(State::Next(Name::RawFlowStart))
        }
        Some(b'`' | b'~') => {
            t.exit(event::Name::SpaceOrTab)?;
            enter_over(
                t,
                event::Name::CodeFencedFenceSequence,
                State::Next(Name::RawFlowSequenceOpen),
            )
        }
        _ => exit_to(
            t,
            event::Name::SpaceOrTab,
            State::Retry(Name::RawFlowInfoBefore),
        ),
    }
}

/// In the sequence of an opening fence.
pub(crate) fn raw_flow_sequence_open<'a, M: MachineTypes>(
    t: &mut Tokenizer<'a, M>,
) -> Result<State, AllocError>
    requires { IsCallable flow_byte raw_flow_sequence_open t.old }
    ensures { IfOk result (DoesAll (step_in flow_byte raw_flow_sequence_open t.old) t.old t.new) }
{
    match t.current() {
        Some(b'`' | b'~') => {
            if at_mark(t) {
                t.consume();
                return Ok(State::Next(Name::RawFlowSequenceOpen));
            }
            exit_to(
                t,
                event::Name::CodeFencedFenceSequence,
                State::Retry(Name::RawFlowInfoBefore),
            )
        }
        _ => exit_to(
            t,
            event::Name::CodeFencedFenceSequence,
            State::Retry(Name::RawFlowInfoBefore),
        ),
    }
}

/// In an opening fence, before its info string.
pub(crate) fn raw_flow_info_before<'a, M: MachineTypes>(
    t: &mut Tokenizer<'a, M>,
) -> Result<State, AllocError>
    requires { IsCallable flow_byte raw_flow_info_before t.old }
    ensures { IfOk result (DoesAll (step_in flow_byte raw_flow_info_before t.old) t.old t.new) }
{
    match t.current() {
        None | Some(b'\n') => exit_to(
            t,
            event::Name::CodeFencedFence,
            State::Retry(Name::RawFlowAtNonLazyBreak),
        ),
        Some(b'\t' | b' ') => enter_over(
            t,
            event::Name::SpaceOrTab,
            State::Next(Name::RawFlowBeforeSequenceOpen),
        ),
        Some(_) => {
            t.enter(event::Name::CodeFencedFenceInfo)?;
            t.enter_link(event::Name::Data, STRING)?;
            Ok(State::Retry(Name::RawFlowInfo))
        }
    }
}

/// In the white space before an info string.
pub(crate) fn raw_flow_before_sequence_open<'a, M: MachineTypes>(
    t: &mut Tokenizer<'a, M>,
) -> Result<State, AllocError>
    requires { IsCallable flow_byte raw_flow_before_sequence_open t.old }
    ensures { IfOk result (DoesAll (step_in flow_byte raw_flow_before_sequence_open t.old) t.old t.new) }
{
    match t.current() {
        Some(b'\t' | b' ') => {
            t.consume();
            Ok(State::Next(Name::RawFlowBeforeSequenceOpen))
        }
        _ => exit_to(
            t,
            event::Name::SpaceOrTab,
            State::Retry(Name::RawFlowInfoBefore),
        ),
    }
}

/// In an info string.
pub(crate) fn raw_flow_info<'a, M: MachineTypes>(
    t: &mut Tokenizer<'a, M>,
) -> Result<State, AllocError>
    requires { IsCallable flow_byte raw_flow_info t.old }
    ensures { IfOk result (DoesAll (step_in flow_byte raw_flow_info t.old) t.old t.new) }
{
    match t.current() {
        None | Some(b'\n') => {
            t.exit(event::Name::Data)?;
            t.exit(event::Name::CodeFencedFenceInfo)?;
            exit_to(
                t,
                event::Name::CodeFencedFence,
                State::Retry(Name::RawFlowAtNonLazyBreak),
            )
        }
        Some(b'\t' | b' ') => {
            t.exit(event::Name::Data)?;
            t.exit(event::Name::CodeFencedFenceInfo)?;
            enter_over(
                t,
                event::Name::SpaceOrTab,
                State::Next(names::RawFlowInfoAfter),
            )
        }
        Some(_) => {
            t.consume();
            Ok(State::Next(Name::RawFlowInfo))
        }
    }
}

/// In the white space behind an info string.
pub(crate) fn raw_flow_info_after<'a, M: MachineTypes>(
    t: &mut Tokenizer<'a, M>,
) -> Result<State, AllocError>
    requires { IsCallable flow_byte raw_flow_info_after t.old }
    ensures { IfOk result (DoesAll (step_in flow_byte raw_flow_info_after t.old) t.old t.new) }
{
    match t.current() {
        Some(b'\t' | b' ') => {
            t.consume();
            Ok(State::Next(names::RawFlowInfoAfter))
        }
        _ => exit_to(
            t,
            event::Name::SpaceOrTab,
            State::Retry(Name::RawFlowMetaBefore),
        ),
    }
}

/// In an opening fence, before its meta string.
pub(crate) fn raw_flow_meta_before<'a, M: MachineTypes>(
    t: &mut Tokenizer<'a, M>,
) -> Result<State, AllocError>
    requires { IsCallable flow_byte raw_flow_meta_before t.old }
    ensures { IfOk result (DoesAll (step_in flow_byte raw_flow_meta_before t.old) t.old t.new) }
{
    match t.current() {
        None | Some(b'\n') => exit_to(
            t,
            event::Name::CodeFencedFence,
            State::Retry(Name::RawFlowAtNonLazyBreak),
        ),
        Some(_) => {
            t.enter(event::Name::CodeFencedFenceMeta)?;
            t.enter_link(event::Name::Data, STRING)?;
            Ok(State::Retry(Name::RawFlowMeta))
        }
    }
}

/// In a meta string.
pub(crate) fn raw_flow_meta<'a, M: MachineTypes>(
    t: &mut Tokenizer<'a, M>,
) -> Result<State, AllocError>
    requires { IsCallable flow_byte raw_flow_meta t.old }
    ensures { IfOk result (DoesAll (step_in flow_byte raw_flow_meta t.old) t.old t.new) }
{
    match t.current() {
        None | Some(b'\n') => {
            t.exit(event::Name::Data)?;
            t.exit(event::Name::CodeFencedFenceMeta)?;
            exit_to(
                t,
                event::Name::CodeFencedFence,
                State::Retry(Name::RawFlowAtNonLazyBreak),
            )
        }
        Some(_) => {
            t.consume();
            Ok(State::Next(Name::RawFlowMeta))
        }
    }
}

/// Behind the sequence of an opening fence, which has three markers at least.
fn fence_ends<'a, M: MachineTypes>(t: &mut Tokenizer<'a, M>) -> State
    ensures { DoesAll (rows_step fence_ends t.old) t.old t.new result }
{
    if !has_three(t) {
        return State::Nok;
    }
    if is_tilde_fence(t) {
        set_kind(t, event::Name::CodeFenced);
        return State::Ok;
    }
    State::Retry(names::RawFlowLookInfo)
}
