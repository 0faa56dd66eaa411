//! Thematic breaks: three or more of one marker, with white space between them (CommonMark, 4.1).

ghost use Rattle.std.specs.Prelude.{IfOk};
ghost use Rattle.mdconstructs_tables.specs.RowInvariant.{DoesAll, IsCallable, step_in};
ghost use Rattle.mdblock_leaf_rows.specs.FlowBytes.{flow_byte};
ghost use Rattle.mdblock_leaf_rows.specs.ThematicBreak.{flow_before_thematic_break, thematic_break_before, thematic_break_at_break, thematic_break_sequence};

use crate::sizes::{add_to_size, at_mark, has_three, set_kind};
use markdown_tokenizer::event;
use markdown_tokenizer::state::{MachineTypes, Name, State};
use markdown_tokenizer::tokenizer::Tokenizer;
use mdconstructs_tables::answers::{enter_over, exit_to};
use std::alloc::AllocError;

/// A look: in the markers and the white space of a thematic break.
pub(crate) fn flow_before_thematic_break<'a, M: MachineTypes>(
    t: &mut Tokenizer<'a, M>,
) -> Result<State, AllocError>
    requires { IsCallable flow_byte flow_before_thematic_break t.old }
    ensures { IfOk result (DoesAll (step_in flow_byte flow_before_thematic_break t.old) t.old t.new) }
{
    match t.current() {
        None | Some(b'\n') => {
            if has_three(t) {
                set_kind(t, event::Name::ThematicBreak);
                return Ok(State::Ok);
            }
            Ok(State::Nok)
        }
        Some(b'*' | b'_' | b'-') => {
            if at_mark(t) {
                add_to_size(t);
                t.consume();
                return Ok(State::Next(Name::FlowBeforeThematicBreak));
            }
            Ok(State::Nok)
        }
        Some(b'\t' | b' ') => {
            t.consume();
            Ok(State::Next(Name::FlowBeforeThematicBreak))
        }
        Some(_) => Ok(State::Nok),
    }
}

/// In white space of a thematic break.
pub(crate) fn thematic_break_before<'a, M: MachineTypes>(
    t: &mut Tokenizer<'a, M>,
) -> Result<State, AllocError>
    requires { IsCallable flow_byte thematic_break_before t.old }
    ensures { IfOk result (DoesAll (step_in flow_byte thematic_break_before t.old) t.old t.new) }
{
    match t.current() {
        Some(b'\t' | b' ') => {
            t.consume();
            Ok(State::Next(Name::ThematicBreakBefore))
        }
        _ => exit_to(
            t,
            event::Name::SpaceOrTab,
            State::Retry(Name::ThematicBreakAtBreak),
        ),
    }
}

/// In a thematic break, between its markers and its white space.
pub(crate) fn thematic_break_at_break<'a, M: MachineTypes>(
    t: &mut Tokenizer<'a, M>,
) -> Result<State, AllocError>
    requires { IsCallable flow_byte thematic_break_at_break t.old }
    ensures { IfOk result (DoesAll (step_in flow_byte thematic_break_at_break t.old) t.old t.new) }
{
    match t.current() {
        None | Some(b'\n') => exit_to(t, event::Name::ThematicBreak, State::Retry(Name::FlowAfter)),
        Some(b'\t' | b' ') => enter_over(
            t,
            event::Name::SpaceOrTab,
            State::Next(Name::ThematicBreakBefore),
        ),
        Some(_) => enter_over(
            t,
            event::Name::ThematicBreakSequence,
            State::Next(Name::ThematicBreakSequence),
        ),
    }
}

/// In markers of a thematic break.
pub(crate) fn thematic_break_sequence<'a, M: MachineTypes>(
    t: &mut Tokenizer<'a, M>,
) -> Result<State, AllocError>
    requires { IsCallable flow_byte thematic_break_sequence t.old }
    ensures { IfOk result (DoesAll (step_in flow_byte thematic_break_sequence t.old) t.old t.new) }
{
    match t.current() {
        Some(b'*' | b'_' | b'-') => {
            t.consume();
            Ok(State::Next(Name::ThematicBreakSequence))
        }
        _ => exit_to(
            t,
            event::Name::ThematicBreakSequence,
            State::Retry(Name::ThematicBreakAtBreak),
        ),
    }
}
