//! ATX headings: up to six number signs, a text, and number signs that close it (CommonMark, 4.2).
//!
//! The look counts how long the text is, so the closing sequence needs no look of its own.

ghost use Rattle.std.specs.Prelude.{◌≡◌, IfOk};
ghost use Rattle.markdown_tokenizer.specs.declared.waiting.Waits.TheVariants.{Byte};
ghost use Rattle.mdblock_leaf_rows.specs.Steps.{rows_step};
ghost use Rattle.mdconstructs_tables.specs.RowInvariant.{DoesAll, IsCallable, step_in};
ghost use Rattle.mdblock_leaf_rows.specs.FlowBytes.{flow_byte};
ghost use Rattle.mdblock_leaf_rows.specs.HeadingAtx.{flow_before_heading_atx, heading_atx_look_start, heading_atx_look_text, heading_atx_look_blank, heading_atx_look_signs, heading_atx_look_after, heading_atx_start, heading_atx_sequence_open, heading_atx_at_break, heading_atx_before, heading_atx_data, text_or_signs, text_goes_on};

use crate::sizes::{
    TEXT, add_to_count, add_to_size, count_text, end_signs, has_room, has_text, is_in_text,
    set_count, set_kind, set_size, take_signs_as_text,
};
use markdown_tokenizer::event;
use markdown_tokenizer::state::{MachineTypes, Name, State};
use markdown_tokenizer::tokenizer::Tokenizer;
use mdblock_leaf_rows::names;
use mdconstructs_tables::answers::{enter_over, exit_to};
use std::alloc::AllocError;

/// A look: in the number signs that open a heading. There are at most six.
pub(crate) fn flow_before_heading_atx<'a, M: MachineTypes>(
    t: &mut Tokenizer<'a, M>,
) -> Result<State, AllocError>
    requires { IsCallable flow_byte flow_before_heading_atx t.old }
    ensures { IfOk result (DoesAll (step_in flow_byte flow_before_heading_atx t.old) t.old t.new) }
{
    match t.current() {
        None | Some(b'\n') => {
            set_kind(t, event::Name::HeadingAtx);
            set_size(t, 0);
            Ok(State::Ok)
        }
        Some(b'\t' | b' ') => {
            set_kind(t, event::Name::HeadingAtx);
            set_size(t, 0);
            set_count(t, 0);
            t.consume();
            Ok(State::Next(names::HeadingAtxLookStart))
        }
        Some(b'#') => {
            if has_room(t) {
                add_to_size(t);
                t.consume();
                return Ok(State::Next(Name::FlowBeforeHeadingAtx));
            }
            Ok(State::Nok)
        }
        Some(_) => Ok(State::Nok),
    }
}

/// A look: in the white space before the text of a heading.
pub(crate) fn heading_atx_look_start<'a, M: MachineTypes>(
    t: &mut Tokenizer<'a, M>,
) -> Result<State, AllocError>
    requires { IsCallable flow_byte heading_atx_look_start t.old }
    ensures { IfOk result (DoesAll (step_in flow_byte heading_atx_look_start t.old) t.old t.new) }
{
    match t.current() {
        None | Some(b'\n') => Ok(State::Ok),
        Some(b'\t' | b' ') => {
            t.consume();
            Ok(State::Next(names::HeadingAtxLookStart))
        }
        Some(b'#') => {
            add_to_count(t);
            t.consume();
            Ok(State::Next(names::HeadingAtxLookSigns))
        }
        Some(_) => {
            count_text(t);
            t.consume();
            Ok(State::Next(names::HeadingAtxLookText))
        }
    }
}

/// A look: in the text of a heading.
pub(crate) fn heading_atx_look_text<'a, M: MachineTypes>(
    t: &mut Tokenizer<'a, M>,
) -> Result<State, AllocError>
    requires { IsCallable flow_byte heading_atx_look_text t.old }
    ensures { IfOk result (DoesAll (step_in flow_byte heading_atx_look_text t.old) t.old t.new) }
{
    match t.current() {
        None | Some(b'\n') => Ok(State::Ok),
        Some(b'\t' | b' ') => {
            add_to_count(t);
            t.consume();
            Ok(State::Next(names::HeadingAtxLookBlank))
        }
        Some(_) => {
            count_text(t);
            t.consume();
            Ok(State::Next(names::HeadingAtxLookText))
        }
    }
}

/// A look: in white space behind the text of a heading, or inside it.
pub(crate) fn heading_atx_look_blank<'a, M: MachineTypes>(
    t: &mut Tokenizer<'a, M>,
) -> Result<State, AllocError>
    requires { IsCallable flow_byte heading_atx_look_blank t.old }
    ensures { IfOk result (DoesAll (step_in flow_byte heading_atx_look_blank t.old) t.old t.new) }
{
    match t.current() {
        None | Some(b'\n') => Ok(State::Ok),
        Some(b'\t' | b' ') => {
            add_to_count(t);
            t.consume();
            Ok(State::Next(names::HeadingAtxLookBlank))
        }
        Some(b'#') => {
            add_to_count(t);
            t.consume();
            Ok(State::Next(names::HeadingAtxLookSigns))
        }
        Some(_) => {
            count_text(t);
            t.consume();
            Ok(State::Next(names::HeadingAtxLookText))
        }
    }
}

/// A look: in number signs that may close a heading.
pub(crate) fn heading_atx_look_signs<'a, M: MachineTypes>(
    t: &mut Tokenizer<'a, M>,
) -> Result<State, AllocError>
    requires { IsCallable flow_byte heading_atx_look_signs t.old }
    ensures { IfOk result (DoesAll (step_in flow_byte heading_atx_look_signs t.old) t.old t.new) }
{
    match t.current() {
        None | Some(b'\n') => Ok(State::Ok),
        Some(b'\t' | b' ') => {
            end_signs(t);
            t.consume();
            Ok(State::Next(names::HeadingAtxLookAfter))
        }
        Some(b'#') => {
            add_to_count(t);
            t.consume();
            Ok(State::Next(names::HeadingAtxLookSigns))
        }
        Some(_) => {
            count_text(t);
            t.consume();
            Ok(State::Next(names::HeadingAtxLookText))
        }
    }
}

/// A look: in white space behind number signs that may close a heading.
pub(crate) fn heading_atx_look_after<'a, M: MachineTypes>(
    t: &mut Tokenizer<'a, M>,
) -> Result<State, AllocError>
    requires { IsCallable flow_byte heading_atx_look_after t.old }
    ensures { IfOk result (DoesAll (step_in flow_byte heading_atx_look_after t.old) t.old t.new) }
{
    match t.current() {
        None | Some(b'\n') => Ok(State::Ok),
        Some(b'\t' | b' ') => {
            add_to_count(t);
            t.consume();
            Ok(State::Next(names::HeadingAtxLookAfter))
        }
        Some(b'#') => {
            take_signs_as_text(t);
            t.consume();
            Ok(State::Next(names::HeadingAtxLookSigns))
        }
        Some(_) => {
            count_text(t);
            t.consume();
            Ok(State::Next(names::HeadingAtxLookText))
        }
    }
}

/// In the white space before a heading.
pub(crate) fn heading_atx_start<'a, M: MachineTypes>(
    t: &mut Tokenizer<'a, M>,
) -> Result<State, AllocError>
    requires { IsCallable flow_byte heading_atx_start t.old }
    ensures { IfOk result (DoesAll (step_in flow_byte heading_atx_start t.old) t.old t.new) }
{
    match t.current() {
        Some(b'\t' | b' ') => {
            t.consume();
            Ok(State::Next(Name::HeadingAtxStart))
        }
        Some(b'#') => {
            t.exit(event::Name::SpaceOrTab)?;
            enter_over(
                t,
                event::Name::HeadingAtxSequence,
                State::Next(Name::HeadingAtxSequenceOpen),
            )
        }
        _ => exit_to(
            t,
            event::Name::SpaceOrTab,
            State::Retry(Name::HeadingAtxAtBreak),
        ),
    }
}

/// In number signs that open or close a heading.
pub(crate) fn heading_atx_sequence_open<'a, M: MachineTypes>(
    t: &mut Tokenizer<'a, M>,
) -> Result<State, AllocError>
    requires { IsCallable flow_byte heading_atx_sequence_open t.old }
    ensures { IfOk result (DoesAll (step_in flow_byte heading_atx_sequence_open t.old) t.old t.new) }
{
    match t.current() {
        Some(b'#') => {
            t.consume();
            Ok(State::Next(Name::HeadingAtxSequenceOpen))
        }
        _ => exit_to(
            t,
            event::Name::HeadingAtxSequence,
            State::Retry(Name::HeadingAtxAtBreak),
        ),
    }
}

/// In a heading, between its parts.
pub(crate) fn heading_atx_at_break<'a, M: MachineTypes>(
    t: &mut Tokenizer<'a, M>,
) -> Result<State, AllocError>
    requires { IsCallable flow_byte heading_atx_at_break t.old }
    ensures { IfOk result (DoesAll (step_in flow_byte heading_atx_at_break t.old) t.old t.new) }
{
    match t.current() {
        None | Some(b'\n') => exit_to(t, event::Name::HeadingAtx, State::Retry(Name::FlowAfter)),
        Some(b'\t' | b' ') => enter_over(
            t,
            event::Name::SpaceOrTab,
            State::Next(Name::HeadingAtxBefore),
        ),
        Some(_) => text_or_signs(t),
    }
}

/// In white space of a heading.
pub(crate) fn heading_atx_before<'a, M: MachineTypes>(
    t: &mut Tokenizer<'a, M>,
) -> Result<State, AllocError>
    requires { IsCallable flow_byte heading_atx_before t.old }
    ensures { IfOk result (DoesAll (step_in flow_byte heading_atx_before t.old) t.old t.new) }
{
    match t.current() {
        Some(b'\t' | b' ') => {
            t.consume();
            Ok(State::Next(Name::HeadingAtxBefore))
        }
        _ => exit_to(
            t,
            event::Name::SpaceOrTab,
            State::Retry(Name::HeadingAtxAtBreak),
        ),
    }
}

/// In the text of a heading.
pub(crate) fn heading_atx_data<'a, M: MachineTypes>(
    t: &mut Tokenizer<'a, M>,
) -> Result<State, AllocError>
    requires { IsCallable flow_byte heading_atx_data t.old }
    ensures { IfOk result (DoesAll (step_in flow_byte heading_atx_data t.old) t.old t.new) }
{
    match t.current() {
        None | Some(b'\n') => {
            t.exit(event::Name::Data)?;
            t.exit(event::Name::HeadingAtxText)?;
            exit_to(t, event::Name::HeadingAtx, State::Retry(Name::FlowAfter))
        }
        Some(_) => text_goes_on(t),
    }
}

/// At a byte of a heading that is no white space: its text begins, if there is some that was not read, or its number signs.
fn text_or_signs<'a, M: MachineTypes>(t: &mut Tokenizer<'a, M>) -> Result<State, AllocError>
    requires called { IsCallable flow_byte heading_atx_at_break t.old }
    requires waits { t.old.configuration.waiting ≡ Byte }
    ensures { IfOk result (DoesAll (rows_step text_or_signs t.old) t.old t.new) }
{
    if has_text(t) {
        t.enter(event::Name::HeadingAtxText)?;
        t.enter_link(event::Name::Data, TEXT)?;
        set_count(t, 1);
        t.consume();
        return Ok(State::Next(Name::HeadingAtxData));
    }
    enter_over(
        t,
        event::Name::HeadingAtxSequence,
        State::Next(Name::HeadingAtxSequenceOpen),
    )
}

/// In the text of a heading, or behind it: the look counted how long it is.
fn text_goes_on<'a, M: MachineTypes>(t: &mut Tokenizer<'a, M>) -> Result<State, AllocError>
    requires called { IsCallable flow_byte heading_atx_data t.old }
    requires waits { t.old.configuration.waiting ≡ Byte }
    ensures { IfOk result (DoesAll (rows_step text_goes_on t.old) t.old t.new) }
{
    if is_in_text(t) {
        add_to_count(t);
        t.consume();
        return Ok(State::Next(Name::HeadingAtxData));
    }
    t.exit(event::Name::Data)?;
    t.exit(event::Name::HeadingAtxText)?;
    set_size(t, 0);
    Ok(State::Retry(Name::HeadingAtxAtBreak))
}
