//! Setext headings: a paragraph with an underline of dashes or equals signs (CommonMark, 4.3).

ghost use Rattle.std.specs.Prelude.{◌≡◌, IfOk};
ghost use Rattle.markdown_tokenizer.specs.declared.waiting.Waits.TheVariants.{Byte};
ghost use Rattle.mdconstructs_tables.specs.RowInvariant.{DoesAll, IsCallable, step_in};
ghost use Rattle.mdblock_leaf_rows.specs.FlowBytes.{flow_byte};
ghost use Rattle.mdblock_leaf_rows.specs.Steps.{rows_step};
ghost use Rattle.mdblock_leaf_rows.specs.HeadingEdits.{CanEndHeading};
ghost use Rattle.mdblock_leaf_rows.specs.HeadingSetext.{flow_before_heading_setext, heading_setext_look_after, further_dash, heading_setext_text_after, heading_setext_start, heading_setext_before, heading_setext_inside, heading_setext_after};

use crate::heading_edits::end_heading;
use crate::sizes::{add_to_size, at_mark, breaks_are_on, set_kind};
use markdown_tokenizer::event;
use markdown_tokenizer::state::{MachineTypes, Name, State};
use markdown_tokenizer::tokenizer::Tokenizer;
use mdblock_leaf_rows::names;
use mdconstructs_tables::answers::{enter_over, exit_to};
use mdconstructs_tables::marker;
use std::alloc::{AllocError, Global};

/// A look: in the markers of an underline.
pub(crate) fn flow_before_heading_setext<'a, M: MachineTypes>(
    t: &mut Tokenizer<'a, M>,
) -> Result<State, AllocError>
    requires { IsCallable flow_byte flow_before_heading_setext t.old }
    ensures { IfOk result (DoesAll (step_in flow_byte flow_before_heading_setext t.old) t.old t.new) }
{
    match t.current() {
        None | Some(b'\n') => {
            set_kind(t, event::Name::HeadingSetextUnderline);
            Ok(State::Ok)
        }
        Some(b'-' | b'=') => {
            if at_mark(t) {
                add_to_size(t);
                t.consume();
                return Ok(State::Next(Name::FlowBeforeHeadingSetext));
            }
            Ok(State::Nok)
        }
        Some(b'\t' | b' ') => {
            t.consume();
            Ok(State::Next(names::HeadingSetextLookAfter))
        }
        Some(_) => Ok(State::Nok),
    }
}

/// A look: behind the markers of an underline. Further dashes may make a thematic break.
pub(crate) fn heading_setext_look_after<'a, M: MachineTypes>(
    t: &mut Tokenizer<'a, M>,
) -> Result<State, AllocError>
    requires { IsCallable flow_byte heading_setext_look_after t.old }
    ensures { IfOk result (DoesAll (step_in flow_byte heading_setext_look_after t.old) t.old t.new) }
{
    match t.current() {
        None | Some(b'\n') => {
            set_kind(t, event::Name::HeadingSetextUnderline);
            Ok(State::Ok)
        }
        Some(b'-') => Ok(further_dash(t)),
        Some(b'\t' | b' ') => {
            t.consume();
            Ok(State::Next(names::HeadingSetextLookAfter))
        }
        Some(_) => Ok(State::Nok),
    }
}

/// At a dash behind the markers of an underline: the line may still be a thematic break.
fn further_dash<'a, M: MachineTypes>(t: &mut Tokenizer<'a, M>) -> State
    requires { t.old.configuration.waiting ≡ Byte }
    ensures { DoesAll (rows_step further_dash t.old) t.old t.new result }
{
    if breaks_are_on(t) {
        if at_mark(t) {
            add_to_size(t);
            t.consume();
            return State::Next(Name::FlowBeforeThematicBreak);
        }
        return State::Nok;
    }
    State::Nok
}

/// Behind a paragraph whose next line is an underline.
pub(crate) fn heading_setext_text_after<'a, M: MachineTypes>(
    t: &mut Tokenizer<'a, M>,
) -> Result<State, AllocError>
    requires { IsCallable flow_byte heading_setext_text_after t.old }
    ensures { IfOk result (DoesAll (step_in flow_byte heading_setext_text_after t.old) t.old t.new) }
{
    marker(t, event::Name::LineEnding)?;
    Ok(State::Next(Name::HeadingSetextStart))
}

/// Before an underline.
pub(crate) fn heading_setext_start<'a, M: MachineTypes>(
    t: &mut Tokenizer<'a, M>,
) -> Result<State, AllocError>
    requires { IsCallable flow_byte heading_setext_start t.old }
    ensures { IfOk result (DoesAll (step_in flow_byte heading_setext_start t.old) t.old t.new) }
{
    match t.current() {
        None => Ok(State::Ok),
        Some(b'\n') => Ok(State::Retry(Name::FlowAfter)),
        Some(b'\t' | b' ') => {
            t.enter(event::Name::HeadingSetextUnderline)?;
            enter_over(
                t,
                event::Name::SpaceOrTab,
                State::Next(Name::HeadingSetextBefore),
            )
        }
        Some(_) => {
            t.enter(event::Name::HeadingSetextUnderline)?;
            enter_over(
                t,
                event::Name::HeadingSetextUnderlineSequence,
                State::Next(Name::HeadingSetextInside),
            )
        }
    }
}

/// In white space of an underline.
pub(crate) fn heading_setext_before<'a, M: MachineTypes>(
    t: &mut Tokenizer<'a, M>,
) -> Result<State, AllocError>
    requires { IsCallable flow_byte heading_setext_before t.old }
    ensures { IfOk result (DoesAll (step_in flow_byte heading_setext_before t.old) t.old t.new) }
{
    match t.current() {
        Some(b'\t' | b' ') => {
            t.consume();
            Ok(State::Next(Name::HeadingSetextBefore))
        }
        _ => exit_to(
            t,
            event::Name::SpaceOrTab,
            State::Retry(Name::HeadingSetextAfter),
        ),
    }
}

/// In the markers of an underline.
pub(crate) fn heading_setext_inside<'a, M: MachineTypes>(
    t: &mut Tokenizer<'a, M>,
) -> Result<State, AllocError>
    requires { IsCallable flow_byte heading_setext_inside t.old }
    ensures { IfOk result (DoesAll (step_in flow_byte heading_setext_inside t.old) t.old t.new) }
{
    match t.current() {
        Some(b'-' | b'=') => {
            t.consume();
            Ok(State::Next(Name::HeadingSetextInside))
        }
        _ => exit_to(
            t,
            event::Name::HeadingSetextUnderlineSequence,
            State::Retry(Name::HeadingSetextAfter),
        ),
    }
}

/// In an underline, between its markers and its white space. At its end the paragraph before it becomes a heading.
pub(crate) fn heading_setext_after<'a, M: MachineTypes>(
    alloc: Global,
    t: &mut Tokenizer<'a, M>,
) -> Result<State, AllocError>
    requires called { IsCallable flow_byte heading_setext_after t.old }
    requires heading { CanEndHeading t.old.configuration }
    ensures { IfOk result (DoesAll (step_in flow_byte heading_setext_after t.old) t.old t.new) }
{
    match t.current() {
        None | Some(b'\n') => {
            t.exit(event::Name::HeadingSetextUnderline)?;
            end_heading(alloc, t)?;
            Ok(State::Retry(Name::FlowAfter))
        }
        Some(b'\t' | b' ') => enter_over(
            t,
            event::Name::SpaceOrTab,
            State::Next(Name::HeadingSetextBefore),
        ),
        Some(_) => enter_over(
            t,
            event::Name::HeadingSetextUnderlineSequence,
            State::Next(Name::HeadingSetextInside),
        ),
    }
}
