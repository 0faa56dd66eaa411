//! Lines: before a line, behind what a look said of it, and behind a block.

ghost use Rattle.std.specs.Prelude.{◌≡◌, IfOk};
ghost use Rattle.markdown_tokenizer.specs.declared.waiting.Waits.TheVariants.{Byte};
ghost use Rattle.mdblock_leaf_rows.specs.Steps.{rows_step};
ghost use Rattle.mdconstructs_tables.specs.RowInvariant.{DoesAll, IsCallable, step_in};
ghost use Rattle.mdblock_leaf_rows.specs.FlowBytes.{flow_byte};
ghost use Rattle.mdblock_leaf_rows.specs.Flow.{flow_start, content_definition_before, flow_blank_line_after, flow_after, blank_begins_line, mark_begins_line};

use crate::sizes::{is_break, kind_is, set_count, set_indent};
use markdown_tokenizer::event;
use markdown_tokenizer::state::{MachineTypes, Name, State};
use markdown_tokenizer::tokenizer::Tokenizer;
use mdconstructs_tables::answers::enter_over;
use mdconstructs_tables::marker;
use std::alloc::AllocError;

/// Before a line: a look says what kind of line it is.
pub(crate) fn flow_start<'a, M: MachineTypes>(t: &mut Tokenizer<'a, M>) -> Result<State, AllocError>
    requires { IsCallable flow_byte flow_start t.old }
    ensures { IfOk result (DoesAll (step_in flow_byte flow_start t.old) t.old t.new) }
{
    match t.current() {
        None => Ok(State::Ok),
        Some(b'\n') => {
            marker(t, event::Name::BlankLineEnding)?;
            Ok(State::Next(Name::FlowStart))
        }
        Some(_) => {
            t.check(
                State::Next(Name::FlowBlankLineAfter),
                State::Next(Name::FlowBeforeContent),
            )?;
            set_indent(t, 0);
            Ok(State::Retry(Name::FlowBlankLineBefore))
        }
    }
}

/// Before the text of a chain of content, which begins as a document does.
pub(crate) fn content_definition_before<'a, M: MachineTypes>(
    t: &mut Tokenizer<'a, M>,
) -> Result<State, AllocError>
    requires { IsCallable flow_byte content_definition_before t.old }
    ensures { IfOk result (DoesAll (step_in flow_byte content_definition_before t.old) t.old t.new) }
{
    Ok(State::Retry(Name::FlowStart))
}

/// Before a line that is no plain text: the block of its kind begins.
pub(crate) fn flow_blank_line_after<'a, M: MachineTypes>(
    t: &mut Tokenizer<'a, M>,
) -> Result<State, AllocError>
    requires { IsCallable flow_byte flow_blank_line_after t.old }
    ensures { IfOk result (DoesAll (step_in flow_byte flow_blank_line_after t.old) t.old t.new) }
{
    match t.current() {
        Some(b'\t' | b' ') => blank_begins_line(t),
        Some(b'#') => {
            t.enter(event::Name::HeadingAtx)?;
            enter_over(
                t,
                event::Name::HeadingAtxSequence,
                State::Next(Name::HeadingAtxSequenceOpen),
            )
        }
        Some(b'*' | b'_' | b'-') => mark_begins_line(t),
        Some(b'`' | b'~') => {
            t.enter(event::Name::CodeFenced)?;
            t.enter(event::Name::CodeFencedFence)?;
            enter_over(
                t,
                event::Name::CodeFencedFenceSequence,
                State::Next(Name::RawFlowSequenceOpen),
            )
        }
        Some(b'<') => {
            t.enter(event::Name::HtmlFlow)?;
            t.enter(event::Name::HtmlFlowData)?;
            Ok(State::Retry(Name::HtmlFlowContinuation))
        }
        _ => Ok(State::Retry(Name::FlowBeforeContent)),
    }
}

/// Behind a block: its line ending is outside.
pub(crate) fn flow_after<'a, M: MachineTypes>(t: &mut Tokenizer<'a, M>) -> Result<State, AllocError>
    requires { IsCallable flow_byte flow_after t.old }
    ensures { IfOk result (DoesAll (step_in flow_byte flow_after t.old) t.old t.new) }
{
    match t.current() {
        Some(b'\n') => {
            marker(t, event::Name::LineEnding)?;
            Ok(State::Next(Name::FlowStart))
        }
        _ => Ok(State::Ok),
    }
}

/// At white space before a block: the block begins, by the kind of its line.
fn blank_begins_line<'a, M: MachineTypes>(t: &mut Tokenizer<'a, M>) -> Result<State, AllocError>
    requires called { IsCallable flow_byte flow_blank_line_after t.old }
    requires waits { t.old.configuration.waiting ≡ Byte }
    ensures { IfOk result (DoesAll (rows_step blank_begins_line t.old) t.old t.new) }
{
    if kind_is(t, event::Name::BlankLineEnding) {
        return enter_over(
            t,
            event::Name::SpaceOrTab,
            State::Next(Name::BlankLineStart),
        );
    }
    if kind_is(t, event::Name::CodeIndented) {
        t.enter(event::Name::CodeIndented)?;
        t.enter(event::Name::SpaceOrTab)?;
        set_count(t, 1);
        t.consume();
        return Ok(State::Next(Name::CodeIndentedStart));
    }
    if kind_is(t, event::Name::HeadingAtx) {
        t.enter(event::Name::HeadingAtx)?;
        return enter_over(
            t,
            event::Name::SpaceOrTab,
            State::Next(Name::HeadingAtxStart),
        );
    }
    if kind_is(t, event::Name::CodeFenced) {
        t.enter(event::Name::CodeFenced)?;
        t.enter(event::Name::CodeFencedFence)?;
        return enter_over(t, event::Name::SpaceOrTab, State::Next(Name::RawFlowStart));
    }
    if kind_is(t, event::Name::HtmlFlow) {
        t.enter(event::Name::HtmlFlow)?;
        return enter_over(
            t,
            event::Name::HtmlFlowData,
            State::Next(Name::HtmlFlowStart),
        );
    }
    if is_break(t) {
        t.enter(event::Name::ThematicBreak)?;
        return enter_over(
            t,
            event::Name::SpaceOrTab,
            State::Next(Name::ThematicBreakBefore),
        );
    }
    Ok(State::Retry(Name::FlowBeforeContent))
}

/// At a marker before a block: a thematic break, or a paragraph where the line could only be an underline.
fn mark_begins_line<'a, M: MachineTypes>(t: &mut Tokenizer<'a, M>) -> Result<State, AllocError>
    requires called { IsCallable flow_byte flow_blank_line_after t.old }
    requires waits { t.old.configuration.waiting ≡ Byte }
    ensures { IfOk result (DoesAll (rows_step mark_begins_line t.old) t.old t.new) }
{
    if is_break(t) {
        t.enter(event::Name::ThematicBreak)?;
        return enter_over(
            t,
            event::Name::ThematicBreakSequence,
            State::Next(Name::ThematicBreakSequence),
        );
    }
    Ok(State::Retry(Name::FlowBeforeContent))
}
