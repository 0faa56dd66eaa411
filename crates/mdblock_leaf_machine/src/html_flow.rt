//! HTML blocks. Kinds 1 to 5 end with a line that holds their end, kinds 6 and 7 before a blank line (CommonMark, 4.6).

ghost use Rattle.std.specs.Prelude.{◌≡◌, IfOk};
ghost use Rattle.markdown_tokenizer.specs.declared.waiting.Waits.TheVariants.{Byte};
ghost use Rattle.mdblock_leaf_rows.specs.Steps.{rows_step};
ghost use Rattle.mdconstructs_tables.specs.RowInvariant.{DoesAll, IsCallable, step_in};
ghost use Rattle.mdblock_leaf_rows.specs.FlowBytes.{flow_byte};
ghost use Rattle.mdblock_leaf_rows.specs.HtmlFlow.{html_flow_start, html_flow_continuation, html_flow_continuation_comment_inside, html_flow_continuation_cdata_inside, html_flow_continuation_declaration_inside, html_flow_continuation_raw_tag_open, html_flow_continuation_raw_end_tag_goes_on, html_flow_continuation_raw_end_tag, html_flow_continuation_close, html_flow_continuation_before, html_flow_blank_line_before, html_flow_blank_line_inside, html_flow_continuation_after, html_flow_continuation_start};

use crate::html_names::{add_to_raw_name, ends_at_blank_line, html_is, is_raw_tag};
use crate::sizes::set_size;
use markdown_tokenizer::event;
use markdown_tokenizer::state::{MachineTypes, Name, State};
use markdown_tokenizer::tokenizer::Tokenizer;
use mdblock_leaf_rows::names;
use mdconstructs_tables::answers::exit_to;
use mdconstructs_tables::marker;
use std::alloc::AllocError;

/// In white space before HTML.
pub(crate) fn start<'a, M: MachineTypes>(t: &mut Tokenizer<'a, M>) -> Result<State, AllocError>
    requires { IsCallable flow_byte html_flow_start t.old }
    ensures { IfOk result (DoesAll (step_in flow_byte html_flow_start t.old) t.old t.new) }
{
    match t.current() {
        None | Some(b'\n') => {
            t.exit(event::Name::HtmlFlowData)?;
            exit_to(t, event::Name::HtmlFlow, State::Retry(Name::FlowAfter))
        }
        Some(b'\t' | b' ') => {
            t.consume();
            Ok(State::Next(Name::HtmlFlowStart))
        }
        Some(_) => {
            t.exit(event::Name::HtmlFlowData)?;
            t.enter(event::Name::HtmlFlowData)?;
            Ok(State::Retry(Name::HtmlFlowContinuation))
        }
    }
}

/// In a line of HTML: by its kind, the end may begin here.
pub(crate) fn continuation<'a, M: MachineTypes>(
    t: &mut Tokenizer<'a, M>,
) -> Result<State, AllocError>
    requires { IsCallable flow_byte html_flow_continuation t.old }
    ensures { IfOk result (DoesAll (step_in flow_byte html_flow_continuation t.old) t.old t.new) }
{
    match t.current() {
        None => {
            t.exit(event::Name::HtmlFlowData)?;
            exit_to(t, event::Name::HtmlFlow, State::Retry(Name::FlowAfter))
        }
        Some(b'\n') => {
            if ends_at_blank_line(t) {
                t.check(
                    State::Next(Name::HtmlFlowContinuationAfter),
                    State::Next(Name::HtmlFlowContinuationStart),
                )?;
                return Ok(State::Retry(Name::HtmlFlowBlankLineBefore));
            }
            t.exit(event::Name::HtmlFlowData)?;
            marker(t, event::Name::LineEnding)?;
            Ok(State::Next(Name::HtmlFlowContinuationBefore))
        }
        Some(b'<') => {
            if html_is(t, 1) {
                t.consume();
                return Ok(State::Next(Name::HtmlFlowContinuationRawTagOpen));
            }
            t.consume();
            Ok(State::Next(Name::HtmlFlowContinuation))
        }
        Some(b'-') => {
            if html_is(t, 2) {
                t.consume();
                return Ok(State::Next(Name::HtmlFlowContinuationCommentInside));
            }
            t.consume();
            Ok(State::Next(Name::HtmlFlowContinuation))
        }
        Some(b'?') => {
            if html_is(t, 3) {
                t.consume();
                return Ok(State::Next(Name::HtmlFlowContinuationDeclarationInside));
            }
            t.consume();
            Ok(State::Next(Name::HtmlFlowContinuation))
        }
        Some(b'>') => {
            if html_is(t, 4) {
                t.consume();
                return Ok(State::Next(Name::HtmlFlowContinuationClose));
            }
            t.consume();
            Ok(State::Next(Name::HtmlFlowContinuation))
        }
        Some(b']') => {
            if html_is(t, 5) {
                t.consume();
                return Ok(State::Next(Name::HtmlFlowContinuationCdataInside));
            }
            t.consume();
            Ok(State::Next(Name::HtmlFlowContinuation))
        }
        Some(_) => {
            t.consume();
            Ok(State::Next(Name::HtmlFlowContinuation))
        }
    }
}

/// Behind a dash in a comment.
pub(crate) fn continuation_comment_inside<'a, M: MachineTypes>(
    t: &mut Tokenizer<'a, M>,
) -> Result<State, AllocError>
    requires { IsCallable flow_byte html_flow_continuation_comment_inside t.old }
    ensures { IfOk result (DoesAll (step_in flow_byte html_flow_continuation_comment_inside t.old) t.old t.new) }
{
    match t.current() {
        Some(b'-') => {
            t.consume();
            Ok(State::Next(Name::HtmlFlowContinuationDeclarationInside))
        }
        _ => { Ok(State::Retry(Name::HtmlFlowContinuation)) }
    }
}

/// Behind a closing bracket in CDATA.
pub(crate) fn continuation_cdata_inside<'a, M: MachineTypes>(
    t: &mut Tokenizer<'a, M>,
) -> Result<State, AllocError>
    requires { IsCallable flow_byte html_flow_continuation_cdata_inside t.old }
    ensures { IfOk result (DoesAll (step_in flow_byte html_flow_continuation_cdata_inside t.old) t.old t.new) }
{
    match t.current() {
        Some(b']') => {
            t.consume();
            Ok(State::Next(Name::HtmlFlowContinuationDeclarationInside))
        }
        _ => { Ok(State::Retry(Name::HtmlFlowContinuation)) }
    }
}

/// Where only a greater-than sign is missing; the mark before it may come once more.
pub(crate) fn continuation_declaration_inside<'a, M: MachineTypes>(
    t: &mut Tokenizer<'a, M>,
) -> Result<State, AllocError>
    requires { IsCallable flow_byte html_flow_continuation_declaration_inside t.old }
    ensures { IfOk result (DoesAll (step_in flow_byte html_flow_continuation_declaration_inside t.old) t.old t.new) }
{
    match t.current() {
        Some(b'>') => {
            t.consume();
            Ok(State::Next(Name::HtmlFlowContinuationClose))
        }
        Some(b'-') => {
            if html_is(t, 2) {
                t.consume();
                return Ok(State::Next(Name::HtmlFlowContinuationDeclarationInside));
            }
            Ok(State::Retry(Name::HtmlFlowContinuation))
        }
        Some(b'?') => {
            if html_is(t, 3) {
                t.consume();
                return Ok(State::Next(Name::HtmlFlowContinuationDeclarationInside));
            }
            Ok(State::Retry(Name::HtmlFlowContinuation))
        }
        Some(b']') => {
            if html_is(t, 5) {
                t.consume();
                return Ok(State::Next(Name::HtmlFlowContinuationDeclarationInside));
            }
            Ok(State::Retry(Name::HtmlFlowContinuation))
        }
        _ => { Ok(State::Retry(Name::HtmlFlowContinuation)) }
    }
}

/// Behind a less-than sign in a script and the like.
pub(crate) fn continuation_raw_tag_open<'a, M: MachineTypes>(
    t: &mut Tokenizer<'a, M>,
) -> Result<State, AllocError>
    requires { IsCallable flow_byte html_flow_continuation_raw_tag_open t.old }
    ensures { IfOk result (DoesAll (step_in flow_byte html_flow_continuation_raw_tag_open t.old) t.old t.new) }
{
    match t.current() {
        Some(b'/') => {
            set_size(t, 0);
            t.consume();
            Ok(State::Next(Name::HtmlFlowContinuationRawEndTag))
        }
        _ => { Ok(State::Retry(Name::HtmlFlowContinuation)) }
    }
}

/// In the name of a closing tag there.
pub(crate) fn continuation_raw_end_tag<'a, M: MachineTypes>(
    t: &mut Tokenizer<'a, M>,
) -> Result<State, AllocError>
    requires { IsCallable flow_byte html_flow_continuation_raw_end_tag t.old }
    ensures { IfOk result (DoesAll (step_in flow_byte html_flow_continuation_raw_end_tag t.old) t.old t.new) }
{
    match t.current() {
        Some(byte @ (b'A'..=b'Z' | b'a'..=b'z' | b'0'..=b'9')) => Ok(
            continuation_raw_end_tag_goes_on(t, byte),
        ),
        Some(b'>') => {
            if is_raw_tag(t) {
                t.consume();
                return Ok(State::Next(Name::HtmlFlowContinuationClose));
            }
            Ok(State::Retry(Name::HtmlFlowContinuation))
        }
        _ => { Ok(State::Retry(Name::HtmlFlowContinuation)) }
    }
}

/// In the last line, behind the end.
pub(crate) fn continuation_close<'a, M: MachineTypes>(
    t: &mut Tokenizer<'a, M>,
) -> Result<State, AllocError>
    requires { IsCallable flow_byte html_flow_continuation_close t.old }
    ensures { IfOk result (DoesAll (step_in flow_byte html_flow_continuation_close t.old) t.old t.new) }
{
    match t.current() {
        None | Some(b'\n') => {
            t.exit(event::Name::HtmlFlowData)?;
            exit_to(t, event::Name::HtmlFlow, State::Retry(Name::FlowAfter))
        }
        Some(_) => {
            t.consume();
            Ok(State::Next(Name::HtmlFlowContinuationClose))
        }
    }
}

/// Before a further line of HTML.
pub(crate) fn continuation_before<'a, M: MachineTypes>(
    t: &mut Tokenizer<'a, M>,
) -> Result<State, AllocError>
    requires { IsCallable flow_byte html_flow_continuation_before t.old }
    ensures { IfOk result (DoesAll (step_in flow_byte html_flow_continuation_before t.old) t.old t.new) }
{
    match t.current() {
        None => exit_to(t, event::Name::HtmlFlow, State::Retry(Name::FlowAfter)),
        Some(b'\n') => {
            marker(t, event::Name::LineEnding)?;
            Ok(State::Next(Name::HtmlFlowContinuationBefore))
        }
        Some(_) => {
            t.enter(event::Name::HtmlFlowData)?;
            Ok(State::Retry(Name::HtmlFlowContinuation))
        }
    }
}

/// A look at the next line: is it blank?.
pub(crate) fn blank_line_before<'a, M: MachineTypes>(
    t: &mut Tokenizer<'a, M>,
) -> Result<State, AllocError>
    requires { IsCallable flow_byte html_flow_blank_line_before t.old }
    ensures { IfOk result (DoesAll (step_in flow_byte html_flow_blank_line_before t.old) t.old t.new) }
{
    t.consume();
    Ok(State::Next(names::HtmlFlowBlankLineInside))
}

/// A look over white space.
pub(crate) fn blank_line_inside<'a, M: MachineTypes>(
    t: &mut Tokenizer<'a, M>,
) -> Result<State, AllocError>
    requires { IsCallable flow_byte html_flow_blank_line_inside t.old }
    ensures { IfOk result (DoesAll (step_in flow_byte html_flow_blank_line_inside t.old) t.old t.new) }
{
    match t.current() {
        None | Some(b'\n') => { Ok(State::Ok) }
        Some(b'\t' | b' ') => {
            t.consume();
            Ok(State::Next(names::HtmlFlowBlankLineInside))
        }
        Some(_) => { Ok(State::Nok) }
    }
}

/// At the end of a line before a blank one.
pub(crate) fn continuation_after<'a, M: MachineTypes>(
    t: &mut Tokenizer<'a, M>,
) -> Result<State, AllocError>
    requires { IsCallable flow_byte html_flow_continuation_after t.old }
    ensures { IfOk result (DoesAll (step_in flow_byte html_flow_continuation_after t.old) t.old t.new) }
{
    t.exit(event::Name::HtmlFlowData)?;
    exit_to(t, event::Name::HtmlFlow, State::Retry(Name::FlowAfter))
}

/// At the end of a line that another one follows.
pub(crate) fn continuation_start<'a, M: MachineTypes>(
    t: &mut Tokenizer<'a, M>,
) -> Result<State, AllocError>
    requires { IsCallable flow_byte html_flow_continuation_start t.old }
    ensures { IfOk result (DoesAll (step_in flow_byte html_flow_continuation_start t.old) t.old t.new) }
{
    t.exit(event::Name::HtmlFlowData)?;
    marker(t, event::Name::LineEnding)?;
    Ok(State::Next(Name::HtmlFlowContinuationBefore))
}

/// At a letter or a digit of the name of a tag: it is one byte longer.
fn continuation_raw_end_tag_goes_on<'a, M: MachineTypes>(
    t: &mut Tokenizer<'a, M>,
    byte: u8,
) -> State
    requires { t.old.configuration.waiting ≡ Byte }
    ensures { DoesAll (rows_step (html_flow_continuation_raw_end_tag_goes_on byte) t.old) t.old t.new result }
{
    add_to_raw_name(t, byte);
    t.consume();
    State::Next(Name::HtmlFlowContinuationRawEndTag)
}
