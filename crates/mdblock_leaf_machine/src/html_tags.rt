//! Looks at the start of HTML blocks: which of the seven kinds a line begins (CommonMark, 4.6).

ghost use Rattle.std.specs.Prelude.{◌≡◌, IfOk};
ghost use Rattle.markdown_tokenizer.specs.declared.waiting.Waits.TheVariants.{Byte};
ghost use Rattle.mdblock_leaf_rows.specs.Steps.{rows_step};
ghost use Rattle.mdconstructs_tables.specs.RowInvariant.{DoesAll, IsCallable, step_in};
ghost use Rattle.mdblock_leaf_rows.specs.FlowBytes.{flow_byte};
ghost use Rattle.mdblock_leaf_rows.specs.HtmlTags.{html_flow_open, html_flow_declaration_open, html_flow_comment_open_inside, html_flow_cdata_open_inside, html_flow_tag_close_start, html_flow_tag_name_goes_on, html_flow_tag_name, html_flow_basic_self_closing, html_flow_complete_closing_tag_after, html_flow_complete_end, html_flow_complete_attribute_name_before, html_flow_complete_attribute_name, html_flow_complete_attribute_name_after, html_flow_complete_attribute_value_before, html_flow_complete_attribute_value_quoted, html_flow_complete_attribute_value_quoted_after, html_flow_complete_attribute_value_unquoted, html_flow_complete_after};

use crate::html_names::{
    NO_NAME, add_to_name, at_cdata, closes_tag, is_block_tag, opens_raw, set_closing, set_html,
};
use crate::sizes::{add_to_size, at_mark, set_marker, set_size};
use markdown_tokenizer::state::{MachineTypes, Name, State};
use markdown_tokenizer::tokenizer::Tokenizer;
use mdblock_leaf_rows::names;
use std::alloc::AllocError;

/// A look behind a less-than sign.
pub(crate) fn tag_open<'a, M: MachineTypes>(t: &mut Tokenizer<'a, M>) -> Result<State, AllocError>
    requires { IsCallable flow_byte html_flow_open t.old }
    ensures { IfOk result (DoesAll (step_in flow_byte html_flow_open t.old) t.old t.new) }
{
    match t.current() {
        Some(b'A'..=b'Z' | b'a'..=b'z') => {
            set_closing(t, false);
            set_size(t, 0);
            Ok(State::Retry(Name::HtmlFlowTagName))
        }
        Some(b'/') => {
            t.consume();
            Ok(State::Next(Name::HtmlFlowTagCloseStart))
        }
        Some(b'!') => {
            t.consume();
            Ok(State::Next(Name::HtmlFlowDeclarationOpen))
        }
        Some(b'?') => {
            set_html(t, 3);
            Ok(State::Ok)
        }
        _ => { Ok(State::Nok) }
    }
}

/// A look behind `<!`.
pub(crate) fn declaration_open<'a, M: MachineTypes>(
    t: &mut Tokenizer<'a, M>,
) -> Result<State, AllocError>
    requires { IsCallable flow_byte html_flow_declaration_open t.old }
    ensures { IfOk result (DoesAll (step_in flow_byte html_flow_declaration_open t.old) t.old t.new) }
{
    match t.current() {
        Some(b'A'..=b'Z' | b'a'..=b'z') => {
            set_html(t, 4);
            Ok(State::Ok)
        }
        Some(b'-') => {
            t.consume();
            Ok(State::Next(Name::HtmlFlowCommentOpenInside))
        }
        Some(b'[') => {
            set_size(t, 0);
            t.consume();
            Ok(State::Next(Name::HtmlFlowCdataOpenInside))
        }
        _ => { Ok(State::Nok) }
    }
}

/// A look behind `<!-`.
pub(crate) fn comment_open_inside<'a, M: MachineTypes>(
    t: &mut Tokenizer<'a, M>,
) -> Result<State, AllocError>
    requires { IsCallable flow_byte html_flow_comment_open_inside t.old }
    ensures { IfOk result (DoesAll (step_in flow_byte html_flow_comment_open_inside t.old) t.old t.new) }
{
    match t.current() {
        Some(b'-') => {
            set_html(t, 2);
            Ok(State::Ok)
        }
        _ => { Ok(State::Nok) }
    }
}

/// A look behind `<![` and so many bytes of `CDATA[`.
pub(crate) fn cdata_open_inside<'a, M: MachineTypes>(
    t: &mut Tokenizer<'a, M>,
) -> Result<State, AllocError>
    requires { IsCallable flow_byte html_flow_cdata_open_inside t.old }
    ensures { IfOk result (DoesAll (step_in flow_byte html_flow_cdata_open_inside t.old) t.old t.new) }
{
    match t.current() {
        Some(b'A'..=b'Z' | b'a'..=b'z') => {
            if at_cdata(t) {
                add_to_size(t);
                t.consume();
                return Ok(State::Next(Name::HtmlFlowCdataOpenInside));
            }
            Ok(State::Nok)
        }
        Some(b'[') => {
            if at_cdata(t) {
                set_html(t, 5);
                return Ok(State::Ok);
            }
            Ok(State::Nok)
        }
        _ => { Ok(State::Nok) }
    }
}

/// A look behind `</`.
pub(crate) fn tag_close_start<'a, M: MachineTypes>(
    t: &mut Tokenizer<'a, M>,
) -> Result<State, AllocError>
    requires { IsCallable flow_byte html_flow_tag_close_start t.old }
    ensures { IfOk result (DoesAll (step_in flow_byte html_flow_tag_close_start t.old) t.old t.new) }
{
    match t.current() {
        Some(b'A'..=b'Z' | b'a'..=b'z') => {
            set_closing(t, true);
            set_size(t, 0);
            Ok(State::Retry(Name::HtmlFlowTagName))
        }
        _ => { Ok(State::Nok) }
    }
}

/// A look at the name of a tag, whose letters and digits make a number.
pub(crate) fn tag_name<'a, M: MachineTypes>(t: &mut Tokenizer<'a, M>) -> Result<State, AllocError>
    requires { IsCallable flow_byte html_flow_tag_name t.old }
    ensures { IfOk result (DoesAll (step_in flow_byte html_flow_tag_name t.old) t.old t.new) }
{
    match t.current() {
        None | Some(b'\n') => {
            if opens_raw(t) {
                set_html(t, 1);
                return Ok(State::Ok);
            }
            if is_block_tag(t) {
                set_html(t, 6);
                return Ok(State::Ok);
            }
            Ok(State::Nok)
        }
        Some(byte @ (b'A'..=b'Z' | b'a'..=b'z' | b'0'..=b'9')) => Ok(tag_name_goes_on(t, byte)),
        Some(b'\t' | b' ') => {
            if opens_raw(t) {
                set_html(t, 1);
                return Ok(State::Ok);
            }
            if is_block_tag(t) {
                set_html(t, 6);
                return Ok(State::Ok);
            }
            if closes_tag(t) {
                t.consume();
                return Ok(State::Next(Name::HtmlFlowCompleteClosingTagAfter));
            }
            t.consume();
            Ok(State::Next(Name::HtmlFlowCompleteAttributeNameBefore))
        }
        Some(b'>') => {
            if opens_raw(t) {
                set_html(t, 1);
                return Ok(State::Ok);
            }
            if is_block_tag(t) {
                set_html(t, 6);
                return Ok(State::Ok);
            }
            t.consume();
            Ok(State::Next(Name::HtmlFlowCompleteAfter))
        }
        Some(b'/') => {
            if is_block_tag(t) {
                t.consume();
                return Ok(State::Next(Name::HtmlFlowBasicSelfClosing));
            }
            if closes_tag(t) {
                return Ok(State::Nok);
            }
            t.consume();
            Ok(State::Next(Name::HtmlFlowCompleteEnd))
        }
        Some(b'-') => {
            set_size(t, NO_NAME);
            t.consume();
            Ok(State::Next(Name::HtmlFlowTagName))
        }
        Some(_) => { Ok(State::Nok) }
    }
}

/// A look behind the slash of a tag with a listed name.
pub(crate) fn basic_self_closing<'a, M: MachineTypes>(
    t: &mut Tokenizer<'a, M>,
) -> Result<State, AllocError>
    requires { IsCallable flow_byte html_flow_basic_self_closing t.old }
    ensures { IfOk result (DoesAll (step_in flow_byte html_flow_basic_self_closing t.old) t.old t.new) }
{
    match t.current() {
        Some(b'>') => {
            set_html(t, 6);
            Ok(State::Ok)
        }
        _ => { Ok(State::Nok) }
    }
}

/// A look over white space behind the name of a closing tag.
pub(crate) fn closing_tag_after<'a, M: MachineTypes>(
    t: &mut Tokenizer<'a, M>,
) -> Result<State, AllocError>
    requires { IsCallable flow_byte html_flow_complete_closing_tag_after t.old }
    ensures { IfOk result (DoesAll (step_in flow_byte html_flow_complete_closing_tag_after t.old) t.old t.new) }
{
    match t.current() {
        Some(b'\t' | b' ') => {
            t.consume();
            Ok(State::Next(Name::HtmlFlowCompleteClosingTagAfter))
        }
        Some(b'>') => {
            t.consume();
            Ok(State::Next(Name::HtmlFlowCompleteAfter))
        }
        _ => { Ok(State::Nok) }
    }
}

/// A look behind the slash of an opening tag.
pub(crate) fn end<'a, M: MachineTypes>(t: &mut Tokenizer<'a, M>) -> Result<State, AllocError>
    requires { IsCallable flow_byte html_flow_complete_end t.old }
    ensures { IfOk result (DoesAll (step_in flow_byte html_flow_complete_end t.old) t.old t.new) }
{
    match t.current() {
        Some(b'>') => {
            t.consume();
            Ok(State::Next(Name::HtmlFlowCompleteAfter))
        }
        _ => { Ok(State::Nok) }
    }
}

/// A look over white space before an attribute, or before the end of the tag.
pub(crate) fn attribute_name_before<'a, M: MachineTypes>(
    t: &mut Tokenizer<'a, M>,
) -> Result<State, AllocError>
    requires { IsCallable flow_byte html_flow_complete_attribute_name_before t.old }
    ensures { IfOk result (DoesAll (step_in flow_byte html_flow_complete_attribute_name_before t.old) t.old t.new) }
{
    match t.current() {
        Some(b'\t' | b' ') => {
            t.consume();
            Ok(State::Next(Name::HtmlFlowCompleteAttributeNameBefore))
        }
        Some(b'_') => {
            t.consume();
            Ok(State::Next(Name::HtmlFlowCompleteAttributeName))
        }
        Some(b':') => {
            t.consume();
            Ok(State::Next(Name::HtmlFlowCompleteAttributeName))
        }
        Some(b'A'..=b'Z' | b'a'..=b'z') => {
            t.consume();
            Ok(State::Next(Name::HtmlFlowCompleteAttributeName))
        }
        Some(b'/') => {
            t.consume();
            Ok(State::Next(Name::HtmlFlowCompleteEnd))
        }
        Some(b'>') => {
            t.consume();
            Ok(State::Next(Name::HtmlFlowCompleteAfter))
        }
        _ => { Ok(State::Nok) }
    }
}

/// A look over the name of an attribute.
pub(crate) fn attribute_name<'a, M: MachineTypes>(
    t: &mut Tokenizer<'a, M>,
) -> Result<State, AllocError>
    requires { IsCallable flow_byte html_flow_complete_attribute_name t.old }
    ensures { IfOk result (DoesAll (step_in flow_byte html_flow_complete_attribute_name t.old) t.old t.new) }
{
    match t.current() {
        Some(b'_') => {
            t.consume();
            Ok(State::Next(Name::HtmlFlowCompleteAttributeName))
        }
        Some(b':') => {
            t.consume();
            Ok(State::Next(Name::HtmlFlowCompleteAttributeName))
        }
        Some(b'-') => {
            t.consume();
            Ok(State::Next(Name::HtmlFlowCompleteAttributeName))
        }
        Some(b'.') => {
            t.consume();
            Ok(State::Next(Name::HtmlFlowCompleteAttributeName))
        }
        Some(b'A'..=b'Z' | b'a'..=b'z') => {
            t.consume();
            Ok(State::Next(Name::HtmlFlowCompleteAttributeName))
        }
        Some(b'0'..=b'9') => {
            t.consume();
            Ok(State::Next(Name::HtmlFlowCompleteAttributeName))
        }
        Some(b'\t' | b' ') => {
            t.consume();
            Ok(State::Next(Name::HtmlFlowCompleteAttributeNameAfter))
        }
        Some(b'=') => {
            t.consume();
            Ok(State::Next(Name::HtmlFlowCompleteAttributeValueBefore))
        }
        Some(b'/') => {
            t.consume();
            Ok(State::Next(Name::HtmlFlowCompleteEnd))
        }
        Some(b'>') => {
            t.consume();
            Ok(State::Next(Name::HtmlFlowCompleteAfter))
        }
        _ => { Ok(State::Nok) }
    }
}

/// A look over white space behind the name of an attribute.
pub(crate) fn attribute_name_after<'a, M: MachineTypes>(
    t: &mut Tokenizer<'a, M>,
) -> Result<State, AllocError>
    requires { IsCallable flow_byte html_flow_complete_attribute_name_after t.old }
    ensures { IfOk result (DoesAll (step_in flow_byte html_flow_complete_attribute_name_after t.old) t.old t.new) }
{
    match t.current() {
        Some(b'\t' | b' ') => {
            t.consume();
            Ok(State::Next(Name::HtmlFlowCompleteAttributeNameAfter))
        }
        Some(b'=') => {
            t.consume();
            Ok(State::Next(Name::HtmlFlowCompleteAttributeValueBefore))
        }
        Some(b'_') => {
            t.consume();
            Ok(State::Next(Name::HtmlFlowCompleteAttributeName))
        }
        Some(b':') => {
            t.consume();
            Ok(State::Next(Name::HtmlFlowCompleteAttributeName))
        }
        Some(b'A'..=b'Z' | b'a'..=b'z') => {
            t.consume();
            Ok(State::Next(Name::HtmlFlowCompleteAttributeName))
        }
        Some(b'/') => {
            t.consume();
            Ok(State::Next(Name::HtmlFlowCompleteEnd))
        }
        Some(b'>') => {
            t.consume();
            Ok(State::Next(Name::HtmlFlowCompleteAfter))
        }
        _ => { Ok(State::Nok) }
    }
}

/// A look over white space before the value of an attribute.
pub(crate) fn attribute_value_before<'a, M: MachineTypes>(
    t: &mut Tokenizer<'a, M>,
) -> Result<State, AllocError>
    requires { IsCallable flow_byte html_flow_complete_attribute_value_before t.old }
    ensures { IfOk result (DoesAll (step_in flow_byte html_flow_complete_attribute_value_before t.old) t.old t.new) }
{
    match t.current() {
        None | Some(b'\n') => { Ok(State::Nok) }
        Some(b'\t' | b' ') => {
            t.consume();
            Ok(State::Next(Name::HtmlFlowCompleteAttributeValueBefore))
        }
        Some(b'"') => {
            set_marker(t, b'"');
            t.consume();
            Ok(State::Next(Name::HtmlFlowCompleteAttributeValueQuoted))
        }
        Some(b'\'') => {
            set_marker(t, b'\'');
            t.consume();
            Ok(State::Next(Name::HtmlFlowCompleteAttributeValueQuoted))
        }
        Some(b'<') => { Ok(State::Nok) }
        Some(b'>') => { Ok(State::Nok) }
        Some(b'=') => { Ok(State::Nok) }
        Some(b'`') => { Ok(State::Nok) }
        Some(_) => {
            t.consume();
            Ok(State::Next(Name::HtmlFlowCompleteAttributeValueUnquoted))
        }
    }
}

/// A look over a quoted value.
pub(crate) fn attribute_value_quoted<'a, M: MachineTypes>(
    t: &mut Tokenizer<'a, M>,
) -> Result<State, AllocError>
    requires { IsCallable flow_byte html_flow_complete_attribute_value_quoted t.old }
    ensures { IfOk result (DoesAll (step_in flow_byte html_flow_complete_attribute_value_quoted t.old) t.old t.new) }
{
    match t.current() {
        None | Some(b'\n') => { Ok(State::Nok) }
        Some(b'"' | b'\'') => {
            if at_mark(t) {
                t.consume();
                return Ok(State::Next(Name::HtmlFlowCompleteAttributeValueQuotedAfter));
            }
            t.consume();
            Ok(State::Next(Name::HtmlFlowCompleteAttributeValueQuoted))
        }
        Some(_) => {
            t.consume();
            Ok(State::Next(Name::HtmlFlowCompleteAttributeValueQuoted))
        }
    }
}

/// A look behind a quoted value.
pub(crate) fn attribute_value_quoted_after<'a, M: MachineTypes>(
    t: &mut Tokenizer<'a, M>,
) -> Result<State, AllocError>
    requires { IsCallable flow_byte html_flow_complete_attribute_value_quoted_after t.old }
    ensures { IfOk result (DoesAll (step_in flow_byte html_flow_complete_attribute_value_quoted_after t.old) t.old t.new) }
{
    match t.current() {
        Some(b'\t' | b' ') => {
            t.consume();
            Ok(State::Next(Name::HtmlFlowCompleteAttributeNameBefore))
        }
        Some(b'/') => {
            t.consume();
            Ok(State::Next(Name::HtmlFlowCompleteEnd))
        }
        Some(b'>') => {
            t.consume();
            Ok(State::Next(Name::HtmlFlowCompleteAfter))
        }
        _ => { Ok(State::Nok) }
    }
}

/// A look over a value without quotes.
pub(crate) fn attribute_value_unquoted<'a, M: MachineTypes>(
    t: &mut Tokenizer<'a, M>,
) -> Result<State, AllocError>
    requires { IsCallable flow_byte html_flow_complete_attribute_value_unquoted t.old }
    ensures { IfOk result (DoesAll (step_in flow_byte html_flow_complete_attribute_value_unquoted t.old) t.old t.new) }
{
    match t.current() {
        None | Some(b'\n') => { Ok(State::Nok) }
        Some(b'\t' | b' ') => {
            t.consume();
            Ok(State::Next(Name::HtmlFlowCompleteAttributeNameBefore))
        }
        Some(b'>') => {
            t.consume();
            Ok(State::Next(Name::HtmlFlowCompleteAfter))
        }
        Some(b'<') => { Ok(State::Nok) }
        Some(b'=') => { Ok(State::Nok) }
        Some(b'`') => { Ok(State::Nok) }
        Some(b'"') => { Ok(State::Nok) }
        Some(b'\'') => { Ok(State::Nok) }
        Some(_) => {
            t.consume();
            Ok(State::Next(Name::HtmlFlowCompleteAttributeValueUnquoted))
        }
    }
}

/// A look over white space behind a complete tag.
pub(crate) fn after<'a, M: MachineTypes>(t: &mut Tokenizer<'a, M>) -> Result<State, AllocError>
    requires { IsCallable flow_byte html_flow_complete_after t.old }
    ensures { IfOk result (DoesAll (step_in flow_byte html_flow_complete_after t.old) t.old t.new) }
{
    match t.current() {
        None | Some(b'\n') => {
            set_html(t, 7);
            Ok(State::Ok)
        }
        Some(b'\t' | b' ') => {
            t.consume();
            Ok(State::Next(Name::HtmlFlowCompleteAfter))
        }
        Some(_) => { Ok(State::Nok) }
    }
}

/// At a letter or a digit of the name of a tag: it is one byte longer.
fn tag_name_goes_on<'a, M: MachineTypes>(t: &mut Tokenizer<'a, M>, byte: u8) -> State
    requires { t.old.configuration.waiting ≡ Byte }
    ensures { DoesAll (rows_step (html_flow_tag_name_goes_on byte) t.old) t.old t.new result }
{
    add_to_name(t, byte);
    t.consume();
    State::Next(Name::HtmlFlowTagName)
}
