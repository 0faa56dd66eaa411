//! Looks at a line: a check that makes no event says what kind of line it is. The kind is noted as an event's name.

ghost use Rattle.std.specs.Prelude.{◌≡◌, IfOk};
ghost use Rattle.markdown_tokenizer.specs.declared.waiting.Waits.TheVariants.{Byte};
ghost use Rattle.mdblock_leaf_rows.specs.Steps.{rows_step};
ghost use Rattle.mdconstructs_tables.specs.RowInvariant.{DoesAll, IsCallable, step_in};
ghost use Rattle.mdblock_leaf_rows.specs.FlowBytes.{flow_byte};
ghost use Rattle.mdblock_leaf_rows.specs.Look.{paragraph_look_start, flow_blank_line_before, heading_may_begin, break_may_begin, underline_may_begin, dash_may_begin, equals_may_begin, fence_may_begin, html_may_begin, text_may_begin};

use crate::html_names::html_is_on;
use crate::sizes::{
    add_to_indent, breaks_are_on, fences_are_on, headings_are_on, is_indented, set_indent,
    set_kind, set_marker, set_size, underlines_are_on,
};
use markdown_tokenizer::event;
use markdown_tokenizer::state::{MachineTypes, Name, State};
use markdown_tokenizer::tokenizer::Tokenizer;
use mdblock_leaf_rows::names;
use std::alloc::AllocError;

/// At a line ending in a paragraph: looks at the next line.
pub(crate) fn paragraph_look_start<'a, M: MachineTypes>(
    t: &mut Tokenizer<'a, M>,
) -> Result<State, AllocError>
    requires { IsCallable flow_byte paragraph_look_start t.old }
    ensures { IfOk result (DoesAll (step_in flow_byte paragraph_look_start t.old) t.old t.new) }
{
    set_indent(t, 0);
    t.consume();
    Ok(State::Next(Name::FlowBlankLineBefore))
}

/// A look at a line, in its white space: what comes first says which construct may begin.
pub(crate) fn flow_blank_line_before<'a, M: MachineTypes>(
    t: &mut Tokenizer<'a, M>,
) -> Result<State, AllocError>
    requires { IsCallable flow_byte flow_blank_line_before t.old }
    ensures { IfOk result (DoesAll (step_in flow_byte flow_blank_line_before t.old) t.old t.new) }
{
    match t.current() {
        None | Some(b'\n') => {
            set_kind(t, event::Name::BlankLineEnding);
            Ok(State::Ok)
        }
        Some(b'\t' | b' ') => {
            add_to_indent(t);
            t.consume();
            Ok(State::Next(Name::FlowBlankLineBefore))
        }
        Some(b'#') => Ok(heading_may_begin(t)),
        Some(b'*') => Ok(break_may_begin(t, b'*')),
        Some(b'_') => Ok(break_may_begin(t, b'_')),
        Some(b'-') => Ok(dash_may_begin(t)),
        Some(b'=') => Ok(equals_may_begin(t)),
        Some(b'`') => Ok(fence_may_begin(t, b'`')),
        Some(b'~') => Ok(fence_may_begin(t, b'~')),
        Some(b'<') => Ok(html_may_begin(t)),
        Some(_) => Ok(text_may_begin(t)),
    }
}

/// At a number sign: a heading may begin, if the line is not indented and headings are on.
fn heading_may_begin<'a, M: MachineTypes>(t: &mut Tokenizer<'a, M>) -> State
    requires { t.old.configuration.waiting ≡ Byte }
    ensures { DoesAll (rows_step heading_may_begin t.old) t.old t.new result }
{
    if is_indented(t) {
        set_kind(t, event::Name::CodeIndented);
        return State::Ok;
    }
    if headings_are_on(t) {
        set_size(t, 1);
        t.consume();
        return State::Next(Name::FlowBeforeHeadingAtx);
    }
    State::Nok
}

/// At a marker of thematic breaks: one may begin, if the line is not indented and thematic breaks are on.
fn break_may_begin<'a, M: MachineTypes>(t: &mut Tokenizer<'a, M>, marker: u8) -> State
    requires { t.old.configuration.waiting ≡ Byte }
    ensures { DoesAll (rows_step (break_may_begin marker) t.old) t.old t.new result }
{
    if is_indented(t) {
        set_kind(t, event::Name::CodeIndented);
        return State::Ok;
    }
    if breaks_are_on(t) {
        set_marker(t, marker);
        set_size(t, 1);
        t.consume();
        return State::Next(Name::FlowBeforeThematicBreak);
    }
    State::Nok
}

/// At a marker of underlines: one may begin, if the line is not indented.
fn underline_may_begin<'a, M: MachineTypes>(t: &mut Tokenizer<'a, M>, marker: u8) -> State
    requires { t.old.configuration.waiting ≡ Byte }
    ensures { DoesAll (rows_step (underline_may_begin marker) t.old) t.old t.new result }
{
    if is_indented(t) {
        set_kind(t, event::Name::CodeIndented);
        return State::Ok;
    }
    set_marker(t, marker);
    set_size(t, 1);
    t.consume();
    State::Next(Name::FlowBeforeHeadingSetext)
}

/// At a dash: an underline may begin, or a thematic break.
fn dash_may_begin<'a, M: MachineTypes>(t: &mut Tokenizer<'a, M>) -> State
    requires { t.old.configuration.waiting ≡ Byte }
    ensures { DoesAll (rows_step dash_may_begin t.old) t.old t.new result }
{
    if underlines_are_on(t) {
        return underline_may_begin(t, b'-');
    }
    break_may_begin(t, b'-')
}

/// At an equals sign: an underline may begin.
fn equals_may_begin<'a, M: MachineTypes>(t: &mut Tokenizer<'a, M>) -> State
    requires { t.old.configuration.waiting ≡ Byte }
    ensures { DoesAll (rows_step equals_may_begin t.old) t.old t.new result }
{
    if underlines_are_on(t) {
        return underline_may_begin(t, b'=');
    }
    text_may_begin(t)
}

/// At a marker of fences: one may begin, if the line is not indented and fenced code is on.
fn fence_may_begin<'a, M: MachineTypes>(t: &mut Tokenizer<'a, M>, marker: u8) -> State
    requires { t.old.configuration.waiting ≡ Byte }
    ensures { DoesAll (rows_step (fence_may_begin marker) t.old) t.old t.new result }
{
    if is_indented(t) {
        set_kind(t, event::Name::CodeIndented);
        return State::Ok;
    }
    if fences_are_on(t) {
        set_marker(t, marker);
        set_size(t, 1);
        t.consume();
        return State::Next(Name::FlowBeforeRaw);
    }
    State::Nok
}

/// At a less-than sign: HTML may begin, if the line is not indented and HTML blocks are on.
fn html_may_begin<'a, M: MachineTypes>(t: &mut Tokenizer<'a, M>) -> State
    requires { t.old.configuration.waiting ≡ Byte }
    ensures { DoesAll (rows_step html_may_begin t.old) t.old t.new result }
{
    if is_indented(t) {
        set_kind(t, event::Name::CodeIndented);
        return State::Ok;
    }
    if html_is_on(t) {
        t.consume();
        return State::Next(Name::HtmlFlowOpen);
    }
    State::Nok
}

/// At any other byte: the line is indented, or plain text.
fn text_may_begin<'a, M: MachineTypes>(t: &mut Tokenizer<'a, M>) -> State
    requires { t.old.configuration.waiting ≡ Byte }
    ensures { DoesAll (rows_step text_may_begin t.old) t.old t.new result }
{
    if is_indented(t) {
        set_kind(t, event::Name::CodeIndented);
        return State::Ok;
    }
    State::Nok
}
