//! Tags of raw HTML.
//!
//! ```text
//! opening   = "<" name *(1*white attribute) *white ["/"] ">"
//! closing   = "</" name *white ">"
//! attribute = attribute_name [*white "=" *white value]
//! value     = 1*unquoted / "'" *any "'" / DQUOTE *any DQUOTE    ; of any bytes but the quotation mark
//! white     = space / tab / line_feed
//! ```
//!
//! Names are of ASCII letters, digits and some marks (CommonMark, "Raw HTML"). A tag holds no blank line.

ghost use Rattle.std.specs.Prelude.{◌≡◌, IfOk};
ghost use Rattle.markdown_tokenizer.specs.Calls.{with_local};
ghost use Rattle.markdown_tokenizer.specs.Configuration.{at_configuration};
ghost use Rattle.markdown_tokenizer.specs.Sight.{sight_of};
ghost use Rattle.mdconstructs_tables.specs.RowInvariant.{DoesAll, IsCallable, step_in};
ghost use Rattle.mdinline_text_machine.specs.TextBytes.{text_byte};
ghost use Rattle.mdinline_constructs.specs.HtmlTag.{begins_attribute_name, is_unquoted};
ghost use Rattle.mdinline_constructs.specs.HtmlTagRows.{is_quote, quote_is, quote_waits, html_text_start, html_text_value_quoted, html_text_open, html_text_tag_close_start, html_text_tag_close, html_text_tag_close_between, html_text_tag_open, html_text_tag_open_between, html_text_attribute_name, html_text_attribute_name_after, html_text_value_before, html_text_value_quoted_after, html_text_value_unquoted, html_text_end};

use crate::html_text::{html_ends, html_line_ends};
use markdown_tokenizer::event;
use markdown_tokenizer::state::{MachineTypes, Name, State};
use markdown_tokenizer::tokenizer::Tokenizer;
use std::alloc::AllocError;

/// At `<`: a tag is tried.
pub fn html_text_start<'a, M: MachineTypes>(t: &mut Tokenizer<'a, M>) -> Result<State, AllocError>
    requires { IsCallable text_byte html_text_start t.old }
    ensures { IfOk result (DoesAll (step_in text_byte html_text_start t.old) t.old t.new) }
{
    t.enter(event::Name::HtmlText)?;
    t.enter(event::Name::HtmlTextData)?;
    t.consume();
    Ok(State::Next(Name::HtmlTextOpen))
}

/// Behind `<`.
pub fn html_text_open<'a, M: MachineTypes>(t: &mut Tokenizer<'a, M>) -> Result<State, AllocError>
    requires { IsCallable text_byte html_text_open t.old }
    ensures { IfOk result (DoesAll (step_in text_byte html_text_open t.old) t.old t.new) }
{
    match t.current() {
        Some(b'/') => {
            t.consume();
            Ok(State::Next(Name::HtmlTextTagCloseStart))
        }
        Some(b'A'..=b'Z' | b'a'..=b'z') => {
            t.consume();
            Ok(State::Next(Name::HtmlTextTagOpen))
        }
        _ => Ok(State::Nok),
    }
}

/// Behind `</`.
pub fn html_text_tag_close_start<'a, M: MachineTypes>(
    t: &mut Tokenizer<'a, M>,
) -> Result<State, AllocError>
    requires { IsCallable text_byte html_text_tag_close_start t.old }
    ensures { IfOk result (DoesAll (step_in text_byte html_text_tag_close_start t.old) t.old t.new) }
{
    match t.current() {
        Some(b'A'..=b'Z' | b'a'..=b'z') => {
            t.consume();
            Ok(State::Next(Name::HtmlTextTagClose))
        }
        _ => Ok(State::Nok),
    }
}

/// In the name of a closing tag.
pub fn html_text_tag_close<'a, M: MachineTypes>(
    t: &mut Tokenizer<'a, M>,
) -> Result<State, AllocError>
    requires { IsCallable text_byte html_text_tag_close t.old }
    ensures { IfOk result (DoesAll (step_in text_byte html_text_tag_close t.old) t.old t.new) }
{
    match t.current() {
        Some(b'\n') => html_line_ends(t, 195),
        Some(b'-' | b'0'..=b'9' | b'A'..=b'Z' | b'a'..=b'z') => {
            t.consume();
            Ok(State::Next(Name::HtmlTextTagClose))
        }
        Some(b'\t' | b' ') => {
            t.consume();
            Ok(State::Next(Name::HtmlTextTagCloseBetween))
        }
        Some(b'>') => html_ends(t),
        _ => Ok(State::Nok),
    }
}

/// Behind the name of a closing tag.
pub fn html_text_tag_close_between<'a, M: MachineTypes>(
    t: &mut Tokenizer<'a, M>,
) -> Result<State, AllocError>
    requires { IsCallable text_byte html_text_tag_close_between t.old }
    ensures { IfOk result (DoesAll (step_in text_byte html_text_tag_close_between t.old) t.old t.new) }
{
    match t.current() {
        Some(b'\n') => html_line_ends(t, 195),
        Some(b'\t' | b' ') => {
            t.consume();
            Ok(State::Next(Name::HtmlTextTagCloseBetween))
        }
        Some(b'>') => html_ends(t),
        _ => Ok(State::Nok),
    }
}

/// In the name of an opening tag.
pub fn html_text_tag_open<'a, M: MachineTypes>(
    t: &mut Tokenizer<'a, M>,
) -> Result<State, AllocError>
    requires { IsCallable text_byte html_text_tag_open t.old }
    ensures { IfOk result (DoesAll (step_in text_byte html_text_tag_open t.old) t.old t.new) }
{
    match t.current() {
        Some(b'\n') => html_line_ends(t, 197),
        Some(b'-' | b'0'..=b'9' | b'A'..=b'Z' | b'a'..=b'z') => {
            t.consume();
            Ok(State::Next(Name::HtmlTextTagOpen))
        }
        Some(b'\t' | b' ') => {
            t.consume();
            Ok(State::Next(Name::HtmlTextTagOpenBetween))
        }
        Some(b'/') => {
            t.consume();
            Ok(State::Next(Name::HtmlTextEnd))
        }
        Some(b'>') => html_ends(t),
        _ => Ok(State::Nok),
    }
}

/// Behind white space in an opening tag.
pub fn html_text_tag_open_between<'a, M: MachineTypes>(
    t: &mut Tokenizer<'a, M>,
) -> Result<State, AllocError>
    requires { IsCallable text_byte html_text_tag_open_between t.old }
    ensures { IfOk result (DoesAll (step_in text_byte html_text_tag_open_between t.old) t.old t.new) }
{
    match t.current() {
        Some(b'\n') => html_line_ends(t, 197),
        Some(b'\t' | b' ') => {
            t.consume();
            Ok(State::Next(Name::HtmlTextTagOpenBetween))
        }
        Some(b':' | b'A'..=b'Z' | b'_' | b'a'..=b'z') => {
            t.consume();
            Ok(State::Next(Name::HtmlTextTagOpenAttributeName))
        }
        Some(b'/') => {
            t.consume();
            Ok(State::Next(Name::HtmlTextEnd))
        }
        Some(b'>') => html_ends(t),
        _ => Ok(State::Nok),
    }
}

/// In the name of an attribute.
pub fn html_text_attribute_name<'a, M: MachineTypes>(
    t: &mut Tokenizer<'a, M>,
) -> Result<State, AllocError>
    requires { IsCallable text_byte html_text_attribute_name t.old }
    ensures { IfOk result (DoesAll (step_in text_byte html_text_attribute_name t.old) t.old t.new) }
{
    match t.current() {
        Some(b'\n') => html_line_ends(t, 199),
        Some(b'-' | b'.' | b'0'..=b':' | b'A'..=b'Z' | b'_' | b'a'..=b'z') => {
            t.consume();
            Ok(State::Next(Name::HtmlTextTagOpenAttributeName))
        }
        Some(b'\t' | b' ') => {
            t.consume();
            Ok(State::Next(Name::HtmlTextTagOpenAttributeNameAfter))
        }
        Some(b'=') => {
            t.consume();
            Ok(State::Next(Name::HtmlTextTagOpenAttributeValueBefore))
        }
        Some(b'/') => {
            t.consume();
            Ok(State::Next(Name::HtmlTextEnd))
        }
        Some(b'>') => html_ends(t),
        _ => Ok(State::Nok),
    }
}

/// Behind the name of an attribute, and white space.
pub fn html_text_attribute_name_after<'a, M: MachineTypes>(
    t: &mut Tokenizer<'a, M>,
) -> Result<State, AllocError>
    requires { IsCallable text_byte html_text_attribute_name_after t.old }
    ensures { IfOk result (DoesAll (step_in text_byte html_text_attribute_name_after t.old) t.old t.new) }
{
    match t.current() {
        Some(b'\n') => html_line_ends(t, 199),
        Some(b'\t' | b' ') => {
            t.consume();
            Ok(State::Next(Name::HtmlTextTagOpenAttributeNameAfter))
        }
        Some(b'=') => {
            t.consume();
            Ok(State::Next(Name::HtmlTextTagOpenAttributeValueBefore))
        }
        Some(b'/') => {
            t.consume();
            Ok(State::Next(Name::HtmlTextEnd))
        }
        Some(b'>') => html_ends(t),
        None => Ok(State::Nok),
        Some(byte) => {
            if begins_attribute_name(byte) {
                t.consume();
                Ok(State::Next(Name::HtmlTextTagOpenAttributeName))
            } else {
                Ok(State::Nok)
            }
        }
    }
}

/// Before the value of an attribute.
pub fn html_text_value_before<'a, M: MachineTypes>(
    t: &mut Tokenizer<'a, M>,
) -> Result<State, AllocError>
    requires { IsCallable text_byte html_text_value_before t.old }
    ensures { IfOk result (DoesAll (step_in text_byte html_text_value_before t.old) t.old t.new) }
{
    match t.current() {
        Some(b'\n') => html_line_ends(t, 200),
        Some(b'\t' | b' ') => {
            t.consume();
            Ok(State::Next(Name::HtmlTextTagOpenAttributeValueBefore))
        }
        Some(b'"') => {
            set_quote(t, 34);
            t.consume();
            Ok(State::Next(Name::HtmlTextTagOpenAttributeValueQuoted))
        }
        Some(b'\'') => {
            set_quote(t, 39);
            t.consume();
            Ok(State::Next(Name::HtmlTextTagOpenAttributeValueQuoted))
        }
        None => Ok(State::Nok),
        Some(byte) => {
            if is_unquoted(byte) {
                t.consume();
                Ok(State::Next(Name::HtmlTextTagOpenAttributeValueUnquoted))
            } else {
                Ok(State::Nok)
            }
        }
    }
}

/// Behind a value in quotes.
pub fn html_text_value_quoted_after<'a, M: MachineTypes>(
    t: &mut Tokenizer<'a, M>,
) -> Result<State, AllocError>
    requires { IsCallable text_byte html_text_value_quoted_after t.old }
    ensures { IfOk result (DoesAll (step_in text_byte html_text_value_quoted_after t.old) t.old t.new) }
{
    match t.current() {
        Some(b'\n') => html_line_ends(t, 197),
        Some(b'\t' | b' ') => {
            t.consume();
            Ok(State::Next(Name::HtmlTextTagOpenBetween))
        }
        Some(b'/') => {
            t.consume();
            Ok(State::Next(Name::HtmlTextEnd))
        }
        Some(b'>') => html_ends(t),
        None => Ok(State::Nok),
        Some(_) => Ok(State::Nok),
    }
}

/// In a value with no quotes.
pub fn html_text_value_unquoted<'a, M: MachineTypes>(
    t: &mut Tokenizer<'a, M>,
) -> Result<State, AllocError>
    requires { IsCallable text_byte html_text_value_unquoted t.old }
    ensures { IfOk result (DoesAll (step_in text_byte html_text_value_unquoted t.old) t.old t.new) }
{
    match t.current() {
        Some(b'\n') => html_line_ends(t, 197),
        Some(b'\t' | b' ') => {
            t.consume();
            Ok(State::Next(Name::HtmlTextTagOpenBetween))
        }
        Some(b'>') => html_ends(t),
        None => Ok(State::Nok),
        Some(byte) => {
            if is_unquoted(byte) {
                t.consume();
                Ok(State::Next(Name::HtmlTextTagOpenAttributeValueUnquoted))
            } else {
                Ok(State::Nok)
            }
        }
    }
}

/// Behind the slash of an opening tag.
pub fn html_text_end<'a, M: MachineTypes>(t: &mut Tokenizer<'a, M>) -> Result<State, AllocError>
    requires { IsCallable text_byte html_text_end t.old }
    ensures { IfOk result (DoesAll (step_in text_byte html_text_end t.old) t.old t.new) }
{
    match t.current() {
        Some(b'>') => html_ends(t),
        _ => Ok(State::Nok),
    }
}

/// In a value in quotes.
pub fn html_text_value_quoted<'a, M: MachineTypes>(
    t: &mut Tokenizer<'a, M>,
) -> Result<State, AllocError>
    requires { IsCallable text_byte html_text_value_quoted t.old }
    ensures { IfOk result (DoesAll (step_in text_byte html_text_value_quoted t.old) t.old t.new) }
{
    match t.current() {
        None => Ok(State::Nok),
        Some(b'\n') => html_line_ends(t, 201),
        Some(_) => {
            if quote_waits(t) {
                t.consume();
                Ok(State::Next(Name::HtmlTextTagOpenAttributeValueQuotedAfter))
            } else {
                t.consume();
                Ok(State::Next(Name::HtmlTextTagOpenAttributeValueQuoted))
            }
        }
    }
}

/// Keeps the quotation mark of a value.
fn set_quote<'a, M: MachineTypes>(t: &mut Tokenizer<'a, M>, quote: u8)
    ensures { t.new ≡ at_configuration t.old (with_local t.old.configuration (quote_is quote t.old.configuration)) }
{
    t.tokenize_state.marker = quote;
}

/// Whether the quotation mark of the value waits.
fn quote_waits<'a, M: MachineTypes>(t: &Tokenizer<'a, M>) -> bool
    ensures { result ≡ quote_waits t.now.given (sight_of t.now) t.now.configuration }
{
    match t.current() {
        None => false,
        Some(byte) => is_quote(byte) && byte == t.tokenize_state.marker,
    }
}

/// Whether a byte is a quotation mark.
fn is_quote(byte: u8) -> bool
    ensures { result ≡ is_quote byte }
{
    matches!(byte, b'"' | b'\'')
}

/// Whether a value with no quotes may have the byte.
fn is_unquoted(byte: u8) -> bool
    ensures { result ≡ is_unquoted byte }
{
    !matches!(
        byte,
        b'\t' | b'\n' | b' ' | b'"' | b'\'' | b'<' | b'=' | b'>' | b'`'
    )
}

/// Whether the name of an attribute may begin with the byte.
fn begins_attribute_name(byte: u8) -> bool
    ensures { result ≡ begins_attribute_name byte }
{
    byte.is_ascii_alphabetic() || byte == b'_' || byte == b':'
}
