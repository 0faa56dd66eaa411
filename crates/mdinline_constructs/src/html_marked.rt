//! Raw HTML between marks: comments, instructions, declarations and CDATA.
//!
//! ```text
//! comment     = "<!-->" / "<!--->" / "<!--" *any "-->"
//! instruction = "<?" *any "?>"
//! declaration = "<!" letter *any ">"
//! cdata       = "<![CDATA[" *any "]]>"
//! ```
//!
//! Each ends with the first closing mark behind its opening mark (CommonMark, "Raw HTML"). A closing mark is so many of a byte, and `>`.
//! Two states read all four kinds: one where none of that byte is directly before, and one behind some of it, whose number is counted. The
//! first one writes nothing at bytes that are in no closing mark, so it can read over them.
//!
//! A look that fails is remembered: an index of the document, for each kind. No mark of the kind that begins before it ends, so none is looked
//! for there again. It is kept in `start` (comments), `end` (instructions), `space_or_tab_min` (declarations) and `space_or_tab_max` (CDATA).

ghost use Rattle.std.specs.Prelude.{◌≡◌, cond, IfOk};
ghost use Rattle.markdown_base.specs.Places.{shown};
ghost use Rattle.markdown_tokenizer.specs.Calls.{with_local};
ghost use Rattle.markdown_tokenizer.specs.Configuration.{at_configuration};
ghost use Rattle.markdown_tokenizer.specs.Sight.{sight_of};
ghost use Rattle.mdconstructs_tables.specs.RowInvariant.{DoesAll, IsCallable, step_in};
ghost use Rattle.mdconstructs_tables.specs.Rows.{picked, step_of};
ghost use Rattle.mdinline_text_machine.specs.TextBytes.{text_byte};
ghost use Rattle.mdinline_constructs.specs.HtmlTextRows.{CanEndHtmlLine};
ghost use Rattle.mdinline_constructs.specs.HtmlMarkedRows.{cdata_open, closed_by, comment_open, declaration_open, ends_cdata_mark, in_cdata_mark, in_mark, is_mark_byte, mark_close, mark_ends, mark_fails, mark_inside, mark_line, mark_line_ends, mark_open, mark_start, mark_white, no_cdata, no_comment, no_declaration, no_instruction, none_upto, stopped_at};

use crate::html_text::html_ends;
use crate::names;
use markdown_tokenizer::event::{self, Point};
use markdown_tokenizer::state::{MachineTypes, Name, State};
use markdown_tokenizer::tokenizer::Tokenizer;
use mdconstructs_tables::marker;
use mdinline_text_machine::sizes::{add_to_size_b, set_size_b};
use std::alloc::AllocError;

/// At `<`: raw HTML between marks is tried.
pub fn mark_start<'a, M: MachineTypes>(t: &mut Tokenizer<'a, M>) -> Result<State, AllocError>
    requires { IsCallable text_byte mark_start t.old }
    ensures { IfOk result (DoesAll (step_in text_byte mark_start t.old) t.old t.new) }
{
    t.enter(event::Name::HtmlText)?;
    t.enter(event::Name::HtmlTextData)?;
    t.consume();
    Ok(State::Next(names::HtmlTextMarkOpen))
}

/// Behind `<`.
pub fn mark_open<'a, M: MachineTypes>(t: &mut Tokenizer<'a, M>) -> Result<State, AllocError>
    requires { IsCallable text_byte mark_open t.old }
    ensures { IfOk result (DoesAll (step_in text_byte mark_open t.old) t.old t.new) }
{
    match t.current() {
        None => Ok(State::Nok),
        Some(b'\n') => Ok(State::Nok),
        Some(b'?') => {
            if no_instruction(t) {
                return Ok(State::Nok);
            }
            set_closing(t, b'?', 1, 0);
            t.consume();
            Ok(State::Next(names::HtmlTextMarkInside))
        }
        Some(b'!') => {
            t.consume();
            Ok(State::Next(Name::HtmlTextDeclarationOpen))
        }
        Some(_) => Ok(State::Nok),
    }
}

/// Behind `<!`.
pub fn declaration_open<'a, M: MachineTypes>(t: &mut Tokenizer<'a, M>) -> Result<State, AllocError>
    requires { IsCallable text_byte declaration_open t.old }
    ensures { IfOk result (DoesAll (step_in text_byte declaration_open t.old) t.old t.new) }
{
    match t.current() {
        Some(b'A'..=b'Z' | b'a'..=b'z') => {
            if no_declaration(t) {
                return Ok(State::Nok);
            }
            set_closing(t, 0, 0, 0);
            t.consume();
            Ok(State::Next(names::HtmlTextMarkInside))
        }
        Some(b'-') => {
            t.consume();
            Ok(State::Next(Name::HtmlTextCommentOpenInside))
        }
        Some(b'[') => {
            set_size_b(t, 0);
            t.consume();
            Ok(State::Next(Name::HtmlTextCdataOpenInside))
        }
        _ => Ok(State::Nok),
    }
}

/// Behind `<!-`.
pub fn comment_open<'a, M: MachineTypes>(t: &mut Tokenizer<'a, M>) -> Result<State, AllocError>
    requires { IsCallable text_byte comment_open t.old }
    ensures { IfOk result (DoesAll (step_in text_byte comment_open t.old) t.old t.new) }
{
    match t.current() {
        Some(b'-') => {
            if no_comment(t) {
                return Ok(State::Nok);
            }
            set_closing(t, b'-', 2, 2);
            t.consume();
            Ok(State::Next(names::HtmlTextMarkClose))
        }
        _ => Ok(State::Nok),
    }
}

/// Behind `<![`, in `CDATA[`.
pub fn cdata_open<'a, M: MachineTypes>(t: &mut Tokenizer<'a, M>) -> Result<State, AllocError>
    requires { IsCallable text_byte cdata_open t.old }
    ensures { IfOk result (DoesAll (step_in text_byte cdata_open t.old) t.old t.new) }
{
    match t.current() {
        None => Ok(State::Nok),
        Some(b'\n') => Ok(State::Nok),
        Some(_) => {
            if in_cdata_mark(t) {
                add_to_size_b(t);
                t.consume();
                Ok(State::Next(Name::HtmlTextCdataOpenInside))
            } else if ends_cdata_mark(t) {
                if no_cdata(t) {
                    return Ok(State::Nok);
                }
                set_closing(t, b']', 2, 0);
                t.consume();
                Ok(State::Next(names::HtmlTextMarkInside))
            } else {
                Ok(State::Nok)
            }
        }
    }
}

/// Behind the opening mark, where no byte of the closing mark is directly before.
pub fn mark_inside<'a, M: MachineTypes>(t: &mut Tokenizer<'a, M>) -> Result<State, AllocError>
    requires { IsCallable text_byte mark_inside t.old }
    ensures { IfOk result (DoesAll (step_in text_byte mark_inside t.old) t.old t.new) }
{
    match t.current() {
        None => mark_fails(t),
        Some(b'\n') => mark_line_ends(t),
        Some(_) => {
            if mark_ends(t) {
                html_ends(t)
            } else if in_mark(t) {
                add_to_size_b(t);
                t.consume();
                Ok(State::Next(names::HtmlTextMarkClose))
            } else {
                t.consume();
                Ok(State::Next(names::HtmlTextMarkInside))
            }
        }
    }
}

/// Behind bytes of the closing mark, or behind those of an opening mark that may be of it.
pub fn mark_close<'a, M: MachineTypes>(t: &mut Tokenizer<'a, M>) -> Result<State, AllocError>
    requires { IsCallable text_byte mark_close t.old }
    ensures { IfOk result (DoesAll (step_in text_byte mark_close t.old) t.old t.new) }
{
    match t.current() {
        Some(b'\n') => mark_line_ends(t),
        Some(_) => {
            if mark_ends(t) {
                html_ends(t)
            } else if in_mark(t) {
                add_to_size_b(t);
                t.consume();
                Ok(State::Next(names::HtmlTextMarkClose))
            } else {
                set_size_b(t, 0);
                t.consume();
                Ok(State::Next(names::HtmlTextMarkInside))
            }
        }
        _ => mark_fails(t),
    }
}

/// Behind a line ending.
pub fn mark_line<'a, M: MachineTypes>(t: &mut Tokenizer<'a, M>) -> Result<State, AllocError>
    requires { IsCallable text_byte mark_line t.old }
    ensures { IfOk result (DoesAll (step_in text_byte mark_line t.old) t.old t.new) }
{
    match t.current() {
        None | Some(b'\n') => mark_fails(t),
        Some(b' ' | b'\t') => {
            t.enter(event::Name::SpaceOrTab)?;
            t.consume();
            Ok(State::Next(names::HtmlTextMarkWhite))
        }
        Some(_) => {
            t.enter(event::Name::HtmlTextData)?;
            Ok(State::Retry(names::HtmlTextMarkInside))
        }
    }
}

/// In the white space behind a line ending.
pub fn mark_white<'a, M: MachineTypes>(t: &mut Tokenizer<'a, M>) -> Result<State, AllocError>
    requires { IsCallable text_byte mark_white t.old }
    ensures { IfOk result (DoesAll (step_in text_byte mark_white t.old) t.old t.new) }
{
    match t.current() {
        None | Some(b'\n') => mark_fails(t),
        Some(b' ' | b'\t') => {
            t.consume();
            Ok(State::Next(names::HtmlTextMarkWhite))
        }
        Some(_) => {
            t.exit(event::Name::SpaceOrTab)?;
            t.enter(event::Name::HtmlTextData)?;
            Ok(State::Retry(names::HtmlTextMarkInside))
        }
    }
}

/// At a line ending: reads it, and counts anew.
fn mark_line_ends<'a, M: MachineTypes>(t: &mut Tokenizer<'a, M>) -> Result<State, AllocError>
    requires { CanEndHtmlLine t.old }
    ensures { IfOk result (DoesAll (step_of (picked mark_line_ends t.old.given (sight_of t.old) t.old.configuration) (sight_of t.old) t.old.configuration) t.old t.new) }
{
    t.exit(event::Name::HtmlTextData)?;
    marker(t, event::Name::LineEnding)?;
    set_size_b(t, 0);
    Ok(State::Next(names::HtmlTextMarkLine))
}

/// Whether the mark ends here.
fn mark_ends<'a, M: MachineTypes>(t: &Tokenizer<'a, M>) -> bool
    ensures { result ≡ mark_ends t.now.given (sight_of t.now) t.now.configuration }
{
    matches!(t.current(), Some(b'>')) && t.tokenize_state.size_c <= t.tokenize_state.size_b
}

/// Whether the byte of the closing mark waits.
fn in_mark<'a, M: MachineTypes>(t: &Tokenizer<'a, M>) -> bool
    ensures { result ≡ in_mark t.now.given (sight_of t.now) t.now.configuration }
{
    match t.current() {
        None => false,
        Some(byte) => is_mark_byte(byte) && byte == t.tokenize_state.marker,
    }
}

/// Whether closing marks of some kind begin with this byte. That of a declaration is `>` alone, and keeps NUL.
fn is_mark_byte(byte: u8) -> bool
    ensures { result ≡ is_mark_byte byte }
{
    matches!(byte, 0 | b'-' | b'?' | b']')
}

/// Whether the byte of `CDATA` waits that comes behind so many.
fn in_cdata_mark<'a, M: MachineTypes>(t: &Tokenizer<'a, M>) -> bool
    ensures { result ≡ in_cdata_mark t.now.given (sight_of t.now) t.now.configuration }
{
    match t.current() {
        None => false,
        Some(byte) => match b"CDATA".get(t.tokenize_state.size_b) {
            None => false,
            Some(other) => byte == *other,
        },
    }
}

/// Whether `[` waits behind `CDATA`.
fn ends_cdata_mark<'a, M: MachineTypes>(t: &Tokenizer<'a, M>) -> bool
    ensures { result ≡ ends_cdata_mark t.now.given (sight_of t.now) t.now.configuration }
{
    t.tokenize_state.size_b == 5 && matches!(t.current(), Some(b'['))
}

/// Keeps the closing mark: so many of a byte, of which some were read.
fn set_closing<'a, M: MachineTypes>(t: &mut Tokenizer<'a, M>, byte: u8, times: usize, read: usize)
    ensures { t.new ≡ at_configuration t.old (with_local t.old.configuration (closed_by byte times read t.old.configuration)) }
{
    t.tokenize_state.marker = byte;
    t.tokenize_state.size_c = times;
    t.tokenize_state.size_b = read;
}

/// Whether no comment ends that begins here.
fn no_comment<'a, M: MachineTypes>(t: &Tokenizer<'a, M>) -> bool
    ensures { result ≡ no_comment t.now.given (sight_of t.now) t.now.configuration }
{
    t.point().index < t.tokenize_state.start
}

/// Whether no instruction ends that begins here.
fn no_instruction<'a, M: MachineTypes>(t: &Tokenizer<'a, M>) -> bool
    ensures { result ≡ no_instruction t.now.given (sight_of t.now) t.now.configuration }
{
    t.point().index < t.tokenize_state.end
}

/// Whether no declaration ends that begins here.
fn no_declaration<'a, M: MachineTypes>(t: &Tokenizer<'a, M>) -> bool
    ensures { result ≡ no_declaration t.now.given (sight_of t.now) t.now.configuration }
{
    t.point().index < t.tokenize_state.space_or_tab_min
}

/// Whether no CDATA section ends that begins here.
fn no_cdata<'a, M: MachineTypes>(t: &Tokenizer<'a, M>) -> bool
    ensures { result ≡ no_cdata t.now.given (sight_of t.now) t.now.configuration }
{
    t.point().index < t.tokenize_state.space_or_tab_max
}

/// At the end, or at a blank line: remembers that the kind that is open does not end up to there.
fn mark_fails<'a, M: MachineTypes>(t: &mut Tokenizer<'a, M>) -> Result<State, AllocError>
    ensures { IfOk result (DoesAll (step_of (picked mark_fails t.old.given (sight_of t.old) t.old.configuration) (sight_of t.old) t.old.configuration) t.old t.new) }
{
    let index = stopped_at(t);
    set_none_upto(t, index);
    Ok(State::Nok)
}

/// Up to which index the kind that is open does not end, if a look stops here.
fn stopped_at<'a, M: MachineTypes>(t: &Tokenizer<'a, M>) -> usize
    ensures { result ≡ stopped_at (sight_of t.now).current (sight_of t.now).enter_place.index }
{
    match t.current() {
        None => usize::MAX,
        Some(_) => shown_index(t.parse_state().bytes, t.point()),
    }
}

/// The index at which a place is shown: its own, except that the LF of a CR LF is shown at its CR.
fn shown_index(bytes: &[u8], point: Point) -> usize
    ensures { result ≡ (shown bytes.now point).index }
{
    let index = point.index;
    if index == 0 || index >= bytes.len() {
        return index;
    }
    if bytes[index] == b'\n' && bytes[index - 1] == b'\r' {
        return index - 1;
    }
    index
}

/// Keeps up to which index the kind that is open does not end.
fn set_none_upto<'a, M: MachineTypes>(t: &mut Tokenizer<'a, M>, index: usize)
    ensures { t.new ≡ at_configuration t.old (with_local t.old.configuration (none_upto t.old.configuration.local.tokenize_state.marker index t.old.configuration)) }
{
    let marker = t.tokenize_state.marker;
    t.tokenize_state.start = either(marker == b'-', index, t.tokenize_state.start);
    t.tokenize_state.end = either(marker == b'?', index, t.tokenize_state.end);
    t.tokenize_state.space_or_tab_min = either(
        marker == 0,
        index,
        t.tokenize_state.space_or_tab_min,
    );
    t.tokenize_state.space_or_tab_max = either(
        marker == b']',
        index,
        t.tokenize_state.space_or_tab_max,
    );
}

/// One number if the test holds, and the other if not.
fn either(test: bool, one: usize, other: usize) -> usize
    ensures { result ≡ cond test one other }
{
    if test { one } else { other }
}
