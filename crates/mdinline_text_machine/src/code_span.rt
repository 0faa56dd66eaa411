//! Code spans: a backtick string, and all up to the next backtick string of the same length.
//!
//! ```text
//! code_span       = backtick_string *(line_ending / data) backtick_string    ; both of one length
//! backtick_string = 1*"`"                                                    ; no backtick before it or behind it
//! data            = any bytes but line endings, and backticks only in backtick strings of another length
//! ```
//!
//! Backslash escapes do not work in it (CommonMark, "Code spans").

ghost use Rattle.std.specs.Prelude.{◌≡◌, false, IfOk};
ghost use Rattle.markdown_tokenizer.specs.Sight.{sight_of};
ghost use Rattle.mdconstructs_tables.specs.Rows.{class_of};
ghost use Rattle.mdconstructs_tables.specs.RowInvariant.{DoesAll, IsCallable, step_in};
ghost use Rattle.mdinline_text_machine.specs.CodeSpanRows.{sizes_are_equal, code_spans_are_on, raw_text_start, raw_text_sequence_open, raw_text_between, raw_text_data, raw_text_sequence_close, raw_text_after, raw_text_backticks_start, raw_text_backticks_inside};
ghost use Rattle.mdinline_text_machine.specs.TextBytes.{text_byte, is_tick};

use crate::names;
use crate::sizes::{add_to_size_b, add_to_size_c, set_size_b, set_size_c};
use markdown_tokenizer::event;
use markdown_tokenizer::state::{MachineTypes, Name, State};
use markdown_tokenizer::tokenizer::Tokenizer;
use mdconstructs_tables::marker;
use std::alloc::AllocError;

/// At a backtick: a code span is tried.
pub fn raw_text_start<'a, M: MachineTypes>(t: &mut Tokenizer<'a, M>) -> Result<State, AllocError>
    requires { IsCallable text_byte raw_text_start t.old }
    ensures { IfOk result (DoesAll (step_in text_byte raw_text_start t.old) t.old t.new) }
{
    t.enter(event::Name::CodeText)?;
    t.enter(event::Name::CodeTextSequence)?;
    set_size_b(t, 0);
    Ok(State::Retry(Name::RawTextSequenceOpen))
}

/// In the backtick string that opens a code span.
pub fn raw_text_sequence_open<'a, M: MachineTypes>(
    t: &mut Tokenizer<'a, M>,
) -> Result<State, AllocError>
    requires { IsCallable text_byte raw_text_sequence_open t.old }
    ensures { IfOk result (DoesAll (step_in text_byte raw_text_sequence_open t.old) t.old t.new) }
{
    match t.current() {
        Some(b'`') => {
            add_to_size_b(t);
            t.consume();
            Ok(State::Next(Name::RawTextSequenceOpen))
        }
        _ => after_opening(t),
    }
}

/// In a code span, between line endings and data.
pub fn raw_text_between<'a, M: MachineTypes>(t: &mut Tokenizer<'a, M>) -> Result<State, AllocError>
    requires { IsCallable text_byte raw_text_between t.old }
    ensures { IfOk result (DoesAll (step_in text_byte raw_text_between t.old) t.old t.new) }
{
    match t.current() {
        None => Ok(State::Nok),
        Some(b'\n') => {
            marker(t, event::Name::LineEnding)?;
            Ok(State::Next(Name::RawTextBetween))
        }
        Some(b'`') => {
            t.attempt(
                State::Next(names::RawTextAfter),
                State::Next(names::RawTextBackticksStart),
            )?;
            t.enter(event::Name::CodeTextSequence)?;
            set_size_c(t, 0);
            Ok(State::Retry(Name::RawTextSequenceClose))
        }
        Some(_) => {
            t.enter(event::Name::CodeTextData)?;
            Ok(State::Retry(Name::RawTextData))
        }
    }
}

/// In data of a code span.
pub fn raw_text_data<'a, M: MachineTypes>(t: &mut Tokenizer<'a, M>) -> Result<State, AllocError>
    requires { IsCallable text_byte raw_text_data t.old }
    ensures { IfOk result (DoesAll (step_in text_byte raw_text_data t.old) t.old t.new) }
{
    match t.current() {
        None | Some(b'\n' | b'`') => {
            t.exit(event::Name::CodeTextData)?;
            Ok(State::Retry(Name::RawTextBetween))
        }
        Some(_) => {
            t.consume();
            Ok(State::Next(Name::RawTextData))
        }
    }
}

/// In a backtick string that may close a code span: it does if it is as long as the one that opened it.
pub fn raw_text_sequence_close<'a, M: MachineTypes>(
    t: &mut Tokenizer<'a, M>,
) -> Result<State, AllocError>
    requires { IsCallable text_byte raw_text_sequence_close t.old }
    ensures { IfOk result (DoesAll (step_in text_byte raw_text_sequence_close t.old) t.old t.new) }
{
    match t.current() {
        Some(b'`') => {
            add_to_size_c(t);
            t.consume();
            Ok(State::Next(Name::RawTextSequenceClose))
        }
        _ => after_closing(t),
    }
}

/// After the backtick string that closed a code span.
pub fn raw_text_after<'a, M: MachineTypes>(t: &mut Tokenizer<'a, M>) -> Result<State, AllocError>
    requires { IsCallable text_byte raw_text_after t.old }
    ensures { IfOk result (DoesAll (step_in text_byte raw_text_after t.old) t.old t.new) }
{
    t.exit(event::Name::CodeText)?;
    Ok(State::Ok)
}

/// At a backtick string that closes nothing: it begins data of the code span.
pub fn raw_text_backticks_start<'a, M: MachineTypes>(
    t: &mut Tokenizer<'a, M>,
) -> Result<State, AllocError>
    requires { IsCallable text_byte raw_text_backticks_start t.old }
    ensures { IfOk result (DoesAll (step_in text_byte raw_text_backticks_start t.old) t.old t.new) }
{
    t.enter(event::Name::CodeTextData)?;
    Ok(State::Retry(names::RawTextBackticksInside))
}

/// In a backtick string that begins data of a code span.
pub fn raw_text_backticks_inside<'a, M: MachineTypes>(
    t: &mut Tokenizer<'a, M>,
) -> Result<State, AllocError>
    requires { IsCallable text_byte raw_text_backticks_inside t.old }
    ensures { IfOk result (DoesAll (step_in text_byte raw_text_backticks_inside t.old) t.old t.new) }
{
    match t.current() {
        Some(b'`') => {
            t.consume();
            Ok(State::Next(names::RawTextBackticksInside))
        }
        _ => Ok(State::Retry(Name::RawTextData)),
    }
}

/// After the backtick string that opens a code span.
fn after_opening<'a, M: MachineTypes>(t: &mut Tokenizer<'a, M>) -> Result<State, AllocError>
    requires called { IsCallable text_byte raw_text_sequence_open t.old }
    requires other { is_tick (class_of text_byte (sight_of t.old).current) ≡ false }
    ensures { IfOk result (DoesAll (step_in text_byte raw_text_sequence_open t.old) t.old t.new) }
{
    t.exit(event::Name::CodeTextSequence)?;
    Ok(State::Retry(Name::RawTextBetween))
}

/// After a backtick string that may close a code span.
fn after_closing<'a, M: MachineTypes>(t: &mut Tokenizer<'a, M>) -> Result<State, AllocError>
    requires called { IsCallable text_byte raw_text_sequence_close t.old }
    requires other { is_tick (class_of text_byte (sight_of t.old).current) ≡ false }
    ensures { IfOk result (DoesAll (step_in text_byte raw_text_sequence_close t.old) t.old t.new) }
{
    if sizes_are_equal(t) {
        t.exit(event::Name::CodeTextSequence)?;
        Ok(State::Ok)
    } else {
        Ok(State::Nok)
    }
}

/// Whether the two backtick strings have equal length.
fn sizes_are_equal<'a, M: MachineTypes>(t: &Tokenizer<'a, M>) -> bool
    ensures { result ≡ sizes_are_equal t.now.given (sight_of t.now) t.now.configuration }
{
    t.tokenize_state.size_c == t.tokenize_state.size_b
}

/// Whether code spans are on.
pub fn code_spans_are_on<'a, M: MachineTypes>(t: &Tokenizer<'a, M>) -> bool
    ensures { result ≡ code_spans_are_on t.now.given (sight_of t.now) t.now.configuration }
{
    t.parse_state().options.constructs.code_text
}
