//! Strings: info strings of fenced code, say. They have constructs, line endings, and else data (CommonMark, "Info string").

ghost use Rattle.std.specs.Prelude.{IfOk};
ghost use Rattle.mdconstructs_tables.specs.RowInvariant.{DoesAll, IsCallable, step_in};
ghost use Rattle.mdinline_text_machine.specs.TextBytes.{text_byte};
ghost use Rattle.mdinline_machine.specs.StringTable.{string_before, string_before_data, string_data};

use markdown_tokenizer::event;
use markdown_tokenizer::state::{MachineTypes, Name, State};
use markdown_tokenizer::tokenizer::Tokenizer;
use mdconstructs_tables::marker;
use mdinline_constructs::reference::references_are_on;
use mdinline_text_machine::escape::escapes_are_on;
use std::alloc::AllocError;

/// Between constructs of a string: one is tried if it is on, or data is read.
pub(crate) fn string_before<'a, M: MachineTypes>(
    t: &mut Tokenizer<'a, M>,
) -> Result<State, AllocError>
    requires { IsCallable text_byte string_before t.old }
    ensures { IfOk result (DoesAll (step_in text_byte string_before t.old) t.old t.new) }
{
    match t.current() {
        None => Ok(State::Ok),
        Some(b'\n') => {
            marker(t, event::Name::LineEnding)?;
            Ok(State::Next(Name::StringBefore))
        }
        Some(b'\\') => {
            if !escapes_are_on(t) {
                return Ok(State::Retry(Name::StringBeforeData));
            }
            t.attempt_next(Name::StringBefore, Name::StringBeforeData)?;
            Ok(State::Retry(Name::CharacterEscapeStart))
        }
        Some(b'&') => {
            if !references_are_on(t) {
                return Ok(State::Retry(Name::StringBeforeData));
            }
            t.attempt_next(Name::StringBefore, Name::StringBeforeData)?;
            Ok(State::Retry(Name::CharacterReferenceStart))
        }
        Some(_) => Ok(State::Retry(Name::StringBeforeData)),
    }
}

/// At a byte of data in a string: no construct is there.
pub(crate) fn string_before_data<'a, M: MachineTypes>(
    t: &mut Tokenizer<'a, M>,
) -> Result<State, AllocError>
    requires { IsCallable text_byte string_before_data t.old }
    ensures { IfOk result (DoesAll (step_in text_byte string_before_data t.old) t.old t.new) }
{
    t.enter(event::Name::Data)?;
    t.consume();
    Ok(State::Next(Name::DataStart))
}

/// In data of a string.
pub(crate) fn string_data<'a, M: MachineTypes>(
    t: &mut Tokenizer<'a, M>,
) -> Result<State, AllocError>
    requires { IsCallable text_byte string_data t.old }
    ensures { IfOk result (DoesAll (step_in text_byte string_data t.old) t.old t.new) }
{
    match t.current() {
        None | Some(b'\n' | b'\\' | b'&') => {
            t.exit(event::Name::Data)?;
            Ok(State::Retry(Name::StringBefore))
        }
        Some(_) => {
            t.consume();
            Ok(State::Next(Name::DataStart))
        }
    }
}
