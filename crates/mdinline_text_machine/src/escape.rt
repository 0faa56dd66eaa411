//! Backslash escapes.
//!
//! ```text
//! escape = "\" punctuation    ; an ASCII punctuation character
//! ```
//!
//! A backslash before any other byte is data (CommonMark, "Backslash escapes").

ghost use Rattle.std.specs.Prelude.{◌≡◌, IfOk};
ghost use Rattle.markdown_tokenizer.specs.Sight.{sight_of};
ghost use Rattle.mdconstructs_tables.specs.RowInvariant.{DoesAll, IsCallable, step_in};
ghost use Rattle.mdinline_text_machine.specs.EscapeRows.{escapes_are_on, escape_start, escape_inside};
ghost use Rattle.mdinline_text_machine.specs.TextBytes.{text_byte};

use markdown_tokenizer::event;
use markdown_tokenizer::state::{MachineTypes, Name, State};
use markdown_tokenizer::tokenizer::Tokenizer;
use mdconstructs_tables::marker;
use std::alloc::AllocError;

/// At a backslash: a backslash escape is tried.
pub fn escape_start<'a, M: MachineTypes>(t: &mut Tokenizer<'a, M>) -> Result<State, AllocError>
    requires { IsCallable text_byte escape_start t.old }
    ensures { IfOk result (DoesAll (step_in text_byte escape_start t.old) t.old t.new) }
{
    t.enter(event::Name::CharacterEscape)?;
    marker(t, event::Name::CharacterEscapeMarker)?;
    Ok(State::Next(Name::CharacterEscapeInside))
}

/// After the backslash of a backslash escape.
pub fn escape_inside<'a, M: MachineTypes>(t: &mut Tokenizer<'a, M>) -> Result<State, AllocError>
    requires { IsCallable text_byte escape_inside t.old }
    ensures { IfOk result (DoesAll (step_in text_byte escape_inside t.old) t.old t.new) }
{
    match t.current() {
        None => Ok(State::Nok),
        Some(byte) => {
            if byte.is_ascii_punctuation() {
                marker(t, event::Name::CharacterEscapeValue)?;
                t.exit(event::Name::CharacterEscape)?;
                Ok(State::Ok)
            } else {
                Ok(State::Nok)
            }
        }
    }
}

/// Whether backslash escapes are on.
pub fn escapes_are_on<'a, M: MachineTypes>(t: &Tokenizer<'a, M>) -> bool
    ensures { result ≡ escapes_are_on t.now.given (sight_of t.now) t.now.configuration }
{
    t.parse_state().options.constructs.character_escape
}
