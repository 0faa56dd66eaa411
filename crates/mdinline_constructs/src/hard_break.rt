//! Hard breaks by a backslash.
//!
//! ```text
//! hard_break_escape = "\"       ; before a line ending
//! ```
//!
//! The line ending is no part of it (CommonMark, "Hard line breaks"). Those by spaces are read with other white space, by the machine of inline
//! text: whether they are on is asked here.

ghost use Rattle.std.specs.Prelude.{◌≡◌, IfOk};
ghost use Rattle.markdown_tokenizer.specs.Sight.{sight_of};
ghost use Rattle.mdconstructs_tables.specs.RowInvariant.{DoesAll, IsCallable, step_in};
ghost use Rattle.mdinline_text_machine.specs.TextBytes.{text_byte};
ghost use Rattle.mdinline_constructs.specs.HardBreakRows.{break_escapes_are_on, break_escape_start, break_escape_after, trailing_breaks_are_on};

use markdown_tokenizer::event;
use markdown_tokenizer::state::{MachineTypes, Name, State};
use markdown_tokenizer::tokenizer::Tokenizer;
use std::alloc::AllocError;

/// At a backslash: a hard break is tried.
pub fn break_escape_start<'a, M: MachineTypes>(
    t: &mut Tokenizer<'a, M>,
) -> Result<State, AllocError>
    requires { IsCallable text_byte break_escape_start t.old }
    ensures { IfOk result (DoesAll (step_in text_byte break_escape_start t.old) t.old t.new) }
{
    t.enter(event::Name::HardBreakEscape)?;
    t.consume();
    Ok(State::Next(Name::HardBreakEscapeAfter))
}

/// After the backslash of a hard break.
pub fn break_escape_after<'a, M: MachineTypes>(
    t: &mut Tokenizer<'a, M>,
) -> Result<State, AllocError>
    requires { IsCallable text_byte break_escape_after t.old }
    ensures { IfOk result (DoesAll (step_in text_byte break_escape_after t.old) t.old t.new) }
{
    match t.current() {
        Some(b'\n') => {
            t.exit(event::Name::HardBreakEscape)?;
            Ok(State::Ok)
        }
        _ => Ok(State::Nok),
    }
}

/// Whether hard breaks by a backslash are on.
pub fn break_escapes_are_on<'a, M: MachineTypes>(t: &Tokenizer<'a, M>) -> bool
    ensures { result ≡ break_escapes_are_on t.now.given (sight_of t.now) t.now.configuration }
{
    t.parse_state().options.constructs.hard_break_escape
}

/// Whether hard breaks by spaces are on.
pub fn trailing_breaks_are_on<'a, M: MachineTypes>(t: &Tokenizer<'a, M>) -> bool
    ensures { result ≡ trailing_breaks_are_on t.now.given (sight_of t.now) t.now.configuration }
{
    t.parse_state().options.constructs.hard_break_trailing
}
