//! Autolinks around absolute URIs.
//!
//! ```text
//! autolink = "<" scheme ":" *allowed ">"
//! scheme   = letter 1*31(letter / digit / "+" / "." / "-")
//! allowed  = any byte but ASCII control characters, space, "<" and ">"
//! ```
//!
//! Letters and digits are ASCII (CommonMark, "Autolinks").

ghost use Rattle.std.specs.Prelude.{◌≡◌, IfOk};
ghost use Rattle.markdown_tokenizer.specs.Sight.{sight_of};
ghost use Rattle.markdown_tokenizer.specs.declared.waiting.Waits.TheVariants.{Byte};
ghost use Rattle.mdconstructs_tables.specs.Rows.{picked, step_of};
ghost use Rattle.mdconstructs_tables.specs.RowInvariant.{DoesAll, IsCallable, step_in};
ghost use Rattle.mdinline_text_machine.specs.AutolinkRows.{has_scheme, has_room, scheme_goes_on, autolinks_are_on, autolink_start, autolink_open, autolink_scheme, autolink_url};
ghost use Rattle.mdinline_text_machine.specs.TextBytes.{text_byte};

use crate::sizes::{add_to_size_b, set_size_b};
use markdown_tokenizer::event;
use markdown_tokenizer::state::{MachineTypes, Name, State};
use markdown_tokenizer::tokenizer::Tokenizer;
use markdown_tokenizer::util::constant::AUTOLINK_SCHEME_SIZE_MAX;
use mdconstructs_tables::marker;
use std::alloc::AllocError;

/// At `<`: an autolink is tried.
pub fn autolink_start<'a, M: MachineTypes>(t: &mut Tokenizer<'a, M>) -> Result<State, AllocError>
    requires { IsCallable text_byte autolink_start t.old }
    ensures { IfOk result (DoesAll (step_in text_byte autolink_start t.old) t.old t.new) }
{
    t.enter(event::Name::Autolink)?;
    marker(t, event::Name::AutolinkMarker)?;
    t.enter(event::Name::AutolinkProtocol)?;
    Ok(State::Next(Name::AutolinkOpen))
}

/// At the start of the scheme of an autolink.
pub fn autolink_open<'a, M: MachineTypes>(t: &mut Tokenizer<'a, M>) -> Result<State, AllocError>
    requires { IsCallable text_byte autolink_open t.old }
    ensures { IfOk result (DoesAll (step_in text_byte autolink_open t.old) t.old t.new) }
{
    match t.current() {
        Some(b'A'..=b'Z' | b'a'..=b'z') => {
            set_size_b(t, 1);
            t.consume();
            Ok(State::Next(Name::AutolinkSchemeInsideOrEmailAtext))
        }
        _ => Ok(State::Nok),
    }
}

/// In the scheme of an autolink, which has 2 to `AUTOLINK_SCHEME_SIZE_MAX` bytes.
pub fn autolink_scheme<'a, M: MachineTypes>(t: &mut Tokenizer<'a, M>) -> Result<State, AllocError>
    requires { IsCallable text_byte autolink_scheme t.old }
    ensures { IfOk result (DoesAll (step_in text_byte autolink_scheme t.old) t.old t.new) }
{
    match t.current() {
        Some(b':') => {
            if !has_scheme(t) {
                return Ok(State::Nok);
            }
            t.consume();
            Ok(State::Next(Name::AutolinkUrlInside))
        }
        Some(b'A'..=b'Z' | b'a'..=b'z') => Ok(go_on_in_scheme(t)),
        Some(b'0'..=b'9') => Ok(go_on_in_scheme(t)),
        Some(b'+' | b'-' | b'.') => Ok(go_on_in_scheme(t)),
        _ => Ok(State::Nok),
    }
}

/// In an autolink, after its scheme.
pub fn autolink_url<'a, M: MachineTypes>(t: &mut Tokenizer<'a, M>) -> Result<State, AllocError>
    requires { IsCallable text_byte autolink_url t.old }
    ensures { IfOk result (DoesAll (step_in text_byte autolink_url t.old) t.old t.new) }
{
    match t.current() {
        Some(b'>') => {
            t.exit(event::Name::AutolinkProtocol)?;
            marker(t, event::Name::AutolinkMarker)?;
            t.exit(event::Name::Autolink)?;
            Ok(State::Ok)
        }
        None | Some(0..=0x20 | b'<' | 0x7F) => Ok(State::Nok),
        Some(_) => {
            t.consume();
            Ok(State::Next(Name::AutolinkUrlInside))
        }
    }
}

/// At a byte of a scheme: reads it if the scheme is not too long.
fn go_on_in_scheme<'a, M: MachineTypes>(t: &mut Tokenizer<'a, M>) -> State
    requires { t.old.configuration.waiting ≡ Byte }
    ensures { DoesAll (step_of (picked scheme_goes_on t.old.given (sight_of t.old) t.old.configuration) (sight_of t.old) t.old.configuration) t.old t.new result }
{
    if has_room(t) {
        add_to_size_b(t);
        t.consume();
        State::Next(Name::AutolinkSchemeInsideOrEmailAtext)
    } else {
        State::Nok
    }
}

/// Whether a scheme is long enough.
fn has_scheme<'a, M: MachineTypes>(t: &Tokenizer<'a, M>) -> bool
    ensures { result ≡ has_scheme t.now.given (sight_of t.now) t.now.configuration }
{
    t.tokenize_state.size_b >= 2
}

/// Whether a scheme may have a byte more.
fn has_room<'a, M: MachineTypes>(t: &Tokenizer<'a, M>) -> bool
    ensures { result ≡ has_room t.now.given (sight_of t.now) t.now.configuration }
{
    t.tokenize_state.size_b < AUTOLINK_SCHEME_SIZE_MAX
}

/// Whether autolinks are on.
pub fn autolinks_are_on<'a, M: MachineTypes>(t: &Tokenizer<'a, M>) -> bool
    ensures { result ≡ autolinks_are_on t.now.given (sight_of t.now) t.now.configuration }
{
    t.parse_state().options.constructs.autolink
}
