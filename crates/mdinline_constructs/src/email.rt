//! Autolinks around email addresses.
//!
//! ```text
//! email  = "<" 1*atext "@" label *("." label) ">"
//! atext  = letter / digit / "." / "!" / "#" / "$" / "%" / "&" / "'" / "*" / "+" / "/" / "=" / "?"
//!        / "^" / "_" / "`" / "{" / "|" / "}" / "~" / "-"
//! label  = alnum [*61(alnum / "-") alnum]
//! alnum  = letter / digit
//! ```
//!
//! Letters and digits are ASCII (CommonMark, "Autolinks").

ghost use Rattle.std.specs.Prelude.{◌≡◌, IfOk};
ghost use Rattle.markdown_tokenizer.specs.Sight.{sight_of};
ghost use Rattle.mdconstructs_tables.specs.RowInvariant.{DoesAll, IsCallable, step_in};
ghost use Rattle.mdinline_text_machine.specs.TextBytes.{text_byte};
ghost use Rattle.mdinline_constructs.specs.Email.{is_atext};
ghost use Rattle.mdinline_constructs.specs.EmailRows.{name_ends, name_goes_on, label_goes_on, label_has_hyphen, label_ends, domain_ends, email_start, email_atext, email_label, email_value};

use markdown_tokenizer::event;
use markdown_tokenizer::state::{MachineTypes, Name, State};
use markdown_tokenizer::tokenizer::Tokenizer;
use markdown_tokenizer::util::constant::AUTOLINK_DOMAIN_SIZE_MAX;
use mdconstructs_tables::marker;
use mdinline_text_machine::sizes::{add_to_size_b, set_size_b};
use std::alloc::AllocError;

/// At `<`: an email autolink is tried.
pub fn email_start<'a, M: MachineTypes>(t: &mut Tokenizer<'a, M>) -> Result<State, AllocError>
    requires { IsCallable text_byte email_start t.old }
    ensures { IfOk result (DoesAll (step_in text_byte email_start t.old) t.old t.new) }
{
    t.enter(event::Name::Autolink)?;
    marker(t, event::Name::AutolinkMarker)?;
    t.enter(event::Name::AutolinkEmail)?;
    set_size_b(t, 0);
    Ok(State::Next(Name::AutolinkEmailAtext))
}

/// In an email autolink, before `@`.
pub fn email_atext<'a, M: MachineTypes>(t: &mut Tokenizer<'a, M>) -> Result<State, AllocError>
    requires { IsCallable text_byte email_atext t.old }
    ensures { IfOk result (DoesAll (step_in text_byte email_atext t.old) t.old t.new) }
{
    match t.current() {
        None => Ok(State::Nok),
        Some(_) => {
            if name_ends(t) {
                set_size_b(t, 0);
                t.consume();
                Ok(State::Next(Name::AutolinkEmailLabel))
            } else if name_goes_on(t) {
                set_size_b(t, 1);
                t.consume();
                Ok(State::Next(Name::AutolinkEmailAtext))
            } else {
                Ok(State::Nok)
            }
        }
    }
}

/// In an email autolink, where a label begins, or goes on behind a letter or digit.
pub fn email_label<'a, M: MachineTypes>(t: &mut Tokenizer<'a, M>) -> Result<State, AllocError>
    requires { IsCallable text_byte email_label t.old }
    ensures { IfOk result (DoesAll (step_in text_byte email_label t.old) t.old t.new) }
{
    match t.current() {
        None => Ok(State::Nok),
        Some(_) => {
            if label_goes_on(t) {
                add_to_size_b(t);
                t.consume();
                Ok(State::Next(Name::AutolinkEmailLabel))
            } else if label_has_hyphen(t) {
                add_to_size_b(t);
                t.consume();
                Ok(State::Next(Name::AutolinkEmailValue))
            } else if label_ends(t) {
                set_size_b(t, 0);
                t.consume();
                Ok(State::Next(Name::AutolinkEmailLabel))
            } else if domain_ends(t) {
                t.exit(event::Name::AutolinkEmail)?;
                marker(t, event::Name::AutolinkMarker)?;
                t.exit(event::Name::Autolink)?;
                Ok(State::Ok)
            } else {
                Ok(State::Nok)
            }
        }
    }
}

/// In a label of an email autolink, behind `-`.
pub fn email_value<'a, M: MachineTypes>(t: &mut Tokenizer<'a, M>) -> Result<State, AllocError>
    requires { IsCallable text_byte email_value t.old }
    ensures { IfOk result (DoesAll (step_in text_byte email_value t.old) t.old t.new) }
{
    match t.current() {
        None => Ok(State::Nok),
        Some(_) => {
            if label_goes_on(t) {
                add_to_size_b(t);
                t.consume();
                Ok(State::Next(Name::AutolinkEmailLabel))
            } else if label_has_hyphen(t) {
                add_to_size_b(t);
                t.consume();
                Ok(State::Next(Name::AutolinkEmailValue))
            } else {
                Ok(State::Nok)
            }
        }
    }
}

/// Whether a byte may be before `@`.
fn is_atext(byte: u8) -> bool
    ensures { result ≡ is_atext byte }
{
    matches!(
        byte,
        b'A'..=b'Z' | b'a'..=b'z' | b'0'..=b'9' | b'!' | b'#'..=b'\'' | b'*' | b'+' | b'-'..=b'/'
            | b'=' | b'?' | b'^'..=b'`' | b'{'..=b'~'
    )
}

/// Whether `@` waits, and a character was before it.
fn name_ends<'a, M: MachineTypes>(t: &Tokenizer<'a, M>) -> bool
    ensures { result ≡ name_ends t.now.given (sight_of t.now) t.now.configuration }
{
    matches!(t.current(), Some(b'@')) && t.tokenize_state.size_b > 0
}

/// Whether a character waits that may be before `@`.
fn name_goes_on<'a, M: MachineTypes>(t: &Tokenizer<'a, M>) -> bool
    ensures { result ≡ name_goes_on t.now.given (sight_of t.now) t.now.configuration }
{
    match t.current() {
        None => false,
        Some(byte) => is_atext(byte),
    }
}

/// Whether a letter or digit waits, and the label has room for it.
fn label_goes_on<'a, M: MachineTypes>(t: &Tokenizer<'a, M>) -> bool
    ensures { result ≡ label_goes_on t.now.given (sight_of t.now) t.now.configuration }
{
    match t.current() {
        None => false,
        Some(byte) => {
            byte.is_ascii_alphanumeric() && t.tokenize_state.size_b < AUTOLINK_DOMAIN_SIZE_MAX
        }
    }
}

/// Whether `-` waits, the label has begun, and has room for it.
fn label_has_hyphen<'a, M: MachineTypes>(t: &Tokenizer<'a, M>) -> bool
    ensures { result ≡ label_has_hyphen t.now.given (sight_of t.now) t.now.configuration }
{
    matches!(t.current(), Some(b'-'))
        && t.tokenize_state.size_b > 0
        && t.tokenize_state.size_b < AUTOLINK_DOMAIN_SIZE_MAX
}

/// Whether `.` waits behind a label.
fn label_ends<'a, M: MachineTypes>(t: &Tokenizer<'a, M>) -> bool
    ensures { result ≡ label_ends t.now.given (sight_of t.now) t.now.configuration }
{
    matches!(t.current(), Some(b'.')) && t.tokenize_state.size_b > 0
}

/// Whether `>` waits behind a label.
fn domain_ends<'a, M: MachineTypes>(t: &Tokenizer<'a, M>) -> bool
    ensures { result ≡ domain_ends t.now.given (sight_of t.now) t.now.configuration }
{
    matches!(t.current(), Some(b'>')) && t.tokenize_state.size_b > 0
}
