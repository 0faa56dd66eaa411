//! Character references.
//!
//! ```text
//! reference = "&" (name / number) ";"
//! name      = a name that HTML has    ; mdinline_characters
//! number    = "#" 1*7digit / "#" ("x" / "X") 1*6hexdigit
//! ```
//!
//! Anything else behind `&` is data (CommonMark 0.31, "Entity and numeric character references").

ghost use Rattle.std.specs.Option.{option_copied};
ghost use Rattle.std.specs.Prelude.{◌≡◌, IfOk};
ghost use Rattle.markdown_tokenizer.specs.Calls.{with_local};
ghost use Rattle.markdown_tokenizer.specs.Configuration.{at_configuration};
ghost use Rattle.markdown_tokenizer.specs.Sight.{sight_of};
ghost use Rattle.markdown_tokenizer.specs.declared.waiting.Waits.TheVariants.{Byte};
ghost use Rattle.mdconstructs_tables.specs.RowInvariant.{DoesAll, IsCallable, step_in};
ghost use Rattle.mdinline_text_machine.specs.TextBytes.{text_byte};
ghost use Rattle.mdinline_constructs.specs.ReferenceRows.{going_on, name_behind, references_are_on, at_x, value_goes_on, value_is_whole, value_grows, reference_begins, marker_is, reference_start, reference_open, reference_numeric, reference_value};

use markdown_base::owned::StaticBytes;
use markdown_tokenizer::event;
use markdown_tokenizer::state::{MachineTypes, Name, State};
use markdown_tokenizer::tokenizer::Tokenizer;
use markdown_tokenizer::util::constant::{
    CHARACTER_REFERENCE_DECIMAL_SIZE_MAX, CHARACTER_REFERENCE_HEXADECIMAL_SIZE_MAX,
    CHARACTER_REFERENCE_NAMED_SIZE_MAX,
};
use mdconstructs_tables::marker;
use mdinline_characters::{find, name_from};
use std::alloc::AllocError;

/// At `&`: a character reference is tried.
pub fn reference_start<'a, M: MachineTypes>(t: &mut Tokenizer<'a, M>) -> Result<State, AllocError>
    requires { IsCallable text_byte reference_start t.old }
    ensures { IfOk result (DoesAll (step_in text_byte reference_start t.old) t.old t.new) }
{
    begin(t);
    t.enter(event::Name::CharacterReference)?;
    marker(t, event::Name::CharacterReferenceMarker)?;
    Ok(State::Next(Name::CharacterReferenceOpen))
}

/// Behind `&`: a number or a name.
pub fn reference_open<'a, M: MachineTypes>(t: &mut Tokenizer<'a, M>) -> Result<State, AllocError>
    requires { IsCallable text_byte reference_open t.old }
    ensures { IfOk result (DoesAll (step_in text_byte reference_open t.old) t.old t.new) }
{
    match t.current() {
        None => Ok(State::Nok),
        Some(byte) => {
            if byte == b'#' {
                marker(t, event::Name::CharacterReferenceMarkerNumeric)?;
                set_marker(t, b'#');
                return Ok(State::Next(Name::CharacterReferenceNumeric));
            }
            if !value_goes_on(t) {
                return Ok(State::Nok);
            }
            t.enter(event::Name::CharacterReferenceValue)?;
            grow_value(t);
            t.consume();
            Ok(State::Next(Name::CharacterReferenceValue))
        }
    }
}

/// Behind `&#`, or `&#x`: a number.
pub fn reference_numeric<'a, M: MachineTypes>(t: &mut Tokenizer<'a, M>) -> Result<State, AllocError>
    requires { IsCallable text_byte reference_numeric t.old }
    ensures { IfOk result (DoesAll (step_in text_byte reference_numeric t.old) t.old t.new) }
{
    match t.current() {
        None => Ok(State::Nok),
        Some(_) => {
            if is_at_x(t) {
                marker(t, event::Name::CharacterReferenceMarkerHexadecimal)?;
                set_marker(t, b'x');
                return Ok(State::Next(Name::CharacterReferenceNumeric));
            }
            if !value_goes_on(t) {
                return Ok(State::Nok);
            }
            t.enter(event::Name::CharacterReferenceValue)?;
            grow_value(t);
            t.consume();
            Ok(State::Next(Name::CharacterReferenceValue))
        }
    }
}

/// In the value of a character reference, up to `;`.
pub fn reference_value<'a, M: MachineTypes>(t: &mut Tokenizer<'a, M>) -> Result<State, AllocError>
    requires { IsCallable text_byte reference_value t.old }
    ensures { IfOk result (DoesAll (step_in text_byte reference_value t.old) t.old t.new) }
{
    match t.current() {
        None => Ok(State::Nok),
        Some(byte) => {
            if byte == b';' {
                if !value_is_whole(t) {
                    return Ok(State::Nok);
                }
                t.exit(event::Name::CharacterReferenceValue)?;
                marker(t, event::Name::CharacterReferenceMarkerSemi)?;
                t.exit(event::Name::CharacterReference)?;
                return Ok(State::Ok);
            }
            if !value_goes_on(t) {
                return Ok(State::Nok);
            }
            grow_value(t);
            t.consume();
            Ok(State::Next(Name::CharacterReferenceValue))
        }
    }
}

/// Begins a reference, by name unless it turns out to be a number.
fn begin<'a, M: MachineTypes>(t: &mut Tokenizer<'a, M>)
    ensures { t.new ≡ at_configuration t.old (with_local t.old.configuration (reference_begins t.old.configuration)) }
{
    t.tokenize_state.marker = b'&';
    t.tokenize_state.size_b = 0;
}

/// Sets the kind of the reference.
fn set_marker<'a, M: MachineTypes>(t: &mut Tokenizer<'a, M>, kind: u8)
    ensures { t.new ≡ at_configuration t.old (with_local t.old.configuration (marker_is kind t.old.configuration)) }
{
    t.tokenize_state.marker = kind;
}

/// Whether `x` or `X` waits behind `#`.
fn is_at_x<'a, M: MachineTypes>(t: &Tokenizer<'a, M>) -> bool
    ensures { result ≡ at_x t.now.given (sight_of t.now) t.now.configuration }
{
    t.tokenize_state.marker == b'#' && matches!(t.current(), Some(b'x' | b'X'))
}

/// Whether the byte that waits may be one more of the value.
fn value_goes_on<'a, M: MachineTypes>(t: &Tokenizer<'a, M>) -> bool
    ensures { result ≡ value_goes_on t.now.given (sight_of t.now) t.now.configuration }
{
    match t.current() {
        None => false,
        Some(byte) => {
            let state = &t.tokenize_state;
            match state.marker {
                b'&' => {
                    state.size_b < CHARACTER_REFERENCE_NAMED_SIZE_MAX
                        && byte.is_ascii_alphanumeric()
                        && going_on(state.markers.as_slice(), state.size_b, byte).is_some()
                }
                b'#' => state.size_b < CHARACTER_REFERENCE_DECIMAL_SIZE_MAX
                    && byte.is_ascii_digit(),
                _ => {
                    state.size_b < CHARACTER_REFERENCE_HEXADECIMAL_SIZE_MAX
                        && byte.is_ascii_hexdigit()
                }
            }
        }
    }
}

/// Whether the value is whole: a name that HTML has, or one digit or more.
fn value_is_whole<'a, M: MachineTypes>(t: &Tokenizer<'a, M>) -> bool
    ensures { result ≡ value_is_whole t.now.given (sight_of t.now) t.now.configuration }
{
    let state = &t.tokenize_state;
    if state.marker != b'&' {
        return state.size_b > 0;
    }
    let name = state.markers.as_slice();
    find(&name[..state.size_b.min(name.len())]).is_some()
}

/// Counts the byte that waits as one more of the value.
fn grow_value<'a, M: MachineTypes>(t: &mut Tokenizer<'a, M>)
    ensures { t.new ≡ at_configuration t.old (with_local t.old.configuration (value_grows (sight_of t.old) t.old.configuration)) }
{
    let name = name_behind(t);
    t.tokenize_state.markers = StaticBytes::new(name);
    t.tokenize_state.size_b = t.tokenize_state.size_b.saturating_add(1);
}

/// The name that is known behind the byte that waits.
fn name_behind<'a, M: MachineTypes>(t: &Tokenizer<'a, M>) -> &'static [u8]
    ensures { let s = t.now.configuration.local.tokenize_state in result.now ≡ name_behind s.marker s.markers s.size_b (sight_of t.now).current }
{
    let name = t.tokenize_state.markers.as_slice();
    match t.current() {
        None => name,
        Some(byte) => {
            if t.tokenize_state.marker == b'&' {
                going_on(name, t.tokenize_state.size_b, byte).unwrap_or(name)
            } else {
                name
            }
        }
    }
}

/// A name that begins with `size` bytes of this one, and goes on with a byte: this one, or another.
fn going_on(name: &'static [u8], size: usize, byte: u8) -> Option<&'static [u8]>
    ensures { option_copied result ≡ going_on name.now size byte }
{
    if name.get(size) == Some(&byte) {
        return Some(name);
    }
    name_from(&name[..size.min(name.len())], byte)
}

/// Whether character references are on.
pub fn references_are_on<'a, M: MachineTypes>(t: &Tokenizer<'a, M>) -> bool
    ensures { result ≡ references_are_on t.now.given (sight_of t.now) t.now.configuration }
{
    t.parse_state().options.constructs.character_reference
}
