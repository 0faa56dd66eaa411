//! Full references: the label behind the text of a link or of an image.
//!
//! ```text
//! reference = "[" label "]"
//! label     = 1*any          ; no bracket, not white space alone, no blank line, at most 999 characters
//! ```
//!
//! A backslash hides the byte behind it (CommonMark, "Links"). Lines of labels are read as data: no event has a link.
//!
//! How many characters were read is kept in `size_b`, whether another byte than white space was read in `marker`, and whether a label is there, though
//! it is not wanted, in `marker_b`.

ghost use Rattle.std.specs.Prelude.{◌≡◌, ◌==◌, ◌≤◌, IfOk, drop, length};
ghost use Rattle.markdown_tokenizer.specs.Calls.{with_local};
ghost use Rattle.markdown_tokenizer.specs.Configuration.{at_configuration};
ghost use Rattle.markdown_tokenizer.specs.Sight.{sight_of};
ghost use Rattle.mdinline_labels.specs.Labels.{begins_character, is_bracket, is_label_white};
ghost use Rattle.mdinline_labels.specs.Tails.{is_white};
ghost use Rattle.mdinline_link_tails.specs.ResourceRows.{shows, waits};
ghost use Rattle.mdconstructs_tables.specs.RowInvariant.{DoesAll, IsCallable, step_in};
ghost use Rattle.mdinline_text_machine.specs.TextBytes.{text_byte};
ghost use Rattle.mdinline_full_references.specs.FullReferenceRows.{begins_label, counts_byte, label_behind, is_label_read, known, label_begins, label_noted, one_more, with_byte, filled_by, reference_start, label_start, label_inside, label_escape, label_line, label_white, label_end};

use crate::names;
use markdown_tokenizer::event::{self, Event, Kind};
use markdown_tokenizer::state::{MachineTypes, Name, State};
use markdown_tokenizer::tokenizer::Tokenizer;
use mdconstructs_tables::marker;
use std::alloc::AllocError;

/// A label has at most this many characters.
const CHARACTERS_MAX: usize = 999;

/// Where a full reference may begin.
pub fn reference_start<'a, M: MachineTypes>(t: &mut Tokenizer<'a, M>) -> Result<State, AllocError>
    requires { IsCallable text_byte reference_start t.old }
    ensures { IfOk result (DoesAll (step_in text_byte reference_start t.old) t.old t.new) }
{
    match t.current() {
        None => {
            set_noted(t, 0);
            Ok(State::Nok)
        }
        Some(_) => {
            if waits(t, b'[') {
                begin_label(t);
                t.enter(event::Name::Reference)?;
                marker(t, event::Name::ReferenceMarker)?;
                Ok(State::Next(Name::LabelStart))
            } else {
                set_noted(t, 0);
                Ok(State::Nok)
            }
        }
    }
}

/// Behind the `[` of a label.
pub fn label_start<'a, M: MachineTypes>(t: &mut Tokenizer<'a, M>) -> Result<State, AllocError>
    requires { IsCallable text_byte label_start t.old }
    ensures { IfOk result (DoesAll (step_in text_byte label_start t.old) t.old t.new) }
{
    match t.current() {
        None => Ok(State::Nok),
        Some(_) => {
            if bracket_waits(t) {
                Ok(State::Nok)
            } else if waits(t, b'\n') {
                count_byte(t);
                t.enter(event::Name::ReferenceString)?;
                marker(t, event::Name::LineEnding)?;
                Ok(State::Next(Name::LabelEolAfter))
            } else if waits(t, b'\\') {
                count_byte(t);
                t.enter(event::Name::ReferenceString)?;
                t.enter(event::Name::Data)?;
                t.consume();
                Ok(State::Next(Name::LabelEscape))
            } else {
                count_byte(t);
                t.enter(event::Name::ReferenceString)?;
                t.enter(event::Name::Data)?;
                t.consume();
                Ok(State::Next(Name::LabelInside))
            }
        }
    }
}

/// In a line of a label.
pub fn label_inside<'a, M: MachineTypes>(t: &mut Tokenizer<'a, M>) -> Result<State, AllocError>
    requires { IsCallable text_byte label_inside t.old }
    ensures { IfOk result (DoesAll (step_in text_byte label_inside t.old) t.old t.new) }
{
    match t.current() {
        None => Ok(State::Nok),
        Some(_) => {
            if waits(t, b']') {
                t.exit(event::Name::Data)?;
                t.exit(event::Name::ReferenceString)?;
                Ok(State::Retry(names::LabelEndReferenceFullEnd))
            } else if waits(t, b'[') {
                Ok(State::Nok)
            } else if waits(t, b'\n') {
                count_byte(t);
                t.exit(event::Name::Data)?;
                marker(t, event::Name::LineEnding)?;
                Ok(State::Next(Name::LabelEolAfter))
            } else if waits(t, b'\\') {
                count_byte(t);
                t.consume();
                Ok(State::Next(Name::LabelEscape))
            } else {
                count_byte(t);
                t.consume();
                Ok(State::Next(Name::LabelInside))
            }
        }
    }
}

/// Behind a backslash in a label.
pub fn label_escape<'a, M: MachineTypes>(t: &mut Tokenizer<'a, M>) -> Result<State, AllocError>
    requires { IsCallable text_byte label_escape t.old }
    ensures { IfOk result (DoesAll (step_in text_byte label_escape t.old) t.old t.new) }
{
    match t.current() {
        None => Ok(State::Nok),
        Some(_) => {
            if waits(t, b'\n') {
                count_byte(t);
                t.exit(event::Name::Data)?;
                marker(t, event::Name::LineEnding)?;
                Ok(State::Next(Name::LabelEolAfter))
            } else {
                count_byte(t);
                t.consume();
                Ok(State::Next(Name::LabelInside))
            }
        }
    }
}

/// Behind a line ending in a label.
pub fn label_line<'a, M: MachineTypes>(t: &mut Tokenizer<'a, M>) -> Result<State, AllocError>
    requires { IsCallable text_byte label_line t.old }
    ensures { IfOk result (DoesAll (step_in text_byte label_line t.old) t.old t.new) }
{
    match t.current() {
        None => Ok(State::Nok),
        Some(_) => {
            if waits(t, b']') {
                t.exit(event::Name::ReferenceString)?;
                Ok(State::Retry(names::LabelEndReferenceFullEnd))
            } else if waits(t, b'[') {
                Ok(State::Nok)
            } else if waits(t, b'\n') {
                Ok(State::Nok)
            } else if white_waits(t) {
                count_byte(t);
                t.enter(event::Name::SpaceOrTab)?;
                t.consume();
                Ok(State::Next(names::LabelLineWhite))
            } else if waits(t, b'\\') {
                count_byte(t);
                t.enter(event::Name::Data)?;
                t.consume();
                Ok(State::Next(Name::LabelEscape))
            } else {
                count_byte(t);
                t.enter(event::Name::Data)?;
                t.consume();
                Ok(State::Next(Name::LabelInside))
            }
        }
    }
}

/// In white space behind a line ending in a label.
pub fn label_white<'a, M: MachineTypes>(t: &mut Tokenizer<'a, M>) -> Result<State, AllocError>
    requires { IsCallable text_byte label_white t.old }
    ensures { IfOk result (DoesAll (step_in text_byte label_white t.old) t.old t.new) }
{
    match t.current() {
        None => Ok(State::Nok),
        Some(_) => {
            if waits(t, b']') {
                t.exit(event::Name::SpaceOrTab)?;
                t.exit(event::Name::ReferenceString)?;
                Ok(State::Retry(names::LabelEndReferenceFullEnd))
            } else if waits(t, b'[') {
                Ok(State::Nok)
            } else if waits(t, b'\n') {
                Ok(State::Nok)
            } else if white_waits(t) {
                count_byte(t);
                t.consume();
                Ok(State::Next(names::LabelLineWhite))
            } else if waits(t, b'\\') {
                count_byte(t);
                t.exit(event::Name::SpaceOrTab)?;
                t.enter(event::Name::Data)?;
                t.consume();
                Ok(State::Next(Name::LabelEscape))
            } else {
                count_byte(t);
                t.exit(event::Name::SpaceOrTab)?;
                t.enter(event::Name::Data)?;
                t.consume();
                Ok(State::Next(Name::LabelInside))
            }
        }
    }
}

/// At the `]` of a label, which is wanted or not.
pub fn label_end<'a, M: MachineTypes>(
    t: &mut Tokenizer<'a, M>,
    wanted: bool,
) -> Result<State, AllocError>
    requires { IsCallable text_byte (label_end (known wanted)) t.old }
    ensures { IfOk result (DoesAll (step_in text_byte (label_end (known wanted)) t.old) t.old t.new) }
{
    match t.current() {
        None => Ok(State::Nok),
        Some(_) => {
            if is_label_read(t) {
                if wanted {
                    marker(t, event::Name::ReferenceMarker)?;
                    t.exit(event::Name::Reference)?;
                    Ok(State::Ok)
                } else {
                    set_noted(t, 1);
                    Ok(State::Nok)
                }
            } else {
                Ok(State::Nok)
            }
        }
    }
}

/// The index of the first event behind the last one that enters the string of a label, or the number of events if none does. Once a label was read, the
/// events from there on are those of its string, and the exit of that.
pub fn label_behind(events: &[Event]) -> usize
    ensures behind { drop result events.now ≡ label_behind events.now }
    ensures within { result ≤ length events.now }
{
    let mut at = events.len();
    while at > 0 {
        if begins_label(&events[at - 1]) {
            return at;
        }
        at -= 1;
    }
    events.len()
}

/// Whether an event enters the string of a label.
fn begins_label(event: &Event) -> bool
    ensures { result ≡ begins_label event.now }
{
    event.kind == Kind::Enter && event.name == event::Name::ReferenceString
}

/// Whether this byte waits.
fn waits<'a, M: MachineTypes>(t: &Tokenizer<'a, M>, byte: u8) -> bool
    ensures { result ≡ waits byte t.now.given (sight_of t.now) t.now.configuration }
{
    match t.current() {
        None => false,
        Some(current) => current == byte,
    }
}

/// Whether a bracket waits.
fn bracket_waits<'a, M: MachineTypes>(t: &Tokenizer<'a, M>) -> bool
    ensures { result ≡ shows is_bracket t.now.given (sight_of t.now) t.now.configuration }
{
    match t.current() {
        None => false,
        Some(byte) => byte == b'[' || byte == b']',
    }
}

/// Whether a space or a tab waits.
fn white_waits<'a, M: MachineTypes>(t: &Tokenizer<'a, M>) -> bool
    ensures { result ≡ shows is_white t.now.given (sight_of t.now) t.now.configuration }
{
    match t.current() {
        None => false,
        Some(byte) => byte == b' ' || byte == b'\t',
    }
}

/// Whether what was read can be a label.
fn is_label_read<'a, M: MachineTypes>(t: &Tokenizer<'a, M>) -> bool
    ensures { result ≡ is_label_read t.now.given (sight_of t.now) t.now.configuration }
{
    t.tokenize_state.size_b <= CHARACTERS_MAX && t.tokenize_state.marker == 1
}

/// Nothing of a label was read yet.
fn begin_label<'a, M: MachineTypes>(t: &mut Tokenizer<'a, M>)
    ensures { t.new ≡ at_configuration t.old (with_local t.old.configuration (label_begins t.old.configuration)) }
{
    t.tokenize_state.size_b = 0;
    t.tokenize_state.marker = 0;
    t.tokenize_state.marker_b = 0;
}

/// Notes whether a label is there: 1 if so, and else 0.
fn set_noted<'a, M: MachineTypes>(t: &mut Tokenizer<'a, M>, noted: u8)
    ensures { t.new ≡ at_configuration t.old (with_local t.old.configuration (label_noted noted t.old.configuration)) }
{
    t.tokenize_state.marker_b = noted;
}

/// Counts the byte that waits.
fn count_byte<'a, M: MachineTypes>(t: &mut Tokenizer<'a, M>)
    ensures { t.new ≡ at_configuration t.old (with_local t.old.configuration (counts_byte (sight_of t.old) t.old.configuration)) }
{
    if let Some(byte) = t.current() {
        let characters = with_byte(byte, t.tokenize_state.size_b);
        let filled = filled_by(byte, t.tokenize_state.marker);
        t.tokenize_state.size_b = characters;
        t.tokenize_state.marker = filled;
    }
}

/// How many characters were read behind a byte, by how many were read before it.
fn with_byte(byte: u8, count: usize) -> usize
    ensures { result ≡ with_byte byte count }
{
    let begins = byte < 128 || byte >= 192;
    if begins && count <= CHARACTERS_MAX {
        count + 1
    } else {
        count
    }
}

/// Whether another byte than white space was read behind a byte, by whether one was read before it.
fn filled_by(byte: u8, filled: u8) -> u8
    ensures { result ≡ filled_by byte filled }
{
    if byte == b' ' || byte == b'\t' || byte == b'\n' || byte == b'\r' {
        filled
    } else {
        1
    }
}
