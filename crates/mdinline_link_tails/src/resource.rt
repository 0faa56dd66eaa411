//! Resources: what stands in parentheses behind the text of an inline link or of an image.
//!
//! ```text
//! resource    = "(" [gap] [destination [gap title]] [gap] ")"
//! destination = "<" *any ">" / 1*raw       ; raw bytes with parentheses that close one another, at most 32 open
//! title       = DQUOTE *any DQUOTE / "'" *any "'" / "(" *any ")"
//! gap         = white space with at most one line ending
//! ```
//!
//! A backslash hides the byte behind it (CommonMark, "Links"). Lines of destinations and titles are read as data: no event has a link.
//!
//! What white space stands before is kept in `marker_b`, how many parentheses of a destination are open in `size_b`, and the mark that
//! closes a title in `marker`.

ghost use Rattle.std.specs.Prelude.{◌≡◌, ◌==◌, IfOk};
ghost use Rattle.markdown_tokenizer.specs.Calls.{with_local};
ghost use Rattle.markdown_tokenizer.specs.Configuration.{at_configuration};
ghost use Rattle.markdown_tokenizer.specs.Sight.{sight_of};
ghost use Rattle.mdinline_labels.specs.Tails.{ends_raw, is_raw_end, is_white};
ghost use Rattle.mdconstructs_tables.specs.RowInvariant.{DoesAll, IsCallable, step_in};
ghost use Rattle.mdinline_text_machine.specs.TextBytes.{text_byte};
ghost use Rattle.mdinline_link_tails.specs.ResourceRows.{all_are_closed, is_not_enclosed, is_gap_byte, is_before, is_too_deep, raw_ends, shows, size_b_falls, stands_before_is, title_closes, title_closes_with, title_nests, waits, resource_start, resource_before, gap_white, gap_line, gap_line_white, resource_open, enclosed_before, enclosed, enclosed_escape, destination_end, raw, raw_escape, destination_after, title_start, title_begin, title_inside, title_escape, title_line, title_white, title_end, resource_end};

use crate::names;
use markdown_tokenizer::event;
use markdown_tokenizer::state::{MachineTypes, Name, State};
use markdown_tokenizer::tokenizer::Tokenizer;
use mdconstructs_tables::marker;
use mdinline_text_machine::sizes::{add_to_size_b, set_size_b};
use std::alloc::AllocError;

/// At most this many parentheses of a destination are open at once.
const DEPTH_MAX: usize = 32;

/// Where a resource may begin.
pub fn resource_start<'a, M: MachineTypes>(t: &mut Tokenizer<'a, M>) -> Result<State, AllocError>
    requires { IsCallable text_byte resource_start t.old }
    ensures { IfOk result (DoesAll (step_in text_byte resource_start t.old) t.old t.new) }
{
    match t.current() {
        None => Ok(State::Nok),
        Some(_) => {
            if waits(t, b'(') {
                set_stands_before(t, 0);
                t.enter(event::Name::Resource)?;
                marker(t, event::Name::ResourceMarker)?;
                Ok(State::Next(Name::LabelEndResourceBefore))
            } else {
                Ok(State::Nok)
            }
        }
    }
}

/// In a resource, where white space may begin.
pub fn resource_before<'a, M: MachineTypes>(t: &mut Tokenizer<'a, M>) -> Result<State, AllocError>
    requires { IsCallable text_byte resource_before t.old }
    ensures { IfOk result (DoesAll (step_in text_byte resource_before t.old) t.old t.new) }
{
    match t.current() {
        None => Ok(State::Nok),
        Some(_) => {
            if white_waits(t) {
                t.enter(event::Name::SpaceOrTab)?;
                t.consume();
                Ok(State::Next(names::ResourceGapWhite))
            } else if waits(t, b'\n') {
                marker(t, event::Name::LineEnding)?;
                Ok(State::Next(names::ResourceGapLine))
            } else if is_before(t, 0) {
                Ok(State::Retry(Name::LabelEndResourceOpen))
            } else if is_before(t, 1) {
                Ok(State::Retry(Name::TitleStart))
            } else {
                Ok(State::Retry(Name::LabelEndResourceEnd))
            }
        }
    }
}

/// In white space of a resource, before a line ending.
pub fn gap_white<'a, M: MachineTypes>(t: &mut Tokenizer<'a, M>) -> Result<State, AllocError>
    requires { IsCallable text_byte gap_white t.old }
    ensures { IfOk result (DoesAll (step_in text_byte gap_white t.old) t.old t.new) }
{
    match t.current() {
        None => Ok(State::Nok),
        Some(_) => {
            if white_waits(t) {
                t.consume();
                Ok(State::Next(names::ResourceGapWhite))
            } else if waits(t, b'\n') {
                t.exit(event::Name::SpaceOrTab)?;
                marker(t, event::Name::LineEnding)?;
                Ok(State::Next(names::ResourceGapLine))
            } else if is_before(t, 0) {
                t.exit(event::Name::SpaceOrTab)?;
                Ok(State::Retry(Name::LabelEndResourceOpen))
            } else if is_before(t, 1) {
                t.exit(event::Name::SpaceOrTab)?;
                Ok(State::Retry(Name::TitleStart))
            } else {
                t.exit(event::Name::SpaceOrTab)?;
                Ok(State::Retry(Name::LabelEndResourceEnd))
            }
        }
    }
}

/// Behind the line ending of white space of a resource.
pub fn gap_line<'a, M: MachineTypes>(t: &mut Tokenizer<'a, M>) -> Result<State, AllocError>
    requires { IsCallable text_byte gap_line t.old }
    ensures { IfOk result (DoesAll (step_in text_byte gap_line t.old) t.old t.new) }
{
    match t.current() {
        None => Ok(State::Nok),
        Some(_) => {
            if white_waits(t) {
                t.enter(event::Name::SpaceOrTab)?;
                t.consume();
                Ok(State::Next(names::ResourceGapLineWhite))
            } else if is_before(t, 0) {
                Ok(State::Retry(Name::LabelEndResourceOpen))
            } else if is_before(t, 1) {
                Ok(State::Retry(Name::TitleStart))
            } else {
                Ok(State::Retry(Name::LabelEndResourceEnd))
            }
        }
    }
}

/// In white space of a resource, behind its line ending.
pub fn gap_line_white<'a, M: MachineTypes>(t: &mut Tokenizer<'a, M>) -> Result<State, AllocError>
    requires { IsCallable text_byte gap_line_white t.old }
    ensures { IfOk result (DoesAll (step_in text_byte gap_line_white t.old) t.old t.new) }
{
    match t.current() {
        None => Ok(State::Nok),
        Some(_) => {
            if white_waits(t) {
                t.consume();
                Ok(State::Next(names::ResourceGapLineWhite))
            } else if is_before(t, 0) {
                t.exit(event::Name::SpaceOrTab)?;
                Ok(State::Retry(Name::LabelEndResourceOpen))
            } else if is_before(t, 1) {
                t.exit(event::Name::SpaceOrTab)?;
                Ok(State::Retry(Name::TitleStart))
            } else {
                t.exit(event::Name::SpaceOrTab)?;
                Ok(State::Retry(Name::LabelEndResourceEnd))
            }
        }
    }
}

/// In a resource, where a destination may begin.
pub fn resource_open<'a, M: MachineTypes>(t: &mut Tokenizer<'a, M>) -> Result<State, AllocError>
    requires { IsCallable text_byte resource_open t.old }
    ensures { IfOk result (DoesAll (step_in text_byte resource_open t.old) t.old t.new) }
{
    match t.current() {
        None => Ok(State::Nok),
        Some(_) => {
            if waits(t, b')') {
                Ok(State::Retry(Name::LabelEndResourceEnd))
            } else if waits(t, b'<') {
                t.enter(event::Name::ResourceDestination)?;
                t.enter(event::Name::ResourceDestinationLiteral)?;
                marker(t, event::Name::ResourceDestinationLiteralMarker)?;
                Ok(State::Next(Name::DestinationEnclosedBefore))
            } else if ends_raw_waits(t) {
                Ok(State::Nok)
            } else if waits(t, b'(') {
                set_size_b(t, 1);
                t.enter(event::Name::ResourceDestination)?;
                t.enter(event::Name::ResourceDestinationRaw)?;
                t.enter(event::Name::ResourceDestinationString)?;
                t.enter(event::Name::Data)?;
                t.consume();
                Ok(State::Next(Name::DestinationRaw))
            } else if waits(t, b'\\') {
                set_size_b(t, 0);
                t.enter(event::Name::ResourceDestination)?;
                t.enter(event::Name::ResourceDestinationRaw)?;
                t.enter(event::Name::ResourceDestinationString)?;
                t.enter(event::Name::Data)?;
                t.consume();
                Ok(State::Next(Name::DestinationRawEscape))
            } else {
                set_size_b(t, 0);
                t.enter(event::Name::ResourceDestination)?;
                t.enter(event::Name::ResourceDestinationRaw)?;
                t.enter(event::Name::ResourceDestinationString)?;
                t.enter(event::Name::Data)?;
                t.consume();
                Ok(State::Next(Name::DestinationRaw))
            }
        }
    }
}

/// Behind the `<` of a destination.
pub fn enclosed_before<'a, M: MachineTypes>(t: &mut Tokenizer<'a, M>) -> Result<State, AllocError>
    requires { IsCallable text_byte enclosed_before t.old }
    ensures { IfOk result (DoesAll (step_in text_byte enclosed_before t.old) t.old t.new) }
{
    match t.current() {
        None => Ok(State::Nok),
        Some(_) => {
            if waits(t, b'>') {
                Ok(State::Retry(names::ResourceDestinationEnd))
            } else if enclosed_fails(t) {
                Ok(State::Nok)
            } else if waits(t, b'\\') {
                t.enter(event::Name::ResourceDestinationString)?;
                t.enter(event::Name::Data)?;
                t.consume();
                Ok(State::Next(Name::DestinationEnclosedEscape))
            } else {
                t.enter(event::Name::ResourceDestinationString)?;
                t.enter(event::Name::Data)?;
                t.consume();
                Ok(State::Next(Name::DestinationEnclosed))
            }
        }
    }
}

/// In a destination between `<` and `>`.
pub fn enclosed<'a, M: MachineTypes>(t: &mut Tokenizer<'a, M>) -> Result<State, AllocError>
    requires { IsCallable text_byte enclosed t.old }
    ensures { IfOk result (DoesAll (step_in text_byte enclosed t.old) t.old t.new) }
{
    match t.current() {
        None => Ok(State::Nok),
        Some(_) => {
            if waits(t, b'>') {
                t.exit(event::Name::Data)?;
                t.exit(event::Name::ResourceDestinationString)?;
                Ok(State::Retry(names::ResourceDestinationEnd))
            } else if enclosed_fails(t) {
                Ok(State::Nok)
            } else if waits(t, b'\\') {
                t.consume();
                Ok(State::Next(Name::DestinationEnclosedEscape))
            } else {
                t.consume();
                Ok(State::Next(Name::DestinationEnclosed))
            }
        }
    }
}

/// Behind a backslash in a destination between `<` and `>`.
pub fn enclosed_escape<'a, M: MachineTypes>(t: &mut Tokenizer<'a, M>) -> Result<State, AllocError>
    requires { IsCallable text_byte enclosed_escape t.old }
    ensures { IfOk result (DoesAll (step_in text_byte enclosed_escape t.old) t.old t.new) }
{
    match t.current() {
        None => Ok(State::Nok),
        Some(_) => {
            if waits(t, b'\n') {
                Ok(State::Nok)
            } else {
                t.consume();
                Ok(State::Next(Name::DestinationEnclosed))
            }
        }
    }
}

/// At the `>` of a destination.
pub fn destination_end<'a, M: MachineTypes>(t: &mut Tokenizer<'a, M>) -> Result<State, AllocError>
    requires { IsCallable text_byte destination_end t.old }
    ensures { IfOk result (DoesAll (step_in text_byte destination_end t.old) t.old t.new) }
{
    match t.current() {
        None => Ok(State::Nok),
        Some(_) => {
            marker(t, event::Name::ResourceDestinationLiteralMarker)?;
            t.exit(event::Name::ResourceDestinationLiteral)?;
            t.exit(event::Name::ResourceDestination)?;
            Ok(State::Next(Name::LabelEndResourceDestinationAfter))
        }
    }
}

/// In a destination with no `<` and `>`.
pub fn raw<'a, M: MachineTypes>(t: &mut Tokenizer<'a, M>) -> Result<State, AllocError>
    requires { IsCallable text_byte raw t.old }
    ensures { IfOk result (DoesAll (step_in text_byte raw t.old) t.old t.new) }
{
    match t.current() {
        None => Ok(State::Nok),
        Some(_) => {
            if raw_ends(t) {
                if all_are_closed(t) {
                    t.exit(event::Name::Data)?;
                    t.exit(event::Name::ResourceDestinationString)?;
                    t.exit(event::Name::ResourceDestinationRaw)?;
                    t.exit(event::Name::ResourceDestination)?;
                    Ok(State::Retry(Name::LabelEndResourceDestinationAfter))
                } else {
                    Ok(State::Nok)
                }
            } else if is_too_deep(t) {
                Ok(State::Nok)
            } else if waits(t, b'(') {
                add_to_size_b(t);
                t.consume();
                Ok(State::Next(Name::DestinationRaw))
            } else if waits(t, b')') {
                take_from_size_b(t);
                t.consume();
                Ok(State::Next(Name::DestinationRaw))
            } else if waits(t, b'\\') {
                t.consume();
                Ok(State::Next(Name::DestinationRawEscape))
            } else {
                t.consume();
                Ok(State::Next(Name::DestinationRaw))
            }
        }
    }
}

/// Behind a backslash in a destination with no `<` and `>`.
pub fn raw_escape<'a, M: MachineTypes>(t: &mut Tokenizer<'a, M>) -> Result<State, AllocError>
    requires { IsCallable text_byte raw_escape t.old }
    ensures { IfOk result (DoesAll (step_in text_byte raw_escape t.old) t.old t.new) }
{
    match t.current() {
        None => Ok(State::Nok),
        Some(_) => {
            if ends_raw_waits(t) {
                if all_are_closed(t) {
                    t.exit(event::Name::Data)?;
                    t.exit(event::Name::ResourceDestinationString)?;
                    t.exit(event::Name::ResourceDestinationRaw)?;
                    t.exit(event::Name::ResourceDestination)?;
                    Ok(State::Retry(Name::LabelEndResourceDestinationAfter))
                } else {
                    Ok(State::Nok)
                }
            } else {
                t.consume();
                Ok(State::Next(Name::DestinationRaw))
            }
        }
    }
}

/// Behind a destination: a title may stand behind white space alone.
pub fn destination_after<'a, M: MachineTypes>(t: &mut Tokenizer<'a, M>) -> Result<State, AllocError>
    requires { IsCallable text_byte destination_after t.old }
    ensures { IfOk result (DoesAll (step_in text_byte destination_after t.old) t.old t.new) }
{
    match t.current() {
        None => Ok(State::Nok),
        Some(_) => {
            if gap_waits(t) {
                set_stands_before(t, 1);
                Ok(State::Retry(Name::LabelEndResourceBefore))
            } else {
                Ok(State::Retry(Name::LabelEndResourceEnd))
            }
        }
    }
}

/// In a resource, where a title may begin.
pub fn title_start<'a, M: MachineTypes>(t: &mut Tokenizer<'a, M>) -> Result<State, AllocError>
    requires { IsCallable text_byte title_start t.old }
    ensures { IfOk result (DoesAll (step_in text_byte title_start t.old) t.old t.new) }
{
    match t.current() {
        None => Ok(State::Nok),
        Some(_) => {
            if waits(t, b'"') {
                set_title_closes(t, 34);
                t.enter(event::Name::ResourceTitle)?;
                marker(t, event::Name::ResourceTitleMarker)?;
                Ok(State::Next(Name::TitleBegin))
            } else if waits(t, b'\'') {
                set_title_closes(t, 39);
                t.enter(event::Name::ResourceTitle)?;
                marker(t, event::Name::ResourceTitleMarker)?;
                Ok(State::Next(Name::TitleBegin))
            } else if waits(t, b'(') {
                set_title_closes(t, 41);
                t.enter(event::Name::ResourceTitle)?;
                marker(t, event::Name::ResourceTitleMarker)?;
                Ok(State::Next(Name::TitleBegin))
            } else {
                Ok(State::Retry(Name::LabelEndResourceEnd))
            }
        }
    }
}

/// Behind the first mark of a title.
pub fn title_begin<'a, M: MachineTypes>(t: &mut Tokenizer<'a, M>) -> Result<State, AllocError>
    requires { IsCallable text_byte title_begin t.old }
    ensures { IfOk result (DoesAll (step_in text_byte title_begin t.old) t.old t.new) }
{
    match t.current() {
        None => Ok(State::Nok),
        Some(_) => {
            if title_closes(t) {
                Ok(State::Retry(names::ResourceTitleEnd))
            } else if title_nests(t) {
                Ok(State::Nok)
            } else if waits(t, b'\n') {
                t.enter(event::Name::ResourceTitleString)?;
                marker(t, event::Name::LineEnding)?;
                Ok(State::Next(Name::TitleAfterEol))
            } else if waits(t, b'\\') {
                t.enter(event::Name::ResourceTitleString)?;
                t.enter(event::Name::Data)?;
                t.consume();
                Ok(State::Next(Name::TitleEscape))
            } else {
                t.enter(event::Name::ResourceTitleString)?;
                t.enter(event::Name::Data)?;
                t.consume();
                Ok(State::Next(Name::TitleInside))
            }
        }
    }
}

/// In a line of a title.
pub fn title_inside<'a, M: MachineTypes>(t: &mut Tokenizer<'a, M>) -> Result<State, AllocError>
    requires { IsCallable text_byte title_inside t.old }
    ensures { IfOk result (DoesAll (step_in text_byte title_inside t.old) t.old t.new) }
{
    match t.current() {
        None => Ok(State::Nok),
        Some(_) => {
            if title_closes(t) {
                t.exit(event::Name::Data)?;
                t.exit(event::Name::ResourceTitleString)?;
                Ok(State::Retry(names::ResourceTitleEnd))
            } else if title_nests(t) {
                Ok(State::Nok)
            } else if waits(t, b'\n') {
                t.exit(event::Name::Data)?;
                marker(t, event::Name::LineEnding)?;
                Ok(State::Next(Name::TitleAfterEol))
            } else if waits(t, b'\\') {
                t.consume();
                Ok(State::Next(Name::TitleEscape))
            } else {
                t.consume();
                Ok(State::Next(Name::TitleInside))
            }
        }
    }
}

/// Behind a backslash in a title.
pub fn title_escape<'a, M: MachineTypes>(t: &mut Tokenizer<'a, M>) -> Result<State, AllocError>
    requires { IsCallable text_byte title_escape t.old }
    ensures { IfOk result (DoesAll (step_in text_byte title_escape t.old) t.old t.new) }
{
    match t.current() {
        None => Ok(State::Nok),
        Some(_) => {
            if waits(t, b'\n') {
                t.exit(event::Name::Data)?;
                marker(t, event::Name::LineEnding)?;
                Ok(State::Next(Name::TitleAfterEol))
            } else {
                t.consume();
                Ok(State::Next(Name::TitleInside))
            }
        }
    }
}

/// Behind a line ending in a title.
pub fn title_line<'a, M: MachineTypes>(t: &mut Tokenizer<'a, M>) -> Result<State, AllocError>
    requires { IsCallable text_byte title_line t.old }
    ensures { IfOk result (DoesAll (step_in text_byte title_line t.old) t.old t.new) }
{
    match t.current() {
        None => Ok(State::Nok),
        Some(_) => {
            if title_closes(t) {
                t.exit(event::Name::ResourceTitleString)?;
                Ok(State::Retry(names::ResourceTitleEnd))
            } else if title_nests(t) {
                Ok(State::Nok)
            } else if waits(t, b'\n') {
                Ok(State::Nok)
            } else if white_waits(t) {
                t.enter(event::Name::SpaceOrTab)?;
                t.consume();
                Ok(State::Next(names::ResourceTitleWhite))
            } else if waits(t, b'\\') {
                t.enter(event::Name::Data)?;
                t.consume();
                Ok(State::Next(Name::TitleEscape))
            } else {
                t.enter(event::Name::Data)?;
                t.consume();
                Ok(State::Next(Name::TitleInside))
            }
        }
    }
}

/// In white space behind a line ending in a title.
pub fn title_white<'a, M: MachineTypes>(t: &mut Tokenizer<'a, M>) -> Result<State, AllocError>
    requires { IsCallable text_byte title_white t.old }
    ensures { IfOk result (DoesAll (step_in text_byte title_white t.old) t.old t.new) }
{
    match t.current() {
        None => Ok(State::Nok),
        Some(_) => {
            if title_closes(t) {
                t.exit(event::Name::SpaceOrTab)?;
                t.exit(event::Name::ResourceTitleString)?;
                Ok(State::Retry(names::ResourceTitleEnd))
            } else if title_nests(t) {
                Ok(State::Nok)
            } else if waits(t, b'\n') {
                Ok(State::Nok)
            } else if white_waits(t) {
                t.consume();
                Ok(State::Next(names::ResourceTitleWhite))
            } else if waits(t, b'\\') {
                t.exit(event::Name::SpaceOrTab)?;
                t.enter(event::Name::Data)?;
                t.consume();
                Ok(State::Next(Name::TitleEscape))
            } else {
                t.exit(event::Name::SpaceOrTab)?;
                t.enter(event::Name::Data)?;
                t.consume();
                Ok(State::Next(Name::TitleInside))
            }
        }
    }
}

/// At the last mark of a title.
pub fn title_end<'a, M: MachineTypes>(t: &mut Tokenizer<'a, M>) -> Result<State, AllocError>
    requires { IsCallable text_byte title_end t.old }
    ensures { IfOk result (DoesAll (step_in text_byte title_end t.old) t.old t.new) }
{
    match t.current() {
        None => Ok(State::Nok),
        Some(_) => {
            set_stands_before(t, 2);
            marker(t, event::Name::ResourceTitleMarker)?;
            t.exit(event::Name::ResourceTitle)?;
            Ok(State::Next(Name::LabelEndResourceBefore))
        }
    }
}

/// At the end of a resource.
pub fn resource_end<'a, M: MachineTypes>(t: &mut Tokenizer<'a, M>) -> Result<State, AllocError>
    requires { IsCallable text_byte resource_end t.old }
    ensures { IfOk result (DoesAll (step_in text_byte resource_end t.old) t.old t.new) }
{
    match t.current() {
        None => Ok(State::Nok),
        Some(_) => {
            if waits(t, b')') {
                marker(t, event::Name::ResourceMarker)?;
                t.exit(event::Name::Resource)?;
                Ok(State::Ok)
            } else {
                Ok(State::Nok)
            }
        }
    }
}

/// Whether this byte waits.
fn waits<'a, M: MachineTypes>(t: &Tokenizer<'a, M>, byte: u8) -> bool
    ensures { result ≡ waits byte t.now.given (sight_of t.now) t.now.configuration }
{
    match t.current() {
        None => false,
        Some(current) => current == byte,
    }
}

/// A space or a tab.
fn is_white(byte: u8) -> bool
    ensures { result ≡ is_white byte }
{
    byte == b' ' || byte == b'\t'
}

/// White space or a control character, but not NUL, which is U+FFFD.
fn ends_raw(byte: u8) -> bool
    ensures { result ≡ ends_raw byte }
{
    byte >= 1 && byte <= b' ' || byte == 127
}

/// Whether a space or a tab waits.
fn white_waits<'a, M: MachineTypes>(t: &Tokenizer<'a, M>) -> bool
    ensures { result ≡ shows is_white t.now.given (sight_of t.now) t.now.configuration }
{
    match t.current() {
        None => false,
        Some(byte) => is_white(byte),
    }
}

/// Whether white space waits, or a line ending.
fn gap_waits<'a, M: MachineTypes>(t: &Tokenizer<'a, M>) -> bool
    ensures { result ≡ shows is_gap_byte t.now.given (sight_of t.now) t.now.configuration }
{
    match t.current() {
        None => false,
        Some(byte) => is_white(byte) || byte == b'\n',
    }
}

/// Whether white space or a control character waits.
fn ends_raw_waits<'a, M: MachineTypes>(t: &Tokenizer<'a, M>) -> bool
    ensures { result ≡ shows ends_raw t.now.given (sight_of t.now) t.now.configuration }
{
    match t.current() {
        None => false,
        Some(byte) => ends_raw(byte),
    }
}

/// Whether a byte waits that a destination between `<` and `>` may not have.
fn enclosed_fails<'a, M: MachineTypes>(t: &Tokenizer<'a, M>) -> bool
    ensures { result ≡ shows is_not_enclosed t.now.given (sight_of t.now) t.now.configuration }
{
    match t.current() {
        None => false,
        Some(byte) => byte == b'<' || byte == b'\n',
    }
}

/// Whether no parenthesis of a destination is open.
fn all_are_closed<'a, M: MachineTypes>(t: &Tokenizer<'a, M>) -> bool
    ensures { result ≡ all_are_closed t.now.given (sight_of t.now) t.now.configuration }
{
    t.tokenize_state.size_b == 0
}

/// Whether a destination with no `<` and `>` ends at the byte that waits.
fn raw_ends<'a, M: MachineTypes>(t: &Tokenizer<'a, M>) -> bool
    ensures { result ≡ raw_ends t.now.given (sight_of t.now) t.now.configuration }
{
    match t.current() {
        None => false,
        Some(byte) => ends_raw(byte) || byte == b')' && t.tokenize_state.size_b == 0,
    }
}

/// Whether a parenthesis waits, and no more may be open in a destination.
fn is_too_deep<'a, M: MachineTypes>(t: &Tokenizer<'a, M>) -> bool
    ensures { result ≡ is_too_deep t.now.given (sight_of t.now) t.now.configuration }
{
    match t.current() {
        None => false,
        Some(byte) => byte == b'(' && t.tokenize_state.size_b >= DEPTH_MAX,
    }
}

/// Whether the mark waits that closes the title.
fn title_closes<'a, M: MachineTypes>(t: &Tokenizer<'a, M>) -> bool
    ensures { result ≡ title_closes t.now.given (sight_of t.now) t.now.configuration }
{
    match t.current() {
        None => false,
        Some(byte) => byte == t.tokenize_state.marker,
    }
}

/// Whether a parenthesis waits in a title in parentheses.
fn title_nests<'a, M: MachineTypes>(t: &Tokenizer<'a, M>) -> bool
    ensures { result ≡ title_nests t.now.given (sight_of t.now) t.now.configuration }
{
    match t.current() {
        None => false,
        Some(byte) => byte == b'(' && t.tokenize_state.marker == b')',
    }
}

/// Whether white space stands before what has this number: 0 is a destination, 1 a title, and 2 the end.
fn is_before<'a, M: MachineTypes>(t: &Tokenizer<'a, M>, number: u8) -> bool
    ensures { result ≡ is_before number t.now.given (sight_of t.now) t.now.configuration }
{
    t.tokenize_state.marker_b == number
}

/// Keeps the number of what white space stands before.
fn set_stands_before<'a, M: MachineTypes>(t: &mut Tokenizer<'a, M>, number: u8)
    ensures { t.new ≡ at_configuration t.old (with_local t.old.configuration (stands_before_is number t.old.configuration)) }
{
    t.tokenize_state.marker_b = number;
}

/// Keeps the mark that closes a title.
fn set_title_closes<'a, M: MachineTypes>(t: &mut Tokenizer<'a, M>, mark: u8)
    ensures { t.new ≡ at_configuration t.old (with_local t.old.configuration (title_closes_with mark t.old.configuration)) }
{
    t.tokenize_state.marker = mark;
}

/// Counts one parenthesis less.
fn take_from_size_b<'a, M: MachineTypes>(t: &mut Tokenizer<'a, M>)
    ensures { t.new ≡ at_configuration t.old (with_local t.old.configuration (size_b_falls t.old.configuration)) }
{
    t.tokenize_state.size_b = t.tokenize_state.size_b.saturating_sub(1);
}
