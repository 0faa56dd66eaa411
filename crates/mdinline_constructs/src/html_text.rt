//! Raw HTML: its line endings, with the white space behind them.
//!
//! ```text
//! html        = data *(line_ending [white_space] data)
//! white_space = 1*(space / tab)
//! ```
//!
//! It holds no blank line. What it is made of otherwise, as tags, is in modules of its own: a state of theirs reads a line
//! ending, and keeps which state follows it.

ghost use Rattle.std.specs.Prelude.{◌≡◌, ◌==◌, IfOk};
ghost use Rattle.markdown_tokenizer.specs.Calls.{with_local};
ghost use Rattle.markdown_tokenizer.specs.Configuration.{at_configuration};
ghost use Rattle.markdown_tokenizer.specs.Sight.{sight_of};
ghost use Rattle.mdconstructs_tables.specs.RowInvariant.{DoesAll, IsCallable, step_in};
ghost use Rattle.mdconstructs_tables.specs.Rows.{picked, step_of};
ghost use Rattle.mdinline_text_machine.specs.TextBytes.{text_byte};
ghost use Rattle.mdinline_constructs.specs.HtmlTextRows.{CanEndHtml, CanEndHtmlLine, follows_line_ending, html_ends, html_is_on, html_line_ends, html_line_ending_after, html_line_ending_after_prefix};

use markdown_tokenizer::event;
use markdown_tokenizer::state::{MachineTypes, Name, State};
use markdown_tokenizer::tokenizer::Tokenizer;
use mdconstructs_tables::marker;
use std::alloc::AllocError;

/// Behind a line ending of raw HTML.
pub fn html_line_ending_after<'a, M: MachineTypes>(
    t: &mut Tokenizer<'a, M>,
) -> Result<State, AllocError>
    requires { IsCallable text_byte html_line_ending_after t.old }
    ensures { IfOk result (DoesAll (step_in text_byte html_line_ending_after t.old) t.old t.new) }
{
    match t.current() {
        None | Some(b'\n') => Ok(State::Nok),
        Some(b' ' | b'\t') => {
            t.enter(event::Name::SpaceOrTab)?;
            t.consume();
            Ok(State::Next(Name::HtmlTextLineEndingAfterPrefix))
        }
        Some(_) => {
            let closes = follows(t, 195);
            if closes {
                t.enter(event::Name::HtmlTextData)?;
                return Ok(State::Retry(Name::HtmlTextTagCloseBetween));
            }
            let opens = follows(t, 197);
            if opens {
                t.enter(event::Name::HtmlTextData)?;
                return Ok(State::Retry(Name::HtmlTextTagOpenBetween));
            }
            let named = follows(t, 199);
            if named {
                t.enter(event::Name::HtmlTextData)?;
                return Ok(State::Retry(Name::HtmlTextTagOpenAttributeNameAfter));
            }
            let valued = follows(t, 200);
            if valued {
                t.enter(event::Name::HtmlTextData)?;
                return Ok(State::Retry(Name::HtmlTextTagOpenAttributeValueBefore));
            }
            let quoted = follows(t, 201);
            if quoted {
                t.enter(event::Name::HtmlTextData)?;
                return Ok(State::Retry(Name::HtmlTextTagOpenAttributeValueQuoted));
            }
            Ok(State::Nok)
        }
    }
}

/// In the white space behind a line ending of raw HTML.
pub fn html_line_ending_after_prefix<'a, M: MachineTypes>(
    t: &mut Tokenizer<'a, M>,
) -> Result<State, AllocError>
    requires { IsCallable text_byte html_line_ending_after_prefix t.old }
    ensures { IfOk result (DoesAll (step_in text_byte html_line_ending_after_prefix t.old) t.old t.new) }
{
    match t.current() {
        None | Some(b'\n') => Ok(State::Nok),
        Some(b' ' | b'\t') => {
            t.consume();
            Ok(State::Next(Name::HtmlTextLineEndingAfterPrefix))
        }
        Some(_) => {
            let closes = follows(t, 195);
            if closes {
                t.exit(event::Name::SpaceOrTab)?;
                t.enter(event::Name::HtmlTextData)?;
                return Ok(State::Retry(Name::HtmlTextTagCloseBetween));
            }
            let opens = follows(t, 197);
            if opens {
                t.exit(event::Name::SpaceOrTab)?;
                t.enter(event::Name::HtmlTextData)?;
                return Ok(State::Retry(Name::HtmlTextTagOpenBetween));
            }
            let named = follows(t, 199);
            if named {
                t.exit(event::Name::SpaceOrTab)?;
                t.enter(event::Name::HtmlTextData)?;
                return Ok(State::Retry(Name::HtmlTextTagOpenAttributeNameAfter));
            }
            let valued = follows(t, 200);
            if valued {
                t.exit(event::Name::SpaceOrTab)?;
                t.enter(event::Name::HtmlTextData)?;
                return Ok(State::Retry(Name::HtmlTextTagOpenAttributeValueBefore));
            }
            let quoted = follows(t, 201);
            if quoted {
                t.exit(event::Name::SpaceOrTab)?;
                t.enter(event::Name::HtmlTextData)?;
                return Ok(State::Retry(Name::HtmlTextTagOpenAttributeValueQuoted));
            }
            Ok(State::Nok)
        }
    }
}

/// At the last byte of raw HTML: reads it.
pub(crate) fn html_ends<'a, M: MachineTypes>(t: &mut Tokenizer<'a, M>) -> Result<State, AllocError>
    requires { CanEndHtml t.old }
    ensures { IfOk result (DoesAll (step_of (picked html_ends t.old.given (sight_of t.old) t.old.configuration) (sight_of t.old) t.old.configuration) t.old t.new) }
{
    t.consume();
    t.exit(event::Name::HtmlTextData)?;
    t.exit(event::Name::HtmlText)?;
    Ok(State::Ok)
}

/// At a line ending in raw HTML: reads it, and keeps the number of the state that follows.
pub(crate) fn html_line_ends<'a, M: MachineTypes>(
    t: &mut Tokenizer<'a, M>,
    number: u8,
) -> Result<State, AllocError>
    requires { CanEndHtmlLine t.old }
    ensures { IfOk result (DoesAll (step_of (picked (html_line_ends number) t.old.given (sight_of t.old) t.old.configuration) (sight_of t.old) t.old.configuration) t.old t.new) }
{
    t.exit(event::Name::HtmlTextData)?;
    marker(t, event::Name::LineEnding)?;
    set_following(t, number);
    Ok(State::Next(Name::HtmlTextLineEndingAfter))
}

/// Whether the state of a number follows the line ending.
fn follows<'a, M: MachineTypes>(t: &Tokenizer<'a, M>, number: u8) -> bool
    ensures { result ≡ (t.now.configuration.local.tokenize_state.marker_b == number) }
{
    t.tokenize_state.marker_b == number
}

/// Keeps the number of the state that follows a line ending.
fn set_following<'a, M: MachineTypes>(t: &mut Tokenizer<'a, M>, number: u8)
    ensures { t.new ≡ at_configuration t.old (with_local t.old.configuration (follows_line_ending number t.old.configuration)) }
{
    t.tokenize_state.marker_b = number;
}

/// Whether raw HTML is on.
pub fn html_is_on<'a, M: MachineTypes>(t: &Tokenizer<'a, M>) -> bool
    ensures { result ≡ html_is_on t.now.given (sight_of t.now) t.now.configuration }
{
    t.parse_state().options.constructs.html_text
}
