//! The machine of texts: paragraphs, and in their text constructs, with plain data and line endings between them. Each construct
//! has its own file: code spans, autolinks and backslash escapes.

ghost use Rattle.std.specs.Prelude.{◌≡◌, IfOk};
ghost use Rattle.mdconstructs_tables.specs.RowInvariant.{DoesAll, IsCallable, step_in};
ghost use Rattle.mdinline_text_machine.specs.TextBytes.{text_byte};
ghost use Rattle.mdinline_text_machine.specs.TextRules.{text_rules};
ghost use Rattle.mdinline_text_machine.specs.TextTable.{text_start, text_before, text_before_data, data_at_break, data_inside};

use crate::autolink::{
    autolink_open, autolink_scheme, autolink_start, autolink_url, autolinks_are_on,
};
use crate::code_span::{
    code_spans_are_on, raw_text_after, raw_text_backticks_inside, raw_text_backticks_start,
    raw_text_between, raw_text_data, raw_text_sequence_close, raw_text_sequence_open,
    raw_text_start,
};
use crate::escape::{escape_inside, escape_start, escapes_are_on};
use crate::names;
use markdown_tokenizer::event;
use markdown_tokenizer::state::{Machine, MachineTypes, Name, State};
use markdown_tokenizer::subtokenize::Subresult;
use markdown_tokenizer::tokenizer::{Fault, Tokenizer};
use mdconstructs_machines::begin::begin;
use mdconstructs_machines::paragraphs::{
    flow_start, paragraph_inside, paragraph_line_start, paragraph_start,
};
use mdconstructs_tables::marker;
use std::alloc::{AllocError, Global};

/// Reads paragraphs as `Paragraphs` does. From `TextStart` it reads code spans, autolinks and backslash escapes if they are on,
/// line endings, and all else as data. So it reads the joined text of a paragraph's chunks.
///
/// It takes at most 4 n + 3 calls for n virtual bytes, and 4 n n + 9 n + 2 from `TextStart`.
#[derive(Drop)]
pub struct Text {}

impl MachineTypes for Text {
    type Resolver = ();

    type Document = ();
}

impl Machine for Text {
    ghost use Rattle.mdinline_text_machine.specs.Laws.Rules.{text-lawful};

    ghost rules = { λ _. text_rules };

    /// Calls the state of this name.
    fn call<'a>(
        &self,
        alloc: Global,
        t: &mut Tokenizer<'a, Self>,
        name: Name,
    ) -> Result<State, AllocError> {
        begin(t);
        // The names are the Rust crate's and those of `names`.
        match name {
            Name::FlowStart => flow_start(t),
            Name::ParagraphLineStart => paragraph_line_start(t),
            Name::ParagraphStart => paragraph_start(t),
            Name::ParagraphInside => paragraph_inside(t),
            Name::TextStart => text_start(t),
            Name::TextBefore => text_before(t),
            Name::TextBeforeData => text_before_data(t),
            Name::DataAtBreak => data_at_break(t),
            Name::DataInside => data_inside(t),
            Name::RawTextStart => raw_text_start(t),
            Name::RawTextSequenceOpen => raw_text_sequence_open(t),
            Name::RawTextBetween => raw_text_between(t),
            Name::RawTextData => raw_text_data(t),
            Name::RawTextSequenceClose => raw_text_sequence_close(t),
            names::RawTextAfter => raw_text_after(t),
            names::RawTextBackticksStart => raw_text_backticks_start(t),
            names::RawTextBackticksInside => raw_text_backticks_inside(t),
            Name::AutolinkStart => autolink_start(t),
            Name::AutolinkOpen => autolink_open(t),
            Name::AutolinkSchemeInsideOrEmailAtext => autolink_scheme(t),
            Name::AutolinkUrlInside => autolink_url(t),
            Name::CharacterEscapeStart => escape_start(t),
            Name::CharacterEscapeInside => escape_inside(t),
            _ => unreachable!(),
        }
    }

    /// Never called, as it registers no resolver.
    fn resolve<'a>(
        &self,
        alloc: Global,
        t: &mut Tokenizer<'a, Self>,
        name: (),
    ) -> Result<Option<Subresult>, Fault> {
        Ok(None)
    }

    ghost lawful = { λ _. text-lawful };
}

/// Before a text.
fn text_start<'a>(t: &mut Tokenizer<'a, Text>) -> Result<State, AllocError>
    requires { IsCallable text_byte text_start t.old }
    ensures { IfOk result (DoesAll (step_in text_byte text_start t.old) t.old t.new) }
{
    Ok(State::Retry(Name::TextBefore))
}

/// Between constructs: tries one if it is on, or reads data.
fn text_before<'a>(t: &mut Tokenizer<'a, Text>) -> Result<State, AllocError>
    requires { IsCallable text_byte text_before t.old }
    ensures { IfOk result (DoesAll (step_in text_byte text_before t.old) t.old t.new) }
{
    match t.current() {
        None => Ok(State::Ok),
        Some(b'\n') => {
            marker(t, event::Name::LineEnding)?;
            Ok(State::Next(Name::TextBefore))
        }
        Some(b'`') => {
            if !code_spans_are_on(t) {
                return Ok(State::Retry(Name::TextBeforeData));
            }
            t.attempt(
                State::Next(Name::TextBefore),
                State::Next(Name::TextBeforeData),
            )?;
            Ok(State::Retry(Name::RawTextStart))
        }
        Some(b'<') => {
            if !autolinks_are_on(t) {
                return Ok(State::Retry(Name::TextBeforeData));
            }
            t.attempt(
                State::Next(Name::TextBefore),
                State::Next(Name::TextBeforeData),
            )?;
            Ok(State::Retry(Name::AutolinkStart))
        }
        Some(b'\\') => {
            if !escapes_are_on(t) {
                return Ok(State::Retry(Name::TextBeforeData));
            }
            t.attempt(
                State::Next(Name::TextBefore),
                State::Next(Name::TextBeforeData),
            )?;
            Ok(State::Retry(Name::CharacterEscapeStart))
        }
        Some(_) => Ok(State::Retry(Name::TextBeforeData)),
    }
}

/// At a byte of data: no construct is there.
pub fn text_before_data<'a, M: MachineTypes>(t: &mut Tokenizer<'a, M>) -> Result<State, AllocError>
    requires { IsCallable text_byte text_before_data t.old }
    ensures { IfOk result (DoesAll (step_in text_byte text_before_data t.old) t.old t.new) }
{
    match t.current() {
        Some(b'`') => {
            t.enter(event::Name::Data)?;
            Ok(State::Retry(Name::DataAtBreak))
        }
        _ => {
            t.enter(event::Name::Data)?;
            t.consume();
            Ok(State::Next(Name::DataInside))
        }
    }
}

/// In a backtick string that begins data.
pub fn data_at_break<'a, M: MachineTypes>(t: &mut Tokenizer<'a, M>) -> Result<State, AllocError>
    requires { IsCallable text_byte data_at_break t.old }
    ensures { IfOk result (DoesAll (step_in text_byte data_at_break t.old) t.old t.new) }
{
    match t.current() {
        Some(b'`') => {
            t.consume();
            Ok(State::Next(Name::DataAtBreak))
        }
        _ => Ok(State::Retry(Name::DataInside)),
    }
}

/// In data.
fn data_inside<'a>(t: &mut Tokenizer<'a, Text>) -> Result<State, AllocError>
    requires { IsCallable text_byte data_inside t.old }
    ensures { IfOk result (DoesAll (step_in text_byte data_inside t.old) t.old t.new) }
{
    match t.current() {
        None | Some(b'\n' | b'`' | b'<' | b'\\') => {
            t.exit(event::Name::Data)?;
            Ok(State::Retry(Name::TextBefore))
        }
        Some(_) => {
            t.consume();
            Ok(State::Next(Name::DataInside))
        }
    }
}
