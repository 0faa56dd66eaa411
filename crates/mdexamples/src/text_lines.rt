//! Content in content by a second type of machine: a machine whose resolver reads the chunks of its own events by another one.

ghost use Rattle.std.specs.Prelude.{◌≡◌, IfErr, IfOk, OnErr, OnOk, Some};
ghost use Rattle.markdown.specs.Engine.{given_by};
ghost use Rattle.markdown.specs.Ready.{IsReady};
ghost use Rattle.markdown.specs.Text.{IsDocument};
ghost use Rattle.mdconstructs.specs.ChainTexts.{with_texts};
ghost use Rattle.mdconstructs.specs.RowInvariant.{DoesAll, IsCallable, step_in};
ghost use Rattle.mdconstructs.specs.Tables.{line_byte};
ghost use Rattle.mdexamples.specs.TextLines.{flow_start, line_start, line_inside};

use markdown::configuration::ParseOptions;
use markdown::event::{self, Content, Event, Link};
use markdown::parser::ParseState;
use markdown::state::{Machine, MachineTypes, Name, State};
use markdown::subtokenize::{Subresult, subtokenize};
use markdown::tokenizer::{Fault, Tokenizer};
use mdconstructs::begin::begin;
use mdconstructs::{Text, marker};
use std::alloc::{AllocError, Global};

/// The resolver of the machine of lines of text.
#[derive(Clone, Copy, Debug, PartialEq, Eq)]
pub enum Resolver {
    /// Reads each line as text, by the machine [`Text`].
    ReadTexts,
}

/// Reads each line as a chunk of text, without its line ending. Then its resolver puts the events of that text in the place of the
/// chunk, read by another machine, [`Text`]. So no code span goes over a line ending.
///
/// It takes at most 2 n + 2 calls for n virtual bytes, without those of [`Text`].
#[derive(Drop)]
pub struct TextLines {}

impl MachineTypes for TextLines {
    type Resolver = Resolver;

    type Document = ();
}

impl Machine for TextLines {
    ghost use Rattle.mdexamples.specs.TextLines.{text_lines_rules};
    ghost use Rattle.mdexamples.specs.Laws.TextLines.{text-lines-lawful};

    ghost rules = { λ _. text_lines_rules };

    /// Counts the call, and runs the state of this name.
    fn call<'a>(
        &self,
        alloc: Global,
        t: &mut Tokenizer<'a, Self>,
        name: Name,
    ) -> Result<State, AllocError> {
        begin(t);
        match name {
            Name::FlowStart => flow_start(t),
            Name::ParagraphStart => line_start(t),
            Name::ParagraphInside => line_inside(t),
            _ => unreachable!(),
        }
    }

    /// Reads the chunks of its events by the other machine.
    fn resolve<'a>(
        &self,
        alloc: Global,
        t: &mut Tokenizer<'a, Self>,
        name: Resolver,
    ) -> Result<Option<Subresult>, Fault> {
        match name {
            Resolver::ReadTexts => {
                let state = t.parse_state();
                read_chunks(alloc, state.bytes, state.options, t.events_mut())?;
                Ok(None)
            }
        }
    }

    ghost lawful = { λ _ g. text-lines-lawful g };
}

/// Before anything is read: registers the resolver.
fn flow_start<'a>(t: &mut Tokenizer<'a, TextLines>) -> Result<State, AllocError>
    requires { IsCallable line_byte flow_start t.old }
    ensures { IfOk result (DoesAll (step_in line_byte flow_start t.old) t.old t.new) }
{
    t.register_resolver(Resolver::ReadTexts)?;
    Ok(State::Retry(Name::ParagraphStart))
}

/// Before a line, or its ending.
fn line_start<'a>(t: &mut Tokenizer<'a, TextLines>) -> Result<State, AllocError>
    requires { IsCallable line_byte line_start t.old }
    ensures { IfOk result (DoesAll (step_in line_byte line_start t.old) t.old t.new) }
{
    match t.current() {
        None => Ok(State::Ok),
        Some(b'\n') => {
            marker(t, event::Name::LineEnding)?;
            Ok(State::Next(Name::ParagraphStart))
        }
        Some(_) => {
            let chunk = Link {
                previous: None,
                next: None,
                content: Content::Text,
            };
            t.enter_link(event::Name::Data, chunk)?;
            t.consume();
            Ok(State::Next(Name::ParagraphInside))
        }
    }
}

/// In a line, which ends before its line ending.
fn line_inside<'a>(t: &mut Tokenizer<'a, TextLines>) -> Result<State, AllocError>
    requires { IsCallable line_byte line_inside t.old }
    ensures { IfOk result (DoesAll (step_in line_byte line_inside t.old) t.old t.new) }
{
    match t.current() {
        None | Some(b'\n') => {
            t.exit(event::Name::Data)?;
            Ok(State::Retry(Name::ParagraphStart))
        }
        Some(_) => {
            t.consume();
            Ok(State::Next(Name::ParagraphInside))
        }
    }
}

/// Replaces each chunk of text by what its chain is read as, by the machine [`Text`]. The only fault is `Memory`: it runs out of
/// memory, and then the events are as they were.
fn read_chunks(
    alloc: Global,
    bytes: &[u8],
    options: &ParseOptions,
    events: &mut Vec<Event>,
) -> Result<(), Fault>
    requires document { IsDocument (given_by bytes.now options.now) }
    requires ready { IsReady options.now.tab_size bytes.now (Some Content.Text) events.old.items }
    ensures ok { OnOk result (events.new.items ≡ with_texts (given_by bytes.now options.now) events.old.items) }
    ensures err { IfErr result (λ fault. fault ≡ Fault.Memory) }
    ensures unchanged { OnErr result (events.new.items ≡ events.old.items) }
{
    let texts = Text {};
    let Some(parse_state) = ParseState::new(bytes, options, &texts) else {
        unreachable!();
    };
    subtokenize(alloc, events, &parse_state, Some(&Content::Text))?;
    Ok(())
}
