//! The machine of paragraphs: adjacent lines are a paragraph. Each line is a chunk of text, linked to the chunk before. A
//! line may begin with a quote mark.

ghost use Rattle.std.specs.Prelude.{IfOk};
ghost use Rattle.mdconstructs_tables.specs.RowInvariant.{DoesAll, IsCallable, step_in};
ghost use Rattle.mdconstructs_tables.specs.Tables.{line_byte};
ghost use Rattle.mdconstructs_tables.specs.Paragraphs.{flow_start, paragraph_line_start, paragraph_start, paragraph_inside, CanLinkChunk};

use crate::begin::begin;
use crate::reading::{data_inside, data_start};
use markdown_tokenizer::event::{self, Content, Link};
use markdown_tokenizer::state::{Machine, MachineTypes, Name, State};
use markdown_tokenizer::subtokenize::Subresult;
use markdown_tokenizer::tokenizer::{Fault, Tokenizer};
use mdconstructs_tables::answers::exit_to;
use mdconstructs_tables::chunks::{connect, disconnect, is_connected, link_chunk};
use mdconstructs_tables::marker;
use std::alloc::{AllocError, Global};

/// The link of a chunk before its neighbours in the chain are known.
const CHUNK: Link = Link {
    previous: None,
    next: None,
    content: Content::Text,
};

/// Reads adjacent lines as a paragraph. Each line, without a quote mark at its beginning, is a chunk of text: data that holds
/// the line ending too, linked to the chunk of the line before. From `TextStart` it reads each line as data; so it reads the
/// joined text of a paragraph's chunks.
///
/// It takes at most 4 n + 3 calls for n virtual bytes, and 2 n + 2 from `TextStart`.
#[derive(Drop)]
pub struct Paragraphs {}

impl MachineTypes for Paragraphs {
    type Resolver = ();

    type Document = ();
}

impl Machine for Paragraphs {
    ghost use Rattle.mdconstructs_tables.proofs.Tables.Lawful.{knowing-lawful};
    ghost use Rattle.mdconstructs_tables.specs.Paragraphs.{paragraphs, knows_chunk, paragraphs_rules};
    ghost use Rattle.mdconstructs_tables.proofs.Paragraphs.{paragraphs-fit, paragraphs-known};

    ghost rules = { λ _. paragraphs_rules };

    /// Counts the call, and runs the state of this name.
    #[tactic(auto, using(crate::proofs::RowSteps::paragraphs_called))]
    fn call<'a>(
        &self,
        alloc: Global,
        t: &mut Tokenizer<'a, Self>,
        name: Name,
    ) -> Result<State, AllocError> {
        begin(t);
        match name {
            Name::FlowStart => flow_start(t),
            Name::ParagraphLineStart => paragraph_line_start(t),
            Name::ParagraphStart => paragraph_start(t),
            Name::ParagraphInside => paragraph_inside(t),
            Name::TextStart => Ok(State::Retry(Name::DataStart)),
            Name::DataStart => data_start(t),
            Name::DataInside => data_inside(t),
            _ => unreachable!(),
        }
    }

    /// Never called, as it registers no resolver.
    fn resolve<'a>(
        &self,
        alloc: Global,
        t: &mut Tokenizer<'a, Self>,
        name: (),
    ) -> Result<Option<Subresult>, Fault> {
        Ok(None)
    }

    ghost lawful = { λ _ g. knowing-lawful paragraphs knows_chunk g paragraphs-fit paragraphs-known };
}

/// State before a paragraph: passes a blank line; at any other line the paragraph begins. Returns `AllocError` if it
/// runs out of memory, as each state.
pub fn flow_start<'a, M: MachineTypes>(t: &mut Tokenizer<'a, M>) -> Result<State, AllocError>
    requires { IsCallable line_byte flow_start t.old }
    ensures { IfOk result (DoesAll (step_in line_byte flow_start t.old) t.old t.new) }
{
    match t.current() {
        None => Ok(State::Ok),
        Some(b'\n') => {
            marker(t, event::Name::BlankLineEnding)?;
            Ok(State::Next(Name::FlowStart))
        }
        Some(_) => {
            t.enter(event::Name::Paragraph)?;
            disconnect(t);
            Ok(State::Retry(Name::ParagraphLineStart))
        }
    }
}

/// State before a line of a paragraph: a blank line ends the paragraph.
pub fn paragraph_line_start<'a, M: MachineTypes>(
    t: &mut Tokenizer<'a, M>,
) -> Result<State, AllocError>
    requires { IsCallable line_byte paragraph_line_start t.old }
    ensures { IfOk result (DoesAll (step_in line_byte paragraph_line_start t.old) t.old t.new) }
{
    match t.current() {
        None => exit_to(t, event::Name::Paragraph, State::Retry(Name::FlowStart)),
        Some(b'\n') => exit_to(t, event::Name::Paragraph, State::Retry(Name::FlowStart)),
        Some(b'>') => {
            marker(t, event::Name::BlockQuoteMarker)?;
            Ok(State::Next(Name::ParagraphStart))
        }
        Some(_) => Ok(State::Retry(Name::ParagraphStart)),
    }
}

/// State before the chunk of a line. The chunk is linked to the previous one of the paragraph.
pub fn paragraph_start<'a, M: MachineTypes>(t: &mut Tokenizer<'a, M>) -> Result<State, AllocError>
    requires called { IsCallable line_byte paragraph_start t.old }
    requires chunk { CanLinkChunk t.old }
    ensures { IfOk result (DoesAll (step_in line_byte paragraph_start t.old) t.old t.new) }
{
    match t.current() {
        None => Ok(State::Retry(Name::ParagraphLineStart)),
        Some(_) => {
            t.enter_link(event::Name::Data, CHUNK)?;
            if is_connected(t) {
                link_chunk(t);
            }
            connect(t);
            Ok(State::Retry(Name::ParagraphInside))
        }
    }
}

/// State in a chunk, which ends with its line ending.
pub fn paragraph_inside<'a, M: MachineTypes>(t: &mut Tokenizer<'a, M>) -> Result<State, AllocError>
    requires { IsCallable line_byte paragraph_inside t.old }
    ensures { IfOk result (DoesAll (step_in line_byte paragraph_inside t.old) t.old t.new) }
{
    match t.current() {
        None => {
            t.exit(event::Name::Data)?;
            Ok(State::Retry(Name::ParagraphLineStart))
        }
        Some(b'\n') => {
            t.consume();
            t.exit(event::Name::Data)?;
            Ok(State::Next(Name::ParagraphLineStart))
        }
        Some(_) => {
            t.consume();
            Ok(State::Next(Name::ParagraphInside))
        }
    }
}
