//! The machine of lines: each line is a paragraph of data, with line endings between them.

ghost use Rattle.std.specs.Prelude.{IfOk};
ghost use Rattle.mdconstructs_tables.specs.RowInvariant.{DoesAll, IsCallable, step_in};
ghost use Rattle.mdconstructs_tables.specs.Tables.{line_byte};
ghost use Rattle.mdconstructs_machines.specs.Lines.{flow_start, paragraph_inside};

use crate::begin::begin;
use markdown_tokenizer::event;
use markdown_tokenizer::state::{Machine, MachineTypes, Name, State};
use markdown_tokenizer::subtokenize::Subresult;
use markdown_tokenizer::tokenizer::{Fault, Tokenizer};
use mdconstructs_tables::marker;
use std::alloc::{AllocError, Global};

/// Reads each line as a paragraph of data.
///
/// It takes at most 2 n + 1 calls for n virtual bytes.
#[derive(Drop)]
pub struct Lines {}

impl MachineTypes for Lines {
    type Resolver = ();

    type Document = ();
}

impl Machine for Lines {
    ghost use Rattle.mdconstructs_tables.proofs.Tables.Lawful.{plain-lawful};
    ghost use Rattle.mdconstructs_machines.specs.Lines.{lines, lines_rules};
    ghost use Rattle.mdconstructs_machines.specs.Laws.Lines.{lines-fit, lines-plain};

    ghost rules = { λ _. lines_rules };

    /// Counts the call, and runs the state of this name.
    #[tactic(auto, using(crate::proofs::RowSteps::lines_called))]
    fn call<'a>(
        &self,
        alloc: Global,
        t: &mut Tokenizer<'a, Self>,
        name: Name,
    ) -> Result<State, AllocError> {
        begin(t);
        match name {
            Name::FlowStart => flow_start(t),
            Name::ParagraphInside => paragraph_inside(t),
            _ => unreachable!(),
        }
    }

    /// Never called, as it registers no resolver.
    fn resolve<'a>(
        &self,
        alloc: Global,
        t: &mut Tokenizer<'a, Self>,
        name: (),
    ) -> Result<Option<Subresult>, Fault> {
        Ok(None)
    }

    ghost lawful = { λ _ g. plain-lawful lines g lines-fit lines-plain };
}

/// A line begins.
fn flow_start<'a>(t: &mut Tokenizer<'a, Lines>) -> Result<State, AllocError>
    requires { IsCallable line_byte flow_start t.old }
    ensures { IfOk result (DoesAll (step_in line_byte flow_start t.old) t.old t.new) }
{
    match t.current() {
        None => Ok(State::Ok),
        Some(b'\n') => {
            marker(t, event::Name::LineEnding)?;
            Ok(State::Next(Name::FlowStart))
        }
        Some(_) => {
            t.enter(event::Name::Paragraph)?;
            t.enter(event::Name::Data)?;
            Ok(State::Retry(Name::ParagraphInside))
        }
    }
}

/// In a line.
fn paragraph_inside<'a>(t: &mut Tokenizer<'a, Lines>) -> Result<State, AllocError>
    requires { IsCallable line_byte paragraph_inside t.old }
    ensures { IfOk result (DoesAll (step_in line_byte paragraph_inside t.old) t.old t.new) }
{
    match t.current() {
        None => {
            t.exit(event::Name::Data)?;
            t.exit(event::Name::Paragraph)?;
            Ok(State::Ok)
        }
        Some(b'\n') => {
            t.exit(event::Name::Data)?;
            t.exit(event::Name::Paragraph)?;
            Ok(State::Retry(Name::FlowStart))
        }
        Some(_) => {
            t.consume();
            Ok(State::Next(Name::ParagraphInside))
        }
    }
}
