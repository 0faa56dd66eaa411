//! A machine with a choice directly behind an enter: what is tried first in a span is undone if it fails, and the span stays.

ghost use Rattle.std.specs.Prelude.{◌+◌, ◌*◌, IfOk};
ghost use Rattle.markdown.specs.StateConstants.Name.{TextStart};
ghost use Rattle.mdconstructs_machines.specs.Costs.{StartsAt};
ghost use Rattle.mdconstructs_tables.specs.RowInvariant.{DoesAll, IsCallable, step_in};
ghost use Rattle.mdconstructs_tables.specs.Tables.{line_byte};
ghost use Rattle.mdtests_tables.specs.Behind.{behind_rules, data_inside, data_start, paragraph_inside, text_start};

use crate::shown::assert_shown;
use markdown::event;
use markdown::state::{Machine, MachineTypes, Name, State};
use markdown::subtokenize::Subresult;
use markdown::tokenizer::{Fault, Tokenizer};
use mdconstructs_machines::begin::begin;
use mdconstructs_tables::marker;
use mdtests_base::documents::lines_by;
use std::alloc::{AllocError, Global};

/// Reads each line as a paragraph. Its first byte is data if another byte of the line follows.
///
/// It takes at most 5 n + 4 calls for n virtual bytes.
#[derive(Drop)]
pub struct Behind {}

impl MachineTypes for Behind {
    type Resolver = ();

    type Document = ();
}

impl Machine for Behind {
    ghost use Rattle.mdconstructs_tables.proofs.Tables.Lawful.{plain-lawful};
    ghost use Rattle.mdtests_tables.specs.Behind.{behind, behind_rules};
    ghost use Rattle.mdtests_tables.specs.Laws.Behind.{behind-fit, behind-plain};

    ghost rules = { λ _. behind_rules };

    fn call<'a>(
        &self,
        alloc: Global,
        t: &mut Tokenizer<'a, Self>,
        name: Name,
    ) -> Result<State, AllocError> {
        begin(t);
        match name {
            Name::TextStart => text_start(t),
            Name::DataStart => data_start(t),
            Name::DataInside => data_inside(t),
            Name::ParagraphInside => paragraph_inside(t),
            _ => unreachable!(),
        }
    }

    /// Never called, as it registers no resolver.
    fn resolve<'a>(
        &self,
        alloc: Global,
        t: &mut Tokenizer<'a, Self>,
        name: (),
    ) -> Result<Option<Subresult>, Fault> {
        Ok(None)
    }

    ghost lawful = { λ _ g. plain-lawful behind g behind-fit behind-plain };
}

/// Before a line: a paragraph begins, and its data is tried.
fn text_start<'a>(t: &mut Tokenizer<'a, Behind>) -> Result<State, AllocError>
    requires { IsCallable line_byte text_start t.old }
    ensures { IfOk result (DoesAll (step_in line_byte text_start t.old) t.old t.new) }
{
    match t.current() {
        None => Ok(State::Ok),
        Some(b'\n') => {
            marker(t, event::Name::LineEnding)?;
            Ok(State::Next(Name::TextStart))
        }
        Some(_) => {
            t.enter(event::Name::Paragraph)?;
            t.attempt(
                State::Next(Name::ParagraphInside),
                State::Next(Name::ParagraphInside),
            )?;
            Ok(State::Retry(Name::DataStart))
        }
    }
}

/// In the attempt: a byte of data.
fn data_start<'a>(t: &mut Tokenizer<'a, Behind>) -> Result<State, AllocError>
    requires { IsCallable line_byte data_start t.old }
    ensures { IfOk result (DoesAll (step_in line_byte data_start t.old) t.old t.new) }
{
    marker(t, event::Name::Data)?;
    Ok(State::Next(Name::DataInside))
}

/// Behind the data: it stays if another byte of the line follows.
fn data_inside<'a>(t: &mut Tokenizer<'a, Behind>) -> Result<State, AllocError>
    requires { IsCallable line_byte data_inside t.old }
    ensures { IfOk result (DoesAll (step_in line_byte data_inside t.old) t.old t.new) }
{
    match t.current() {
        None | Some(b'\n') => Ok(State::Nok),
        Some(_) => Ok(State::Ok),
    }
}

/// In a paragraph.
fn paragraph_inside<'a>(t: &mut Tokenizer<'a, Behind>) -> Result<State, AllocError>
    requires { IsCallable line_byte paragraph_inside t.old }
    ensures { IfOk result (DoesAll (step_in line_byte paragraph_inside t.old) t.old t.new) }
{
    match t.current() {
        None => {
            t.exit(event::Name::Paragraph)?;
            Ok(State::Ok)
        }
        Some(b'\n') => {
            t.exit(event::Name::Paragraph)?;
            Ok(State::Retry(Name::TextStart))
        }
        Some(_) => {
            t.consume();
            Ok(State::Next(Name::ParagraphInside))
        }
    }
}

/// It takes five calls for each byte, and four more.
pub fn behind_takes_five_calls_a_byte()
    ensures { StartsAt behind_rules TextStart (λ n. 5 * n + 4) }
{}

/// The data of a line of one byte is taken back, and its paragraph stays, however the document is cut.
#[test]
fn attempts_stand_behind_enters(rt: HostRuntime) {
    let want = "enter Paragraph 1:1 (0+0); Data 1:1 (0+0) to 1:2 (1+0); exit Paragraph 1:3 (2+0); \
        LineEnding 1:3 (2+0) to 2:1 (3+0); Paragraph 2:1 (3+0) to 2:2 (4+0)";
    for cut in 1..4 {
        let read = lines_by(
            rt.alloc(),
            &Behind {},
            Name::TextStart,
            b"ab\nc",
            cut,
            false,
        );
        assert_shown(&rt, read, want);
    }
}
