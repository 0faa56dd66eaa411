//! A machine of four states, with a counter: headings, and lines of data.

ghost use Rattle.std.specs.Prelude.{◌≡◌, nat_lt, IfOk};
ghost use Rattle.markdown.specs.Calls.{with_local};
ghost use Rattle.markdown.specs.Configuration.{at_configuration};
ghost use Rattle.mdconstructs.specs.RowInvariant.{DoesAll, IsCallable, step_in};
ghost use Rattle.mdexamples.specs.Headings.{heading_byte, flow_start, sequence, heading_data, line_data, one_sign, one_sign_more};

use markdown::event;
use markdown::state::{Machine, MachineTypes, Name, State};
use markdown::subtokenize::Subresult;
use markdown::tokenizer::{Fault, Tokenizer};
use mdconstructs::begin::begin;
use mdconstructs::marker;
use std::alloc::{AllocError, Global};

/// Reads a line that begins with a number sign as a heading: up to six signs, and the rest of the line as data. Any other line is
/// data.
///
/// It takes at most 2 n + 1 calls for n virtual bytes.
#[derive(Drop)]
pub struct Headings {}

impl MachineTypes for Headings {
    type Resolver = ();

    type Document = ();
}

impl Machine for Headings {
    ghost use Rattle.mdconstructs_tables.proofs.Tables.Lawful.{writing-lawful};
    ghost use Rattle.mdexamples.specs.Headings.{headings, headings_rules};
    ghost use Rattle.mdexamples.specs.Laws.Headings.{headings-fit, headings-plain};

    ghost rules = { λ _. headings_rules };

    /// Counts the call, and runs the state of this name.
    #[tactic(auto, using(crate::proofs::Called::headings_called))]
    fn call<'a>(
        &self,
        alloc: Global,
        t: &mut Tokenizer<'a, Self>,
        name: Name,
    ) -> Result<State, AllocError> {
        begin(t);
        match name {
            Name::FlowStart => flow_start(t),
            Name::HeadingAtxSequenceOpen => sequence(t),
            Name::HeadingAtxData => heading_data(t),
            Name::DataInside => line_data(t),
            _ => unreachable!(),
        }
    }

    /// Never called, as it registers no resolver.
    fn resolve<'a>(
        &self,
        alloc: Global,
        t: &mut Tokenizer<'a, Self>,
        name: (),
    ) -> Result<Option<Subresult>, Fault> {
        Ok(None)
    }

    ghost lawful = { λ _ g. writing-lawful headings g headings-fit headings-plain };
}

/// Before a line.
fn flow_start<'a>(t: &mut Tokenizer<'a, Headings>) -> Result<State, AllocError>
    requires { IsCallable heading_byte flow_start t.old }
    ensures { IfOk result (DoesAll (step_in heading_byte flow_start t.old) t.old t.new) }
{
    match t.current() {
        None => Ok(State::Ok),
        Some(b'\n') => {
            marker(t, event::Name::LineEnding)?;
            Ok(State::Next(Name::FlowStart))
        }
        Some(b'#') => {
            t.enter(event::Name::HeadingAtx)?;
            t.enter(event::Name::HeadingAtxSequence)?;
            count_one(t);
            t.consume();
            Ok(State::Next(Name::HeadingAtxSequenceOpen))
        }
        Some(_) => {
            t.enter(event::Name::Data)?;
            t.consume();
            Ok(State::Next(Name::DataInside))
        }
    }
}

/// In the number signs of a heading. There are at most six.
fn sequence<'a>(t: &mut Tokenizer<'a, Headings>) -> Result<State, AllocError>
    requires { IsCallable heading_byte sequence t.old }
    ensures { IfOk result (DoesAll (step_in heading_byte sequence t.old) t.old t.new) }
{
    match t.current() {
        None => {
            t.exit(event::Name::HeadingAtxSequence)?;
            t.exit(event::Name::HeadingAtx)?;
            Ok(State::Ok)
        }
        Some(b'\n') => {
            t.exit(event::Name::HeadingAtxSequence)?;
            t.exit(event::Name::HeadingAtx)?;
            Ok(State::Retry(Name::FlowStart))
        }
        Some(b'#') => {
            if has_room(t) {
                count_one_more(t);
                t.consume();
                return Ok(State::Next(Name::HeadingAtxSequenceOpen));
            }
            t.exit(event::Name::HeadingAtxSequence)?;
            t.enter(event::Name::Data)?;
            t.consume();
            Ok(State::Next(Name::HeadingAtxData))
        }
        Some(_) => {
            t.exit(event::Name::HeadingAtxSequence)?;
            t.enter(event::Name::Data)?;
            t.consume();
            Ok(State::Next(Name::HeadingAtxData))
        }
    }
}

/// In the data of a heading.
fn heading_data<'a>(t: &mut Tokenizer<'a, Headings>) -> Result<State, AllocError>
    requires { IsCallable heading_byte heading_data t.old }
    ensures { IfOk result (DoesAll (step_in heading_byte heading_data t.old) t.old t.new) }
{
    match t.current() {
        None => {
            t.exit(event::Name::Data)?;
            t.exit(event::Name::HeadingAtx)?;
            Ok(State::Ok)
        }
        Some(b'\n') => {
            t.exit(event::Name::Data)?;
            t.exit(event::Name::HeadingAtx)?;
            Ok(State::Retry(Name::FlowStart))
        }
        Some(_) => {
            t.consume();
            Ok(State::Next(Name::HeadingAtxData))
        }
    }
}

/// In a line of data.
fn line_data<'a>(t: &mut Tokenizer<'a, Headings>) -> Result<State, AllocError>
    requires { IsCallable heading_byte line_data t.old }
    ensures { IfOk result (DoesAll (step_in heading_byte line_data t.old) t.old t.new) }
{
    match t.current() {
        None => {
            t.exit(event::Name::Data)?;
            Ok(State::Ok)
        }
        Some(b'\n') => {
            t.exit(event::Name::Data)?;
            Ok(State::Retry(Name::FlowStart))
        }
        Some(_) => {
            t.consume();
            Ok(State::Next(Name::DataInside))
        }
    }
}

/// Sets the count of number signs to one.
fn count_one<'a>(t: &mut Tokenizer<'a, Headings>)
    ensures { t.new ≡ at_configuration t.old (with_local t.old.configuration (one_sign t.old.configuration)) }
{
    t.tokenize_state.size_b = 1;
}

/// Adds one to the count of number signs.
fn count_one_more<'a>(t: &mut Tokenizer<'a, Headings>)
    ensures { t.new ≡ at_configuration t.old (with_local t.old.configuration (one_sign_more t.old.configuration)) }
{
    t.tokenize_state.size_b = t.tokenize_state.size_b.saturating_add(1);
}

/// Whether there are fewer than six number signs.
fn has_room<'a>(t: &Tokenizer<'a, Headings>) -> bool
    ensures { result ≡ nat_lt t.now.configuration.local.tokenize_state.size_b 6 }
{
    t.tokenize_state.size_b < 6
}
