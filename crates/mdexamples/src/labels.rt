//! A machine of five states that tries a construct at a byte: labels in brackets.

ghost use Rattle.std.specs.Prelude.{IfOk};
ghost use Rattle.mdconstructs.specs.RowInvariant.{DoesAll, IsCallable, step_in};
ghost use Rattle.mdexamples.specs.Labels.{label_byte, text_before, text_before_data, data_inside, label_start, label_inside};

use markdown::event;
use markdown::state::{Machine, MachineTypes, Name, State};
use markdown::subtokenize::Subresult;
use markdown::tokenizer::{Fault, Tokenizer};
use mdconstructs::begin::begin;
use mdconstructs::marker;
use std::alloc::{AllocError, Global};

/// Reads `[`, bytes of one line and `]` as a label. A `[` without its `]` is data, and so is all else except line
/// endings.
///
/// It takes at most n n + 5 n + 2 calls for n virtual bytes.
#[derive(Drop)]
pub struct Labels {}

impl MachineTypes for Labels {
    type Resolver = ();

    type Document = ();
}

impl Machine for Labels {
    ghost use Rattle.mdconstructs_tables.proofs.Tables.Lawful.{late-lawful};
    ghost use Rattle.mdexamples.specs.Labels.{labels, labels_rules, begins_label, follows_label};
    ghost use Rattle.mdexamples.specs.Laws.Labels.{labels-late, labels-plain};

    ghost rules = { λ _. labels_rules };

    /// Counts the call, and runs the state of this name.
    #[tactic(auto, using(crate::proofs::Called::labels_called))]
    fn call<'a>(
        &self,
        alloc: Global,
        t: &mut Tokenizer<'a, Self>,
        name: Name,
    ) -> Result<State, AllocError> {
        begin(t);
        match name {
            Name::TextBefore => text_before(t),
            Name::TextBeforeData => text_before_data(t),
            Name::DataInside => data_inside(t),
            Name::LabelStart => label_start(t),
            Name::LabelInside => label_inside(t),
            _ => unreachable!(),
        }
    }

    /// Never called, as it registers no resolver.
    fn resolve<'a>(
        &self,
        alloc: Global,
        t: &mut Tokenizer<'a, Self>,
        name: (),
    ) -> Result<Option<Subresult>, Fault> {
        Ok(None)
    }

    ghost lawful = { λ _ g. late-lawful labels begins_label follows_label g labels-late labels-plain };
}

/// Between labels: tries one at `[`. If it fails, the `[` is data.
fn text_before<'a>(t: &mut Tokenizer<'a, Labels>) -> Result<State, AllocError>
    requires { IsCallable label_byte text_before t.old }
    ensures { IfOk result (DoesAll (step_in label_byte text_before t.old) t.old t.new) }
{
    match t.current() {
        None => Ok(State::Ok),
        Some(b'\n') => {
            marker(t, event::Name::LineEnding)?;
            Ok(State::Next(Name::TextBefore))
        }
        Some(b'[') => {
            t.attempt(
                State::Next(Name::TextBefore),
                State::Next(Name::TextBeforeData),
            )?;
            Ok(State::Retry(Name::LabelStart))
        }
        Some(_) => Ok(State::Retry(Name::TextBeforeData)),
    }
}

/// Before data: its first byte waits.
fn text_before_data<'a>(t: &mut Tokenizer<'a, Labels>) -> Result<State, AllocError>
    requires { IsCallable label_byte text_before_data t.old }
    ensures { IfOk result (DoesAll (step_in label_byte text_before_data t.old) t.old t.new) }
{
    t.enter(event::Name::Data)?;
    t.consume();
    Ok(State::Next(Name::DataInside))
}

/// In data, which ends before a line ending, and before a `[`.
fn data_inside<'a>(t: &mut Tokenizer<'a, Labels>) -> Result<State, AllocError>
    requires { IsCallable label_byte data_inside t.old }
    ensures { IfOk result (DoesAll (step_in label_byte data_inside t.old) t.old t.new) }
{
    match t.current() {
        None | Some(b'\n') | Some(b'[') => {
            t.exit(event::Name::Data)?;
            Ok(State::Retry(Name::TextBefore))
        }
        Some(_) => {
            t.consume();
            Ok(State::Next(Name::DataInside))
        }
    }
}

/// A label begins: its `[` waits.
fn label_start<'a>(t: &mut Tokenizer<'a, Labels>) -> Result<State, AllocError>
    requires { IsCallable label_byte label_start t.old }
    ensures { IfOk result (DoesAll (step_in label_byte label_start t.old) t.old t.new) }
{
    t.enter(event::Name::Label)?;
    marker(t, event::Name::LabelMarker)?;
    Ok(State::Next(Name::LabelInside))
}

/// In a label, which ends with `]`. At a line ending, and at the end, the attempt fails.
fn label_inside<'a>(t: &mut Tokenizer<'a, Labels>) -> Result<State, AllocError>
    requires { IsCallable label_byte label_inside t.old }
    ensures { IfOk result (DoesAll (step_in label_byte label_inside t.old) t.old t.new) }
{
    match t.current() {
        None | Some(b'\n') => Ok(State::Nok),
        Some(b']') => {
            marker(t, event::Name::LabelMarker)?;
            t.exit(event::Name::Label)?;
            Ok(State::Ok)
        }
        Some(_) => {
            t.consume();
            Ok(State::Next(Name::LabelInside))
        }
    }
}
