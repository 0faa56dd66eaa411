//! A machine that goes round through an attempt that saves nothing, as constructs of a line do: its calls are paid from place to place.

ghost use Rattle.std.specs.Prelude.{◌+◌, ◌*◌, IfOk};
ghost use Rattle.markdown.specs.Lawful.{IsLawful};
ghost use Rattle.markdown.specs.StateConstants.Name.{TextStart};
ghost use Rattle.mdconstructs_machines.specs.Costs.{StartsAt};
ghost use Rattle.mdconstructs_tables.specs.RowInvariant.{DoesAll, IsCallable, step_in};
ghost use Rattle.mdconstructs_tables.specs.Tables.{line_byte};
ghost use Rattle.mdtests_tables.specs.Looping.{data_inside, looping_rules, text_start};
ghost use Rattle.mdtests_tables.specs.Marks.{marks_rules};

use crate::shown::assert_shown;
use markdown::state::{Machine, MachineTypes, Name, State};
use markdown::subtokenize::Subresult;
use markdown::tokenizer::{Fault, Tokenizer};
use mdconstructs_machines::begin::begin;
use mdtests_base::documents::lines_by;
use std::alloc::{AllocError, Global};

/// Tries, at each byte, what comes after it, and goes on with the state that tried. It makes no events.
#[derive(Drop)]
pub struct Looping {}

impl MachineTypes for Looping {
    type Resolver = ();

    type Document = ();
}

impl Machine for Looping {
    ghost use Rattle.mdconstructs_tables.proofs.Tables.Lawful.{plain-lawful};
    ghost use Rattle.mdtests_tables.specs.Looping.{looping, looping_rules};
    ghost use Rattle.mdtests_tables.specs.Laws.Looping.{looping-fit, looping-plain};

    ghost rules = { λ _. looping_rules };

    fn call<'a>(
        &self,
        alloc: Global,
        t: &mut Tokenizer<'a, Self>,
        name: Name,
    ) -> Result<State, AllocError> {
        begin(t);
        match name {
            Name::TextStart => text_start(t),
            Name::DataInside => data_inside(t),
            _ => unreachable!(),
        }
    }

    /// Never called, as it registers no resolver.
    fn resolve<'a>(
        &self,
        alloc: Global,
        t: &mut Tokenizer<'a, Self>,
        name: (),
    ) -> Result<Option<Subresult>, Fault> {
        Ok(None)
    }

    ghost lawful = { λ _ g. plain-lawful looping g looping-fit looping-plain };
}

/// At a byte: tries what comes after it. After `Ok` this goes on.
fn text_start<'a>(t: &mut Tokenizer<'a, Looping>) -> Result<State, AllocError>
    requires { IsCallable line_byte text_start t.old }
    ensures { IfOk result (DoesAll (step_in line_byte text_start t.old) t.old t.new) }
{
    match t.current() {
        None => Ok(State::Ok),
        Some(_) => {
            t.attempt(State::Next(Name::TextStart), State::Nok)?;
            t.consume();
            Ok(State::Next(Name::DataInside))
        }
    }
}

/// What was tried is there at once.
fn data_inside<'a>(t: &mut Tokenizer<'a, Looping>) -> Result<State, AllocError>
    requires { IsCallable line_byte data_inside t.old }
    ensures { IfOk result (DoesAll (step_in line_byte data_inside t.old) t.old t.new) }
{
    Ok(State::Ok)
}

/// It takes two calls for each byte, and one for the end.
pub fn looping_takes_two_calls_a_byte()
    ensures { StartsAt looping_rules TextStart (λ n. 2 * n + 1) }
{}

/// Choices may end late also where a look is among them, and an attempt that saves nothing: a table with both is lawful.
pub fn looks_and_rounds_may_be_late()
    ensures { (g : _) → IsLawful g (marks_rules g) }
{}

/// It comes to the end of each document, however that is cut.
#[test]
fn attempts_that_save_nothing_go_round(rt: HostRuntime) {
    for cut in 1..4 {
        let read = lines_by(rt.alloc(), &Looping {}, Name::TextStart, b"abc", cut, false);
        assert_shown(&rt, read, "");
    }
}
