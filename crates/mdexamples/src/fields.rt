//! Two machines with bytes of their own, which divide a text into fields. One owns them, and one borrows them.

ghost use Rattle.std.specs.Prelude.{◌≡◌, IfOk};
ghost use Rattle.markdown.specs.Sight.{sight_of};
ghost use Rattle.mdconstructs.specs.RowInvariant.{DoesAll, IsCallable, step_in};
ghost use Rattle.mdexamples.specs.Fields.{any_byte, is_one_of, text_start, data_inside};

use markdown::event;
use markdown::state::{Machine, MachineTypes, Name, State};
use markdown::subtokenize::Subresult;
use markdown::tokenizer::{Fault, Tokenizer};
use mdconstructs::begin::begin;
use mdconstructs::marker;
use std::alloc::{AllocError, Global};

/// Reads each of its bytes as a divider, and each run of other bytes as data.
///
/// It takes at most 2 n + 1 calls for n virtual bytes.
#[derive(Drop)]
pub struct Fields {
    /// The bytes that divide a text.
    pub dividers: Vec<u8>,
}

impl MachineTypes for Fields {
    type Resolver = ();

    type Document = ();
}

impl Machine for Fields {
    ghost use Rattle.mdconstructs_tables.proofs.Tables.Lawful.{plain-lawful};
    ghost use Rattle.mdexamples.specs.Fields.{fields, fields_rules};
    ghost use Rattle.mdexamples.specs.Laws.Fields.{fields-fit, fields-plain};

    ghost rules = { λ m. fields_rules m.dividers.items };

    /// Counts the call, and runs the state of this name.
    fn call<'a>(
        &self,
        alloc: Global,
        t: &mut Tokenizer<'a, Self>,
        name: Name,
    ) -> Result<State, AllocError> {
        let dividers = self.dividers.as_slice();
        begin(t);
        match name {
            Name::TextStart => text_start(t, dividers),
            Name::DataInside => data_inside(t, dividers),
            _ => unreachable!(),
        }
    }

    /// Never called, as it registers no resolver.
    fn resolve<'a>(
        &self,
        alloc: Global,
        t: &mut Tokenizer<'a, Self>,
        name: (),
    ) -> Result<Option<Subresult>, Fault> {
        Ok(None)
    }

    ghost lawful = { λ m g. plain-lawful (fields m.dividers.items) g (fields-fit m.dividers.items) (fields-plain m.dividers.items) };
}

/// Reads as [`Fields`] does, by bytes that it borrows.
///
/// It takes at most 2 n + 1 calls for n virtual bytes.
#[derive(Drop)]
pub struct LentFields<'b> {
    /// The bytes that divide a text.
    pub dividers: &'b [u8],
}

impl<'b> MachineTypes for LentFields<'b> {
    type Resolver = ();

    type Document = ();
}

impl<'b> Machine for LentFields<'b> {
    ghost use Rattle.mdconstructs_tables.proofs.Tables.Lawful.{plain-lawful};
    ghost use Rattle.mdexamples.specs.Fields.{fields, fields_rules};
    ghost use Rattle.mdexamples.specs.Laws.Fields.{fields-fit, fields-plain};

    ghost rules = { λ m. fields_rules m.dividers.now };

    /// Counts the call, and runs the state of this name.
    fn call<'a>(
        &self,
        alloc: Global,
        t: &mut Tokenizer<'a, Self>,
        name: Name,
    ) -> Result<State, AllocError> {
        begin(t);
        match name {
            Name::TextStart => text_start(t, self.dividers),
            Name::DataInside => data_inside(t, self.dividers),
            _ => unreachable!(),
        }
    }

    /// Never called, as it registers no resolver.
    fn resolve<'a>(
        &self,
        alloc: Global,
        t: &mut Tokenizer<'a, Self>,
        name: (),
    ) -> Result<Option<Subresult>, Fault> {
        Ok(None)
    }

    ghost lawful = { λ m g. plain-lawful (fields m.dividers.now) g (fields-fit m.dividers.now) (fields-plain m.dividers.now) };
}

/// Before a field or a divider.
fn text_start<'a, M: MachineTypes>(
    t: &mut Tokenizer<'a, M>,
    dividers: &[u8],
) -> Result<State, AllocError>
    requires { IsCallable any_byte (text_start dividers.now) t.old }
    ensures { IfOk result (DoesAll (step_in any_byte (text_start dividers.now) t.old) t.old t.new) }
{
    match t.current() {
        None => Ok(State::Ok),
        Some(_) => {
            if waits_to_divide(t, dividers) {
                marker(t, event::Name::GfmTableCellDivider)?;
                return Ok(State::Next(Name::TextStart));
            }
            t.enter(event::Name::Data)?;
            t.consume();
            Ok(State::Next(Name::DataInside))
        }
    }
}

/// In a field.
fn data_inside<'a, M: MachineTypes>(
    t: &mut Tokenizer<'a, M>,
    dividers: &[u8],
) -> Result<State, AllocError>
    requires { IsCallable any_byte (data_inside dividers.now) t.old }
    ensures { IfOk result (DoesAll (step_in any_byte (data_inside dividers.now) t.old) t.old t.new) }
{
    match t.current() {
        None => {
            t.exit(event::Name::Data)?;
            Ok(State::Ok)
        }
        Some(_) => {
            if waits_to_divide(t, dividers) {
                t.exit(event::Name::Data)?;
                return Ok(State::Retry(Name::TextStart));
            }
            t.consume();
            Ok(State::Next(Name::DataInside))
        }
    }
}

/// Whether the byte that waits is one of these.
fn waits_to_divide<'a, M: MachineTypes>(t: &Tokenizer<'a, M>, dividers: &[u8]) -> bool
    ensures { result ≡ is_one_of dividers.now (sight_of t.now).current }
{
    match t.current() {
        None => false,
        Some(byte) => dividers.contains(&byte),
    }
}
