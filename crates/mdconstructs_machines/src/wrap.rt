//! The machine that wraps: it reads data, and its resolvers put all of it into one paragraph, or refuse the document.

ghost use Rattle.std.specs.Prelude.{◌≡◌, ◌∷◌, [], map, IfOk, OnOk};
ghost use Rattle.markdown_tokenizer.specs.declared.waiting.Phase.TheVariants.{Resolving};
ghost use Rattle.markdown_tokenizer.specs.Configuration.{at_configuration};
ghost use Rattle.markdown_edits.specs.Edits.{added_after, edit_at};
ghost use Rattle.markdown_tokenizer.specs.Sight.{sight_of};
ghost use Rattle.mdconstructs_tables.specs.RowInvariant.{DoesAll, IsCallable, step_in};
ghost use Rattle.mdconstructs_tables.specs.Tables.{line_byte};
ghost use Rattle.mdconstructs_machines.specs.Wrap.{text_start, renamed, one_definition, begins_paragraph, ends_paragraph};

use crate::begin::begin;
use crate::message::refusal;
use crate::reading::{data_inside, data_start};
use markdown_tokenizer::event::{self, Event, Kind};
use markdown_tokenizer::owned::{Items, OwnedText};
use markdown_tokenizer::state::{Machine, MachineTypes, Name, State};
use markdown_tokenizer::subtokenize::Subresult;
use markdown_tokenizer::tokenizer::{Fault, Tokenizer};
use markdown_tokenizer::util::edit_map::EditMap;
use std::alloc::{AllocError, Global};

/// The resolvers of the machine that wraps.
#[derive(Clone, Copy, Debug, PartialEq, Eq)]
pub enum Resolver {
    /// Makes the paragraph end, or refuses the document.
    A,
    /// Makes the paragraph begin.
    B,
    /// Registered by `A`, and never run.
    C,
}

/// Reads each line as data. Then its resolvers put all data into one paragraph, as data of a code span, or refuse the
/// document.
///
/// It takes at most 2 n + 2 calls for n virtual bytes. The message is `1:2: x (markdown:r)`.
#[derive(Drop)]
pub struct Wrap {
    /// Whether the document is refused.
    pub refuse: bool,
}

impl MachineTypes for Wrap {
    type Resolver = Resolver;

    type Document = ();
}

impl Machine for Wrap {
    ghost use Rattle.mdconstructs_machines.specs.Wrap.{wrap_rules};
    ghost use Rattle.mdconstructs_machines.specs.Laws.Wrap.{wrap-lawful};

    ghost rules = { λ m. wrap_rules m.refuse };

    /// Counts the call, and runs the state of this name.
    #[tactic(auto, using(crate::proofs::RowSteps::wrap_called))]
    fn call<'a>(
        &self,
        alloc: Global,
        t: &mut Tokenizer<'a, Self>,
        name: Name,
    ) -> Result<State, AllocError> {
        begin(t);
        match name {
            Name::TextStart => text_start(t),
            Name::DataStart => data_start(t),
            Name::DataInside => data_inside(t),
            _ => unreachable!(),
        }
    }

    /// Runs the resolver of this name: `B` is first, and then `A`.
    fn resolve<'a>(
        &self,
        alloc: Global,
        t: &mut Tokenizer<'a, Self>,
        name: Resolver,
    ) -> Result<Option<Subresult>, Fault> {
        match name {
            Resolver::A => {
                if self.refuse {
                    return Err(Fault::Message(refusal(alloc)?));
                }
                Ok(Some(end_paragraph(alloc, t)?))
            }
            Resolver::B => {
                begin_paragraph(alloc, t)?;
                Ok(None)
            }
            Resolver::C => Ok(None),
        }
    }

    ghost lawful = { λ m. wrap-lawful m.refuse };
}

/// Registers the resolvers, and goes on with reading data.
fn text_start<'a>(t: &mut Tokenizer<'a, Wrap>) -> Result<State, AllocError>
    requires { IsCallable line_byte text_start t.old }
    ensures { IfOk result (DoesAll (step_in line_byte text_start t.old) t.old t.new) }
{
    t.register_resolver(Resolver::A)?;
    t.register_resolver_before(Resolver::B)?;
    t.register_resolver_before(Resolver::A)?;
    Ok(State::Retry(Name::DataStart))
}

/// Renames data to data of a code span.
fn rename(event: &mut Event)
    ensures { event.new ≡ renamed event.old }
{
    if event.name == event::Name::Data {
        event.name = event::Name::CodeTextData;
    }
}

/// Renames each event.
fn rename_each(events: &mut [Event])
    ensures { events.new ≡ map renamed events.old }
{
    for event in events.iter_mut() {
        rename(event);
    }
}

/// Renames all events of a list.
fn rename_all(events: &mut Vec<Event>)
    ensures { events.new.items ≡ map renamed events.old.items }
{
    rename_each(events.as_mut_slice());
}

/// Renames data, and adds the edit by which a paragraph begins before all events.
fn begin_paragraph<'a>(alloc: Global, t: &mut Tokenizer<'a, Wrap>) -> Result<(), AllocError>
    requires resolving { t.old.phase ≡ Resolving }
    requires alone { t.old.choices ≡ [] }
    ensures same { t.new ≡ at_configuration t.old t.new.configuration }
    ensures ok { OnOk result (t.new ≡ at_configuration t.old (begins_paragraph (sight_of t.old) t.old.configuration)) }
{
    let point = match t.events().first() {
        Some(event) => event.point,
        None => t.point(),
    };
    rename_all(t.events_mut());
    let enter = Event {
        kind: Kind::Enter,
        name: event::Name::Paragraph,
        point,
        link: None,
    };
    add_one(alloc, &mut t.map, 0, enter)
}

/// Adds the edit by which the paragraph ends after all events. Returns one definition as found.
fn end_paragraph<'a>(alloc: Global, t: &mut Tokenizer<'a, Wrap>) -> Result<Subresult, AllocError>
    requires resolving { t.old.phase ≡ Resolving }
    ensures same { t.new ≡ at_configuration t.old t.new.configuration }
    ensures ok { IfOk result (λ sub. (t.new ≡ at_configuration t.old (ends_paragraph (sight_of t.old) t.old.configuration)) × (sub ≡ one_definition)) }
{
    t.register_resolver(Resolver::C)?;
    let exit = Event {
        kind: Kind::Exit,
        name: event::Name::Paragraph,
        point: t.point(),
        link: None,
    };
    let behind = t.events().len();
    add_one(alloc, &mut t.map, behind, exit)?;
    one_definition(alloc)
}

/// Adds the edit that puts one event at an index.
fn add_one(alloc: Global, map: &mut EditMap, index: usize, event: Event) -> Result<(), AllocError>
    ensures { OnOk result (map.new ≡ added_after map.old (edit_at index 0 (event ∷ []))) }
{
    map.add(index, 0, vec![in alloc; event]?)
}

/// The definition that is found; its label is `A`.
fn one_definition(alloc: Global) -> Result<Subresult, AllocError>
    ensures { IfOk result (λ sub. sub ≡ one_definition) }
{
    let label = OwnedText::from_string(String::from_str(alloc, "A")?);
    Ok(Subresult {
        done: false,
        gfm_footnote_definitions: Items::from_vec(Vec::new(alloc)),
        definitions: Items::from_vec(vec![in alloc; label]?),
    })
}
