//! A machine with two resolvers, of which the second sees the list after the edit of the first.

ghost use Rattle.std.specs.Prelude.{◌≡◌, [], OnOk};
ghost use Rattle.markdown.specs.Configuration.{at_configuration};
ghost use Rattle.markdown.specs.Sight.{sight_of};
ghost use Rattle.mdtests_tables.specs.Replacing.{replaced};

use crate::resolvers::ReplacingResolver;
use crate::shown::assert_shown;
use markdown::event::{self, Event, Kind};
use markdown::state::{Machine, MachineTypes, Name, State};
use markdown::subtokenize::Subresult;
use markdown::tokenizer::{Fault, Tokenizer};
use mdtests_base::documents::lines_by;
use std::alloc::{AllocError, Global};

/// Reads a text without events, and registers two resolvers at its end.
#[derive(Drop)]
pub struct Replacing {}

impl MachineTypes for Replacing {
    type Resolver = ReplacingResolver;

    type Document = ();
}

impl Machine for Replacing {
    ghost use Rattle.mdtests_tables.specs.Replacing.{replacing_rules};
    ghost use Rattle.mdtests_tables.specs.Laws.Replacing.{replacing-lawful};

    ghost rules = { λ _. replacing_rules };

    fn call<'a>(
        &self,
        alloc: Global,
        t: &mut Tokenizer<'a, Self>,
        name: Name,
    ) -> Result<State, AllocError> {
        t.tick();
        match t.current() {
            None => {
                t.register_resolver(ReplacingResolver::First)?;
                t.register_resolver(ReplacingResolver::Second)?;
                Ok(State::Ok)
            }
            Some(_) => {
                t.consume();
                Ok(State::Next(Name::TextStart))
            }
        }
    }

    fn resolve<'a>(
        &self,
        alloc: Global,
        t: &mut Tokenizer<'a, Self>,
        name: ReplacingResolver,
    ) -> Result<Option<Subresult>, Fault> {
        match name {
            ReplacingResolver::First => replace_all(alloc, t, event::Name::Paragraph)?,
            ReplacingResolver::Second => {
                t.make_edits()?;
                replace_all(alloc, t, event::Name::BlockQuote)?;
            }
        }
        Ok(None)
    }

    ghost lawful = { λ _ g. replacing-lawful g };
}

/// Adds the edit by which a span of this name comes in place of all events. It stands where the text ends.
fn replace_all<'a>(
    alloc: Global,
    t: &mut Tokenizer<'a, Replacing>,
    name: event::Name,
) -> Result<(), AllocError>
    requires unedited { t.old.configuration.local.map ≡ [] }
    ensures same { t.new ≡ at_configuration t.old t.new.configuration }
    ensures ok { OnOk result (t.new ≡ at_configuration t.old (replaced name (sight_of t.old) t.old.configuration)) }
{
    let point = t.point();
    let enter = Event {
        kind: Kind::Enter,
        name,
        point,
        link: None,
    };
    let exit = Event {
        kind: Kind::Exit,
        name,
        point,
        link: None,
    };
    let all = t.events().len();
    t.map.add(0, all, vec![in alloc; enter, exit]?)
}

/// The second resolver sees the paragraph of the first, so the block quote comes in its place. With the edit of the first still to
/// be made it would see no event, and the block quote would come behind the paragraph.
#[test]
fn second_resolver_sees_the_edit_of_the_first(rt: HostRuntime) {
    let read = lines_by(rt.alloc(), &Replacing {}, Name::TextStart, b"a", 1, true);
    assert_shown(&rt, read, "BlockQuote 1:2 (1+0) to 1:2 (1+0)");
}
