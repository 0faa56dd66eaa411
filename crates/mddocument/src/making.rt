//! The events that any machine makes of a document, and why it makes none.

ghost use Rattle.std.specs.Prelude.{◌≡◌, Contains, IfOk, IsErrOf, Some, false};
ghost use Rattle.std.specs.Option.{option_copied};
ghost use Rattle.markdown_base.specs.Virtual.{IsWithinLimit};
ghost use Rattle.markdown_tokenizer.specs.Engine.{AreCuts, IsRunRefused};
ghost use Rattle.markdown_tokenizer.specs.Text.{IsDocument};
ghost use Rattle.markdown_tokenizer.specs.declared.tokenizer.fault.Fault.TheVariants.{Memory};
ghost use Rattle.markdown_children.specs.Ready.{IsReady};
ghost use Rattle.markdown_children.specs.Reads.{StartAmong};
ghost use Rattle.mddocument.specs.Documents.{document};
ghost use Rattle.mddocument.specs.Runs.{Gives, Returns, GivesDeep, IsRefusedDeep, GivesUnready, HasChildren, HasRefusedChild, MayRead};
ghost use Rattle.mddocument.specs.declared.making.Unmade.TheVariants.{Fault as OfFault};

use markdown_base::configuration::ParseOptions;
use markdown_base::event::{Content, Event};
use markdown_base::state::Name;
use markdown_children::subtokenize::{ready, subtokenize};
use markdown_tokenizer::parser::ParseState;
use markdown_tokenizer::state::Machine;
use markdown_tokenizer::tokenizer::{Fault, run};
use std::alloc::{AllocError, Global};

/// Why a machine makes no events of a document.
#[derive(Debug, Drop)]
pub(crate) enum Unmade {
    /// Reading the document, or a child, fails.
    Fault(Fault),
    /// The events have chains of text that cannot be read.
    NotReady,
}

impl From<Fault> for Unmade {
    ghost from_gives = { λ fault unmade. unmade ≡ OfFault fault };

    /// A fault, as it is.
    fn from(fault: Fault) -> Unmade {
        Unmade::Fault(fault)
    }
}

impl From<AllocError> for Unmade {
    ghost from_gives = { λ _ unmade. unmade ≡ OfFault Memory };

    /// A failed allocation is the fault `Memory`.
    fn from(_error: AllocError) -> Unmade {
        Unmade::Fault(Fault::Memory)
    }
}

/// The events that a machine makes of a document, from this start.
pub(crate) fn read_by<M: Machine>(
    alloc: Global,
    machine: &M,
    start: Name,
    bytes: &[u8],
    options: &ParseOptions,
    cuts: &[(usize, usize)],
) -> Result<Vec<Event>, Unmade>
    requires limit { IsWithinLimit options.now.tab_size bytes.now }
    requires start { Contains (M.rules machine.now (document options.now bytes.now)).starts start }
    requires cuts { AreCuts options.now.tab_size bytes.now cuts.now }
    ensures events { IfOk result (λ events. Gives (M.rules machine.now) start options.now bytes.now events.items) }
    ensures message { (m : _) → IsErrOf result (Unmade.Fault (Fault.Message m)) → IsRunRefused (document options.now bytes.now) (M.rules machine.now) false start m }
    ensures ready { ¬ IsErrOf result Unmade.NotReady }
    ensures cause { ¬ IsErrOf result (Unmade.Fault Fault.Failed) }
    ensures document { IsDocument (document options.now bytes.now) }
{
    read_resolved_by(alloc, machine, start, bytes, options, cuts, false)
}

/// As [`read_by`], with the edits that the machine adds made if `resolve` is set.
pub(crate) fn read_resolved_by<M: Machine>(
    alloc: Global,
    machine: &M,
    start: Name,
    bytes: &[u8],
    options: &ParseOptions,
    cuts: &[(usize, usize)],
    resolve: bool,
) -> Result<Vec<Event>, Unmade>
    requires limit { IsWithinLimit options.now.tab_size bytes.now }
    requires start { Contains (M.rules machine.now (document options.now bytes.now)).starts start }
    requires cuts { AreCuts options.now.tab_size bytes.now cuts.now }
    ensures events { IfOk result (λ events. Returns (M.rules machine.now) start options.now bytes.now resolve events.items) }
    ensures message { (m : _) → IsErrOf result (Unmade.Fault (Fault.Message m)) → IsRunRefused (document options.now bytes.now) (M.rules machine.now) resolve start m }
    ensures ready { ¬ IsErrOf result Unmade.NotReady }
    ensures cause { ¬ IsErrOf result (Unmade.Fault Fault.Failed) }
    ensures document { IsDocument (document options.now bytes.now) }
{
    let Some(parse_state) = ParseState::new(bytes, options, machine) else {
        unreachable!();
    };
    let (events, _) = run(alloc, &parse_state, start, cuts, resolve)?;
    Ok(events)
}

/// The events that a machine makes of a document, from this start, with the children of their chains of text.
pub(crate) fn read_deep_by<M: Machine>(
    alloc: Global,
    machine: &M,
    start: Name,
    bytes: &[u8],
    options: &ParseOptions,
    cuts: &[(usize, usize)],
) -> Result<Vec<Event>, Unmade>
    requires limit { IsWithinLimit options.now.tab_size bytes.now }
    requires start { Contains (M.rules machine.now (document options.now bytes.now)).starts start }
    requires text { Contains (M.rules machine.now (document options.now bytes.now)).starts Name.TextStart }
    requires cuts { AreCuts options.now.tab_size bytes.now cuts.now }
    ensures events { IfOk result (λ events. GivesDeep (M.rules machine.now) start options.now bytes.now events.items) }
    ensures message { (m : _) → IsErrOf result (Unmade.Fault (Fault.Message m)) → IsRefusedDeep (M.rules machine.now) start options.now bytes.now m }
    ensures unready { IsErrOf result Unmade.NotReady → GivesUnready (M.rules machine.now) start options.now bytes.now }
    ensures cause { ¬ IsErrOf result (Unmade.Fault Fault.Failed) }
    ensures document { IsDocument (document options.now bytes.now) }
{
    let events = read_by(alloc, machine, start, bytes, options, cuts)?;
    with_children(alloc, machine, bytes, options, events, Content::Text)
}

/// The events with the children of their chains of a content in place of the chunks. The machine reads each child. The events are looked
/// over first, whether they are ready.
pub(crate) fn with_children<M: Machine>(
    alloc: Global,
    machine: &M,
    bytes: &[u8],
    options: &ParseOptions,
    events: Vec<Event>,
    content: Content,
) -> Result<Vec<Event>, Unmade>
    requires limit { IsWithinLimit options.now.tab_size bytes.now }
    requires start { MayRead (M.rules machine.now) options.now bytes.now content }
    ensures events { IfOk result (λ new. HasChildren (M.rules machine.now) options.now bytes.now (Some content) events.items new.items) }
    ensures message { (m : _) → IsErrOf result (Unmade.Fault (Fault.Message m)) → HasRefusedChild (M.rules machine.now) options.now bytes.now (Some content) events.items m }
    ensures unready { IsErrOf result Unmade.NotReady → ¬ IsReady options.now.tab_size bytes.now (Some content) events.items }
    ensures cause { ¬ IsErrOf result (Unmade.Fault Fault.Failed) }
{
    let wanted = Some(&content);
    if !ready(alloc, events.as_slice(), bytes, options.tab_size, wanted)? {
        return Err(Unmade::NotReady);
    }
    with_ready_children(alloc, machine, bytes, options, events, wanted)
}

/// As [`with_children`], of events that are ready: it does not look. `None` means the chains of all contents.
pub(crate) fn with_ready_children<M: Machine>(
    alloc: Global,
    machine: &M,
    bytes: &[u8],
    options: &ParseOptions,
    mut events: Vec<Event>,
    wanted: Option<&Content>,
) -> Result<Vec<Event>, Unmade>
    requires limit { IsWithinLimit options.now.tab_size bytes.now }
    requires start { StartAmong (M.rules machine.now (document options.now bytes.now)).starts (option_copied wanted) events.items }
    requires ready { IsReady options.now.tab_size bytes.now (option_copied wanted) events.items }
    ensures events { IfOk result (λ new. HasChildren (M.rules machine.now) options.now bytes.now (option_copied wanted.entry) events.items new.items) }
    ensures message { (m : _) → IsErrOf result (Unmade.Fault (Fault.Message m)) → HasRefusedChild (M.rules machine.now) options.now bytes.now (option_copied wanted.entry) events.items m }
    ensures ready { ¬ IsErrOf result Unmade.NotReady }
    ensures cause { ¬ IsErrOf result (Unmade.Fault Fault.Failed) }
{
    let Some(parse_state) = ParseState::new(bytes, options, machine) else {
        unreachable!();
    };
    events.shrink_to_fit();
    subtokenize(alloc, &mut events, &parse_state, wanted)?;
    Ok(events)
}
