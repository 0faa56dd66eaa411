//! Where labels are defined: all definitions of a document, found in one walk over its events.

ghost use Rattle.std.specs.Prelude.{◌≡◌, ◌+◌, ◌<◌, ◌≤◌, ◌&&◌, List, ℕ, IfOk, OnOk, None, Some, bytes_eq, cond};
ghost use Rattle.markdown_base.specs.declared.event.Name.TheVariants as name;
ghost use Rattle.mddocument_link_targets.specs.Costs.{cost_of_one, definitions_cost};
ghost use Rattle.mddocument_link_targets.specs.Defined.{defined_at};
ghost use Rattle.mddocument_link_targets.specs.Spans.{enters, inside};
ghost use Rattle.mddocument_link_targets.specs.Targets.{defined_label, definition_of};

use crate::spans::{enters, inside};
use crate::targets::defined_label;
use markdown_base::event::{Event, Name};
use mdconstructs_loop_counts::Turns;
use std::alloc::{AllocError, Global};
use std::collections::BTreeMap;
use std::marker::Brand;
use std::sync::ledger::{Blank, Ledger};

/// The definitions of a document, by their labels.
#[derive(Drop)]
pub struct Definitions {
    indices: BTreeMap<Vec<u8>, usize>,
}

impl Definitions {
    /// No definitions. Takes no memory.
    fn new(alloc: Global) -> Definitions
        ensures { (label : List ℕ) → defined_at result label ≡ None }
    {
        Definitions {
            indices: BTreeMap::new(alloc),
        }
    }

    /// The index, among the events, of the enter of the first definition of a label. The label is normalised, as `Target` has it.
    pub fn get(&self, label: &[u8]) -> Option<usize>
        ensures { result ≡ defined_at self.now label.now }
    {
        self.indices.get(label).copied()
    }

    /// An event comes before those whose definitions are known, by its index and the events behind it.
    fn define<L: Ledger>(
        &mut self,
        alloc: Global,
        bytes: &[u8],
        at: usize,
        event: &Event,
        behind: &[Event],
        turns: &mut Turns<L>,
    ) -> Result<(), AllocError>
        ensures defined { OnOk result ((label : List ℕ) → defined_at self.new label ≡ cond (enters name.Definition event.now && bytes_eq label (defined_label bytes.now (inside behind.now))) (Some at) (defined_at self.old label)) }
        ensures turns { turns.new ≤ turns.old + cost_of_one event.now behind.now }
    {
        if enters(event, Name::Definition) {
            let definition = inside(behind, turns);
            let label = defined_label(alloc, bytes, definition, turns)?;
            self.indices.insert(label, at)?;
        }
        Ok(())
    }
}

/// The definitions of a document, by its events: of each label the first. Fails only if it runs out of memory.
///
/// It walks over the events once, from the last one on, and looks at each event in a definition three times more at most.
pub fn definitions_of_counted<L: Ledger>(
    alloc: Global,
    bytes: &[u8],
    events: &[Event],
    turns: &mut Turns<L>,
) -> Result<Definitions, AllocError>
    ensures defined { IfOk result (λ all. (label : List ℕ) → defined_at all label ≡ definition_of bytes.now events.now label) }
    ensures turns { OnOk result (turns.new ≤ turns.old + definitions_cost events.now) }
{
    let mut all = Definitions::new(alloc);
    let mut at = events.len();
    while at > 0 {
        turns.add_one();
        at -= 1;
        all.define(alloc, bytes, at, &events[at], &events[at + 1..], turns)?;
    }
    Ok(all)
}

/// The definitions of a document, counted from nothing.
fn definitions_of_uncounted<L: Ledger>(
    alloc: Global,
    bytes: &[u8],
    events: &[Event],
    blank: Blank,
) -> Result<Definitions, AllocError>
    requires name { blank.name ≡ L.name }
    requires parts { blank.parts ≡ L.parts }
    requires some { 0 < blank.parts }
    ensures { IfOk result (λ all. (label : List ℕ) → defined_at all label ≡ definition_of bytes.now events.now label) }
{
    let mut turns = Turns::<L>::new(blank);
    definitions_of_counted(alloc, bytes, events, &mut turns)
}

/// The definitions of a document, by its events: of each label the first. Fails only if it runs out of memory. It takes the turns of
/// `definitions_of_counted`.
pub fn definitions_of(
    alloc: Global,
    bytes: &[u8],
    events: &[Event],
) -> Result<Definitions, AllocError>
    ensures { IfOk result (λ all. (label : List ℕ) → defined_at all label ≡ definition_of bytes.now events.now label) }
{
    definitions_of_uncounted::<Brand>(alloc, bytes, events, Blank::new(1))
}
