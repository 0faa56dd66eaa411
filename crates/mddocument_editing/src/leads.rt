//! What labels lead to, and which lead elsewhere.

ghost use Rattle.std.specs.Option.{option_copied};
ghost use Rattle.std.specs.Prelude.{◌≡◌, ◌↔◌, ◌<◌, IfOk, List, None, Some, ℕ, bytes_eq, false, is_some, length, option_map, slice_get, true};
ghost use Rattle.std.specs.Map.{lookup};
ghost use Rattle.mddocument_editing.specs.Said.{LeadAsBefore, said_by, said_of};

use crate::said::{Said, same_parts};
use markdown_base::owned::Items;
use mddocument_link_targets::targets::Parts;
use std::alloc::{AllocError, Global};
use std::collections::BTreeMap;

/// Definitions in order, and where the first one of each label is.
#[derive(Drop)]
pub(crate) struct Leads {
    /// The definitions.
    all: Vec<Said>,
    /// The index of the first one of a label.
    indices: BTreeMap<Vec<u8>, usize>,
}

/// A copy of the label of a definition.
fn copied_label(alloc: Global, all: &[Said], at: usize) -> Result<Vec<u8>, AllocError>
    requires { at < length all.now }
    ensures { IfOk result (λ label. option_map (λ said. said.label) (slice_get all.now at) ≡ Some label.items) }
{
    let mut label = Vec::new(alloc);
    label.extend_from_slice(all[at].label.as_slice())?;
    Ok(label)
}

impl Leads {
    /// What these definitions say.
    pub(crate) fn of(alloc: Global, all: Vec<Said>) -> Result<Leads, AllocError>
        ensures { IfOk result (λ leads. (label : List ℕ) → said_by leads label ≡ said_of all.items label) }
    {
        let mut indices = BTreeMap::new(alloc);
        let mut at = all.len();
        while at > 0 {
            at -= 1;
            let label = copied_label(alloc, all.as_slice(), at)?;
            indices.insert(label, at)?;
        }
        Ok(Leads { all, indices })
    }

    /// The index of the first definition of a label.
    fn index_of(&self, label: &[u8]) -> Option<usize>
        ensures { result ≡ lookup (λ known. bytes_eq label.now known.items) self.now.indices.entries }
    {
        self.indices.get(label).copied()
    }

    /// What the definition with an index says.
    fn parts_at(&self, index: usize) -> Option<&Parts>
        ensures { option_copied result ≡ option_map (λ said. said.parts) (slice_get self.now.all.items index) }
    {
        let said = self.all.as_slice().get(index)?;
        Some(&said.parts)
    }

    /// What a label leads to.
    fn get(&self, label: &[u8]) -> Option<&Parts>
        ensures { option_copied result ≡ said_by self.now label.now }
    {
        match self.index_of(label) {
            None => None,
            Some(index) => self.parts_at(index),
        }
    }

    /// Whether a label is defined.
    fn has(&self, label: &[u8]) -> bool
        ensures { result ≡ is_some (said_by self.now label.now) }
    {
        self.get(label).is_some()
    }
}

/// Whether one of definitions has a label that these have.
pub(crate) fn touch(leads: &Leads, saids: &[Said]) -> bool
    ensures { result ≡ false → (label : List ℕ) → is_some (said_by leads.now label) ≡ true → said_of saids.now label ≡ None }
{
    for index in 0..saids.len() {
        let touches = leads.has(saids[index].label.as_slice());
        if touches {
            return true;
        }
    }
    false
}

/// Whether these say the same.
fn same_leads(one: Option<&Parts>, other: Option<&Parts>) -> bool
    ensures { (result ≡ true) ↔ (option_copied one.entry ≡ option_copied other.entry) }
{
    match (one, other) {
        (None, None) => true,
        (Some(one), Some(other)) => same_parts(one, other),
        _ => false,
    }
}

/// Whether labels lead where they led.
pub(crate) fn lead_as_before(old: &Leads, new: &Leads, labels: &[Items<u8>]) -> bool
    ensures { (result ≡ true) ↔ LeadAsBefore (said_by old.now) (said_by new.now) labels.now }
{
    for index in 0..labels.len() {
        let label = labels[index].as_slice();
        let same = same_leads(new.get(label), old.get(label));
        if !same {
            return false;
        }
    }
    true
}
