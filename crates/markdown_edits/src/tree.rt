//! Edits at indices that come in any order.

ghost use Rattle.std.specs.List.{AllByRecursion};
ghost use Rattle.std.specs.Prelude.{◌≡◌, ◌++◌, ◌+◌, ◌<◌, ◌≤◌, ◌^◌, ◌↔◌, [], ◌∷◌, length, take, IfOk, OnOk, OnErr, IsTrue, if◌then◌else◌};
ghost use Rattle.markdown_edits.specs.Edits.{Edit, edit_at, put_after, put_before, removal_at, AreBehind};
ghost use Rattle.markdown_edits.specs.Stored.{as_edit, edits_of};

use crate::pool::Pool;
use crate::replacement::Replacement;
use markdown_base::event::Event;
use std::alloc::{AllocError, Global};
use std::collections::BTreeMap;
use std::marker::Model;

/// Edits, each found by its index in time proportional to the logarithm of their number.
#[derive(Drop)]
pub(crate) struct Tree {
    edits: BTreeMap<usize, Replacement>,
}

impl Model for Tree {
    ghost use Rattle.std.specs.Prelude.{List};
    ghost use Rattle.markdown_edits.specs.Edits.{Edit};

    ghost Value = { List Edit };

    ghost use Rattle.markdown_edits.specs.Stored.{edits_of};

    ghost view = { λ m. edits_of m.edits.entries };
}

impl Tree {
    /// No edits. Takes no memory.
    pub(crate) fn new(alloc: Global) -> Self
        ensures { result ≡ [] }
    {
        Tree {
            edits: BTreeMap::new(alloc),
        }
    }

    /// The same edits, in memory of their own.
    pub(crate) fn try_clone(&self, alloc: Global) -> Result<Self, AllocError>
        ensures { IfOk result (λ copy. copy ≡ self.now) }
    {
        let mut edits = BTreeMap::new(alloc);
        push_copies(&mut edits, &self.edits)?;
        Ok(Tree { edits })
    }

    /// Takes out all edits. Takes no memory.
    pub(crate) fn clear(&mut self)
        ensures { self.new ≡ [] }
    {
        self.edits.clear();
    }

    /// Whether there are no edits.
    pub(crate) fn is_empty(&self) -> bool
        ensures { IsTrue result ↔ (self.now ≡ []) }
    {
        self.edits.is_empty()
    }

    /// Adds an edit. If `before` is set, its additions come before the ones that are there, and else after them. If it
    /// runs out of memory, the edits stay as they were.
    pub(crate) fn add(
        &mut self,
        index: usize,
        remove: usize,
        additions: Vec<Event>,
        before: bool,
    ) -> Result<(), AllocError>
        requires sum_fits { 0 < remove → removal_at self.old index + remove < 2 ^ 64 }
        ensures ok { OnOk result (self.new ≡ (if before then put_before self.old (edit_at index remove additions.items) else put_after self.old (edit_at index remove additions.items))) }
        ensures err { OnErr result (self.new ≡ self.old) }
    {
        match self.edits.get_mut(&index) {
            Some(there) => there.add(remove, additions, before)?,
            None => {
                self.edits.insert(index, Replacement { remove, additions })?;
            }
        }
        Ok(())
    }

    /// Puts an edit in front of all others. If it runs out of memory, the edits stay as they were.
    pub(crate) fn push_front(
        &mut self,
        alloc: Global,
        index: usize,
        remove: usize,
        additions: &[Event],
    ) -> Result<(), AllocError>
        requires { AllByRecursion (λ (e : Edit). index < e.index) self.old }
        ensures ok { OnOk result (self.new ≡ edit_at index remove additions.now ∷ self.old) }
        ensures err { OnErr result (self.new ≡ self.old) }
    {
        let additions = Vec::from_slice(alloc, additions)?;
        self.edits.insert(index, Replacement { remove, additions })?;
        Ok(())
    }

    /// Moves the edits of another tree into this one. They must be behind all edits that are there.
    ///
    /// If it runs out of memory, both trees stay as they were; else the other one is left empty.
    pub(crate) fn append(&mut self, more: &mut Tree) -> Result<(), AllocError>
        requires { AreBehind self.old more.old }
        ensures ok { OnOk result ((self.new ≡ self.old ++ more.old) × (more.new ≡ [])) }
        ensures err { OnErr result ((self.new ≡ self.old) × (more.new ≡ more.old)) }
    {
        // Copying is needed only so that all edits are moved or none.
        push_copies(&mut self.edits, &more.edits)?;
        more.edits.clear();
        Ok(())
    }

    /// Moves the edits into a pool, behind its own: all of them, or none if it runs out of memory.
    pub(crate) fn move_into(&mut self, pool: &mut Pool) -> Result<(), AllocError>
        ensures ok { OnOk result ((pool.new ≡ pool.old ++ self.old) × (self.new ≡ [])) }
        ensures err { OnErr result ((pool.new ≡ pool.old) × (self.new ≡ self.old)) }
    {
        push_all(pool, &self.edits)?;
        self.edits.clear();
        Ok(())
    }
}

/// Puts a copy of an edit behind all that are there.
fn push_copy(
    edits: &mut BTreeMap<usize, Replacement>,
    index: usize,
    edit: &Replacement,
) -> Result<(), AllocError>
    requires { AllByRecursion (λ (e : Edit). e.index < index) (edits_of edits.old.entries) }
    ensures ok { OnOk result (edits_of edits.new.entries ≡ edits_of edits.old.entries ++ as_edit (index, edit.now) ∷ []) }
    ensures err { OnErr result (edits.new.entries ≡ edits.old.entries) }
{
    let alloc = *edit.additions.allocator();
    let additions = Vec::from_slice(alloc, &edit.additions)?;
    edits.insert(
        index,
        Replacement {
            remove: edit.remove,
            additions,
        },
    )?;
    Ok(())
}

/// Puts copies of edits behind all that are there: of each of them, or none if it runs out of memory.
fn push_copies(
    edits: &mut BTreeMap<usize, Replacement>,
    more: &BTreeMap<usize, Replacement>,
) -> Result<(), AllocError>
    requires { AreBehind (edits_of edits.old.entries) (edits_of more.now.entries) }
    ensures ok { OnOk result (edits_of edits.new.entries ≡ edits_of edits.old.entries ++ edits_of more.now.entries) }
    ensures err { OnErr result (edits_of edits.new.entries ≡ edits_of edits.old.entries) }
{
    let len = edits.len();
    for (index, edit) in more {
        if push_copy(edits, *index, edit).is_err() {
            truncate(edits, len);
            return Err(AllocError);
        }
    }
    Ok(())
}

/// Takes out all edits but the first `len`.
fn truncate(edits: &mut BTreeMap<usize, Replacement>, len: usize)
    requires { len ≤ length edits.old.entries }
    ensures { edits.new.entries ≡ take len edits.old.entries }
{
    while edits.len() > len {
        let _ = edits.pop_last();
    }
}

/// Puts copies of edits behind those of a pool: of each of them, or none if it runs out of memory.
fn push_all(pool: &mut Pool, edits: &BTreeMap<usize, Replacement>) -> Result<(), AllocError>
    ensures ok { OnOk result (pool.new ≡ pool.old ++ edits_of edits.now.entries) }
    ensures err { OnErr result (pool.new ≡ pool.old) }
{
    let len = pool.len();
    for (index, edit) in edits {
        if pool.push(*index, edit.remove, &edit.additions).is_err() {
            pool.truncate(len);
            return Err(AllocError);
        }
    }
    Ok(())
}
