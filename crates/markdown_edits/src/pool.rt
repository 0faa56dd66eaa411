//! Edits whose additions are in one list.

ghost use Rattle.std.specs.List.{AllByRecursion};
ghost use Rattle.std.specs.Prelude.{◌≡◌, ◌++◌, ◌+◌, ◌-◌, ◌<◌, ◌^◌, ◌↔◌, [], ◌∷◌, length, map, take, OnOk, OnErr, IfOk, IfSome, IfNone, All, IsTrue, IsFalse};
ghost use Rattle.markdown_base.specs.Events.{EndsBelow};
ghost use Rattle.markdown_edits.specs.Edits.{Edit, edit_at, AreDisjoint};
ghost use Rattle.markdown_edits.specs.Shifts.{shifts, place_by};
ghost use Rattle.markdown_edits.specs.Spliced.{spliced};
ghost use Rattle.markdown_edits.specs.Stored.{moved_by, IsAscending};

use crate::entry::Entry;
use crate::splice::spliced_events;
use markdown_base::event::Event;
use std::alloc::{AllocError, Global};
use std::marker::Model;
use std::mem::swap;

/// Edits in the order in which they were added. The additions of all are in one list, so that an edit takes no memory of its own.
#[derive(Drop)]
pub(crate) struct Pool {
    entries: Vec<Entry>,
    additions: Vec<Event>,
}

impl Model for Pool {
    ghost use Rattle.std.specs.Prelude.{List, length, All};
    ghost use Rattle.markdown_edits.specs.Edits.{Edit};
    ghost use Rattle.markdown_edits.specs.Stored.{pooled, IsPart};

    ghost Value = { List Edit };

    ghost view = { λ m. pooled m.additions.items m.entries.items };

    ghost invariant = { λ m. All (IsPart (length m.additions.items)) m.entries.items };
}

impl Pool {
    /// No edits. Takes no memory.
    pub(crate) fn new(alloc: Global) -> Self
        ensures { result ≡ [] }
    {
        Pool {
            entries: Vec::new(alloc),
            additions: Vec::new(alloc),
        }
    }

    /// The same edits, in memory of their own.
    pub(crate) fn try_clone(&self, alloc: Global) -> Result<Self, AllocError>
        ensures { IfOk result (λ copy. copy ≡ self.now) }
    {
        let entries = Vec::from_slice(alloc, &self.entries)?;
        let additions = Vec::from_slice(alloc, &self.additions)?;
        Ok(Pool { entries, additions })
    }

    /// The allocator of its memory.
    pub(crate) fn allocator(&self) -> Global {
        *self.additions.allocator()
    }

    /// How many edits there are.
    pub(crate) fn len(&self) -> usize
        ensures { result ≡ length self.now }
    {
        self.entries.len()
    }

    /// Whether there are no edits.
    pub(crate) fn is_empty(&self) -> bool
        ensures { IsTrue result ↔ (self.now ≡ []) }
    {
        self.entries.is_empty()
    }

    /// Whether all edits are before an index.
    pub(crate) fn ends_before(&self, index: usize) -> bool
        requires { IsAscending self.now }
        ensures all { IsTrue result → AllByRecursion (λ (e : Edit). e.index < index) self.now }
        ensures some { IsFalse result → 0 < length self.now }
    {
        match self.entries.last() {
            None => true,
            Some(entry) => entry.index < index,
        }
    }

    /// Puts an edit behind the others. If it runs out of memory, the edits stay as they were.
    pub(crate) fn push(
        &mut self,
        index: usize,
        remove: usize,
        additions: &[Event],
    ) -> Result<(), AllocError>
        ensures ok { OnOk result (self.new ≡ self.old ++ edit_at index remove additions.now ∷ []) }
        ensures err { OnErr result (self.new ≡ self.old) }
    {
        let start = self.additions.len();
        self.additions.extend_from_slice(additions)?;
        let end = self.additions.len();
        self.entries.push(Entry {
            index,
            remove,
            start,
            end,
        })?;
        Ok(())
    }

    /// Makes room for so many more edits with so many additions together. The edits stay as they are, also if it runs out of memory.
    pub(crate) fn reserve(&mut self, edits: usize, additions: usize) -> Result<(), AllocError>
        ensures { self.new ≡ self.old }
    {
        self.entries.reserve_exact(edits)?;
        self.additions.reserve_exact(additions)?;
        Ok(())
    }

    /// Moves the edits of another pool behind the others: all of them, or none if it runs out of memory.
    pub(crate) fn append(&mut self, more: &mut Pool) -> Result<(), AllocError>
        ensures ok { OnOk result ((self.new ≡ self.old ++ more.old) × (more.new ≡ [])) }
        ensures err { OnErr result ((self.new ≡ self.old) × (more.new ≡ more.old)) }
    {
        if self.entries.is_empty() {
            swap(self, more);
            more.clear();
            return Ok(());
        }
        let shift = self.additions.len();
        self.additions.reserve(more.additions.len())?;
        push_shifted(&mut self.entries, more.entries.as_slice(), shift)?;
        self.additions.append(&mut more.additions)?;
        more.entries.clear();
        Ok(())
    }

    /// The last edit: its index, how many events it removes, and its additions.
    pub(crate) fn last(&self) -> Option<(usize, usize, &[Event])>
        ensures some { IfSome result (λ e. self.now ≡ take (length self.now - 1) self.now ++ edit_at e.0 e.1 e.2.now ∷ []) }
        ensures none { IfNone result (self.now ≡ []) }
    {
        let entry = *self.entries.last()?;
        let additions = &self.additions[entry.start..entry.end];
        Some((entry.index, entry.remove, additions))
    }

    /// Takes out all edits but the first `len`.
    pub(crate) fn truncate(&mut self, len: usize)
        ensures { self.new ≡ take len self.old }
    {
        self.entries.truncate(len);
    }

    /// Takes out all edits.
    pub(crate) fn clear(&mut self)
        ensures { self.new ≡ [] }
    {
        self.entries.clear();
        self.additions.clear();
    }

    /// The events after the edits.
    pub(crate) fn spliced(&self, events: &[Event]) -> Result<Vec<Event>, AllocError>
        requires disjoint { AreDisjoint 0 self.now (length events.now) }
        requires links { All (EndsBelow (length events.now)) events.now }
        ensures { IfOk result (λ v. v.items ≡ spliced (place_by (shifts 0 0 self.now) 0 0) self.now 0 events.now) }
    {
        let alloc = self.allocator();
        spliced_events(alloc, &self.entries, &self.additions, events)
    }
}

/// Pushes entries whose parts are this much further on: all of them, or none if it runs out of memory.
fn push_shifted(entries: &mut Vec<Entry>, more: &[Entry], shift: usize) -> Result<(), AllocError>
    requires { All (λ e. (e.start + shift < 2 ^ 64) × (e.end + shift < 2 ^ 64)) more.now }
    ensures ok { OnOk result (entries.new.items ≡ entries.old.items ++ map (moved_by shift) more.now) }
    ensures err { OnErr result (entries.new.items ≡ entries.old.items) }
{
    entries.reserve(more.len())?;
    for entry in more {
        entries.push_reserved(Entry {
            start: entry.start + shift,
            end: entry.end + shift,
            ..*entry
        });
    }
    Ok(())
}
