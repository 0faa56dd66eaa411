//! Edits of a list of events, gathered first and then all made at once.
//!
//! An edit that is made on its own moves all later events, and every link to one of them must follow. So a map holds
//! edits at indices into the events as they are, and each event and link end is moved once.

ghost use Rattle.std.specs.List.{AllByRecursion};
ghost use Rattle.std.specs.Prelude.{◌≡◌, ◌++◌, ◌+◌, ◌↔◌, ◌<◌, ◌≤◌, ◌^◌, [], length, IfOk, OnOk, OnErr, IsOk, All, IsTrue, if◌then◌else◌};
ghost use Rattle.markdown_base.specs.Events.{EndsBelow};
ghost use Rattle.markdown_edits.specs.Edits.{Edit, edit_at, is_no_edit, added_after, added_before, removal_at, AreDisjoint, AreBehind};
ghost use Rattle.markdown_edits.specs.Edited.{edited};
ghost use Rattle.markdown_edits.specs.Stored.{IsAscending};

use crate::pool::Pool;
use crate::tree::Tree;
use markdown_base::event::Event;
use std::alloc::{AllocError, Global};
use std::marker::Model;
use std::mem::swap;

/// Edits of a list of events, to be made at once: at an index, how many events go, and which come in their place.
#[derive(Drop)]
pub struct EditMap {
    /// Edits whose indices came in ascending order.
    front: Pool,
    /// Edits behind them, whose indices came in any order.
    behind: Tree,
}

impl Model for EditMap {
    ghost use Rattle.std.specs.Prelude.{List, ◌++◌};
    ghost use Rattle.markdown_edits.specs.Edits.{Edit};
    ghost use Rattle.markdown_edits.specs.Stored.{IsAscending};

    ghost Value = { List Edit };

    ghost view = { λ m. m.front ++ m.behind };

    ghost invariant = { λ m. IsAscending (m.front ++ m.behind) };
}

impl EditMap {
    /// No edits. Takes no memory.
    pub fn new(alloc: Global) -> Self
        ensures { result ≡ [] }
    {
        EditMap {
            front: Pool::new(alloc),
            behind: Tree::new(alloc),
        }
    }

    /// The same edits, in memory of their own.
    pub fn try_clone(&self, alloc: Global) -> Result<Self, AllocError>
        ensures { IfOk result (λ copy. copy ≡ self.now) }
    {
        let front = self.front.try_clone(alloc)?;
        let behind = self.behind.try_clone(alloc)?;
        Ok(EditMap { front, behind })
    }

    /// Adds an edit: at `index` (into the events as they are) `remove` events go, and `additions` come in their place.
    ///
    /// If the index has an edit, the two become one: their removals add up, and these additions come after the ones
    /// that are there. An edit that removes and adds nothing is ignored, and takes no memory. If it runs out of memory,
    /// the map stays as it was, and the additions are dropped.
    pub fn add(
        &mut self,
        index: usize,
        remove: usize,
        additions: Vec<Event>,
    ) -> Result<(), AllocError>
        requires sum_fits { 0 < remove → removal_at self.old index + remove < 2 ^ 64 }
        ensures ok { OnOk result (self.new ≡ added_after self.old (edit_at index remove additions.items)) }
        ensures err { OnErr result (self.new ≡ self.old) }
        ensures no_edit { IsTrue (is_no_edit (edit_at index remove additions.items)) → IsOk result }
    {
        self.add_impl(index, remove, additions, false)
    }

    /// Adds an edit as [`EditMap::add`] does, but with these additions before the ones that are there.
    pub fn add_before(
        &mut self,
        index: usize,
        remove: usize,
        additions: Vec<Event>,
    ) -> Result<(), AllocError>
        requires sum_fits { 0 < remove → removal_at self.old index + remove < 2 ^ 64 }
        ensures ok { OnOk result (self.new ≡ added_before self.old (edit_at index remove additions.items)) }
        ensures err { OnErr result (self.new ≡ self.old) }
        ensures no_edit { IsTrue (is_no_edit (edit_at index remove additions.items)) → IsOk result }
    {
        self.add_impl(index, remove, additions, true)
    }

    /// Adds an edit. If `before` is set, its additions come before the ones that are there, and else after them.
    fn add_impl(
        &mut self,
        index: usize,
        remove: usize,
        additions: Vec<Event>,
        before: bool,
    ) -> Result<(), AllocError>
        requires sum_fits { 0 < remove → removal_at self.old index + remove < 2 ^ 64 }
        ensures ok { OnOk result (self.new ≡ (if before then added_before self.old (edit_at index remove additions.items) else added_after self.old (edit_at index remove additions.items))) }
        ensures err { OnErr result (self.new ≡ self.old) }
        ensures no_edit { IsTrue (is_no_edit (edit_at index remove additions.items)) → IsOk result }
    {
        if is_nothing(remove, &additions) {
            return Ok(());
        }
        if is_last(&self.front, &self.behind, index) {
            self.front.push(index, remove, &additions)?;
            return Ok(());
        }
        sink(&mut self.front, &mut self.behind, index)?;
        self.behind.add(index, remove, additions, before)?;
        Ok(())
    }

    /// Adds an edit as [`EditMap::add`] does, of copies of these additions.
    pub(crate) fn add_copies(
        &mut self,
        index: usize,
        remove: usize,
        additions: &[Event],
    ) -> Result<(), AllocError>
        requires sum_fits { 0 < remove → removal_at self.old index + remove < 2 ^ 64 }
        ensures ok { OnOk result (self.new ≡ added_after self.old (edit_at index remove additions.now)) }
        ensures err { OnErr result (self.new ≡ self.old) }
        ensures no_edit { IsTrue (is_no_edit (edit_at index remove additions.now)) → IsOk result }
    {
        if is_nothing(remove, additions) {
            return Ok(());
        }
        if is_last(&self.front, &self.behind, index) {
            self.front.push(index, remove, additions)?;
            return Ok(());
        }
        let alloc = self.front.allocator();
        self.add(index, remove, Vec::from_slice(alloc, additions)?)
    }

    /// Makes room for so many more edits, at ascending indices, with so many additions together.
    pub(crate) fn reserve(&mut self, edits: usize, additions: usize) -> Result<(), AllocError>
        ensures { self.new ≡ self.old }
    {
        self.front.reserve(edits, additions)?;
        Ok(())
    }

    /// Moves the edits of another map into this one. They must be behind all edits that are there.
    ///
    /// If it runs out of memory, both maps stay as they were; else the other one is left empty.
    pub fn append(&mut self, more: &mut EditMap) -> Result<(), AllocError>
        requires { AreBehind self.old more.old }
        ensures ok { OnOk result ((self.new ≡ self.old ++ more.old) × (more.new ≡ [])) }
        ensures err { OnErr result ((self.new ≡ self.old) × (more.new ≡ more.old)) }
    {
        if self.behind.is_empty() {
            self.front.append(&mut more.front)?;
            swap(&mut self.behind, &mut more.behind);
            return Ok(());
        }
        sink(&mut more.front, &mut more.behind, 0)?;
        self.behind.append(&mut more.behind)?;
        Ok(())
    }

    /// Takes out all edits. The memory of those that came in order is kept. Takes no memory.
    pub fn clear(&mut self)
        ensures { self.new ≡ [] }
    {
        self.front.clear();
        self.behind.clear();
    }

    /// Whether there are no edits.
    fn is_empty(&self) -> bool
        ensures { IsTrue result ↔ (self.now ≡ []) }
    {
        self.front.is_empty() && self.behind.is_empty()
    }

    /// Makes all edits at once, and leaves the map empty.
    ///
    /// At each index come the additions, and then the event there, unless it is removed. Events that stay are linked to
    /// each other as before. A link end whose event was removed becomes `None`. Link ends inside additions are indices
    /// into the new list.
    ///
    /// Each edit must end at or before the index of the next, and inside the list. An empty map takes no memory. If it
    /// runs out of memory, map and events stay as they were.
    pub fn consume(&mut self, events: &mut Vec<Event>) -> Result<(), AllocError>
        requires disjoint { AreDisjoint 0 self.old (length events.old.items) }
        requires links { All (EndsBelow (length events.old.items)) events.old.items }
        ensures ok { OnOk result (events.new.items ≡ edited self.old events.old.items) }
        ensures emptied { OnOk result (self.new ≡ []) }
        ensures err { OnErr result ((events.new.items ≡ events.old.items) × (self.new ≡ self.old)) }
        ensures empty { self.old ≡ [] → IsOk result }
    {
        if self.is_empty() {
            return Ok(());
        }
        self.behind.move_into(&mut self.front)?;
        let spliced = self.front.spliced(events.as_slice())?;
        put_in(events, spliced);
        self.clear();
        Ok(())
    }
}

/// Makes a list this one. If there is room for it, it is copied, so that the list keeps its room.
fn put_in(events: &mut Vec<Event>, new: Vec<Event>)
    ensures { events.new.items ≡ new.items }
{
    events.clear();
    if new.len() > events.capacity() || events.extend_from_slice(new.as_slice()).is_err() {
        *events = new;
    }
}

/// Whether an edit that removes so many events and adds these is none.
fn is_nothing(remove: usize, additions: &[Event]) -> bool
    ensures { result ≡ is_no_edit (edit_at 0 remove additions.now) }
{
    remove == 0 && additions.is_empty()
}

/// Whether an edit at an index is behind all edits of a pool and of the tree of the edits behind the pool's, and the tree is empty.
fn is_last(front: &Pool, behind: &Tree, index: usize) -> bool
    requires { IsAscending front.now }
    ensures none { IsTrue result → (behind.now ≡ []) }
    ensures all { IsTrue result → AllByRecursion (λ (e : Edit). e.index < index) front.now }
{
    behind.is_empty() && front.ends_before(index)
}

/// Moves the edits at an index and behind it from a pool into the tree of the edits behind the pool's, the last one
/// first. If it runs out of memory, some of them are left.
fn sink(front: &mut Pool, behind: &mut Tree, index: usize) -> Result<(), AllocError>
    requires { IsAscending (front.old ++ behind.old) }
    ensures same { front.new ++ behind.new ≡ front.old ++ behind.old }
    ensures ok { OnOk result (AllByRecursion (λ (e : Edit). e.index < index) front.new) }
{
    while !front.ends_before(index) {
        sink_last(front, behind)?;
    }
    Ok(())
}

/// Moves the last edit of a pool into the tree of the edits behind the pool's. If it runs out of memory, nothing changes.
fn sink_last(front: &mut Pool, behind: &mut Tree) -> Result<(), AllocError>
    requires ascending { IsAscending (front.old ++ behind.old) }
    requires some { 0 < length front.old }
    ensures same { front.new ++ behind.new ≡ front.old ++ behind.old }
    ensures ok { OnOk result (length front.new < length front.old) }
{
    let Some((index, remove, additions)) = front.last() else {
        return Ok(());
    };
    behind.push_front(front.allocator(), index, remove, additions)?;
    front.truncate(front.len() - 1);
    Ok(())
}
