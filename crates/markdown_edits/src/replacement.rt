//! Edits as a map keeps them.

ghost use Rattle.std.specs.Prelude.{◌≡◌, ◌+◌, ◌<◌, ◌^◌, ◌++◌, OnOk, OnErr, if◌then◌else◌};

use markdown_base::event::Event;
use std::alloc::AllocError;

/// What is kept at the index of an edit.
#[derive(Drop)]
pub(crate) struct Replacement {
    /// How many events go, from the index on.
    pub(crate) remove: usize,
    /// What comes in their place.
    pub(crate) additions: Vec<Event>,
}

impl Replacement {
    /// Makes one edit of this and a second one at its index. If `before` is set, the second one's additions come first,
    /// and else last.
    ///
    /// If it runs out of memory, the edit means what it meant.
    pub(crate) fn add(
        &mut self,
        remove: usize,
        additions: Vec<Event>,
        before: bool,
    ) -> Result<(), AllocError>
        requires sum_fits { 0 < remove → self.old.remove + remove < 2 ^ 64 }
        ensures remove { OnOk result (self.new.remove ≡ self.old.remove + remove) }
        ensures additions { OnOk result (self.new.additions.items ≡ (if before then additions.items ++ self.old.additions.items else self.old.additions.items ++ additions.items)) }
        ensures err { OnErr result ((self.new.remove ≡ self.old.remove) × (self.new.additions.items ≡ self.old.additions.items)) }
    {
        if before {
            self.prepend(remove, additions)
        } else {
            self.append(remove, &additions)
        }
    }

    /// Makes one edit of this and a second one at its index, whose additions come last.
    ///
    /// If it runs out of memory, the edit means what it meant.
    fn append(&mut self, remove: usize, additions: &[Event]) -> Result<(), AllocError>
        requires sum_fits { 0 < remove → self.old.remove + remove < 2 ^ 64 }
        ensures remove { OnOk result (self.new.remove ≡ self.old.remove + remove) }
        ensures additions { OnOk result (self.new.additions.items ≡ self.old.additions.items ++ additions.now) }
        ensures err { OnErr result ((self.new.remove ≡ self.old.remove) × (self.new.additions.items ≡ self.old.additions.items)) }
    {
        self.additions.extend_from_slice(additions)?;
        self.remove += remove;
        Ok(())
    }

    /// Makes one edit of this and a second one at its index, whose additions come first.
    ///
    /// If it runs out of memory, the edit means what it meant.
    fn prepend(&mut self, remove: usize, additions: Vec<Event>) -> Result<(), AllocError>
        requires sum_fits { 0 < remove → self.old.remove + remove < 2 ^ 64 }
        ensures remove { OnOk result (self.new.remove ≡ self.old.remove + remove) }
        ensures additions { OnOk result (self.new.additions.items ≡ additions.items ++ self.old.additions.items) }
        ensures err { OnErr result ((self.new.remove ≡ self.old.remove) × (self.new.additions.items ≡ self.old.additions.items)) }
    {
        let mut additions = additions;
        additions.extend_from_slice(&self.additions)?;
        self.additions = additions;
        self.remove += remove;
        Ok(())
    }
}
