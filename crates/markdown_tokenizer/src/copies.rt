//! Copies, in memory of their own.
//!
//! What a tokenizer holds is copied so, and what a machine keeps of a document must be, if its tokenizers are to be copied.

use markdown_base::event::Event;
use markdown_base::owned::{Items, OwnedText};
use std::alloc::{AllocError, Global};

/// What can be copied, if there is memory.
pub trait TryClone: Sized {
    ghost use Rattle.std.specs.Prelude.{◌≡◌, IfOk};

    /// The same value, in memory of its own.
    fn try_clone(&self, alloc: Global) -> Result<Self, AllocError>
        ensures { IfOk result (λ copy. copy ≡ self.now) };
}

impl TryClone for () {
    /// Nothing, once more. Takes no memory.
    fn try_clone(&self, _alloc: Global) -> Result<Self, AllocError> {
        Ok(())
    }
}

impl TryClone for Event {
    /// The same event. Takes no memory.
    fn try_clone(&self, _alloc: Global) -> Result<Self, AllocError> {
        Ok(*self)
    }
}

impl TryClone for OwnedText {
    /// The same text, in memory of its own.
    fn try_clone(&self, alloc: Global) -> Result<Self, AllocError> {
        OwnedText::try_clone(self, alloc)
    }
}

impl<T: TryClone> TryClone for Option<T> {
    /// A copy of what is there, if something is.
    fn try_clone(&self, alloc: Global) -> Result<Self, AllocError> {
        match self {
            Some(item) => Ok(Some(item.try_clone(alloc)?)),
            None => Ok(None),
        }
    }
}

impl<T: TryClone + Drop> TryClone for Items<T> {
    /// A copy of each item, in order.
    fn try_clone(&self, alloc: Global) -> Result<Self, AllocError> {
        let mut copies = Items::new(alloc);
        for item in self.as_slice() {
            copies.push(item.try_clone(alloc)?)?;
        }
        Ok(copies)
    }
}

ghost use Rattle.std.specs.Prelude.{◌≡◌, IfOk};

/// The same items, which need no memory of their own, in a list of its own.
pub(crate) fn copied<T: Copy>(items: &Items<T>, alloc: Global) -> Result<Items<T>, AllocError>
    ensures { IfOk result (λ copy. copy ≡ items.now) }
{
    Ok(Items::from_vec(Vec::from_slice(alloc, items.as_slice())?))
}
