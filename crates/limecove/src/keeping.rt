//! Documents: how they are kept and taken.

ghost use Rattle.std.specs.Prelude.{◌≡◌, Some};
ghost use Rattle.limecove.specs.Editing.{IsNotOpen, value_of};

use crate::document::{Document, KeptDocument};
use crate::held::Held;
use crate::loose::Loose;
use std::alloc::Global;
use std::mem;

impl Document {
    /// A document that is not open.
    pub(crate) fn closed() -> Document
        ensures { IsNotOpen result }
    {
        Document {
            is_open: 0,
            kept: KeptDocument::none(),
        }
    }

    /// An open document.
    pub(crate) fn of(held: Box<Held>) -> Document
        ensures { result.kept.held ≡ Some held.value }
    {
        Document {
            is_open: 1,
            kept: KeptDocument::of(Loose::of(held)),
        }
    }

    /// What is kept, which the document has no more. `None` if it was not open.
    pub(crate) fn take(&mut self, alloc: Global) -> Option<Box<Held>>
        ensures taken { value_of result ≡ self.old.kept.held }
        ensures closed { IsNotOpen self.new }
    {
        let Document { is_open, kept } = mem::replace(self, Document::closed());
        if is_open == 0 {
            return None;
        }
        Some(kept.into_loose(alloc).into_box())
    }
}
