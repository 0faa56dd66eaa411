//! Edits of a document.

ghost use Rattle.std.specs.Prelude.{◌≡◌};
ghost use Rattle.mddocument_editing.specs.declared.edit.Refused.TheVariants.{Memory, TooLong};

use crate::packed::PackError;
use std::alloc::{AllocError, AllocFailed};

/// Bytes in the place of others.
#[derive(Clone, Copy, Debug, PartialEq, Eq)]
pub struct Edit<'a> {
    /// The index of the first byte that goes.
    pub from: usize,
    /// The index of the byte behind the last one that goes.
    pub to: usize,
    /// What comes in their place.
    pub with: &'a [u8],
}

/// Why a section is named that was not replaced.
#[derive(Clone, Copy, Debug, PartialEq, Eq)]
pub enum Why {
    /// It has other events than before, since a label of links or of footnotes came or went.
    Events,
    /// It has the events that it had, and a link or an image in it leads elsewhere, since another definition of its label is the first, or says something
    /// else.
    Targets,
}

/// A section that was not replaced, and of which something is new.
#[derive(Clone, Copy, Debug, PartialEq, Eq)]
pub struct Other {
    /// Its number, as sections are numbered now.
    pub section: usize,
    /// What is new of it.
    pub why: Why,
}

/// What an edit changed. Sections in front of the replaced ones and behind them have the bytes that they had. As many stay at both ends as can: if
/// sections were replaced by others, the first ones differ, and so do the last. An edit that leaves the document as it was changes nothing.
#[derive(Debug, Drop)]
pub struct Change {
    /// The first section that was replaced, and the first new one.
    pub from: usize,
    /// The section behind the last that was replaced, as sections were numbered before.
    pub old_to: usize,
    /// The section behind the last new one, as they are numbered now.
    pub new_to: usize,
    /// Other sections that have other events than before, or of which a link leads elsewhere: all of them, in order.
    pub others: Vec<Other>,
}

/// Why a document was not edited. It is as it was.
#[derive(Clone, Copy, Debug, PartialEq, Eq)]
pub enum Refused {
    /// It ran out of memory.
    Memory,
    /// The bytes that go are none of the document.
    Range,
    /// The document would be longer than the limit, or a number of an event would not fit.
    TooLong,
}

impl From<AllocError> for Refused {
    ghost from_gives = { λ _ error. error ≡ Memory };

    /// A failed allocation is `Memory`.
    fn from(_error: AllocError) -> Refused {
        Refused::Memory
    }
}

impl<T: Drop> From<AllocFailed<T>> for Refused {
    ghost from_gives = { λ _ error. error ≡ Memory };

    /// So is one that gives back what it was to keep.
    fn from(_failed: AllocFailed<T>) -> Refused {
        Refused::Memory
    }
}
