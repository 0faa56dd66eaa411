//! Documents that can be edited, each on the heap as its pointer, which a caller keeps between calls.

ghost use Rattle.std.specs.Prelude.{◌≡◌, ◌<◌, ◌↔◌, Option, Some, None, IsSome};
ghost use Rattle.std.specs.Coded.{coded_option};
ghost use Rattle.limecove.specs.declared.held.Held.{Held};
ghost use Rattle.limecove.specs.Holding.{held_code, held_row};
ghost use Rattle.limecove.specs.Kept.{kept_owns};

use crate::held::Held;
use crate::loose::Loose;
use std::alloc::Global;
use std::marker::Model;
use std::{fmt, ptr};

/// The pointer of a document, or no document.
#[repr(C)]
#[derive(Drop)]
pub struct KeptDocument {
    at: *mut u8,
    pub(crate) ghost held: { Option Held } by { coded_option held_code },
}

impl Model for KeptDocument {
    ghost also_owns = { λ kept. kept_owns held_row kept.at kept.held };
}

impl fmt::Debug for KeptDocument {
    /// Shows no address.
    fn fmt<W: fmt::Write>(&self, f: &mut fmt::Formatter<W>) -> fmt::Result {
        write!(f, "KeptDocument")
    }
}

/// A document that can be edited. A caller keeps it between calls, and changes nothing in it.
#[repr(C)]
#[derive(Debug, Drop)]
pub struct Document {
    /// Whether there is a document: 1 if it is open, 0 if it is not.
    pub is_open: usize,
    /// The document.
    pub kept: KeptDocument,
    ghost opened: { 0 < is_open ↔ IsSome kept.held },
}

impl KeptDocument {
    /// No document.
    pub(crate) fn none() -> KeptDocument
        ensures { result.held ≡ None }
    {
        KeptDocument {
            at: ptr::null_mut(),
        }
    }

    /// A document.
    pub(crate) fn of(loose: Loose<Held, Global>) -> KeptDocument
        ensures { result.held ≡ Some loose.value }
    {
        let Loose { at, alloc: _ } = loose;
        KeptDocument { at: at as *mut u8 }
    }

    /// The document.
    pub(crate) fn into_loose(self, alloc: Global) -> Loose<Held, Global>
        requires { IsSome self.held }
        ensures { self.held ≡ Some result.value }
    {
        let KeptDocument { at } = self;
        Loose {
            at: at as *mut Held,
            alloc,
        }
    }
}
