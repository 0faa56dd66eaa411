//! A list of events on the heap as its pointer, which a caller keeps between calls.

ghost use Rattle.std.specs.Prelude.{◌≡◌, ◌<◌, ◌↔◌, Option, Some, None, IsSome};
ghost use Rattle.std.specs.Coded.{coded_option};
ghost use Rattle.std.specs.Global.{Global};
ghost use Rattle.std.specs.declared.vec.Vec.{Vec};
ghost use Rattle.markdown.specs.declared.event.Event.{Event};
ghost use Rattle.limecove.specs.Kept.{kept_owns, list_code, list_row};

use crate::loose::Loose;
use markdown::event::Event;
use std::alloc::Global;
use std::marker::Model;
use std::{fmt, ptr};

/// The pointer of a list of events, or no list.
#[repr(C)]
#[derive(Drop)]
pub struct Kept {
    at: *mut u8,
    pub(crate) ghost list: { Option (Vec Event Global) } by { coded_option list_code },
}

impl Model for Kept {
    ghost also_owns = { λ kept. kept_owns list_row kept.at kept.list };
}

impl fmt::Debug for Kept {
    /// Shows no address.
    fn fmt<W: fmt::Write>(&self, f: &mut fmt::Formatter<W>) -> fmt::Result {
        write!(f, "Kept")
    }
}

/// A document that was read, with its events. A caller keeps it between calls, and changes nothing in it.
#[repr(C)]
#[derive(Debug, Drop)]
pub struct Reading {
    /// Whether it has a list of events: 1 if it is open, 0 if it is not.
    pub is_open: usize,
    /// The list.
    pub kept: Kept,
    ghost opened: { 0 < is_open ↔ IsSome kept.list },
}

impl Kept {
    /// No list.
    pub(crate) fn none() -> Kept
        ensures { result.list ≡ None }
    {
        Kept {
            at: ptr::null_mut(),
        }
    }

    /// A list.
    pub(crate) fn of(loose: Loose<Vec<Event>, Global>) -> Kept
        ensures { result.list ≡ Some loose.value }
    {
        let Loose { at, alloc: _ } = loose;
        Kept { at: at as *mut u8 }
    }

    /// The list.
    pub(crate) fn into_loose(self, alloc: Global) -> Loose<Vec<Event>, Global>
        requires { IsSome self.list }
        ensures { self.list ≡ Some result.value }
    {
        let Kept { at } = self;
        Loose {
            at: at as *mut Vec<Event>,
            alloc,
        }
    }
}
