//! References that nothing defines, in a document.

ghost use Rattle.std.specs.Prelude.{◌≡◌, ◌≤◌, IfOk, length};
ghost use Rattle.mddocument_editing.specs.Divided.{bytes_of};
ghost use Rattle.mddocument_editing.specs.Kept.{IsKept, divided_of};
ghost use Rattle.mddocument_editing.specs.Undefined.{undefined_between};

use crate::kept::Kept;
use crate::moved::events_between;
use crate::recut::append_sections;
use mddocument_references::references::{Reference, undefined_in};
use std::alloc::{AllocError, Global};

/// The document's bytes.
fn all_bytes(alloc: Global, kept: &Kept) -> Result<Vec<u8>, AllocError>
    ensures { IfOk result (λ bytes. bytes.items ≡ bytes_of (divided_of kept.now)) }
{
    let mut bytes = Vec::new(alloc);
    append_sections(&mut bytes, kept.sections.as_slice())?;
    Ok(bytes)
}

/// The references of the sections from one up to another that nothing in the document defines. It copies the document's bytes.
#[tactic(auto, using(crate::proofs::KeptLabels::kept_labels))]
pub(crate) fn undefined_between(
    alloc: Global,
    kept: &Kept,
    from: usize,
    to: usize,
) -> Result<Vec<Reference>, AllocError>
    requires kept { IsKept kept.now }
    requires order { from ≤ to }
    requires within { to ≤ length kept.now.sections.items }
    ensures { IfOk result (λ found. found.items ≡ undefined_between (divided_of kept.now) from to) }
{
    let events = events_between(alloc, kept, from, to)?;
    let bytes = all_bytes(alloc, kept)?;
    let on = &kept.options.constructs;
    let labels = &kept.known.machine.labels;
    let found = undefined_in(alloc, on, bytes.as_slice(), labels, events.as_slice())?;
    Ok(found)
}
