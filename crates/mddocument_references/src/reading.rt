//! References that nothing defines, of bytes.

ghost use Rattle.std.specs.Prelude.{◌≡◌, IfOk};
ghost use Rattle.markdown_base.specs.Virtual.{IsWithinLimit};
ghost use Rattle.mdinline_labels.specs.Defined.{defines};
ghost use Rattle.mddocument_references.specs.Reading.{undefined_by};

use crate::references::{Reference, undefined_in};
use markdown_base::configuration::ParseOptions;
use mddocument::documents::read_document_by;
use mdgfm_documents::documents::with_gfm;
use mdinline_machine::inlines::Inlines;
use std::alloc::{AllocError, Global};

/// The references in a document whose labels this machine does not know, in their order. It reads the document by these labels, and not by those
/// that the document defines. Checks of tasks, calls of footnotes and autolink literals are no references, if they are on. It fails only if it runs out of memory.
pub fn undefined_references(
    alloc: Global,
    bytes: &[u8],
    options: &ParseOptions,
    machine: &Inlines,
) -> Result<Vec<Reference>, AllocError>
    requires limit { IsWithinLimit options.now.tab_size bytes.now }
    ensures { IfOk result (λ found. found.items ≡ undefined_by options.now (defines machine.now.labels) bytes.now) }
{
    let on = &options.constructs;
    let events = read_document_by(alloc, bytes, options, machine)?;
    let events = with_gfm(alloc, bytes, options, events)?;
    undefined_in(alloc, on, bytes, &machine.labels, events.as_slice())
}
