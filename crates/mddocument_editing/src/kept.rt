//! What is kept of a document that can be edited.

ghost use Rattle.std.specs.Prelude.{◌≡◌, ◌≤◌, ◌<◌, ◌^◌, ◌+◌, ◌||◌, ◌++◌, ◌↔◌, IfOk, IfSome, IfNone, IsErrOf, List, OnOk, ℕ, drop, length, map, slice_index, take, true};
ghost use Rattle.std.specs.List.{AllByRecursion, flat_map};
ghost use Rattle.markdown_base.specs.Virtual.{IsWithinLimit};
ghost use Rattle.markdown_tokenizer.specs.Text.{IsDocument};
ghost use Rattle.mddocument.specs.Documents.{document};
ghost use Rattle.mdgfm_documents.specs.Documents.{gfm_events};
ghost use Rattle.mddocument_parts.specs.Sections.{document_of};
ghost use Rattle.mddocument_editing.specs.Divided.{bytes_of};
ghost use Rattle.mddocument_editing.specs.Fits.{CanBeEdited};
ghost use Rattle.mddocument_editing.specs.Kept.{IsKept, IsLabelled, IsRead, bytes_of_parts, bytes_of_sections, divided_of};
ghost use Rattle.mddocument_editing.specs.Known.{Key, is_written, knows};
ghost use Rattle.mddocument_editing.specs.Packed.{events_fit};

use crate::cut::cut;
use crate::defined::Defined;
use crate::list::SectionList;
use crate::packed::PackError;
use crate::section::{Part, Section, parts_of, sections_of};
use markdown_base::configuration::ParseOptions;
use mddocument::limit::limit_of;
use std::alloc::{AllocError, Global};

/// A document that can be edited: its sections, each read by the labels of the whole document.
#[derive(Drop)]
pub(crate) struct Kept {
    /// How it is read.
    pub(crate) options: ParseOptions,
    /// The labels that the document defines, of links and of footnotes.
    pub(crate) known: Defined,
    /// Its sections.
    pub(crate) sections: SectionList,
}

/// Defines the labels that parts define.
pub(crate) fn define_parts(
    alloc: Global,
    labels: &mut Defined,
    options: &ParseOptions,
    parts: &[Part],
) -> Result<(), AllocError>
    requires { AllByRecursion (IsLabelled options.now) parts.now }
    ensures { OnOk result ((key : Key) → knows labels.new key ≡ (is_written options.now (bytes_of_parts parts.now) key || knows labels.old key)) }
{
    for part in parts {
        labels.define_all(alloc, &part.defined)?;
    }
    Ok(())
}

/// Defines the labels that sections define.
pub(crate) fn define_sections(
    alloc: Global,
    labels: &mut Defined,
    options: &ParseOptions,
    sections: &[Section],
) -> Result<(), AllocError>
    requires { AllByRecursion (λ section. IsLabelled options.now section.part) sections.now }
    ensures { OnOk result ((key : Key) → knows labels.new key ≡ (is_written options.now (bytes_of_sections sections.now) key || knows labels.old key)) }
{
    for section in sections {
        labels.define_all(alloc, &section.part.defined)?;
    }
    Ok(())
}

/// Bytes within the limit are a possible document. It does nothing; its contract says so.
fn is_document(bytes: &[u8], options: &ParseOptions)
    requires { IsWithinLimit options.now.tab_size bytes.now }
    ensures { IsDocument (document options.now bytes.now) }
{
    let _columns = options.tab_size.get();
}

/// A document, read section by section. It is `TooLong` if the document is longer than the limit, and else only if a number of an event does not fit.
pub(crate) fn read(alloc: Global, bytes: &[u8], options: &ParseOptions) -> Result<Kept, PackError>
    ensures kept { IfOk result IsKept }
    ensures options { IfOk result (λ kept. kept.options ≡ options.now) }
    ensures bytes { IfOk result (λ kept. bytes_of (divided_of kept) ≡ bytes.now) }
    ensures too_long { ¬ IsWithinLimit options.now.tab_size bytes.now → IsErrOf result PackError.TooLong }
    ensures fits { IsWithinLimit options.now.tab_size bytes.now → events_fit (gfm_events options.now bytes.now) ≡ true → ¬ IsErrOf result PackError.TooLong }
    ensures exact { CanBeEdited options.now bytes.now → ¬ IsErrOf result PackError.TooLong }
{
    if bytes.len() > limit_of(options.tab_size) {
        return Err(PackError::TooLong);
    }
    is_document(bytes, options);
    let parts = parts_of(alloc, options, cut(alloc, bytes, options)?)?;
    let mut known = Defined::new(alloc);
    define_parts(alloc, &mut known, options, parts.as_slice())?;
    let sections = sections_of(alloc, options, &known, parts)?;
    let list = SectionList::new(alloc, sections)?;
    Ok(Kept {
        options: *options,
        known,
        sections: list,
    })
}
