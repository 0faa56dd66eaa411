//! What programs in C and in Rust call for references that nothing defines.

ghost use Rattle.std.specs.Prelude.{◌≡◌, ◌≢◌, ◌≤◌, ◌↔◌, ◌⊎◌, Err, None, IfErr, IfOk, IsSomeAnd, length};
ghost use Rattle.mdconstructs.specs.Undefined.{undefined_between};
ghost use Rattle.limecove.specs.Undefined.{HoldsUndefined, label_of, labelled};

use crate::code::{NO_SUCH_RANGES, NOT_OPEN, OUT_OF_MEMORY, READ, VERSION};
use crate::document::Document;
use crate::held::Held;
use crate::{Answer, ended};
use mdconstructs::ranges::ByteRange;
use mddocument_references::references::Reference;
use std::alloc::Global;
use std::cmp;

/// Writes where the labels are that nothing in the document defines, of the references in the sections from one up to another, over the first
/// ranges, as many as fit. The count is that of these references.
#[unsafe(no_mangle)]
pub extern "C" fn limecove_document_undefined(
    alloc: Global,
    document: &mut Document,
    from: usize,
    to: usize,
    labels: &mut [ByteRange],
) -> Answer
    ensures read { result.code ≡ READ → IsSomeAnd document.old.kept.held (HoldsUndefined from to result.count labels.old labels.new) }
    ensures unwritten { result.code ≢ READ → labels.new ≡ labels.old }
    ensures none { result.code ≢ READ → result.count ≡ 0 }
    ensures ranges { (result.code ≡ NO_SUCH_RANGES) ↔ IsSomeAnd document.old.kept.held (λ held. ¬ ((from ≤ to) × (to ≤ length held.sections.sections))) }
    ensures not_open { (result.code ≡ NOT_OPEN) ↔ (document.old.kept.held ≡ None) }
    ensures codes { (result.code ≤ OUT_OF_MEMORY) ⊎ ((result.code ≡ NO_SUCH_RANGES) ⊎ (result.code ≡ NOT_OPEN)) }
    ensures kept { document.new.kept.held ≡ document.old.kept.held }
    ensures version { result.version ≡ VERSION }
{
    let Some(held) = document.take(alloc) else {
        return ended(NOT_OPEN, 0);
    };
    let found = held.undefined(alloc, from, to);
    *document = Document::of(held);
    match found {
        Ok(references) => ended(READ, write_labels(labels, references.as_slice())),
        Err(code) => ended(code, 0),
    }
}

impl Held {
    /// The references of the sections from one up to another that nothing in the document defines.
    fn undefined(&self, alloc: Global, from: usize, to: usize) -> Result<Vec<Reference>, u32>
        ensures found { IfOk result (λ found. found.items ≡ undefined_between self.now.sections from to) }
        ensures ranges { (result ≡ Err NO_SUCH_RANGES) ↔ ¬ ((from ≤ to) × (to ≤ length self.now.sections.sections)) }
        ensures codes { IfErr result (λ code. (code ≡ OUT_OF_MEMORY) ⊎ (code ≡ NO_SUCH_RANGES)) }
    {
        if from > to || to > self.sections.count() {
            return Err(NO_SUCH_RANGES);
        }
        match self.sections.undefined(alloc, from, to) {
            Ok(found) => Ok(found),
            Err(_) => Err(OUT_OF_MEMORY),
        }
    }
}

/// Writes where the labels of references are over the first ranges, as many as fit. Returns the number of references.
fn write_labels(labels: &mut [ByteRange], references: &[Reference]) -> usize
    ensures written { labels.new ≡ labelled labels.old references.now }
    ensures count { result ≡ length references.now }
{
    let written = cmp::min(labels.len(), references.len());
    'writing: for i in 0..written {
        labels[i] = label_of(&references[i]);
    }
    references.len()
}

/// The bytes of the label of a reference.
fn label_of(reference: &Reference) -> ByteRange
    ensures { result ≡ label_of reference.now }
{
    ByteRange {
        from: reference.from,
        to: reference.to,
    }
}
