//! What programs in C and in Rust call for the bytes of a document that they edit.

ghost use Rattle.std.specs.List.{slice_range};
ghost use Rattle.std.specs.Prelude.{◌≡◌, ◌≢◌, ◌≤◌, ◌↔◌, ◌⊎◌, ◌++◌, Err, None, IfErr, IfOk, IsSomeAnd, OnErr, drop, length, take};
ghost use Rattle.mdconstructs.specs.Divided.{bytes_of};
ghost use Rattle.limecove.specs.Bytes.{HoldsBytes};
ghost use Rattle.limecove.specs.Editing.{written};

use crate::code::{NO_SUCH_BYTES, NOT_OPEN, READ, VERSION};
use crate::document::Document;
use crate::held::Held;
use crate::html::write_bytes;
use crate::{Answer, ended};
use mdconstructs::sections::Sections;
use mddocument_link_targets::strings::slice;
use std::alloc::Global;
use std::cmp;

/// Writes the bytes of a document from one index up to another over the first bytes of `out`, as many as fit. The count is how many they
/// are.
#[unsafe(no_mangle)]
pub extern "C" fn limecove_document_bytes(
    alloc: Global,
    document: &mut Document,
    from: usize,
    to: usize,
    out: &mut [u8],
) -> Answer
    ensures read { result.code ≡ READ → IsSomeAnd document.old.kept.held (HoldsBytes from to result.count out.old out.new) }
    ensures unwritten { result.code ≢ READ → out.new ≡ out.old }
    ensures none { result.code ≢ READ → result.count ≡ 0 }
    ensures range { (result.code ≡ NO_SUCH_BYTES) ↔ IsSomeAnd document.old.kept.held (λ held. ¬ ((from ≤ to) × (to ≤ length (bytes_of held.sections)))) }
    ensures not_open { (result.code ≡ NOT_OPEN) ↔ (document.old.kept.held ≡ None) }
    ensures codes { (result.code ≡ READ) ⊎ ((result.code ≡ NO_SUCH_BYTES) ⊎ (result.code ≡ NOT_OPEN)) }
    ensures kept { document.new.kept.held ≡ document.old.kept.held }
    ensures version { result.version ≡ VERSION }
{
    let Some(held) = document.take(alloc) else {
        return ended(NOT_OPEN, 0);
    };
    let done = held.write_bytes(from, to, out);
    *document = Document::of(held);
    match done {
        Ok(count) => ended(READ, count),
        Err(code) => ended(code, 0),
    }
}

impl Held {
    /// Writes the bytes from one index up to another over the first of others, as many as fit. Returns how many they are.
    fn write_bytes(&self, from: usize, to: usize, out: &mut [u8]) -> Result<usize, u32>
        ensures written { IfOk result (λ count. HoldsBytes from to count out.old out.new self.now) }
        ensures kept { OnErr result (out.new ≡ out.old) }
        ensures range { (result ≡ Err NO_SUCH_BYTES) ↔ ¬ ((from ≤ to) × (to ≤ length (bytes_of self.now.sections))) }
        ensures codes { IfErr result (λ code. code ≡ NO_SUCH_BYTES) }
    {
        if from > to || to > self.sections.len() {
            return Err(NO_SUCH_BYTES);
        }
        write_between(&self.sections, from, to, out);
        Ok(to - from)
    }
}

/// Writes the bytes of a document from one index up to another over the first of others, as many as fit. It goes over the sections that these
/// bytes are in.
fn write_between(sections: &Sections, from: usize, to: usize, out: &mut [u8])
    ensures { out.new ≡ written out.old (slice_range (bytes_of sections.now) from to) }
{
    let count = sections.count();
    let first = sections.section_at(from);
    let start = sections.start_of(first);
    let mut done = 0;
    // The same indices into what is behind the sections so far.
    let mut begin = from - start;
    let mut end = to.saturating_sub(start);
    'writing: for index in first..count {
        if end == 0 {
            return;
        }
        let section = sections.section(index);
        let piece = slice(section, begin, end);
        write_at(out, done, piece);
        done += piece.len();
        begin = begin.saturating_sub(section.len());
        end = end.saturating_sub(section.len());
    }
}

/// Writes bytes over those of others from an index on, as many as fit.
fn write_at(out: &mut [u8], at: usize, bytes: &[u8])
    ensures { out.new ≡ take at out.old ++ written (drop at out.old) bytes.now }
{
    let from = cmp::min(at, out.len());
    write_bytes(&mut out[from..], bytes);
}
