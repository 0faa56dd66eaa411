//! Sections that are cut again where a document is edited.

ghost use Rattle.std.specs.Prelude.{◌≡◌, ◌⊎◌, ◌≤◌, ◌<◌, ◌+◌, ◌-◌, ◌^◌, ◌++◌, [], IfNone, IfOk, IfSome, OnOk, List, ℕ, drop, length, map, take, true};
ghost use Rattle.std.specs.List.{slice_index_or};
ghost use Rattle.markdown_base.specs.Virtual.{IsWithinLimit};
ghost use Rattle.mddocument_parts.specs.Moved.{begins_line};
ghost use Rattle.mddocument_parts.specs.Sections.{document_of};
ghost use Rattle.mddocument_editing.specs.Divided.{bytes_of};
ghost use Rattle.mddocument_editing.specs.Edits.{IsInside, edited};
ghost use Rattle.mddocument_editing.specs.FirstRest.{AreSectionsOf, items_of};
ghost use Rattle.mddocument_editing.specs.Kept.{IsKept, IsRecut, bytes_of_sections, divided_of, recut_sections};
ghost use Rattle.mddocument_editing.specs.Lookups.{IsSectionAt, start_of};
ghost use Rattle.mddocument_editing.specs.Seams.{IsSeam};
ghost use Rattle.mddocument_editing.specs.Settled.{has_ending, is_settled};
ghost use Rattle.mddocument_editing.specs.Trims.{AreTrimmed};

use crate::cut::cut;
use crate::edit::Edit;
use crate::kept::Kept;
use crate::lookup::section_and_left;
use crate::section::Section;
use crate::trim::{Recut, trim};
use markdown_base::configuration::ParseOptions;
use markdown_base::util::place::ends_line;
use std::alloc::{AllocError, Global};

/// Whether a line ends in bytes, whatever comes behind them.
fn is_settled(bytes: &[u8]) -> bool
    ensures { result ≡ is_settled bytes.now }
{
    let mut index = 0;
    while index < bytes.len() {
        let byte = bytes[index];
        index += 1;
        if byte == b'\n' || byte == b'\r' && index < bytes.len() {
            return true;
        }
    }
    false
}

/// Whether a line ends in bytes, if there is one more behind them.
fn has_ending(bytes: &[u8]) -> bool
    ensures { result ≡ has_ending bytes.now }
{
    bytes.iter().any(|byte| *byte == b'\n' || *byte == b'\r')
}

/// Whether a line ends in the bytes of a section, whatever comes behind them; or if there are some behind them that stay, whatever comes behind these.
fn is_settled_by(bytes: &[u8], some_stay: bool) -> bool
    ensures { result ≡ true → (more : List ℕ) → (some_stay ≡ true → 0 < length more) → is_settled (bytes.now ++ more) ≡ true }
{
    if some_stay {
        has_ending(bytes)
    } else {
        is_settled(bytes)
    }
}

/// The first section to be cut again, and where it starts, if the document is edited from a byte on: the last one of which a line ends in front of the
/// byte, whatever comes there; or the first, if there is none. So it begins at a rest as before. The section that the byte is in was found.
fn first_touched(sections: &[Section], byte: usize, found: (usize, usize)) -> (usize, usize)
    requires section { IsSectionAt (bytes_of_sections sections.now) byte found.0 }
    requires left { start_of (bytes_of_sections sections.now) found.0 + found.1 ≡ byte }
    requires inside { byte ≤ length (document_of (bytes_of_sections sections.now)) }
    requires short { length (document_of (bytes_of_sections sections.now)) < 2 ^ 64 }
    ensures within { result.0 ≤ length sections.now }
    ensures start { result.1 ≡ length (document_of (take result.0 (bytes_of_sections sections.now))) }
    ensures before { result.1 ≤ byte }
    ensures settled { (result.0 ≡ 0) ⊎ (is_settled (take (byte - result.1) (drop result.1 (document_of (bytes_of_sections sections.now)))) ≡ true) }
{
    let (mut index, left) = found;
    let mut start = byte - left;
    if index < sections.len()
        && is_settled(&sections[index].part.bytes.as_slice()[..byte - start])
    {
        return (index, start);
    }
    while index > 0 {
        let end = start;
        index -= 1;
        let bytes = sections[index].part.bytes.as_slice();
        start -= bytes.len();
        if is_settled_by(bytes, end < byte) {
            return (index, start);
        }
    }
    (0, 0)
}

/// The first section from one on that begins at a byte or behind it, or the number of sections; and where it begins. The one begins at an index.
fn behind(sections: &[Section], from: usize, start: usize, byte: usize) -> (usize, usize)
    requires within { from ≤ length sections.now }
    requires start { start ≡ length (document_of (take from (bytes_of_sections sections.now))) }
    requires byte { byte ≤ length (document_of (bytes_of_sections sections.now)) }
    requires short { length (document_of (bytes_of_sections sections.now)) < 2 ^ 64 }
    ensures order { from ≤ result.0 }
    ensures within { result.0 ≤ length sections.now }
    ensures start { result.1 ≡ length (document_of (take result.0 (bytes_of_sections sections.now))) }
    ensures behind { byte ≤ result.1 }
{
    let mut index = from;
    let mut at = start;
    while index < sections.len() && at < byte {
        at += sections[index].part.bytes.len();
        index += 1;
    }
    (index, at)
}

/// Appends the bytes of sections.
pub(crate) fn append_sections(bytes: &mut Vec<u8>, sections: &[Section]) -> Result<(), AllocError>
    ensures { OnOk result (bytes.new.items ≡ bytes.old.items ++ document_of (bytes_of_sections sections.now)) }
{
    for section in sections {
        bytes.extend_from_slice(section.part.bytes.as_slice())?;
    }
    Ok(())
}

/// The bytes of sections, of which the first starts at an index, edited.
fn edited_bytes(
    alloc: Global,
    sections: &[Section],
    start: usize,
    edit: &Edit,
) -> Result<Vec<u8>, AllocError>
    requires start { start ≤ edit.now.from }
    requires order { edit.now.from ≤ edit.now.to }
    requires within { edit.now.to ≤ start + length (document_of (bytes_of_sections sections.now)) }
    ensures { let old = document_of (bytes_of_sections sections.now) in IfOk result (λ text. text.items ≡ take (edit.now.from - start) old ++ (edit.now.with.now ++ drop (edit.now.to - start) old)) }
{
    let mut old = Vec::new(alloc);
    append_sections(&mut old, sections)?;
    let old = old.as_slice();
    let mut text = old[..edit.from - start].to_vec(alloc)?;
    text.extend_from_slice(edit.with)?;
    text.extend_from_slice(&old[edit.to - start..])?;
    Ok(text)
}

/// How many parts end where one of the sections begins, of which the first begins at an index, and how many sections are in front of that one. `None`
/// if no part ends where one begins.
fn meeting(parts: &[Vec<u8>], size: usize, sections: &[Section]) -> Option<(usize, usize)>
    requires parts { length (document_of (items_of parts.now)) < 2 ^ 64 }
    requires sections { size + length (document_of (bytes_of_sections sections.now)) < 2 ^ 64 }
    ensures parts { IfSome result (λ found. found.0 ≤ length parts.now) }
    ensures sections { IfSome result (λ found. found.1 < length sections.now) }
    ensures meet { IfSome result (λ found. length (document_of (take found.0 (items_of parts.now))) ≡ size + length (document_of (take found.1 (bytes_of_sections sections.now)))) }
    ensures none { IfNone result ((some passed : ℕ) → passed < length sections.now → ¬ (length (document_of (take some (items_of parts.now))) ≡ size + length (document_of (take passed (bytes_of_sections sections.now))))) }
{
    let mut kept = 0;
    let mut end = 0;
    let mut passed = 0;
    let mut start = size;
    while passed < sections.len() {
        if end == start {
            return Some((kept, passed));
        }
        if end < start {
            if kept == parts.len() {
                return None;
            }
            end += parts[kept].len();
            kept += 1;
        } else {
            start += sections[passed].part.bytes.len();
            passed += 1;
        }
    }
    None
}

/// Where the first line of bytes ends, behind its line ending.
fn first_line_end(bytes: &[u8]) -> usize
    requires { 0 < length bytes.now }
    ensures some { 0 < result }
    ensures within { result ≤ length bytes.now }
    ensures line { result < length bytes.now → begins_line (drop result bytes.now) (take result bytes.now) ≡ true }
{
    for index in 0..bytes.len() {
        if ends_line(bytes, index) {
            return index + 1;
        }
    }
    bytes.len()
}

/// How many of the first parts have this many bytes together. `None` if no first ones have, but for all of them.
fn parts_with(parts: &[Vec<u8>], size: usize) -> Option<usize>
    ensures { IfSome result (λ some. length (document_of (take some (items_of parts.now))) ≡ size) }
{
    let mut left = size;
    for count in 0..parts.len() {
        if left == 0 {
            return Some(count);
        }
        let len = parts[count].len();
        if len > left {
            return None;
        }
        left -= len;
    }
    None
}

/// Bytes, cut at each rest: the parts in front of an index. `None` if they are not cut there.
fn parts_in_front(
    alloc: Global,
    options: &ParseOptions,
    bytes: &[u8],
    index: usize,
) -> Result<Option<Vec<Vec<u8>>>, AllocError>
    ensures { IfOk result (λ found. IfSome found (λ parts. (more : List (List ℕ)) × (AreSectionsOf options.now bytes.now (items_of parts.items ++ more) × (length (document_of (items_of parts.items)) ≡ index)))) }
{
    let mut parts = cut(alloc, bytes, options)?;
    if let Some(some) = parts_with(parts.as_slice(), index) {
        parts.truncate(some);
        return Ok(Some(parts));
    }
    Ok(None)
}

/// The parts of a text in front of a section, cut at each rest. `None` if the section does not begin at one, or there is none. Of the section only the first
/// line is looked at, which tells.
fn cut_near(
    alloc: Global,
    kept: &Kept,
    behind: usize,
    text: &mut Vec<u8>,
) -> Result<Option<Vec<Vec<u8>>>, AllocError>
    requires { IsKept kept.now }
    ensures text { OnOk result (text.new.items ≡ text.old.items) }
    ensures within { IfOk result (λ found. IfSome found (λ parts. behind < length kept.now.sections.items)) }
    ensures parts { IfOk result (λ found. IfSome found (λ parts. AreSectionsOf kept.now.options text.old.items (items_of parts.items))) }
    ensures seam { IfOk result (λ found. IfSome found (λ parts. IsSeam kept.now.options (items_of parts.items) (slice_index_or (bytes_of_sections kept.now.sections.items) behind []))) }
{
    if behind >= kept.sections.len() {
        return Ok(None);
    }
    let section = kept.sections.one(behind).part.bytes.as_slice();
    let size = text.len();
    text.extend_from_slice(&section[..first_line_end(section)])?;
    let found = parts_in_front(alloc, &kept.options, text.as_slice(), size)?;
    text.truncate(size);
    Ok(found)
}

/// As [`cut_from`], with at least one section behind the text. Each time as many more sections are looked at as before, so it is cut again only as often as
/// their number doubles.
fn cut_further(
    alloc: Global,
    kept: &Kept,
    from: usize,
    behind: usize,
    mut text: Vec<u8>,
) -> Result<Recut, AllocError>
    requires kept { IsKept kept.now }
    requires order { from ≤ behind }
    requires within { behind ≤ length kept.now.sections.items }
    requires limit { let sections = bytes_of_sections kept.now.sections.items in IsWithinLimit kept.now.options.tab_size (document_of (take from sections) ++ (text.items ++ document_of (drop behind sections))) }
    requires seam { IsSeam kept.now.options (take from (bytes_of_sections kept.now.sections.items)) (text.items ++ document_of (drop behind (bytes_of_sections kept.now.sections.items))) }
    ensures recut { IfOk result (λ r. IsRecut kept.now r.from r.end (items_of r.parts.items)) }
    ensures bytes { let sections = bytes_of_sections kept.now.sections.items in IfOk result (λ r. document_of (recut_sections kept.now r.from r.end (items_of r.parts.items)) ≡ document_of (take from sections) ++ (text.items ++ document_of (drop behind sections))) }
{
    let sections = kept.sections.as_slice();
    let size = text.len();
    let mut end = behind;
    loop {
        let step = (end - behind).max(1).min(sections.len() - end);
        append_sections(&mut text, &sections[end..end + step])?;
        end += step;
        let mut parts = cut(alloc, text.as_slice(), &kept.options)?;
        if let Some((some, passed)) = meeting(parts.as_slice(), size, &sections[behind..end]) {
            parts.truncate(some);
            return Ok(Recut {
                from,
                end: behind + passed,
                parts,
            });
        }
        if end == sections.len() {
            return Ok(Recut { from, end, parts });
        }
    }
}

/// Cuts the document from a section on again, with a text in the place of the sections up to another, until one of the sections from that one on begins at a
/// rest again, or to the end. The text, with what is behind those sections, begins at a rest of the section in front. Mostly the section behind the text
/// begins at a rest as before, which its first line tells, however long it is.
fn cut_from(
    alloc: Global,
    kept: &Kept,
    from: usize,
    behind: usize,
    mut text: Vec<u8>,
) -> Result<Recut, AllocError>
    requires kept { IsKept kept.now }
    requires order { from ≤ behind }
    requires within { behind ≤ length kept.now.sections.items }
    requires limit { let sections = bytes_of_sections kept.now.sections.items in IsWithinLimit kept.now.options.tab_size (document_of (take from sections) ++ (text.items ++ document_of (drop behind sections))) }
    requires seam { IsSeam kept.now.options (take from (bytes_of_sections kept.now.sections.items)) (text.items ++ document_of (drop behind (bytes_of_sections kept.now.sections.items))) }
    ensures recut { IfOk result (λ r. IsRecut kept.now r.from r.end (items_of r.parts.items)) }
    ensures bytes { let sections = bytes_of_sections kept.now.sections.items in IfOk result (λ r. document_of (recut_sections kept.now r.from r.end (items_of r.parts.items)) ≡ document_of (take from sections) ++ (text.items ++ document_of (drop behind sections))) }
{
    if let Some(parts) = cut_near(alloc, kept, behind, &mut text)? {
        return Ok(Recut {
            from,
            end: behind,
            parts,
        });
    }
    cut_further(alloc, kept, from, behind, text)
}

/// Cuts a document again where it is edited. Of what is cut again, as much stays at both ends as can.
pub(crate) fn cut_again(alloc: Global, kept: &Kept, edit: &Edit) -> Result<Recut, AllocError>
    requires kept { IsKept kept.now }
    requires inside { IsInside edit.now (bytes_of (divided_of kept.now)) }
    requires limit { IsWithinLimit kept.now.options.tab_size (edited edit.now (bytes_of (divided_of kept.now))) }
    ensures recut { IfOk result (λ r. IsRecut kept.now r.from r.end (items_of r.parts.items)) }
    ensures bytes { IfOk result (λ r. document_of (recut_sections kept.now r.from r.end (items_of r.parts.items)) ≡ edited edit.now (bytes_of (divided_of kept.now))) }
    ensures trimmed { IfOk result (λ r. AreTrimmed (bytes_of_sections kept.now.sections.items) r.from r.end (items_of r.parts.items)) }
{
    // It is not 0, so the length of a document within the limit fits `usize`.
    let _columns = kept.options.tab_size.get();
    let sections = kept.sections.as_slice();
    let found = section_and_left(kept, edit.from);
    let (from, start) = first_touched(sections, edit.from, found);
    let (behind, _) = behind(sections, from, start, edit.to);
    let text = edited_bytes(alloc, &sections[from..behind], start, edit)?;
    let recut = cut_from(alloc, kept, from, behind, text)?;
    Ok(trim(kept, recut))
}
