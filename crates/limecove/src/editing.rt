//! What programs in C and in Rust call to keep a document, edit it, and ask for its events and places.

ghost use Rattle.std.specs.Prelude.{◌≡◌, ◌≢◌, ◌<◌, ◌≤◌, ◌↔◌, ◌⊎◌, [], Err, None, IfErr, IfOk, IfSome, IsSomeAnd, drop, length, min};
ghost use Rattle.markdown.specs.Virtual.{IsWithinLimit};
ghost use Rattle.mdconstructs.specs.Divided.{bytes_of};
ghost use Rattle.mdconstructs.specs.Fits.{CanBeEdited};
ghost use Rattle.limecove.specs.Choices.{document_choice_of, parse_options_of};
ghost use Rattle.limecove.specs.Editing.{HoldsSections, IsEdited, IsFoundAt, IsMade, IsNotOpen, IsOf, index_in, named_over, others_in, place_in, replaced, start_in};

use crate::choose::{TextOptions, choose_document, parse_options_of};
use crate::code::{
    LINKS_NO_TEXT, NO_SUCH_BYTES, NO_SUCH_RANGES, NOT_OPEN, OUT_OF_MEMORY, READ, TOO_LONG, VERSION,
};
use crate::document::Document;
use crate::edits::{Changed, Named, Place, copy_named};
use crate::held::Held;
use crate::record::{Record, write_records};
use crate::{Answer, ended};
use mdconstructs::edit::Edit;
use mdconstructs::limit_of;
use mdconstructs::packed::PackError;
use mdconstructs::sections::Sections;
use std::alloc::Global;

/// Reads a whole document with the constructs and the tab size of the options, and keeps it for edits, until [`limecove_document_close`].
/// The count is that of its sections.
#[unsafe(no_mangle)]
pub extern "C" fn limecove_document_new(
    alloc: Global,
    bytes: &[u8],
    options: &TextOptions,
    document: &mut Document,
) -> Answer
    ensures read { result.code ≡ READ → IsSomeAnd document.new.kept.held (IsMade options.now bytes.now result.count) }
    ensures closed { result.code ≢ READ → IsNotOpen document.new }
    ensures none { result.code ≢ READ → result.count ≡ 0 }
    ensures options { IfErr (document_choice_of options.now) (λ code. result.code ≡ code) }
    ensures chosen { IfOk (document_choice_of options.now) (λ _. result.code ≤ TOO_LONG) }
    ensures too_long { IfOk (document_choice_of options.now) (λ tab. ¬ IsWithinLimit tab bytes.now → result.code ≡ TOO_LONG) }
    ensures exact { IfOk (document_choice_of options.now) (λ tab. CanBeEdited (parse_options_of options.now.constructs tab) bytes.now → result.code ≢ TOO_LONG) }
    ensures codes { result.code ≤ LINKS_NO_TEXT }
    ensures version { result.version ≡ VERSION }
{
    match sections(alloc, bytes, options) {
        Ok(sections) => keep(alloc, sections, document),
        Err(code) => {
            *document = Document::closed();
            ended(code, 0)
        }
    }
}

/// Puts bytes in the place of those of a document from one up to another, and writes what changed. The count is that of its sections now.
/// If it fails, the document is as it was, and nothing is written.
#[unsafe(no_mangle)]
pub extern "C" fn limecove_document_replace(
    alloc: Global,
    document: &mut Document,
    from: usize,
    to: usize,
    with: &[u8],
    change: &mut Changed,
) -> Answer
    ensures read { result.code ≡ READ → IsSomeAnd document.old.kept.held (λ before. IsSomeAnd document.new.kept.held (IsEdited from to with.now change.new result.count before)) }
    ensures kept { result.code ≢ READ → document.new.kept.held ≡ document.old.kept.held }
    ensures unwritten { result.code ≢ READ → change.new ≡ change.old }
    ensures none { result.code ≢ READ → result.count ≡ 0 }
    ensures range { (result.code ≡ NO_SUCH_BYTES) ↔ IsSomeAnd document.old.kept.held (λ held. ¬ ((from ≤ to) × (to ≤ length (bytes_of held.sections)))) }
    ensures too_long { IfSome document.old.kept.held (λ held. from ≤ to → to ≤ length (bytes_of held.sections) → ¬ IsWithinLimit held.sections.options.tab_size (replaced from to with.now (bytes_of held.sections)) → result.code ≡ TOO_LONG) }
    ensures exact { IfSome document.old.kept.held (λ held. CanBeEdited held.sections.options (replaced from to with.now (bytes_of held.sections)) → result.code ≢ TOO_LONG) }
    ensures not_open { (result.code ≡ NOT_OPEN) ↔ (document.old.kept.held ≡ None) }
    ensures codes { (result.code ≤ TOO_LONG) ⊎ ((result.code ≡ NO_SUCH_BYTES) ⊎ (result.code ≡ NOT_OPEN)) }
    ensures version { result.version ≡ VERSION }
{
    let Some(mut held) = document.take(alloc) else {
        return ended(NOT_OPEN, 0);
    };
    let done = held.replace(alloc, &Edit { from, to, with });
    let count = held.sections.count();
    *document = Document::of(held);
    match done {
        Ok(changed) => {
            *change = changed;
            ended(READ, count)
        }
        Err(code) => ended(code, 0),
    }
}

/// Writes the events of the sections from one up to another, as they stand in those of the document, over the first records, as many as
/// fit. The count is that of these events.
#[unsafe(no_mangle)]
pub extern "C" fn limecove_document_events(
    alloc: Global,
    document: &mut Document,
    from: usize,
    to: usize,
    records: &mut [Record],
) -> Answer
    ensures read { result.code ≡ READ → IsSomeAnd document.old.kept.held (HoldsSections from to result.count records.old records.new) }
    ensures unwritten { result.code ≢ READ → records.new ≡ records.old }
    ensures none { result.code ≢ READ → result.count ≡ 0 }
    ensures ranges { (result.code ≡ NO_SUCH_RANGES) ↔ IsSomeAnd document.old.kept.held (λ held. ¬ ((from ≤ to) × (to ≤ length held.sections.sections))) }
    ensures not_open { (result.code ≡ NOT_OPEN) ↔ (document.old.kept.held ≡ None) }
    ensures codes { (result.code ≤ OUT_OF_MEMORY) ⊎ ((result.code ≡ NO_SUCH_RANGES) ⊎ (result.code ≡ NOT_OPEN)) }
    ensures kept { document.new.kept.held ≡ document.old.kept.held }
    ensures version { result.version ≡ VERSION }
{
    let Some(held) = document.take(alloc) else {
        return ended(NOT_OPEN, 0);
    };
    let found = held.events(alloc, from, to);
    *document = Document::of(held);
    match found {
        Ok(events) => ended(READ, write_records(records, events.as_slice())),
        Err(code) => ended(code, 0),
    }
}

/// Writes the sections that the last edit did not replace and of which something is new, in order, from this one of them on, over the first of
/// others, as many as fit. Returns how many were written. There are none if the document is not open.
#[unsafe(no_mangle)]
pub extern "C" fn limecove_document_others(
    alloc: Global,
    document: &mut Document,
    from: usize,
    named: &mut [Named],
) -> usize
    ensures copied { named.new ≡ named_over named.old (drop from (others_in document.old.kept.held)) }
    ensures count { result ≡ min (length named.old) (length (drop from (others_in document.old.kept.held))) }
    ensures kept { document.new.kept.held ≡ document.old.kept.held }
{
    let Some(held) = document.take(alloc) else {
        return 0;
    };
    let count = copy_named(held.others.as_slice(), from, named);
    *document = Document::of(held);
    count
}

/// Writes the place of a byte index, in units of UTF-8 if `utf16` is 0, else of UTF-16. If there is none, nothing is written.
#[unsafe(no_mangle)]
pub extern "C" fn limecove_document_place(
    alloc: Global,
    document: &mut Document,
    byte: usize,
    utf16: u32,
    place: &mut Place,
) -> u32
    ensures place { IfOk (place_in document.old.kept.held utf16 byte) (λ found. (result ≡ READ) × (place.new ≡ found)) }
    ensures none { IfErr (place_in document.old.kept.held utf16 byte) (λ code. (result ≡ code) × (place.new ≡ place.old)) }
    ensures kept { document.new.kept.held ≡ document.old.kept.held }
{
    let Some(held) = document.take(alloc) else {
        return NOT_OPEN;
    };
    let found = held.place_of(byte, utf16);
    *document = Document::of(held);
    match found {
        Ok(it) => {
            *place = it;
            READ
        }
        Err(code) => code,
    }
}

/// Writes the byte index of a place, in units of UTF-8 if `utf16` is 0, else of UTF-16. If there is none, nothing is written.
#[unsafe(no_mangle)]
pub extern "C" fn limecove_document_index(
    alloc: Global,
    document: &mut Document,
    line: usize,
    character: usize,
    utf16: u32,
    index: &mut usize,
) -> u32
    ensures index { IfOk (index_in document.old.kept.held utf16 line character) (λ found. (result ≡ READ) × (index.new ≡ found)) }
    ensures none { IfErr (index_in document.old.kept.held utf16 line character) (λ code. (result ≡ code) × (index.new ≡ index.old)) }
    ensures kept { document.new.kept.held ≡ document.old.kept.held }
{
    let Some(held) = document.take(alloc) else {
        return NOT_OPEN;
    };
    let found = held.index_of(Place { line, character }, utf16);
    *document = Document::of(held);
    match found {
        Ok(it) => {
            *index = it;
            READ
        }
        Err(code) => code,
    }
}

/// The section that a byte is in. At the document's end or behind it, the number of sections. 0 if the document is not open.
#[unsafe(no_mangle)]
pub extern "C" fn limecove_document_section_at(
    alloc: Global,
    document: &mut Document,
    byte: usize,
) -> usize
    ensures found { IsFoundAt document.old.kept.held byte result }
    ensures kept { document.new.kept.held ≡ document.old.kept.held }
{
    let Some(held) = document.take(alloc) else {
        return 0;
    };
    let section = held.sections.section_at(byte);
    *document = Document::of(held);
    section
}

/// Where a section starts: the index of its first byte. Behind the last section, how many bytes the document has. 0 if it is not open.
#[unsafe(no_mangle)]
pub extern "C" fn limecove_document_start_of(
    alloc: Global,
    document: &mut Document,
    section: usize,
) -> usize
    ensures start { result ≡ start_in document.old.kept.held section }
    ensures kept { document.new.kept.held ≡ document.old.kept.held }
{
    let Some(held) = document.take(alloc) else {
        return 0;
    };
    let start = held.start_of(section);
    *document = Document::of(held);
    start
}

/// Gives back the memory of a document. If it is not open, nothing changes.
#[unsafe(no_mangle)]
pub extern "C" fn limecove_document_close(alloc: Global, document: &mut Document)
    ensures { IsNotOpen document.new }
{
    drop(document.take(alloc));
}

/// A document that is read so. If there is none, the code that says why.
fn sections(alloc: Global, bytes: &[u8], options: &TextOptions) -> Result<Sections, u32>
    ensures read { IfOk result (IsOf options.now bytes.now) }
    ensures options { IfErr (document_choice_of options.now) (λ code. result ≡ Err code) }
    ensures chosen { IfOk (document_choice_of options.now) (λ _. IfErr result (λ code. code ≤ TOO_LONG)) }
    ensures too_long { IfOk (document_choice_of options.now) (λ tab. ¬ IsWithinLimit tab bytes.now → result ≡ Err TOO_LONG) }
    ensures exact { IfOk (document_choice_of options.now) (λ tab. CanBeEdited (parse_options_of options.now.constructs tab) bytes.now → result ≢ Err TOO_LONG) }
    ensures codes { IfErr result (λ code. (READ < code) × (code ≤ LINKS_NO_TEXT)) }
{
    let tab = choose_document(options)?;
    if bytes.len() > limit_of(tab) {
        return Err(TOO_LONG);
    }
    let options = parse_options_of(options.constructs, tab);
    match Sections::new(alloc, bytes, &options) {
        Ok(sections) => Ok(sections),
        Err(PackError::Memory) => Err(OUT_OF_MEMORY),
        Err(PackError::TooLong) => Err(TOO_LONG),
    }
}

/// Keeps a document, if there is memory for that. Else none is open.
fn keep(alloc: Global, sections: Sections, document: &mut Document) -> Answer
    ensures kept { result.code ≡ READ → IsSomeAnd document.new.kept.held (λ held. (held.sections ≡ sections) × ((held.others.items ≡ []) × (result.count ≡ length sections.sections))) }
    ensures closed { result.code ≢ READ → IsNotOpen document.new × (result.count ≡ 0) }
    ensures codes { result.code ≤ OUT_OF_MEMORY }
    ensures version { result.version ≡ VERSION }
{
    let count = sections.count();
    let held = Held {
        sections,
        others: Vec::new(alloc),
    };
    match Box::new(alloc, held) {
        Ok(held) => {
            *document = Document::of(held);
            ended(READ, count)
        }
        Err(_) => {
            *document = Document::closed();
            ended(OUT_OF_MEMORY, 0)
        }
    }
}
