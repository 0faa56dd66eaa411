//! Sections that are put in the place of others.

ghost use Rattle.std.specs.Prelude.{◌≡◌, ◌≤◌, ◌<◌, ◌+◌, ◌++◌, ◌∷◌, [], ◌^◌, ◌↔◌, IfOk, IfNone, IfSome, IsErrOf, List, OnErr, OnOk, ℕ, drop, length, take, true, false};
ghost use Rattle.std.specs.List.{AllByRecursion};
ghost use Rattle.markdown_base.specs.Virtual.{IsWithinLimit};
ghost use Rattle.markdown_tokenizer.specs.Text.{IsDocument};
ghost use Rattle.mddocument.specs.Documents.{document};
ghost use Rattle.mddocument_editing.specs.Divided.{bytes_of};
ghost use Rattle.mddocument_editing.specs.Edits.{IsChange};
ghost use Rattle.mddocument_editing.specs.FirstRest.{items_of};
ghost use Rattle.mddocument_editing.specs.InBrackets.{AreAllNear};
ghost use Rattle.mddocument_editing.specs.Kept.{ArePackable, IsKept, IsLabelled, IsPackable, IsRecut, IsRead, bytes_of_parts, bytes_of_sections, divided_of, recut_document};
ghost use Rattle.mddocument_editing.specs.Known.{Key, is_key_of, knows, part_events};
ghost use Rattle.mddocument_editing.specs.Leading.{first_said};
ghost use Rattle.mddocument_editing.specs.Said.{linking};
ghost use Rattle.mddocument_editing.specs.Put.{AreReread, HasEvents, IsReadDocument, looks_up};
ghost use Rattle.mddocument_editing.specs.Told.{AreToldAround};
ghost use Rattle.mddocument_editing.specs.Trims.{AreTrimmed};

use crate::asking::may_ask;
use crate::defined::Defined;
use crate::edit::{Change, Other, Refused};
use crate::kept::{Kept, define_parts, define_sections};
use crate::packed::{PackError, Packed};
use crate::reread::Reread;
use crate::section::{Part, Read, Section, parts_of, read_of, sections_of};
use crate::told::{Around, Side, tell};
use crate::trim::Recut;
use markdown_base::configuration::ParseOptions;
use markdown_base::event::Event;
use markdown_base::laws::equal_events_are_one;
use std::alloc::{AllocError, Global};

/// The sections in front of those that are replaced that are read again, and those behind.
#[derive(Drop)]
struct Rereads {
    front: Vec<Reread>,
    behind: Vec<Reread>,
}

/// The labels that a document defines, and some among which all are that came or went.
#[derive(Drop)]
struct NewLabels {
    labels: Defined,
    near: Defined,
}

/// The labels that a document defines with parts in the place of some of its sections. `None` if they are the same as before. Only those come or go that these
/// sections or the parts define.
fn new_labels(
    alloc: Global,
    kept: &Kept,
    from: usize,
    end: usize,
    parts: &[Part],
) -> Result<Option<NewLabels>, AllocError>
    requires kept { IsKept kept.now }
    requires possible { IsDocument (document kept.now.options (bytes_of (divided_of kept.now))) }
    requires recut { IsRecut kept.now from end (bytes_of_parts parts.now) }
    requires possible_now { IsDocument (document kept.now.options (bytes_of (recut_document kept.now from end (bytes_of_parts parts.now)))) }
    requires labels { AllByRecursion (IsLabelled kept.now.options) parts.now }
    ensures none { IfOk result (λ found. IfNone found ((key : Key) → knows kept.now.known key ≡ is_key_of (recut_document kept.now from end (bytes_of_parts parts.now)) key)) }
    ensures some { IfOk result (λ found. IfSome found (λ new. (key : Key) → knows new.labels key ≡ is_key_of (recut_document kept.now from end (bytes_of_parts parts.now)) key)) }
    ensures near { IfOk result (λ found. IfSome found (λ new. AreAllNear (knows kept.now.known) (knows new.labels) (knows new.near))) }
{
    let sections = kept.sections.as_slice();
    let mut gone = Defined::new(alloc);
    define_sections(alloc, &mut gone, &kept.options, &sections[from..end])?;
    let mut come = Defined::new(alloc);
    define_parts(alloc, &mut come, &kept.options, parts)?;
    if come.is_same(&gone) {
        return Ok(None);
    }
    let mut labels = Defined::new(alloc);
    define_sections(alloc, &mut labels, &kept.options, &sections[..from])?;
    labels.define_all(alloc, &come)?;
    define_sections(alloc, &mut labels, &kept.options, &sections[end..])?;
    if labels.is_same(&kept.known) {
        return Ok(None);
    }
    gone.define_all(alloc, &come)?;
    Ok(Some(NewLabels { labels, near: gone }))
}

/// Whether a section may look up a label that comes or goes.
fn looks_up(
    alloc: Global,
    old: &Defined,
    new: &Defined,
    near: &Defined,
    section: &Section,
) -> Result<bool, AllocError>
    requires { AreAllNear (knows old.now) (knows new.now) (knows near.now) }
    ensures { IfOk result (λ looks. looks ≡ looks_up old.now new.now section.now) }
{
    Ok(section.asks && may_ask(alloc, old, new, near, section.part.bytes.as_slice())?)
}

/// Whether this is the same event.
fn is_same(one: &Event, other: &Event) -> bool
    ensures { (result ≡ true) ↔ (one.now ≡ other.now) }
{
    equal_events_are_one();
    *one == *other
}

/// Whether these are the same events.
fn are_same(one: &Packed, other: &Packed) -> bool
    ensures { (result ≡ true) ↔ (one.now ≡ other.now) }
{
    if one.len() != other.len() {
        return false;
    }
    for index in 0..one.len() {
        let event = one.event(index);
        let like = other.event(index);
        let same = is_same(&event, &like);
        if !same {
            return false;
        }
    }
    true
}

/// The events of a section, read again by the labels that are defined now. `None` if they are those that it has.
fn new_events(
    alloc: Global,
    options: &ParseOptions,
    old: &Defined,
    near: &Defined,
    known: &Defined,
    section: &Section,
) -> Result<Option<Read>, PackError>
    requires read { IsReadDocument options.now (knows old.now) section.now }
    requires near { AreAllNear (knows old.now) (knows known.now) (knows near.now) }
    ensures none { IfOk result (λ found. IfNone found (HasEvents (part_events options.now (knows known.now)) section.now)) }
    ensures some { IfOk result (λ found. IfSome found (λ read. ((read.events ≡ part_events options.now (knows known.now) section.now.part.bytes.items) × (read.linking ≡ linking section.now.part.bytes.items read.events)) × ¬ HasEvents (part_events options.now (knows known.now)) section.now)) }
    ensures fits { IsPackable options.now (knows known.now) section.now.part.bytes.items → ¬ IsErrOf result PackError.TooLong }
{
    let asks = looks_up(alloc, old, known, near, section)?;
    if !asks {
        return Ok(None);
    }
    let read = read_of(alloc, options, known, section.part.bytes.as_slice())?;
    let same = are_same(&read.events, &section.events);
    if same {
        return Ok(None);
    }
    Ok(Some(read))
}

/// Appends the events of a section that was read again, with its number, if there are some.
fn push_found(
    others: &mut Vec<Reread>,
    section: usize,
    found: Option<Read>,
) -> Result<(), AllocError>
    ensures none { OnOk result (IfNone found (others.new.items ≡ others.old.items)) }
    ensures some { OnOk result (IfSome found (λ read. others.new.items ≡ others.old.items ++ record { section = section; events = read.events; linking = read.linking } ∷ [])) }
{
    if let Some(Read { events, linking }) = found {
        others.push(Reread {
            section,
            events,
            linking,
        })?;
    }
    Ok(())
}

/// Those of the sections that have other events by the labels that are defined now. The first of the sections has a number.
fn read_again(
    alloc: Global,
    options: &ParseOptions,
    old: &Defined,
    near: &Defined,
    known: &Defined,
    sections: &[Section],
    first: usize,
) -> Result<Vec<Reread>, PackError>
    requires read { AllByRecursion (IsReadDocument options.now (knows old.now)) sections.now }
    requires near { AreAllNear (knows old.now) (knows known.now) (knows near.now) }
    requires numbers { first + length sections.now < 2 ^ 64 }
    ensures others { IfOk result (λ others. AreReread (part_events options.now (knows known.now)) first sections.now others.items) }
    ensures fits { AllByRecursion (λ section. IsPackable options.now (knows known.now) section.part.bytes.items) sections.now → ¬ IsErrOf result PackError.TooLong }
{
    let mut others = Vec::new(alloc);
    for index in 0..sections.len() {
        let found = new_events(alloc, options, old, near, known, &sections[index])?;
        push_found(&mut others, first + index, found)?;
    }
    Ok(others)
}

/// Puts parts in the place of the sections that they replace. If it fails, the document is as it was.
pub(crate) fn put(alloc: Global, kept: &mut Kept, recut: Recut) -> Result<Change, Refused>
    requires kept { IsKept kept.old }
    requires possible { IsDocument (document kept.old.options (bytes_of (divided_of kept.old))) }
    requires recut { IsRecut kept.old recut.from recut.end (items_of recut.parts.items) }
    requires possible_now { IsDocument (document kept.old.options (bytes_of (recut_document kept.old recut.from recut.end (items_of recut.parts.items)))) }
    requires trimmed { AreTrimmed (bytes_of_sections kept.old.sections.items) recut.from recut.end (items_of recut.parts.items) }
    ensures kept { IsKept kept.new }
    ensures document { IfOk result (λ _. divided_of kept.new ≡ recut_document kept.old recut.from recut.end (items_of recut.parts.items)) }
    ensures change { IfOk result (IsChange (divided_of kept.old) (divided_of kept.new)) }
    ensures err { OnErr result (divided_of kept.new ≡ divided_of kept.old) }
    ensures range { ¬ IsErrOf result Refused.Range }
    ensures fits { ArePackable (recut_document kept.old recut.from recut.end (items_of recut.parts.items)) → ¬ IsErrOf result Refused.TooLong }
{
    let Recut { from, end, parts } = recut;
    let parts = parts_of(alloc, &kept.options, parts)?;
    match new_labels(alloc, kept, from, end, parts.as_slice())? {
        None => put_same(alloc, kept, from, end, parts),
        Some(NewLabels { labels, near }) => {
            put_other(alloc, kept, from, end, parts, labels, &near)
        }
    }
}

/// As [`put`], where the labels stay.
fn put_same(
    alloc: Global,
    kept: &mut Kept,
    from: usize,
    end: usize,
    parts: Vec<Part>,
) -> Result<Change, Refused>
    requires kept { IsKept kept.old }
    requires recut { IsRecut kept.old from end (bytes_of_parts parts.items) }
    requires trimmed { AreTrimmed (bytes_of_sections kept.old.sections.items) from end (bytes_of_parts parts.items) }
    requires labelled { AllByRecursion (IsLabelled kept.old.options) parts.items }
    requires labels { (key : Key) → knows kept.old.known key ≡ is_key_of (recut_document kept.old from end (bytes_of_parts parts.items)) key }
    ensures kept { IsKept kept.new }
    ensures document { IfOk result (λ _. divided_of kept.new ≡ recut_document kept.old from end (bytes_of_parts parts.items)) }
    ensures change { IfOk result (IsChange (divided_of kept.old) (divided_of kept.new)) }
    ensures err { OnErr result (divided_of kept.new ≡ divided_of kept.old) }
    ensures range { ¬ IsErrOf result Refused.Range }
    ensures fits { ArePackable (recut_document kept.old from end (bytes_of_parts parts.items)) → ¬ IsErrOf result Refused.TooLong }
{
    let read = read_parts(alloc, &kept.options, &kept.known, parts)?;
    kept.sections.are_few();
    let new_to = from + read.len();
    let others = tell_same(alloc, kept, from, end, read.as_slice())?;
    kept.sections.splice(from, end, read)?;
    Ok(Change {
        from,
        old_to: end,
        new_to,
        others,
    })
}

/// As [`put`], where labels came or went. Others that may look up one of them are read again by those that are defined now, and those told that have other
/// events.
fn put_other(
    alloc: Global,
    kept: &mut Kept,
    from: usize,
    end: usize,
    parts: Vec<Part>,
    known: Defined,
    near: &Defined,
) -> Result<Change, Refused>
    requires kept { IsKept kept.old }
    requires possible { IsDocument (document kept.old.options (bytes_of (divided_of kept.old))) }
    requires recut { IsRecut kept.old from end (bytes_of_parts parts.items) }
    requires trimmed { AreTrimmed (bytes_of_sections kept.old.sections.items) from end (bytes_of_parts parts.items) }
    requires labelled { AllByRecursion (IsLabelled kept.old.options) parts.items }
    requires labels { (key : Key) → knows known key ≡ is_key_of (recut_document kept.old from end (bytes_of_parts parts.items)) key }
    requires near { AreAllNear (knows kept.old.known) (knows known) (knows near.now) }
    ensures kept { IsKept kept.new }
    ensures document { IfOk result (λ _. divided_of kept.new ≡ recut_document kept.old from end (bytes_of_parts parts.items)) }
    ensures change { IfOk result (IsChange (divided_of kept.old) (divided_of kept.new)) }
    ensures err { OnErr result (divided_of kept.new ≡ divided_of kept.old) }
    ensures range { ¬ IsErrOf result Refused.Range }
    ensures fits { ArePackable (recut_document kept.old from end (bytes_of_parts parts.items)) → ¬ IsErrOf result Refused.TooLong }
{
    let read = read_parts(alloc, &kept.options, &known, parts)?;
    kept.sections.are_few();
    let new_to = from + read.len();
    let rereads = read_others(alloc, kept, &known, near, from, end, read.as_slice())?;
    let others = tell_other(alloc, kept, &known, from, end, read.as_slice(), &rereads)?;
    let rereads = joined(rereads)?;
    kept.sections.splice(from, end, read)?;
    kept.known = known;
    kept.sections.put_events(rereads);
    Ok(Change {
        from,
        old_to: end,
        new_to,
        others,
    })
}

/// Parts, each read; with the error of an edit.
fn read_parts(
    alloc: Global,
    options: &ParseOptions,
    known: &Defined,
    parts: Vec<Part>,
) -> Result<Vec<Section>, Refused>
    requires limit { AllByRecursion (IsWithinLimit options.now.tab_size) (bytes_of_parts parts.items) }
    requires labels { AllByRecursion (IsLabelled options.now) parts.items }
    ensures bytes { IfOk result (λ sections. bytes_of_sections sections.items ≡ bytes_of_parts parts.items) }
    ensures read { IfOk result (λ sections. AllByRecursion (IsRead options.now (knows known.now)) sections.items) }
    ensures range { ¬ IsErrOf result Refused.Range }
    ensures fits { AllByRecursion (IsPackable options.now (knows known.now)) (bytes_of_parts parts.items) → ¬ IsErrOf result Refused.TooLong }
{
    match sections_of(alloc, options, known, parts) {
        Ok(sections) => Ok(sections),
        Err(error) => Err(refused(error)),
    }
}

/// As [`read_again`], with the error of an edit.
fn read_side(
    alloc: Global,
    kept: &Kept,
    known: &Defined,
    near: &Defined,
    sections: &[Section],
    first: usize,
) -> Result<Vec<Reread>, Refused>
    requires read { AllByRecursion (IsReadDocument kept.now.options (knows kept.now.known)) sections.now }
    requires near { AreAllNear (knows kept.now.known) (knows known.now) (knows near.now) }
    requires numbers { first + length sections.now < 2 ^ 64 }
    ensures others { IfOk result (λ others. AreReread (part_events kept.now.options (knows known.now)) first sections.now others.items) }
    ensures range { ¬ IsErrOf result Refused.Range }
    ensures fits { AllByRecursion (λ section. IsPackable kept.now.options (knows known.now) section.part.bytes.items) sections.now → ¬ IsErrOf result Refused.TooLong }
{
    match read_again(
        alloc,
        &kept.options,
        &kept.known,
        near,
        known,
        sections,
        first,
    ) {
        Ok(others) => Ok(others),
        Err(error) => Err(refused(error)),
    }
}

/// Those of the sections in front of some and behind them that have other events by the labels that are defined now. As many sections as were
/// read come between.
fn read_others(
    alloc: Global,
    kept: &Kept,
    known: &Defined,
    near: &Defined,
    from: usize,
    end: usize,
    read: &[Section],
) -> Result<Rereads, Refused>
    requires kept { AllByRecursion (IsReadDocument kept.now.options (knows kept.now.known)) kept.now.sections.items }
    requires near { AreAllNear (knows kept.now.known) (knows known.now) (knows near.now) }
    requires order { from ≤ end }
    requires within { end ≤ length kept.now.sections.items }
    requires numbers { from + length read.now + length (drop end kept.now.sections.items) < 2 ^ 64 }
    ensures front { IfOk result (λ others. AreReread (part_events kept.now.options (knows known.now)) 0 (take from kept.now.sections.items) others.front.items) }
    ensures behind { IfOk result (λ others. AreReread (part_events kept.now.options (knows known.now)) (from + length read.now) (drop end kept.now.sections.items) others.behind.items) }
    ensures range { ¬ IsErrOf result Refused.Range }
    ensures fits { let are_packable = AllByRecursion (λ section. IsPackable kept.now.options (knows known.now) section.part.bytes.items) in are_packable (take from kept.now.sections.items) → are_packable (drop end kept.now.sections.items) → ¬ IsErrOf result Refused.TooLong }
{
    let sections = kept.sections.as_slice();
    let front = read_side(alloc, kept, known, near, &sections[..from], 0)?;
    let new_to = from + read.len();
    let behind = read_side(alloc, kept, known, near, &sections[end..], new_to)?;
    Ok(Rereads { front, behind })
}

/// All that are read again.
fn joined(rereads: Rereads) -> Result<Vec<Reread>, AllocError>
    ensures { IfOk result (λ all. all.items ≡ rereads.front.items ++ rereads.behind.items) }
{
    let Rereads {
        mut front,
        mut behind,
    } = rereads;
    front.append(&mut behind)?;
    Ok(front)
}

/// Those of the sections in front of some and behind them of which something is new, by the labels that are defined now. Sections that it read come
/// between.
fn tell_other(
    alloc: Global,
    kept: &Kept,
    known: &Defined,
    from: usize,
    end: usize,
    read: &[Section],
    rereads: &Rereads,
) -> Result<Vec<Other>, AllocError>
    requires kept { AllByRecursion (IsRead kept.now.options (knows kept.now.known)) kept.now.sections.items }
    requires order { from ≤ end }
    requires within { end ≤ length kept.now.sections.items }
    requires read { AllByRecursion (IsRead kept.now.options (knows known.now)) read.now }
    requires numbers { from + length read.now + length (drop end kept.now.sections.items) < 2 ^ 64 }
    requires front { AreReread (part_events kept.now.options (knows known.now)) 0 (take from kept.now.sections.items) rereads.now.front.items }
    requires behind { AreReread (part_events kept.now.options (knows known.now)) (from + length read.now) (drop end kept.now.sections.items) rereads.now.behind.items }
    ensures { let sections = kept.now.sections.items in
        IfOk result (λ told. AreToldAround (part_events kept.now.options (knows known.now))
        (first_said (part_events kept.now.options (knows kept.now.known)) (bytes_of_sections sections))
        (first_said (part_events kept.now.options (knows known.now)) (bytes_of_sections (take from sections ++ (read.now ++ drop end sections))))
        (from + length read.now) (take from sections) (drop end sections) told.items) }
{
    let sections = kept.sections.as_slice();
    let around = Around {
        front: Side {
            sections: &sections[..from],
            first: 0,
            rereads: rereads.front.as_slice(),
        },
        gone: &sections[from..end],
        read,
        behind: Side {
            sections: &sections[end..],
            first: from + read.len(),
            rereads: rereads.behind.as_slice(),
        },
    };
    tell(alloc, &kept.options, &kept.known, known, around)
}

/// The same, if the labels stay: none is read again.
fn tell_same(
    alloc: Global,
    kept: &Kept,
    from: usize,
    end: usize,
    read: &[Section],
) -> Result<Vec<Other>, AllocError>
    requires kept { AllByRecursion (IsRead kept.now.options (knows kept.now.known)) kept.now.sections.items }
    requires order { from ≤ end }
    requires within { end ≤ length kept.now.sections.items }
    requires read { AllByRecursion (IsRead kept.now.options (knows kept.now.known)) read.now }
    requires numbers { from + length read.now + length (drop end kept.now.sections.items) < 2 ^ 64 }
    ensures { let sections = kept.now.sections.items in let known = knows kept.now.known in
        IfOk result (λ told. AreToldAround (part_events kept.now.options known)
        (first_said (part_events kept.now.options known) (bytes_of_sections sections))
        (first_said (part_events kept.now.options known) (bytes_of_sections (take from sections ++ (read.now ++ drop end sections))))
        (from + length read.now) (take from sections) (drop end sections) told.items) }
{
    let rereads = Rereads {
        front: Vec::new(alloc),
        behind: Vec::new(alloc),
    };
    tell_other(alloc, kept, &kept.known, from, end, read, &rereads)
}

/// Why a document is not edited, if events are not packed.
fn refused(error: PackError) -> Refused
    ensures memory { error ≡ PackError.Memory → result ≡ Refused.Memory }
    ensures too_long { error ≡ PackError.TooLong ↔ result ≡ Refused.TooLong }
    ensures range { ¬ (result ≡ Refused.Range) }
{
    match error {
        PackError::Memory => Refused::Memory,
        PackError::TooLong => Refused::TooLong,
    }
}
