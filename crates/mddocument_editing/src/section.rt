//! A section as it is kept, and how one is read.

ghost use Rattle.std.specs.Prelude.{◌≡◌, IfOk, IsErrOf, MatchResult};
ghost use Rattle.std.specs.List.{AllByRecursion};
ghost use Rattle.markdown_base.specs.Virtual.{IsWithinLimit};
ghost use Rattle.mddocument_editing.specs.FirstRest.{items_of};
ghost use Rattle.mddocument_editing.specs.Said.{linking};
ghost use Rattle.mddocument_editing.specs.Kept.{IsLabelled, IsPackable, IsRead, bytes_of_parts, bytes_of_sections, has_end};
ghost use Rattle.mddocument_editing.specs.Known.{knows, part_events};

use crate::defined::Defined;
use crate::linking::{Linking, linking_of};
use crate::packed::{PackError, Packed};
use crate::positions::line_endings;
use markdown_base::configuration::ParseOptions;
use markdown_base::owned::Boxed;
use mdgfm_sections::notes::gfm_events_of_part;
use std::alloc::{AllocError, Global};

/// A part of a document that begins at a rest, with the labels that it defines.
#[derive(Drop)]
pub(crate) struct Part {
    /// Its bytes.
    pub(crate) bytes: Vec<u8>,
    /// The labels that it defines, of links and of footnotes.
    pub(crate) defined: Defined,
}

/// A section: such a part, with its events.
#[derive(Drop)]
pub(crate) struct Section {
    /// Its bytes and labels.
    pub(crate) part: Part,
    /// How many line endings it has.
    pub(crate) lines: usize,
    /// Whether it may look up a label: it has a `]`.
    pub(crate) asks: bool,
    /// Its events, as those of a document of its own, by the labels of the whole document.
    pub(crate) events: Packed,
    /// What links go by that are among them.
    pub(crate) linking: Boxed<Linking>,
}

/// What a part is read as.
#[derive(Drop)]
pub(crate) struct Read {
    /// Its events.
    pub(crate) events: Packed,
    /// What links go by that are among them.
    pub(crate) linking: Boxed<Linking>,
}

/// The parts with these bytes.
pub(crate) fn parts_of(
    alloc: Global,
    options: &ParseOptions,
    cut: Vec<Vec<u8>>,
) -> Result<Vec<Part>, AllocError>
    requires { AllByRecursion (IsWithinLimit options.now.tab_size) (items_of cut.items) }
    ensures bytes { IfOk result (λ parts. bytes_of_parts parts.items ≡ items_of cut.items) }
    ensures labels { IfOk result (λ parts. AllByRecursion (IsLabelled options.now) parts.items) }
{
    let mut parts = Vec::with_capacity(alloc, cut.len())?;
    for bytes in cut {
        let defined = Defined::by(alloc, options, bytes.as_slice())?;
        parts.push(Part { bytes, defined })?;
    }
    Ok(parts)
}

/// What a part is read as.
pub(crate) fn read_of(
    alloc: Global,
    options: &ParseOptions,
    known: &Defined,
    bytes: &[u8],
) -> Result<Read, PackError>
    requires { IsWithinLimit options.now.tab_size bytes.now }
    ensures events { MatchResult result (λ read. read.events ≡ part_events options.now (knows known.now) bytes.now) (λ error. error ≡ PackError.TooLong → ¬ IsPackable options.now (knows known.now) bytes.now) }
    ensures linking { IfOk result (λ read. read.linking ≡ linking bytes.now read.events) }
{
    let Defined { machine, notes } = known;
    let events = gfm_events_of_part(alloc, bytes, options, machine, notes)?;
    let linking = linking_of(alloc, bytes, events.as_slice())?;
    match Packed::of(alloc, events.as_slice()) {
        Ok(events) => Ok(Read { events, linking }),
        Err(error) => Err(error),
    }
}

/// Whether there is a `]` in bytes.
fn has_end(bytes: &[u8]) -> bool
    ensures { result ≡ has_end bytes.now }
{
    bytes.iter().any(|byte| *byte == b']')
}

/// A part, read.
fn section_of(
    alloc: Global,
    options: &ParseOptions,
    known: &Defined,
    part: Part,
) -> Result<Section, PackError>
    requires limit { IsWithinLimit options.now.tab_size part.bytes.items }
    requires labels { IsLabelled options.now part }
    ensures part { IfOk result (λ section. section.part ≡ part) }
    ensures read { IfOk result (IsRead options.now (knows known.now)) }
    ensures fits { IsPackable options.now (knows known.now) part.bytes.items → ¬ IsErrOf result PackError.TooLong }
{
    let bytes = part.bytes.as_slice();
    let read = read_of(alloc, options, known, bytes)?;
    let lines = line_endings(bytes);
    let asks = has_end(bytes);
    Ok(Section {
        part,
        lines,
        asks,
        events: read.events,
        linking: read.linking,
    })
}

/// Parts, each read.
pub(crate) fn sections_of(
    alloc: Global,
    options: &ParseOptions,
    known: &Defined,
    parts: Vec<Part>,
) -> Result<Vec<Section>, PackError>
    requires limit { AllByRecursion (IsWithinLimit options.now.tab_size) (bytes_of_parts parts.items) }
    requires labels { AllByRecursion (IsLabelled options.now) parts.items }
    ensures bytes { IfOk result (λ sections. bytes_of_sections sections.items ≡ bytes_of_parts parts.items) }
    ensures read { IfOk result (λ sections. AllByRecursion (IsRead options.now (knows known.now)) sections.items) }
    ensures fits { AllByRecursion (IsPackable options.now (knows known.now)) (bytes_of_parts parts.items) → ¬ IsErrOf result PackError.TooLong }
{
    let mut sections = Vec::with_capacity(alloc, parts.len())?;
    for part in parts {
        sections.push(section_of(alloc, options, known, part)?)?;
    }
    Ok(sections)
}
