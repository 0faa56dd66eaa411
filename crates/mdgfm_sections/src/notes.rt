//! Calls of footnotes in a document that is read section by section: the labels that its footnote definitions have, and the events of a section by these.

ghost use Rattle.std.specs.Prelude.{◌≡◌, IfOk};
ghost use Rattle.markdown_base.specs.Virtual.{IsWithinLimit, virtual};
ghost use Rattle.mdblock_definitions.specs.Labelled.{AreDefined};
ghost use Rattle.mdblock_definitions.specs.Skeleton.{skeleton, written_labels};
ghost use Rattle.mdinline_labels.specs.Defined.{defines};
ghost use Rattle.mdgfm_sections.specs.Notes.{notes_written};
ghost use Rattle.mdgfm_sections.specs.Parts.{gfm_events_by};

use markdown_base::configuration::ParseOptions;
use markdown_base::event::Event;
use mdblock_definitions::parts::skeleton_with_definitions;
use mddocument::documents::read_document_by;
use mdgfm_documents::documents::with_gfm_by;
use mdgfm_footnotes::events::labels_of;
use mdinline_labels::labels::Labels;
use mdinline_machine::inlines::Inlines;
use std::alloc::{AllocError, Global};

/// The labels that bytes define, read as a document.
#[derive(Drop)]
pub struct Written {
    /// Those of link reference definitions.
    pub links: Labels,
    /// Those of footnote definitions.
    pub notes: Labels,
}

/// The labels of the footnote definitions among the events of a skeleton. Where footnote definitions are off it has none, and is not looked at.
fn notes_among(
    alloc: Global,
    options: &ParseOptions,
    bytes: &[u8],
    events: &[Event],
) -> Result<Labels, AllocError>
    requires skeleton { events.now ≡ skeleton options.now.constructs bytes.now (virtual options.now.tab_size bytes.now) }
    ensures { IfOk result (λ notes. AreDefined notes (notes_written options.now bytes.now)) }
{
    if !options.constructs.gfm_footnote_definition {
        return Ok(Labels::new(alloc));
    }
    labels_of(alloc, bytes, events)
}

/// The labels that bytes define, read as a document: those of links and those of footnotes. It fails only if it runs out of memory.
pub fn labels_and_notes(
    alloc: Global,
    options: &ParseOptions,
    bytes: &[u8],
) -> Result<Written, AllocError>
    requires limit { IsWithinLimit options.now.tab_size bytes.now }
    ensures links { IfOk result (λ written. AreDefined written.links (written_labels options.now.constructs (virtual options.now.tab_size bytes.now))) }
    ensures notes { IfOk result (λ written. AreDefined written.notes (notes_written options.now bytes.now)) }
{
    let skeleton = skeleton_with_definitions(alloc, bytes, options.tab_size, &options.constructs)?;
    let notes = notes_among(alloc, options, bytes, skeleton.events.as_slice())?;
    Ok(Written {
        links: skeleton.labels,
        notes,
    })
}

/// The events of a part of a document, as those of a document of its own with what GFM adds, by the labels of links that this machine knows and these labels of
/// footnotes. It fails only if it runs out of memory.
pub fn gfm_events_of_part(
    alloc: Global,
    bytes: &[u8],
    options: &ParseOptions,
    machine: &Inlines,
    notes: &Labels,
) -> Result<Vec<Event>, AllocError>
    requires limit { IsWithinLimit options.now.tab_size bytes.now }
    ensures { IfOk result (λ all. all.items ≡ gfm_events_by options.now (defines machine.now.labels) (defines notes.now) bytes.now) }
{
    let events = read_document_by(alloc, bytes, options, machine)?;
    with_gfm_by(alloc, bytes, options, notes, events)
}
