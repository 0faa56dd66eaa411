//! The events of a document with checks of task list items, calls of footnotes and autolink literals.

ghost use Rattle.std.specs.Prelude.{◌≡◌, IfOk, IsOk, false};
ghost use Rattle.markdown_base.specs.Events.{IsBalanced, IsInOrder};
ghost use Rattle.markdown_base.specs.Virtual.{IsWithinLimit};
ghost use Rattle.mdinline_labels.specs.Defined.{defines};
ghost use Rattle.mdgfm_documents.specs.Documents.{gfm_events, with_gfm, with_gfm_by};

use markdown_base::configuration::ParseOptions;
use markdown_base::event::Event;
use mddocument::documents::read_document;
use mdgfm_footnotes::events::{noted_in, with_calls_by};
use mdgfm_literals::events::with_literals;
use mdgfm_tasks::events::with_tasks;
use mdinline_labels::labels::Labels;
use std::alloc::{AllocError, Global};

/// Events with checks of task list items, then with calls of the footnotes that are noted, and then with autolink literals, each if its option is on. It fails only
/// if it runs out of memory.
///
/// Without these options they are returned as they are, and not copied.
pub fn with_gfm_by(
    alloc: Global,
    bytes: &[u8],
    options: &ParseOptions,
    noted: &Labels,
    events: Vec<Event>,
) -> Result<Vec<Event>, AllocError>
    ensures events { IfOk result (λ all. all.items ≡ with_gfm_by (defines noted.now) options.now bytes.now events.items) }
    ensures off { options.now.constructs.gfm_task_list_item ≡ false → options.now.constructs.gfm_label_start_footnote ≡ false → options.now.constructs.gfm_autolink_literal ≡ false → IsOk result }
{
    let tasks = with_tasks(alloc, bytes, options, events)?;
    let calls = with_calls_by(alloc, bytes, options, noted, tasks)?;
    with_literals(alloc, bytes, options, calls)
}

/// Events with checks of task list items, then with calls of footnotes that are defined among them, and then with autolink literals, each if its option is on. It
/// fails only if it runs out of memory.
///
/// Without these options they are returned as they are, and not copied.
pub fn with_gfm(
    alloc: Global,
    bytes: &[u8],
    options: &ParseOptions,
    events: Vec<Event>,
) -> Result<Vec<Event>, AllocError>
    ensures events { IfOk result (λ all. all.items ≡ with_gfm options.now bytes.now events.items) }
    ensures off { options.now.constructs.gfm_task_list_item ≡ false → options.now.constructs.gfm_label_start_footnote ≡ false → options.now.constructs.gfm_autolink_literal ≡ false → IsOk result }
{
    let noted = noted_in(alloc, bytes, options, events.as_slice())?;
    with_gfm_by(alloc, bytes, options, &noted, events)
}

/// The events of a document: those of `read_document`, with checks of task list items, calls of footnotes and autolink literals, each if its option is on. They are
/// balanced, and in order of place. It fails only if it runs out of memory.
pub fn read_gfm_document(
    alloc: Global,
    bytes: &[u8],
    options: &ParseOptions,
) -> Result<Vec<Event>, AllocError>
    requires limit { IsWithinLimit options.now.tab_size bytes.now }
    ensures events { IfOk result (λ all. all.items ≡ gfm_events options.now bytes.now) }
    ensures balanced { IfOk result (λ all. IsBalanced all.items) }
    ensures order { IfOk result (λ all. IsInOrder bytes.now all.items) }
{
    let events = read_document(alloc, bytes, options)?;
    with_gfm(alloc, bytes, options, events)
}
