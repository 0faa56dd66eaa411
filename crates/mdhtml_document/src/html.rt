//! HTML of a document, by its events.

ghost use Rattle.std.specs.List.{list_any};
ghost use Rattle.std.specs.Prelude.{◌≡◌, IfOk, List, ℕ, length, max, nat_lt};
ghost use Rattle.markdown_base.specs.Events.{IsBalanced};
ghost use Rattle.markdown_base.specs.declared.event.Name.TheVariants as name;
ghost use Rattle.mddocument_link_targets.specs.Defined.{defined_at};
ghost use Rattle.mddocument_link_targets.specs.Spans.{enters};
ghost use Rattle.mddocument_link_targets.specs.Targets.{definition_of};
ghost use Rattle.mdhtml_document.specs.Frames.{size_by};
ghost use Rattle.mdhtml_document.specs.Html.{html_of_events};
ghost use Rattle.mdhtml_document.specs.Walks.{references_from};

use crate::links::Whole;
use crate::note_section::push_section;
use crate::notes::number_notes;
use crate::references::are_too_many;
use crate::writer::{from_list, write};
use markdown_base::configuration::{CompileOptions, TabSize};
use markdown_base::event::{Event, Name};
use mdblock_containers::list_shapes::lists_of;
use mddocument_link_targets::definitions::{Definitions, definitions_of};
use mddocument_link_targets::spans::enters;
use std::alloc::{AllocError, Global};

/// Whether an event enters a definition.
fn has_definition(events: &[Event]) -> bool
    ensures { result ≡ list_any (enters name.Definition) events.now }
{
    events.iter().any(|event| enters(event, Name::Definition))
}

/// The definitions of a document, and whether links and images refer to more of it than is written. Where nothing is defined, nothing is referred to.
fn definitions_in(
    alloc: Global,
    bytes: &[u8],
    events: &[Event],
) -> Result<(Definitions, bool), AllocError>
    ensures defined { IfOk result (λ known. (label : List ℕ) → defined_at known.0 label ≡ definition_of bytes.now events.now label) }
    ensures limit { IfOk result (λ known. known.1 ≡ nat_lt (max 100000 (length bytes.now)) (references_from bytes.now (size_by events.now known.0) 0 events.now)) }
{
    if !has_definition(events) {
        let none = definitions_of(alloc, bytes, &[])?;
        return Ok((none, false));
    }
    let definitions = definitions_of(alloc, bytes, events)?;
    let are_too_many = are_too_many(alloc, bytes, events, &definitions)?;
    Ok((definitions, are_too_many))
}

/// HTML of a document, by its events, the options for HTML and the distance of its tab stops. Fails only if it runs out of memory.
pub fn html_of_events(
    alloc: Global,
    bytes: &[u8],
    events: &[Event],
    options: &CompileOptions,
    tab: TabSize,
) -> Result<Vec<u8>, AllocError>
    ensures { IfOk result (λ html. IsBalanced events.now → html.items ≡ html_of_events options.now bytes.now tab events.now) }
{
    let lists = lists_of(alloc, bytes, from_list(events))?;
    let known = definitions_in(alloc, bytes, events)?;
    let notes = number_notes(alloc, bytes, events)?;
    let whole = Whole {
        bytes,
        events,
        definitions: &known.0,
        are_too_many: known.1,
        calls: &notes.calls,
        options,
        tab,
    };
    let mut html = write(alloc, &whole, lists.as_slice())?;
    push_section(alloc, &mut html, &whole, &notes)?;
    Ok(html)
}
