//! How much of a document links and images refer to.

ghost use Rattle.std.specs.Prelude.{◌≡◌, ◌+◌, ◌≤◌, ◌∷◌, IfOk, length, max, nat_lt};
ghost use Rattle.mdhtml_document.specs.Frames.{size_by};
ghost use Rattle.mdhtml_document.specs.Html.{extent, size_of_target};
ghost use Rattle.mddocument_link_targets.specs.Targets.{enters_link, target_in};
ghost use Rattle.mdhtml_document.specs.Walks.{references_from};

use crate::names::{Inline, inline_of};
use crate::spans::{behind_first, inside};
use markdown_base::event::{Event, Kind, Name};
use mddocument_link_targets::definitions::Definitions;
use mddocument_link_targets::targets::{Target, target_inside};
use std::alloc::{AllocError, Global};

/// What of a document links and images may refer to, however short it is.
const LEAST_LIMIT: usize = 100_000;

/// Where labels are defined in a document.
#[derive(Clone, Copy)]
struct Known<'a> {
    bytes: &'a [u8],
    events: &'a [Event],
    definitions: &'a Definitions,
}

/// How many bytes of a document the span is over that the first event enters.
fn extent(events: &[Event]) -> usize
    ensures { result ≡ extent events.now }
{
    match events {
        [] => 0,
        [event, behind @ ..] => {
            let to = behind
                .get(inside(behind).len())
                .map_or(0, |exit| exit.point.index);
            to.saturating_sub(event.point.index)
        }
    }
}

/// How many bytes the definition of a label is.
fn size_of_label(known: &Known<'_>, label: &[u8]) -> usize
    ensures { result ≡ size_by known.now.events.now known.now.definitions.now label.now }
{
    match known.definitions.get(label) {
        None => 0,
        Some(at) => extent(known.events.get(at..).unwrap_or(&[])),
    }
}

/// How many bytes the definition of the label of a link or an image is, by the events in it.
fn size_of_target(alloc: Global, known: &Known<'_>, inner: &[Event]) -> Result<usize, AllocError>
    ensures { IfOk result (λ size. size ≡ size_of_target (size_by known.now.events.now known.now.definitions.now) (target_in known.now.bytes.now inner.now)) }
{
    match target_inside(alloc, known.bytes, inner)? {
        Target::Parts(_) => Ok(0),
        Target::Label(label) => Ok(size_of_label(known, label.as_slice())),
    }
}

/// How much the link or image refers to that an event enters, if it does; and how many of the events behind it are passed over.
fn referred(
    alloc: Global,
    known: &Known<'_>,
    event: &Event,
    behind: &[Event],
) -> Result<(usize, usize), AllocError>
    ensures size { IfOk result (λ r. r.0 + references_from known.now.bytes.now (size_by known.now.events.now known.now.definitions.now) r.1 behind.now ≡ references_from known.now.bytes.now (size_by known.now.events.now known.now.definitions.now) 0 (event.now ∷ behind.now)) }
    ensures within { IfOk result (λ r. r.1 ≤ length behind.now) }
{
    if event.kind == Kind::Exit {
        return Ok((0, 0));
    }
    match inline_of(event.name) {
        Inline::Link => Ok((size_of_target(alloc, known, inside(behind))?, 0)),
        Inline::Image => {
            let inner = inside(behind);
            Ok((size_of_target(alloc, known, inner)?, inner.len()))
        }
        _ => Ok((0, 0)),
    }
}

/// Whether an event enters a link or an image.
fn refers(event: &Event) -> bool
    ensures { result ≡ enters_link event.now }
{
    event.kind == Kind::Enter && (Name::Link == event.name || Name::Image == event.name)
}

/// How much the link or image refers to that an event enters, if it does; and those of the events behind it that are left.
fn refer<'a>(
    alloc: Global,
    known: &Known<'_>,
    event: &Event,
    behind: &'a [Event],
) -> Result<(usize, &'a [Event]), AllocError>
    ensures size { IfOk result (λ r. r.0 + references_from known.now.bytes.now (size_by known.now.events.now known.now.definitions.now) 0 r.1.now ≡ references_from known.now.bytes.now (size_by known.now.events.now known.now.definitions.now) 0 (event.now ∷ behind.now)) }
    ensures within { IfOk result (λ r. length r.1.now ≤ length behind.now) }
{
    if !refers(event) {
        return Ok((0, behind));
    }
    let (size, passed) = referred(alloc, known, event, behind)?;
    Ok((size, behind_first(behind, passed)))
}

/// Whether links and images refer to more than a limit.
fn is_over(alloc: Global, known: &Known<'_>, limit: usize) -> Result<bool, AllocError>
    ensures { IfOk result (λ over. over ≡ nat_lt limit (references_from known.now.bytes.now (size_by known.now.events.now known.now.definitions.now) 0 known.now.events.now)) }
{
    let mut sum = 0;
    let mut rest = known.events;
    'events: while let [event, behind @ ..] = rest {
        let (size, left) = refer(alloc, known, event, behind)?;
        if size > limit - sum {
            return Ok(true);
        }
        sum += size;
        rest = left;
    }
    Ok(false)
}

/// Whether links and images refer to more of a document than is written.
pub(crate) fn are_too_many(
    alloc: Global,
    bytes: &[u8],
    events: &[Event],
    definitions: &Definitions,
) -> Result<bool, AllocError>
    ensures { IfOk result (λ over. over ≡ nat_lt (max 100000 (length bytes.now)) (references_from bytes.now (size_by events.now definitions.now) 0 events.now)) }
{
    let known = Known {
        bytes,
        events,
        definitions,
    };
    is_over(alloc, &known, bytes.len().max(LEAST_LIMIT))
}
