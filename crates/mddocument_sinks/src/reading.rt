//! A document, read piece after piece.

ghost use Rattle.std.specs.Prelude.{◌≡◌, ◌≤◌, ◌++◌, All, IfOk, List, OnErr, OnOk, length, map, take};
ghost use Rattle.markdown_base.specs.declared.event.Event.{Event};
ghost use Rattle.markdown_base.specs.Virtual.{IsWithinLimit};
ghost use Rattle.markdown_tokenizer.specs.Text.{IsDocument};
ghost use Rattle.mdinline_labels.specs.Defined.{defines};
ghost use Rattle.mddocument.specs.DocumentEvents.{document_events};
ghost use Rattle.mddocument.specs.Documents.{document};
ghost use Rattle.mddocument_parts.specs.BothDocuments.{events_by};
ghost use Rattle.mddocument_parts.specs.Moved.{moved_event};
ghost use Rattle.mddocument_sinks.specs.Seams.{IsSeam};
ghost use Rattle.mddocument_sinks.specs.Reached.{IsReached};
ghost use Rattle.mddocument_sinks.specs.Taken.{TookFront};

use crate::moved::moved_events;
use crate::pieces::plan_of;
use crate::sink::{EventSink, Unread};
use markdown_base::configuration::ParseOptions;
use mddocument::documents::{read_document, read_document_by};
use mddocument_editing::positions::line_endings;
use mdinline_machine::inlines::Inlines;
use std::alloc::Global;

/// The longest document that is read at once. Pieces of a longer one are read apart, for which its lines are looked over twice: so half as many
/// instructions again are taken, and far less memory.
const WHOLE: usize = 262_144;

/// How far a document was read.
#[derive(Clone, Copy)]
struct Reached {
    /// The index behind the bytes that were read.
    bytes: usize,
    /// How many line endings these have.
    lines: usize,
}

/// Reads a document, and hands its events on to a sink as they are made. What the sink takes, joined, are the events of
/// [`read_document`](mddocument::documents::read_document).
///
/// A document of more than 256 KiB is read piece after piece, each from one rest of the document to a later one. So it needs memory for one piece
/// alone, and for the labels that the document defines. A piece has some 16 KiB; it is as long as a block or container that is longer than that.
///
/// It fails only if it runs out of memory, or the sink takes no more. The sink then took a front of the events.
pub fn read_document_into<S: EventSink>(
    alloc: Global,
    bytes: &[u8],
    options: &ParseOptions,
    sink: &mut S,
) -> Result<(), Unread>
    requires limit { IsWithinLimit options.now.tab_size bytes.now }
    ensures events { OnOk result (S.taken sink.new ≡ S.taken sink.old ++ document_events (document options.now bytes.now)) }
    ensures front { OnErr result (TookFront (document_events (document options.now bytes.now)) (S.taken sink.old) (S.taken sink.new)) }
{
    if bytes.len() > WHOLE {
        hand_on_planned(alloc, bytes, options, sink)
    } else {
        hand_on_whole(alloc, bytes, options, sink)
    }
}

/// As [`read_document_into`], at once.
fn hand_on_whole<S: EventSink>(
    alloc: Global,
    bytes: &[u8],
    options: &ParseOptions,
    sink: &mut S,
) -> Result<(), Unread>
    requires limit { IsWithinLimit options.now.tab_size bytes.now }
    ensures events { OnOk result (S.taken sink.new ≡ S.taken sink.old ++ document_events (document options.now bytes.now)) }
    ensures front { OnErr result (TookFront (document_events (document options.now bytes.now)) (S.taken sink.old) (S.taken sink.new)) }
{
    let events = read_document(alloc, bytes, options)?;
    sink.take_events(events.as_slice())?;
    Ok(())
}

/// As [`read_document_into`], piece after piece.
fn hand_on_planned<S: EventSink>(
    alloc: Global,
    bytes: &[u8],
    options: &ParseOptions,
    sink: &mut S,
) -> Result<(), Unread>
    requires limit { IsWithinLimit options.now.tab_size bytes.now }
    ensures events { OnOk result (S.taken sink.new ≡ S.taken sink.old ++ document_events (document options.now bytes.now)) }
    ensures front { OnErr result (TookFront (document_events (document options.now bytes.now)) (S.taken sink.old) (S.taken sink.new)) }
{
    is_document(bytes, options);
    let plan = plan_of(alloc, bytes, options)?;
    let machine = Inlines {
        labels: plan.labels,
    };
    hand_on_pieces(alloc, bytes, options, &machine, plan.seams.as_slice(), sink)
}

/// Bytes within the limit, with options, are a document.
fn is_document(bytes: &[u8], options: &ParseOptions)
    requires limit { IsWithinLimit options.now.tab_size bytes.now }
    ensures { IsDocument (document options.now bytes.now) }
{
    let _columns = options.tab_size.get();
}

/// Hands on the events of a document, by the labels that this machine knows. It is cut at these seams, and at its end.
fn hand_on_pieces<S: EventSink>(
    alloc: Global,
    bytes: &[u8],
    options: &ParseOptions,
    machine: &Inlines,
    seams: &[usize],
    sink: &mut S,
) -> Result<(), Unread>
    requires document { IsDocument (document options.now bytes.now) }
    requires seams { All (IsSeam options.now bytes.now) seams.now }
    ensures events { OnOk result (S.taken sink.new ≡ S.taken sink.old ++ events_by options.now (defines machine.now.labels) bytes.now) }
    ensures front { OnErr result (TookFront (events_by options.now (defines machine.now.labels) bytes.now) (S.taken sink.old) (S.taken sink.new)) }
{
    let mut reached = Reached { bytes: 0, lines: 0 };
    for seam in seams {
        reached = hand_on_piece(alloc, bytes, options, machine, reached, *seam, sink)?;
    }
    hand_on_piece(alloc, bytes, options, machine, reached, bytes.len(), sink)?;
    Ok(())
}

/// Hands on the events of the piece up to a seam, if there is one.
fn hand_on_piece<S: EventSink>(
    alloc: Global,
    bytes: &[u8],
    options: &ParseOptions,
    machine: &Inlines,
    reached: Reached,
    seam: usize,
    sink: &mut S,
) -> Result<Reached, Unread>
    requires document { IsDocument (document options.now bytes.now) }
    requires reached { IsReached options.now bytes.now reached }
    requires seam { IsSeam options.now bytes.now seam }
    ensures reached { IfOk result (IsReached options.now bytes.now) }
    ensures far { IfOk result (λ next. seam ≤ next.bytes) }
    ensures events { IfOk result (λ next. (before : List Event) → S.taken sink.old ≡ before ++ events_by options.now (defines machine.now.labels) (take reached.bytes bytes.now) → S.taken sink.new ≡ before ++ events_by options.now (defines machine.now.labels) (take next.bytes bytes.now)) }
    ensures front { OnErr result ((before : List Event) → S.taken sink.old ≡ before ++ events_by options.now (defines machine.now.labels) (take reached.bytes bytes.now) → TookFront (events_by options.now (defines machine.now.labels) bytes.now) before (S.taken sink.new)) }
{
    if seam <= reached.bytes {
        return Ok(reached);
    }
    let piece = &bytes[reached.bytes..seam];
    hand_on_moved(alloc, piece, options, machine, reached, sink)?;
    Ok(Reached {
        bytes: seam,
        lines: reached.lines + line_endings(piece),
    })
}

/// Hands on the events of a piece, as those of the document.
fn hand_on_moved<S: EventSink>(
    alloc: Global,
    piece: &[u8],
    options: &ParseOptions,
    machine: &Inlines,
    reached: Reached,
    sink: &mut S,
) -> Result<(), Unread>
    requires limit { IsWithinLimit options.now.tab_size piece.now }
    ensures events { OnOk result (S.taken sink.new ≡ S.taken sink.old ++ map (moved_event reached.lines reached.bytes 0) (events_by options.now (defines machine.now.labels) piece.now)) }
    ensures front { OnErr result (TookFront (map (moved_event reached.lines reached.bytes 0) (events_by options.now (defines machine.now.labels) piece.now)) (S.taken sink.old) (S.taken sink.new)) }
{
    let events = read_document_by(alloc, piece, options, machine)?;
    let moved = moved_events(alloc, events.as_slice(), reached.lines, reached.bytes)?;
    sink.take_events(moved.as_slice())?;
    Ok(())
}
