//! The events of sections, moved by what is in front of them.

ghost use Rattle.std.specs.Prelude.{◌≡◌, ◌≤◌, ◌<◌, ◌+◌, ◌^◌, ◌++◌, [], ◌∷◌, All, IfNone, IfOk, IfSome, List, OnOk, drop, length, map, take, true};
ghost use Rattle.std.specs.List.{AllByRecursion};
ghost use Rattle.markdown_tokenizer.specs.Text.{IsDocument};
ghost use Rattle.mddocument.specs.Documents.{document};
ghost use Rattle.mdgfm_documents.specs.Documents.{gfm_events};
ghost use Rattle.mddocument_parts.specs.Moved.{line_endings, moved_event, moved_index, moved_link};
ghost use Rattle.mddocument_editing.specs.Divided.{bytes_of, events_between};
ghost use Rattle.mddocument_editing.specs.Fronts.{IsFrontOf, IsSmall, moved_by};
ghost use Rattle.mddocument_editing.specs.Kept.{IsKept, divided_of};
ghost use Rattle.mddocument_editing.specs.Lookups.{lookup_turns};
ghost use Rattle.mddocument_editing.specs.Packed.{end_fits, event_fits, link_fits};

use crate::kept::Kept;
use crate::list::SectionList;
use crate::section::Section;
use markdown_base::event::{Event, Link, Point};
use mdconstructs_loop_counts::Turns;
use std::alloc::{AllocError, Global};
use std::marker::Brand;
use std::sync::ledger::{Blank, Ledger};

/// What numbers of a [`Front`] can be at most.
const MOST: usize = usize::MAX / 2;

/// What is in front of a section.
#[derive(Clone, Copy)]
pub(crate) struct Front {
    /// How many line endings.
    pub(crate) lines: usize,
    /// How many bytes.
    pub(crate) bytes: usize,
    /// How many events.
    pub(crate) events: usize,
}

/// What is in front of the next section. `None` if a number would be above half of what a `usize` can be, which no document in memory has.
pub(crate) fn behind(front: Front, section: &Section) -> Option<Front>
    requires { IsSmall front }
    ensures lines { IfSome result (λ next. next.lines ≡ front.lines + section.now.lines) }
    ensures bytes { IfSome result (λ next. next.bytes ≡ front.bytes + length section.now.part.bytes.items) }
    ensures events { IfSome result (λ next. next.events ≡ front.events + length section.now.events) }
    ensures small { IfSome result IsSmall }
    ensures none { IfNone result (¬ IsSmall (record { lines = front.lines + section.now.lines; bytes = front.bytes + length section.now.part.bytes.items; events = front.events + length section.now.events })) }
{
    let lines = section.lines;
    let bytes = section.part.bytes.len();
    let events = section.events.len();
    if lines > MOST - front.lines || bytes > MOST - front.bytes || events > MOST - front.events {
        return None;
    }
    Some(Front {
        lines: front.lines + lines,
        bytes: front.bytes + bytes,
        events: front.events + events,
    })
}

/// The index of an event behind others.
fn moved_index(index: Option<usize>, events: usize) -> Option<usize>
    requires index { end_fits index ≡ true }
    requires events { events < 2 ^ 63 }
    ensures { result ≡ moved_index events index }
{
    match index {
        None => None,
        Some(index) => Some(index + events),
    }
}

/// The link of an event behind others.
fn moved_link(link: Option<Link>, events: usize) -> Option<Link>
    requires link { link_fits link ≡ true }
    requires events { events < 2 ^ 63 }
    ensures { result ≡ moved_link events link }
{
    match link {
        None => None,
        Some(link) => Some(Link {
            previous: moved_index(link.previous, events),
            next: moved_index(link.next, events),
            content: link.content,
        }),
    }
}

/// An event of a section, as one of the document.
fn moved(event: Event, front: Front) -> Event
    requires event { event_fits event ≡ true }
    requires front { IsSmall front }
    ensures { result ≡ moved_by front event }
{
    Event {
        kind: event.kind,
        name: event.name,
        point: Point {
            line: event.point.line + front.lines,
            column: event.point.column,
            index: event.point.index + front.bytes,
            vs: event.point.vs,
        },
        link: moved_link(event.link, front.events),
    }
}

/// Appends the events of a section, as those of the document.
fn push_section(events: &mut Vec<Event>, front: Front, section: &Section) -> Result<(), AllocError>
    requires { IsSmall front }
    ensures { OnOk result (events.new.items ≡ events.old.items ++ map (moved_by front) section.now.events) }
{
    events.reserve(section.events.len())?;
    for index in 0..section.events.len() {
        events.push(moved(section.events.event(index), front))?;
    }
    Ok(())
}

/// What is in front of a section, counted.
fn front_of_counted<L: Ledger>(
    list: &SectionList,
    section: usize,
    turns: &mut Turns<L>,
) -> Result<Front, AllocError>
    requires { section ≤ length list.now.items }
    ensures front { IfOk result (IsFrontOf (take section list.now.items)) }
    ensures turns { turns.new ≤ turns.old + lookup_turns (length list.now.items) }
{
    let sums = list.in_front(section, turns);
    if sums.lines > MOST || sums.bytes > MOST || sums.events > MOST {
        return Err(AllocError);
    }
    Ok(Front {
        lines: sums.lines,
        bytes: sums.bytes,
        events: sums.events,
    })
}

fn front_of_uncounted<L: Ledger>(
    list: &SectionList,
    section: usize,
    blank: Blank,
) -> Result<Front, AllocError>
    requires within { section ≤ length list.now.items }
    requires name { blank.name ≡ L.name }
    requires parts { blank.parts ≡ L.parts }
    requires some { 0 < blank.parts }
    ensures { IfOk result (IsFrontOf (take section list.now.items)) }
{
    let mut turns = Turns::<L>::new(blank);
    front_of_counted(list, section, &mut turns)
}

/// What is in front of a section.
fn front_of(list: &SectionList, section: usize) -> Result<Front, AllocError>
    requires { section ≤ length list.now.items }
    ensures { IfOk result (IsFrontOf (take section list.now.items)) }
{
    front_of_uncounted::<Brand>(list, section, Blank::new(1))
}

/// The events of the sections from one up to another, as those of the document.
pub(crate) fn events_between(
    alloc: Global,
    kept: &Kept,
    from: usize,
    to: usize,
) -> Result<Vec<Event>, AllocError>
    requires kept { IsKept kept.now }
    requires order { from ≤ to }
    requires within { to ≤ length kept.now.sections.items }
    ensures { IfOk result (λ events. events.items ≡ events_between (divided_of kept.now) from to) }
{
    let sections = kept.sections.as_slice();
    let mut events = Vec::new(alloc);
    let mut front = front_of(&kept.sections, from)?;
    let wanted = &sections[from..to];
    for section in wanted {
        push_section(&mut events, front, section)?;
        match behind(front, section) {
            None => return Err(AllocError),
            Some(next) => front = next,
        }
    }
    Ok(events)
}

/// What is kept is a possible document: each of its bytes is below 256, and its tab size is one. It only looks at the sections.
pub(crate) fn is_document(kept: &Kept)
    requires { IsKept kept.now }
    ensures { IsDocument (document kept.now.options (bytes_of (divided_of kept.now))) }
{
    let _columns = kept.options.tab_size.get();
    let sections = kept.sections.as_slice();
    for section in sections {
        is_bytes(section.part.bytes.as_slice());
    }
}

/// Bytes are below 256.
pub(crate) fn is_bytes(bytes: &[u8])
    ensures { All (λ b. b < 256) bytes.now }
{
    let _len = bytes.len();
}

/// The events of the document.
pub(crate) fn all_events(alloc: Global, kept: &Kept) -> Result<Vec<Event>, AllocError>
    requires { IsKept kept.now }
    ensures { IfOk result (λ events. events.items ≡ gfm_events kept.now.options (bytes_of (divided_of kept.now))) }
{
    is_document(kept);
    events_between(alloc, kept, 0, kept.sections.len())
}
