//! Events in little memory: 24 bytes for each, in place of 88.

ghost use Rattle.std.specs.Prelude.{◌≡◌, ◌<◌, ◌↔◌, List, IfOk, IsErrOf, Some, false, length, map, slice_get, true};
ghost use Rattle.markdown_base.specs.declared.event.Event.{Event};
ghost use Rattle.mddocument_editing.specs.Packed.{end_fits, event_fits, events_fit, link_fits, point_fits};
ghost use Rattle.mddocument_editing.specs.PackedEvents.{content_of, end_of, link_of, unpacked};
ghost use Rattle.mddocument_editing.specs.declared.packed.PackError.TheVariants.{Memory};

use markdown_base::event::{Content, Event, Kind, Link, Name, Point};
use std::alloc::{AllocError, AllocFailed, Global};
use std::marker::Model;

/// In place of an index: there is no such event.
const NO_EVENT: u32 = u32::MAX;

/// Why events are not packed.
#[derive(Clone, Copy, Debug, PartialEq, Eq)]
pub enum PackError {
    /// It ran out of memory.
    Memory,
    /// A number of an event does not fit: a line, a column or a byte index does not fit 32 bits, a number in a tab does not fit 8, or an
    /// index of an event does not fit 32 bits or is the last one of these, which stands for none.
    TooLong,
}

impl From<AllocError> for PackError {
    ghost from_gives = { λ _ error. error ≡ Memory };

    /// A failed allocation is `Memory`.
    fn from(_error: AllocError) -> PackError {
        PackError::Memory
    }
}

impl<T: Drop> From<AllocFailed<T>> for PackError {
    ghost from_gives = { λ _ error. error ≡ Memory };

    /// So is one that gives back what it was to keep.
    fn from(_failed: AllocFailed<T>) -> PackError {
        PackError::Memory
    }
}

/// What the chain of an event is read as, if it is in one.
#[derive(Clone, Copy, Debug, PartialEq, Eq)]
enum Chain {
    Unlinked,
    Flow,
    Content,
    String,
    Text,
}

/// An event in 24 bytes.
#[derive(Clone, Copy, Debug, PartialEq, Eq)]
pub struct PackedEvent {
    kind: Kind,
    name: Name,
    vs: u8,
    chain: Chain,
    line: u32,
    column: u32,
    index: u32,
    previous: u32,
    next: u32,
}

/// Events that were packed, seen as the list of the events. Their places are as they were: those of a section, which is read as a document
/// of its own, are relative to it, and so fit.
#[derive(Drop)]
pub struct Packed {
    events: Vec<PackedEvent>,
}

impl Model for Packed {
    ghost Value = { List Event };

    ghost view = { λ a. map unpacked a.events.items };
}

impl Packed {
    /// Packs events. They are tested first, so memory is taken only if all fit.
    pub fn of(alloc: Global, events: &[Event]) -> Result<Packed, PackError>
        ensures events { IfOk result (λ packed. packed ≡ events.now) }
        ensures too_long { IsErrOf result PackError.TooLong ↔ (events_fit events.now ≡ false) }
    {
        if !events_fit(events) {
            return Err(PackError::TooLong);
        }
        Ok(Packed {
            events: pack_all(alloc, events)?,
        })
    }

    /// How many events these are.
    pub fn len(&self) -> usize
        ensures { result ≡ length self.now }
    {
        self.events.len()
    }

    /// The event at an index.
    pub fn event(&self, index: usize) -> Event
        requires { index < length self.now }
        ensures event { slice_get self.now index ≡ Some result }
        ensures fits { event_fits result ≡ true }
    {
        unpack(&self.events[index])
    }
}

/// Whether a place fits.
fn point_fits(point: &Point) -> bool
    ensures { result ≡ point_fits point.now }
{
    const LIMIT: usize = u32::MAX as usize;
    point.line <= LIMIT
        && point.column <= LIMIT
        && point.index <= LIMIT
        && point.vs <= u8::MAX as usize
}

/// Whether an end of a link fits.
fn end_fits(end: Option<usize>) -> bool
    ensures { result ≡ end_fits end }
{
    match end {
        None => true,
        Some(index) => index < NO_EVENT as usize,
    }
}

/// Whether a link fits, if there is one.
fn link_fits(link: Option<Link>) -> bool
    ensures { result ≡ link_fits link }
{
    match link {
        None => true,
        Some(link) => end_fits(link.previous) && end_fits(link.next),
    }
}

/// Whether an event fits.
fn event_fits(event: &Event) -> bool
    ensures { result ≡ event_fits event.now }
{
    point_fits(&event.point) && link_fits(event.link)
}

/// Whether all events fit.
fn events_fit(events: &[Event]) -> bool
    ensures { result ≡ events_fit events.now }
{
    events.iter().all(event_fits)
}

/// The number of an end of a link.
fn pack_end(end: Option<usize>) -> u32
    requires { end_fits end ≡ true }
    ensures { end_of result ≡ end }
{
    match end {
        None => NO_EVENT,
        Some(index) => index as u32,
    }
}

/// What a chain is read as.
fn pack_content(content: Content) -> Chain
    ensures { content_of result ≡ Some content }
{
    match content {
        Content::Flow => Chain::Flow,
        Content::Content => Chain::Content,
        Content::String => Chain::String,
        Content::Text => Chain::Text,
    }
}

/// What the chain of an event is read as, and the numbers of its link's ends.
fn pack_link(link: Option<Link>) -> (Chain, u32, u32)
    requires { link_fits link ≡ true }
    ensures { link_of result.0 result.1 result.2 ≡ link }
{
    match link {
        None => (Chain::Unlinked, NO_EVENT, NO_EVENT),
        Some(link) => (
            pack_content(link.content),
            pack_end(link.previous),
            pack_end(link.next),
        ),
    }
}

/// An event, packed.
fn pack(event: &Event) -> PackedEvent
    requires { event_fits event.now ≡ true }
    ensures { unpacked result ≡ event.now }
{
    let (chain, previous, next) = pack_link(event.link);
    PackedEvent {
        kind: event.kind,
        name: event.name,
        vs: event.point.vs as u8,
        chain,
        line: event.point.line as u32,
        column: event.point.column as u32,
        index: event.point.index as u32,
        previous,
        next,
    }
}

/// Events, packed.
fn pack_all(alloc: Global, events: &[Event]) -> Result<Vec<PackedEvent>, AllocError>
    requires { events_fit events.now ≡ true }
    ensures { IfOk result (λ packed. map unpacked packed.items ≡ events.now) }
{
    let mut packed = Vec::with_capacity(alloc, events.len())?;
    for event in events {
        packed.push(pack(event))?;
    }
    Ok(packed)
}

/// The index that a number stands for.
fn unpack_end(number: u32) -> Option<usize>
    ensures index { result ≡ end_of number }
    ensures fits { end_fits result ≡ true }
{
    if number == NO_EVENT {
        None
    } else {
        Some(number as usize)
    }
}

/// What the chain of an event is read as, if it is in one.
fn unpack_content(chain: Chain) -> Option<Content>
    ensures { result ≡ content_of chain }
{
    match chain {
        Chain::Unlinked => None,
        Chain::Flow => Some(Content::Flow),
        Chain::Content => Some(Content::Content),
        Chain::String => Some(Content::String),
        Chain::Text => Some(Content::Text),
    }
}

/// The link of a packed event.
fn unpack_link(packed: &PackedEvent) -> Option<Link>
    ensures link { result ≡ link_of packed.now.chain packed.now.previous packed.now.next }
    ensures fits { link_fits result ≡ true }
{
    let content = unpack_content(packed.chain)?;
    Some(Link {
        previous: unpack_end(packed.previous),
        next: unpack_end(packed.next),
        content,
    })
}

/// The event that a packed one stands for.
fn unpack(packed: &PackedEvent) -> Event
    ensures event { result ≡ unpacked packed.now }
    ensures fits { event_fits result ≡ true }
{
    Event {
        kind: packed.kind,
        name: packed.name,
        point: Point {
            line: packed.line as usize,
            column: packed.column as usize,
            index: packed.index as usize,
            vs: packed.vs as usize,
        },
        link: unpack_link(packed),
    }
}
