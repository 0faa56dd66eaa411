//! Lists of events, as the tests of children write them.

use crate::chunks::Row::{Chunk, Enter, Exit, Span};
use crate::shown::at;
use markdown::event::{Content, Event, Kind, Link, Name};
use std::alloc::{AllocError, Global};

/// Line, column, byte index, and number in a tab.
pub type Place = (usize, usize, usize, usize);

/// Events as tests write them.
#[derive(Drop)]
pub enum Row {
    /// An enter without a link.
    Enter(Name, Place),
    /// An exit.
    Exit(Name, Place),
    /// A span without others in it: its enter and its exit.
    Span(Name, Place, Place),
    /// A chunk of data, with the chunks before and behind it in its chain: its enter and its exit.
    Chunk(Place, Place, Content, Option<usize>, Option<usize>),
}

/// The event of a kind, a name, a place and a link.
fn event_at(kind: Kind, name: Name, place: Place, link: Option<Link>) -> Event {
    let (line, column, index, vs) = place;
    let point = at(line, column, index, vs);
    Event {
        kind,
        name,
        point,
        link,
    }
}

/// The event of a row, and the one after it if it has two.
fn events_of(row: &Row) -> (Event, Option<Event>) {
    match *row {
        Enter(name, place) => (event_at(Kind::Enter, name, place, None), None),
        Exit(name, place) => (event_at(Kind::Exit, name, place, None), None),
        Span(name, place, end) => (
            event_at(Kind::Enter, name, place, None),
            Some(event_at(Kind::Exit, name, end, None)),
        ),
        Chunk(place, end, content, previous, next) => {
            let link = Link {
                previous,
                next,
                content,
            };
            (
                event_at(Kind::Enter, Name::Data, place, Some(link)),
                Some(event_at(Kind::Exit, Name::Data, end, None)),
            )
        }
    }
}

/// The events of rows.
pub fn listed(alloc: Global, rows: &[Row]) -> Result<Vec<Event>, AllocError> {
    let mut events = Vec::new(alloc);
    for row in rows {
        let (first, second) = events_of(row);
        events.push(first)?;
        if let Some(event) = second {
            events.push(event)?;
        }
    }
    Ok(events)
}

/// A quoted paragraph of two lines.
pub const QUOTE: [Row; 8] = [
    Enter(Name::BlockQuote, (1, 1, 0, 0)),
    Span(Name::BlockQuotePrefix, (1, 1, 0, 0), (1, 3, 2, 0)),
    Enter(Name::Paragraph, (1, 3, 2, 0)),
    Chunk((1, 3, 2, 0), (2, 1, 4, 0), Content::Text, None, Some(8)),
    Span(Name::BlockQuotePrefix, (2, 1, 4, 0), (2, 3, 6, 0)),
    Chunk((2, 3, 6, 0), (2, 4, 7, 0), Content::Text, Some(4), None),
    Exit(Name::Paragraph, (2, 4, 7, 0)),
    Exit(Name::BlockQuote, (2, 4, 7, 0)),
];

/// A paragraph of two lines in three chunks. The second one has no text.
pub const EMPTY_CHUNK: [Row; 5] = [
    Enter(Name::Paragraph, (1, 1, 0, 0)),
    Chunk((1, 1, 0, 0), (2, 1, 2, 0), Content::Text, None, Some(3)),
    Chunk((2, 1, 2, 0), (2, 1, 2, 0), Content::Text, Some(1), Some(5)),
    Chunk((2, 1, 2, 0), (2, 2, 3, 0), Content::Text, Some(3), None),
    Exit(Name::Paragraph, (2, 2, 3, 0)),
];

/// A paragraph that begins with a chunk of no text, in a chain of its own.
pub const ONE_EMPTY_CHUNK: [Row; 4] = [
    Enter(Name::Paragraph, (1, 1, 0, 0)),
    Chunk((1, 1, 0, 0), (1, 1, 0, 0), Content::Text, None, None),
    Span(Name::Data, (1, 1, 0, 0), (1, 2, 1, 0)),
    Exit(Name::Paragraph, (1, 2, 1, 0)),
];

/// A chain around another one, in `"ab\ncd"`.
pub const CHAIN_AROUND_ANOTHER: [Row; 4] = [
    Chunk((1, 1, 0, 0), (1, 2, 1, 0), Content::String, None, Some(6)),
    Chunk((1, 2, 1, 0), (2, 1, 3, 0), Content::Text, None, Some(4)),
    Chunk((2, 1, 3, 0), (2, 2, 4, 0), Content::Text, Some(2), None),
    Chunk((2, 2, 4, 0), (2, 3, 5, 0), Content::String, Some(0), None),
];

/// A chain around what another one became.
pub const CHAIN_AROUND_CHILDREN: [Row; 5] = [
    Chunk((1, 1, 0, 0), (1, 2, 1, 0), Content::String, None, Some(8)),
    Span(Name::Data, (1, 2, 1, 0), (1, 3, 2, 0)),
    Span(Name::LineEnding, (1, 3, 2, 0), (2, 1, 3, 0)),
    Span(Name::Data, (2, 1, 3, 0), (2, 2, 4, 0)),
    Chunk((2, 2, 4, 0), (2, 3, 5, 0), Content::String, Some(0), None),
];

/// A list item of one line, `- a`.
pub const ITEM: [Row; 6] = [
    Enter(Name::ListItem, (1, 1, 0, 0)),
    Span(Name::ListItemPrefix, (1, 1, 0, 0), (1, 3, 2, 0)),
    Enter(Name::Paragraph, (1, 3, 2, 0)),
    Chunk((1, 3, 2, 0), (1, 4, 3, 0), Content::Text, None, None),
    Exit(Name::Paragraph, (1, 4, 3, 0)),
    Exit(Name::ListItem, (1, 4, 3, 0)),
];
