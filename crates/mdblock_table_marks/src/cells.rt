//! The texts of cells as chains of their own.

ghost use Rattle.std.specs.Prelude.{◌≡◌, cond, false};
ghost use Rattle.mdblock_table_marks.specs.Cells.{as_text, celled, enters_cell, with_cells};

use markdown_base::configuration::Constructs;
use markdown_base::event::{Content, Event, Kind, Link, Name};

/// Whether an event enters the text of a cell.
fn enters_cell(event: Event) -> bool
    ensures { result ≡ enters_cell event }
{
    event.kind == Kind::Enter && event.name == Name::GfmTableCellText
}

/// An event that begins a chain of its own, which is read as text.
fn as_text(event: Event) -> Event
    ensures { result ≡ as_text event }
{
    Event {
        kind: event.kind,
        name: event.name,
        point: event.point,
        link: Some(Link {
            previous: None,
            next: None,
            content: Content::Text,
        }),
    }
}

/// The data of a cell begins a chain; another event stays as it is.
fn as_cell(event: Event, is_cell: bool) -> Event
    ensures { result ≡ cond is_cell (as_text event) event }
{
    if is_cell { as_text(event) } else { event }
}

/// An event comes to begin a chain, if it is the data of a cell. Returns whether it enters the text of a cell itself.
fn link_cell(event: &mut Event, is_cell: bool) -> bool
    ensures event { event.new ≡ cond is_cell (as_text event.old) event.old }
    ensures enters { result ≡ enters_cell event.old }
{
    let own = *event;
    *event = as_cell(own, is_cell);
    enters_cell(own)
}

/// The data of each cell's text begins a chain.
fn link_cells(events: &mut [Event])
    ensures { events.new ≡ celled false events.old }
{
    let mut is_cell = false;
    for event in events.iter_mut() {
        is_cell = link_cell(event, is_cell);
    }
}

/// The text of each cell becomes a chain of its own, which is read as text, where tables are on. Only links change: no event comes, goes or moves.
pub fn with_cells(on: &Constructs, events: &mut Vec<Event>)
    ensures { events.new.items ≡ with_cells on.now events.old.items }
{
    if on.gfm_table {
        link_cells(events.as_mut_slice());
    }
}
