//! A list of events with the place of each, and its link.

use markdown::event::{Event, Kind};
use std::alloc::{AllocError, Global};

/// A list of events: `enter Paragraph 1:1 (0+0); Data 1:1 (0+0) to 1:2 (1+0); exit Paragraph 1:2 (1+0)`. An enter and the event
/// after it are shown as one, if that exits the span. After an event comes its link, if it has one: content, previous and next, as
/// in `Data 1:1 (0+0) Text None Some(4) to 1:2 (1+0)`.
///
/// It fails only if it runs out of memory.
pub fn shown(alloc: Global, events: &[Event]) -> Result<String, AllocError> {
    let mut text = String::new(alloc);
    push_events(&mut text, events)?;
    Ok(text)
}

/// Appends a list of events, as [`shown`] shows it.
///
/// It fails only if it runs out of memory.
pub fn push_events(text: &mut String, events: &[Event]) -> Result<(), AllocError> {
    let mut before = None;
    for (index, event) in events.iter().enumerate() {
        if is_exit_of(Some(event), before) {
            text.push_str(" to")?;
        } else {
            push_name(text, event, before, events.get(index.saturating_add(1)))?;
        }
        push_place(text, event)?;
        before = Some(event);
    }
    Ok(())
}

/// Whether an event, if there is one, exits the span that another one enters.
pub(crate) fn is_exit_of(event: Option<&Event>, enter: Option<&Event>) -> bool {
    match (event, enter) {
        (Some(event), Some(enter)) => {
            event.kind == Kind::Exit && enter.kind == Kind::Enter && event.name == enter.name
        }
        _ => false,
    }
}

/// Appends the name of an event that begins something of its own, and what it does if that is not a span without others in it.
fn push_name(
    text: &mut String,
    event: &Event,
    before: Option<&Event>,
    behind: Option<&Event>,
) -> Result<(), AllocError> {
    if before.is_some() {
        text.push_str("; ")?;
    }
    match event.kind {
        Kind::Enter if is_exit_of(behind, Some(event)) => {}
        Kind::Enter => text.push_str("enter ")?,
        Kind::Exit => text.push_str("exit ")?,
    }
    text.push_str(event.name.as_str())
}

/// Appends the place of an event, and its link.
fn push_place(text: &mut String, event: &Event) -> Result<(), AllocError> {
    let point = event.point;
    write!(
        text,
        " {}:{} ({}+{})",
        point.line, point.column, point.index, point.vs
    )?;
    match event.link {
        Some(link) => write!(
            text,
            " {:?} {:?} {:?}",
            link.content, link.previous, link.next
        ),
        None => Ok(()),
    }
}
