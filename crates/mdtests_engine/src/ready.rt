//! Whether the chains of a list can be read, and whether one is in the first paragraph of a list item.

use crate::shown::assert_holds;
use markdown::configuration::{Constructs, TabSize};
use markdown::event::{Content, Name};
use markdown::subtokenize::{at_first_paragraph_of_list_item, ready};
use mdtests_base::chunks::Row::{Chunk, Enter, Exit, Span};
use mdtests_base::chunks::{CHAIN_AROUND_ANOTHER, CHAIN_AROUND_CHILDREN, ITEM, Place, Row, listed};
use std::alloc::{AllocError, Global};

/// Whether a list over a small document is ready.
fn is_ready(
    alloc: Global,
    list: &[Row],
    bytes: &[u8],
    filter: Option<Content>,
) -> Result<bool, AllocError> {
    if bytes.len() > 9 {
        return Err(AllocError);
    }
    let events = listed(alloc, list)?;
    let tab_size = TabSize::default();
    ready(alloc, events.as_slice(), bytes, tab_size, filter.as_ref())
}

/// Where the text begins.
const START: Place = (1, 1, 0, 0);

/// A list over `ab\ncd`, the content of the chains that fit, and whether the list is ready.
const LISTS: &[(&[Row], Option<Content>, bool)] = &[
    (&CHAIN_AROUND_ANOTHER, Some(Content::Text), true),
    (&CHAIN_AROUND_CHILDREN, Some(Content::Text), true),
    (&CHAIN_AROUND_CHILDREN, Some(Content::String), false),
    (&CHAIN_AROUND_CHILDREN, None, false),
];

#[test]
fn chains_that_fit_can_be_read(rt: HostRuntime) {
    for &(list, filter, want) in LISTS {
        let found = is_ready(rt.alloc(), list, b"ab\ncd", filter);
        assert!(rt; found.expect(&rt, "memory") == want);
    }
}

/// Whether `depth` nested spans of one name, and in the innermost one a chunk without text, are ready.
fn nested_are_ready(alloc: Global, depth: usize) -> Result<bool, AllocError> {
    let mut rows = Vec::new(alloc);
    for _ in 0..depth {
        rows.push(Enter(Name::BlockQuote, START))?;
    }
    rows.push(Chunk(START, START, Content::Text, None, None))?;
    for _ in 0..depth {
        rows.push(Exit(Name::BlockQuote, START))?;
    }
    is_ready(alloc, rows.as_slice(), b"", None)
}

#[test]
fn spans_may_be_deep(rt: HostRuntime) {
    assert_holds(
        &rt,
        nested_are_ready(rt.alloc(), 300),
        "300 spans are ready",
    );
}

/// Whether a chain is in the first paragraph of a list item. Returns `None` if the list is not balanced, or ends before the
/// index.
fn first_paragraph(
    alloc: Global,
    list: &[Row],
    index: usize,
    gfm_task_list_item: bool,
) -> Result<Option<bool>, AllocError> {
    let constructs = Constructs {
        gfm_task_list_item,
        ..Constructs::default()
    };
    let events = listed(alloc, list)?;
    let events = events.as_slice();
    let tab_size = TabSize::default();
    if index >= events.len() || !ready(alloc, events, b"", tab_size, Some(&Content::Flow))? {
        return Ok(None);
    }
    Ok(Some(at_first_paragraph_of_list_item(events, index, &constructs)))
}

/// A list item with a blank line after its prefix.
const ITEM_AFTER_BLANK_LINE: [Row; 7] = [
    Enter(Name::ListItem, START),
    Span(Name::ListItemPrefix, START, START),
    Span(Name::BlankLineEnding, START, START),
    Enter(Name::Paragraph, START),
    Chunk(START, START, Content::Text, None, None),
    Exit(Name::Paragraph, START),
    Exit(Name::ListItem, START),
];

/// A list, an index, whether list items may be tasks, and whether the chain is in the first paragraph of one.
const ITEMS: &[(&[Row], usize, bool, bool)] = &[
    (&ITEM, 4, true, true),
    (&ITEM_AFTER_BLANK_LINE, 6, true, true),
    (&ITEM, 4, false, false),
];

#[test]
fn first_paragraph_of_a_list_item_is_found(rt: HostRuntime) {
    for &(list, index, tasks, want) in ITEMS {
        let found = first_paragraph(rt.alloc(), list, index, tasks);
        assert!(rt; found.expect(&rt, "memory") == Some(want));
    }
}
