//! Lists of whole documents: whether they are loose, the kind of their markers and the numbers that they start with, worked by hand.

use crate::shown::assert_holds;
use markdown::configuration::ParseOptions;
use markdown::event::Event;
use mdconstructs::list_shapes::{ListShape, lists_of};
use mdconstructs::lists::Marker::{Dash, Parenthesis, Period, Plus, Star};
use mdconstructs::lists::{Marker, is_loose, item_spread, list_spread, marker_of, start_of};
use mdconstructs::read_document;
use std::alloc::{AllocError, Global};

/// What is said of a list: whether it is loose, whether two of its items have a blank line between them, the kind of its markers, and its
/// number.
type Said = (bool, bool, Option<Marker>, Option<u32>);

/// What is said of each list of a document's events, in order of their enters.
fn said_of(alloc: Global, bytes: &[u8], events: &[Event]) -> Result<Vec<Said>, AllocError> {
    let mut all = Vec::new(alloc);
    for at in 0..events.len() {
        if let (Some(loose), Some(spread)) = (is_loose(events, at), list_spread(events, at)) {
            let marker = marker_of(bytes, events, at);
            all.push((loose, spread, marker, start_of(bytes, events, at)))?;
        }
    }
    Ok(all)
}

/// The same of what is said of all lists at once. None if it is another list's than that at its index.
fn said_at_once(
    alloc: Global,
    events: &[Event],
    shapes: &[ListShape],
) -> Result<Option<Vec<Said>>, AllocError> {
    let mut all = Vec::new(alloc);
    for shape in shapes {
        if is_loose(events, shape.at) != Some(shape.is_loose) {
            return Ok(None);
        }
        all.push((shape.is_loose, shape.is_spread, shape.marker, shape.start))?;
    }
    Ok(Some(all))
}

/// For each item of a document's events, whether two of its blocks have a blank line between them.
fn items_of(alloc: Global, events: &[Event]) -> Result<Vec<bool>, AllocError> {
    let mut all = Vec::new(alloc);
    for at in 0..events.len() {
        if let Some(spread) = item_spread(events, at) {
            all.push(spread)?;
        }
    }
    Ok(all)
}

/// The events of a short document.
fn events_of(alloc: Global, bytes: &[u8]) -> Result<Vec<Event>, AllocError> {
    if bytes.len() > 99 {
        return Err(AllocError);
    }
    let options = ParseOptions::default();
    read_document(alloc, bytes, &options)
}

/// A document, what is said of its lists, and for each of its items whether two blocks have a blank line between them.
const DOCUMENTS: &[(&[u8], &[Said], &[bool])] = &[
    (b"a\n", &[], &[]),
    (
        b"- a\n- b",
        &[(false, false, Some(Dash), None)],
        &[false, false],
    ),
    (
        b"+ a\n\n+ b",
        &[(true, true, Some(Plus), None)],
        &[false, false],
    ),
    // the line of an empty item is no blank line
    (
        b"* a\n*\n* b",
        &[(false, false, Some(Star), None)],
        &[false, false, false],
    ),
    (
        b"* a\n*\n\n* b",
        &[(true, true, Some(Star), None)],
        &[false, false, false],
    ),
    (
        b"1. a\n\n   b\n2. c",
        &[(true, false, Some(Period), Some(1))],
        &[true, false],
    ),
    (b"- # a\n  b", &[(false, false, Some(Dash), None)], &[false]),
    // two blocks of an item of an item, and of a quote
    (
        b"- a\n  - b\n\n    c\n- d",
        &[
            (false, false, Some(Dash), None),
            (true, false, Some(Dash), None),
        ],
        &[false, true, false],
    ),
    (
        b"- > a\n  >\n  > b\n- c",
        &[(false, false, Some(Dash), None)],
        &[false, false],
    ),
    // a blank line that ends a quote, or is in code, is not between two blocks
    (
        b"- a\n  > b\n  >\n- c",
        &[(false, false, Some(Dash), None)],
        &[false, false],
    ),
    (
        b"- ```\n\n  ```\n- a",
        &[(false, false, Some(Dash), None)],
        &[false, false],
    ),
    // a quote ends with the line before a blank line, though code in it is open
    (
        b"- > ```\n\n- a",
        &[(true, true, Some(Dash), None)],
        &[false, false],
    ),
    // the first number counts, and no number of another list
    (
        b"007) a\n3) b",
        &[(false, false, Some(Parenthesis), Some(7))],
        &[false, false],
    ),
    (
        b"999999999. a",
        &[(false, false, Some(Period), Some(999_999_999))],
        &[false],
    ),
    (
        b"- a\n1. b",
        &[
            (false, false, Some(Dash), None),
            (false, false, Some(Period), Some(1)),
        ],
        &[false, false],
    ),
];

/// Whether this is said of a document's lists, one by one and at once, and this of its items.
fn are_said(
    alloc: Global,
    document: &[u8],
    lists: &[Said],
    items: &[bool],
) -> Result<bool, AllocError> {
    let events = events_of(alloc, document)?;
    let events = events.as_slice();
    let said = said_of(alloc, document, events)?;
    let shapes = lists_of(alloc, document, events)?;
    let Some(at_once) = said_at_once(alloc, events, shapes.as_slice())? else {
        return Ok(false);
    };
    Ok(
        said.as_slice() == lists
            && at_once.as_slice() == lists
            && items_of(alloc, events)?.as_slice() == items,
    )
}

/// Whether the first event alone says something of a list.
fn first_alone_says(alloc: Global) -> Result<bool, AllocError> {
    let document = b"- a";
    let events = events_of(alloc, document)?;
    let events = events.as_slice();
    for at in 1..events.len() + 1 {
        if is_loose(events, at).is_some()
            || list_spread(events, at).is_some()
            || marker_of(document, events, at).is_some()
            || start_of(document, events, at).is_some()
        {
            return Ok(false);
        }
    }
    Ok(is_loose(events, 0) == Some(false) && item_spread(events, 0).is_none())
}

/// The lists of `> 3. - a`.
const NESTED: [ListShape; 2] = [
    ListShape {
        at: 7,
        is_loose: false,
        is_spread: false,
        marker: Some(Period),
        start: Some(3),
    },
    ListShape {
        at: 17,
        is_loose: false,
        is_spread: false,
        marker: Some(Dash),
        start: None,
    },
];

/// Whether shapes say where lists are.
fn shapes_have_places(alloc: Global) -> Result<bool, AllocError> {
    let document = b"> 3. - a";
    let events = events_of(alloc, document)?;
    Ok(lists_of(alloc, document, events.as_slice())?.as_slice() == NESTED.as_slice())
}

#[test]
fn lists_are_as_worked_by_hand(rt: HostRuntime) {
    for &(document, lists, items) in DOCUMENTS {
        let found = are_said(rt.alloc(), document, lists, items);
        assert!(rt; found.expect(&rt, "memory"), "of {document:?}");
    }
    assert_holds(&rt, first_alone_says(rt.alloc()), "of other events");
    assert_holds(&rt, shapes_have_places(rt.alloc()), "where lists are");
}
