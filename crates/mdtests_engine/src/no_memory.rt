//! Calls that take no memory. A test here takes none, or passes if its setup runs out of memory. So it passes whichever
//! allocation `rt try --test --fail-alloc N` makes fail.

use crate::walks::white_space_and_data;
use markdown::configuration::Constructs;
use markdown::subtokenize::at_first_paragraph_of_list_item;
use markdown::unist;
use markdown::util::edit_map::EditMap;
use markdown::util::location::Location;
use markdown::util::slice::Slice;
use std::alloc::Global;

/// Whether edits that are none are made.
fn nothing_is_edited(alloc: Global) -> bool {
    let mut map = EditMap::new(alloc);
    let mut events = Vec::new(alloc);
    map.add(0, 0, Vec::new(alloc)).is_ok()
        && map.add_before(0, 0, Vec::new(alloc)).is_ok()
        && map.consume(&mut events).is_ok()
}

/// Whether a place is found in the lines of a document, if there was memory for the lines.
fn finds_lines(alloc: Global) -> bool {
    match Location::new(alloc, b"a\nb") {
        Ok(location) => {
            location.to_point(2) == Some(unist::Point::new(2, 1, 2))
                && location.relative_to_point(&[(0, 2)], 1) == Some(unist::Point::new(2, 2, 3))
        }
        Err(_) => true,
    }
}

#[test]
fn looking_and_editing_nothing_takes_no_memory(rt: HostRuntime) {
    let events = white_space_and_data();
    assert!(rt; nothing_is_edited(rt.alloc()));
    assert!(rt; !at_first_paragraph_of_list_item(&events, 3, &Constructs::gfm()));
    assert!(rt; finds_lines(rt.alloc()));
    assert!(rt; Slice::from_indices(b"abc", 1, 3).len() == 2);
}
