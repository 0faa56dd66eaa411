//! Places as the Language Server Protocol tells them, and events at the limits of what is packed.

use markdown::event::{Content, Event, Kind, Link, Name, Point};
use mdconstructs::packed::{PackError, Packed, PackedEvent};
use mdconstructs::positions::{Encoding, Position, line_endings, offset_of, position_of};
use std::alloc::Global;
use std::mem::size_of;

/// Places of lines and of units in them, and byte indices.
type Places = &'static [(usize, usize, Option<usize>)];

/// Texts, their encoding, and places with their byte index, if they have one. The protocol's own example: in `a𐐀b` the places of `a`, `𐐀` and `b` in
/// UTF-16 are 0, 1 and 3; in UTF-8 they are 0, 1 and 5. Lines end with `\n`, `\r\n` or `\r`. A character behind a line's end is the line's end, and there
/// is a line behind the last ending.
const OFFSETS: &[(&[u8], Encoding, Places)] = &[
    (
        b"a\xF0\x90\x90\x80b",
        Encoding::Utf16,
        &[
            (0, 0, Some(0)),
            (0, 1, Some(1)),
            (0, 2, None),
            (0, 3, Some(5)),
            (0, 4, Some(6)),
        ],
    ),
    (
        b"a\xF0\x90\x90\x80b",
        Encoding::Utf8,
        &[
            (0, 0, Some(0)),
            (0, 1, Some(1)),
            (0, 2, None),
            (0, 4, None),
            (0, 5, Some(5)),
            (0, 6, Some(6)),
        ],
    ),
    (
        b"\xC3\xA4\xE2\x82\xAC\xE2\x82x\xFFy",
        Encoding::Utf16,
        &[
            (0, 0, Some(0)),
            (0, 1, Some(2)),
            (0, 2, Some(5)),
            (0, 3, Some(6)),
            (0, 4, Some(7)),
            (0, 5, Some(8)),
            (0, 6, Some(9)),
            (0, 7, Some(10)),
        ],
    ),
    (
        b"ab\r\nc\rd\n\n",
        Encoding::Utf16,
        &[
            (0, 1, Some(1)),
            (0, 2, Some(2)),
            (0, 9, Some(2)),
            (1, 0, Some(4)),
            (1, 1, Some(5)),
            (1, 2, Some(5)),
            (2, 0, Some(6)),
            (2, 7, Some(7)),
            (3, 0, Some(8)),
            (4, 0, Some(9)),
            (4, 1, Some(9)),
            (5, 0, None),
        ],
    ),
    (b"", Encoding::Utf8, &[(0, 3, Some(0))]),
];

/// The same texts, and byte indices with their place. An index inside a character has none, and a byte that is in no character is a unit.
const POSITIONS: &[(&[u8], Encoding, &[(usize, Option<(usize, usize)>)])] = &[
    (
        b"a\xF0\x90\x90\x80b",
        Encoding::Utf16,
        &[
            (0, Some((0, 0))),
            (1, Some((0, 1))),
            (2, None),
            (3, None),
            (4, None),
            (5, Some((0, 3))),
            (6, Some((0, 4))),
            (7, None),
        ],
    ),
    (
        b"a\xF0\x90\x90\x80b",
        Encoding::Utf8,
        &[
            (0, Some((0, 0))),
            (1, Some((0, 1))),
            (2, None),
            (3, None),
            (4, None),
            (5, Some((0, 5))),
            (6, Some((0, 6))),
            (7, None),
        ],
    ),
    (
        b"\xC3\xA4\xE2\x82\xAC\xE2\x82x\xFFy",
        Encoding::Utf16,
        &[
            (0, Some((0, 0))),
            (1, None),
            (2, Some((0, 1))),
            (3, None),
            (4, None),
            (5, Some((0, 2))),
            (6, Some((0, 3))),
            (7, Some((0, 4))),
            (8, Some((0, 5))),
            (9, Some((0, 6))),
            (10, Some((0, 7))),
            (11, None),
        ],
    ),
    (
        b"ab\r\nc\rd\n\n",
        Encoding::Utf8,
        &[
            (2, Some((0, 2))),
            (3, Some((0, 2))),
            (4, Some((1, 0))),
            (7, Some((2, 1))),
            (9, Some((4, 0))),
            (10, None),
        ],
    ),
    (b"", Encoding::Utf8, &[(0, Some((0, 0)))]),
];

/// Whether places of a text have these byte indices.
fn have_offsets(text: &[u8], encoding: Encoding, places: Places) -> bool {
    for &(line, character, offset) in places {
        if offset_of(text, Position { line, character }, encoding) != offset {
            return false;
        }
    }
    true
}

/// Whether byte indices of a text have these places.
fn have_positions(
    text: &[u8],
    encoding: Encoding,
    places: &[(usize, Option<(usize, usize)>)],
) -> bool {
    for &(offset, place) in places {
        let found = position_of(text, offset, encoding);
        if found.map(|it| (it.line, it.character)) != place {
            return false;
        }
    }
    true
}

#[test]
fn places_have_units(rt: HostRuntime) {
    for &(text, encoding, places) in OFFSETS {
        assert!(rt; have_offsets(text, encoding, places));
    }
    for &(text, encoding, places) in POSITIONS {
        assert!(rt; have_positions(text, encoding, places));
    }
    assert!(rt; line_endings(b"ab\r\nc\rd\n\n") == 4 && line_endings(b"a") == 0);
}

/// An event with these numbers.
fn event(line: usize, vs: usize, next: Option<usize>) -> Event {
    Event {
        kind: Kind::Exit,
        name: Name::LinePrefix,
        point: Point {
            line,
            column: 4_294_967_295,
            index: 4_294_967_295,
            vs,
        },
        link: Some(Link {
            previous: None,
            next,
            content: Content::Text,
        }),
    }
}

/// Whether events are packed and come back, if there was memory for them.
fn come_back(alloc: Global, events: &[Event]) -> bool {
    match Packed::of(alloc, events) {
        Ok(packed) => {
            packed.len() == events.len()
                && (0..packed.len()).all(|index| packed.event(index) == events[index])
        }
        Err(error) => error == PackError::Memory,
    }
}

/// Whether events with one that has other numbers are refused, as that is packed in no room.
fn is_too_long(alloc: Global, other: Event) -> bool {
    match Packed::of(alloc, &[ENTER, other]) {
        Ok(_) => false,
        Err(error) => error == PackError::TooLong,
    }
}

const ENTER: Event = Event {
    kind: Kind::Enter,
    name: Name::AttentionSequence,
    point: Point::START,
    link: None,
};

/// It passes also if an allocation fails, which `rt try --test --fail-alloc N` makes one do.
#[test]
fn events_are_packed(rt: HostRuntime) {
    let alloc = rt.alloc();
    assert!(rt; size_of::<PackedEvent>() == 24);
    let last = event(4_294_967_295, 255, Some(4_294_967_294));
    assert!(rt; come_back(alloc, &[ENTER, last]) && come_back(alloc, &[]));
    assert!(rt; is_too_long(alloc, event(4_294_967_296, 0, None)));
    assert!(rt; is_too_long(alloc, event(1, 256, None)));
    assert!(rt; is_too_long(alloc, event(1, 0, Some(4_294_967_295))));
}

/// Without a failing allocation there is memory.
#[test]
fn memory_is_enough(rt: HostRuntime) {
    let packed = Packed::of(rt.alloc(), &[event(1, 0, None)]);
    assert!(rt; packed.expect(&rt, "memory").len() == 1);
}
