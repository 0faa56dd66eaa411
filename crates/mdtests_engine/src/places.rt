//! Places of small texts, their points and the slices between them, with tab sizes from 1 to 16, worked by hand.

ghost use Rattle.std.specs.Prelude.{◌≡◌, ◌≤◌, ◌*◌, ◌<◌, length};

use crate::shown::{assert_holds, assert_shown};
use markdown::configuration::TabSize;
use markdown::event::Point;
use markdown::tokenizer::{cuts_every, point_at};
use markdown::unist;
use markdown::util::location::Location;
use markdown::util::slice::{Position, Slice};
use mdtests_base::shown::{at, point_of};
use std::alloc::{AllocError, Global};

/// Tab stops at every `n` columns.
fn every(n: usize) -> TabSize
    requires least { 1 ≤ n }
    requires most { n ≤ 16 }
    ensures { result ≡ n }
{
    match TabSize::new(n) {
        Some(tab_size) => tab_size,
        None => unreachable!(),
    }
}

/// The point behind the tab of `"a\tb"`.
fn behind_the_tab(n: usize) -> Point
    requires least { 1 ≤ n }
    requires most { n ≤ 16 }
{
    let tab_size = every(n);
    Point::START.shift_to(b"a\tb", tab_size, 2)
}

/// A document, the tab size, a place, and the line and the column of its point.
const POINTS: &[(&[u8], usize, (usize, usize), Option<(usize, usize)>)] = &[
    (b"a\r\nb", 4, (1, 0), Some((1, 2))),
    (b"a\r\nb", 4, (2, 0), Some((1, 2))),
    (b"a\r\nb", 4, (4, 0), Some((2, 2))),
    (b"a\r\nb", 4, (4, 1), None),
    (b"a\r\nb", 4, (5, 0), None),
    (b"a\tb", 8, (1, 6), Some((1, 8))),
];

/// Whether each of these places has its point.
fn places_have_points() -> bool {
    for &(bytes, n, place, want) in POINTS {
        if n < 1 || n > 16 || point_at(bytes, every(n), place) != point_of(place, want) {
            return false;
        }
    }
    true
}

#[test]
fn points_move_to_tab_stops(rt: HostRuntime) {
    assert!(rt; behind_the_tab(4) == at(1, 5, 2, 0) && behind_the_tab(8) == at(1, 9, 2, 0));
    assert!(rt; TabSize::new(0).is_none() && every(16).get() == 16);
    assert!(rt; places_have_points());
}

/// The cuts of a text of at most 9 bytes after each `n` virtual bytes, with this tab size.
fn cuts(alloc: Global, bytes: &[u8], tab: usize, n: usize) -> Result<String, AllocError> {
    if tab < 1 || tab > 16 || n == 0 || bytes.len() > 9 {
        return Err(AllocError);
    }
    let cuts = cuts_every(alloc, bytes, every(tab), n)?;
    format!(in alloc; "{cuts:?}")
}

/// Bytes, the tab size, after how many virtual bytes each they are cut, and the places of the cuts. The last three rows have a tab directly
/// before a tab stop, which is one virtual byte, and tabs of other sizes.
const CUTS: &[(&[u8], usize, usize, &str)] = &[
    (
        b"a\tb\r\n\tc",
        4,
        1,
        "[(1, 0), (1, 1), (1, 2), (2, 0), (4, 0), (5, 0), (5, 1), (5, 2), (5, 3), (6, 0)]",
    ),
    (b"a\tb\r\n\tc", 4, 3, "[(1, 2), (5, 0), (5, 3)]"),
    (b"a\tb\r\n\tc", 4, 11, "[]"),
    (b"abc\td", 4, 1, "[(1, 0), (2, 0), (3, 0), (4, 0)]"),
    (b"a\tb", 1, 1, "[(1, 0), (2, 0)]"),
    (
        b"a\tb",
        8,
        1,
        "[(1, 0), (1, 1), (1, 2), (1, 3), (1, 4), (1, 5), (1, 6), (2, 0)]",
    ),
];

#[test]
fn texts_are_cut(rt: HostRuntime) {
    for &(bytes, tab, n, want) in CUTS {
        assert_shown(&rt, cuts(rt.alloc(), bytes, tab, n), want);
    }
}

/// What a slice counts, its length, and what it is written as.
fn seen(alloc: Global, slice: &Slice) -> Result<String, AllocError> {
    let (bytes, before, after) = (slice.bytes, slice.before, slice.after);
    if str::from_utf8(bytes).is_err() || bytes.len() > 9 || before > 999 || after > 999 {
        return String::from_str(alloc, "not shown");
    }
    let len = slice.len();
    let written = slice.serialize(alloc)?;
    format!(in alloc; "{before} and {after} of {len}: '{written}'")
}

/// The slice of a document between two places, with this tab size.
fn between(
    alloc: Global,
    bytes: &[u8],
    n: usize,
    from: (usize, usize),
    to: (usize, usize),
) -> Result<String, AllocError>
    requires small { length bytes.now < 10 }
    requires least { 1 ≤ n }
    requires most { n ≤ 16 }
{
    let tab_size = every(n);
    let (Some(start), Some(end)) = (
        point_at(bytes, tab_size, from),
        point_at(bytes, tab_size, to),
    ) else {
        return String::from_str(alloc, "no places");
    };
    if end.index < start.index || end.index == start.index && end.vs < start.vs {
        return String::from_str(alloc, "backwards");
    }
    let position = Position {
        start: &start,
        end: &end,
    };
    seen(alloc, &Slice::from_position(bytes, tab_size, &position))
}

/// A document, the tab size, two places, and the slice between them: one that begins inside a tab, stays inside it, or ends
/// inside it; and a tab that is one byte.
const BETWEEN: &[(&[u8], usize, (usize, usize), (usize, usize), &str)] = &[
    (b">    \tfoo", 4, (5, 1), (9, 0), "2 and 0 of 5: '  foo'"),
    (b">    \tfoo", 4, (5, 1), (5, 2), "1 and 0 of 1: ' '"),
    (b"a\tb", 4, (0, 0), (1, 2), "0 and 1 of 3: 'a\t '"),
    (b"\tx", 8, (0, 1), (1, 0), "7 and 0 of 7: '       '"),
    (b"\tx", 16, (0, 15), (1, 0), "1 and 0 of 1: ' '"),
    (b"\tx", 1, (0, 0), (1, 0), "0 and 0 of 1: '\t'"),
];

#[test]
fn slices_write_spaces_and_bytes(rt: HostRuntime) {
    for &(bytes, n, from, to, want) in BETWEEN {
        assert!(rt; 1 <= n && n <= 16 && bytes.len() < 10);
        assert_shown(&rt, between(rt.alloc(), bytes, n, from, to), want);
    }
    let slice = Slice {
        bytes: "x\u{e9}".as_bytes(),
        before: 3,
        after: 2,
    };
    let want = "3 and 2 of 8: '   x\u{e9}  '";
    assert_shown(&rt, seen(rt.alloc(), &slice), want);
    let slice = Slice::from_indices(b"abc", 1, 2);
    assert_shown(&rt, seen(rt.alloc(), &slice), "0 and 0 of 1: 'b'");
}

/// The points of the offsets 0 to 5 of a document, those that it has.
fn points(alloc: Global, bytes: &[u8]) -> Result<String, AllocError> {
    let location = Location::new(alloc, bytes)?;
    let mut text = String::new(alloc);
    for offset in 0..6 {
        if let Some(point) = location.to_point(offset) {
            write!(text, " {point:?}")?;
        }
    }
    Ok(text)
}

/// Documents and the points of their offsets.
const LOCATIONS: &[(&[u8], &str)] = &[
    (b"a\r\nb", " 1:1 (0) 1:2 (1) 1:3 (2) 2:1 (3) 2:2 (4)"),
    (b"ab\nc", " 1:1 (0) 1:2 (1) 1:3 (2) 2:1 (3) 2:2 (4)"),
    (b"a\rb", " 1:1 (0) 1:2 (1) 2:1 (2) 2:2 (3)"),
    (b"", " 1:1 (0)"),
];

/// Whether the last of many lines has its point.
fn many_lines_have_points(alloc: Global) -> Result<bool, AllocError> {
    let location = Location::new(alloc, &[b'\n'; 1000])?;
    Ok(location.to_point(999) == Some(unist::Point::new(1000, 1, 999)))
}

/// Whether offsets into parts of a document have offsets and points in it.
fn parts_have_points(alloc: Global) -> Result<bool, AllocError> {
    let text = Location::new(alloc, b"> a\n> b")?;
    let point = text.relative_to_point(&[(0, 2), (2, 6)], 2);
    Ok(
        point == Some(unist::Point::new(2, 3, 6))
            && text.relative_to_point(&[], 0) == None
            && Location::relative_to_absolute(&[], 0) == None
            && Location::relative_to_absolute(&[(0, 10), (3, 20)], 4) == Some(21),
    )
}

#[test]
fn offsets_have_points(rt: HostRuntime) {
    for &(bytes, want) in LOCATIONS {
        assert_shown(&rt, points(rt.alloc(), bytes), want);
    }
    assert_holds(&rt, many_lines_have_points(rt.alloc()), "of many lines");
    assert_holds(&rt, parts_have_points(rt.alloc()), "of parts");
}
