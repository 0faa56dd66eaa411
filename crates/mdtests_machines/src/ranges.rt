//! The machines, over documents that are cut, and over ranges with gaps between them.

ghost use Rattle.markdown.specs.Virtual.{IsWithinLimit};
ghost use Rattle.std.specs.Prelude.{◌+◌, ◌*◌, ◌<◌, ◌≤◌};

use crate::readers::{Reader, read_cut, read_ranges};
use crate::shown::{assert_holds, assert_shown};
use markdown::configuration::TabSize;
use markdown::tokenizer::{AfterGap, cuts_every};
use mdtests_base::pushed::{Pushed, Seen, told};
use mdtests_base::shown::{at, point_of};
use std::alloc::{AllocError, Global};

/// A range, and if a gap is before it, the line and the column at which it begins.
type Row = (Option<(usize, usize)>, (usize, usize), (usize, usize));

/// The ranges of rows.
fn ranges_of(alloc: Global, rows: &[Row]) -> Result<Vec<AfterGap>, AllocError> {
    let mut ranges = Vec::new(alloc);
    for (gap, from, to) in rows {
        ranges.push((point_of(*from, *gap), *from, *to))?;
    }
    Ok(ranges)
}

/// A document, ranges of it, what reads them, in how many calls, and the events. Without gaps: two cuts are at one byte of a CR LF. A look ahead
/// goes back, also over nothing; attempts go back; a place is saved at the end; a code span is one choice.
const RANGES: &[(&[u8], &[Row], Reader, &str)] = &[
    (b"", &[(None, (0, 0), (0, 0))], Reader::Lines, "1 calls: "),
    (
        b"a\nb",
        &[(None, (0, 0), (3, 0))],
        Reader::Lines,
        "7 calls: enter Paragraph 1:1 (0+0); Data 1:1 (0+0) to 1:2 (1+0); exit Paragraph 1:2 (1+0); \
        LineEnding 1:2 (1+0) to 2:1 (2+0); \
        enter Paragraph 2:1 (2+0); Data 2:1 (2+0) to 2:2 (3+0); exit Paragraph 2:2 (3+0)",
    ),
    (
        b"a\r\nb",
        &[
            (None, (0, 0), (1, 0)),
            (None, (1, 0), (2, 0)),
            (None, (2, 0), (4, 0)),
        ],
        Reader::Lines,
        "7 calls: enter Paragraph 1:1 (0+0); Data 1:1 (0+0) to 1:2 (1+0); exit Paragraph 1:2 (1+0); \
        LineEnding 1:2 (1+0) to 2:1 (3+0); \
        enter Paragraph 2:1 (3+0); Data 2:1 (3+0) to 2:2 (4+0); exit Paragraph 2:2 (4+0)",
    ),
    (b"", &[(None, (0, 0), (0, 0))], Reader::Peek, "3 calls: "),
    (
        b"a\nb\nc",
        &[
            (None, (0, 0), (2, 0)),
            (None, (2, 0), (4, 0)),
            (None, (4, 0), (5, 0)),
        ],
        Reader::Peek,
        "18 calls: Data 1:1 (0+0) to 1:2 (1+0); LineEnding 1:2 (1+0) to 2:1 (2+0); \
        Data 2:1 (2+0) to 2:2 (3+0); LineEnding 2:2 (3+0) to 3:1 (4+0); Data 3:1 (4+0) to 3:2 (5+0)",
    ),
    (
        b"ab",
        &[(None, (0, 0), (1, 0)), (None, (1, 0), (2, 0))],
        Reader::Deep,
        "9 calls: Data 1:1 (0+0) to 1:3 (2+0)",
    ),
    (
        b"a\n",
        &[(None, (0, 0), (1, 0)), (None, (1, 0), (2, 0))],
        Reader::Save,
        "4 calls: ",
    ),
    (
        b"`a`",
        &[(None, (0, 0), (3, 0))],
        Reader::Text,
        "13 calls: enter CodeText 1:1 (0+0); CodeTextSequence 1:1 (0+0) to 1:2 (1+0); \
        CodeTextData 1:2 (1+0) to 1:3 (2+0); CodeTextSequence 1:3 (2+0) to 1:4 (3+0); exit CodeText 1:4 (3+0)",
    ),
    // A gap before the first byte.
    (
        b"> a",
        &[(Some((1, 3)), (2, 0), (3, 0))],
        Reader::Lines,
        "3 calls: enter Paragraph 1:3 (2+0); Data 1:3 (2+0) to 1:4 (3+0); exit Paragraph 1:4 (3+0)",
    ),
    // A gap of two of the four columns of a tab.
    (
        b"a\n\tb",
        &[(None, (0, 0), (2, 0)), (Some((2, 3)), (2, 2), (4, 0))],
        Reader::Lines,
        "9 calls: enter Paragraph 1:1 (0+0); Data 1:1 (0+0) to 1:2 (1+0); exit Paragraph 1:2 (1+0); \
        LineEnding 1:2 (1+0) to 2:1 (2+0); \
        enter Paragraph 2:3 (2+2); Data 2:3 (2+2) to 2:6 (4+0); exit Paragraph 2:6 (4+0)",
    ),
    // The CR and the LF of a CR LF denote one byte. A range up to the one is followed by a range from the other.
    (
        b"a\r\nb",
        &[
            (None, (0, 0), (1, 0)),
            (None, (2, 0), (2, 0)),
            (None, (2, 0), (4, 0)),
        ],
        Reader::Lines,
        "7 calls: enter Paragraph 1:1 (0+0); Data 1:1 (0+0) to 1:2 (1+0); exit Paragraph 1:2 (1+0); \
        LineEnding 1:2 (1+0) to 2:1 (3+0); \
        enter Paragraph 2:1 (3+0); Data 2:1 (3+0) to 2:2 (4+0); exit Paragraph 2:2 (4+0)",
    ),
    // A choice goes back over a gap, and what follows passes it again.
    (
        b"a\n> b",
        &[(None, (0, 0), (2, 0)), (Some((2, 3)), (4, 0), (5, 0))],
        Reader::Save,
        "6 calls: Data 2:3 (4+0) to 2:4 (5+0)",
    ),
    (
        b"a\n> b",
        &[(None, (0, 0), (2, 0)), (Some((2, 3)), (4, 0), (5, 0))],
        Reader::Deep,
        "16 calls: Data 1:1 (0+0) to 1:2 (1+0); LineEnding 1:2 (1+0) to 2:1 (2+0); Data 2:3 (4+0) to 2:4 (5+0)",
    ),
    // A gap up to the place at which the text ends passes nothing.
    (
        b"a\nbc",
        &[
            (None, (0, 0), (2, 0)),
            (Some((2, 1)), (2, 0), (3, 0)),
            (Some((2, 2)), (3, 0), (4, 0)),
        ],
        Reader::Peek,
        "14 calls: Data 1:1 (0+0) to 1:2 (1+0); LineEnding 1:2 (1+0) to 2:1 (2+0); Data 2:1 (2+0) to 2:3 (4+0)",
    ),
];

/// What is read of the ranges of rows.
fn rows_read(
    alloc: Global,
    bytes: &[u8],
    rows: &[Row],
    reader: Reader,
) -> Result<String, AllocError>
    requires limit { IsWithinLimit 4 bytes.now }
{
    let ranges = ranges_of(alloc, rows)?;
    let tab = TabSize::default();
    let seen = read_ranges(alloc, reader, bytes, tab, ranges.as_slice());
    told(alloc, seen)
}

#[test]
fn ranges_are_read_and_gaps_are_not(rt: HostRuntime) {
    for &(bytes, rows, reader, want) in RANGES {
        assert!(rt; bytes.len() < 9);
        assert_shown(&rt, rows_read(rt.alloc(), bytes, rows, reader), want);
    }
}

/// What is seen while a document is read that is cut after each given number of virtual bytes.
fn seen_by(alloc: Global, reader: Reader, bytes: &[u8], cut: usize) -> Result<Seen, AllocError>
    requires limit { IsWithinLimit 4 bytes.now }
    requires cut { 1 ≤ cut }
{
    let tab = TabSize::default();
    let cuts = cuts_every(alloc, bytes, tab, cut)?;
    read_cut(alloc, reader, bytes, tab, cuts.as_slice())
}

/// Whether the byte before, after each push, is that of the push.
fn are_bytes_before(alloc: Global) -> Result<bool, AllocError> {
    let seen = seen_by(alloc, Reader::Lines, b"a\tb\r\n\tc", 1)?;
    let mut bytes = Vec::new(alloc);
    for pushed in seen.pushed.as_slice() {
        if let Some(byte) = pushed.previous {
            bytes.push(byte)?;
        }
    }
    Ok(bytes.as_slice() == b"a\t  b\n\t   c".as_slice())
}

/// Whether an attempt at each byte made two calls and no event after the second push.
fn is_second_push(alloc: Global) -> Result<bool, AllocError> {
    let seen = seen_by(alloc, Reader::Deep, b"abc", 1)?;
    let second = Pushed {
        previous: Some(b'b'),
        calls: 2,
        events: 0,
    };
    Ok(seen.pushed.get(1) == Some(&second))
}

/// Documents, after how many virtual bytes each they are cut, and what is read with an attempt at each byte. Attempts go back one by one, and
/// may be many.
const ATTEMPTS: &[(&[u8], usize, &str)] = &[
    (b"abc", 1, "14 calls: Data 1:1 (0+0) to 1:4 (3+0)"),
    (&[b'a'; 64], 1, "2210 calls: Data 1:1 (0+0) to 1:65 (64+0)"),
    (&[b'a'; 64], 64, "2210 calls: Data 1:1 (0+0) to 1:65 (64+0)"),
];

#[test]
fn each_push_is_seen(rt: HostRuntime) {
    assert_holds(&rt, are_bytes_before(rt.alloc()), "bytes before");
    assert_holds(&rt, is_second_push(rt.alloc()), "second push");
    for &(bytes, cut, want) in ATTEMPTS {
        assert!(rt; bytes.len() < 99 && cut > 0);
        let seen = seen_by(rt.alloc(), Reader::Deep, bytes, cut);
        assert_shown(&rt, told(rt.alloc(), seen), want);
    }
}

/// `count` lines `> a`, with LF between each two, and their ranges without `> `.
fn quoted_lines(alloc: Global, count: usize) -> Result<(Vec<u8>, Vec<AfterGap>), AllocError> {
    let mut bytes = Vec::new(alloc);
    let mut ranges = Vec::new(alloc);
    for number in 0..count.min(1000) {
        bytes.extend_from_slice(b"> a".as_slice())?;
        if number + 1 < count {
            bytes.push(b'\n')?;
        }
        let index = 4 * number + 2;
        let gap = at(number + 1, 3, index, 0);
        ranges.push((Some(gap), (index, 0), (bytes.len(), 0)))?;
    }
    Ok((bytes, ranges))
}

/// How often a word occurs in a text, between spaces.
fn count_of(text: &str, word: &str) -> usize {
    text.split(' ').filter(|other| *other == word).count()
}

/// Whether `count` quoted lines are read as so many data, with line endings between them, and end so.
fn are_quoted_lines(alloc: Global, count: usize, last: &str) -> Result<bool, AllocError> {
    let (bytes, ranges) = quoted_lines(alloc, count)?;
    if bytes.len() > 9999 || count == 0 || count > 999 {
        return Err(AllocError);
    }
    let tab = TabSize::default();
    let seen = read_ranges(
        alloc,
        Reader::Peek,
        bytes.as_slice(),
        tab,
        ranges.as_slice(),
    );
    let text = told(alloc, seen)?;
    let text = text.as_str();
    Ok(
        text.ends_with(last)
            && count_of(text, "Data") == count
            && count_of(text, "LineEnding") == count - 1
            && count_of(text, "to") == 2 * count - 1,
    )
}

/// Each of many lines begins with a gap.
#[test]
fn each_line_begins_with_a_gap(rt: HostRuntime) {
    for &(count, last) in &[
        (50, "; Data 50:3 (198+0) to 50:4 (199+0)"),
        (150, "; Data 150:3 (598+0) to 150:4 (599+0)"),
    ] {
        assert_holds(&rt, are_quoted_lines(rt.alloc(), count, last), last);
    }
}
