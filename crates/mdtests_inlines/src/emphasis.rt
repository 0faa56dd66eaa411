//! Delimiter runs beside characters of each class, and pairs of runs, worked by hand from CommonMark, "Emphasis and strong emphasis", and GFM, "Strikethrough".

use crate::shown::assert_shown;
use markdown::event::{Event, Kind, Name};
use mdinline_emphasis::pairs::{Delimiters, Marker, Style, pair_all};
use mdinline_emphasis::runs::runs_of;
use mdtests_base::shown::at;
use std::alloc::{AllocError, Global};

/// A run: its marker, its length, and whether it can open and whether it can close.
type Run = (Marker, usize, bool, bool);

/// Runs, and their pairs: of each run the pairs that it closes (`e` or `s`, of tildes `t` or `T`), how many markers are left, and the pairs that it opens, the outer
/// ones first.
const ROWS: &[(&[Run], &str)] = &[
    (
        &[
            (Marker::Asterisk, 1, true, false),
            (Marker::Asterisk, 1, false, true),
        ],
        "0e e0 ",
    ),
    (
        &[
            (Marker::Asterisk, 2, true, false),
            (Marker::Asterisk, 2, false, true),
        ],
        "0s s0 ",
    ),
    (
        &[
            (Marker::Asterisk, 3, true, false),
            (Marker::Asterisk, 2, false, true),
            (Marker::Asterisk, 1, false, true),
        ],
        "0es s0 e0 ",
    ),
    (
        &[
            (Marker::Asterisk, 1, true, false),
            (Marker::Asterisk, 2, true, true),
            (Marker::Asterisk, 1, false, true),
        ],
        "0e 2 e0 ",
    ),
    (
        &[
            (Marker::Asterisk, 1, true, false),
            (Marker::Underscore, 1, false, true),
        ],
        "1 1 ",
    ),
    (
        &[
            (Marker::Asterisk, 1, true, false),
            (Marker::Underscore, 1, true, false),
            (Marker::Asterisk, 1, false, true),
            (Marker::Underscore, 1, false, true),
        ],
        "0e 1 e0 1 ",
    ),
    (
        &[
            (Marker::Tilde, 1, true, false),
            (Marker::Tilde, 1, false, true),
        ],
        "0t t0 ",
    ),
    (
        &[
            (Marker::Tilde, 2, true, false),
            (Marker::Tilde, 1, true, true),
            (Marker::Tilde, 2, false, true),
        ],
        "0T 1 T0 ",
    ),
    (
        &[
            (Marker::Tilde, 2, true, false),
            (Marker::Tilde, 1, false, true),
        ],
        "2 1 ",
    ),
    (
        &[
            (Marker::Tilde, 1, true, true),
            (Marker::Tilde, 2, true, true),
        ],
        "1 2 ",
    ),
];

/// The runs of a row, in no pair yet.
fn runs_of_row(alloc: Global, row: &[Run]) -> Result<Vec<Delimiters>, AllocError> {
    let mut runs = Vec::new(alloc);
    for (index, run) in row.iter().enumerate() {
        runs.push(Delimiters {
            index,
            start: at(1, 1, 0, 0),
            marker: run.0,
            rest: run.1 % 3,
            opens: run.2,
            closes: run.3,
            closed: Vec::new(alloc),
            left: run.1,
            opened: Vec::new(alloc),
        })?;
    }
    Ok(runs)
}

/// Appends pairs, each as a letter.
fn push_pairs(text: &mut String, pairs: &[Style], last_first: bool) -> Result<(), AllocError> {
    for index in 0..pairs.len() {
        let at = if last_first {
            pairs.len().saturating_sub(index).saturating_sub(1)
        } else {
            index
        };
        let letter = match pairs.get(at) {
            Some(Style::Strong) => 's',
            Some(Style::Struck) => 't',
            Some(Style::StruckTwice) => 'T',
            _ => 'e',
        };
        text.push(letter)?;
    }
    Ok(())
}

/// The pairs of runs.
fn paired(alloc: Global, mut runs: Vec<Delimiters>) -> Result<String, AllocError> {
    pair_all(alloc, runs.as_mut_slice())?;
    let mut text = String::new(alloc);
    for run in runs.iter() {
        push_pairs(&mut text, run.closed.as_slice(), false)?;
        write!(text, "{}", run.left)?;
        push_pairs(&mut text, run.opened.as_slice(), true)?;
        text.push(' ')?;
    }
    Ok(text)
}

/// The pairs of a row.
fn row_paired(alloc: Global, row: &[Run]) -> Result<String, AllocError> {
    let runs = runs_of_row(alloc, row)?;
    paired(alloc, runs)
}

#[test]
fn runs_are_paired(rt: HostRuntime) {
    let alloc = rt.alloc();
    for row in ROWS {
        assert_shown(&rt, row_paired(alloc, row.0), row.1);
    }
}

/// Bytes before a marker, the marker, the bytes behind it, and whether the marker opens (`o`) and closes (`c`) emphasis: beside a letter,
/// punctuation and white space beyond ASCII (U+00E9, U+201C, U+00A0), a symbol and a letter of four bytes (U+1F600, U+10437), a control and
/// a line separator, which are no white space in CommonMark (U+0085, U+2028), and bytes that are no UTF-8.
const BESIDE: &[(&[u8], u8, &[u8], &str)] = &[
    (b"\xC3\xA9", b'*', b"a", "oc"),
    (b"a", b'*', b"\xC3\xA9", "oc"),
    (b"\xC3\xA9", b'_', b"a", ""),
    (b"a", b'_', b"\xC3\xA9", ""),
    (b"\xE2\x80\x9C", b'*', b"a", "o"),
    (b"a", b'*', b"\xE2\x80\x9C", "c"),
    (b"\xE2\x80\x9C", b'_', b"a", "o"),
    (b"a", b'_', b"\xE2\x80\x9C", "c"),
    (b"\xE2\x80\x9C", b'*', b"\xE2\x80\x9C", "oc"),
    (b"\xC2\xA0", b'*', b"a", "o"),
    (b"a", b'*', b"\xC2\xA0", "c"),
    (b"\xC2\xA0", b'*', b"\xE2\x80\x9C", "o"),
    (b"\xC2\xA0", b'*', b"\xC2\xA0", ""),
    (b"\xF0\x9F\x98\x80", b'*', b"a", "o"),
    (b"a", b'*', b"\xF0\x9F\x98\x80", "c"),
    (b"\xF0\x90\x90\xB7", b'*', b"a", "oc"),
    (b"a", b'*', b"\xF0\x90\x90\xB7", "oc"),
    (b"\xC2\x85", b'*', b"a", "oc"),
    (b"a", b'*', b"\xE2\x80\xA8", "oc"),
    (b"\xFF", b'*', b"a", "oc"),
    (b"a", b'*', b"\xFF", "oc"),
    (b"\x80\x9C", b'*', b"a", "oc"),
    (b"a", b'*', b"\xE2\x80", "oc"),
    (b"\xED\xA0\x80", b'*', b"a", "oc"),
    (b"a", b'*', b"\xC0\xA0", "oc"),
    (b".", b'*', b"a", "o"),
    (b".", b'~', b"a", "o"),
    (b"a", b'~', b"a", "oc"),
    (b"a", b'*', b" ", "c"),
];

/// An event without a link, at a byte index in the first line.
fn event(kind: Kind, name: Name, index: usize) -> Event {
    Event {
        kind,
        name,
        point: at(1, 1, index, 0),
        link: None,
    }
}

/// Appends a span.
fn push_span(
    events: &mut Vec<Event>,
    name: Name,
    start: usize,
    end: usize,
) -> Result<(), AllocError> {
    events.push(event(Kind::Enter, name, start))?;
    events.push(event(Kind::Exit, name, end))?;
    Ok(())
}

/// What the runs of events in a document may do, each as `o` and `c`.
fn flanks(alloc: Global, bytes: &[u8], events: &[Event]) -> Result<String, AllocError> {
    let mut text = String::new(alloc);
    for run in runs_of(alloc, bytes, true, events)?.iter() {
        if run.opens {
            text.push('o')?;
        }
        if run.closes {
            text.push('c')?;
        }
    }
    Ok(text)
}

/// What the marker of a row may do, between data or with nothing beside it.
fn flanks_of(
    alloc: Global,
    row: &(&[u8], u8, &[u8], &str),
    has_data: bool,
) -> Result<String, AllocError> {
    let mut bytes = Vec::new(alloc);
    bytes.extend_from_slice(row.0)?;
    let start = bytes.len();
    bytes.push(row.1)?;
    let end = bytes.len();
    bytes.extend_from_slice(row.2)?;
    let mut events = Vec::new(alloc);
    if has_data {
        push_span(&mut events, Name::Data, 0, start)?;
    }
    push_span(&mut events, Name::AttentionSequence, start, end)?;
    if has_data {
        push_span(&mut events, Name::Data, end, bytes.len())?;
    }
    flanks(alloc, bytes.as_slice(), events.as_slice())
}

#[test]
fn runs_flank_by_the_classes_beside(rt: HostRuntime) {
    let alloc = rt.alloc();
    for row in BESIDE {
        assert_shown(&rt, flanks_of(alloc, row, true), row.3);
        assert_shown(&rt, flanks_of(alloc, row, false), "");
    }
}

/// The spans of `~a~ ~~b~~`, each from where the one before ends.
const TILDES: &[(Name, usize)] = &[
    (Name::AttentionSequence, 1),
    (Name::Data, 2),
    (Name::AttentionSequence, 3),
    (Name::Data, 4),
    (Name::AttentionSequence, 6),
    (Name::Data, 7),
    (Name::AttentionSequence, 9),
];

/// The pairs of its runs, where one tilde counts or not.
fn tildes_paired(alloc: Global, one_tilde: bool) -> Result<String, AllocError> {
    let mut events = Vec::new(alloc);
    let mut start = 0;
    for span in TILDES {
        push_span(&mut events, span.0, start, span.1)?;
        start = span.1;
    }
    let runs = runs_of(alloc, b"~a~ ~~b~~", one_tilde, events.as_slice())?;
    paired(alloc, runs)
}

#[test]
fn one_tilde_counts_or_not(rt: HostRuntime) {
    let alloc = rt.alloc();
    assert_shown(&rt, tildes_paired(alloc, true), "0t t0 0T T0 ");
    assert_shown(&rt, tildes_paired(alloc, false), "1 1 0T T0 ");
}
