//! Containers: which go on with a line and which begin in it, the lines of a document with them, its skeleton, and what this is written of.

ghost use Rattle.std.specs.Prelude.{◌≡◌, ◌≤◌, ◌+◌, ◌*◌, ◌<◌, ◌^◌, length};
ghost use Rattle.markdown_base.specs.Virtual.{IsWithinLimit};

use crate::shown::{assert_holds, assert_shown};
use markdown_base::configuration::{Constructs, TabSize};
use markdown_base::event::{Content, Event, Name, Point};
use mdblock_containers::ahead::{Ahead, aheads_of};
use mdblock_containers::chunks::begin_chunk;
use mdblock_containers::frames::{Frame, exit_frames, list_name};
use mdblock_containers::going::{Open, beginning, first_of, list_of_first, rest_of};
use mdblock_containers::leaves::{
    Leaf, holds_ending, interrupts_paragraph, is_paragraph, is_raw, leaf_after,
};
use mdblock_containers::letters::with_letters;
use mdblock_containers::lines::rows_of;
use mdblock_containers::rows::Row;
use mdblock_containers::skeleton::skeleton_of;
use mdblock_containers::spans::{RowAt, Span, end_of, start_of, text_end_of};
use mdblock_containers::writing::{
    begun_prefix, enter, exit, going_prefix, item_prefix, quote_prefix, span, white,
};
use mdblock_lines::containers::{Container, ContainerKind, Prefix};
use mdblock_lines::html::HtmlKind;
use mdblock_lines::kinds::Fence;
use mdcases_forms::spans::spans_of;
use mdconstructs_loop_counts::Turns;
use mdtests_base::shown::{at, shown};
use std::alloc::{AllocError, Global};
use std::marker::Brand;
use std::sync::ledger::{Blank, Ledger};

/// A quote that the first line begins.
const QUOTE: Container = Container {
    kind: ContainerKind::Quote,
    is_near: true,
    line: 1,
    size: 0,
    marker: b'>',
    digits: 0,
    is_blank: false,
    label: 0,
};

/// An item that the first line begins, with `- ` before its text.
const ITEM: Container = Container {
    kind: ContainerKind::Item,
    is_near: false,
    line: 1,
    size: 2,
    marker: b'-',
    digits: 0,
    is_blank: false,
    label: 0,
};

/// Whether open containers are cut into first ones and others.
fn containers_are_cut() -> bool {
    let stack = [
        Open {
            container: QUOTE,
            list: 1,
        },
        Open {
            container: ITEM,
            list: 1,
        },
    ];
    let (first, rest) = (first_of(&stack, 1), rest_of(&stack, 1));
    first.len() == 1
        && rest.len() == 1
        && first
            .iter()
            .all(|open| matches!(open.container.kind, ContainerKind::Quote))
        && !rest
            .iter()
            .any(|open| matches!(open.container.kind, ContainerKind::Quote))
}

/// Lines, whether a paragraph may go on before each, how many containers begin in it, and the columns of their prefixes. A thematic break is no
/// item. Of items only one with text, and with the number 1 if it has one, interrupts a paragraph. Of more than four spaces behind a marker one
/// is of its prefix.
const BEGINNING: &[(&[u8], bool, usize, usize)] = &[
    (b"> - a", false, 2, 4),
    (b"- - -", false, 0, 0),
    (b"1. a", true, 1, 3),
    (b"2. a", true, 0, 0),
    (b"2) a", false, 1, 3),
    (b"-", true, 0, 0),
    (b"-", false, 1, 1),
    (b"    > a", false, 0, 0),
    (b"-      a", false, 1, 2),
];

/// The containers that begin with a line go to a list, counted from nothing.
fn begun_from<L: Ledger>(
    number: usize,
    in_paragraph: bool,
    line: &[u8],
    begun: &mut Vec<Prefix>,
    blank: Blank,
) -> Result<usize, AllocError>
    requires name { blank.name ≡ L.name }
    requires parts { blank.parts ≡ L.parts }
    requires some { 0 < blank.parts }
{
    let on = Constructs::default();
    beginning(
        &on,
        number,
        in_paragraph,
        line,
        begun,
        &mut Turns::<L>::new(blank),
    )
}

/// The containers that begin with a line go to a list. Returns the columns of their prefixes.
fn begun_in(
    number: usize,
    in_paragraph: bool,
    line: &[u8],
    begun: &mut Vec<Prefix>,
) -> Result<usize, AllocError> {
    begun_from::<Brand>(number, in_paragraph, line, begun, Blank::new(1))
}

/// Whether so many containers begin with a line, with prefixes of these columns.
fn begin_so(
    alloc: Global,
    line: &[u8],
    in_paragraph: bool,
    many: usize,
    want: usize,
) -> Result<bool, AllocError> {
    let mut begun = Vec::new(alloc);
    let columns = begun_in(2, in_paragraph, line, &mut begun)?;
    Ok(begun.len() == many && columns == want)
}

/// Lines behind an item of the list of line 7, and the list of the first container that begins with each. An item goes on with the list of the
/// item whose place it takes, if both have the same marker (CommonMark, 5.3).
const LISTS: &[(&[u8], usize)] = &[(b"- a", 7), (b"* a", 9), (b"> a", 9)];

/// The list of the first container that begins with a line.
fn list_of(alloc: Global, line: &[u8]) -> Result<usize, AllocError> {
    let before = [Open {
        container: ITEM,
        list: 7,
    }];
    let mut begun = Vec::new(alloc);
    begun_in(9, false, line, &mut begun)?;
    Ok(list_of_first(&before, 9, begun.as_slice()))
}

#[test]
fn containers_begin_in_lines(rt: HostRuntime) {
    assert!(rt; containers_are_cut());
    for (line, in_paragraph, many, want) in BEGINNING {
        let found = begin_so(rt.alloc(), line, *in_paragraph, *many, *want);
        assert_holds(&rt, found, "containers and columns");
    }
    for (line, list) in LISTS {
        assert!(rt; list_of(rt.alloc(), line).expect(&rt, "memory") == *list);
    }
}

/// The leaf block that may go on: its first letter, or `-` if none may.
fn letter_of(leaf: Leaf) -> char {
    match leaf {
        Leaf::Closed => '-',
        Leaf::Paragraph => 'p',
        Leaf::Fenced(_) => 'f',
        Leaf::Html(_) => 'h',
        Leaf::Table => 't',
    }
}

/// A fence of three grave accents.
const FENCE: Fence = Fence {
    byte: b'`',
    size: 3,
    indent: 0,
};

/// Leaf blocks, lines behind them, and which leaf block may go on then. An underline ends a paragraph; HTML with a tag ends before a blank line,
/// and a comment in the line with its end (CommonMark, 4.3 to 4.8).
const LEAVES: &[(Leaf, &[u8], char)] = &[
    (Leaf::Closed, b"a", 'p'),
    (Leaf::Closed, b"    a", '-'),
    (Leaf::Closed, b"# a", '-'),
    (Leaf::Closed, b"```", 'f'),
    (Leaf::Closed, b"<!-- a", 'h'),
    (Leaf::Closed, b"<!-- a -->", '-'),
    (Leaf::Paragraph, b"    a", 'p'),
    (Leaf::Paragraph, b"<a>", 'p'),
    (Leaf::Paragraph, b"===", '-'),
    (Leaf::Paragraph, b"", '-'),
    (Leaf::Fenced(FENCE), b"# a", 'f'),
    (Leaf::Fenced(FENCE), b"````", '-'),
    (Leaf::Html(HtmlKind::Comment), b"", 'h'),
    (Leaf::Html(HtmlKind::Comment), b"a -->", '-'),
    (Leaf::Html(HtmlKind::BlockTag), b"", '-'),
    (Leaf::Table, b"a", 'p'),
    (Leaf::Table, b"    a", '-'),
    (Leaf::Table, b"===", 'p'),
    (Leaf::Table, b"<a>", 'h'),
    (Leaf::Table, b"", '-'),
];

/// Leaf blocks, and whether each is a paragraph, whether no container begins in its lines, and whether it goes on over blank lines.
const TRAITS: &[(Leaf, [bool; 3])] = &[
    (Leaf::Paragraph, [true, false, false]),
    (Leaf::Fenced(FENCE), [false, true, true]),
    (Leaf::Html(HtmlKind::Comment), [false, true, true]),
    (Leaf::Html(HtmlKind::AnyTag), [false, true, false]),
    (Leaf::Table, [false, false, false]),
];

/// The leaf block that may go on behind a line, and whether the line interrupts a paragraph, counted from nothing.
fn behind_from<L: Ledger>(leaf: Leaf, line: &[u8], blank: Blank) -> (Leaf, bool)
    requires name { blank.name ≡ L.name }
    requires parts { blank.parts ≡ L.parts }
    requires some { 0 < blank.parts }
{
    let on = Constructs::default();
    let mut turns = Turns::<L>::new(blank);
    let behind = leaf_after(&on, leaf, line, &mut turns);
    (behind, interrupts_paragraph(&on, line, &mut turns))
}

/// The leaf block that may go on behind a line, and whether the line interrupts a paragraph.
fn behind(leaf: Leaf, line: &[u8]) -> (Leaf, bool) {
    behind_from::<Brand>(leaf, line, Blank::new(1))
}

#[test]
fn leaf_blocks_go_on_behind_lines(rt: HostRuntime) {
    for (leaf, line, want) in LEAVES {
        assert!(rt; letter_of(behind(*leaf, line).0) == *want);
    }
    for (leaf, want) in TRAITS {
        assert!(rt; [is_paragraph(*leaf), is_raw(*leaf), holds_ending(*leaf)] == *want);
    }
    assert!(rt; behind(Leaf::Paragraph, b"# a").1 && !behind(Leaf::Paragraph, b"    # a").1);
}

/// Appends a line with its containers: how many go on, how many begin, the columns of their prefixes, and what else is true of it.
fn push_row(text: &mut String, row: &Row) -> Result<(), AllocError> {
    let begun = row.begun.len();
    write!(text, "{} and {begun}, {} columns", row.many, row.columns)?;
    for (is_so, word) in [
        (row.is_lazy, ", lazy"),
        (row.stays, ", stays"),
        (row.is_left_blank, ", left blank"),
    ] {
        if is_so {
            text.push_str(word)?;
        }
    }
    text.push('\n')
}

/// The lines of a document, and what is known of each from those behind it, of the last one first.
#[derive(Drop)]
struct Lines {
    rows: Vec<RowAt>,
    aheads: Vec<Ahead>,
}

/// The lines of a document, counted from nothing.
fn lines_from<L: Ledger>(alloc: Global, bytes: &[u8], blank: Blank) -> Result<Lines, AllocError>
    requires name { blank.name ≡ L.name }
    requires parts { blank.parts ≡ L.parts }
    requires some { 0 < blank.parts }
{
    let mut turns = Turns::<L>::new(blank);
    let rows = rows_of(
        alloc,
        bytes,
        TabSize::default(),
        &Constructs::default(),
        &mut turns,
    )?;
    let aheads = aheads_of(alloc, rows.as_slice(), &mut turns)?;
    Ok(Lines { rows, aheads })
}

/// The lines of a document.
fn lines_of(alloc: Global, bytes: &[u8]) -> Result<Lines, AllocError> {
    lines_from::<Brand>(alloc, bytes, Blank::new(1))
}

/// Appends where a line is: its number, its first byte, its line ending, the next line, and its columns.
fn push_span(text: &mut String, span: Span) -> Result<(), AllocError> {
    let Span {
        number,
        start,
        end,
        next,
        size,
    } = span;
    write!(text, "{number}: {start} {end} {next}, {size}; ")
}

/// The lines of a document with their places and containers.
fn rows_shown(alloc: Global, bytes: &[u8]) -> Result<String, AllocError> {
    let lines = lines_of(alloc, bytes)?;
    let mut text = String::new(alloc);
    for at in &lines.rows {
        push_span(&mut text, at.span)?;
        push_row(&mut text, &at.row)?;
    }
    Ok(text)
}

/// Documents, and their lines: a line goes on lazily with a paragraph; an item begins in the quote; behind a blank line the quote has ended. A line
/// ending may have two bytes, and a tab has columns.
const ROWS: &[(&[u8], &str)] = &[
    (
        b"> a\nb\n> - c\n\nd",
        "1: 0 3 4, 3; 0 and 1, 2 columns\n\
        2: 4 5 6, 1; 0 and 0, 0 columns, lazy, stays\n\
        3: 6 11 12, 5; 1 and 1, 4 columns\n\
        4: 12 12 13, 0; 0 and 0, 0 columns, left blank\n\
        5: 13 14 14, 1; 0 and 0, 0 columns\n",
    ),
    (
        b"> a\nb\r\n>\t- c",
        "1: 0 3 4, 3; 0 and 1, 2 columns\n\
        2: 4 5 7, 1; 0 and 0, 0 columns, lazy, stays\n\
        3: 7 12 12, 7; 1 and 1, 6 columns\n",
    ),
];

/// Appends what is known of a line from those behind it: how many of them its stretch has, how many containers go on, and the list that does.
fn push_ahead(text: &mut String, ahead: Ahead) -> Result<(), AllocError> {
    write!(text, "{} and {}", ahead.further, ahead.many)?;
    match ahead.list {
        Some(Frame { name, line }) => writeln!(text, ", {} of {line}", name.as_str()),
        None => text.push('\n'),
    }
}

/// What is known of each line of a document from those behind it, of the last line first.
fn aheads_shown(alloc: Global, bytes: &[u8]) -> Result<String, AllocError> {
    let lines = lines_of(alloc, bytes)?;
    let mut text = String::new(alloc);
    for ahead in &lines.aheads {
        push_ahead(&mut text, *ahead)?;
    }
    Ok(text)
}

/// Documents, and what is known of each of their lines from those behind it, of the last line first. A paragraph goes on with a lazy line, and
/// with a line of its quote. An item goes on with the list of the first line, though there is a blank line between.
const AHEADS: &[(&[u8], &str)] = &[
    (b"> a\nb\n> c", "0 and 0\n1 and 1\n2 and 0\n"),
    (
        b"- a\n\n- b",
        "0 and 0\n0 and 0, ListUnordered of 1\n0 and 0, ListUnordered of 1\n",
    ),
];

/// Whether a line with a line ending of two bytes, and one at the end of the document, have their places.
fn lines_have_places() -> bool {
    let line = Span {
        number: 2,
        start: 4,
        end: 7,
        next: 9,
        size: 3,
    };
    let last = Span { next: 7, ..line };
    start_of(line) == at(2, 1, 4, 0)
        && text_end_of(line) == at(2, 4, 7, 0)
        && end_of(line) == at(3, 1, 9, 0)
        && end_of(last) == at(2, 4, 7, 0)
}

/// Whether letters stand at the indices that are in the document.
fn are_lettered(alloc: Global) -> Result<bool, AllocError> {
    let lettered = with_letters(alloc, b"> a\n===", &[4, 99])?;
    Ok(lettered.as_slice() == b"> a\na==".as_slice())
}

#[test]
fn documents_have_lines(rt: HostRuntime) {
    for (bytes, want) in ROWS {
        assert_shown(&rt, rows_shown(rt.alloc(), bytes), want);
    }
    for (bytes, want) in AHEADS {
        assert_shown(&rt, aheads_shown(rt.alloc(), bytes), want);
    }
    assert!(rt; lines_have_places());
    assert_holds(&rt, are_lettered(rt.alloc()), "letters at indices");
}

/// Exits all spans but the outermost, counted from nothing.
fn exited_from<L: Ledger>(
    events: &mut Vec<Event>,
    frames: &mut Vec<Frame>,
    blank: Blank,
) -> Result<(), AllocError>
    requires frames { 1 ≤ length frames.old.items }
    requires name { blank.name ≡ L.name }
    requires parts { blank.parts ≡ L.parts }
    requires some { 0 < blank.parts }
{
    exit_frames(
        events,
        frames,
        1,
        at(1, 6, 5, 0),
        &mut Turns::<L>::new(blank),
    )
}

/// Exits all spans but the outermost, at the end of `> - a`.
fn exits_shown(alloc: Global) -> Result<String, AllocError> {
    let mut frames = Vec::new(alloc);
    for name in [Name::BlockQuote, list_name(&ITEM), Name::ListItem] {
        frames.push(Frame { name, line: 1 })?;
    }
    if frames.is_empty() {
        return Err(AllocError);
    }
    let mut events = Vec::new(alloc);
    exited_from::<Brand>(&mut events, &mut frames, Blank::new(1))?;
    let mut text = shown(alloc, events.as_slice())?;
    write!(text, "; {} left", frames.len())?;
    Ok(text)
}

/// Two chunks, the second linked to the first.
fn chunks_shown(alloc: Global) -> Result<String, AllocError> {
    let mut events = Vec::new(alloc);
    let first = begin_chunk(&mut events, Content::Content, None, Point::START)?;
    if first >= events.len() {
        return Err(AllocError);
    }
    begin_chunk(&mut events, Content::Content, Some(first), Point::START)?;
    shown(alloc, events.as_slice())
}

/// White space, and a span around nothing. Then the prefixes of a quote and of an item, and those with which a quote begins and an item goes on.
fn spans_written<L: Ledger>(events: &mut Vec<Event>, blank: Blank) -> Result<(), AllocError>
    requires name { blank.name ≡ L.name }
    requires parts { blank.parts ≡ L.parts }
    requires some { 0 < blank.parts }
{
    let tab = TabSize::default();
    let mut turns = Turns::<L>::new(blank);
    let place = white(events, b" a", tab, Point::START, 1, &mut turns)?;
    enter(events, Name::Paragraph, place)?;
    span(events, b" a", tab, Name::Data, Point::START, 0, &mut turns)?;
    exit(events, Name::Paragraph, place)?;
    quote_prefix(events, b">a", tab, Point::START, b">", &mut turns)?;
    item_prefix(events, b"-", tab, Point::START, 0, b"-", &mut turns)?;
    begun_prefix(events, b">a", tab, Point::START, &QUOTE, b">", &mut turns)?;
    going_prefix(events, b" a", tab, Point::START, &ITEM, b" ", &mut turns)?;
    Ok(())
}

/// Spans, and the prefixes of containers.
fn spans_shown(alloc: Global) -> Result<String, AllocError> {
    let mut events = Vec::new(alloc);
    spans_written::<Brand>(&mut events, Blank::new(1))?;
    shown(alloc, events.as_slice())
}

#[test]
fn events_are_written(rt: HostRuntime) {
    let alloc = rt.alloc();
    let exits = "exit ListItem 1:6 (5+0); exit ListUnordered 1:6 (5+0); 1 left";
    assert_shown(&rt, exits_shown(alloc), exits);
    let chunks =
        "enter Data 1:1 (0+0) Content None Some(1); enter Data 1:1 (0+0) Content Some(0) None";
    assert_shown(&rt, chunks_shown(alloc), chunks);
    let spans = "SpaceOrTab 1:1 (0+0) to 1:2 (1+0); Paragraph 1:2 (1+0) to 1:2 (1+0); \
        enter BlockQuotePrefix 1:1 (0+0); BlockQuoteMarker 1:1 (0+0) to 1:2 (1+0); exit BlockQuotePrefix 1:2 (1+0); \
        enter ListItemPrefix 1:1 (0+0); ListItemMarker 1:1 (0+0) to 1:2 (1+0); exit ListItemPrefix 1:2 (1+0); \
        enter BlockQuotePrefix 1:1 (0+0); BlockQuoteMarker 1:1 (0+0) to 1:2 (1+0); exit BlockQuotePrefix 1:2 (1+0); \
        SpaceOrTab 1:1 (0+0) to 1:2 (1+0)";
    assert_shown(&rt, spans_shown(alloc), spans);
}

/// The skeleton of a document, and the indices of its lazy underlines.
fn skeleton_shown(alloc: Global, bytes: &[u8]) -> Result<String, AllocError>
    requires limit { IsWithinLimit 4 bytes.now }
{
    let skeleton = skeleton_of(alloc, bytes, TabSize::default(), &Constructs::default())?;
    let mut text = spans_of(alloc, bytes, skeleton.events.as_slice())?;
    for letter in &skeleton.letters {
        write!(text, " {letter}")?;
    }
    Ok(text)
}

/// Documents, their containers with the chunks of the lines in them, and the indices of lazy underlines: a quote with a lazy line; one whose lazy
/// line is no underline (CommonMark, 4.3); an item with a blank line, over which its chunk goes on, and a prefix before the next one; two lists, as
/// the markers differ; one list.
const SKELETONS: &[(&[u8], &str)] = &[
    (
        b"> a\nb",
        "BlockQuote[BlockQuotePrefix[BlockQuoteMarker\">\" SpaceOrTab\" \"] Data\"a%0Ab\"]",
    ),
    (
        b"> a\n===\n",
        "BlockQuote[BlockQuotePrefix[BlockQuoteMarker\">\" SpaceOrTab\" \"] Data\"a%0A===\"] LineEnding\"%0A\" 4",
    ),
    (
        b"- a\n\n  b",
        "ListUnordered[ListItem[ListItemPrefix[ListItemMarker\"-\" SpaceOrTab\" \"] Data\"a%0A%0A\" SpaceOrTab\"  \" Data\"b\"]]",
    ),
    (
        b"1. a\n2) b",
        "ListOrdered[ListItem[ListItemPrefix[ListItemValue\"1\" ListItemMarker\".\" SpaceOrTab\" \"] Data\"a\"]] LineEnding\"%0A\" \
        ListOrdered[ListItem[ListItemPrefix[ListItemValue\"2\" ListItemMarker\")\" SpaceOrTab\" \"] Data\"b\"]]",
    ),
    (
        b"+ a\n+\tb",
        "ListUnordered[ListItem[ListItemPrefix[ListItemMarker\"+\" SpaceOrTab\" \"] Data\"a\"] LineEnding\"%0A\" \
        ListItem[ListItemPrefix[ListItemMarker\"+\" SpaceOrTab\"%09\"] Data\"b\"]]",
    ),
];

#[test]
fn documents_have_skeletons(rt: HostRuntime) {
    for (bytes, want) in SKELETONS {
        assert!(rt; bytes.len() < 99);
        assert_shown(&rt, skeleton_shown(rt.alloc(), bytes), want);
    }
}
