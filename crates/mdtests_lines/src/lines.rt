//! Kinds of lines, containers that go on or begin, and lines that are read.

ghost use Rattle.std.specs.Prelude.{◌≡◌, ◌<◌, ℕ};
ghost use Rattle.mdblock_leaf_blocks.specs.LineKinds.{indent, is_thematic_break, unindented};

use crate::shown::assert_holds;
use markdown_base::configuration::{Constructs, TabSize};
use markdown_base::event::Point;
use mdblock_lines::breaks::{Breaks, breaks_in};
use mdblock_lines::bytes::{behind, front, indent, is_blank_line, unindented};
use mdblock_lines::containers::{Container, ContainerKind, begins, first_from, goes_on};
use mdblock_lines::html::{HtmlKind, begins as begins_html, ends, html_kind, waits_for_blank};
use mdblock_lines::kinds::{
    Fence, LineKind, closes, is_atx_heading, is_far, is_fence_of, is_thematic_break,
    is_underline_of_marks, kind_of_rest, line_kind, underline_rank,
};
use mdblock_lines::places::{behind_ending, moved, read_line};
use mdconstructs_loop_counts::Turns;
use std::alloc::{AllocError, Global};
use std::marker::Brand;
use std::sync::ledger::{Blank, Ledger};
use std::vec::Vec;

/// What a line is asked for.
#[derive(Clone, Copy)]
struct Answered<'a> {
    /// The columns of white space that come first.
    columns: usize,
    /// The line behind these.
    rest: &'a [u8],
    /// There is only white space, or nothing.
    is_blank: bool,
    /// It is too far to the right.
    is_far: bool,
    /// What it is.
    kind: LineKind,
    /// What it is behind two columns.
    behind_two: LineKind,
    /// Of an underline.
    rank: Option<u8>,
    /// Whether it closes a fence of four tildes.
    closes: bool,
    /// As in `MARKED`.
    marks: [bool; 5],
    /// Where its rest is a thematic break.
    breaks: Breaks,
    /// The kind of HTML that it begins.
    html: Option<HtmlKind>,
}

/// A fence of four tildes.
const TILDES: Fence = Fence {
    byte: b'~',
    size: 4,
    indent: 0,
};

/// What a line is asked for, counted from nothing.
fn asked_from<'a, L: Ledger>(on: &Constructs, t: &'a [u8], blank: Blank) -> Answered<'a>
    requires name { blank.name ≡ L.name }
    requires parts { blank.parts ≡ L.parts }
    requires some { 0 < blank.parts }
{
    let mut turns = Turns::<L>::new(blank);
    Answered {
        columns: indent(t, &mut turns),
        rest: unindented(t, &mut turns),
        is_blank: is_blank_line(t, &mut turns),
        is_far: is_far(on, t, &mut turns),
        kind: line_kind(on, t, &mut turns),
        behind_two: kind_of_rest(on, 2, t, &mut turns),
        rank: underline_rank(on, t, &mut turns),
        closes: closes(on, TILDES, t, &mut turns),
        marks: [
            is_thematic_break(t, &mut turns),
            is_atx_heading(t, &mut turns),
            is_underline_of_marks(t, b'=', &mut turns),
            is_fence_of(t, b'`', &mut turns),
            is_fence_of(t, b'~', &mut turns),
        ],
        breaks: breaks_in(on, t, &mut turns),
        html: html_kind(t, &mut turns),
    }
}

/// What a line is asked for.
fn asked<'a>(on: &Constructs, t: &'a [u8]) -> Answered<'a> {
    asked_from::<Brand>(on, t, Blank::new(1))
}

/// A kind of lines as a letter, and of HTML the number of its start condition (CommonMark, 4.6).
fn shown_kind(kind: LineKind) -> (char, usize) {
    match kind {
        LineKind::Blank => ('-', 0),
        LineKind::Indented => ('i', 0),
        LineKind::Heading => ('#', 0),
        LineKind::Fence(_) => ('f', 0),
        LineKind::Html(kind) => ('<', condition(kind)),
        LineKind::ThematicBreak => ('*', 0),
        LineKind::Text => ('t', 0),
    }
}

/// Lines and their kinds.
const KINDS: &[(&[u8], (char, usize))] = &[
    (b" ", ('-', 0)),
    (b"    a", ('i', 0)),
    (b"## a", ('#', 0)),
    (b"#a", ('t', 0)),
    (b"<!-- a", ('<', 2)),
    (b"- - -", ('*', 0)),
    (b"===", ('t', 0)),
];

/// Lines, the rank of each as an underline, and whether it closes a fence of four tildes.
const UNDER: &[(&[u8], Option<u8>, bool)] = &[
    (b"=== ", Some(1), false),
    (b"--", Some(2), false),
    (b"=-", None, false),
    (b"~~~~~ ", None, true),
    (b"~~~", None, false),
];

/// A quote that the first line begins.
const QUOTE: Container = Container {
    kind: ContainerKind::Quote,
    is_near: true,
    line: 1,
    size: 0,
    marker: b'>',
    digits: 0,
    is_blank: false,
    label: 0,
};

/// A quote without indented code.
const FAR_QUOTE: Container = Container {
    kind: ContainerKind::Quote,
    is_near: false,
    line: 1,
    size: 0,
    marker: b'>',
    digits: 0,
    is_blank: false,
    label: 0,
};

/// Whether a quote goes on with its marker alone, behind three columns of white space at most if its markers are near.
fn quotes_go_on() -> bool {
    goes_on(&QUOTE, 2, b"> a", 0) == Some(2)
        && goes_on(&QUOTE, 2, b"a", 0).is_none()
        && goes_on(&QUOTE, 2, b"   > a", 3) == Some(5)
        && goes_on(&QUOTE, 2, b"    > a", 4).is_none()
        && goes_on(&FAR_QUOTE, 2, b"    > a", 4) == Some(6)
        && goes_on(&FAR_QUOTE, 2, b"    a", 4).is_none()
}

/// The index of a line's ending, counted from nothing.
fn read_from<L: Ledger>(line: &mut Vec<u8>, bytes: &[u8], blank: Blank) -> Result<usize, AllocError>
    requires name { blank.name ≡ L.name }
    requires parts { blank.parts ≡ L.parts }
    requires some { 0 < blank.parts }
{
    read_line(
        line,
        bytes,
        TabSize::default(),
        0,
        &mut Turns::<L>::new(blank),
    )
}

/// Whether a line is read up to its ending, with a tab as its columns.
fn is_line_read(alloc: Global) -> Result<bool, AllocError> {
    let mut line = Vec::new(alloc);
    let end = read_from::<Brand>(&mut line, b"a\tb\r\nc", Blank::new(1))?;
    Ok(end == 3 && line.as_slice() == b"a\t  b".as_slice())
}

/// Whether a container begins with each of three lines, of which the second would interrupt a paragraph and the third is a thematic break;
/// the first column behind the marker of a quote that is no white space; and the place behind a letter, counted from nothing.
fn walked_from<L: Ledger>(blank: Blank) -> ([bool; 3], usize, Point)
    requires name { blank.name ≡ L.name }
    requires parts { blank.parts ≡ L.parts }
    requires some { 0 < blank.parts }
{
    let mut turns = Turns::<L>::new(blank);
    let on = Constructs::default();
    let begun = [
        begins(&on, 1, false, b"- a", 0, false, &mut turns).is_some(),
        begins(&on, 1, true, b"2. a", 0, false, &mut turns).is_some(),
        begins(&on, 1, false, b"---", 0, true, &mut turns).is_some(),
    ];
    (
        begun,
        first_from(b">  a", 0, 1, 0, &mut turns),
        moved(b"ab", TabSize::default(), Point::START, 1, &mut turns),
    )
}

/// Whether containers begin where they may, and places move over columns.
fn lines_are_walked() -> bool {
    let (begun, first, place) = walked_from::<Brand>(Blank::new(1));
    begun == [true, false, false] && first == 3 && place.index == 1 && place.column == 2
}

/// Of a line: the columns of white space before it, and what is behind these.
const INDENTS: &[(&[u8], usize, &[u8])] = &[
    (b"", 0, b""),
    (b"a ", 0, b"a "),
    (b"  \t a", 4, b"a"),
    (b" ", 1, b""),
];

/// Lines without the white space before them, and whether each is a thematic break, an ATX heading, an underline of `=`, an opening fence of
/// grave accents and one of tildes (CommonMark, 4.1 to 4.5).
const MARKED: &[(&[u8], [bool; 5])] = &[
    (b"***", [true, false, false, false, false]),
    (b"_ _ _ _ ", [true, false, false, false, false]),
    (b"--", [false, false, false, false, false]),
    (b"*-*", [false, false, false, false, false]),
    (b"- - - a", [false, false, false, false, false]),
    (b"# a", [false, true, false, false, false]),
    (b"######", [false, true, false, false, false]),
    (b"#######", [false, false, false, false, false]),
    (b"#a", [false, false, false, false, false]),
    (b"== ", [false, false, true, false, false]),
    (b"= =", [false, false, false, false, false]),
    (b"``` a", [false, false, false, true, false]),
    (b"``` a`", [false, false, false, false, false]),
    (b"~~~ `~", [false, false, false, false, true]),
    (b"~~", [false, false, false, false, false]),
];

/// Whether four columns are too many, but not if there is no indented code. A fence is seen behind two columns.
fn lines_may_be_far() -> bool {
    let on = Constructs::default();
    let off = Constructs {
        code_indented: false,
        ..on
    };
    let fence = matches!(
        asked(&on, b"~~~~ a").behind_two,
        LineKind::Fence(Fence {
            byte: b'~',
            size: 4,
            indent: 2
        })
    );
    fence
        && matches!(asked(&on, b"a").behind_two, LineKind::Text)
        && !asked(&on, b"   a").is_far
        && asked(&on, b"    a").is_far
        && !asked(&off, b"    a").is_far
}

/// Lines, and whether the rest of each from the columns 0, 2, 4 and 6 on is a thematic break: also behind the marker of an item, or of a quote.
const BREAKS: &[(&[u8], [bool; 4])] = &[
    (b"> - - -", [false, true, false, false]),
    (b"- * * * *", [false, true, true, false]),
];

/// Of a line: where its rest is a thematic break.
fn breaks_of(found: &Answered) -> [bool; 4] {
    let breaks = found.breaks;
    [breaks.has(0), breaks.has(2), breaks.has(4), breaks.has(6)]
}

#[test]
fn lines_are_what_they_are_asked_for(rt: HostRuntime) {
    let on = Constructs::default();
    for (line, kind) in KINDS {
        assert!(rt; shown_kind(asked(&on, line).kind) == *kind);
    }
    for (line, rank, closes) in UNDER {
        let found = asked(&on, line);
        assert!(rt; found.rank == *rank && found.closes == *closes);
    }
    for (line, columns, rest) in INDENTS {
        let found = asked(&on, line);
        assert!(rt; found.columns == *columns && found.rest == *rest);
        assert!(rt; found.is_blank == rest.is_empty());
    }
    for (line, want) in MARKED {
        assert!(rt; asked(&on, line).marks == *want);
    }
    for (line, want) in BREAKS {
        assert!(rt; breaks_of(&asked(&on, line)) == *want);
    }
}

/// Lines that begin HTML, and its kind.
const HTML: &[(&[u8], HtmlKind)] = &[
    (b"<pre", HtmlKind::Raw),
    (b"<!-- a", HtmlKind::Comment),
    (b"<?php", HtmlKind::Instruction),
    (b"<!DOCTYPE", HtmlKind::Declaration),
    (b"<![CDATA[", HtmlKind::Cdata),
    (b"</DIV a", HtmlKind::BlockTag),
    (b"<a href='b'>", HtmlKind::AnyTag),
];

/// The number of the start condition of a kind of HTML (CommonMark, 4.6).
fn condition(kind: HtmlKind) -> usize {
    match kind {
        HtmlKind::Raw => 1,
        HtmlKind::Comment => 2,
        HtmlKind::Instruction => 3,
        HtmlKind::Declaration => 4,
        HtmlKind::Cdata => 5,
        HtmlKind::BlockTag => 6,
        HtmlKind::AnyTag => 7,
    }
}

/// A line that ends HTML of a kind, if a line does: that of a tag goes on up to a blank line.
fn last_line(kind: HtmlKind) -> &'static [u8] {
    match kind {
        HtmlKind::Raw => b"a </PRE> b",
        HtmlKind::Comment => b"a --> b",
        HtmlKind::Instruction => b"?>",
        HtmlKind::Declaration => b">",
        HtmlKind::Cdata => b"]]>",
        HtmlKind::BlockTag | HtmlKind::AnyTag => b"",
    }
}

/// Whether a line begins HTML of a kind, and whether another ends it, counted from nothing.
fn bounds_from<L: Ledger>(kind: HtmlKind, line: &[u8], last: &[u8], blank: Blank) -> (bool, bool)
    requires name { blank.name ≡ L.name }
    requires parts { blank.parts ≡ L.parts }
    requires some { 0 < blank.parts }
{
    let mut turns = Turns::<L>::new(blank);
    (
        begins_html(kind, line, &mut turns),
        ends(kind, last, &mut turns),
    )
}

/// Whether a line begins HTML of a kind, and whether another ends it.
fn bounds(kind: HtmlKind, line: &[u8], last: &[u8]) -> (bool, bool) {
    bounds_from::<Brand>(kind, line, last, Blank::new(1))
}

/// Whether a line begins HTML of a kind, which ends as it does.
fn is_html(line: &[u8], kind: HtmlKind) -> bool {
    let last = last_line(kind);
    let found = asked(&Constructs::default(), line).html.map(condition);
    found == Some(condition(kind))
        && waits_for_blank(kind) == last.is_empty()
        && bounds(kind, line, last) == (true, !last.is_empty())
        && bounds(kind, line, b"a") == (true, false)
}

/// Whether a line begins no HTML.
fn is_no_html(line: &[u8]) -> bool {
    asked(&Constructs::default(), line).html.is_none()
}

/// Whether CR LF is one line ending, and others are of one byte.
fn endings_have_sizes() -> bool {
    behind_ending(b"a\r\nb", 1) == 3
        && behind_ending(b"a\nb", 1) == 2
        && behind_ending(b"a\r\r", 1) == 2
        && behind_ending(b"a", 1) == 1
}

#[test]
fn html_begins_and_ends_by_its_kind(rt: HostRuntime) {
    for (line, kind) in HTML {
        assert!(rt; is_html(line, *kind));
    }
    assert!(rt; is_no_html(b"<a href='b'> c") && is_no_html(b"<1>"));
}

#[test]
fn lines_go_on_and_are_read(rt: HostRuntime) {
    assert!(rt; quotes_go_on());
    assert!(rt; lines_are_walked());
    assert!(rt; lines_may_be_far());
    assert!(rt; endings_have_sizes());
    assert!(rt; front(b"abc", 1) == b"a".as_slice() && behind(b"abc", 1) == b"bc".as_slice());
    assert_holds(&rt, is_line_read(rt.alloc()), "a line is read");
}
