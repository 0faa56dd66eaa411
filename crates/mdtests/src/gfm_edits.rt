//! Documents of GFM that are edited: checks, calls of footnotes and literals of their sections.

use crate::shown::{assert_holds, assert_shown};
use markdown::configuration::ParseOptions;
use mdcases_forms::spans::spans_of;
use mdconstructs::edit::{Edit, Other, Refused, Why};
use mdconstructs::sections::Sections;
use std::alloc::{AllocError, Global};

/// What an edit changes: the sections that are replaced and those that come, and the others of which something is new.
type Changes = ((usize, usize, usize), &'static [Other]);

/// A document, the range that bytes come for, these bytes, what that changes, the document then, and its events as spans.
type Row = (
    &'static [u8],
    (usize, usize),
    &'static [u8],
    Changes,
    &'static [u8],
    &'static str,
);

/// The first section of a document has other events than before.
const OF_FIRST: &[Other] = &[Other {
    section: 0,
    why: Why::Events,
}];

/// A check is typed; a literal is; a footnote definition goes, and comes, and the section that calls it is told, though it is far; one with another label comes.
const ROWS: &[Row] = &[
    (
        b"- [] a",
        (3, 3),
        b" ",
        ((0, 1, 1), &[]),
        b"- [ ] a",
        "ListUnordered[ListItem[ListItemPrefix[ListItemMarker\"-\" SpaceOrTab\" \"] Paragraph[GfmTaskListItemCheck[GfmTaskListItemMarker\"[\" GfmTaskListItemValueUnchecked\" \" GfmTaskListItemMarker\"]\"] Data\" a\"]]]",
    ),
    (
        b"a\n\nww.b.c",
        (3, 3),
        b"w",
        ((1, 2, 2), &[]),
        b"a\n\nwww.b.c",
        "Paragraph[Data\"a\"] LineEnding\"%0A\" BlankLineEnding\"%0A\" Paragraph[GfmAutolinkLiteralWww\"www.b.c\"]",
    ),
    (
        b"x[^a]\n\ny\n\n[^a]: z",
        (10, 17),
        b"",
        ((2, 3, 2), OF_FIRST),
        b"x[^a]\n\ny\n\n",
        "Paragraph[Data\"x\" Data\"[\" Data\"^a\" Data\"]\"] LineEnding\"%0A\" BlankLineEnding\"%0A\" Paragraph[Data\"y\"] LineEnding\"%0A\" BlankLineEnding\"%0A\"",
    ),
    (
        b"x[^a]\n\ny\n\n",
        (10, 10),
        b"[^A]: z",
        ((2, 2, 3), OF_FIRST),
        b"x[^a]\n\ny\n\n[^A]: z",
        "Paragraph[Data\"x\" GfmFootnoteCall[Label[GfmFootnoteCallLabel[LabelMarker\"[\" GfmFootnoteCallMarker\"^\"] Data\"a\" LabelEnd[LabelMarker\"]\"]]]] LineEnding\"%0A\" BlankLineEnding\"%0A\" Paragraph[Data\"y\"] LineEnding\"%0A\" BlankLineEnding\"%0A\" GfmFootnoteDefinition[GfmFootnoteDefinitionPrefix[GfmFootnoteDefinitionLabel[GfmFootnoteDefinitionLabelMarker\"[\" GfmFootnoteDefinitionMarker\"^\" GfmFootnoteDefinitionLabelString[Data\"A\"] GfmFootnoteDefinitionLabelMarker\"]\"] DefinitionMarker\":\" SpaceOrTab\" \"] Paragraph[Data\"z\"]]",
    ),
    (
        b"x[^a]\n\n",
        (7, 7),
        b"[^b]: z",
        ((1, 1, 2), &[]),
        b"x[^a]\n\n[^b]: z",
        "Paragraph[Data\"x\" Data\"[\" Data\"^a\" Data\"]\"] LineEnding\"%0A\" BlankLineEnding\"%0A\" GfmFootnoteDefinition[GfmFootnoteDefinitionPrefix[GfmFootnoteDefinitionLabel[GfmFootnoteDefinitionLabelMarker\"[\" GfmFootnoteDefinitionMarker\"^\" GfmFootnoteDefinitionLabelString[Data\"b\"] GfmFootnoteDefinitionLabelMarker\"]\"] DefinitionMarker\":\" SpaceOrTab\" \"] Paragraph[Data\"z\"]]",
    ),
];

/// A document of GFM that can be edited.
fn sections_of(alloc: Global, bytes: &[u8]) -> Result<Sections, AllocError> {
    match Sections::new(alloc, bytes, &ParseOptions::gfm()) {
        Ok(sections) => Ok(sections),
        Err(_) => Err(AllocError),
    }
}

/// Whether an edit changes what a row says.
fn changes_so(alloc: Global, row: Row) -> Result<bool, AllocError> {
    let (bytes, (from, to), with, (numbers, others), left, _) = row;
    let mut sections = sections_of(alloc, bytes)?;
    match sections.replace(alloc, &Edit { from, to, with }) {
        Ok(change) => Ok(
            (change.from, change.old_to, change.new_to) == numbers
                && change.others.as_slice() == others
                && sections.bytes(alloc)?.as_slice() == left,
        ),
        Err(Refused::Memory) => Err(AllocError),
        Err(_) => Ok(false),
    }
}

/// The events that the edit of a row leaves, as spans.
fn spans_left(alloc: Global, row: Row) -> Result<String, AllocError> {
    let (bytes, (from, to), with, _, _, _) = row;
    let mut sections = sections_of(alloc, bytes)?;
    match sections.replace(alloc, &Edit { from, to, with }) {
        Ok(_) => {}
        Err(_) => return Err(AllocError),
    }
    let now = sections.bytes(alloc)?;
    let events = sections.events(alloc)?;
    spans_of(alloc, now.as_slice(), events.as_slice())
}

#[test]
fn what_gfm_adds_is_read_again(rt: HostRuntime) {
    for &row in ROWS {
        assert_holds(&rt, changes_so(rt.alloc(), row), "what calls is read again");
        assert_shown(&rt, spans_left(rt.alloc(), row), row.5);
    }
}

/// Whether of two calls the one is told whose footnote is not defined.
fn one_is_undefined(alloc: Global) -> Result<bool, AllocError> {
    let sections = sections_of(alloc, b"x[^a]\n\n[^b]\n\n[^a]: z")?;
    let count = sections.count();
    let found = sections.undefined(alloc, 0, count)?;
    Ok(found.len() == 1 && found[0].from == 8 && found[0].to == 10)
}

#[test]
fn calls_of_footnotes_are_no_references(rt: HostRuntime) {
    assert_holds(&rt, one_is_undefined(rt.alloc()), "a call is defined");
}
