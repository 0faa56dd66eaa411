//! Documents as the library reads them, beside the program: with containers, their leaf blocks alone, and as one text, also of ranges.

ghost use Rattle.std.specs.Prelude.{◌+◌, ◌*◌, ◌<◌};
ghost use Rattle.markdown.specs.Virtual.{IsWithinLimit};

use crate::shown::assert_shown;
use markdown::configuration::{Constructs, ParseOptions, TabSize};
use mdcases_forms::spans::spans_of;
use mdconstructs::choice::links_text;
use mdconstructs::ranges::{ByteRange, are_ranges, text_events_in};
use mdconstructs::{
    Which, limit_of, options_with, read_document, read_document_into, read_leaf_blocks,
    text_events_of,
};
use std::alloc::{AllocError, Global};

/// The events of a document with these constructs, and with one tilde counting or not.
fn nested_by(
    alloc: Global,
    bytes: &[u8],
    constructs: Constructs,
    one_tilde: bool,
) -> Result<String, AllocError> {
    if bytes.len() > limit_of(TabSize::default()) {
        return String::from_str(alloc, "too long");
    }
    let options = ParseOptions {
        gfm_strikethrough_single_tilde: one_tilde,
        ..options_with(constructs, TabSize::default())
    };
    let events = read_document(alloc, bytes, &options)?;
    spans_of(alloc, bytes, events.as_slice())
}

/// The events of a document with these constructs.
fn nested_with(alloc: Global, bytes: &[u8], constructs: Constructs) -> Result<String, AllocError> {
    nested_by(alloc, bytes, constructs, true)
}

/// The same events, handed on to a list.
fn handed_on(alloc: Global, bytes: &[u8]) -> Result<String, AllocError> {
    if bytes.len() > limit_of(TabSize::default()) {
        return String::from_str(alloc, "too long");
    }
    let options = options_with(Constructs::default(), TabSize::default());
    let mut events = Vec::new(alloc);
    match read_document_into(alloc, bytes, &options, &mut events) {
        Ok(()) => spans_of(alloc, bytes, events.as_slice()),
        Err(_) => String::from_str(alloc, "not read to its end"),
    }
}

/// So many paragraphs are longer than what is read at once.
const PARAGRAPHS: usize = 40_000;

/// How many events are handed on of so many paragraphs, and a definition behind them all that each of them asks for.
fn handed_on_in_pieces(alloc: Global) -> Result<usize, AllocError> {
    let mut bytes = Vec::new(alloc);
    for _ in 0..PARAGRAPHS {
        bytes.extend_from_slice(b"[a]\n\n")?;
    }
    bytes.extend_from_slice(b"[a]: b\n[c]: d")?;
    let mut events = Vec::new(alloc);
    if bytes.len() > limit_of(TabSize::default()) {
        return Ok(0);
    }
    let options = options_with(Constructs::default(), TabSize::default());
    match read_document_into(alloc, bytes.as_slice(), &options, &mut events) {
        Ok(()) => Ok(events.len()),
        Err(_) => Ok(0),
    }
}

/// Of each paragraph, as enters and exits: itself, a link, its label, the start and the end of that, each with a marker, a text, data; a line ending
/// and a blank line. Of each definition: itself, its label, two markers, a string, data; a marker and white space; a destination, raw, its string,
/// data. And a line ending.
#[test]
fn long_documents_are_handed_on(rt: HostRuntime) {
    assert!(rt; handed_on_in_pieces(rt.alloc()).is_ok_and(|count| count == 880_050));
}

/// Documents as CommonMark has them. 5.1 and 5.3: a quote with a heading and a paragraph, and two lists, as the marker changes. Tildes are data, as
/// strikethrough is off.
const READ: &[(&[u8], &str)] = &[
    (
        b"> # Foo\n> bar\n> baz",
        "BlockQuote[BlockQuotePrefix[BlockQuoteMarker\">\" SpaceOrTab\" \"] \
        HeadingAtx[HeadingAtxSequence\"#\" SpaceOrTab\" \" HeadingAtxText[Data\"Foo\"]] LineEnding\"%0A\" \
        BlockQuotePrefix[BlockQuoteMarker\">\" SpaceOrTab\" \"] Paragraph[Data\"bar\" LineEnding\"%0A\" \
        BlockQuotePrefix[BlockQuoteMarker\">\" SpaceOrTab\" \"] Data\"baz\"]]",
    ),
    (
        b"- foo\n- bar\n+ baz",
        "ListUnordered[ListItem[ListItemPrefix[ListItemMarker\"-\" SpaceOrTab\" \"] Paragraph[Data\"foo\"]] LineEnding\"%0A\" \
        ListItem[ListItemPrefix[ListItemMarker\"-\" SpaceOrTab\" \"] Paragraph[Data\"bar\"]]] LineEnding\"%0A\" \
        ListUnordered[ListItem[ListItemPrefix[ListItemMarker\"+\" SpaceOrTab\" \"] Paragraph[Data\"baz\"]]]",
    ),
    (
        b"*a* ~b~",
        "Paragraph[Emphasis[EmphasisSequence\"*\" EmphasisText[Data\"a\"] EmphasisSequence\"*\"] Data\" ~b~\"]",
    ),
];

/// Documents with strikethrough on, and their spans, worked by hand from GFM, 6.5: of one tilde and of two; runs of different lengths, of three, and
/// behind an escape; beside letters and beside punctuation beyond ASCII; crossing stars, in them and around them; in a heading, in a link and around
/// one, in code, and over the prefix of a quote.
const STRUCK: &[(&[u8], &str)] = &[
    (
        b"~a~ ~~b~~",
        "Paragraph[GfmStrikethrough[GfmStrikethroughSequence\"~\" GfmStrikethroughText[Data\"a\"] GfmStrikethroughSequence\"~\"] Data\" \" \
        GfmStrikethrough[GfmStrikethroughSequence\"~~\" GfmStrikethroughText[Data\"b\"] GfmStrikethroughSequence\"~~\"]]",
    ),
    (b"~~a~", "Paragraph[Data\"~~\" Data\"a\" Data\"~\"]"),
    (
        b"~~a ~b~~",
        "Paragraph[GfmStrikethrough[GfmStrikethroughSequence\"~~\" GfmStrikethroughText[Data\"a \" Data\"~\" Data\"b\"] GfmStrikethroughSequence\"~~\"]]",
    ),
    (
        b"a ~~~b~~~",
        "Paragraph[Data\"a \" Data\"~~~\" Data\"b\" Data\"~~~\"]",
    ),
    (
        b"\\~a~",
        "Paragraph[CharacterEscape[CharacterEscapeMarker\"\\\" CharacterEscapeValue\"~\"] Data\"a\" Data\"~\"]",
    ),
    (b"~ a~", "Paragraph[Data\"~\" Data\" a\" Data\"~\"]"),
    (
        b"a~b~c",
        "Paragraph[Data\"a\" GfmStrikethrough[GfmStrikethroughSequence\"~\" GfmStrikethroughText[Data\"b\"] GfmStrikethroughSequence\"~\"] Data\"c\"]",
    ),
    (
        b"a~\xE2\x80\x94b~",
        "Paragraph[Data\"a\" Data\"~\" Data\"%E2%80%94b\" Data\"~\"]",
    ),
    (
        b"*a ~b* c~",
        "Paragraph[Emphasis[EmphasisSequence\"*\" EmphasisText[Data\"a \" Data\"~\" Data\"b\"] EmphasisSequence\"*\"] Data\" c\" Data\"~\"]",
    ),
    (
        b"~a *b~ c*",
        "Paragraph[GfmStrikethrough[GfmStrikethroughSequence\"~\" GfmStrikethroughText[Data\"a \" Data\"*\" Data\"b\"] GfmStrikethroughSequence\"~\"] \
        Data\" c\" Data\"*\"]",
    ),
    (
        b"*~a~*",
        "Paragraph[Emphasis[EmphasisSequence\"*\" EmphasisText[GfmStrikethrough[GfmStrikethroughSequence\"~\" GfmStrikethroughText[Data\"a\"] \
        GfmStrikethroughSequence\"~\"]] EmphasisSequence\"*\"]]",
    ),
    (
        b"~*a*~",
        "Paragraph[GfmStrikethrough[GfmStrikethroughSequence\"~\" GfmStrikethroughText[Emphasis[EmphasisSequence\"*\" EmphasisText[Data\"a\"] \
        EmphasisSequence\"*\"]] GfmStrikethroughSequence\"~\"]]",
    ),
    (
        b"# ~a~",
        "HeadingAtx[HeadingAtxSequence\"#\" SpaceOrTab\" \" HeadingAtxText[GfmStrikethrough[GfmStrikethroughSequence\"~\" GfmStrikethroughText[Data\"a\"] \
        GfmStrikethroughSequence\"~\"]]]",
    ),
    (
        b"[~a~](b)",
        "Paragraph[Link[Label[LabelLink[LabelMarker\"[\"] LabelText[GfmStrikethrough[GfmStrikethroughSequence\"~\" GfmStrikethroughText[Data\"a\"] \
        GfmStrikethroughSequence\"~\"]] LabelEnd[LabelMarker\"]\"]] Resource[ResourceMarker\"(\" \
        ResourceDestination[ResourceDestinationRaw[ResourceDestinationString[Data\"b\"]]] ResourceMarker\")\"]]]",
    ),
    (
        b"~[a~](b)",
        "Paragraph[Data\"~\" Link[Label[LabelLink[LabelMarker\"[\"] LabelText[Data\"a\" Data\"~\"] LabelEnd[LabelMarker\"]\"]] \
        Resource[ResourceMarker\"(\" ResourceDestination[ResourceDestinationRaw[ResourceDestinationString[Data\"b\"]]] ResourceMarker\")\"]]]",
    ),
    (
        b"~`a~`",
        "Paragraph[Data\"~\" CodeText[CodeTextSequence\"`\" CodeTextData\"a~\" CodeTextSequence\"`\"]]",
    ),
    (
        b"> ~a\n> b~",
        "BlockQuote[BlockQuotePrefix[BlockQuoteMarker\">\" SpaceOrTab\" \"] Paragraph[GfmStrikethrough[GfmStrikethroughSequence\"~\" \
        GfmStrikethroughText[Data\"a\" LineEnding\"%0A\" BlockQuotePrefix[BlockQuoteMarker\">\" SpaceOrTab\" \"] Data\"b\"] GfmStrikethroughSequence\"~\"]]]",
    ),
];

/// Documents with strikethrough on, and their spans as one tilde counts, and as it does not: one around a text, in emphasis, and around one that two
/// strike.
const ONE: &[(&[u8], &str, &str)] = &[
    (
        b"~a~ ~~b~~",
        "Paragraph[GfmStrikethrough[GfmStrikethroughSequence\"~\" GfmStrikethroughText[Data\"a\"] GfmStrikethroughSequence\"~\"] Data\" \" \
        GfmStrikethrough[GfmStrikethroughSequence\"~~\" GfmStrikethroughText[Data\"b\"] GfmStrikethroughSequence\"~~\"]]",
        "Paragraph[Data\"~\" Data\"a\" Data\"~\" Data\" \" \
        GfmStrikethrough[GfmStrikethroughSequence\"~~\" GfmStrikethroughText[Data\"b\"] GfmStrikethroughSequence\"~~\"]]",
    ),
    (
        b"*~a~*",
        "Paragraph[Emphasis[EmphasisSequence\"*\" EmphasisText[GfmStrikethrough[GfmStrikethroughSequence\"~\" GfmStrikethroughText[Data\"a\"] \
        GfmStrikethroughSequence\"~\"]] EmphasisSequence\"*\"]]",
        "Paragraph[Emphasis[EmphasisSequence\"*\" EmphasisText[Data\"~\" Data\"a\" Data\"~\"] EmphasisSequence\"*\"]]",
    ),
    (
        b"~a ~~b~~ c~",
        "Paragraph[GfmStrikethrough[GfmStrikethroughSequence\"~\" GfmStrikethroughText[Data\"a \" GfmStrikethrough[GfmStrikethroughSequence\"~~\" \
        GfmStrikethroughText[Data\"b\"] GfmStrikethroughSequence\"~~\"] Data\" c\"] GfmStrikethroughSequence\"~\"]]",
        "Paragraph[Data\"~\" Data\"a \" GfmStrikethrough[GfmStrikethroughSequence\"~~\" GfmStrikethroughText[Data\"b\"] \
        GfmStrikethroughSequence\"~~\"] Data\" c\" Data\"~\"]",
    ),
];

/// Documents, and how each is read without indented code and with it. Without it a quote's marker may stand behind any white space, in its first line
/// and in its further ones. With it no marker stands behind four columns: they begin code, or text that goes on with a paragraph (CommonMark, 4.4, 4.8,
/// 5.1).
const FAR: &[(&[u8], &str, &str)] = &[
    (
        b"> a\n    > b",
        "BlockQuote[BlockQuotePrefix[BlockQuoteMarker\">\" SpaceOrTab\" \"] Paragraph[Data\"a\" LineEnding\"%0A\" \
        SpaceOrTab\"    \" BlockQuotePrefix[BlockQuoteMarker\">\" SpaceOrTab\" \"] Data\"b\"]]",
        "BlockQuote[BlockQuotePrefix[BlockQuoteMarker\">\" SpaceOrTab\" \"] Paragraph[Data\"a\" LineEnding\"%0A\" SpaceOrTab\"    \" Data\"> b\"]]",
    ),
    (
        b"    > a\n    > b",
        "BlockQuote[SpaceOrTab\"    \" BlockQuotePrefix[BlockQuoteMarker\">\" SpaceOrTab\" \"] Paragraph[Data\"a\" LineEnding\"%0A\" \
        SpaceOrTab\"    \" BlockQuotePrefix[BlockQuoteMarker\">\" SpaceOrTab\" \"] Data\"b\"]]",
        "CodeIndented[SpaceOrTab\"    \" CodeFlowChunk\"> a\" LineEnding\"%0A\" SpaceOrTab\"    \" CodeFlowChunk\"> b\"]",
    ),
    (
        b"> # a\n    > b",
        "BlockQuote[BlockQuotePrefix[BlockQuoteMarker\">\" SpaceOrTab\" \"] HeadingAtx[HeadingAtxSequence\"#\" SpaceOrTab\" \" \
        HeadingAtxText[Data\"a\"]] LineEnding\"%0A\" SpaceOrTab\"    \" BlockQuotePrefix[BlockQuoteMarker\">\" SpaceOrTab\" \"] Paragraph[Data\"b\"]]",
        "BlockQuote[BlockQuotePrefix[BlockQuoteMarker\">\" SpaceOrTab\" \"] HeadingAtx[HeadingAtxSequence\"#\" SpaceOrTab\" \" \
        HeadingAtxText[Data\"a\"]]] LineEnding\"%0A\" CodeIndented[SpaceOrTab\"    \" CodeFlowChunk\"> b\"]",
    ),
];

/// Quotes go on where their markers stand as far to the right as their first one may.
#[test]
fn quotes_go_on_as_far_as_they_begin(rt: HostRuntime) {
    let alloc = rt.alloc();
    let on = Constructs::default();
    let off = Constructs {
        code_indented: false,
        ..on
    };
    for row in FAR {
        assert_shown(&rt, nested_with(alloc, row.0, off), row.1);
        assert_shown(&rt, nested_with(alloc, row.0, on), row.2);
    }
}

/// Tildes are read by their option alone: without it they are data, and with it whether emphasis is on or not.
#[test]
fn documents_are_read_as_their_options_say(rt: HostRuntime) {
    let alloc = rt.alloc();
    let off = Constructs::default();
    let on = Constructs {
        gfm_strikethrough: true,
        ..off
    };
    for row in READ {
        assert_shown(&rt, handed_on(rt.alloc(), row.0), row.1);
        assert_shown(&rt, nested_with(alloc, row.0, off), row.1);
    }
    for row in STRUCK {
        assert_shown(&rt, nested_with(alloc, row.0, on), row.1);
    }
    for row in ONE {
        assert_shown(&rt, nested_by(alloc, row.0, on, true), row.1);
        assert_shown(&rt, nested_by(alloc, row.0, on, false), row.2);
    }
    let alone = Constructs {
        attention: false,
        ..on
    };
    let want =
        "Paragraph[Data\"*a* \" GfmStrikethrough[GfmStrikethroughSequence\"~\" GfmStrikethroughText[Data\"b\"] GfmStrikethroughSequence\"~\"]]";
    assert_shown(&rt, nested_with(alloc, b"*a* ~b~", alone), want);
}

/// The events of a document without containers.
fn leaf_blocks(alloc: Global, bytes: &[u8]) -> Result<String, AllocError>
    requires limit { IsWithinLimit 4 bytes.now }
{
    let events = read_leaf_blocks(alloc, bytes, &ParseOptions::default(), &[])?;
    spans_of(alloc, bytes, events.as_slice())
}

/// The events of a document that is read as one text.
fn text(alloc: Global, bytes: &[u8]) -> Result<String, AllocError>
    requires limit { IsWithinLimit 4 bytes.now }
{
    let options = options_with(Constructs::default(), TabSize::default());
    let events = text_events_of(alloc, bytes, &options)?;
    spans_of(alloc, bytes, events.as_slice())
}

/// The events of these ranges of a document, read as one text, if they can be.
fn text_in(alloc: Global, bytes: &[u8], ranges: &[ByteRange]) -> Result<String, AllocError>
    requires limit { IsWithinLimit 4 bytes.now }
{
    if !are_ranges(bytes, ranges) {
        return String::from_str(alloc, "no ranges");
    }
    let events = text_events_in(alloc, bytes, &ParseOptions::default(), ranges)?;
    spans_of(alloc, bytes, events.as_slice())
}

/// Ranges of a quote that are no text: what is left out does not begin a line; one begins in another; and one ends behind the document.
const NO_RANGES: [[ByteRange; 2]; 3] = [
    [ByteRange { from: 2, to: 4 }, ByteRange { from: 7, to: 9 }],
    [ByteRange { from: 2, to: 5 }, ByteRange { from: 4, to: 9 }],
    [ByteRange { from: 2, to: 5 }, ByteRange { from: 7, to: 10 }],
];

/// Emphasis stands in its block. Where containers are not read, a quote's marker is text. A code span is read over two lines, and over two lines of a
/// quote, whose prefixes are in no range.
#[test]
fn leaf_blocks_and_ranges_are_read(rt: HostRuntime) {
    let alloc = rt.alloc();
    let want =
        "HeadingSetext[HeadingSetextText[Emphasis[EmphasisSequence\"*\" EmphasisText[Data\"a\"] EmphasisSequence\"*\"]] \
        LineEnding\"%0A\" HeadingSetextUnderline[HeadingSetextUnderlineSequence\"=\"]] LineEnding\"%0A\" Paragraph[Data\"> b\"]";
    assert_shown(&rt, leaf_blocks(alloc, b"*a*\n=\n> b"), want);
    let want =
        "CodeText[CodeTextSequence\"`\" CodeTextData\"a\" LineEnding\"%0A\" CodeTextData\"b\" CodeTextSequence\"`\"]";
    assert_shown(&rt, text(alloc, b"`a\nb`"), want);
    let quoted = b"> `a\n> b`";
    let ranges = [ByteRange { from: 2, to: 5 }, ByteRange { from: 7, to: 9 }];
    assert_shown(&rt, text_in(alloc, quoted, &ranges), want);
    assert_shown(&rt, text_in(alloc, quoted, &[]), "");
    for ranges in &NO_RANGES {
        assert_shown(&rt, text_in(alloc, quoted, ranges), "no ranges");
    }
}

/// Machines, and whether each links its chunks of text.
const LINKING: &[(Which, bool)] = &[
    (Which::Paragraphs, true),
    (Which::Text, true),
    (Which::Flow, true),
    (Which::Document, true),
    (Which::Lines, false),
    (Which::Peek, false),
    (Which::Deep, false),
    (Which::Back, false),
    (Which::Save, false),
];

/// Four machines link their chunks of text. The longest document by tab stops at every four columns.
#[test]
fn choices_are_known_before_reading(rt: HostRuntime) {
    for (machine, links) in LINKING {
        assert!(rt; links_text(*machine) == *links);
    }
    assert!(rt; limit_of(TabSize::default()) == 4_611_686_018_427_387_903);
}
