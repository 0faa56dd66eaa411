//! Tests of the examples of the pages, with expected lines worked by hand.

ghost use Rattle.std.specs.Prelude.{◌<◌, Contains};
ghost use Rattle.markdown.specs.Presets.{default_parse_options};
ghost use Rattle.markdown.specs.Engine.{given_by};
ghost use Rattle.markdown.specs.Virtual.{IsWithinLimit};

use crate::shown::assert_shown;
use markdown::configuration::ParseOptions;
use markdown::event::{Event, Kind, Point};
use markdown::parser::ParseState;
use markdown::state::{Machine, Name};
use markdown::tokenizer::{Fault, run};
use mdexamples::fields::{Fields, LentFields};
use mdexamples::headings::Headings;
use mdexamples::labels::Labels;
use mdexamples::spans::code_spans;
use mdexamples::text_lines::TextLines;
use mdexamples::texts::texts_of_spans;
use mdtests_base::documents::lines_by;
use std::alloc::{AllocError, Global};

/// The code spans of a document that is pushed in ranges of this size.
fn spans_of(alloc: Global, bytes: &[u8], size: usize) -> Result<String, AllocError>
    requires { 0 < size }
{
    match code_spans(alloc, bytes, size) {
        Ok(Some(text)) => Ok(text),
        Ok(None) => Err(AllocError),
        Err(_) => Err(AllocError),
    }
}

/// Documents, the size of the ranges, and the lines. The marker with which the first code span begins is dropped: two of 34 events.
const SPANS: &[(&[u8], usize, &str)] = &[
    (
        b"See `x`\nand\t``y`\nz``.\n",
        1,
        "1:5 to 1:8\n2:5 to 3:4\n32 events\n",
    ),
    (
        b"See `x`\nand\t``y`\nz``.\n",
        3,
        "1:5 to 1:8\n2:5 to 3:4\n32 events\n",
    ),
    (
        b"See `x`\nand\t``y`\nz``.\n",
        100,
        "1:5 to 1:8\n2:5 to 3:4\n32 events\n",
    ),
    (b"", 1, "0 events\n"),
];

#[test]
fn code_spans_are_listed_however_the_document_is_cut(rt: HostRuntime) {
    for &(bytes, size, want) in SPANS {
        assert!(rt; size > 0);
        assert_shown(&rt, spans_of(rt.alloc(), bytes, size), want);
    }
}

/// The texts of the code spans and autolinks of a document, a line each.
fn texts_of(alloc: Global, bytes: &[u8]) -> Result<String, AllocError>
    requires limit { IsWithinLimit 4 bytes.now }
{
    let options = ParseOptions::default();
    let Ok(texts) = texts_of_spans(alloc, bytes, &options) else {
        return Err(AllocError);
    };
    let mut lines = String::new(alloc);
    for text in texts.as_slice() {
        match str::from_utf8(text) {
            Ok(text) => writeln!(lines, "{text}")?,
            Err(_) => return Err(AllocError),
        }
    }
    Ok(lines)
}

#[test]
fn texts_of_spans_have_their_markers(rt: HostRuntime) {
    let document = b"See `x` and\t``y` z`` at <http://a.b>.";
    assert!(rt; document.len() < 99);
    assert_shown(
        &rt,
        texts_of(rt.alloc(), document),
        "`x`\n``y` z``\n<http://a.b>\n",
    );
}

/// The events of a document, a line each, as `enter Data 1:1`.
fn lines_of<M: Machine>(
    alloc: Global,
    machine: &M,
    start: Name,
    bytes: &[u8],
) -> Result<String, AllocError>
    requires start { Contains (M.rules machine.now (given_by bytes.now default_parse_options)).starts start }
{
    let options = ParseOptions::default();
    let Some(document) = ParseState::new(bytes, &options, machine) else {
        return Err(AllocError);
    };
    match run(alloc, &document, start, &[], false) {
        Ok((events, _)) => lines(alloc, events.as_slice()),
        Err(fault) => refused(alloc, &fault),
    }
}

/// Why a document was not read.
fn refused(alloc: Global, fault: &Fault) -> Result<String, AllocError> {
    fault.to_string(alloc)
}

/// The lines of events.
fn lines(alloc: Global, events: &[Event]) -> Result<String, AllocError> {
    let mut text = String::new(alloc);
    for event in events {
        let kind = match event.kind {
            Kind::Enter => "enter",
            Kind::Exit => "exit",
        };
        let name = event.name.as_str();
        let Point { line, column, .. } = event.point;
        writeln!(text, "{kind} {name} {line}:{column}")?;
    }
    Ok(text)
}

#[test]
fn headings_have_up_to_six_signs(rt: HostRuntime) {
    let made = lines_of(rt.alloc(), &Headings {}, Name::FlowStart, b"#a\n#######\nb");
    assert_shown(
        &rt,
        made,
        "enter HeadingAtx 1:1\n\
        enter HeadingAtxSequence 1:1\n\
        exit HeadingAtxSequence 1:2\n\
        enter Data 1:2\n\
        exit Data 1:3\n\
        exit HeadingAtx 1:3\n\
        enter LineEnding 1:3\n\
        exit LineEnding 2:1\n\
        enter HeadingAtx 2:1\n\
        enter HeadingAtxSequence 2:1\n\
        exit HeadingAtxSequence 2:7\n\
        enter Data 2:7\n\
        exit Data 2:8\n\
        exit HeadingAtx 2:8\n\
        enter LineEnding 2:8\n\
        exit LineEnding 3:1\n\
        enter Data 3:1\n\
        exit Data 3:2\n",
    );
}

/// The events of `a[b]\n[c`.
const LABELS: &str = "enter Data 1:1\n\
    exit Data 1:2\n\
    enter Label 1:2\n\
    enter LabelMarker 1:2\n\
    exit LabelMarker 1:3\n\
    enter LabelMarker 1:4\n\
    exit LabelMarker 1:5\n\
    exit Label 1:5\n\
    enter LineEnding 1:5\n\
    exit LineEnding 2:1\n\
    enter Data 2:1\n\
    exit Data 2:3\n";

/// The events of `a;|b,` where `;` and `|` divide it. A comma is data.
const DIVIDED: &str = "enter Data 1:1\n\
    exit Data 1:2\n\
    enter GfmTableCellDivider 1:2\n\
    exit GfmTableCellDivider 1:3\n\
    enter GfmTableCellDivider 1:3\n\
    exit GfmTableCellDivider 1:4\n\
    enter Data 1:4\n\
    exit Data 1:6\n";

/// The events of `a;|b,` where the machine owns its dividers.
fn owned_fields(alloc: Global) -> Result<String, AllocError> {
    let dividers = Vec::from_array(alloc, [b';', b'|'])?;
    lines_of(alloc, &Fields { dividers }, Name::TextStart, b"a;|b,")
}

/// Labels end in their line; dividers are bytes that the machine owns, or that it was lent.
#[test]
fn labels_and_fields_are_read(rt: HostRuntime) {
    let alloc = rt.alloc();
    let made = lines_of(alloc, &Labels {}, Name::TextBefore, b"a[b]\n[c");
    assert_shown(&rt, made, LABELS);
    assert_shown(&rt, owned_fields(alloc), DIVIDED);
    let lent = LentFields { dividers: b"|;" };
    let made = lines_of(alloc, &lent, Name::TextStart, b"a;|b,");
    assert_shown(&rt, made, DIVIDED);
}

/// The events of three lines, each read as text: a code span; and two lines in which a run of backticks has no other one in its line.
const TEXT_LINES: &str =
    "enter CodeText 1:1 (0+0); CodeTextSequence 1:1 (0+0) to 1:2 (1+0); CodeTextData 1:2 (1+0) to 1:3 (2+0); \
    CodeTextSequence 1:3 (2+0) to 1:4 (3+0); exit CodeText 1:4 (3+0); LineEnding 1:4 (3+0) to 2:1 (4+0); \
    Data 2:1 (4+0) to 2:3 (6+0); LineEnding 2:3 (6+0) to 3:1 (7+0); \
    Data 3:1 (7+0) to 3:2 (8+0); Data 3:2 (8+0) to 3:3 (9+0)";

/// The chunks of the same lines, before another machine reads them.
const CHUNKS: &str =
    "Data 1:1 (0+0) Text None None to 1:4 (3+0); LineEnding 1:4 (3+0) to 2:1 (4+0); \
    Data 2:1 (4+0) Text None None to 2:3 (6+0); LineEnding 2:3 (6+0) to 3:1 (7+0); \
    Data 3:1 (7+0) Text None None to 3:3 (9+0)";

/// A resolver reads the chunks of its machine by another machine, however the document is cut.
#[test]
fn lines_are_read_by_another_machine(rt: HostRuntime) {
    let start = Name::FlowStart;
    for cut in [1, 5, 99] {
        let read = lines_by(rt.alloc(), &TextLines {}, start, b"`a`\n`b\nc`", cut, true);
        assert_shown(&rt, read, TEXT_LINES);
    }
    let chunks = lines_by(rt.alloc(), &TextLines {}, start, b"`a`\n`b\nc`", 99, false);
    assert_shown(&rt, chunks, CHUNKS);
}
