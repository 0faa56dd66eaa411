//! Calls of the functions, as a program in C makes them: each that takes memory, with enough of it. What they do in every room, by each bit and each
//! code, and how long fields are, is tested from C and from Rust, over the library as it is built (`bindings/c`, `bindings/rust`).

use crate::bytes::limecove_document_bytes;
use crate::choose::{
    ALL_CONSTRUCTS, BLOCK_QUOTE, COMMONMARK, HTML_CONSTRUCTS, HTML_OPTIONS_SIZE, HtmlOptions,
    OPTIONS_SIZE, Options, TEXT_OPTIONS_SIZE, TextOptions,
};
use crate::code::{NO_SUCH_BYTES, READ};
use crate::document::Document;
use crate::editing::{
    limecove_document_close, limecove_document_events, limecove_document_new,
    limecove_document_others, limecove_document_replace,
};
use crate::edits::{Changed, Named};
use crate::html::limecove_html;
use crate::kept::Reading;
use crate::labels::{
    Defined, limecove_document_definition_of, limecove_is_label, limecove_normalized_label,
};
use crate::record::{NO_INDEX, Record};
use crate::undefined::limecove_document_undefined;
use crate::{
    Answer, ended, limecove_close, limecove_copy, limecove_open, limecove_open_text,
    limecove_open_text_in, limecove_read, limecove_read_text, limecove_read_text_in,
};
use markdown::event::Name;
use mdconstructs::ranges::ByteRange;
use std::alloc::{AllocError, Global};

/// A record at a place that is not inside a tab: its kind, content, name, line, column and index, and the ends of its link.
type Row = (u16, u16, Name, usize, usize, usize, usize, usize);

/// What was in a record before a call.
const OLD: Record = Record {
    kind: 9,
    content: 9,
    name: 999,
    line: 9,
    column: 9,
    index: 9,
    vs: 9,
    previous: 9,
    next: 9,
};

/// The record of a row.
fn record_of(row: &Row) -> Record {
    let (kind, content, name, line, column, index, previous, next) = *row;
    Record {
        kind,
        content,
        name: name as u32,
        line,
        column,
        index,
        vs: 0,
        previous,
        next,
    }
}

/// Whether records are those of rows, and what was there before behind them.
fn are(records: &[Record], rows: &[Row]) -> bool {
    for (index, record) in records.iter().enumerate() {
        let wanted = match rows.get(index) {
            Some(row) => record_of(row),
            None => OLD,
        };
        if *record != wanted {
            return false;
        }
    }
    rows.len() <= records.len()
}

/// Of `a\r\nb`, as the machine of lines reads it.
const LINES: &[Row] = &[
    (0, 0, Name::Paragraph, 1, 1, 0, NO_INDEX, NO_INDEX),
    (0, 0, Name::Data, 1, 1, 0, NO_INDEX, NO_INDEX),
    (1, 0, Name::Data, 1, 2, 1, NO_INDEX, NO_INDEX),
    (1, 0, Name::Paragraph, 1, 2, 1, NO_INDEX, NO_INDEX),
    (0, 0, Name::LineEnding, 1, 2, 1, NO_INDEX, NO_INDEX),
    (1, 0, Name::LineEnding, 2, 1, 3, NO_INDEX, NO_INDEX),
    (0, 0, Name::Paragraph, 2, 1, 3, NO_INDEX, NO_INDEX),
    (0, 0, Name::Data, 2, 1, 3, NO_INDEX, NO_INDEX),
    (1, 0, Name::Data, 2, 2, 4, NO_INDEX, NO_INDEX),
    (1, 0, Name::Paragraph, 2, 2, 4, NO_INDEX, NO_INDEX),
];

/// Of `a\nb`, as the machine of paragraphs reads it: two chunks of text, linked to each other.
const CHUNKS: &[Row] = &[
    (0, 0, Name::Paragraph, 1, 1, 0, NO_INDEX, NO_INDEX),
    (0, 4, Name::Data, 1, 1, 0, NO_INDEX, 3),
    (1, 0, Name::Data, 2, 1, 2, NO_INDEX, NO_INDEX),
    (0, 4, Name::Data, 2, 1, 2, 1, NO_INDEX),
    (1, 0, Name::Data, 2, 2, 3, NO_INDEX, NO_INDEX),
    (1, 0, Name::Paragraph, 2, 2, 3, NO_INDEX, NO_INDEX),
];

/// Of `# a`, as leaf blocks with their texts.
const HEADING: &[Row] = &[
    (0, 0, Name::HeadingAtx, 1, 1, 0, NO_INDEX, NO_INDEX),
    (0, 0, Name::HeadingAtxSequence, 1, 1, 0, NO_INDEX, NO_INDEX),
    (1, 0, Name::HeadingAtxSequence, 1, 2, 1, NO_INDEX, NO_INDEX),
    (0, 0, Name::SpaceOrTab, 1, 2, 1, NO_INDEX, NO_INDEX),
    (1, 0, Name::SpaceOrTab, 1, 3, 2, NO_INDEX, NO_INDEX),
    (0, 0, Name::HeadingAtxText, 1, 3, 2, NO_INDEX, NO_INDEX),
    (0, 0, Name::Data, 1, 3, 2, NO_INDEX, NO_INDEX),
    (1, 0, Name::Data, 1, 4, 3, NO_INDEX, NO_INDEX),
    (1, 0, Name::HeadingAtxText, 1, 4, 3, NO_INDEX, NO_INDEX),
    (1, 0, Name::HeadingAtx, 1, 4, 3, NO_INDEX, NO_INDEX),
];

/// Of `> a`, as a block quote with a paragraph.
const QUOTE: &[Row] = &[
    (0, 0, Name::BlockQuote, 1, 1, 0, NO_INDEX, NO_INDEX),
    (0, 0, Name::BlockQuotePrefix, 1, 1, 0, NO_INDEX, NO_INDEX),
    (0, 0, Name::BlockQuoteMarker, 1, 1, 0, NO_INDEX, NO_INDEX),
    (1, 0, Name::BlockQuoteMarker, 1, 2, 1, NO_INDEX, NO_INDEX),
    (0, 0, Name::SpaceOrTab, 1, 2, 1, NO_INDEX, NO_INDEX),
    (1, 0, Name::SpaceOrTab, 1, 3, 2, NO_INDEX, NO_INDEX),
    (1, 0, Name::BlockQuotePrefix, 1, 3, 2, NO_INDEX, NO_INDEX),
    (0, 0, Name::Paragraph, 1, 3, 2, NO_INDEX, NO_INDEX),
    (0, 0, Name::Data, 1, 3, 2, NO_INDEX, NO_INDEX),
    (1, 0, Name::Data, 1, 4, 3, NO_INDEX, NO_INDEX),
    (1, 0, Name::Paragraph, 1, 4, 3, NO_INDEX, NO_INDEX),
    (1, 0, Name::BlockQuote, 1, 4, 3, NO_INDEX, NO_INDEX),
];

/// Of three bytes that begin nothing, or nothing that is on: a paragraph.
const PARAGRAPH: &[Row] = &[
    (0, 0, Name::Paragraph, 1, 1, 0, NO_INDEX, NO_INDEX),
    (0, 0, Name::Data, 1, 1, 0, NO_INDEX, NO_INDEX),
    (1, 0, Name::Data, 1, 4, 3, NO_INDEX, NO_INDEX),
    (1, 0, Name::Paragraph, 1, 4, 3, NO_INDEX, NO_INDEX),
];

/// Of `a@b.c`, as a paragraph with a literal.
const LITERAL: &[Row] = &[
    (0, 0, Name::Paragraph, 1, 1, 0, NO_INDEX, NO_INDEX),
    (
        0,
        0,
        Name::GfmAutolinkLiteralEmail,
        1,
        1,
        0,
        NO_INDEX,
        NO_INDEX,
    ),
    (
        1,
        0,
        Name::GfmAutolinkLiteralEmail,
        1,
        6,
        5,
        NO_INDEX,
        NO_INDEX,
    ),
    (1, 0, Name::Paragraph, 1, 6, 5, NO_INDEX, NO_INDEX),
];

/// Of `- [x] a`, as an item with a check.
const CHECKED: &[Row] = &[
    (0, 0, Name::ListUnordered, 1, 1, 0, NO_INDEX, NO_INDEX),
    (0, 0, Name::ListItem, 1, 1, 0, NO_INDEX, NO_INDEX),
    (0, 0, Name::ListItemPrefix, 1, 1, 0, NO_INDEX, NO_INDEX),
    (0, 0, Name::ListItemMarker, 1, 1, 0, NO_INDEX, NO_INDEX),
    (1, 0, Name::ListItemMarker, 1, 2, 1, NO_INDEX, NO_INDEX),
    (0, 0, Name::SpaceOrTab, 1, 2, 1, NO_INDEX, NO_INDEX),
    (1, 0, Name::SpaceOrTab, 1, 3, 2, NO_INDEX, NO_INDEX),
    (1, 0, Name::ListItemPrefix, 1, 3, 2, NO_INDEX, NO_INDEX),
    (0, 0, Name::Paragraph, 1, 3, 2, NO_INDEX, NO_INDEX),
    (
        0,
        0,
        Name::GfmTaskListItemCheck,
        1,
        3,
        2,
        NO_INDEX,
        NO_INDEX,
    ),
    (
        0,
        0,
        Name::GfmTaskListItemMarker,
        1,
        3,
        2,
        NO_INDEX,
        NO_INDEX,
    ),
    (
        1,
        0,
        Name::GfmTaskListItemMarker,
        1,
        4,
        3,
        NO_INDEX,
        NO_INDEX,
    ),
    (
        0,
        0,
        Name::GfmTaskListItemValueChecked,
        1,
        4,
        3,
        NO_INDEX,
        NO_INDEX,
    ),
    (
        1,
        0,
        Name::GfmTaskListItemValueChecked,
        1,
        5,
        4,
        NO_INDEX,
        NO_INDEX,
    ),
    (
        0,
        0,
        Name::GfmTaskListItemMarker,
        1,
        5,
        4,
        NO_INDEX,
        NO_INDEX,
    ),
    (
        1,
        0,
        Name::GfmTaskListItemMarker,
        1,
        6,
        5,
        NO_INDEX,
        NO_INDEX,
    ),
    (
        1,
        0,
        Name::GfmTaskListItemCheck,
        1,
        6,
        5,
        NO_INDEX,
        NO_INDEX,
    ),
    (0, 0, Name::Data, 1, 6, 5, NO_INDEX, NO_INDEX),
    (1, 0, Name::Data, 1, 8, 7, NO_INDEX, NO_INDEX),
    (1, 0, Name::Paragraph, 1, 8, 7, NO_INDEX, NO_INDEX),
    (1, 0, Name::ListItem, 1, 8, 7, NO_INDEX, NO_INDEX),
    (1, 0, Name::ListUnordered, 1, 8, 7, NO_INDEX, NO_INDEX),
];

/// Of a header row and a delimiter row of one cell, as a table.
const TABLE: &[Row] = &[
    (0, 0, Name::GfmTable, 1, 1, 0, NO_INDEX, NO_INDEX),
    (0, 0, Name::GfmTableHead, 1, 1, 0, NO_INDEX, NO_INDEX),
    (0, 0, Name::GfmTableRow, 1, 1, 0, NO_INDEX, NO_INDEX),
    (0, 0, Name::GfmTableCell, 1, 1, 0, NO_INDEX, NO_INDEX),
    (0, 0, Name::GfmTableCellDivider, 1, 1, 0, NO_INDEX, NO_INDEX),
    (1, 0, Name::GfmTableCellDivider, 1, 2, 1, NO_INDEX, NO_INDEX),
    (0, 0, Name::GfmTableCellText, 1, 2, 1, NO_INDEX, NO_INDEX),
    (0, 0, Name::Data, 1, 2, 1, NO_INDEX, NO_INDEX),
    (1, 0, Name::Data, 1, 3, 2, NO_INDEX, NO_INDEX),
    (1, 0, Name::GfmTableCellText, 1, 3, 2, NO_INDEX, NO_INDEX),
    (0, 0, Name::GfmTableCellDivider, 1, 3, 2, NO_INDEX, NO_INDEX),
    (1, 0, Name::GfmTableCellDivider, 1, 4, 3, NO_INDEX, NO_INDEX),
    (1, 0, Name::GfmTableCell, 1, 4, 3, NO_INDEX, NO_INDEX),
    (1, 0, Name::GfmTableRow, 1, 4, 3, NO_INDEX, NO_INDEX),
    (0, 0, Name::LineEnding, 1, 4, 3, NO_INDEX, NO_INDEX),
    (1, 0, Name::LineEnding, 2, 1, 4, NO_INDEX, NO_INDEX),
    (
        0,
        0,
        Name::GfmTableDelimiterRow,
        2,
        1,
        4,
        NO_INDEX,
        NO_INDEX,
    ),
    (
        0,
        0,
        Name::GfmTableDelimiterCell,
        2,
        1,
        4,
        NO_INDEX,
        NO_INDEX,
    ),
    (0, 0, Name::GfmTableCellDivider, 2, 1, 4, NO_INDEX, NO_INDEX),
    (1, 0, Name::GfmTableCellDivider, 2, 2, 5, NO_INDEX, NO_INDEX),
    (
        0,
        0,
        Name::GfmTableDelimiterCellValue,
        2,
        2,
        5,
        NO_INDEX,
        NO_INDEX,
    ),
    (
        0,
        0,
        Name::GfmTableDelimiterFiller,
        2,
        2,
        5,
        NO_INDEX,
        NO_INDEX,
    ),
    (
        1,
        0,
        Name::GfmTableDelimiterFiller,
        2,
        3,
        6,
        NO_INDEX,
        NO_INDEX,
    ),
    (
        1,
        0,
        Name::GfmTableDelimiterCellValue,
        2,
        3,
        6,
        NO_INDEX,
        NO_INDEX,
    ),
    (0, 0, Name::GfmTableCellDivider, 2, 3, 6, NO_INDEX, NO_INDEX),
    (1, 0, Name::GfmTableCellDivider, 2, 4, 7, NO_INDEX, NO_INDEX),
    (
        1,
        0,
        Name::GfmTableDelimiterCell,
        2,
        4,
        7,
        NO_INDEX,
        NO_INDEX,
    ),
    (
        1,
        0,
        Name::GfmTableDelimiterRow,
        2,
        4,
        7,
        NO_INDEX,
        NO_INDEX,
    ),
    (1, 0, Name::GfmTableHead, 2, 4, 7, NO_INDEX, NO_INDEX),
    (1, 0, Name::GfmTable, 2, 4, 7, NO_INDEX, NO_INDEX),
];

/// Documents, the constructs that are on, the cut, the machine, whether its chunks are read too, and the events. The machine of documents, 8, reads
/// block quotes, also where the document is to be cut; that of leaf blocks, 7, has none.
const READS: &[(&[u8], u64, usize, u32, u32, &[Row])] = &[
    (b"a\r\nb", 7, 0, 0, 0, LINES),
    (b"a\r\nb", 7, 1, 0, 0, LINES),
    (b"a\nb", 7, 0, 1, 0, CHUNKS),
    (b"", 7, 0, 6, 1, &[]),
    (b"# a", ALL_CONSTRUCTS, 0, 7, 1, HEADING),
    (b"# a", 7, 0, 7, 1, PARAGRAPH),
    (b"> a", BLOCK_QUOTE, 0, 8, 1, QUOTE),
    (b"> a", BLOCK_QUOTE, 1, 8, 1, QUOTE),
    (b"> a", BLOCK_QUOTE, 0, 7, 1, PARAGRAPH),
    (b"> a", 7, 0, 8, 1, PARAGRAPH),
    (b"> a", HTML_CONSTRUCTS, 1, 8, 1, QUOTE),
    (b"a@b.c", HTML_CONSTRUCTS, 0, 8, 1, LITERAL),
    (b"- [x] a", HTML_CONSTRUCTS, 0, 8, 1, CHECKED),
    (b"|a|\n|-|", HTML_CONSTRUCTS, 0, 8, 1, TABLE),
];

/// Whether a document is read into records, and by a reading, which is closed then.
fn is_read(alloc: Global, document: &[u8], options: &Options, rows: &[Row]) -> bool {
    let (mut records, mut copied) = ([OLD; 32], [OLD; 32]);
    let mut reading = Reading::closed();
    let answer = limecove_read(alloc, document, options, &mut records);
    let opened = limecove_open(alloc, document, options, &mut reading);
    let written = limecove_copy(alloc, &mut reading, 0, &mut copied);
    limecove_close(alloc, &mut reading);
    answer == ended(READ, rows.len())
        && are(&records, rows)
        && opened == answer
        && written == rows.len()
        && are(&copied, rows)
        && reading.is_open == 0
}

#[test]
fn documents_are_read(rt: HostRuntime) {
    for &(document, constructs, cut, machine, deep, rows) in READS {
        let options = Options {
            size: OPTIONS_SIZE,
            tab_size: 4,
            constructs,
            cut,
            machine,
            deep,
        };
        assert!(rt; is_read(rt.alloc(), document, &options, rows));
    }
}

/// Text with all constructs of CommonMark, and tab stops at every 4 columns.
const TEXT: TextOptions = TextOptions {
    size: TEXT_OPTIONS_SIZE,
    tab_size: 0,
    constructs: COMMONMARK,
};

/// Text with autolinks and escapes alone.
const NO_CODE: TextOptions = TextOptions {
    size: TEXT_OPTIONS_SIZE,
    tab_size: 4,
    constructs: 6,
};

/// Of `` `a` ``, as text.
const CODE: &[Row] = &[
    (0, 0, Name::CodeText, 1, 1, 0, NO_INDEX, NO_INDEX),
    (0, 0, Name::CodeTextSequence, 1, 1, 0, NO_INDEX, NO_INDEX),
    (1, 0, Name::CodeTextSequence, 1, 2, 1, NO_INDEX, NO_INDEX),
    (0, 0, Name::CodeTextData, 1, 2, 1, NO_INDEX, NO_INDEX),
    (1, 0, Name::CodeTextData, 1, 3, 2, NO_INDEX, NO_INDEX),
    (0, 0, Name::CodeTextSequence, 1, 3, 2, NO_INDEX, NO_INDEX),
    (1, 0, Name::CodeTextSequence, 1, 4, 3, NO_INDEX, NO_INDEX),
    (1, 0, Name::CodeText, 1, 4, 3, NO_INDEX, NO_INDEX),
];

/// Of `` `a` ``, as text without code spans: data ends before a backtick.
const PLAIN: &[Row] = &[
    (0, 0, Name::Data, 1, 1, 0, NO_INDEX, NO_INDEX),
    (1, 0, Name::Data, 1, 3, 2, NO_INDEX, NO_INDEX),
    (0, 0, Name::Data, 1, 3, 2, NO_INDEX, NO_INDEX),
    (1, 0, Name::Data, 1, 4, 3, NO_INDEX, NO_INDEX),
];

/// All of `` `a` ``, in two ranges.
const RANGES: [ByteRange; 2] = [ByteRange { from: 0, to: 2 }, ByteRange { from: 2, to: 3 }];

/// Whether `` `a` `` is read as text, whole and in ranges, into records.
fn is_text_read(alloc: Global, options: &TextOptions, rows: &[Row]) -> bool {
    let (mut whole, mut in_ranges) = ([OLD; 12], [OLD; 12]);
    let of_whole = limecove_read_text(alloc, b"`a`", options, &mut whole);
    let of_ranges = limecove_read_text_in(alloc, b"`a`", &RANGES, options, &mut in_ranges);
    of_whole == ended(READ, rows.len())
        && of_ranges == of_whole
        && are(&whole, rows)
        && are(&in_ranges, rows)
}

/// Whether a reading of `` `a` `` as text, whole or in ranges, has its events.
fn is_text_kept(alloc: Global, whole: bool) -> bool {
    let mut records = [OLD; 12];
    let mut reading = Reading::closed();
    let opened = if whole {
        limecove_open_text(alloc, b"`a`", &TEXT, &mut reading)
    } else {
        limecove_open_text_in(alloc, b"`a`", &RANGES, &TEXT, &mut reading)
    };
    let written = limecove_copy(alloc, &mut reading, 0, &mut records);
    limecove_close(alloc, &mut reading);
    opened == ended(READ, 8) && written == 8 && are(&records, CODE)
}

#[test]
fn documents_are_read_as_text(rt: HostRuntime) {
    assert!(rt; is_text_read(rt.alloc(), &TEXT, CODE));
    assert!(rt; is_text_read(rt.alloc(), &NO_CODE, PLAIN));
    assert!(rt; is_text_kept(rt.alloc(), true) && is_text_kept(rt.alloc(), false));
}

const HTML: &[u8] = b"<h1>a <em>b</em></h1>\n<pre><code>&lt;\n</code></pre>\n";

/// Whether a document has this HTML, with tab stops at every 4 columns.
fn is_html(alloc: Global) -> bool {
    let options = HtmlOptions {
        size: HTML_OPTIONS_SIZE,
        tab_size: 0,
        constructs: COMMONMARK,
        allow: 0,
    };
    let mut out = [9; 52];
    let answer = limecove_html(alloc, b"# a *b*\n\n\t<", &options, &mut out);
    answer == ended(READ, 52) && out.as_slice() == HTML
}

#[test]
fn documents_are_html(rt: HostRuntime) {
    assert!(rt; is_html(rt.alloc()));
}

/// A heading, a link that nothing defines, and a heading.
const LINKED: &[u8] = b"# a\n\n[x]\n\n# d\n";

/// What changes as a definition comes behind the last heading: that section, and of the others the one of the link.
const CHANGED: Changed = Changed {
    from: 2,
    old_to: 3,
    new_to: 4,
    start: 10,
    end: 22,
    others: 1,
};

/// No section.
const NAMED: Named = Named { section: 9, why: 9 };

/// The heading with which the last section but one begins.
const LAST: Row = (0, 0, Name::HeadingAtx, 5, 1, 10, NO_INDEX, NO_INDEX);

/// Whether a definition that comes changes this, and the section behind that of the link begins with a heading then: it has this, a line ending and
/// a blank line.
fn is_defined(alloc: Global) -> bool {
    let mut document = Document::closed();
    let mut change = Changed { from: 9, ..CHANGED };
    let mut others = [NAMED; 2];
    let mut records = [OLD; 1];
    let made = limecove_document_new(alloc, LINKED, &TEXT, &mut document);
    let edited = limecove_document_replace(
        alloc,
        &mut document,
        14,
        14,
        b"\n[x]: y\n",
        &mut change,
    );
    let written = limecove_document_others(alloc, &mut document, 0, &mut others);
    let found = limecove_document_events(alloc, &mut document, 2, 3, &mut records);
    limecove_document_close(alloc, &mut document);
    made == ended(READ, 3)
        && edited == ended(READ, 4)
        && change == CHANGED
        && (written, others) == (1, [Named { section: 1, why: 0 }, NAMED])
        && found == ended(READ, 14)
        && are(&records, &[LAST])
}

#[test]
fn documents_are_edited(rt: HostRuntime) {
    assert!(rt; is_defined(rt.alloc()));
}

/// A link, and behind it two definitions of its label and one of another.
const LABELS: &[u8] = b"[ Stra\xC3\x9Fe ]\n\n[x]: y\n\n> [STRASSE]: a\n> 'b'\n\n[strasse]: c\n";

/// The first definition of the label.
const DEFINED: Defined = Defined {
    section: 2,
    from: 23,
    to: 41,
};

/// What was there before a call.
const UNDEFINED: Defined = Defined {
    section: 9,
    from: 9,
    to: 9,
};

/// Whether the label leads to its first definition, whose bytes are these, and another label to none.
fn is_looked_up(alloc: Global) -> bool {
    let mut document = Document::closed();
    let (mut found, mut none) = (UNDEFINED, UNDEFINED);
    let mut out = [9; 12];
    let made = limecove_document_new(alloc, LABELS, &TEXT, &mut document);
    let told = limecove_document_definition_of(alloc, &mut document, b"Stra\xC3\x9Fe", &mut found);
    let untold = limecove_document_definition_of(alloc, &mut document, b"z", &mut none);
    let copied = limecove_document_bytes(alloc, &mut document, 15, 26, &mut out);
    let behind = limecove_document_bytes(alloc, &mut document, 15, 99, &mut out);
    limecove_document_close(alloc, &mut document);
    made == ended(READ, 4)
        && (told, found) == (ended(READ, 1), DEFINED)
        && (untold, none) == (ended(READ, 0), UNDEFINED)
        && copied == ended(READ, 11)
        && behind == ended(NO_SUCH_BYTES, 0)
        && out.as_slice() == b"]: y\n\n> [ST\x09".as_slice()
}

#[test]
fn labels_are_looked_up(rt: HostRuntime) {
    assert!(rt; is_looked_up(rt.alloc()));
}

/// Whether a label has its normal form, of which four bytes fit.
fn is_normalized(alloc: Global) -> bool {
    let mut out = [9; 4];
    let made = limecove_normalized_label(alloc, b" a\n\tb\xC3\x9F ", &mut out);
    made == ended(READ, 5) && out.as_slice() == b"A BS".as_slice()
}

#[test]
fn labels_are_normalized(rt: HostRuntime) {
    assert!(rt; is_normalized(rt.alloc()));
    assert!(rt; limecove_is_label(b"a \\] b") == 1 && limecove_is_label(b"a ] b") == 0);
}

/// Structs with a value of its own in each field, as `Debug` shows them.
fn fields_shown(alloc: Global) -> Result<String, AllocError> {
    let record = Record {
        kind: 1,
        content: 2,
        name: 3,
        line: 4,
        column: 5,
        index: 6,
        vs: 7,
        previous: 8,
        next: 9,
    };
    let options = Options {
        size: 1,
        tab_size: 2,
        constructs: 3,
        cut: 4,
        machine: 5,
        deep: 6,
    };
    let html = HtmlOptions {
        size: 1,
        tab_size: 2,
        constructs: 3,
        allow: 4,
    };
    let answer = Answer {
        code: 1,
        version: 2,
        count: 3,
    };
    let (range, closed) = (ByteRange { from: 1, to: 2 }, Reading::closed());
    format!(in alloc;
        "{record:?}, {options:?}, {TEXT:?}, {html:?}, {answer:?}, {range:?}, {closed:?}"
    )
}

/// `Debug` shows fields in the order of the source, and `#[repr(C)]` lays them out in it.
#[test]
fn fields_lie_in_their_order(rt: HostRuntime) {
    let want =
        "Record { kind: 1, content: 2, name: 3, line: 4, column: 5, index: 6, vs: 7, previous: 8, next: 9 }, \
        Options { size: 1, tab_size: 2, constructs: 3, cut: 4, machine: 5, deep: 6 }, \
        TextOptions { size: 24, tab_size: 0, constructs: 1048575 }, \
        HtmlOptions { size: 1, tab_size: 2, constructs: 3, allow: 4 }, Answer { code: 1, version: 2, count: 3 }, \
        ByteRange { from: 1, to: 2 }, Reading { is_open: 0, kept: Kept }";
    let shown = fields_shown(rt.alloc()).expect(&rt, "memory");
    assert_eq!(rt; shown.as_str(), want);
}

/// References in a paragraph, in a quote over two lines, in a heading, and a definition. Not defined are `b`, `d`, `e`, what is between `g` and `h`,
/// `k` and `l`.
const REFERENCES: &[u8] =
    b"[a][b] `[c]` [d][] ![e] [f]\n\n> [g\n> h] \\[i] <http://[j]> [f](u)\n\n# [k] [ ] [f [l]]\n\n[f]: u\n";

/// Where their labels are.
const NOT_DEFINED: [ByteRange; 6] = [
    ByteRange { from: 4, to: 5 },
    ByteRange { from: 14, to: 15 },
    ByteRange { from: 21, to: 22 },
    ByteRange { from: 32, to: 37 },
    ByteRange { from: 68, to: 69 },
    ByteRange { from: 79, to: 80 },
];

/// Whether these labels are told, of all sections and of each.
fn is_undefined(alloc: Global) -> bool {
    let mut document = Document::closed();
    let made = limecove_document_new(alloc, REFERENCES, &TEXT, &mut document);
    let old = ByteRange { from: 9, to: 9 };
    let mut labels = [old; 7];
    let told = limecove_document_undefined(alloc, &mut document, 0, made.count, &mut labels);
    let mut one = [old; 1];
    let last = limecove_document_undefined(alloc, &mut document, 2, 3, &mut one);
    limecove_document_close(alloc, &mut document);
    made == ended(READ, 4)
        && told == ended(READ, 6)
        && &labels[..6] == NOT_DEFINED.as_slice()
        && labels[6] == old
        && last == ended(READ, 2)
        && one[0] == NOT_DEFINED[4]
}

#[test]
fn undefined_labels_are_told(rt: HostRuntime) {
    assert!(rt; is_undefined(rt.alloc()));
}
