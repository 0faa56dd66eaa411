//! Calls of the program, over a system, a reader and a writer for tests: the status, what is written, and what is shown on standard
//! error.

use crate::written::{TWO_LINES, choice};
use markdown::configuration::TabSize;
use mdevents_program::arguments::{Which, read_words};
use mdevents_program::call::{answer_call, answer_choice, answer_words, words_of};
use mdevents_program::failure::Failure;
use mdtests_fakes::ended::Ended;
use mdtests_fakes::readers::{ALL, FailingReader};
use mdtests_fakes::systems::CalledWith;
use mdtests_fakes::writers::FailingWriter;
use std::alloc::Global;
use std::io::ErrorKind;

/// Whether the program's arguments choose this, and nothing fails.
fn chooses(
    alloc: Global,
    words: &[&[u8]],
    cut: usize,
    deep: bool,
    machine: Which,
    tab: usize,
) -> bool {
    let Some(tab) = TabSize::new(tab) else {
        return false;
    };
    let system = (CalledWith::new(words), alloc);
    let Ok(Some(words)) = words_of(&system) else {
        return false;
    };
    read_words(words.as_slice()) == Some(choice(cut, deep, machine, tab))
}

/// Arguments, and what they choose: the cut, whether chunks are read too, the machine and the tab size.
const CHOSEN: &[(&[&[u8]], usize, bool, Which, usize)] = &[
    (&[b"mdevents"], 0, false, Which::Lines, 4),
    (
        &[b"mdevents", b"--tab", b"16", b"--machine", b"lines"],
        0,
        false,
        Which::Lines,
        16,
    ),
    (
        &[
            b"mdevents",
            b"--tab",
            b"16",
            b"--deep",
            b"--machine",
            b"paragraphs",
        ],
        0,
        true,
        Which::Paragraphs,
        16,
    ),
    (
        &[b"mdevents", b"--tab", b"16", b"--machine", b"peek"],
        0,
        false,
        Which::Peek,
        16,
    ),
    (
        &[b"mdevents", b"--machine", b"deep", b"--tab", b"16"],
        0,
        false,
        Which::Deep,
        16,
    ),
    (
        &[b"mdevents", b"--machine", b"back", b"--tab", b"16"],
        0,
        false,
        Which::Back,
        16,
    ),
    (
        &[b"mdevents", b"--machine", b"save", b"--tab", b"16"],
        0,
        false,
        Which::Save,
        16,
    ),
    (
        &[
            b"mdevents",
            b"--machine",
            b"text",
            b"--tab",
            b"16",
            b"--deep",
        ],
        0,
        true,
        Which::Text,
        16,
    ),
    (
        &[
            b"mdevents",
            b"--machine",
            b"paragraphs",
            b"--tab",
            b"4",
            b"--deep",
            b"--cut",
            b"1",
        ],
        1,
        true,
        Which::Paragraphs,
        4,
    ),
    (
        &[
            b"mdevents",
            b"--deep",
            b"--machine",
            b"flow",
            b"--tab",
            b"16",
        ],
        0,
        true,
        Which::Flow,
        16,
    ),
    (
        &[b"mdevents", b"--machine", b"gfm", b"--deep"],
        0,
        true,
        Which::Gfm,
        4,
    ),
    (
        &[b"mdevents", b"--cut", b"2", b"--machine", b"gfm"],
        2,
        false,
        Which::Gfm,
        4,
    ),
];

/// The words may be many, and a number may have many digits.
#[test]
fn takes_the_words_after_the_name(rt: HostRuntime) {
    for &(words, cut, deep, machine, tab) in CHOSEN {
        assert!(rt; chooses(rt.alloc(), words, cut, deep, machine, tab));
    }
    let mut long = [b'0'; 985];
    long[984] = b'7';
    let words = [b"mdevents".as_slice(), b"--cut", &long];
    assert!(rt; chooses(rt.alloc(), &words, 7, false, Which::Lines, 4));
}

/// Whether the words after the name are these, byte for byte, and nothing fails.
fn has_words(alloc: Global, called: &[&[u8]]) -> bool {
    let system = (CalledWith::new(called), alloc);
    let Ok(Some(words)) = words_of(&system) else {
        return false;
    };
    let mut wanted = called.iter().skip(1);
    for word in words.iter() {
        if wanted.next().is_none_or(|it| *it != word.as_bytes()) {
            return false;
        }
    }
    wanted.next().is_none()
}

/// Words are taken as they are: with spaces, in upper case, the same again, two hyphens, no byte, and many bytes.
#[test]
fn words_are_taken_as_they_are(rt: HostRuntime) {
    let mut long = [b'x'; 3000];
    long[2999] = b'z';
    let called = [
        b"mdevents".as_slice(),
        b"--",
        b"--MACHINE",
        b" --deep ",
        b"flow ",
        b"",
        b"--deep",
        b"--deep",
        b"a  b\t",
        &long,
        b"\xc3\xa9",
    ];
    assert!(rt; has_words(rt.alloc(), &called));
}

/// Calls the program with these arguments, over a document. The read and the write after this many good ones fail. The read then returns
/// the error after which Rust's own loops try again; so does the write, or it takes nothing.
fn call(
    alloc: Global,
    words: &[&[u8]],
    rest: &[u8],
    good_reads: usize,
    good_writes: usize,
    takes_nothing: bool,
) -> Ended {
    let system = (CalledWith::new(words), alloc);
    let mut reader = FailingReader::new(rest, good_reads, ErrorKind::Interrupted);
    let mut writer = FailingWriter::new(good_writes, takes_nothing);
    let status = answer_call(&system, &mut reader, &mut writer);
    Ended::of(status, &writer, &system.0)
}

const USAGE_SHOWN: &[u8] = b"usage: mdevents [--cut n] [--deep] [--machine name] [--tab n]\n";

const PARAGRAPH: &[u8] =
    b"enter Paragraph 1:1 (0+0)\nenter Data 1:1 (0+0)\nexit Data 1:3 (2+0)\nexit Paragraph 1:3 (2+0)\n";

const DATA: &[u8] = b"enter Data 1:1 (0+0)\nexit Data 1:3 (2+0)\n";

/// With tab stops at every eight columns, a code span behind a tab.
const CODE_BEHIND_A_TAB: &[u8] =
    b"enter Paragraph 1:1 (0+0)\nenter Data 1:1 (0+0)\nexit Data 1:9 (1+0)\nenter CodeText 1:9 (1+0)\nenter CodeTextSequence 1:9 (1+0)\nexit CodeTextSequence 1:10 (2+0)\nenter CodeTextData 1:10 (2+0)\nexit CodeTextData 1:11 (3+0)\nenter CodeTextSequence 1:11 (3+0)\nexit CodeTextSequence 1:12 (4+0)\nexit CodeText 1:12 (4+0)\nexit Paragraph 1:12 (4+0)\n";

/// Arguments, the status, what is written for `ab`, and what is shown on standard error.
const CALLS: &[(&[&[u8]], u8, &[u8], &[u8])] = &[
    (&[b"mdevents"], 0, PARAGRAPH, b""),
    (&[b"--cut"], 0, PARAGRAPH, b""),
    (
        &[b"mdevents", b"--cut", b"18446744073709551615"],
        0,
        PARAGRAPH,
        b"",
    ),
    (
        &[b"mdevents", b"--machine", b"paragraphs", b"--deep"],
        0,
        PARAGRAPH,
        b"",
    ),
    (
        &[b"mdevents", b"--cut", b"016", b"--machine", b"peek"],
        0,
        DATA,
        b"",
    ),
    (
        &[b"mdevents", b"--machine", b"deep", b"--cut", b"1"],
        0,
        DATA,
        b"",
    ),
    (&[b"mdevents", b"--machine", b"save"], 0, b"", b""),
    (
        &[b"mdevents", b"--machine", b"text", b"--tab", b"16"],
        0,
        PARAGRAPH,
        b"",
    ),
    (
        &[
            b"mdevents",
            b"--machine",
            b"flow",
            b"--deep",
            b"--cut",
            b"1",
        ],
        0,
        PARAGRAPH,
        b"",
    ),
    (&[b"--cut", b"2"], 2, b"", USAGE_SHOWN),
    (&[b"mdevents", b"--cut"], 2, b"", USAGE_SHOWN),
    (&[b"mdevents", b"--cut", b"0"], 2, b"", USAGE_SHOWN),
    (&[b"mdevents", b"--cut", b"+1"], 2, b"", USAGE_SHOWN),
    (
        &[b"mdevents", b"--cut", b"18446744073709551616"],
        2,
        b"",
        USAGE_SHOWN,
    ),
    (
        &[b"mdevents", b"--cut", b"2", b"--cut", b"2"],
        2,
        b"",
        USAGE_SHOWN,
    ),
    (&[b"mdevents", b"--tab", b"0"], 2, b"", USAGE_SHOWN),
    (&[b"mdevents", b"--tab", b"17"], 2, b"", USAGE_SHOWN),
    (&[b"mdevents", b"--machine", b"forth"], 2, b"", USAGE_SHOWN),
    (&[b"mdevents", b"--deep"], 2, b"", USAGE_SHOWN),
    (
        &[
            b"mdevents",
            b"--machine",
            b"text",
            b"--deep",
            b"--tab",
            b"4",
            b"--cut",
            b"1",
            b"x",
        ],
        2,
        b"",
        USAGE_SHOWN,
    ),
    (
        &[b"mdevents", b"--machine", b"lines", b"--deep"],
        2,
        b"",
        USAGE_SHOWN,
    ),
    (&[b"mdevents", b""], 2, b"", USAGE_SHOWN),
    (&[b"mdevents", b"\xff"], 2, b"", USAGE_SHOWN),
];

#[test]
fn does_what_the_words_choose(rt: HostRuntime) {
    for &(words, status, written, shown) in CALLS {
        let ended = call(rt.alloc(), words, b"ab", ALL, ALL, false);
        assert!(rt; ended.is(status, written, shown));
    }
    let words: &[&[u8]] = &[
        b"mdevents",
        b"--machine",
        b"text",
        b"--deep",
        b"--tab",
        b"8",
    ];
    let ended = call(rt.alloc(), words, b"\t`a`", ALL, ALL, false);
    assert!(rt; ended.is(0, CODE_BEHIND_A_TAB, b""));
}

/// How many reads and writes are good, the status, what is written, and what is shown. Of the document four bytes are read, one a read, and the end.
/// A body that reads again after an error succeeds too early.
const READS: &[(usize, usize, u8, &[u8], &[u8])] = &[
    (0, 0, 1, b"", b"cannot read input\n"),
    (1, 0, 1, b"", b"cannot read input\n"),
    (2, 0, 1, b"", b"cannot read input\n"),
    (3, 0, 1, b"", b"cannot read input\n"),
    (4, 0, 1, b"", b"cannot read input\n"),
    (5, ALL, 0, TWO_LINES, b""),
];

#[test]
fn each_read_fails_in_turn(rt: HostRuntime) {
    for &(reads, writes, status, written, shown) in READS {
        let ended = call(rt.alloc(), &[b"mdevents"], b"a\r\nb", reads, writes, false);
        assert!(rt; ended.is(status, written, shown));
    }
}

/// A beginning is written, of a byte a write. A body that writes again after a failure succeeds too early.
#[test]
fn each_write_fails_in_turn(rt: HostRuntime) {
    for takes_nothing in [false, true] {
        for good in 0..TWO_LINES.len() {
            let ended = call(
                rt.alloc(),
                &[b"mdevents"],
                b"a\r\nb",
                ALL,
                good,
                takes_nothing,
            );
            assert!(rt; ended.is(1, &TWO_LINES[..good], b"cannot write output\n"));
        }
    }
}

/// Whether a failure to get the arguments is shown as this line.
fn shows(alloc: Global, failure: Failure, line: &[u8]) -> bool {
    let system = (CalledWith::new(&[b"mdevents"]), alloc);
    let mut reader = b"ab".as_slice();
    let mut written = Vec::new(alloc);
    let _ = answer_choice(&system, Err(failure), &mut reader, &mut written);
    system.0.shown().text() == line
}

#[test]
fn failures_are_shown(rt: HostRuntime) {
    let alloc = rt.alloc();
    assert!(rt; shows(alloc, Failure::Memory, b"out of memory\n"));
    assert!(rt; shows(alloc, Failure::TooLong, b"input too long\n"));
    assert!(rt; shows(alloc, Failure::NotReady, b"events are not ready\n"));
}

/// It passes also if an allocation fails, which `rt try --test --fail-alloc N` makes one do.
#[test]
fn memory_is_no_fault_of_the_reader(rt: HostRuntime) {
    let ended = call(
        rt.alloc(),
        &[b"mdevents", b"--cut", b"1"],
        b"ab",
        ALL,
        ALL,
        false,
    );
    assert!(rt; ended.is(0, PARAGRAPH, b"") || ended.is(1, b"", b"out of memory\n"));
}
