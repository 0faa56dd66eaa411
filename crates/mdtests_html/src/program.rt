//! Calls of the program, over a system, a reader and a writer for tests: the status, what is written, and what is shown on standard
//! error.

use mdhtml_program::call::{answer_call, answer_choice};
use mdhtml_program::failure::Failure;
use mdtests_fakes::ended::Ended;
use mdtests_fakes::readers::{ALL, FailingReader};
use mdtests_fakes::systems::CalledWith;
use mdtests_fakes::writers::FailingWriter;
use std::alloc::Global;
use std::io::ErrorKind;
use std::process::ExitCode;

/// A document, with a tab behind a mark, and what is written of it.
const DOCUMENT: &[u8] = b"-\t<b>";

const SAFE: &[u8] = b"<ul>\n<li>\n&lt;b&gt;\n</li>\n</ul>\n";

const UNSAFE: &[u8] = b"<ul>\n<li>\n<b>\n</li>\n</ul>\n";

const SAFE_CODE: &[u8] =
    b"<ul>\n<li>\n<pre><code>          &lt;b&gt;\n</code></pre>\n</li>\n</ul>\n";

const USAGE_SHOWN: &[u8] =
    b"usage: mdhtml [--unsafe] [--gfm] [--strikethrough-double-tilde] [--tab n] [--depth n]\n";

/// Calls the program with these arguments, over the document, and fakes.
fn call(
    alloc: Global,
    words: &[&[u8]],
    good_reads: usize,
    error: ErrorKind,
    good_writes: usize,
    takes_nothing: bool,
) -> Ended {
    let system = (CalledWith::new(words), alloc);
    let mut reader = FailingReader::new(DOCUMENT, good_reads, error);
    let mut writer = FailingWriter::new(good_writes, takes_nothing);
    let status = answer_call(&system, &mut reader, &mut writer);
    Ended::of(status, &writer, &system.0)
}

/// Arguments, the status, what is written for the document, and what is shown on standard error.
const CALLS: &[(&[&[u8]], u8, &[u8], &[u8])] = &[
    (&[b"mdhtml"], 0, SAFE, b""),
    (&[b"--unsafe"], 0, SAFE, b""),
    (&[b"mdhtml", b"--unsafe"], 0, UNSAFE, b""),
    (&[b"mdhtml", b"--tab", b"04"], 0, SAFE, b""),
    (&[b"mdhtml", b"--tab", b"16"], 0, SAFE_CODE, b""),
    (&[b"mdhtml", b"--tab", b"4", b"--unsafe"], 0, UNSAFE, b""),
    (&[b"mdhtml", b"--unsafe", b"--tab", b"1"], 0, UNSAFE, b""),
    (&[b"mdhtml", b"--depth", b"1"], 0, SAFE, b""),
    (&[b"mdhtml", b"--gfm"], 0, SAFE, b""),
    (
        &[
            b"mdhtml",
            b"--depth",
            b"9",
            b"--gfm",
            b"--unsafe",
            b"--tab",
            b"4",
        ],
        0,
        UNSAFE,
        b"",
    ),
    (&[b"mdhtml", b"--tab"], 2, b"", USAGE_SHOWN),
    (&[b"mdhtml", b"--depth"], 2, b"", USAGE_SHOWN),
    (&[b"mdhtml", b"--depth", b"0"], 2, b"", USAGE_SHOWN),
    (&[b"mdhtml", b"--depth", b"x"], 2, b"", USAGE_SHOWN),
    (&[b"mdhtml", b"--unsafe", b"--depth"], 2, b"", USAGE_SHOWN),
    (&[b"mdhtml", b"--tab", b"0"], 2, b"", USAGE_SHOWN),
    (&[b"mdhtml", b"--tab", b"17"], 2, b"", USAGE_SHOWN),
    (&[b"mdhtml", b"--tab", b"+1"], 2, b"", USAGE_SHOWN),
    (&[b"mdhtml", b"--unsafe", b"--unsafe"], 2, b"", USAGE_SHOWN),
    (&[b"mdhtml", b"--gfm", b"--gfm"], 2, b"", USAGE_SHOWN),
    (&[b"mdhtml", b"--strikethrough-double-tilde"], 0, SAFE, b""),
    (
        &[
            b"mdhtml",
            b"--strikethrough-double-tilde",
            b"--unsafe",
            b"--strikethrough-double-tilde",
        ],
        2,
        b"",
        USAGE_SHOWN,
    ),
    (
        &[b"mdhtml", b"--gfm", b"--unsafe", b"--gfm"],
        2,
        b"",
        USAGE_SHOWN,
    ),
    (&[b"mdhtml", b"--gfm", b"x"], 2, b"", USAGE_SHOWN),
    (&[b"mdhtml", b"--safe"], 2, b"", USAGE_SHOWN),
    (&[b"mdhtml", b"--UNSAFE"], 2, b"", USAGE_SHOWN),
    (&[b"mdhtml", b" --unsafe "], 2, b"", USAGE_SHOWN),
    (
        &[b"mdhtml", b"--tab", b"4", b"--tab", b"4"],
        2,
        b"",
        USAGE_SHOWN,
    ),
    (
        &[b"mdhtml", b"--depth", b"4", b"--depth", b"4"],
        2,
        b"",
        USAGE_SHOWN,
    ),
    (&[b"mdhtml", b"\xff"], 2, b"", USAGE_SHOWN),
];

/// A document with constructs of GFM: a task in a block quote, strikethrough, a literal and a table.
const OF_GFM: &[u8] = b"> - [x] ~a~ www.b.c\n\n| a | b |\n| - | :-: |\n| *c* | d \\| e |\n";

/// Arguments, and what is written for this document.
const WITH_GFM: &[(&[&[u8]], &[u8])] = &[
    (
        &[b"mdhtml"],
        b"<blockquote>\n<ul>\n<li>[x] ~a~ www.b.c</li>\n</ul>\n</blockquote>\n<p>| a | b |\n| - | :-: |\n| <em>c</em> | d | e |</p>\n",
    ),
    (
        &[b"mdhtml", b"--gfm"],
        b"<blockquote>\n<ul>\n<li><input type=\"checkbox\" checked=\"\" disabled=\"\" /> <del>a</del> <a href=\"http://www.b.c\">www.b.c</a></li>\n</ul>\n</blockquote>\n<table>\n<thead>\n<tr>\n<th>a</th>\n<th align=\"center\">b</th>\n</tr>\n</thead>\n<tbody>\n<tr>\n<td><em>c</em></td>\n<td align=\"center\">d | e</td>\n</tr>\n</tbody>\n</table>\n",
    ),
    (
        &[b"mdhtml", b"--strikethrough-double-tilde", b"--gfm"],
        b"<blockquote>\n<ul>\n<li><input type=\"checkbox\" checked=\"\" disabled=\"\" /> ~a~ <a href=\"http://www.b.c\">www.b.c</a></li>\n</ul>\n</blockquote>\n<table>\n<thead>\n<tr>\n<th>a</th>\n<th align=\"center\">b</th>\n</tr>\n</thead>\n<tbody>\n<tr>\n<td><em>c</em></td>\n<td align=\"center\">d | e</td>\n</tr>\n</tbody>\n</table>\n",
    ),
    (
        &[b"mdhtml", b"--depth", b"3", b"--gfm"],
        b"<blockquote>\n<ul>\n<li><input type=\"checkbox\" checked=\"\" disabled=\"\" /> <del>a</del> <a href=\"http://www.b.c\">www.b.c</a></li>\n</ul>\n</blockquote>\n<table>\n<thead>\n<tr>\n<th>a</th>\n<th align=\"center\">b</th>\n</tr>\n</thead>\n<tbody>\n<tr>\n<td><em>c</em></td>\n<td align=\"center\">d | e</td>\n</tr>\n</tbody>\n</table>\n",
    ),
    (
        &[b"mdhtml", b"--gfm", b"--depth", b"2"],
        b"<blockquote>\n<ul>\n<li><input type=\"checkbox\" checked=\"\" disabled=\"\" /> a <a href=\"http://www.b.c\">www.b.c</a></li>\n</ul>\n</blockquote>\n<table>\n<thead>\n<tr>\n<th>a</th>\n<th align=\"center\">b</th>\n</tr>\n</thead>\n<tbody>\n<tr>\n<td><em>c</em></td>\n<td align=\"center\">d | e</td>\n</tr>\n</tbody>\n</table>\n",
    ),
    (
        &[b"mdhtml", b"--depth", b"1", b"--tab", b"8"],
        b"<blockquote>\n<p>[x] ~a~ www.b.c</p>\n</blockquote>\n<p>| a | b |\n| - | :-: |\n| <em>c</em> | d | e |</p>\n",
    ),
];

/// Whether the program writes this of the document, with the status 0.
fn writes(alloc: Global, words: &[&[u8]], wanted: &[u8]) -> bool {
    let system = (CalledWith::new(words), alloc);
    let mut reader = OF_GFM;
    let mut written = Vec::new(alloc);
    let status = answer_call(&system, &mut reader, &mut written);
    status == ExitCode::SUCCESS && written.as_slice() == wanted
}

#[test]
fn words_turn_on_what_is_written(rt: HostRuntime) {
    for &(words, wanted) in WITH_GFM {
        assert!(rt; writes(rt.alloc(), words, wanted), "{wanted:?}");
    }
}

#[test]
fn does_what_the_words_choose(rt: HostRuntime) {
    for &(words, status, written, shown) in CALLS {
        let ended = call(rt.alloc(), words, ALL, ErrorKind::Other, ALL, false);
        assert!(rt; ended.is(status, written, shown));
    }
}

/// How many reads are good, the error of the one after them, the status, what is written, and what is shown. Of the document five bytes are read,
/// one a read, and the end.
const READS: &[(usize, ErrorKind, u8, &[u8], &[u8])] = &[
    (0, ErrorKind::Other, 1, b"", b"cannot read input\n"),
    (1, ErrorKind::Other, 1, b"", b"cannot read input\n"),
    (2, ErrorKind::Other, 1, b"", b"cannot read input\n"),
    (3, ErrorKind::Other, 1, b"", b"cannot read input\n"),
    (4, ErrorKind::Other, 1, b"", b"cannot read input\n"),
    (5, ErrorKind::Other, 1, b"", b"cannot read input\n"),
    (6, ErrorKind::Other, 0, SAFE, b""),
    (2, ErrorKind::OutOfMemory, 1, b"", b"out of memory\n"),
];

#[test]
fn each_read_fails_in_turn(rt: HostRuntime) {
    for &(good, error, status, written, shown) in READS {
        let ended = call(rt.alloc(), &[b"mdhtml"], good, error, ALL, false);
        assert!(rt; ended.is(status, written, shown));
    }
}

/// A beginning is written, of a byte a write. A body that writes again after a failure succeeds too early.
#[test]
fn each_write_fails_in_turn(rt: HostRuntime) {
    for takes_nothing in [false, true] {
        for good in 0..SAFE.len() {
            let ended = call(
                rt.alloc(),
                &[b"mdhtml"],
                ALL,
                ErrorKind::Other,
                good,
                takes_nothing,
            );
            assert!(rt; ended.is(1, &SAFE[..good], b"cannot write output\n"));
        }
    }
}

/// Whether a failure to get the arguments is shown as this line.
fn shows(alloc: Global, failure: Failure, line: &[u8]) -> bool {
    let system = (CalledWith::new(&[b"mdhtml"]), alloc);
    let mut reader = b"ab".as_slice();
    let mut written = Vec::new(alloc);
    let _ = answer_choice(&system, Err(failure), &mut reader, &mut written);
    system.0.shown().text() == line
}

#[test]
fn failures_are_shown(rt: HostRuntime) {
    let alloc = rt.alloc();
    assert!(rt; shows(alloc, Failure::Memory, b"out of memory\n"));
    assert!(rt; shows(alloc, Failure::TooLong, b"input too long\n"));
}

/// It passes also if an allocation fails, which `rt try --test --fail-alloc N` makes one do.
#[test]
fn memory_is_no_fault_of_the_reader(rt: HostRuntime) {
    let ended = call(rt.alloc(), &[b"mdhtml"], ALL, ErrorKind::Other, ALL, false);
    assert!(rt; ended.is(0, SAFE, b"") || ended.is(1, b"", b"out of memory\n"));
}
