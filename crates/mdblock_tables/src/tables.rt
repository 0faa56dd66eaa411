//! The cells of a line, as a row or a delimiter row of a table (GFM 4.10). A line is its virtual bytes behind prefixes, without its line ending.

ghost use Rattle.std.specs.Prelude.{◌≡◌, ◌≤◌, ◌+◌, ◌*◌, false, length, is_some};
ghost use Rattle.mdconstructs_tables.specs.Breaks.{is_white};
ghost use Rattle.mdblock_leaf_blocks.specs.LineKinds.{indent, run, trimmed};
ghost use Rattle.mdblock_tables.specs.Tables.{aligned, alignment_of, alignments_of, cell_size, cells, content, contents, counted, cut, delimiters, divides, inside, is_row, matched, one_if};

use mdblock_lines::bytes::{behind, front, indent, unindented};
use mdconstructs_loop_counts::Turns;
use std::sync::ledger::Ledger;

/// How the text of a column is aligned.
#[derive(Clone, Copy, PartialEq, Eq, Debug)]
pub enum Alignment {
    /// Nothing is said.
    None,
    /// To the left.
    Left,
    /// To the right.
    Right,
    /// In the middle.
    Center,
}

pub(crate) fn is_white(byte: u8) -> bool
    ensures { result ≡ is_white byte }
{
    byte == b' ' || byte == b'\t'
}

/// One if this byte comes first, else none.
pub(crate) fn one_if(t: &[u8], byte: u8) -> usize
    ensures value { result ≡ one_if byte t.now }
    ensures within { result ≤ length t.now }
    ensures most { result ≤ 1 }
{
    match t {
        [first, ..] => { if *first == byte { 1 } else { 0 } }
        [] => 0,
    }
}

/// How many hyphens come first.
pub(crate) fn hyphens<L: Ledger>(t: &[u8], turns: &mut Turns<L>) -> usize
    ensures value { result ≡ run 45 t.now }
    ensures within { result ≤ length t.now }
    ensures turns { turns.new ≤ turns.old + length t.now }
{
    let mut next = 0;
    while next < t.len() {
        turns.add_one();
        if t[next] != b'-' {
            return next;
        }
        next += 1;
    }
    next
}

/// A line without the white space at its end.
pub(crate) fn trimmed<'a, L: Ledger>(t: &'a [u8], turns: &mut Turns<L>) -> &'a [u8]
    ensures value { result.now ≡ trimmed is_white t.now }
    ensures within { length result.now ≤ length t.now }
    ensures turns { turns.new ≤ turns.old + length t.now }
{
    let mut size = t.len();
    while size > 0 {
        turns.add_one();
        if !is_white(t[size - 1]) {
            return front(t, size);
        }
        size -= 1;
    }
    front(t, 0)
}

/// The content of a cell: what is between its dividers, without the white space at both ends.
fn content<'a, L: Ledger>(t: &'a [u8], turns: &mut Turns<L>) -> &'a [u8]
    ensures value { result.now ≡ content t.now }
    ensures within { indent t.now + length result.now ≤ length t.now }
    ensures turns { turns.new ≤ turns.old + length t.now + 1 }
{
    trimmed(unindented(t, turns), turns)
}

/// What has the cells of a line: without the white space at both ends, and without the pipe at the front.
pub(crate) fn inside<'a, L: Ledger>(t: &'a [u8], turns: &mut Turns<L>) -> &'a [u8]
    ensures value { result.now ≡ inside t.now }
    ensures within { length result.now ≤ length t.now }
    ensures turns { turns.new ≤ turns.old + length t.now + 1 }
{
    let line = unindented(t, turns);
    trimmed(behind(line, one_if(line, b'|')), turns)
}

fn divides(escaped: bool, byte: u8) -> bool
    ensures { result ≡ divides escaped byte }
{
    byte == b'|' && !escaped
}

/// How many bytes come before the next pipe that divides cells, or all.
pub(crate) fn cell_size<L: Ledger>(t: &[u8], turns: &mut Turns<L>) -> usize
    ensures value { result ≡ cell_size false t.now }
    ensures within { result ≤ length t.now }
    ensures turns { turns.new ≤ turns.old + result + 1 }
{
    let mut escaped = false;
    let mut next = 0;
    while next < t.len() {
        turns.add_one();
        if divides(escaped, t[next]) {
            return next;
        }
        escaped = t[next] == b'\\';
        next += 1;
    }
    next
}

fn count_cells<L: Ledger>(row: &[u8], turns: &mut Turns<L>) -> usize
    ensures value { result ≡ length (contents (cut false row.now)) }
    ensures turns { turns.new ≤ turns.old + 2 * length row.now + 2 }
{
    let mut count = 0;
    let mut next = 0;
    while next < row.len() {
        turns.add_one();
        let size = cell_size(behind(row, next), turns);
        count += 1;
        next += size + 1;
    }
    count
}

/// How many cells a line has as a row.
pub fn cells<L: Ledger>(t: &[u8], turns: &mut Turns<L>) -> usize
    ensures value { result ≡ length (cells t.now) }
    ensures turns { turns.new ≤ turns.old + 3 * length t.now + 3 }
{
    count_cells(inside(t, turns), turns)
}

/// Whether a line can be a row of a table: it has a cell.
pub fn is_row<L: Ledger>(t: &[u8], turns: &mut Turns<L>) -> bool
    ensures value { result ≡ is_row t.now }
    ensures turns { turns.new ≤ turns.old + 3 * length t.now + 3 }
{
    cells(t, turns) >= 1
}

fn aligned(before: bool, after: bool) -> Alignment
    ensures { result ≡ aligned before after }
{
    if before {
        if after {
            Alignment::Center
        } else {
            Alignment::Left
        }
    } else if after {
        Alignment::Right
    } else {
        Alignment::None
    }
}

/// The alignment that the content of a cell says, if that is one of a delimiter row: hyphens, and a colon before them, behind them, or both.
pub fn alignment_of<L: Ledger>(cell: &[u8], turns: &mut Turns<L>) -> Option<Alignment>
    ensures value { result ≡ alignment_of cell.now }
    ensures turns { turns.new ≤ turns.old + length cell.now }
{
    let before = one_if(cell, b':');
    let filler = hyphens(behind(cell, before), turns);
    let after = one_if(behind(cell, before + filler), b':');
    if filler >= 1 && before + filler + after == cell.len() {
        Some(aligned(before == 1, after == 1))
    } else {
        None
    }
}

fn count_delimiters<L: Ledger>(row: &[u8], turns: &mut Turns<L>) -> usize
    ensures value { result ≡ counted 0 (alignments_of (contents (cut false row.now))) }
    ensures turns { turns.new ≤ turns.old + 3 * length row.now + 3 }
{
    let mut count = 0;
    let mut next = 0;
    while next < row.len() {
        turns.add_one();
        let rest = behind(row, next);
        let size = cell_size(rest, turns);
        let cell = content(front(rest, size), turns);
        match alignment_of(cell, turns) {
            None => return 0,
            Some(_) => count += 1,
        }
        next += size + 1;
    }
    count
}

/// How many cells a line has as a delimiter row; none if it is no delimiter row.
pub fn delimiter_cells<L: Ledger>(t: &[u8], turns: &mut Turns<L>) -> usize
    ensures value { result ≡ counted 0 (delimiters t.now) }
    ensures turns { turns.new ≤ turns.old + 4 * length t.now + 4 }
{
    count_delimiters(inside(t, turns), turns)
}

/// Whether a line and the next one begin a table: the next one is a delimiter row, and has as many cells.
pub fn matches<L: Ledger>(header: &[u8], delimiter: &[u8], turns: &mut Turns<L>) -> bool
    ensures value { result ≡ is_some (matched header.now delimiter.now) }
    ensures turns { turns.new ≤ turns.old + 3 * length header.now + 4 * length delimiter.now + 7 }
{
    let count = delimiter_cells(delimiter, turns);
    count >= 1 && cells(header, turns) == count
}
