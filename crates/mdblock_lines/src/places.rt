//! Lines as virtual bytes.

ghost use Rattle.std.specs.Prelude.{◌^◌, ◌≡◌, ◌≤◌, ◌<◌, ◌+◌, ◌*◌, ◌++◌, ℕ, length, take, drop, IfOk, not};
ghost use Rattle.std.specs.List.{prefix_len};
ghost use Rattle.markdown_base.specs.Virtual.{tab_width};
ghost use Rattle.mdblock_lines.specs.Lines.{is_in_tab, next_place, place_after, is_in_line, seat_bytes, ending_size, expanded, line_bytes};

use crate::bytes::{behind, front};
use markdown_base::configuration::TabSize;
use markdown_base::event::Point;
use markdown_base::util::place::tab_width;
use mdconstructs_loop_counts::Turns;
use std::alloc::AllocError;
use std::sync::ledger::Ledger;

const TAB: [u8; 16] = *b"\t               ";

fn is_in_line(byte: u8) -> bool
    ensures { result ≡ is_in_line byte }
{
    byte != b'\n' && byte != b'\r'
}

/// How many bytes come before a line ending, or all.
fn line_size<L: Ledger>(t: &[u8], turns: &mut Turns<L>) -> usize
    ensures value { result ≡ prefix_len is_in_line t.now }
    ensures within { result ≤ length t.now }
    ensures turns { turns.new ≤ turns.old + result + 1 }
{
    let mut next = 0;
    while next < t.len() {
        turns.add_one();
        if !is_in_line(t[next]) {
            return next;
        }
        next += 1;
    }
    next
}

/// The virtual bytes of a byte go to a line: sixteen at most, copied at once.
fn push_byte(line: &mut Vec<u8>, tab: usize, byte: u8) -> Result<(), AllocError>
    requires some { 0 < tab }
    requires most { tab ≤ 16 }
    ensures { IfOk result (λ _. line.new.items ≡ line.old.items ++ seat_bytes tab (length line.old.items + 1) byte) }
{
    if byte == b'\t' {
        let width = tab_width(tab, line.len() + 1);
        return line.extend_from_slice(front(&TAB, width));
    }
    line.push(byte)?;
    Ok(())
}

/// A line is these bytes, as virtual bytes.
fn expand<L: Ledger>(
    line: &mut Vec<u8>,
    tab: usize,
    text: &[u8],
    turns: &mut Turns<L>,
) -> Result<(), AllocError>
    requires some { 0 < tab }
    requires most { tab ≤ 16 }
    ensures value { IfOk result (λ _. line.new.items ≡ expanded tab 1 text.now) }
    ensures turns { turns.new ≤ turns.old + length text.now }
{
    line.clear();
    for byte in text {
        turns.add_one();
        push_byte(line, tab, *byte)?;
    }
    Ok(())
}

/// A line: its virtual bytes without its line ending go to the list. Returns the index of its line ending, or of the document's end.
pub fn read_line<L: Ledger>(
    line: &mut Vec<u8>,
    bytes: &[u8],
    tab: TabSize,
    start: usize,
    turns: &mut Turns<L>,
) -> Result<usize, AllocError>
    requires inside { start ≤ length bytes.now }
    ensures text { let rest = drop start bytes.now in IfOk result (λ _. line.new.items ≡ expanded tab 1 (take (prefix_len is_in_line rest) rest)) }
    ensures seats { (number : ℕ) → IfOk result (λ _. line.new.items ≡ line_bytes tab number 1 start (drop start bytes.now)) }
    ensures end { IfOk result (λ end. end ≡ start + prefix_len is_in_line (drop start bytes.now)) }
    ensures turns { let rest = drop start bytes.now in turns.new ≤ turns.old + 2 * length (expanded tab 1 (take (prefix_len is_in_line rest) rest)) + 1 }
{
    let rest = behind(bytes, start);
    let n = line_size(rest, turns);
    expand(line, tab.get(), front(rest, n), turns)?;
    Ok(start + n)
}

/// The index behind the line ending at an index. CR LF is one line ending; at the document's end there is none.
pub fn behind_ending(bytes: &[u8], end: usize) -> usize
    requires inside { end ≤ length bytes.now }
    ensures value { result ≡ end + ending_size (drop end bytes.now) }
    ensures within { result ≤ length bytes.now }
{
    match behind(bytes, end) {
        [b'\r', b'\n', ..] => end + 2,
        [_, ..] => end + 1,
        [] => end,
    }
}

/// The place behind the virtual byte at a place.
fn next_place(bytes: &[u8], tab: usize, p: Point) -> Point
    requires some { 0 < tab }
    requires inside { p.index < length bytes.now }
    requires first { p.vs < p.column }
    requires room { p.column + 1 < 2 ^ 64 }
    ensures { result ≡ next_place tab bytes.now p }
{
    if is_in_tab(bytes[p.index], tab, p) {
        Point {
            line: p.line,
            column: p.column + 1,
            index: p.index,
            vs: p.vs + 1,
        }
    } else {
        Point {
            line: p.line,
            column: p.column + 1,
            index: p.index + 1,
            vs: 0,
        }
    }
}

/// The byte is a tab, and has a further virtual byte behind the place.
fn is_in_tab(byte: u8, tab: usize, p: Point) -> bool
    requires some { 0 < tab }
    requires first { p.vs < p.column }
    requires room { p.column + 1 < 2 ^ 64 }
    ensures { result ≡ is_in_tab tab byte p }
{
    byte == b'\t' && p.vs + 1 < tab_width(tab, p.column - p.vs)
}

/// The place so many columns behind another, in its line.
pub fn moved<L: Ledger>(
    bytes: &[u8],
    tab: TabSize,
    place: Point,
    columns: usize,
    turns: &mut Turns<L>,
) -> Point
    requires inside { (k : ℕ) → k < columns → (place_after tab bytes.now place k).index < length bytes.now }
    requires first { place.vs < place.column }
    requires room { place.column + columns < 2 ^ 64 }
    ensures value { result ≡ place_after tab bytes.now place columns }
    ensures turns { turns.new ≤ turns.old + columns }
{
    let tab_size = tab.get();
    let mut p = place;
    for n in 0..columns {
        turns.add_one();
        p = next_place(bytes, tab_size, p);
    }
    p
}
