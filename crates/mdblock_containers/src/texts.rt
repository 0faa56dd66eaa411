//! Lines as virtual bytes. Most have no tab: the virtual bytes of such a line are its bytes.

ghost use Rattle.std.specs.Prelude.{◌≡◌, ◌≤◌, ◌+◌, ℕ, length, take, drop, IfOk, IsTrue, ◌*◌};
ghost use Rattle.std.specs.List.{prefix_len};
ghost use Rattle.mdblock_leaf_blocks.specs.LineWords.{begins_with};
ghost use Rattle.mdblock_lines.specs.Lines.{is_in_line, expanded, line_bytes};
ghost use Rattle.mdblock_containers.specs.Letters.{is_plain};

use markdown_base::configuration::TabSize;
use mdblock_lines::bytes::{behind, front};
use mdblock_lines::places::read_line;
use mdconstructs_loop_counts::Turns;
use std::alloc::AllocError;
use std::sync::ledger::Ledger;

/// Whether a byte is no tab, and no part of a line ending.
fn is_plain(byte: u8) -> bool
    ensures { result ≡ is_plain byte }
{
    byte != b'\t' && byte != b'\n' && byte != b'\r'
}

/// How many bytes come before a tab or a line ending, or all.
fn plain_size<L: Ledger>(t: &[u8], turns: &mut Turns<L>) -> usize
    ensures value { result ≡ prefix_len is_plain t.now }
    ensures within { result ≤ length t.now }
    ensures turns { turns.new ≤ turns.old + result + 1 }
{
    let mut next = plain_blocks(t, turns);
    while next < t.len() {
        turns.add_one();
        if !is_plain(t[next]) {
            return next;
        }
        next += 1;
    }
    next
}

/// How many bytes are in the first blocks of 16 without control characters. The bytes of a block are compared at once.
fn plain_blocks<L: Ledger>(t: &[u8], turns: &mut Turns<L>) -> usize
    ensures value { result + prefix_len is_plain (drop result t.now) ≡ prefix_len is_plain t.now }
    ensures within { result ≤ length t.now }
    ensures turns { turns.new ≤ turns.old + result }
{
    let mut next = 0;
    while t.len() - next >= 16 {
        if !are_plain(&t[next..next + 16]) {
            return next;
        }
        turns.add_one();
        next += 16;
    }
    next
}

/// Whether no byte is a control character up to the carriage return. It looks at all of them: a loop that ends early is not made into
/// comparisons of many bytes at once.
#[inline(always)]
fn are_plain(t: &[u8]) -> bool
    ensures { IsTrue result → prefix_len is_plain t.now ≡ length t.now }
{
    let mut all = true;
    for byte in t {
        all &= *byte > b'\r';
    }
    all
}

/// A tab comes first.
fn begins_with_tab(t: &[u8]) -> bool
    ensures { result ≡ begins_with 9 t.now }
{
    match t {
        [first, ..] => *first == b'\t',
        [] => false,
    }
}

/// A line: its virtual bytes without its line ending go to the list. Returns the index of its line ending, or of the document's end.
pub fn read_text<L: Ledger>(
    line: &mut Vec<u8>,
    bytes: &[u8],
    tab: TabSize,
    start: usize,
    turns: &mut Turns<L>,
) -> Result<usize, AllocError>
    requires inside { start ≤ length bytes.now }
    ensures text { let rest = drop start bytes.now in IfOk result (λ _. line.new.items ≡ expanded tab 1 (take (prefix_len is_in_line rest) rest)) }
    ensures seats { (number : ℕ) → IfOk result (λ _. line.new.items ≡ line_bytes tab number 1 start (drop start bytes.now)) }
    ensures end { IfOk result (λ end. end ≡ start + prefix_len is_in_line (drop start bytes.now)) }
    ensures turns { (number : ℕ) → turns.new ≤ turns.old + 4 * length (line_bytes tab number 1 start (drop start bytes.now)) + 2 }
{
    let tab_size = tab.get();
    prove!(tab_size >= 1);
    let rest = behind(bytes, start);
    let n = plain_size(rest, turns);
    if begins_with_tab(behind(rest, n)) {
        return read_line(line, bytes, tab, start, turns);
    }
    line.clear();
    line.extend_from_slice(front(rest, n))?;
    Ok(start + n)
}

/// A line without its line ending.
#[derive(Clone, Copy)]
pub struct LineText<'a> {
    /// Its virtual bytes.
    pub bytes: &'a [u8],
    /// The index of its line ending, or of the document's end.
    pub end: usize,
}

/// A line. Its virtual bytes are those of the document if no tab is in it; else they go to the list.
pub fn text_at<'a, L: Ledger>(
    line: &'a mut Vec<u8>,
    bytes: &'a [u8],
    tab: TabSize,
    start: usize,
    turns: &mut Turns<L>,
) -> Result<LineText<'a>, AllocError>
    requires inside { start ≤ length bytes.now }
    ensures seats { (number : ℕ) → IfOk result (λ text. text.bytes.now ≡ line_bytes tab number 1 start (drop start bytes.now)) }
    ensures end { IfOk result (λ text. text.end ≡ start + prefix_len is_in_line (drop start bytes.now)) }
    ensures turns { (number : ℕ) → turns.new ≤ turns.old + 4 * length (line_bytes tab number 1 start (drop start bytes.now)) + 2 }
{
    let tab_size = tab.get();
    prove!(tab_size >= 1);
    let rest = behind(bytes, start);
    let n = plain_size(rest, turns);
    if begins_with_tab(behind(rest, n)) {
        let end = read_line(line, bytes, tab, start, turns)?;
        return Ok(LineText {
            bytes: line.as_slice(),
            end,
        });
    }
    Ok(LineText {
        bytes: front(rest, n),
        end: start + n,
    })
}
