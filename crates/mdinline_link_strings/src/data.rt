//! Bytes that are data in each string. Many are compared at once.

ghost use Rattle.std.specs.Prelude.{◌≡◌, ◌+◌, ◌<◌, ◌≤◌, ◌^◌, ℕ, true, length, slice_index};
ghost use Rattle.markdown_base.specs.Virtual.{point};
ghost use Rattle.mdinline_link_strings.specs.Reached.{IsDataAhead, IsDataByte};

use markdown_base::event::Point;
use mdconstructs_loop_counts::Turns;
use std::sync::ledger::Ledger;

/// Whether all these bytes are above CR, and none is a backslash or `&`. It looks at all of them: a loop that ends early is not made into
/// comparisons of many bytes at once.
#[inline(always)]
fn are_data(block: &[u8]) -> bool
    ensures { result ≡ true → (k : ℕ) → k < length block.now → IsDataByte (slice_index block.now k) }
{
    let mut all = true;
    for byte in block {
        all &= *byte > b'\r';
        all &= *byte != b'\\';
        all &= *byte != b'&';
    }
    all
}

/// How many bytes a text begins with that are data, by blocks of 16: all, or those before a block that has another byte.
fn block_size<L: Ledger>(text: &[u8], turns: &mut Turns<L>) -> usize
    requires long { 16 ≤ length text.now }
    ensures each { (k : ℕ) → k < result → IsDataByte (slice_index text.now k) }
    ensures within { result ≤ length text.now }
    ensures turns { turns.new ≤ turns.old + result }
{
    let last = text.len() - 16;
    let mut next = 0;
    while next < last {
        if !are_data(&text[next..next + 16]) {
            return next;
        }
        turns.add_one();
        next += 16;
    }
    let back = are_data(&text[last..]);
    if back {
        return text.len();
    }
    next
}

/// Whether the bytes of a text of 8 to 16 are data, by two blocks of 8.
fn is_short_data(text: &[u8]) -> bool
    requires long { 8 ≤ length text.now }
    requires short { length text.now ≤ 16 }
    ensures { result ≡ true → (k : ℕ) → k < length text.now → IsDataByte (slice_index text.now k) }
{
    let front = are_data(&text[..8]);
    let back = are_data(&text[text.len() - 8..]);
    front & back
}

/// How many bytes a text begins with that are data, one by one.
fn byte_size<L: Ledger>(text: &[u8], turns: &mut Turns<L>) -> usize
    ensures each { (k : ℕ) → k < result → IsDataByte (slice_index text.now k) }
    ensures within { result ≤ length text.now }
    ensures turns { turns.new ≤ turns.old + result }
{
    let mut next = 0;
    while next < text.len() {
        if !are_data(&text[next..next + 1]) {
            return next;
        }
        turns.add_one();
        next += 1;
    }
    next
}

/// How many bytes a text begins with that are data. May be fewer.
fn data_size<L: Ledger>(text: &[u8], turns: &mut Turns<L>) -> usize
    ensures each { (k : ℕ) → k < result → IsDataByte (slice_index text.now k) }
    ensures within { result ≤ length text.now }
    ensures turns { turns.new ≤ turns.old + result }
{
    let len = text.len();
    if len >= 16 {
        return block_size(text, turns);
    }
    if len >= 8 && is_short_data(text) {
        return len;
    }
    byte_size(text, turns)
}

/// How many bytes from a place up to an index are data. May be fewer; there are none in a tab.
pub(crate) fn data_ahead<L: Ledger>(
    bytes: &[u8],
    place: &Point,
    end: usize,
    turns: &mut Turns<L>,
) -> usize
    ensures ahead { IsDataAhead bytes.now place.now end result }
    ensures turns { turns.new ≤ turns.old + result }
{
    if place.vs > 0 {
        return 0;
    }
    if end > bytes.len() {
        return 0;
    }
    if place.index >= end {
        return 0;
    }
    data_size(&bytes[place.index..end], turns)
}

/// A place behind so many bytes that are data.
pub(crate) fn behind(place: &Point, n: usize) -> Point
    requires column { place.now.column + n < 2 ^ 64 }
    requires index { place.now.index + n < 2 ^ 64 }
    ensures { let p = place.now in result ≡ point p.line (p.column + n) (p.index + n) p.vs }
{
    Point {
        column: place.column + n,
        index: place.index + n,
        ..*place
    }
}
