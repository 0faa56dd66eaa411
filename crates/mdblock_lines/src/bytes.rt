//! The bytes that a line begins with.

ghost use Rattle.std.specs.Prelude.{◌≡◌, ◌≤◌, ◌+◌, ◌-◌, ℕ, nat_le, length, take, drop};
ghost use Rattle.mdconstructs_tables.specs.Breaks.{is_white};
ghost use Rattle.mdblock_leaf_blocks.specs.LineWords.{first_passes, indent, unindented, is_blank_line, begins_with, run};

use mdconstructs_loop_counts::Turns;
use std::sync::ledger::Ledger;

/// Whether a byte is a space or a tab.
pub(crate) fn is_white(byte: u8) -> bool
    ensures { result ≡ is_white byte }
{
    byte == b' ' || byte == b'\t'
}

/// The columns of white space that come first.
pub fn indent<L: Ledger>(t: &[u8], turns: &mut Turns<L>) -> usize
    ensures value { result ≡ indent t.now }
    ensures within { result ≤ length t.now }
    ensures turns { turns.new ≤ turns.old + result + 1 }
{
    let mut columns = 0;
    while columns < t.len() {
        turns.add_one();
        if !is_white(t[columns]) {
            return columns;
        }
        columns += 1;
    }
    columns
}

/// A line behind the white space that comes first.
pub fn unindented<'a, L: Ledger>(t: &'a [u8], turns: &mut Turns<L>) -> &'a [u8]
    ensures value { result.now ≡ unindented t.now }
    ensures len { length result.now ≡ length t.now - indent t.now }
    ensures within { indent t.now ≤ length t.now }
    ensures turns { turns.new ≤ turns.old + indent t.now + 1 }
{
    behind(t, indent(t, turns))
}

/// A line from a column on.
pub fn behind(t: &[u8], index: usize) -> &[u8]
    requires { index ≤ length t.now }
    ensures value { result.now ≡ drop index t.now }
    ensures len { length result.now ≡ length t.now - index }
{
    &t[index..]
}

/// A line up to a column.
pub fn front(t: &[u8], index: usize) -> &[u8]
    requires { index ≤ length t.now }
    ensures value { result.now ≡ take index t.now }
    ensures len { length result.now ≡ index }
{
    &t[..index]
}

/// There is only white space, or nothing.
pub fn is_blank_line<L: Ledger>(t: &[u8], turns: &mut Turns<L>) -> bool
    ensures value { result ≡ is_blank_line t.now }
    ensures turns { turns.new ≤ turns.old + length t.now }
{
    let mut next = 0;
    while next < t.len() {
        turns.add_one();
        if !is_white(t[next]) {
            return false;
        }
        next += 1;
    }
    true
}

/// White space comes first, or there is nothing.
pub(crate) fn is_white_or_end(t: &[u8]) -> bool
    ensures { result ≡ is_blank_line (take 1 t.now) }
{
    match t {
        [first, ..] => is_white(*first),
        [] => true,
    }
}

/// White space comes first.
pub(crate) fn begins_white(t: &[u8]) -> bool
    ensures value { result ≡ first_passes is_white t.now }
    ensures columns { result ≡ nat_le 1 (indent t.now) }
{
    match t {
        [first, ..] => is_white(*first),
        [] => false,
    }
}

/// A byte comes first, and it is this one.
pub(crate) fn begins_with(t: &[u8], byte: u8) -> bool
    ensures { result ≡ begins_with byte t.now }
{
    match t {
        [first, ..] => *first == byte,
        [] => false,
    }
}

/// How many of this byte come first.
pub(crate) fn run<L: Ledger>(t: &[u8], mark: u8, turns: &mut Turns<L>) -> usize
    ensures value { result ≡ run mark t.now }
    ensures within { result ≤ length t.now }
    ensures turns { turns.new ≤ turns.old + result + 1 }
{
    let mut next = 0;
    while next < t.len() {
        turns.add_one();
        if t[next] != mark {
            return next;
        }
        next += 1;
    }
    next
}
