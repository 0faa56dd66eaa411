//! Labels, destinations and titles at the front of a text: how many bytes each has (CommonMark, "Links", "Link reference definitions").

ghost use Rattle.std.specs.List.{prefix_len};
ghost use Rattle.std.specs.Prelude.{ℕ, ◌≡◌, ◌+◌, ◌≤◌, ◌<◌, ◌⊎◌, IfSome, length, true, false};
ghost use Rattle.mdinline_labels.specs.Labels.{hides};
ghost use Rattle.mdinline_labels.specs.Tails.{is_white, ends_raw, begins_with, begins_title, line_ends, bare_behind, is_plain, marked_size, label_size, enclosed_size, raw_end, behind, is_raw_end, depth_behind, raw_size, destination_size, title_end, title_size, gap};

use mdconstructs_loop_counts::Turns;
use std::sync::ledger::Ledger;

/// So many parentheses may be open in a destination without marks.
pub const DEPTH_MAX: usize = 32;

/// A space or a tab.
fn is_white(byte: u8) -> bool
    ensures { result ≡ is_white byte }
{
    byte == b' ' || byte == b'\t'
}

/// White space or a control character, but not NUL, which is U+FFFD.
fn ends_raw(byte: u8) -> bool
    ensures { result ≡ ends_raw byte }
{
    byte >= 1 && byte <= b' ' || byte == 127
}

/// A byte is this one, and is not hidden.
fn is_plain(wanted: u8, hidden: bool, byte: u8) -> bool
    ensures { result ≡ is_plain wanted hidden byte }
{
    byte == wanted && !hidden
}

/// Whether a byte hides the one behind it.
fn hides(hidden: bool, byte: u8) -> bool
    ensures { result ≡ hides hidden byte }
{
    byte == b'\\' && !hidden
}

/// Whether a text begins with this byte.
pub(crate) fn begins_with(wanted: u8, bytes: &[u8]) -> bool
    ensures { result ≡ begins_with wanted bytes.now }
{
    !bytes.is_empty() && bytes[0] == wanted
}

/// Whether a line ends there: a line ending comes, or nothing.
pub(crate) fn line_ends(bytes: &[u8]) -> bool
    ensures { result ≡ line_ends bytes.now }
{
    bytes.is_empty() || bytes[0] == b'\n'
}

/// How many spaces and tabs come.
pub(crate) fn blanks<L: Ledger>(bytes: &[u8], turns: &mut Turns<L>) -> usize
    ensures size { result ≡ prefix_len is_white bytes.now }
    ensures inside { result ≤ length bytes.now }
    ensures turns { turns.new ≤ turns.old + result + 1 }
{
    let mut next = 0;
    while next < bytes.len() {
        turns.add_one();
        if !is_white(bytes[next]) {
            return next;
        }
        next += 1;
    }
    next
}

/// Whether only white space stands in the line so far, behind a byte.
fn bare_behind(bare: bool, byte: u8) -> bool
    ensures { result ≡ bare_behind bare byte }
{
    byte == b'\n' || bare && is_white(byte)
}

/// Behind the first of two marks: how many bytes come before the second. Between them comes no other first one that is not hidden, and no blank line.
#[tactic(auto, using(crate::proofs::Steps::sizes))]
fn marked_size<L: Ledger>(first: u8, last: u8, bytes: &[u8], turns: &mut Turns<L>) -> Option<usize>
    ensures size { result ≡ marked_size first last false false bytes.now }
    ensures inside { IfSome result (λ n. n < length bytes.now) }
    ensures found { IfSome result (λ n. turns.new ≤ turns.old + n + 1) }
    ensures turns { turns.new ≤ turns.old + length bytes.now }
{
    let mut next = 0;
    let mut bare = false;
    let mut hidden = false;
    while next < bytes.len() {
        turns.add_one();
        let byte = bytes[next];
        if is_plain(last, hidden, byte) {
            return Some(next);
        }
        if is_plain(first, hidden, byte) || bare && byte == b'\n' {
            return None;
        }
        bare = bare_behind(bare, byte);
        hidden = hides(hidden, byte);
        next += 1;
    }
    None
}

/// Behind a `[`: how many bytes a label has, up to its `]`.
pub fn label_size<L: Ledger>(bytes: &[u8], turns: &mut Turns<L>) -> Option<usize>
    ensures size { result ≡ label_size bytes.now }
    ensures inside { IfSome result (λ n. n < length bytes.now) }
    ensures found { IfSome result (λ n. turns.new ≤ turns.old + n + 1) }
    ensures turns { turns.new ≤ turns.old + length bytes.now }
{
    marked_size(b'[', b']', bytes, turns)
}

/// Behind a `<`: how many bytes a destination has, up to its `>`.
#[tactic(auto, using(crate::proofs::Steps::sizes))]
fn enclosed_size<L: Ledger>(bytes: &[u8], turns: &mut Turns<L>) -> Option<usize>
    ensures size { result ≡ enclosed_size false bytes.now }
    ensures inside { IfSome result (λ n. n < length bytes.now) }
    ensures found { IfSome result (λ n. turns.new ≤ turns.old + n + 1) }
    ensures turns { turns.new ≤ turns.old + length bytes.now }
{
    let mut next = 0;
    let mut hidden = false;
    while next < bytes.len() {
        turns.add_one();
        let byte = bytes[next];
        if is_plain(b'>', hidden, byte) {
            return Some(next);
        }
        if is_plain(b'<', hidden, byte) || byte == b'\n' {
            return None;
        }
        hidden = hides(hidden, byte);
        next += 1;
    }
    None
}

/// How many parentheses are open behind a byte.
fn depth_behind(depth: usize, hidden: bool, byte: u8) -> usize
    requires { depth ≤ 32 }
    ensures { result ≡ depth_behind depth hidden byte }
{
    if is_plain(b'(', hidden, byte) {
        depth + 1
    } else if is_plain(b')', hidden, byte) {
        depth.saturating_sub(1)
    } else {
        depth
    }
}

/// Whether a destination without marks ends at this byte.
fn is_raw_end(depth: usize, hidden: bool, byte: u8) -> bool
    ensures { result ≡ is_raw_end depth hidden byte }
{
    ends_raw(byte) || is_plain(b')', hidden, byte) && depth == 0
}

/// A destination without marks that ends: how many bytes it has, if all its parentheses are closed.
fn closed(size: usize, depth: usize) -> Option<usize>
    ensures size { result ≡ behind size (raw_end depth) }
    ensures inside { (bound : ℕ) → size ≤ bound → IfSome result (λ n. n ≤ bound) }
{
    if depth == 0 { Some(size) } else { None }
}

/// How many bytes a destination without marks has.
#[tactic(auto, using(crate::proofs::Steps::sizes))]
fn raw_size<L: Ledger>(bytes: &[u8], turns: &mut Turns<L>) -> Option<usize>
    ensures size { result ≡ raw_size 0 false bytes.now }
    ensures inside { IfSome result (λ n. n ≤ length bytes.now) }
    ensures found { IfSome result (λ n. turns.new ≤ turns.old + n + 1) }
    ensures turns { turns.new ≤ turns.old + length bytes.now }
{
    let mut next = 0;
    let mut depth = 0usize;
    let mut hidden = false;
    while next < bytes.len() {
        turns.add_one();
        let byte = bytes[next];
        if is_raw_end(depth, hidden, byte) {
            return closed(next, depth);
        }
        if is_plain(b'(', hidden, byte) && depth >= DEPTH_MAX {
            return None;
        }
        depth = depth_behind(depth, hidden, byte);
        hidden = hides(hidden, byte);
        next += 1;
    }
    closed(next, depth)
}

/// How many bytes a destination has, with its marks.
pub fn destination_size<L: Ledger>(bytes: &[u8], turns: &mut Turns<L>) -> Option<usize>
    ensures size { result ≡ destination_size bytes.now }
    ensures inside { IfSome result (λ n. n ≤ length bytes.now) }
    ensures found { IfSome result (λ n. turns.new ≤ turns.old + n + 1) }
    ensures turns { turns.new ≤ turns.old + length bytes.now }
{
    if begins_with(b'<', bytes) {
        let size = enclosed_size(&bytes[1..], turns)?;
        Some(size + 2)
    } else {
        let size = raw_size(bytes, turns)?;
        if size == 0 { None } else { Some(size) }
    }
}

/// The mark that ends a title which this byte begins, if it begins one.
fn title_end(byte: u8) -> Option<u8>
    ensures { result ≡ title_end byte }
{
    if byte == b'"' || byte == b'\'' {
        Some(byte)
    } else if byte == b'(' {
        Some(b')')
    } else {
        None
    }
}

/// How many bytes a title has, with its marks.
pub fn title_size<L: Ledger>(bytes: &[u8], turns: &mut Turns<L>) -> Option<usize>
    ensures size { result ≡ title_size bytes.now }
    ensures inside { IfSome result (λ n. n ≤ length bytes.now) }
    ensures found { IfSome result (λ n. turns.new ≤ turns.old + n + 1) }
    ensures turns { turns.new ≤ turns.old + length bytes.now }
    ensures tried { (turns.new ≡ turns.old) ⊎ (begins_title bytes.now ≡ true) }
    ensures mark { IfSome result (λ n. begins_title bytes.now ≡ true) }
{
    if bytes.is_empty() {
        return None;
    }
    let close = title_end(bytes[0])?;
    let size = marked_size(bytes[0], close, &bytes[1..], turns)?;
    Some(size + 2)
}

/// How many bytes of white space come, with one line ending at most.
pub fn gap<L: Ledger>(bytes: &[u8], turns: &mut Turns<L>) -> usize
    ensures size { result ≡ gap bytes.now }
    ensures inside { result ≤ length bytes.now }
    ensures turns { turns.new ≤ turns.old + result + 2 }
{
    let before = blanks(bytes, turns);
    if begins_with(b'\n', &bytes[before..]) {
        before + 1 + blanks(&bytes[before + 1..], turns)
    } else {
        before
    }
}
