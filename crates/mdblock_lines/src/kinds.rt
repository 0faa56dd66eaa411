//! What a line is, by its virtual bytes without its line ending.

ghost use Rattle.std.specs.Prelude.{◌≡◌, ℕ, ◌≤◌, ◌+◌, ◌*◌, ◌==◌, not, length, filter, option_map};
ghost use Rattle.std.specs.List.{prefix_len, list_all};
ghost use Rattle.mdblock_leaf_blocks.specs.LineKinds.{is_break_of_marks, is_thematic_break, is_atx_heading, is_underline_of_marks, is_fence_of, is_far, closes, kind_of_rest, line_kind, underline_rank};
ghost use Rattle.mdblock_lines.specs.Views.{fence_of, kind_of, html_kind_of, is_mark_or_white, html_if_on, unfenced_kind};

use crate::bytes::{
    begins_with, behind, indent, is_blank_line, is_white, is_white_or_end, run, unindented,
};
use crate::html::{HtmlKind, html_kind};
use markdown_base::configuration::Constructs;
use mdconstructs_loop_counts::Turns;
use std::sync::ledger::Ledger;

/// A fence: its byte, how many of it, and the columns before it.
#[derive(Clone, Copy)]
pub struct Fence {
    /// Its byte.
    pub byte: u8,
    /// How many of it.
    pub size: usize,
    /// The columns before it.
    pub indent: usize,
}

/// What a line is, if it is asked alone.
#[derive(Clone, Copy)]
pub enum LineKind {
    /// Only white space, or nothing.
    Blank,
    /// Four columns of white space or more come first.
    Indented,
    /// An ATX heading.
    Heading,
    /// An opening fence.
    Fence(Fence),
    /// HTML begins, of this kind.
    Html(HtmlKind),
    /// A thematic break.
    ThematicBreak,
    /// Other text.
    Text,
}

fn is_break_of_marks<L: Ledger>(r: &[u8], mark: u8, turns: &mut Turns<L>) -> bool
    ensures value { result ≡ is_break_of_marks mark r.now }
    ensures turns { turns.new ≤ turns.old + 2 * length r.now }
{
    begins_with(r, mark) && has_only(r, mark, turns) && marks_in(r, mark, turns) >= 3
}

fn is_mark_or_white(byte: u8, mark: u8) -> bool
    ensures { result ≡ is_mark_or_white mark byte }
{
    byte == mark || is_white(byte)
}

fn has_only<L: Ledger>(r: &[u8], mark: u8, turns: &mut Turns<L>) -> bool
    ensures value { result ≡ list_all (is_mark_or_white mark) r.now }
    ensures turns { turns.new ≤ turns.old + length r.now }
{
    let mut next = 0;
    while next < r.len() {
        turns.add_one();
        if !is_mark_or_white(r[next], mark) {
            return false;
        }
        next += 1;
    }
    true
}

fn marks_in<L: Ledger>(r: &[u8], mark: u8, turns: &mut Turns<L>) -> usize
    ensures value { result ≡ length (filter (λ b. b == mark) r.now) }
    ensures turns { turns.new ≤ turns.old + length r.now }
{
    let mut marks = 0;
    let mut next = 0;
    while next < r.len() {
        turns.add_one();
        if r[next] == mark {
            marks += 1;
        }
        next += 1;
    }
    marks
}

/// Three marks or more of one kind, and white space between and behind them.
pub fn is_thematic_break<L: Ledger>(r: &[u8], turns: &mut Turns<L>) -> bool
    ensures value { result ≡ is_thematic_break r.now }
    ensures turns { turns.new ≤ turns.old + 6 * length r.now }
{
    is_break_of_marks(r, b'*', turns)
        || is_break_of_marks(r, b'-', turns)
        || is_break_of_marks(r, b'_', turns)
}

/// One to six number signs, and then white space or nothing.
pub fn is_atx_heading<L: Ledger>(r: &[u8], turns: &mut Turns<L>) -> bool
    ensures value { result ≡ is_atx_heading r.now }
    ensures turns { turns.new ≤ turns.old + length r.now + 1 }
{
    let n = run(r, b'#', turns);
    n >= 1 && n <= 6 && is_white_or_end(behind(r, n))
}

/// One mark or more, and then only white space.
pub fn is_underline_of_marks<L: Ledger>(r: &[u8], mark: u8, turns: &mut Turns<L>) -> bool
    ensures value { result ≡ is_underline_of_marks mark r.now }
    ensures turns { turns.new ≤ turns.old + length r.now + 1 }
{
    begins_with(r, mark) && is_blank_line(behind(r, run(r, mark, turns)), turns)
}

/// Three or more of a fence's byte; behind grave accents there is none of them.
pub fn is_fence_of<L: Ledger>(r: &[u8], byte: u8, turns: &mut Turns<L>) -> bool
    ensures value { result ≡ is_fence_of byte r.now }
    ensures turns { turns.new ≤ turns.old + length r.now + 1 }
{
    let n = run(r, byte, turns);
    n >= 3 && (byte == b'~' || has_no_grave(behind(r, n), turns))
}

fn has_no_grave<L: Ledger>(t: &[u8], turns: &mut Turns<L>) -> bool
    ensures value { result ≡ list_all (λ b. not (b == 96)) t.now }
    ensures turns { turns.new ≤ turns.old + length t.now }
{
    let mut next = 0;
    while next < t.len() {
        turns.add_one();
        if t[next] == b'`' {
            return false;
        }
        next += 1;
    }
    true
}

/// Four columns or more.
pub fn is_far<L: Ledger>(on: &Constructs, t: &[u8], turns: &mut Turns<L>) -> bool
    ensures value { result ≡ is_far on.now t.now }
    ensures turns { turns.new ≤ turns.old + length t.now + 1 }
{
    on.code_indented && indent(t, turns) >= 4
}

/// A line closes a fence.
pub fn closes<L: Ledger>(on: &Constructs, fence: Fence, t: &[u8], turns: &mut Turns<L>) -> bool
    ensures value { result ≡ closes on.now (fence_of fence) t.now }
    ensures turns { turns.new ≤ turns.old + 3 * length t.now + 3 }
{
    let r = unindented(t, turns);
    let n = run(r, fence.byte, turns);
    !is_far(on, t, turns) && n >= fence.size && is_blank_line(behind(r, n), turns)
}

/// What a line is from its first byte that is not white space on, by the columns before it.
pub fn kind_of_rest<L: Ledger>(
    on: &Constructs,
    columns: usize,
    r: &[u8],
    turns: &mut Turns<L>,
) -> LineKind
    ensures value { kind_of result ≡ kind_of_rest on.now columns r.now }
    ensures turns { turns.new ≤ turns.old + 24 * length r.now + 804 }
{
    if on.heading_atx && is_atx_heading(r, turns) {
        return LineKind::Heading;
    }
    if on.code_fenced && is_fence_of(r, b'`', turns) {
        return LineKind::Fence(fence_at(b'`', columns, r, turns));
    }
    if on.code_fenced && is_fence_of(r, b'~', turns) {
        return LineKind::Fence(fence_at(b'~', columns, r, turns));
    }
    unfenced_kind(on, r, turns)
}

fn fence_at<L: Ledger>(byte: u8, columns: usize, r: &[u8], turns: &mut Turns<L>) -> Fence
    ensures byte { result.byte ≡ byte }
    ensures size { result.size ≡ prefix_len (λ b. b == byte) r.now }
    ensures indent { result.indent ≡ columns }
    ensures turns { turns.new ≤ turns.old + length r.now + 1 }
{
    Fence {
        byte,
        size: run(r, byte, turns),
        indent: columns,
    }
}

/// As `kind_of_rest`, of what is neither a heading nor a fence.
fn unfenced_kind<L: Ledger>(on: &Constructs, r: &[u8], turns: &mut Turns<L>) -> LineKind
    ensures value { kind_of result ≡ unfenced_kind on.now r.now }
    ensures turns { turns.new ≤ turns.old + 20 * length r.now + 800 }
{
    if let Some(kind) = html_if_on(on, r, turns) {
        return LineKind::Html(kind);
    }
    if on.thematic_break && is_thematic_break(r, turns) {
        return LineKind::ThematicBreak;
    }
    LineKind::Text
}

/// The kind of HTML that begins here, if HTML is on.
fn html_if_on<L: Ledger>(on: &Constructs, r: &[u8], turns: &mut Turns<L>) -> Option<HtmlKind>
    ensures value { option_map html_kind_of result ≡ html_if_on on.now r.now }
    ensures turns { turns.new ≤ turns.old + 14 * length r.now + 800 }
{
    if on.html_flow {
        html_kind(r, turns)
    } else {
        None
    }
}

/// What a line is.
pub fn line_kind<L: Ledger>(on: &Constructs, t: &[u8], turns: &mut Turns<L>) -> LineKind
    ensures value { kind_of result ≡ line_kind on.now t.now }
    ensures turns { turns.new ≤ turns.old + 27 * length t.now + 806 }
{
    if is_blank_line(t, turns) {
        return LineKind::Blank;
    }
    if is_far(on, t, turns) {
        return LineKind::Indented;
    }
    let columns = indent(t, turns);
    kind_of_rest(on, columns, behind(t, columns), turns)
}

/// The rank of the heading that a line makes of a paragraph before it, if it may be an underline.
pub fn underline_rank<L: Ledger>(on: &Constructs, t: &[u8], turns: &mut Turns<L>) -> Option<u8>
    ensures value { result ≡ underline_rank on.now t.now }
    ensures turns { turns.new ≤ turns.old + 3 * length t.now + 4 }
{
    if is_far(on, t, turns) || !on.heading_setext {
        return None;
    }
    let r = unindented(t, turns);
    if is_underline_of_marks(r, b'=', turns) {
        return Some(1);
    }
    if is_underline_of_marks(r, b'-', turns) {
        Some(2)
    } else {
        None
    }
}
