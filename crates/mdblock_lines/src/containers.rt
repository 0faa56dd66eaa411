//! Containers: which go on with a line, and which begin in it. The line's rest is its virtual bytes from a column on.

ghost use Rattle.std.specs.Prelude.{◌≡◌, ◌≤◌, ◌<◌, ◌+◌, ◌-◌, ◌*◌, ℕ, IfSome, Bool, true, length, drop, Some, None, ◌&&◌, cond, false, option_map, take, suc, ◌^◌, ◌==◌, slice_index, nat_le};
ghost use Rattle.mdblock_leaf_blocks.specs.LineKinds.{indent, unindented, is_blank_line, is_thematic_break};
ghost use Rattle.mdblock_lines.specs.Containers.{quote_size, goes_on, digits, is_one, is_marker, padding, item_at, may_begin_item, begins, quote, is_footnote, is_in_label, label_size, footnote, item};
ghost use Rattle.mdblock_lines.specs.Containers as nested;
ghost use Rattle.mdblock_lines.specs.Views.{container_of, footnote_prefix, is_footnote_at, item_of, prefix_of, quote_prefix, is_marker_behind, may_stand, prefix_behind, prefix_by, is_past, is_quote_at};

use crate::bytes::{begins_white, begins_with, behind, front, indent, is_white, run};
use markdown_base::configuration::Constructs;
use mdconstructs_loop_counts::Turns;
use std::sync::ledger::Ledger;

/// What a container is.
#[derive(Clone, Copy)]
pub enum ContainerKind {
    /// A block quote.
    Quote,
    /// A list item.
    Item,
    /// A footnote definition.
    Footnote,
}

/// A container: a block quote, a list item, or a footnote definition.
#[derive(Clone, Copy)]
pub struct Container {
    /// What it is.
    pub kind: ContainerKind,
    /// Of a block quote: at most three columns of white space come before each of its markers.
    pub is_near: bool,
    /// The number of the line that begins it.
    pub line: usize,
    /// Of an item: how many columns of white space a line needs to go on with it.
    pub size: usize,
    /// Of an item: its marker, behind its number if it has one.
    pub marker: u8,
    /// Of an item: how many digits it has.
    pub digits: usize,
    /// Of an item: nothing is behind its marker.
    pub is_blank: bool,
    /// Of a footnote definition: how many bytes its label has.
    pub label: usize,
}

/// The first column from another on that is not white space, by such a column of a place before it. So white space is walked over once.
pub fn first_from<L: Ledger>(
    t: &[u8],
    from: usize,
    at: usize,
    first: usize,
    turns: &mut Turns<L>,
) -> usize
    requires order { from ≤ at }
    requires inside { at ≤ length t.now }
    requires first { first ≡ from + indent (drop from t.now) }
    ensures value { result ≡ at + indent (drop at t.now) }
    ensures turns { turns.new + first ≤ turns.old + result }
{
    if at <= first {
        return first;
    }
    at + indent(behind(t, at), turns)
}

/// A line's rest has only these columns of white space.
#[tactic(auto, using(crate::proofs::LineLemmas::all_by_prefix))]
fn is_all(t: &[u8], columns: usize) -> bool
    requires { columns ≡ indent t.now }
    ensures value { result ≡ is_blank_line t.now }
    ensures len { result ≡ (columns == length t.now) }
{
    columns == t.len()
}

/// The columns of a quote's prefix: white space, the marker, and one column of white space.
#[tactic(auto, using(crate::proofs::LineLemmas::drop_one))]
fn quote_size(t: &[u8], columns: usize) -> usize
    requires columns { columns ≡ indent t.now }
    requires within { columns ≤ length t.now }
    requires inside { columns < length t.now }
    ensures { result ≡ quote_size t.now }
{
    let after = behind(t, columns + 1);
    columns + 1 + if begins_white(after) { 1 } else { 0 }
}

/// The columns of the prefix with which a container goes on with a line's rest, if it does. `columns` of white space come first.
pub fn goes_on(c: &Container, number: usize, t: &[u8], columns: usize) -> Option<usize>
    requires columns { columns ≡ indent t.now }
    requires within { columns ≤ length t.now }
    ensures { (list : ℕ) → result ≡ goes_on (container_of list c.now) number t.now }
{
    match c.kind {
        ContainerKind::Quote => quote_goes_on(c.is_near, t, columns),
        ContainerKind::Item => item_goes_on(c, number, t, columns),
        ContainerKind::Footnote => footnote_goes_on(t, columns),
    }
}

fn quote_goes_on(is_near: bool, t: &[u8], columns: usize) -> Option<usize>
    requires columns { columns ≡ indent t.now }
    requires within { columns ≤ length t.now }
    ensures { (line : ℕ) → (number : ℕ) → result ≡ goes_on (quote (record { line = line; is_near = is_near })) number t.now }
{
    if columns == t.len() || t[columns] != b'>' || is_near && columns >= 4 {
        return None;
    }
    Some(quote_size(t, columns))
}

fn item_goes_on(c: &Container, number: usize, t: &[u8], columns: usize) -> Option<usize>
    requires columns { columns ≡ indent t.now }
    requires within { columns ≤ length t.now }
    ensures { (list : ℕ) → result ≡ goes_on (item (item_of list c.now)) number t.now }
{
    if is_all(t, columns) {
        if c.is_blank && number > c.line && number - c.line == 1 {
            return None;
        }
        return Some(if c.size <= columns { c.size } else { columns });
    }
    if c.size <= columns {
        Some(c.size)
    } else {
        None
    }
}

fn footnote_goes_on(t: &[u8], columns: usize) -> Option<usize>
    requires columns { columns ≡ indent t.now }
    requires within { columns ≤ length t.now }
    ensures { (line : ℕ) → (label : ℕ) → (number : ℕ) → result ≡ goes_on (footnote (record { line = line; label = label })) number t.now }
{
    if columns >= 4 {
        return Some(4);
    }
    if is_all(t, columns) {
        Some(columns)
    } else {
        None
    }
}

fn digits<L: Ledger>(t: &[u8], turns: &mut Turns<L>) -> usize
    ensures value { result ≡ digits t.now }
    ensures within { result ≤ length t.now }
    ensures turns { turns.new ≤ turns.old + result + 1 }
{
    let mut next = 0;
    while next < t.len() {
        turns.add_one();
        if !t[next].is_ascii_digit() {
            return next;
        }
        next += 1;
    }
    next
}

/// The digits are those of one: zeros, and a one behind them.
fn is_one<L: Ledger>(t: &[u8], turns: &mut Turns<L>) -> bool
    ensures value { result ≡ is_one t.now }
    ensures turns { turns.new ≤ turns.old + length t.now + 1 }
{
    let n = run(t, b'0', turns);
    begins_with(behind(t, n), b'1') && t.len() == n + 1
}

/// Behind so many digits this byte is a marker.
fn is_marker(n: usize, byte: u8) -> bool
    ensures { result ≡ is_marker_behind n byte }
{
    if n == 0 {
        byte == b'*' || byte == b'+' || byte == b'-'
    } else {
        n <= 9 && (byte == b'.' || byte == b')')
    }
}

/// The columns between a marker and the text of an item.
fn padding(after: &[u8], white: usize) -> usize
    requires white { white ≡ indent after.now }
    requires within { white ≤ length after.now }
    ensures value { result ≡ padding after.now }
    ensures least { result ≤ 4 }
{
    if !is_all(after, white) && white <= 4 {
        white
    } else {
        1
    }
}

/// A container that begins, and the columns of its prefix.
#[derive(Clone, Copy)]
pub struct Prefix {
    /// The container.
    pub container: Container,
    /// The columns of its prefix.
    pub size: usize,
}

/// White space or nothing is behind a marker, and an item may begin there.
fn may_stand<L: Ledger>(
    in_paragraph: bool,
    n: usize,
    number: &[u8],
    after: &[u8],
    white: usize,
    turns: &mut Turns<L>,
) -> bool
    requires white { white ≡ indent after.now }
    requires within { white ≤ length after.now }
    ensures value { result ≡ may_stand in_paragraph n number.now after.now }
    ensures turns { turns.new ≤ turns.old + length number.now + 1 }
{
    let is_blank = is_all(after, white);
    (is_blank || white >= 1) && !(in_paragraph && (is_blank || n >= 1 && !is_one(number, turns)))
}

/// The item whose number or marker is behind the white space.
#[tactic(auto, using(crate::proofs::LineLemmas::marker_missing, crate::proofs::LineLemmas::marker_wrong, crate::proofs::LineLemmas::item_none))]
fn item_at<L: Ledger>(
    number: usize,
    t: &[u8],
    columns: usize,
    in_paragraph: bool,
    turns: &mut Turns<L>,
) -> Option<Prefix>
    requires columns { columns ≡ indent t.now }
    requires within { columns ≤ length t.now }
    ensures value { option_map (prefix_of number) result ≡ cond (may_begin_item in_paragraph (unindented t.now)) (Some (item_at number t.now)) None }
    ensures found { IfSome result (λ p. turns.new + columns ≤ turns.old + 2 * p.size + indent (drop p.size t.now) + 1) }
    ensures turns { turns.new ≤ turns.old + 2 * length t.now + 2 }
{
    let r = behind(t, columns);
    let n = digits(r, turns);
    if n == r.len() {
        return None;
    }
    if !is_marker(n, r[n]) {
        return None;
    }
    item_behind(number, columns, in_paragraph, r, n, turns)
}

/// The item whose number, of so many digits, and marker are here.
fn item_behind<L: Ledger>(
    number: usize,
    columns: usize,
    in_paragraph: bool,
    r: &[u8],
    n: usize,
    turns: &mut Turns<L>,
) -> Option<Prefix>
    requires within { n < length r.now }
    requires room { columns + length r.now < 2 ^ 63 }
    ensures value { option_map (prefix_of number) result ≡ prefix_behind in_paragraph number columns n (slice_index r.now n) r.now (n + 1) }
    ensures least { IfSome result (λ p. columns + (n + 1) ≤ p.size) }
    ensures found { IfSome result (λ p. turns.new + columns ≤ turns.old + p.size + indent (drop (p.size - columns) r.now) + 1) }
    ensures turns { turns.new ≤ turns.old + length r.now + 1 }
{
    let after = behind(r, n + 1);
    let white = indent(after, turns);
    if may_stand(in_paragraph, n, front(r, n), after, white, turns) {
        Some(item_of(number, columns + (n + 1), r[n], n, after, white))
    } else {
        None
    }
}

/// An item, by its marker and what is behind it.
fn item_of(
    number: usize,
    front: usize,
    marker: u8,
    digits: usize,
    after: &[u8],
    white: usize,
) -> Prefix
    requires white { white ≡ indent after.now }
    requires within { white ≤ length after.now }
    requires room { front + 4 < 2 ^ 64 }
    ensures value { prefix_of number result ≡ prefix_by number front marker digits after.now }
    ensures least { front ≤ result.size }
{
    let size = front + padding(after, white);
    let is_blank = is_all(after, white);
    let container = Container {
        kind: ContainerKind::Item,
        is_near: false,
        line: number,
        size,
        marker,
        digits,
        is_blank,
        label: 0,
    };
    Prefix {
        container,
        size: if is_blank { front } else { size },
    }
}

/// The block quote that begins behind the white space, whose markers are near or need not be.
fn quote_at(is_near: bool, number: usize, t: &[u8], columns: usize) -> Prefix
    requires columns { columns ≡ indent t.now }
    requires within { columns ≤ length t.now }
    requires inside { columns < length t.now }
    ensures { prefix_of number result ≡ quote_prefix is_near number t.now }
{
    let container = Container {
        kind: ContainerKind::Quote,
        is_near,
        line: number,
        size: 0,
        marker: b'>',
        digits: 0,
        is_blank: false,
        label: 0,
    };
    Prefix {
        container,
        size: quote_size(t, columns),
    }
}

/// Whether a byte may be in the label of a footnote.
fn is_in_label(byte: u8) -> bool
    ensures { result ≡ is_in_label byte }
{
    !is_white(byte) && byte != 0 && byte != b']'
}

/// How many bytes of the label of a footnote come first.
fn label_size<L: Ledger>(r: &[u8], turns: &mut Turns<L>) -> usize
    ensures value { result ≡ label_size r.now }
    ensures within { result ≤ length r.now }
    ensures turns { turns.new ≤ turns.old + result + 1 }
{
    let mut next = 0;
    while next < r.len() {
        turns.add_one();
        if !is_in_label(r[next]) {
            return next;
        }
        next += 1;
    }
    next
}

/// How many bytes the label of the footnote definition has that is at the front, if one is.
fn label_at<L: Ledger>(r: &[u8], turns: &mut Turns<L>) -> Option<usize>
    ensures value { result ≡ cond (is_footnote r.now) (Some (label_size (drop 2 r.now))) None }
    ensures within { IfSome result (λ n. n + 4 ≤ length r.now) }
    ensures found { IfSome result (λ n. turns.new ≤ turns.old + n + 1) }
    ensures turns { turns.new ≤ turns.old + length r.now }
{
    if r.len() < 2 || r[0] != b'[' || r[1] != b'^' {
        return None;
    }
    let label = label_size(behind(r, 2), turns);
    match behind(r, label + 2) {
        [b']', b':', ..] if label >= 1 => Some(label),
        _ => None,
    }
}

/// The footnote definition behind white space of so many columns whose label has so many bytes, by what is behind the colon.
fn footnote_of<L: Ledger>(
    number: usize,
    columns: usize,
    label: usize,
    after: &[u8],
    turns: &mut Turns<L>,
) -> Prefix
    requires room { columns + label + 4 + length after.now < 2 ^ 64 }
    ensures value { prefix_of number result ≡ footnote_prefix number columns label after.now }
    ensures size { result.size ≡ columns + (label + 4) + indent after.now }
    ensures within { indent after.now ≤ length after.now }
    ensures turns { turns.new ≤ turns.old + indent after.now + 1 }
{
    let container = Container {
        kind: ContainerKind::Footnote,
        is_near: false,
        line: number,
        size: 4,
        marker: b'^',
        digits: 0,
        is_blank: false,
        label,
    };
    Prefix {
        container,
        size: columns + (label + 4) + indent(after, turns),
    }
}

/// The footnote definition that begins behind the white space, if one does.
fn footnote_at<L: Ledger>(
    on: &Constructs,
    number: usize,
    t: &[u8],
    columns: usize,
    turns: &mut Turns<L>,
) -> Option<Prefix>
    requires columns { columns ≡ indent t.now }
    requires within { columns ≤ length t.now }
    ensures value { option_map (prefix_of number) result ≡ cond (is_footnote_at on.now t.now) (Some (nested.footnote_at number t.now)) None }
    ensures found { IfSome result (λ p. turns.new + columns ≤ turns.old + p.size) }
    ensures turns { turns.new + columns ≤ turns.old + length t.now }
{
    if !on.gfm_footnote_definition {
        return None;
    }
    let r = behind(t, columns);
    let label = label_at(r, turns)?;
    Some(footnote_of(number, columns, label, behind(r, label + 4), turns))
}

/// The container that begins with a line's rest, if one does. `columns` of white space come first; `is_break`: the rest is a thematic break.
pub fn begins<L: Ledger>(
    on: &Constructs,
    number: usize,
    in_paragraph: bool,
    t: &[u8],
    columns: usize,
    is_break: bool,
    turns: &mut Turns<L>,
) -> Option<Prefix>
    requires columns { columns ≡ indent t.now }
    requires within { columns ≤ length t.now }
    requires is_break { is_break ≡ on.now.thematic_break && is_thematic_break (unindented t.now) }
    ensures value { option_map (prefix_of number) result ≡ begins on.now number in_paragraph t.now }
    ensures found { IfSome result (λ p. turns.new + columns ≤ turns.old + 2 * p.size + indent (drop p.size t.now) + 1) }
    ensures turns { turns.new ≤ turns.old + 2 * length t.now + 2 }
{
    if is_past(on, t, columns, is_break) {
        return None;
    }
    if is_quote_at(on, t, columns) {
        return Some(quote_at(on.code_indented, number, t, columns));
    }
    if begins_with(behind(t, columns), b'[') {
        return footnote_at(on, number, t, columns, turns);
    }
    if on.list_item {
        item_at(number, t, columns, in_paragraph, turns)
    } else {
        None
    }
}

/// No container begins: the line's rest is too far to the right, or blank, or a thematic break.
fn is_past(on: &Constructs, t: &[u8], columns: usize, is_break: bool) -> bool
    requires columns { columns ≡ indent t.now }
    requires within { columns ≤ length t.now }
    requires is_break { is_break ≡ on.now.thematic_break && is_thematic_break (unindented t.now) }
    ensures value { result ≡ is_past on.now t.now }
    ensures some { result ≡ false → columns < length t.now }
{
    on.code_indented && columns >= 4 || is_all(t, columns) || is_break
}

/// A quote's marker is behind the white space.
fn is_quote_at(on: &Constructs, t: &[u8], columns: usize) -> bool
    requires columns { columns ≡ indent t.now }
    requires within { columns ≤ length t.now }
    ensures { result ≡ is_quote_at on.now t.now }
{
    on.block_quote && begins_with(behind(t, columns), b'>')
}
