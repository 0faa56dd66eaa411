//! What stands at the front of a string: a line ending, a backslash escape, a character reference or data.

ghost use Rattle.std.specs.Prelude.{◌≡◌, ◌+◌, ◌*◌, ◌<◌, ◌≤◌, ◌==◌, ◌&&◌, length, drop, take, option_map, IfSome, None, ◌^◌};
ghost use Rattle.std.specs.Char.{is_ascii_punctuation};
ghost use Rattle.std.specs.List.{position_or_len, prefix_len};
ghost use Rattle.mdinline_constructs.specs.Reference.{is_semicolon, is_value, is_value_byte, is_x, marks, reference, reference_at, value_at};
ghost use Rattle.mdinline_link_strings.specs.Laid.{found_of, found_reference, kind_of, plain_ahead, IsKindAt};
ghost use Rattle.mdinline_constructs.specs.StringItems.{is_string_special, string_item_at, string_part};
ghost use Rattle.mdinline_text_machine.specs.Bytes.{has_byte_at, is_backslash};

use markdown_base::configuration::Constructs;
use mdconstructs_loop_counts::Turns;
use mdinline_characters::find;
use std::sync::ledger::Ledger;

/// The kinds of character references.
#[derive(Clone, Copy)]
pub enum Kind {
    /// By name.
    Named,
    /// By a decimal number.
    Decimal,
    /// By a hexadecimal number.
    Hexadecimal,
}

/// What stands at the front of a string.
#[derive(Clone, Copy)]
pub enum Item {
    /// A line ending.
    Ending,
    /// Data, of so many bytes.
    Plain(usize),
    /// A backslash escape.
    Escape,
    /// A character reference, with a value of so many bytes.
    Reference(Kind, usize),
}

/// How many bytes stand before the value of a reference.
pub(crate) fn marks(kind: Kind) -> usize
    ensures { result ≡ marks (kind_of kind) }
{
    match kind {
        Kind::Named => 1,
        Kind::Decimal => 2,
        Kind::Hexadecimal => 3,
    }
}

/// Whether a byte may be one of a value.
fn is_value_byte(kind: Kind, byte: u8) -> bool
    ensures { result ≡ is_value_byte (kind_of kind) byte }
{
    match kind {
        Kind::Named => byte.is_ascii_alphanumeric(),
        Kind::Decimal => byte.is_ascii_digit(),
        Kind::Hexadecimal => byte.is_ascii_hexdigit(),
    }
}

/// How many bytes of values a text begins with.
fn value_size<L: Ledger>(kind: Kind, text: &[u8], turns: &mut Turns<L>) -> usize
    ensures value { result ≡ prefix_len (is_value_byte (kind_of kind)) text.now }
    ensures within { result ≤ length text.now }
    ensures turns { turns.new ≡ turns.old + result }
{
    let mut next = 0;
    while next < text.len() {
        if !is_value_byte(kind, text[next]) {
            return next;
        }
        turns.add_one();
        next += 1;
    }
    next
}

/// Whether these bytes, which may be those of a value, are one: a name that HTML has, or a number that is not too long.
fn is_value(kind: Kind, value: &[u8]) -> bool
    ensures { result ≡ is_value (kind_of kind) value.now }
{
    match kind {
        Kind::Named => find(value).is_some(),
        Kind::Decimal => 1 <= value.len() && value.len() <= 7,
        Kind::Hexadecimal => 1 <= value.len() && value.len() <= 6,
    }
}

/// Whether a text has a byte at an index.
fn has_byte(text: &[u8], index: usize, byte: u8) -> bool
    ensures { result ≡ has_byte_at text.now index (λ b. b == byte) }
{
    match text.get(index) {
        Some(other) => *other == byte,
        None => false,
    }
}

/// Whether `x` or `X` is behind `&#`.
fn has_x(text: &[u8]) -> bool
    ensures { result ≡ has_byte_at text.now 2 is_x }
{
    match text.get(2) {
        Some(byte) => *byte == b'x' || *byte == b'X',
        None => false,
    }
}

/// Whether the first bytes of a text are a value, with `;` behind it.
fn is_value_there(kind: Kind, text: &[u8], n: usize) -> bool
    requires inside { n ≤ length text.now }
    ensures { result ≡ (is_value (kind_of kind) (take n text.now) && has_byte_at text.now n is_semicolon) }
{
    is_value(kind, &text[..n]) && has_byte(text, n, b';')
}

/// How many bytes the value at the front of a text has, if `;` is behind it.
#[tactic(auto, using(crate::proofs::Fronts::value_before, crate::proofs::Fronts::value_there))]
fn value_at<L: Ledger>(kind: Kind, text: &[u8], turns: &mut Turns<L>) -> Option<usize>
    ensures value { option_map (reference (kind_of kind)) result ≡ value_at (kind_of kind) text.now }
    ensures within { IfSome result (λ n. n < length text.now) }
    ensures paid { IfSome result (λ n. turns.new ≤ turns.old + n) }
    ensures turns { turns.new ≤ turns.old + position_or_len is_string_special text.now }
{
    let n = value_size(kind, text, turns);
    if is_value_there(kind, text, n) {
        Some(n)
    } else {
        None
    }
}

/// The kind of the reference that may be at the front of a text, by the marks there.
fn kind_at(text: &[u8]) -> Option<Kind>
    ensures { IsKindAt text.now result }
{
    if !has_byte(text, 0, b'&') {
        return None;
    }
    if !has_byte(text, 1, b'#') {
        return Some(Kind::Named);
    }
    if has_x(text) {
        return Some(Kind::Hexadecimal);
    }
    Some(Kind::Decimal)
}

/// The character reference at the front of a text, if there is one: its kind, and how many bytes its value has.
fn reference_at<L: Ledger>(text: &[u8], turns: &mut Turns<L>) -> Option<(Kind, usize)>
    ensures value { option_map found_reference result ≡ reference_at text.now }
    ensures within { IfSome result (λ r. marks (kind_of r.0) + r.1 + 1 ≤ length text.now) }
    ensures paid { IfSome result (λ r. turns.new ≤ turns.old + r.1) }
    ensures turns { turns.new ≤ turns.old + plain_ahead text.now }
{
    let kind = kind_at(text)?;
    let n = value_at(kind, &text[marks(kind)..], turns)?;
    Some((kind, n))
}

/// Whether a backslash escape is at the front of a text.
fn is_escape(text: &[u8]) -> bool
    ensures { result ≡ (has_byte_at text.now 0 is_backslash && has_byte_at text.now 1 is_ascii_punctuation) }
{
    match text {
        [first, second, ..] => *first == b'\\' && second.is_ascii_punctuation(),
        _ => false,
    }
}

/// Whether a line ending, an escape or a reference may begin with a byte.
pub(crate) fn is_special(byte: u8) -> bool
    ensures { result ≡ is_string_special byte }
{
    byte == b'\n' || byte == b'\\' || byte == b'&'
}

/// How many bytes come before one that is special, or all.
fn plain_size<L: Ledger>(text: &[u8], turns: &mut Turns<L>) -> usize
    ensures value { result ≡ position_or_len is_string_special text.now }
    ensures within { result ≤ length text.now }
    ensures turns { turns.new ≡ turns.old + result }
{
    let mut next = 0;
    while next < text.len() {
        if is_special(text[next]) {
            return next;
        }
        turns.add_one();
        next += 1;
    }
    next
}

/// A line ending or data at the front of a text.
fn part_at<L: Ledger>(text: &[u8], turns: &mut Turns<L>) -> Item
    requires some { 0 < length text.now }
    ensures value { found_of result ≡ string_part text.now }
    ensures within { (found_of result).size ≤ length text.now }
    ensures some { 0 < (found_of result).size }
    ensures turns { turns.new + 1 ≤ turns.old + (found_of result).size }
    ensures plain { plain_ahead text.now + 1 ≤ (found_of result).size }
{
    if text[0] == b'\n' {
        return Item::Ending;
    }
    Item::Plain(1 + plain_size(&text[1..], turns))
}

/// What stands at the front of a text.
pub(crate) fn item_at<L: Ledger>(on: &Constructs, text: &[u8], turns: &mut Turns<L>) -> Item
    requires some { 0 < length text.now }
    ensures value { found_of result ≡ string_item_at on.now text.now }
    ensures within { (found_of result).size ≤ length text.now }
    ensures some { 0 < (found_of result).size }
    ensures turns { turns.new + 1 ≤ turns.old + 2 * (found_of result).size }
{
    if on.character_escape && is_escape(text) {
        return Item::Escape;
    }
    if on.character_reference {
        if let Some((kind, n)) = reference_at(text, turns) {
            return Item::Reference(kind, n);
        }
    }
    part_at(text, turns)
}

/// How many bytes an item has.
pub(crate) fn size(item: Item) -> usize
    requires fits { (found_of item).size < 2 ^ 64 }
    ensures { result ≡ (found_of item).size }
{
    match item {
        Item::Ending => 1,
        Item::Plain(n) => n,
        Item::Escape => 2,
        Item::Reference(kind, n) => marks(kind) + n + 1,
    }
}
