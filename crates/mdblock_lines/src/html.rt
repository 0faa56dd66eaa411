//! HTML that a line begins, and lines that end it.

ghost use Rattle.std.specs.Prelude.{◌≡◌, ◌≤◌, ◌+◌, ◌*◌, ℕ, length, map, take, drop, option_copied, option_map, IfSome, IsTrue, ◌<◌, suc, not, ◌==◌, ◌&&◌, ◌||◌, codes};
ghost use Rattle.markdown_base.specs.Texts.{html_raw_names};
ghost use Rattle.std.specs.List.{prefix_len};
ghost use Rattle.mdblock_lines.specs.Views.{html_kind_of, is_name_byte, next_in_tag, closes_tag, is_name, names_size};
ghost use Rattle.std.specs.Char.{is_ascii_alphabetic};
ghost use Rattle.mdconstructs_tables.specs.Breaks.{is_white};
ghost use Rattle.mdblock_leaf_blocks.specs.LineWords.{indent, begins_with, starts_with, holds, first_passes, lower};
ghost use Rattle.mdblock_leaf_blocks.specs.HtmlLines.{raw, declaration, block_tag, any_tag, tag_name, is_named, begins_attribute, goes_on_attribute, is_bare, behind_quote, behind_value, behind_attribute, ends_tag, ends_open_tag, is_open_tag, is_closing_tag, name_at, behind_name, ends_name, is_block_name, begins, html_kind, ends, waits_for_blank};

use crate::bytes::{
    begins_white, begins_with, behind, front, is_blank_line, is_white, is_white_or_end, unindented,
};
use markdown_base::util::constant::{HTML_BLOCK_NAMES, HTML_RAW_NAMES};
use mdconstructs_loop_counts::Turns;
use std::sync::ledger::Ledger;

/// HTML by how it begins.
#[derive(Clone, Copy)]
pub enum HtmlKind {
    /// A tag whose content is raw, as `<pre`.
    Raw,
    /// `<!--`.
    Comment,
    /// `<?`.
    Instruction,
    /// `<!` and a letter.
    Declaration,
    /// `<![CDATA[`.
    Cdata,
    /// A tag of a block, as `<div`.
    BlockTag,
    /// A whole tag with any name.
    AnyTag,
}

fn begins_with_letter(t: &[u8]) -> bool
    ensures { result ≡ first_passes is_ascii_alphabetic t.now }
{
    match t {
        [first, ..] => first.is_ascii_alphabetic(),
        [] => false,
    }
}

/// How many bytes the name of a tag has.
fn tag_name<L: Ledger>(t: &[u8], turns: &mut Turns<L>) -> usize
    ensures value { result ≡ tag_name t.now }
    ensures within { result ≤ length t.now }
    ensures turns { turns.new ≤ turns.old + result + 1 }
{
    if begins_with_letter(t) {
        name_len(t, turns)
    } else {
        0
    }
}

fn is_name_byte(byte: u8) -> bool
    ensures { result ≡ is_name_byte byte }
{
    byte.is_ascii_alphanumeric() || byte == b'-'
}

fn name_len<L: Ledger>(t: &[u8], turns: &mut Turns<L>) -> usize
    ensures value { result ≡ prefix_len is_name_byte t.now }
    ensures within { result ≤ length t.now }
    ensures turns { turns.new ≤ turns.old + result + 1 }
{
    let mut next = 0;
    while next < t.len() {
        turns.add_one();
        if !is_name_byte(t[next]) {
            return next;
        }
        next += 1;
    }
    next
}

fn lower(byte: u8) -> u8
    ensures { result ≡ lower byte }
{
    if byte >= b'A' && byte <= b'Z' {
        byte + 32
    } else {
        byte
    }
}

/// A text begins with these bytes.
#[tactic(auto, using(crate::proofs::LineLemmas::begins_yes, crate::proofs::LineLemmas::begins_no, crate::proofs::LineLemmas::begins_end, crate::proofs::LineLemmas::begins_short))]
fn starts_with<L: Ledger>(t: &[u8], what: &[u8], turns: &mut Turns<L>) -> bool
    ensures value { result ≡ starts_with what.now t.now }
    ensures within { IsTrue result → length what.now ≤ length t.now }
    ensures turns { turns.new ≤ turns.old + length what.now }
{
    if t.len() < what.len() {
        return false;
    }
    for (n, byte) in what.iter().enumerate() {
        turns.add_one();
        if t[n] != *byte {
            return false;
        }
    }
    true
}

/// A text begins with these lowercase bytes, in any case.
#[tactic(auto, using(crate::proofs::LineLemmas::starts_yes, crate::proofs::LineLemmas::starts_no, crate::proofs::LineLemmas::starts_end, crate::proofs::LineLemmas::starts_short))]
fn starts_with_any_case<L: Ledger>(t: &[u8], what: &[u8], turns: &mut Turns<L>) -> bool
    ensures value { result ≡ starts_with what.now (map lower t.now) }
    ensures turns { turns.new ≤ turns.old + length what.now }
{
    if t.len() < what.len() {
        return false;
    }
    for (n, byte) in what.iter().enumerate() {
        turns.add_one();
        if lower(t[n]) != *byte {
            return false;
        }
    }
    true
}

fn is_named<L: Ledger>(names: &[&str], name: &[u8], turns: &mut Turns<L>) -> bool
    ensures value { result ≡ is_named (map (λ listed. listed.now) names.now) name.now }
    ensures turns { turns.new ≤ turns.old + names_size (map (λ listed. listed.now) names.now) }
{
    for listed in names {
        turns.add_one();
        if is_name(listed.as_bytes(), name, turns) {
            return true;
        }
    }
    false
}

fn is_name<L: Ledger>(listed: &[u8], name: &[u8], turns: &mut Turns<L>) -> bool
    ensures value { result ≡ is_name listed.now name.now }
    ensures turns { turns.new ≤ turns.old + length listed.now }
{
    starts_with_any_case(name, listed, turns) && listed.len() == name.len()
}

fn begins_attribute(t: &[u8]) -> bool
    ensures { result ≡ first_passes begins_attribute t.now }
{
    match t {
        [byte, ..] => byte.is_ascii_alphabetic() || *byte == b'_' || *byte == b':',
        [] => false,
    }
}

fn goes_on_attribute(byte: u8) -> bool
    ensures { result ≡ goes_on_attribute byte }
{
    byte.is_ascii_alphanumeric() || byte == b'_' || byte == b'.' || byte == b':' || byte == b'-'
}

fn is_bare(byte: u8) -> bool
    ensures { result ≡ is_bare byte }
{
    !(is_white(byte)
        || byte == b'"'
        || byte == b'\''
        || byte == b'='
        || byte == b'<'
        || byte == b'>'
        || byte == b'`')
}

fn begins_bare(t: &[u8]) -> bool
    ensures { result ≡ first_passes is_bare t.now }
{
    match t {
        [first, ..] => is_bare(*first),
        [] => false,
    }
}

#[tactic(auto, using(crate::proofs::LineLemmas::quote_found, crate::proofs::LineLemmas::quote_missing))]
fn behind_quote<'a, L: Ledger>(t: &'a [u8], quote: u8, turns: &mut Turns<L>) -> Option<&'a [u8]>
    ensures value { option_copied result ≡ behind_quote quote t.now }
    ensures within { IfSome result (λ rest. length rest.now ≤ length t.now) }
    ensures found { IfSome result (λ rest. turns.new + length rest.now ≤ turns.old + length t.now) }
    ensures turns { turns.new ≤ turns.old + length t.now + 1 }
{
    let n = before_quote(t, quote, turns);
    if n < t.len() {
        Some(behind(t, n + 1))
    } else {
        None
    }
}

/// How many bytes come before a quote, or all.
fn before_quote<L: Ledger>(t: &[u8], quote: u8, turns: &mut Turns<L>) -> usize
    ensures value { result ≡ prefix_len (λ b. not (b == quote)) t.now }
    ensures within { result ≤ length t.now }
    ensures turns { turns.new ≤ turns.old + result + 1 }
{
    let mut next = 0;
    while next < t.len() {
        turns.add_one();
        if t[next] == quote {
            return next;
        }
        next += 1;
    }
    next
}

/// Behind the bytes of an attribute value without quotes.
fn behind_bare<'a, L: Ledger>(t: &'a [u8], turns: &mut Turns<L>) -> &'a [u8]
    ensures value { result.now ≡ drop (prefix_len is_bare t.now) t.now }
    ensures within { length result.now ≤ length t.now }
    ensures turns { turns.new + length result.now ≤ turns.old + length t.now + 1 }
{
    behind(t, bare_len(t, turns))
}

fn bare_len<L: Ledger>(t: &[u8], turns: &mut Turns<L>) -> usize
    ensures value { result ≡ prefix_len is_bare t.now }
    ensures within { result ≤ length t.now }
    ensures turns { turns.new ≤ turns.old + result + 1 }
{
    let mut next = 0;
    while next < t.len() {
        turns.add_one();
        if !is_bare(t[next]) {
            return next;
        }
        next += 1;
    }
    next
}

fn behind_value<'a, L: Ledger>(t: &'a [u8], turns: &mut Turns<L>) -> Option<&'a [u8]>
    ensures value { option_copied result ≡ behind_value t.now }
    ensures within { IfSome result (λ rest. length rest.now ≤ length t.now) }
    ensures found { IfSome result (λ rest. turns.new + length rest.now ≤ turns.old + length t.now + 1) }
    ensures turns { turns.new ≤ turns.old + length t.now + 1 }
{
    if begins_with(t, b'"') {
        return behind_quote(behind(t, 1), b'"', turns);
    }
    if begins_with(t, b'\'') {
        return behind_quote(behind(t, 1), b'\'', turns);
    }
    if begins_bare(t) {
        Some(behind_bare(t, turns))
    } else {
        None
    }
}

/// Behind the bytes of an attribute's name.
fn behind_attribute_name<'a, L: Ledger>(t: &'a [u8], turns: &mut Turns<L>) -> &'a [u8]
    ensures value { result.now ≡ drop (prefix_len goes_on_attribute t.now) t.now }
    ensures within { length result.now ≤ length t.now }
    ensures turns { turns.new + length result.now ≤ turns.old + length t.now + 1 }
{
    behind(t, attribute_len(t, turns))
}

fn attribute_len<L: Ledger>(t: &[u8], turns: &mut Turns<L>) -> usize
    ensures value { result ≡ prefix_len goes_on_attribute t.now }
    ensures within { result ≤ length t.now }
    ensures turns { turns.new ≤ turns.old + result + 1 }
{
    let mut next = 0;
    while next < t.len() {
        turns.add_one();
        if !goes_on_attribute(t[next]) {
            return next;
        }
        next += 1;
    }
    next
}

fn behind_attribute<'a, L: Ledger>(t: &'a [u8], turns: &mut Turns<L>) -> Option<&'a [u8]>
    ensures value { option_copied result ≡ behind_attribute t.now }
    ensures within { IfSome result (λ rest. length rest.now ≤ length t.now) }
    ensures found { IfSome result (λ rest. turns.new + length rest.now ≤ turns.old + length t.now + indent rest.now + 3) }
    ensures turns { turns.new ≤ turns.old + length t.now + 4 }
{
    if !begins_attribute(t) {
        return None;
    }
    let rest = behind_attribute_name(t, turns);
    let more = unindented(rest, turns);
    if begins_with(more, b'=') {
        return behind_value(unindented(behind(more, 1), turns), turns);
    }
    Some(rest)
}

fn ends_tag<L: Ledger>(t: &[u8], turns: &mut Turns<L>) -> bool
    ensures value { result ≡ ends_tag t.now }
    ensures turns { turns.new ≤ turns.old + length t.now }
{
    begins_with(t, b'>') && is_blank_line(behind(t, 1), turns)
}

/// White space behind an attribute is walked over twice: to look for an equals sign, and before the next attribute.
fn ends_open_tag<L: Ledger>(t: &[u8], turns: &mut Turns<L>) -> bool
    ensures value { result ≡ ends_open_tag (suc (length t.now)) t.now }
    ensures turns { turns.new ≤ turns.old + 7 * length t.now + 7 }
{
    let mut rest = t;
    loop {
        turns.add_one();
        match next_in_tag(rest, turns) {
            Some(more) => rest = more,
            None => return closes_tag(rest, turns),
        }
    }
}

/// Behind one more attribute of a tag, if one comes.
fn next_in_tag<'a, L: Ledger>(t: &'a [u8], turns: &mut Turns<L>) -> Option<&'a [u8]>
    ensures value { option_copied result ≡ next_in_tag t.now }
    ensures shorter { IfSome result (λ rest. length rest.now < length t.now) }
    ensures white { IfSome result (λ rest. length rest.now + indent t.now ≤ length t.now) }
    ensures found { IfSome result (λ rest. turns.new + length rest.now ≤ turns.old + length t.now + indent rest.now + 4) }
    ensures turns { turns.new ≤ turns.old + length t.now + 5 }
{
    let more = unindented(t, turns);
    if begins_with(more, b'/') || begins_with(more, b'>') {
        return None;
    }
    if begins_white(t) {
        behind_attribute(more, turns)
    } else {
        None
    }
}

/// A tag ends here, and only white space comes.
fn closes_tag<L: Ledger>(t: &[u8], turns: &mut Turns<L>) -> bool
    ensures value { result ≡ closes_tag t.now }
    ensures turns { turns.new ≤ turns.old + length t.now + 1 }
{
    let more = unindented(t, turns);
    if begins_with(more, b'/') {
        return ends_tag(behind(more, 1), turns);
    }
    begins_with(more, b'>') && ends_tag(more, turns)
}

fn is_open_tag<L: Ledger>(r: &[u8], turns: &mut Turns<L>) -> bool
    ensures value { result ≡ is_open_tag r.now }
    ensures turns { turns.new ≤ turns.old + 7 * length r.now + 8 }
{
    if !begins_with(r, b'<') {
        return false;
    }
    let n = tag_name(behind(r, 1), turns);
    n >= 1 && ends_open_tag(behind(r, 1 + n), turns)
}

fn is_closing_tag<L: Ledger>(r: &[u8], turns: &mut Turns<L>) -> bool
    ensures value { result ≡ is_closing_tag r.now }
    ensures turns { turns.new ≤ turns.old + length r.now + 4 }
{
    if !starts_with(r, b"</", turns) {
        return false;
    }
    let n = tag_name(behind(r, 2), turns);
    n >= 1 && ends_tag(unindented(behind(r, 2 + n), turns), turns)
}

/// The name of a tag.
fn name_at<'a, L: Ledger>(t: &'a [u8], turns: &mut Turns<L>) -> &'a [u8]
    ensures value { result.now ≡ name_at t.now }
    ensures turns { turns.new ≤ turns.old + length t.now + 1 }
{
    front(t, tag_name(t, turns))
}

/// Behind the name of a tag.
fn behind_name<'a, L: Ledger>(t: &'a [u8], turns: &mut Turns<L>) -> &'a [u8]
    ensures value { result.now ≡ behind_name t.now }
    ensures turns { turns.new ≤ turns.old + length t.now + 1 }
{
    behind(t, tag_name(t, turns))
}

/// White space, `>` or nothing comes.
fn ends_name(t: &[u8]) -> bool
    ensures { result ≡ ends_name t.now }
{
    is_white_or_end(t) || begins_with(t, b'>')
}

/// A tag of a block, from its name on.
fn is_block_name<L: Ledger>(t: &[u8], turns: &mut Turns<L>) -> bool
    ensures value { result ≡ is_block_name t.now }
    ensures turns { turns.new ≤ turns.old + 2 * length t.now + 360 }
{
    is_named(&HTML_BLOCK_NAMES, name_at(t, turns), turns)
        && ends_block_name(behind_name(t, turns), turns)
}

fn ends_block_name<L: Ledger>(t: &[u8], turns: &mut Turns<L>) -> bool
    ensures value { result ≡ ends_name t.now || starts_with (codes "/>") t.now }
    ensures turns { turns.new ≤ turns.old + 2 }
{
    ends_name(t) || starts_with(t, b"/>", turns)
}

/// A tag with raw content, from its name on.
fn is_raw_name<L: Ledger>(t: &[u8], turns: &mut Turns<L>) -> bool
    ensures value { result ≡ is_named html_raw_names (name_at t.now) && ends_name (behind_name t.now) }
    ensures turns { turns.new ≤ turns.old + 2 * length t.now + 28 }
{
    is_named(&HTML_RAW_NAMES, name_at(t, turns), turns) && ends_name(behind_name(t, turns))
}

fn begins_raw<L: Ledger>(r: &[u8], turns: &mut Turns<L>) -> bool
    ensures value { result ≡ begins raw r.now }
    ensures turns { turns.new ≤ turns.old + 2 * length r.now + 29 }
{
    starts_with(r, b"<", turns) && is_raw_name(behind(r, 1), turns)
}

fn begins_declaration<L: Ledger>(r: &[u8], turns: &mut Turns<L>) -> bool
    ensures value { result ≡ begins declaration r.now }
    ensures turns { turns.new ≤ turns.old + 2 }
{
    starts_with(r, b"<!", turns) && begins_with_letter(behind(r, 2))
}

fn opens_block<L: Ledger>(r: &[u8], turns: &mut Turns<L>) -> bool
    ensures value { result ≡ starts_with (codes "<") r.now && is_block_name (drop 1 r.now) }
    ensures turns { turns.new ≤ turns.old + 2 * length r.now + 361 }
{
    starts_with(r, b"<", turns) && is_block_name(behind(r, 1), turns)
}

fn closes_block<L: Ledger>(r: &[u8], turns: &mut Turns<L>) -> bool
    ensures value { result ≡ starts_with (codes "</") r.now && is_block_name (drop 2 r.now) }
    ensures turns { turns.new ≤ turns.old + 2 * length r.now + 362 }
{
    starts_with(r, b"</", turns) && is_block_name(behind(r, 2), turns)
}

fn begins_block_tag<L: Ledger>(r: &[u8], turns: &mut Turns<L>) -> bool
    ensures value { result ≡ begins block_tag r.now }
    ensures turns { turns.new ≤ turns.old + 4 * length r.now + 723 }
{
    opens_block(r, turns) || closes_block(r, turns)
}

fn begins_any_tag<L: Ledger>(r: &[u8], turns: &mut Turns<L>) -> bool
    ensures value { result ≡ begins any_tag r.now }
    ensures turns { turns.new ≤ turns.old + 8 * length r.now + 12 }
{
    is_open_tag(r, turns) || is_closing_tag(r, turns)
}

/// Whether a line begins HTML of a kind, from its first byte that is not white space on.
pub fn begins<L: Ledger>(kind: HtmlKind, r: &[u8], turns: &mut Turns<L>) -> bool
    ensures value { result ≡ begins (html_kind_of kind) r.now }
    ensures turns { turns.new ≤ turns.old + 14 * length r.now + 800 }
{
    match kind {
        HtmlKind::Raw => begins_raw(r, turns),
        HtmlKind::Comment => starts_with(r, b"<!--", turns),
        HtmlKind::Instruction => starts_with(r, b"<?", turns),
        HtmlKind::Declaration => begins_declaration(r, turns),
        HtmlKind::Cdata => starts_with(r, b"<![CDATA[", turns),
        HtmlKind::BlockTag => begins_block_tag(r, turns),
        HtmlKind::AnyTag => begins_any_tag(r, turns),
    }
}

/// The kind of HTML that a line begins, from its first byte that is not white space on, if it begins one.
pub fn html_kind<L: Ledger>(r: &[u8], turns: &mut Turns<L>) -> Option<HtmlKind>
    ensures value { option_map html_kind_of result ≡ html_kind r.now }
    ensures turns { turns.new ≤ turns.old + 14 * length r.now + 800 }
{
    if begins_raw(r, turns) {
        return Some(HtmlKind::Raw);
    }
    if begins_block_tag(r, turns) {
        return Some(HtmlKind::BlockTag);
    }
    if starts_with(r, b"<!--", turns) {
        return Some(HtmlKind::Comment);
    }
    if starts_with(r, b"<?", turns) {
        return Some(HtmlKind::Instruction);
    }
    if begins_declaration(r, turns) {
        return Some(HtmlKind::Declaration);
    }
    if starts_with(r, b"<![CDATA[", turns) {
        return Some(HtmlKind::Cdata);
    }
    if begins_any_tag(r, turns) {
        return Some(HtmlKind::AnyTag);
    }
    None
}

#[tactic(auto, using(crate::proofs::LineLemmas::holds_here, crate::proofs::LineLemmas::holds_later, crate::proofs::LineLemmas::holds_end))]
fn holds<L: Ledger>(t: &[u8], what: &[u8], turns: &mut Turns<L>) -> bool
    requires some { 0 < length what.now }
    requires few { length what.now ≤ 11 }
    ensures value { result ≡ holds what.now t.now }
    ensures turns { turns.new ≤ turns.old + 12 * length t.now }
{
    for n in 0..t.len() {
        turns.add_one();
        if starts_with(behind(t, n), what, turns) {
            return true;
        }
    }
    false
}

#[tactic(auto, using(crate::proofs::LineLemmas::holds_here_lower, crate::proofs::LineLemmas::holds_later_lower, crate::proofs::LineLemmas::holds_end_lower))]
fn holds_any_case<L: Ledger>(t: &[u8], what: &[u8], turns: &mut Turns<L>) -> bool
    requires some { 0 < length what.now }
    requires few { length what.now ≤ 11 }
    ensures value { result ≡ holds what.now (map lower t.now) }
    ensures turns { turns.new ≤ turns.old + 12 * length t.now }
{
    for n in 0..t.len() {
        turns.add_one();
        if starts_with_any_case(behind(t, n), what, turns) {
            return true;
        }
    }
    false
}

fn ends_raw<L: Ledger>(t: &[u8], turns: &mut Turns<L>) -> bool
    ensures value { result ≡ ends raw t.now }
    ensures turns { turns.new ≤ turns.old + 48 * length t.now }
{
    holds_any_case(t, b"</pre>", turns)
        || holds_any_case(t, b"</script>", turns)
        || holds_any_case(t, b"</style>", turns)
        || holds_any_case(t, b"</textarea>", turns)
}

/// Whether a line contains the end of HTML of a kind.
pub fn ends<L: Ledger>(kind: HtmlKind, t: &[u8], turns: &mut Turns<L>) -> bool
    ensures value { result ≡ ends (html_kind_of kind) t.now }
    ensures turns { turns.new ≤ turns.old + 48 * length t.now }
{
    match kind {
        HtmlKind::Raw => ends_raw(t, turns),
        HtmlKind::Comment => holds(t, b"-->", turns),
        HtmlKind::Instruction => holds(t, b"?>", turns),
        HtmlKind::Declaration => holds(t, b">", turns),
        HtmlKind::Cdata => holds(t, b"]]>", turns),
        HtmlKind::BlockTag | HtmlKind::AnyTag => false,
    }
}

/// Whether HTML of a kind ends before a blank line, and with no other.
pub fn waits_for_blank(kind: HtmlKind) -> bool
    ensures { result ≡ waits_for_blank (html_kind_of kind) }
{
    match kind {
        HtmlKind::BlockTag | HtmlKind::AnyTag => true,
        _ => false,
    }
}
