//! The autolink literal at the front of a text, by the byte before it (GFM, "Autolinks (extension)").

ghost use Rattle.std.specs.Char.{is_ascii_alphabetic};
ghost use Rattle.std.specs.List.{prefix_len};
ghost use Rattle.std.specs.Prelude.{ℕ, ◌≡◌, ◌+◌, ◌-◌, ◌==◌, ◌≤◌, ◌<◌, ◌||◌, Bool, IfSome, length, true};
ghost use Rattle.mdgfm_literals.specs.Bytes.{first_passes, in_host, is_wide, passes};
ghost use Rattle.mdgfm_literals.specs.Grammar.{before_behind, closing_before, domain_of, is_address, is_www, last_behind, last_of, left, letters_before, literal_at, literal_size, may_be_before, name_before, near, off, protocol_size, trimmed, url_at, www_at};

use crate::addresses::{email_at, mail_at};
use crate::bytes::{
    begins_with, count, domain_size, in_host, is_space, is_trailing, is_wide, run_size,
};
use crate::found::{Found, literal_of, or_else};
use markdown_base::event::Name;

/// The later of two ends of underscores, of which the first is in the segment before. 0 says that there is none.
fn last_of(before: usize, last: usize) -> usize
    ensures { result ≡ last_of before last }
{
    if last >= 1 { last } else { before }
}

/// The end of the last underscore in the segment before the last, behind a byte.
fn before_behind(before: usize, last: usize, byte: u8) -> usize
    ensures { result ≡ before_behind before last byte }
{
    if byte == b'.' { last } else { before }
}

/// The end of the last underscore in the last segment, behind a byte that ends at an index.
fn last_behind(last: usize, end: usize, byte: u8) -> usize
    ensures { result ≡ last_behind last end byte }
{
    if byte == b'.' {
        0
    } else if byte == b'_' {
        end
    } else {
        last
    }
}

/// How many bytes of a domain end with the last underscore that has fewer than two periods behind it.
#[tactic(auto, using(crate::proofs::Domains::seen_all))]
fn near(domain: &[u8]) -> usize
    ensures { result ≡ near domain.now }
{
    let mut before = 0usize;
    let mut last = 0usize;
    let mut next = 0;
    while next < domain.len() {
        let byte = domain[next];
        before = before_behind(before, last, byte);
        last = last_behind(last, next + 1, byte);
        next += 1;
    }
    last_of(before, last)
}

/// The same of the domain at the front of a text.
pub(crate) fn near_in(text: &[u8]) -> usize
    ensures { result ≡ near (domain_of text.now) }
{
    near(&text[..domain_size(text)])
}

/// How many letters end at an index.
#[tactic(auto, using(crate::proofs::Ends::letters_more, crate::proofs::Ends::letters_end))]
fn letters_before(text: &[u8], at: usize) -> usize
    requires { at ≤ length text.now }
    ensures size { result ≡ letters_before text.now at }
    ensures within { result ≤ at }
{
    let mut size = 0;
    while size < at {
        if !text[at - size - 1].is_ascii_alphabetic() {
            return size;
        }
        size += 1;
    }
    size
}

/// How many bytes `&` and a name of letters have that end at an index.
fn name_before(text: &[u8], at: usize) -> usize
    requires { at ≤ length text.now }
    ensures size { result ≡ name_before text.now at }
    ensures within { result ≤ at }
{
    let size = letters_before(text, at);
    if size >= 1 && size < at && text[at - (size + 1)] == b'&' {
        size + 1
    } else {
        0
    }
}

/// How many bytes fall off with the last one, which is at an index.
fn off(extra: bool, text: &[u8], at: usize) -> usize
    requires { at < length text.now }
    ensures size { result ≡ off extra text.now at }
    ensures within { result ≤ at + 1 }
{
    let byte = text[at];
    if byte == b';' {
        name_before(text, at) + 1
    } else if byte == b')' && extra || is_trailing(byte) {
        1
    } else {
        0
    }
}

/// How many closing parentheses are left before a byte.
fn closing_before(closing: usize, byte: u8) -> usize
    ensures { result ≡ closing_before closing byte }
{
    if byte == b')' {
        closing.saturating_sub(1)
    } else {
        closing
    }
}

/// How many bytes are left of a text without what is no part of a literal at its end.
#[tactic(auto, using(crate::proofs::Ends::left_some, crate::proofs::Ends::left_none))]
fn trimmed(text: &[u8]) -> usize
    ensures size { result ≡ trimmed text.now }
    ensures within { result ≤ length text.now }
{
    let opening = count(b'(', text);
    let mut closing = count(b')', text);
    let mut size = text.len();
    while size > 0 {
        let less = off(opening < closing, text, size - 1);
        if less == 0 {
            return size;
        }
        closing = closing_before(closing, text[size - 1]);
        size -= less;
    }
    0
}

/// How many bytes a literal has that is no email address.
fn literal_size(text: &[u8]) -> usize
    ensures size { result ≡ literal_size text.now }
    ensures within { result ≤ length text.now }
{
    trimmed(&text[..run_size(text)])
}

/// Whether `www.` may begin behind a byte.
fn may_be_before(byte: u8) -> bool
    ensures { result ≡ may_be_before byte }
{
    is_space(byte) || byte == b'*' || byte == b'_' || byte == b'~' || byte == b'('
}

/// Whether a byte of a segment comes first.
fn begins_segment(text: &[u8]) -> bool
    ensures { result ≡ first_passes (λ b. in_host b || is_wide b) text.now }
{
    match text {
        [byte, ..] => in_host(*byte) || is_wide(*byte),
        [] => false,
    }
}

/// Whether `www.` comes first, where it may begin.
pub(crate) fn is_www(before: Option<u8>, text: &[u8]) -> bool
    ensures { result ≡ is_www before text.now }
{
    let may_begin = match before {
        None => true,
        Some(byte) => may_be_before(byte),
    };
    may_begin
        && text.len() >= 4
        && text[0] == b'w'
        && text[1] == b'w'
        && text[2] == b'w'
        && text[3] == b'.'
        && begins_segment(&text[4..])
}

/// The literal that begins with `www.`, if the end of the last underscore that is in its way is known.
fn www_at(before: Option<u8>, text: &[u8], known: usize) -> Option<Found>
    requires { is_www before text.now ≡ true → known ≡ near (domain_of text.now) }
    ensures found { result ≡ www_at before text.now }
    ensures some { IfSome result (λ f. 1 ≤ f.size) }
    ensures within { IfSome result (λ f. f.size ≤ length text.now) }
{
    if is_www(before, text) && known == 0 {
        literal_of(Name::GfmAutolinkLiteralWww, literal_size(text))
    } else {
        None
    }
}

/// How many bytes a protocol has, with its marks.
fn protocol_size(text: &[u8]) -> usize
    ensures size { result ≡ protocol_size text.now }
    ensures within { result ≤ length text.now }
{
    if begins_with(b"http://", text) {
        7
    } else if begins_with(b"https://", text) {
        8
    } else if begins_with(b"ftp://", text) {
        6
    } else {
        0
    }
}

/// Whether a domain comes that a protocol may have before it.
fn is_address(text: &[u8]) -> bool
    ensures { result ≡ is_address text.now }
{
    match text {
        [byte, ..] => (byte.is_ascii_alphanumeric() || is_wide(*byte)) && near_in(text) == 0,
        [] => false,
    }
}

/// Whether a letter comes before.
fn is_behind_letter(before: Option<u8>) -> bool
    ensures { result ≡ passes is_ascii_alphabetic before }
{
    match before {
        None => false,
        Some(byte) => byte.is_ascii_alphabetic(),
    }
}

/// The literal that begins with a protocol.
fn url_at(before: Option<u8>, text: &[u8]) -> Option<Found>
    ensures found { result ≡ url_at before text.now }
    ensures some { IfSome result (λ f. 1 ≤ f.size) }
    ensures within { IfSome result (λ f. f.size ≤ length text.now) }
{
    let size = protocol_size(text);
    if size >= 1 && !is_behind_letter(before) && is_address(&text[size..]) {
        literal_of(Name::GfmAutolinkLiteralProtocol, literal_size(text))
    } else {
        None
    }
}

/// The literal at the front of a text, if the end of the last underscore that is in the way of one with `www.` is known.
pub(crate) fn literal_at(before: Option<u8>, text: &[u8], known: usize) -> Option<Found>
    requires { is_www before text.now ≡ true → known ≡ near (domain_of text.now) }
    ensures found { result ≡ literal_at before text.now }
    ensures some { IfSome result (λ f. 1 ≤ f.size) }
    ensures within { IfSome result (λ f. f.size ≤ length text.now) }
{
    let email = email_at(before, text);
    let mail = or_else(mail_at(before, text), email);
    let url = or_else(url_at(before, text), mail);
    or_else(www_at(before, text, known), url)
}
