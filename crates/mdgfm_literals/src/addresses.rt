//! Email addresses at the front of a text (GFM, "Autolinks (extension)").

ghost use Rattle.std.specs.Char.{is_ascii_alphanumeric};
ghost use Rattle.std.specs.Prelude.{ℕ, ◌≡◌, ◌+◌, ◌==◌, ◌≤◌, IfSome, length};
ghost use Rattle.mdgfm_literals.specs.Bytes.{first_passes, in_local, passes};
ghost use Rattle.mdgfm_literals.specs.Grammar.{address_size, email_at, goes_on, host_size, is_host, mail_at, size_with};

use crate::bytes::{begins_with, count, in_host, in_local, local_size};
use crate::found::{Found, literal_of, or_else};
use markdown_base::event::Name;

/// Whether a part of the domain of an address comes first.
fn goes_on(text: &[u8]) -> bool
    ensures { result ≡ goes_on text.now }
{
    match text {
        [first, second, ..] => in_host(*first) || *first == b'.' && second.is_ascii_alphanumeric(),
        [first] => in_host(*first),
        [] => false,
    }
}

/// How many bytes the domain of an address has.
fn host_size(text: &[u8]) -> usize
    ensures size { result ≡ host_size text.now }
    ensures within { result ≤ length text.now }
{
    let mut next = 0;
    while next < text.len() {
        if !goes_on(&text[next..]) {
            return next;
        }
        next += 1;
    }
    next
}

/// Whether `@` comes first.
fn begins_at(text: &[u8]) -> bool
    ensures { result ≡ first_passes (λ b. b == 64) text.now }
{
    match text {
        [byte, ..] => *byte == b'@',
        [] => false,
    }
}

/// Whether so many bytes are the domain of an address.
fn is_host(text: &[u8], size: usize) -> bool
    requires { size ≤ length text.now }
    ensures { result ≡ is_host size text.now }
{
    count(b'.', &text[..size]) >= 1
        && text[size - 1].is_ascii_alphabetic()
        && !begins_at(&text[size..])
}

/// How many bytes an address has.
fn address_size(text: &[u8]) -> usize
    ensures size { result ≡ address_size text.now }
    ensures within { result ≤ length text.now }
{
    let local = local_size(text);
    if local == 0 || !begins_at(&text[local..]) {
        return 0;
    }
    let host = &text[local + 1..];
    let size = host_size(host);
    if is_host(host, size) {
        local + 1 + size
    } else {
        0
    }
}

/// How many bytes a scheme and an address have.
fn size_with(scheme: &[u8], text: &[u8]) -> usize
    ensures size { result ≡ size_with scheme.now text.now }
    ensures within { result ≤ length text.now }
{
    if !begins_with(scheme, text) {
        return 0;
    }
    let size = address_size(&text[scheme.len()..]);
    if size == 0 { 0 } else { scheme.len() + size }
}

/// Whether a letter or digit comes before.
fn is_behind_word(before: Option<u8>) -> bool
    ensures { result ≡ passes is_ascii_alphanumeric before }
{
    match before {
        None => false,
        Some(byte) => byte.is_ascii_alphanumeric(),
    }
}

/// Whether a byte comes before that could be the first of the address.
fn is_behind_local(before: Option<u8>) -> bool
    ensures { result ≡ passes in_local before }
{
    match before {
        None => false,
        Some(byte) => in_local(byte),
    }
}

/// The literal that is `mailto:` or `xmpp:` and an address.
pub(crate) fn mail_at(before: Option<u8>, text: &[u8]) -> Option<Found>
    ensures found { result ≡ mail_at before text.now }
    ensures some { IfSome result (λ f. 1 ≤ f.size) }
    ensures within { IfSome result (λ f. f.size ≤ length text.now) }
{
    if is_behind_word(before) {
        return None;
    }
    let mailto = literal_of(Name::GfmAutolinkLiteralMailto, size_with(b"mailto:", text));
    let xmpp = literal_of(Name::GfmAutolinkLiteralXmpp, size_with(b"xmpp:", text));
    or_else(mailto, xmpp)
}

/// The literal that is an address.
pub(crate) fn email_at(before: Option<u8>, text: &[u8]) -> Option<Found>
    ensures found { result ≡ email_at before text.now }
    ensures some { IfSome result (λ f. 1 ≤ f.size) }
    ensures within { IfSome result (λ f. f.size ≤ length text.now) }
{
    if is_behind_local(before) {
        return None;
    }
    literal_of(Name::GfmAutolinkLiteralEmail, address_size(text))
}
