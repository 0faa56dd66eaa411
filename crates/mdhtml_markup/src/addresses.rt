//! Addresses in HTML: how they are written, and which are.

ghost use Rattle.std.specs.Prelude.{◌≡◌, ◌++◌, ◌+◌, ◌<◌, ◌≤◌, ◌==◌, ◌||◌, IfOk, MatchOption, None, OnOk, Some, drop, false, length, take};
ghost use Rattle.mdhtml_markup.specs.Addresses.{hex_digit, written_address, written_byte};
ghost use Rattle.mdhtml_markup.specs.SafeHtml.{is_allowed, is_known, is_plain, scheme_of};

use std::alloc::AllocError;

/// Where an address stands.
#[derive(Clone, Copy, Debug, PartialEq, Eq)]
pub enum Place {
    /// In `href`, of a link.
    Href,
    /// In `src`, of an image.
    Src,
}

/// Whether a byte stands for itself in an address.
pub(crate) fn is_plain(byte: u8) -> bool
    ensures { result ≡ is_plain byte }
{
    match byte {
        b'-'
        | b'_'
        | b'.'
        | b'+'
        | b'!'
        | b'*'
        | b'('
        | b')'
        | b','
        | b'%'
        | b'#'
        | b'@'
        | b'?'
        | b'='
        | b';'
        | b':'
        | b'/'
        | b'$'
        | b'~' => true,
        _ => byte.is_ascii_alphanumeric(),
    }
}

const HEX_DIGITS: [u8; 16] = *b"0123456789ABCDEF";

/// A digit of base 16.
fn hex_digit(value: u8) -> u8
    requires { value < 16 }
    ensures { result ≡ hex_digit value }
{
    HEX_DIGITS[usize::from(value)]
}

/// What is written of `&`, `'` and NUL.
fn entity_of(byte: u8) -> Option<&'static [u8]>
    ensures { MatchOption result (((byte == 38) || ((byte == 39) || (byte == 0))) ≡ false) (λ entity. written_byte byte ≡ entity.now) }
{
    match byte {
        b'&' => Some(b"&amp;"),
        b'\'' => Some(b"&#x27;"),
        0 => Some(b"%EF%BF%BD"),
        _ => None,
    }
}

/// Adds a byte of an address that does not stand for itself.
fn push_byte(out: &mut Vec<u8>, byte: u8) -> Result<(), AllocError>
    requires { is_plain byte ≡ false }
    ensures { OnOk result (out.new.items ≡ out.old.items ++ written_byte byte) }
{
    match entity_of(byte) {
        Some(entity) => out.extend_from_slice(entity),
        None => {
            let written = [b'%', hex_digit(byte / 16), hex_digit(byte % 16)];
            out.extend_from_slice(&written)?;
            Ok(())
        }
    }
}

/// Adds what waits, and what stands for the byte behind it, unless that waits too. Returns where what waits begins.
fn push_one(out: &mut Vec<u8>, url: &[u8], from: usize, at: usize) -> Result<usize, AllocError>
    requires order { from ≤ at }
    requires inside { at < length url.now }
    ensures from { IfOk result (λ next. next ≤ at + 1) }
    ensures added { IfOk result (λ next. out.new.items ++ (drop next (take (at + 1) url.now) ++ written_address (drop (at + 1) url.now)) ≡ out.old.items ++ (drop from (take at url.now) ++ written_address (drop at url.now))) }
{
    if is_plain(url[at]) {
        return Ok(from);
    }
    out.extend_from_slice(&url[from..at])?;
    push_byte(out, url[at])?;
    Ok(at + 1)
}

/// Adds an address, as it is written in quotes.
pub fn push_address(out: &mut Vec<u8>, url: &[u8]) -> Result<(), AllocError>
    ensures { OnOk result (out.new.items ≡ out.old.items ++ written_address url.now) }
{
    let mut from = 0;
    let mut at = 0;
    while at < url.len() {
        from = push_one(out, url, from, at)?;
        at += 1;
    }
    out.extend_from_slice(&url[from..])
}

/// The scheme of an address, if it has one.
fn scheme_of(url: &[u8]) -> Option<&[u8]>
    ensures { MatchOption result (scheme_of url.now ≡ None) (λ scheme. scheme_of url.now ≡ Some scheme.now) }
{
    let mut at = 0;
    while at < url.len() {
        match url[at] {
            b':' => return Some(&url[..at]),
            b'/' | b'?' | b'#' => return None,
            _ => at += 1,
        }
    }
    None
}

/// Whether a scheme is written at a place, whatever its case.
fn is_known(place: Place, scheme: &[u8]) -> bool
    ensures { result ≡ is_known place scheme.now }
{
    let is_web = scheme.eq_ignore_ascii_case(b"http") || scheme.eq_ignore_ascii_case(b"https");
    match place {
        Place::Src => is_web,
        Place::Href => {
            is_web
                || scheme.eq_ignore_ascii_case(b"irc")
                || scheme.eq_ignore_ascii_case(b"ircs")
                || scheme.eq_ignore_ascii_case(b"mailto")
                || scheme.eq_ignore_ascii_case(b"xmpp")
        }
    }
}

/// Whether an address is written at a place: it has no scheme, or one that is known there.
pub fn is_allowed(place: Place, url: &[u8]) -> bool
    ensures { result ≡ is_allowed place url.now }
{
    match scheme_of(url) {
        None => true,
        Some(scheme) => is_known(place, scheme),
    }
}
