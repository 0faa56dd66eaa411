//! Text in HTML: what stands for the bytes that HTML reads as marks.
//!
//! Bytes that stand for themselves are added together.

ghost use Rattle.std.specs.List.{flat_map, list_all, prefix_len};
ghost use Rattle.std.specs.Prelude.{◌≡◌, ◌++◌, ◌+◌, ◌<◌, ◌≤◌, ◌∷◌, [], IfOk, MatchOption, OnOk, cond, drop, length, not, take};
ghost use Rattle.mdhtml_markup.specs.Escapes.{escaped, escaped_byte, kept, kept_byte};
ghost use Rattle.mdhtml_markup.specs.SafeHtml.{is_mark};

use std::alloc::AllocError;

/// What stands for a byte in text and in values in quotes, if it is not itself: the entity of `&`, `<`, `>`, `"` and the escape byte; and U+FFFD for NUL.
fn entity_of(byte: u8) -> Option<&'static [u8]>
    ensures { MatchOption result (escaped_byte byte ≡ byte ∷ []) (λ entity. escaped_byte byte ≡ entity.now) }
{
    match byte {
        b'&' => Some(b"&amp;"),
        b'<' => Some(b"&lt;"),
        b'>' => Some(b"&gt;"),
        b'"' => Some(b"&quot;"),
        27 => Some(b"&#x1B;"),
        0 => Some(b"\xef\xbf\xbd"),
        _ => None,
    }
}

/// Whether a byte stands for itself in text and in values in quotes. It is compared with all marks, so that bytes can be looked at together.
#[inline(always)]
fn is_plain(byte: u8) -> bool
    ensures { result ≡ not (is_mark byte) }
{
    (byte != b'<') & (byte != b'>') & (byte != b'&') & (byte != b'"') & (byte != 0) & (byte != 27)
}

/// A bit, which is set if a byte does not stand for itself.
#[inline(always)]
fn mark_bit(byte: u8) -> u8
    ensures { result ≡ cond (not (is_mark byte)) 0 1 }
{
    if is_plain(byte) { 0 } else { 1 }
}

/// Whether all bytes stand for themselves. It looks at all of them: a loop that ends early is not made into comparisons of many bytes at once. The bits are
/// gathered in a byte, and not in a truth value, for the same reason.
#[inline(always)]
fn are_plain(text: &[u8]) -> bool
    ensures { result ≡ list_all (λ b. not (is_mark b)) text.now }
{
    let mut marks = 0;
    for byte in text {
        marks |= mark_bit(*byte);
    }
    marks == 0
}

/// How many bytes are in the first blocks of 16 whose bytes stand for themselves. The bytes of a block are compared at once.
fn plain_blocks(text: &[u8]) -> usize
    ensures value { result + prefix_len (λ b. not (is_mark b)) (drop result text.now) ≡ prefix_len (λ b. not (is_mark b)) text.now }
    ensures within { result ≤ length text.now }
{
    let mut next = 0;
    while text.len() - next >= 16 {
        if !are_plain(&text[next..next + 16]) {
            return next;
        }
        next += 16;
    }
    next
}

/// How many bytes come before the first one that does not stand for itself, or all.
fn plain_len(text: &[u8]) -> usize
    ensures value { result ≡ prefix_len (λ b. not (is_mark b)) text.now }
    ensures within { result ≤ length text.now }
{
    let mut next = plain_blocks(text);
    while next < text.len() {
        if !is_plain(text[next]) {
            return next;
        }
        next += 1;
    }
    next
}

/// Adds what stands for a byte.
fn push_byte(out: &mut Vec<u8>, byte: u8) -> Result<(), AllocError>
    ensures { OnOk result (out.new.items ≡ out.old.items ++ escaped_byte byte) }
{
    match entity_of(byte) {
        None => Ok(out.push(byte)?),
        Some(entity) => out.extend_from_slice(entity),
    }
}

/// Adds the bytes that come before the first one that does not stand for itself. Returns how many they are.
fn push_run(out: &mut Vec<u8>, text: &[u8]) -> Result<usize, AllocError>
    ensures added { IfOk result (λ len. out.new.items ++ escaped (drop len text.now) ≡ out.old.items ++ escaped text.now) }
    ensures within { IfOk result (λ len. len ≤ length text.now) }
{
    let len = plain_len(text);
    out.extend_from_slice(&text[..len])?;
    Ok(len)
}

/// Adds what stands for the first byte of a text, if there is one. Returns the bytes behind it.
fn push_first<'a>(out: &mut Vec<u8>, text: &'a [u8]) -> Result<&'a [u8], AllocError>
    ensures added { IfOk result (λ rest. out.new.items ++ escaped rest.now ≡ out.old.items ++ escaped text.now) }
    ensures behind { IfOk result (λ rest. rest.now ≡ drop 1 text.now) }
{
    match text {
        [] => Ok(&[]),
        [byte, behind @ ..] => {
            push_byte(out, *byte)?;
            Ok(behind)
        }
    }
}

/// Adds a text, escaped.
pub fn push_escaped(out: &mut Vec<u8>, text: &[u8]) -> Result<(), AllocError>
    ensures { OnOk result (out.new.items ≡ out.old.items ++ escaped text.now) }
{
    let mut rest = text;
    'runs: while !rest.is_empty() {
        let len = push_run(out, rest)?;
        rest = push_first(out, &rest[len..])?;
    }
    Ok(())
}

/// Adds what waits, and U+FFFD for the byte behind it if that is NUL; else that waits too. Returns where what waits begins.
fn keep_one(out: &mut Vec<u8>, html: &[u8], from: usize, at: usize) -> Result<usize, AllocError>
    requires order { from ≤ at }
    requires inside { at < length html.now }
    ensures from { IfOk result (λ next. next ≤ at + 1) }
    ensures added { IfOk result (λ next. out.new.items ++ (drop next (take (at + 1) html.now) ++ kept (drop (at + 1) html.now)) ≡ out.old.items ++ (drop from (take at html.now) ++ kept (drop at html.now))) }
{
    if html[at] != 0 {
        return Ok(from);
    }
    out.extend_from_slice(&html[from..at])?;
    out.extend_from_slice(b"\xef\xbf\xbd")?;
    Ok(at + 1)
}

/// Adds HTML as it is, with U+FFFD for each NUL.
pub fn push_kept(out: &mut Vec<u8>, html: &[u8]) -> Result<(), AllocError>
    ensures { OnOk result (out.new.items ≡ out.old.items ++ kept html.now) }
{
    let mut from = 0;
    let mut at = 0;
    while at < html.len() {
        from = keep_one(out, html, from, at)?;
        at += 1;
    }
    out.extend_from_slice(&html[from..])
}
