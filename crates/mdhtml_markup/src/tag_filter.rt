//! The filter of tags of raw HTML, which is GFM's. It is no protection.

ghost use Rattle.std.specs.List.{list_any, prefix_len};
ghost use Rattle.std.specs.Prelude.{◌≡◌, ◌==◌, ◌++◌, ◌≤◌, IfOk, OnOk, drop, length, not, take};
ghost use Rattle.mdhtml_markup.specs.Escapes.{kept};
ghost use Rattle.mdhtml_markup.specs.TagFilter.{begins_close, ends_name, filtered, first_filtered, from_name, is_filtered, is_named};

use crate::escape::push_kept;
use markdown_base::util::constant::GFM_HTML_TAGFILTER_NAMES;
use std::alloc::AllocError;

/// The first bytes; all, if they are not so many.
fn first_bytes(bytes: &[u8], count: usize) -> &[u8]
    ensures { result.now ≡ take count bytes.now }
{
    if count < bytes.len() {
        &bytes[..count]
    } else {
        bytes
    }
}

/// Bytes without the first ones.
fn behind_bytes(bytes: &[u8], count: usize) -> &[u8]
    ensures { result.now ≡ drop count bytes.now }
{
    bytes.get(count..).unwrap_or(&[])
}

/// Whether `>` is at the front of bytes.
fn begins_close(bytes: &[u8]) -> bool
    ensures { result ≡ begins_close bytes.now }
{
    match bytes {
        [] => false,
        [byte, ..] => *byte == b'>',
    }
}

/// Whether the name of a tag ends in front of bytes.
fn ends_name(bytes: &[u8]) -> bool
    ensures { result ≡ ends_name bytes.now }
{
    match bytes {
        [] => true,
        [byte, behind @ ..] => {
            *byte == b' '
                || *byte == b'\t'
                || *byte == b'\n'
                || *byte == b'>'
                || (*byte == b'/' && begins_close(behind))
        }
    }
}

/// Whether a name is at the front of bytes, in any case, and ends there.
fn is_named(name: &str, bytes: &[u8]) -> bool
    ensures { result ≡ is_named name.now bytes.now }
{
    let len = name.len();
    first_bytes(bytes, len).eq_ignore_ascii_case(name.as_bytes())
        && ends_name(behind_bytes(bytes, len))
}

/// The bytes of a tag from its name on, by those behind its `<`.
fn from_name(bytes: &[u8]) -> &[u8]
    ensures { result.now ≡ from_name bytes.now }
{
    match bytes {
        [] => &[],
        [byte, behind @ ..] => { if *byte == b'/' { behind } else { bytes } }
    }
}

/// Whether one of these names is at the front of bytes.
fn is_one_of(names: &[&str], bytes: &[u8]) -> bool
    ensures { result ≡ list_any (λ name. is_named name.now bytes.now) names.now }
{
    names.iter().any(|name| is_named(name, bytes))
}

/// Whether a tag that is filtered is at the front of HTML.
fn is_filtered(html: &[u8]) -> bool
    ensures { result ≡ is_filtered html.now }
{
    match html {
        [] => false,
        [byte, behind @ ..] => *byte == b'<'
            && is_one_of(&GFM_HTML_TAGFILTER_NAMES, from_name(behind)),
    }
}

/// How many bytes come before the first `<`, or all.
fn before_tag(html: &[u8]) -> usize
    ensures value { result ≡ prefix_len (λ b. not (b == 60)) html.now }
    ensures within { result ≤ length html.now }
{
    let mut next = 0;
    while next < html.len() {
        if html[next] == b'<' {
            return next;
        }
        next += 1;
    }
    next
}

/// Adds the bytes that come before the first `<`. Returns how many they are.
fn push_before(out: &mut Vec<u8>, html: &[u8]) -> Result<usize, AllocError>
    ensures added { IfOk result (λ len. out.new.items ++ kept (filtered (drop len html.now)) ≡ out.old.items ++ kept (filtered html.now)) }
    ensures within { IfOk result (λ len. len ≤ length html.now) }
{
    let len = before_tag(html);
    push_kept(out, &html[..len])?;
    Ok(len)
}

/// Adds what the first byte of HTML becomes, if there is one. Returns the bytes behind it.
fn push_first<'a>(out: &mut Vec<u8>, html: &'a [u8]) -> Result<&'a [u8], AllocError>
    ensures filtered { IfOk result (λ rest. out.new.items ++ kept (filtered rest.now) ≡ out.old.items ++ kept (filtered html.now)) }
    ensures first { IfOk result (λ rest. out.new.items ++ kept rest.now ≡ out.old.items ++ kept (first_filtered html.now)) }
    ensures behind { IfOk result (λ rest. rest.now ≡ drop 1 html.now) }
{
    match html {
        [] => Ok(&[]),
        [_, behind @ ..] => {
            if is_filtered(html) {
                out.extend_from_slice(b"&lt;")?;
            } else {
                push_kept(out, &html[..1])?;
            }
            Ok(behind)
        }
    }
}

/// Adds HTML in lines of its own, with `&lt;` for the `<` of each tag that is filtered, and U+FFFD for each NUL.
pub fn push_filtered(out: &mut Vec<u8>, html: &[u8]) -> Result<(), AllocError>
    ensures { OnOk result (out.new.items ≡ out.old.items ++ kept (filtered html.now)) }
{
    let mut rest = html;
    'tags: while !rest.is_empty() {
        let len = push_before(out, rest)?;
        rest = push_first(out, &rest[len..])?;
    }
    Ok(())
}

/// Adds HTML within text, with `&lt;` for its first `<` if that is of a tag that is filtered, and U+FFFD for each NUL.
pub fn push_first_filtered(out: &mut Vec<u8>, html: &[u8]) -> Result<(), AllocError>
    ensures { OnOk result (out.new.items ≡ out.old.items ++ kept (first_filtered html.now)) }
{
    let behind = push_first(out, html)?;
    push_kept(out, behind)
}
