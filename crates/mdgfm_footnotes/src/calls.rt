//! Calls of footnotes in a text.

ghost use Rattle.std.specs.Prelude.{ℕ, ◌≡◌, ◌+◌, ◌++◌, ◌<◌, ◌≤◌, ◌^◌, [], ◌∷◌, IfOk, IfSome, IsTrue, List, OnOk, drop, length};
ghost use Rattle.mdblock_leaf_blocks.specs.LineWords.{begins_with, starts_with};
ghost use Rattle.mdinline_labels.specs.Defined.{defines};
ghost use Rattle.mdgfm_footnotes.specs.Calls.{call_at, calls_from, is_in_call, label_at, label_size};

use markdown_base::event::Name;
use mdgfm_literals::bytes::is_escape;
use mdgfm_literals::texts::{Literal, more_passed};
use mdinline_labels::labels::Labels;
use std::alloc::{AllocError, Global};

/// Whether a byte may stand in the label of a call.
fn is_in_call(byte: u8) -> bool
    ensures { result ≡ is_in_call byte }
{
    byte != b' ' && byte != b'\t' && byte != 0 && byte != b']' && byte != b'['
}

/// How many bytes of a label come first. An escape is two of them.
fn label_size(text: &[u8]) -> usize
    ensures value { result ≡ label_size 0 text.now }
    ensures within { result ≤ length text.now }
{
    let mut next = 0;
    while next < text.len() {
        if is_escape(&text[next..]) {
            next += 2;
        } else if is_in_call(text[next]) {
            next += 1;
        } else {
            return next;
        }
    }
    next
}

/// Whether `[^` comes first.
fn opens_call(text: &[u8]) -> bool
    ensures value { result ≡ starts_with (91 ∷ 94 ∷ []) text.now }
    ensures within { IsTrue result → 2 ≤ length text.now }
{
    match text {
        [first, second, ..] => *first == b'[' && *second == b'^',
        _ => false,
    }
}

/// Whether a closing bracket is at an index.
fn is_closed(text: &[u8], at: usize) -> bool
    ensures value { result ≡ begins_with 93 (drop at text.now) }
    ensures within { IsTrue result → at < length text.now }
{
    at < text.len() && text[at] == b']'
}

/// The size of the label of what may be a call at the front of a text.
fn label_at(text: &[u8]) -> Option<usize>
    ensures value { result ≡ label_at text.now }
    ensures within { IfSome result (λ n. n + 3 ≤ length text.now) }
{
    if !opens_call(text) {
        return None;
    }
    let size = label_size(&text[2..]);
    if size >= 1 && is_closed(text, size + 2) {
        Some(size)
    } else {
        None
    }
}

/// The size of the call at the front of a text, if one is there, by the labels that are defined. It fails only if it runs out of memory.
fn call_at(alloc: Global, labels: &Labels, text: &[u8]) -> Result<Option<usize>, AllocError>
    ensures value { IfOk result (λ found. found ≡ call_at (defines labels.now) text.now) }
    ensures within { IfOk result (λ found. IfSome found (λ n. (1 ≤ n) × (n ≤ length text.now))) }
{
    let Some(size) = label_at(text) else {
        return Ok(None);
    };
    if labels.contains(alloc, &text[2..size + 2])? {
        Ok(Some(size + 3))
    } else {
        Ok(None)
    }
}

/// Adds the calls of a text, by the labels that are defined and the index of its first byte. It fails only if it runs out of memory.
pub(crate) fn push_calls(
    alloc: Global,
    all: &mut Vec<Literal>,
    labels: &Labels,
    start: usize,
    text: &[u8],
) -> Result<(), AllocError>
    requires { start + length text.now < 2 ^ 64 }
    ensures { OnOk result (all.new.items ≡ all.old.items ++ calls_from (defines labels.now) 0 start text.now) }
{
    let mut at = 0;
    while at < text.len() {
        let rest = &text[at..];
        match call_at(alloc, labels, rest)? {
            Some(size) => {
                all.push(Literal {
                    from: start + at,
                    to: start + at + size,
                    name: Name::GfmFootnoteCall,
                })?;
                at += size;
            }
            None => at += 1 + more_passed(rest),
        }
    }
    Ok(())
}
