//! All autolink literals of a text.

ghost use Rattle.std.specs.Prelude.{ℕ, ◌≡◌, ◌+◌, ◌++◌, ◌<◌, ◌≤◌, ◌^◌, IfSome, OnOk, Option, length, slice_get, true};
ghost use Rattle.mdgfm_literals.specs.Grammar.{IsKnown, domain_of, is_www, near};
ghost use Rattle.mdgfm_literals.specs.Literals.{literals_from, more_passed};

use crate::bytes::is_escape;
use crate::grammar::{is_www, literal_at, near_in};
use markdown_base::event::Name;
use std::alloc::AllocError;

/// A literal of a document.
#[derive(Clone, Copy, PartialEq, Eq, Debug)]
pub struct Literal {
    /// The byte index where it begins.
    pub from: usize,
    /// The byte index where it ends.
    pub to: usize,
    /// What it is.
    pub name: Name,
}

/// How many bytes are passed with the first one, if it begins no literal.
pub fn more_passed(text: &[u8]) -> usize
    ensures value { result ≡ more_passed text.now }
    ensures within { 1 ≤ length text.now → result + 1 ≤ length text.now }
{
    if is_escape(text) { 1 } else { 0 }
}

/// The byte at an index, if there is one.
fn byte_at(text: &[u8], index: usize) -> Option<u8>
    ensures { result ≡ slice_get text.now index }
{
    text.get(index).copied()
}

/// The end of the last underscore that is in the way of a literal with `www.`, by what was known of it: that of the domain that comes, if such a
/// literal could begin here.
fn known_at(before: Option<u8>, text: &[u8], known: usize) -> usize
    requires { IsKnown known text.now }
    ensures known { IsKnown result text.now }
    ensures www { is_www before text.now ≡ true → result ≡ near (domain_of text.now) }
{
    if known == 0 && is_www(before, text) {
        near_in(text)
    } else {
        known
    }
}

/// Adds the literals of a text. The index is that of its first byte, and the byte is the one before it. It fails only if it runs out of memory.
pub(crate) fn push_literals(
    all: &mut Vec<Literal>,
    first: Option<u8>,
    start: usize,
    text: &[u8],
) -> Result<(), AllocError>
    requires { start + length text.now < 2 ^ 64 }
    ensures { OnOk result (all.new.items ≡ all.old.items ++ literals_from 0 first start text.now) }
{
    let mut before = first;
    let mut known = 0;
    let mut at = 0;
    while at < text.len() {
        let rest = &text[at..];
        let near = known_at(before, rest, known);
        match literal_at(before, rest, near) {
            Some(found) => {
                all.push(Literal {
                    from: start + at,
                    to: start + at + found.size,
                    name: found.name,
                })?;
                before = None;
                known = 0;
                at += found.size;
            }
            None => {
                let more = more_passed(rest);
                before = byte_at(rest, more);
                known = near.saturating_sub(1 + more);
                at += 1 + more;
            }
        }
    }
    Ok(())
}
