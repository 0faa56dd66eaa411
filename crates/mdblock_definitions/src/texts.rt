//! The text of a paragraph, which may begin with definitions: what its lines have behind their prefixes, joined by line feeds.

ghost use Rattle.std.specs.Prelude.{◌≡◌, ◌≤◌, ◌+◌, ◌*◌, ◌++◌, ◌∷◌, ◌&&◌, ◌==◌, ◌-◌, cond, drop, filter, is_some, length, not, IfOk, []};
ghost use Rattle.mdblock_leaf_blocks.specs.LineKinds.{indent, underline_rank};
ghost use Rattle.mdblock_containers.specs.Rows.{has_none, is_paragraph};
ghost use Rattle.mdblock_containers.specs.Views.{leaf_of};
ghost use Rattle.mdinline_labels.specs.Tails.{begins_with};
ghost use Rattle.mdblock_definitions.specs.Known.{held_behind, is_held_used_up};
ghost use Rattle.mdblock_definitions.specs.Laws.{begins_with_bracket};
ghost use Rattle.mdblock_definitions.specs.Rows.{is_used_up};
ghost use Rattle.mdblock_definitions.specs.Sections.{lines_of, lines_defined};

use markdown_base::configuration::Constructs;
use mdblock_containers::leaves::{Leaf, is_paragraph};
use mdblock_lines::bytes::unindented;
use mdblock_lines::kinds::underline_rank;
use mdconstructs_loop_counts::Turns;
use mdinline_labels::definitions::definitions_counted;
use std::alloc::AllocError;
use std::sync::ledger::Ledger;

/// A line goes to the text of a paragraph: behind the lines before, if it goes on with them, or else as the first. `rest` is what it has behind
/// its prefixes.
pub fn hold(text: &mut Vec<u8>, goes_on: bool, rest: &[u8]) -> Result<(), AllocError>
    ensures { IfOk result (λ _. text.new.items ≡ cond goes_on (text.old.items ++ 10 ∷ rest.now) rest.now) }
{
    if goes_on {
        text.push(b'\n')?;
    } else {
        text.clear();
    }
    text.extend_from_slice(rest)?;
    Ok(())
}

/// `[` comes first.
fn is_at_bracket(t: &[u8]) -> bool
    ensures { result ≡ begins_with 91 t.now }
{
    match t {
        [first, ..] => *first == b'[',
        [] => false,
    }
}

/// Whether a text begins with `[`, behind white space. In one that does not, nothing is defined.
pub(crate) fn begins_with_bracket<L: Ledger>(text: &[u8], turns: &mut Turns<L>) -> bool
    ensures value { result ≡ begins_with_bracket text.now }
    ensures within { indent text.now ≤ length text.now }
    ensures turns { turns.new ≤ turns.old + indent text.now + 1 }
{
    is_at_bracket(unindented(text, turns))
}

/// Whether a text has bytes.
fn has_bytes(text: &[u8]) -> bool
    ensures { result ≡ not (has_none text.now) }
{
    match text {
        [] => false,
        _ => true,
    }
}

/// Whether a line goes to what is held of the text of a paragraph: its first line does if it begins with `[`, and a further one if the first did.
fn is_held<L: Ledger>(text: &[u8], goes_on: bool, rest: &[u8], turns: &mut Turns<L>) -> bool
    ensures value { result ≡ cond goes_on (not (has_none text.now)) (begins_with_bracket rest.now) }
    ensures turns { turns.new ≤ turns.old + length rest.now + 1 }
{
    if goes_on {
        return has_bytes(text);
    }
    begins_with_bracket(rest, turns)
}

/// A line goes to the text of a paragraph, as in `hold`, if something may be defined in it. Of another paragraph nothing is held.
pub(crate) fn hold_defining<L: Ledger>(
    text: &mut Vec<u8>,
    goes_on: bool,
    rest: &[u8],
    turns: &mut Turns<L>,
) -> Result<(), AllocError>
    ensures text { IfOk result (λ _. text.new.items ≡ held_behind goes_on text.old.items rest.now) }
    ensures turns { turns.new ≤ turns.old + length rest.now + 1 }
{
    if !is_held(text.as_slice(), goes_on, rest, turns) {
        text.clear();
        return Ok(());
    }
    hold(text, goes_on, rest)
}

/// Whether nothing is left of the text of a paragraph behind its definitions. It is linear: see `definitions_counted`.
#[tactic(auto, using(crate::proofs::TextLemmas::used_up))]
pub fn is_used_up<L: Ledger>(text: &[u8], turns: &mut Turns<L>) -> bool
    ensures value { result ≡ is_used_up text.now }
    ensures turns { turns.new ≤ turns.old + 16 * length text.now + 16 }
{
    let front = definitions_counted(text, turns);
    front.end == text.len()
}

/// Whether all of a paragraph is definitions, by what is held of its text: of one that does not begin with `[`, in which nothing is defined, it is nothing.
pub(crate) fn is_held_used_up<L: Ledger>(text: &[u8], turns: &mut Turns<L>) -> bool
    ensures value { result ≡ is_held_used_up text.now }
    ensures turns { turns.new ≤ turns.old + 16 * length text.now + 16 }
    ensures none { text.now ≡ [] → turns.new ≤ turns.old }
{
    has_bytes(text) && is_used_up(text, turns)
}

/// Whether what would be an underline makes no heading: all of the open paragraph, which has this text, is definitions. `rest` is what the line has
/// behind its prefixes; `stays`: it goes on with the stretch of lines before, behind which this leaf block may go on.
pub fn underlines_nothing<L: Ledger>(
    on: &Constructs,
    leaf: Leaf,
    stays: bool,
    rest: &[u8],
    text: &[u8],
    turns: &mut Turns<L>,
) -> bool
    ensures value { result ≡ (on.now.definition && ((stays && is_paragraph (leaf_of leaf)) && (is_some (underline_rank on.now rest.now) && is_used_up text.now))) }
    ensures turns { turns.new ≤ turns.old + (3 * length rest.now + 4) + (16 * length text.now + 16) }
{
    on.definition
        && (stays && is_paragraph(leaf))
        && (underline_rank(on, rest, turns).is_some() && is_used_up(text, turns))
}

/// The same, by what is held of the text of the open paragraph: of one that does not begin with `[`, in which nothing is defined, it is nothing.
pub(crate) fn underlines_held<L: Ledger>(
    on: &Constructs,
    leaf: Leaf,
    stays: bool,
    rest: &[u8],
    text: &[u8],
    turns: &mut Turns<L>,
) -> bool
    ensures value { result ≡ (on.now.definition && ((stays && is_paragraph (leaf_of leaf)) && (is_some (underline_rank on.now rest.now) && is_held_used_up text.now))) }
    ensures turns { turns.new ≤ turns.old + (3 * length rest.now + 4) + (16 * length text.now + 16) }
{
    if !has_bytes(text) {
        return false;
    }
    underlines_nothing(on, leaf, stays, rest, text, turns)
}

/// How many line feeds a text has.
fn line_feeds(text: &[u8]) -> usize
    ensures value { result ≡ length (filter (λ b. b == 10) text.now) }
    ensures few { result ≤ length text.now }
{
    text.iter().filter(|byte| **byte == b'\n').count()
}

/// How many lines a text has.
fn lines_of(text: &[u8]) -> usize
    ensures { result ≡ lines_of text.now }
{
    match text {
        [] => 0,
        _ => line_feeds(text) + 1,
    }
}

/// How many lines have the definitions with which a text begins.
#[tactic(auto, using(crate::proofs::TextLemmas::fewer_lines))]
pub fn lines_defined<L: Ledger>(text: &[u8], turns: &mut Turns<L>) -> usize
    ensures value { result ≡ lines_defined text.now }
    ensures turns { turns.new ≤ turns.old + 16 * length text.now + 16 }
{
    let front = definitions_counted(text, turns);
    let left = lines_of(&text[front.end..]);
    lines_of(text) - left
}

/// How many lines a text has up to a place at which one begins, or to its end.
#[tactic(auto, using(crate::proofs::TextLemmas::fewer_lines))]
pub(crate) fn lines_before(text: &[u8], end: usize) -> usize
    requires { end ≤ length text.now }
    ensures { result ≡ lines_of text.now - lines_of (drop end text.now) }
{
    if end == 0 {
        return 0;
    }
    let behind = lines_of(&text[end..]);
    lines_of(text) - behind
}
