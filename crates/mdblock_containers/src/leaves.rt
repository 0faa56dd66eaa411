//! Which leaf block may go on behind a line.

ghost use Rattle.std.specs.Prelude.{◌≡◌, ◌≤◌, ◌+◌, ◌*◌, length};
ghost use Rattle.mdblock_leaf_blocks.specs.LeafBlocks.{interrupts};
ghost use Rattle.mdblock_leaf_blocks.specs.LineKinds.{line_kind};
ghost use Rattle.mdblock_lines.specs.Views.{kind_of};
ghost use Rattle.mdblock_containers.specs.Rows.{is_paragraph, is_raw, holds_ending, opened_by, leaf_after, open_paragraph, is_table};
ghost use Rattle.mdblock_containers.specs.Views.{leaf_of};

use markdown_base::configuration::Constructs;
use mdblock_lines::bytes::is_blank_line;
use mdblock_lines::html::{HtmlKind, ends, waits_for_blank};
use mdblock_lines::kinds::{Fence, LineKind, closes, line_kind, underline_rank};
use mdconstructs_loop_counts::Turns;
use std::sync::ledger::Ledger;

/// The leaf block that may go on behind a line.
#[derive(Clone, Copy)]
pub enum Leaf {
    /// None.
    Closed,
    /// A paragraph.
    Paragraph,
    /// Fenced code, with its opening fence.
    Fenced(Fence),
    /// HTML of this kind.
    Html(HtmlKind),
    /// A table, behind its delimiter row.
    Table,
}

/// Whether the leaf block is a paragraph.
pub fn is_paragraph(leaf: Leaf) -> bool
    ensures { result ≡ is_paragraph (leaf_of leaf) }
{
    match leaf {
        Leaf::Paragraph => true,
        _ => false,
    }
}

/// Whether the leaf block is a table.
pub fn is_table(leaf: Leaf) -> bool
    ensures { result ≡ is_table (leaf_of leaf) }
{
    match leaf {
        Leaf::Table => true,
        _ => false,
    }
}

/// Whether no container begins in lines of the leaf block.
pub fn is_raw(leaf: Leaf) -> bool
    ensures { result ≡ is_raw (leaf_of leaf) }
{
    match leaf {
        Leaf::Fenced(_) | Leaf::Html(_) => true,
        _ => false,
    }
}

/// Whether the leaf block goes on over blank lines, and holds the line ending that ends its containers.
pub fn holds_ending(leaf: Leaf) -> bool
    ensures { result ≡ holds_ending (leaf_of leaf) }
{
    match leaf {
        Leaf::Fenced(_) => true,
        Leaf::Html(kind) => !waits_for_blank(kind),
        _ => false,
    }
}

/// The leaf block that a line opens, where none goes on.
fn opened_by<L: Ledger>(on: &Constructs, kind: LineKind, t: &[u8], turns: &mut Turns<L>) -> Leaf
    ensures value { leaf_of result ≡ opened_by on.now (kind_of kind) t.now }
    ensures turns { turns.new ≤ turns.old + 48 * length t.now }
{
    match kind {
        LineKind::Fence(fence) => Leaf::Fenced(fence),
        LineKind::Html(kind) => opened_by_html(on, kind, t, turns),
        LineKind::Text => Leaf::Paragraph,
        _ => Leaf::Closed,
    }
}

/// As `opened_by`, of HTML.
fn opened_by_html<L: Ledger>(
    on: &Constructs,
    kind: HtmlKind,
    t: &[u8],
    turns: &mut Turns<L>,
) -> Leaf
    ensures value { leaf_of result ≡ opened_by on.now (kind_of (LineKind.Html kind)) t.now }
    ensures turns { turns.new ≤ turns.old + 48 * length t.now }
{
    if ends(kind, t, turns) {
        Leaf::Closed
    } else {
        Leaf::Html(kind)
    }
}

/// Whether a line ends a paragraph before it, by what it is.
fn interrupts(kind: LineKind) -> bool
    ensures { result ≡ interrupts (kind_of kind) }
{
    match kind {
        LineKind::Text | LineKind::Indented => false,
        LineKind::Html(kind) => html_interrupts(kind),
        _ => true,
    }
}

/// As `interrupts`, of HTML.
fn html_interrupts(kind: HtmlKind) -> bool
    ensures { result ≡ interrupts (kind_of (LineKind.Html kind)) }
{
    match kind {
        HtmlKind::AnyTag => false,
        _ => true,
    }
}

/// Whether a line interrupts a paragraph before it, so that it cannot go on with it lazily.
pub fn interrupts_paragraph<L: Ledger>(on: &Constructs, t: &[u8], turns: &mut Turns<L>) -> bool
    ensures value { result ≡ interrupts (line_kind on.now t.now) }
    ensures turns { turns.new ≤ turns.old + 40 * length t.now + 820 }
{
    interrupts(line_kind(on, t, turns))
}

/// The leaf block that a line opens, where none goes on.
fn opened<L: Ledger>(on: &Constructs, t: &[u8], turns: &mut Turns<L>) -> Leaf
    ensures value { leaf_of result ≡ opened_by on.now (line_kind on.now t.now) t.now }
    ensures turns { turns.new ≤ turns.old + 88 * length t.now + 820 }
{
    opened_by(on, line_kind(on, t, turns), t, turns)
}

/// What may go on behind a line, where a paragraph may go on before it.
fn behind_paragraph<L: Ledger>(on: &Constructs, t: &[u8], turns: &mut Turns<L>) -> Leaf
    ensures value { leaf_of result ≡ leaf_after on.now open_paragraph t.now }
    ensures turns { turns.new ≤ turns.old + 92 * length t.now + 824 }
{
    if underline_rank(on, t, turns).is_some() {
        return Leaf::Closed;
    }
    let kind = line_kind(on, t, turns);
    if interrupts(kind) {
        opened_by(on, kind, t, turns)
    } else {
        Leaf::Paragraph
    }
}

/// What may go on behind a line, where HTML goes on before it.
fn behind_html<L: Ledger>(on: &Constructs, html: HtmlKind, t: &[u8], turns: &mut Turns<L>) -> Leaf
    ensures value { leaf_of result ≡ leaf_after on.now (leaf_of (Leaf.Html html)) t.now }
    ensures turns { turns.new ≤ turns.old + 48 * length t.now }
{
    let is_last = if waits_for_blank(html) {
        is_blank_line(t, turns)
    } else {
        ends(html, t, turns)
    };
    if is_last {
        Leaf::Closed
    } else {
        Leaf::Html(html)
    }
}

/// What may go on behind a line, by what may go on before it.
pub fn leaf_after<L: Ledger>(on: &Constructs, leaf: Leaf, t: &[u8], turns: &mut Turns<L>) -> Leaf
    ensures value { leaf_of result ≡ leaf_after on.now (leaf_of leaf) t.now }
    ensures turns { turns.new ≤ turns.old + 92 * length t.now + 824 }
{
    match leaf {
        Leaf::Closed | Leaf::Table => opened(on, t, turns),
        Leaf::Paragraph => behind_paragraph(on, t, turns),
        Leaf::Fenced(fence) => {
            if closes(on, fence, t, turns) {
                Leaf::Closed
            } else {
                leaf
            }
        }
        Leaf::Html(html) => behind_html(on, html, t, turns),
    }
}
