//! The lines of a document with their containers, where paragraphs may begin with definitions.

ghost use Rattle.std.specs.Prelude.{◌≡◌, ◌≤◌, ◌<◌, ◌+◌, ◌*◌, ◌&&◌, true, cond, ℕ, IfOk, [], length, drop, map};
ghost use Rattle.std.specs.List.{prefix_len};
ghost use Rattle.markdown_base.specs.Virtual.{virtual};
ghost use Rattle.mdconstructs_machines.specs.LineEvents.{lines_in};
ghost use Rattle.mdblock_leaf_blocks.specs.LeafBlocks.{Line, text_of};
ghost use Rattle.mdblock_lines.specs.Lines.{is_in_line, line_at, line_length, line_bytes};
ghost use Rattle.mdblock_containers.specs.Ahead.{AreRows};
ghost use Rattle.mdblock_containers.specs.Costs.{HaveSizes};
ghost use Rattle.mdblock_containers.specs.Over.{AreBefore, AreOver};
ghost use Rattle.mdblock_containers.specs.Rows.{closed, is_paragraph};
ghost use Rattle.mdblock_containers.specs.Spans.{ArePlaced, IsPlaced};
ghost use Rattle.mdblock_containers.specs.Views.{IsRow, leaf_of, open_of};
ghost use Rattle.mdblock_definitions.specs.Known.{IsKept, IsKnown, held_behind, is_in_table, last_behind, leaf_behind, table_asked};
ghost use Rattle.mdblock_definitions.specs.Rows.{Known as KnownOf, known_after, row_of, rows};

use crate::tables::is_row_behind;
use crate::texts::{hold_defining, underlines_held};
use markdown_base::configuration::{Constructs, TabSize};
use mdblock_containers::leaves::{Leaf, is_paragraph};
use mdblock_containers::rows::{Before, Row};
use mdblock_containers::spans::{RowAt, Span};
use mdblock_containers::texts::{LineText, read_text, text_at};
use mdblock_lines::bytes::behind;
use mdblock_lines::places::behind_ending;
use mdconstructs_loop_counts::Turns;
use std::alloc::{AllocError, Global};
use std::sync::ledger::Ledger;

/// What is known before a line.
#[derive(Drop)]
pub struct Known {
    /// What is known without definitions.
    pub before: Before,
    /// What is held of the text of the paragraph that is open, if one is: all of it, if it begins with `[` behind white space, and else nothing.
    pub text: Vec<u8>,
    /// What the last line of that paragraph has behind its prefixes, where tables are on: it may be the header row of one.
    pub last: Vec<u8>,
}

impl Known {
    /// Nothing is known before the first line.
    pub fn new(alloc: Global) -> Known
        ensures stack { result.before.stack.items ≡ [] }
        ensures depth { result.before.depth ≡ 0 }
        ensures over { result.before.over ≡ 0 }
        ensures leaf { leaf_of result.before.leaf ≡ closed }
        ensures text { result.text.items ≡ [] }
        ensures last { result.last.items ≡ [] }
    {
        Known {
            before: Before::new(alloc),
            text: Vec::new(alloc),
            last: Vec::new(alloc),
        }
    }

    /// A line with its containers, by its number and its virtual bytes. What is known before it becomes what is known behind it.
    #[inline(always)]
    fn next<L: Ledger>(
        &mut self,
        alloc: Global,
        on: &Constructs,
        number: usize,
        t: &[u8],
        turns: &mut Turns<L>,
    ) -> Result<Row, AllocError>
        requires depth { self.old.before.depth ≤ length self.old.before.stack.items }
        requires over { AreOver number self.old.before.over self.old.before.depth self.old.before.stack.items }
        requires began { AreBefore number self.old.before.stack.items }
        requires sizes { HaveSizes (map open_of self.old.before.stack.items) }
        ensures row { IfOk result (λ r. (known : KnownOf) → IsKnown on.now self.old known → (line : Line) → text_of line ≡ t.now → IsRow number r (row_of on.now known number line)) }
        ensures known { IfOk result (λ _. (known : KnownOf) → IsKnown on.now self.old known → (line : Line) → text_of line ≡ t.now → IsKnown on.now self.new (known_after on.now known (row_of on.now known number line))) }
        ensures within { IfOk result (λ r. r.columns ≤ length t.now) }
        ensures depth { IfOk result (λ _. (line : Line) → text_of line ≡ t.now → self.new.before.depth ≤ length self.new.before.stack.items) }
        ensures over { IfOk result (λ _. (line : Line) → text_of line ≡ t.now → AreOver (number + 1) self.new.before.over self.new.before.depth self.new.before.stack.items) }
        ensures kept { IfOk result (λ _. (line : Line) → text_of line ≡ t.now → (budget : ℕ) → IsKept (turns.old + self.old.before.over + 3 * length self.old.last.items) budget self.old.text.items → IsKept (turns.new + self.new.before.over + 3 * length self.new.last.items) (budget + 199 * length t.now + 1703) self.new.text.items) }
        ensures turns { (line : Line) → text_of line ≡ t.now → turns.new ≤ turns.old + self.old.before.over + 152 * length t.now + 1674 + 16 * length self.old.text.items + 3 * length self.old.last.items }
    {
        let mut row = self.before.row(alloc, on, number, t, turns)?;
        look_behind(on, self, &mut row, t, turns);
        hold_row(&mut self.text, self.before.leaf, &row, t, turns)?;
        hold_last(on, &mut self.last, &row, t)?;
        self.before.go_behind(number, &row, turns)?;
        Ok(row)
    }
}

/// Whether a line is in a table. `rest` is what it has behind its prefixes.
fn is_row_of_table<L: Ledger>(
    on: &Constructs,
    known: &Known,
    row: &Row,
    rest: &[u8],
    turns: &mut Turns<L>,
) -> bool
    ensures value { result ≡ is_in_table on.now (leaf_of known.now.before.leaf) known.now.text.items known.now.last.items row.now.stays row.now.is_lazy (leaf_of row.now.leaf) rest.now }
    ensures turns { turns.new ≤ turns.old + 3 * length known.now.last.items + 5 * length rest.now + 8 + table_asked on.now (leaf_of known.now.before.leaf) known.now.text.items known.now.last.items row.now.stays row.now.is_lazy (leaf_of row.now.leaf) rest.now }
{
    on.gfm_table
        && row.stays
        && is_paragraph(row.leaf)
        && is_row_behind(
            on,
            known.before.leaf,
            known.text.as_slice(),
            known.last.as_slice(),
            row.is_lazy,
            rest,
            turns,
        )
}

/// What would be an underline makes no heading of definitions alone, so it is text: a paragraph may go on behind the line. What would be text may be in
/// a table. `t` are the line's virtual bytes.
fn look_behind<L: Ledger>(
    on: &Constructs,
    known: &Known,
    row: &mut Row,
    t: &[u8],
    turns: &mut Turns<L>,
)
    requires { row.old.columns ≤ length t.now }
    ensures leaf { leaf_of row.new.leaf ≡ leaf_behind on.now (leaf_of known.now.before.leaf) known.now.text.items known.now.last.items row.old.stays row.old.is_lazy (leaf_of row.old.leaf) (drop row.old.columns t.now) }
    ensures row { row.new ≡ record row.old { leaf = row.new.leaf } }
    ensures text { is_paragraph (leaf_of row.old.leaf) ≡ true → turns.new ≤ turns.old + 3 * length known.now.last.items + 5 * length t.now + 8 + table_asked on.now (leaf_of known.now.before.leaf) known.now.text.items known.now.last.items row.old.stays row.old.is_lazy (leaf_of row.old.leaf) (drop row.old.columns t.now) }
    ensures turns { turns.new ≤ turns.old + 5 * length t.now + 24 + 16 * length known.now.text.items + 3 * length known.now.last.items }
{
    let rest = behind(t, row.columns);
    if is_paragraph(row.leaf) {
        if is_row_of_table(on, known, row, rest, turns) {
            row.leaf = Leaf::Table;
        }
        return;
    }
    if underlines_held(
        on,
        known.before.leaf,
        row.stays,
        rest,
        known.text.as_slice(),
        turns,
    ) {
        row.leaf = Leaf::Paragraph;
    }
}

/// What is held of the text of the open paragraph behind a line, by that before it and the leaf block that goes on before it. `t` are the line's
/// virtual bytes.
#[inline(always)]
fn hold_row<L: Ledger>(
    text: &mut Vec<u8>,
    leaf: Leaf,
    row: &Row,
    t: &[u8],
    turns: &mut Turns<L>,
) -> Result<(), AllocError>
    requires { row.now.columns ≤ length t.now }
    ensures text { IfOk result (λ _. text.new.items ≡ cond (is_paragraph (leaf_of row.now.leaf)) (held_behind (row.now.stays && is_paragraph (leaf_of leaf)) text.old.items (drop row.now.columns t.now)) []) }
    ensures turns { turns.new ≤ turns.old + length t.now + 1 }
{
    if !is_paragraph(row.leaf) {
        text.clear();
        return Ok(());
    }
    let goes_on = row.stays && is_paragraph(leaf);
    hold_defining(text, goes_on, behind(t, row.columns), turns)
}

/// What is held of the last line of the open paragraph behind a line, where tables are on. `t` are the line's virtual bytes.
fn hold_last(on: &Constructs, last: &mut Vec<u8>, row: &Row, t: &[u8]) -> Result<(), AllocError>
    requires { row.now.columns ≤ length t.now }
    ensures { IfOk result (λ _. last.new.items ≡ last_behind on.now (leaf_of row.now.leaf) (drop row.now.columns t.now)) }
{
    last.clear();
    if on.gfm_table && is_paragraph(row.leaf) {
        last.extend_from_slice(behind(t, row.columns))?;
    }
    Ok(())
}

/// The line that has this text, with its containers. What is known before it becomes what is known behind it.
#[inline(always)]
fn row_of_text<L: Ledger>(
    alloc: Global,
    bytes: &[u8],
    tab: TabSize,
    on: &Constructs,
    known: &mut Known,
    text: LineText<'_>,
    number: usize,
    start: usize,
    turns: &mut Turns<L>,
) -> Result<RowAt, AllocError>
    requires inside { start < length bytes.now }
    requires seats { text.bytes.now ≡ line_bytes tab number 1 start (drop start bytes.now) }
    requires end { text.end ≡ start + prefix_len is_in_line (drop start bytes.now) }
    requires depth { known.old.before.depth ≤ length known.old.before.stack.items }
    requires over { AreOver number known.old.before.over known.old.before.depth known.old.before.stack.items }
    requires began { AreBefore number known.old.before.stack.items }
    requires sizes { HaveSizes (map open_of known.old.before.stack.items) }
    ensures number { IfOk result (λ at. at.span.number ≡ number) }
    ensures placed { IfOk result (λ at. IsPlaced tab bytes.now number start at) }
    ensures row { IfOk result (λ at. (seen : KnownOf) → IsKnown on.now known.old seen → IsRow number at.row (row_of on.now seen number (line_at tab number start (drop start bytes.now)))) }
    ensures known { IfOk result (λ _. (seen : KnownOf) → IsKnown on.now known.old seen → IsKnown on.now known.new (known_after on.now seen (row_of on.now seen number (line_at tab number start (drop start bytes.now))))) }
    ensures next { IfOk result (λ at. at.span.next ≡ start + line_length (drop start bytes.now)) }
    ensures more { IfOk result (λ at. start < at.span.next) }
    ensures within { IfOk result (λ at. at.span.next ≤ length bytes.now) }
    ensures depth { IfOk result (λ _. known.new.before.depth ≤ length known.new.before.stack.items) }
    ensures over { IfOk result (λ _. AreOver (number + 1) known.new.before.over known.new.before.depth known.new.before.stack.items) }
    ensures kept { IfOk result (λ at. (budget : ℕ) → IsKept (turns.old + known.old.before.over + 3 * length known.old.last.items) budget known.old.text.items → IsKept (turns.new + known.new.before.over + 3 * length known.new.last.items) (budget + 199 * at.span.size + 1703) known.new.text.items) }
    ensures turns { turns.new ≤ turns.old + known.old.before.over + 152 * length text.entry.bytes.now + 1674 + 16 * length known.old.text.items + 3 * length known.old.last.items }
{
    let end = text.end;
    let next = behind_ending(bytes, end);
    let row = known.next(alloc, on, number, text.bytes, turns)?;
    let span = Span {
        number,
        start,
        end,
        next,
        size: text.bytes.len(),
    };
    Ok(RowAt { span, row })
}

/// The line with this number and this beginning, with its containers. What is known before it becomes what is known behind it. `line` becomes its
/// virtual bytes, without its line ending.
pub fn next_row<L: Ledger>(
    alloc: Global,
    bytes: &[u8],
    tab: TabSize,
    on: &Constructs,
    known: &mut Known,
    line: &mut Vec<u8>,
    number: usize,
    start: usize,
    turns: &mut Turns<L>,
) -> Result<RowAt, AllocError>
    requires inside { start < length bytes.now }
    requires depth { known.old.before.depth ≤ length known.old.before.stack.items }
    requires over { AreOver number known.old.before.over known.old.before.depth known.old.before.stack.items }
    requires began { AreBefore number known.old.before.stack.items }
    requires sizes { HaveSizes (map open_of known.old.before.stack.items) }
    ensures text { IfOk result (λ _. line.new.items ≡ line_bytes tab number 1 start (drop start bytes.now)) }
    ensures number { IfOk result (λ at. at.span.number ≡ number) }
    ensures placed { IfOk result (λ at. IsPlaced tab bytes.now number start at) }
    ensures row { IfOk result (λ at. (seen : KnownOf) → IsKnown on.now known.old seen → IsRow number at.row (row_of on.now seen number (line_at tab number start (drop start bytes.now)))) }
    ensures known { IfOk result (λ _. (seen : KnownOf) → IsKnown on.now known.old seen → IsKnown on.now known.new (known_after on.now seen (row_of on.now seen number (line_at tab number start (drop start bytes.now))))) }
    ensures next { IfOk result (λ at. at.span.next ≡ start + line_length (drop start bytes.now)) }
    ensures more { IfOk result (λ at. start < at.span.next) }
    ensures within { IfOk result (λ at. at.span.next ≤ length bytes.now) }
    ensures depth { IfOk result (λ _. known.new.before.depth ≤ length known.new.before.stack.items) }
    ensures over { IfOk result (λ _. AreOver (number + 1) known.new.before.over known.new.before.depth known.new.before.stack.items) }
    ensures kept { IfOk result (λ at. (budget : ℕ) → IsKept (turns.old + known.old.before.over + 3 * length known.old.last.items) budget known.old.text.items → IsKept (turns.new + known.new.before.over + 3 * length known.new.last.items) (budget + 203 * at.span.size + 1705) known.new.text.items) }
    ensures turns { turns.new ≤ turns.old + known.old.before.over + 156 * length (line_bytes tab number 1 start (drop start bytes.now)) + 1676 + 16 * length known.old.text.items + 3 * length known.old.last.items }
{
    let end = read_text(line, bytes, tab, start, turns)?;
    let text = LineText {
        bytes: line.as_slice(),
        end,
    };
    let at = row_of_text(alloc, bytes, tab, on, known, text, number, start, turns)?;
    Ok(at)
}

/// The lines of a document, with their containers. Fails only for want of memory.
///
/// It is linear: a text is looked at where an underline comes behind definitions alone, which is text then, so that a paragraph is looked at twice at
/// most. Only the text of a paragraph that begins with `[` is kept.
pub fn rows_with_definitions<L: Ledger>(
    alloc: Global,
    bytes: &[u8],
    tab: TabSize,
    on: &Constructs,
    turns: &mut Turns<L>,
) -> Result<Vec<RowAt>, AllocError>
    ensures rows { IfOk result (λ found. AreRows found.items (rows on.now (lines_in (virtual tab bytes.now)))) }
    ensures placed { IfOk result (λ found. ArePlaced tab bytes.now 1 0 found.items (length bytes.now)) }
    ensures turns { turns.new ≤ turns.old + 1706 * length (virtual tab bytes.now) + 1706 }
{
    let tab_size = tab.get();
    prove!(tab_size >= 1);
    let mut found = Vec::new(alloc);
    let mut known = Known::new(alloc);
    let mut line = Vec::new(alloc);
    let mut start = 0;
    while start < bytes.len() {
        turns.add_one();
        let number = found.len() + 1;
        let text = text_at(&mut line, bytes, tab, start, turns)?;
        let at = row_of_text(
            alloc, bytes, tab, on, &mut known, text, number, start, turns,
        )?;
        start = at.span.next;
        found.push(at)?;
    }
    Ok(found)
}
