//! The lines of a document, with their containers.

ghost use Rattle.std.specs.Prelude.{◌≡◌, ◌≤◌, ◌<◌, ◌+◌, IfOk, length, drop, ◌*◌, map};
ghost use Rattle.markdown_base.specs.Virtual.{virtual};
ghost use Rattle.mdconstructs_machines.specs.LineEvents.{lines_in};
ghost use Rattle.mdblock_lines.specs.Lines.{line_at, line_length, line_bytes};
ghost use Rattle.mdblock_containers.specs.Ahead.{AreRows};
ghost use Rattle.mdblock_containers.specs.Over.{AreBefore, AreOver};
ghost use Rattle.mdblock_containers.specs.Rows.{row_of, known_after, rows};
ghost use Rattle.mdblock_containers.specs.Spans.{IsPlaced, ArePlaced};
ghost use Rattle.mdblock_containers.specs.Views.{before_of, IsRow, open_of};
ghost use Rattle.mdblock_containers.specs.Costs.{HaveSizes};

use crate::rows::Before;
use crate::spans::{RowAt, Span};
use crate::texts::read_text;
use markdown_base::configuration::{Constructs, TabSize};
use mdblock_lines::places::behind_ending;
use mdconstructs_loop_counts::Turns;
use std::alloc::{AllocError, Global};
use std::sync::ledger::Ledger;

/// The line with this number and this beginning, with its containers. What is known before it becomes what is known behind it. `line` is
/// room for its bytes.
fn next_row<L: Ledger>(
    alloc: Global,
    bytes: &[u8],
    tab: TabSize,
    on: &Constructs,
    before: &mut Before,
    line: &mut Vec<u8>,
    number: usize,
    start: usize,
    turns: &mut Turns<L>,
) -> Result<RowAt, AllocError>
    requires inside { start < length bytes.now }
    requires depth { before.old.depth ≤ length before.old.stack.items }
    requires over { AreOver number before.old.over before.old.depth before.old.stack.items }
    requires began { AreBefore number before.old.stack.items }
    requires sizes { HaveSizes (map open_of before.old.stack.items) }
    ensures number { IfOk result (λ at. at.span.number ≡ number) }
    ensures placed { IfOk result (λ at. IsPlaced tab bytes.now number start at) }
    ensures row { IfOk result (λ at. IsRow number at.row (row_of on.now (before_of before.old) number (line_at tab number start (drop start bytes.now)))) }
    ensures before { IfOk result (λ _. before_of before.new ≡ known_after on.now (before_of before.old) (row_of on.now (before_of before.old) number (line_at tab number start (drop start bytes.now)))) }
    ensures next { IfOk result (λ at. at.span.next ≡ start + line_length (drop start bytes.now)) }
    ensures more { IfOk result (λ at. start < at.span.next) }
    ensures within { IfOk result (λ at. at.span.next ≤ length bytes.now) }
    ensures depth { IfOk result (λ _. before.new.depth ≤ length before.new.stack.items) }
    ensures over { IfOk result (λ _. AreOver (number + 1) before.new.over before.new.depth before.new.stack.items) }
    ensures turns { turns.new ≤ turns.old + before.old.over + 148 * length (line_bytes tab number 1 start (drop start bytes.now)) + 1651 }
    ensures paid { IfOk result (λ at. turns.new + before.new.over ≤ turns.old + before.old.over + 148 * at.span.size + 1651) }
{
    let end = read_text(line, bytes, tab, start, turns)?;
    let next = behind_ending(bytes, end);
    let row = before.row(alloc, on, number, line.as_slice(), turns)?;
    before.go_behind(number, &row, turns)?;
    let span = Span {
        number,
        start,
        end,
        next,
        size: line.len(),
    };
    Ok(RowAt { span, row })
}

/// The lines of a document, with their containers.
pub fn rows_of<L: Ledger>(
    alloc: Global,
    bytes: &[u8],
    tab: TabSize,
    on: &Constructs,
    turns: &mut Turns<L>,
) -> Result<Vec<RowAt>, AllocError>
    ensures rows { IfOk result (λ found. AreRows found.items (rows on.now (lines_in (virtual tab bytes.now)))) }
    ensures placed { IfOk result (λ found. ArePlaced tab bytes.now 1 0 found.items (length bytes.now)) }
    ensures turns { turns.new ≤ turns.old + 1652 * length (virtual tab bytes.now) + 1652 }
{
    let tab_size = tab.get();
    prove!(tab_size >= 1);
    let mut found = Vec::new(alloc);
    let mut before = Before::new(alloc);
    let mut line = Vec::new(alloc);
    let mut start = 0;
    while start < bytes.len() {
        turns.add_one();
        let number = found.len() + 1;
        let at = next_row(
            alloc,
            bytes,
            tab,
            on,
            &mut before,
            &mut line,
            number,
            start,
            turns,
        )?;
        start = at.span.next;
        found.push(at)?;
    }
    Ok(found)
}
