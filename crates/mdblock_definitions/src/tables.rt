//! Tables (GFM 4.10): which lines are in one, by what is known before them, and by what is known of all lines of a part.

ghost use Rattle.std.specs.Prelude.{◌≡◌, ◌≤◌, ◌+◌, ◌*◌, ◌&&◌, ◌||◌, List, cond, length, not};
ghost use Rattle.mdblock_tables.specs.Tables.{is_row};
ghost use Rattle.mdblock_containers.specs.Ahead.{AreRows};
ghost use Rattle.mdblock_containers.specs.Rows.{Row as RowOf, is_paragraph, is_table};
ghost use Rattle.mdblock_containers.specs.Views.{leaf_of};
ghost use Rattle.mdblock_table_marks.specs.TableCuts.{before_table, table_lines};
ghost use Rattle.mdblock_definitions.specs.Known.{asks_table, is_held_used_up};
ghost use Rattle.mdblock_definitions.specs.Sections.{is_in_table};
ghost use Rattle.mdblock_definitions.specs.Seen.{begins_in_table_at, is_in_table_at};

use crate::texts::is_held_used_up;
use markdown_base::configuration::Constructs;
use mdblock_containers::leaves::{Leaf, is_table};
use mdblock_containers::spans::RowAt;
use mdblock_lines::kinds::is_far;
use mdblock_tables::tables::{is_row, matches};
use mdconstructs_loop_counts::Turns;
use std::sync::ledger::Ledger;

/// Whether a line that goes on with a paragraph looks as a delimiter row. `header` is the paragraph's last line, and `rest` is what the line has behind its
/// prefixes.
fn looks_as_delimiters<L: Ledger>(
    on: &Constructs,
    header: &[u8],
    is_lazy: bool,
    rest: &[u8],
    turns: &mut Turns<L>,
) -> bool
    ensures value { result ≡ asks_table on.now header.now is_lazy rest.now }
    ensures turns { turns.new ≤ turns.old + 3 * length header.now + 5 * length rest.now + 8 }
{
    !is_lazy && !is_far(on, rest, turns) && matches(header, rest, turns)
}

/// Whether a line that goes on with a paragraph, of whose text that is held, is the delimiter row of a table.
///
/// Whether the paragraph is definitions alone is asked last: then a table begins, or the line is text that nothing uses up.
fn begins_table<L: Ledger>(
    on: &Constructs,
    text: &[u8],
    header: &[u8],
    is_lazy: bool,
    rest: &[u8],
    turns: &mut Turns<L>,
) -> bool
    ensures value { result ≡ (asks_table on.now header.now is_lazy rest.now && not (on.now.definition && is_held_used_up text.now)) }
    ensures turns { turns.new ≤ turns.old + 3 * length header.now + 5 * length rest.now + 8 + cond (asks_table on.now header.now is_lazy rest.now) (16 * length text.now + 16) 0 }
{
    looks_as_delimiters(on, header, is_lazy, rest, turns)
        && !(on.definition && is_held_used_up(text, turns))
}

/// Whether a line that stays in its stretch, and would be text, is in a table. `before` is the leaf block that goes on before it.
pub(crate) fn is_row_behind<L: Ledger>(
    on: &Constructs,
    before: Leaf,
    text: &[u8],
    header: &[u8],
    is_lazy: bool,
    rest: &[u8],
    turns: &mut Turns<L>,
) -> bool
    ensures value { result ≡ ((is_paragraph (leaf_of before) && (asks_table on.now header.now is_lazy rest.now && not (on.now.definition && is_held_used_up text.now))) || (is_table (leaf_of before) && is_row rest.now)) }
    ensures turns { turns.new ≤ turns.old + 3 * length header.now + 5 * length rest.now + 8 + cond (is_paragraph (leaf_of before) && asks_table on.now header.now is_lazy rest.now) (16 * length text.now + 16) 0 }
{
    match before {
        Leaf::Paragraph => begins_table(on, text, header, is_lazy, rest, turns),
        Leaf::Table => is_row(rest, turns),
        _ => false,
    }
}

/// Whether a line is in a table, behind its header row.
fn is_in_table(at: &RowAt) -> bool
    ensures { result ≡ is_in_table_at at.now }
{
    is_table(at.row.leaf)
}

/// Whether the first of these lines is.
fn begins_in_table(rows: &[RowAt]) -> bool
    ensures { result ≡ begins_in_table_at rows.now }
{
    match rows {
        [first, ..] => is_in_table(first),
        [] => false,
    }
}

/// How many of these lines of a part come before the header row of its first table; all, if it has none.
pub(crate) fn lines_before_table<L: Ledger>(rows: &[RowAt], turns: &mut Turns<L>) -> usize
    ensures value { (all : List RowOf) → AreRows rows.now all → result ≡ before_table is_in_table all }
    ensures within { result ≤ length rows.now }
    ensures turns { turns.new ≤ turns.old + length rows.now }
    ensures few { turns.new ≤ turns.old + result + 1 }
{
    let mut next = 0;
    while next < rows.len() {
        turns.add_one();
        if begins_in_table(&rows[next + 1..]) {
            return next;
        }
        next += 1;
    }
    next
}

/// How many lines a table has whose header row is the first of these.
pub(crate) fn lines_of_table<L: Ledger>(rows: &[RowAt], turns: &mut Turns<L>) -> usize
    ensures value { (all : List RowOf) → AreRows rows.now all → result ≡ table_lines is_in_table all }
    ensures within { result ≤ length rows.now }
    ensures turns { turns.new ≤ turns.old + result }
{
    if rows.is_empty() {
        return 0;
    }
    let mut next = 1;
    while next < rows.len() {
        turns.add_one();
        if !is_in_table(&rows[next]) {
            return next;
        }
        next += 1;
    }
    next
}
