//! Rows of tables as pieces.

ghost use Rattle.std.specs.Prelude.{◌≡◌, ◌≤◌, ◌+◌, ◌*◌, ◌++◌, ◌==◌, IfOk, cond, false, length};
ghost use Rattle.mdblock_tables.specs.Pieces.{told};
ghost use Rattle.mdblock_tables.specs.TablePieces.{cell_name, cell_pieces, content_name, content_within, row_cells, row_name, row_pieces, value_within};
ghost use Rattle.mdblock_tables.specs.Tables.{cut};

use crate::pieces::{Piece, Step, push};
use crate::tables::{cell_size, hyphens, one_if, trimmed};
use markdown_base::event::Name;
use mdblock_lines::bytes::{behind, front, indent};
use mdconstructs_loop_counts::Turns;
use std::alloc::{AllocError, Global};
use std::sync::ledger::Ledger;

/// What a row is.
#[derive(Clone, Copy, PartialEq, Eq, Debug)]
pub enum RowKind {
    /// A header row, or a row behind the delimiter row.
    Text,
    /// A delimiter row.
    Delimiter,
}

fn row_name(kind: RowKind) -> Name
    ensures { result ≡ row_name kind }
{
    match kind {
        RowKind::Text => Name::GfmTableRow,
        RowKind::Delimiter => Name::GfmTableDelimiterRow,
    }
}

fn cell_name(kind: RowKind) -> Name
    ensures { result ≡ cell_name kind }
{
    match kind {
        RowKind::Text => Name::GfmTableCell,
        RowKind::Delimiter => Name::GfmTableDelimiterCell,
    }
}

fn content_name(kind: RowKind) -> Name
    ensures { result ≡ content_name kind }
{
    match kind {
        RowKind::Text => Name::GfmTableCellText,
        RowKind::Delimiter => Name::GfmTableDelimiterCellValue,
    }
}

/// Adds the colons and hyphens of a delimiter cell.
fn push_value<L: Ledger>(
    pieces: &mut Vec<Piece>,
    text: &[u8],
    turns: &mut Turns<L>,
) -> Result<(), AllocError>
    ensures pieces { IfOk result (λ _. pieces.new.items ≡ pieces.old.items ++ told (value_within text.now)) }
    ensures turns { turns.new ≤ turns.old + length text.now }
{
    let before = one_if(text, b':');
    let filler = hyphens(behind(text, before), turns);
    let after = text.len() - (before + filler);
    push(pieces, Step::Whole, Name::GfmTableDelimiterMarker, before)?;
    push(pieces, Step::Whole, Name::GfmTableDelimiterFiller, filler)?;
    push(pieces, Step::Whole, Name::GfmTableDelimiterMarker, after)?;
    Ok(())
}

/// Adds what the content of a cell has.
fn push_content<L: Ledger>(
    pieces: &mut Vec<Piece>,
    kind: RowKind,
    text: &[u8],
    turns: &mut Turns<L>,
) -> Result<(), AllocError>
    ensures pieces { IfOk result (λ _. pieces.new.items ≡ pieces.old.items ++ told (content_within kind text.now)) }
    ensures turns { turns.new ≤ turns.old + length text.now }
{
    match kind {
        RowKind::Text => push(pieces, Step::Whole, Name::Data, text.len()),
        RowKind::Delimiter => push_value(pieces, text, turns),
    }
}

/// Adds a cell, by the sizes of the dividers before and behind it.
fn push_cell<L: Ledger>(
    pieces: &mut Vec<Piece>,
    kind: RowKind,
    divider: usize,
    cell: &[u8],
    closing: usize,
    turns: &mut Turns<L>,
) -> Result<(), AllocError>
    requires divider { divider ≤ 1 }
    requires closing { closing ≤ 1 }
    ensures pieces { IfOk result (λ _. pieces.new.items ≡ pieces.old.items ++ told (cell_pieces kind divider cell.now closing)) }
    ensures turns { turns.new ≤ turns.old + 2 * length cell.now + 1 }
{
    let white = indent(cell, turns);
    let text = trimmed(behind(cell, white), turns);
    let rest = cell.len() - (white + text.len());
    let size = divider + cell.len() + closing;
    push(pieces, Step::Enter, cell_name(kind), size)?;
    push(pieces, Step::Whole, Name::GfmTableCellDivider, divider)?;
    push(pieces, Step::Whole, Name::SpaceOrTab, white)?;
    push(pieces, Step::Enter, content_name(kind), text.len())?;
    push_content(pieces, kind, text, turns)?;
    push(pieces, Step::Exit, content_name(kind), text.len())?;
    push(pieces, Step::Whole, Name::SpaceOrTab, rest)?;
    push(pieces, Step::Whole, Name::GfmTableCellDivider, closing)?;
    push(pieces, Step::Exit, cell_name(kind), size)?;
    Ok(())
}

/// The size of the divider that ends the last cell: one, if a pipe comes behind so many bytes, and nothing behind it.
fn closing(size: usize, rest: &[u8]) -> usize
    requires within { size ≤ length rest.now }
    ensures value { result ≡ cond (size + 1 == length rest.now) 1 0 }
    ensures most { result ≤ 1 }
{
    if size + 1 == rest.len() { 1 } else { 0 }
}

/// Adds the cells of a row, by the size of the pipe at its front.
fn push_cells<L: Ledger>(
    pieces: &mut Vec<Piece>,
    kind: RowKind,
    divider: usize,
    row: &[u8],
    turns: &mut Turns<L>,
) -> Result<(), AllocError>
    requires divider { divider ≤ 1 }
    ensures pieces { IfOk result (λ _. pieces.new.items ≡ pieces.old.items ++ told (row_cells kind divider (cut false row.now))) }
    ensures turns { turns.new ≤ turns.old + 3 * length row.now + 3 }
{
    if row.is_empty() {
        return push(pieces, Step::Whole, Name::GfmTableCellDivider, divider);
    }
    let mut next = 0;
    let mut before = divider;
    while next < row.len() {
        turns.add_one();
        let rest = behind(row, next);
        let size = cell_size(rest, turns);
        push_cell(
            pieces,
            kind,
            before,
            front(rest, size),
            closing(size, rest),
            turns,
        )?;
        before = 1;
        next += size + 1;
    }
    Ok(())
}

/// A row as pieces. They have all bytes of the line.
pub fn row_pieces<L: Ledger>(
    alloc: Global,
    kind: RowKind,
    t: &[u8],
    turns: &mut Turns<L>,
) -> Result<Vec<Piece>, AllocError>
    ensures pieces { IfOk result (λ pieces. pieces.items ≡ told (row_pieces kind t.now)) }
    ensures turns { turns.new ≤ turns.old + 4 * length t.now + 4 }
{
    let white = indent(t, turns);
    let line = behind(t, white);
    let divider = one_if(line, b'|');
    let row = trimmed(behind(line, divider), turns);
    let rest = t.len() - (white + divider + row.len());
    let mut pieces = Vec::new(alloc);
    push(&mut pieces, Step::Enter, row_name(kind), t.len())?;
    push(&mut pieces, Step::Whole, Name::SpaceOrTab, white)?;
    push_cells(&mut pieces, kind, divider, row, turns)?;
    push(&mut pieces, Step::Whole, Name::SpaceOrTab, rest)?;
    push(&mut pieces, Step::Exit, row_name(kind), t.len())?;
    Ok(pieces)
}
