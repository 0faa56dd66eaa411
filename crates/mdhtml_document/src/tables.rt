//! Tables: their columns, and beginnings of spans in them.

ghost use Rattle.std.specs.List.{flat_map, list_any};
ghost use Rattle.std.specs.Prelude.{◌≡◌, ◌++◌, IfOk, MatchOption, None, OnOk, Some, codes};
ghost use Rattle.markdown_base.specs.declared.event.Name.TheVariants as name;
ghost use Rattle.mddocument_link_targets.specs.Spans.{enters, first_in, inside};
ghost use Rattle.mdhtml_document.specs.Frames.{Opens};
ghost use Rattle.mdhtml_document.specs.Html.{aligned, alignment_by, alignment_of, behind_column, cell, cell_element, cell_shape, columns_behind, columns_in, columns_of, empty_cell, empty_cells, is_in_cell, is_led, is_trailed, lacking, row_shape, table_shape};
ghost use Rattle.mdhtml_document.specs.Written.{after};
ghost use Rattle.mdhtml_document.specs.declared.names.Block.TheVariants as block;
ghost use Rattle.mdhtml_markup.specs.Pieces.{attribute};
ghost use Rattle.mdhtml_markup.specs.SafeHtml.{name_of, open_tag};

use crate::block_shapes::first_in;
use crate::names::Block;
use crate::shapes::{DONE, End, Frame, Mode, close_tag, open_container, push_fresh};
use crate::spans::inside;
use markdown_base::event::{Event, Name};
use mddocument_link_targets::spans::enters;
use mdhtml_markup::elements::{Alignment, Element};
use std::alloc::AllocError;

/// How many cells at most are written in place of those that a row lacks.
const MOST_EMPTY: usize = 100;

/// Where the columns of a table are told, by the events in it.
fn columns_of<'a>(inner: &'a [Event]) -> &'a [Event]
    ensures { result.now ≡ columns_of inner.now }
{
    match first_in(inner, Name::GfmTableDelimiterRow) {
        None => &[],
        Some(row) => row,
    }
}

/// The columns behind the first one.
fn behind_column<'a>(columns: &'a [Event]) -> &'a [Event]
    ensures { result.now ≡ behind_column columns.now }
{
    let mut rest = columns;
    'events: while let [event, behind @ ..] = rest {
        rest = behind;
        if enters(event, Name::GfmTableDelimiterCell) {
            return rest;
        }
    }
    &[]
}

/// Whether there is a colon before the hyphens of a delimiter cell, by the events in it.
fn is_led(inner: &[Event]) -> bool
    ensures { result ≡ is_led inner.now }
{
    for event in inner {
        if enters(event, Name::GfmTableDelimiterMarker) {
            return true;
        }
        if enters(event, Name::GfmTableDelimiterFiller) {
            return false;
        }
    }
    false
}

/// Whether there is a colon among events.
fn has_colon(events: &[Event]) -> bool
    ensures { result ≡ list_any (enters name.GfmTableDelimiterMarker) events.now }
{
    events
        .iter()
        .any(|event| enters(event, Name::GfmTableDelimiterMarker))
}

/// Whether there is a colon behind the hyphens of a delimiter cell, by the events in it.
fn is_trailed(inner: &[Event]) -> bool
    ensures { result ≡ is_trailed inner.now }
{
    let mut rest = inner;
    'events: while let [event, behind @ ..] = rest {
        if enters(event, Name::GfmTableDelimiterFiller) {
            return has_colon(behind);
        }
        rest = behind;
    }
    false
}

/// Where text stands, by the colons of its delimiter cell.
fn alignment_by(is_led: bool, is_trailed: bool) -> Option<Alignment>
    ensures { result ≡ alignment_by is_led is_trailed }
{
    match (is_led, is_trailed) {
        (true, true) => Some(Alignment::Center),
        (true, false) => Some(Alignment::Left),
        (false, true) => Some(Alignment::Right),
        (false, false) => None,
    }
}

/// Where the text of a column stands, by the events in its delimiter cell.
fn alignment_of(inner: &[Event]) -> Option<Alignment>
    ensures { result ≡ alignment_of inner.now }
{
    alignment_by(is_led(inner), is_trailed(inner))
}

/// The element of a cell.
fn cell_element(is_head: bool) -> Element
    ensures { result ≡ cell_element is_head }
{
    if is_head {
        Element::HeaderCell
    } else {
        Element::DataCell
    }
}

/// How the open tag of a cell begins.
fn cell_front(is_head: bool) -> &'static [u8]
    ensures { result.now ≡ codes "<" ++ name_of (cell_element is_head) }
{
    if is_head { b"<th" } else { b"<td" }
}

/// Adds where the text of a cell stands, if that is told.
fn push_alignment(out: &mut Vec<u8>, alignment: Option<Alignment>) -> Result<(), AllocError>
    ensures { OnOk result (out.new.items ≡ out.old.items ++ flat_map attribute (aligned alignment)) }
{
    match alignment {
        None => Ok(()),
        Some(alignment) => {
            out.extend_from_slice(b" align=\"")?;
            out.extend_from_slice(alignment.word())?;
            out.extend_from_slice(b"\"")
        }
    }
}

/// Adds the open tag of a cell.
fn push_cell(
    out: &mut Vec<u8>,
    is_head: bool,
    alignment: Option<Alignment>,
) -> Result<(), AllocError>
    ensures { OnOk result (out.new.items ≡ out.old.items ++ open_tag (cell_element is_head) (flat_map attribute (aligned alignment))) }
{
    out.extend_from_slice(cell_front(is_head))?;
    push_alignment(out, alignment)?;
    out.extend_from_slice(b">")
}

/// Begins a cell.
fn open_cell(
    out: &mut Vec<u8>,
    is_head: bool,
    alignment: Option<Alignment>,
) -> Result<Frame, AllocError>
    ensures { IfOk result (λ frame. Opens (cell is_head alignment) out.old.items out.new.items frame) }
{
    push_fresh(out)?;
    push_cell(out, is_head, alignment)?;
    Ok(Frame {
        mode: Mode::Heading,
        end: End::Line(cell_element(is_head)),
    })
}

/// Writes an empty cell.
fn push_empty(
    out: &mut Vec<u8>,
    is_head: bool,
    alignment: Option<Alignment>,
) -> Result<(), AllocError>
    ensures { OnOk result (out.new.items ≡ after out.old.items (empty_cell is_head alignment)) }
{
    push_cell(out, is_head, alignment)?;
    out.extend_from_slice(close_tag(cell_element(is_head)))?;
    Ok(out.push(b'\n')?)
}

/// Writes the cells that a row lacks, by the columns behind its cells.
#[tactic(auto, using(crate::proofs::EmptyCells::one_more))]
fn push_empty_cells(out: &mut Vec<u8>, is_head: bool, columns: &[Event]) -> Result<(), AllocError>
    ensures { OnOk result (out.new.items ≡ after out.old.items (empty_cells 100 is_head columns.now)) }
{
    let mut rest = columns;
    let mut most = MOST_EMPTY;
    while most > 0 {
        match first_in(rest, Name::GfmTableDelimiterCell) {
            None => return Ok(()),
            Some(column) => push_empty(out, is_head, alignment_of(column))?,
        }
        rest = behind_column(rest);
        most -= 1;
    }
    Ok(())
}

/// Writes what is written behind the last span in a span.
pub(crate) fn push_lacking(
    out: &mut Vec<u8>,
    mode: Mode,
    columns: &[Event],
) -> Result<(), AllocError>
    ensures { OnOk result (out.new.items ≡ after out.old.items (lacking mode columns.now)) }
{
    match mode {
        Mode::Cells(is_head) => push_empty_cells(out, is_head, columns),
        _ => Ok(()),
    }
}

/// The columns that the spans in a span stand in, by the events behind its enter.
pub(crate) fn columns_in<'a>(block: Block, columns: &'a [Event], behind: &'a [Event]) -> &'a [Event]
    ensures { result.now ≡ columns_in block columns.now (inside behind.now) }
{
    match block {
        Block::Table => columns_of(inside(behind)),
        _ => columns,
    }
}

/// The columns that the spans behind a span stand in.
pub(crate) fn columns_behind<'a>(block: Block, columns: &'a [Event]) -> &'a [Event]
    ensures { result.now ≡ columns_behind block columns.now }
{
    if columns.is_empty() {
        return &[];
    }
    match block {
        Block::TableCell => behind_column(columns),
        _ => columns,
    }
}

/// Whether text stands in a column, and so in a cell.
pub(crate) fn is_in_cell(columns: &[Event]) -> bool
    ensures { result ≡ is_in_cell columns.now }
{
    !columns.is_empty()
}

/// Whether there is a row among events.
fn has_row(events: &[Event]) -> bool
    ensures { result ≡ list_any (enters name.GfmTableRow) events.now }
{
    events.iter().any(|event| enters(event, Name::GfmTableRow))
}

/// Begins a body of a table, if it has a row, by the events in it.
fn open_body(out: &mut Vec<u8>, inner: &[Event]) -> Result<Frame, AllocError>
    ensures { IfOk result (λ frame. Opens (table_shape block.TableBody inner.now) out.old.items out.new.items frame) }
{
    if has_row(inner) {
        open_container(out, Element::TableBody, Mode::Rows(false))
    } else {
        Ok(DONE)
    }
}

/// Begins a span directly in a table, by the events behind its enter.
pub(crate) fn open_in_table(
    out: &mut Vec<u8>,
    block: Block,
    behind: &[Event],
) -> Result<Frame, AllocError>
    ensures { IfOk result (λ frame. Opens (table_shape block (inside behind.now)) out.old.items out.new.items frame) }
{
    match block {
        Block::TableHead => open_container(out, Element::TableHead, Mode::Rows(true)),
        Block::TableBody => open_body(out, inside(behind)),
        _ => Ok(DONE),
    }
}

/// Begins a span directly in the head or the body of a table.
pub(crate) fn open_row(out: &mut Vec<u8>, is_head: bool, block: Block) -> Result<Frame, AllocError>
    ensures { IfOk result (λ frame. Opens (row_shape is_head block) out.old.items out.new.items frame) }
{
    match block {
        Block::TableRow => open_container(out, Element::TableRow, Mode::Cells(is_head)),
        _ => Ok(DONE),
    }
}

/// Begins a cell, if there is a column for it.
fn open_in_column(out: &mut Vec<u8>, is_head: bool, columns: &[Event]) -> Result<Frame, AllocError>
    ensures { IfOk result (λ frame. Opens (cell_shape is_head columns.now block.TableCell) out.old.items out.new.items frame) }
{
    match first_in(columns, Name::GfmTableDelimiterCell) {
        None => Ok(DONE),
        Some(column) => open_cell(out, is_head, alignment_of(column)),
    }
}

/// Begins a span directly in a row, by the columns from there on.
pub(crate) fn open_in_row(
    out: &mut Vec<u8>,
    is_head: bool,
    columns: &[Event],
    block: Block,
) -> Result<Frame, AllocError>
    ensures { IfOk result (λ frame. Opens (cell_shape is_head columns.now block) out.old.items out.new.items frame) }
{
    match block {
        Block::TableCell => open_in_column(out, is_head, columns),
        _ => Ok(DONE),
    }
}
