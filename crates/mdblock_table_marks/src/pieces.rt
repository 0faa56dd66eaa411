//! Rows as pieces, put at their places.

ghost use Rattle.std.specs.Prelude.{◌≡◌, ◌≤◌, ◌+◌, ◌-◌, ◌*◌, ◌++◌, ◌∷◌, ◌==◌, [], List, IfOk, cond, drop, length};
ghost use Rattle.markdown_base.specs.declared.event.Kind.TheVariants.{Enter, Exit};
ghost use Rattle.markdown_base.specs.Virtual.{Seat};
ghost use Rattle.mdblock_leaf_blocks.specs.LeafBlocks.{bytes_of};
ghost use Rattle.mdblock_lines.specs.Lines.{place_after};
ghost use Rattle.mdblock_tables.specs.Pieces.{placed};
ghost use Rattle.mdblock_tables.specs.TablePieces.{row_pieces};
ghost use Rattle.mdblock_containers.specs.PlaceEvents.{HasColumns, event_at};
ghost use Rattle.mdblock_containers.specs.SeatPlaces.{AreSeatsAt, events_of};
ghost use Rattle.mdblock_table_marks.specs.PiecePlaces.{piece_at, pieces_at, width, width_of};

use markdown_base::configuration::TabSize;
use markdown_base::event::{Event, Name, Point};
use mdblock_containers::prefixes::At;
use mdblock_containers::writing::{enter, exit, span};
use mdblock_lines::bytes::behind;
use mdblock_tables::pieces::{Piece, Step};
use mdblock_tables::rows::{RowKind, row_pieces};
use mdconstructs_loop_counts::Turns;
use std::alloc::{AllocError, Global};
use std::sync::ledger::Ledger;

/// Enters a span of so many columns, if it has any.
fn enter_some(
    events: &mut Vec<Event>,
    name: Name,
    place: Point,
    size: usize,
) -> Result<(), AllocError>
    ensures { IfOk result (λ _. events.new.items ≡ events.old.items ++ cond (size == 0) [] (event_at Enter name place ∷ [])) }
{
    if size == 0 {
        return Ok(());
    }
    enter(events, name, place)
}

/// Exits a span of so many columns, if it has any.
fn exit_some(
    events: &mut Vec<Event>,
    name: Name,
    place: Point,
    size: usize,
) -> Result<(), AllocError>
    ensures { IfOk result (λ _. events.new.items ≡ events.old.items ++ cond (size == 0) [] (event_at Exit name place ∷ [])) }
{
    if size == 0 {
        return Ok(());
    }
    exit(events, name, place)
}

/// A piece at a place. Returns the place behind it.
fn write_piece<L: Ledger>(
    events: &mut Vec<Event>,
    bytes: &[u8],
    tab: TabSize,
    place: Point,
    piece: &Piece,
    turns: &mut Turns<L>,
) -> Result<Point, AllocError>
    requires { HasColumns tab bytes.now place (width piece.now) }
    ensures events { IfOk result (λ _. events.new.items ≡ events.old.items ++ piece_at tab bytes.now place piece.now) }
    ensures place { IfOk result (λ p. p ≡ place_after tab bytes.now place (width piece.now)) }
    ensures turns { turns.new ≤ turns.old + width piece.now }
{
    match piece.step {
        Step::Enter => {
            enter_some(events, piece.name, place, piece.size)?;
            Ok(place)
        }
        Step::Whole => span(events, bytes, tab, piece.name, place, piece.size, turns),
        Step::Exit => {
            exit_some(events, piece.name, place, piece.size)?;
            Ok(place)
        }
    }
}

/// Pieces from a place on, one behind the other. Returns the place behind them.
fn write_pieces<L: Ledger>(
    events: &mut Vec<Event>,
    bytes: &[u8],
    tab: TabSize,
    from: Point,
    pieces: &[Piece],
    turns: &mut Turns<L>,
) -> Result<Point, AllocError>
    requires { HasColumns tab bytes.now from (width_of pieces.now) }
    ensures events { IfOk result (λ _. events.new.items ≡ events.old.items ++ pieces_at tab bytes.now from pieces.now) }
    ensures place { IfOk result (λ p. p ≡ place_after tab bytes.now from (width_of pieces.now)) }
    ensures turns { turns.new ≤ turns.old + length pieces.now + width_of pieces.now }
{
    let mut place = from;
    for piece in pieces {
        turns.add_one();
        place = write_piece(events, bytes, tab, place, piece, turns)?;
    }
    Ok(place)
}

/// A row of a table, by the bytes of its line, from behind the line's prefixes on. Returns the place behind it.
pub(crate) fn write_row<L: Ledger>(
    alloc: Global,
    events: &mut Vec<Event>,
    bytes: &[u8],
    tab: TabSize,
    kind: RowKind,
    begin: At,
    line: &[u8],
    turns: &mut Turns<L>,
) -> Result<Point, AllocError>
    requires within { begin.columns ≤ length line.now }
    requires columns { HasColumns tab bytes.now begin.place (length line.now - begin.columns) }
    ensures events { IfOk result (λ _. (seats : List Seat) → AreSeatsAt tab bytes.now begin.place seats → drop begin.columns line.now ≡ bytes_of seats → events.new.items ≡ events.old.items ++ events_of (placed bytes.now (row_pieces kind (bytes_of seats)) seats)) }
    ensures place { IfOk result (λ p. p ≡ place_after tab bytes.now begin.place (length line.now - begin.columns)) }
    ensures turns { turns.new ≤ turns.old + 17 * (length line.now - begin.columns) + 10 }
{
    let rest = behind(line, begin.columns);
    let pieces = row_pieces(alloc, kind, rest, turns)?;
    let end = write_pieces(events, bytes, tab, begin.place, pieces.as_slice(), turns)?;
    Ok(end)
}
