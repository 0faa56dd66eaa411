//! What is known of a line from the lines behind it.

ghost use Rattle.std.specs.Prelude.{◌≡◌, ◌≤◌, ◌<◌, ◌+◌, ◌-◌, ◌^◌, ℕ, List, ◌∷◌, suc, cond, IfOk, length, drop, slice_index_or};
ghost use Rattle.mdblock_lines.specs.Views.{container_of};
ghost use Rattle.mdblock_containers.specs.Rows.{Row as RowOf};
ghost use Rattle.mdblock_containers.specs.Ahead.{AreRows, ahead_of, frame_before, frame_begun};
ghost use Rattle.mdblock_containers.specs.Views.{IsRow};
ghost use Rattle.mdblock_containers.specs.declared.ahead.Ahead.{Ahead};

use crate::frames::{Frame, list_name};
use crate::going::is_item;
use crate::rows::Row;
use crate::spans::RowAt;
use mdblock_lines::containers::Container;
use mdconstructs_loop_counts::Turns;
use std::alloc::{AllocError, Global};
use std::sync::ledger::Ledger;

/// What is known of a line from those behind it.
#[derive(Clone, Copy)]
pub struct Ahead {
    /// How many of them the stretch has in which it stands.
    pub further: usize,
    /// How many containers go on at the first that is not left blank.
    pub many: usize,
    /// The list that goes on at that line, if one does in which no item is open.
    pub list: Option<Frame>,
}

/// The list with which the first container that begins in a line goes on, if there is one.
pub(crate) fn list_before(row: &Row) -> Option<Frame>
    ensures { (number : ℕ) → (r : RowOf) → IsRow number row.now r → result ≡ frame_begun r.begun }
{
    match row.begun.as_slice() {
        [first, ..] => list_of(&first.container, row.list),
        [] => None,
    }
}

/// The list that a line began, if a container is an item and began in a later one.
fn list_of(c: &Container, list: usize) -> Option<Frame>
    ensures { result ≡ frame_before (container_of list c.now) }
{
    if is_item(c.kind) && list < c.line {
        Some(Frame {
            name: list_name(c),
            line: list,
        })
    } else {
        None
    }
}

/// One line more, if the line is in the stretch.
fn further_if(is_in: bool, further: usize) -> usize
    requires room { further + 1 < 2 ^ 64 }
    ensures value { result ≡ cond is_in (suc further) 0 }
    ensures few { result ≤ further + 1 }
{
    if is_in { further + 1 } else { 0 }
}

/// What is known from a line and those behind it.
fn ahead_with(row: &Row, behind: Ahead) -> Ahead
    requires room { behind.further + 1 < 2 ^ 64 }
    ensures value { (number : ℕ) → (r : RowOf) → (more : List RowOf) → IsRow number row.now r → behind ≡ ahead_of more → result ≡ ahead_of (r ∷ more) }
    ensures few { result.further ≤ behind.further + 1 }
{
    if row.is_left_blank {
        let across = further_if(behind.further >= 1, behind.further);
        return Ahead {
            further: across,
            many: behind.many,
            list: behind.list,
        };
    }
    let further = further_if(row.stays, behind.further);
    let list = list_before(row);
    Ahead {
        further,
        many: row.many,
        list,
    }
}

/// What is known of each line from those behind it; that of the last line comes first.
pub fn aheads_of<L: Ledger>(
    alloc: Global,
    rows: &[RowAt],
    turns: &mut Turns<L>,
) -> Result<Vec<Ahead>, AllocError>
    ensures len { IfOk result (λ a. length a.items ≡ length rows.now) }
    ensures aheads { IfOk result (λ a. (all : List RowOf) → AreRows rows.now all → (d : Ahead) → (k : ℕ) → k < length rows.now → slice_index_or a.items k d ≡ ahead_of (drop (length rows.now - k) all)) }
    ensures turns { turns.new ≤ turns.old + length rows.now }
{
    let mut aheads = Vec::new(alloc);
    let mut ahead = Ahead {
        further: 0,
        many: 0,
        list: None,
    };
    for n in 0..rows.len() {
        turns.add_one();
        aheads.push(ahead)?;
        let last = rows.len() - 1 - n;
        ahead = ahead_with(&rows[last].row, ahead);
    }
    Ok(aheads)
}
