//! Checks of list items (GFM 5.3), at the front of the first line of a paragraph.

ghost use Rattle.std.specs.Prelude.{◌≡◌, ◌≤◌, ◌+◌, IfOk, length};
ghost use Rattle.mdconstructs_tables.specs.Breaks.{is_white};
ghost use Rattle.mdblock_tables.specs.Pieces.{told};
ghost use Rattle.mdblock_tables.specs.Tasks.{check_at, check_pieces, goes_on, is_value, marker_at, value_name};

use crate::pieces::{Piece, Step, push};
use crate::tables::is_white;
use markdown_base::event::Name;
use mdblock_lines::bytes::{behind, indent};
use mdconstructs_loop_counts::Turns;
use std::alloc::{AllocError, Global};
use std::sync::ledger::Ledger;

/// A check at the front of a line. Its marker has three bytes.
#[derive(Clone, Copy, PartialEq, Eq, Debug)]
pub struct Check {
    /// How many columns of white space come before its marker.
    pub columns: usize,
    /// It is checked.
    pub is_checked: bool,
}

fn is_value(byte: u8) -> bool
    ensures { result ≡ is_value byte }
{
    is_white(byte) || byte == b'x' || byte == b'X'
}

/// White space comes first, and something else behind it.
fn goes_on<L: Ledger>(t: &[u8], turns: &mut Turns<L>) -> bool
    ensures value { result ≡ goes_on t.now }
    ensures turns { turns.new ≤ turns.old + length t.now + 1 }
{
    let white = indent(t, turns);
    white >= 1 && white < t.len()
}

/// Whether the marker that comes first is checked, if one comes first.
fn marker_at<L: Ledger>(t: &[u8], turns: &mut Turns<L>) -> Option<bool>
    ensures value { result ≡ marker_at t.now }
    ensures turns { turns.new ≤ turns.old + length t.now }
{
    if t.len() < 3 {
        return None;
    }
    if t[0] == b'[' && is_value(t[1]) && t[2] == b']' && goes_on(behind(t, 3), turns) {
        Some(!is_white(t[1]))
    } else {
        None
    }
}

/// The check with which a line begins, if it begins with one, and has something else behind it.
pub fn check_at<L: Ledger>(t: &[u8], turns: &mut Turns<L>) -> Option<Check>
    ensures value { result ≡ check_at t.now }
    ensures turns { turns.new ≤ turns.old + length t.now + 1 }
{
    let columns = indent(t, turns);
    let is_checked = marker_at(behind(t, columns), turns)?;
    Some(Check {
        columns,
        is_checked,
    })
}

fn value_name(is_checked: bool) -> Name
    ensures { result ≡ value_name is_checked }
{
    if is_checked {
        Name::GfmTaskListItemValueChecked
    } else {
        Name::GfmTaskListItemValueUnchecked
    }
}

/// A check as pieces, with the white space before it.
pub fn check_pieces(alloc: Global, check: Check) -> Result<Vec<Piece>, AllocError>
    ensures { IfOk result (λ pieces. pieces.items ≡ told (check_pieces check)) }
{
    let mut pieces = Vec::new(alloc);
    let value = value_name(check.is_checked);
    push(&mut pieces, Step::Whole, Name::SpaceOrTab, check.columns)?;
    push(&mut pieces, Step::Enter, Name::GfmTaskListItemCheck, 3)?;
    push(&mut pieces, Step::Whole, Name::GfmTaskListItemMarker, 1)?;
    push(&mut pieces, Step::Whole, value, 1)?;
    push(&mut pieces, Step::Whole, Name::GfmTaskListItemMarker, 1)?;
    push(&mut pieces, Step::Exit, Name::GfmTaskListItemCheck, 3)?;
    Ok(pieces)
}
