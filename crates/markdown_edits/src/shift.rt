//! How far edits move the events behind them.

ghost use Rattle.std.specs.Prelude.{◌≡◌, length, All, IfOk};
ghost use Rattle.markdown_edits.specs.Edits.{AreDisjoint};
ghost use Rattle.markdown_edits.specs.Shifts.{shifts, place_by, AreShifts};
ghost use Rattle.markdown_edits.specs.Stored.{pooled, IsPart};

use crate::entry::Entry;
use markdown_base::event::Event;
use std::alloc::{AllocError, Global};

/// How far an edit, and all edits before it, move an event behind them.
#[derive(Clone, Copy)]
pub(crate) struct Shift {
    /// The edit's index into the events.
    pub(crate) index: usize,
    /// The index into the events at which its removal ends.
    pub(crate) end: usize,
    /// How many events they remove.
    pub(crate) removed: usize,
    /// How many events they add.
    pub(crate) added: usize,
}

/// The shifts by the edits of `len` events, in order. Returns an error if it runs out of memory, or if all
/// lengths together do not fit.
pub(crate) fn shifts_of(
    alloc: Global,
    edits: &[Entry],
    additions: &[Event],
    len: usize,
) -> Result<Vec<Shift>, AllocError>
    requires parts { All (IsPart (length additions.now)) edits.now }
    requires disjoint { AreDisjoint 0 (pooled additions.now edits.now) len }
    ensures sums { IfOk result (λ v. v.items ≡ shifts 0 0 (pooled additions.now edits.now)) }
    ensures fits { IfOk result (λ v. AreShifts len 0 v.items) }
{
    let mut shifts = Vec::with_capacity(alloc, edits.len())?;
    let mut removed = 0;
    let mut total = len;
    for edit in edits {
        let Some(more) = total.checked_add(edit.end - edit.start) else {
            return Err(AllocError);
        };
        total = more;
        removed += edit.remove;
        shifts.push(Shift {
            index: edit.index,
            end: edit.index + edit.remove,
            removed,
            added: total - len,
        })?;
    }
    Ok(shifts)
}

/// The index in the new list of the event at an index. `None` if an edit removes it. The last edit that begins at or before
/// the event decides.
pub(crate) fn place_after(shifts: &[Shift], index: usize) -> Option<usize>
    requires { AreShifts index 0 shifts.now }
    ensures { result ≡ place_by shifts.now 0 0 index }
{
    let begun = shifts.partition_point(|shift| shift.index <= index);
    if begun == 0 {
        return Some(index);
    }
    let last = shifts[begun - 1];
    if index < last.end {
        None
    } else {
        Some(index - last.removed + last.added)
    }
}
