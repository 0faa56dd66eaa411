//! Edits whose additions are parts of a list that stays.
//!
//! These are two calls of an [`EditMap`] which only division of a child needs. They are functions beside the type, so that
//! its public methods stay those that a user of the map calls.

ghost use Rattle.std.specs.Prelude.{◌≡◌, ◌+◌, ◌<◌, ◌^◌, OnOk, OnErr, IsOk, IsTrue};
ghost use Rattle.markdown_edits.specs.Edits.{edit_at, is_no_edit, added_after, removal_at};

use crate::edit_map::EditMap;
use markdown_base::event::Event;
use std::alloc::AllocError;

/// Adds an edit to a map as [`EditMap::add`] does, of copies of these additions. So the caller makes no list for each edit.
pub fn add_part(
    map: &mut EditMap,
    index: usize,
    remove: usize,
    additions: &[Event],
) -> Result<(), AllocError>
    requires sum_fits { 0 < remove → removal_at map.old index + remove < 2 ^ 64 }
    ensures ok { OnOk result (map.new ≡ added_after map.old (edit_at index remove additions.now)) }
    ensures err { OnErr result (map.new ≡ map.old) }
    ensures no_edit { IsTrue (is_no_edit (edit_at index remove additions.now)) → IsOk result }
{
    map.add_copies(index, remove, additions)
}

/// Makes room in a map for so many more edits, at ascending indices, with so many additions together. The edits stay as
/// they are, also if it runs out of memory.
pub fn reserve_parts(map: &mut EditMap, edits: usize, additions: usize) -> Result<(), AllocError>
    ensures { map.new ≡ map.old }
{
    map.reserve(edits, additions)
}
