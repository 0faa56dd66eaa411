//! Parts in the place of sections, and which of them stay at the two ends.

ghost use Rattle.std.specs.Prelude.{◌≡◌, ◌↔◌, ◌≤◌, List, drop, length, true};
ghost use Rattle.mddocument_editing.specs.FirstRest.{items_of};
ghost use Rattle.mddocument_editing.specs.Kept.{IsRecut, bytes_of_sections, recut_sections};
ghost use Rattle.mddocument_editing.specs.Trims.{AreTrimmed, StayBehind, StayInFront};

use crate::kept::Kept;
use crate::section::Section;

/// Parts in the place of the sections from one up to another.
#[derive(Drop)]
pub(crate) struct Recut {
    /// The first section that they replace.
    pub(crate) from: usize,
    /// The section behind the last one that they replace.
    pub(crate) end: usize,
    /// Their bytes.
    pub(crate) parts: Vec<Vec<u8>>,
}

/// Whether a section has these bytes.
fn is_part(section: &Section, part: &[u8]) -> bool
    ensures { (result ≡ true) ↔ (part.now ≡ section.now.part.bytes.items) }
{
    part == section.part.bytes.as_slice()
}

/// How many of the first parts are as the first sections from one up to another.
fn stay_in_front(sections: &[Section], from: usize, end: usize, parts: &[Vec<u8>]) -> usize
    requires order { from ≤ end }
    requires within { end ≤ length sections.now }
    ensures { StayInFront (bytes_of_sections sections.now) from end (items_of parts.now) result }
{
    let most = (end - from).min(parts.len());
    for count in 0..most {
        let section = &sections[from + count];
        let stays = is_part(section, parts[count].as_slice());
        if !stays {
            return count;
        }
    }
    most
}

/// How many of the last parts are as the last sections from one up to another.
fn stay_behind(sections: &[Section], from: usize, end: usize, parts: &[Vec<u8>]) -> usize
    requires order { from ≤ end }
    requires within { end ≤ length sections.now }
    ensures { StayBehind (bytes_of_sections sections.now) from end (items_of parts.now) result }
{
    let most = (end - from).min(parts.len());
    for count in 0..most {
        let section = &sections[end - count - 1];
        let stays = is_part(section, parts[parts.len() - count - 1].as_slice());
        if !stays {
            return count;
        }
    }
    most
}

/// Leaves out the first parts.
fn leave_out(parts: &mut Vec<Vec<u8>>, count: usize)
    requires { count ≤ length parts.old.items }
    ensures { parts.new.items ≡ drop count parts.old.items }
{
    parts.rotate_left(count);
    parts.truncate(parts.len() - count);
}

/// Parts in the place of sections, without those at either end that are as the sections there: these stay.
pub(crate) fn trim(kept: &Kept, recut: Recut) -> Recut
    requires { IsRecut kept.now recut.from recut.end (items_of recut.parts.items) }
    ensures same { recut_sections kept.now result.from result.end (items_of result.parts.items) ≡ recut_sections kept.now recut.from recut.end (items_of recut.parts.items) }
    ensures recut { IsRecut kept.now result.from result.end (items_of result.parts.items) }
    ensures trimmed { AreTrimmed (bytes_of_sections kept.now.sections.items) result.from result.end (items_of result.parts.items) }
{
    let Recut {
        from,
        end,
        mut parts,
    } = recut;
    let sections = kept.sections.as_slice();
    let some = stay_in_front(sections, from, end, parts.as_slice());
    leave_out(&mut parts, some);
    let from = from + some;
    let few = stay_behind(sections, from, end, parts.as_slice());
    parts.truncate(parts.len() - few);
    Recut {
        from,
        end: end - few,
        parts,
    }
}
