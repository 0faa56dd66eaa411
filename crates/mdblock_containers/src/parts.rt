//! Parts of a document: blank lines, and stretches of lines that leaf blocks are read from.

ghost use Rattle.std.specs.Prelude.{◌≡◌, ◌≤◌, ◌<◌, ◌+◌, ◌^◌, ◌++◌, ◌==◌, ◌&&◌, not, nat_lt, cond, None, Some, true, IfOk, [], ℕ, length, map, max, min, take, false};
ghost use Rattle.markdown_base.specs.Virtual.{point};
ghost use Rattle.mdblock_containers.specs.Over.{AreEarlier, is_earlier};
ghost use Rattle.mdblock_containers.specs.Parts.{ending_at, open_behind, stands_in};
ghost use Rattle.mdblock_containers.specs.Prefixes.{containers_of};
ghost use Rattle.mdblock_containers.specs.Rows.{Row as RowOf, holds_ending};
ghost use Rattle.mdblock_containers.specs.Views.{IsRow, leaf_of, open_of};

use crate::going::Open;
use crate::leaves::holds_ending;
use crate::rows::{Row, open_all};
use crate::spans::{RowAt, end_of, text_end_of};
use crate::writing::{enter, exit};
use markdown_base::event::{Event, Name, Point};
use mdblock_lines::containers::ContainerKind;
use mdconstructs_loop_counts::Turns;
use std::alloc::AllocError;
use std::sync::ledger::Ledger;

/// Where a part of a document ends, and its line ending.
#[derive(Clone, Copy)]
pub struct PartEnd {
    /// It is a blank line.
    pub is_blank: bool,
    /// Where it ends: before its line ending, unless that is in it.
    pub place: Point,
    /// The place behind its line ending, if it has one that is not in it.
    pub behind: Option<Point>,
}

/// The line ending of a part, if it has one that is not in it.
pub fn write_ending(events: &mut Vec<Event>, end: PartEnd) -> Result<(), AllocError>
    ensures { IfOk result (λ _. events.new.items ≡ events.old.items ++ ending_at end) }
{
    let Some(behind) = end.behind else {
        return Ok(());
    };
    let name = if end.is_blank {
        Name::BlankLineEnding
    } else {
        Name::LineEnding
    };
    enter(events, name, end.place)?;
    exit(events, name, behind)
}

/// Where a part ends whose last line this is. Its line ending is in it if its block is open to the end.
pub fn part_end(is_blank: bool, last: &RowAt) -> PartEnd
    requires size { last.now.span.size + 1 < 2 ^ 64 }
    requires number { last.now.span.number + 1 < 2 ^ 64 }
    ensures is_blank { result.is_blank ≡ is_blank }
    ensures place { let s = last.now.span in let behind = cond (s.end == s.next) (point s.number (s.size + 1) s.end 0) (point (s.number + 1) 1 s.next 0) in result.place ≡ cond (not is_blank && holds_ending (leaf_of last.now.row.leaf)) behind (point s.number (s.size + 1) s.end 0) }
    ensures behind { let s = last.now.span in result.behind ≡ cond (not is_blank && holds_ending (leaf_of last.now.row.leaf)) None (cond (s.end == s.next) None (Some (point (s.number + 1) 1 s.next 0))) }
{
    let span = last.span;
    let behind = end_of(span);
    if !is_blank && holds_ending(last.row.leaf) {
        return PartEnd {
            is_blank,
            place: behind,
            behind: None,
        };
    }
    PartEnd {
        is_blank,
        place: text_end_of(span),
        behind: if span.end == span.next {
            None
        } else {
            Some(behind)
        },
    }
}

/// An item or a footnote definition began in a line before this one.
fn is_earlier(entry: &Open, number: usize) -> bool
    ensures { result ≡ is_earlier number (open_of entry.now) }
{
    match entry.container.kind {
        ContainerKind::Quote => false,
        ContainerKind::Item | ContainerKind::Footnote => entry.container.line < number,
    }
}

/// The first container at which to ask whether a blank line stands in it: those from `passed` on are items or footnote definitions that began before, which it does not
/// stand in unless they are among the first `many`.
fn first_asked(size: usize, passed: usize, many: usize) -> usize
    ensures { result ≡ min size (max passed many) }
{
    let from = if passed < many { many } else { passed };
    if size < from { size } else { from }
}

/// In how many of its containers a line stands: a blank line not in the items and footnote definitions that began before it and do not go on behind it, where so many
/// containers go on. Those from `passed` on are such.
pub fn standing<L: Ledger>(
    stack: &[Open],
    is_blank: bool,
    many: usize,
    number: usize,
    passed: usize,
    turns: &mut Turns<L>,
) -> usize
    requires { AreEarlier number passed (length stack.now) (map open_of stack.now) }
    ensures value { take result (map open_of stack.now) ≡ stands_in is_blank many number (map open_of stack.now) }
    ensures few { result ≤ length stack.now }
    ensures passed { is_blank ≡ true → AreEarlier number result (length stack.now) (map open_of stack.now) }
    ensures least { is_blank ≡ true → min (length stack.now) many ≤ result }
    ensures below { is_blank ≡ true → result ≤ max passed many }
    ensures asked { is_blank ≡ true → turns.new + result ≤ turns.old + max passed many }
    ensures turns { turns.new + result ≤ turns.old + length stack.now }
{
    let size = stack.len();
    if !is_blank {
        return size;
    }
    let mut n = first_asked(size, passed, many);
    while n > many && is_earlier(&stack[n - 1], number) {
        turns.add_one();
        n -= 1;
    }
    n
}

/// The open containers behind a line. Returns how many of them are containers of the line.
pub fn open_in<L: Ledger>(
    stack: &mut Vec<Open>,
    number: usize,
    row: &Row,
    turns: &mut Turns<L>,
) -> Result<usize, AllocError>
    ensures stack { IfOk result (λ _. (r : RowOf) → IsRow number row.now r → containers_of r.went_on ≡ take row.now.many (map open_of stack.old.items) → map open_of stack.new.items ≡ open_behind (map open_of stack.old.items) r) }
    ensures many { IfOk result (λ n. (r : RowOf) → IsRow number row.now r → containers_of r.went_on ≡ take row.now.many (map open_of stack.old.items) → (row.now.is_left_blank ≡ true → r.begun ≡ []) → (row.now.is_lazy ≡ true → r.begun ≡ []) → take n (map open_of stack.new.items) ≡ containers_of r.went_on ++ containers_of r.begun) }
    ensures few { IfOk result (λ n. row.now.many ≤ length stack.old.items → n ≤ length stack.new.items) }
    ensures least { IfOk result (λ n. row.now.many ≤ length stack.old.items → row.now.many ≤ n) }
    ensures fewer { IfOk result (λ n. n ≤ row.now.many + length row.now.begun.items) }
    ensures whole { IfOk result (λ n. row.now.is_left_blank ≡ false → row.now.is_lazy ≡ false → n ≡ length stack.new.items) }
    ensures turns { turns.new ≤ turns.old + length row.now.begun.items }
{
    if row.is_left_blank || row.is_lazy {
        return Ok(row.many);
    }
    stack.truncate(row.many);
    open_all(stack, row.list, number, row.begun.as_slice(), turns)?;
    Ok(stack.len())
}
