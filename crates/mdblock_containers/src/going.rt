//! Which open containers go on with a line, and which begin in it.

ghost use Rattle.std.specs.Prelude.{◌≡◌, ◌≤◌, ◌+◌, ◌-◌, ◌==◌, ◌&&◌, cond, nat_le, IfOk, IfSome, map, length, take, drop, option_map, ◌*◌, ◌<◌};
ghost use Rattle.mdblock_lines.specs.Containers.{goes_on, begins};
ghost use Rattle.mdblock_leaf_blocks.specs.LineKinds.{indent, is_thematic_break, unindented};
ghost use Rattle.mdblock_lines.specs.Breaks.{has_break};
ghost use Rattle.mdblock_lines.specs.Views.{prefix_of};
ghost use Rattle.mdblock_containers.specs.Prefixes.{going_on, columns_of, beginning, with_list};
ghost use Rattle.mdblock_containers.specs.Over.{AreBefore, AreOver};
ghost use Rattle.mdblock_containers.specs.Views.{open_of, begun_of, is_item, takes_place};
ghost use Rattle.mdblock_containers.specs.Costs.{HaveSizes};

use markdown_base::configuration::Constructs;
use mdblock_lines::breaks::{Breaks, breaks_in};
use mdblock_lines::bytes::{behind, indent};
use mdblock_lines::containers::{Container, ContainerKind, Prefix, begins, first_from, goes_on};
use mdconstructs_loop_counts::Turns;
use std::alloc::AllocError;
use std::sync::ledger::Ledger;

/// A container that is open.
#[derive(Clone, Copy)]
pub struct Open {
    /// The container.
    pub container: Container,
    /// Of an item: the number of the line that begins its list.
    pub list: usize,
}

/// Containers that go on with a line.
#[derive(Clone, Copy)]
pub struct Going {
    /// How many of them.
    pub many: usize,
    /// The columns of their prefixes.
    pub columns: usize,
    /// Nothing is left of the line behind the prefix before this one of them.
    pub over: usize,
}

/// The columns of the prefix with which an open container goes on with a line's rest, if it does. `columns` of white space come first.
pub(crate) fn goes_on_open(entry: &Open, number: usize, t: &[u8], columns: usize) -> Option<usize>
    requires columns { columns ≡ indent t.now }
    requires within { columns ≤ length t.now }
    ensures value { result ≡ goes_on (open_of entry.now) number t.now }
    ensures within { IfSome result (λ n. n ≤ length t.now) }
{
    goes_on(&entry.container, number, t, columns)
}

/// Which of these containers go on with a line, from the outermost on. Those from `over` on go on over a blank rest, which is known of earlier lines.
pub(crate) fn going_on<L: Ledger>(
    stack: &[Open],
    number: usize,
    t: &[u8],
    over: usize,
    turns: &mut Turns<L>,
) -> Going
    requires over { AreOver number over (length stack.now) stack.now }
    requires sizes { HaveSizes (map open_of stack.now) }
    ensures many { result.many ≡ length (going_on (map open_of stack.now) number t.now) }
    ensures columns { result.columns ≡ columns_of (going_on (map open_of stack.now) number t.now) }
    ensures few { result.many ≤ length stack.now }
    ensures within { result.columns ≤ length t.now }
    ensures over { AreBefore number stack.now → AreOver (number + 1) result.over result.many stack.now }
    ensures turns { turns.new + result.over ≤ turns.old + over + 3 * length t.now + 2 }
    ensures full { result.columns < length t.now → turns.new ≤ turns.old + 3 * length t.now + 2 }
{
    let whole = t.len();
    let all = stack.len();
    let mut at = 0;
    let mut first = indent(t, turns);
    let mut many = 0;
    let mut from = 0;
    for entry in stack {
        turns.add_one();
        if goes_over(at, whole, many, over) {
            return Going {
                many: all,
                columns: at,
                over: from,
            };
        }
        let Some(size) = goes_on_open(entry, number, behind(t, at), first - at) else {
            return Going {
                many,
                columns: at,
                over: from,
            };
        };
        first = first_from(t, at, at + size, first, turns);
        many += 1;
        from = over_behind(at, whole, from, many);
        at += size;
    }
    Going {
        many,
        columns: at,
        over: from,
    }
}

/// Nothing is left of a line, and the open containers from here on are known to go on over that.
fn goes_over(at: usize, whole: usize, many: usize, over: usize) -> bool
    ensures { result ≡ ((at == whole) && nat_le over many) }
{
    at == whole && over <= many
}

/// From which container on those that went on did so over nothing, behind one more.
fn over_behind(at: usize, whole: usize, from: usize, many: usize) -> usize
    ensures { result ≡ cond (at == whole) from many }
{
    if at == whole { from } else { many }
}

/// The containers that begin with a line's rest go to a list. Returns the columns of their prefixes.
pub fn beginning<L: Ledger>(
    on: &Constructs,
    number: usize,
    in_paragraph: bool,
    t: &[u8],
    begun: &mut Vec<Prefix>,
    turns: &mut Turns<L>,
) -> Result<usize, AllocError>
    ensures begun { IfOk result (λ _. map (prefix_of number) begun.new.items ≡ beginning on.now (length t.now) number in_paragraph t.now) }
    ensures columns { IfOk result (λ n. n ≡ columns_of (beginning on.now (length t.now) number in_paragraph t.now)) }
    ensures within { IfOk result (λ n. n ≤ length t.now) }
    ensures turns { turns.new ≤ turns.old + 6 * length t.now + 3 }
{
    begun.clear();
    let breaks = breaks_in(on, t, turns);
    let mut at = 0;
    let mut may_go_on = in_paragraph;
    while let Some(prefix) = begins_at(on, number, may_go_on, t, at, breaks, turns) {
        turns.add_one();
        begun.push(prefix)?;
        at += prefix.size;
        may_go_on = false;
    }
    Ok(at)
}

/// The container that begins at a column of a line's rest, if one does.
fn begins_at<L: Ledger>(
    on: &Constructs,
    number: usize,
    in_paragraph: bool,
    t: &[u8],
    at: usize,
    breaks: Breaks,
    turns: &mut Turns<L>,
) -> Option<Prefix>
    requires within { at ≤ length t.now }
    requires breaks { has_break breaks (at + indent (drop at t.now)) ≡ on.now.thematic_break && is_thematic_break (unindented (drop at t.now)) }
    ensures value { option_map (prefix_of number) result ≡ begins on.now number in_paragraph (drop at t.now) }
    ensures some { IfSome result (λ p. 1 ≤ p.size) }
    ensures within { IfSome result (λ p. p.size ≤ length t.now - at) }
    ensures found { IfSome result (λ p. turns.new + indent (drop at t.now) ≤ turns.old + 3 * p.size + indent (drop (at + p.size) t.now) + 1) }
    ensures turns { turns.new ≤ turns.old + 3 * (length t.now - at) + 3 }
{
    let rest = behind(t, at);
    let columns = indent(rest, turns);
    begins(
        on,
        number,
        in_paragraph,
        rest,
        columns,
        breaks.has(at + columns),
        turns,
    )
}

/// The number of the line that begins the list of the first of these containers: it goes on with a list if it takes the place of an item with
/// the same marker.
pub fn list_of_first(before: &[Open], number: usize, begun: &[Prefix]) -> usize
    ensures { begun_of result number begun.now ≡ with_list (map open_of before.now) (map (prefix_of number) begun.now) }
{
    match (before, begun) {
        ([old, ..], [new, ..]) if takes_place(&old.container, &new.container) => old.list,
        _ => number,
    }
}

/// Whether an item takes the place of another, with the same marker.
fn takes_place(old: &Container, new: &Container) -> bool
    ensures { result ≡ takes_place old.now new.now }
{
    is_item(old.kind) && is_item(new.kind) && old.marker == new.marker
}

/// Whether a container is an item.
pub fn is_item(kind: ContainerKind) -> bool
    ensures { result ≡ is_item kind }
{
    match kind {
        ContainerKind::Item => true,
        ContainerKind::Quote | ContainerKind::Footnote => false,
    }
}

/// The first of open containers.
pub fn first_of(stack: &[Open], many: usize) -> &[Open]
    requires { many ≤ length stack.now }
    ensures { result.now ≡ take many stack.now }
{
    &stack[..many]
}

/// Open containers behind the first.
pub fn rest_of(stack: &[Open], many: usize) -> &[Open]
    requires { many ≤ length stack.now }
    ensures { result.now ≡ drop many stack.now }
{
    &stack[many..]
}
