//! Lines with their containers: how a line is read needs of the lines before it only which containers are open and which leaf block may go on.

ghost use Rattle.std.specs.Prelude.{◌≡◌, ◌≤◌, ◌+◌, ◌++◌, ◌==◌, ◌||◌, ◌&&◌, not, cond, IfOk, [], length, map, take, drop, ◌*◌, ◌<◌};
ghost use Rattle.markdown_base.specs.declared.configuration.Constructs.{Constructs};
ghost use Rattle.mdblock_leaf_blocks.specs.LeafBlocks.{Line, text_of};
ghost use Rattle.mdblock_leaf_blocks.specs.LineKinds.{is_blank_line};
ghost use Rattle.mdblock_lines.specs.Views.{prefix_of};
ghost use Rattle.mdblock_containers.specs.Prefixes.{going_on, beginning, with_list, columns_of, containers_of};
ghost use Rattle.mdblock_containers.specs.Rows.{Row as RowOf, is_raw, has_none, is_paragraph, holds_ending, is_lazily, leaf_after, closed, open_paragraph, row_of, known_after};
ghost use Rattle.mdblock_containers.specs.Over.{AreBefore, AreOver};
ghost use Rattle.mdblock_containers.specs.Views.{leaf_of, open_of, begun_of, before_of, IsRow};
ghost use Rattle.mdblock_containers.specs.Costs.{HaveSizes};

use crate::going::{Going, Open, beginning, first_of, going_on, list_of_first, rest_of};
use crate::leaves::{Leaf, holds_ending, interrupts_paragraph, is_paragraph, is_raw, leaf_after};
use markdown_base::configuration::Constructs;
use mdblock_lines::bytes::{behind, is_blank_line};
use mdblock_lines::containers::Prefix;
use mdconstructs_loop_counts::Turns;
use std::alloc::{AllocError, Global};
use std::sync::ledger::Ledger;

/// What is known before a line.
#[derive(Drop)]
pub struct Before {
    /// The containers of the last line that was not left blank.
    pub stack: Vec<Open>,
    /// How many of them went on since.
    pub depth: usize,
    /// From this one on those are items that go on over a blank line.
    pub over: usize,
    /// The leaf block that may go on.
    pub leaf: Leaf,
}

/// A line with its containers.
#[derive(Drop)]
pub struct Row {
    /// How many containers go on with it.
    pub many: usize,
    /// The columns of their prefixes.
    pub going: usize,
    /// Nothing is left of the line behind the prefix before this one of them.
    pub over: usize,
    /// The containers that begin in it.
    pub begun: Vec<Prefix>,
    /// The number of the line that begins the list of the first of these.
    pub list: usize,
    /// The columns of all prefixes.
    pub columns: usize,
    /// Only white space is behind them.
    pub is_blank: bool,
    /// It goes on with a paragraph, though not with its containers.
    pub is_lazy: bool,
    /// It goes on with the stretch of lines before.
    pub stays: bool,
    /// It is left blank: the lines behind it say in which containers it stands.
    pub is_left_blank: bool,
    /// The leaf block that may go on behind it.
    pub leaf: Leaf,
}

/// Containers that begin in a line, and the columns of their prefixes.
#[derive(Drop)]
struct Begun {
    prefixes: Vec<Prefix>,
    columns: usize,
}

/// The containers that begin with a line's rest: none, if all open ones go on and what may go on with them is raw.
#[inline(always)]
fn begun_in<L: Ledger>(
    alloc: Global,
    on: &Constructs,
    number: usize,
    leaf: Leaf,
    all_go_on: bool,
    t: &[u8],
    turns: &mut Turns<L>,
) -> Result<Begun, AllocError>
    ensures prefixes { IfOk result (λ b. map (prefix_of number) b.prefixes.items ≡ cond (all_go_on && is_raw (leaf_of leaf)) [] (beginning on.now (length t.now) number (all_go_on && is_paragraph (leaf_of leaf)) t.now)) }
    ensures columns { IfOk result (λ b. b.columns ≡ columns_of (map (prefix_of number) b.prefixes.items)) }
    ensures within { IfOk result (λ b. b.columns ≤ length t.now) }
    ensures turns { turns.new ≤ turns.old + 6 * length t.now + 3 }
{
    let mut prefixes = Vec::new(alloc);
    if all_go_on && is_raw(leaf) {
        return Ok(Begun {
            prefixes,
            columns: 0,
        });
    }
    let in_paragraph = all_go_on && is_paragraph(leaf);
    let columns = beginning(on, number, in_paragraph, t, &mut prefixes, turns)?;
    Ok(Begun { prefixes, columns })
}

/// Whether a line goes on lazily with a paragraph: not all containers go on, none begins, and it begins no other block.
fn is_lazily<L: Ledger>(
    on: &Constructs,
    before: &Before,
    all_go_on: bool,
    none_begins: bool,
    rest: &[u8],
    turns: &mut Turns<L>,
) -> bool
    ensures value { result ≡ is_lazily on.now (before_of before.now) all_go_on none_begins rest.now }
    ensures turns { turns.new ≤ turns.old + 40 * length rest.now + 820 }
{
    !all_go_on && none_begins && is_paragraph(before.leaf) && !interrupts_paragraph(on, rest, turns)
}

/// The leaf block that may go on behind a line.
fn leaf_behind<L: Ledger>(
    on: &Constructs,
    leaf: Leaf,
    stays: bool,
    is_lazy: bool,
    is_left_blank: bool,
    rest: &[u8],
    turns: &mut Turns<L>,
) -> Leaf
    ensures value { leaf_of result ≡ cond is_left_blank closed (cond is_lazy open_paragraph (leaf_after on.now (cond stays (leaf_of leaf) closed) rest.now)) }
    ensures turns { turns.new ≤ turns.old + 92 * length rest.now + 824 }
{
    if is_left_blank {
        Leaf::Closed
    } else if is_lazy {
        Leaf::Paragraph
    } else if stays {
        leaf_after(on, leaf, rest, turns)
    } else {
        leaf_after(on, Leaf::Closed, rest, turns)
    }
}

/// Which of the containers that went on so far go on with a line.
fn going_in<L: Ledger>(before: &Before, number: usize, t: &[u8], turns: &mut Turns<L>) -> Going
    requires depth { before.now.depth ≤ length before.now.stack.items }
    requires over { AreOver number before.now.over before.now.depth before.now.stack.items }
    requires sizes { HaveSizes (map open_of before.now.stack.items) }
    ensures many { result.many ≡ length (going_on (take before.now.depth (map open_of before.now.stack.items)) number t.now) }
    ensures columns { result.columns ≡ columns_of (going_on (take before.now.depth (map open_of before.now.stack.items)) number t.now) }
    ensures few { result.many ≤ length before.now.stack.items }
    ensures within { result.columns ≤ length t.now }
    ensures over { AreBefore number before.now.stack.items → AreOver (number + 1) result.over result.many before.now.stack.items }
    ensures turns { turns.new + result.over ≤ turns.old + before.now.over + 3 * length t.now + 2 }
    ensures full { result.columns < length t.now → turns.new ≤ turns.old + 3 * length t.now + 2 }
{
    going_on(
        first_of(before.stack.as_slice(), before.depth),
        number,
        t,
        before.over,
        turns,
    )
}

/// The number of the line that begins the list of the first container that begins in a line, where so many go on.
fn list_in(before: &Before, many: usize, number: usize, begun: &[Prefix]) -> usize
    requires { many ≤ length before.now.stack.items }
    ensures { begun_of result number begun.now ≡ with_list (drop many (map open_of before.now.stack.items)) (map (prefix_of number) begun.now) }
{
    list_of_first(rest_of(before.stack.as_slice(), many), number, begun)
}

/// A line with its containers, by those that go on and those that begin.
#[inline(always)]
fn row_with<L: Ledger>(
    on: &Constructs,
    before: &Before,
    going: Going,
    begun: Begun,
    list: usize,
    t: &[u8],
    turns: &mut Turns<L>,
) -> Row
    requires within { going.columns + begun.columns ≤ length t.now }
    ensures many { result.many ≡ going.many }
    ensures going { result.going ≡ going.columns }
    ensures over { result.over ≡ going.over }
    ensures list { result.list ≡ list }
    ensures begun { result.begun.items ≡ begun.prefixes.items }
    ensures columns { result.columns ≡ going.columns + begun.columns }
    ensures is_lazy { result.is_lazy ≡ is_lazily on.now (before_of before.now) (going.many == before.now.depth) (has_none begun.prefixes.items) (drop (going.columns + begun.columns) t.now) }
    ensures stays { result.stays ≡ (has_none begun.prefixes.items && (result.is_lazy || ((going.many == before.now.depth) && (length before.now.stack.items == before.now.depth)))) }
    ensures is_blank { result.is_blank ≡ is_blank_line (drop (going.columns + begun.columns) t.now) }
    ensures is_left_blank { result.is_left_blank ≡ (result.is_blank && (has_none begun.prefixes.items && not (result.stays && holds_ending (leaf_of before.now.leaf)))) }
    ensures leaf { leaf_of result.leaf ≡ cond result.is_left_blank closed (cond result.is_lazy open_paragraph (leaf_after on.now (cond result.stays (leaf_of before.now.leaf) closed) (drop (going.columns + begun.columns) t.now))) }
    ensures turns { turns.new ≤ turns.old + 133 * length t.now + 1644 }
{
    let all_go_on = going.many == before.depth;
    let columns = going.columns + begun.columns;
    let rest = behind(t, columns);
    let none_begins = has_none(begun.prefixes.as_slice());
    let is_lazy = is_lazily(on, before, all_go_on, none_begins, rest, turns);
    let is_whole = before.stack.len() == before.depth;
    let stays = none_begins && (is_lazy || all_go_on && is_whole);
    let is_blank = is_blank_line(rest, turns);
    let is_left_blank = is_blank && none_begins && !(stays && holds_ending(before.leaf));
    let leaf = leaf_behind(on, before.leaf, stays, is_lazy, is_left_blank, rest, turns);
    Row {
        many: going.many,
        going: going.columns,
        over: going.over,
        begun: begun.prefixes,
        list,
        columns,
        is_blank,
        is_lazy,
        stays,
        is_left_blank,
        leaf,
    }
}

/// Whether there are no prefixes.
fn has_none(prefixes: &[Prefix]) -> bool
    ensures { result ≡ has_none prefixes.now }
{
    prefixes.is_empty()
}

impl Before {
    /// Nothing is known before the first line.
    pub fn new(alloc: Global) -> Before
        ensures stack { result.stack.items ≡ [] }
        ensures depth { result.depth ≡ 0 }
        ensures over { result.over ≡ 0 }
        ensures leaf { leaf_of result.leaf ≡ closed }
    {
        Before {
            stack: Vec::new(alloc),
            depth: 0,
            over: 0,
            leaf: Leaf::Closed,
        }
    }

    /// A line with its containers, by its number and its bytes.
    #[inline(always)]
    pub fn row<L: Ledger>(
        &self,
        alloc: Global,
        on: &Constructs,
        number: usize,
        t: &[u8],
        turns: &mut Turns<L>,
    ) -> Result<Row, AllocError>
        requires depth { self.now.depth ≤ length self.now.stack.items }
        requires over { AreOver number self.now.over self.now.depth self.now.stack.items }
        requires sizes { HaveSizes (map open_of self.now.stack.items) }
        ensures row { IfOk result (λ r. (line : Line) → text_of line ≡ t.now → IsRow number r (row_of on.now (before_of self.now) number line)) }
        ensures within { IfOk result (λ r. r.columns ≤ length t.now) }
        ensures over { IfOk result (λ r. AreBefore number self.now.stack.items → AreOver (number + 1) r.over r.many self.now.stack.items) }
        ensures turns { turns.new ≤ turns.old + self.now.over + 142 * length t.now + 1649 }
        ensures paid { IfOk result (λ r. turns.new + r.over ≤ turns.old + self.now.over + 142 * length t.now + 1649) }
        ensures full { IfOk result (λ r. r.going < length t.now → turns.new ≤ turns.old + 142 * length t.now + 1649) }
    {
        let going = going_in(self, number, t, turns);
        let all_go_on = going.many == self.depth;
        let after = behind(t, going.columns);
        let begun = begun_in(alloc, on, number, self.leaf, all_go_on, after, turns)?;
        let list = list_in(self, going.many, number, begun.prefixes.as_slice());
        Ok(row_with(on, self, going, begun, list, t, turns))
    }

    /// What is known behind a line.
    #[inline(always)]
    pub fn go_behind<L: Ledger>(
        &mut self,
        number: usize,
        row: &Row,
        turns: &mut Turns<L>,
    ) -> Result<(), AllocError>
        ensures known { IfOk result (λ _. (on : Constructs) → (r : RowOf) → IsRow number row.now r → containers_of r.went_on ≡ take row.now.many (map open_of self.old.stack.items) → before_of self.new ≡ known_after on (before_of self.old) r) }
        ensures depth { IfOk result (λ _. self.old.depth ≤ length self.old.stack.items → row.now.many ≤ length self.old.stack.items → self.new.depth ≤ length self.new.stack.items) }
        ensures over { IfOk result (λ _. AreOver number self.old.over self.old.depth self.old.stack.items → AreOver (number + 1) row.now.over row.now.many self.old.stack.items → row.now.many ≤ length self.old.stack.items → AreOver (number + 1) self.new.over self.new.depth self.new.stack.items) }
        ensures turns { turns.new ≤ turns.old + length row.now.begun.items }
        ensures least { IfOk result (λ _. self.new.over ≤ cond row.now.is_left_blank row.now.over (cond row.now.is_lazy self.old.over (cond (has_none row.now.begun.items) row.now.over (row.now.many + length row.now.begun.items)))) }
    {
        if row.is_left_blank {
            self.depth = row.many;
            self.over = row.over;
            self.leaf = Leaf::Closed;
            return Ok(());
        }
        self.leaf = row.leaf;
        if row.is_lazy {
            return Ok(());
        }
        self.stack.truncate(row.many);
        if has_none(row.begun.as_slice()) {
            let kept = self.stack.len();
            self.depth = kept;
            self.over = row.over;
            return Ok(());
        }
        open_all(
            &mut self.stack,
            row.list,
            number,
            row.begun.as_slice(),
            turns,
        )?;
        self.depth = self.stack.len();
        self.over = self.depth;
        Ok(())
    }
}

/// Containers that begin are open: the first stands in this list, the others in lists that begin with them.
pub(crate) fn open_all<L: Ledger>(
    stack: &mut Vec<Open>,
    list: usize,
    number: usize,
    begun: &[Prefix],
    turns: &mut Turns<L>,
) -> Result<(), AllocError>
    ensures value { IfOk result (λ _. map open_of stack.new.items ≡ map open_of stack.old.items ++ containers_of (begun_of list number begun.now)) }
    ensures turns { turns.new ≤ turns.old + length begun.now }
{
    let mut of_list = list;
    for prefix in begun {
        turns.add_one();
        stack.push(Open {
            container: prefix.container,
            list: of_list,
        })?;
        of_list = number;
    }
    Ok(())
}
