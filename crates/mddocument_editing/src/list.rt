//! The sections of a document in a list, with what those of each block have together. So what is in front of a section is found by a walk over the
//! blocks in front, and one over the sections of one block; and so is the section in which a place is.

ghost use Rattle.std.specs.Prelude.{◌≡◌, ◌⊎◌, ◌↔◌, ◌≤◌, ◌<◌, ◌+◌, ◌-◌, ◌*◌, ◌++◌, ◌∷◌, [], ◌^◌, ℕ, List, IfOk, OnErr, OnOk, drop, get_or, length, take, true};
ghost use Rattle.std.specs.List.{AllByRecursion, sum_by};
ghost use Rattle.mddocument_editing.specs.Listed.{AreBlocks, AreSums, block, part, size_of};
ghost use Rattle.mddocument_editing.specs.Lookups.{lookup_turns};
ghost use Rattle.mddocument_editing.specs.Put.{put_all};

use crate::reread::{Reread, put_events};
use crate::section::Section;
use mdconstructs_loop_counts::Turns;
use std::alloc::{AllocError, Global};
use std::marker::{Brand, Model};
use std::sync::ledger::{Blank, Ledger};

/// How many sections a block has. The last one may have fewer.
const SIZE: usize = 256;

/// What sections have together. The largest number stands for all that are larger.
#[derive(Clone, Copy)]
pub(crate) struct Sums {
    /// How many line endings.
    pub(crate) lines: usize,
    /// How many bytes.
    pub(crate) bytes: usize,
    /// How many events.
    pub(crate) events: usize,
}

/// The sections of a document in a list.
#[derive(Drop)]
pub(crate) struct SectionList {
    /// The sections.
    sections: Vec<Section>,
    /// What those of each block have together.
    blocks: Vec<Sums>,
}

impl Model for SectionList {
    ghost use Rattle.mddocument_editing.specs.Listed.{AreBlocks, Listed};

    ghost Value = { Listed };

    ghost view = { λ l. record { items = l.sections.items } };

    ghost invariant = { λ l. AreBlocks l.sections.items l.blocks.items };
}

impl SectionList {
    /// These sections.
    pub(crate) fn new(alloc: Global, sections: Vec<Section>) -> Result<SectionList, AllocError>
        ensures { IfOk result (λ list. list.items ≡ sections.items) }
    {
        let mut blocks = Vec::new(alloc);
        let count = block_count(sections.len());
        blocks.resize(count, nothing())?;
        sum_again(sections.as_slice(), &mut blocks, 0, count);
        Ok(SectionList { sections, blocks })
    }

    /// How many there are.
    pub(crate) fn len(&self) -> usize
        ensures { result ≡ length self.now.items }
    {
        self.sections.len()
    }

    /// Whether there are none.
    pub(crate) fn is_empty(&self) -> bool
        ensures { (result ≡ true) ↔ (self.now.items ≡ []) }
    {
        self.sections.is_empty()
    }

    /// All of them.
    pub(crate) fn as_slice(&self) -> &[Section]
        ensures value { result.now ≡ self.now.items }
    {
        self.sections.as_slice()
    }

    /// There are fewer than a `usize` can count, by far. It does nothing; its contract says so.
    pub(crate) fn are_few(&self)
        ensures { length self.now.items < 2 ^ 62 }
    {
        let _sections = self.sections.as_slice();
    }

    /// One of them.
    pub(crate) fn one(&self, index: usize) -> &Section
        requires { index < length self.now.items }
        ensures { result.now ≡ get_or self.now.items index result.now }
    {
        &self.sections[index]
    }

    /// What the sections in front of one have together.
    pub(crate) fn in_front<L: Ledger>(&self, section: usize, turns: &mut Turns<L>) -> Sums
        requires { section ≤ length self.now.items }
        ensures sums { AreSums (take section self.now.items) result }
        ensures turns { turns.new ≤ turns.old + lookup_turns (length self.now.items) }
    {
        sums_in_front(
            self.sections.as_slice(),
            self.blocks.as_slice(),
            section,
            turns,
        )
    }

    /// The section in which a line starts or a byte is, or the last one, if it is behind all; and what is in front of that.
    pub(crate) fn find<L: Ledger>(
        &self,
        is_line: bool,
        place: usize,
        turns: &mut Turns<L>,
    ) -> (usize, Sums)
        requires { 0 < length self.now.items }
        ensures within { result.0 < length self.now.items }
        ensures front { AreSums (take result.0 self.now.items) result.1 }
        ensures start { part is_line result.1 ≤ place }
        ensures end { result.0 + 1 < length self.now.items → place < sum_by (size_of is_line) (take (result.0 + 1) self.now.items) }
        ensures turns { turns.new ≤ turns.old + lookup_turns (length self.now.items) }
    {
        section_in(
            self.sections.as_slice(),
            self.blocks.as_slice(),
            is_line,
            place,
            turns,
        )
    }

    /// Puts sections in the place of those from one up to another. If it fails, all are as they were.
    pub(crate) fn splice(
        &mut self,
        from: usize,
        end: usize,
        read: Vec<Section>,
    ) -> Result<(), AllocError>
        requires order { from ≤ end }
        requires within { end ≤ length self.old.items }
        ensures items { OnOk result (self.new.items ≡ take from self.old.items ++ (read.items ++ drop end self.old.items)) }
        ensures err { OnErr result (self.new.items ≡ self.old.items) }
    {
        let SectionList { sections, blocks } = self;
        splice(sections, blocks, from, end, read)
    }

    /// Puts the events of sections that were read again in the place of those that they had.
    pub(crate) fn put_events(&mut self, others: Vec<Reread>)
        requires { AllByRecursion (λ other. other.section < length self.old.items) others.items }
        ensures { self.new.items ≡ put_all self.old.items others.items }
    {
        let SectionList { sections, blocks } = self;
        put_events(sections, others);
        let count = blocks.len();
        sum_again(sections.as_slice(), blocks, 0, count);
    }
}

/// No sections have nothing.
fn nothing() -> Sums
    ensures { AreSums [] result }
{
    Sums {
        lines: 0,
        bytes: 0,
        events: 0,
    }
}

/// What sections and others behind them have together.
fn plus(one: Sums, more: Sums) -> Sums
    ensures { (xs ys : List Section) → AreSums xs one → AreSums ys more → AreSums (xs ++ ys) result }
{
    Sums {
        lines: one.lines.saturating_add(more.lines),
        bytes: one.bytes.saturating_add(more.bytes),
        events: one.events.saturating_add(more.events),
    }
}

/// What sections and one more behind them have together.
fn with_one(sums: Sums, section: &Section) -> Sums
    ensures { (xs : List Section) → AreSums xs sums → AreSums (xs ++ section.now ∷ []) result }
{
    Sums {
        lines: sums.lines.saturating_add(section.lines),
        bytes: sums.bytes.saturating_add(section.part.bytes.len()),
        events: sums.events.saturating_add(section.events.len()),
    }
}

/// What sections have together.
fn sums_of<L: Ledger>(sections: &[Section], turns: &mut Turns<L>) -> Sums
    ensures sums { AreSums sections.now result }
    ensures turns { turns.new ≡ turns.old + length sections.now }
{
    let mut sums = nothing();
    for section in sections {
        turns.add_one();
        sums = with_one(sums, section);
    }
    sums
}

fn sums_of_uncounted<L: Ledger>(sections: &[Section], blank: Blank) -> Sums
    requires name { blank.name ≡ L.name }
    requires parts { blank.parts ≡ L.parts }
    requires some { 0 < blank.parts }
    ensures { AreSums sections.now result }
{
    let mut turns = Turns::<L>::new(blank);
    sums_of(sections, &mut turns)
}

/// What sections have together; not counted.
fn sums_again(sections: &[Section]) -> Sums
    ensures { AreSums sections.now result }
{
    sums_of_uncounted::<Brand>(sections, Blank::new(1))
}

/// The lines of sums, or their bytes.
fn part(is_line: bool, sums: Sums) -> usize
    ensures { result ≡ part is_line sums }
{
    if is_line { sums.lines } else { sums.bytes }
}

/// The lines of a section, or its bytes.
fn size_of(is_line: bool, section: &Section) -> usize
    ensures { result ≡ size_of is_line section.now }
{
    if is_line {
        section.lines
    } else {
        section.part.bytes.len()
    }
}

/// What the sections in front of one have together.
fn sums_in_front<L: Ledger>(
    sections: &[Section],
    blocks: &[Sums],
    section: usize,
    turns: &mut Turns<L>,
) -> Sums
    requires blocks { AreBlocks sections.now blocks.now }
    requires within { section ≤ length sections.now }
    ensures sums { AreSums (take section sections.now) result }
    ensures turns { turns.new ≤ turns.old + lookup_turns (length sections.now) }
{
    let count = section / SIZE;
    let mut sums = nothing();
    for number in 0..count {
        turns.add_one();
        sums = plus(sums, blocks[number]);
    }
    plus(sums, sums_of(&sections[count * SIZE..section], turns))
}

/// The block in which a line starts or a byte is, or the last one, if it is behind all; and what is in front of that.
fn block_in<L: Ledger>(
    sections: &[Section],
    blocks: &[Sums],
    is_line: bool,
    place: usize,
    turns: &mut Turns<L>,
) -> (usize, Sums)
    requires blocks { AreBlocks sections.now blocks.now }
    requires some { 0 < length sections.now }
    ensures within { 256 * result.0 < length sections.now }
    ensures front { AreSums (take (256 * result.0) sections.now) result.1 }
    ensures start { part is_line result.1 ≤ place }
    ensures end { 256 * (result.0 + 1) < length sections.now → place < sum_by (size_of is_line) (take (256 * (result.0 + 1)) sections.now) }
    ensures turns { turns.new ≡ turns.old + result.0 }
{
    let last = (sections.len() - 1) / SIZE;
    let mut number = 0;
    let mut front = nothing();
    while number < last {
        let size = part(is_line, blocks[number]);
        if place - part(is_line, front) < size {
            break;
        }
        turns.add_one();
        front = plus(front, blocks[number]);
        number += 1;
    }
    (number, front)
}

/// The section in which a line starts or a byte is, or the last one, if it is behind all; and what is in front of that.
fn section_in<L: Ledger>(
    sections: &[Section],
    blocks: &[Sums],
    is_line: bool,
    place: usize,
    turns: &mut Turns<L>,
) -> (usize, Sums)
    requires blocks { AreBlocks sections.now blocks.now }
    requires some { 0 < length sections.now }
    ensures within { result.0 < length sections.now }
    ensures front { AreSums (take result.0 sections.now) result.1 }
    ensures start { part is_line result.1 ≤ place }
    ensures end { result.0 + 1 < length sections.now → place < sum_by (size_of is_line) (take (result.0 + 1) sections.now) }
    ensures turns { turns.new ≤ turns.old + lookup_turns (length sections.now) }
{
    let (block, mut front) = block_in(sections, blocks, is_line, place, turns);
    let mut index = block * SIZE;
    let last = index + (SIZE - 1).min(sections.len() - 1 - index);
    while index < last {
        let section = &sections[index];
        let size = size_of(is_line, section);
        if place - part(is_line, front) < size {
            break;
        }
        turns.add_one();
        front = with_one(front, section);
        index += 1;
    }
    (index, front)
}

/// Sums up some blocks again.
fn sum_again(sections: &[Section], blocks: &mut Vec<Sums>, from: usize, to: usize)
    requires few { 256 * length blocks.old.items ≤ length sections.now + 255 }
    requires order { from ≤ to }
    requires within { to ≤ length blocks.old.items }
    ensures len { length blocks.new.items ≡ length blocks.old.items }
    ensures each { (number : ℕ) (d : Sums) → from ≤ number → number < to → AreSums (block number sections.now) (get_or blocks.new.items number d) }
    ensures same { (number : ℕ) (d : Sums) → (number < from) ⊎ (to ≤ number) → get_or blocks.new.items number d ≡ get_or blocks.old.items number d }
{
    for number in from..to {
        let start = number * SIZE;
        let end = start + SIZE.min(sections.len() - start);
        blocks[number] = sums_again(&sections[start..end]);
    }
}

/// How many blocks so many sections have.
fn block_count(sections: usize) -> usize
    ensures all { sections ≤ 256 * result }
    ensures few { 256 * result ≤ sections + 255 }
{
    sections.div_ceil(SIZE)
}

/// The block behind the last one that has other sections, where so many come in the place of those from one up to another, and there are so many blocks
/// then. If as many come as go, those behind stay where they were.
fn changed_to(from: usize, end: usize, many: usize, count: usize) -> usize
    requires { from ≤ end }
    ensures most { result ≤ count }
    ensures all { (result ≡ count) ⊎ ((from + many ≡ end) × (end ≤ 256 * result)) }
{
    if many == end - from {
        block_count(end).min(count)
    } else {
        count
    }
}

/// Puts sections in the place of those from one up to another.
fn splice_sections(
    sections: &mut Vec<Section>,
    from: usize,
    end: usize,
    read: Vec<Section>,
) -> Result<(), AllocError>
    requires order { from ≤ end }
    requires within { end ≤ length sections.old.items }
    ensures items { OnOk result (sections.new.items ≡ take from sections.old.items ++ (read.items ++ drop end sections.old.items)) }
    ensures err { OnErr result (sections.new.items ≡ sections.old.items) }
{
    sections.splice(from..end, read)?;
    Ok(())
}

/// Puts sections in the place of those from one up to another, and sums up the blocks again that have other sections then. Room is made first, so that
/// nothing fails once the sections are there.
fn splice(
    sections: &mut Vec<Section>,
    blocks: &mut Vec<Sums>,
    from: usize,
    end: usize,
    read: Vec<Section>,
) -> Result<(), AllocError>
    requires blocks { AreBlocks sections.old.items blocks.old.items }
    requires order { from ≤ end }
    requires within { end ≤ length sections.old.items }
    ensures blocks { AreBlocks sections.new.items blocks.new.items }
    ensures items { OnOk result (sections.new.items ≡ take from sections.old.items ++ (read.items ++ drop end sections.old.items)) }
    ensures err { OnErr result (sections.new.items ≡ sections.old.items) }
{
    let many = read.len();
    let old = blocks.len();
    let count = block_count(sections.len() - (end - from) + many);
    blocks.resize(old.max(count), nothing())?;
    if let Err(error) = splice_sections(sections, from, end, read) {
        blocks.truncate(old);
        return Err(error);
    }
    blocks.truncate(count);
    let to = changed_to(from, end, many, count);
    sum_again(sections.as_slice(), blocks, from / SIZE, to);
    Ok(())
}
