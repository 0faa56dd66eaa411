//! The sections of a part: its lines, cut before and behind the definitions with which a paragraph in it begins.

ghost use Rattle.std.specs.Prelude.{◌≡◌, ◌≤◌, ◌<◌, ◌+◌, ◌-◌, ◌*◌, ◌++◌, ◌∷◌, ◌&&◌, ℕ, List, [], IfOk, MatchOption, cond, drop, false, length, slice_index_or, take};
ghost use Rattle.std.specs.List.{prefix_len, flat_map};
ghost use Rattle.mdblock_containers.specs.declared.ahead.Ahead.{Ahead as AheadOf};
ghost use Rattle.mdblock_containers.specs.Ahead.{AreRows, ahead_of};
ghost use Rattle.mdblock_containers.specs.Rows.{Row as RowOf};
ghost use Rattle.mdblock_containers.specs.Skeleton.{Part, further};
ghost use Rattle.mdblock_table_marks.specs.TableCuts.{cut_at_tables};
ghost use Rattle.mdinline_labels.specs.declared.definitions.Definition.{Definition as DefinitionOf};
ghost use Rattle.mdinline_labels.specs.Definitions.{definitions};
ghost use Rattle.mdblock_definitions.specs.Costs.{bytes_in, text_rows};
ghost use Rattle.mdblock_definitions.specs.Sections.{Section as SectionOf, cut, defined_in, defining, lines, paragraph_of, sections_in, text_in, undefined, is_in_table, sections_of_cut, tabled};
ghost use Rattle.mdblock_definitions.specs.Seen.{AreHeld, AreSections, AreSome, AreThese, IsFound, begins_defining, begins_text_at, inside_of, is_text_at};
ghost use Rattle.mdblock_definitions.specs.Skeleton.{all_rows};

use crate::fronts::front_of;
use crate::held::{has_bracket, hold_lines};
use crate::tables::{lines_before_table, lines_of_table};
use crate::texts::lines_before;
use markdown_base::configuration::{Constructs, TabSize};
use mdblock_containers::ahead::{Ahead, aheads_of};
use mdblock_containers::leaves::is_paragraph;
use mdblock_containers::skeleton::lines_of as further_of;
use mdblock_containers::spans::RowAt;
use mdconstructs_loop_counts::Turns;
use mdinline_labels::definitions::Definition;
use std::alloc::{AllocError, Global};
use std::sync::ledger::Ledger;

/// What is in a section.
#[derive(Drop)]
pub enum Inside {
    /// A blank line, or lines that leaf blocks are read from.
    Lines,
    /// Lines that leaf blocks are read from, of which the first is text directly behind definitions.
    Behind,
    /// Definitions.
    Defined(Vec<Definition>),
    /// A table.
    Table,
}

/// A section of a part.
#[derive(Drop)]
pub struct Section {
    /// How many lines it has behind its first.
    pub further: usize,
    /// What is in it.
    pub inside: Inside,
}

/// Room for the text of lines, and for the bytes of one.
#[derive(Drop)]
pub struct Room {
    /// The text.
    pub text: Vec<u8>,
    /// The bytes.
    pub line: Vec<u8>,
}

/// Definitions with which a paragraph begins.
#[derive(Drop)]
pub(crate) struct Defined {
    /// How many lines they have.
    pub(crate) lines: usize,
    /// They.
    pub(crate) definitions: Vec<Definition>,
}

/// What is known of a line that no others are behind.
const LAST: Ahead = Ahead {
    further: 0,
    many: 0,
    list: None,
};

/// A paragraph is open behind a line.
fn is_text(at: &RowAt) -> bool
    ensures { result ≡ is_text_at at.now }
{
    is_paragraph(at.row.leaf)
}

/// A paragraph is open behind the first of these lines.
fn begins_text(rows: &[RowAt]) -> bool
    ensures { result ≡ begins_text_at rows.now }
{
    match rows {
        [first, ..] => is_text(first),
        [] => false,
    }
}

/// How many of these lines of a part a paragraph has that begins in the first.
fn paragraph_size<L: Ledger>(rows: &[RowAt], turns: &mut Turns<L>) -> usize
    ensures value { result ≡ prefix_len is_text_at rows.now }
    ensures within { result ≤ length rows.now }
    ensures turns { turns.new ≤ turns.old + result + 1 }
{
    let mut next = 0;
    while next < rows.len() {
        turns.add_one();
        if !is_text(&rows[next]) {
            return next;
        }
        next += 1;
    }
    next
}

impl Defined {
    /// Nothing is defined.
    fn none(alloc: Global) -> Defined
        ensures { result.lines ≡ 0 }
    {
        Defined {
            lines: 0,
            definitions: Vec::new(alloc),
        }
    }
}

/// Whether the first of these lines begins with `[`, behind its prefixes and white space. Else it begins no definition.
fn begins_defining<L: Ledger>(
    bytes: &[u8],
    tab: TabSize,
    rows: &[RowAt],
    line: &mut Vec<u8>,
    turns: &mut Turns<L>,
) -> Result<bool, AllocError>
    requires { AreHeld tab bytes.now rows.now }
    ensures value { IfOk result (λ is. (all : List RowOf) → AreThese tab bytes.now rows.now all → is ≡ begins_defining all) }
    ensures turns { turns.new ≤ turns.old + 6 * bytes_in tab bytes.now (take 1 rows.now) }
{
    if rows.is_empty() {
        return Ok(false);
    }
    let first = &rows[0];
    let begins = has_bracket(bytes, tab, first, line, turns)?;
    Ok(begins)
}

/// The definitions with which a paragraph begins in the first of these lines of a part, and how many lines they have.
fn defined_in<L: Ledger>(
    alloc: Global,
    bytes: &[u8],
    tab: TabSize,
    on: &Constructs,
    rows: &[RowAt],
    room: &mut Room,
    turns: &mut Turns<L>,
) -> Result<Defined, AllocError>
    requires { AreHeld tab bytes.now rows.now }
    ensures lines { IfOk result (λ d. (all : List RowOf) → AreThese tab bytes.now rows.now all → d.lines ≡ defined_in on.now all) }
    ensures definitions { IfOk result (λ d. (all : List RowOf) → AreThese tab bytes.now rows.now all → 1 ≤ d.lines → d.definitions.items ≡ definitions (text_in (paragraph_of all))) }
    ensures turns { turns.new ≤ turns.old + (23 * bytes_in tab bytes.now (take 1 rows.now) + 21 * bytes_in tab bytes.now (text_rows rows.now)) }
{
    if !on.definition {
        return Ok(Defined::none(alloc));
    }
    let begins = begins_defining(bytes, tab, rows, &mut room.line, turns)?;
    if !begins {
        return Ok(Defined::none(alloc));
    }
    let size = paragraph_size(rows, turns);
    let first = &rows[..size];
    hold_lines(&mut room.text, bytes, tab, first, &mut room.line, turns)?;
    let text = room.text.as_slice();
    let front = front_of(alloc, text, turns)?;
    let lines = lines_before(text, front.end);
    Ok(Defined {
        lines,
        definitions: front.definitions,
    })
}

/// The same, if no paragraph is open before them; or else nothing.
fn defined_behind<L: Ledger>(
    alloc: Global,
    bytes: &[u8],
    tab: TabSize,
    on: &Constructs,
    in_paragraph: bool,
    rows: &[RowAt],
    room: &mut Room,
    turns: &mut Turns<L>,
) -> Result<Defined, AllocError>
    requires { AreHeld tab bytes.now rows.now }
    ensures lines { IfOk result (λ d. (all : List RowOf) → AreThese tab bytes.now rows.now all → d.lines ≡ cond in_paragraph 0 (defined_in on.now all)) }
    ensures definitions { IfOk result (λ d. (all : List RowOf) → AreThese tab bytes.now rows.now all → 1 ≤ d.lines → d.definitions.items ≡ definitions (text_in (paragraph_of all))) }
    ensures turns { turns.new ≤ turns.old + cond in_paragraph 0 (23 * bytes_in tab bytes.now (take 1 rows.now) + 21 * bytes_in tab bytes.now (text_rows rows.now)) }
{
    if in_paragraph || !begins_text(rows) {
        return Ok(Defined::none(alloc));
    }
    defined_in(alloc, bytes, tab, on, rows, room, turns)
}

/// Lines of a part before a paragraph that begins with definitions, and these.
#[derive(Drop)]
pub(crate) struct Found {
    /// How many lines come before.
    pub(crate) before: usize,
    /// The definitions. They have no lines if there is no such paragraph.
    pub(crate) defined: Defined,
}

/// The first of these lines of a part in which a paragraph begins with definitions. No paragraph is open before them.
fn find_defined<L: Ledger>(
    alloc: Global,
    bytes: &[u8],
    tab: TabSize,
    on: &Constructs,
    rows: &[RowAt],
    room: &mut Room,
    turns: &mut Turns<L>,
) -> Result<Found, AllocError>
    requires { AreHeld tab bytes.now rows.now }
    ensures within { IfOk result (λ f. f.before ≤ length rows.now) }
    ensures found { IfOk result (λ f. (all : List RowOf) → AreThese tab bytes.now rows.now all → IsFound on.now f all) }
    ensures paid { IfOk result (λ f. turns.new ≤ turns.old + 45 * bytes_in tab bytes.now (take f.before rows.now) + 45 * bytes_in tab bytes.now (text_rows (drop f.before rows.now))) }
    ensures turns { turns.new ≤ turns.old + 45 * bytes_in tab bytes.now rows.now }
{
    let mut before = 0;
    let mut in_paragraph = false;
    while before < rows.len() {
        turns.add_one();
        let left = &rows[before..];
        let defined = defined_behind(alloc, bytes, tab, on, in_paragraph, left, room, turns)?;
        if defined.lines >= 1 {
            return Ok(Found { before, defined });
        }
        in_paragraph = is_text(&rows[before]);
        before += 1;
    }
    Ok(Found {
        before,
        defined: Defined::none(alloc),
    })
}

/// The first of these lines is text directly behind definitions, if these come before them.
fn begins_behind(is_behind: bool, rows: &[RowAt]) -> bool
    ensures { result ≡ (is_behind && begins_text_at rows.now) }
{
    is_behind && begins_text(rows)
}

/// Lines that leaf blocks are read from, of which the first is text directly behind definitions, or not.
fn lines_inside(is_behind: bool) -> Inside
    ensures { inside_of result ≡ lines is_behind }
{
    if is_behind {
        Inside::Behind
    } else {
        Inside::Lines
    }
}

/// The section of definitions, if there are any.
fn push_defined(sections: &mut Vec<Section>, defined: Defined) -> Result<(), AllocError>
    ensures { IfOk result (λ _. (ds : List DefinitionOf) → (1 ≤ defined.lines → defined.definitions.items ≡ ds) → (around : Part) → (rows : List RowOf) → length rows ≡ defined.lines → (before : List SectionOf) → AreSections sections.old.items before → AreSections sections.new.items (before ++ defining ds around rows)) }
{
    if defined.lines == 0 {
        return Ok(());
    }
    sections.push(Section {
        further: defined.lines - 1,
        inside: Inside::Defined(defined.definitions),
    })?;
    Ok(())
}

/// The sections of lines of a part without definitions, by what lies ahead of each; that of the last line comes first.
fn push_lines<L: Ledger>(
    sections: &mut Vec<Section>,
    rows: &[RowAt],
    aheads: &[Ahead],
    is_behind: bool,
    turns: &mut Turns<L>,
) -> Result<(), AllocError>
    requires some { AreSome rows.now }
    requires len { length aheads.now ≡ length rows.now }
    requires aheads { (all : List RowOf) → AreRows rows.now all → (d : AheadOf) → (k : ℕ) → k < length rows.now → slice_index_or aheads.now k d ≡ ahead_of (drop (length rows.now - k) all) }
    ensures sections { IfOk result (λ _. (all : List RowOf) → AreRows rows.now all → (around : Part) → (before : List SectionOf) → AreSections sections.old.items before → AreSections sections.new.items (before ++ undefined is_behind around all)) }
    ensures turns { turns.new ≤ turns.old + length rows.now }
{
    let mut behind = begins_behind(is_behind, rows);
    let mut i = 0;
    while i < rows.len() {
        turns.add_one();
        let further = further_of(&rows[i].row, aheads[rows.len() - 1 - i]);
        let inside = lines_inside(behind);
        sections.push(Section { further, inside })?;
        behind = false;
        i += 1 + further;
    }
    Ok(())
}

/// The sections of lines of a part without definitions: blank lines, and stretches. `is_behind`: definitions come directly before them.
fn push_undefined<L: Ledger>(
    alloc: Global,
    sections: &mut Vec<Section>,
    rows: &[RowAt],
    is_behind: bool,
    turns: &mut Turns<L>,
) -> Result<(), AllocError>
    requires { AreSome rows.now }
    ensures sections { IfOk result (λ _. (all : List RowOf) → AreRows rows.now all → (around : Part) → (before : List SectionOf) → AreSections sections.old.items before → AreSections sections.new.items (before ++ undefined is_behind around all)) }
    ensures turns { turns.new ≤ turns.old + 2 * length rows.now }
{
    if rows.len() == 1 {
        return push_lines(sections, rows, &[LAST], is_behind, turns);
    }
    let aheads = aheads_of(alloc, rows, turns)?;
    push_lines(sections, rows, aheads.as_slice(), is_behind, turns)
}

/// The sections of a part, which is no blank line, by its lines. Fails only for want of memory.
///
/// It is linear: the text of a paragraph is looked at once, and what is left of it behind its definitions once more, as nothing is defined there.
pub fn sections_of<L: Ledger>(
    alloc: Global,
    bytes: &[u8],
    tab: TabSize,
    on: &Constructs,
    rows: &[RowAt],
    room: &mut Room,
    turns: &mut Turns<L>,
) -> Result<Vec<Section>, AllocError>
    requires { AreHeld tab bytes.now rows.now }
    ensures sections { IfOk result (λ ss. (all : List RowOf) → AreThese tab bytes.now rows.now all → (around : Part) → AreSections ss.items (sections_in on.now (length all) false around all)) }
    ensures turns { turns.new ≤ turns.old + 93 * bytes_in tab bytes.now rows.now }
{
    if rows.is_empty() {
        return Ok(Vec::new(alloc));
    }
    let found = find_defined(alloc, bytes, tab, on, rows, room, turns)?;
    sections_from(alloc, bytes, tab, on, rows, found, room, turns)
}

/// The same of some lines, by the first of its lines in which a paragraph begins with definitions.
fn sections_from<L: Ledger>(
    alloc: Global,
    bytes: &[u8],
    tab: TabSize,
    on: &Constructs,
    rows: &[RowAt],
    first: Found,
    room: &mut Room,
    turns: &mut Turns<L>,
) -> Result<Vec<Section>, AllocError>
    requires held { AreHeld tab bytes.now rows.now }
    requires some { 1 ≤ length rows.now }
    requires within { first.before ≤ length rows.now }
    requires first { (all : List RowOf) → AreThese tab bytes.now rows.now all → IsFound on.now first all }
    ensures sections { IfOk result (λ ss. (all : List RowOf) → AreThese tab bytes.now rows.now all → (around : Part) → AreSections ss.items (sections_in on.now (length all) false around all)) }
    ensures turns { turns.new + (45 * bytes_in tab bytes.now (take first.before rows.now) + 45 * bytes_in tab bytes.now (text_rows (drop first.before rows.now))) ≤ turns.old + 93 * bytes_in tab bytes.now rows.now }
{
    let mut sections = Vec::new(alloc);
    let undefined = first.before;
    push_undefined(alloc, &mut sections, &rows[..undefined], false, turns)?;
    let mut i = undefined + first.defined.lines;
    push_defined(&mut sections, first.defined)?;
    while i < rows.len() {
        turns.add_one();
        let found = find_defined(alloc, bytes, tab, on, &rows[i..], room, turns)?;
        let end = i + found.before;
        push_undefined(alloc, &mut sections, &rows[i..end], true, turns)?;
        i = end + found.defined.lines;
        push_defined(&mut sections, found.defined)?;
    }
    Ok(sections)
}

/// The section of a table of so many lines, if it has any.
fn push_table(sections: &mut Vec<Section>, lines: usize) -> Result<(), AllocError>
    ensures { IfOk result (λ _. (around : Part) → (rows : List RowOf) → length rows ≡ lines → (before : List SectionOf) → AreSections sections.old.items before → AreSections sections.new.items (before ++ tabled around rows)) }
{
    if lines == 0 {
        return Ok(());
    }
    sections.push(Section {
        further: lines - 1,
        inside: Inside::Table,
    })?;
    Ok(())
}

/// The sections of a part, which is no blank line, by its lines, cut before and behind each table. Fails only for want of memory.
fn sections_with_tables<L: Ledger>(
    alloc: Global,
    bytes: &[u8],
    tab: TabSize,
    on: &Constructs,
    rows: &[RowAt],
    room: &mut Room,
    turns: &mut Turns<L>,
) -> Result<Vec<Section>, AllocError>
    requires { AreHeld tab bytes.now rows.now }
    ensures sections { IfOk result (λ ss. (all : List RowOf) → AreThese tab bytes.now rows.now all → (around : Part) → AreSections ss.items (flat_map (sections_of_cut on.now around) (cut_at_tables is_in_table (length all) all))) }
    ensures turns { turns.new ≤ turns.old + 96 * bytes_in tab bytes.now rows.now }
{
    let mut sections = Vec::new(alloc);
    let mut i = 0;
    while i < rows.len() {
        turns.add_one();
        let end = i + lines_before_table(&rows[i..], turns);
        let mut found = sections_of(alloc, bytes, tab, on, &rows[i..end], room, turns)?;
        sections.append(&mut found)?;
        i = end + lines_of_table(&rows[end..], turns);
        push_table(&mut sections, i - end)?;
    }
    Ok(sections)
}

/// The sections of a part, which is no blank line, by its lines; or nothing, if it is one section of lines that leaf blocks are read from. Fails only for
/// want of memory.
pub(crate) fn cut_part<L: Ledger>(
    alloc: Global,
    bytes: &[u8],
    tab: TabSize,
    on: &Constructs,
    rows: &[RowAt],
    room: &mut Room,
    turns: &mut Turns<L>,
) -> Result<Option<Vec<Section>>, AllocError>
    ghost part: { Part }
    requires these { AreThese tab bytes.now rows.now (all_rows part) }
    requires filled { part.first.is_blank ≡ false }
    requires whole { further part.more ≡ length part.more }
    ensures cut { IfOk result (λ found. MatchOption found (cut on.now part ≡ record { part = part; inside = lines false } ∷ []) (λ ss. AreSections ss.items (cut on.now part))) }
    ensures turns { turns.new ≤ turns.old + 97 * bytes_in tab bytes.now rows.now }
{
    let before = lines_before_table(rows, turns);
    if before < rows.len() {
        let tabled = sections_with_tables(alloc, bytes, tab, on, rows, room, turns)?;
        return Ok(Some(tabled));
    }
    let found = find_defined(alloc, bytes, tab, on, rows, room, turns)?;
    if found.before == rows.len() {
        return Ok(None);
    }
    let sections = sections_from(alloc, bytes, tab, on, rows, found, room, turns)?;
    Ok(Some(sections))
}
