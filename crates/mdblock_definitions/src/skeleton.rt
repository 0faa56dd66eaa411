//! The skeleton of a document with link reference definitions.

ghost use Rattle.std.specs.Prelude.{◌≡◌, ◌≤◌, ◌+◌, ◌-◌, ◌*◌, ◌++◌, ◌&&◌, ◌||◌, cond, true, false, None, ℕ, List, [], ◌∷◌, IfOk, drop, is_some, length, map, not, take, suc};
ghost use Rattle.std.specs.List.{flat_map};
ghost use Rattle.markdown_base.specs.declared.event.Name.TheVariants.{SpaceOrTab};
ghost use Rattle.markdown_base.specs.Virtual.{IsWithinLimit, Seat, point};
ghost use Rattle.mdblock_leaf_blocks.specs.LeafEvents.{Mark};
ghost use Rattle.mdblock_leaf_blocks.specs.LeafBlocks.{bytes_of as seats_bytes};
ghost use Rattle.mdblock_leaf_blocks.specs.LineKinds.{indent, underline_rank};
ghost use Rattle.mdblock_lines.specs.Lines.{line_bytes, place_after};
ghost use Rattle.mdblock_containers.specs.Costs.{HaveSizes};
ghost use Rattle.mdblock_containers.specs.PlaceEvents.{HasColumns, span_at};
ghost use Rattle.mdblock_containers.specs.Prefixes.{columns_of, going_on};
ghost use Rattle.mdblock_containers.specs.Rest.{ending_to};
ghost use Rattle.mdblock_containers.specs.Rows.{Row as RowOf, holds_ending};
ghost use Rattle.mdblock_containers.specs.Skeleton.{Part as PartOf, further, prefixes_marks};
ghost use Rattle.mdblock_containers.specs.SeatPlaces.{AreSeatsAt, events_of};
ghost use Rattle.mdblock_containers.specs.Stretches.{end_at, last_at};
ghost use Rattle.mdblock_containers.specs.Views.{leaf_of, open_of};
ghost use Rattle.mdblock_containers.specs.Written.{Written};
ghost use Rattle.mdblock_table_marks.specs.TableMarks.{table_marks};
ghost use Rattle.mdinline_labels.specs.Defined.{defines};
ghost use Rattle.mdinline_labels.specs.Definitions.{definitions};
ghost use Rattle.mdblock_definitions.specs.Costs.{bytes_in, bytes_of};
ghost use Rattle.mdblock_definitions.specs.Definitions.{definitions_marks, places_in};
ghost use Rattle.mdblock_definitions.specs.Labelled.{IsInText, is_one_of};
ghost use Rattle.mdblock_definitions.specs.Sectioned.{AreBegun, AreFirst, AreInLines, AreLater, BeginsFilled, HasEnd, TextsAreFilled, IsBegun, IsEnd, IsFilled, IsSectionOf, AreSectionsOf, IsSound, inside_from, letters_in};
ghost use Rattle.mdblock_definitions.specs.Sections.{Section as SectionOf, cut, lines, text_in, table};
ghost use Rattle.mdblock_definitions.specs.Seen.{AreSections, inside_of};
ghost use Rattle.mdblock_definitions.specs.Skeleton.{all_rows, inside_marks, labels_in, labels_of_section, letters_of_section};
ghost use Rattle.mdblock_definitions.specs.Within.{last_of, within_marks};

use crate::held::hold_lines;
use crate::marks::write_definitions;
use crate::sections::{Inside, Room, Section, cut_part};
use markdown_base::configuration::{Constructs, TabSize};
use markdown_base::event::{Event, Point};
use mdblock_containers::going::{Open, first_of};
use mdblock_containers::parts::{PartEnd, write_ending};
use mdblock_containers::prefixes::At;
use mdblock_containers::skeleton::{end_of_part, push_letter};
use mdblock_containers::spans::{RowAt, start_of};
use mdblock_containers::stretches::{prefixes_of, stretch};
use mdblock_containers::texts::text_at;
use mdblock_containers::writing::white;
use mdblock_lines::bytes::{behind, indent};
use mdblock_lines::places::moved;
use mdblock_table_marks::tables::write_table;
use mdconstructs_loop_counts::Turns;
use mdinline_labels::definitions::Definition;
use mdinline_labels::labels::Labels;
use std::alloc::{AllocError, Global};
use std::sync::ledger::Ledger;

/// The skeleton of a document.
#[derive(Drop)]
pub struct Skeleton {
    /// Its events.
    pub events: Vec<Event>,
    /// The indices of bytes that leaf blocks are read of as of a letter.
    pub letters: Vec<usize>,
    /// The labels that it defines.
    pub labels: Labels,
}

/// The label of a definition in its text, without its brackets.
fn written_label<'a>(definition: &Definition, text: &'a [u8]) -> &'a [u8]
    requires { IsInText text.now definition.now }
    ensures { result.now ≡ take (definition.now.label.size - 2) (drop (definition.now.label.from + 1) text.now) }
{
    let label = definition.label;
    let from = label.from + 1;
    &text[from..from + label.size - 2]
}

/// The labels of the definitions with which a text begins are defined.
fn define_labels<L: Ledger>(
    alloc: Global,
    labels: &mut Labels,
    defined: &[Definition],
    text: &[u8],
    turns: &mut Turns<L>,
) -> Result<(), AllocError>
    requires { defined.now ≡ definitions text.now }
    ensures labels { IfOk result (λ _. (label : List ℕ) → defines labels.new label ≡ (defines labels.old label || is_one_of (labels_in defined.now text.now) label)) }
    ensures turns { turns.new ≤ turns.old + length defined.now }
{
    let mut next = 0;
    for definition in defined {
        turns.add_one();
        labels.define(alloc, written_label(definition, &text[next..]))?;
        next += definition.size + 1;
    }
    Ok(())
}

/// The column of a line at which its text begins, behind its prefixes and white space. `line` is room for its bytes.
fn text_columns<L: Ledger>(
    bytes: &[u8],
    tab: TabSize,
    at: &RowAt,
    line: &mut Vec<u8>,
    turns: &mut Turns<L>,
) -> Result<usize, AllocError>
    requires inside { at.now.span.start ≤ length bytes.now }
    requires within { let s = at.now.span in at.now.row.columns ≤ length (line_bytes tab s.number 1 s.start (drop s.start bytes.now)) }
    ensures value { let s = at.now.span in IfOk result (λ n. n ≡ at.now.row.columns + indent (drop at.now.row.columns (line_bytes tab s.number 1 s.start (drop s.start bytes.now)))) }
    ensures within { let s = at.now.span in IfOk result (λ n. n ≤ length (line_bytes tab s.number 1 s.start (drop s.start bytes.now))) }
    ensures turns { turns.new ≤ turns.old + 5 * bytes_of tab bytes.now at.now }
{
    let read = text_at(line, bytes, tab, at.span.start, turns)?;
    let rest = behind(read.bytes, at.row.columns);
    Ok(at.row.columns + indent(rest, turns))
}

/// The index of the byte at which a line's text begins goes to a list.
fn push_begin<L: Ledger>(
    letters: &mut Vec<usize>,
    bytes: &[u8],
    tab: TabSize,
    at: &RowAt,
    line: &mut Vec<u8>,
    turns: &mut Turns<L>,
) -> Result<(), AllocError>
    requires inside { at.now.span.start ≤ length bytes.now }
    requires columns { let s = at.now.span in HasColumns tab bytes.now (point s.number 1 s.start 0) (length (line_bytes tab s.number 1 s.start (drop s.start bytes.now))) }
    requires within { let s = at.now.span in at.now.row.columns ≤ length (line_bytes tab s.number 1 s.start (drop s.start bytes.now)) }
    ensures letters { let s = at.now.span in IfOk result (λ _. letters.new.items ≡ letters.old.items ++ (place_after tab bytes.now (point s.number 1 s.start 0) (at.now.row.columns + indent (drop at.now.row.columns (line_bytes tab s.number 1 s.start (drop s.start bytes.now))))).index ∷ []) }
    ensures turns { turns.new ≤ turns.old + 6 * bytes_of tab bytes.now at.now }
{
    let columns = text_columns(bytes, tab, at, line, turns)?;
    letters.push(moved(bytes, tab, start_of(at.span), columns, turns).index)?;
    Ok(())
}

/// What is read as a letter of a line goes to a list: of text directly behind definitions its first byte, and else the first mark of a lazy
/// underline.
fn push_line<L: Ledger>(
    letters: &mut Vec<usize>,
    bytes: &[u8],
    tab: TabSize,
    on: &Constructs,
    at: &RowAt,
    is_behind: bool,
    line: &mut Vec<u8>,
    turns: &mut Turns<L>,
) -> Result<(), AllocError>
    requires inside { at.now.span.start ≤ length bytes.now }
    requires columns { let s = at.now.span in HasColumns tab bytes.now (point s.number 1 s.start 0) (length (line_bytes tab s.number 1 s.start (drop s.start bytes.now))) }
    requires within { let s = at.now.span in at.now.row.columns ≤ length (line_bytes tab s.number 1 s.start (drop s.start bytes.now)) }
    ensures letters { let s = at.now.span in let rest = drop at.now.row.columns (line_bytes tab s.number 1 s.start (drop s.start bytes.now)) in let here = (place_after tab bytes.now (point s.number 1 s.start 0) (at.now.row.columns + indent rest)).index ∷ [] in IfOk result (λ _. letters.new.items ≡ letters.old.items ++ cond is_behind here (cond (at.now.row.is_lazy && is_some (underline_rank on.now rest)) here [])) }
    ensures turns { turns.new ≤ turns.old + 9 * bytes_of tab bytes.now at.now }
{
    if is_behind {
        return push_begin(letters, bytes, tab, at, line, turns);
    }
    push_letter(letters, bytes, tab, on, at, line, turns)
}

/// What is read as a letter of lines that leaf blocks are read from goes to a list. `is_behind`: the first is text directly behind definitions.
fn push_letters<L: Ledger>(
    letters: &mut Vec<usize>,
    bytes: &[u8],
    tab: TabSize,
    on: &Constructs,
    rows: &[RowAt],
    is_behind: bool,
    line: &mut Vec<u8>,
    turns: &mut Turns<L>,
) -> Result<(), AllocError>
    ghost all: { List RowOf }
    requires limit { IsWithinLimit tab bytes.now }
    requires rows { AreFirst tab bytes.now rows.now all }
    requires text { is_behind ≡ true → BeginsFilled all }
    ensures letters { IfOk result (λ _. letters.new.items ≡ letters.old.items ++ letters_in on.now is_behind all) }
    ensures turns { turns.new ≤ turns.old + 10 * bytes_in tab bytes.now rows.now }
{
    let tab_size = tab.get();
    prove!(tab_size >= 1);
    let mut goes_first = is_behind;
    for at in rows {
        turns.add_one();
        push_line(letters, bytes, tab, on, at, goes_first, line, turns)?;
        goes_first = false;
    }
    Ok(())
}

/// The white space of the first line of a stretch directly behind definitions, from behind its prefixes on. Returns the place behind it; of another
/// stretch nothing is written, and it begins where it did.
fn write_front<L: Ledger>(
    events: &mut Vec<Event>,
    bytes: &[u8],
    tab: TabSize,
    first: &RowAt,
    begin: At,
    is_behind: bool,
    line: &mut Vec<u8>,
    turns: &mut Turns<L>,
) -> Result<Point, AllocError>
    requires inside { first.now.span.start ≤ length bytes.now }
    requires columns { let s = first.now.span in HasColumns tab bytes.now (point s.number 1 s.start 0) (length (line_bytes tab s.number 1 s.start (drop s.start bytes.now))) }
    requires within { let s = first.now.span in first.now.row.columns ≤ length (line_bytes tab s.number 1 s.start (drop s.start bytes.now)) }
    requires begin { begin.columns ≡ first.now.row.columns }
    requires place { let s = first.now.span in begin.place ≡ place_after tab bytes.now (point s.number 1 s.start 0) begin.columns }
    ensures place { let s = first.now.span in IfOk result (λ p. p ≡ cond is_behind (place_after tab bytes.now (point s.number 1 s.start 0) (first.now.row.columns + indent (drop first.now.row.columns (line_bytes tab s.number 1 s.start (drop s.start bytes.now))))) begin.place) }
    ensures events { let s = first.now.span in IfOk result (λ _. events.new.items ≡ events.old.items ++ cond is_behind (span_at tab bytes.now SpaceOrTab begin.place (indent (drop first.now.row.columns (line_bytes tab s.number 1 s.start (drop s.start bytes.now))))) []) }
    ensures turns { turns.new ≤ turns.old + 6 * bytes_of tab bytes.now first.now }
{
    if !is_behind {
        return Ok(begin.place);
    }
    let columns = text_columns(bytes, tab, first, line, turns)?;
    let left = columns - begin.columns;
    let place = white(events, bytes, tab, begin.place, left, turns)?;
    Ok(place)
}

/// What is in a section of lines that leaf blocks are read from, behind the prefixes of its first line: white space of a blank line, or the chunks of
/// a stretch. `is_behind`: it is directly behind definitions.
fn write_lines<L: Ledger>(
    events: &mut Vec<Event>,
    bytes: &[u8],
    tab: TabSize,
    stack: &[Open],
    first: &RowAt,
    more: &[RowAt],
    begin: At,
    is_behind: bool,
    end: Point,
    line: &mut Vec<u8>,
    turns: &mut Turns<L>,
) -> Result<(), AllocError>
    ghost part: { PartOf }
    requires limit { IsWithinLimit tab bytes.now }
    requires section { IsSectionOf tab bytes.now (map open_of stack.now) first.now more.now part }
    requires begun { IsBegun tab bytes.now part first.now begin }
    requires text { is_behind ≡ true → first.now.row.is_blank ≡ false }
    requires end { let last = last_at first.now more.now in end ≡ end_at (not first.now.row.is_blank && holds_ending (leaf_of last.row.leaf)) last }
    ensures events { IfOk result (λ _. (rest : List Mark) → (all : List Mark) → Written events.old.items None false (inside_marks bytes.now part (lines is_behind) ++ rest) all → Written events.new.items None false rest all) }
    ensures turns { turns.new ≤ turns.old + (6 * bytes_of tab bytes.now first.now + 8 * bytes_in tab bytes.now more.now) }
{
    let tab_size = tab.get();
    prove!(tab_size >= 1);
    let is_blank = first.row.is_blank;
    if is_blank {
        let left = first.span.size - begin.columns;
        white(events, bytes, tab, begin.place, left, turns)?;
        return Ok(());
    }
    let from = write_front(events, bytes, tab, first, begin, is_behind, line, turns)?;
    stretch(events, bytes, tab, stack, from, more, end, line, turns)?;
    Ok(())
}

/// What is in a section of lines that leaf blocks are read from, behind the prefixes of its first line, with what is read as a letter of it.
/// `is_behind`: it is directly behind definitions.
fn write_text<L: Ledger>(
    skeleton: &mut Skeleton,
    bytes: &[u8],
    tab: TabSize,
    on: &Constructs,
    stack: &[Open],
    rows: &[RowAt],
    first: &RowAt,
    more: &[RowAt],
    begin: At,
    is_behind: bool,
    end: Point,
    line: &mut Vec<u8>,
    turns: &mut Turns<L>,
) -> Result<(), AllocError>
    ghost part: { PartOf }
    requires limit { IsWithinLimit tab bytes.now }
    requires rows { rows.now ≡ first.now ∷ more.now }
    requires section { IsSectionOf tab bytes.now (map open_of stack.now) first.now more.now part }
    requires begun { IsBegun tab bytes.now part first.now begin }
    requires text { is_behind ≡ true → (first.now.row.is_blank ≡ false) × IsFilled part.first }
    requires end { let last = last_at first.now more.now in end ≡ end_at (not first.now.row.is_blank && holds_ending (leaf_of last.row.leaf)) last }
    ensures events { IfOk result (λ _. (rest : List Mark) → (all : List Mark) → Written skeleton.old.events.items None false (inside_marks bytes.now part (lines is_behind) ++ rest) all → Written skeleton.new.events.items None false rest all) }
    ensures letters { IfOk result (λ _. skeleton.new.letters.items ≡ skeleton.old.letters.items ++ letters_in on.now is_behind (all_rows part)) }
    ensures labels { IfOk result (λ _. (label : List ℕ) → defines skeleton.new.labels label ≡ defines skeleton.old.labels label) }
    ensures turns { turns.new ≤ turns.old + 18 * bytes_in tab bytes.now rows.now }
{
    write_lines(
        &mut skeleton.events,
        bytes,
        tab,
        stack,
        first,
        more,
        begin,
        is_behind,
        end,
        line,
        turns,
    )?;
    push_letters(
        &mut skeleton.letters,
        bytes,
        tab,
        on,
        rows,
        is_behind,
        line,
        turns,
    )?;
    Ok(())
}

/// What is in a section of definitions, behind the prefixes of its first line; their labels are defined.
fn write_defined<L: Ledger>(
    alloc: Global,
    skeleton: &mut Skeleton,
    bytes: &[u8],
    tab: TabSize,
    stack: &[Open],
    rows: &[RowAt],
    first: &RowAt,
    more: &[RowAt],
    begin: At,
    defined: &[Definition],
    room: &mut Room,
    turns: &mut Turns<L>,
) -> Result<(), AllocError>
    ghost part: { PartOf }
    requires limit { IsWithinLimit tab bytes.now }
    requires rows { rows.now ≡ first.now ∷ more.now }
    requires section { IsSectionOf tab bytes.now (map open_of stack.now) first.now more.now part }
    requires begun { IsBegun tab bytes.now part first.now begin }
    requires text { first.now.row.is_blank ≡ false }
    requires definitions { defined.now ≡ definitions (text_in (all_rows part)) }
    ensures events { IfOk result (λ _. (rest : List Mark) → (all : List Mark) → Written skeleton.old.events.items None false (definitions_marks bytes.now defined.now (places_in bytes.now (all_rows part)) ++ rest) all → Written skeleton.new.events.items None false rest all) }
    ensures letters { IfOk result (λ _. skeleton.new.letters.items ≡ skeleton.old.letters.items) }
    ensures labels { IfOk result (λ _. (label : List ℕ) → defines skeleton.new.labels label ≡ (defines skeleton.old.labels label || is_one_of (labels_in defined.now (text_in (all_rows part))) label)) }
    ensures turns { turns.new ≤ turns.old + 21 * bytes_in tab bytes.now rows.now }
{
    hold_lines(&mut room.text, bytes, tab, rows, &mut room.line, turns)?;
    let text = room.text.as_slice();
    write_definitions(
        &mut skeleton.events,
        bytes,
        tab,
        stack,
        rows,
        begin,
        defined,
        text,
        &mut room.line,
        turns,
    )?;
    define_labels(alloc, &mut skeleton.labels, defined, text, turns)?;
    Ok(())
}

/// What is in a section that is a table, behind the prefixes of its first line.
fn write_rows<L: Ledger>(
    alloc: Global,
    skeleton: &mut Skeleton,
    bytes: &[u8],
    tab: TabSize,
    stack: &[Open],
    rows: &[RowAt],
    first: &RowAt,
    more: &[RowAt],
    begin: At,
    line: &mut Vec<u8>,
    turns: &mut Turns<L>,
) -> Result<(), AllocError>
    ghost part: { PartOf }
    requires limit { IsWithinLimit tab bytes.now }
    requires rows { rows.now ≡ first.now ∷ more.now }
    requires section { IsSectionOf tab bytes.now (map open_of stack.now) first.now more.now part }
    requires begun { IsBegun tab bytes.now part first.now begin }
    requires table { IsSound part table }
    ensures events { IfOk result (λ _. (rest : List Mark) → (all : List Mark) → Written skeleton.old.events.items None false (table_marks bytes.now part ++ rest) all → Written skeleton.new.events.items None false rest all) }
    ensures letters { IfOk result (λ _. skeleton.new.letters.items ≡ skeleton.old.letters.items) }
    ensures labels { IfOk result (λ _. (label : List ℕ) → defines skeleton.new.labels label ≡ defines skeleton.old.labels label) }
    ensures turns { turns.new ≤ turns.old + 25 * bytes_in tab bytes.now rows.now }
{
    let tab_size = tab.get();
    prove!(tab_size >= 1);
    write_table(
        alloc,
        &mut skeleton.events,
        bytes,
        tab,
        stack,
        rows,
        begin,
        line,
        turns,
    )?;
    Ok(())
}

/// What is in a section, behind the prefixes of its first line. Returns where it ends.
fn write_section<L: Ledger>(
    alloc: Global,
    skeleton: &mut Skeleton,
    bytes: &[u8],
    tab: TabSize,
    on: &Constructs,
    stack: &[Open],
    rows: &[RowAt],
    first: &RowAt,
    more: &[RowAt],
    inside: &Inside,
    begin: At,
    room: &mut Room,
    turns: &mut Turns<L>,
) -> Result<PartEnd, AllocError>
    ghost part: { PartOf }
    requires limit { IsWithinLimit tab bytes.now }
    requires rows { rows.now ≡ first.now ∷ more.now }
    requires section { IsSectionOf tab bytes.now (map open_of stack.now) first.now more.now part }
    requires begun { IsBegun tab bytes.now part first.now begin }
    requires sound { IsSound part (inside_of inside.now) }
    ensures end { IfOk result (λ e. IsEnd first.now more.now e) }
    ensures events { IfOk result (λ _. (rest : List Mark) → (all : List Mark) → Written skeleton.old.events.items None false (inside_marks bytes.now part (inside_of inside.now) ++ rest) all → Written skeleton.new.events.items None false rest all) }
    ensures letters { IfOk result (λ _. skeleton.new.letters.items ≡ skeleton.old.letters.items ++ letters_of_section on.now (record { part = part; inside = inside_of inside.now })) }
    ensures labels { IfOk result (λ _. (label : List ℕ) → defines skeleton.new.labels label ≡ (defines skeleton.old.labels label || is_one_of (labels_of_section (record { part = part; inside = inside_of inside.now })) label)) }
    ensures turns { turns.new ≤ turns.old + 25 * bytes_in tab bytes.now rows.now }
{
    let tab_size = tab.get();
    prove!(tab_size >= 1);
    let end = end_of_part(first, more);
    let place = end.place;
    match inside {
        Inside::Table => write_rows(
            alloc,
            skeleton,
            bytes,
            tab,
            stack,
            rows,
            first,
            more,
            begin,
            &mut room.line,
            turns,
        )?,
        Inside::Lines => write_text(
            skeleton,
            bytes,
            tab,
            on,
            stack,
            rows,
            first,
            more,
            begin,
            false,
            place,
            &mut room.line,
            turns,
        )?,
        Inside::Behind => write_text(
            skeleton,
            bytes,
            tab,
            on,
            stack,
            rows,
            first,
            more,
            begin,
            true,
            place,
            &mut room.line,
            turns,
        )?,
        Inside::Defined(definitions) => write_defined(
            alloc,
            skeleton,
            bytes,
            tab,
            stack,
            rows,
            first,
            more,
            begin,
            definitions.as_slice(),
            room,
            turns,
        )?,
    }
    Ok(end)
}

/// Between two sections of a part: the line ending, and the prefixes of the next line. Returns the place behind them.
fn go_to_section<L: Ledger>(
    events: &mut Vec<Event>,
    bytes: &[u8],
    tab: TabSize,
    stack: &[Open],
    next: &RowAt,
    end: PartEnd,
    line: &mut Vec<u8>,
    turns: &mut Turns<L>,
) -> Result<At, AllocError>
    requires inside { next.now.span.start ≤ length bytes.now }
    requires columns { let s = next.now.span in HasColumns tab bytes.now (point s.number 1 s.start 0) (length (line_bytes tab s.number 1 s.start (drop s.start bytes.now))) }
    requires many { next.now.row.many ≤ length stack.now }
    requires sizes { HaveSizes (map open_of stack.now) }
    ensures marks { let s = next.now.span in let t = line_bytes tab s.number 1 s.start (drop s.start bytes.now) in IfOk result (λ _. (seats : List Seat) → AreSeatsAt tab bytes.now (point s.number 1 s.start 0) seats → t ≡ seats_bytes seats → events.new.items ≡ events.old.items ++ (events_of (ending_to end) ++ events_of (prefixes_marks bytes.now (going_on (take next.now.row.many (map open_of stack.now)) s.number t) seats))) }
    ensures columns { let s = next.now.span in IfOk result (λ p. p.columns ≡ columns_of (going_on (take next.now.row.many (map open_of stack.now)) s.number (line_bytes tab s.number 1 s.start (drop s.start bytes.now)))) }
    ensures place { let s = next.now.span in IfOk result (λ p. p.place ≡ place_after tab bytes.now (point s.number 1 s.start 0) p.columns) }
    ensures turns { turns.new ≤ turns.old + 8 * bytes_of tab bytes.now next.now }
{
    write_ending(events, end)?;
    let front = first_of(stack, next.row.many);
    let at = prefixes_of(events, bytes, tab, front, next, line, turns)?;
    Ok(at)
}

/// The next section of a part, if it has one: the line ending comes, and the prefixes of its first line. Returns the place behind them.
fn go_on<L: Ledger>(
    events: &mut Vec<Event>,
    bytes: &[u8],
    tab: TabSize,
    stack: &[Open],
    behind: &[RowAt],
    end: PartEnd,
    at: At,
    line: &mut Vec<u8>,
    turns: &mut Turns<L>,
) -> Result<At, AllocError>
    ghost sections: { PartOf × List SectionOf }
    requires limit { IsWithinLimit tab bytes.now }
    requires later { AreLater tab bytes.now (map open_of stack.now) behind.now sections.1 }
    requires end { HasEnd bytes.now sections.0 end }
    ensures begun { IfOk result (λ p. AreBegun tab bytes.now behind.now sections.1 p) }
    ensures events { IfOk result (λ _. (rest : List Mark) → (all : List Mark) → Written events.old.items None false (within_marks bytes.now sections.0 sections.1 ++ rest) all → Written events.new.items None false (inside_from bytes.now sections.1 rest) all) }
    ensures turns { turns.new ≤ turns.old + 8 * bytes_in tab bytes.now (take 1 behind.now) }
{
    let tab_size = tab.get();
    prove!(tab_size >= 1);
    if behind.is_empty() {
        return Ok(at);
    }
    let next = &behind[0];
    let place = go_to_section(events, bytes, tab, stack, next, end, line, turns)?;
    Ok(place)
}

/// A section that is written: how many lines it has, where it ends, and the place from which the next one goes on.
#[derive(Clone, Copy)]
struct SectionEnd {
    lines: usize,
    end: PartEnd,
    next: At,
}

/// One section of a part, from behind the prefixes of its first line on; and what stands before the inside of the next one, if it has one. `left` are
/// its lines, and those of the sections behind it.
fn write_one<L: Ledger>(
    alloc: Global,
    skeleton: &mut Skeleton,
    bytes: &[u8],
    tab: TabSize,
    on: &Constructs,
    stack: &[Open],
    left: &[RowAt],
    sections: &[Section],
    index: usize,
    begin: At,
    room: &mut Room,
    turns: &mut Turns<L>,
) -> Result<SectionEnd, AllocError>
    ghost given: { SectionOf × List SectionOf }
    requires limit { IsWithinLimit tab bytes.now }
    requires sections { AreSections (drop index sections.now) (given.0 ∷ given.1) }
    requires lines { AreInLines tab bytes.now (map open_of stack.now) left.now (given.0 ∷ given.1) }
    requires begun { AreBegun tab bytes.now left.now (given.0 ∷ given.1) begin }
    ensures some { IfOk result (λ e. 1 ≤ e.lines) }
    ensures few { IfOk result (λ e. e.lines ≤ length left.now) }
    ensures lines { IfOk result (λ e. AreInLines tab bytes.now (map open_of stack.now) (drop e.lines left.now) given.1) }
    ensures begun { IfOk result (λ e. AreBegun tab bytes.now (drop e.lines left.now) given.1 e.next) }
    ensures end { IfOk result (λ e. HasEnd bytes.now given.0.part e.end) }
    ensures events { IfOk result (λ _. (rest : List Mark) → (all : List Mark) → Written skeleton.old.events.items None false (inside_from bytes.now (given.0 ∷ given.1) rest) all → Written skeleton.new.events.items None false (inside_from bytes.now given.1 rest) all) }
    ensures letters { IfOk result (λ _. skeleton.new.letters.items ≡ skeleton.old.letters.items ++ letters_of_section on.now given.0) }
    ensures labels { IfOk result (λ _. (label : List ℕ) → defines skeleton.new.labels label ≡ (defines skeleton.old.labels label || is_one_of (labels_of_section given.0) label)) }
    ensures paid { IfOk result (λ e. turns.new ≤ turns.old + (25 * bytes_in tab bytes.now (take e.lines left.now) + 8 * bytes_in tab bytes.now (take 1 (drop e.lines left.now)))) }
    ensures turns { let n = suc (length given.0.part.more) in turns.new ≤ turns.old + (25 * bytes_in tab bytes.now (take n left.now) + 8 * bytes_in tab bytes.now (take 1 (drop n left.now))) }
{
    let tab_size = tab.get();
    prove!(tab_size >= 1);
    let section = &sections[index];
    let lines = section.further + 1;
    let end = write_section(
        alloc,
        skeleton,
        bytes,
        tab,
        on,
        stack,
        &left[..lines],
        &left[0],
        &left[1..lines],
        &section.inside,
        begin,
        room,
        turns,
    )?;
    let next = go_on(
        &mut skeleton.events,
        bytes,
        tab,
        stack,
        &left[lines..],
        end,
        begin,
        &mut room.line,
        turns,
    )?;
    Ok(SectionEnd { lines, end, next })
}

/// The sections of a part that is no blank line, from behind the prefixes of its first line on. Returns where the part ends.
fn write_sections<L: Ledger>(
    alloc: Global,
    skeleton: &mut Skeleton,
    bytes: &[u8],
    tab: TabSize,
    on: &Constructs,
    stack: &[Open],
    rows: &[RowAt],
    first: &RowAt,
    more: &[RowAt],
    sections: &[Section],
    begin: At,
    room: &mut Room,
    turns: &mut Turns<L>,
) -> Result<PartEnd, AllocError>
    ghost given: { PartOf × List SectionOf }
    requires limit { IsWithinLimit tab bytes.now }
    requires rows { rows.now ≡ first.now ∷ more.now }
    requires section { IsSectionOf tab bytes.now (map open_of stack.now) first.now more.now given.0 }
    requires stands { length stack.now ≤ length given.0.stands }
    requires sections { AreSections sections.now given.1 }
    requires are { AreSectionsOf given.0 given.1 }
    requires begun { AreBegun tab bytes.now rows.now given.1 begin }
    ensures end { IfOk result (λ e. HasEnd bytes.now (last_of given.0 given.1) e) }
    ensures events { IfOk result (λ _. (rest : List Mark) → (all : List Mark) → Written skeleton.old.events.items None false (inside_from bytes.now given.1 rest) all → Written skeleton.new.events.items None false rest all) }
    ensures letters { IfOk result (λ _. skeleton.new.letters.items ≡ skeleton.old.letters.items ++ flat_map (letters_of_section on.now) given.1) }
    ensures labels { IfOk result (λ _. (label : List ℕ) → defines skeleton.new.labels label ≡ (defines skeleton.old.labels label || is_one_of (flat_map labels_of_section given.1) label)) }
    ensures turns { turns.new ≤ turns.old + 34 * bytes_in tab bytes.now rows.now }
{
    let tab_size = tab.get();
    prove!(tab_size >= 1);
    let mut end = end_of_part(first, more);
    let mut at = begin;
    let mut i = 0;
    let mut k = 0;
    while k < sections.len() {
        turns.add_one();
        let left = &rows[i..];
        let one = write_one(
            alloc, skeleton, bytes, tab, on, stack, left, sections, k, at, room, turns,
        )?;
        end = one.end;
        at = one.next;
        i += one.lines;
        k += 1;
    }
    Ok(end)
}

/// What is in a part, behind the prefixes of its first line: a blank line, or its sections. Returns where the part ends.
pub(crate) fn fill_part<L: Ledger>(
    alloc: Global,
    skeleton: &mut Skeleton,
    bytes: &[u8],
    tab: TabSize,
    on: &Constructs,
    stack: &[Open],
    rows: &[RowAt],
    first: &RowAt,
    more: &[RowAt],
    begin: At,
    room: &mut Room,
    turns: &mut Turns<L>,
) -> Result<PartEnd, AllocError>
    ghost part: { PartOf }
    requires limit { IsWithinLimit tab bytes.now }
    requires rows { rows.now ≡ first.now ∷ more.now }
    requires section { IsSectionOf tab bytes.now (map open_of stack.now) first.now more.now part }
    requires stands { part.first.is_blank ≡ false → length stack.now ≤ length part.stands }
    requires whole { part.first.is_blank ≡ false → further part.more ≡ length part.more }
    requires texts { TextsAreFilled (all_rows part) }
    requires begun { IsBegun tab bytes.now part first.now begin }
    ensures end { IfOk result (λ e. HasEnd bytes.now (last_of part (cut on.now part)) e) }
    ensures events { IfOk result (λ _. (rest : List Mark) → (all : List Mark) → Written skeleton.old.events.items None false (inside_from bytes.now (cut on.now part) rest) all → Written skeleton.new.events.items None false rest all) }
    ensures letters { IfOk result (λ _. skeleton.new.letters.items ≡ skeleton.old.letters.items ++ flat_map (letters_of_section on.now) (cut on.now part)) }
    ensures labels { IfOk result (λ _. (label : List ℕ) → defines skeleton.new.labels label ≡ (defines skeleton.old.labels label || is_one_of (flat_map labels_of_section (cut on.now part)) label)) }
    ensures turns { turns.new ≤ turns.old + 131 * bytes_in tab bytes.now rows.now }
{
    let tab_size = tab.get();
    prove!(tab_size >= 1);
    let is_blank = first.row.is_blank;
    if is_blank {
        let inside = Inside::Lines;
        let only = write_section(
            alloc, skeleton, bytes, tab, on, stack, rows, first, more, &inside, begin, room, turns,
        )?;
        return Ok(only);
    }
    let found = cut_part(alloc, bytes, tab, on, rows, room, turns)?;
    match found {
        None => {
            let inside = Inside::Lines;
            let only = write_section(
                alloc, skeleton, bytes, tab, on, stack, rows, first, more, &inside, begin, room,
                turns,
            )?;
            Ok(only)
        }
        Some(sections) => {
            let end = write_sections(
                alloc,
                skeleton,
                bytes,
                tab,
                on,
                stack,
                rows,
                first,
                more,
                sections.as_slice(),
                begin,
                room,
                turns,
            )?;
            Ok(end)
        }
    }
}
