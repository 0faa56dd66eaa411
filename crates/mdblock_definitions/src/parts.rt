//! The skeleton of a document with link reference definitions, part by part.

ghost use Rattle.std.specs.Prelude.{◌≡◌, ◌≤◌, ◌<◌, ◌+◌, ◌-◌, ◌*◌, ◌++◌, ◌∷◌, ◌||◌, false, None, ℕ, List, [], IfOk, drop, length, map, slice_index_or, take};
ghost use Rattle.std.specs.List.{flat_map};
ghost use Rattle.markdown_base.specs.Virtual.{virtual, IsWithinLimit};
ghost use Rattle.mdblock_leaf_blocks.specs.LeafEvents.{Mark};
ghost use Rattle.mdblock_containers.specs.declared.ahead.Ahead.{Ahead};
ghost use Rattle.mdblock_containers.specs.Ahead.{ahead_of};
ghost use Rattle.mdblock_containers.specs.Costs.{ArePaid, FirstIsNotLazy, IsEnough, columns_in};
ghost use Rattle.mdblock_containers.specs.Frames.{frame_of};
ghost use Rattle.mdblock_containers.specs.Over.{AreEarlier};
ghost use Rattle.mdblock_containers.specs.Rest.{AreLeft};
ghost use Rattle.mdblock_containers.specs.Rows.{Row as RowOf};
ghost use Rattle.mdblock_containers.specs.Skeleton.{chained_from};
ghost use Rattle.mdblock_containers.specs.Spans.{AreRowsIn};
ghost use Rattle.mdblock_containers.specs.Stood.{HasSpans, IsStood};
ghost use Rattle.mdblock_containers.specs.Views.{open_of};
ghost use Rattle.mdblock_containers.specs.Written.{Written};
ghost use Rattle.mdinline_labels.specs.Defined.{defines};
ghost use Rattle.mdblock_definitions.specs.Labelled.{AreDefined, is_one_of};
ghost use Rattle.mdblock_definitions.specs.Sectioned.{TextsAreFilled};
ghost use Rattle.mdblock_definitions.specs.Sections.{sections};
ghost use Rattle.mdblock_definitions.specs.Skeleton.{labels_of_section, letters, letters_of_section, sections_marks, skeleton, written_labels};
ghost use Rattle.mdblock_definitions.specs.Within.{rest_sections};

use crate::rows::rows_with_definitions;
use crate::sections::Room;
use crate::skeleton::{Skeleton, fill_part};
use markdown_base::configuration::{Constructs, TabSize};
use markdown_base::event::Point;
use mdblock_containers::ahead::{Ahead, aheads_of};
use mdblock_containers::frames::{Frame, Stood, stood_in};
use mdblock_containers::going::{Open, first_of};
use mdblock_containers::parts::{PartEnd, open_in, standing};
use mdblock_containers::skeleton::{
    Passed, begin_part, end_part, go_to_part, least, lines_of, list_behind, passed_by, passed_in,
};
use mdblock_containers::spans::RowAt;
use mdconstructs_loop_counts::Turns;
use mdinline_labels::labels::Labels;
use std::alloc::{AllocError, Global};
use std::marker::Brand;
use std::sync::ledger::{Blank, Ledger};

/// A part that is written: how many further lines it has, where it ends, in how many containers it stands, and what is known of those behind it.
#[derive(Clone, Copy)]
struct Part {
    lines: usize,
    end: PartEnd,
    stood: Stood,
    passed: Passed,
}

/// The part that begins at a line, behind one that ends so and stands in these spans, which become those of the part.
fn write_part<L: Ledger>(
    alloc: Global,
    skeleton: &mut Skeleton,
    bytes: &[u8],
    tab: TabSize,
    on: &Constructs,
    stack: &mut Vec<Open>,
    frames: &mut Vec<Frame>,
    stood: Stood,
    passed: Passed,
    rows: &[RowAt],
    first: &RowAt,
    behind: &[RowAt],
    ahead: Ahead,
    end: PartEnd,
    room: &mut Room,
    turns: &mut Turns<L>,
) -> Result<Part, AllocError>
    ghost given: { RowOf × List RowOf }
    requires limit { IsWithinLimit tab bytes.now }
    requires rows { rows.now ≡ first.now ∷ behind.now }
    requires left { AreLeft bytes.now tab (map open_of stack.old.items) (first.now ∷ behind.now) (given.0 ∷ given.1) }
    requires ahead { ahead ≡ ahead_of given.1 }
    requires lazy { FirstIsNotLazy (given.0 ∷ given.1) }
    requires paid { ArePaid (given.0 ∷ given.1) }
    requires texts { TextsAreFilled (given.0 ∷ given.1) }
    requires stood { IsStood stood (map open_of stack.old.items) }
    requires spans { HasSpans frames.old.items stood (map open_of stack.old.items) }
    requires passed { AreEarlier first.now.span.number passed.from passed.to (map open_of stack.old.items) }
    ensures passed { IfOk result (λ p. AreEarlier first.now.span.number p.passed.from p.passed.to (map open_of stack.new.items)) }
    ensures stood { IfOk result (λ p. IsStood p.stood (map open_of stack.new.items)) }
    ensures spans { IfOk result (λ p. HasSpans frames.new.items p.stood (map open_of stack.new.items)) }
    ensures few { IfOk result (λ p. p.lines ≤ length behind.now) }
    ensures lazy { IfOk result (λ p. FirstIsNotLazy (drop p.lines given.1)) }
    ensures left { IfOk result (λ p. AreLeft bytes.now tab (map open_of stack.new.items) (drop p.lines behind.now) (drop p.lines given.1)) }
    ensures events { IfOk result (λ p. (all : List Mark) → Written skeleton.old.events.items None false (rest_sections bytes.now (map frame_of frames.old.items) end (sections on.now (given.0 ∷ given.1))) all → Written skeleton.new.events.items None false (rest_sections bytes.now (map frame_of frames.new.items) p.end (sections on.now (drop p.lines given.1))) all) }
    ensures letters { IfOk result (λ p. skeleton.new.letters.items ++ flat_map (letters_of_section on.now) (sections on.now (drop p.lines given.1)) ≡ skeleton.old.letters.items ++ flat_map (letters_of_section on.now) (sections on.now (given.0 ∷ given.1))) }
    ensures labels { IfOk result (λ p. (label : List ℕ) → (defines skeleton.new.labels label || is_one_of (flat_map labels_of_section (sections on.now (drop p.lines given.1))) label) ≡ (defines skeleton.old.labels label || is_one_of (flat_map labels_of_section (sections on.now (given.0 ∷ given.1))) label)) }
    ensures paid { IfOk result (λ p. (budget : ℕ) → IsEnough turns.old budget (length frames.old.items) stood.containers passed.from passed.to (length stack.old.items) (given.0 ∷ given.1) → IsEnough turns.new (budget + 149 * first.now.span.size + 136 + 131 * columns_in (take p.lines behind.now)) (length frames.new.items) p.stood.containers p.passed.from p.passed.to (length stack.new.items) (drop p.lines given.1)) }
    ensures turns { (budget : ℕ) → IsEnough turns.old budget (length frames.old.items) stood.containers passed.from passed.to (length stack.old.items) (given.0 ∷ given.1) → turns.new ≤ budget + 149 * first.now.span.size + 136 + 131 * columns_in behind.now }
{
    let tab_size = tab.get();
    prove!(tab_size >= 1);
    let row = &first.row;
    let number = first.span.number;
    let went = stood_in(stood, stack.as_slice(), row.many, turns);
    let all = open_in(stack, number, row, turns)?;
    let own = first_of(stack.as_slice(), all);
    let seen = passed_in(passed, row, all);
    let stands = standing(own, row.is_blank, ahead.many, number, seen, turns);
    let next_passed = passed_by(row, stands, all);
    let list = list_behind(row, ahead, stands);
    let shown = first_of(own, stands);
    let kept = stood_in(went, own, stands, turns);
    let events = &mut skeleton.events;
    let next = go_to_part(alloc, events, frames, kept, shown, list, end, turns)?;
    let going = first_of(own, least(stands, row.many));
    let events = &mut skeleton.events;
    let begin = begin_part(events, bytes, tab, going, first, &mut room.line, turns)?;
    let lines = lines_of(row, ahead);
    let many = rows.len();
    prove!(lines < many);
    let end = fill_part(
        alloc,
        skeleton,
        bytes,
        tab,
        on,
        stack.as_slice(),
        &rows[..lines + 1],
        first,
        &behind[..lines],
        begin,
        room,
        turns,
    )?;
    Ok(Part {
        lines,
        end,
        stood: next,
        passed: next_passed,
    })
}

/// The skeleton of a document, by its lines and what lies ahead of each; that of the last line comes first.
fn skeleton_by<L: Ledger>(
    alloc: Global,
    bytes: &[u8],
    tab: TabSize,
    on: &Constructs,
    rows: &[RowAt],
    aheads: &[Ahead],
    turns: &mut Turns<L>,
) -> Result<Skeleton, AllocError>
    ghost all: { List RowOf }
    requires limit { IsWithinLimit tab bytes.now }
    requires rows { AreRowsIn tab bytes.now [] 1 0 rows.now all }
    requires len { length aheads.now ≡ length rows.now }
    requires aheads { (d : Ahead) → (k : ℕ) → k < length rows.now → slice_index_or aheads.now k d ≡ ahead_of (drop (length rows.now - k) all) }
    requires first { FirstIsNotLazy all }
    requires paid { ArePaid all }
    requires texts { TextsAreFilled all }
    ensures events { IfOk result (λ s. s.events.items ≡ chained_from 0 None (sections_marks bytes.now (sections on.now all))) }
    ensures letters { IfOk result (λ s. s.letters.items ≡ flat_map (letters_of_section on.now) (sections on.now all)) }
    ensures labels { IfOk result (λ s. AreDefined s.labels (flat_map labels_of_section (sections on.now all))) }
    ensures turns { turns.new ≤ turns.old + 150 * columns_in rows.now }
{
    let mut skeleton = Skeleton {
        events: Vec::new(alloc),
        letters: Vec::new(alloc),
        labels: Labels::new(alloc),
    };
    let mut room = Room {
        text: Vec::new(alloc),
        line: Vec::new(alloc),
    };
    let mut stack = Vec::new(alloc);
    let mut frames = Vec::new(alloc);
    let mut end = PartEnd {
        is_blank: false,
        place: Point {
            line: 1,
            column: 1,
            index: 0,
            vs: 0,
        },
        behind: None,
    };
    let mut stood = Stood {
        containers: 0,
        spans: 0,
    };
    let mut passed = Passed { from: 0, to: 0 };
    let mut i = 0;
    while i < rows.len() {
        turns.add_one();
        let part = write_part(
            alloc,
            &mut skeleton,
            bytes,
            tab,
            on,
            &mut stack,
            &mut frames,
            stood,
            passed,
            &rows[i..],
            &rows[i],
            &rows[i + 1..],
            aheads[rows.len() - 1 - i],
            end,
            &mut room,
            turns,
        )?;
        end = part.end;
        stood = part.stood;
        passed = part.passed;
        i += 1 + part.lines;
    }
    end_part(&mut skeleton.events, &mut frames, 0, end, &[], turns)?;
    Ok(skeleton)
}

/// The skeleton of a document, as `skeleton_with_definitions`.
///
/// It is linear: each line is paid by its columns, and what is looked at of other lines is looked at once, but for the text of a paragraph that may
/// begin with definitions: that is looked at four times at most.
pub fn skeleton_counted<L: Ledger>(
    alloc: Global,
    bytes: &[u8],
    tab: TabSize,
    on: &Constructs,
    turns: &mut Turns<L>,
) -> Result<Skeleton, AllocError>
    requires limit { IsWithinLimit tab bytes.now }
    ensures events { IfOk result (λ s. s.events.items ≡ skeleton on.now bytes.now (virtual tab bytes.now)) }
    ensures letters { IfOk result (λ s. s.letters.items ≡ letters on.now (virtual tab bytes.now)) }
    ensures labels { IfOk result (λ s. AreDefined s.labels (written_labels on.now (virtual tab bytes.now))) }
    ensures turns { turns.new ≤ turns.old + 1857 * length (virtual tab bytes.now) + 1857 }
{
    let tab_size = tab.get();
    prove!(tab_size >= 1);
    let rows = rows_with_definitions(alloc, bytes, tab, on, turns)?;
    let aheads = aheads_of(alloc, rows.as_slice(), turns)?;
    let skeleton = skeleton_by(
        alloc,
        bytes,
        tab,
        on,
        rows.as_slice(),
        aheads.as_slice(),
        turns,
    )?;
    Ok(skeleton)
}

/// The skeleton of a document, counted from nothing.
fn skeleton_uncounted<L: Ledger>(
    alloc: Global,
    bytes: &[u8],
    tab: TabSize,
    on: &Constructs,
    blank: Blank,
) -> Result<Skeleton, AllocError>
    requires limit { IsWithinLimit tab bytes.now }
    requires name { blank.name ≡ L.name }
    requires parts { blank.parts ≡ L.parts }
    requires some { 0 < blank.parts }
    ensures events { IfOk result (λ s. s.events.items ≡ skeleton on.now bytes.now (virtual tab bytes.now)) }
    ensures letters { IfOk result (λ s. s.letters.items ≡ letters on.now (virtual tab bytes.now)) }
    ensures labels { IfOk result (λ s. AreDefined s.labels (written_labels on.now (virtual tab bytes.now))) }
{
    let mut turns = Turns::<L>::new(blank);
    skeleton_counted(alloc, bytes, tab, on, &mut turns)
}

/// The skeleton of a document with link reference definitions: its events, the bytes that leaf blocks are read of as of a letter, and the labels that
/// it defines. Fails only for want of memory.
pub fn skeleton_with_definitions(
    alloc: Global,
    bytes: &[u8],
    tab: TabSize,
    on: &Constructs,
) -> Result<Skeleton, AllocError>
    requires limit { IsWithinLimit tab bytes.now }
    ensures events { IfOk result (λ s. s.events.items ≡ skeleton on.now bytes.now (virtual tab bytes.now)) }
    ensures letters { IfOk result (λ s. s.letters.items ≡ letters on.now (virtual tab bytes.now)) }
    ensures labels { IfOk result (λ s. AreDefined s.labels (written_labels on.now (virtual tab bytes.now))) }
{
    skeleton_uncounted::<Brand>(alloc, bytes, tab, on, Blank::new(1))
}
