//! The section of footnotes at the end of a document's HTML.

ghost use Rattle.std.specs.Option.{unwrap_or};
ghost use Rattle.std.specs.Prelude.{◌≡◌, ◌∷◌, [], IfOk, List, None, OnOk, ℕ, drop, map, reverse, take};
ghost use Rattle.markdown_base.specs.Events.{IsBalanced};
ghost use Rattle.mdhtml_document.specs.Frames.{AreNotes, IsNumbered, known_note, known_of, last_known, open_notes};
ghost use Rattle.mdhtml_document.specs.Html.{note_blocks, note_pieces, notes_from, section};
ghost use Rattle.mdhtml_document.specs.Notes.{back_links, calls_in, is_container, is_note, last_call};
ghost use Rattle.mdhtml_document.specs.Spans.{AreKinded, Spans, events_of};
ghost use Rattle.mdhtml_document.specs.Walks.{first_note, first_of, found_by, last_by, last_from, noted, skipped, with_event};
ghost use Rattle.mdhtml_document.specs.Written.{after};

use crate::links::Whole;
use crate::names::{Block, block_of};
use crate::notes::{Numbered, label_inside, open_note, push_back_links};
use crate::shapes::{Mode, push_fresh};
use crate::spans::{behind_first, first_events, inside};
use crate::writer::write_in;
use markdown_base::event::{Event, Kind, Name};
use std::alloc::{AllocError, Global};
use std::collections::BTreeMap;

/// A footnote definition, with the events of the spans in it so far.
#[derive(Drop)]
pub struct Note {
    /// Its label.
    pub label: Vec<u8>,
    /// The events, without those of the definitions in it.
    pub events: Vec<Event>,
}

/// The footnote definitions of a document.
#[derive(Drop)]
pub struct Notes {
    found: BTreeMap<Vec<u8>, Vec<Event>>,
    around: Vec<Note>,
}

/// Whether a span is a footnote definition.
fn is_note(name: Name) -> bool
    ensures { result ≡ is_note name }
{
    name == Name::GfmFootnoteDefinition
}

/// Whether footnote definitions stand in a span.
fn is_container(name: Name) -> bool
    ensures { result ≡ is_container name }
{
    Name::BlockQuote == name
        || Name::ListItem == name
        || Name::ListOrdered == name
        || Name::ListUnordered == name
}

/// How many events behind an event are passed: those of a span in which no footnote definition stands.
fn skipped(event: &Event, behind: &[Event]) -> usize
    ensures { result ≡ skipped event.now behind.now }
{
    if event.kind == Kind::Enter && !is_container(event.name) {
        inside(behind).len() + 1
    } else {
        0
    }
}

impl Notes {
    /// No definitions. Takes no memory.
    fn new(alloc: Global) -> Notes
        ensures found { (label : List ℕ) → known_note result.found label ≡ None }
        ensures around { open_notes result.around.items ≡ [] }
    {
        Notes {
            found: BTreeMap::new(alloc),
            around: Vec::new(alloc),
        }
    }

    /// The events in the definition of a label; none, if it has none.
    fn get(&self, label: &[u8]) -> &[Event]
        ensures { result.now ≡ unwrap_or (known_note self.now.found label.now) [] }
    {
        match self.found.get(label) {
            None => &[],
            Some(events) => events.as_slice(),
        }
    }

    /// An event goes to the innermost definition that is open.
    fn push(&mut self, event: &Event) -> Result<(), AllocError>
        ensures around { OnOk result (open_notes self.new.around.items ≡ with_event event.now (open_notes self.old.around.items)) }
        ensures found { OnOk result (self.new.found ≡ self.old.found) }
    {
        match self.around.pop() {
            None => Ok(()),
            Some(note) => {
                let mut events = note.events;
                events.push(*event)?;
                let label = note.label;
                Ok(self.around.push(Note { label, events })?)
            }
        }
    }

    /// A definition begins.
    fn begin(&mut self, alloc: Global, label: Vec<u8>) -> Result<(), AllocError>
        ensures around { OnOk result (open_notes self.new.around.items ≡ (label.items, []) ∷ open_notes self.old.around.items) }
        ensures found { OnOk result (self.new.found ≡ self.old.found) }
    {
        let events = Vec::new(alloc);
        Ok(self.around.push(Note { label, events })?)
    }

    /// The innermost definition that is open ends: it is the one of its label, unless one ended before.
    fn end(&mut self) -> Result<(), AllocError>
        ensures around { OnOk result (open_notes self.new.around.items ≡ drop 1 (open_notes self.old.around.items)) }
        ensures found { OnOk result ((label : List ℕ) → known_note self.new.found label ≡ first_of (known_note self.old.found label) (first_note label (take 1 (open_notes self.old.around.items)))) }
    {
        match self.around.pop() {
            None => Ok(()),
            Some(note) => {
                if self.found.get(note.label.as_slice()).is_none() {
                    self.found.insert(note.label, note.events)?;
                }
                Ok(())
            }
        }
    }

    /// One more event, by how many are passed from here on. Returns how many are passed behind it.
    fn add(
        &mut self,
        alloc: Global,
        bytes: &[u8],
        skip: usize,
        event: &Event,
        behind: &[Event],
    ) -> Result<usize, AllocError>
        ensures { IfOk result (λ left. (label : List ℕ) → found_by self.new label (noted bytes.now left (open_notes self.new.around.items) behind.now) ≡ found_by self.old label (noted bytes.now skip (open_notes self.old.around.items) (event.now ∷ behind.now))) }
    {
        if skip > 0 {
            self.push(event)?;
            return Ok(skip - 1);
        }
        if !is_note(event.name) {
            self.push(event)?;
            return Ok(skipped(event, behind));
        }
        if event.kind == Kind::Enter {
            let label = label_inside(alloc, bytes, behind)?;
            self.begin(alloc, label)?;
        } else {
            self.end()?;
        }
        Ok(0)
    }
}

/// The footnote definitions among events.
fn notes_in(alloc: Global, bytes: &[u8], events: &[Event]) -> Result<Notes, AllocError>
    ensures { IfOk result (λ notes. (label : List ℕ) → known_note notes.found label ≡ first_note label (noted bytes.now 0 [] events.now)) }
{
    let mut notes = Notes::new(alloc);
    let mut skip = 0usize;
    let mut rest = events;
    'events: while let [event, behind @ ..] = rest {
        skip = notes.add(alloc, bytes, skip, event, behind)?;
        rest = behind;
    }
    Ok(notes)
}

/// The place of the last block that something is written of, if that is a paragraph, by that of the ones before and the one of this block.
fn last_by(block: Block, at: usize, last: Option<usize>) -> Option<usize>
    ensures { result ≡ last_by block at last }
{
    match block {
        Block::Paragraph => Some(at),
        Block::Other => last,
        _ => None,
    }
}

/// Where the last block among events begins that something is written of, if it is a paragraph.
fn last_paragraph(events: &[Event]) -> Option<usize>
    ensures { result ≡ last_from 0 0 None events.now }
{
    let mut last = None;
    let mut skip = 0usize;
    let mut at = 0usize;
    let mut rest = events;
    'events: while let [event, behind @ ..] = rest {
        if skip > 0 {
            skip -= 1;
        } else {
            last = last_by(block_of(event.name), at, last);
            skip = inside(behind).len() + 1;
        }
        at += 1;
        rest = behind;
    }
    last
}

/// Writes the blocks of a note, and the links back: in its last paragraph, if that is its last block.
fn push_blocks(
    alloc: Global,
    out: &mut Vec<u8>,
    whole: &Whole<'_>,
    events: &[Event],
    number: usize,
    many: usize,
) -> Result<(), AllocError>
    ensures { OnOk result ((s : Spans) → AreKinded s → events.now ≡ events_of s → out.new.items ≡ after out.old.items (note_blocks whole.now.options.now whole.now.bytes.now (known_of whole.now) whole.now.tab (back_links number many) s)) }
{
    match last_paragraph(events) {
        None => {
            write_in(alloc, out, whole, Mode::Flow, events)?;
            push_fresh(out)?;
            push_back_links(alloc, out, number, many)?;
            Ok(out.push(b'\n')?)
        }
        Some(at) => {
            write_in(alloc, out, whole, Mode::Flow, first_events(events, at))?;
            push_fresh(out)?;
            out.extend_from_slice(b"<p>")?;
            let inner = inside(behind_first(behind_first(events, at), 1));
            write_in(alloc, out, whole, Mode::Paragraph, inner)?;
            out.push(b' ')?;
            push_back_links(alloc, out, number, many)?;
            Ok(out.extend_from_slice(b"</p>\n")?)
        }
    }
}

/// Writes a note, by its label and number.
fn push_note(
    alloc: Global,
    out: &mut Vec<u8>,
    whole: &Whole<'_>,
    numbered: &Numbered,
    notes: &Notes,
    label: &[u8],
    number: usize,
) -> Result<(), AllocError>
    ensures { OnOk result ((definitions : List (List ℕ × Spans)) (called : List (List ℕ)) → AreNotes notes.now definitions → ((l : List ℕ) → last_known numbered.now.last l ≡ last_call l called) → out.new.items ≡ after out.old.items (note_pieces whole.now.options.now whole.now.bytes.now (known_of whole.now) whole.now.tab definitions called number label.now)) }
{
    open_note(alloc, out, number)?;
    let many = match numbered.last_of(label) {
        None => 0,
        Some(called) => called.repeat,
    };
    push_blocks(alloc, out, whole, notes.get(label), number, many)?;
    Ok(out.extend_from_slice(b"</li>\n")?)
}

/// Writes the notes that are called, in the order of their numbers.
fn push_notes(
    alloc: Global,
    out: &mut Vec<u8>,
    whole: &Whole<'_>,
    numbered: &Numbered,
    notes: &Notes,
) -> Result<(), AllocError>
    ensures { OnOk result ((definitions : List (List ℕ × Spans)) (called : List (List ℕ)) → AreNotes notes.now definitions → ((l : List ℕ) → last_known numbered.now.last l ≡ last_call l called) → out.new.items ≡ after out.old.items (notes_from whole.now.options.now whole.now.bytes.now (known_of whole.now) whole.now.tab definitions called 1 (map (λ l. l.items) numbered.now.labels.items))) }
{
    let mut at = 0;
    while at < numbered.labels.len() {
        let label = numbered.labels[at].as_slice();
        push_note(alloc, out, whole, numbered, notes, label, at + 1)?;
        at += 1;
    }
    Ok(())
}

/// Writes the section of footnotes: each note that is called, in the order of their numbers. Nothing, if there is none.
pub(crate) fn push_section(
    alloc: Global,
    out: &mut Vec<u8>,
    whole: &Whole<'_>,
    numbered: &Numbered,
) -> Result<(), AllocError>
    ensures { OnOk result (IsBalanced whole.now.events.now → IsNumbered numbered.now (reverse (calls_in whole.now.bytes.now whole.now.events.now)) → out.new.items ≡ after out.old.items (section whole.now.options.now whole.now.bytes.now (known_of whole.now) whole.now.tab whole.now.events.now)) }
{
    if numbered.labels.is_empty() {
        return Ok(());
    }
    let notes = notes_in(alloc, whole.bytes, whole.events)?;
    push_fresh(out)?;
    out.extend_from_slice(b"<section class=\"footnotes\" data-footnotes=\"\">\n<ol>\n")?;
    push_notes(alloc, out, whole, numbered, &notes)?;
    Ok(out.extend_from_slice(b"</ol>\n</section>\n")?)
}
