//! Calls of footnotes: the numbers of their notes, and what is written of them.

ghost use Rattle.std.specs.Prelude.{◌≡◌, ◌==◌, ◌++◌, ◌∷◌, ◌<◌, ◌^◌, IfOk, IfSome, List, None, OnOk, Some, [], ℕ, codes, cond, length, map, reverse};
ghost use Rattle.std.specs.Fmt.{decimal};
ghost use Rattle.mddocument_link_targets.specs.Spans.{inside};
ghost use Rattle.mdhtml_document.specs.Frames.{IsNumbered, Opens, as_call, call_at, calls_of, last_known};
ghost use Rattle.mdhtml_document.specs.Html.{call_shape};
ghost use Rattle.mdhtml_document.specs.Notes.{back_link, back_links, call_id, call_pieces, calls_in, label_in, next_call, note_id, place_of_first, repeated};
ghost use Rattle.mdhtml_markup.specs.Pieces.{Feed, Id, Open, Text};
ghost use Rattle.mdhtml_markup.specs.declared.elements.Element.TheVariants.{ListItem};
ghost use Rattle.mdhtml_document.specs.Written.{after};

use crate::shapes::{DONE, Frame, Mode, through};
use crate::spans::inside;
use markdown_base::event::{Event, Kind, Name};
use mddocument_link_targets::spans::enters;
use mddocument_link_targets::strings::slice;
use mdinline_labels::normalised;
use std::alloc::{AllocError, Global};
use std::collections::BTreeMap;

/// A call of a footnote, by its note.
#[derive(Clone, Copy, Debug, PartialEq, Eq)]
pub struct Called {
    /// The number of its note: notes are numbered by their first calls.
    pub number: usize,
    /// How many calls of this note there are up to it, with itself.
    pub repeat: usize,
}

/// A call of a footnote, as it stands in a document.
#[derive(Drop)]
pub struct Call {
    /// The place of the first event in it, in bytes.
    pub place: usize,
    /// Its label.
    pub label: Vec<u8>,
}

/// The calls of a document, by their places.
#[derive(Drop)]
pub struct Calls {
    places: BTreeMap<usize, Called>,
}

/// The notes that are called, and their calls.
#[derive(Drop)]
pub struct Numbered {
    /// The last call of each label.
    pub last: BTreeMap<Vec<u8>, Called>,
    /// The labels of the notes, in the order of their numbers.
    pub labels: Vec<Vec<u8>>,
    /// All calls.
    pub calls: Calls,
}

/// The label that the first data in a span is, as labels are compared, by the events behind the span's enter.
pub(crate) fn label_inside(
    alloc: Global,
    bytes: &[u8],
    behind: &[Event],
) -> Result<Vec<u8>, AllocError>
    ensures { IfOk result (λ label. label.items ≡ label_in bytes.now (inside behind.now)) }
{
    let mut depth = 0usize;
    let mut rest = behind;
    'events: while let [event, more @ ..] = rest {
        match event.kind {
            Kind::Exit => {
                if depth == 0 {
                    return Ok(Vec::new(alloc));
                }
                depth -= 1;
            }
            Kind::Enter => {
                if let Some(exit) = more.first() {
                    if enters(event, Name::Data) {
                        return normalised(alloc, slice(bytes, event.point.index, exit.point.index));
                    }
                }
                depth += 1;
            }
        }
        rest = more;
    }
    Ok(Vec::new(alloc))
}

/// How many bytes are before the first of some events.
fn place_of_first(events: &[Event]) -> usize
    ensures { result ≡ place_of_first events.now }
{
    match events {
        [] => 0,
        [event, ..] => event.point.index,
    }
}

/// The calls among events.
fn calls_in(alloc: Global, bytes: &[u8], events: &[Event]) -> Result<Vec<Call>, AllocError>
    ensures { IfOk result (λ calls. calls_of calls.items ≡ calls_in bytes.now events.now) }
{
    let mut calls: Vec<Call> = Vec::new(alloc);
    let mut rest = events;
    'events: while let [event, behind @ ..] = rest {
        if enters(event, Name::GfmFootnoteCall) {
            let label = label_inside(alloc, bytes, behind)?;
            let place = place_of_first(inside(behind));
            calls.push(Call { place, label })?;
        }
        rest = behind;
    }
    Ok(calls)
}

impl Calls {
    /// The call at a place.
    fn get(&self, place: usize) -> Option<Called>
        ensures { result ≡ call_at self.now place }
    {
        self.places.get(&place).copied()
    }
}

impl Numbered {
    /// Notes without calls. Takes no memory.
    fn new(alloc: Global) -> Numbered
        ensures { IsNumbered result [] }
    {
        Numbered {
            last: BTreeMap::new(alloc),
            labels: Vec::new(alloc),
            calls: Calls {
                places: BTreeMap::new(alloc),
            },
        }
    }

    /// The last call of a label.
    pub(crate) fn last_of(&self, label: &[u8]) -> Option<Called>
        ensures { result ≡ last_known self.now.last label.now }
    {
        self.last.get(label).copied()
    }

    /// The call that comes next, of a label: one more of a note that was called, or the first one of the next note.
    fn next(&mut self, alloc: Global, label: &[u8]) -> Result<Called, AllocError>
        requires { IfSome (last_known self.old.last label.now) (λ c. c.repeat < 2 ^ 63) }
        ensures next { IfOk result (λ c. c ≡ next_call (last_known self.old.last label.now) (length self.old.labels.items)) }
        ensures labels { OnOk result (map (λ l. l.items) self.new.labels.items ≡ elim (last_known self.old.last label.now) [ None ↦ map (λ l. l.items) self.old.labels.items ++ label.now ∷ [] | Some c ↦ map (λ l. l.items) self.old.labels.items ]) }
        ensures last { OnOk result (self.new.last ≡ self.old.last) }
        ensures calls { OnOk result (self.new.calls ≡ self.old.calls) }
    {
        match self.last_of(label) {
            Some(called) => Ok(Called {
                number: called.number,
                repeat: called.repeat + 1,
            }),
            None => {
                let copy = Vec::from_slice(alloc, label)?;
                self.labels.push(copy)?;
                Ok(Called {
                    number: self.labels.len(),
                    repeat: 1,
                })
            }
        }
    }

    /// One more call.
    fn add(&mut self, alloc: Global, call: &Call) -> Result<(), AllocError>
        requires { IfSome (last_known self.old.last call.now.label.items) (λ c. c.repeat < 2 ^ 63) }
        ensures { OnOk result ((calls : List (ℕ × List ℕ)) → IsNumbered self.old calls → IsNumbered self.new (as_call call.now ∷ calls)) }
    {
        let called = self.next(alloc, &call.label)?;
        let label = Vec::from_slice(alloc, &call.label)?;
        self.last.insert(label, called)?;
        self.calls.places.insert(call.place, called)?;
        Ok(())
    }
}

/// The notes that are called by some calls, in order.
fn numbered_by(alloc: Global, calls: &[Call]) -> Result<Numbered, AllocError>
    ensures { IfOk result (λ n. IsNumbered n (reverse (calls_of calls.now))) }
{
    let mut all = Numbered::new(alloc);
    let mut at = 0;
    while at < calls.len() {
        all.add(alloc, &calls[at])?;
        at += 1;
    }
    Ok(all)
}

/// The calls among events, and the numbers of their notes.
pub(crate) fn number_notes(
    alloc: Global,
    bytes: &[u8],
    events: &[Event],
) -> Result<Numbered, AllocError>
    ensures { IfOk result (λ n. IsNumbered n (reverse (calls_in bytes.now events.now))) }
{
    let calls = calls_in(alloc, bytes, events)?;
    numbered_by(alloc, calls.as_slice())
}

/// Adds a number.
fn push_decimal(alloc: Global, out: &mut Vec<u8>, number: usize) -> Result<(), AllocError>
    ensures { OnOk result (out.new.items ≡ out.old.items ++ decimal number) }
{
    let digits = format!(in alloc; "{number}")?;
    out.extend_from_slice(digits.as_bytes())
}

/// Adds the id of a note.
fn push_note_id(alloc: Global, out: &mut Vec<u8>, number: usize) -> Result<(), AllocError>
    ensures { OnOk result (out.new.items ≡ out.old.items ++ note_id number) }
{
    out.extend_from_slice(b"user-content-fn-")?;
    push_decimal(alloc, out, number)
}

/// Adds the id of a call.
fn push_call_id(
    alloc: Global,
    out: &mut Vec<u8>,
    number: usize,
    repeat: usize,
) -> Result<(), AllocError>
    ensures { OnOk result (out.new.items ≡ out.old.items ++ call_id number repeat) }
{
    out.extend_from_slice(b"user-content-fnref-")?;
    push_decimal(alloc, out, number)?;
    if repeat == 1 {
        return Ok(());
    }
    out.push(b'-')?;
    push_decimal(alloc, out, repeat)
}

/// Writes a call: the number of its note, which leads there.
fn push_call(alloc: Global, out: &mut Vec<u8>, called: Called) -> Result<(), AllocError>
    ensures { OnOk result (out.new.items ≡ after out.old.items (call_pieces called)) }
{
    out.extend_from_slice(b"<sup class=\"footnote-ref\"><a href=\"#")?;
    push_note_id(alloc, out, called.number)?;
    out.extend_from_slice(b"\" id=\"")?;
    push_call_id(alloc, out, called.number, called.repeat)?;
    out.extend_from_slice(b"\" data-footnote-ref=\"\">")?;
    push_decimal(alloc, out, called.number)?;
    out.extend_from_slice(b"</a></sup>")?;
    Ok(())
}

/// Writes a call, by the events in it; its text, if its note has no number.
pub(crate) fn open_call(
    alloc: Global,
    out: &mut Vec<u8>,
    calls: &Calls,
    inner: &[Event],
) -> Result<Frame, AllocError>
    ensures { IfOk result (λ frame. Opens (call_shape (call_at calls.now (place_of_first inner.now))) out.old.items out.new.items frame) }
{
    match calls.get(place_of_first(inner)) {
        None => Ok(through(Mode::Text)),
        Some(called) => {
            push_call(alloc, out, called)?;
            Ok(DONE)
        }
    }
}

/// Writes how many calls there are up to one, behind the first one.
fn push_repeat(alloc: Global, out: &mut Vec<u8>, repeat: usize) -> Result<(), AllocError>
    ensures { OnOk result (out.new.items ≡ after out.old.items (repeated repeat)) }
{
    if repeat == 1 {
        return Ok(());
    }
    out.extend_from_slice(b"<sup class=\"footnote-ref\">")?;
    push_decimal(alloc, out, repeat)?;
    out.extend_from_slice(b"</sup>")?;
    Ok(())
}

/// Writes a link back to a call.
fn push_back_link(
    alloc: Global,
    out: &mut Vec<u8>,
    number: usize,
    repeat: usize,
) -> Result<(), AllocError>
    ensures { OnOk result (out.new.items ≡ after out.old.items (back_link number repeat)) }
{
    out.extend_from_slice(b"<a href=\"#")?;
    push_call_id(alloc, out, number, repeat)?;
    out.extend_from_slice(
        b"\" class=\"footnote-backref\" data-footnote-backref=\"\" aria-label=\"Back to content\">\xE2\x86\xA9",
    )?;
    push_repeat(alloc, out, repeat)?;
    out.extend_from_slice(b"</a>")?;
    Ok(())
}

/// Writes a space before each link back but the first one.
fn push_space(out: &mut Vec<u8>, next: usize) -> Result<(), AllocError>
    ensures { OnOk result (out.new.items ≡ after out.old.items (cond (next == 1) [] (Text (codes " ") ∷ []))) }
{
    if next == 1 {
        return Ok(());
    }
    out.push(b' ')?;
    Ok(())
}

/// Writes links back to so many calls of a note.
pub(crate) fn push_back_links(
    alloc: Global,
    out: &mut Vec<u8>,
    number: usize,
    many: usize,
) -> Result<(), AllocError>
    ensures { OnOk result (out.new.items ≡ after out.old.items (back_links number many)) }
{
    let mut next = 0;
    while next < many {
        next += 1;
        push_space(out, next)?;
        push_back_link(alloc, out, number, next)?;
    }
    Ok(())
}

/// Begins the item of a note.
pub(crate) fn open_note(alloc: Global, out: &mut Vec<u8>, number: usize) -> Result<(), AllocError>
    ensures { OnOk result (out.new.items ≡ after out.old.items (Open ListItem (Id (note_id number) ∷ []) ∷ Feed ∷ [])) }
{
    out.extend_from_slice(b"<li id=\"")?;
    push_note_id(alloc, out, number)?;
    out.extend_from_slice(b"\">\n")
}
