//! What is asked of a document that is kept, with codes in place of errors.

ghost use Rattle.std.specs.Prelude.{◌≡◌, ◌≢◌, ◌≤◌, ◌<◌, ◌↔◌, ◌⊎◌, Err, IfErr, IfOk, IsErrOf, OnErr, Some, drop, length, min};
ghost use Rattle.markdown.specs.Virtual.{IsWithinLimit};
ghost use Rattle.mdconstructs.specs.Divided.{bytes_of, events_between};
ghost use Rattle.mdconstructs.specs.Edits.{IsInside, edited};
ghost use Rattle.mdconstructs.specs.Fits.{CanBeEdited};
ghost use Rattle.limecove.specs.Editing.{IsReplaced, encoding_of, index_in, named_of, named_over, place_in, start_in, why_number};

use crate::code::{NO_SUCH_BYTES, NO_SUCH_RANGES, OUT_OF_MEMORY, READ, TOO_LONG};
use crate::held::Held;
use markdown::event::Event;
use mdconstructs::edit::{Change, Edit, Other, Refused, Why};
use mdconstructs::positions::{Encoding, Position};
use std::alloc::Global;
use std::cmp;

/// What an edit changed. Sections in front of the replaced ones and behind them have the bytes that they had.
#[repr(C)]
#[derive(Clone, Copy, Debug, PartialEq, Eq)]
pub struct Changed {
    /// The first section that was replaced, and the first new one.
    pub from: usize,
    /// The section behind the last that was replaced, as sections were numbered before.
    pub old_to: usize,
    /// The section behind the last new one, as they are numbered now.
    pub new_to: usize,
    /// Where the new sections start: a byte index into the document as it is now.
    pub start: usize,
    /// Where they end: the index of the byte behind them.
    pub end: usize,
    /// Of how many other sections something is new: they have other events than before, or a link or an image in them leads elsewhere.
    pub others: usize,
}

/// A section that an edit did not replace, and of which something is new.
#[repr(C)]
#[derive(Clone, Copy, Debug, PartialEq, Eq)]
pub struct Named {
    /// Its number, as sections are numbered now.
    pub section: usize,
    /// Why it is named: 0 if it has other events than before, since a label came or went; 1 if it has the same ones, and a link or an image in it
    /// leads elsewhere.
    pub why: u32,
}

/// A place in a document as editors ask for it.
#[repr(C)]
#[derive(Clone, Copy, Debug, PartialEq, Eq)]
pub struct Place {
    /// The line, from 0.
    pub line: usize,
    /// The units of the line in front of the place.
    pub character: usize,
}

impl Held {
    /// Edits the document. If it fails, what is kept is as it was.
    pub(crate) fn replace(&mut self, alloc: Global, edit: &Edit) -> Result<Changed, u32>
        ensures replaced { IfOk result (IsReplaced edit.now.from edit.now.to edit.now.with.now self.old self.new) }
        ensures kept { OnErr result (self.new ≡ self.old) }
        ensures range { (result ≡ Err NO_SUCH_BYTES) ↔ ¬ IsInside edit.now (bytes_of self.old.sections) }
        ensures too_long { IsInside edit.now (bytes_of self.old.sections) → ¬ IsWithinLimit self.old.sections.options.tab_size (edited edit.now (bytes_of self.old.sections)) → IsErrOf result TOO_LONG }
        ensures exact { CanBeEdited self.old.sections.options (edited edit.now (bytes_of self.old.sections)) → result ≢ Err TOO_LONG }
        ensures codes { IfErr result (λ code. (READ < code) × ((code ≤ TOO_LONG) ⊎ (code ≡ NO_SUCH_BYTES))) }
    {
        match self.sections.replace(alloc, edit) {
            Ok(change) => {
                let Change {
                    from,
                    old_to,
                    new_to,
                    others,
                } = change;
                let changed = Changed {
                    from,
                    old_to,
                    new_to,
                    start: self.sections.start_of(from),
                    end: self.sections.start_of(new_to),
                    others: others.len(),
                };
                self.others = others;
                Ok(changed)
            }
            Err(Refused::Memory) => Err(OUT_OF_MEMORY),
            Err(Refused::Range) => Err(NO_SUCH_BYTES),
            Err(Refused::TooLong) => Err(TOO_LONG),
        }
    }

    /// The events of the sections from one up to another, as they stand in those of the document.
    pub(crate) fn events(&self, alloc: Global, from: usize, to: usize) -> Result<Vec<Event>, u32>
        ensures events { IfOk result (λ events. events.items ≡ events_between self.now.sections from to) }
        ensures ranges { (result ≡ Err NO_SUCH_RANGES) ↔ ¬ ((from ≤ to) × (to ≤ length self.now.sections.sections)) }
        ensures codes { IfErr result (λ code. (code ≡ OUT_OF_MEMORY) ⊎ (code ≡ NO_SUCH_RANGES)) }
    {
        if from > to || to > self.sections.count() {
            return Err(NO_SUCH_RANGES);
        }
        match self.sections.events_in(alloc, from, to) {
            Ok(events) => Ok(events),
            Err(_) => Err(OUT_OF_MEMORY),
        }
    }

    /// Where a section starts. Behind the last one, how many bytes the document has.
    pub(crate) fn start_of(&self, section: usize) -> usize
        ensures { result ≡ start_in (Some self.now) section }
    {
        let count = self.sections.count();
        self.sections.start_of(cmp::min(section, count))
    }

    /// The place of a byte index.
    pub(crate) fn place_of(&self, byte: usize, utf16: u32) -> Result<Place, u32>
        ensures { result ≡ place_in (Some self.now) utf16 byte }
    {
        match self.sections.position_of(byte, encoding_of(utf16)) {
            Some(Position { line, character }) => Ok(Place { line, character }),
            None => Err(NO_SUCH_BYTES),
        }
    }

    /// The byte index of a place.
    pub(crate) fn index_of(&self, place: Place, utf16: u32) -> Result<usize, u32>
        ensures { result ≡ index_in (Some self.now) utf16 place.line place.character }
    {
        let Place { line, character } = place;
        let position = Position { line, character };
        match self.sections.offset_of(position, encoding_of(utf16)) {
            Some(index) => Ok(index),
            None => Err(NO_SUCH_BYTES),
        }
    }
}

/// The units that are asked for: those of UTF-8 if the number is 0, else those of UTF-16.
fn encoding_of(utf16: u32) -> Encoding
    ensures { result ≡ encoding_of utf16 }
{
    if utf16 == 0 {
        Encoding::Utf8
    } else {
        Encoding::Utf16
    }
}

/// The number of why a section is named.
fn why_number(why: Why) -> u32
    ensures { result ≡ why_number why }
{
    match why {
        Why::Events => 0,
        Why::Targets => 1,
    }
}

/// A section that is named, with why.
fn named_of(other: &Other) -> Named
    ensures { result ≡ named_of other.now }
{
    Named {
        section: other.section,
        why: why_number(other.why),
    }
}

/// Writes sections that are named over the first of others, as many as fit. Returns how many were written.
fn write_named(named: &mut [Named], others: &[Other]) -> usize
    ensures copied { named.new ≡ named_over named.old others.now }
    ensures count { result ≡ min (length named.old) (length others.now) }
{
    let written = cmp::min(named.len(), others.len());
    'writing: for i in 0..written {
        named[i] = named_of(&others[i]);
    }
    written
}

/// Writes the sections that are named, from this one of them on, over the first of others, as many as fit. Returns how many were written.
pub(crate) fn copy_named(list: &[Other], from: usize, named: &mut [Named]) -> usize
    ensures copied { named.new ≡ named_over named.old (drop from list.now) }
    ensures count { result ≡ min (length named.old) (length (drop from list.now)) }
{
    let Some(left) = list.get(from..) else {
        return 0;
    };
    write_named(named, left)
}
