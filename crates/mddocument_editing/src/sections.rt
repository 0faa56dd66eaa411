//! A document that can be edited.

ghost use Rattle.std.specs.Prelude.{◌≡◌, ◌+◌, ◌↔◌, ◌≤◌, ◌<◌, IfOk, IsErrOf, IsOk, OnErr, Some, length, slice_get, take, true};
ghost use Rattle.markdown_base.specs.Virtual.{IsWithinLimit};
ghost use Rattle.mdgfm_documents.specs.Documents.{gfm_events};
ghost use Rattle.mddocument_parts.specs.Sections.{document_of};
ghost use Rattle.mddocument_editing.specs.Divided.{Divided, IsDivided, bytes_of, events_between};
ghost use Rattle.mddocument_editing.specs.Edits.{IsChange, IsInside, edited};
ghost use Rattle.mddocument_editing.specs.Fits.{CanBeEdited};
ghost use Rattle.mddocument_editing.specs.Lookups.{IsSectionAt, IsSectionAtLine, lookup_turns};
ghost use Rattle.mddocument_editing.specs.Packed.{events_fit};
ghost use Rattle.mddocument_editing.specs.Positions.{offset_of, position_of};
ghost use Rattle.mddocument_editing.specs.Undefined.{undefined_between};

use crate::edit::{Change, Edit, Refused};
use crate::kept::{Kept, read};
use crate::lookup::{
    offset_of, position_of, section_at, section_at_counted, section_at_line, start_of,
    start_of_counted,
};
use crate::moved::{all_events, events_between, is_bytes, is_document};
use crate::packed::PackError;
use crate::positions::{Encoding, Position};
use crate::put::put;
use crate::recut::{append_sections, cut_again};
use crate::undefined::undefined_between;
use markdown_base::configuration::ParseOptions;
use markdown_base::event::Event;
use mdconstructs_loop_counts::Turns;
use mddocument::limit::limit_of;
use mddocument_references::references::Reference;
use std::alloc::{AllocError, Global};
use std::marker::Model;
use std::sync::ledger::Ledger;

/// A document that can be edited: its bytes, cut at each of its rests into sections, and the events of each.
#[derive(Drop)]
pub struct Sections {
    /// What is kept of it.
    kept: Kept,
    /// How many bytes it has.
    size: usize,
}

impl Model for Sections {
    ghost use Rattle.mddocument_editing.specs.Divided.{Divided};
    ghost use Rattle.mddocument_editing.specs.Kept.{IsKeptWithSize, divided_of};

    ghost Value = { Divided };

    ghost view = { λ s. divided_of s.kept };

    ghost invariant = { λ s. IsKeptWithSize s.kept s.size };
}

impl Sections {
    /// Reads a document, section by section.
    ///
    /// It is `TooLong` if its length is above the limit, and else only if a number of an event of a section does not fit (see
    /// [`Packed`](crate::packed::Packed)); so never for want of memory.
    pub fn new(alloc: Global, bytes: &[u8], options: &ParseOptions) -> Result<Sections, PackError>
        ensures bytes { IfOk result (λ sections. bytes_of sections ≡ bytes.now) }
        ensures options { IfOk result (λ sections. sections.options ≡ options.now) }
        ensures too_long { ¬ IsWithinLimit options.now.tab_size bytes.now → IsErrOf result PackError.TooLong }
        ensures fits { IsWithinLimit options.now.tab_size bytes.now → events_fit (gfm_events options.now bytes.now) ≡ true → ¬ IsErrOf result PackError.TooLong }
        ensures exact { CanBeEdited options.now bytes.now → ¬ IsErrOf result PackError.TooLong }
    {
        Ok(Sections {
            kept: read(alloc, bytes, options)?,
            size: bytes.len(),
        })
    }

    /// Each document that can be edited is cut at each of its rests. It does nothing; its contract says so.
    pub fn are_cut(&self)
        ensures { IsDivided self.now }
    {
        let _kept = &self.kept;
    }

    /// How many sections there are.
    pub fn count(&self) -> usize
        ensures { result ≡ length self.now.sections }
    {
        self.kept.sections.len()
    }

    /// How many bytes the document has.
    pub fn len(&self) -> usize
        ensures { result ≡ length (bytes_of self.now) }
    {
        self.size
    }

    /// The document's bytes. It fails only if it runs out of memory.
    pub fn bytes(&self, alloc: Global) -> Result<Vec<u8>, AllocError>
        ensures { IfOk result (λ bytes. bytes.items ≡ bytes_of self.now) }
    {
        let mut bytes = Vec::new(alloc);
        append_sections(&mut bytes, self.kept.sections.as_slice())?;
        Ok(bytes)
    }

    /// The bytes of a section.
    pub fn section(&self, index: usize) -> &[u8]
        requires { index < length self.now.sections }
        ensures { slice_get self.now.sections index ≡ Some result.now }
    {
        self.kept.sections.one(index).part.bytes.as_slice()
    }

    /// Where a section starts: the index of its first byte. Of the number of sections, how many bytes the document has.
    pub fn start_of(&self, section: usize) -> usize
        requires { section ≤ length self.now.sections }
        ensures { result ≡ length (document_of (take section self.now.sections)) }
    {
        start_of(&self.kept, section)
    }

    /// As [`start_of`](Sections::start_of), counted: its loops go over blocks of 256 sections, and over the sections of one block, and not over all in
    /// front.
    pub fn start_of_counted<L: Ledger>(&self, section: usize, turns: &mut Turns<L>) -> usize
        requires { section ≤ length self.now.sections }
        ensures start { result ≡ length (document_of (take section self.now.sections)) }
        ensures turns { turns.new ≤ turns.old + lookup_turns (length self.now.sections) }
    {
        start_of_counted(&self.kept, section, turns)
    }

    /// The section that a byte is in. At the document's end or behind it, the number of sections.
    pub fn section_at(&self, byte: usize) -> usize
        ensures { IsSectionAt self.now.sections byte result }
    {
        section_at(&self.kept, byte)
    }

    /// As [`section_at`](Sections::section_at), counted: its loops go over blocks of 256 sections, and over the sections of one block.
    pub fn section_at_counted<L: Ledger>(&self, byte: usize, turns: &mut Turns<L>) -> usize
        ensures section { IsSectionAt self.now.sections byte result }
        ensures turns { turns.new ≤ turns.old + lookup_turns (length self.now.sections) }
    {
        section_at_counted(&self.kept, byte, turns)
    }

    /// The section in which a line starts, by its number, from 0. The number of sections, if the line starts at the document's end, or there is no such
    /// line.
    pub fn section_at_line(&self, line: usize) -> usize
        ensures { IsSectionAtLine self.now.sections line result }
    {
        section_at_line(&self.kept, line)
    }

    /// The position of a byte index. `None` behind the document's end, and in a character (see [`positions`](crate::positions::position_of)). Of the
    /// bytes, only those of the section are looked at that the byte is in.
    pub fn position_of(&self, byte: usize, encoding: Encoding) -> Option<Position>
        ensures { result ≡ position_of encoding (bytes_of self.now) byte }
    {
        position_of(&self.kept, byte, encoding)
    }

    /// The byte index of a position. `None` for a line that the document does not have, and in a character (see
    /// [`positions`](crate::positions::offset_of)). Of the bytes, only those of the section are looked at that the line is in.
    pub fn offset_of(&self, position: Position, encoding: Encoding) -> Option<usize>
        ensures { result ≡ offset_of encoding (bytes_of self.now) position }
    {
        offset_of(&self.kept, position, encoding)
    }

    /// The events of the document, with checks of task list items, calls of footnotes and autolink literals, each if its option is on. They are what
    /// [`read_gfm_document`](mdgfm_documents::documents::read_gfm_document) gives of its bytes. It fails only if it runs out of memory.
    pub fn events(&self, alloc: Global) -> Result<Vec<Event>, AllocError>
        ensures { IfOk result (λ events. events.items ≡ gfm_events self.now.options (bytes_of self.now)) }
    {
        all_events(alloc, &self.kept)
    }

    /// The events of the sections from one up to another, as they stand in those of the document. It fails only if it runs out of memory.
    pub fn events_in(&self, alloc: Global, from: usize, to: usize) -> Result<Vec<Event>, AllocError>
        requires order { from ≤ to }
        requires within { to ≤ length self.now.sections }
        ensures { IfOk result (λ events. events.items ≡ events_between self.now from to) }
    {
        events_between(alloc, &self.kept, from, to)
    }

    /// The references of the sections from one up to another whose labels nothing in the document defines, in their order (see
    /// [`undefined_in`](mddocument_references::references::undefined_in)). A call of a footnote is none. It copies the document's bytes. It fails only if it runs out of memory.
    pub fn undefined(
        &self,
        alloc: Global,
        from: usize,
        to: usize,
    ) -> Result<Vec<Reference>, AllocError>
        requires order { from ≤ to }
        requires within { to ≤ length self.now.sections }
        ensures { IfOk result (λ found. found.items ≡ undefined_between self.now from to) }
    {
        undefined_between(alloc, &self.kept, from, to)
    }

    /// Edits the document. What it returns says which sections changed. If it fails, the document is as it was.
    ///
    /// It is `Range` if the bytes that go are none of the document, and only then. Else it is `TooLong` if the document would be longer than the limit; if it
    /// would not, only if a number of an event of a section would not fit (see [`Packed`](crate::packed::Packed)), so never for want of memory.
    pub fn replace(&mut self, alloc: Global, edit: &Edit) -> Result<Change, Refused>
        ensures bytes { IfOk result (λ _. bytes_of self.new ≡ edited edit.now (bytes_of self.old)) }
        ensures options { self.new.options ≡ self.old.options }
        ensures change { IfOk result (IsChange self.old self.new) }
        ensures kept { OnErr result (self.new ≡ self.old) }
        ensures range { IsErrOf result Refused.Range ↔ ¬ IsInside edit.now (bytes_of self.old) }
        ensures too_long { IsInside edit.now (bytes_of self.old) → ¬ IsWithinLimit self.old.options.tab_size (edited edit.now (bytes_of self.old)) → IsErrOf result Refused.TooLong }
        ensures fits { let new = edited edit.now (bytes_of self.old) in IsInside edit.now (bytes_of self.old) → IsWithinLimit self.old.options.tab_size new → events_fit (gfm_events self.old.options new) ≡ true → ¬ IsErrOf result Refused.TooLong }
        ensures exact { CanBeEdited self.old.options (edited edit.now (bytes_of self.old)) → ¬ IsErrOf result Refused.TooLong }
    {
        let Sections { kept, size } = self;
        if edit.from > edit.to || edit.to > *size {
            return Err(Refused::Range);
        }
        let stay = *size - (edit.to - edit.from);
        let limit = limit_of(kept.options.tab_size);
        if stay > limit || edit.with.len() > limit - stay {
            return Err(Refused::TooLong);
        }
        // The edited document is a possible one.
        is_document(kept);
        is_bytes(edit.with);
        let recut = cut_again(alloc, kept, edit)?;
        let change = put(alloc, kept, recut)?;
        *size = stay + edit.with.len();
        Ok(change)
    }
}
