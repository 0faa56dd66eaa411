//! A copy of a tokenizer.

ghost use Rattle.std.specs.Prelude.{◌≡◌, IfOk};

use super::state::{ContainerState, Label, LabelStart};
use super::{TokenizeState, Tokenizer};
use crate::copies::{TryClone, copied};
use crate::state::{MachineTypes, State};
use crate::waiting::KeptChoice;
use markdown_base::event::{Event, Name};
use markdown_base::owned::{Items, OwnedText, StaticBytes};
use std::alloc::{AllocError, Global};

/// A copy of a state, if one is there.
fn copied_state(state: &Option<State>, alloc: Global) -> Result<Option<State>, AllocError>
    ensures { IfOk result (λ copy. copy ≡ state.now) }
{
    match state {
        Some(state) => Ok(Some(state.try_clone(alloc)?)),
        None => Ok(None),
    }
}

/// What is kept of the document, in memory of its own.
#[derive(Drop)]
struct KeptDocument<D: Drop> {
    document: Option<D>,
    document_child_state: Option<State>,
    document_container_stack: Items<ContainerState>,
    document_exits: Items<Option<Items<Event>>>,
}

/// The labels and definitions, in memory of their own.
#[derive(Drop)]
struct KeptLabels {
    label_starts: Items<LabelStart>,
    label_starts_loose: Items<LabelStart>,
    labels: Items<Label>,
    definitions: Items<OwnedText>,
    gfm_footnote_definitions: Items<OwnedText>,
}

/// A copy of what is kept of the document.
fn copied_document<D: Drop + TryClone>(
    state: &TokenizeState<D>,
    alloc: Global,
) -> Result<KeptDocument<D>, AllocError>
    ensures { IfOk result (λ copy. copy ≡ record { document = state.now.document; document_child_state = state.now.document_child_state; document_container_stack = state.now.document_container_stack; document_exits = state.now.document_exits }) }
{
    let document = state.document.try_clone(alloc)?;
    let document_child_state = copied_state(&state.document_child_state, alloc)?;
    let document_container_stack = copied(&state.document_container_stack, alloc)?;
    let document_exits = state.document_exits.try_clone(alloc)?;
    Ok(KeptDocument {
        document,
        document_child_state,
        document_container_stack,
        document_exits,
    })
}

/// A copy of the labels and definitions.
fn copied_labels<D: Drop>(state: &TokenizeState<D>, alloc: Global) -> Result<KeptLabels, AllocError>
    ensures { IfOk result (λ copy. copy ≡ record { label_starts = state.now.label_starts; label_starts_loose = state.now.label_starts_loose; labels = state.now.labels; definitions = state.now.definitions; gfm_footnote_definitions = state.now.gfm_footnote_definitions }) }
{
    let label_starts = copied(&state.label_starts, alloc)?;
    let label_starts_loose = copied(&state.label_starts_loose, alloc)?;
    let labels = copied(&state.labels, alloc)?;
    let definitions = state.definitions.try_clone(alloc)?;
    let gfm_footnote_definitions = state.gfm_footnote_definitions.try_clone(alloc)?;
    Ok(KeptLabels {
        label_starts,
        label_starts_loose,
        labels,
        definitions,
        gfm_footnote_definitions,
    })
}

impl<D: Drop + TryClone> TryClone for TokenizeState<D> {
    /// The same, with what the machine keeps about the document copied by its own `try_clone`.
    fn try_clone(&self, alloc: Global) -> Result<Self, AllocError> {
        let kept = copied_document(self, alloc)?;
        let named = copied_labels(self, alloc)?;
        Ok(TokenizeState {
            document: kept.document,
            document_child_state: kept.document_child_state,
            document_container_stack: kept.document_container_stack,
            document_continued: self.document_continued,
            document_data_index: self.document_data_index,
            document_exits: kept.document_exits,
            document_lazy_accepting_before: self.document_lazy_accepting_before,
            document_at_first_paragraph_of_list_item: self.document_at_first_paragraph_of_list_item,
            space_or_tab_eol_content: self.space_or_tab_eol_content,
            space_or_tab_eol_connect: self.space_or_tab_eol_connect,
            space_or_tab_eol_ok: self.space_or_tab_eol_ok,
            space_or_tab_connect: self.space_or_tab_connect,
            space_or_tab_content: self.space_or_tab_content,
            space_or_tab_min: self.space_or_tab_min,
            space_or_tab_max: self.space_or_tab_max,
            space_or_tab_size: self.space_or_tab_size,
            space_or_tab_token: self.space_or_tab_token,
            label_starts: named.label_starts,
            label_starts_loose: named.label_starts_loose,
            labels: named.labels,
            definitions: named.definitions,
            gfm_footnote_definitions: named.gfm_footnote_definitions,
            connect: self.connect,
            marker: self.marker,
            marker_b: self.marker_b,
            markers: StaticBytes::new(self.markers.as_slice()),
            seen: self.seen,
            size: self.size,
            size_b: self.size_b,
            size_c: self.size_c,
            start: self.start,
            end: self.end,
            token_1: self.token_1,
            token_2: self.token_2,
            token_3: self.token_3,
            token_4: self.token_4,
            token_5: self.token_5,
            token_6: self.token_6,
        })
    }
}

/// Events, open spans, resolvers and choices, in memory of their own.
#[derive(Drop)]
struct KeptLists<R> {
    events: Vec<Event>,
    stack: Vec<Name>,
    resolvers: Vec<R>,
    kept_choices: Vec<KeptChoice>,
}

/// Copies of the lists of a tokenizer.
fn copied_lists<R: Copy>(
    events: &[Event],
    stack: &[Name],
    resolvers: &[R],
    kept_choices: &[KeptChoice],
    alloc: Global,
) -> Result<KeptLists<R>, AllocError>
    ensures events { IfOk result (λ copy. copy.events.items ≡ events.now) }
    ensures stack { IfOk result (λ copy. copy.stack.items ≡ stack.now) }
    ensures resolvers { IfOk result (λ copy. copy.resolvers.items ≡ resolvers.now) }
    ensures kept_choices { IfOk result (λ copy. copy.kept_choices.items ≡ kept_choices.now) }
{
    let events = Vec::from_slice(alloc, events)?;
    let stack = Vec::from_slice(alloc, stack)?;
    let resolvers = Vec::from_slice(alloc, resolvers)?;
    let kept_choices = Vec::from_slice(alloc, kept_choices)?;
    Ok(KeptLists {
        events,
        stack,
        resolvers,
        kept_choices,
    })
}

impl<'a, M: MachineTypes> Tokenizer<'a, M>
where
    M::Document: TryClone,
{
    /// The same tokenizer, in memory of its own: it has read as much of the same document, and pushes to one of them change nothing in the
    /// other one.
    ///
    /// What the machine keeps about the document must be something that can be copied.
    pub fn try_clone(&self, alloc: Global) -> Result<Self, AllocError>
        ensures { IfOk result (λ copy. copy ≡ self.now) }
    {
        let lists = copied_lists(
            &self.events,
            &self.stack,
            &self.resolvers,
            &self.kept_choices,
            alloc,
        )?;
        let map = self.map.try_clone(alloc)?;
        let skips = self.skips.try_clone(alloc)?;
        let tokenize_state = self.tokenize_state.try_clone(alloc)?;
        let calls = self.calls.same();
        Ok(Tokenizer {
            interrupt: self.interrupt,
            concrete: self.concrete,
            pierce: self.pierce,
            lazy: self.lazy,
            map,
            start: self.start,
            end: self.end,
            skips,
            after_previous: self.after_previous,
            ended: self.ended,
            waits: self.waits,
            moves: self.moves,
            previous: self.previous,
            byte: self.byte,
            plain_until: self.plain_until,
            bytes: self.bytes,
            events: lists.events,
            stack: lists.stack,
            resolvers: lists.resolvers,
            kept_choices: lists.kept_choices,
            tab_size: self.tab_size,
            closed: self.closed,
            phase: self.phase,
            noted: self.noted,
            calls,
            parse_state: self.parse_state,
            tokenize_state,
        })
    }
}
