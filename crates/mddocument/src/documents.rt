//! The events of a document, by a choice of how it is read.

ghost use Rattle.std.specs.Prelude.{◌≡◌, IfOk, IfErr, IsOk};
ghost use Rattle.markdown_base.specs.Events.{IsVoidTight};
ghost use Rattle.markdown_base.specs.Virtual.{IsWithinLimit};
ghost use Rattle.markdown_tokenizer.specs.Engine.{AreCuts, IsWellFormed, given_by, whole_text};
ghost use Rattle.markdown_tokenizer.specs.Text.{IsDocument};
ghost use Rattle.mdinline_text_machine.specs.TextEvents.{text_events};
ghost use Rattle.mdinline_labels.specs.Defined.{defines};
ghost use Rattle.mdinline_machine.specs.InlineChains.{with_inlines};
ghost use Rattle.mddocument.specs.Choices.{CanCut};
ghost use Rattle.mddocument.specs.DocumentEvents.{document_events_by};
ghost use Rattle.mddocument.specs.Documents.{document, options_with, cut_places, AreEventsOf, AreDocumentEvents, AreFlowEvents, AreFlowInlines, IsReadable};

use crate::choice::{Choice, Which};
use crate::making::{Unmade, read_by, read_deep_by, read_resolved_by, with_ready_children};
use crate::nested::{is_document, read_blocks, read_nested_events, read_nested_events_by};
use markdown_base::configuration::{Constructs, ParseOptions, TabSize};
use markdown_base::event::{Content, Event};
use markdown_base::state::Name;
use markdown_tokenizer::tokenizer::{Fault, cuts_every};
use mdblock_leaf_machine::flow::Flow;
use mdconstructs_machines::back::Back;
use mdconstructs_machines::deep::Deep;
use mdconstructs_machines::lines::Lines;
use mdconstructs_machines::paragraphs::Paragraphs;
use mdconstructs_machines::peek::Peek;
use mdconstructs_machines::save::Save;
use mdinline_labels::labels::Labels;
use mdinline_machine::inlines::Inlines;
use mdinline_text_machine::text::Text;
use std::alloc::{AllocError, Global};

/// The events of a document, read by the machine that the choice names, with these constructs. The cuts leave no trace in them.
///
/// They are well formed, also where the text of each chain of chunks is in their place: balanced, each void span empty, at places of the
/// document, and in order of these.
///
/// A cut in the choice must be at least 1. It fails only if it runs out of memory: no machine that can be chosen refuses a
/// document, and the chains of text that such a machine makes can be read.
pub fn events_of(
    alloc: Global,
    bytes: &[u8],
    constructs: Constructs,
    choice: &Choice,
) -> Result<Vec<Event>, AllocError>
    requires limit { IsWithinLimit choice.now.tab bytes.now }
    requires cut { CanCut choice.now }
    ensures events { IfOk result (λ events. AreEventsOf choice.now.deep choice.now.machine (options_with constructs choice.now.tab) bytes.now events.items) }
    ensures formed { IfOk result (λ events. IsWellFormed (document (options_with constructs choice.now.tab) bytes.now) events.items) }
    ensures tight { IfOk result (λ events. IsVoidTight events.items) }
{
    match read_as(alloc, bytes, constructs, choice) {
        Ok(events) => Ok(events),
        Err(Unmade::Fault(Fault::Memory)) => Err(AllocError),
        Err(_) => unreachable!(),
    }
}

/// The events of a document: its block quotes, lists and footnote definitions, the leaf blocks and link reference definitions in them, and each
/// text of these read as inline text. Links and images refer to the definitions of the whole document.
///
/// The events are what a definition without states says of the document's lines (CommonMark, "Container blocks", "Leaf blocks" and "Inlines").
/// They are well formed: balanced, each void span empty, at places of the document, and in order of these. It fails only if it runs out of
/// memory.
///
/// The document is there whole, and no cuts are chosen: lines are read by plain code, which takes no ranges, and each chain of chunks is read
/// from these. [`read_leaf_blocks`] takes cuts.
pub fn read_document(
    alloc: Global,
    bytes: &[u8],
    options: &ParseOptions,
) -> Result<Vec<Event>, AllocError>
    requires limit { IsWithinLimit options.now.tab_size bytes.now }
    ensures events { IfOk result (λ events. AreDocumentEvents options.now bytes.now events.items) }
    ensures formed { IfOk result (λ events. IsWellFormed (document options.now bytes.now) events.items) }
{
    match read_nested_events(alloc, bytes, options) {
        Ok(events) => Ok(events),
        Err(Unmade::Fault(Fault::Memory)) => Err(AllocError),
        Err(_) => unreachable!(),
    }
}

/// The events of a document by the labels that this machine knows, and not by those that the document defines. By these they are those of
/// [`read_document`]. It fails only if it runs out of memory.
pub fn read_document_by(
    alloc: Global,
    bytes: &[u8],
    options: &ParseOptions,
    machine: &Inlines,
) -> Result<Vec<Event>, AllocError>
    requires limit { IsWithinLimit options.now.tab_size bytes.now }
    ensures { IfOk result (λ events. events.items ≡ document_events_by (defines machine.now.labels) (document options.now bytes.now)) }
{
    match read_nested_events_by(alloc, bytes, options, machine) {
        Ok(events) => Ok(events),
        Err(Unmade::Fault(Fault::Memory)) => Err(AllocError),
        Err(_) => unreachable!(),
    }
}

/// A list of events with the inline text of each of its chains of text in place of the chain's chunks, by the labels that this machine knows. Its
/// chains of text can be read. It fails only if it runs out of memory.
pub fn read_texts(
    alloc: Global,
    bytes: &[u8],
    options: &ParseOptions,
    events: Vec<Event>,
    machine: &Inlines,
) -> Result<Vec<Event>, AllocError>
    requires limit { IsWithinLimit options.now.tab_size bytes.now }
    requires ready { IsReadable options.now bytes.now events.items }
    ensures { IfOk result (λ new. new.items ≡ with_inlines (defines machine.now.labels) (document options.now bytes.now) events.items) }
{
    is_document(bytes, options);
    match with_texts_read(alloc, bytes, options, events, machine) {
        Ok(events) => Ok(events),
        Err(Unmade::Fault(Fault::Memory)) => Err(AllocError),
        Err(_) => unreachable!(),
    }
}

/// As [`read_texts`], with the reason for which there are no events.
fn with_texts_read(
    alloc: Global,
    bytes: &[u8],
    options: &ParseOptions,
    events: Vec<Event>,
    machine: &Inlines,
) -> Result<Vec<Event>, Unmade>
    requires limit { IsWithinLimit options.now.tab_size bytes.now }
    requires document { IsDocument (document options.now bytes.now) }
    requires ready { IsReadable options.now bytes.now events.items }
    ensures events { IfOk result (λ new. new.items ≡ with_inlines (defines machine.now.labels) (document options.now bytes.now) events.items) }
    ensures err { IfErr result (λ unmade. unmade ≡ Unmade.Fault Fault.Memory) }
{
    let wanted = Some(&Content::Text);
    with_ready_children(alloc, machine, bytes, options, events, wanted)
}

/// The events of a document as leaf blocks alone: a marker of a block quote or list is text there, and so is a definition of either kind. Each text
/// of them is read as inline text. The document is cut at these places, which leave no trace in the events.
///
/// The events are what a definition without states says of the document's lines (CommonMark, "Leaf blocks" and "Inlines"). They are
/// well formed, as those of [`read_document`]. It fails only if it runs out of memory.
pub fn read_leaf_blocks(
    alloc: Global,
    bytes: &[u8],
    options: &ParseOptions,
    cuts: &[(usize, usize)],
) -> Result<Vec<Event>, AllocError>
    requires limit { IsWithinLimit options.now.tab_size bytes.now }
    requires cuts { AreCuts options.now.tab_size bytes.now cuts.now }
    ensures events { IfOk result (λ events. AreFlowInlines options.now bytes.now events.items) }
    ensures formed { IfOk result (λ events. IsWellFormed (document options.now bytes.now) events.items) }
{
    match read_flow_and_inlines(alloc, bytes, options, cuts) {
        Ok(events) => Ok(events),
        Err(Unmade::Fault(Fault::Memory)) => Err(AllocError),
        Err(_) => unreachable!(),
    }
}

/// The events of a whole document, read as text: those of `read_text`. It reads by the same run of the machine of texts as
/// [`events_of`]. So a library that has both has the engine's loop for that machine once, with the machine's states in it.
///
/// It fails only if it runs out of memory.
pub fn text_events_of(
    alloc: Global,
    bytes: &[u8],
    options: &ParseOptions,
) -> Result<Vec<Event>, AllocError>
    requires limit { IsWithinLimit options.now.tab_size bytes.now }
    ensures { IfOk result (λ events. let g = given_by bytes.now options.now in events.items ≡ text_events g (whole_text g)) }
{
    match read_as_text(alloc, bytes, options) {
        Ok(events) => Ok(events),
        Err(Unmade::Fault(Fault::Memory)) => Err(AllocError),
        Err(_) => unreachable!(),
    }
}

/// As [`text_events_of`], with the reason for which there are no events.
fn read_as_text(alloc: Global, bytes: &[u8], options: &ParseOptions) -> Result<Vec<Event>, Unmade>
    requires limit { IsWithinLimit options.now.tab_size bytes.now }
    ensures events { IfOk result (λ events. let g = given_by bytes.now options.now in events.items ≡ text_events g (whole_text g)) }
    ensures err { IfErr result (λ unmade. unmade ≡ Unmade.Fault Fault.Memory) }
{
    read_by(alloc, &Text {}, Name::TextStart, bytes, options, &[])
}

/// The default options, but with these constructs and this size of tabs.
pub fn options_with(constructs: Constructs, tab: TabSize) -> ParseOptions
    ensures { result ≡ options_with constructs tab }
{
    ParseOptions {
        constructs,
        tab_size: tab,
        ..ParseOptions::default()
    }
}

/// As [`events_of`], with the reason for which there are no events.
fn read_as(
    alloc: Global,
    bytes: &[u8],
    constructs: Constructs,
    choice: &Choice,
) -> Result<Vec<Event>, Unmade>
    requires limit { IsWithinLimit choice.now.tab bytes.now }
    requires cut { CanCut choice.now }
    ensures events { IfOk result (λ events. AreEventsOf choice.now.deep choice.now.machine (options_with constructs choice.now.tab) bytes.now events.items) }
    ensures formed { IfOk result (λ events. IsWellFormed (document (options_with constructs choice.now.tab) bytes.now) events.items) }
    ensures err { IfErr result (λ unmade. unmade ≡ Unmade.Fault Fault.Memory) }
    ensures document { IsOk result → IsDocument (document (options_with constructs choice.now.tab) bytes.now) }
{
    let cuts = cuts_of(alloc, bytes, choice)?;
    let cuts = cuts.as_slice();
    let options = &options_with(constructs, choice.tab);
    match choice.machine {
        Which::Lines => read_by(alloc, &Lines {}, Name::FlowStart, bytes, options, cuts),
        Which::Paragraphs if choice.deep => {
            read_deep_by(alloc, &Paragraphs {}, Name::FlowStart, bytes, options, cuts)
        }
        Which::Paragraphs => read_by(alloc, &Paragraphs {}, Name::FlowStart, bytes, options, cuts),
        Which::Peek => read_by(alloc, &Peek {}, Name::TextStart, bytes, options, cuts),
        Which::Deep => read_by(alloc, &Deep {}, Name::StringStart, bytes, options, cuts),
        Which::Back => read_by(alloc, &Back {}, Name::TextStart, bytes, options, cuts),
        Which::Save => read_by(alloc, &Save {}, Name::TextStart, bytes, options, cuts),
        Which::Text if choice.deep => {
            read_deep_by(alloc, &Text {}, Name::FlowStart, bytes, options, cuts)
        }
        Which::Text => read_by(alloc, &Text {}, Name::FlowStart, bytes, options, cuts),
        Which::Flow if choice.deep => read_flow_and_inlines(alloc, bytes, options, cuts),
        Which::Flow => read_flow(alloc, bytes, options, cuts),
        Which::Document if choice.deep => read_nested_events(alloc, bytes, options),
        Which::Document => read_blocks(alloc, bytes, options),
    }
}

/// The events of leaf blocks, with the edits of setext headings made.
fn read_flow(
    alloc: Global,
    bytes: &[u8],
    options: &ParseOptions,
    cuts: &[(usize, usize)],
) -> Result<Vec<Event>, Unmade>
    requires limit { IsWithinLimit options.now.tab_size bytes.now }
    requires cuts { AreCuts options.now.tab_size bytes.now cuts.now }
    ensures events { IfOk result (λ events. AreFlowEvents options.now bytes.now events.items) }
    ensures err { IfErr result (λ unmade. unmade ≡ Unmade.Fault Fault.Memory) }
    ensures document { IsDocument (document options.now bytes.now) }
{
    read_resolved_by(alloc, &Flow {}, Name::FlowStart, bytes, options, cuts, true)
}

/// As [`read_leaf_blocks`], with the reason for which there are no events.
fn read_flow_and_inlines(
    alloc: Global,
    bytes: &[u8],
    options: &ParseOptions,
    cuts: &[(usize, usize)],
) -> Result<Vec<Event>, Unmade>
    requires limit { IsWithinLimit options.now.tab_size bytes.now }
    requires cuts { AreCuts options.now.tab_size bytes.now cuts.now }
    ensures events { IfOk result (λ events. AreFlowInlines options.now bytes.now events.items) }
    ensures formed { IfOk result (λ events. IsWellFormed (document options.now bytes.now) events.items) }
    ensures err { IfErr result (λ unmade. unmade ≡ Unmade.Fault Fault.Memory) }
    ensures document { IsDocument (document options.now bytes.now) }
{
    let events = read_flow(alloc, bytes, options, cuts)?;
    let machine = Inlines {
        labels: Labels::new(alloc),
    };
    with_ready_children(alloc, &machine, bytes, options, events, None)
}

/// The places at which a document is cut.
fn cuts_of(alloc: Global, bytes: &[u8], choice: &Choice) -> Result<Vec<(usize, usize)>, AllocError>
    requires limit { IsWithinLimit choice.now.tab bytes.now }
    requires cut { CanCut choice.now }
    ensures places { IfOk result (λ cuts. cuts.items ≡ cut_places choice.now bytes.now) }
    ensures cuts { IfOk result (λ cuts. AreCuts choice.now.tab bytes.now cuts.items) }
{
    match choice.cut {
        Some(n) => cuts_every(alloc, bytes, choice.tab, n),
        None => Ok(Vec::new(alloc)),
    }
}
