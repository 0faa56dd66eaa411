//! Documents with containers: first these, with a chain of chunks for each stretch of lines, and then the leaf blocks of each chain.

ghost use Rattle.std.specs.Prelude.{◌≡◌, IfErr, IfOk, None};
ghost use Rattle.markdown_base.specs.Virtual.{IsWithinLimit, virtual};
ghost use Rattle.markdown_children.specs.Ready.{IsReady};
ghost use Rattle.markdown_tokenizer.specs.declared.tokenizer.fault.Fault.TheVariants.{Memory};
ghost use Rattle.markdown_tokenizer.specs.Engine.{IsWellFormed};
ghost use Rattle.markdown_tokenizer.specs.Text.{IsDocument};
ghost use Rattle.mdblock_definitions.specs.Blocks.{document_skeleton};
ghost use Rattle.mdblock_definitions.specs.Labelled.{AreDefined};
ghost use Rattle.mdblock_definitions.specs.Skeleton.{letters as letters_of, written_labels};
ghost use Rattle.mdblock_leaf_rows.specs.FlowKnows.{flow_rules};
ghost use Rattle.mdinline_machine.specs.InlineRules.{inlines_rules};
ghost use Rattle.mdinline_labels.specs.Defined.{defines};
ghost use Rattle.mddocument.specs.DocumentEvents.{document_events_by};
ghost use Rattle.mddocument.specs.Documents.{document, AreDocumentBlocks, AreDocumentEvents, AreDocumentLeafBlocks};
ghost use Rattle.mddocument.specs.Runs.{HasChildren, HasOnlyContent, HasOnlyTexts};

use crate::making::{Unmade, with_ready_children};
use markdown_base::configuration::ParseOptions;
use markdown_base::event::Event;
use mdblock_containers::letters::with_letters;
use mdblock_definitions::parts::skeleton_with_definitions;
use mdblock_leaf_machine::flow::Flow;
use mdblock_table_marks::cells::with_cells;
use mdinline_labels::labels::Labels;
use mdinline_link_strings::strings::with_strings;
use mdinline_machine::inlines::Inlines;
use std::alloc::Global;

/// The blocks of a document, and what its definitions define.
#[derive(Drop)]
struct Blocks {
    /// The events of its containers, and of the leaf blocks in them.
    events: Vec<Event>,
    /// The labels that it defines.
    labels: Labels,
}

/// The containers of a document, and the leaf blocks in them.
pub(crate) fn read_blocks(
    alloc: Global,
    bytes: &[u8],
    options: &ParseOptions,
) -> Result<Vec<Event>, Unmade>
    requires limit { IsWithinLimit options.now.tab_size bytes.now }
    ensures events { IfOk result (λ events. AreDocumentBlocks options.now bytes.now events.items) }
    ensures err { IfErr result (λ unmade. unmade ≡ Unmade.Fault Memory) }
    ensures formed { IfOk result (λ events. IsWellFormed (document options.now bytes.now) events.items) }
    ensures document { IsDocument (document options.now bytes.now) }
{
    let blocks = read_blocks_and_labels(alloc, bytes, options)?;
    Ok(blocks.events)
}

/// As [`read_blocks`], with the labels that the document defines.
fn read_blocks_and_labels(
    alloc: Global,
    bytes: &[u8],
    options: &ParseOptions,
) -> Result<Blocks, Unmade>
    requires limit { IsWithinLimit options.now.tab_size bytes.now }
    ensures events { IfOk result (λ blocks. AreDocumentBlocks options.now bytes.now blocks.events.items) }
    ensures labels { IfOk result (λ blocks. AreDefined blocks.labels (written_labels options.now.constructs (virtual options.now.tab_size bytes.now))) }
    ensures err { IfErr result (λ unmade. unmade ≡ Unmade.Fault Memory) }
    ensures formed { IfOk result (λ blocks. IsWellFormed (document options.now bytes.now) blocks.events.items) }
    ensures document { IsDocument (document options.now bytes.now) }
{
    is_document(bytes, options);
    let skeleton = skeleton_with_definitions(alloc, bytes, options.tab_size, &options.constructs)?;
    let labels = skeleton.labels;
    let bare = skeleton.events;
    let letters = skeleton.letters.as_slice();
    let mut events = with_blocks(alloc, bytes, options, bare, letters)?;
    with_cells(&options.constructs, &mut events);
    Ok(Blocks { events, labels })
}

/// The skeleton of a document with the leaf blocks of each chain in place of its chunks.
///
/// Where a line that only goes on with a paragraph looks as an underline, leaf blocks are read of a copy of the document, with a letter for the
/// underline's first byte. All places of it are the same.
fn with_blocks(
    alloc: Global,
    bytes: &[u8],
    options: &ParseOptions,
    skeleton: Vec<Event>,
    letters: &[usize],
) -> Result<Vec<Event>, Unmade>
    requires limit { IsWithinLimit options.now.tab_size bytes.now }
    requires skeleton { skeleton.items ≡ document_skeleton (document options.now bytes.now) }
    requires letters { letters.now ≡ letters_of options.now.constructs (virtual options.now.tab_size bytes.now) }
    ensures events { IfOk result (λ events. AreDocumentLeafBlocks options.now bytes.now events.items) }
    ensures err { IfErr result (λ unmade. unmade ≡ Unmade.Fault Memory) }
{
    is_document(bytes, options);
    if letters.is_empty() {
        return with_leaf_blocks(alloc, bytes, options, skeleton);
    }
    let shown = with_letters(alloc, bytes, letters)?;
    with_leaf_blocks(alloc, shown.as_slice(), options, skeleton)
}

/// Bytes within the limit, with options, are a document.
pub(crate) fn is_document(bytes: &[u8], options: &ParseOptions)
    requires limit { IsWithinLimit options.now.tab_size bytes.now }
    ensures { IsDocument (document options.now bytes.now) }
{
    let _columns = options.tab_size.get();
}

/// The events with the leaf blocks of each chain of content in place of its chunks. All chains are of content, so all are read at once.
fn with_leaf_blocks(
    alloc: Global,
    bytes: &[u8],
    options: &ParseOptions,
    events: Vec<Event>,
) -> Result<Vec<Event>, Unmade>
    requires limit { IsWithinLimit options.now.tab_size bytes.now }
    requires content { HasOnlyContent events.items }
    requires ready { IsReady options.now.tab_size bytes.now None events.items }
    ensures events { IfOk result (λ new. HasChildren flow_rules options.now bytes.now None events.items new.items) }
    ensures err { IfErr result (λ unmade. unmade ≡ Unmade.Fault Memory) }
{
    with_ready_children(alloc, &Flow {}, bytes, options, events, None)
}

/// The events of a document with its containers: first its blocks, then their texts and strings, by the labels that the document defines, and
/// then the strings in which destinations, titles and labels stand.
pub(crate) fn read_nested_events(
    alloc: Global,
    bytes: &[u8],
    options: &ParseOptions,
) -> Result<Vec<Event>, Unmade>
    requires limit { IsWithinLimit options.now.tab_size bytes.now }
    ensures events { IfOk result (λ events. AreDocumentEvents options.now bytes.now events.items) }
    ensures err { IfErr result (λ unmade. unmade ≡ Unmade.Fault Memory) }
    ensures formed { IfOk result (λ events. IsWellFormed (document options.now bytes.now) events.items) }
    ensures document { IsDocument (document options.now bytes.now) }
{
    let blocks = read_blocks_and_labels(alloc, bytes, options)?;
    let machine = Inlines {
        labels: blocks.labels,
    };
    with_texts(alloc, bytes, options, blocks.events, &machine)
}

/// The events of a document from its blocks, by the labels that this machine knows.
fn with_texts(
    alloc: Global,
    bytes: &[u8],
    options: &ParseOptions,
    blocks: Vec<Event>,
    machine: &Inlines,
) -> Result<Vec<Event>, Unmade>
    requires limit { IsWithinLimit options.now.tab_size bytes.now }
    requires blocks { AreDocumentBlocks options.now bytes.now blocks.items }
    ensures events { IfOk result (λ events. events.items ≡ document_events_by (defines machine.now.labels) (document options.now bytes.now)) }
    ensures err { IfErr result (λ unmade. unmade ≡ Unmade.Fault Memory) }
{
    is_document(bytes, options);
    let texts = with_inline_text(alloc, bytes, options, blocks, machine)?;
    Ok(with_strings(alloc, &options.constructs, bytes, options.tab_size, texts)?)
}

/// The events with the inline text of each chain of text, and the events of each string, in place of their chunks, by the labels that this machine
/// knows. All chains are texts or strings, so all are read at once.
fn with_inline_text(
    alloc: Global,
    bytes: &[u8],
    options: &ParseOptions,
    events: Vec<Event>,
    machine: &Inlines,
) -> Result<Vec<Event>, Unmade>
    requires limit { IsWithinLimit options.now.tab_size bytes.now }
    requires texts { HasOnlyTexts events.items }
    requires ready { IsReady options.now.tab_size bytes.now None events.items }
    ensures events { IfOk result (λ new. HasChildren (inlines_rules (defines machine.now.labels)) options.now bytes.now None events.items new.items) }
    ensures err { IfErr result (λ unmade. unmade ≡ Unmade.Fault Memory) }
{
    with_ready_children(alloc, machine, bytes, options, events, None)
}

/// The events of a document by the labels that this machine knows, and not by those that the document defines.
pub(crate) fn read_nested_events_by(
    alloc: Global,
    bytes: &[u8],
    options: &ParseOptions,
    machine: &Inlines,
) -> Result<Vec<Event>, Unmade>
    requires limit { IsWithinLimit options.now.tab_size bytes.now }
    ensures events { IfOk result (λ events. events.items ≡ document_events_by (defines machine.now.labels) (document options.now bytes.now)) }
    ensures err { IfErr result (λ unmade. unmade ≡ Unmade.Fault Memory) }
{
    let blocks = read_blocks_and_labels(alloc, bytes, options)?;
    with_texts(alloc, bytes, options, blocks.events, machine)
}
