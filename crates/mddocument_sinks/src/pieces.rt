//! Where a document is cut into pieces that are read apart, and the labels that all of them define.

ghost use Rattle.std.specs.Prelude.{◌≡◌, ◌≤◌, ◌<◌, ◌||◌, All, IfOk, List, OnOk, ℕ, length};
ghost use Rattle.markdown_base.specs.Virtual.{IsWithinLimit, virtual};
ghost use Rattle.markdown_tokenizer.specs.Text.{IsDocument};
ghost use Rattle.mdinline_labels.specs.Defined.{defines};
ghost use Rattle.mdblock_definitions.specs.Labelled.{is_one_of};
ghost use Rattle.mdblock_definitions.specs.Skeleton.{written_labels};
ghost use Rattle.mddocument.specs.DocumentEvents.{is_defined_in};
ghost use Rattle.mddocument.specs.Documents.{document};
ghost use Rattle.mddocument_sinks.specs.Seams.{IsSeam};

use markdown_base::configuration::ParseOptions;
use mdblock_definitions::parts::skeleton_with_definitions;
use mddocument_editing::rests::first_rest;
use mdinline_labels::labels::Labels;
use std::alloc::{AllocError, Global};

/// How many bytes a piece has at least, if it is not the last one. What is read at once takes some thirty times the memory.
const LEAST: usize = 16_384;

/// What is known of a document before it is read.
#[derive(Drop)]
pub(crate) struct Plan {
    /// The labels that it defines.
    pub(crate) labels: Labels,
    /// Where its pieces end, in order.
    pub(crate) seams: Vec<usize>,
}

/// The least index at which a piece may end that begins here, in a document so long.
fn least_end(start: usize, size: usize) -> usize
    requires { start < size }
    ensures some { start < result }
    ensures within { result ≤ size }
{
    if size - start < LEAST {
        size
    } else {
        start + LEAST
    }
}

/// Where the piece from a seam on ends: at the first rest behind as many bytes as a piece has at least, or at the document's end.
fn piece_end(
    alloc: Global,
    bytes: &[u8],
    options: &ParseOptions,
    start: usize,
) -> Result<usize, AllocError>
    requires start { start < length bytes.now }
    requires seam { IsSeam options.now bytes.now start }
    ensures some { IfOk result (λ end. start < end) }
    ensures seam { IfOk result (IsSeam options.now bytes.now) }
{
    let least = least_end(start, bytes.len());
    let mut end = start;
    while end < least {
        let size = first_rest(alloc, &bytes[end..], options)?;
        end += size;
    }
    Ok(end)
}

/// Defines the labels that a piece defines.
fn define_labels(
    alloc: Global,
    labels: &mut Labels,
    options: &ParseOptions,
    piece: &[u8],
) -> Result<(), AllocError>
    requires limit { IsWithinLimit options.now.tab_size piece.now }
    ensures { OnOk result ((label : List ℕ) → defines labels.new label ≡ (is_one_of (written_labels options.now.constructs (virtual options.now.tab_size piece.now)) label || defines labels.old label)) }
{
    let skeleton = skeleton_with_definitions(alloc, piece, options.tab_size, &options.constructs)?;
    labels.define_all(alloc, &skeleton.labels)
}

/// The labels that a document defines, and where its pieces end.
pub(crate) fn plan_of(
    alloc: Global,
    bytes: &[u8],
    options: &ParseOptions,
) -> Result<Plan, AllocError>
    requires document { IsDocument (document options.now bytes.now) }
    ensures labels { IfOk result (λ plan. (label : List ℕ) → defines plan.labels label ≡ is_defined_in (document options.now bytes.now) label) }
    ensures seams { IfOk result (λ plan. All (IsSeam options.now bytes.now) plan.seams.items) }
{
    let mut labels = Labels::new(alloc);
    let mut seams = Vec::new(alloc);
    let mut start = 0;
    while start < bytes.len() {
        let end = piece_end(alloc, bytes, options, start)?;
        define_labels(alloc, &mut labels, options, &bytes[start..end])?;
        seams.push(end)?;
        start = end;
    }
    Ok(Plan { labels, seams })
}
