//! The laws about documents. Each is a function that does nothing; its contract is the law.

ghost use Rattle.mddocument.specs.BlockChains.{LeafBlocksCanBeReadNext, LeafBlocksOfTextsAreReadable, ReadsChainsAsLeafBlocks};
ghost use Rattle.mddocument.specs.Documents.{ChainsAreReadable};
ghost use Rattle.mddocument.specs.FlowTextLaws.{InlinesAccount, InlinesAreFormed, InlinesAreRead, InlinesAreReadAtOnce};
ghost use Rattle.mddocument.specs.Tiles.{TilesDocuments};
ghost use Rattle.mddocument.specs.declared.choice.Which.TheVariants.{Document, Flow, Lines, Paragraphs, Text};

use mdinline_text_machine::laws::innermost_spans_account_for_children;

/// The innermost spans of what the program prints tile the document: each begins where the one before it ends, the first at the
/// first byte, the last ends at the document's end, and each virtual byte is in exactly one of them.
pub fn innermost_spans_tile_documents()
    ensures lines { TilesDocuments Lines }
    ensures paragraphs { TilesDocuments Paragraphs }
    ensures text { TilesDocuments Text }
    ensures flow { TilesDocuments Flow }
{
    innermost_spans_account_for_children();
}

/// So do those of a document with block quotes and lists, flat or deep: each virtual byte is in exactly one of them, be it of a container's
/// prefix, of a leaf block, or of a text; and no container is empty.
pub fn innermost_spans_tile_documents_with_containers()
    ensures { TilesDocuments Document }
{}

/// The events that `Flow` makes of a document have chains of text that can be read: `ready` returns true for them, and `subtokenize` may
/// be called. So have those of any text, and no void span of them goes over a gap.
pub fn chains_of_leaf_blocks_can_be_read()
    ensures documents { ChainsAreReadable }
    ensures texts { LeafBlocksOfTextsAreReadable }
{}

/// Of a list whose chains of content can be read, `subtokenize` with `Flow` replaces each chain by the leaf blocks of its text: what a definition
/// without states says of the text's lines.
pub fn reads_chains_as_leaf_blocks()
    ensures { ReadsChainsAsLeafBlocks }
{}

/// That list is then ready for text and for strings, and for whatever else it was ready before, without a test.
pub fn leaf_blocks_can_be_read_next()
    ensures { LeafBlocksCanBeReadNext }
{}

/// Where the texts of leaf blocks are read as inline text, each stands in its block, and so do links, images and emphasis: the list with the
/// events of each chain's text in place of its chunks is what a definition says of the lines, whatever gaps are between these. It has
/// neither chains nor parts.
pub fn inline_texts_stand_in_their_blocks()
    ensures { InlinesAreRead }
{}

/// All chains of leaf blocks may be read at once, by one `subtokenize` with no filter: the list is as if chains of text were read first, and
/// then strings.
pub fn inline_texts_and_strings_are_read_at_once()
    ensures { InlinesAreReadAtOnce }
{}

/// The events of a text's leaf blocks with inline text are well formed: links, images and emphasis keep places in order, and each of their
/// own is one of the document.
pub fn inline_texts_in_their_blocks_are_well_formed()
    ensures { InlinesAreFormed }
{}

/// Each virtual byte of a text is in exactly one innermost span of the events of its leaf blocks with inline text: what is put in
/// place of brackets and delimiter runs loses no byte, and no span of it is empty.
pub fn inline_texts_in_their_blocks_account_for_each_byte()
    ensures { InlinesAccount }
{}
