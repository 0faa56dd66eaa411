//! Laws about leaf blocks, which have no states. Each is a function that does nothing; its contract is the law.

ghost use Rattle.mdblock_leaf_blocks.specs.BlockLines.{LinesAreInBlocks};
ghost use Rattle.mdblock_leaf_blocks.specs.BlocksFormed.{BlocksAreFormed};
ghost use Rattle.mdblock_leaf_blocks.specs.BlocksRead.{AreLines, BlankLinesAreRead, BreaksAreRead, FencedCodeIsRead, HeadingsAreRead, HtmlIsRead, IndentedCodeIsRead, ParagraphsAreRead, SetextHeadingsAreRead};
ghost use Rattle.mdblock_leaf_blocks.specs.BlocksTold.{EditsMakeBlocks};
ghost use Rattle.mdblock_leaf_blocks.specs.ChunksJoin.{BlocksJoin, BlocksMeet};
ghost use Rattle.mdblock_leaf_blocks.specs.FlowAccounts.{FlowAccounts};
ghost use Rattle.mdblock_leaf_blocks.specs.FlowEnds.{FlowEnds};
ghost use Rattle.mdblock_leaf_blocks.specs.FlowRead.{FlowIsRead};
ghost use Rattle.mdblock_leaf_blocks.specs.LooksFind.{HtmlIsSeen, LinesAreSeen};
ghost use Rattle.mdblock_leaf_blocks.specs.ToldChunks.{EditsGiveNames};
ghost use Rattle.mdconstructs_machines.specs.LineEvents.{lines_in};
ghost use Rattle.markdown_base.specs.Virtual.{Seat};
ghost use Rattle.std.specs.Prelude.{List};

/// The look behind a less-than sign finds which kind of HTML the line begins.
pub fn html_is_seen()
    ensures { HtmlIsSeen }
{}

/// The look at a line finds what the line is, and writes it down.
pub fn lines_are_seen()
    ensures { LinesAreSeen }
{}

/// The lines of a text are lines: each ends in its line ending, but for the last.
pub fn lines_are_lines()
    ensures { (seats : List Seat) → AreLines (lines_in seats) }
{}

/// Each line is in exactly one leaf block, in order.
pub fn lines_are_in_blocks()
    ensures { LinesAreInBlocks }
{}

/// A blank line with white space is read as its definition says, with its line ending, or at the end of the text.
pub fn blank_lines_are_read()
    ensures { BlankLinesAreRead }
{}

/// Thematic breaks are read as their definition says, also where the line could be an underline.
pub fn breaks_are_read()
    ensures { BreaksAreRead }
{}

/// ATX headings are read as their definition says.
pub fn headings_are_read()
    ensures { HeadingsAreRead }
{}

/// Paragraphs are read as their definition says.
pub fn paragraphs_are_read()
    ensures { ParagraphsAreRead }
{}

/// Setext headings are read as their definition says, and the edits that name them come to wait.
pub fn setext_headings_are_read()
    ensures { SetextHeadingsAreRead }
{}

/// Indented code is read as its definition says.
pub fn indented_code_is_read()
    ensures { IndentedCodeIsRead }
{}

/// Fenced code is read as its definition says, closed or open.
pub fn fenced_code_is_read()
    ensures { FencedCodeIsRead }
{}

/// HTML of each kind is read as its definition says, closed or open.
pub fn html_is_read()
    ensures { HtmlIsRead }
{}

/// The edits of a setext heading give marks their names, and links lead to where their events are then.
pub fn edits_give_names()
    ensures { EditsGiveNames }
{}

/// Leaf blocks as they are read, with the edits of setext headings, are leaf blocks as they are defined.
pub fn edits_make_blocks()
    ensures { EditsMakeBlocks }
{}

/// Any text is read as its leaf blocks are told.
pub fn flow_is_read()
    ensures { FlowIsRead }
{}

/// The reading of any text ends well, and with the edits made its events are those of its leaf blocks.
pub fn readings_end_as_blocks()
    ensures { FlowEnds }
{}

/// Each virtual byte of a text is in exactly one innermost span of its leaf blocks.
pub fn leaf_blocks_account_for_each_byte()
    ensures { FlowAccounts }
{}

/// The events of a text's leaf blocks are well formed, whatever gaps it has, and so they are before the edits of setext headings.
pub fn leaf_blocks_are_well_formed()
    ensures { BlocksAreFormed }
{}

/// In the events of leaf blocks the chunk of each line of text stands directly before that of the next line. In a document it ends where that
/// one begins; in a text there may be a gap between the two.
pub fn chunks_of_leaf_blocks_join()
    ensures documents { BlocksJoin }
    ensures texts { BlocksMeet }
{}
