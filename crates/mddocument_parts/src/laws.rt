//! Laws about leaf blocks and documents at rests. Each is a function that does nothing; its contract is the law.

ghost use Rattle.mddocument_parts.specs.Asked.{AskedLabelsMove, LabelsDecide};
ghost use Rattle.mddocument_parts.specs.BothDocuments.{DocumentBlocksOfBoth, DocumentEventsOfBoth, DocumentLabelsDecide, DocumentSectionsGiveEvents};
ghost use Rattle.mddocument_parts.specs.DocumentLabels.{LabelsOfBoth, LettersOfBoth};
ghost use Rattle.mddocument_parts.specs.DocumentRests.{DocumentFirstLineTells, DocumentRestsForget, DocumentRestsOfBoth, DocumentRowsOfBoth, RowsMove, RowsOfBoth, StretchesGoOnAtTop};
ghost use Rattle.mddocument_parts.specs.Moved.{BlocksMove, BlocksOfBoth, EventsOfBoth, LinesAreCounted, LinesOfBoth, VirtualOfBoth};
ghost use Rattle.mddocument_parts.specs.MovedSections.{MarksOfBoth, SectionsMove, SectionsOfBoth, SkeletonOfBoth};
ghost use Rattle.mddocument_parts.specs.ReadTexts.{FlowInlinesOfBoth, InlinesMove, ReadEventsOfBoth, StringsMove};
ghost use Rattle.mddocument_parts.specs.Rests.{RestsCutBlocks, RestsForget, WideRestsCutBlocks};
ghost use Rattle.mddocument_parts.specs.Sections.{FirstLineTells, RestsOfBoth, SectionsGiveEvents, SectionsGiveInlines};
ghost use Rattle.mddocument_parts.specs.WithoutContainers.{DocumentsWithoutContainers, NoneBeginsWhereOff};

/// At a rest leaf blocks are cut apart.
pub fn rests_cut_blocks()
    ensures { RestsCutBlocks }
{}

/// At a wider rest leaf blocks are cut apart.
pub fn wide_rests_cut_blocks()
    ensures { WideRestsCutBlocks }
{}

/// Behind a rest what comes before it is forgotten.
pub fn rests_forget()
    ensures { RestsForget }
{}

/// Virtual bytes of a document are those of its parts, moved, if the second begins a line.
pub fn virtual_of_both()
    ensures { VirtualOfBoth }
{}

/// Lines of a document are those of its parts, moved, if the second begins a line.
pub fn lines_of_both()
    ensures { LinesOfBoth }
{}

/// The first part has as many lines as line endings.
pub fn lines_are_counted()
    ensures { LinesAreCounted }
{}

/// Moved lines are cut into the same leaf blocks, moved.
pub fn blocks_move()
    ensures { BlocksMove }
{}

/// Leaf blocks of a document are those of its parts, moved, if the second begins at a rest.
pub fn blocks_of_both()
    ensures { BlocksOfBoth }
{}

/// Events of leaf blocks of a document are those of its parts, moved, if the second begins at a rest.
pub fn events_of_both()
    ensures { EventsOfBoth }
{}

/// What comes behind bytes that end a line does not matter for whether they begin at a rest.
pub fn first_line_tells()
    ensures { FirstLineTells }
{}

/// Behind a rest what comes before it is forgotten, as bytes.
pub fn rests_of_both()
    ensures { RestsOfBoth }
{}

/// The events of sections, each read by itself and moved, are the events of the document.
pub fn sections_give_events()
    ensures { SectionsGiveEvents }
{}

/// Events of leaf blocks with texts read by any reading that moves are those of the parts, moved.
pub fn read_events_of_both()
    ensures { ReadEventsOfBoth }
{}

/// Inline text of a part of a document is read as in the part alone, and moved, whatever labels are defined.
pub fn inlines_move()
    ensures { InlinesMove }
{}

/// Strings of a part of a document are read as in the part alone, and moved.
pub fn strings_move()
    ensures { StringsMove }
{}

/// Events of leaf blocks with inline text and strings are those of the parts, moved.
pub fn flow_inlines_of_both()
    ensures { FlowInlinesOfBoth }
{}

/// The events of sections with inline text and strings, each read by itself and moved, are those of the document.
pub fn sections_give_inlines()
    ensures { SectionsGiveInlines }
{}

/// Which labels are defined matters to inline text for those alone that are looked up while it is read.
pub fn labels_decide()
    ensures { LabelsDecide }
{}

/// The labels that are looked up in inline text of a part of a document are those in the part alone.
pub fn asked_labels_move()
    ensures { AskedLabelsMove }
{}

/// A document in which no line begins a block quote, a list item or a footnote definition, and none has a bracket in front, is read as its leaf
/// blocks are, with their chunks, and with their texts and strings read, and then the strings in which destinations, titles and labels
/// stand. No line begins one of these where they are off; and where definitions are off, brackets may be in front.
pub fn documents_without_containers()
    ensures read { DocumentsWithoutContainers }
    ensures off { NoneBeginsWhereOff }
{}

/// Moved lines have the same containers, moved.
pub fn rows_move()
    ensures { RowsMove }
{}

/// Lines with containers, and with definitions, are cut apart at a rest of a document.
pub fn rows_of_both()
    ensures { RowsOfBoth }
{}

/// Behind a rest of a document what comes before it is forgotten.
pub fn document_rests_forget()
    ensures { DocumentRestsForget }
{}

/// The lines of a document with their containers are those of its parts, moved, if the second begins at a rest of the document.
pub fn document_rows_of_both()
    ensures { DocumentRowsOfBoth }
{}

/// Whether bytes begin at a rest of a document is told at the end of their first line.
pub fn document_first_line_tells()
    ensures { DocumentFirstLineTells }
{}

/// Behind a rest of a document what comes before it is forgotten, as bytes.
pub fn document_rests_of_both()
    ensures { DocumentRestsOfBoth }
{}

/// The labels that a document defines are those of its parts, if the second begins at a rest of the document.
pub fn labels_of_both()
    ensures { LabelsOfBoth }
{}

/// The bytes of a document of which leaf blocks are read as of letters are those of its parts, moved.
pub fn letters_of_both()
    ensures { LettersOfBoth }
{}

/// Moved lines have the same sections, moved.
pub fn sections_move()
    ensures { SectionsMove }
{}

/// The sections of a document are those of its parts, moved, if the second begins at a rest and goes on with no stretch of lines.
pub fn sections_of_both()
    ensures { SectionsOfBoth }
{}

/// The marks of a document's skeleton are those of its parts, if the second begins at a rest and goes on with no stretch of lines.
pub fn marks_of_both()
    ensures { MarksOfBoth }
{}

/// The skeleton of a document is that of its parts, if the second begins at a rest and goes on with no stretch of lines.
pub fn skeleton_of_both()
    ensures { SkeletonOfBoth }
{}

/// A line at a rest of a document goes on with a stretch of lines before it only where no container is open.
pub fn stretches_go_on_at_top()
    ensures { StretchesGoOnAtTop }
{}

/// Blocks stand alone: those of a document are those of its parts, moved, if the second begins at a rest of the document.
pub fn document_blocks_of_both()
    ensures { DocumentBlocksOfBoth }
{}

/// The events of a document are those of its parts, moved, if the second begins at a rest of the document; whatever labels are defined.
pub fn document_events_of_both()
    ensures { DocumentEventsOfBoth }
{}

/// The events of a document's sections, each read by itself with the document's labels, and moved, are those of the document.
pub fn document_sections_give_events()
    ensures { DocumentSectionsGiveEvents }
{}

/// If two sets of labels agree on those that are looked up in a document's texts, its events are the same by both. So if a label comes or goes, only
/// sections that ask for it are to be read again.
pub fn document_labels_decide()
    ensures { DocumentLabelsDecide }
{}
