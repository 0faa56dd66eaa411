//! Laws about documents with link reference definitions and tables. Each is a function that does nothing; its contract is the law.

ghost use Rattle.std.specs.Prelude.{◌≡◌, map};
ghost use Rattle.mdblock_definitions.specs.Examples.{read_of, links_of_document, links_of_stretches, white_in_string, with_strings, parts_of_definitions, where_definitions_stand, text_behind_definitions, definitions_in_containers};
ghost use Rattle.mdblock_definitions.specs.Laws.{BlocksCanBeWithout, BlocksNeedBrackets, DefinitionsCanBeOff, DefinitionsNeedBrackets, SectionsHoldLines, TablesCanBeOff};
ghost use Rattle.mdblock_definitions.specs.SkeletonLaws.{LettersArePlain, SkeletonsAccount, SkeletonsAreFormed, SkeletonsAreReady, SkeletonsAreVoidTight, SkeletonsHaveChunks, SkeletonsHaveOneContent, SkeletonsHaveTextInGaps};

/// What is read of fifty-one documents: the events of their skeletons, the labels that they define, and the bytes that are shown as letters.
pub fn definitions_of_documents()
    ensures parts { map (λ e. read_of e.document) parts_of_definitions ≡ parts_of_definitions }
    ensures places { map (λ e. read_of e.document) where_definitions_stand ≡ where_definitions_stand }
    ensures text { map (λ e. read_of e.document) text_behind_definitions ≡ text_behind_definitions }
    ensures containers { map (λ e. read_of e.document) definitions_in_containers ≡ definitions_in_containers }
{}

/// The chunks of a skeleton are those of its stretches alone: the strings of definitions have none. White space in front of a further line of a string
/// is no data.
pub fn only_stretches_are_chunks()
    ensures chunks { links_of_document with_strings ≡ links_of_stretches }
    ensures white { read_of white_in_string.document ≡ white_in_string }
{}

/// Where tables are off, the sections of a document are those of definitions alone.
pub fn tables_can_be_off()
    ensures { TablesCanBeOff }
{}

/// Where definitions and tables are off, the skeleton, the letters and the blocks of a document are those of containers alone, and no label is defined.
pub fn definitions_can_be_off()
    ensures skeleton { DefinitionsCanBeOff }
    ensures blocks { BlocksCanBeWithout }
{}

/// Each line of a document is in exactly one section, and sections are in the order of lines.
pub fn sections_hold_lines()
    ensures { SectionsHoldLines }
{}

/// Where tables are off, of a document no line of which has a bracket in front, behind its prefixes and white space, the skeleton, the letters and the blocks are those
/// of containers alone, and no label is defined.
pub fn definitions_need_brackets()
    ensures skeleton { DefinitionsNeedBrackets }
    ensures blocks { BlocksNeedBrackets }
{}

/// The letters with which leaf blocks are read of lazy underlines, and of text directly behind definitions, stand at bytes that are no tab and no
/// part of a line ending.
pub fn letters_are_plain()
    ensures { LettersArePlain }
{}

/// Void spans of skeletons are empty: each is entered, and exited at once. Each event with a link is such a span's enter.
pub fn void_spans_of_skeletons_are_empty()
    ensures empty { SkeletonsAreVoidTight }
    ensures chunks { SkeletonsHaveChunks }
{}

/// The skeleton of a document is well formed: balanced, void spans empty, at places of the document, and in order of these.
pub fn skeletons_are_well_formed()
    ensures { SkeletonsAreFormed }
{}

/// The chains of a document's skeleton can be read, all as leaf blocks: each chunk that is linked to another stands before it, and between the two
/// is text of one line, from its beginning on, with whole spans over it.
pub fn chains_of_skeletons_can_be_read()
    ensures content { SkeletonsHaveOneContent }
    ensures ready { SkeletonsAreReady }
    ensures gaps { SkeletonsHaveTextInGaps }
{}

/// Each virtual byte of a document is in exactly one innermost span of its skeleton: none is lost between the parts of a definition, between the
/// prefixes of a line and its chunk, or between two lines of a string.
pub fn innermost_spans_of_skeletons_account_for_documents()
    ensures { SkeletonsAccount }
{}
