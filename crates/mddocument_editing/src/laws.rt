//! Laws about the definitions of this crate. Each is a function that does nothing; its contract is the law.

ghost use Rattle.mddocument_editing.specs.Asking.{AskedLabelsAreInBrackets, BracketsDecide, BytesWithoutEndAskNothing};
ghost use Rattle.mddocument_editing.specs.Cuts.{EndingsAreCounted, PartsStartLines};
ghost use Rattle.mddocument_editing.specs.Divided.{DividedIsUnique, EventsOfAllSectionsAreTheDocuments};
ghost use Rattle.mddocument_editing.specs.Edits.{NothingIsNamed};
ghost use Rattle.mddocument_editing.specs.PositionParts.{EndingsAdd, OffsetsMove, OffsetsStay, PositionsMove, PositionsStay};
ghost use Rattle.mddocument_editing.specs.Positions.{CharactersAreAllBytes, CharactersAreUtf8, OffsetsComeBack, PositionsComeBack, UnitsAreWritten};

/// The characters of UTF-8 text are those that std reads from it; in any bytes, each byte is in one character.
pub fn bytes_are_cut_into_characters()
    ensures text { CharactersAreUtf8 }
    ensures all { CharactersAreAllBytes }
{}

/// A character has as many units of UTF-8 and of UTF-16 as std writes for it.
pub fn units_are_written()
    ensures { UnitsAreWritten }
{}

/// The position of a position's byte index is the position, or its line's end, if it is behind that.
pub fn positions_come_back()
    ensures { PositionsComeBack }
{}

/// The byte index of a byte index's position is the byte index, unless it is between CR and LF.
pub fn offsets_come_back()
    ensures { OffsetsComeBack }
{}

/// Where a line starts with the second of two parts, its positions are those that it has alone, further down by the line endings of the
/// first.
pub fn positions_move()
    ensures positions { PositionsMove }
    ensures offsets { OffsetsMove }
    ensures endings { EndingsAdd }
{}

/// Where a line starts with the second of two parts, the positions in the first are those that it has alone.
pub fn positions_stay()
    ensures positions { PositionsStay }
    ensures offsets { OffsetsStay }
{}

/// At a rest the second of two parts starts a line, and the first has the line endings by which its places are moved: so positions move with
/// events.
pub fn cuts_start_lines()
    ensures counted { EndingsAreCounted }
    ensures starts { PartsStartLines }
{}

/// In texts of bytes without `]` no label is looked up, whatever labels are defined.
pub fn bytes_without_end_ask_nothing()
    ensures { BytesWithoutEndAskNothing }
{}

/// What is looked up in the texts of a document is a label, and behind some `[` the bytes agree with it up to its end, where a `]` is, or up to a
/// line ending. So if two sets of labels agree on such labels, its events are the same by both.
pub fn asked_labels_are_in_brackets()
    ensures asked { AskedLabelsAreInBrackets }
    ensures decide { BracketsDecide }
{}

/// The events between section 0 and the number of sections are those of the document.
pub fn events_of_all_sections_are_the_documents()
    ensures { EventsOfAllSectionsAreTheDocuments }
{}

/// An edit that leaves the bytes of a document changes nothing: no section is replaced, and no other has other events.
pub fn an_edit_of_nothing_names_nothing()
    ensures { NothingIsNamed }
{}

/// Two documents with the same bytes, read with the same options, have the same sections. So what an edit leaves is what reading its bytes anew gives.
pub fn the_same_bytes_are_the_same_document()
    ensures { DividedIsUnique }
{}
