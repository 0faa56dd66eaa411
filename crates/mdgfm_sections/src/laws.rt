//! Laws of what GFM adds to documents by sections. Each is a function that does nothing; its contract is the law.

ghost use Rattle.mdgfm_sections.specs.Notes.{NotesDecide, NotesGiveEvents, NotesOfEvents, NotesOfSections};
ghost use Rattle.mdgfm_sections.specs.LinkLaws.{NoneIsInLinks};
ghost use Rattle.mdgfm_sections.specs.Parts.{BytesBehindDoNothing, GfmOfBoth, GfmOfParts, GfmOfSections, TasksMove, TasksOfParts};

/// Checks of task list items of a part of a document are those of the document there.
pub fn tasks_of_parts()
    ensures moved { TasksMove }
    ensures behind { BytesBehindDoNothing }
    ensures parts { TasksOfParts }
{}

/// Checks, calls of footnotes and literals of a document whose events are those of two parts are those of the parts, each rewritten alone.
pub fn gfm_of_parts()
    ensures { GfmOfParts }
{}

/// So those of a document that is cut at a rest are those of its parts, whatever labels are defined and noted.
pub fn gfm_of_both()
    ensures { GfmOfBoth }
{}

/// And those of a document are those of its sections.
pub fn gfm_of_sections()
    ensures { GfmOfSections }
{}

/// The footnote definitions of a document are those of its skeleton, whatever labels of links are defined. So its events with what GFM adds are those by the
/// labels of its own definitions.
pub fn notes_of_events()
    ensures labels { NotesOfEvents }
    ensures events { NotesGiveEvents }
{}

/// The labels of the footnote definitions of a document are those of its sections.
pub fn notes_of_sections()
    ensures { NotesOfSections }
{}

/// If two sets of labels agree on those that stand where a call may be, events are the same by both. So if a label comes or goes, only sections that may call
/// it are to be read again.
pub fn notes_decide()
    ensures { NotesDecide }
{}

/// No call of a footnote and no autolink literal of a document is in a link: its own events have none.
pub fn no_call_is_in_a_link()
    ensures { NoneIsInLinks }
{}
