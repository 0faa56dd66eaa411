//! Laws about emphasis, and about the classes of characters that it asks for.

ghost use Rattle.mdinline_emphasis.specs.Beside.{PairsBeside};
ghost use Rattle.mdinline_emphasis.specs.Classes.{AsciiHasItsClasses, CharsAreUtf8};
ghost use Rattle.mdinline_emphasis.specs.LawStatements.{EndsTakeMarkers, LeavesBalanced, RunsAreFew};
ghost use Rattle.mdinline_emphasis.specs.RunEdits.{EditsMakeEmphasis, EmphasisCanBeMade};
ghost use Rattle.mdinline_emphasis.specs.Struck.{TildesAreWhole};

/// Emphasis leaves a balanced list.
pub fn emphasis_is_balanced()
    ensures { LeavesBalanced }
{}

/// Of two neighbours among the runs of a text, with their pairs, the first opens none, the second closes none, or they have one marker. So
/// emphasis with no text in it could only lie between two runs of one marker.
pub fn neighbours_of_pairs()
    ensures { PairsBeside }
{}

/// A run of tildes is in no pair, or the whole of it is an end of one strikethrough, by two tildes or, if one counts, by one. So three or more tildes make
/// none, no tilde of a pair is left, and with `gfm_strikethrough_single_tilde` off each run that is in a pair has two.
pub fn tildes_are_whole()
    ensures { TildesAreWhole }
{}

/// One edit for each run makes emphasis: the edits can be made, and leave the events of the definition, balanced.
pub fn edits_make_emphasis()
    ensures { EditsMakeEmphasis }
{}

/// In any balanced list without links the edits of its delimiter runs can be made. They leave the list with emphasis in place of the
/// runs, balanced and without links.
pub fn emphasis_can_be_made()
    ensures { EmphasisCanBeMade }
{}

/// Pairs have no more ends than their runs had markers, for each end takes at least one.
pub fn ends_take_markers()
    ensures { EndsTakeMarkers }
{}

/// The delimiter runs of a text are at most half of its events, and have at most as many markers as the document has bytes, if the events
/// stand in order inside it. So what is linear in runs, markers and events is linear in bytes and events.
pub fn runs_are_few()
    ensures { RunsAreFew }
{}

/// The character with which bytes begin, or end, is the one whose UTF-8 they begin or end with.
pub fn characters_are_utf8()
    ensures { CharsAreUtf8 }
{}

/// The characters of ASCII have the classes that std gives them; but U+0000 is punctuation, as U+FFFD is.
pub fn ascii_has_its_classes()
    ensures { AsciiHasItsClasses }
{}
