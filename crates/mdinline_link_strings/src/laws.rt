//! Laws about strings. Each is a function that does nothing; its contract is the law.

ghost use Rattle.mdinline_link_strings.specs.Laws.{DataIsReadAsString, PlainStringsStay, StringsKeepInnermostSpans, StringsKeepLists, StringsKeepOrder, StringsStandAtPlaces, StringsStayWellFormed};

/// Where strings are read, a balanced list of events stays balanced, a list without links has none, and void spans stay empty.
pub fn strings_keep_lists()
    ensures { StringsKeepLists }
{}

/// Where strings are read, events stand at places of the document, if they did before.
pub fn strings_stand_at_places()
    ensures { StringsStandAtPlaces }
{}

/// Where strings are read, events at places of the document stay in the order of these.
pub fn strings_keep_order()
    ensures { StringsKeepOrder }
{}

/// Where strings are read, well formed events stay so: balanced, void spans empty, at places, and in the order of these.
pub fn strings_stay_well_formed()
    ensures { StringsStayWellFormed }
{}

/// Where strings are read, each virtual byte of the document stays in exactly one innermost span, if it was.
pub fn strings_keep_innermost_spans()
    ensures { StringsKeepInnermostSpans }
{}

/// Data that stands in a string for virtual bytes of a document comes to be what these bytes are as a string.
pub fn data_is_read_as_string()
    ensures { DataIsReadAsString }
{}

/// Where no line feed, no backslash and no `&` is in the data of strings, nothing changes.
pub fn plain_strings_stay()
    ensures { PlainStringsStay }
{}
