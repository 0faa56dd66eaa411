//! Laws about what links lead to. Each is a function that does nothing; its contract is the law.

ghost use Rattle.std.specs.Prelude.{◌≡◌, map};
ghost use Rattle.mddocument_link_targets.specs.Costs.{DefinitionsAreFoundInLinearTime};
ghost use Rattle.mddocument_link_targets.specs.Examples.{decoded_strings, definitions, inline_links, read_of, references, targets, told_targets};
ghost use Rattle.mddocument_link_targets.specs.Spans.{SpansEndAtTheirExits};

/// What links and images of twelve documents lead to: what their resources say, or the labels that they are looked up by.
pub fn targets_of_links()
    ensures inline { targets inline_links ≡ told_targets inline_links }
    ensures references { targets references ≡ told_targets references }
    ensures strings { targets decoded_strings ≡ told_targets decoded_strings }
{}

/// Where four labels are defined, and what is said there.
pub fn definitions_of_labels()
    ensures { map read_of definitions ≡ definitions }
{}

/// What is in a span are the balanced events between its enter and its exit, and behind it is what is behind its exit.
pub fn spans_end_at_their_exits()
    ensures { SpansEndAtTheirExits }
{}

/// Where no definition is in a definition, as in the events of documents, `definitions_of_counted` takes at most four turns for each event.
pub fn definitions_are_found_in_linear_time()
    ensures { DefinitionsAreFoundInLinearTime }
{}
