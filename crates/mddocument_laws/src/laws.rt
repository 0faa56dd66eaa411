//! Laws of whole documents. Each is a function that does nothing; its contract is the law.

ghost use Rattle.mddocument_laws.specs.BlockPlaces.{BlocksStandInLines, LeafBlocksStandInTexts};
ghost use Rattle.mddocument_laws.specs.EmphasisLaws.{DocumentsHaveSpansOfPairs, DocumentsHaveSpansOfTexts, PairsAreOfRuns, RunsAreApart, RunsHaveMarkers, StrikethroughIsOfTildes, TextsHaveSpansOfPairs};
ghost use Rattle.mddocument_laws.specs.LineStarts.{BlankStartsNothing, HtmlExcludes, KindsHaveNoOrder, StartsExclude};
ghost use Rattle.mddocument_laws.specs.NamesOff.{DocumentsAreNamed, InlinesAreNamed, LeafBlocksAreNamed, OffIsLeftOut, SkeletonsAreNamed, StringsAreNamed};
ghost use Rattle.mddocument_laws.specs.Ranks.{EachHeadingTellsItsRank, HeadingsHaveRanks, HeadingsTellTheirRanks};
ghost use Rattle.mddocument_laws.specs.ReferencePlaces.{ReferencesAreSpelled, ReferencesAreWritten, ReferencesOfDocumentsEnd, ReferencesOfDocumentsStand, ReferencesOfInlinesStand, ReferencesOfStringsStand};

/// A construct that is off leaves no span: each event of leaf blocks, of strings, of inline text, and of containers and definitions has a name
/// of the constructs that are on. Which names these are is a table of its own.
pub fn parts_have_names_of_constructs()
    ensures leaf_blocks { LeafBlocksAreNamed }
    ensures strings { StringsAreNamed }
    ensures inline_text { InlinesAreNamed }
    ensures skeletons { SkeletonsAreNamed }
{}

/// So it is of each document, whatever its bytes, its tab stops and its constructs: each event has a name of the constructs that are on, and a name
/// that they leave out stands at no event.
pub fn documents_have_names_of_constructs()
    ensures on { DocumentsAreNamed }
    ensures off { OffIsLeftOut }
{}

/// The events of each document tell the ranks of its headings, in their order, whatever stands in their texts and in which containers they are: of an ATX
/// heading the span of its first sequence of signs has as many bytes as its rank, and of a setext heading the byte at its underline is `=` or `-`.
/// So what is behind each event that enters a heading tells a rank from 1 to 6.
pub fn documents_tell_ranks_of_headings()
    ensures ranks { HeadingsTellTheirRanks }
    ensures within { HeadingsHaveRanks }
    ensures each { EachHeadingTellsItsRank }
{}

/// Each event of a string, and of inline text, that enters a character reference stands where the text goes on with one, whatever links, images and
/// emphasis are around it. So from each event of a document that enters one, its bytes go on with `&`, `&#` or `&#x`, a name that stands for
/// characters or digits, and `;`.
pub fn character_references_are_where_they_are_entered()
    ensures strings { ReferencesOfStringsStand }
    ensures inline_text { ReferencesOfInlinesStand }
    ensures documents { ReferencesOfDocumentsStand }
    ensures written { ReferencesAreWritten }
{}

/// From each event of a document that enters a character reference, the events go on with all those of that reference, side by side: its markers, its
/// value and `;`, each where its bytes stand in the line; and its exit, directly behind `;`. So the document's bytes from the place of the enter to
/// that of the exit are the reference, `&`, `&#` or `&#x`, a value and `;`; and those of the span of the value tell which characters it stands for.
pub fn character_references_end_behind_their_semicolon()
    ensures documents { ReferencesOfDocumentsEnd }
    ensures spelled { ReferencesAreSpelled }
{}

/// A line begins with one thing at most: an ATX heading, a fence, HTML, a thematic break, an underline, a block quote, a list item or a footnote
/// definition; but for thematic breaks, underlines of dashes and list items, of which CommonMark says which comes first. A blank line begins with
/// none. HTML is of one kind, but that a tag whose name has a kind of its own may also be any tag. So it does not matter in which order kinds of
/// lines are asked for.
pub fn line_starts_exclude_one_another()
    ensures starts { StartsExclude }
    ensures blank { BlankStartsNothing }
    ensures html { HtmlExcludes }
    ensures order { KindsHaveNoOrder }
{}

/// Each event of a leaf block stands where a virtual byte of the block's lines begins or ends; so each event of a text's leaf blocks stands in
/// the text.
pub fn leaf_blocks_stand_in_their_lines()
    ensures blocks { BlocksStandInLines }
    ensures texts { LeafBlocksStandInTexts }
{}

/// Each span of emphasis, strong emphasis and strikethrough in the events of a document comes from a pair of delimiter runs of the text in which it
/// stands: it begins with bytes of the one run, and ends with bytes of the other. And each pair of each text makes one such span. The texts have their
/// spans one behind another. Which runs of a text pair among themselves is by its links and images, and what they pair to is by CommonMark's
/// procedure. A pair makes strikethrough only if both runs are of tildes, of one or of two, as many in both; of two, if one tilde does not count.
pub fn emphasis_is_of_pairs()
    ensures runs { PairsAreOfRuns }
    ensures markers { RunsHaveMarkers }
    ensures tildes { StrikethroughIsOfTildes }
    ensures texts { TextsHaveSpansOfPairs }
    ensures in_turn { DocumentsHaveSpansOfTexts }
    ensures documents { DocumentsHaveSpansOfPairs }
{}

/// Links and images take the delimiter runs of a text apart: runs of one part pair among themselves. Each run of the text is in one part, and in
/// one alone; and in each part they stand in their order.
pub fn runs_are_apart()
    ensures { RunsAreApart }
{}
