//! Laws of what documents are read as, in CommonMark's words. Each is a function that does nothing; its contract is the law.

ghost use Rattle.mddocument_rules.specs.BracketLaws.{EndsAreReferences, EndsHaveBrackets, LabelsAreOne, OwnLabelsAreAsked, WalksAreOne};
ghost use Rattle.mddocument_rules.specs.DefinitionLaws.{DefinitionsOfDocumentsAreLinear, NoDefinitionInADefinition};
ghost use Rattle.mddocument_rules.specs.LinkLaws.{MadeByLabels, MadeByTexts, RunsAreWritten};
ghost use Rattle.mddocument_rules.specs.ListLaws.{ItemsHaveTheMarker, ListsHaveOneMarker, NeighboursDiffer, QuotesAreApart};
ghost use Rattle.mddocument_rules.specs.MarkerLaws.{ListsAreNamedByMarkers, ListsAreOfOneType};
ghost use Rattle.mddocument_rules.specs.ReferenceLaws.{DefinedIsDefined, DefinitionsAreOfSections, DefinitionsHaveLabels, LabelsAreOfSections, LabelsAreWritten, OwnLabelsAreWritten, ReferenceLabelsStay, ReferencesAreDefined, ReferencesOfChainsAreDefined, ReferencesOfTextsAreDefined};
ghost use Rattle.mddocument_rules.specs.SegmentLaws.{AllLinksLeadAlike, LinksLeadAlike};
ghost use Rattle.mddocument_rules.specs.StandingLaws.{BlocksStand, LeafBlocksStand, NoLinkInALink, SkeletonsStand, SpansStand};
ghost use Rattle.mddocument_rules.specs.TextLaws.{EmphasisStands, InlineTextStands, LinksStand, NoLinkInALinkOfText};

/// What may stand in what, of the parts of a document. Leaf blocks stand where blocks may. Of containers and definitions, items stand in lists,
/// and the others in the document itself, in a block quote, in an item or in a footnote definition.
pub fn parts_stand_where_they_may()
    ensures leaf_blocks { LeafBlocksStand }
    ensures skeletons { SkeletonsStand }
{}

/// So it is of all blocks of each document, whatever its bytes and its constructs: each span stands where it may. In a list stand its items, and
/// else only blank lines and what is between lines; other blocks stand in the document itself, in a block quote, in an item or in a footnote
/// definition. Inline text is not read yet.
pub fn blocks_stand_where_they_may()
    ensures { BlocksStand }
{}

/// Emphasis stands in texts: if what is between delimiter runs may stand in each text, so may what emphasis makes of it. And so may a text with links
/// and images in place of its brackets.
pub fn links_and_emphasis_stand_in_texts()
    ensures emphasis { EmphasisStands }
    ensures links { LinksStand }
{}

/// No link is in a link, at any depth, whatever is between the two: not in inline text, whichever labels are defined, and not in a document, whatever its
/// bytes and its constructs. An image may be in a link, and a link in an image.
pub fn no_link_is_in_a_link()
    ensures texts { NoLinkInALinkOfText }
    ensures documents { NoLinkInALink }
{}

/// What may stand in what, of whole documents, whatever their bytes and their constructs. Inline text stands in texts, whichever labels are defined; and
/// each span of a document stands where it may: items in lists, blocks in the document itself, in a block quote, in an item or in a footnote
/// definition, and inline text in paragraphs, in headings and in the texts of emphasis, links and images.
pub fn spans_stand_where_they_may()
    ensures texts { InlineTextStands }
    ensures documents { SpansStand }
{}

/// A list is of items of one type, by the lines of a document. Each item has the marker of the first item of its list, and so two items of one list
/// have one marker. Where an item comes behind another with nothing but blank lines between, they are of one list if their markers are one, and only
/// then.
pub fn lists_are_of_one_type()
    ensures markers { ItemsHaveTheMarker }
    ensures lists { ListsHaveOneMarker }
    ensures neighbours { NeighboursDiffer }
{}

/// Between two block quotes in a row is a blank line.
pub fn quotes_are_apart()
    ensures { QuotesAreApart }
{}

/// A list is of items of one type, by the events of a document's containers: each item has the marker of the list that it stands in. An ordered list
/// has a delimiter, and another list a bullet.
pub fn items_have_the_marker_of_their_list()
    ensures items { ListsAreOfOneType }
    ensures names { ListsAreNamedByMarkers }
{}

/// No link reference definition is in another one, whatever the document's bytes and its constructs. So finding all definitions of a document, as
/// `definitions_of_counted` does, takes at most four turns for each event.
pub fn no_definition_is_in_a_definition()
    ensures documents { NoDefinitionInADefinition }
    ensures linear { DefinitionsOfDocumentsAreLinear }
{}

/// The link reference definitions among the events of a document are those of its sections, in their order: in each is its label, its destination and its
/// title, with their strings read. The label of each is what stands between its brackets. So a document has one definition for each label that it defines.
pub fn definitions_are_those_of_sections()
    ensures sections { DefinitionsAreOfSections }
    ensures strings { LabelsAreOfSections }
    ensures labels { DefinitionsHaveLabels }
{}

/// A label is defined in a document exactly if a definition among its events has it, and the first of these is what `definition_of` gives. The label of each,
/// as it is written among the events, is the one that its lines define, in the form by which labels are compared: so escapes and references stay as they
/// stand, and the prefixes of further lines are no part of it.
pub fn labels_are_those_of_definitions()
    ensures labels { LabelsAreWritten }
    ensures defined { DefinedIsDefined }
{}

/// Brackets are walked over twice, and both walks are one. Items of a text are read by the brackets that wait; links and images are made of them in a fold
/// over spans. Behind each item the same brackets wait in both, and each end that makes a link or an image has one that waits. Behind the last one both have
/// the same spans, if none of them is a bracket. So where a bracket's own label is asked for and is defined, it is that of the spans of which the text of the
/// link is made.
pub fn both_walks_over_brackets_are_one()
    ensures walks { WalksAreOne }
    ensures ends { EndsHaveBrackets }
    ensures labels { LabelsAreOne }
    ensures asked { OwnLabelsAreAsked }
{}

/// Each end that makes a link or an image has a resource behind it; or a label behind it that is defined; or the own label of its bracket is defined. So in a
/// text no link and no image is made by a label that is not.
pub fn ends_of_references_have_defined_labels()
    ensures { EndsAreReferences }
{}

/// A link or an image that is made of a bracket, a text and an end leads to the label that its text is, as it is written, if neither a resource nor a label is
/// behind it; and with a full reference behind it to the label that stands there.
pub fn made_references_lead_to_their_texts()
    ensures texts { MadeByTexts }
    ensures labels { MadeByLabels }
{}

/// Emphasis keeps what is written: what it puts in the place of a delimiter run gives the bytes of the run.
pub fn emphasis_keeps_what_is_written()
    ensures { RunsAreWritten }
{}

/// A reference in inline text has a label that is defined, whichever labels are: each link and each image without a resource leads to one. If it is the own label
/// of the link, that is the text of the link as it is written, with its delimiter runs as they stand; and the label of a full reference stays as it is written,
/// where strings are read. So each reference in the text of a paragraph or a heading of a document has a definition among the document's events.
pub fn references_of_texts_are_defined()
    ensures labels { OwnLabelsAreWritten }
    ensures strings { ReferenceLabelsStay }
    ensures texts { ReferencesOfTextsAreDefined }
    ensures chains { ReferencesOfChainsAreDefined }
{}

/// Each reference in a document has a definition in it: a link or an image without a resource leads to a label that a link reference definition among the
/// document's events has, whatever the document's bytes and its constructs, in whatever containers its text stands, and with its strings read.
pub fn references_are_defined()
    ensures { ReferencesAreDefined }
{}

/// Where some events stand in place of others that are written alike, where labels are compared, a link leads to the same label: neither prefixes between the lines
/// of its text change it, nor that strings are read. So it is of all links and images among events.
pub fn links_lead_to_what_is_written()
    ensures links { LinksLeadAlike }
    ensures all { AllLinksLeadAlike }
{}
