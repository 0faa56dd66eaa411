//! Laws about the machine of inline text, whatever its labels define. Each is a function that does nothing; its contract is the law.

ghost use Rattle.std.specs.Prelude.{ℕ, [], ◌∷◌, ◌+◌, ◌*◌, Bool, List};
ghost use Rattle.markdown_base.specs.declared.state.TheConstants.Name.{StringStart, TextStart};
ghost use Rattle.markdown_tokenizer.specs.Alike.{LooksNoFurther};
ghost use Rattle.mdconstructs_tables.specs.Refusals.{RulesRefuseNothing};
ghost use Rattle.mdconstructs_machines.specs.Costs.{StartsAmong};
ghost use Rattle.mdinline_machine.specs.InlineRules.{inlines_rules};
ghost use Rattle.mdinline_machine.specs.LawStatements.{AreTriedAtListed, BracketsAreListed, ConstructsAreListed, DataEndsAtListed, HaveTheirClasses, MakesLinks, ReadsChainsAsInlineText, ReadsChainsAsStrings, ReadsInlineText, ReadsStrings, RunsAreListed, RunsWithin, StaysReadyAfterInlineText, StaysReadyAfterStrings, TildesAreData};

/// The machine has two starts, one for texts and one for strings. This is how many calls it takes at most from each, on n virtual bytes.
pub fn cost_at_the_start()
    ensures text { (defined : List ℕ → Bool) → StartsAmong (inlines_rules defined) (TextStart ∷ StringStart ∷ []) TextStart (λ n. 4 * n * n + 20 * n + 9) }
    ensures string { (defined : List ℕ → Bool) → StartsAmong (inlines_rules defined) (TextStart ∷ StringStart ∷ []) StringStart (λ n. 4 * n * n + 9 * n + 2) }
{}

/// No reading by the machine ends in a message, whatever the text and the state: it makes events of every document.
pub fn no_document_is_refused()
    ensures { (defined : List ℕ → Bool) → RulesRefuseNothing (inlines_rules defined) }
{}

/// A run that resolves returns the events that were read, with links, images and emphasis in place of their brackets and delimiter runs.
pub fn links_take_the_place_of_brackets()
    ensures { MakesLinks }
{}

/// Inline text is what its definition says: a run that resolves returns `inline_events` of the document, and one that does not, the events
/// that are read. The definition has no states.
pub fn inline_text_is_read()
    ensures { ReadsInlineText }
{}

/// Inline text is read in linear time: a run from the start of texts on n virtual bytes makes at most 374 n + 4 calls, whatever the bytes
/// are. What was looked for to the end in vain is remembered, and not looked for again; and all looks for tails of links together are
/// linear.
pub fn inline_text_is_linear()
    ensures { RunsWithin TextStart (λ n. 374 * n + 4) }
{}

/// If the chains of text of a list can be read, `subtokenize` with `Inlines` replaces each chunk by its part of the inline text of the
/// chain: links and emphasis go over the lines of a paragraph.
pub fn chains_are_read_as_inline_text()
    ensures { ReadsChainsAsInlineText }
{}

/// If a list is ready for texts and for another content, it stays ready for that one where its texts were read as inline text.
pub fn other_chains_stay_ready_after_inline_text()
    ensures { StaysReadyAfterInlineText }
{}

/// A string is what its definition says: a run from the start of strings returns `string_events` of the document, whether it resolves or
/// not. The definition has no states.
pub fn strings_are_read()
    ensures { ReadsStrings }
{}

/// Strings are read in linear time: a run from their start on n virtual bytes makes at most 87 n + 2 calls, whatever the bytes are.
pub fn strings_are_linear()
    ensures { RunsWithin StringStart (λ n. 87 * n + 2) }
{}

/// If the chains of strings of a list can be read, `subtokenize` with `Inlines` replaces each chunk by its part of the string that the
/// chain is.
pub fn chains_are_read_as_strings()
    ensures { ReadsChainsAsStrings }
{}

/// If a list is ready for strings and for another content, it stays ready for that one where its strings were read.
pub fn other_chains_stay_ready_after_strings()
    ensures { StaysReadyAfterStrings }
{}

/// The machine looks no further than the byte that waits: of a document its tests take the options alone. So a tokenizer that it drives
/// can go on in another document that begins alike.
pub fn inline_text_looks_no_further()
    ensures { (defined : List ℕ → Bool) → LooksNoFurther (inlines_rules defined) }
{}

/// Which bytes begin something in inline text is said by one list, `beginnings`: it has the option and the class of each, and by it go the
/// constructs, the bytes at which the machine tries them, delimiter runs, brackets, and where data ends. So does the set of bytes that data
/// reads over (`is_in_data`). Without strikethrough a tilde is data, as in CommonMark.
pub fn one_list_says_what_begins()
    ensures classes { HaveTheirClasses }
    ensures constructs { ConstructsAreListed }
    ensures tried { AreTriedAtListed }
    ensures runs { RunsAreListed }
    ensures brackets { BracketsAreListed }
    ensures data { DataEndsAtListed }
    ensures tildes { TildesAreData }
{}
