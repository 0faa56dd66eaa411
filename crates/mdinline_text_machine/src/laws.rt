//! Laws about the machine of texts. Each is a function that does nothing; its contract is the law.

ghost use Rattle.std.specs.Prelude.{◌+◌, ◌*◌, ℕ, [], ◌∷◌, List, Some};
ghost use Rattle.markdown_base.specs.declared.event.Event.{Event};
ghost use Rattle.markdown_base.specs.declared.state.TheConstants.Name.{FlowStart, TextStart};
ghost use Rattle.markdown_base.specs.Events.{IsVoidTight};
ghost use Rattle.markdown_base.specs.Virtual.{Seat, virtual};
ghost use Rattle.markdown_tokenizer.specs.Alike.{LooksNoFurther};
ghost use Rattle.markdown_tokenizer.specs.Text.{Given, Text, IsDocument};
ghost use Rattle.markdown_children.specs.Ready.{IsReady};
ghost use Rattle.mdconstructs_tables.specs.Refusals.{RulesRefuseNothing};
ghost use Rattle.mdconstructs_machines.specs.Costs.{StartsAmong};
ghost use Rattle.mdconstructs_machines.specs.Innermost.{AccountFor, AccountsForDocuments};
ghost use Rattle.mdconstructs_machines.specs.LineEvents.{data_events};
ghost use Rattle.mdconstructs_machines.specs.ParagraphEvents.{paragraph_events};
ghost use Rattle.mdconstructs_tables.specs.Paragraphs.{paragraphs_rules};
ghost use Rattle.mdconstructs_machines.specs.ReadAs.{IsReadAs};
ghost use Rattle.mdinline_text_machine.specs.ChainTexts.{AreReadAsData, AreReadAsTexts, AreReadAtPlaces, HasReadableChains, StaysReadyBy, StaysTight};
ghost use Rattle.mdinline_text_machine.specs.ChainTexts.{chain_data, chain_events, paragraphs_of, with_data, with_texts};
ghost use Rattle.mdinline_text_machine.specs.ParagraphTexts.{ParagraphsReadAsData, ParagraphsReadAsTexts, TextsAreInOrder};
ghost use Rattle.mdinline_text_machine.specs.TextEvents.{seat_events, text_events};
ghost use Rattle.mdinline_text_machine.specs.TextRules.{text_rules};

use markdown_tokenizer::event::Content;

/// The machine has two starts, one for documents and one for texts. This is how many calls it takes at most from each, on a
/// text of n virtual bytes.
pub fn cost_at_the_start()
    ensures paragraphs { StartsAmong text_rules (FlowStart ∷ TextStart ∷ []) FlowStart (λ n. 4 * n + 3) }
    ensures text { StartsAmong text_rules (FlowStart ∷ TextStart ∷ []) TextStart (λ n. 4 * n * n + 9 * n + 2) }
{}

/// No reading by the machine ends in a message, whatever the text and the state: it makes events of every document.
pub fn no_document_is_refused()
    ensures { RulesRefuseNothing text_rules }
{}

/// If the chains of text of a list can be read, `subtokenize` with `Text` replaces each chunk by its part of the events of
/// the chain's text. The definition of these events has no states.
pub fn chains_are_read_as_texts()
    ensures { (g : Given) (events : List Event) → IsDocument g → IsReady g.tab g.bytes (Some Content.Text) events → AreReadAsTexts g events }
{}

/// If the events of such a list stand at places of the document, so do those that `subtokenize` with `Text` makes of it: each has the
/// line and the column of its place.
pub fn chains_are_read_at_places()
    ensures { (g : Given) (events : List Event) → IsDocument g → IsReady g.tab g.bytes (Some Content.Text) events → AreReadAtPlaces g events text_rules }
{}

/// If the chains of text of a list can be read, `subtokenize` by `Paragraphs` replaces each chunk by its part of the data and line
/// endings of the chain's text.
pub fn chains_are_read_as_data()
    ensures { (g : Given) (events : List Event) → IsDocument g → IsReady g.tab g.bytes (Some Content.Text) events → AreReadAsData g events }
{}

/// `Paragraphs` and `Text` read each document by its blocks: what a run returns from the start of paragraphs is what the definition
/// says of the virtual bytes. It has no states.
pub fn documents_are_read_by_blocks()
    ensures paragraphs { IsReadAs paragraphs_rules FlowStart paragraph_events }
    ensures text { IsReadAs text_rules FlowStart paragraph_events }
{}

/// Each virtual byte of a document is in exactly one innermost span of what `Paragraphs` or `Text` reads, from the start of
/// paragraphs: their tokens account for the document.
pub fn innermost_spans_account_for_blocks()
    ensures paragraphs { AccountsForDocuments paragraphs_rules FlowStart }
    ensures text { AccountsForDocuments text_rules FlowStart }
{}

/// Each virtual byte of a text is in exactly one innermost span of its events.
pub fn innermost_spans_account_for_texts()
    ensures { (g : Given) (text : Text) → AccountFor (text_events g text) g.bytes text.seats }
{}

/// Each virtual byte of a document is in exactly one innermost span also after the chains of its paragraphs were read: as texts,
/// or as data of each line.
pub fn innermost_spans_account_for_children()
    ensures texts { (g : Given) → IsDocument g → AccountFor (with_texts g (paragraph_events g.bytes (virtual g.tab g.bytes))) g.bytes (virtual g.tab g.bytes) }
    ensures data { (g : Given) → IsDocument g → AccountFor (with_data g (paragraph_events g.bytes (virtual g.tab g.bytes))) g.bytes (virtual g.tab g.bytes) }
{}

/// The events that `Paragraphs` or `Text` makes of a document, from the start of paragraphs, have chains of text that can be
/// read: `ready` returns true for them, and `subtokenize` may be called.
pub fn chains_of_paragraphs_can_be_read()
    ensures paragraphs { HasReadableChains paragraphs_rules FlowStart }
    ensures text { HasReadableChains text_rules FlowStart }
{}

/// In what texts and lines are read as, each void span is empty: its enter is followed by its exit.
pub fn void_spans_of_texts_are_empty()
    ensures texts { (g : Given) (text : Text) → IsVoidTight (text_events g text) }
    ensures data { (bytes : List ℕ) (seats : List Seat) → IsVoidTight (data_events bytes seats) }
{}

/// The void spans of a document stay empty where the chains of its paragraphs were read, as texts or as data of each line: the chunks
/// tear none. So `subtokenize` with `Text` or `Paragraphs` meets what its `tight` asks.
pub fn void_spans_stay_empty_with_children()
    ensures texts { (g : Given) → IsDocument g → let es = paragraphs_of g in StaysTight g es (chain_events g es) }
    ensures data { (g : Given) → IsDocument g → let es = paragraphs_of g in StaysTight g es (chain_data g es) }
{}

/// If a list is ready for texts and for another content, it stays ready for that one where its texts were read, as the events of texts
/// have no links. So strings can be read after texts without a test between.
pub fn other_chains_stay_ready_after_texts()
    ensures { (g : Given) (events : List Event) → IsReady g.tab g.bytes (Some Content.Text) events → IsDocument g → StaysReadyBy g events text_rules }
{}

/// The machine of texts looks no further than the byte that waits: of a document its tests take the options alone. So a tokenizer that
/// it drives can go on in another document that begins alike.
pub fn texts_look_no_further()
    ensures { LooksNoFurther text_rules }
{}

/// With the text of each chain in place of its chunks, the events of a document's paragraphs are these: of each paragraph the events of its
/// text, with the quote marks of its lines between them. The definition has no chains.
pub fn texts_stand_in_their_paragraphs()
    ensures as_data { ParagraphsReadAsData }
    ensures as_texts { ParagraphsReadAsTexts }
{}

/// They are in order of place, and their void spans are empty.
pub fn texts_in_their_paragraphs_are_in_order()
    ensures as_data { TextsAreInOrder (λ g. data_events g.bytes) }
    ensures as_texts { TextsAreInOrder (λ g. seat_events g.options.constructs g.bytes) }
{}
