//! Laws about the calls of states that reading takes. Each is a function that does nothing; its contract is the law.

ghost use Rattle.std.specs.Prelude.{◌≡◌, [], ◌∷◌, ℕ, Bool, List};
ghost use Rattle.markdown_base.specs.declared.event.Content.TheVariants.{Content, String, Text};
ghost use Rattle.mdblock_leaf_rows.specs.FlowKnows.{flow_rules};
ghost use Rattle.mdinline_machine.specs.InlineRules.{inlines_rules};
ghost use Rattle.mddocument_costs.specs.Chains.{ChainsAreApart, ChainsAreFew, ReadsWithin};
ghost use Rattle.mddocument_costs.specs.Documents.{DocumentsAreLinear, PassesAreOfDocuments};
ghost use Rattle.mddocument_costs.specs.Examples.{measured};

use mdblock_definitions::laws::innermost_spans_of_skeletons_account_for_documents;
use mdblock_leaf_rows::laws::cost_at_the_start;
use mddocument::laws::innermost_spans_tile_documents_with_containers;

/// The texts of all chains of a list together have at most as many virtual bytes as the document, if the events of the list are in order.
pub fn chains_are_apart()
    ensures { ChainsAreApart }
{}

/// There are at most as many chains as virtual bytes, if each virtual byte is in exactly one innermost span of the list.
pub fn chains_are_few()
    ensures { ChainsAreFew }
{}

/// Leaf blocks are read in linear time, all chains of a list together: at most nine calls for each virtual byte of the chains, and ten for
/// each chain.
pub fn chains_of_leaf_blocks_are_linear()
    ensures { ReadsWithin flow_rules (Content ∷ []) 9 10 }
{
    cost_at_the_start();
}

/// Inline text is read in linear time, all chains of a list together, whatever gaps are between their lines: at most 374 calls for each
/// virtual byte of the chains, and four for each chain. So are texts and strings that are read at once; strings alone take less.
pub fn chains_of_inline_text_are_linear()
    ensures texts { (defined : List ℕ → Bool) → ReadsWithin (inlines_rules defined) (Text ∷ String ∷ []) 374 4 }
    ensures strings { (defined : List ℕ → Bool) → ReadsWithin (inlines_rules defined) (String ∷ []) 87 2 }
{}

/// A document is read in linear time, both passes of states together: its leaf blocks, and then all their texts and strings. On n virtual
/// bytes they make at most 397 n calls: no byte is in two chains of a pass, and there are no more chains than bytes.
pub fn documents_are_read_in_linear_time()
    ensures { DocumentsAreLinear }
{
    chains_of_leaf_blocks_are_linear();
    chains_of_inline_text_are_linear();
    innermost_spans_of_skeletons_account_for_documents();
    innermost_spans_tile_documents_with_containers();
}

/// The passes whose calls are counted are those in which a document is read: whatever passes there are, what they leave are the events that
/// `read_document` returns, once plain code has read the strings of destinations, titles and labels. And all make the same number of calls.
pub fn passes_are_of_their_document()
    ensures { PassesAreOfDocuments }
{}

/// An example, computed. In a block quote with the lines `a` and `b`, and a list item with `c`, two chains of leaf blocks have four virtual
/// bytes: `a`, its line ending, `b` and `c`. So have two chains of text.
pub fn chains_of_a_document()
    ensures { measured ≡ 2 ∷ 4 ∷ 2 ∷ 4 ∷ [] }
{}
