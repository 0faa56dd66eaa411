//! Laws about chains.
//!
//! Each is a function that does nothing, whose contract is the law.

ghost use Rattle.std.specs.Prelude.{◌∷◌, List, None, Option, ℕ};
ghost use Rattle.markdown_base.specs.declared.event.Content.{Content};
ghost use Rattle.markdown_base.specs.declared.event.Event.{Event};
ghost use Rattle.markdown_base.specs.Events.{IsBalanced};
ghost use Rattle.markdown_edits.specs.Edits.{Edit};
ghost use Rattle.markdown_children.specs.ChildrenOf.{AreChildrenOf, EachIsRead, IsJustChildrenOf};
ghost use Rattle.markdown_children.specs.Reads.{CanReadChains, HasOneAnswer};
ghost use Rattle.markdown_children.specs.LawStatements.{ForReadyLists, HasOrderedChains, ChildrenFit, EditsGiveChildren, IsPlacedWell, AreByChunk};
ghost use Rattle.markdown_children.specs.LawStatements.{IsReadyForEach, StaysReady};
ghost use Rattle.markdown_children.specs.NextContent.{StaysReadyWithChains, GoesOn, GoesOnBy};
ghost use Rattle.markdown_children.specs.Ready.{IsReady};
ghost use Rattle.markdown_base.specs.declared.event.Point.{Point};
ghost use Rattle.markdown_tokenizer.specs.Text.{Given};

use markdown_tokenizer::state::Machine;

/// In a list that is ready, the chains that fit follow one another, chunk by chunk. Each chunk that fits belongs to
/// exactly one of them. The changes that children make are disjoint and inside the list.
pub fn a_ready_list_has_ordered_chains()
    ensures { ForReadyLists (λ tab bytes wanted events. HasOrderedChains wanted events) }
{}

/// The chunks of a chain that fits can be pushed one after another, with the gaps between them passed.
pub fn chunks_can_be_read()
    ensures { ForReadyLists CanReadChains }
{}

/// Balanced children keep a ready list balanced, and keep each link between events that stay.
pub fn children_fit()
    ensures { ForReadyLists (λ tab bytes wanted events. (children : List (List Event)) → ChildrenFit wanted events children) }
{}

/// If a list is ready for two contents, it stays ready for the second one where children of the first one come that have no links. So
/// chains of another content can be read next, without a test.
pub fn other_chains_stay_ready()
    ensures { ForReadyLists StaysReady }
{}

/// If a list is ready for two contents, and each child of the first one is ready for the second by itself, the new list is ready for it
/// too. Chunks of children stay chunks: no chunks of the list may tear a void span of a child.
pub fn chains_of_children_stay_ready()
    ensures { ForReadyLists StaysReadyWithChains }
{}

/// The same if the list has events between chunks only where it has text there too, and each child's chains can be read on its own text,
/// over whose gaps no void span of the child goes. Then no chunks tear a void span.
pub fn children_can_be_read_next()
    ensures { (g : Given) (wanted next : Option Content) (events : List Event) → GoesOn g wanted next events }
{}

/// So after [`subtokenize`](crate::subtokenize::subtokenize) a list is ready for the next content, without a test, if the machine reads
/// such children. What it promises of its final events may say so. Void spans stay empty too.
pub fn subtokenized_lists_are_ready<M: Machine>()
    ensures { (m : _) (g : _) (wanted : _) (next : _) (events : _) → GoesOnBy g (M.rules m) wanted next events }
{}

/// A list whose chains can all be read is ready for each content.
pub fn all_chains_are_ready()
    ensures { (tab : ℕ) (bytes : List ℕ) (events : List Event) → IsReady tab bytes None events → IsReadyForEach tab bytes events }
{}

/// The edits of `divide_events`, made chain by chain with the counts of the chains before, give the list with children.
pub fn edits_give_children()
    ensures { ForReadyLists (λ tab bytes wanted events. (children : List (List Event)) → EditsGiveChildren wanted events children) }
{}

/// After all edits of the map, links to a child event lead to its index. Its own link ends are indices into the final list too.
/// Any edits may be before the chain and behind it.
pub fn child_events_are_placed_well()
    ensures { (before behind : List Edit) (events : List Event) (c : ℕ) (child : List Event) → IsPlacedWell before behind events c child }
{}

/// Child events are assigned to chunks in order. Each goes to the first chunk that ends at or after it; the search starts at the
/// chunk of the event before. If every chunk ends before the event, it goes to the last one.
pub fn parts_are_by_chunk()
    ensures { (end : Point) → (ends : List Point) → (child : List Event) → AreByChunk (end ∷ ends) child }
{}

/// The rules of a machine allow one list with children and one result, or one message, and not both.
pub fn children_are_read_in_one_way<M: Machine>()
    ensures { (m : _) (g : _) (wanted : _) (events : _) → HasOneAnswer g (M.rules m) wanted events }
{}

/// The list with children is a function of the list, the document and the rules: `children_of` gives what `subtokenize` gives, and refuses
/// what it refuses. So a resolver that reads content in content by another machine has a function as its rule. The other way round
/// each chain must have a child, or a message: the laws of a machine do not say that what its states add stands at places.
pub fn children_are_a_function<M: Machine>()
    ensures given { (m : _) (g : _) (wanted : _) (events : _) → IsBalanced events → AreChildrenOf g (M.rules m) wanted events }
    ensures just { (m : _) (g : _) (wanted : _) (events : _) → IsReady g.tab g.bytes wanted events
        → EachIsRead g (M.rules m) wanted events → IsJustChildrenOf g (M.rules m) wanted events }
{}
