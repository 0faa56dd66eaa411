//! Laws about changes of a list of events. Edits are one kind of changes.
//!
//! Each is a function that does nothing, whose contract is the law.

ghost use Rattle.std.specs.Prelude.{List, map};
ghost use Rattle.markdown_base.specs.declared.event.Event.{Event};
ghost use Rattle.markdown_edits.specs.Edited.{as_change};
ghost use Rattle.markdown_edits.specs.Edits.{Edit};
ghost use Rattle.markdown_edits.specs.Survivors.{AreNew, KeepsLinks, KeepsOrder, StaysAsItWas, StaysUnlessRemoved};
ghost use Rattle.markdown_edits.specs.Woven.{Change};

/// The events that edits add are new: none of them is an event of the list. So the laws below hold for edits.
pub fn additions_are_new()
    ensures { (es : List Edit) → AreNew (map as_change es) }
{}

/// Events stay unless they are removed, and those that stay keep their order.
pub fn survivors_keep_order()
    ensures stays { (ws : List Change) → (xs : List Event) → AreNew ws → StaysUnlessRemoved ws xs }
    ensures order { (ws : List Change) → (xs : List Event) → AreNew ws → KeepsOrder ws xs }
{}

/// Events that stay are the same but for their link ends, and are linked to one another exactly as before.
pub fn survivors_keep_links()
    ensures events { (ws : List Change) → (xs : List Event) → AreNew ws → StaysAsItWas ws xs }
    ensures links { (ws : List Change) → (xs : List Event) → AreNew ws → KeepsLinks ws xs }
{}
