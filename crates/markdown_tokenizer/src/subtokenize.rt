//! Chains of events, whose text is read once more.
//!
//! A chain links the enters of some void spans of a list of events. Their joined text is content of its own.

ghost use Rattle.std.specs.Prelude.{◌≡◌, ◌++◌, Some, IfOk};
ghost use Rattle.markdown_tokenizer.specs.Resolving.{with_more};

use markdown_base::owned::{Items, OwnedText};
pub use markdown_edits::links::{link, link_to};
use std::alloc::AllocError;

/// What reading content returns, other than events.
#[derive(Debug, Drop)]
pub struct Subresult {
    /// Whether nothing was left to read.
    pub done: bool,
    /// The labels of the footnote definitions that were found.
    pub gfm_footnote_definitions: Items<OwnedText>,
    /// The labels of the definitions that were found.
    pub definitions: Items<OwnedText>,
}

/// Definitions, followed by later ones; `done` stays as it was.
///
/// If it runs out of memory, both are dropped.
pub fn joined(sub: Subresult, more: Subresult) -> Result<Subresult, AllocError>
    ensures { IfOk result (λ all. all ≡ with_more sub (Some more)) }
{
    let gfm_footnote_definitions = joined_items(
        sub.gfm_footnote_definitions,
        more.gfm_footnote_definitions,
    )?;
    let definitions = joined_items(sub.definitions, more.definitions)?;
    Ok(Subresult {
        done: sub.done,
        gfm_footnote_definitions,
        definitions,
    })
}

/// The first list, followed by the second.
fn joined_items(
    items: Items<OwnedText>,
    more: Items<OwnedText>,
) -> Result<Items<OwnedText>, AllocError>
    ensures { IfOk result (λ all. all ≡ items ++ more) }
{
    if more.as_slice().is_empty() {
        return Ok(items);
    }
    let mut all = items.into_vec();
    let mut more = more.into_vec();
    all.append(&mut more)?;
    Ok(Items::from_vec(all))
}
