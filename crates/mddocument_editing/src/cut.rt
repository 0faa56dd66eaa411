//! A document, cut at its rests.

ghost use Rattle.std.specs.Prelude.{IfOk};
ghost use Rattle.mddocument_editing.specs.FirstRest.{AreSectionsOf, items_of};

use crate::rests::first_rest;
use markdown_base::configuration::ParseOptions;
use std::alloc::{AllocError, Global};

/// A document, cut at each rest. It fails only if it runs out of memory.
pub(crate) fn cut(
    alloc: Global,
    bytes: &[u8],
    options: &ParseOptions,
) -> Result<Vec<Vec<u8>>, AllocError>
    ensures { IfOk result (λ parts. AreSectionsOf options.now bytes.now (items_of parts.items)) }
{
    let mut parts = Vec::new(alloc);
    let mut rest = bytes;
    while !rest.is_empty() {
        let size = first_rest(alloc, rest, options)?;
        parts.push(rest[..size].to_vec(alloc)?)?;
        rest = &rest[size..];
    }
    Ok(parts)
}
