//! The message of the machines that refuse documents, and its parts.

ghost use Rattle.std.specs.Prelude.{◌≡◌, IfOk};
ghost use Rattle.mdconstructs_machines.specs.Messages.{refusal};

use markdown_tokenizer::message::{Message, Place};
use markdown_tokenizer::owned::{Boxed, OwnedText};
use markdown_tokenizer::unist::Point;
use std::alloc::{AllocError, Global};

/// The message `1:2: x (markdown:r)`. Returns `AllocError` if it runs out of memory.
pub(crate) fn refusal(alloc: Global) -> Result<Message, AllocError>
    ensures { IfOk result (λ message. message ≡ refusal) }
{
    let place = Box::new(alloc, Place::Point(Point::new(1, 2, 1)))?;
    let reason = OwnedText::from_string(String::from_str(alloc, "x")?);
    let rule_id = boxed(alloc, "r")?;
    let source = boxed(alloc, "markdown")?;
    Ok(Message {
        place: Some(Boxed::from_box(place)),
        reason,
        rule_id,
        source,
    })
}

/// A copy of a text, in a box. Returns `AllocError` if it runs out of memory.
pub(crate) fn boxed(alloc: Global, text: &str) -> Result<Boxed<OwnedText>, AllocError>
    ensures { IfOk result (λ boxed. boxed ≡ text.now) }
{
    let text = OwnedText::from_string(String::from_str(alloc, text)?);
    Ok(Boxed::from_box(Box::new(alloc, text)?))
}
