//! The definitions at the front of a text.

ghost use Rattle.std.specs.Prelude.{◌≡◌, ◌+◌, ◌*◌, ◌≤◌, IfOk, length, drop};
ghost use Rattle.mdinline_labels.specs.Definitions.{definitions, rest};

use mdconstructs_loop_counts::Turns;
use mdinline_labels::definitions::{Definition, definition_counted};
use std::alloc::{AllocError, Global};
use std::sync::ledger::Ledger;

/// The definitions at the front of a text.
#[derive(Drop)]
pub struct Front {
    /// They, one after another.
    pub definitions: Vec<Definition>,
    /// Where what is left of the text begins.
    pub end: usize,
}

/// The definitions at the front of a text, one after another. It is linear over the whole text, as `definitions_counted`.
pub fn front_of<L: Ledger>(
    alloc: Global,
    text: &[u8],
    turns: &mut Turns<L>,
) -> Result<Front, AllocError>
    ensures definitions { IfOk result (λ f. f.definitions.items ≡ definitions text.now) }
    ensures rest { IfOk result (λ f. drop f.end text.now ≡ rest text.now) }
    ensures inside { IfOk result (λ f. f.end ≤ length text.now) }
    ensures turns { turns.new ≤ turns.old + 16 * length text.now + 16 }
{
    let mut definitions = Vec::new(alloc);
    let mut next = 0;
    while next < text.len() {
        match definition_counted(&text[next..], turns) {
            None => {
                return Ok(Front {
                    definitions,
                    end: next,
                });
            }
            Some(definition) => {
                let end = next + definition.size;
                next = if end < text.len() { end + 1 } else { end };
                definitions.push(definition)?;
            }
        }
    }
    Ok(Front {
        definitions,
        end: next,
    })
}
