//! Machines as tables: rows of data say what each state does. The laws of a machine follow from a test of its rows.
#![tactic(auto)]

ghost use Rattle.std.specs.Prelude.{◌≡◌, OnOk};
ghost use Rattle.mdconstructs_tables.specs.Markers.{IsMarkable, marked};

// answers: what most states do last
pub mod answers;
// chunks: of a paragraph, each linked to the chunk before
pub mod chunks;
// laws: tables that fit have lawful rules
pub mod laws;

use markdown_tokenizer::event::Name;
use markdown_tokenizer::state::MachineTypes;
use markdown_tokenizer::tokenizer::Tokenizer;
use std::alloc::AllocError;

/// Reads the byte that waits as a span of its own: enters the span, consumes the byte, and exits the span.
///
/// If it runs out of memory, the span may have begun, and the byte may be consumed.
pub fn marker<'a, M: MachineTypes>(t: &mut Tokenizer<'a, M>, name: Name) -> Result<(), AllocError>
    requires { IsMarkable t.old }
    ensures { OnOk result (t.new ≡ marked name t.old) }
{
    t.enter(name)?;
    t.consume();
    t.exit(name)
}
