//! The beginning of a call.

ghost use Rattle.std.specs.Prelude.{◌≡◌};
ghost use Rattle.mdconstructs_tables.specs.RowInvariant.{begun};
ghost use Rattle.mdconstructs_tables.specs.Tables.{counts};

use markdown_tokenizer::state::MachineTypes;
use markdown_tokenizer::tokenizer::Tokenizer;

/// Counts a call: ticks, and adds one to `size`, up to the greatest `usize`. Each call of these machines begins with
/// it.
pub fn begin<'a, M: MachineTypes>(t: &mut Tokenizer<'a, M>)
    ensures { t.new ≡ begun counts t.old }
{
    t.tick();
    t.tokenize_state.size = t.tokenize_state.size.saturating_add(1);
}
