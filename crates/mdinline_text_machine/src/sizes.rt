//! The two sizes in which states of constructs count bytes.

ghost use Rattle.std.specs.Prelude.{◌≡◌};
ghost use Rattle.markdown_tokenizer.specs.Calls.{with_local};
ghost use Rattle.markdown_tokenizer.specs.Configuration.{at_configuration};
ghost use Rattle.mdinline_text_machine.specs.TextSizes.{size_b_is, size_c_is, size_b_grows, size_c_grows};

use markdown_tokenizer::state::MachineTypes;
use markdown_tokenizer::tokenizer::Tokenizer;

/// Sets the size of the opening backtick string, or of the scheme.
pub fn set_size_b<'a, M: MachineTypes>(t: &mut Tokenizer<'a, M>, size: usize)
    ensures { t.new ≡ at_configuration t.old (with_local t.old.configuration (size_b_is size t.old.configuration)) }
{
    t.tokenize_state.size_b = size;
}

/// Sets the size of the backtick string that may close a code span.
pub fn set_size_c<'a, M: MachineTypes>(t: &mut Tokenizer<'a, M>, size: usize)
    ensures { t.new ≡ at_configuration t.old (with_local t.old.configuration (size_c_is size t.old.configuration)) }
{
    t.tokenize_state.size_c = size;
}

/// Counts one byte more of the opening backtick string, or of the scheme.
pub fn add_to_size_b<'a, M: MachineTypes>(t: &mut Tokenizer<'a, M>)
    ensures { t.new ≡ at_configuration t.old (with_local t.old.configuration (size_b_grows t.old.configuration)) }
{
    t.tokenize_state.size_b = t.tokenize_state.size_b.saturating_add(1);
}

/// Counts one byte more of the backtick string that may close a code span.
pub fn add_to_size_c<'a, M: MachineTypes>(t: &mut Tokenizer<'a, M>)
    ensures { t.new ≡ at_configuration t.old (with_local t.old.configuration (size_c_grows t.old.configuration)) }
{
    t.tokenize_state.size_c = t.tokenize_state.size_c.saturating_add(1);
}
