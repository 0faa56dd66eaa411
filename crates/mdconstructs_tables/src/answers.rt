//! What most states do last: end a span, or begin one with the byte that waits, and answer.

ghost use Rattle.std.specs.Prelude.{◌≡◌, None, IfOk, OnErr, OnOk};
ghost use Rattle.markdown_tokenizer.specs.Calls.{CanExit, consumed, with_enter, with_exit};
ghost use Rattle.markdown_tokenizer.specs.Configuration.{at_configuration};
ghost use Rattle.markdown_tokenizer.specs.declared.waiting.Waits.TheVariants.{Byte};

use markdown_tokenizer::event::Name;
use markdown_tokenizer::state::{MachineTypes, State};
use markdown_tokenizer::tokenizer::Tokenizer;
use std::alloc::AllocError;

/// Exits a span, and answers `state`. If it runs out of memory, nothing is changed.
#[inline(always)]
pub fn exit_to<'a, M: MachineTypes>(
    t: &mut Tokenizer<'a, M>,
    name: Name,
    state: State,
) -> Result<State, AllocError>
    requires { CanExit name t.old }
    ensures answer { IfOk result (λ answer. answer ≡ state) }
    ensures ok { OnOk result (t.new ≡ with_exit name t.old) }
    ensures err { OnErr result (t.new ≡ t.old) }
{
    t.exit(name)?;
    Ok(state)
}

/// Enters a span, consumes the byte that waits, and answers `state`. If it runs out of memory, nothing is changed.
#[inline(always)]
pub fn enter_over<'a, M: MachineTypes>(
    t: &mut Tokenizer<'a, M>,
    name: Name,
    state: State,
) -> Result<State, AllocError>
    requires { t.old.configuration.waiting ≡ Byte }
    ensures answer { IfOk result (λ answer. answer ≡ state) }
    ensures ok { OnOk result (t.new ≡ at_configuration (with_enter name None t.old) (consumed (with_enter name None t.old).configuration)) }
    ensures err { OnErr result (t.new ≡ t.old) }
{
    t.enter(name)?;
    t.consume();
    Ok(state)
}
