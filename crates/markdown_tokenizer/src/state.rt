//! States, and what a machine of states is.

ghost use Rattle.std.specs.Prelude.{◌≡◌, ℕ, false, get_or};

use crate::subtokenize::Subresult;
use crate::tokenizer::{Fault, Tokenizer};
pub use markdown_base::state::{Name, State};
use std::alloc::{AllocError, Global};

/// The types that a machine brings.
pub trait MachineTypes {
    /// The name of a resolver, which goes over the events once all was read.
    type Resolver: Copy + Eq;

    /// What the machine keeps about a document, other than the text that is read.
    type Document: Drop;
}

/// A set of bytes: for each byte, whether it is in the set.
pub type ByteSet = [bool; 256];

static NO_BYTES: ByteSet = [false; 256];

/// The set with no byte in it.
#[inline(always)]
pub fn no_bytes() -> &'static ByteSet
    ensures { (byte : ℕ) → get_or result.now byte false ≡ false }
{
    &NO_BYTES
}

/// A machine of states, which reads a text.
///
/// Its rules say what the call of each state does (`step`), and what holds at each call (`holds`). They say how many calls
/// the state and all choices that wait may still take (`cost`), and with which states it may start (`starts`). They also say what a resolver does
/// (`resolver`), what holds before a list of resolvers runs (`resolves`), and what the machine promises of its final events
/// (`ends`): those that resolvers and edits leave. The machine proves six laws about them.
pub trait Machine: MachineTypes + Sized {
    ghost use Rattle.std.specs.Prelude.{◌≡◌, ◌≢◌, [], All, IfOk, IfErr, IfSome};
    ghost use Rattle.std.specs.Bool.{OnTrue};
    ghost use Rattle.markdown_base.specs.declared.state.State.TheVariants.{Retry};
    ghost use Rattle.markdown_tokenizer.specs.declared.waiting.Waits.TheVariants.{Nothing};
    ghost use Rattle.markdown_tokenizer.specs.declared.waiting.Phase.TheVariants.{Reading, Resolving};
    ghost use Rattle.markdown_tokenizer.specs.Configuration.{at_configuration};
    ghost use Rattle.markdown_tokenizer.specs.Resolving.{done, refused};
    ghost use Rattle.markdown_tokenizer.specs.Text.{Given};
    ghost use Rattle.markdown_tokenizer.specs.Fault.{IfMessage};
    ghost use Rattle.markdown_tokenizer.specs.Rules.{Rules};
    ghost use Rattle.markdown_tokenizer.specs.Engine.{HoldsOf};
    ghost use Rattle.markdown_tokenizer.specs.Over.{AreReadOver, AreNotedOver, IsByteOver};
    ghost use Rattle.markdown_tokenizer.specs.Lawful.{DidStep, IsLawful, step_of, CanResolve, resolver_of};

    /// Its rules on a document.
    ghost rules: { Self → Given → Rules Self.Resolver Self.Document };

    /// Calls the state of this name. It is called only while a byte, or the end, waits.
    ///
    /// The state counts its call by one `tick`, and consumes at most the byte that waits. It returns `Next` only if it
    /// consumed a byte, and `Retry` only if it did not. It returns `AllocError` only if it runs out of memory.
    ///
    /// A state that consumed a byte and returns `Retry` in place of `Next` would be called again while nothing waits. If the proof of
    /// `call_is_step` or `consumes_once` fails, look for such a return first.
    fn call<'a>(
        &self,
        alloc: Global,
        t: &mut Tokenizer<'a, Self>,
        name: Name,
    ) -> Result<State, AllocError>
        requires machine { t.old.machine ≡ self.now }
        requires reading { t.old.phase ≡ Reading }
        requires waits { t.old.configuration.waiting ≢ Nothing }
        requires invariant { HoldsOf (rules self.now t.old.given) t.old (Retry name) }
        ensures call_is_step { IfOk result (DidStep t.old t.new (step_of (rules self.now) t.old name)) };

    /// The bytes that the state of this name reads over: wherever one of them waits, the call consumes it, does nothing else, and returns
    /// `Next` of the same name. The engine then need not call it. Each of them is above CR. It is `None` for a state that reads over none: the
    /// engine then does not look at what comes next.
    fn reads_over(&self, _name: Name) -> Option<&'static ByteSet>
        ensures { IfSome result (λ set. AreReadOver (rules self.now) _name set.now) }
    {
        None
    }

    /// Whether the state of this name reads over all bytes of a block, as `reads_over` says it of one. It may be false where it does: the engine
    /// then looks at each of them. It is for states that can tell it of all at once.
    fn reads_over_all(&self, _name: Name, _block: &[u8]) -> bool
        ensures { OnTrue result (All (IsByteOver (rules self.now) _name) _block.now) }
    {
        false
    }

    /// The bytes that the state of this name notes and reads over, and the bytes before which it does: wherever one of the first set waits, and
    /// one of the second stands behind it, two calls note the place before both, consume them, do nothing else, and return `Next` of the same
    /// name. The engine then need not make them. Each of the bytes is above CR. It is `None` for a state that does so at none.
    fn notes_over(&self, _name: Name) -> Option<(&'static ByteSet, &'static ByteSet)>
        ensures { IfSome result (λ sets. AreNotedOver (rules self.now) _name sets.0.now sets.1.now) }
    {
        None
    }

    /// Runs the resolver of this name over the events. A flush that resolves calls it once all was read.
    ///
    /// It may change the events (`events_mut`, `link`, `link_to`), `map`, `tokenize_state` and the flags, and register resolvers, which
    /// this flush does not run. It returns the definitions that it found. `Message` means that the document is refused; `Memory` is
    /// returned only if it runs out of memory.
    fn resolve<'a>(
        &self,
        alloc: Global,
        t: &mut Tokenizer<'a, Self>,
        name: Self::Resolver,
    ) -> Result<Option<Subresult>, Fault>
        requires machine { t.old.machine ≡ self.now }
        requires resolving { t.old.phase ≡ Resolving }
        requires alone { t.old.choices ≡ [] }
        requires invariant { CanResolve (rules self.now) t.old name }
        ensures same { t.new ≡ at_configuration t.old t.new.configuration }
        ensures resolves { IfOk result (λ more. resolver_of (rules self.now) t.old name ≡ done t.new.configuration more) }
        ensures message { IfMessage result (λ m. resolver_of (rules self.now) t.old name ≡ refused m) }
        ensures err { IfErr result (λ fault. fault ≢ Fault.Failed) };

    /// It is lawful on every document: a call consumes at most one byte, and never the end (`consumes_once`); it keeps the events, but
    /// for the ends of their links, and the spans that waiting choices saved, and the choices that it makes save no fewer events than
    /// there were before it (`only_adds`); if no choice waits, `Nok` is never returned, and `Ok` only once the end was fed, with each
    /// span ended (`ends_when_read`); the invariant holds at each start and is kept (`invariant_kept`); calls stay within their stated
    /// cost (`cost_pays`); and resolvers leave a list in shape, and as promised (`resolvers_keep`).
    ghost lawful: { (m : Self) (g : Given) → IsLawful g (rules m g) };
}
