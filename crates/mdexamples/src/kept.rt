//! A document is read on from a kept place, after its end was changed.

ghost use Rattle.std.specs.Prelude.{◌≡◌, ◌∷◌, [], true, Contains, IfOk, IfSome, IsNone};
ghost use Rattle.markdown.specs.Alike.{CanMove, LooksNoFurther};
ghost use Rattle.markdown.specs.Engine.{AreCuts, CanPush, HoldsOf, IsRun, given_of};
ghost use Rattle.mdexamples.specs.Kept.{HasReadUpTo, WasReadOn};

use markdown::copies::TryClone;
use markdown::event::{Event, Point};
use markdown::parser::ParseState;
use markdown::state::{Machine, Name, State};
use markdown::subtokenize::Subresult;
use markdown::tokenizer::{Fault, Tokenizer};
use std::alloc::Global;

/// Reads a document from its start up to a cut. Returns the tokenizer and the state that waits there: they are what an editor keeps.
pub fn read_up_to<'a, M: Machine>(
    alloc: Global,
    document: &'a ParseState<'a, M>,
    start: Name,
    cut: (usize, usize),
) -> Result<(Tokenizer<'a, M>, State), Fault>
    requires start { Contains (M.rules document.now.machine.now (given_of document.now)).starts start }
    requires cut { AreCuts document.now.options.now.tab_size document.now.bytes.now (cut ∷ []) }
    ensures read { IfOk result (λ kept. HasReadUpTo M.rules cut start kept.0 kept.1) }
    ensures document { IfOk result (λ kept. kept.0.given ≡ given_of document.now) }
    ensures machine { IfOk result (λ kept. kept.0.machine ≡ document.now.machine.now) }
{
    let mut tokenizer = Tokenizer::new(alloc, Point::START, document);
    match tokenizer.push((0, 0), cut, State::Next(start)) {
        Ok(state) => Ok((tokenizer, state)),
        Err(fault) => {
            drop(tokenizer);
            Err(fault)
        }
    }
}

/// The events of a document that was changed behind a cut, and the definitions found: they are what `run` returns, but only the rest is
/// read, by a copy of what was kept. Returns `None` if what was kept cannot be moved: the documents are not alike up to the cut.
pub fn read_changed<M: Machine>(
    alloc: Global,
    kept: &(Tokenizer<M>, State),
    start: Name,
    cut: (usize, usize),
    changed: &ParseState<M>,
) -> Result<Option<(Vec<Event>, Subresult)>, Fault>
where
    M::Document: TryClone,
    requires kept { HasReadUpTo M.rules cut start kept.now.0 kept.now.1 }
    requires options { changed.now.options.now ≡ kept.now.0.given.options }
    requires machine { changed.now.machine.now ≡ kept.now.0.machine }
    requires start { Contains (M.rules kept.now.0.machine (given_of changed.now)).starts start }
    requires looks { LooksNoFurther (M.rules kept.now.0.machine) }
    ensures run { let m = kept.now.0.machine in
        IfOk result (λ r. IfSome r (λ all. IsRun (given_of changed.now) (M.rules m) true start all.0.items all.1)) }
    ensures none { IfOk result (λ r. IsNone r → ¬ CanMove kept.now.0.given (given_of changed.now) kept.now.0.text.end) }
{
    let (tokenizer, state) = kept;
    if !tokenizer.can_move_to(changed) {
        return Ok(None);
    }
    let state = state.try_clone(alloc)?;
    let mut tokenizer = tokenizer.try_clone(alloc)?.moved_to(changed);
    let end = (changed.bytes.len(), 0);
    let found = read_on(&mut tokenizer, state, cut, end);
    let events = tokenizer.into_events();
    Ok(Some((events, found?)))
}

/// Reads a range, and flushes.
fn read_on<M: Machine>(
    tokenizer: &mut Tokenizer<M>,
    state: State,
    from: (usize, usize),
    to: (usize, usize),
) -> Result<Subresult, Fault>
    requires range { CanPush tokenizer.old.given tokenizer.old.text from to }
    requires holds { HoldsOf (M.rules tokenizer.old.machine tokenizer.old.given) tokenizer.old state }
    ensures { let t = tokenizer.old in
        IfOk result (λ sub. WasReadOn (M.rules t.machine t.given) t from to state tokenizer.new sub) }
{
    let state = tokenizer.push(from, to, state)?;
    tokenizer.flush(state, true)
}
