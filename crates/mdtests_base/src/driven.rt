//! A document, read call by call.

ghost use Rattle.std.specs.Prelude.{◌≡◌, ◌*◌, ◌<◌, ◌∷◌, [], true, false, Contains, IfOk};
ghost use Rattle.markdown.specs.Virtual.{point};
ghost use Rattle.markdown.specs.Configuration.{start_seen};
ghost use Rattle.markdown.specs.Engine.{AreCuts, CanPush, HoldsOf, IsPushed, given_of};
ghost use Rattle.markdown.specs.Text.{IsDocument, empty_text};

use crate::shown::{push_answer, push_events};
use markdown::event::Point;
use markdown::parser::ParseState;
use markdown::state::{Machine, Name, State};
use markdown::subtokenize::Subresult;
use markdown::tokenizer::{Fault, Tokenizer};
use std::alloc::{AllocError, Global};

/// Reads a document, cut at one place: pushes a range up to it and one up to the end, flushes, and pushes once more. Returns a line
/// for the result of each call, and then how the tokenizer was left: whether these resolvers are registered, and the events.
pub fn read<M: Machine>(
    alloc: Global,
    parse_state: &ParseState<M>,
    start: Name,
    cut: (usize, usize),
    resolve: bool,
    resolvers: &[M::Resolver],
) -> Result<String, AllocError>
    requires start { Contains (M.rules parse_state.now.machine.now (given_of parse_state.now)).starts start }
    requires cut { AreCuts parse_state.now.options.now.tab_size parse_state.now.bytes.now (cut ∷ []) }
{
    let mut text = String::new(alloc);
    let mut tokenizer = Tokenizer::new(alloc, Point::START, parse_state);
    let read = read_new(
        &mut text,
        &mut tokenizer,
        parse_state,
        start,
        cut,
        resolve,
        resolvers,
    );
    drop(tokenizer);
    read?;
    Ok(text)
}

/// Reads a document with a tokenizer that has read nothing. A function that owns no tokenizer is proved in less time.
fn read_new<M: Machine>(
    text: &mut String,
    tokenizer: &mut Tokenizer<M>,
    parse_state: &ParseState<M>,
    start: Name,
    cut: (usize, usize),
    resolve: bool,
    resolvers: &[M::Resolver],
) -> Result<(), AllocError>
    requires begins { tokenizer.old ≡ start_seen (given_of parse_state.now) parse_state.now.machine.now (empty_text (point 1 1 0 0)) }
    requires document { IsDocument (given_of parse_state.now) }
    requires start { Contains (M.rules parse_state.now.machine.now (given_of parse_state.now)).starts start }
    requires cut { AreCuts parse_state.now.options.now.tab_size parse_state.now.bytes.now (cut ∷ []) }
{
    let first = push_shown(text, tokenizer, (0, 0), cut, State::Next(start), start)?;
    let end = (parse_state.bytes.len(), 0);
    let second = push_shown(text, tokenizer, cut, end, first, start)?;
    let flushed = tokenizer.flush(second, resolve);
    push_end(text, tokenizer, &flushed, resolvers)
}

/// Pushes a range, and appends the state that is returned.
fn push_shown<M: Machine>(
    text: &mut String,
    tokenizer: &mut Tokenizer<M>,
    from: (usize, usize),
    to: (usize, usize),
    state: State,
    start: Name,
) -> Result<State, AllocError>
    requires range { tokenizer.old.closed ≡ false → CanPush tokenizer.old.given tokenizer.old.text from to }
    requires holds { tokenizer.old.closed ≡ false → HoldsOf (M.rules tokenizer.old.machine tokenizer.old.given) tokenizer.old state }
    ensures { IfOk result (λ answer. IsPushed (M.rules tokenizer.old.machine tokenizer.old.given) tokenizer.old from to state tokenizer.new answer) }
{
    match tokenizer.push(from, to, state) {
        Ok(next) => {
            push_state(text, &next, start)?;
            Ok(next)
        }
        Err(_) => Err(AllocError),
    }
}

/// Appends what a push after a flush returns.
fn push_again<M: Machine>(text: &mut String, tokenizer: &mut Tokenizer<M>) -> Result<(), AllocError>
    requires { tokenizer.old.closed ≡ true }
{
    match tokenizer.push((0, 0), (0, 0), State::Ok) {
        Ok(_) => text.push_str("pushed\n"),
        Err(fault) => writeln!(text, "{fault}"),
    }
}

/// Appends what a flush returned, and a push after it; then the number of calls, and if the flush succeeded, whether these
/// resolvers are registered, and the events.
fn push_end<M: Machine>(
    text: &mut String,
    tokenizer: &mut Tokenizer<M>,
    flushed: &Result<Subresult, Fault>,
    resolvers: &[M::Resolver],
) -> Result<(), AllocError>
    requires { tokenizer.old.closed ≡ true }
{
    push_answer(text, flushed)?;
    push_again(text, tokenizer)?;
    let calls = tokenizer.tokenize_state.size;
    writeln!(text, "{calls} calls")?;
    if flushed.is_err() {
        return Ok(());
    }
    let same = tokenizer.resolvers() == resolvers;
    writeln!(text, "these resolvers: {same}")?;
    push_events(text, tokenizer.events())
}

/// Appends a state. Of names only this start is shown.
fn push_state(text: &mut String, state: &State, start: Name) -> Result<(), AllocError> {
    match state {
        State::Error(message) => writeln!(text, "{message}"),
        State::Next(name) if *name == start => text.push_str("next is the start\n"),
        State::Next(_) => text.push_str("next\n"),
        _ => text.push_str("ended\n"),
    }
}
