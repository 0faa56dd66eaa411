//! Code spans, as a machine reads them that remembers backtick strings.
//!
//! A code span is looked for up to the end, if no backtick string is as long as the one that opens it. Each one that the look went over is noted, by
//! its length: whether one was seen, and where the last of them begins, as an index of the document. So once a look reached the end, all that lie
//! ahead are known, and one that nothing closes is not looked for again.
//!
//! This is kept in `document_container_stack`, with an entry for each length, and in `seen`. Other states are those of `code_span`.

ghost use Rattle.std.specs.Prelude.{◌≡◌, None, IfOk, OnOk};
ghost use Rattle.std.specs.List.{last_or};
ghost use Rattle.markdown_tokenizer.specs.Calls.{with_local};
ghost use Rattle.markdown_tokenizer.specs.Configuration.{at_configuration};
ghost use Rattle.markdown_tokenizer.specs.Sight.{sight_of};
ghost use Rattle.mdconstructs_tables.specs.RowInvariant.{DoesAll, IsCallable, step_in};
ghost use Rattle.mdinline_text_machine.specs.TextBytes.{text_byte};
ghost use Rattle.mdinline_constructs.specs.RememberedCode.{code_line, code_white, index_of, is_ahead, is_hopeless, is_seen_from, later_of, remembered_between, remembered_chunk, remembered_open, runs_are_seen, seen_at, unseen, with_run, with_run_at};

use crate::names as construct_names;
use markdown_tokenizer::event;
use markdown_tokenizer::owned::Items;
use markdown_tokenizer::state::{MachineTypes, Name, State};
use markdown_tokenizer::tokenizer::{Container, ContainerState, Tokenizer};
use mdconstructs_tables::marker;
use mdinline_text_machine::names;
use mdinline_text_machine::sizes::{add_to_size_b, set_size_c};
use std::alloc::{AllocError, Global};
use std::mem::replace;

/// In the backtick string that opens a code span. Behind it nothing is looked for if it is known that nothing closes it.
pub fn remembered_open<'a, M: MachineTypes>(t: &mut Tokenizer<'a, M>) -> Result<State, AllocError>
    requires { IsCallable text_byte remembered_open t.old }
    ensures { IfOk result (DoesAll (step_in text_byte remembered_open t.old) t.old t.new) }
{
    match t.current() {
        None => {
            t.exit(event::Name::CodeTextSequence)?;
            Ok(State::Retry(Name::RawTextBetween))
        }
        Some(b'`') => {
            add_to_size_b(t);
            t.consume();
            Ok(State::Next(Name::RawTextSequenceOpen))
        }
        Some(_) => {
            if is_hopeless(t) {
                return Ok(State::Nok);
            }
            t.exit(event::Name::CodeTextSequence)?;
            Ok(State::Retry(Name::RawTextBetween))
        }
    }
}

/// In a code span, between line endings and data. At the end of the text all backtick strings were seen.
pub fn remembered_between<'a, M: MachineTypes>(
    t: &mut Tokenizer<'a, M>,
) -> Result<State, AllocError>
    requires { IsCallable text_byte remembered_between t.old }
    ensures { IfOk result (DoesAll (step_in text_byte remembered_between t.old) t.old t.new) }
{
    match t.current() {
        None => {
            set_all_seen(t);
            Ok(State::Nok)
        }
        Some(b'\n') => {
            marker(t, event::Name::LineEnding)?;
            Ok(State::Next(construct_names::RawTextLineStart))
        }
        Some(b'`') => {
            t.attempt_next(names::RawTextAfter, names::RawTextBackticksStart)?;
            t.enter(event::Name::CodeTextSequence)?;
            set_size_c(t, 0);
            Ok(State::Retry(Name::RawTextSequenceClose))
        }
        Some(_) => {
            t.enter(event::Name::CodeTextData)?;
            Ok(State::Retry(Name::RawTextData))
        }
    }
}

/// Behind a line ending in a code span: white space of the next line may begin.
pub fn code_line<'a, M: MachineTypes>(t: &mut Tokenizer<'a, M>) -> Result<State, AllocError>
    requires { IsCallable text_byte code_line t.old }
    ensures { IfOk result (DoesAll (step_in text_byte code_line t.old) t.old t.new) }
{
    match t.current() {
        Some(b' ' | b'\t') => {
            t.enter(event::Name::SpaceOrTab)?;
            t.consume();
            Ok(State::Next(construct_names::RawTextLineWhite))
        }
        _ => Ok(State::Retry(Name::RawTextBetween)),
    }
}

/// In white space of a further line of a code span.
pub fn code_white<'a, M: MachineTypes>(t: &mut Tokenizer<'a, M>) -> Result<State, AllocError>
    requires { IsCallable text_byte code_white t.old }
    ensures { IfOk result (DoesAll (step_in text_byte code_white t.old) t.old t.new) }
{
    match t.current() {
        Some(b' ' | b'\t') => {
            t.consume();
            Ok(State::Next(construct_names::RawTextLineWhite))
        }
        _ => {
            t.exit(event::Name::SpaceOrTab)?;
            Ok(State::Retry(Name::RawTextBetween))
        }
    }
}

/// At a backtick string that closes nothing: it begins data of the code span, and is noted.
pub fn remembered_chunk<'a, M: MachineTypes>(
    alloc: Global,
    t: &mut Tokenizer<'a, M>,
) -> Result<State, AllocError>
    requires { IsCallable text_byte remembered_chunk t.old }
    ensures { IfOk result (DoesAll (step_in text_byte remembered_chunk t.old) t.old t.new) }
{
    t.enter(event::Name::CodeTextData)?;
    let index = last_index(t);
    note_run(alloc, t, index)?;
    Ok(State::Retry(names::RawTextBackticksInside))
}

/// Whether it is known that nothing ahead closes the code span.
fn is_hopeless<'a, M: MachineTypes>(t: &Tokenizer<'a, M>) -> bool
    ensures { result ≡ is_hopeless t.now.given (sight_of t.now) t.now.configuration }
{
    t.tokenize_state.seen
        && !is_ahead(
            t.tokenize_state.document_container_stack.as_slice(),
            t.tokenize_state.size_b,
            t.point().index,
        )
}

/// Whether one of this length was seen that does not begin before this index.
fn is_ahead(runs: &[ContainerState], length: usize, index: usize) -> bool
    ensures { result ≡ is_ahead runs.now length index }
{
    length < runs.len() && is_seen_from(&runs[length], index)
}

/// Whether this says that one was seen that does not begin before this index.
fn is_seen_from(last: &ContainerState, index: usize) -> bool
    ensures { result ≡ is_seen_from last.now index }
{
    last.blank_initial && index <= last.size
}

/// All backtick strings were seen.
fn set_all_seen<'a, M: MachineTypes>(t: &mut Tokenizer<'a, M>)
    ensures { t.new ≡ at_configuration t.old (with_local t.old.configuration (runs_are_seen t.old.configuration)) }
{
    t.tokenize_state.seen = true;
}

/// The index at which the last event is.
fn last_index<'a, M: MachineTypes>(t: &Tokenizer<'a, M>) -> usize
    ensures { result ≡ index_of (last_or None t.now.configuration.events) }
{
    match t.events().last() {
        None => 0,
        Some(event) => event.point.index,
    }
}

/// Notes that a backtick string of the length that was read begins at this index.
fn note_run<'a, M: MachineTypes>(
    alloc: Global,
    t: &mut Tokenizer<'a, M>,
    index: usize,
) -> Result<(), AllocError>
    ensures { OnOk result (t.new ≡ at_configuration t.old (with_local t.old.configuration (with_run_at index t.old.configuration.local))) }
{
    let length = t.tokenize_state.size_c;
    let none = Items::new(alloc);
    let mut runs = replace(&mut t.tokenize_state.document_container_stack, none).into_vec();
    let noted = add_run(&mut runs, length, index);
    t.tokenize_state.document_container_stack = Items::from_vec(runs);
    noted
}

/// One of this length was seen, which begins at this index.
fn add_run(runs: &mut Vec<ContainerState>, length: usize, index: usize) -> Result<(), AllocError>
    ensures { OnOk result (runs.new.items ≡ with_run runs.old.items length index) }
{
    if runs.len() <= length {
        runs.resize(length, unseen())?;
        runs.push(seen_at(index))?;
        return Ok(());
    }
    let last = runs[length];
    runs[length] = later_of(last, index);
    Ok(())
}

/// None was seen.
fn unseen() -> ContainerState
    ensures { result ≡ unseen }
{
    ContainerState {
        kind: Container::BlockQuote,
        blank_initial: false,
        size: 0,
    }
}

/// One was seen, which begins at this index.
fn seen_at(index: usize) -> ContainerState
    ensures { result ≡ seen_at index }
{
    ContainerState {
        kind: Container::BlockQuote,
        blank_initial: true,
        size: index,
    }
}

/// The last of those that were seen and of this one.
fn later_of(last: ContainerState, index: usize) -> ContainerState
    ensures { result ≡ later_of last index }
{
    if is_seen_from(&last, index) {
        last
    } else {
        seen_at(index)
    }
}
