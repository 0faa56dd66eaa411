//! The ranges of a document, pushed one by one, and the gaps between them.

ghost use Rattle.std.specs.Prelude.{◌≡◌, ◌*◌, ◌<◌, Contains};
ghost use Rattle.markdown.specs.Virtual.{IsWithinLimit, point};
ghost use Rattle.markdown.specs.Configuration.{start_seen};
ghost use Rattle.markdown.specs.Engine.{given_of};
ghost use Rattle.markdown.specs.Ranges.{FollowOn};
ghost use Rattle.markdown.specs.Text.{IsDocument, empty_text};
ghost use Rattle.mdtests_base.specs.Documents.{given_in_tabs, options_in_tabs};

use crate::shown::push_events;
use markdown::configuration::{ParseOptions, TabSize};
use markdown::event::{Event, Point};
use markdown::parser::ParseState;
use markdown::state::{Machine, Name, State};
use markdown::tokenizer::{AfterGap, Tokenizer};
use std::alloc::{AllocError, Global};

/// What was seen after a push: the byte before, the number of calls so far, and the number of events.
#[derive(Clone, Copy, PartialEq, Eq)]
pub struct Pushed {
    pub previous: Option<u8>,
    pub calls: usize,
    pub events: usize,
}

/// What was seen as a document was read: after each push, the number of calls in all, and the events.
#[derive(Drop)]
pub struct Seen {
    pub pushed: Vec<Pushed>,
    pub calls: usize,
    pub events: Vec<Event>,
}

/// Reads ranges that follow on one another, with the default options but for the size of tabs.
pub fn read_by<M: Machine>(
    alloc: Global,
    machine: &M,
    start: Name,
    bytes: &[u8],
    tab: TabSize,
    ranges: &[AfterGap],
) -> Result<Seen, AllocError>
    requires limit { IsWithinLimit tab bytes.now }
    requires start { Contains (M.rules machine.now (given_in_tabs tab bytes.now)).starts start }
    requires ranges { FollowOn tab bytes.now (point 1 1 0 0) ranges.now }
{
    let options = options_in_tabs(tab);
    let Some(parse_state) = ParseState::new(bytes, &options, machine) else {
        unreachable!();
    };
    let mut tokenizer = Tokenizer::new(alloc, Point::START, &parse_state);
    let seen = drive(alloc, &mut tokenizer, &parse_state, start, ranges);
    drop(tokenizer);
    seen
}

/// The default options, but for the size of tabs.
fn options_in_tabs(tab: TabSize) -> ParseOptions
    ensures { result ≡ options_in_tabs tab }
{
    ParseOptions {
        tab_size: tab,
        ..ParseOptions::default()
    }
}

/// Drives a new tokenizer over ranges.
fn drive<'a, M: Machine>(
    alloc: Global,
    tokenizer: &mut Tokenizer<'a, M>,
    parse_state: &ParseState<'a, M>,
    start: Name,
    ranges: &[AfterGap],
) -> Result<Seen, AllocError>
    requires document { IsDocument (given_of parse_state.now) }
    requires fresh { tokenizer.old ≡ start_seen (given_of parse_state.now) parse_state.now.machine.now (empty_text (point 1 1 0 0)) }
    requires start { Contains (M.rules parse_state.now.machine.now (given_of parse_state.now)).starts start }
    requires ranges { FollowOn parse_state.now.options.now.tab_size parse_state.now.bytes.now (point 1 1 0 0) ranges.now }
{
    let mut pushed = Vec::new(alloc);
    push_all(tokenizer, parse_state, start, ranges, &mut pushed)?;
    let mut events = Vec::new(alloc);
    events.extend_from_slice(tokenizer.events())?;
    Ok(Seen {
        pushed,
        calls: tokenizer.tokenize_state.size,
        events,
    })
}

/// For a new tokenizer: passes the gap before each range, if there is one, and pushes the range. Flushes at the end. Adds to the
/// list what is seen after each push.
fn push_all<'a, M: Machine>(
    tokenizer: &mut Tokenizer<'a, M>,
    parse_state: &ParseState<'a, M>,
    start: Name,
    ranges: &[AfterGap],
    pushed: &mut Vec<Pushed>,
) -> Result<(), AllocError>
    requires document { IsDocument (given_of parse_state.now) }
    requires fresh { tokenizer.old ≡ start_seen (given_of parse_state.now) parse_state.now.machine.now (empty_text (point 1 1 0 0)) }
    requires start { Contains (M.rules parse_state.now.machine.now (given_of parse_state.now)).starts start }
    requires ranges { FollowOn parse_state.now.options.now.tab_size parse_state.now.bytes.now (point 1 1 0 0) ranges.now }
{
    let mut state = State::Next(start);
    for (gap, from, to) in ranges {
        if let Some(place) = gap {
            tokenizer.define_skip(*place)?;
        }
        state = match tokenizer.push(*from, *to, state) {
            Ok(next) => next,
            Err(_) => return Err(AllocError),
        };
        pushed.push(seen_of(tokenizer))?;
    }
    match tokenizer.flush(state, false) {
        Ok(_) => Ok(()),
        Err(_) => Err(AllocError),
    }
}

/// What is seen of a tokenizer.
fn seen_of<'a, M: Machine>(tokenizer: &Tokenizer<'a, M>) -> Pushed {
    Pushed {
        previous: tokenizer.previous(),
        calls: tokenizer.tokenize_state.size,
        events: tokenizer.events().len(),
    }
}

/// The number of calls in all, and the events that were seen.
pub fn told(alloc: Global, seen: Result<Seen, AllocError>) -> Result<String, AllocError> {
    let seen = seen?;
    let mut text = format!(in alloc; "{} calls: ", seen.calls)?;
    push_events(&mut text, seen.events.as_slice())?;
    Ok(text)
}
