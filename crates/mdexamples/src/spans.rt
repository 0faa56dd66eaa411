//! The code spans of a document. The document is read range by range.

ghost use Rattle.std.specs.Prelude.{◌≡◌, ◌<◌, length, All, Contains};
ghost use Rattle.markdown.specs.Virtual.{point};
ghost use Rattle.markdown.specs.Configuration.{start_seen};
ghost use Rattle.markdown.specs.Engine.{AreCuts, given_of};
ghost use Rattle.markdown.specs.Events.{EndsBelow};
ghost use Rattle.markdown.specs.Text.{IsDocument, empty_text};

use markdown::configuration::ParseOptions;
use markdown::event::{self, Content, Event, Kind, Point};
use markdown::parser::ParseState;
use markdown::state::{Machine, Name, State};
use markdown::subtokenize::{Subresult, ready, subtokenize};
use markdown::tokenizer::{Fault, Tokenizer, cuts_every};
use markdown::util::edit_map::EditMap;
use markdown::util::skip::to;
use mdconstructs::Text;
use std::alloc::{AllocError, Global};

/// The places of the code spans of a document, a line each, as `1:5 to 1:8`, and how many events there are. The document is
/// pushed in ranges of `size` virtual bytes; the result does not depend on it. Returns `None` if the document is too long: the tab size times its length, and one
/// more, must fit `usize`.
pub fn code_spans(alloc: Global, bytes: &[u8], size: usize) -> Result<Option<String>, Fault>
    requires { 0 < size }
{
    let options = ParseOptions::default();
    let machine = Text {};
    let Some(document) = ParseState::new(bytes, &options, &machine) else {
        return Ok(None);
    };
    let cuts = cuts_every(alloc, bytes, options.tab_size, size)?;
    let mut events = read(alloc, &document, Name::FlowStart, cuts.as_slice())?;
    read_texts(alloc, &mut events, &document)?;
    Ok(Some(listed(alloc, events.as_slice())?))
}

/// The events of a document that is cut at these places.
fn read<M: Machine>(
    alloc: Global,
    document: &ParseState<M>,
    start: Name,
    cuts: &[(usize, usize)],
) -> Result<Vec<Event>, Fault>
    requires start { Contains (M.rules document.now.machine.now (given_of document.now)).starts start }
    requires cuts { AreCuts document.now.options.now.tab_size document.now.bytes.now cuts.now }
{
    let mut tokenizer = Tokenizer::new(alloc, Point::START, document);
    let found = push_ranges(&mut tokenizer, document, start, cuts);
    let events = tokenizer.into_events();
    found?;
    Ok(events)
}

/// Pushes a range up to each cut, and one up to the end, and flushes.
fn push_ranges<M: Machine>(
    tokenizer: &mut Tokenizer<M>,
    document: &ParseState<M>,
    start: Name,
    cuts: &[(usize, usize)],
) -> Result<Subresult, Fault>
    requires begins { tokenizer.old ≡ start_seen (given_of document.now) document.now.machine.now (empty_text (point 1 1 0 0)) }
    requires document { IsDocument (given_of document.now) }
    requires start { Contains (M.rules document.now.machine.now (given_of document.now)).starts start }
    requires cuts { AreCuts document.now.options.now.tab_size document.now.bytes.now cuts.now }
{
    let mut state = State::Next(start);
    let mut from = (0, 0);
    for cut in cuts {
        state = tokenizer.push(from, *cut, state)?;
        from = *cut;
    }
    let end = (document.bytes.len(), 0);
    let state = tokenizer.push(from, end, state)?;
    tokenizer.flush(state, false)
}

/// Reads the chains of text, replaces their chunks by their events, and drops the marker with which the first code span begins.
fn read_texts<M: Machine>(
    alloc: Global,
    events: &mut Vec<Event>,
    document: &ParseState<M>,
) -> Result<(), Fault>
    requires { Contains (M.rules document.now.machine.now (given_of document.now)).starts Name.TextStart }
{
    let text = Some(&Content::Text);
    let tab_size = document.options.tab_size;
    if !ready(alloc, events.as_slice(), document.bytes, tab_size, text)? {
        return Ok(());
    }
    subtokenize(alloc, events, document, text)?;
    drop_first(alloc, events, event::Name::CodeTextSequence)?;
    Ok(())
}

/// Drops the first span of a void name: two events. If there is none, nothing changes.
fn drop_first(alloc: Global, events: &mut Vec<Event>, name: event::Name) -> Result<(), AllocError>
    requires { All (EndsBelow (length events.old.items)) events.old.items }
{
    let index = to(events.as_slice(), 0, &[name]);
    if index >= events.len() || events.len() - index < 2 {
        return Ok(());
    }
    let mut map = EditMap::new(alloc);
    map.add(index, 2, Vec::new(alloc))?;
    map.consume(events)
}

/// The places of the code spans among events, a line each, and how many events there are.
fn listed(alloc: Global, events: &[Event]) -> Result<String, AllocError> {
    let mut text = String::new(alloc);
    for event in events {
        if event.name == event::Name::CodeText {
            let Point { line, column, .. } = event.point;
            match event.kind {
                Kind::Enter => write!(text, "{line}:{column} to ")?,
                Kind::Exit => writeln!(text, "{line}:{column}")?,
            }
        }
    }
    writeln!(text, "{} events", events.len())?;
    Ok(text)
}
