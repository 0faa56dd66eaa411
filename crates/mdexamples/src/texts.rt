//! The texts of the code spans and autolinks of a document.

ghost use Rattle.std.specs.Prelude.{◌≡◌, length, map, IfOk};
ghost use Rattle.markdown.specs.AtPlaces.{AreAtPlaces};
ghost use Rattle.markdown.specs.Engine.{given_by, whole_text};
ghost use Rattle.markdown.specs.Events.{IsBalanced, IsInOrder};
ghost use Rattle.markdown.specs.Virtual.{IsWithinLimit};
ghost use Rattle.mdconstructs.specs.TextEvents.{text_events};
ghost use Rattle.mdexamples.specs.Texts.{EndsAt, ends_span, text_at, texts_upto};

use markdown::configuration::{ParseOptions, TabSize};
use markdown::event::{self, Event, Kind};
use markdown::tokenizer::Fault;
use markdown::util::slice::{Position, Slice};
use mdconstructs::read_text;
use std::alloc::{AllocError, Global};

/// The bytes of each code span and autolink of a document that is read as text, with the markers, in the order in which they
/// end. Each is a part of the document. The only fault is `Memory`: it runs out of memory.
pub fn texts_of_spans<'a>(
    alloc: Global,
    bytes: &'a [u8],
    options: &ParseOptions,
) -> Result<Vec<&'a [u8]>, Fault>
    requires limit { IsWithinLimit options.now.tab_size bytes.now }
    ensures texts { IfOk result (λ texts. let g = given_by bytes.now options.now in
        let events = text_events g (whole_text g) in map (λ text. text.now) texts.items ≡ texts_upto bytes.now events (length events)) }
{
    let events = read_text(alloc, bytes, options, &[])?;
    let mut texts = Vec::new(alloc);
    for index in 0..events.len() {
        if ends_span(&events[index]) {
            let text = text_at(bytes, options.tab_size, events.as_slice(), index);
            if let Err(error) = texts.push(text) {
                return Err(AllocError::from(error).into());
            }
        }
    }
    Ok(texts)
}

/// The bytes of the span that an event ends, with its markers. The events are those of a reading, before resolvers.
pub fn text_at<'a>(bytes: &'a [u8], tab_size: TabSize, events: &[Event], index: usize) -> &'a [u8]
    requires ends { EndsAt events.now index }
    requires balanced { IsBalanced events.now }
    requires at_places { AreAtPlaces tab_size bytes.now events.now }
    requires in_order { IsInOrder bytes.now events.now }
    ensures { result.now ≡ text_at bytes.now events.now index }
{
    let position = Position::from_exit_event(events, index);
    Slice::from_position(bytes, tab_size, &position).bytes
}

/// Whether an event ends a code span or an autolink.
fn ends_span(event: &Event) -> bool
    ensures { result ≡ ends_span event.now }
{
    event.kind == Kind::Exit
        && (event.name == event::Name::CodeText || event.name == event::Name::Autolink)
}
