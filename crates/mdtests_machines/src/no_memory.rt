//! Calls that take no memory. A test here takes none, or passes if its setup runs out of memory. So it passes whichever
//! allocation `rt try --test --fail-alloc N` makes fail.

ghost use Rattle.std.specs.Prelude.{◌<◌};

use markdown::configuration::ParseOptions;
use markdown::event::Point;
use markdown::parser::ParseState;
use markdown::state::Name;
use markdown::tokenizer::Tokenizer;
use mdconstructs_machines::fail::Fail;
use mdtests_base::documents::lines_by;
use std::alloc::Global;

/// Whether a machine that passes each byte reads a document, and makes no event.
fn is_passed(alloc: Global) -> bool {
    let machine = Fail { at: 8 };
    match lines_by(alloc, &machine, Name::TextStart, b"a\r\n\tb", 9, true) {
        Ok(lines) => lines.is_empty(),
        Err(_) => false,
    }
}

/// Whether a tokenizer says that it has read nothing.
fn has_read_nothing(t: &Tokenizer<Fail>) -> bool {
    t.point() == Point::START
        && t.previous().is_none()
        && t.current().is_none()
        && t.stack().is_empty()
        && t.resolvers().is_empty()
}

/// Whether a new tokenizer is read as one that has read nothing, and gives no event.
fn is_new(alloc: Global, parse_state: &ParseState<Fail>) -> bool {
    let t = Tokenizer::new(alloc, Point::START, parse_state);
    let is_new = has_read_nothing(&t);
    let events = t.into_events();
    is_new && events.is_empty()
}

#[test]
fn reading_without_events_takes_no_memory(rt: HostRuntime) {
    let options = ParseOptions::default();
    let parse_state = ParseState {
        bytes: b"a",
        options: &options,
        machine: &Fail { at: 8 },
    };
    assert!(rt; is_new(rt.alloc(), &parse_state));
    assert!(rt; is_passed(rt.alloc()));
}
