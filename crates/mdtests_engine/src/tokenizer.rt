//! Calls that take memory succeed if there is memory.

ghost use Rattle.std.specs.Prelude.{◌+◌, ◌<◌};

use crate::shown::assert_shown;
use markdown::configuration::ParseOptions;
use markdown::event::{Content, Link, Name, Point};
use markdown::parser::ParseState;
use markdown::state::{self, MachineTypes, State};
use markdown::tokenizer::Tokenizer;
use mdtests_base::shown::push_events;
use std::alloc::{AllocError, Global};

/// A machine's types, with no machine.
#[derive(Drop)]
pub(crate) struct Types {}

impl MachineTypes for Types {
    type Resolver = u8;

    type Document = ();
}

const LINK: Link = Link {
    previous: None,
    next: None,
    content: Content::Text,
};

/// Choices and spans begin, the second span linked, and more choices in them.
fn begin(t: &mut Tokenizer<Types>) -> Result<(), AllocError> {
    t.attempt(State::Next(state::Name::DataStart), State::Nok)?;
    t.check(State::Ok, State::Nok)?;
    t.enter(Name::Paragraph)?;
    t.enter_link(Name::Data, LINK)?;
    t.attempt(State::Next(state::Name::DataStart), State::Nok)?;
    t.check(State::Ok, State::Nok)
}

/// Three resolvers are registered, two of them twice.
fn register(t: &mut Tokenizer<Types>) -> Result<(), AllocError> {
    t.register_resolver(1)?;
    t.register_resolver_before(2)?;
    t.register_resolver_before(1)?;
    t.register_resolver(2)?;
    t.register_resolver(3)
}

/// Forty-seven more resolvers are registered.
fn register_more(t: &mut Tokenizer<Types>) -> Result<(), AllocError> {
    for name in 4..51 {
        t.register_resolver(name)?;
    }
    Ok(())
}

/// Begins and registers. Appends the events, whether each resolver is registered once, in order, how many spans are open after
/// three hundred more, and how many resolvers there are then.
fn push_all(text: &mut String, t: &mut Tokenizer<Types>) -> Result<(), AllocError> {
    begin(t)?;
    push_events(text, t.events())?;
    register(t)?;
    let in_order = t.resolvers() == [2, 1, 3].as_slice();
    for _ in 0..300 {
        t.enter(Name::BlockQuote)?;
    }
    register_more(t)?;
    let (open, resolvers) = (t.stack().len(), t.resolvers().len());
    write!(
        text,
        "; in order: {in_order}; {open} open, {resolvers} resolvers"
    )
}

/// What is begun and registered by a new tokenizer.
fn begun(alloc: Global, parse_state: &ParseState<Types>) -> Result<String, AllocError> {
    let mut text = String::new(alloc);
    let mut tokenizer = Tokenizer::new(alloc, Point::START, parse_state);
    let pushed = push_all(&mut text, &mut tokenizer);
    drop(tokenizer);
    pushed?;
    Ok(text)
}

/// Spans and choices begin, and each resolver is registered once, in order.
#[test]
fn spans_choices_and_resolvers_begin(rt: HostRuntime) {
    let options = ParseOptions::default();
    let parse_state = ParseState {
        bytes: b"a",
        options: &options,
        machine: &Types {},
    };
    let want =
        "enter Paragraph 1:1 (0+0); enter Data 1:1 (0+0) Text None None; in order: true; 302 open, 50 resolvers";
    assert_shown(&rt, begun(rt.alloc(), &parse_state), want);
}
