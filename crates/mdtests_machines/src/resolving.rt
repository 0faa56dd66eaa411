//! Resolvers run over the events once all was read.

ghost use Rattle.std.specs.Prelude.{◌≡◌, OnOk};
ghost use Rattle.markdown.specs.Virtual.{point};
ghost use Rattle.markdown.specs.Configuration.{at_configuration, start_seen};
ghost use Rattle.markdown.specs.Engine.{given_of};
ghost use Rattle.markdown.specs.Text.{IsDocument, empty_text};
ghost use Rattle.mdtests_machines.specs.Found.{with_definition};

use crate::shown::assert_shown;
use markdown::configuration::ParseOptions;
use markdown::event::Point;
use markdown::owned::OwnedText;
use markdown::parser::ParseState;
use markdown::state::{Name, State};
use markdown::subtokenize::Subresult;
use markdown::tokenizer::{Fault, Tokenizer};
use mdconstructs_machines::wrap::{Resolver, Wrap};
use mdtests_base::driven::read;
use mdtests_base::shown::{owned, push_answer};
use std::alloc::{AllocError, Global};

/// Reads `a` up to its end, with the machine that wraps. Returns the results, and how the tokenizer was left: whether these
/// resolvers are registered.
fn read_one(
    alloc: Global,
    refuse: bool,
    resolve: bool,
    resolvers: &[Resolver],
) -> Result<String, AllocError> {
    let options = ParseOptions::default();
    let machine = Wrap { refuse };
    let parse_state = ParseState {
        bytes: b"a",
        options: &options,
        machine: &machine,
    };
    read(
        alloc,
        &parse_state,
        Name::TextStart,
        (1, 0),
        resolve,
        resolvers,
    )
}

/// Whether the machine's resolvers refuse the document, whether they run over the events, the resolvers that stay registered,
/// and the results.
const ANSWERS: &[(bool, bool, &[Resolver], &str)] = &[
    (
        false,
        true,
        &[Resolver::C],
        "next\n\
            next\n\
            done: false, notes: 0, definitions: A\n\
            tokenizer has failed\n\
            4 calls\n\
            these resolvers: true\n\
            enter Paragraph 1:1 (0+0); CodeTextData 1:1 (0+0) to 1:2 (1+0); exit Paragraph 1:2 (1+0)",
    ),
    (
        true,
        false,
        &[Resolver::B, Resolver::A],
        "next\n\
            next\n\
            done: false, notes: 0, definitions:\n\
            tokenizer has failed\n\
            4 calls\n\
            these resolvers: true\n\
            Data 1:1 (0+0) to 1:2 (1+0)",
    ),
    (
        true,
        true,
        &[],
        "next\n\
        next\n\
        1:2: x (markdown:r)\n\
        tokenizer has failed\n\
        4 calls\n",
    ),
];

/// Resolvers wrap what was read; they stay if no flush resolves; or one refuses the document.
#[test]
fn resolvers_go_over_what_was_read(rt: HostRuntime) {
    for (refuse, resolve, resolvers, want) in ANSWERS {
        let read = read_one(rt.alloc(), *refuse, *resolve, resolvers);
        assert_shown(&rt, read, want);
    }
}

/// Appends a definition to those that states found.
fn find<'a>(tokenizer: &mut Tokenizer<'a, Wrap>, label: OwnedText) -> Result<(), AllocError>
    ensures { OnOk result (tokenizer.new ≡ at_configuration tokenizer.old (with_definition tokenizer.old.configuration label)) }
{
    tokenizer.tokenize_state.definitions.push(label)
}

/// Reads the document with a tokenizer that has read nothing; then a definition is found, and resolvers run.
fn flush_found<'a>(
    tokenizer: &mut Tokenizer<'a, Wrap>,
    parse_state: &ParseState<'a, Wrap>,
    label: OwnedText,
) -> Result<Subresult, Fault>
    requires begins { tokenizer.old ≡ start_seen (given_of parse_state.now) parse_state.now.machine.now (empty_text (point 1 1 0 0)) }
    requires document { IsDocument (given_of parse_state.now) }
{
    let end = (parse_state.bytes.len(), 0);
    let state = tokenizer.push((0, 0), end, State::Next(Name::TextStart))?;
    find(tokenizer, label)?;
    tokenizer.flush(state, true)
}

/// Reads a document, in which the definition `x` is found.
fn read_found(alloc: Global, parse_state: &ParseState<Wrap>) -> Result<Subresult, Fault> {
    let label = owned(alloc, "x")?;
    let mut tokenizer = Tokenizer::new(alloc, Point::START, parse_state);
    flush_found(&mut tokenizer, parse_state, label)
}

/// Reads `a`, finds the definition `x`, and shows what the flush returns.
fn found(alloc: Global) -> Result<String, AllocError> {
    let options = ParseOptions::default();
    let machine = Wrap { refuse: false };
    let parse_state = ParseState {
        bytes: b"a",
        options: &options,
        machine: &machine,
    };
    let flushed = read_found(alloc, &parse_state);
    let mut text = String::new(alloc);
    push_answer(&mut text, &flushed)?;
    Ok(text)
}

/// Definitions that states found come first, also if the first resolver finds nothing.
#[test]
fn definitions_of_states_come_first(rt: HostRuntime) {
    let found = found(rt.alloc());
    assert_shown(&rt, found, "done: false, notes: 0, definitions: x A\n");
}
