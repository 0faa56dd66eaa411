//! Chains read by machines, and their children put in the list, with expected lists worked by hand.

ghost use Rattle.markdown.specs.Virtual.{IsWithinLimit};
ghost use Rattle.std.specs.Prelude.{◌≡◌, ◌+◌, ◌<◌, None, Some, Contains, IfOk};
ghost use Rattle.markdown.specs.Presets.{default_parse_options};
ghost use Rattle.markdown.specs.Engine.{given_by, given_of};
ghost use Rattle.markdown.specs.Reads.{GivesChildren, start_name};
ghost use Rattle.markdown.specs.Ready.{IsReady};
ghost use Rattle.markdown.specs.Text.{IsDocument};

use crate::shown::assert_shown;
use markdown::configuration::ParseOptions;
use markdown::event::{Content, Event, Name};
use markdown::laws::all_chains_are_ready;
use markdown::parser::ParseState;
use markdown::state::{self, Machine};
use markdown::subtokenize::{Subresult, ready, subtokenize};
use markdown::tokenizer::Fault;
use mdconstructs_machines::deep::Deep;
use mdconstructs_machines::fail::Fail;
use mdconstructs_machines::paragraphs::Paragraphs;
use mdconstructs_machines::wrap::Wrap;
use mdinline_text_machine::laws::other_chains_stay_ready_after_texts;
use mdinline_text_machine::text::Text;
use mdtests_base::chunks::Row::{Chunk, Enter, Exit, Span};
use mdtests_base::chunks::{
    CHAIN_AROUND_ANOTHER, CHAIN_AROUND_CHILDREN, EMPTY_CHUNK, ONE_EMPTY_CHUNK, QUOTE, Row, listed,
};
use mdtests_base::shown::told;
use std::alloc::{AllocError, Global};

/// Puts the children of the chains of one content in their place, read from this start. Returns the result, and then the list as it
/// is afterwards.
fn put_children<M: Machine>(
    alloc: Global,
    events: &mut Vec<Event>,
    bytes: &[u8],
    machine: &M,
    content: Content,
    start: state::Name,
) -> Result<String, AllocError>
    requires limit { IsWithinLimit 4 bytes.now }
    requires name { start_name content ≡ Some start }
    requires start { Contains (M.rules machine.now (given_by bytes.now default_parse_options)).starts start }
{
    let options = ParseOptions::default();
    let tab = options.tab_size;
    if !ready(alloc, events.as_slice(), bytes, tab, Some(&content))? {
        return String::from_str(alloc, "not ready");
    }
    let parse_state = ParseState {
        bytes,
        options: &options,
        machine,
    };
    let answer = subtokenize(alloc, events, &parse_state, Some(&content));
    told(alloc, &answer, events.as_slice())
}

/// What reads the chains of a list.
#[derive(Clone, Copy)]
enum Reader {
    /// Reads text as lines of data.
    Lines,
    /// Reads strings, with an attempt at each byte.
    Attempts,
    /// Refuses the document at the call after this many.
    Refuses(usize),
    /// Its resolvers wrap the data of text, or refuse the document.
    Wraps(bool),
}

/// Puts the children of the chains that a machine reads in their place. Returns the result, and then the list as it is afterwards.
fn with_children(
    alloc: Global,
    list: &[Row],
    bytes: &[u8],
    reader: Reader,
) -> Result<String, AllocError>
    requires limit { IsWithinLimit 4 bytes.now }
{
    let mut events = listed(alloc, list)?;
    let start = state::Name::TextStart;
    match reader {
        Reader::Lines => {
            let machine = Paragraphs {};
            put_children(alloc, &mut events, bytes, &machine, Content::Text, start)
        }
        Reader::Attempts => {
            let start = state::Name::StringStart;
            put_children(alloc, &mut events, bytes, &Deep {}, Content::String, start)
        }
        Reader::Refuses(at) => {
            let machine = Fail { at };
            put_children(alloc, &mut events, bytes, &machine, Content::Text, start)
        }
        Reader::Wraps(refuse) => {
            let machine = Wrap { refuse };
            put_children(alloc, &mut events, bytes, &machine, Content::Text, start)
        }
    }
}

/// A paragraph of two lines, the second quoted, over a carriage return with a line feed.
const AFTER_CRLF: [Row; 5] = [
    Enter(Name::Paragraph, (1, 1, 0, 0)),
    Chunk((1, 1, 0, 0), (2, 1, 3, 0), Content::Text, None, Some(5)),
    Span(Name::BlockQuotePrefix, (2, 1, 3, 0), (2, 3, 5, 0)),
    Chunk((2, 3, 5, 0), (2, 4, 6, 0), Content::Text, Some(1), None),
    Exit(Name::Paragraph, (2, 4, 6, 0)),
];

/// A paragraph, a byte a chunk.
const TWO_BYTES: [Row; 4] = [
    Enter(Name::Paragraph, (1, 1, 0, 0)),
    Chunk((1, 1, 0, 0), (1, 2, 1, 0), Content::Text, None, Some(3)),
    Chunk((1, 2, 1, 0), (1, 3, 2, 0), Content::Text, Some(1), None),
    Exit(Name::Paragraph, (1, 3, 2, 0)),
];

/// A paragraph of two lines, the second quoted, as a string.
const AFTER_LF: [Row; 5] = [
    Enter(Name::Paragraph, (1, 1, 0, 0)),
    Chunk((1, 1, 0, 0), (2, 1, 2, 0), Content::String, None, Some(5)),
    Span(Name::BlockQuotePrefix, (2, 1, 2, 0), (2, 3, 4, 0)),
    Chunk((2, 3, 4, 0), (2, 4, 5, 0), Content::String, Some(1), None),
    Exit(Name::Paragraph, (2, 4, 5, 0)),
];

/// `"abc"` as two chunks, each in a chain of its own.
const TWO_CHAINS: [Row; 2] = [
    Chunk((1, 1, 0, 0), (1, 2, 1, 0), Content::Text, None, None),
    Chunk((1, 2, 1, 0), (1, 4, 3, 0), Content::Text, None, None),
];

/// The lines of two chains that were left as they are, behind a machine's message.
const REFUSED: &str =
    "1:2: x (markdown:r)\nData 1:1 (0+0) Text None None to 1:2 (1+0); Data 1:2 (1+0) Text None None to 1:4 (3+0)";

/// A list, its document, what reads its chains, and the result.
const LISTS: &[(&[Row], &[u8], Reader, &str)] = &[
    // A child is in place of its chunks.
    (
        &QUOTE,
        b"> a\n> b",
        Reader::Lines,
        "done: false, notes: 0, definitions:\n\
            enter BlockQuote 1:1 (0+0); BlockQuotePrefix 1:1 (0+0) to 1:3 (2+0); enter Paragraph 1:3 (2+0); \
            Data 1:3 (2+0) to 1:4 (3+0); LineEnding 1:4 (3+0) to 2:1 (4+0); \
            BlockQuotePrefix 2:1 (4+0) to 2:3 (6+0); Data 2:3 (6+0) to 2:4 (7+0); exit Paragraph 2:4 (7+0); \
            exit BlockQuote 2:4 (7+0)",
    ),
    // A gap follows a carriage return and line feed.
    (
        &AFTER_CRLF,
        b"a\r\n> b",
        Reader::Lines,
        "done: false, notes: 0, definitions:\n\
            enter Paragraph 1:1 (0+0); Data 1:1 (0+0) to 1:2 (1+0); LineEnding 1:2 (1+0) to 2:1 (3+0); \
            BlockQuotePrefix 2:1 (3+0) to 2:3 (5+0); Data 2:3 (5+0) to 2:4 (6+0); exit Paragraph 2:4 (6+0)",
    ),
    // A border of chunks is no border of children.
    (
        &TWO_BYTES,
        b"ab",
        Reader::Lines,
        "done: false, notes: 0, definitions:\n\
            enter Paragraph 1:1 (0+0); Data 1:1 (0+0) to 1:3 (2+0); exit Paragraph 1:3 (2+0)",
    ),
    // A chunk of no text gets no events.
    (
        &EMPTY_CHUNK,
        b"a\nb",
        Reader::Lines,
        "done: false, notes: 0, definitions:\n\
            enter Paragraph 1:1 (0+0); Data 1:1 (0+0) to 1:2 (1+0); LineEnding 1:2 (1+0) to 2:1 (2+0); \
            Data 2:1 (2+0) to 2:2 (3+0); exit Paragraph 2:2 (3+0)",
    ),
    // A chain of no text has no events.
    (
        &ONE_EMPTY_CHUNK,
        b"a",
        Reader::Lines,
        "done: false, notes: 0, definitions:\n\
            enter Paragraph 1:1 (0+0); Data 1:1 (0+0) to 1:2 (1+0); exit Paragraph 1:2 (1+0)",
    ),
    // A chain around the edits keeps both ends.
    (
        &CHAIN_AROUND_ANOTHER,
        b"ab\ncd",
        Reader::Lines,
        "done: false, notes: 0, definitions:\n\
            Data 1:1 (0+0) String None Some(8) to 1:2 (1+0); Data 1:2 (1+0) to 1:3 (2+0); \
            LineEnding 1:3 (2+0) to 2:1 (3+0); Data 2:1 (3+0) to 2:2 (4+0); \
            Data 2:2 (4+0) String Some(0) None to 2:3 (5+0)",
    ),
    // Chains are read once.
    (
        &CHAIN_AROUND_CHILDREN,
        b"ab\ncd",
        Reader::Lines,
        "done: true, notes: 0, definitions:\n\
            Data 1:1 (0+0) String None Some(8) to 1:2 (1+0); Data 1:2 (1+0) to 1:3 (2+0); \
            LineEnding 1:3 (2+0) to 2:1 (3+0); Data 2:1 (3+0) to 2:2 (4+0); \
            Data 2:2 (4+0) String Some(0) None to 2:3 (5+0)",
    ),
    // Nothing is done if no chain fits.
    (
        &QUOTE,
        b"> a\n> b",
        Reader::Attempts,
        "done: true, notes: 0, definitions:\n\
            enter BlockQuote 1:1 (0+0); BlockQuotePrefix 1:1 (0+0) to 1:3 (2+0); enter Paragraph 1:3 (2+0); \
            Data 1:3 (2+0) Text None Some(8) to 2:1 (4+0); BlockQuotePrefix 2:1 (4+0) to 2:3 (6+0); \
            Data 2:3 (6+0) Text Some(4) None to 2:4 (7+0); exit Paragraph 2:4 (7+0); exit BlockQuote 2:4 (7+0)",
    ),
    // A choice of a child goes back over the gap.
    (
        &AFTER_LF,
        b"a\n> b",
        Reader::Attempts,
        "done: false, notes: 0, definitions:\n\
            enter Paragraph 1:1 (0+0); Data 1:1 (0+0) to 1:2 (1+0); LineEnding 1:2 (1+0) to 2:1 (2+0); \
            BlockQuotePrefix 2:1 (2+0) to 2:3 (4+0); Data 2:3 (4+0) to 2:4 (5+0); exit Paragraph 2:4 (5+0)",
    ),
    // The message of the second chain leaves the first.
    (&TWO_CHAINS, b"abc", Reader::Refuses(2), REFUSED),
    // Resolvers of children wrap or refuse.
    (
        &TWO_CHAINS,
        b"abc",
        Reader::Wraps(false),
        "done: false, notes: 0, definitions: A A\n\
            enter Paragraph 1:1 (0+0); CodeTextData 1:1 (0+0) to 1:2 (1+0); exit Paragraph 1:2 (1+0); \
            enter Paragraph 1:2 (1+0); CodeTextData 1:2 (1+0) to 1:4 (3+0); exit Paragraph 1:4 (3+0)",
    ),
    (&TWO_CHAINS, b"abc", Reader::Wraps(true), REFUSED),
];

#[test]
fn children_are_put_in_place_of_their_chunks(rt: HostRuntime) {
    for &(list, bytes, reader, want) in LISTS {
        assert!(rt; bytes.len() < 9);
        assert_shown(&rt, with_children(rt.alloc(), list, bytes, reader), want);
    }
}

/// A chunk of text and one of a string, one behind the other.
const TEXT_AND_STRING: [Row; 2] = [
    Chunk((1, 1, 0, 0), (1, 4, 3, 0), Content::Text, None, None),
    Chunk((1, 4, 3, 0), (1, 5, 4, 0), Content::String, None, None),
];

/// Puts the children of the chains of one content in their place, read from this start.
fn put<M: Machine>(
    alloc: Global,
    events: &mut Vec<Event>,
    parse_state: &ParseState<M>,
    content: Content,
    start: state::Name,
) -> Result<Subresult, Fault>
    requires ready { IsReady parse_state.now.options.now.tab_size parse_state.now.bytes.now (Some content) events.old.items }
    requires name { start_name content ≡ Some start }
    requires start { Contains (M.rules parse_state.now.machine.now (given_of parse_state.now)).starts start }
    ensures { IfOk result (GivesChildren M.rules parse_state.now (Some content) events.old.items events.new.items) }
{
    subtokenize(alloc, events, parse_state, Some(&content))
}

/// Reads the texts of a list whose chains can all be read. Then its strings still can be.
fn read_texts(
    alloc: Global,
    events: &mut Vec<Event>,
    parse_state: &ParseState<Text>,
) -> Result<(), AllocError>
    requires document { IsDocument (given_of parse_state.now) }
    requires ready { IsReady parse_state.now.options.now.tab_size parse_state.now.bytes.now None events.old.items }
    ensures { IfOk result (λ _. IsReady parse_state.now.options.now.tab_size parse_state.now.bytes.now (Some Content.String) events.new.items) }
{
    // A law does nothing when it is called. Its contract is what the proof cites.
    all_chains_are_ready();
    other_chains_stay_ready_after_texts();
    match put(
        alloc,
        events,
        parse_state,
        Content::Text,
        state::Name::TextStart,
    ) {
        Ok(_) => Ok(()),
        Err(_) => Err(AllocError),
    }
}

/// Reads the texts of a list over a small document, and then its strings. Whether its chains can be read is asked once, before.
fn texts_and_strings(alloc: Global, list: &[Row], bytes: &[u8]) -> Result<String, AllocError>
    requires limit { IsWithinLimit 4 bytes.now }
{
    let mut events = listed(alloc, list)?;
    let options = ParseOptions::default();
    if !ready(alloc, events.as_slice(), bytes, options.tab_size, None)? {
        return String::from_str(alloc, "not ready");
    }
    let texts = ParseState {
        bytes,
        options: &options,
        machine: &Text {},
    };
    read_texts(alloc, &mut events, &texts)?;
    let strings = ParseState {
        bytes,
        options: &options,
        machine: &Deep {},
    };
    let start = state::Name::StringStart;
    let answer = put(alloc, &mut events, &strings, Content::String, start);
    told(alloc, &answer, events.as_slice())
}

#[test]
fn strings_are_read_after_texts(rt: HostRuntime) {
    let read = texts_and_strings(rt.alloc(), &TEXT_AND_STRING, b"`a`b");
    let want = "done: false, notes: 0, definitions:\n\
        enter CodeText 1:1 (0+0); CodeTextSequence 1:1 (0+0) to 1:2 (1+0); CodeTextData 1:2 (1+0) to 1:3 (2+0); \
        CodeTextSequence 1:3 (2+0) to 1:4 (3+0); exit CodeText 1:4 (3+0); Data 1:4 (3+0) to 1:5 (4+0)";
    assert_shown(&rt, read, want);
}
