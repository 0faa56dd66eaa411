//! A machine that runs out of memory at a call: what is returned at every depth, and what is left afterwards.

ghost use Rattle.markdown.specs.Virtual.{IsWithinLimit};
ghost use Rattle.std.specs.Prelude.{◌+◌, ◌<◌, IfOk};
ghost use Rattle.mdconstructs_tables.specs.RowInvariant.{DoesAll, IsCallable, step_in};
ghost use Rattle.mdconstructs_tables.specs.Tables.{line_byte};
ghost use Rattle.mdtests_tables.specs.Starved.{text_start};

use crate::shown::assert_shown;
use markdown::configuration::{ParseOptions, TabSize};
use markdown::event::{self, Content, Event};
use markdown::parser::ParseState;
use markdown::state::{Machine, MachineTypes, Name, State};
use markdown::subtokenize::{Subresult, ready, subtokenize};
use markdown::tokenizer::{Fault, Tokenizer};
use mdconstructs_machines::begin::begin;
use mdconstructs_tables::marker;
use mdtests_base::chunks::Row::Chunk;
use mdtests_base::chunks::{ITEM, QUOTE, Row, listed};
use mdtests_base::documents::lines_by;
use mdtests_base::shown::told;
use std::alloc::{AllocError, Global};

/// Reads each byte as data of its own. The call before which `at` calls were counted runs out of memory.
#[derive(Drop)]
pub struct Starved {
    /// How many calls are counted in `size` before the one that runs out of memory.
    pub at: usize,
}

impl MachineTypes for Starved {
    type Resolver = ();

    type Document = ();
}

impl Machine for Starved {
    ghost use Rattle.mdconstructs_tables.proofs.Tables.Lawful.{plain-lawful};
    ghost use Rattle.mdtests_tables.specs.Starved.{starved, starved_rules};
    ghost use Rattle.mdtests_tables.specs.Laws.Starved.{starved-fit, starved-plain};

    ghost rules = { λ _. starved_rules };

    fn call<'a>(
        &self,
        alloc: Global,
        t: &mut Tokenizer<'a, Self>,
        name: Name,
    ) -> Result<State, AllocError> {
        if t.tokenize_state.size == self.at {
            return Err(AllocError);
        }
        begin(t);
        match name {
            Name::TextStart => text_start(t),
            Name::StringStart => Ok(State::Retry(Name::TextStart)),
            Name::ContentDefinitionBefore => Ok(State::Retry(Name::TextStart)),
            _ => unreachable!(),
        }
    }

    /// Never called, as it registers no resolver.
    fn resolve<'a>(
        &self,
        alloc: Global,
        t: &mut Tokenizer<'a, Self>,
        name: (),
    ) -> Result<Option<Subresult>, Fault> {
        Ok(None)
    }

    ghost lawful = { λ _ g. plain-lawful starved g starved-fit starved-plain };
}

/// Before a byte.
fn text_start<'a>(t: &mut Tokenizer<'a, Starved>) -> Result<State, AllocError>
    requires { IsCallable line_byte text_start t.old }
    ensures { IfOk result (DoesAll (step_in line_byte text_start t.old) t.old t.new) }
{
    match t.current() {
        None => Ok(State::Ok),
        Some(_) => {
            marker(t, event::Name::Data)?;
            Ok(State::Next(Name::TextStart))
        }
    }
}

/// Two bytes, as data.
const TWO_BYTES: &str = "Data 1:1 (0+0) to 1:2 (1+0); Data 1:2 (1+0) to 1:3 (2+0)";

/// The third call meets the end.
#[test]
fn refused_state_ends_a_run(rt: HostRuntime) {
    for at in 0..4 {
        let want = if at < 3 { "out of memory" } else { TWO_BYTES };
        let read = lines_by(
            rt.alloc(),
            &Starved { at },
            Name::TextStart,
            b"ab",
            99,
            false,
        );
        assert_shown(&rt, read, want);
    }
}

/// Reads all chains of a list, whatever their content. Returns the result, and then the list.
fn read_chains(
    alloc: Global,
    events: &mut Vec<Event>,
    bytes: &[u8],
    options: &ParseOptions,
    machine: &Starved,
) -> Result<String, AllocError>
    requires limit { IsWithinLimit options.now.tab_size bytes.now }
{
    if !ready(alloc, events.as_slice(), bytes, options.tab_size, None)? {
        return String::from_str(alloc, "not ready");
    }
    let Some(parse_state) = ParseState::new(bytes, options, machine) else {
        return Err(AllocError);
    };
    let answer = subtokenize(alloc, events, &parse_state, None);
    told(alloc, &answer, events.as_slice())
}

/// Reads all chains of a list over a document of at most 9 bytes, with this tab size and a machine that runs out of memory at a call.
/// Returns the result, and then the list.
fn read(
    alloc: Global,
    list: &[Row],
    bytes: &[u8],
    tab: usize,
    at: usize,
) -> Result<String, AllocError> {
    let tab_size = TabSize::new(tab).ok_or(AllocError)?;
    if bytes.len() > 9 {
        return Err(AllocError);
    }
    let options = ParseOptions {
        tab_size,
        ..ParseOptions::gfm()
    };
    let mut events = listed(alloc, list)?;
    read_chains(alloc, &mut events, bytes, &options, &Starved { at })
}

/// A quoted paragraph as it was, behind a fault.
const AS_BEFORE: &str = "out of memory\n\
    enter BlockQuote 1:1 (0+0); BlockQuotePrefix 1:1 (0+0) to 1:3 (2+0); enter Paragraph 1:3 (2+0); \
    Data 1:3 (2+0) Text None Some(8) to 2:1 (4+0); BlockQuotePrefix 2:1 (4+0) to 2:3 (6+0); \
    Data 2:3 (6+0) Text Some(4) None to 2:4 (7+0); exit Paragraph 2:4 (7+0); exit BlockQuote 2:4 (7+0)";

/// A quoted paragraph with its text read.
const READ: &str = "done: false, notes: 0, definitions:\n\
    enter BlockQuote 1:1 (0+0); BlockQuotePrefix 1:1 (0+0) to 1:3 (2+0); enter Paragraph 1:3 (2+0); \
    Data 1:3 (2+0) to 1:4 (3+0); Data 1:4 (3+0) to 2:1 (4+0); BlockQuotePrefix 2:1 (4+0) to 2:3 (6+0); \
    Data 2:3 (6+0) to 2:4 (7+0); exit Paragraph 2:4 (7+0); exit BlockQuote 2:4 (7+0)";

#[test]
fn refused_child_leaves_the_list(rt: HostRuntime) {
    for at in 0..5 {
        let want = if at < 4 { AS_BEFORE } else { READ };
        assert_shown(&rt, read(rt.alloc(), &QUOTE, b"> a\n> b", 4, at), want);
    }
}

/// A chain of each content.
const OF_EACH_CONTENT: [Row; 3] = [
    Chunk((1, 1, 0, 0), (1, 2, 1, 0), Content::Content, None, None),
    Chunk((1, 2, 1, 0), (1, 3, 2, 0), Content::String, None, None),
    Chunk((1, 3, 2, 0), (1, 4, 3, 0), Content::Text, None, None),
];

/// A chain of three columns of a tab.
const TAB_OF_THREE: [Row; 1] = [Chunk((1, 1, 0, 0), (1, 4, 1, 0), Content::Text, None, None)];

/// A list, its document, the tab size, and the expected result: also for the text of a task, if it is one.
const READS: &[(&[Row], &[u8], usize, &str)] = &[
    (
        &OF_EACH_CONTENT,
        b"abc",
        4,
        "done: false, notes: 0, definitions:\n\
        Data 1:1 (0+0) to 1:2 (1+0); Data 1:2 (1+0) to 1:3 (2+0); Data 1:3 (2+0) to 1:4 (3+0)",
    ),
    (
        &TAB_OF_THREE,
        b"\t",
        3,
        "done: false, notes: 0, definitions:\n\
        Data 1:1 (0+0) to 1:2 (0+1); Data 1:2 (0+1) to 1:3 (0+2); Data 1:3 (0+2) to 1:4 (1+0)",
    ),
    (
        &ITEM,
        b"- a",
        4,
        "done: false, notes: 0, definitions:\n\
        enter ListItem 1:1 (0+0); ListItemPrefix 1:1 (0+0) to 1:3 (2+0); enter Paragraph 1:3 (2+0); \
        Data 1:3 (2+0) to 1:4 (3+0); exit Paragraph 1:4 (3+0); exit ListItem 1:4 (3+0)",
    ),
];

#[test]
fn chains_of_all_contents_are_read(rt: HostRuntime) {
    for &(list, bytes, tab, want) in READS {
        assert_shown(&rt, read(rt.alloc(), list, bytes, tab, 99), want);
    }
}
