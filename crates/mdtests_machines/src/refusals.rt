//! A message ends the reading of a document: what each call returns then, and afterwards.

ghost use Rattle.std.specs.Prelude.{[], ◌∷◌};
ghost use Rattle.markdown.specs.Engine.{AreCuts};
ghost use Rattle.markdown.specs.Virtual.{IsWithinLimit};

use crate::shown::assert_shown;
use markdown::configuration::ParseOptions;
use markdown::parser::ParseState;
use markdown::state::Name;
use mdconstructs_machines::fail::Fail;
use mdtests_base::documents::lines_by;
use mdtests_base::driven::read;
use std::alloc::{AllocError, Global};

/// Reads a document up to its second byte, and then to its end, with a machine that refuses at a call. Returns the results.
fn read_refused(alloc: Global, bytes: &[u8], at: usize) -> Result<String, AllocError>
    requires limit { IsWithinLimit 4 bytes.now }
    requires cut { AreCuts 4 bytes.now ((1, 0) ∷ []) }
{
    let options = ParseOptions::default();
    let parse_state = ParseState {
        bytes,
        options: &options,
        machine: &Fail { at },
    };
    read(alloc, &parse_state, Name::TextStart, (1, 0), true, &[])
}

/// A message waits for the flush, from the first call or from the last; or there is none.
#[test]
fn message_waits_for_the_flush(rt: HostRuntime) {
    let want = "1:2: x (markdown:r)\n\
        1:2: x (markdown:r)\n\
        1:2: x (markdown:r)\n\
        tokenizer has failed\n\
        1 calls\n";
    assert_shown(&rt, read_refused(rt.alloc(), b"a", 0), want);
    let want = "next is the start\n\
        next is the start\n\
        1:2: x (markdown:r)\n\
        tokenizer has failed\n\
        3 calls\n";
    assert_shown(&rt, read_refused(rt.alloc(), b"ab", 2), want);
    let want = "next is the start\n\
        next is the start\n\
        done: false, notes: 0, definitions:\n\
        tokenizer has failed\n\
        3 calls\n\
        these resolvers: true\n";
    assert_shown(&rt, read_refused(rt.alloc(), b"ab", 3), want);
}

/// Five bytes, which are seven virtual ones, make eight calls, and no event.
#[test]
fn each_call_may_refuse(rt: HostRuntime) {
    for at in 0..9 {
        let want = if at < 8 { "1:2: x (markdown:r)" } else { "" };
        let machine = Fail { at };
        let read = lines_by(rt.alloc(), &machine, Name::TextStart, b"a\r\n\tb", 9, true);
        assert_shown(&rt, read, want);
    }
}
