//! Shows the events of many documents. A line of standard input is a case: how a document is read, a vertical bar, and the document. For
//! each it writes that line, and then the events.
//!
//! How a document is read are words, with a space between each two. The first is the form of the events: `spans`, `points` or `lines`.
//! The others are arguments of the program `mdevents`; or one word, `inline-text` or `text`: the document is then read as text, in no
//! paragraph. In the document a percent sign and two hexadecimal digits are a byte, as `%09`, and each other byte is itself. Empty lines
//! are passed.
//!
//! Each document is read uncut, and then cut after each one, two and up to twelve virtual bytes. If a cut changes the events, they are
//! written too, behind a word. `tools/cases.py` makes the input, and what must be written, of the files in `data`.
//!
//! Before that it makes the call of `mdevents`, with its own arguments. Those in `args` are not accepted, so that call reads and writes
//! nothing, and its status is that of the program if all cases were answered.
#![tactic(auto)]

// cases: a case, and the events of its document, however it is cut. A person types cases into `data`
mod answer;
mod case;

use answer::answer_cases;
use mdevents_program::call::answer_call;
use std::process::ExitCode;

fn main(rt: HostRuntime) -> ExitCode {
    let called = answer_call(&rt, &mut rt.stdin(), &mut rt.stdout());
    match answer_cases(rt.alloc(), &mut rt.stdin(), &mut rt.stdout()) {
        Ok(()) => called,
        Err(failure) => {
            let _ = rt.eprintln(failure);
            ExitCode::FAILURE
        }
    }
}
