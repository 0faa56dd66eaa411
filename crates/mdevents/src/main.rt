//! Prints the events of a document: reads standard input to its end and writes a line for each event.
//!
//! Usage: `mdevents [--cut n] [--deep] [--machine name] [--tab n]`. `--cut` reads the document in parts of n virtual
//! bytes, which does not change what is written. `--machine` names the machine that reads it; the default is `lines`.
//! `--deep` also reads the chunks of text that the machine links, and replaces them by their events; it is accepted only
//! with `--machine paragraphs`, `--machine text`, `--machine flow`, `--machine document` and `--machine gfm`. `--tab` is the tab size, from 1 to 16; the
//! default is 4.
//!
//! The status is 0 if all was written. If something fails, a line on standard error says what, and the status is 1. If the
//! arguments are not accepted, the usage line is shown there, and the status is 2.
#![tactic(auto)]

pub use mdevents_program::arguments::{Choice, USAGE, Which, read_words};
use mdevents_program::call::answer_call;
pub use mdevents_program::failure::Failure;
pub use mdevents_program::program::write_events;
use std::process::ExitCode;

fn main(rt: HostRuntime) -> ExitCode {
    answer_call(&rt, &mut rt.stdin(), &mut rt.stdout())
}
