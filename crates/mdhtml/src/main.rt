//! Writes a document as HTML: reads standard input to its end, and writes HTML to standard output.
//!
//! Usage: `mdhtml [--unsafe] [--gfm] [--strikethrough-double-tilde] [--tab n] [--depth n]`. Without `--unsafe` the HTML is safe: raw HTML is shown as
//! text, and an address with a scheme that is not allowed is left out. With it both are written as they stand, and nothing of this is promised. With
//! `--gfm` strikethrough, tables, autolink literals and checks of tasks are written as GFM says, and footnotes with a section of notes at the end; of
//! raw HTML that is let through, tags that GFM disallows are text. With `--strikethrough-double-tilde` one tilde does not strike through. `--tab` is
//! the tab size, from 1 to 16; the default is 4. With `--depth`, block quotes, lists, emphasis, strikethrough and links around which there are as
//! many of these are written without their tags.
//!
//! The status is 0 if all was written. If something fails, a line on standard error says what, and the status is 1. If the
//! arguments are not accepted, the usage line is shown there, and the status is 2.
#![tactic(auto)]

pub use mdhtml_program::arguments::{Choice, USAGE, read_words};
use mdhtml_program::call::answer_call;
pub use mdhtml_program::failure::Failure;
pub use mdhtml_program::program::write_html;
use std::process::ExitCode;

fn main(rt: HostRuntime) -> ExitCode {
    answer_call(&rt, &mut rt.stdin(), &mut rt.stdout())
}
