//! What a call of the program does: what it reads and writes, what it shows on standard error, and its status.

ghost use Rattle.std.specs.Prelude.{◌≡◌, ◌≤◌, ◌↔◌, IfOk, IfSome, IsErr, Ok, None, map, string_bytes, false};
ghost use Rattle.std.specs.List.{list_any};
ghost use Rattle.std.specs.Io.KnownBytes.{Keeps};
ghost use Rattle.std.specs.Process.{exit_status};
ghost use Rattle.mdhtml_program.specs.Arguments.{choice_of_words, lets_all};
ghost use Rattle.mdhtml_program.specs.Program.{IsHtmlOfRead, WritesSafe};
ghost use Rattle.mdprograms.specs.Output.{Writes, WritesChosen, WritesChosenFront, WritesFrontAtMost, WritesWords, WritesWordsFront};

use crate::arguments::{Choice, USAGE, read_words};
use crate::program::write_html;
use mdprograms::failure::Failure;
use mdprograms::status::{failed, refused};
pub use mdprograms::words::words_of;
use std::io::{Read, Write};
use std::process::ExitCode;
use std::rt::Env;

/// Does what the arguments choose. The status is 0 only if all was written, 2 only if nothing was read or written, and
/// else 1: then nothing was written, or a beginning of the HTML.
pub fn answer_call<R: Read, W: Write>(
    rt: &(impl Env + AllocGlobal + Eprint),
    reader: &mut R,
    writer: &mut W,
) -> ExitCode
    ensures status { exit_status result ≤ 2 }
    ensures done { exit_status result ≡ 0 → (choice : _) × Writes IsHtmlOfRead choice R.remaining reader.old reader.new W.contents writer.old writer.new }
    ensures failed { exit_status result ≡ 1 → WritesFrontAtMost IsHtmlOfRead R.remaining reader.old reader.new W.contents writer.old writer.new }
    ensures reads { exit_status result ≡ 2 → Keeps (R.remaining reader.old) (R.remaining reader.new) }
    ensures writes { exit_status result ≡ 2 → Keeps (W.contents writer.old) (W.contents writer.new) }
{
    match words_of(rt) {
        Ok(Some(words)) => answer_words(rt, words.as_slice(), reader, writer),
        Ok(None) => answer_choice(rt, Ok(None), reader, writer),
        Err(failure) => answer_choice(rt, Err(failure), reader, writer),
    }
}

/// Does what these arguments choose. The status is 2 exactly if they choose nothing: then nothing is read or written. It is 0
/// only if all that they choose was written, and else 1: then nothing was written, or a beginning of that. If `--unsafe` is none of the
/// arguments, what was written with status 0 is safe HTML.
pub fn answer_words<R: Read, W: Write>(
    rt: &(impl AllocGlobal + Eprint),
    words: &[String],
    reader: &mut R,
    writer: &mut W,
) -> ExitCode
    ensures status { exit_status result ≤ 2 }
    ensures done { exit_status result ≡ 0 → WritesWords IsHtmlOfRead choice_of_words words.now R.remaining reader.old reader.new W.contents writer.old writer.new }
    ensures safe { exit_status result ≡ 0 → list_any lets_all (map string_bytes words.now) ≡ false → WritesSafe (W.contents writer.old) (W.contents writer.new) }
    ensures failed { exit_status result ≡ 1 → WritesWordsFront IsHtmlOfRead choice_of_words words.now R.remaining reader.old reader.new W.contents writer.old writer.new }
    ensures usage { (exit_status result ≡ 2) ↔ (choice_of_words (map string_bytes words.now) ≡ None) }
    ensures reads { exit_status result ≡ 2 → Keeps (R.remaining reader.old) (R.remaining reader.new) }
    ensures writes { exit_status result ≡ 2 → Keeps (W.contents writer.old) (W.contents writer.new) }
{
    answer_choice(rt, Ok(read_words(words)), reader, writer)
}

/// Does what was chosen. The status is 0 only if all was written, and 1 if something failed; a line on standard error
/// then says what, and nothing was written, or a beginning of the HTML. If nothing was chosen, the usage line is shown there,
/// the status is 2, and nothing is read or written.
pub fn answer_choice<R: Read, W: Write>(
    rt: &(impl AllocGlobal + Eprint),
    choice: Result<Option<Choice>, Failure>,
    reader: &mut R,
    writer: &mut W,
) -> ExitCode
    ensures status { exit_status result ≤ 2 }
    ensures done { exit_status result ≡ 0 → WritesChosen IsHtmlOfRead choice R.remaining reader.old reader.new W.contents writer.old writer.new }
    ensures safe { exit_status result ≡ 0 → IfOk choice (λ c. IfSome c (λ chosen. chosen.is_unsafe ≡ false)) → WritesSafe (W.contents writer.old) (W.contents writer.new) }
    ensures usage { choice ≡ Ok None → exit_status result ≡ 2 }
    ensures usage_only { exit_status result ≡ 2 → choice ≡ Ok None }
    ensures failed { IsErr choice → exit_status result ≡ 1 }
    ensures front { exit_status result ≡ 1 → WritesChosenFront IsHtmlOfRead choice R.remaining reader.old reader.new W.contents writer.old writer.new }
    ensures reads { choice ≡ Ok None → Keeps (R.remaining reader.old) (R.remaining reader.new) }
    ensures writes { choice ≡ Ok None → Keeps (W.contents writer.old) (W.contents writer.new) }
{
    match choice {
        Ok(Some(choice)) => match write_html(rt.alloc(), reader, writer, &choice) {
            Ok(()) => ExitCode::SUCCESS,
            Err(failure) => failed(rt, failure),
        },
        Ok(None) => refused(rt, USAGE),
        Err(failure) => failed(rt, failure),
    }
}
