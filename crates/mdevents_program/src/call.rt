//! What a call of the program does: what it reads and writes, what it shows on standard error, and its status.

ghost use Rattle.std.specs.Prelude.{◌≡◌, ◌≤◌, ◌↔◌, IfOk, IfSome, IsErr, Ok, None, map, string_bytes};
ghost use Rattle.std.specs.Io.KnownBytes.{Keeps};
ghost use Rattle.std.specs.Process.{exit_status};
ghost use Rattle.mdevents_program.specs.Arguments.{choice_of_words};
ghost use Rattle.mdevents_program.specs.Choices.{CanCut};
ghost use Rattle.mdevents_program.specs.Program.{ArePrintedEvents};
ghost use Rattle.mdprograms.specs.Output.{Writes, WritesChosen, WritesChosenFront, WritesFrontAtMost, WritesWords, WritesWordsFront};

use crate::arguments::{Choice, USAGE, read_words};
use crate::program::write_events;
use mdprograms::failure::Failure;
use mdprograms::status::{failed, refused};
pub use mdprograms::words::words_of;
use std::io::{Read, Write};
use std::process::ExitCode;
use std::rt::Env;

/// Does what the arguments choose. The status is 0 only if all was written, 2 only if nothing was read or written, and
/// else 1: then nothing was written, or a beginning of the lines.
pub fn answer_call<R: Read, W: Write>(
    rt: &(impl Env + AllocGlobal + Eprint),
    reader: &mut R,
    writer: &mut W,
) -> ExitCode
    ensures status { exit_status result ≤ 2 }
    ensures done { exit_status result ≡ 0 → (choice : _) × Writes ArePrintedEvents choice R.remaining reader.old reader.new W.contents writer.old writer.new }
    ensures failed { exit_status result ≡ 1 → WritesFrontAtMost ArePrintedEvents R.remaining reader.old reader.new W.contents writer.old writer.new }
    ensures reads { exit_status result ≡ 2 → Keeps (R.remaining reader.old) (R.remaining reader.new) }
    ensures writes { exit_status result ≡ 2 → Keeps (W.contents writer.old) (W.contents writer.new) }
{
    match words_of(rt) {
        Ok(Some(words)) => answer_words(rt, words.as_slice(), reader, writer),
        Ok(None) => answer_choice(rt, Ok(None), reader, writer),
        Err(failure) => answer_choice(rt, Err(failure), reader, writer),
    }
}

/// Does what these arguments choose. The status is 2 exactly if they choose nothing: then nothing is read or written. It is 0
/// only if all that they choose was written, and else 1: then nothing was written, or a beginning of that.
pub fn answer_words<R: Read, W: Write>(
    rt: &(impl AllocGlobal + Eprint),
    words: &[String],
    reader: &mut R,
    writer: &mut W,
) -> ExitCode
    ensures status { exit_status result ≤ 2 }
    ensures done { exit_status result ≡ 0 → WritesWords ArePrintedEvents choice_of_words words.now R.remaining reader.old reader.new W.contents writer.old writer.new }
    ensures failed { exit_status result ≡ 1 → WritesWordsFront ArePrintedEvents choice_of_words words.now R.remaining reader.old reader.new W.contents writer.old writer.new }
    ensures usage { (exit_status result ≡ 2) ↔ (choice_of_words (map string_bytes words.now) ≡ None) }
    ensures reads { exit_status result ≡ 2 → Keeps (R.remaining reader.old) (R.remaining reader.new) }
    ensures writes { exit_status result ≡ 2 → Keeps (W.contents writer.old) (W.contents writer.new) }
{
    answer_choice(rt, Ok(read_words(words)), reader, writer)
}

/// Does what was chosen. The status is 0 only if all was written, and 1 if something failed; a line on standard error
/// then says what, and nothing was written, or a beginning of the lines. If nothing was chosen, the usage line is shown there,
/// the status is 2, and nothing is read or written.
pub fn answer_choice<R: Read, W: Write>(
    rt: &(impl AllocGlobal + Eprint),
    choice: Result<Option<Choice>, Failure>,
    reader: &mut R,
    writer: &mut W,
) -> ExitCode
    requires { IfOk choice (λ choice. IfSome choice CanCut) }
    ensures status { exit_status result ≤ 2 }
    ensures done { exit_status result ≡ 0 → WritesChosen ArePrintedEvents choice R.remaining reader.old reader.new W.contents writer.old writer.new }
    ensures usage { choice ≡ Ok None → exit_status result ≡ 2 }
    ensures usage_only { exit_status result ≡ 2 → choice ≡ Ok None }
    ensures failed { IsErr choice → exit_status result ≡ 1 }
    ensures front { exit_status result ≡ 1 → WritesChosenFront ArePrintedEvents choice R.remaining reader.old reader.new W.contents writer.old writer.new }
    ensures reads { choice ≡ Ok None → Keeps (R.remaining reader.old) (R.remaining reader.new) }
    ensures writes { choice ≡ Ok None → Keeps (W.contents writer.old) (W.contents writer.new) }
{
    match choice {
        Ok(Some(choice)) => match write_events(rt.alloc(), reader, writer, &choice) {
            Ok(()) => ExitCode::SUCCESS,
            Err(failure) => failed(rt, failure),
        },
        Ok(None) => refused(rt, USAGE),
        Err(failure) => failed(rt, failure),
    }
}
