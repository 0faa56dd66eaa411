//! What the program does, for any reader and writer.

ghost use Rattle.std.specs.Prelude.{◌≢◌, IfErr, OnOk, IsErrOf};
ghost use Rattle.std.specs.Io.KnownBytes.{Keeps};
ghost use Rattle.mdevents_program.specs.Choices.{CanCut};
ghost use Rattle.mdevents_program.specs.Program.{ArePrintedEvents};
ghost use Rattle.mdprograms.specs.Input.{ReadsWithinLimit, ReadsPastLimit};
ghost use Rattle.mdprograms.specs.Output.{Writes, WritesFront};

use crate::choice::{Choice, events_by};
use crate::read::read_to_end;
use crate::write::write_lines;
use mdprograms::failure::Failure;
use std::alloc::Global;
use std::io::{Read, Write};

/// Reads a document to its end, makes its events, and then writes them, a line for each. The lines go through a buffer of
/// fixed size, so only the document and the events take memory.
///
/// A cut in the choice must be at least 1. Returns the first failure, in the order of reading, length, making the events, and
/// writing. After `Write`, a beginning of the lines was written, and after any other failure nothing. Unless it returns `TooLong`,
/// what was read is within the limit.
///
/// Two failures never come. `Message`: no machine that can be chosen refuses a document. `NotReady`: the chains of text that such
/// a machine makes can be read.
pub fn write_events<R: Read, W: Write>(
    alloc: Global,
    reader: &mut R,
    writer: &mut W,
    choice: &Choice,
) -> Result<(), Failure>
    requires { CanCut choice.now }
    ensures written { OnOk result (Writes ArePrintedEvents choice.now R.remaining reader.old reader.new W.contents writer.old writer.new) }
    ensures too_long { IsErrOf result Failure.TooLong → ReadsPastLimit choice.now.tab (R.remaining reader.old) (R.remaining reader.new) }
    ensures within_else { IfErr result (λ failure. failure ≢ Failure.TooLong → ReadsWithinLimit choice.now.tab (R.remaining reader.old) (R.remaining reader.new)) }
    ensures never_refused { (m : _) → ¬ IsErrOf result (Failure.Message m) }
    ensures ready { ¬ IsErrOf result Failure.NotReady }
    ensures cut_short { IsErrOf result Failure.Write → WritesFront ArePrintedEvents choice.now R.remaining reader.old reader.new W.contents writer.old writer.new }
    ensures nothing { IfErr result (λ failure. failure ≢ Failure.Write → Keeps (W.contents writer.old) (W.contents writer.new)) }
{
    let bytes = read_to_end(alloc, reader, choice.tab)?;
    let events = events_by(alloc, bytes.as_slice(), choice)?;
    write_lines(writer, events.as_slice())
}
