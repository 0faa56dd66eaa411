//! Writing the lines of events.

ghost use Rattle.std.specs.Prelude.{◌≡◌, ◌+◌, ◌++◌, ◌<◌, ◌≤◌, ℕ, List, take, length, IsOkUnless, OnOk, OnErr};
ghost use Rattle.std.specs.Io.KnownBytes.{Appends, Keeps};
ghost use Rattle.mdevents_program.specs.Printed.{printed_events};

use crate::buffer::{Buffer, SIZE};
use crate::last_point::LastPoint;
use crate::print::{LONGEST, push_line};
use markdown::event::Event;
use mdprograms::failure::Failure;
use mdprograms::write::write_all;
use std::io::Write;

/// Writes a line for each event and nothing else, through a buffer of [`SIZE`] bytes. Takes no memory. Returns
/// `Failure::Write` for any error of the writer, and for a write of 0 bytes; a beginning of the lines was then written. No
/// events need no write.
pub fn write_lines<W: Write>(writer: &mut W, events: &[Event]) -> Result<(), Failure>
    ensures all { OnOk result (Appends (W.contents writer.old) (W.contents writer.new) (printed_events events.now)) }
    ensures failed { OnErr result ((count : ℕ) × Appends (W.contents writer.old) (W.contents writer.new) (take count (printed_events events.now))) }
    ensures cause { IsOkUnless result Failure.Write }
    ensures asked { OnErr result (0 < length events.now) }
{
    let mut lines = Buffer::new();
    let mut last = LastPoint::new();
    for event in events {
        make_room(&mut lines, writer)?;
        push_line(&mut lines, &mut last, event);
    }
    write_all(writer, lines.as_slice())
}

/// Makes room for a line: if there is none, writes what the buffer has, and else nothing.
fn make_room<W: Write>(buffer: &mut Buffer, writer: &mut W) -> Result<(), Failure>
    ensures room { OnOk result (length buffer.new + LONGEST ≤ SIZE) }
    ensures passed { OnOk result ((text : List ℕ) × Appends (W.contents writer.old) (W.contents writer.new) text × (text ++ buffer.new ≡ buffer.old)) }
    ensures failed { OnErr result ((count : ℕ) × Appends (W.contents writer.old) (W.contents writer.new) (take count buffer.old)) }
    ensures cause { IsOkUnless result Failure.Write }
    ensures asked { OnErr result (SIZE < length buffer.old + LONGEST) }
    ensures kept { length buffer.old + LONGEST ≤ SIZE → (buffer.new ≡ buffer.old) × Keeps (W.contents writer.old) (W.contents writer.new) }
{
    if buffer.len() > SIZE - LONGEST {
        write_all(writer, buffer.as_slice())?;
        buffer.clear();
    }
    Ok(())
}
