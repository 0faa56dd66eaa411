//! The lines of events.

ghost use Rattle.std.specs.Prelude.{◌≡◌, ◌+◌, ◌++◌, ◌≤◌, length, codes};
ghost use Rattle.markdown.specs.EventNames.{text_of};
ghost use Rattle.mdevents_program.specs.Printed.{kind_text, event_line};

use crate::buffer::{Buffer, SIZE};
use crate::last_point::LastPoint;
use crate::names::{BLOCK, front_block};
use markdown::event::{Event, Kind, Name};

/// No line of an event has more bytes than this.
pub(crate) const LONGEST: usize = 128;

/// Appends the line of an event to the buffer: kind, name, line, column, index and virtual byte, as in
/// `enter Paragraph 1:1 (0+0)`, ended by a line feed.
#[inline(always)]
pub(crate) fn push_line(buffer: &mut Buffer, last: &mut LastPoint, event: &Event)
    requires { length buffer.old + LONGEST ≤ SIZE }
    ensures { buffer.new ≡ buffer.old ++ event_line event.now }
{
    push_front(buffer, event.kind, event.name);
    last.push_point(buffer, &event.point);
}

/// Appends the word of a kind and the text of a name, with a space after each, to the buffer.
#[inline(always)]
fn push_front(buffer: &mut Buffer, kind: Kind, name: Name)
    requires { length buffer.old + BLOCK ≤ SIZE }
    ensures bytes { buffer.new ≡ buffer.old ++ kind_text kind ++ codes " " ++ text_of name ++ codes " " }
    ensures most { length buffer.new ≤ length buffer.old + 42 }
{
    let block = front_block(kind, name);
    buffer.push_block::<BLOCK>(block, block[63] as usize);
}
