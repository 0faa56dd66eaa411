//! Machines of the library, each with the start from which it reads the ranges of a document.

ghost use Rattle.std.specs.Prelude.{◌*◌, ◌<◌};
ghost use Rattle.markdown.specs.Virtual.{IsWithinLimit};

use markdown::configuration::TabSize;
use markdown::event::Point;
use markdown::state::Name;
use markdown::tokenizer::{AfterGap, follow_on};
use mdconstructs_machines::back::Back;
use mdconstructs_machines::deep::Deep;
use mdconstructs_machines::lines::Lines;
use mdconstructs_machines::paragraphs::Paragraphs;
use mdconstructs_machines::peek::Peek;
use mdconstructs_machines::save::Save;
use mdinline_text_machine::text::Text;
use mdtests_base::pushed::{Seen, read_by};
use std::alloc::{AllocError, Global};

/// A machine, and the name from which it starts.
#[derive(Clone, Copy)]
pub enum Reader {
    Lines,
    Paragraphs,
    TextOfParagraphs,
    Peek,
    Deep,
    Back,
    Save,
    Text,
    ParagraphsOfText,
}

/// Reads a document with this tab size, cut at these places. They have to be places of it, in order.
pub fn read_cut(
    alloc: Global,
    reader: Reader,
    bytes: &[u8],
    tab: TabSize,
    cuts: &[(usize, usize)],
) -> Result<Seen, AllocError>
    requires limit { IsWithinLimit tab bytes.now }
{
    let mut ranges = Vec::new(alloc);
    let mut from = (0, 0);
    for cut in cuts {
        ranges.push((None, from, *cut))?;
        from = *cut;
    }
    ranges.push((None, from, (bytes.len(), 0)))?;
    read_ranges(alloc, reader, bytes, tab, ranges.as_slice())
}

/// Reads these ranges of a document and no other, with tabs of this size. They have to follow on one another, each at the place at
/// which the one before ended or its gap ends.
pub fn read_ranges(
    alloc: Global,
    reader: Reader,
    bytes: &[u8],
    tab: TabSize,
    ranges: &[AfterGap],
) -> Result<Seen, AllocError>
    requires limit { IsWithinLimit tab bytes.now }
{
    if !follow_on(bytes, tab, Point::START, ranges) {
        return Err(AllocError);
    }
    match reader {
        Reader::Lines => read_by(alloc, &Lines {}, Name::FlowStart, bytes, tab, ranges),
        Reader::Paragraphs => read_by(alloc, &Paragraphs {}, Name::FlowStart, bytes, tab, ranges),
        Reader::TextOfParagraphs => {
            read_by(alloc, &Paragraphs {}, Name::TextStart, bytes, tab, ranges)
        }
        Reader::Peek => read_by(alloc, &Peek {}, Name::TextStart, bytes, tab, ranges),
        Reader::Deep => read_by(alloc, &Deep {}, Name::StringStart, bytes, tab, ranges),
        Reader::Back => read_by(alloc, &Back {}, Name::TextStart, bytes, tab, ranges),
        Reader::Save => read_by(alloc, &Save {}, Name::TextStart, bytes, tab, ranges),
        Reader::Text => read_by(alloc, &Text {}, Name::TextStart, bytes, tab, ranges),
        Reader::ParagraphsOfText => read_by(alloc, &Text {}, Name::FlowStart, bytes, tab, ranges),
    }
}
