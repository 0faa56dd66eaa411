//! Lists of events, results and texts as tests compare them.

ghost use Rattle.std.specs.Prelude.{◌≡◌};

use markdown::event::{Event, Point};
use markdown::owned::{Boxed, OwnedText};
use markdown::subtokenize::Subresult;
use markdown::tokenizer::Fault;
pub use mdcases_forms::points::{push_events, shown};
use std::alloc::{AllocError, Global};

/// The point of a line, a column, a byte index and a number in a tab.
pub const fn at(line: usize, column: usize, index: usize, vs: usize) -> Point
    ensures { result ≡ record { line = line; column = column; index = index; vs = vs } }
{
    Point {
        line,
        column,
        index,
        vs,
    }
}

/// The point of a place at this line and column, if there is one.
pub fn point_of(place: (usize, usize), shown: Option<(usize, usize)>) -> Option<Point> {
    let (line, column) = shown?;
    Some(at(line, column, place.0, place.1))
}

/// A text of its own.
pub fn owned(alloc: Global, text: &str) -> Result<OwnedText, AllocError> {
    Ok(OwnedText::from_string(String::from_str(alloc, text)?))
}

/// A text in a box.
pub fn boxed(alloc: Global, text: &str) -> Result<Boxed<OwnedText>, AllocError> {
    Ok(Boxed::from_box(Box::new(alloc, owned(alloc, text)?)?))
}

/// Appends what was found, as a line: whether nothing was left to do, and the definitions; or why nothing was.
pub fn push_answer(text: &mut String, answer: &Result<Subresult, Fault>) -> Result<(), AllocError> {
    let sub = match answer {
        Ok(sub) => sub,
        Err(fault) => return writeln!(text, "{fault}"),
    };
    let notes = sub.gfm_footnote_definitions.as_slice().len();
    write!(text, "done: {}, notes: {notes}, definitions:", sub.done)?;
    for label in sub.definitions.as_slice() {
        write!(text, " {}", label.as_str())?;
    }
    text.push('\n')
}

/// A result, and then a list.
pub fn told(
    alloc: Global,
    answer: &Result<Subresult, Fault>,
    events: &[Event],
) -> Result<String, AllocError> {
    let mut text = String::new(alloc);
    push_answer(&mut text, answer)?;
    push_events(&mut text, events)?;
    Ok(text)
}
