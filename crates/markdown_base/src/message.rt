//! Messages: why a document was refused, and where.

ghost use Rattle.std.specs.Prelude.{◌≡◌, IfOk, Some};
ghost use Rattle.std.specs.Fmt.{WritesOnOk};
ghost use Rattle.markdown_base.specs.Shown.{message_text, place_prefix, place_text};

use crate::owned::{Boxed, OwnedText};
use crate::unist::{Point, Position};
use std::alloc::{AllocError, Global};
use std::fmt;

/// Why a document was refused.
///
/// It is shown as `place: reason (source:rule)`, without `place: ` if it has no place.
#[derive(Debug, PartialEq, Eq, Drop)]
pub struct Message {
    /// Where in the document, if it is known.
    pub place: Option<Boxed<Place>>,
    /// The reason, as Markdown.
    pub reason: OwnedText,
    /// The name of the rule that the document breaks.
    pub rule_id: Boxed<OwnedText>,
    /// The name of the component that has the rule.
    pub source: Boxed<OwnedText>,
}

impl Message {
    /// The same message, in memory of its own.
    pub fn try_clone(&self, alloc: Global) -> Result<Message, AllocError>
        ensures { IfOk result (λ copy. copy ≡ self.now) }
    {
        let place = match &self.place {
            Some(place) => Some(Boxed::from_box(Box::new(alloc, *place.as_ref())?)),
            None => None,
        };
        Ok(Message {
            place,
            reason: self.reason.try_clone(alloc)?,
            rule_id: boxed_clone(&self.rule_id, alloc)?,
            source: boxed_clone(&self.source, alloc)?,
        })
    }
}

/// A text in a box, in memory of its own.
fn boxed_clone(text: &Boxed<OwnedText>, alloc: Global) -> Result<Boxed<OwnedText>, AllocError>
    ensures { IfOk result (λ copy. copy ≡ text.now) }
{
    let copy = text.as_ref().try_clone(alloc)?;
    Ok(Boxed::from_box(Box::new(alloc, copy)?))
}

impl fmt::Display for Message {
    ghost output = { λ m. Some (message_text m) };

    /// Writes the message in one line: its place if it has one, its reason, and its rule.
    fn fmt<W: fmt::Write>(&self, f: &mut fmt::Formatter<W>) -> fmt::Result {
        write_prefix(&self.place, f)?;
        let reason = self.reason.as_str();
        let source = self.source.as_ref().as_str();
        let rule_id = self.rule_id.as_ref().as_str();
        write!(f, "{reason} ({source}:{rule_id})")
    }
}

/// Writes what comes before a message's reason.
fn write_prefix<W: fmt::Write>(
    place: &Option<Boxed<Place>>,
    f: &mut fmt::Formatter<W>,
) -> fmt::Result
    ensures { WritesOnOk W.write_str_gives f.old result (place_prefix place.now) f.new }
{
    match place {
        Some(place) => {
            let place = place.as_ref();
            write!(f, "{place}: ")
        }
        None => Ok(()),
    }
}

/// A point or a range of a document, shown as `line:column`, or as two of these with `-` between.
#[derive(Clone, Copy, Debug, PartialEq, Eq)]
pub enum Place {
    /// From one point to another.
    Position(Position),
    /// At one point.
    Point(Point),
}

impl fmt::Display for Place {
    ghost output = { λ p. Some (place_text p) };

    /// Writes the lines and columns, without the offsets.
    fn fmt<W: fmt::Write>(&self, f: &mut fmt::Formatter<W>) -> fmt::Result {
        match self {
            Place::Position(position) => write!(
                f,
                "{}:{}-{}:{}",
                position.start.line, position.start.column, position.end.line, position.end.column
            ),
            Place::Point(point) => write!(f, "{}:{}", point.line, point.column),
        }
    }
}
