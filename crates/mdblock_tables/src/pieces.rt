//! Pieces: what a text is cut into, by sizes alone. A writer puts them at places.

ghost use Rattle.std.specs.Prelude.{◌≡◌, ◌++◌, ◌∷◌, [], IfOk};
ghost use Rattle.mdblock_tables.specs.Pieces.{piece};

use markdown_base::event::Name;
use std::alloc::AllocError;

/// What a piece is.
#[derive(Clone, Copy, PartialEq, Eq, Debug)]
pub enum Step {
    /// A span begins.
    Enter,
    /// A span with nothing in it.
    Whole,
    /// A span ends.
    Exit,
}

/// A piece: a span, or where one begins or ends. A span over no bytes is not written.
#[derive(Clone, Copy, PartialEq, Eq, Debug)]
pub struct Piece {
    /// What it is.
    pub step: Step,
    /// The name of the span.
    pub name: Name,
    /// How many bytes the span has.
    pub size: usize,
}

/// Adds a piece.
pub(crate) fn push(
    pieces: &mut Vec<Piece>,
    step: Step,
    name: Name,
    size: usize,
) -> Result<(), AllocError>
    ensures { IfOk result (λ _. pieces.new.items ≡ pieces.old.items ++ piece step name size ∷ []) }
{
    pieces.push(Piece { step, name, size })?;
    Ok(())
}
