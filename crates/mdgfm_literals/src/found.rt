//! A literal that was found at the front of a text.

ghost use Rattle.std.specs.Prelude.{ℕ, ◌≡◌, ◌≤◌, IfSome};
ghost use Rattle.mdgfm_literals.specs.Found.{found, or_else};

use markdown_base::event::Name;

/// A literal at the front of a text.
#[derive(Clone, Copy, PartialEq, Eq, Debug)]
pub struct Found {
    /// How many bytes it has.
    pub size: usize,
    /// What it is.
    pub name: Name,
}

/// A literal of a name, if it has bytes.
pub(crate) fn literal_of(name: Name, size: usize) -> Option<Found>
    ensures found { result ≡ found name size }
    ensures some { IfSome result (λ f. 1 ≤ f.size) }
    ensures size { IfSome result (λ f. f.size ≡ size) }
{
    if size == 0 {
        None
    } else {
        Some(Found { size, name })
    }
}

/// The first of two that is there.
pub(crate) fn or_else(first: Option<Found>, other: Option<Found>) -> Option<Found>
    ensures { result ≡ or_else first other }
{
    match first {
        Some(found) => Some(found),
        None => other,
    }
}
