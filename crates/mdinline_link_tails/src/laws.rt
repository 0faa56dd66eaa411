//! Laws about resources.

ghost use Rattle.mdinline_link_tails.specs.Laws.{LooksAreLinear};

/// All looks at resources of a text together pass at most 56 bytes for each of its bytes, though one may be made behind each bracket: in a
/// destination without marks at most 32 parentheses are open, one with marks ends at the next `<`, and a title at its next mark.
pub fn looks_are_linear()
    ensures { LooksAreLinear }
{}
