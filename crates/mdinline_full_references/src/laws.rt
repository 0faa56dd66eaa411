//! Laws about full references.

ghost use Rattle.mdinline_full_references.specs.Laws.{LooksAreLinear};

/// All looks at full references of a text together pass no more bytes than the text has, though one may be made behind each bracket: a look ends at
/// the first bracket that no backslash hides, so before the next look begins.
pub fn looks_are_linear()
    ensures { LooksAreLinear }
{}
