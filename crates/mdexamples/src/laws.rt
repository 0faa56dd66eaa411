//! Laws about the examples. Each is a function that does nothing; its contract is the law.

ghost use Rattle.mdexamples.specs.Ranks.{HeadingsHaveTheirRanks};

/// The linter finds the headings of each document, in order, with their ranks, whatever their texts are and in whatever containers they stand: the number
/// of `#` that an ATX heading begins with, and of a setext heading 1 where its underline is of `=`, and 2 where it is of `-`.
pub fn headings_have_their_ranks()
    ensures { HeadingsHaveTheirRanks }
{}
