//! Laws about lines. Each is a function that does nothing; its contract is the law.

ghost use Rattle.mdblock_lines.specs.Lines.{LinesFollow, PlacesAreThoseOfSeats};

/// The lines of a document are one after another: each ends behind its line ending, and there the next begins.
#[tactic(auto, using(crate::proofs::LinesCut::lines_follow))]
pub fn lines_are_one_after_another()
    ensures { LinesFollow }
{}

/// Places in a line are those where its seats end.
#[tactic(auto, using(crate::proofs::SeatPlaces::places_are_those_of_seats))]
pub fn places_in_lines_are_those_of_seats()
    ensures { PlacesAreThoseOfSeats }
{}
