//! A document that can be edited: its sections, places as editors ask for them, and events in little memory.
#![tactic(auto)]

// sections: a document that can be edited
pub mod edit;
pub mod sections;

// cuts: where it is cut
mod cut;
pub mod rests;

// one section: its bytes, read; the labels that are defined
mod defined;
mod kept;
mod section;

// sections read again: their events, put in
mod reread;

// the list of sections: with sums of its blocks
mod list;

// seams: sections that are cut again
mod recut;

// trims: sections that stay at the ends of those
mod trim;

// targets: what links of sections lead to
mod leads;
mod linking;
mod said;

// putting in: sections that changed; which others are read again, and which have links that lead elsewhere
mod asking;
mod put;
mod told;

// moved events: events of sections, moved; lookups
mod lookup;
mod moved;

// undefined: references that nothing defines
mod undefined;

// positions: by line and character, and back
pub mod positions;

// packed events: events in 24 bytes
pub mod packed;

// laws: of edits; `Below` has those of the crates below
pub mod laws;
