//! Forms in which a person types a list of events: as nested spans with their texts, and with all their places.
#![tactic(auto)]

// forms: events as nested spans with their texts, and with all their places
pub mod points;
pub mod spans;
