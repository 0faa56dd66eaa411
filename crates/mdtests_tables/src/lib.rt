//! Tests of machines as tables: machines that no library offers, each with what is rare among the others.
#![tactic(auto)]

// tests: of machines as tables
#[cfg(test)]
mod behind;
#[cfg(test)]
mod looping;
#[cfg(test)]
mod over;
#[cfg(test)]
mod replacing;
pub mod resolvers;
#[cfg(test)]
mod shown;
#[cfg(test)]
mod starved;
