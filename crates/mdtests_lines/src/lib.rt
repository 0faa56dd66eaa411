//! Tests of lines and containers, which plain code reads. They are in no crate of other tests, so that a change there proves little anew.
#![tactic(auto)]

// tests: of lines, containers, skeletons
#[cfg(test)]
mod containers;
#[cfg(test)]
mod lines;
#[cfg(test)]
mod shown;
