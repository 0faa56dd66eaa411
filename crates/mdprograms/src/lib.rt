//! What the programs share: their arguments as words and numbers, how a text is written, why a program fails, and what it then shows.
#![tactic(auto)]

// arguments: as words, and the numbers in them
pub mod numbers;
pub mod words;

// output: writing a text
pub mod write;

// failure: why a program fails, and what a call shows and returns then
pub mod failure;
pub mod status;
