//! Tests of the examples, as a caller sees them. They are in no crate of other tests, as these need not wait for the examples.
#![tactic(auto)]

// examples: a program's worth of calls, kept tokenizers, the linter; how events are shown
#[cfg(test)]
mod examples;
#[cfg(test)]
mod kept;
#[cfg(test)]
mod linter;
#[cfg(test)]
mod shown;
