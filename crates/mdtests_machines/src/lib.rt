//! Tests of the small machines and of `Text`: whole documents, ranges, gaps, every cut, children.
#![tactic(auto)]

// tests: of small machines and texts
#[cfg(test)]
mod every_cut;
#[cfg(test)]
mod machines;
#[cfg(test)]
mod no_memory;
#[cfg(test)]
mod ranges;
#[cfg(test)]
mod readers;
#[cfg(test)]
mod refusals;
#[cfg(test)]
mod resolving;
#[cfg(test)]
mod shown;
#[cfg(test)]
mod subtokenize;
