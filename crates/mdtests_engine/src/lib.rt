//! Tests of the engine, as a caller sees it: values, places, edits, walks, links and chunks, a tokenizer without a machine.
#![tactic(auto)]

// tests: of the engine without a machine
#[cfg(test)]
mod division;
#[cfg(test)]
mod edit_map;
#[cfg(test)]
mod no_memory;
#[cfg(test)]
mod places;
#[cfg(test)]
mod ready;
#[cfg(test)]
mod shown;
#[cfg(test)]
mod tokenizer;
#[cfg(test)]
mod values;
#[cfg(test)]
mod walks;
