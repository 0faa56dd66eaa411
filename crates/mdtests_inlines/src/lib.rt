//! Tests of the plain code of inline text: labels and other parts of links, character references, emphasis.
#![tactic(auto)]

// tests: of plain code of inline text
#[cfg(test)]
mod emphasis;
#[cfg(test)]
mod labels;
#[cfg(test)]
mod references;
#[cfg(test)]
mod shown;
