//! The machine of inline text: what the machine of texts reads, links, images and emphasis; and strings.
#![tactic(auto)]

// runs: delimiter runs, their rows and their code
mod attention;
// brackets: that wait, and their ends
mod brackets;
// machine: its names, rules and resolver; that it is lawful
pub mod inlines;
// labels: of references
mod labels;
// laws: of the machine
pub mod laws;
// machine
pub mod names;
// bytes: that states read over
mod over;
// reading: the definition of inline text; its lines, runs, data and constructs are read, and so are chains
pub mod read;
// strings: what they are, and that they and chains of them are read
mod strings;
