//! Tests of whole documents, as a caller sees them, and the surface of the libraries.
#![tactic(auto)]

// tests: of documents, edits and lists, and public paths
#[cfg(test)]
mod documents;
#[cfg(test)]
mod edits;
#[cfg(test)]
mod gfm_edits;
#[cfg(test)]
mod lists;
#[cfg(test)]
mod sections;
#[cfg(test)]
mod shown;
#[cfg(test)]
mod surface;
