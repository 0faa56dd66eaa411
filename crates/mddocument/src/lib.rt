//! How a document is read, and its events: what the program and the library for C share.
#![tactic(auto)]

// choices: how a document is read: which machine, and how
pub mod choice;

// documents: `events_of`, `read_document` and its like, and the definition of these events; the options
pub mod documents;

// nested: documents with containers: blocks, texts, strings; well formed
mod nested;

// making: what any machine makes of a document; chains of content are leaf blocks
mod making;

// tiles: innermost spans tile a document
pub mod laws;

// limit: how long a document may be
pub mod limit;

// ranges: of a document, read as one text
pub mod ranges;
