//! Tests of HTML: as bytes, of documents, and of the program that writes it, with fakes of what it reads and writes.
#![tactic(auto)]

// calls: documents as HTML, by options
#[cfg(test)]
mod calls;
// events: HTML of lists of them
#[cfg(test)]
mod events;

// bytes: text, addresses and safe HTML
#[cfg(test)]
mod markup;
// program: arguments, what is written, and reads and writes that fail
#[cfg(test)]
mod program;
// tasks: checks of task list items
#[cfg(test)]
mod tasks;
