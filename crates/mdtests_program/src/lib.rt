//! Tests of the calls of the program that prints events, and of what programs share, with fakes of what is read and written. They are in no
//! crate of other tests, as these need not wait for the program.
#![tactic(auto)]

// calls: arguments, what is written, and reads and writes that fail
#[cfg(test)]
mod calls;
#[cfg(test)]
mod written;
