//! What the tests of programs share: a reader, a writer and a system that are fakes, and how a call over them ended. It has no tests of its
//! own, and stands on std alone.
#![tactic(auto)]

// fakes: a reader and a writer of which one call fails, a system with given arguments, and how a call ended
pub mod ended;
pub mod readers;
pub mod systems;
pub mod writers;
