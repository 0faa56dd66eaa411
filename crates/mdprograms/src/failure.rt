//! Why a program fails.

ghost use Rattle.std.specs.Prelude.{◌≡◌, Some};
ghost use Rattle.mdprograms.specs.Failure.{failure_text};
ghost use Rattle.mdprograms.specs.declared.failure.Failure.TheVariants.{Memory};

use markdown_base::message::Message;
use std::alloc::AllocError;
use std::fmt;

/// Why not all was written. Each is shown as one line on standard error.
#[derive(Debug, PartialEq, Eq, Drop)]
pub enum Failure {
    /// It ran out of memory.
    Memory,
    /// The reader failed.
    Read,
    /// The writer failed, or wrote 0 bytes.
    Write,
    /// The tab size times the length of the input, and one more, does not fit `usize`.
    TooLong,
    /// The events have chains of text that cannot be read. This never happens with the machines that the programs
    /// offer.
    NotReady,
    /// The document is refused, by a state or a resolver. No machine that the programs offer refuses one.
    Message(Message),
}

impl fmt::Display for Failure {
    ghost output = { λ failure. Some (failure_text failure) };

    /// Writes the failure as one line.
    fn fmt<W: fmt::Write>(&self, f: &mut fmt::Formatter<W>) -> fmt::Result {
        match self {
            Failure::Memory => write!(f, "out of memory"),
            Failure::Read => write!(f, "cannot read input"),
            Failure::Write => write!(f, "cannot write output"),
            Failure::TooLong => write!(f, "input too long"),
            Failure::NotReady => write!(f, "events are not ready"),
            Failure::Message(message) => write!(f, "{message}"),
        }
    }
}

impl From<AllocError> for Failure {
    ghost from_gives = { λ _ failure. failure ≡ Memory };

    /// A failed allocation is `Memory`.
    fn from(_error: AllocError) -> Failure {
        Failure::Memory
    }
}
