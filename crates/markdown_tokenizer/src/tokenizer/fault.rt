//! Why a push or a flush failed, how an `AllocError` becomes a fault, and how a fault is shown.

ghost use Rattle.std.specs.Prelude.{◌≡◌, Some};
ghost use Rattle.markdown_tokenizer.specs.Fault.{fault_text};
ghost use Rattle.markdown_tokenizer.specs.declared.tokenizer.fault.Fault.TheVariants.{Memory};

use markdown_base::message::Message;
use std::alloc::AllocError;
use std::fmt;

/// Why a push or a flush failed. Each is shown as one line.
#[derive(Debug, Drop)]
pub enum Fault {
    /// It ran out of memory; the tokenizer has failed.
    Memory,
    /// The tokenizer had failed or was flushed before this call; nothing changed.
    Failed,
    /// The document is refused, with this message; the tokenizer has failed.
    Message(Message),
}

impl fmt::Display for Fault {
    ghost output = { λ fault. Some (fault_text fault) };

    /// Writes the fault as one line.
    fn fmt<W: fmt::Write>(&self, f: &mut fmt::Formatter<W>) -> fmt::Result {
        match self {
            Fault::Memory => write!(f, "out of memory"),
            Fault::Failed => write!(f, "tokenizer has failed"),
            Fault::Message(message) => write!(f, "{message}"),
        }
    }
}

impl From<AllocError> for Fault {
    ghost from_gives = { λ _ fault. fault ≡ Memory };

    /// A failed allocation is `Memory`.
    fn from(_error: AllocError) -> Fault {
        Self::Memory
    }
}
