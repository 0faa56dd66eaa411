//! What all tokenizers of one document share.

ghost use Rattle.std.specs.Prelude.{◌≡◌, IsNone, IfSome};
ghost use Rattle.markdown_base.specs.Virtual.{IsTabSize, IsWithinLimit};

use markdown_base::configuration::ParseOptions;

/// A document, how it is read, and the machine that reads it.
///
/// The document is within the limit: the tab size times its length, and one more, fits `usize`. Then its virtual columns can be
/// counted. [`ParseState::new`] checks it.
#[derive(Drop)]
pub struct ParseState<'a, M> {
    /// The document's bytes.
    pub bytes: &'a [u8],
    /// Which constructs are on, and how they are read.
    pub options: &'a ParseOptions,
    /// The machine of states.
    pub machine: &'a M,
    /// Tab stops are 1 to 16 columns apart.
    pub ghost tab_size: { IsTabSize options.now.tab_size },
    /// The document is within the limit.
    pub ghost limit: { IsWithinLimit options.now.tab_size bytes.now },
}

impl<'a, M> ParseState<'a, M> {
    /// A document with its options and its machine. Returns `None` exactly if the document is past the limit.
    pub fn new(bytes: &'a [u8], options: &'a ParseOptions, machine: &'a M) -> Option<Self>
        ensures none { IsNone result → ¬ IsWithinLimit options.now.tab_size bytes.now }
        ensures bytes { IfSome result (λ p. p.bytes ≡ bytes.entry) }
        ensures options { IfSome result (λ p. p.options ≡ options.entry) }
        ensures machine { IfSome result (λ p. p.machine ≡ machine.entry) }
    {
        let tab_size = options.tab_size.get();
        let columns = tab_size.checked_mul(bytes.len())?;
        if columns == usize::MAX {
            return None;
        }
        Some(ParseState {
            bytes,
            options,
            machine,
        })
    }
}
