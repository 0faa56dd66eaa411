//! Which labels are defined, of links and of footnotes.

ghost use Rattle.std.specs.Prelude.{◌≡◌, ◌||◌, IfOk, OnOk, false, true};
ghost use Rattle.markdown_base.specs.Virtual.{IsWithinLimit};
ghost use Rattle.mddocument_editing.specs.Known.{AreWritten, Key, knows};

use markdown_base::configuration::ParseOptions;
use mdgfm_sections::notes::{Written, labels_and_notes};
use mdinline_labels::labels::Labels;
use mdinline_machine::inlines::Inlines;
use std::alloc::{AllocError, Global};

/// Labels that are defined.
#[derive(Drop)]
pub(crate) struct Defined {
    /// The machine that reads texts. It knows those of links.
    pub(crate) machine: Inlines,
    /// Those of footnotes.
    pub(crate) notes: Labels,
}

impl Defined {
    /// None. Takes no memory.
    pub(crate) fn new(alloc: Global) -> Defined
        ensures { (key : Key) → knows result key ≡ false }
    {
        let labels = Labels::new(alloc);
        let notes = Labels::new(alloc);
        Defined {
            machine: Inlines { labels },
            notes,
        }
    }

    /// Those that bytes define.
    pub(crate) fn by(
        alloc: Global,
        options: &ParseOptions,
        bytes: &[u8],
    ) -> Result<Defined, AllocError>
        requires { IsWithinLimit options.now.tab_size bytes.now }
        ensures { IfOk result (λ defined. AreWritten options.now defined bytes.now) }
    {
        let Written { links, notes } = labels_and_notes(alloc, options, bytes)?;
        Ok(Defined {
            machine: Inlines { labels: links },
            notes,
        })
    }

    /// Defines all labels that are defined in others. If it runs out of memory, some of them may be defined.
    pub(crate) fn define_all(&mut self, alloc: Global, others: &Defined) -> Result<(), AllocError>
        ensures { OnOk result ((key : Key) → knows self.new key ≡ (knows others.now key || knows self.old key)) }
    {
        self.machine
            .labels
            .define_all(alloc, &others.machine.labels)?;
        self.notes.define_all(alloc, &others.notes)
    }

    /// Whether the same labels are defined in others.
    pub(crate) fn is_same(&self, others: &Defined) -> bool
        ensures { result ≡ true → (key : Key) → knows self.now key ≡ knows others.now key }
    {
        self.machine.labels.is_same(&others.machine.labels) && self.notes.is_same(&others.notes)
    }
}
