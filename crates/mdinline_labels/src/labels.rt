//! The labels that a document defines.

ghost use Rattle.std.specs.Prelude.{◌≡◌, ◌||◌, List, ℕ, IfOk, OnOk, OnErr, false, true};
ghost use Rattle.mdinline_labels.specs.Defined.{defines, is_same};

use crate::normalised;
use std::alloc::{AllocError, Global};
use std::collections::BTreeSet;

/// Labels, normalised and in the order of their bytes.
#[derive(Drop)]
pub struct Labels {
    normal: BTreeSet<Vec<u8>>,
}

impl Labels {
    /// No labels. Takes no memory.
    pub fn new(alloc: Global) -> Labels
        ensures { (label : List ℕ) → defines result label ≡ false }
    {
        Labels {
            normal: BTreeSet::new(alloc),
        }
    }

    /// Defines a label. If it runs out of memory, the labels are as before.
    pub fn define(&mut self, alloc: Global, label: &[u8]) -> Result<(), AllocError>
        ensures defined { OnOk result ((other : List ℕ) → defines self.new other ≡ (is_same other label.now || defines self.old other)) }
        ensures kept { OnErr result ((other : List ℕ) → defines self.new other ≡ defines self.old other) }
    {
        let normal = normalised(alloc, label)?;
        self.normal.insert(normal)?;
        Ok(())
    }

    /// Defines all labels that are defined in others. If it runs out of memory, some of them may be defined.
    pub fn define_all(&mut self, alloc: Global, others: &Labels) -> Result<(), AllocError>
        ensures { OnOk result ((label : List ℕ) → defines self.new label ≡ (defines others.now label || defines self.old label)) }
    {
        for normal in &others.normal {
            self.normal.insert(normal.clone()?)?;
        }
        Ok(())
    }

    /// Whether the same labels are defined in others.
    pub fn is_same(&self, others: &Labels) -> bool
        ensures { result ≡ true → (label : List ℕ) → defines self.now label ≡ defines others.now label }
    {
        self.normal == others.normal
    }

    /// Whether no label is defined.
    pub fn is_empty(&self) -> bool
        ensures none { result ≡ true → (label : List ℕ) → defines self.now label ≡ false }
    {
        self.normal.is_empty()
    }

    /// Whether a label is defined: one is that is the same.
    pub fn contains(&self, alloc: Global, label: &[u8]) -> Result<bool, AllocError>
        ensures { IfOk result (λ is_defined. is_defined ≡ defines self.now label.now) }
    {
        let normal = normalised(alloc, label)?;
        Ok(self.normal.contains(normal.as_slice()))
    }
}
