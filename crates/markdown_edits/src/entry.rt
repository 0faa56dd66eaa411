//! An edit as a pool keeps it.

/// An edit whose additions are a part of a list.
#[derive(Clone, Copy)]
pub(crate) struct Entry {
    /// The edit's index into the events.
    pub(crate) index: usize,
    /// How many events go, from the index on.
    pub(crate) remove: usize,
    /// Where its additions start in the list.
    pub(crate) start: usize,
    /// Where its additions end in the list.
    pub(crate) end: usize,
}
