//! How many states were called. The count takes no bytes, and only contracts see it.

ghost use Rattle.std.specs.Prelude.{◌≡◌, ◌+◌, ℕ};
ghost use Rattle.std.specs.Borrow.{ftrue};

use std::marker::Model;

/// A count of calls, which exists only in proofs.
#[derive(Drop)]
pub struct Calls {
    pub ghost made: { ℕ },
}

impl Model for Calls {
    ghost also_owns = { λ _. ftrue };
}

impl Calls {
    /// No call was made.
    pub(crate) fn new() -> Calls
        ensures { result.made ≡ 0 }
    {
        Calls {}
    }

    /// One call more was made.
    pub(crate) fn next(&self) -> Calls
        ensures { result.made ≡ self.now.made + 1 }
    {
        Calls {}
    }

    /// So many calls more were made.
    pub(crate) fn more(&self, n: usize) -> Calls
        ensures { result.made ≡ self.now.made + n }
    {
        let _ = n;
        Calls {}
    }

    /// As many calls were made.
    pub(crate) fn same(&self) -> Calls
        ensures { result.made ≡ self.now.made }
    {
        Calls {}
    }
}
