//! How long a document may be.

ghost use Rattle.std.specs.Prelude.{◌↔◌, ◌+◌, ◌*◌, ◌^◌, ◌≤◌, ◌<◌};

use markdown_base::configuration::TabSize;

/// The greatest length that is read: the tab size times this number, and one more, fits `usize`.
pub fn limit_of(tab: TabSize) -> usize
    ensures { (n : _) → (n ≤ result) ↔ (tab * n + 1 < 2 ^ 64) }
{
    (usize::MAX - 1) / tab.get()
}
