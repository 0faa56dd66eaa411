//! Laws about the program. Each is a function that does nothing; its contract is the law.

ghost use Rattle.std.specs.Prelude.{◌≡◌, codes};

use crate::arguments::USAGE;

/// The text of the usage line.
pub fn usage_line_stays()
    ensures { USAGE.now ≡ codes "usage: mdhtml [--unsafe] [--gfm] [--strikethrough-double-tilde] [--tab n] [--depth n]" }
{}
