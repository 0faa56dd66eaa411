//! Laws of checks. Each is a function that does nothing; its contract is the law.

ghost use Rattle.std.specs.Prelude.{◌≡◌};
ghost use Rattle.mdgfm_tasks.specs.Examples.{lines, lines_told, lines_with};
ghost use Rattle.mdgfm_tasks.specs.Laws.{BalanceIsKept, ChecksAreFew, ChecksStandFirst, ForwardIsKept, NamesAreKept, NoCheckChangesNothing, OffChangesNothing};

/// The events of some lines with their checks, on each side of each rule.
pub fn checks_of_lines()
    ensures { lines_with lines ≡ lines_told lines }
{}

/// Without the option, or without a check, `with_tasks` changes nothing.
pub fn no_checks_change_nothing()
    ensures off { OffChangesNothing }
    ensures none { NoCheckChangesNothing }
{}

/// Balanced events stay balanced.
pub fn checks_keep_balance()
    ensures { BalanceIsKept }
{}

/// Events whose byte indices never decrease still have such.
pub fn checks_keep_order()
    ensures { ForwardIsKept }
{}

/// Checks bring no names but theirs, and those of white space and data.
pub fn checks_keep_names()
    ensures { NamesAreKept }
{}

/// A check is at the front of the first block of an item, a paragraph; and each item has one at most.
pub fn checks_stand_first()
    ensures first { ChecksStandFirst }
    ensures few { ChecksAreFew }
{}
