//! Laws of the limit of depth. Each is a function that does nothing; its contract is the law.

ghost use Rattle.mdhtml_depth.specs.Laws.{BalanceIsKept, DepthIsKept, OthersStay, ShallowStays};

/// Balanced events stay balanced.
pub fn limits_keep_balance()
    ensures { BalanceIsKept }
{}

/// Of balanced events, no span that is left is too deep.
pub fn limits_are_kept()
    ensures { DepthIsKept }
{}

/// If no span is too deep, nothing changes.
pub fn shallow_events_stay()
    ensures { ShallowStays }
{}

/// All other events stay, in their order: so does each text.
pub fn other_events_stay()
    ensures { OthersStay }
{}
