//! Laws over decisions, each the contract of a function without a body.

ghost use Rattle.hdl_ops.specs.Laws.{OneDecision, TellsByCode, EmptyFits};

/// A request is decided in one way on a table.
pub fn one_decision()
    ensures { OneDecision }
{}

/// A decision tells what its code says, and no more: with code 1 the values that are asked for and that the level may read, or
/// the handles of the prefix that is listed; with a referral the prefix that was named; nothing with another code.
pub fn tells_by_code()
    ensures { TellsByCode }
{}

/// A reply without content fits into a message, whatever it answers.
pub fn empty_fits()
    ensures { EmptyFits }
{}
