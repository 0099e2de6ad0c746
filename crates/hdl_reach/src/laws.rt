//! Laws of chains, masks and a table's counts. Each is the contract of a function without a body.

ghost use Rattle.hdl_reach.specs.Laws.{OneMask, NoneAtZero, SameChains, SameMasks, AdministratorsAmong};
ghost use Rattle.hdl_reach.specs.Cost.{HaveMost};

/// A reference has at most one mask for a handle.
pub fn one_mask()
    ensures { OneMask }
{}

/// A reference of index 0 is no administrator.
pub fn none_at_zero()
    ensures { NoneAtZero }
{}

/// Let some places refer to no others. If two tables have the same values at these places, the chains from them are the
/// same in both.
pub fn same_chains()
    ensures { SameChains }
{}

/// Such tables have the same masks for a handle, if its values are the same in both and its HS_ADMIN values refer only
/// to these places.
pub fn same_masks()
    ensures { SameMasks }
{}

/// If places refer to no others, and the HS_ADMIN values of a handle refer only to these, its administrators are among
/// them.
pub fn administrators_among()
    ensures { AdministratorsAmong }
{}

/// The counts of each table's values, handles and lists are bounded. So every table meets the condition of `cost` for
/// some bounds.
pub fn have_most()
    ensures { HaveMost }
{}
