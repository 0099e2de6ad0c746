//! Laws of tables. Each is the contract of a function without a body.

ghost use Rattle.hdl_rows.specs.Laws.{SameLookUps, PutStands, OthersStay, RemovedAreGone, UnremovedStay, CreatedIsThere, DeletedIsGone, OtherHandlesStay, HandlesStay, StayPlaced};

/// Tables that answer every look-up alike are equal.
pub fn same_look_ups()
    ensures { SameLookUps }
{}

/// A value that was added or modified is at its index.
pub fn put_stands()
    ensures { PutStands }
{}

/// Adding and modifying leave the handle's other values as they were.
pub fn others_stay()
    ensures { OthersStay }
{}

/// There is no value at an index that was removed.
pub fn removed_are_gone()
    ensures { RemovedAreGone }
{}

/// Removing leaves the handle's other values as they were.
pub fn unremoved_stay()
    ensures { UnremovedStay }
{}

/// A handle that was created is there with its values.
pub fn created_is_there()
    ensures { CreatedIsThere }
{}

/// A handle that was deleted is gone with its values.
pub fn deleted_is_gone()
    ensures { DeletedIsGone }
{}

/// A write leaves every other handle and its values as they were.
pub fn other_handles_stay()
    ensures { OtherHandlesStay }
{}

/// Adding, modifying and removing leave the set of handles as it was.
pub fn handles_stay()
    ensures { HandlesStay }
{}

/// If each value of a table is at one of its handles, that is still so after every write that the table allows.
pub fn stay_placed()
    ensures { StayPlaced }
{}
