//! Laws of the calls on a lane. Each is the contract of a function without a body.

ghost use Rattle.hdl_slots.specs.Laws.{PutIsFound, TakenIsGone, AtMostEight};

/// A challenge that was put is found by its peer and the number that it was given.
pub fn put_is_found()
    ensures { PutIsFound }
{}

/// A challenge that was taken is not found again.
pub fn taken_is_gone()
    ensures { TakenIsGone }
{}

/// After a challenge is put, its lane has at most eight.
pub fn at_most_eight()
    ensures { AtMostEight }
{}
