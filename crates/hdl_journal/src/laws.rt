//! Laws of a journal, each the contract of a function without a body.

ghost use Rattle.hdl_journal.specs.Laws.{AllowedStays, MadeOnce, OneAtEachNumber, OneIsEarlier, OnlyGrows, StandsBehind, TablesFollow};

/// What stands in the journal stays there, at its place, whatever is put later.
pub fn only_grows()
    ensures { OnlyGrows }
{}

/// A write that is put behind all that a server knew, and comes while just that many stand, stands right behind what the server knew, whatever is put before and later.
pub fn stands_behind()
    ensures { StandsBehind }
{}

/// A put that was made changes nothing if it comes again.
pub fn made_once()
    ensures { MadeOnce }
{}

/// If each server decides its write on the table of what it knew, each write of the journal is allowed by the table of those before it.
pub fn allowed_stays()
    ensures { AllowedStays }
{}

/// What one server reads is a beginning of what is read later, by any server.
pub fn one_is_earlier()
    ensures { OneIsEarlier }
{}

/// Servers that know equally many writes of a journal know the same writes, so they have the same table.
pub fn one_at_each_number()
    ensures { OneAtEachNumber }
{}

/// The table of a longer list is the table of its beginning after the rest of the writes.
pub fn tables_follow()
    ensures { TablesFollow }
{}
