//! A journal in the place of a file.

ghost use Rattle.std.specs.Prelude.{◌≡◌, List, None, true, false};
ghost use Rattle.hdl_rows.specs.Table.{Table, no_rows};
ghost use Rattle.hdl_rows.specs.Write as table;
ghost use Rattle.hdl_rows.specs.Write.{CanWrite};
ghost use Rattle.hdl_journal.specs.Journal.{after_writes};
ghost use Rattle.hdl_durablerows.specs.Durable.{Keeps, IsNear, left_by};
ghost use Rattle.hdl_durablerows.specs.Writes.{write_of};
ghost use Rattle.hdl_journalrows.specs.Told.{IsOfTold, Tells};

use hdl_durablerows::{DurableFile, DurableRows, ShutObserver, Write, WriteState};
use hdl_rows::Rows;

/// A list of writes that only grows, of which this server knows a beginning.
pub trait Journal {
    /// The writes that it told, from the first on.
    ghost told: { Self → List table.Write };

    /// Begins to put the write behind those that it told; or takes the next one of others, if it is this write. Never Unknown.
    fn begin(&mut self, write: &Write<'_>) -> WriteState
        ensures tells { Tells result (told self.old) (told self.new) (write_of write.now) };

    /// Ends the put that was begun, unless it goes on.
    fn end(&mut self, write: &Write<'_>) -> WriteState
        ensures tells { Tells result (told self.old) (told self.new) (write_of write.now) };

    /// Whether the put that was begun can be ended by now.
    fn has_ended(&self) -> bool;
}

/// A journal in the place of a table's file.
#[derive(Drop)]
pub struct JournalFile<J: Journal + Drop> {
    pub journal: J,
}

impl<J: Journal + Drop> DurableFile for JournalFile<J> {
    ghost use Rattle.hdl_journalrows.specs.Told.{IsOfTold};
    ghost use Rattle.std.specs.Prelude.{true};

    ghost stands = { λ s k. IsOfTold (J.told s.journal) k };

    ghost is_threaded = { λ _. true };

    fn begin(&mut self, write: &Write<'_>) -> WriteState {
        self.journal.begin(write)
    }

    fn end(&mut self, write: &Write<'_>) -> WriteState {
        self.journal.end(write)
    }

    /// Refuses. What stands in the journal was read by others, and no turn of a server would have made the write that undoes it.
    fn undo(&mut self, write: &Write<'_>) -> WriteState
        requires can { (t : Table) × IsOfTold (J.told self.old.journal) (Keeps t) × CanWrite t (write_of write.now) }
        ensures left { (t : Table) → IsOfTold (J.told self.old.journal) (Keeps t) → CanWrite t (write_of write.now) → IsOfTold (J.told self.new.journal) (left_by t (write_of write.now) result) }
        ensures beside { true ≡ true }
        ensures refused { result ≡ WriteState.Refused }
        ensures told { J.told self.new.journal ≡ J.told self.old.journal }
    {
        let _asked_for = write;
        WriteState::Refused
    }

    fn hands_over(&self) -> bool {
        true
    }

    fn has_ended(&self) -> bool {
        self.journal.has_ended()
    }
}

/// What the journal's writes make of an empty table, in their order, is this table, or this table after the write that is owed; and this table alone, if none is. The table is
/// never shut.
pub fn is_of_journal<R: Rows + Drop, J: Journal + Drop, A: ShutObserver + Drop>(
    rows: &DurableRows<R, JournalFile<J>, A>,
)
    ensures near { IsNear rows.now.table rows.now.owed (after_writes no_rows (J.told rows.now.file.journal)) }
    ensures exact { rows.now.owed ≡ None → rows.now.table ≡ after_writes no_rows (J.told rows.now.file.journal) }
    ensures open { rows.now.is_shut ≡ false }
{
    rows.stands_beside();
}
