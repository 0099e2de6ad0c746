//! How the writes of a table come into its file.

ghost use Rattle.std.specs.Prelude.{◌≡◌, Bool, false, OnOk, OnErr};
ghost use Rattle.sqlite.specs.State.{HasCleanDisk};
ghost use Rattle.sqlite.specs.Held.{state};
ghost use Rattle.hdl_rows.specs.Table.{Table};
ghost use Rattle.hdl_rows.specs.Write as table;
ghost use Rattle.hdl_rows.specs.Write.{CanWrite, after_write};
ghost use Rattle.hdl_sqlrows.specs.Filed.{WhereOpen, IsFiled, CrashLeaves, filed_table};
ghost use Rattle.hdl_durablerows.specs.Durable.{Standing, Keeps, Makes, IsKept, IsTried, StandsIn, left_by, MayMake};
ghost use Rattle.hdl_durablerows.specs.Writes.{write_of};

use crate::filerows::FileRows;
use crate::write::Write;
use hdl_sqlrows::StoreFault;
use sqlite::Alter;

/// What is known of a write.
#[derive(Clone, Copy, PartialEq, Eq, Drop)]
pub enum WriteState {
    /// It is in the file, where it lasts.
    Made,
    /// The file is as it was.
    Refused,
    /// The file has it or hasn't: nobody can tell. It takes no more writes.
    Unknown,
    /// It is being made, or has failed and the store couldn't be asked what became of it. It shall be asked for again.
    UnderWay,
}

/// A table's file, to which writes go, one at a time.
pub trait DurableFile {
    /// What is known of it.
    ghost stands: { Self → Standing → Type 0 };

    /// Whether it hands writes over, to be made beside the calls.
    ghost is_threaded: { Self → Bool };

    /// Makes the write in the file, or begins to.
    fn begin(&mut self, write: &Write<'_>) -> WriteState
        requires can { (t : Table) × stands self.old (Keeps t) × CanWrite t (write_of write.now) }
        ensures left { (t : Table) → stands self.old (Keeps t) → CanWrite t (write_of write.now) → stands self.new (left_by t (write_of write.now) result) }
        ensures beside { is_threaded self.new ≡ is_threaded self.old };

    /// Ends the write that was begun, unless it goes on.
    fn end(&mut self, write: &Write<'_>) -> WriteState
        requires begun { (t : Table) × stands self.old (Makes t (write_of write.now)) }
        ensures left { (t : Table) → stands self.old (Makes t (write_of write.now)) → stands self.new (left_by t (write_of write.now) result) }
        ensures beside { is_threaded self.new ≡ is_threaded self.old };

    /// Makes the write, or begins to, which undoes one that memory refused. A file that others read refuses, and the other write stays ahead of memory.
    fn undo(&mut self, write: &Write<'_>) -> WriteState
        requires can { (t : Table) × stands self.old (Keeps t) × CanWrite t (write_of write.now) }
        ensures left { (t : Table) → stands self.old (Keeps t) → CanWrite t (write_of write.now) → stands self.new (left_by t (write_of write.now) result) }
        ensures beside { is_threaded self.new ≡ is_threaded self.old }
    {
        self.begin(write)
    }

    /// Whether it hands writes over. Else each write is made by its call.
    fn hands_over(&self) -> bool
        ensures { result ≡ is_threaded self.now };

    /// Whether the write that was begun can be ended by now.
    fn has_ended(&self) -> bool;
}

/// Makes the write in a database that lasts.
fn try_write<S: Alter + Drop>(file: &mut FileRows<S>, write: &Write<'_>) -> Result<(), StoreFault>
    requires can { (t : Table) × IsKept t (state S.Store file.old) × CanWrite t (write_of write.now) }
    ensures done { OnOk result (HasCleanDisk (state S.Store file.new) → IsFiled (state S.Store file.new) (after_write (filed_table (state S.Store file.old)) (write_of write.now))) }
    ensures undone { OnErr result (WhereOpen (state S.Store file.new) (filed_table (state S.Store file.new) ≡ filed_table (state S.Store file.old))) }
    ensures durable { OnOk result (HasCleanDisk (state S.Store file.new) → CrashLeaves (state S.Store file.new) (after_write (filed_table (state S.Store file.old)) (write_of write.now))) }
    ensures restored { OnErr result (WhereOpen (state S.Store file.new) (CrashLeaves (state S.Store file.new) (filed_table (state S.Store file.old)))) }
    ensures survives { MayMake (state S.Store file.old) (state S.Store file.new) (write_of write.now) }
{
    match write {
        Write::Create(name, values) => file.create(name, values),
        Write::Add(name, values) => file.add(name, values),
        Write::Modify(name, values) => file.modify(name, values),
        Write::Remove(name, indexes) => file.remove(name, indexes),
        Write::Delete(name) => file.delete(name),
    }
}

/// What became of a write that failed: the store is asked whether it has shut, and where memory for that is refused it shall be asked again.
fn ask<S: Alter + Drop>(file: &mut FileRows<S>) -> WriteState
    ensures { (t : Table) (w : table.Write) → IsTried t w (state S.Store file.old) → StandsIn (state S.Store file.new) (left_by t w result) }
{
    match file.is_open() {
        Ok(true) => WriteState::Refused,
        Ok(false) => WriteState::Unknown,
        Err(_) => WriteState::UnderWay,
    }
}

/// A write is made by the call itself.
impl<S: Alter + Drop> DurableFile for FileRows<S> {
    ghost stands = { λ s k. StandsIn (state S.Store s) k };

    ghost is_threaded = { λ _. false };

    fn begin(&mut self, write: &Write<'_>) -> WriteState {
        match try_write(self, write) {
            Ok(()) => WriteState::Made,
            Err(_) => ask(self),
        }
    }

    fn end(&mut self, _write: &Write<'_>) -> WriteState {
        ask(self)
    }

    fn hands_over(&self) -> bool {
        false
    }

    fn has_ended(&self) -> bool {
        true
    }
}
