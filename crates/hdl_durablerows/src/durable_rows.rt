//! A table in memory, with a file beside it.

ghost use Rattle.std.specs.Prelude.{◌≡◌, ◌+◌, min, true, false, Bool, None, Some, MatchResult, OnOk, OnErr};
ghost use Rattle.sqlite.specs.State.{HasCleanDisk};
ghost use Rattle.sqlite.specs.Held.{state};
ghost use Rattle.sqlite_trees.specs.Tree.{Trees};
ghost use Rattle.hdl_name.specs.Name.{canonical};
ghost use Rattle.hdl_rows.specs.Debt.{is_owed};
ghost use Rattle.hdl_rows.specs.Table.{Table, IsPlaced, has, indexes, AreDistinct, AreAbsent, ArePresent, with_new_handle, with_values, without_values, without_handle, refusals_after, most};
ghost use Rattle.hdl_rows.specs.Write.{Create, Add, Modify, Remove, Delete, CanWrite};
ghost use Rattle.hdl_sqlrows.specs.Filed.{WhereOpen, CrashLeaves};
ghost use Rattle.hdl_sqlrows.specs.Stored.{table_in};
ghost use Rattle.hdl_durablerows.specs.declared.pending.Pending.TheVariants.{Nothing};
ghost use Rattle.hdl_durablerows.specs.Durable.{Keeps, IsNear, debt_of};
ghost use Rattle.hdl_durablerows.specs.Pending.{IsBacking, StandsBy, OwesAtMost, OwesAfter, owed_by, ahead_by};
ghost use Rattle.hdl_durablerows.specs.Threaded.{MayLeave, IfHere};
ghost use Rattle.hdl_durablerows.specs.Writes.{write_of};

use crate::backing_file::BackingFile;
use crate::durable_file::DurableFile;
use crate::filerows::FileRows;
use crate::observer::ShutObserver;
use crate::pending::Pending;
use crate::places::put;
use crate::threaded::ThreadedFile;
use crate::write::Write;
use hdl_limits::Octets;
use hdl_name::Name;
use hdl_rows::reads::{found_octets, names_octets, seen_octets, values_octets, with_call};
use hdl_rows::{Owed, Owing, Provenance, Refused, Rows};
use hdl_value::{Reference, Value};
use sqlite::{Alter, Connection};
use std::alloc::Global;
use std::marker::Model;
use std::thread::Threads;

/// A table in memory of which each write stands in a file before it is answered. Contracts see what the table holds, how many calls were refused by it or
/// by the file, what was read, whether it is shut for writes, the write that the file may have and memory hasn't, whether writes are handed over, and the file.
#[derive(Drop)]
pub struct DurableRows<R: Rows + Drop, F: DurableFile + Drop, A: ShutObserver + Drop> {
    rows: R,
    backing: BackingFile<F, A>,
    refusals: u64,
    reads: u64,
}

impl<R: Rows + Drop, F: DurableFile + Drop, A: ShutObserver + Drop> Model for DurableRows<R, F, A> {
    ghost use Rattle.std.specs.Prelude.{◌+◌, min};
    ghost use Rattle.hdl_rows.specs.Table.{most};
    ghost use Rattle.hdl_durablerows.specs.Durable.{Durable, durable_code};
    ghost use Rattle.hdl_durablerows.specs.Pending.{IsBacking, owed_by, is_unknown};

    ghost Value = { Durable F };

    ghost coded = { durable_code F.code };

    ghost view = { λ s. record {
      table = R.content s.rows;
      refused = min (R.refused s.rows + s.refusals) most;
      reads = s.reads;
      is_shut = is_unknown s.backing.pending;
      owed = owed_by s.backing.pending;
      hands_over = F.is_threaded s.backing.file;
      file = s.backing.file;
    } };

    ghost invariant = { λ s. IsBacking (F.stands s.backing.file) (R.content s.rows) s.backing.pending };
}

/// Counts a write that isn't made.
fn refuse(refusals: &mut u64) -> Refused
    ensures { refusals.new ≡ min (refusals.old + 1) most }
{
    *refusals = refusals.saturating_add(1);
    Refused
}

/// Brings the write into the file: memory shall have it next. Else it is refused, and counted, once.
fn bring<R: Rows, F: DurableFile + Drop, A: ShutObserver + Drop>(
    rows: &mut R,
    backing: &mut BackingFile<F, A>,
    refusals: &mut u64,
    write: &Write<'_>,
) -> Result<(), Refused>
    requires stands { IsBacking (F.stands backing.old.file) (R.content rows.old) backing.old.pending }
    requires can { CanWrite (R.content rows.old) (write_of write.now) }
    ensures unchanged { R.content rows.new ≡ R.content rows.old }
    ensures stands { IsBacking (F.stands backing.new.file) (R.content rows.old) backing.new.pending }
    ensures ahead { OnOk result (ahead_by backing.new.pending ≡ Some (write_of write.now)) }
    ensures owed { OnErr result (OwesAtMost (owed_by backing.old.pending) (write_of write.now) (owed_by backing.new.pending)) }
    ensures beside { F.is_threaded backing.new.file ≡ F.is_threaded backing.old.file }
    ensures count { min (R.refused rows.new + refusals.new) most ≡ refusals_after result (min (R.refused rows.old + refusals.old) most) }
{
    let before = rows.refusals();
    backing.continue_write(rows, write);
    if rows.refusals() != before {
        // The table in memory refused to be read, and has counted that.
        return Err(Refused);
    }
    if backing.pending.is_ahead_by(write) {
        return Ok(());
    }
    Err(refuse(refusals))
}

/// Notes that memory has the write too. What memory refused stays owed.
fn claim(pending: &mut Pending, done: Result<(), Refused>) -> Result<(), Refused>
    ensures same { result ≡ done }
    ensures claimed { MatchResult done (λ _. pending.new ≡ Nothing) (λ _. pending.new ≡ pending.old) }
{
    if done.is_ok() {
        put(pending, Pending::Nothing);
    }
    done
}

impl<R: Rows + Drop, F: DurableFile + Drop, A: ShutObserver + Drop> DurableRows<R, F, A> {
    /// A table in memory and a file, in which it is kept.
    pub fn over(alloc: Global, rows: R, file: F, observer: A) -> DurableRows<R, F, A>
        requires placed { IsPlaced (R.content rows) }
        requires kept { F.stands file (Keeps (R.content rows)) }
        ensures { result ≡ record { table = R.content rows; refused = min (R.refused rows + 0) most; reads = 0; is_shut = false; owed = None; hands_over = F.is_threaded file; file = file } }
    {
        let backing = BackingFile {
            file,
            pending: Pending::Nothing,
            may_write: true,
            alloc,
            observer,
        };
        DurableRows {
            rows,
            backing,
            refusals: 0,
            reads: 0,
        }
    }

    /// Whether the table takes no more writes: nobody can tell whether the file has one.
    pub fn is_shut(&self) -> bool
        ensures { result ≡ self.now.is_shut }
    {
        self.backing.pending.is_shut()
    }

    /// What is known of the file, whatever it is: it stands beside the table as some pending write says, which is the one that is owed.
    pub fn stands_beside(&self)
        ensures { StandsBy F.stands self.now }
    {
        let _refusals = self.refusals;
    }

    /// The file.
    pub fn into_file(self) -> F
        ensures { result ≡ self.file }
    {
        self.backing.into_file()
    }
}

impl<R: Rows + Drop, S: Alter + Drop, A: ShutObserver + Drop> DurableRows<R, FileRows<S>, A> {
    /// What a crash leaves between calls: this table, or this table after the write that is owed; and this table alone, if none is. It is shut only over a store
    /// that has shut.
    pub fn after_a_crash(&self)
        ensures near { HasCleanDisk (state S.Store self.now.file) → (db : Trees) → (state S.Store self.now.file).may_leave db → IsNear self.now.table self.now.owed (table_in db) }
        ensures exact { self.now.owed ≡ None → HasCleanDisk (state S.Store self.now.file) → CrashLeaves (state S.Store self.now.file) self.now.table }
        ensures shut { self.now.is_shut ≡ true → WhereOpen (state S.Store self.now.file) ⊥ }
    {
        let _refusals = self.refusals;
    }

    /// The connection, for its owner to close.
    pub fn into_connection(self) -> Connection<S>
        ensures { result ≡ self.file }
    {
        self.into_file().into_connection()
    }
}

impl<R: Rows + Drop, T: Threads + Drop, A: ShutObserver + Drop> DurableRows<R, ThreadedFile<T>, A> {
    /// What a crash leaves between calls, also while a thread has the file: this table, or this table after the write that is owed; and this table alone, if none
    /// is. It is shut only over a store that has shut.
    pub fn after_a_crash_threaded(&self)
        ensures near { (db : Trees) → MayLeave self.now.file.place db → IsNear self.now.table self.now.owed (table_in db) }
        ensures exact { self.now.owed ≡ None → IfHere self.now.file.place (λ s. HasCleanDisk s → CrashLeaves s self.now.table) }
        ensures shut { self.now.is_shut ≡ true → IfHere self.now.file.place (λ s. WhereOpen s ⊥) }
    {
        let _refusals = self.refusals;
    }
}

impl<R: Rows + Drop, F: DurableFile + Drop, A: ShutObserver + Drop> Rows for DurableRows<R, F, A> {
    ghost content = { λ s. s.table };

    ghost refused = { λ s. s.refused };

    ghost reads = { λ s. s.reads };

    fn exists(&mut self, name: &Name) -> Result<bool, Refused> {
        let is = self.rows.exists(name)?;
        self.reads = with_call(self.reads, 0);
        Ok(is)
    }

    fn at(&mut self, reference: &Reference) -> Result<Option<Value>, Refused> {
        let value = self.rows.at(reference)?;
        self.reads = with_call(self.reads, found_octets(&value));
        Ok(value)
    }

    fn values(&mut self, name: &Name) -> Result<Vec<Value>, Refused> {
        let values = self.rows.values(name)?;
        self.reads = with_call(self.reads, values_octets(&values));
        Ok(values)
    }

    fn look(&mut self, name: &Name) -> Result<Option<Vec<Value>>, Refused> {
        let seen = self.rows.look(name)?;
        self.reads = with_call(self.reads, seen_octets(&seen));
        Ok(seen)
    }

    fn heads(&mut self, name: &Name) -> Result<Option<Vec<Value>>, Refused> {
        let seen = self.rows.heads(name)?;
        self.reads = with_call(self.reads, seen_octets(&seen));
        Ok(seen)
    }

    fn names(&mut self, authority: &[u8]) -> Result<Vec<Octets>, Refused> {
        let names = self.rows.names(authority)?;
        self.reads = with_call(self.reads, names_octets(&names));
        Ok(names)
    }

    fn create(
        &mut self,
        name: &Name,
        values: &[Value],
        provenance: &Provenance<'_>,
    ) -> Result<(), Refused>
        requires absent { has self.old.table (canonical name.now) ≡ false }
        requires distinct { AreDistinct (indexes values.now) }
        ensures done { OnOk result (self.new.table ≡ with_new_handle self.old.table (canonical name.now) values.now) }
        ensures undone { OnErr result (self.new.table ≡ self.old.table) }
        ensures count { self.new.refused ≡ refusals_after result self.old.refused }
        ensures reads { self.new.reads ≡ self.old.reads }
        ensures owed { OwesAfter result self.old.owed (Create (canonical name.now) values.now) self.new.owed }
    {
        bring(
            &mut self.rows,
            &mut self.backing,
            &mut self.refusals,
            &Write::Create(name, values),
        )?;
        let done = self.rows.create(name, values, provenance);
        claim(&mut self.backing.pending, done)
    }

    fn add(
        &mut self,
        name: &Name,
        values: &[Value],
        provenance: &Provenance<'_>,
    ) -> Result<(), Refused>
        requires there { has self.old.table (canonical name.now) ≡ true }
        requires distinct { AreDistinct (indexes values.now) }
        requires free { AreAbsent self.old.table (canonical name.now) (indexes values.now) }
        ensures done { OnOk result (self.new.table ≡ with_values self.old.table (canonical name.now) values.now) }
        ensures undone { OnErr result (self.new.table ≡ self.old.table) }
        ensures count { self.new.refused ≡ refusals_after result self.old.refused }
        ensures reads { self.new.reads ≡ self.old.reads }
        ensures owed { OwesAfter result self.old.owed (Add (canonical name.now) values.now) self.new.owed }
    {
        bring(
            &mut self.rows,
            &mut self.backing,
            &mut self.refusals,
            &Write::Add(name, values),
        )?;
        let done = self.rows.add(name, values, provenance);
        claim(&mut self.backing.pending, done)
    }

    fn modify(
        &mut self,
        name: &Name,
        values: &[Value],
        provenance: &Provenance<'_>,
    ) -> Result<(), Refused>
        requires there { has self.old.table (canonical name.now) ≡ true }
        requires distinct { AreDistinct (indexes values.now) }
        requires taken { ArePresent self.old.table (canonical name.now) (indexes values.now) }
        ensures done { OnOk result (self.new.table ≡ with_values self.old.table (canonical name.now) values.now) }
        ensures undone { OnErr result (self.new.table ≡ self.old.table) }
        ensures count { self.new.refused ≡ refusals_after result self.old.refused }
        ensures reads { self.new.reads ≡ self.old.reads }
        ensures owed { OwesAfter result self.old.owed (Modify (canonical name.now) values.now) self.new.owed }
    {
        bring(
            &mut self.rows,
            &mut self.backing,
            &mut self.refusals,
            &Write::Modify(name, values),
        )?;
        let done = self.rows.modify(name, values, provenance);
        claim(&mut self.backing.pending, done)
    }

    fn remove(
        &mut self,
        name: &Name,
        indexes: &[u32],
        provenance: &Provenance<'_>,
    ) -> Result<(), Refused>
        requires there { has self.old.table (canonical name.now) ≡ true }
        requires distinct { AreDistinct indexes.now }
        requires taken { ArePresent self.old.table (canonical name.now) indexes.now }
        ensures done { OnOk result (self.new.table ≡ without_values self.old.table (canonical name.now) indexes.now) }
        ensures undone { OnErr result (self.new.table ≡ self.old.table) }
        ensures count { self.new.refused ≡ refusals_after result self.old.refused }
        ensures reads { self.new.reads ≡ self.old.reads }
        ensures owed { OwesAfter result self.old.owed (Remove (canonical name.now) indexes.now) self.new.owed }
    {
        bring(
            &mut self.rows,
            &mut self.backing,
            &mut self.refusals,
            &Write::Remove(name, indexes),
        )?;
        let done = self.rows.remove(name, indexes, provenance);
        claim(&mut self.backing.pending, done)
    }

    fn delete(&mut self, name: &Name, provenance: &Provenance<'_>) -> Result<(), Refused>
        requires there { has self.old.table (canonical name.now) ≡ true }
        ensures done { OnOk result (self.new.table ≡ without_handle self.old.table (canonical name.now)) }
        ensures undone { OnErr result (self.new.table ≡ self.old.table) }
        ensures count { self.new.refused ≡ refusals_after result self.old.refused }
        ensures reads { self.new.reads ≡ self.old.reads }
        ensures owed { OwesAfter result self.old.owed (Delete (canonical name.now)) self.new.owed }
    {
        bring(
            &mut self.rows,
            &mut self.backing,
            &mut self.refusals,
            &Write::Delete(name),
        )?;
        let done = self.rows.delete(name, provenance);
        claim(&mut self.backing.pending, done)
    }

    fn refusals(&self) -> u64 {
        self.rows.refusals().saturating_add(self.refusals)
    }

    fn reads(&self) -> u64 {
        self.reads
    }
}

impl<R: Rows + Drop, F: DurableFile + Drop, A: ShutObserver + Drop> Owing for DurableRows<R, F, A> {
    ghost use Rattle.hdl_durablerows.specs.Durable.{debt_of};

    ghost debt = { λ s. debt_of s };

    fn hands_over(&self) -> bool
        ensures { result ≡ self.now.hands_over }
    {
        self.backing.file.hands_over()
    }

    fn owed(&self) -> Owed
        ensures { is_owed result ≡ (debt_of self.now).owes }
    {
        self.backing.owed()
    }

    fn set_may_write(&mut self, may_write: bool)
        ensures unchanged { self.new.table ≡ self.old.table }
        ensures count { self.new.refused ≡ self.old.refused }
        ensures reads { self.new.reads ≡ self.old.reads }
        ensures debt { debt_of self.new ≡ debt_of self.old }
        ensures same { self.new ≡ self.old }
    {
        self.backing.may_write = may_write;
    }
}
