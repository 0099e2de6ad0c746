//! Rows in a database that lasts, as in a SQLite file: a connection of `sqlite` over any of its stores, whose tables are those of `hdl_sqlrows`, whose functions
//! make the writes. Nothing is read here.
//!
//! Each write is one transaction: what was answered is committed, and stays after a crash; what was refused is taken back; and a crash within the call leaves
//! the rows with the whole write or without it. Each clause on rows is under two premises: the disk has returned what was written and nobody else wrote the
//! files (`HasCleanDisk` of `sqlite`), and the store is open. What a crash may leave is what the store says (`may_leave`), whose argument is the kit's.

ghost use Rattle.std.specs.Prelude.{◌≡◌, true, false, IsTrue, IsOk, Err, IfOk, OnOk, OnErr};
ghost use Rattle.sqlite.specs.State.{HasCleanDisk, Survives};
ghost use Rattle.sqlite.specs.Held.{state};
ghost use Rattle.hdl_name.specs.Name.{canonical};
ghost use Rattle.hdl_rows.specs.Table.{no_rows, has, with_new_handle, with_values, without_values, without_handle, AreDistinct, AreAbsent, ArePresent, indexes};
ghost use Rattle.hdl_sqlrows.specs.Filed.{WhereOpen, IsFiled, CrashLeaves, KeepsCommitted, filed_table};
ghost use Rattle.hdl_sqlrows.specs.Stored.{IsBlank, IsBetweenCalls, table_in};
ghost use Rattle.hdl_sqlrows.specs.Opening.{base_in, filed_base};

use hdl_name::Name;
use hdl_sqlrows::{StoreFault, layout, writes};
use hdl_value::Value;
use sqlite::{Alter, Connection, Error, ErrorCode, Statement};
use std::alloc::Global;
use std::marker::Model;

/// Rows in a database that lasts. Contracts see its connection. Between calls no transaction is open, and where the store is open all of it is
/// committed.
#[derive(Drop)]
pub struct FileRows<S: Alter + Drop> {
    alloc: Global,
    conn: Connection<S>,
}

impl<S: Alter + Drop> Model for FileRows<S> {
    ghost use Rattle.std.specs.Prelude.{◌≡◌, false};
    ghost use Rattle.sqlite.specs.Held.{Held, held_code, state};
    ghost use Rattle.hdl_sqlrows.specs.Filed.{WhereOpen};
    ghost use Rattle.hdl_sqlrows.specs.Stored.{IsBetweenCalls};

    ghost Value = { Held S };

    ghost coded = { held_code S.code };

    ghost view = { λ s. s.conn };

    ghost invariant = { λ s. (s.conn.in_transaction ≡ false) × WhereOpen (state S.Store s.conn) (IsBetweenCalls (state S.Store s.conn)) };
}

/// Whether a store is open, by its answer to a statement: one that has shut says so.
fn openness(answer: Result<Statement, Error>) -> Result<bool, StoreFault>
    ensures open { IfOk result (λ is. IsTrue is → IsOk answer) }
    ensures shut { IfOk result (λ is. is ≡ false → answer ≡ Err (Error.SqliteFailure ErrorCode.Closed)) }
{
    match answer {
        Ok(_) => Ok(true),
        Err(Error::SqliteFailure(ErrorCode::Closed)) => Ok(false),
        Err(_) => Err(StoreFault),
    }
}

impl<S: Alter + Drop> FileRows<S> {
    /// Makes the tables in a database that has none. A crash leaves none of them or all.
    pub fn in_new_file(alloc: Global, mut conn: Connection<S>) -> Result<FileRows<S>, StoreFault>
        requires mode { conn.in_transaction ≡ false }
        requires blank { WhereOpen (state S.Store conn) (IsBlank (state S.Store conn)) }
        ensures empty { IfOk result (λ rows. HasCleanDisk (state S.Store rows) → IsFiled (state S.Store rows) no_rows) }
        ensures durable { IfOk result (λ rows. HasCleanDisk (state S.Store rows) → CrashLeaves (state S.Store rows) no_rows) }
    {
        layout::make_tables(&mut conn)?;
        Ok(FileRows { alloc, conn })
    }

    /// The rows of a database that has the tables.
    pub fn over(alloc: Global, conn: Connection<S>) -> FileRows<S>
        requires mode { conn.in_transaction ≡ false }
        requires settled { WhereOpen (state S.Store conn) (IsBetweenCalls (state S.Store conn)) }
        ensures { result ≡ conn }
    {
        FileRows { alloc, conn }
    }

    /// Whether the store still takes writes, where it can be asked. Once the disk failed to commit one, nobody can tell what it has, and the store has shut for
    /// good. It is refused where memory is, which says nothing of the store: ask again.
    pub fn is_open(&mut self) -> Result<bool, StoreFault>
        ensures open { IfOk result (λ is. IsTrue is → HasCleanDisk (state S.Store self.new) → IsFiled (state S.Store self.new) (filed_table (state S.Store self.old))) }
        ensures was_open { IfOk result (λ is. IsTrue is → HasCleanDisk (state S.Store self.new) → IsTrue (state S.Store self.old).is_open) }
        ensures shut { IfOk result (λ is. is ≡ false → HasCleanDisk (state S.Store self.new) → (state S.Store self.old).is_open ≡ false) }
        ensures kept { KeepsCommitted (state S.Store self.old) (state S.Store self.new) }
        ensures survives { Survives (state S.Store self.old) (state S.Store self.new) (λ _. ⊥) }
    {
        openness(self.conn.prepare("SELECT 1"))
    }

    /// Between calls a crash leaves the rows as they were filed, and nothing else.
    pub fn after_a_crash(&self)
        ensures { WhereOpen (state S.Store self.now) (CrashLeaves (state S.Store self.now) (filed_table (state S.Store self.now))) }
    {}

    /// The connection, for its owner to close.
    pub fn into_connection(self) -> Connection<S>
        ensures { result ≡ self }
    {
        self.conn
    }

    /// Makes an absent handle, with these values.
    pub fn create(&mut self, name: &Name, values: &[Value]) -> Result<(), StoreFault>
        requires none { WhereOpen (state S.Store self.old) (has (filed_table (state S.Store self.old)) (canonical name.now) ≡ false) }
        requires absent { WhereOpen (state S.Store self.old) (AreAbsent (filed_table (state S.Store self.old)) (canonical name.now) (indexes values.now)) }
        requires distinct { AreDistinct (indexes values.now) }
        ensures done { OnOk result (HasCleanDisk (state S.Store self.new) → IsFiled (state S.Store self.new) (with_new_handle (filed_table (state S.Store self.old)) (canonical name.now) values.now)) }
        ensures undone { OnErr result (WhereOpen (state S.Store self.new) (filed_table (state S.Store self.new) ≡ filed_table (state S.Store self.old))) }
        ensures durable { OnOk result (HasCleanDisk (state S.Store self.new) → CrashLeaves (state S.Store self.new) (with_new_handle (filed_table (state S.Store self.old)) (canonical name.now) values.now)) }
        ensures restored { OnErr result (WhereOpen (state S.Store self.new) (CrashLeaves (state S.Store self.new) (filed_table (state S.Store self.old)))) }
        ensures survives { Survives (state S.Store self.old) (state S.Store self.new) (λ db. table_in db ≡ with_new_handle (filed_table (state S.Store self.old)) (canonical name.now) values.now) }
        ensures beside { WhereOpen (state S.Store self.new) ((filed_base (state S.Store self.new)).opened ≡ (filed_base (state S.Store self.old)).opened) }
        ensures beside_survives { Survives (state S.Store self.old) (state S.Store self.new) (λ db. IsTrue (state S.Store self.old).is_open → (base_in db).opened ≡ (filed_base (state S.Store self.old)).opened) }
    {
        let authority = name.authority();
        writes::create(&mut self.conn, self.alloc, name.canon(), authority, values)
    }

    /// Puts values at indexes of a handle where none stands.
    pub fn add(&mut self, name: &Name, values: &[Value]) -> Result<(), StoreFault>
        requires absent { WhereOpen (state S.Store self.old) (AreAbsent (filed_table (state S.Store self.old)) (canonical name.now) (indexes values.now)) }
        requires distinct { AreDistinct (indexes values.now) }
        ensures done { OnOk result (HasCleanDisk (state S.Store self.new) → IsFiled (state S.Store self.new) (with_values (filed_table (state S.Store self.old)) (canonical name.now) values.now)) }
        ensures undone { OnErr result (WhereOpen (state S.Store self.new) (filed_table (state S.Store self.new) ≡ filed_table (state S.Store self.old))) }
        ensures durable { OnOk result (HasCleanDisk (state S.Store self.new) → CrashLeaves (state S.Store self.new) (with_values (filed_table (state S.Store self.old)) (canonical name.now) values.now)) }
        ensures restored { OnErr result (WhereOpen (state S.Store self.new) (CrashLeaves (state S.Store self.new) (filed_table (state S.Store self.old)))) }
        ensures survives { Survives (state S.Store self.old) (state S.Store self.new) (λ db. IsTrue (state S.Store self.old).is_open → table_in db ≡ with_values (filed_table (state S.Store self.old)) (canonical name.now) values.now) }
        ensures beside { WhereOpen (state S.Store self.new) ((filed_base (state S.Store self.new)).opened ≡ (filed_base (state S.Store self.old)).opened) }
        ensures beside_survives { Survives (state S.Store self.old) (state S.Store self.new) (λ db. IsTrue (state S.Store self.old).is_open → (base_in db).opened ≡ (filed_base (state S.Store self.old)).opened) }
    {
        writes::add(&mut self.conn, self.alloc, name.canon(), values)
    }

    /// Replaces the values at indexes of a handle, each whole.
    pub fn modify(&mut self, name: &Name, values: &[Value]) -> Result<(), StoreFault>
        requires there { WhereOpen (state S.Store self.old) (ArePresent (filed_table (state S.Store self.old)) (canonical name.now) (indexes values.now)) }
        ensures done { OnOk result (HasCleanDisk (state S.Store self.new) → IsFiled (state S.Store self.new) (with_values (filed_table (state S.Store self.old)) (canonical name.now) values.now)) }
        ensures undone { OnErr result (WhereOpen (state S.Store self.new) (filed_table (state S.Store self.new) ≡ filed_table (state S.Store self.old))) }
        ensures durable { OnOk result (HasCleanDisk (state S.Store self.new) → CrashLeaves (state S.Store self.new) (with_values (filed_table (state S.Store self.old)) (canonical name.now) values.now)) }
        ensures restored { OnErr result (WhereOpen (state S.Store self.new) (CrashLeaves (state S.Store self.new) (filed_table (state S.Store self.old)))) }
        ensures survives { Survives (state S.Store self.old) (state S.Store self.new) (λ db. IsTrue (state S.Store self.old).is_open → table_in db ≡ with_values (filed_table (state S.Store self.old)) (canonical name.now) values.now) }
        ensures beside { WhereOpen (state S.Store self.new) ((filed_base (state S.Store self.new)).opened ≡ (filed_base (state S.Store self.old)).opened) }
        ensures beside_survives { Survives (state S.Store self.old) (state S.Store self.new) (λ db. IsTrue (state S.Store self.old).is_open → (base_in db).opened ≡ (filed_base (state S.Store self.old)).opened) }
    {
        writes::modify(&mut self.conn, self.alloc, name.canon(), values)
    }

    /// Takes away what stands at these indexes of a handle, which stays.
    pub fn remove(&mut self, name: &Name, indexes: &[u32]) -> Result<(), StoreFault>
        ensures done { OnOk result (HasCleanDisk (state S.Store self.new) → IsFiled (state S.Store self.new) (without_values (filed_table (state S.Store self.old)) (canonical name.now) indexes.now)) }
        ensures undone { OnErr result (WhereOpen (state S.Store self.new) (filed_table (state S.Store self.new) ≡ filed_table (state S.Store self.old))) }
        ensures durable { OnOk result (HasCleanDisk (state S.Store self.new) → CrashLeaves (state S.Store self.new) (without_values (filed_table (state S.Store self.old)) (canonical name.now) indexes.now)) }
        ensures restored { OnErr result (WhereOpen (state S.Store self.new) (CrashLeaves (state S.Store self.new) (filed_table (state S.Store self.old)))) }
        ensures survives { Survives (state S.Store self.old) (state S.Store self.new) (λ db. IsTrue (state S.Store self.old).is_open → table_in db ≡ without_values (filed_table (state S.Store self.old)) (canonical name.now) indexes.now) }
        ensures beside { WhereOpen (state S.Store self.new) ((filed_base (state S.Store self.new)).opened ≡ (filed_base (state S.Store self.old)).opened) }
        ensures beside_survives { Survives (state S.Store self.old) (state S.Store self.new) (λ db. IsTrue (state S.Store self.old).is_open → (base_in db).opened ≡ (filed_base (state S.Store self.old)).opened) }
    {
        writes::remove(&mut self.conn, name.canon(), indexes)
    }

    /// Takes a handle away with all its values.
    pub fn delete(&mut self, name: &Name) -> Result<(), StoreFault>
        requires there { WhereOpen (state S.Store self.old) (has (filed_table (state S.Store self.old)) (canonical name.now) ≡ true) }
        ensures done { OnOk result (HasCleanDisk (state S.Store self.new) → IsFiled (state S.Store self.new) (without_handle (filed_table (state S.Store self.old)) (canonical name.now))) }
        ensures undone { OnErr result (WhereOpen (state S.Store self.new) (filed_table (state S.Store self.new) ≡ filed_table (state S.Store self.old))) }
        ensures durable { OnOk result (HasCleanDisk (state S.Store self.new) → CrashLeaves (state S.Store self.new) (without_handle (filed_table (state S.Store self.old)) (canonical name.now))) }
        ensures restored { OnErr result (WhereOpen (state S.Store self.new) (CrashLeaves (state S.Store self.new) (filed_table (state S.Store self.old)))) }
        ensures survives { Survives (state S.Store self.old) (state S.Store self.new) (λ db. table_in db ≡ without_handle (filed_table (state S.Store self.old)) (canonical name.now)) }
        ensures beside { WhereOpen (state S.Store self.new) ((filed_base (state S.Store self.new)).opened ≡ (filed_base (state S.Store self.old)).opened) }
        ensures beside_survives { Survives (state S.Store self.old) (state S.Store self.new) (λ db. IsTrue (state S.Store self.old).is_open → (base_in db).opened ≡ (filed_base (state S.Store self.old)).opened) }
    {
        writes::delete(&mut self.conn, name.canon())
    }
}
