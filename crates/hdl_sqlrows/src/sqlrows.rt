//! A table in SQL.

ghost use Rattle.std.specs.Prelude.{◌≡◌, IfOk, MatchResult, IsErr, Ok};
ghost use Rattle.hdl_rows.specs.Table.{no_rows, refusals_after};

use crate::fault::StoreFault;
use crate::{heads, memory, queries};
use hdl_limits::Octets;
use hdl_name::Name;
use hdl_rows::reads::{found_octets, names_octets, seen_octets, values_octets, with_call};
use hdl_rows::{Owed, Owing, Provenance, Refused, Rows, Synchronous};
use hdl_value::{Reference, Value};
use sqlite::{Connection, MemStore};
use std::alloc::Global;
use std::marker::Model;

/// A table in SQL, in memory. It refuses a call if the store does: memory is refused, or a list of references is longer
/// than four octets can count. Contracts see its contents, the number of refused calls, and what was read.
#[derive(Drop)]
pub struct SqlRows {
    alloc: Global,
    conn: Connection<MemStore>,
    refusals: u64,
    reads: u64,
}

impl Model for SqlRows {
    ghost use Rattle.hdl_rows.specs.Table.{Held, held_code, IsPlaced};
    ghost use Rattle.hdl_sqlrows.specs.Stored.{IsBetweenCalls, state_of, table_of};

    ghost Value = { Held };

    ghost coded = { held_code };

    ghost view = { λ s. record { table = table_of s.conn; refused = s.refusals; reads = s.reads } };

    ghost invariant = { λ s. IsBetweenCalls (state_of s.conn) × IsPlaced (table_of s.conn) };
}

impl SqlRows {
    /// An empty table. Refused if memory for the tables is refused; no table counts that refusal.
    pub fn new(alloc: Global) -> Result<SqlRows, Refused>
        ensures empty { IfOk result (λ rows. rows ≡ record { table = no_rows; refused = 0; reads = 0 }) }
    {
        let Ok(mut conn) = Connection::open_in_memory(alloc) else {
            return Err(Refused);
        };
        match memory::make_tables(&mut conn) {
            Ok(()) => Ok(SqlRows {
                alloc,
                conn,
                refusals: 0,
                reads: 0,
            }),
            Err(_) => Err(Refused),
        }
    }
}

/// Counts a call that was refused.
fn tally<T>(refusals: &mut u64, outcome: Result<T, StoreFault>) -> Result<T, Refused>
    ensures count { refusals.new ≡ refusals_after outcome refusals.old }
    ensures same { MatchResult outcome (λ x. result ≡ Ok x) (λ _. IsErr result) }
{
    match outcome {
        Ok(value) => Ok(value),
        Err(_) => {
            *refusals = refusals.saturating_add(1);
            Err(Refused)
        }
    }
}

impl Rows for SqlRows {
    ghost content = { λ s. s.table };

    ghost refused = { λ s. s.refused };

    ghost reads = { λ s. s.reads };

    fn exists(&mut self, name: &Name) -> Result<bool, Refused> {
        let found = queries::has_handle(&mut self.conn, name.canon());
        let is = tally(&mut self.refusals, found)?;
        self.reads = with_call(self.reads, 0);
        Ok(is)
    }

    fn at(&mut self, reference: &Reference) -> Result<Option<Value>, Refused> {
        let name = reference.name.canon();
        let found = queries::value_at(&mut self.conn, self.alloc, name, reference.index);
        let value = tally(&mut self.refusals, found)?;
        self.reads = with_call(self.reads, found_octets(&value));
        Ok(value)
    }

    fn values(&mut self, name: &Name) -> Result<Vec<Value>, Refused> {
        let found = queries::values_of(&mut self.conn, self.alloc, name.canon());
        let values = tally(&mut self.refusals, found)?;
        self.reads = with_call(self.reads, values_octets(&values));
        Ok(values)
    }

    fn look(&mut self, name: &Name) -> Result<Option<Vec<Value>>, Refused> {
        let found = queries::look(&mut self.conn, self.alloc, name.canon());
        let seen = tally(&mut self.refusals, found)?;
        self.reads = with_call(self.reads, seen_octets(&seen));
        Ok(seen)
    }

    fn heads(&mut self, name: &Name) -> Result<Option<Vec<Value>>, Refused> {
        let found = heads::heads(&mut self.conn, self.alloc, name.canon());
        let seen = tally(&mut self.refusals, found)?;
        self.reads = with_call(self.reads, seen_octets(&seen));
        Ok(seen)
    }

    fn names(&mut self, authority: &[u8]) -> Result<Vec<Octets>, Refused> {
        let found = queries::names_of(&mut self.conn, self.alloc, authority);
        let names = tally(&mut self.refusals, found)?;
        self.reads = with_call(self.reads, names_octets(&names));
        Ok(names)
    }

    fn create(
        &mut self,
        name: &Name,
        values: &[Value],
        _provenance: &Provenance<'_>,
    ) -> Result<(), Refused> {
        let authority = name.authority();
        let done = memory::create(&mut self.conn, self.alloc, name.canon(), authority, values);
        tally(&mut self.refusals, done)
    }

    fn add(
        &mut self,
        name: &Name,
        values: &[Value],
        _provenance: &Provenance<'_>,
    ) -> Result<(), Refused> {
        let done = memory::add(&mut self.conn, self.alloc, name.canon(), values);
        tally(&mut self.refusals, done)
    }

    fn modify(
        &mut self,
        name: &Name,
        values: &[Value],
        _provenance: &Provenance<'_>,
    ) -> Result<(), Refused> {
        let done = memory::modify(&mut self.conn, self.alloc, name.canon(), values);
        tally(&mut self.refusals, done)
    }

    fn remove(
        &mut self,
        name: &Name,
        indexes: &[u32],
        _provenance: &Provenance<'_>,
    ) -> Result<(), Refused> {
        let done = memory::remove(&mut self.conn, name.canon(), indexes);
        tally(&mut self.refusals, done)
    }

    fn delete(&mut self, name: &Name, _provenance: &Provenance<'_>) -> Result<(), Refused> {
        let done = memory::delete(&mut self.conn, name.canon());
        tally(&mut self.refusals, done)
    }

    fn refusals(&self) -> u64 {
        self.refusals
    }

    fn reads(&self) -> u64 {
        self.reads
    }
}

impl Synchronous for SqlRows {}

impl Owing for SqlRows {
    ghost use Rattle.hdl_rows.specs.Debt.{nothing};

    ghost debt = { λ _. nothing };

    fn hands_over(&self) -> bool {
        false
    }

    fn owed(&self) -> Owed {
        Owed::Nothing
    }

    fn set_may_write(&mut self, _may_write: bool) {}
}
