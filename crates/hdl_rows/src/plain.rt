//! A table in memory.

ghost use Rattle.std.specs.Prelude.{◌≡◌, MatchResult, IsErr, Ok, IfOk, option_copied};
ghost use Rattle.hdl_rows.specs.Table.{no_rows, refusals_after};

use crate::provenance::Provenance;
use crate::reads::{found_octets, names_octets, seen_octets, values_octets, with_call};
use crate::row_store::RowStore;
use crate::rows::{Refused, Rows};
use hdl_limits::Octets;
use hdl_name::Name;
use hdl_value::{Reference, Value};
use std::alloc::{AllocError, Global};
use std::marker::Model;

/// A table in memory. It refuses a call only if memory is refused. Contracts see its contents and the number of refused
/// calls.
#[derive(Drop)]
pub struct PlainRows {
    alloc: Global,
    row_store: RowStore,
    refusals: u64,
    reads: u64,
}

impl Model for PlainRows {
    ghost use Rattle.hdl_rows.specs.Table.{Held, held_code};
    ghost use Rattle.hdl_rows.specs.RowStore.{HaveAuthorities};

    ghost Value = { Held };

    ghost coded = { held_code };

    ghost view = { λ s. record { table = s.row_store; refused = s.refusals; reads = s.reads } };

    ghost invariant = { λ s. HaveAuthorities s.row_store };
}

impl PlainRows {
    /// An empty table. Takes no memory.
    pub fn new(alloc: Global) -> PlainRows
        ensures empty { result ≡ record { table = no_rows; refused = 0; reads = 0 } }
    {
        PlainRows {
            alloc,
            row_store: RowStore::new(alloc),
            refusals: 0,
            reads: 0,
        }
    }
}

/// Counts a call that was refused.
fn tally<T>(refusals: &mut u64, outcome: Result<T, AllocError>) -> Result<T, Refused>
    ensures count { refusals.new ≡ refusals_after outcome refusals.old }
    ensures same { MatchResult outcome (λ x. result ≡ Ok x) (λ _. IsErr result) }
{
    match outcome {
        Ok(value) => Ok(value),
        Err(_) => {
            *refusals = refusals.saturating_add(1);
            Err(Refused)
        }
    }
}

/// A copy of what was found.
fn copy_of(alloc: Global, value: Option<&Value>) -> Result<Option<Value>, AllocError>
    ensures { IfOk result (λ copy. copy ≡ option_copied value.entry) }
{
    match value {
        Some(value) => Ok(Some(value.copy(alloc)?)),
        None => Ok(None),
    }
}

impl Rows for PlainRows {
    ghost content = { λ s. s.table };

    ghost refused = { λ s. s.refused };

    ghost reads = { λ s. s.reads };

    fn exists(&mut self, name: &Name) -> Result<bool, Refused> {
        self.reads = with_call(self.reads, 0);
        Ok(self.row_store.has(name.canon()))
    }

    fn at(&mut self, reference: &Reference) -> Result<Option<Value>, Refused> {
        let value = self
            .row_store
            .value(reference.name.canon(), reference.index);
        let found = copy_of(self.alloc, value);
        let value = tally(&mut self.refusals, found)?;
        self.reads = with_call(self.reads, found_octets(&value));
        Ok(value)
    }

    fn values(&mut self, name: &Name) -> Result<Vec<Value>, Refused> {
        let found = self.row_store.values(self.alloc, name.canon());
        let values = tally(&mut self.refusals, found)?;
        self.reads = with_call(self.reads, values_octets(&values));
        Ok(values)
    }

    fn look(&mut self, name: &Name) -> Result<Option<Vec<Value>>, Refused> {
        let found = self.row_store.look(self.alloc, name.canon());
        let seen = tally(&mut self.refusals, found)?;
        self.reads = with_call(self.reads, seen_octets(&seen));
        Ok(seen)
    }

    fn heads(&mut self, name: &Name) -> Result<Option<Vec<Value>>, Refused> {
        let found = self.row_store.heads(self.alloc, name.canon());
        let seen = tally(&mut self.refusals, found)?;
        self.reads = with_call(self.reads, seen_octets(&seen));
        Ok(seen)
    }

    fn names(&mut self, authority: &[u8]) -> Result<Vec<Octets>, Refused> {
        let found = self.row_store.names(self.alloc, authority);
        let names = tally(&mut self.refusals, found)?;
        self.reads = with_call(self.reads, names_octets(&names));
        Ok(names)
    }

    fn create(
        &mut self,
        name: &Name,
        values: &[Value],
        _provenance: &Provenance<'_>,
    ) -> Result<(), Refused> {
        // `authority` says that the handle begins with it.
        let _ = name.authority();
        let done = self.row_store.create(self.alloc, name.canon(), values);
        tally(&mut self.refusals, done)
    }

    fn add(
        &mut self,
        name: &Name,
        values: &[Value],
        _provenance: &Provenance<'_>,
    ) -> Result<(), Refused> {
        let done = self.row_store.put(self.alloc, name.canon(), values);
        tally(&mut self.refusals, done)
    }

    fn modify(
        &mut self,
        name: &Name,
        values: &[Value],
        _provenance: &Provenance<'_>,
    ) -> Result<(), Refused> {
        let done = self.row_store.put(self.alloc, name.canon(), values);
        tally(&mut self.refusals, done)
    }

    fn remove(
        &mut self,
        name: &Name,
        indexes: &[u32],
        _provenance: &Provenance<'_>,
    ) -> Result<(), Refused> {
        self.row_store.remove(name.canon(), indexes);
        Ok(())
    }

    fn delete(&mut self, name: &Name, _provenance: &Provenance<'_>) -> Result<(), Refused> {
        self.row_store.delete(name.canon());
        Ok(())
    }

    fn refusals(&self) -> u64 {
        self.refusals
    }

    fn reads(&self) -> u64 {
        self.reads
    }
}
