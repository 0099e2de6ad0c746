//! The table.

ghost use Rattle.std.specs.Prelude.{◌≡◌, IfOk};
ghost use Rattle.hdl_rows.specs.Table.{no_rows};

use crate::fork::Fork;
use crate::merging::merge;
use hdl_limits::Octets;
use hdl_name::Name;
use hdl_rows::reads::{found_octets, names_octets, seen_octets, values_octets, with_call};
use hdl_rows::{Provenance, Refused, Rows, Synchronous};
use hdl_value::{Reference, Value};
use std::alloc::{AllocError, Global};
use std::marker::Model;

/// A table in two partitions. Contracts see what both hold, how many calls were refused, and what was read.
#[derive(Drop)]
pub struct PartitionedRows<R: Rows + Drop> {
    alloc: Global,
    fork: Fork,
    first: Box<R>,
    second: Box<R>,
    refusals: u64,
    reads: u64,
}

impl<R: Rows + Drop> Model for PartitionedRows<R> {
    ghost use Rattle.std.specs.Prelude.{◌≡◌, ◌+◌, min, true, false};
    ghost use Rattle.hdl_rows.specs.Table.{Held, held_code, most};
    ghost use Rattle.hdl_partitionedrows.specs.Partitioned.{is_second, joined, own};

    ghost Value = { Held };

    ghost coded = { held_code };

    ghost view = { λ s. record { table = joined (is_second s.fork) (R.content s.first.value) (R.content s.second.value); refused = min (R.refused s.first.value + R.refused s.second.value + s.refusals) most; reads = s.reads } };

    ghost invariant = { λ s. (own (is_second s.fork) false (R.content s.first.value) ≡ (R.content s.first.value).handles) × (own (is_second s.fork) true (R.content s.second.value) ≡ (R.content s.second.value).handles) };
}

impl<R: Rows + Drop> PartitionedRows<R> {
    /// Two empty tables as the partitions of one. Refused only for want of memory.
    pub fn new(
        alloc: Global,
        first: R,
        second: R,
        fork: Fork,
    ) -> Result<PartitionedRows<R>, AllocError>
        requires first { R.content first ≡ no_rows }
        requires second { R.content second ≡ no_rows }
        ensures { IfOk result (λ rows. rows.table ≡ no_rows) }
    {
        Ok(PartitionedRows {
            alloc,
            fork,
            first: Box::new(alloc, first)?,
            second: Box::new(alloc, second)?,
            refusals: 0,
            reads: 0,
        })
    }
}

impl<R: Rows + Drop> Rows for PartitionedRows<R> {
    ghost content = { λ s. s.table };

    ghost refused = { λ s. s.refused };

    ghost reads = { λ s. s.reads };

    fn exists(&mut self, name: &Name) -> Result<bool, Refused> {
        let is = if self.fork.is_second(name.canon()) {
            self.second.exists(name)?
        } else {
            self.first.exists(name)?
        };
        self.reads = with_call(self.reads, 0);
        Ok(is)
    }

    fn at(&mut self, reference: &Reference) -> Result<Option<Value>, Refused> {
        let value = if self.fork.is_second(reference.name.canon()) {
            self.second.at(reference)?
        } else {
            self.first.at(reference)?
        };
        self.reads = with_call(self.reads, found_octets(&value));
        Ok(value)
    }

    fn values(&mut self, name: &Name) -> Result<Vec<Value>, Refused> {
        let values = if self.fork.is_second(name.canon()) {
            self.second.values(name)?
        } else {
            self.first.values(name)?
        };
        self.reads = with_call(self.reads, values_octets(&values));
        Ok(values)
    }

    fn look(&mut self, name: &Name) -> Result<Option<Vec<Value>>, Refused> {
        let seen = if self.fork.is_second(name.canon()) {
            self.second.look(name)?
        } else {
            self.first.look(name)?
        };
        self.reads = with_call(self.reads, seen_octets(&seen));
        Ok(seen)
    }

    fn heads(&mut self, name: &Name) -> Result<Option<Vec<Value>>, Refused> {
        let heads = if self.fork.is_second(name.canon()) {
            self.second.heads(name)?
        } else {
            self.first.heads(name)?
        };
        self.reads = with_call(self.reads, seen_octets(&heads));
        Ok(heads)
    }

    fn names(&mut self, authority: &[u8]) -> Result<Vec<Octets>, Refused> {
        let first = self.first.names(authority)?;
        let second = self.second.names(authority)?;
        let Ok(names) = merge(self.alloc, first, second) else {
            self.refusals = self.refusals.saturating_add(1);
            return Err(Refused);
        };
        self.reads = with_call(self.reads, names_octets(&names));
        Ok(names)
    }

    fn create(
        &mut self,
        name: &Name,
        values: &[Value],
        provenance: &Provenance<'_>,
    ) -> Result<(), Refused> {
        if self.fork.is_second(name.canon()) {
            self.second.create(name, values, provenance)
        } else {
            self.first.create(name, values, provenance)
        }
    }

    fn add(
        &mut self,
        name: &Name,
        values: &[Value],
        provenance: &Provenance<'_>,
    ) -> Result<(), Refused> {
        if self.fork.is_second(name.canon()) {
            self.second.add(name, values, provenance)
        } else {
            self.first.add(name, values, provenance)
        }
    }

    fn modify(
        &mut self,
        name: &Name,
        values: &[Value],
        provenance: &Provenance<'_>,
    ) -> Result<(), Refused> {
        if self.fork.is_second(name.canon()) {
            self.second.modify(name, values, provenance)
        } else {
            self.first.modify(name, values, provenance)
        }
    }

    fn remove(
        &mut self,
        name: &Name,
        indexes: &[u32],
        provenance: &Provenance<'_>,
    ) -> Result<(), Refused> {
        if self.fork.is_second(name.canon()) {
            self.second.remove(name, indexes, provenance)
        } else {
            self.first.remove(name, indexes, provenance)
        }
    }

    fn delete(&mut self, name: &Name, provenance: &Provenance<'_>) -> Result<(), Refused> {
        if self.fork.is_second(name.canon()) {
            self.second.delete(name, provenance)
        } else {
            self.first.delete(name, provenance)
        }
    }

    fn refusals(&self) -> u64 {
        self.first
            .refusals()
            .saturating_add(self.second.refusals())
            .saturating_add(self.refusals)
    }

    fn reads(&self) -> u64 {
        self.reads
    }
}

impl<R: Synchronous + Drop> Synchronous for PartitionedRows<R> {}
