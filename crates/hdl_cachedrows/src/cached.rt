//! The table.

ghost use Rattle.std.specs.Prelude.{◌≡◌, ◌≤◌, IfOk};
ghost use Rattle.hdl_rows.specs.Table.{no_rows};

use crate::cache::Cache;
use hdl_limits::Octets;
use hdl_name::Name;
use hdl_rows::heads::into_heads;
use hdl_rows::reads::{found_octets, names_octets, seen_octets, values_octets, with_call};
use hdl_rows::{Owed, Owing, Provenance, Refused, Rows, Synchronous};
use hdl_value::{Reference, Value};
use std::alloc::{AllocError, Global};
use std::hash::RandomState;
use std::marker::Model;

/// How many octets what is kept may cost by default: 40 MiB, some 100,000 handles of one short value.
pub const LIMIT_DEFAULT: usize = 41_943_040;

/// A table that keeps the values of the handles that were read or created last. Contracts see what the cached table holds, how many of its calls
/// were refused, what was read, of it or of what is kept, and, in octets, what is kept and its bound.
#[derive(Drop)]
pub struct CachedRows<R: Rows + Drop> {
    rows: R,
    cache: Cache,
    reads: u64,
}

impl<R: Rows + Drop> Model for CachedRows<R> {
    ghost use Rattle.hdl_rows.specs.Table.{IsPlaced};
    ghost use Rattle.hdl_cachedrows.specs.Cost.{total};
    ghost use Rattle.hdl_cachedrows.specs.Cache.{AreTrue};
    ghost use Rattle.hdl_cachedrows.specs.Cached.{Cached, cached_code};

    ghost Value = { Cached };

    ghost coded = { cached_code };

    ghost view = { λ s. record { table = R.content s.rows; refused = R.refused s.rows; reads = s.reads; octets = total s.cache.kept.entries; limit = s.cache.limit } };

    ghost invariant = { λ s. IsPlaced (R.content s.rows) × AreTrue (R.content s.rows) s.cache.kept.entries };
}

impl<R: Rows + Drop> CachedRows<R> {
    /// A cache over this table, which holds nothing yet. What is kept will cost at most `limit` octets; with 0 nothing is. Refused only for
    /// want of memory.
    pub fn new(
        alloc: Global,
        rows: R,
        limit: usize,
        hasher: RandomState,
    ) -> Result<CachedRows<R>, AllocError>
        requires empty { R.content rows ≡ no_rows }
        ensures { IfOk result (λ cached. cached ≡ record { table = R.content rows; refused = R.refused rows; reads = 0; octets = 0; limit = limit }) }
    {
        let cache = Cache::new(alloc, limit, hasher)?;
        Ok(CachedRows {
            rows,
            cache,
            reads: 0,
        })
    }

    /// How many octets what is kept costs: for each handle those of its name and of its values' types, data and references, and fixed
    /// sums for what the allocator and the map take in addition (`specs/Cost.antt`). That is never more than the bound.
    pub fn octets(&self) -> usize
        ensures octets { result ≡ self.now.octets }
        ensures bounded { result ≤ self.now.limit }
    {
        self.cache.octets
    }
}

impl<R: Rows + Drop> Rows for CachedRows<R> {
    ghost content = { λ s. s.table };

    ghost refused = { λ s. s.refused };

    ghost reads = { λ s. s.reads };

    fn exists(&mut self, name: &Name) -> Result<bool, Refused> {
        if self.cache.has(name.canon()) {
            self.reads = with_call(self.reads, 0);
            return Ok(true);
        }
        let is = self.rows.exists(name)?;
        self.reads = with_call(self.reads, 0);
        Ok(is)
    }

    fn at(&mut self, reference: &Reference) -> Result<Option<Value>, Refused> {
        let name = reference.name.canon();
        if let Some(value) = self.cache.find_at(name, reference.index) {
            self.reads = with_call(self.reads, found_octets(&value));
            return Ok(value);
        }
        let value = self.rows.at(reference)?;
        self.reads = with_call(self.reads, found_octets(&value));
        Ok(value)
    }

    fn values(&mut self, name: &Name) -> Result<Vec<Value>, Refused> {
        if let Some(values) = self.cache.find(name.canon()) {
            self.reads = with_call(self.reads, values_octets(&values));
            return Ok(values);
        }
        let values = self.rows.values(name)?;
        self.reads = with_call(self.reads, values_octets(&values));
        Ok(values)
    }

    fn look(&mut self, name: &Name) -> Result<Option<Vec<Value>>, Refused> {
        if let Some(values) = self.cache.find(name.canon()) {
            self.reads = with_call(self.reads, values_octets(&values));
            return Ok(Some(values));
        }
        let found = self.rows.look(name)?;
        self.reads = with_call(self.reads, seen_octets(&found));
        if let Some(values) = &found {
            self.cache.keep(name.canon(), values);
        }
        Ok(found)
    }

    fn heads(&mut self, name: &Name) -> Result<Option<Vec<Value>>, Refused> {
        if let Some(heads) = self.cache.find_heads(name.canon()) {
            self.reads = with_call(self.reads, values_octets(&heads));
            return Ok(Some(heads));
        }
        let found = self.rows.look(name)?;
        let Some(values) = found else {
            self.reads = with_call(self.reads, 0);
            return Ok(None);
        };
        self.cache.keep(name.canon(), &values);
        let heads = into_heads(self.cache.alloc, values);
        self.reads = with_call(self.reads, values_octets(&heads));
        Ok(Some(heads))
    }

    fn names(&mut self, authority: &[u8]) -> Result<Vec<Octets>, Refused> {
        let names = self.rows.names(authority)?;
        self.reads = with_call(self.reads, names_octets(&names));
        Ok(names)
    }

    fn create(
        &mut self,
        name: &Name,
        values: &[Value],
        provenance: &Provenance<'_>,
    ) -> Result<(), Refused> {
        self.rows.create(name, values, provenance)?;
        self.cache.keep_created(name.canon(), values);
        Ok(())
    }

    fn add(
        &mut self,
        name: &Name,
        values: &[Value],
        provenance: &Provenance<'_>,
    ) -> Result<(), Refused> {
        self.rows.add(name, values, provenance)?;
        self.cache.put(name.canon(), values);
        Ok(())
    }

    fn modify(
        &mut self,
        name: &Name,
        values: &[Value],
        provenance: &Provenance<'_>,
    ) -> Result<(), Refused> {
        self.rows.modify(name, values, provenance)?;
        self.cache.put(name.canon(), values);
        Ok(())
    }

    fn remove(
        &mut self,
        name: &Name,
        indexes: &[u32],
        provenance: &Provenance<'_>,
    ) -> Result<(), Refused> {
        self.cache.forget(name.canon());
        self.rows.remove(name, indexes, provenance)
    }

    fn delete(&mut self, name: &Name, provenance: &Provenance<'_>) -> Result<(), Refused> {
        self.cache.forget(name.canon());
        self.rows.delete(name, provenance)
    }

    fn refusals(&self) -> u64 {
        self.rows.refusals()
    }

    fn reads(&self) -> u64 {
        self.reads
    }
}

impl<R: Synchronous + Drop> Owing for CachedRows<R> {
    ghost use Rattle.hdl_rows.specs.Debt.{nothing};

    ghost debt = { λ _. nothing };

    fn hands_over(&self) -> bool {
        false
    }

    fn owed(&self) -> Owed {
        Owed::Nothing
    }

    fn set_may_write(&mut self, _may_write: bool) {}
}
