//! A table with a cache of its administrators.

ghost use Rattle.std.specs.Prelude.{◌≡◌, IfOk};
ghost use Rattle.hdl_name.specs.Name.{canonical};
ghost use Rattle.hdl_value.specs.Refs.{place_of};
ghost use Rattle.hdl_rows.specs.Table.{AreRefusalsAfter};
ghost use Rattle.hdl_reach.specs.Cost.{ReadsWithin};
ghost use Rattle.hdl_reach.specs.Reach.{IsMask};
ghost use Rattle.hdl_reach.specs.Views.{mask_of};
ghost use Rattle.hdl_cache.specs.Cost.{mask_cost};

use crate::last::LastMask;
use crate::mask_key::MaskKey;
use crate::searches::MasksAndSearches;
use hdl_limits::Octets;
use hdl_name::Name;
use hdl_rows::{Owed, Owing, Provenance, Refused, Rows};
use hdl_value::{AdminMask, Reference, Value};
use std::alloc::{AllocError, Global};
use std::marker::Model;

/// A table that finds masks.
pub trait Masked: Rows {
    /// The permissions of the key as an administrator of the handle.
    ///
    /// Refused: the table refused a look, and its count rose by one; or memory was refused, or the search looked up as
    /// much as one call may and isn't done, and the count is as it was. The next call continues the search.
    fn mask(&mut self, name: &Name, key: &Reference) -> Result<Option<AdminMask>, Refused>
        ensures unchanged { Self.content self.new ≡ Self.content self.old }
        ensures mask { IfOk result (λ mask. IsMask (Self.content self.old) (canonical name.now) (place_of key.now) (mask_of mask)) }
        ensures count { AreRefusalsAfter result (Self.refused self.old) (Self.refused self.new) }
        ensures cost { ReadsWithin (Self.content self.old) mask_cost (Self.reads self.old) (Self.reads self.new) };
}

/// Any table, with a cache of its masks and searches. Contracts see the table.
#[derive(Drop)]
pub struct MaskedRows<R: Rows + Drop> {
    alloc: Global,
    rows: R,
    masks: MasksAndSearches,
    last: LastMask,
}

impl<R: Rows + Drop> Model for MaskedRows<R> {
    ghost use Rattle.hdl_cache.specs.Truth.{AreTrue, IsLast};

    ghost Value = { R };

    ghost coded = { R.code };

    ghost view = { λ s. s.rows };

    ghost invariant = { λ s. AreTrue (R.content s.rows) s.masks × IsLast (R.content s.rows) s.last };
}

impl<R: Rows + Drop> MaskedRows<R> {
    /// Wraps a table, with an empty cache. Refused only if memory is refused; then the table is dropped.
    pub fn new(alloc: Global, rows: R) -> Result<MaskedRows<R>, AllocError>
        ensures { IfOk result (λ masked. masked ≡ rows) }
    {
        let masks = MasksAndSearches::new(alloc)?;
        Ok(MaskedRows {
            alloc,
            rows,
            masks,
            last: LastMask::new(),
        })
    }

    /// The table.
    pub fn get_ref(&self) -> &R
        ensures { result.now ≡ self.now }
    {
        &self.rows
    }

    /// The table. The cache is dropped.
    pub fn into_inner(self) -> R
        ensures { result ≡ self }
    {
        self.rows
    }
}

impl<R: Owing + Drop> Masked for MaskedRows<R> {
    fn mask(&mut self, name: &Name, key: &Reference) -> Result<Option<AdminMask>, Refused> {
        let pair = MaskKey::new(self.alloc, name, key)?;
        if let Some(mask) = self.last.find(&pair) {
            return Ok(mask);
        }
        let mask = self.masks.mask(&mut self.rows, name, key)?;
        self.last.note(pair, mask, self.rows.owed());
        Ok(mask)
    }
}

impl<R: Rows + Drop> Rows for MaskedRows<R> {
    ghost content = { λ s. R.content s };

    ghost refused = { λ s. R.refused s };

    ghost reads = { λ s. R.reads s };

    fn exists(&mut self, name: &Name) -> Result<bool, Refused> {
        self.rows.exists(name)
    }

    fn at(&mut self, reference: &Reference) -> Result<Option<Value>, Refused> {
        self.rows.at(reference)
    }

    fn values(&mut self, name: &Name) -> Result<Vec<Value>, Refused> {
        self.rows.values(name)
    }

    fn look(&mut self, name: &Name) -> Result<Option<Vec<Value>>, Refused> {
        self.rows.look(name)
    }

    fn heads(&mut self, name: &Name) -> Result<Option<Vec<Value>>, Refused> {
        self.rows.heads(name)
    }

    fn names(&mut self, authority: &[u8]) -> Result<Vec<Octets>, Refused> {
        self.rows.names(authority)
    }

    fn create(
        &mut self,
        name: &Name,
        values: &[Value],
        provenance: &Provenance<'_>,
    ) -> Result<(), Refused> {
        let done = self.rows.create(name, values, provenance);
        self.last.note_write(&done);
        self.masks.note_write(name, done)
    }

    fn add(
        &mut self,
        name: &Name,
        values: &[Value],
        provenance: &Provenance<'_>,
    ) -> Result<(), Refused> {
        let done = self.rows.add(name, values, provenance);
        self.last.note_write(&done);
        self.masks.note_write(name, done)
    }

    fn modify(
        &mut self,
        name: &Name,
        values: &[Value],
        provenance: &Provenance<'_>,
    ) -> Result<(), Refused> {
        let done = self.rows.modify(name, values, provenance);
        self.last.note_write(&done);
        self.masks.note_write(name, done)
    }

    fn remove(
        &mut self,
        name: &Name,
        indexes: &[u32],
        provenance: &Provenance<'_>,
    ) -> Result<(), Refused> {
        let done = self.rows.remove(name, indexes, provenance);
        self.last.note_write(&done);
        self.masks.note_write(name, done)
    }

    fn delete(&mut self, name: &Name, provenance: &Provenance<'_>) -> Result<(), Refused> {
        let done = self.rows.delete(name, provenance);
        self.last.note_write(&done);
        self.masks.note_write(name, done)
    }

    fn refusals(&self) -> u64 {
        self.rows.refusals()
    }

    fn reads(&self) -> u64 {
        self.rows.reads()
    }
}

impl<R: Owing + Drop> Owing for MaskedRows<R> {
    ghost debt = { λ s. R.debt s };

    fn hands_over(&self) -> bool {
        self.rows.hands_over()
    }

    fn owed(&self) -> Owed {
        self.rows.owed()
    }

    fn set_may_write(&mut self, may_write: bool) {
        self.rows.set_may_write(may_write);
    }
}
