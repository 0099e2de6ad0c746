//! The cells that hold partial messages.

ghost use Rattle.std.specs.Prelude.{◌≡◌, ◌<◌, replicate, slice_set, option_copied, None, IfOk};
ghost use Rattle.hdl_pool.specs.Cells.{cells_at, cell_at};

use crate::assembly::Assembly;
use hdl_limits::{LANES, PARTIALS_MAX};
use slab::Slab;
use std::alloc::{AllocError, Global};
use std::marker::Model;
use std::mem;

/// Four cells for each lane, each empty or with a partial message. All are slots of one slab, which is made once and
/// written in place.
#[derive(Drop)]
pub(crate) struct Cells {
    slab: Slab<Option<Assembly>>,
    /// The slots' keys, four for each lane, lane by lane.
    keys: Vec<usize>,
}

impl Model for Cells {
    ghost use Rattle.std.specs.Prelude.{List, Option};
    ghost use Rattle.hdl_pool.specs.Partial.{Partial};
    ghost use Rattle.hdl_pool.specs.Store.{stored_cells, AreKeys};

    ghost Value = { List (List (Option Partial)) };

    ghost view = { λ c. stored_cells c.slab c.keys.items };

    ghost invariant = { λ c. AreKeys c.slab c.keys.items };
}

impl Cells {
    /// Cells that are all empty.
    pub(crate) fn new(alloc: Global) -> Result<Cells, AllocError>
        ensures { IfOk result (λ cells. cells ≡ replicate LANES (replicate PARTIALS_MAX None)) }
    {
        let mut slab = Slab::with_capacity(alloc, LANES * PARTIALS_MAX)?;
        let mut keys = Vec::with_capacity(alloc, LANES * PARTIALS_MAX)?;
        for _ in 0..LANES * PARTIALS_MAX {
            keys.push(slab.insert(None)?)?;
        }
        Ok(Cells { slab, keys })
    }

    /// The partial message in a cell.
    pub(crate) fn get(&self, lane: usize, place: usize) -> Option<&Assembly>
        requires lane { lane < LANES }
        requires place { place < PARTIALS_MAX }
        ensures { option_copied result ≡ cell_at self.now lane place }
    {
        let key = self.keys[PARTIALS_MAX * lane + place];
        self.slab.get(key)?.as_ref()
    }

    /// Replaces the contents of a cell, and returns the old ones.
    pub(crate) fn replace(
        &mut self,
        lane: usize,
        place: usize,
        content: Option<Assembly>,
    ) -> Option<Assembly>
        requires lane { lane < LANES }
        requires place { place < PARTIALS_MAX }
        ensures was { result ≡ cell_at self.old lane place }
        ensures cells { self.new ≡ slice_set self.old lane (slice_set (cells_at self.old lane) place content) }
    {
        let key = self.keys[PARTIALS_MAX * lane + place];
        match self.slab.get_mut(key) {
            Some(cell) => mem::replace(cell, content),
            None => None,
        }
    }
}
