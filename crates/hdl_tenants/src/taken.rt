//! Which places the rows so far have, to be asked for each value line.

ghost use Rattle.std.specs.Prelude.{◌≡◌, unwrap_or, ◌++◌, ◌∷◌, [], ◌<◌, List, Contains, IfErr, OnOk};
ghost use Rattle.std.specs.Map.{lookup};
ghost use Rattle.std.specs.Str.{bytes_eq};
ghost use Rattle.hdl_value.specs.Place.{Place};
ghost use Rattle.hdl_tenants.specs.Steps.{IsPlaceFault};

use crate::fault::TenantFault;
use hdl_limits::VALUES_MAX;
use indexmap::{IndexMap, IndexSet};
use std::alloc::Global;

/// A canonical handle and the index of a value of it.
#[derive(PartialEq, Eq, Hash, Drop)]
pub struct PlaceKey {
    handle: Vec<u8>,
    index: u32,
}

/// Places, and how many of them each handle has. It serves while a text is read, so that reading takes time in proportion to
/// the text.
#[derive(Drop)]
pub struct TakenPlaces {
    places: IndexSet<PlaceKey>,
    counts: IndexMap<Vec<u8>, usize>,
}

impl TakenPlaces {
    ghost use Rattle.hdl_tenants.specs.Taken.{Indexes, count_at};

    /// No place yet.
    pub fn new(alloc: Global) -> TakenPlaces
        ensures { Indexes result [] }
    {
        TakenPlaces {
            places: IndexSet::new(alloc),
            counts: IndexMap::new(alloc),
        }
    }

    /// How many places the handle has.
    fn count(&self, handle: &[u8]) -> usize
        ensures { result ≡ unwrap_or (lookup (λ k. bytes_eq handle.now k.items) self.now.counts.entries) 0 }
    {
        match self.counts.get(handle) {
            Some(count) => *count,
            None => 0,
        }
    }

    /// Adds a place, if it isn't there and its handle has not too many. What is kept after a refusal is not said.
    pub fn add(&mut self, alloc: Global, handle: &[u8], index: u32) -> Result<(), TenantFault>
        ensures ok { (places : List Place) → Indexes self.old places → OnOk result (Indexes self.new (places ++ record { handle = handle.now; index = index } ∷ [])) }
        ensures once { (places : List Place) → Indexes self.old places → OnOk result (¬ (Contains places (record { handle = handle.now; index = index }))) }
        ensures room { (places : List Place) → Indexes self.old places → OnOk result (count_at handle.now places < VALUES_MAX) }
        ensures fault { (places : List Place) → Indexes self.old places → IfErr result (λ e. IsPlaceFault places (record { handle = handle.now; index = index }) e) }
    {
        let count = self.count(handle);
        if count >= VALUES_MAX {
            return Err(TenantFault::BadLine);
        }
        let Ok(octets) = Vec::from_slice(alloc, handle) else {
            return Err(TenantFault::Memory);
        };
        let Ok(added) = self.places.insert(PlaceKey {
            handle: octets,
            index,
        })
        else {
            return Err(TenantFault::Memory);
        };
        if !added {
            return Err(TenantFault::BadLine);
        }
        let Ok(octets) = Vec::from_slice(alloc, handle) else {
            return Err(TenantFault::Memory);
        };
        let Ok(_) = self.counts.insert(octets, count + 1) else {
            return Err(TenantFault::Memory);
        };
        Ok(())
    }
}
