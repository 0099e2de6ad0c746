//! The places on which a publisher's answers rest.

ghost use Rattle.std.specs.Prelude.{◌≡◌, [], map, IfOk, OnOk};
ghost use Rattle.hdl_value.specs.Place.{same_place};
ghost use Rattle.hdl_value.specs.Refs.{place_of};
ghost use Rattle.std.specs.List.{IsDistinct};
ghost use Rattle.hdl_reach.specs.Laws.{IsOnward};
ghost use Rattle.hdl_reach.specs.Seen.{places, with_place, place_at, Extends};
ghost use Rattle.hdl_laws.specs.Isolation.{Covers, EachCovered};
ghost use Rattle.hdl_export.specs.Covers.{places_in, AreKept, AreReferred, AreLed};

use crate::fault::ExportFault;
use crate::references::{list_at, references_of};
use hdl_name::Name;
use hdl_rows::Rows;
use hdl_value::{Reference, Value};
use std::alloc::{AllocError, Global};
use std::collections::BTreeSet;

/// The octets of a handle in canonical form, and an index: references of one place have one key.
pub(crate) type PlaceKey = (Vec<u8>, u32);

fn key_of(alloc: Global, one: &Reference) -> Result<PlaceKey, AllocError>
    ensures { IfOk result (λ key. place_at key ≡ place_of one.now) }
{
    Ok((Vec::from_slice(alloc, one.name.canon())?, one.index))
}

fn copy_of(alloc: Global, one: &Reference) -> Result<Reference, AllocError>
    ensures { IfOk result (λ copy. copy ≡ one.now) }
{
    match Name::read(alloc, one.name.sent()) {
        Ok(name) => Ok(Reference {
            name,
            index: one.index,
        }),
        Err(_) => Err(AllocError),
    }
}

/// References in the order in which they were found, no place twice, and their keys in order.
#[derive(Drop)]
pub(crate) struct Cover {
    pub(crate) references: Vec<Reference>,
    keys: BTreeSet<PlaceKey>,
}

impl Cover {
    fn new(alloc: Global) -> Cover
        ensures none { result.references.items ≡ [] }
        ensures kept { AreKept result }
    {
        Cover {
            references: Vec::new(alloc),
            keys: BTreeSet::new(alloc),
        }
    }

    /// Adds a reference, unless its place is there.
    fn add(&mut self, alloc: Global, one: &Reference) -> Result<(), AllocError>
        requires kept { AreKept self.old }
        ensures added { OnOk result (places_in self.new ≡ with_place (places_in self.old) (place_of one.now)) }
        ensures kept { OnOk result (AreKept self.new) }
    {
        let key = key_of(alloc, one)?;
        if self.keys.insert(key)? {
            self.references.push(copy_of(alloc, one)?)?;
        }
        Ok(())
    }

    fn extend(&mut self, alloc: Global, more: &[Reference]) -> Result<(), AllocError>
        requires kept { AreKept self.old }
        ensures extended { OnOk result (Extends (places_in self.old) (places more.now) (places_in self.new)) }
        ensures kept { OnOk result (AreKept self.new) }
    {
        for one in more {
            self.add(alloc, one)?;
        }
        Ok(())
    }

    /// What these values refer to.
    pub(crate) fn of(alloc: Global, rows: &[(Name, Value)]) -> Result<Cover, AllocError>
        ensures covered { IfOk result (λ cover. EachCovered (places_in cover) (map (λ row. row.1) rows.now)) }
        ensures referred { IfOk result (λ cover. AreReferred (map (λ row. row.1) rows.now) (places_in cover)) }
        ensures distinct { IfOk result (λ cover. IsDistinct same_place (places_in cover)) }
        ensures kept { IfOk result AreKept }
    {
        let mut cover = Cover::new(alloc);
        for row in rows {
            let more = references_of(alloc, &row.1)?;
            cover.extend(alloc, &more)?;
        }
        Ok(cover)
    }

    /// The same places, and with each what is listed there.
    pub(crate) fn close<R: Rows>(
        mut self,
        alloc: Global,
        rows: &mut R,
    ) -> Result<Cover, ExportFault>
        requires distinct { IsDistinct same_place (places_in self) }
        requires kept { AreKept self }
        ensures unchanged { R.content rows.new ≡ R.content rows.old }
        ensures grown { IfOk result (λ cover. Covers (places_in cover) (places_in self)) }
        ensures onward { IfOk result (λ cover. IsOnward (R.content rows.old) (places_in cover)) }
        ensures led { IfOk result (λ cover. AreLed (R.content rows.old) (places_in self) (places_in cover)) }
    {
        // each turn passes one place
        for next in 0..usize::MAX {
            if next >= self.references.len() {
                return Ok(self);
            }
            let more = list_at(alloc, rows, &self.references[next])?;
            self.extend(alloc, &more)?;
        }
        Err(ExportFault::Memory)
    }
}
