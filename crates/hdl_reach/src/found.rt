//! The state of a search: the masks that lead to references, and which references are still to be looked up.

ghost use Rattle.std.specs.Prelude.{◌≡◌, ◌≢◌, ◌⊎◌, [], ◌∷◌, ◌++◌, None, Some, if◌then◌else◌, length, option_map, option_to_list, IfOk, OnOk, IfNone, IsTrue, IsSome, MatchOption};
ghost use Rattle.std.specs.Bool.{Decides};
ghost use Rattle.hdl_name.specs.Name.{canonical};
ghost use Rattle.hdl_value.specs.Place.{Place, same_place};
ghost use Rattle.hdl_value.specs.Refs.{place_of};
ghost use Rattle.hdl_reach.specs.Seen.{places};
ghost use Rattle.hdl_reach.specs.Found.{mark, known_at, mask_at, waits, raised, raised_at, settled_at, AreWaiting, HasGained};
ghost use Rattle.hdl_reach.specs.Looks.{AddsNone};
ghost use Rattle.hdl_reach.specs.Views.{mask_of};

use crate::keys::{PlaceKey, copy_of, key_of};
use hdl_name::Name;
use hdl_value::{AdminMask, Reference};
use std::alloc::{AllocError, Global};
use std::collections::BTreeMap;

/// What is known of a reference.
#[derive(Clone, Copy)]
pub(crate) struct Known {
    /// The union of the masks found so far that lead to it.
    mask: AdminMask,
    /// Whether its list is still to be looked up: its mask got bits since the last time.
    waits: bool,
}

/// What is known of each reference, by its key, and the references that are still to be looked up.
#[derive(Drop)]
pub(crate) struct Found {
    known: BTreeMap<PlaceKey, Known>,
    waiting: Vec<Reference>,
}

/// What is known after one more mask. `None` if the mask has no new bit.
fn gained(before: Option<Known>, mask: AdminMask) -> Option<Known>
    ensures { MatchOption result
        (option_map mark before ≡ Some (raised (option_map mark before) mask.0))
        (λ known. (mark known ≡ raised (option_map mark before) mask.0) × (option_map (λ k. k.mask.0) before ≢ Some known.mask.0)) }
{
    let Some(known) = before else {
        return Some(Known { mask, waits: true });
    };
    let mask = known.mask.union(mask);
    if mask == known.mask {
        return None;
    }
    Some(Known { mask, waits: true })
}

fn is_waiting(known: Option<Known>) -> bool
    ensures { result ≡ waits (option_map mark known) }
{
    match known {
        Some(known) => known.waits,
        None => false,
    }
}

impl Found {
    pub(crate) fn new(alloc: Global) -> Found
        ensures none { (p : Place) → known_at result p ≡ None }
        ensures waiting { result.waiting.items ≡ [] }
    {
        Found {
            known: BTreeMap::new(alloc),
            waiting: Vec::new(alloc),
        }
    }

    /// How many references are known.
    pub(crate) fn len(&self) -> usize {
        self.known.len()
    }

    /// Whether no reference is still to be looked up.
    pub(crate) fn is_settled(&self) -> bool
        ensures { Decides result (length self.now.waiting.items ≡ 0) }
    {
        self.waiting.is_empty()
    }

    /// The mask that leads to this reference.
    pub(crate) fn mask(
        &self,
        alloc: Global,
        one: &Reference,
    ) -> Result<Option<AdminMask>, AllocError>
        ensures { IfOk result (λ mask. mask_of mask ≡ mask_at self.now (place_of one.now)) }
    {
        let key = key_of(alloc, one)?;
        match self.known.get(&key) {
            Some(known) => Ok(Some(known.mask)),
            None => Ok(None),
        }
    }

    /// Puts a reference among those to look up, unless it is there already. `before` is what was known of it.
    fn wait(
        &mut self,
        alloc: Global,
        one: &Reference,
        before: Option<Known>,
    ) -> Result<(), AllocError>
        ensures known { OnOk result (self.new.known ≡ self.old.known) }
        ensures waiting { OnOk result (self.new.waiting.items ≡ (if waits (option_map mark before) then self.old.waiting.items else self.old.waiting.items ++ one.now ∷ [])) }
    {
        if is_waiting(before) {
            return Ok(());
        }
        self.waiting.push(copy_of(alloc, one)?)?;
        Ok(())
    }

    /// Adds a mask that leads to a reference. If the mask has new bits, the reference is to be looked up.
    pub(crate) fn raise(
        &mut self,
        alloc: Global,
        one: &Reference,
        mask: AdminMask,
    ) -> Result<(), AllocError>
        ensures known { OnOk result ((p : Place) → known_at self.new p ≡ raised_at (known_at self.old) (place_of one.now ∷ []) mask.0 p) }
        ensures waiting { OnOk result (AreWaiting self.old → AreWaiting self.new) }
        ensures gained { OnOk result (HasGained self.old self.new) }
        ensures left { OnOk result (AddsNone self.old self.new (place_of one.now ∷ [])) }
    {
        let key = key_of(alloc, one)?;
        let before = self.known.get(&key).copied();
        let Some(after) = gained(before, mask) else {
            return Ok(());
        };
        self.wait(alloc, one, before)?;
        self.known.insert(key, after)?;
        Ok(())
    }

    /// Adds a mask that leads to each of these references.
    pub(crate) fn raise_all(
        &mut self,
        alloc: Global,
        more: &[Reference],
        mask: AdminMask,
    ) -> Result<(), AllocError>
        ensures known { OnOk result ((p : Place) → known_at self.new p ≡ raised_at (known_at self.old) (places more.now) mask.0 p) }
        ensures waiting { OnOk result (AreWaiting self.old → AreWaiting self.new) }
        ensures gained { OnOk result (HasGained self.old self.new) }
        ensures left { OnOk result (AddsNone self.old self.new (places more.now)) }
    {
        for one in more {
            self.raise(alloc, one, mask)?;
        }
        Ok(())
    }

    /// Removes and returns the last of the references to look up.
    pub(crate) fn pop(&mut self) -> Option<Reference>
        ensures known { self.new.known ≡ self.old.known }
        ensures taken { self.old.waiting.items ≡ self.new.waiting.items ++ option_to_list result }
        ensures none { IfNone result (length self.old.waiting.items ≡ 0) }
    {
        self.waiting.pop()
    }

    /// Notes that a reference was looked up, and returns the mask that leads to it.
    pub(crate) fn settle(
        &mut self,
        alloc: Global,
        here: &Reference,
    ) -> Result<Option<AdminMask>, AllocError>
        ensures mask { IfOk result (λ mask. mask_of mask ≡ mask_at self.old (place_of here.now)) }
        ensures known { OnOk result ((p : Place) → known_at self.new p ≡ settled_at (known_at self.old) (place_of here.now) p) }
        ensures waiting { OnOk result (self.new.waiting ≡ self.old.waiting) }
    {
        let key = key_of(alloc, here)?;
        let Some(known) = self.known.get(&key).copied() else {
            return Ok(None);
        };
        let settled = Known {
            mask: known.mask,
            waits: false,
        };
        self.known.insert(key, settled)?;
        Ok(Some(known.mask))
    }

    /// Whether no known reference is of this handle.
    pub(crate) fn is_apart_from(&self, alloc: Global, name: &Name) -> Result<bool, AllocError>
        ensures { IfOk result (λ apart. IsTrue apart → (p : Place) → IsSome (known_at self.now p) → p.handle ≢ canonical name.now) }
    {
        let first = (Vec::from_slice(alloc, name.canon())?, 0);
        let mut next = Vec::from_slice(alloc, name.canon())?;
        // the next key in order is these octets and a zero
        next.push(0)?;
        Ok(self.known.range(first..(next, 0)).next().is_none())
    }
}
