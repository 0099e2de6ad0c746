//! A search for the administrators of a handle.

ghost use Rattle.std.specs.Prelude.{◌≡◌, ◌⊎◌, ◌≤◌, ◌<◌, ◌+◌, take, length, option_copied, bytes_eq, IfOk, OnOk, IsTrue};
ghost use Rattle.std.specs.Bool.{Decides};
ghost use Rattle.hdl_name.specs.Name.{canonical};
ghost use Rattle.hdl_value.specs.Refs.{place_of};
ghost use Rattle.hdl_rows.specs.Table.{Table, values_of, values_in, AreRefusalsAfter};
ghost use Rattle.hdl_reach.specs.Cost.{ReadsWithin, value_cost, grants_reads};
ghost use Rattle.hdl_reach.specs.Reach.{IsMask, grants};
ghost use Rattle.hdl_reach.specs.Search.{handle_of, IsFound, IsSearch, IsDone, IsFurther, AgreeBeside};
ghost use Rattle.hdl_reach.specs.Looks.{looks_left};
ghost use Rattle.hdl_reach.specs.Views.{mask_of, grants_in};

use crate::found::Found;
use crate::grants::{Grant, grants_by};
use crate::keys::reference_to;
use crate::lists::list_at;
use hdl_name::Name;
use hdl_rows::{Refused, Rows};
use hdl_value::{AdminMask, Reference, Value};
use std::alloc::{AllocError, Global};

/// A search from the HS_ADMIN values of a handle over all lists to which they lead, up to where it came. Its result
/// serves for every key.
#[derive(Drop)]
pub struct Search {
    /// In canonical form.
    handle: Vec<u8>,
    found: Found,
    looked_up: usize,
}

/// The references that the grants name, with their masks.
fn start_of(alloc: Global, grants: &[Grant]) -> Result<Found, AllocError>
    ensures { IfOk result (λ found. (t : Table) → IsFound t (grants_in grants.now) found) }
{
    let mut found = Found::new(alloc);
    for grant in grants {
        found.raise(alloc, &grant.reference, grant.mask)?;
    }
    Ok(found)
}

/// A search from these grants of a handle that hasn't looked up anything yet.
fn search_from(alloc: Global, name: &Name, starts: &[Grant]) -> Result<Search, AllocError>
    ensures search { (t : Table) → grants_in starts.now ≡ grants (values_of t (canonical name.now)) → IfOk result (IsSearch t) }
    ensures handle { IfOk result (λ search. handle_of search ≡ canonical name.now) }
{
    let found = start_of(alloc, starts)?;
    Ok(Search {
        handle: Vec::from_slice(alloc, name.canon())?,
        found,
        looked_up: 0,
    })
}

/// The heads that were found, none if the handle is absent.
fn heads_in(alloc: Global, found: Option<Vec<Value>>) -> Vec<Value>
    ensures { result.items ≡ values_in found }
{
    match found {
        Some(heads) => heads,
        None => Vec::new(alloc),
    }
}

impl Search {
    /// Begins a search for the administrators of this handle: looks at the heads of its values, and at those of type
    /// HS_ADMIN. No list is looked up yet. Refused: the table refused a look, and its count rose by one; or memory was
    /// refused, and the count is as it was.
    pub fn begin<R: Rows>(alloc: Global, rows: &mut R, name: &Name) -> Result<Search, Refused>
        ensures unchanged { R.content rows.new ≡ R.content rows.old }
        ensures begun { IfOk result (λ search. IsSearch (R.content rows.old) search × (handle_of search ≡ canonical name.now)) }
        ensures count { AreRefusalsAfter result (R.refused rows.old) (R.refused rows.new) }
        ensures cost { R.reads rows.new ≤ R.reads rows.old + grants_reads (R.content rows.old) (canonical name.now) }
    {
        let found = rows.heads(name)?;
        let heads = heads_in(alloc, found);
        let here = reference_to(alloc, name)?;
        let starts = grants_by(alloc, rows, here, &heads)?;
        Ok(search_from(alloc, name, &starts)?)
    }

    /// Whether it is a search for this handle.
    pub fn is_for(&self, name: &Name) -> bool
        ensures { result ≡ bytes_eq (handle_of self.now) (canonical name.now) }
    {
        self.handle.as_slice() == name.canon()
    }

    /// Whether it has looked up all lists to which the handle's HS_ADMIN values lead.
    pub fn is_done(&self) -> bool
        ensures { Decides result (IsDone self.now) }
    {
        self.found.is_settled()
    }

    /// Whether the search stays valid if only values of this handle change: it is for another handle, and knows no
    /// reference to this one. False if memory is refused.
    pub fn is_apart_from(&self, alloc: Global, name: &Name) -> bool
        ensures { IsTrue result → (t u : Table) → AgreeBeside (canonical name.now) t u → IsSearch t self.now → IsSearch u self.now }
    {
        if self.is_for(name) {
            return false;
        }
        match self.found.is_apart_from(alloc, name) {
            Ok(apart) => apart,
            Err(_) => false,
        }
    }

    /// How many references it keeps.
    pub fn references(&self) -> usize {
        self.found.len()
    }

    /// How many octets it has looked up, as `go_on` counts them.
    pub fn looked_up(&self) -> usize {
        self.looked_up
    }

    /// Looks up one more reference, and passes its mask on to the references in its list. Returns how many octets that
    /// counted. After a refusal the search is useless.
    fn pass<R: Rows>(&mut self, alloc: Global, rows: &mut R) -> Result<usize, Refused>
        requires search { IsSearch (R.content rows.old) self.old }
        requires more { IsDone self.old → ⊥ }
        ensures unchanged { R.content rows.new ≡ R.content rows.old }
        ensures search { OnOk result (IsSearch (R.content rows.old) self.new × (handle_of self.new ≡ handle_of self.old)) }
        ensures further { OnOk result (IsFurther self.old self.new) }
        ensures left { OnOk result (looks_left (R.content rows.old) self.new < looks_left (R.content rows.old) self.old) }
        ensures counted { IfOk result (λ octets. 0 < octets) }
        ensures count { AreRefusalsAfter result (R.refused rows.old) (R.refused rows.new) }
        ensures read { IfOk result (λ octets. R.reads rows.new ≤ R.reads rows.old + octets) }
        ensures cost { ReadsWithin (R.content rows.old) value_cost (R.reads rows.old) (R.reads rows.new) }
    {
        let Some(here) = self.found.pop() else {
            unreachable!()
        };
        let Some(mask) = self.found.settle(alloc, &here)? else {
            return Ok(1);
        };
        let looked = list_at(alloc, rows, &here)?;
        self.found.raise_all(alloc, &looked.listed, mask)?;
        Ok(looked.octets)
    }

    /// Continues until `most` octets were looked up, including the value that reaches this number, or to the end. A
    /// look counts 32, a value 30 and its octets, and each of its references 32, so that lists count even if their
    /// references were known. No look counts less than the table's `reads` of it. So a call reads at most that number,
    /// and one value (`cost`). The table stays as it is.
    ///
    /// A list is looked up again only if a mask with new bits leads to it.
    ///
    /// Refused: the table refused a look, and its count rose by one; or memory was refused, and the count is as it was.
    /// Then the search is dropped.
    pub fn go_on<R: Rows>(
        mut self,
        alloc: Global,
        rows: &mut R,
        most: usize,
    ) -> Result<Search, Refused>
        requires search { IsSearch (R.content rows.old) self }
        ensures unchanged { R.content rows.new ≡ R.content rows.old }
        ensures search { IfOk result (λ search. IsSearch (R.content rows.old) search × (handle_of search ≡ handle_of self)) }
        ensures further { IfOk result (λ search. IsDone self ⊎ IsFurther self search) }
        ensures left { IfOk result (λ search. IsDone self ⊎ (looks_left (R.content rows.old) search < looks_left (R.content rows.old) self)) }
        ensures count { AreRefusalsAfter result (R.refused rows.old) (R.refused rows.new) }
        ensures cost { ReadsWithin (R.content rows.old) (λ m. most + value_cost m) (R.reads rows.old) (R.reads rows.new) }
    {
        let mut left = most;
        while !self.is_done() {
            let octets = self.pass(alloc, rows)?;
            self.looked_up = self.looked_up.saturating_add(octets);
            if left <= octets {
                return Ok(self);
            }
            left -= octets;
        }
        Ok(self)
    }

    /// The permissions of the key as an administrator of the handle, once the search is done: the union of the masks of
    /// all its HS_ADMIN values that lead to the key, directly or through lists. None if no value leads to it, and for a
    /// key of index 0, which refers to nothing. The key itself need not exist. Refused only if memory is refused.
    pub fn mask(&self, alloc: Global, key: &Reference) -> Result<Option<AdminMask>, AllocError>
        ensures found { (t : Table) → IsSearch t self.now → IsDone self.now → IfOk result (λ mask. IsMask t (handle_of self.now) (place_of key.now) (mask_of mask)) }
    {
        self.found.mask(alloc, key)
    }
}
