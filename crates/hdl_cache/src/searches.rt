//! What is known of administrators: masks that were found, and searches that continue.

ghost use Rattle.std.specs.Prelude.{◌≡◌, IfOk, IfSome, OnOk, OnErr};
ghost use Rattle.hdl_name.specs.Name.{canonical};
ghost use Rattle.hdl_value.specs.Refs.{place_of};
ghost use Rattle.hdl_rows.specs.Table.{Table, AreRefusalsAfter};
ghost use Rattle.hdl_reach.specs.Cost.{ReadsWithin, grants_cost};
ghost use Rattle.hdl_reach.specs.Reach.{IsMask};
ghost use Rattle.hdl_reach.specs.Search.{handle_of, IsSearch, AgreeBeside};
ghost use Rattle.hdl_reach.specs.Views.{mask_of};
ghost use Rattle.hdl_cache.specs.Cost.{mask_cost};
ghost use Rattle.hdl_cache.specs.Truth.{AreTrue};

use crate::Masks;
use hdl_name::Name;
use hdl_reach::Search;
use hdl_rows::{Refused, Rows};
use hdl_value::{AdminMask, Reference};
use std::alloc::{AllocError, Global};
use std::mem;

/// The maximum of searches that are kept.
const SEARCHES: usize = 16;

/// How many octets one call looks up, as `Search::go_on` counts them, including the value that reaches this number.
/// This is 2,048 references without a value.
const LOOKED_UP: usize = 65_536;

/// A search that is done and looked up at most this number of octets isn't kept: a new search costs as little.
const SOON_DONE: usize = 2_048;

/// The maximum of references of all kept searches together, unless only one search is kept.
const REFERENCES: usize = 262_144;

/// Masks by handle and key, and searches by handle.
#[derive(Drop)]
pub(crate) struct MasksAndSearches {
    alloc: Global,
    kept: Masks,
    /// The last to be continued is at the end.
    searches: Vec<Search>,
}

/// The mask of this key by a search. Refused if the search isn't done, or memory is refused.
fn found_by(alloc: Global, search: &Search, key: &Reference) -> Result<Option<AdminMask>, Refused>
    ensures { (t : Table) → IsSearch t search.now → IfOk result (λ mask. IsMask t (handle_of search.now) (place_of key.now) (mask_of mask)) }
{
    if !search.is_done() {
        return Err(Refused);
    }
    Ok(search.mask(alloc, key)?)
}

impl MasksAndSearches {
    /// An empty cache. Refused only if memory is refused.
    pub(crate) fn new(alloc: Global) -> Result<MasksAndSearches, AllocError>
        ensures { IfOk result (λ masks. (t : Table) → AreTrue t masks) }
    {
        let kept = Masks::new(alloc)?;
        let searches = Vec::with_capacity(alloc, SEARCHES)?;
        Ok(MasksAndSearches {
            alloc,
            kept,
            searches,
        })
    }

    /// Removes and returns the search for this handle.
    fn take(&mut self, name: &Name) -> Option<Search>
        ensures handle { IfSome result (λ search. handle_of search ≡ canonical name.now) }
        ensures of_table { (t : Table) → AreTrue t self.old → AreTrue t self.new × IfSome result (IsSearch t) }
    {
        let place = self.searches.iter().position(|search| search.is_for(name))?;
        Some(self.searches.remove(place))
    }

    /// How many references the searches hold.
    fn references(&self) -> usize {
        let mut held: usize = 0;
        for search in &self.searches {
            held = held.saturating_add(search.references());
        }
        held
    }

    /// If the maximum is reached, drops the search that wasn't continued for the longest time.
    fn make_room(&mut self)
        ensures { (t : Table) → AreTrue t self.old → AreTrue t self.new }
    {
        if self.searches.len() < SEARCHES {
            return;
        }
        drop(self.searches.remove(0));
    }

    /// If the searches and `references` more exceed the maximum of references, drops them all.
    fn make_room_for(&mut self, references: usize)
        ensures { (t : Table) → AreTrue t self.old → AreTrue t self.new }
    {
        if self.references().saturating_add(references) <= REFERENCES {
            return;
        }
        self.searches.clear();
    }

    /// Keeps a search, unless a new one costs as little.
    fn hold(&mut self, search: Search)
        ensures { (t : Table) → AreTrue t self.old → IsSearch t search → AreTrue t self.new }
    {
        if search.looked_up() <= SOON_DONE && search.is_done() {
            return;
        }
        self.make_room();
        self.make_room_for(search.references());
        let _ = self.searches.push(search);
    }

    /// The kept search for the administrators of this handle, or else a new one.
    fn search_for<R: Rows>(&mut self, rows: &mut R, name: &Name) -> Result<Search, Refused>
        requires of_table { AreTrue (R.content rows.old) self.old }
        ensures unchanged { R.content rows.new ≡ R.content rows.old }
        ensures of_table { AreTrue (R.content rows.old) self.new }
        ensures search { IfOk result (λ search. IsSearch (R.content rows.old) search × (handle_of search ≡ canonical name.now)) }
        ensures count { AreRefusalsAfter result (R.refused rows.old) (R.refused rows.new) }
        ensures cost { ReadsWithin (R.content rows.old) grants_cost (R.reads rows.old) (R.reads rows.new) }
    {
        if let Some(search) = self.take(name) {
            return Ok(search);
        }
        Search::begin(self.alloc, rows, name)
    }

    /// The same search, continued by what one call may look up.
    fn search_on<R: Rows>(&mut self, rows: &mut R, name: &Name) -> Result<Search, Refused>
        requires of_table { AreTrue (R.content rows.old) self.old }
        ensures unchanged { R.content rows.new ≡ R.content rows.old }
        ensures of_table { AreTrue (R.content rows.old) self.new }
        ensures search { IfOk result (λ search. IsSearch (R.content rows.old) search × (handle_of search ≡ canonical name.now)) }
        ensures count { AreRefusalsAfter result (R.refused rows.old) (R.refused rows.new) }
        ensures cost { ReadsWithin (R.content rows.old) mask_cost (R.reads rows.old) (R.reads rows.new) }
    {
        let search = self.search_for(rows, name)?;
        search.go_on(self.alloc, rows, LOOKED_UP)
    }

    /// The permissions of the key as an administrator of the handle: from the cache, or else by a search of this table.
    /// What the search saw is kept.
    ///
    /// Refused: the table refused a look, and its count rose by one; or memory was refused, or the search looked up as
    /// much as one call may and isn't done, and the count is as it was. The next call continues the search.
    pub(crate) fn mask<R: Rows>(
        &mut self,
        rows: &mut R,
        name: &Name,
        key: &Reference,
    ) -> Result<Option<AdminMask>, Refused>
        requires of_table { AreTrue (R.content rows.old) self.old }
        ensures unchanged { R.content rows.new ≡ R.content rows.old }
        ensures of_table { AreTrue (R.content rows.new) self.new }
        ensures mask { IfOk result (λ mask. IsMask (R.content rows.old) (canonical name.now) (place_of key.now) (mask_of mask)) }
        ensures count { AreRefusalsAfter result (R.refused rows.old) (R.refused rows.new) }
        ensures cost { ReadsWithin (R.content rows.old) mask_cost (R.reads rows.old) (R.reads rows.new) }
    {
        if let Ok(Some(mask)) = self.kept.find(name, key) {
            return Ok(mask);
        }
        let search = self.search_on(rows, name)?;
        let found = found_by(self.alloc, &search, key);
        self.hold(search);
        let mask = found?;
        self.kept.keep(name, key, mask);
        Ok(mask)
    }

    /// Drops what may be wrong after a change of this handle's values: all masks, and each search that is for this
    /// handle or saw a reference to it.
    fn forget(&mut self, name: &Name)
        ensures { (t u : Table) → AgreeBeside (canonical name.now) t u → AreTrue t self.old → AreTrue u self.new }
    {
        self.kept.clear();
        let searches = mem::replace(&mut self.searches, Vec::new(self.alloc));
        for search in searches {
            if search.is_apart_from(self.alloc, name) {
                let _ = self.searches.push(search);
            }
        }
    }

    /// Notes the result of a write to this handle. If it was done, the cache drops what may be wrong. If it was
    /// refused, the table is as it was, and the cache too. So a write that is tried again finds its search and its
    /// mask: a thread makes it, or memory was refused.
    pub(crate) fn note_write(
        &mut self,
        name: &Name,
        done: Result<(), Refused>,
    ) -> Result<(), Refused>
        ensures same { result ≡ done }
        ensures kept { OnErr done (self.new ≡ self.old) }
        ensures forgotten { OnOk done ((t u : Table) → AgreeBeside (canonical name.now) t u → AreTrue t self.old → AreTrue u self.new) }
    {
        if done.is_ok() {
            self.forget(name);
        }
        done
    }
}
