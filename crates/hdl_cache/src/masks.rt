//! The cache of masks.

ghost use Rattle.std.specs.Prelude.{◌≡◌, ◌⊎◌, [], option_map, IfOk, IfSome, OnOk, OnErr};
ghost use Rattle.std.specs.Map.{lookup};
ghost use Rattle.hdl_name.specs.Name.{canonical};
ghost use Rattle.hdl_value.specs.Refs.{place_of};
ghost use Rattle.hdl_rows.specs.Table.{Table};
ghost use Rattle.hdl_reach.specs.Reach.{IsMask};
ghost use Rattle.hdl_reach.specs.Views.{mask_of};
ghost use Rattle.lru.specs.LruCache.{promoted};
ghost use Rattle.hdl_cache.specs.Masks.{subject, is_subject, with_mask, AreMasks};

use crate::mask_key::MaskKey;
use hdl_limits::MASKS_MAX;
use hdl_name::Name;
use hdl_value::{AdminMask, Reference};
use lru::LruCache;
use std::alloc::{AllocError, Global};
use std::marker::Model;
use std::num::NonZeroUsize;

/// Masks by handle and key. Contracts see them as a list, the most recently used first.
#[derive(Drop)]
pub struct Masks {
    alloc: Global,
    kept: LruCache<MaskKey, Option<AdminMask>>,
}

impl Model for Masks {
    ghost use Rattle.std.specs.Prelude.{◌≡◌, List};
    ghost use Rattle.hdl_limits.specs.declared.TheConstants.{MASKS_MAX};
    ghost use Rattle.hdl_cache.specs.Masks.{Kept, kept_in};

    ghost Value = { List Kept };

    ghost view = { λ m. kept_in m.kept.entries };

    ghost invariant = { λ m. m.kept.cap ≡ MASKS_MAX };
}

impl Masks {
    /// An empty cache. Refused only if memory is refused.
    pub fn new(alloc: Global) -> Result<Masks, AllocError>
        ensures { IfOk result (λ masks. masks ≡ []) }
    {
        let Some(most) = NonZeroUsize::new(MASKS_MAX) else {
            unreachable!()
        };
        let kept = LruCache::new(alloc, most)?;
        Ok(Masks { alloc, kept })
    }

    /// The cached mask of this key for this handle, or `None` if it isn't cached. It is then the most recently used.
    ///
    /// If the cache is true of a table, the result is the table's mask (`of_table`). Refused only if memory is refused;
    /// then nothing changed.
    pub fn find(
        &mut self,
        name: &Name,
        key: &Reference,
    ) -> Result<Option<Option<AdminMask>>, AllocError>
        ensures found { IfOk result (λ found. option_map mask_of found ≡ lookup (is_subject (canonical name.now) (place_of key.now)) self.old) }
        ensures used { OnOk result (self.new ≡ promoted (is_subject (canonical name.now) (place_of key.now)) self.old) }
        ensures unchanged { OnErr result (self.new ≡ self.old) }
        ensures of_table { (t : Table) → AreMasks t self.old → IfOk result (λ found. IfSome found (λ mask. IsMask t (canonical name.now) (place_of key.now) (mask_of mask))) }
        ensures still_true { (t : Table) → AreMasks t self.old → AreMasks t self.new }
    {
        let pair = MaskKey::new(self.alloc, name, key)?;
        let found = self.kept.peek(&pair).copied();
        self.kept.promote(&pair);
        Ok(found)
    }

    /// Stores the mask of this key for this handle. If there are 256, it replaces the least recently used one. If
    /// memory is refused, nothing changes.
    pub fn keep(&mut self, name: &Name, key: &Reference, mask: Option<AdminMask>)
        ensures kept { (self.new ≡ self.old) ⊎ (self.new ≡ with_mask self.old (subject (canonical name.now) (place_of key.now)) (mask_of mask)) }
        ensures still_true { (t : Table) → AreMasks t self.old → IsMask t (canonical name.now) (place_of key.now) (mask_of mask) → AreMasks t self.new }
    {
        let Ok(pair) = MaskKey::new(self.alloc, name, key) else {
            return;
        };
        let _ = self.kept.put(pair, mask);
    }

    /// Removes all masks.
    pub fn clear(&mut self)
        ensures { self.new ≡ [] }
    {
        self.kept.clear();
    }
}
