//! The mask that was found last.

ghost use Rattle.std.specs.Prelude.{◌≡◌, true, false, IfSome, OnOk, OnErr};
ghost use Rattle.hdl_rows.specs.Table.{Table};
ghost use Rattle.hdl_rows.specs.Debt.{is_owed};
ghost use Rattle.hdl_reach.specs.Reach.{IsMask};
ghost use Rattle.hdl_reach.specs.Views.{mask_of};
ghost use Rattle.hdl_cache.specs.Masks.{subject_of};
ghost use Rattle.hdl_cache.specs.Truth.{IsLast};

use crate::mask_key::MaskKey;
use hdl_rows::{Owed, Refused};
use hdl_value::AdminMask;

/// A mask, and the handle and the key for which it was found.
#[derive(Drop)]
pub(crate) struct FoundMask {
    pair: MaskKey,
    mask: Option<AdminMask>,
}

/// The mask that was found last while the table owed no write.
///
/// A step finds its mask before it hands its write over, and no other mask is found between the two. So while the table
/// owes that write, its mask is here, whatever masks are found for other steps meanwhile.
#[derive(Drop)]
pub(crate) struct LastMask {
    found: Option<FoundMask>,
}

impl LastMask {
    /// Without a mask.
    pub(crate) fn new() -> LastMask
        ensures { (t : Table) → IsLast t result }
    {
        LastMask { found: None }
    }

    /// The mask, if it was found for this handle and key.
    pub(crate) fn find(&self, pair: &MaskKey) -> Option<Option<AdminMask>>
        ensures { (t : Table) → IsLast t self.now → IfSome result (λ mask. IsMask t (subject_of pair.now).handle (subject_of pair.now).key (mask_of mask)) }
    {
        let found = self.found.as_ref()?;
        if found.pair != *pair {
            return None;
        }
        Some(found.mask)
    }

    /// Notes a mask, unless the table owes a write.
    pub(crate) fn note(&mut self, pair: MaskKey, mask: Option<AdminMask>, owed: Owed)
        ensures kept { is_owed owed ≡ true → self.new ≡ self.old }
        ensures noted { is_owed owed ≡ false → IfSome self.new.found (λ last. (last.pair ≡ pair) × (last.mask ≡ mask)) }
        ensures still_true { (t : Table) → IsLast t self.old → IsMask t (subject_of pair).handle (subject_of pair).key (mask_of mask) → IsLast t self.new }
    {
        if owed == Owed::Nothing {
            self.found = Some(FoundMask { pair, mask });
        }
    }

    /// Notes the result of a write. If it was done, the mask is dropped, since the write may have changed any mask.
    pub(crate) fn note_write(&mut self, done: &Result<(), Refused>)
        ensures forgotten { OnOk done.now ((t : Table) → IsLast t self.new) }
        ensures kept { OnErr done.now (self.new ≡ self.old) }
    {
        if done.is_ok() {
            self.found = None;
        }
    }
}
