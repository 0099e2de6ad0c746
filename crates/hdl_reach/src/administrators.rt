//! The permissions of a reference as an administrator.

ghost use Rattle.std.specs.Prelude.{◌≡◌, IfOk};
ghost use Rattle.hdl_name.specs.Name.{canonical};
ghost use Rattle.hdl_value.specs.Refs.{place_of};
ghost use Rattle.hdl_rows.specs.Table.{AreRefusalsAfter};
ghost use Rattle.hdl_reach.specs.Reach.{IsMask};
ghost use Rattle.hdl_reach.specs.Views.{mask_of};

use crate::search::Search;
use hdl_name::Name;
use hdl_rows::{Refused, Rows};
use hdl_value::{AdminMask, Reference};
use std::alloc::Global;

/// The permissions of the key as an administrator of the handle: the union of the masks of all its HS_ADMIN values that
/// lead to the key, directly or through lists. None if no value leads to it, and for a key of index 0, which refers to
/// nothing. The key itself need not exist.
///
/// It looks up all that the lists of the handle reach, and ends even if lists refer to each other. A caller with other
/// work to do limits each call by [`Search::go_on`].
///
/// Refused: the table refused a look, and its count rose by one; or memory was refused, and the count is as it was.
pub fn mask<R: Rows>(
    alloc: Global,
    rows: &mut R,
    name: &Name,
    key: &Reference,
) -> Result<Option<AdminMask>, Refused>
    ensures unchanged { R.content rows.new ≡ R.content rows.old }
    ensures found { IfOk result (λ mask. IsMask (R.content rows.old) (canonical name.now) (place_of key.now) (mask_of mask)) }
    ensures count { AreRefusalsAfter result (R.refused rows.old) (R.refused rows.new) }
{
    let mut search = Search::begin(alloc, rows, name)?;
    while !search.is_done() {
        search = search.go_on(alloc, rows, usize::MAX)?;
    }
    Ok(search.mask(alloc, key)?)
}
