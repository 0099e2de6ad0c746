//! What a value refers to.

ghost use Rattle.std.specs.Prelude.{◌≡◌, filter, map, IfOk};
ghost use Rattle.hdl_value.specs.Refs.{value_grants, listed_places, place_of, refers, refs_of};
ghost use Rattle.hdl_reach.specs.Reach.{lists};
ghost use Rattle.hdl_reach.specs.Seen.{places};

use crate::fault::ExportFault;
use hdl_rows::Rows;
use hdl_value::{Reference, Value, admin_of, vlist_of};
use std::alloc::{AllocError, Global};

/// The administrator of an HS_ADMIN value, if its index isn't 0.
fn granted_of(alloc: Global, value: &Value) -> Result<Vec<Reference>, AllocError>
    ensures { IfOk result (λ all. places all.items ≡ map (λ g. g.1) (value_grants value.now)) }
{
    let mut all = Vec::new(alloc);
    if let Some((_, administrator)) = admin_of(alloc, value)? {
        if administrator.index != 0 {
            all.push(administrator)?;
        }
    }
    Ok(all)
}

/// Those that refer to something.
fn referring(alloc: Global, all: Vec<Reference>) -> Result<Vec<Reference>, AllocError>
    ensures { IfOk result (λ some. places some.items ≡ filter refers (places all.items)) }
{
    let mut some = Vec::new(alloc);
    for one in all {
        if one.index != 0 {
            some.push(one)?;
        }
    }
    Ok(some)
}

/// The references of a list value; none of another value.
fn listed_of(alloc: Global, value: &Value) -> Result<Vec<Reference>, AllocError>
    ensures { IfOk result (λ all. places all.items ≡ listed_places value.now) }
{
    match vlist_of(alloc, value)? {
        Some(all) => referring(alloc, all),
        None => Ok(Vec::new(alloc)),
    }
}

/// The references of the list that stands there.
pub(crate) fn list_at<R: Rows>(
    alloc: Global,
    rows: &mut R,
    here: &Reference,
) -> Result<Vec<Reference>, ExportFault>
    ensures unchanged { R.content rows.new ≡ R.content rows.old }
    ensures found { IfOk result (λ all. places all.items ≡ lists (R.content rows.old) (place_of here.now)) }
{
    let Some(value) = rows.at(here)? else {
        return Ok(Vec::new(alloc));
    };
    Ok(listed_of(alloc, &value)?)
}

/// All places that a value refers to: the administrator of an HS_ADMIN value, the references of an HS_VLIST value.
pub(crate) fn references_of(alloc: Global, value: &Value) -> Result<Vec<Reference>, AllocError>
    ensures { IfOk result (λ all. places all.items ≡ refs_of value.now) }
{
    let mut all = granted_of(alloc, value)?;
    for one in listed_of(alloc, value)? {
        all.push(one)?;
    }
    Ok(all)
}
