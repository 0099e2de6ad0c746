//! The grants of a handle's HS_ADMIN values.

ghost use Rattle.std.specs.Prelude.{◌≡◌, ◌≤◌, ◌+◌, ◌++◌, option_to_list, IfOk, OnOk};
ghost use Rattle.hdl_name.specs.Name.{canonical};
ghost use Rattle.hdl_value.specs.Refs.{value_grants};
ghost use Rattle.hdl_rows.specs.Table.{AreRefusalsAfter};
ghost use Rattle.hdl_reach.specs.Granted.{granted_by, all_granted_by, read_by, all_read_by};
ghost use Rattle.hdl_reach.specs.Views.{grants_in};

use hdl_rows::{Refused, Rows};
use hdl_value::{AdminMask, Reference, Value, admin_of};
use std::alloc::{AllocError, Global};

/// A mask, and the reference that has it.
#[derive(Drop)]
pub(crate) struct Grant {
    pub(crate) mask: AdminMask,
    pub(crate) reference: Reference,
}

/// The grant of an HS_ADMIN value. None if the index is 0.
fn grant_of(alloc: Global, value: &Value) -> Result<Option<Grant>, AllocError>
    ensures { IfOk result (λ grant. grants_in (option_to_list grant) ≡ value_grants value.now) }
{
    let Some((mask, reference)) = admin_of(alloc, value)? else {
        return Ok(None);
    };
    if reference.index == 0 {
        return Ok(None);
    }
    Ok(Some(Grant { mask, reference }))
}

/// The grant of the value with this head, if its type is HS_ADMIN. The table isn't asked for another value.
fn grant_by<R: Rows>(
    alloc: Global,
    rows: &mut R,
    here: &mut Reference,
    head: &Value,
) -> Result<Option<Grant>, Refused>
    ensures unchanged { R.content rows.new ≡ R.content rows.old }
    ensures name { here.new.name ≡ here.old.name }
    ensures found { IfOk result (λ grant. grants_in (option_to_list grant) ≡ granted_by (R.content rows.old) (canonical here.old.name) head.now) }
    ensures count { AreRefusalsAfter result (R.refused rows.old) (R.refused rows.new) }
    ensures cost { R.reads rows.new ≤ R.reads rows.old + read_by (R.content rows.old) (canonical here.old.name) head.now }
{
    if !head.is_admin() {
        return Ok(None);
    }
    here.index = head.index;
    match rows.at(here)? {
        Some(value) => Ok(grant_of(alloc, &value)?),
        None => Ok(None),
    }
}

/// Puts a grant that was found behind the others.
fn push_grant(all: &mut Vec<Grant>, grant: Option<Grant>) -> Result<(), AllocError>
    ensures { OnOk result (grants_in all.new.items ≡ grants_in all.old.items ++ grants_in (option_to_list grant)) }
{
    if let Some(grant) = grant {
        all.push(grant)?;
    }
    Ok(())
}

/// The grants of a handle's HS_ADMIN values, by the heads of all its values. `here` is a reference to the handle.
pub(crate) fn grants_by<R: Rows>(
    alloc: Global,
    rows: &mut R,
    mut here: Reference,
    heads: &[Value],
) -> Result<Vec<Grant>, Refused>
    ensures unchanged { R.content rows.new ≡ R.content rows.old }
    ensures found { IfOk result (λ all. grants_in all.items ≡ all_granted_by (R.content rows.old) (canonical here.name) heads.now) }
    ensures count { AreRefusalsAfter result (R.refused rows.old) (R.refused rows.new) }
    ensures cost { R.reads rows.new ≤ R.reads rows.old + all_read_by (R.content rows.old) (canonical here.name) heads.now }
{
    let mut all = Vec::new(alloc);
    for head in heads {
        let grant = grant_by(alloc, rows, &mut here, head)?;
        push_grant(&mut all, grant)?;
    }
    Ok(all)
}
