//! Prefixes of an accepted text for which no key of the text can create handles.

use hdl_name::Name;
use hdl_tenants::Tenants;
use hdl_value::{AdminPermission, Reference, Value, admin_of};
use std::alloc::{AllocError, Global};
use std::collections::BTreeSet;

/// Where a value is: the canonical form of its handle, and its index.
type Place = (Vec<u8>, u32);

fn place_of(alloc: Global, name: &Name, index: u32) -> Result<Place, AllocError> {
    Ok((Vec::from_slice(alloc, name.canon())?, index))
}

/// The places of the keys of a text, and of its lists of keys.
fn keys_of(alloc: Global, opening: &[(Name, Value)]) -> Result<BTreeSet<Place>, AllocError> {
    let mut keys = BTreeSet::new(alloc);
    for (name, value) in opening {
        if value.is_secret_key() || value.is_list() {
            keys.insert(place_of(alloc, name, value.index)?)?;
        }
    }
    Ok(keys)
}

/// The key that a value lets create handles, if it does that.
fn creator_of(alloc: Global, value: &Value) -> Result<Option<Reference>, AllocError> {
    let Some((mask, reference)) = admin_of(alloc, value)? else {
        return Ok(None);
    };
    if mask.permits(AdminPermission::AddHandle) {
        Ok(Some(reference))
    } else {
        Ok(None)
    }
}

/// The prefixes whose administrative handle names a key of the text that may create handles.
fn prefixes_with_administrator(
    alloc: Global,
    opening: &[(Name, Value)],
) -> Result<BTreeSet<Vec<u8>>, AllocError> {
    let keys = keys_of(alloc, opening)?;
    let mut prefixes = BTreeSet::new(alloc);
    for (name, value) in opening {
        if !name.is_admin_handle() {
            continue;
        }
        let Some(reference) = creator_of(alloc, value)? else {
            continue;
        };
        if keys.contains(&place_of(alloc, &reference.name, reference.index)?) {
            prefixes.insert(Vec::from_slice(alloc, name.prefix())?)?;
        }
    }
    Ok(prefixes)
}

/// The prefix that a line of an accepted text gives to a publisher.
fn prefix_on(line: &str) -> Option<&str> {
    let mut fields = line.split(' ');
    if fields.next() != Some("prefix") {
        return None;
    }
    fields.next()
}

/// Adds a line for each prefix of the text whose handles none of its keys can create.
pub(crate) fn push_without_administrator(
    alloc: Global,
    lines: &mut String,
    text: &str,
    tenants: &Tenants,
) -> Result<(), AllocError> {
    let mut known = prefixes_with_administrator(alloc, tenants.opening())?;
    for line in text.lines() {
        let Some(prefix) = prefix_on(line) else {
            continue;
        };
        // each prefix once, though several publishers may have it
        if known.insert(Vec::from_slice(alloc, prefix.as_bytes())?)? {
            let line = format!(in alloc;
                "prefix {prefix}: no HS_ADMIN value of 0.NA/{prefix} names a key of this text, so no client can create handles, unless the table has such values\n"
            )?;
            lines.push_str(&line)?;
        }
    }
    Ok(())
}
