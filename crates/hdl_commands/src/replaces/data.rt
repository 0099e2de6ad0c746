//! URLs that begin with other octets.

ghost use Rattle.std.specs.Prelude.{◌≡◌, option_map, IfOk};
ghost use Rattle.hdl_commands.specs.Replace as said;

use hdl_limits::Octets;
use hdl_value::{URL, Value};
use std::alloc::{AllocError, Global};

/// The data, beginning with the second octets where it begins with the first; None where it doesn't.
fn replaced_data(
    alloc: Global,
    old: &[u8],
    new: &[u8],
    octets: &[u8],
) -> Result<Option<Vec<u8>>, AllocError>
    ensures { IfOk result (λ found. option_map (λ v. v.items) found ≡ said.replaced_data old.now new.now octets.now) }
{
    let Some(rest) = octets.strip_prefix(old) else {
        return Ok(None);
    };
    let mut whole = Vec::from_slice(alloc, new)?;
    whole.extend_from_slice(rest)?;
    Ok(Some(whole))
}

/// A URL whose data begins with the first octets, beginning with the second; None of any other value. All else of it stays.
fn replaced(
    alloc: Global,
    old: &[u8],
    new: &[u8],
    value: &Value,
) -> Result<Option<Value>, AllocError>
    ensures { IfOk result (λ found. found ≡ said.replaced old.now new.now value.now) }
{
    if value.kind.as_slice() != URL {
        return Ok(None);
    }
    let Some(data) = replaced_data(alloc, old, new, value.bytes.as_slice())? else {
        return Ok(None);
    };
    let mut copy = value.copy(alloc)?;
    copy.bytes = Octets::new(data);
    Ok(Some(copy))
}

/// The values that have to be modified, as they are afterwards.
pub(crate) fn all_replaced(
    alloc: Global,
    old: &[u8],
    new: &[u8],
    there: &[Value],
) -> Result<Vec<Value>, AllocError>
    ensures { IfOk result (λ all. all.items ≡ said.all_replaced old.now new.now there.now) }
{
    let mut all = Vec::new(alloc);
    for value in there {
        if let Some(value) = replaced(alloc, old, new, value)? {
            all.push(value)?;
        }
    }
    Ok(all)
}
