//! Values that a table in SQL might take for something else, and that no message has. Names, lists and many values are tried by tools/replays.py.

ghost use Rattle.std.specs.Prelude.{◌≡◌, IfOk};

use crate::assertion::same;
use crate::values::great;
use crate::writes::{create, reference};
use hdl_limits::Octets;
use hdl_name::Name;
use hdl_rows::Rows;
use hdl_value::{RawRef, RawRefs, Reference, Value};
use std::alloc::{AllocError, Global};
use std::process::Abort;
use std::test::Fail;

fn octets(alloc: Global, text: &[u8]) -> Result<Octets, AllocError> {
    Ok(Octets::new(Vec::from_slice(alloc, text)?))
}

/// A value whose fields are all the least, with this index.
fn least(alloc: Global, index: u32) -> Result<Value, AllocError>
    ensures { IfOk result (λ v. v.index ≡ index) }
{
    Ok(Value {
        index,
        kind: octets(alloc, b"")?,
        bytes: octets(alloc, b"")?,
        ttl: [0; 5],
        permissions: 0,
        timestamp: 0,
        references: RawRefs::new(Vec::new(alloc)),
    })
}

/// Whether the two values are one.
fn are_one(a: &Value, b: &Value) -> bool {
    a.index == b.index
        && a.kind.as_slice() == b.kind.as_slice()
        && a.bytes.as_slice() == b.bytes.as_slice()
        && a.ttl == b.ttl
        && a.permissions == b.permissions
        && a.timestamp == b.timestamp
        && are_same_refs(a.references.as_slice(), b.references.as_slice())
}

fn are_same_refs(a: &[RawRef], b: &[RawRef]) -> bool {
    a.len() == b.len()
        && a.iter().zip(b).all(|(r, s)| r.index == s.index
            && r.handle.as_slice() == s.handle.as_slice())
}

/// Each octet once, rising.
fn all_octets(alloc: Global) -> Result<Vec<u8>, AllocError> {
    let mut data = Vec::new(alloc);
    for octet in 0..=255u8 {
        data.push(octet)?;
    }
    Ok(data)
}

/// Whether these are the values of the handle.
fn holds<R: Rows>(rows: &mut R, name: &Name, wanted: &[Value]) -> Result<bool, Fail> {
    let read = rows.values(name)?;
    Ok(read.len() == wanted.len() && read.iter().zip(wanted).all(|(a, b)| are_one(a, b)))
}

/// Whether this value stands at the place.
fn stands<R: Rows>(rows: &mut R, place: &Reference, wanted: &Value) -> Result<bool, Fail> {
    match rows.at(place)? {
        Some(value) => Ok(are_one(&value, wanted)),
        None => Ok(false),
    }
}

/// Makes a handle of two values, whose fields are all the greatest and the least.
fn create_fields<R: Rows>(
    rt: &impl Abort,
    alloc: Global,
    rows: &mut R,
    name: &Name,
    data: &[u8],
) -> Result<(), Fail> {
    let all = [great(alloc, u32::MAX, data)?, least(alloc, 0)?];
    create(rt, rows, name, &all)
}

/// Whether the handle has these two values.
fn has_fields<R: Rows>(
    alloc: Global,
    rows: &mut R,
    name: &Name,
    data: &[u8],
) -> Result<bool, Fail> {
    let all = [least(alloc, 0)?, great(alloc, u32::MAX, data)?];
    holds(rows, name, &all)
}

/// All fields come back as they were put, the least and the greatest, with each octet in the data.
pub(crate) fn keeps_fields<R: Rows>(
    rt: &impl Abort,
    alloc: Global,
    rows: &mut R,
) -> Result<(), Fail> {
    let data = all_octets(alloc)?;
    let place = reference(alloc, b"10.abc/fields", u32::MAX)?;
    create_fields(rt, alloc, rows, &place.name, &data)?;
    let greatest = great(alloc, u32::MAX, &data)?;
    same(rt, "the greatest", stands(rows, &place, &greatest)?, true);
    same(
        rt,
        "both",
        has_fields(alloc, rows, &place.name, &data)?,
        true,
    );
    Ok(())
}
