//! Reading of values: first the layout, then the limits, then the data. The copy comes last.

ghost use Rattle.std.specs.Prelude.{◌≡◌, ◌≢◌, drop, length, IfOk, IfErr, MatchResult};
ghost use Rattle.hdl_value.specs.Spelling.{spelling, CanBeSpelt};
ghost use Rattle.hdl_value.specs.Cut.{value_view, IsWhole};
ghost use Rattle.hdl_value.specs.Fault.{Begins, IsSound, IsFirstFault, IsFaultOf};

use crate::cut::{RawValue, cut_value};
use crate::data::{is_admin_data, is_list_data};
use crate::fault::ValueFault;
use crate::kinds::{HS_ADMIN, HS_VLIST};
use crate::references::{RawRefs, copied_references};
use crate::value::Value;
use hdl_limits::{DATA_MAX, Octets, REFERENCES_MAX, TYPE_MAX};
use std::alloc::{AllocError, Global};

/// The first fault of a value that has the layout. Takes no memory.
pub(crate) fn check(raw: &RawValue<'_>) -> Result<(), ValueFault>
    requires { IsWhole raw.now.references }
    ensures { MatchResult result (λ _. IsSound (value_view raw.now)) (λ e. IsFirstFault (value_view raw.now) e × (e ≢ ValueFault.Memory)) }
{
    if raw.index == 0 {
        return Err(ValueFault::IndexZero);
    }
    if raw.kind.len() > TYPE_MAX {
        return Err(ValueFault::TypeLong);
    }
    if raw.bytes.len() > DATA_MAX {
        return Err(ValueFault::DataLong);
    }
    if raw.references.count > REFERENCES_MAX {
        return Err(ValueFault::RefsMany);
    }
    if raw.kind == HS_ADMIN && !is_admin_data(raw.bytes) {
        return Err(ValueFault::BadAdmin);
    }
    if raw.kind == HS_VLIST && !is_list_data(raw.bytes) {
        return Err(ValueFault::BadList);
    }
    Ok(())
}

pub(crate) fn copy_of(alloc: Global, raw: &RawValue<'_>) -> Result<Value, AllocError>
    requires { IsWhole raw.now.references }
    ensures { IfOk result (λ v. v ≡ value_view raw.now) }
{
    let kind = Octets::new(Vec::from_slice(alloc, raw.kind)?);
    let bytes = Octets::new(Vec::from_slice(alloc, raw.bytes)?);
    let refs = RawRefs::new(copied_references(alloc, &raw.references)?);
    Ok(Value {
        index: raw.index,
        kind,
        bytes,
        ttl: raw.ttl,
        permissions: raw.permissions,
        timestamp: raw.timestamp,
        references: refs,
    })
}

/// Reads the value at the front, and returns how many octets it takes. Further octets may follow.
///
/// Refusals, the first that applies: Short if the octets don't hold the layout; IndexZero; TypeLong over 255 octets;
/// DataLong over 32,768; RefsMany over 64; BadAdmin or BadList if data with a meaning doesn't have its layout, or its
/// handle is not a name; Memory, which is taken only if there is no other fault. A length or count beyond the octets is
/// Short, and nothing is copied.
pub fn read_value(alloc: Global, octets: &[u8]) -> Result<(Value, usize), ValueFault>
    ensures begins { IfOk result (λ x. Begins octets.now x.0 (drop x.1 octets.now)) }
    ensures count { IfOk result (λ x. x.1 ≡ length (spelling x.0)) }
    ensures sound { IfOk result (λ x. IsSound x.0) }
    ensures can_be_spelt { IfOk result (λ x. CanBeSpelt x.0) }
    ensures fault { IfErr result (λ e. IsFaultOf octets.now e) }
{
    let Some((cut, rest)) = cut_value(octets) else {
        return Err(ValueFault::Short);
    };
    let value = cut.read(alloc)?;
    Ok((value, octets.len() - rest.len()))
}
