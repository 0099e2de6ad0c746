//! A value in JSON.

ghost use Rattle.std.specs.Prelude.{◌≡◌, ◌⊎◌, IfOk, IfErr, option_map, option_copied};
ghost use Rattle.serde_json.specs.View.{view};
ghost use Rattle.hdl_rest.specs.Entry.{first_fault, data_in_json, fields_in_json, value_in_json};

use crate::data::data_in;
use crate::fault::EntryFault;
use crate::fields::{number_of, permissions_in_json, text_of, ttl_in_json};
use hdl_limits::{DATA_MAX, Octets, TYPE_MAX};
use hdl_value::{RawRefs, Value, ValueFault, admin_of, vlist_of};
use serde_json::Value as Json;
use std::alloc::{AllocError, Global};

/// What is wrong with a value without references: a limit that it breaks, or data with a meaning that isn't of its layout.
#[tactic(auto, unfolding(crate::specs::Entry::first_fault))]
fn first_fault(alloc: Global, value: &Value) -> Result<Option<ValueFault>, AllocError>
    ensures { IfOk result (λ fault. fault ≡ first_fault value.now) }
{
    if value.index == 0 {
        return Ok(Some(ValueFault::IndexZero));
    }
    if value.kind.as_slice().len() > TYPE_MAX {
        return Ok(Some(ValueFault::TypeLong));
    }
    if value.bytes.as_slice().len() > DATA_MAX {
        return Ok(Some(ValueFault::DataLong));
    }
    if value.is_admin() && admin_of(alloc, value)?.is_none() {
        return Ok(Some(ValueFault::BadAdmin));
    }
    if value.is_list() && vlist_of(alloc, value)?.is_none() {
        return Ok(Some(ValueFault::BadList));
    }
    Ok(None)
}

fn data_in_json(alloc: Global, json: Option<&Json>) -> Result<Vec<u8>, EntryFault>
    ensures value { IfOk result (λ v. data_in_json (option_map view (option_copied json.entry)) ≡ Ok v.items) }
    ensures fault { IfErr result (λ e. (e ≡ EntryFault.Memory) ⊎ (data_in_json (option_map view (option_copied json.entry)) ≡ Err e)) }
{
    match json {
        Some(told) => data_in(alloc, told),
        None => Err(EntryFault::Data),
    }
}

/// The value that the members of an object say.
#[tactic(auto, unfolding(crate::specs::Entry::fields_in_json))]
fn fields_in_json(alloc: Global, json: &Json) -> Result<Value, EntryFault>
    ensures value { IfOk result (λ v. fields_in_json (view json.now) ≡ Ok v) }
    ensures fault { IfErr result (λ e. (e ≡ EntryFault.Memory) ⊎ (fields_in_json (view json.now) ≡ Err e)) }
{
    let Some(index) = number_of(json, "index") else {
        return Err(EntryFault::Index);
    };
    let Some(kind) = text_of(json, "type") else {
        return Err(EntryFault::Type);
    };
    let kind = kind.as_bytes();
    let bytes = data_in_json(alloc, json.get("data"))?;
    let Some(ttl) = ttl_in_json(json.get("ttl")) else {
        return Err(EntryFault::Ttl);
    };
    let Some(permissions) = permissions_in_json(kind, json.get("permissions")) else {
        return Err(EntryFault::Permissions);
    };
    let [a, b, c, d] = ttl.to_be_bytes();
    Ok(Value {
        index,
        kind: Octets::new(Vec::from_slice(alloc, kind)?),
        bytes: Octets::new(bytes),
        ttl: [0, a, b, c, d],
        permissions,
        timestamp: 0,
        references: RawRefs::new(Vec::new(alloc)),
    })
}

/// The value that is meant, or the first thing that is wrong with it: its fields in their order, then the value itself.
#[tactic(auto, unfolding(crate::specs::Entry::value_in_json))]
pub(crate) fn value_in_json(alloc: Global, json: &Json) -> Result<Value, EntryFault>
    ensures value { IfOk result (λ v. value_in_json (view json.now) ≡ Ok v) }
    ensures fault { IfErr result (λ e. (e ≡ EntryFault.Memory) ⊎ (value_in_json (view json.now) ≡ Err e)) }
{
    let value = fields_in_json(alloc, json)?;
    match first_fault(alloc, &value)? {
        None => Ok(value),
        Some(fault) => Err(EntryFault::Value(fault)),
    }
}
