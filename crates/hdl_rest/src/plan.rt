//! The requests that a change takes.

ghost use Rattle.std.specs.Prelude.{◌≡◌, ◌++◌, map, filter, IfOk, OnOk};
ghost use Rattle.hdl_msg.specs.RequestBody.{requested_operation};
ghost use Rattle.hdl_rest.specs.Plan.{is_among, known_values, fresh, missing_indexes, modifying, adding, removing, merging, replacing};

use crate::record::has_index;
use hdl_limits::{Items, Octets};
use hdl_msg::RequestBody;
use hdl_value::Value;
use std::alloc::{AllocError, Global};

/// Whether the number is one of these.
pub(crate) fn is_among(number: u32, numbers: &[u32]) -> bool
    ensures { result ≡ is_among number numbers.now }
{
    numbers.iter().any(|other| *other == number)
}

/// Of some values those whose index is there, and those whose index isn't.
#[derive(Drop)]
struct Parts {
    known: Vec<Value>,
    fresh: Vec<Value>,
}

/// Copies of values, parted by whether their index is there.
fn part(alloc: Global, there: &[u32], values: &[Value]) -> Result<Parts, AllocError>
    ensures known { IfOk result (λ parts. parts.known.items ≡ known_values there.now values.now) }
    ensures fresh { IfOk result (λ parts. parts.fresh.items ≡ fresh there.now values.now) }
{
    let mut known = Vec::new(alloc);
    let mut fresh = Vec::new(alloc);
    for value in values {
        if is_among(value.index, there) {
            known.push(value.copy(alloc)?)?;
        } else {
            fresh.push(value.copy(alloc)?)?;
        }
    }
    Ok(Parts { known, fresh })
}

/// The indexes that are there and that no value has.
fn missing_indexes(alloc: Global, there: &[u32], values: &[Value]) -> Result<Vec<u32>, AllocError>
    ensures { IfOk result (λ left. left.items ≡ missing_indexes there.now values.now) }
{
    let mut gone = Vec::new(alloc);
    for index in there {
        if !has_index(*index, values) {
            gone.push(*index)?;
        }
    }
    Ok(gone)
}

fn octets(alloc: Global, handle: &[u8]) -> Result<Octets, AllocError>
    ensures { IfOk result (λ octets. octets ≡ handle.now) }
{
    Ok(Octets::new(Vec::from_slice(alloc, handle)?))
}

/// Puts the request that modifies these values at the end, where there are any.
fn push_modify(
    alloc: Global,
    steps: &mut Vec<RequestBody>,
    handle: &[u8],
    values: Vec<Value>,
) -> Result<(), AllocError>
    ensures { OnOk result (map requested_operation steps.new.items ≡ map requested_operation steps.old.items ++ modifying handle.now values.items) }
{
    if values.is_empty() {
        return Ok(());
    }
    let handle = octets(alloc, handle)?;
    let values = Items::new(values);
    steps.push(RequestBody::Modify { handle, values })?;
    Ok(())
}

/// The same of the request that adds them.
fn push_add(
    alloc: Global,
    steps: &mut Vec<RequestBody>,
    handle: &[u8],
    values: Vec<Value>,
) -> Result<(), AllocError>
    ensures { OnOk result (map requested_operation steps.new.items ≡ map requested_operation steps.old.items ++ adding handle.now values.items) }
{
    if values.is_empty() {
        return Ok(());
    }
    let handle = octets(alloc, handle)?;
    let values = Items::new(values);
    steps.push(RequestBody::Add { handle, values })?;
    Ok(())
}

/// The same of the request that removes the values of these indexes.
fn push_remove(
    alloc: Global,
    steps: &mut Vec<RequestBody>,
    handle: &[u8],
    indexes: Vec<u32>,
) -> Result<(), AllocError>
    ensures { OnOk result (map requested_operation steps.new.items ≡ map requested_operation steps.old.items ++ removing handle.now indexes.items) }
{
    if indexes.is_empty() {
        return Ok(());
    }
    let handle = octets(alloc, handle)?;
    let indexes = Items::new(indexes);
    steps.push(RequestBody::Remove { handle, indexes })?;
    Ok(())
}

/// The requests that put values into a handle in which `there` are the indexes: those that are there are modified, then the others
/// added. Other values stay.
#[tactic(auto, unfolding(crate::specs::Plan::merging))]
pub fn merging(
    alloc: Global,
    handle: &[u8],
    there: &[u32],
    values: &[Value],
) -> Result<Vec<RequestBody>, AllocError>
    ensures { IfOk result (λ steps. map requested_operation steps.items ≡ merging handle.now there.now values.now) }
{
    let Parts { known, fresh } = part(alloc, there, values)?;
    let mut steps = Vec::new(alloc);
    push_modify(alloc, &mut steps, handle, known)?;
    push_add(alloc, &mut steps, handle, fresh)?;
    Ok(steps)
}

/// The requests that put values in the place of all that a handle has, `there` being the indexes: as [`merging`], and last of all what
/// isn't given is removed.
#[tactic(auto, unfolding(crate::specs::Plan::replacing))]
pub fn replacing(
    alloc: Global,
    handle: &[u8],
    there: &[u32],
    values: &[Value],
) -> Result<Vec<RequestBody>, AllocError>
    ensures { IfOk result (λ steps. map requested_operation steps.items ≡ replacing handle.now there.now values.now) }
{
    let gone = missing_indexes(alloc, there, values)?;
    let mut steps = merging(alloc, handle, there, values)?;
    push_remove(alloc, &mut steps, handle, gone)?;
    Ok(steps)
}
