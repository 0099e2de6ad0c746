//! The request that creates a handle of its rows.

ghost use Rattle.std.specs.Prelude.{◌≡◌, ◌≢◌, ◌≤◌, ◌++◌, ◌∷◌, [], All, false, IfOk, IfSome};
ghost use Rattle.std.specs.List.{list_any};
ghost use Rattle.hdl_value.specs.Refs.{is_admin};
ghost use Rattle.hdl_commands.specs.Rows as rows;
ghost use Rattle.hdl_commands.specs.Rows.{AreAdministered, Creates};

use crate::fault::ArgumentFault;
use crate::imports::row::{DAY_SECONDS, PUBLIC_READ_PERMISSIONS};
use hdl_client::{RequestMessage, Task};
use hdl_limits::{Items, NAME_MAX, Octets, WRITTEN_MAX};
use hdl_msg::RequestBody;
use hdl_name::Name;
use hdl_value::{HS_ADMIN, RawRef, RawRefs, Value, Wire, put_string, put_u16, put_u32};
use hdl_value_lines::printed_octets;
use std::alloc::Global;

/// All that an administrator may do.
const ALL_PERMISSIONS: u16 = 0x0FFF;

/// Where an administrator is added: at this index, or the first one after it that is free.
const ADMINISTRATOR_INDEX: u32 = 100;

/// The data of an administrator who may do everything, by this key.
fn administrator(alloc: Global, key: &RawRef, index: u32) -> Result<Value, ArgumentFault>
    ensures { IfOk result (λ v. v ≡ rows.administrator key.now index) }
{
    if key.handle.as_slice().len() > NAME_MAX {
        return Err(ArgumentFault::Key);
    }
    let mut data = Vec::new(alloc);
    put_u16(&mut data, ALL_PERMISSIONS)?;
    put_string(&mut data, key.handle.as_slice())?;
    put_u32(&mut data, key.index)?;
    let [a, b, c, d] = DAY_SECONDS.to_be_bytes();
    Ok(Value {
        index,
        kind: Octets::new(Vec::from_slice(alloc, HS_ADMIN)?),
        bytes: Octets::new(data),
        ttl: [0, a, b, c, d],
        permissions: PUBLIC_READ_PERMISSIONS,
        timestamp: 0,
        references: RawRefs::new(Vec::new(alloc)),
    })
}

fn has_index(values: &[Value], index: u32) -> bool
    ensures { result ≡ false → All (λ v. v.index ≢ index) values.now }
{
    values.iter().any(|value| value.index == index)
}

/// The first index from 100 on that none of these values has; None where there is none before `WRITTEN_MAX` more.
fn free_index(values: &[Value]) -> Option<u32>
    ensures { IfSome result (λ index. All (λ v. v.index ≢ index) values.now) }
{
    for index in ADMINISTRATOR_INDEX..ADMINISTRATOR_INDEX + WRITTEN_MAX as u32 {
        if !has_index(values, index) {
            return Some(index);
        }
    }
    None
}

fn has_twins(values: &[Value]) -> bool {
    for (place, value) in values.iter().enumerate() {
        if has_index(&values[..place], value.index) {
            return true;
        }
    }
    false
}

fn is_administered(values: &[Value]) -> bool
    ensures { result ≡ list_any is_admin values.now }
{
    values.iter().any(|value| value.is_admin())
}

/// The values of a handle's rows, and an administrator where none of them is one.
fn with_administrator(
    alloc: Global,
    key: &RawRef,
    rows: Vec<Value>,
) -> Result<Vec<Value>, ArgumentFault>
    ensures { IfOk result (λ values. AreAdministered key.now rows.items values.items) }
{
    let mut values = rows;
    if is_administered(&values) {
        return Ok(values);
    }
    let Some(index) = free_index(&values) else {
        return Err(ArgumentFault::TooMany);
    };
    values.push(administrator(alloc, key, index)?)?;
    Ok(values)
}

/// Whether the service takes a handle with these values, and why not.
fn check(values: &[Value]) -> Result<(), ArgumentFault> {
    if values.len() > WRITTEN_MAX {
        return Err(ArgumentFault::TooMany);
    }
    if has_twins(values) {
        return Err(ArgumentFault::IndexTwice);
    }
    Ok(())
}

/// The message that creates a handle of its rows' values. A request that the service wouldn't take is refused with its reason.
fn creation(
    alloc: Global,
    wire: Wire,
    key: &RawRef,
    handle: &[u8],
    rows: Vec<Value>,
) -> Result<RequestMessage, ArgumentFault>
    ensures creates { IfOk result (λ message. Creates wire key.now handle.now rows.items message.octets) }
    ensures layout { IfOk result (λ message. message.wire ≡ wire) }
{
    let values = with_administrator(alloc, key, rows)?;
    check(&values)?;
    let body = RequestBody::Create {
        handle: Octets::new(Vec::from_slice(alloc, handle)?),
        values: Items::new(values),
    };
    Ok(RequestMessage::new(alloc, wire, &body)?)
}

/// The task that creates a handle of its rows' values; `line` is that of the first row.
pub(crate) fn creation_task(
    alloc: Global,
    wire: Wire,
    key: &RawRef,
    line: usize,
    handle: &[u8],
    rows: Vec<Value>,
) -> Result<Task, ArgumentFault>
    ensures creates { IfOk result (λ task. Creates wire key.now handle.now rows.items task.request.octets) }
    ensures layout { IfOk result (λ task. task.request.wire ≡ wire) }
{
    if handle.is_empty() {
        return Err(ArgumentFault::NoHandle);
    }
    Name::read(alloc, handle)?;
    let message = creation(alloc, wire, key, handle, rows)?;
    Ok(Task {
        line,
        title: printed_octets(alloc, handle)?,
        request: message,
        key: Some(0),
    })
}
