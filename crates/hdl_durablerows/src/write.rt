//! A write of a table, as its call names it and in memory of its own.

ghost use Rattle.std.specs.Prelude.{◌≡◌, IfOk, IsTrue};
ghost use Rattle.hdl_durablerows.specs.Writes.{write_of, write_in};

use hdl_name::Name;
use hdl_value::{RawRef, Value};
use std::alloc::{AllocError, Global};

/// A write of a table, as its call names it.
#[derive(Clone, Copy)]
pub enum Write<'a> {
    Create(&'a Name, &'a [Value]),
    Add(&'a Name, &'a [Value]),
    Modify(&'a Name, &'a [Value]),
    Remove(&'a Name, &'a [u32]),
    Delete(&'a Name),
}

/// A write of a table, in memory of its own.
#[derive(Drop)]
pub enum OwnedWrite {
    Create(Name, Vec<Value>),
    Add(Name, Vec<Value>),
    Modify(Name, Vec<Value>),
    Remove(Name, Vec<u32>),
    Delete(Name),
}

pub(crate) fn copy_of_name(alloc: Global, name: &Name) -> Result<Name, AllocError>
    ensures { IfOk result (λ copy. copy ≡ name.now) }
{
    // A name reads as itself, so memory alone is refused.
    Name::read(alloc, name.sent()).map_err(|_| AllocError)
}

fn copy_of_values(alloc: Global, values: &[Value]) -> Result<Vec<Value>, AllocError>
    ensures { IfOk result (λ copy. copy.items ≡ values.now) }
{
    let mut copy = Vec::new(alloc);
    for value in values {
        copy.push(value.copy(alloc)?)?;
    }
    Ok(copy)
}

fn is_same_reference(one: &RawRef, other: &RawRef) -> bool
    ensures { IsTrue result → one.now ≡ other.now }
{
    one.index == other.index && one.handle.as_slice() == other.handle.as_slice()
}

fn are_same_references(some: &[RawRef], others: &[RawRef]) -> bool
    ensures { IsTrue result → some.now ≡ others.now }
{
    if some.len() != others.len() {
        return false;
    }
    for i in 0..some.len() {
        if !is_same_reference(&some[i], &others[i]) {
            return false;
        }
    }
    true
}

fn is_same_value(one: &Value, other: &Value) -> bool
    ensures { IsTrue result → one.now ≡ other.now }
{
    one.index == other.index
        && one.kind.as_slice() == other.kind.as_slice()
        && one.bytes.as_slice() == other.bytes.as_slice()
        && one.ttl == other.ttl
        && one.permissions == other.permissions
        && one.timestamp == other.timestamp
        && are_same_references(one.references.as_slice(), other.references.as_slice())
}

fn are_same_values(some: &[Value], others: &[Value]) -> bool
    ensures { IsTrue result → some.now ≡ others.now }
{
    if some.len() != others.len() {
        return false;
    }
    for i in 0..some.len() {
        if !is_same_value(&some[i], &others[i]) {
            return false;
        }
    }
    true
}

impl OwnedWrite {
    /// The same write, in memory of its own.
    pub fn copy(alloc: Global, write: &Write<'_>) -> Result<OwnedWrite, AllocError>
        ensures { IfOk result (λ own. write_in own ≡ write_of write.now) }
    {
        Ok(match write {
            Write::Create(name, values) => {
                OwnedWrite::Create(copy_of_name(alloc, name)?, copy_of_values(alloc, values)?)
            }
            Write::Add(name, values) => {
                OwnedWrite::Add(copy_of_name(alloc, name)?, copy_of_values(alloc, values)?)
            }
            Write::Modify(name, values) => {
                OwnedWrite::Modify(copy_of_name(alloc, name)?, copy_of_values(alloc, values)?)
            }
            Write::Remove(name, indexes) => {
                OwnedWrite::Remove(copy_of_name(alloc, name)?, Vec::from_slice(alloc, indexes)?)
            }
            Write::Delete(name) => OwnedWrite::Delete(copy_of_name(alloc, name)?),
        })
    }

    /// The write, as its call names it.
    pub fn as_write(&self) -> Write<'_>
        ensures { write_of result ≡ write_in self.now }
    {
        match self {
            OwnedWrite::Create(name, values) => Write::Create(name, values.as_slice()),
            OwnedWrite::Add(name, values) => Write::Add(name, values.as_slice()),
            OwnedWrite::Modify(name, values) => Write::Modify(name, values.as_slice()),
            OwnedWrite::Remove(name, indexes) => Write::Remove(name, indexes.as_slice()),
            OwnedWrite::Delete(name) => Write::Delete(name),
        }
    }

    /// Whether it is this write: of this handle, in canonical form, and with these values.
    pub fn is(&self, write: &Write<'_>) -> bool
        ensures { IsTrue result → write_in self.now ≡ write_of write.now }
    {
        match (self, write) {
            (OwnedWrite::Create(own, some), Write::Create(name, others))
            | (OwnedWrite::Add(own, some), Write::Add(name, others))
            | (OwnedWrite::Modify(own, some), Write::Modify(name, others)) => {
                own.canon() == name.canon() && are_same_values(some.as_slice(), others)
            }
            (OwnedWrite::Remove(own, some), Write::Remove(name, others)) => {
                own.canon() == name.canon() && some.as_slice() == *others
            }
            (OwnedWrite::Delete(own), Write::Delete(name)) => own.canon() == name.canon(),
            _ => false,
        }
    }
}
