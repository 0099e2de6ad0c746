//! Values read in place: the layout alone decides, and nothing is copied.

ghost use Rattle.std.specs.Prelude.{◌≡◌, ◌≢◌, ◌≤◌, ◌++◌, length, IfOk, IfErr, IfSome, OnOk, MatchResult, is_ok};
ghost use Rattle.hdl_value.specs.Spelling.{spelling, value_at, references};
ghost use Rattle.hdl_value.specs.HandleNet.{second_at, net_value_at};
ghost use Rattle.hdl_value.specs.Reading.{Reads, octets_at};
ghost use Rattle.hdl_value.specs.Cut.{value_view, refs_view, IsWhole};
ghost use Rattle.hdl_value.specs.Fault.{IsSound, IsFirstFault};
ghost use Rattle.hdl_value.specs.Refs.{is_admin};
ghost use Rattle.hdl_value.specs.Tests.{is_sound};
ghost use Rattle.hdl_value.specs.Padding.{stored_by, stored_data};

use crate::data::without_padding;
use crate::fault::ValueFault;
use crate::fields::{octet_at, put_string, put_u32, put_u64, string_at, u32_at, u64_at};
use crate::fits::{octets_fit, string_fits};
use crate::kinds::HS_ADMIN;
use crate::read::{check, copy_of};
use crate::references::{RawReferences, references_at};
use crate::value::Value;
use crate::wire::Wire;
use std::alloc::{AllocError, Global};
use std::marker::Model;

/// The fields of a value, in place.
#[derive(Clone, Copy)]
pub(crate) struct RawValue<'a> {
    pub index: u32,
    pub kind: &'a [u8],
    pub bytes: &'a [u8],
    pub ttl: [u8; 5],
    pub permissions: u8,
    pub timestamp: u64,
    pub references: RawReferences<'a>,
}

/// A value in place. Contracts see it as that value, whichever layout it has. Its fields may exceed the limits, and its
/// data may be bad.
#[derive(Drop)]
pub struct CutValue<'a> {
    fields: RawValue<'a>,
}

impl<'a> Model for CutValue<'a> {
    ghost use Rattle.hdl_value.specs.Cut.{value_view, IsCut};
    ghost use Rattle.hdl_value.specs.ValueRecord.{ValueRecord};

    ghost Value = { ValueRecord };

    ghost view = { λ c. value_view c.fields };

    ghost invariant = { λ c. IsCut c.fields };
}

fn ttl_at(octets: &[u8]) -> Option<([u8; 5], &[u8])>
    ensures { Reads (λ x. (x.0, x.1.now)) result (octets_at 5 octets.now) }
{
    let (front, rest) = octets.split_first_chunk::<5>()?;
    Some((*front, rest))
}

#[tactic(auto, unfolding(crate::specs::Spelling::value_at))]
fn fields_at(octets: &[u8]) -> Option<(RawValue<'_>, &[u8])>
    ensures reads { Reads (λ x. (value_view x.0, x.1.now)) result (value_at octets.now) }
    ensures whole { IfSome result (λ x. IsWhole x.0.references) }
{
    let (index, rest) = u32_at(octets)?;
    let (kind, rest) = string_at(rest)?;
    let (bytes, rest) = string_at(rest)?;
    let (ttl, rest) = ttl_at(rest)?;
    let (permissions, rest) = octet_at(rest)?;
    let (timestamp, rest) = u64_at(rest)?;
    let (refs, rest) = references_at(rest)?;
    let value = RawValue {
        index,
        kind,
        bytes,
        ttl,
        permissions,
        timestamp,
        references: refs,
    };
    Some((value, rest))
}

/// The value at the front, and the octets after it. None if the octets don't hold the whole layout. Any index is
/// accepted, and any length or count that fits into the octets. Takes no memory. A length beyond the octets is refused.
pub fn cut_value(octets: &[u8]) -> Option<(CutValue<'_>, &[u8])>
    ensures { Reads (λ x. (x.0, x.1.now)) result (value_at octets.now) }
{
    let (fields, rest) = fields_at(octets)?;
    Some((CutValue { fields }, rest))
}

/// The start, in milliseconds, of the second in the first four octets, and the octets after it.
#[tactic(auto, unfolding(crate::specs::HandleNet::second_at))]
fn second_at(octets: &[u8]) -> Option<(u64, &[u8])>
    ensures { Reads (λ x. (x.0, x.1.now)) result (second_at octets.now) }
{
    let (second, rest) = u32_at(octets)?;
    Some((second as u64 * 1000, rest))
}

#[tactic(auto, unfolding(crate::specs::HandleNet::net_value_at))]
fn net_fields_at(octets: &[u8]) -> Option<(RawValue<'_>, &[u8])>
    ensures reads { Reads (λ x. (value_view x.0, x.1.now)) result (net_value_at octets.now) }
    ensures whole { IfSome result (λ x. IsWhole x.0.references) }
{
    let (index, rest) = u32_at(octets)?;
    let (timestamp, rest) = second_at(rest)?;
    let (ttl, rest) = ttl_at(rest)?;
    let (permissions, rest) = octet_at(rest)?;
    let (kind, rest) = string_at(rest)?;
    let (bytes, rest) = string_at(rest)?;
    let (refs, rest) = references_at(rest)?;
    let value = RawValue {
        index,
        kind,
        bytes,
        ttl,
        permissions,
        timestamp,
        references: refs,
    };
    Some((value, rest))
}

/// The same for the layout of the Handle.Net software.
pub(crate) fn cut_net_value(octets: &[u8]) -> Option<(CutValue<'_>, &[u8])>
    ensures { Reads (λ x. (x.0, x.1.now)) result (net_value_at octets.now) }
{
    let (fields, rest) = net_fields_at(octets)?;
    Some((CutValue { fields }, rest))
}

fn put_cut_references(out: &mut Vec<u8>, refs: &RawReferences<'_>) -> Result<(), AllocError>
    requires { IsWhole refs.now }
    ensures { OnOk result (out.new.items ≡ out.old.items ++ references (refs_view refs.now)) }
{
    octets_fit(refs.octets);
    put_u32(out, refs.count)?;
    out.extend_from_slice(refs.octets)?;
    Ok(())
}

/// The data to store, for a value that was sent in this layout.
fn stored_data<'a>(wire: Wire, fields: &RawValue<'a>) -> &'a [u8]
    ensures data { result.now ≡ stored_data wire (value_view fields.now) }
    ensures short { length result.now ≤ length fields.now.bytes.now }
{
    if wire == Wire::HandleNet && fields.kind == HS_ADMIN {
        without_padding(fields.bytes)
    } else {
        fields.bytes
    }
}

impl<'a> CutValue<'a> {
    /// Appends the value's encoding in our profile's layout. A refusal may leave a part of it.
    pub fn put_spelling(&self, out: &mut Vec<u8>) -> Result<(), AllocError>
        ensures { OnOk result (out.new.items ≡ out.old.items ++ spelling self.now) }
    {
        let fields = &self.fields;
        put_u32(out, fields.index)?;
        put_string(out, fields.kind)?;
        put_string(out, fields.bytes)?;
        out.extend_from_slice(&fields.ttl)?;
        out.push(fields.permissions)?;
        put_u64(out, fields.timestamp)?;
        put_cut_references(out, &fields.references)?;
        Ok(())
    }

    /// Its index. It may be 0.
    pub fn index(&self) -> u32
        ensures { result ≡ self.now.index }
    {
        self.fields.index
    }

    pub fn kind(&self) -> &'a [u8]
        ensures { result.now ≡ self.now.kind }
    {
        self.fields.kind
    }

    /// Whether its type is HS_ADMIN.
    pub fn is_admin(&self) -> bool
        ensures { result ≡ is_admin self.now }
    {
        self.fields.kind == HS_ADMIN
    }

    /// The value to store, for a value that was sent in this layout. HS_ADMIN data in the layout of the Handle.Net
    /// software loses the two octets of 0 after it.
    pub fn stored_by(&self, wire: Wire) -> CutValue<'a>
        ensures { result ≡ stored_by wire self.now }
    {
        let bytes = stored_data(wire, &self.fields);
        string_fits(bytes);
        CutValue {
            fields: RawValue {
                bytes,
                ..self.fields
            },
        }
    }

    /// Whether it keeps the limits and its data is good, or else its first fault. Takes no memory, and never returns
    /// the fault `Memory`.
    pub fn check(&self) -> Result<(), ValueFault>
        ensures fault { MatchResult result (λ _. IsSound self.now) (λ e. IsFirstFault self.now e × (e ≢ ValueFault.Memory)) }
        ensures test { is_ok result ≡ is_sound self.now }
    {
        check(&self.fields)
    }

    /// The value, if it keeps the limits and its data is good, or else its first fault. Memory is taken only if there
    /// is no fault.
    pub fn read(&self, alloc: Global) -> Result<Value, ValueFault>
        ensures value { IfOk result (λ v. v ≡ self.now) }
        ensures sound { IfOk result (λ v. IsSound v) }
        ensures fault { IfErr result (λ e. IsFirstFault self.now e) }
    {
        check(&self.fields)?;
        Ok(copy_of(alloc, &self.fields)?)
    }
}
