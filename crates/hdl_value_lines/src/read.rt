//! Reading of lines.

ghost use Rattle.std.specs.Prelude.{◌≡◌, [], IfOk, IfErr, OnOk};
ghost use Rattle.hdl_value.specs.Spelling.{CanBeSpelt};
ghost use Rattle.hdl_value.specs.Fault.{IsSound};
ghost use Rattle.hdl_value_lines.specs.Lines.{value_of, value_by_type, value_in, value_in_digits, value_in_fields, value_in_octets, ttl_fault, IsFaultIn};

use crate::data::{Format, data_by, data_in, octets_in};
use crate::fault::LineFault;
use crate::fields::{cut_at, is_word, number_at, number_in, permissions_at, word_at};
use hdl_limits::{DATA_MAX, Octets, TYPE_MAX};
use hdl_value::{RawRefs, Value, ValueFault, cut_value, value_fits, write_value};
use std::alloc::Global;

/// The value that the octets spell, without its timestamp.
#[tactic(auto, unfolding(crate::specs::Lines::value_in_octets))]
fn value_in_octets(alloc: Global, octets: &[u8]) -> Result<Value, LineFault>
    ensures value { IfOk result (λ v. value_in_octets octets.now ≡ Ok v) }
    ensures sound { IfOk result (λ v. IsSound v) }
    ensures fault { IfErr result (λ e. IsFaultIn (value_in_octets octets.now) e) }
    ensures can_be_spelt { IfOk result (λ v. CanBeSpelt v) }
{
    let Some((cut, [])) = cut_value(octets) else {
        return Err(LineFault::Octets);
    };
    if let Err(fault) = cut.check() {
        return Err(LineFault::Value(fault));
    }
    let Ok(value) = cut.read(alloc) else {
        return Err(LineFault::Memory);
    };
    Ok(Value {
        timestamp: 0,
        ..value
    })
}

/// The value that digits spell.
#[tactic(auto, unfolding(crate::specs::Lines::value_in_digits))]
fn value_in_digits(alloc: Global, digits: &[u8]) -> Result<Value, LineFault>
    ensures value { IfOk result (λ v. value_in_digits digits.now ≡ Ok v) }
    ensures sound { IfOk result (λ v. IsSound v) }
    ensures fault { IfErr result (λ e. IsFaultIn (value_in_digits digits.now) e) }
    ensures can_be_spelt { IfOk result (λ v. CanBeSpelt v) }
{
    match octets_in(alloc, digits)? {
        Some(octets) => value_in_octets(alloc, &octets),
        None => Err(LineFault::Octets),
    }
}

/// Refuses a value that breaks a limit or whose data is bad.
fn check(alloc: Global, value: &Value) -> Result<(), LineFault>
    requires no_references { value.now.references ≡ [] }
    ensures sound { OnOk result (IsSound value.now) }
    ensures fault { IfErr result (λ e. IsFaultIn (Ok value.now) e) }
    ensures can_be_spelt { OnOk result (CanBeSpelt value.now) }
{
    if value.index == 0 {
        return Err(LineFault::Value(ValueFault::IndexZero));
    }
    if value.kind.as_slice().len() > TYPE_MAX {
        return Err(LineFault::Value(ValueFault::TypeLong));
    }
    if value.bytes.as_slice().len() > DATA_MAX {
        return Err(LineFault::Value(ValueFault::DataLong));
    }
    let octets = write_value(alloc, value)?;
    value_fits(value);
    let Some((cut, _)) = cut_value(&octets) else {
        unreachable!()
    };
    match cut.check() {
        Ok(()) => Ok(()),
        Err(fault) => Err(LineFault::Value(fault)),
    }
}

/// The value of these parts, if it is sound.
fn sound_value(
    alloc: Global,
    index: u32,
    kind: &[u8],
    ttl: u32,
    permissions: u8,
    bytes: Vec<u8>,
) -> Result<Value, LineFault>
    ensures value { IfOk result (λ v. v ≡ value_of index kind.now ttl permissions bytes.items) }
    ensures sound { IfOk result (λ v. IsSound v) }
    ensures fault { IfErr result (λ e. IsFaultIn (Ok (value_of index kind.now ttl permissions bytes.items)) e) }
    ensures can_be_spelt { IfOk result (λ v. CanBeSpelt v) }
{
    let [a, b, c, d] = ttl.to_be_bytes();
    let value = Value {
        index,
        kind: Octets::new(Vec::from_slice(alloc, kind)?),
        bytes: Octets::new(bytes),
        ttl: [0, a, b, c, d],
        permissions,
        timestamp: 0,
        references: RawRefs::new(Vec::new(alloc)),
    };
    check(alloc, &value)?;
    Ok(value)
}

/// The value of these parts, with timestamp 0. Its data stands in words: as in the formats `ADMIN` and `LIST` of HS_ADMIN and of
/// HS_VLIST, and any other as text on one line. Refuses a type that is no word, then data that isn't so written, then what is wrong with
/// the value itself.
#[tactic(auto, unfolding(crate::specs::Lines::value_by_type))]
pub fn value_by_type(
    alloc: Global,
    index: u32,
    kind: &[u8],
    ttl: u32,
    permissions: u8,
    text: &[u8],
) -> Result<Value, LineFault>
    ensures value { IfOk result (λ v. value_by_type index kind.now ttl permissions text.now ≡ Ok v) }
    ensures sound { IfOk result (λ v. IsSound v) }
    ensures fault { IfErr result (λ e. IsFaultIn (value_by_type index kind.now ttl permissions text.now) e) }
    ensures can_be_spelt { IfOk result (λ v. CanBeSpelt v) }
{
    if !is_word(kind) {
        return Err(LineFault::Type);
    }
    let bytes = data_by(alloc, Format::of(kind), text)?;
    sound_value(alloc, index, kind, ttl, permissions, bytes)
}

/// What is wrong where a TTL should stand: the data is hidden, or it is no number.
fn ttl_fault(text: &[u8]) -> LineFault
    ensures { result ≡ ttl_fault text.now }
{
    let (word, _) = cut_at(text, b' ').unwrap_or((text, b""));
    if word == b"HIDDEN".as_slice() {
        LineFault::Hidden
    } else {
        LineFault::Ttl
    }
}

/// The value of the fields after its index.
#[tactic(auto, unfolding(crate::specs::Lines::value_in_fields))]
fn value_in_fields(alloc: Global, index: u32, fields: &[u8]) -> Result<Value, LineFault>
    ensures value { IfOk result (λ v. value_in_fields index fields.now ≡ Ok v) }
    ensures sound { IfOk result (λ v. IsSound v) }
    ensures fault { IfErr result (λ e. IsFaultIn (value_in_fields index fields.now) e) }
    ensures can_be_spelt { IfOk result (λ v. CanBeSpelt v) }
{
    let Some((kind, rest)) = word_at(fields) else {
        return Err(LineFault::Type);
    };
    let Some((ttl, rest)) = number_at(rest) else {
        return Err(ttl_fault(rest));
    };
    let Some((permissions, rest)) = permissions_at(rest) else {
        return Err(LineFault::Permissions);
    };
    let bytes = data_in(alloc, rest)?;
    sound_value(alloc, index, kind, ttl, permissions, bytes)
}

/// Reads the line of a value, which has no line end.
///
/// Refuses with the first field that is wrong, from the left; then what is wrong with the value itself, as `hdl_value` says it: index
/// 0, a limit that is broken, data of HS_ADMIN or HS_VLIST that is none. `HIDDEN` can't be read, after the type or as a format. The format says how the data is
/// written, whatever the type is. Hexadecimal digits may be in either case. The value has timestamp 0.
#[tactic(auto, unfolding(crate::specs::Lines::value_in))]
pub fn read_value_line(alloc: Global, line: &[u8]) -> Result<Value, LineFault>
    ensures value { IfOk result (λ v. value_in line.now ≡ Ok v) }
    ensures sound { IfOk result (λ v. IsSound v) }
    ensures fault { IfErr result (λ e. IsFaultIn (value_in line.now) e) }
    ensures can_be_spelt { IfOk result (λ v. CanBeSpelt v) }
{
    let Some((first, rest)) = cut_at(line, b' ') else {
        return Err(LineFault::Index);
    };
    if first == b"OCTETS".as_slice() {
        return value_in_digits(alloc, rest);
    }
    match number_in(first) {
        Some(index) => value_in_fields(alloc, index, rest),
        None => Err(LineFault::Index),
    }
}
