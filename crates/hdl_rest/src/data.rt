//! The data of a value in JSON, by its format.

ghost use Rattle.std.specs.Prelude.{◌≡◌, ◌⊎◌, ◌<◌, ◌^◌, length, map, IfOk, IfErr, IfSome, option_map};
ghost use Rattle.std.specs.List.{AllByRecursion};
ghost use Rattle.hdl_name.specs.Tests.{is_handle};
ghost use Rattle.hdl_value.specs.Reading.{Reads};
ghost use Rattle.serde_json.specs.View.{view};
ghost use Rattle.hdl_value_lines.specs.Data.{hex_in};
ghost use Rattle.hdl_rest.specs.Data.{format_named, reference_in, admin_parts, admin_in, references_from, list_in, base64_in, digits_in, data_by, formatted_in, data_in, data_fault};

use crate::fault::EntryFault;
use crate::fields::{number_of, text_of};
use base64::DecodeAllocError;
use base64::engine::general_purpose::STANDARD;
use hdl_limits::Octets;
use hdl_name::is_name;
use hdl_value::{RawRef, put_references, put_string, put_u16, put_u32};
use hdl_value_lines::mask_in;
use hex::FromHexError;
use serde_json::Value as Json;
use std::alloc::{AllocError, Global};

/// How the data of a value is written in JSON.
#[derive(Clone, Copy, PartialEq, Eq)]
enum Format {
    Text,
    Base64,
    Hex,
    Admin,
    List,
    Key,
}

impl Format {
    /// The format of this name.
    fn of_name(word: &str) -> Option<Format>
        ensures { result ≡ format_named word.now }
    {
        match word {
            "string" => Some(Format::Text),
            "base64" => Some(Format::Base64),
            "hex" => Some(Format::Hex),
            "admin" => Some(Format::Admin),
            "vlist" => Some(Format::List),
            "key" => Some(Format::Key),
            _ => None,
        }
    }

    /// What is wrong with data that isn't of this format.
    fn fault(self) -> EntryFault
        ensures { result ≡ data_fault self }
    {
        match self {
            Format::Text | Format::Key => EntryFault::Text,
            Format::Base64 => EntryFault::Base64,
            Format::Hex => EntryFault::Hex,
            Format::Admin => EntryFault::Admin,
            Format::List => EntryFault::List,
        }
    }
}

fn text_octets(alloc: Global, json: &Json) -> Result<Option<Vec<u8>>, AllocError>
    ensures { IfOk result (λ o. option_map (λ v. v.items) o ≡ data_by Format.Text (view json.now)) }
{
    match json.as_str() {
        Some(text) => Ok(Some(Vec::from_slice(alloc, text.as_bytes())?)),
        None => Ok(None),
    }
}

fn base64_octets(alloc: Global, json: &Json) -> Result<Option<Vec<u8>>, AllocError>
    ensures { IfOk result (λ o. option_map (λ v. v.items) o ≡ base64_in (view json.now)) }
{
    let Some(text) = json.as_str() else {
        return Ok(None);
    };
    match STANDARD.decode(alloc, text.as_bytes()) {
        Ok(octets) => Ok(Some(octets)),
        Err(DecodeAllocError::OutOfMemory) => Err(AllocError),
        Err(_) => Ok(None),
    }
}

fn hex_octets(alloc: Global, json: &Json) -> Result<Option<Vec<u8>>, AllocError>
    ensures { IfOk result (λ o. option_map (λ v. v.items) o ≡ digits_in (view json.now)) }
{
    let Some(digits) = json.as_str() else {
        return Ok(None);
    };
    match hex::decode(alloc, digits.as_bytes()) {
        Ok(octets) => Ok(Some(octets)),
        Err(FromHexError::OutOfMemory) => Err(AllocError),
        Err(_) => Ok(None),
    }
}

/// Whether these are the name of a handle.
pub(crate) fn is_named(handle: &[u8]) -> bool
    ensures { result ≡ is_handle handle.now }
{
    is_name(handle)
}

/// A handle that is a name, and an index.
#[tactic(auto, unfolding(crate::specs::Data::reference_in))]
fn reference_in(json: &Json) -> Option<(&str, u32)>
    ensures reads { Reads (λ x. record { handle = x.0.now; index = x.1 }) result (reference_in (view json.now)) }
    ensures short { IfSome result (λ x. length x.0.now < 2 ^ 32) }
{
    let handle = text_of(json, "handle")?;
    let index = number_of(json, "index")?;
    if !is_named(handle.as_bytes()) {
        return None;
    }
    Some((handle, index))
}

/// An administrator: its permissions, and the reference to its key.
#[tactic(auto, unfolding(crate::specs::Data::admin_parts))]
fn admin_parts(json: &Json) -> Option<(u16, (&str, u32))>
    ensures reads { Reads (λ x. (x.0, record { handle = x.1.0.now; index = x.1.1 })) result (admin_parts (view json.now)) }
    ensures short { IfSome result (λ x. length x.1.0.now < 2 ^ 32) }
{
    let key = reference_in(json)?;
    let digits = text_of(json, "permissions")?;
    Some((mask_in(digits.as_bytes())?, key))
}

fn admin_octets(alloc: Global, json: &Json) -> Result<Option<Vec<u8>>, AllocError>
    ensures { IfOk result (λ o. option_map (λ v. v.items) o ≡ admin_in (view json.now)) }
{
    let Some((mask, (handle, index))) = admin_parts(json) else {
        return Ok(None);
    };
    let mut data = Vec::new(alloc);
    put_u16(&mut data, mask)?;
    put_string(&mut data, handle.as_bytes())?;
    put_u32(&mut data, index)?;
    Ok(Some(data))
}

/// The references that these are.
fn references_in(alloc: Global, list: &[Json]) -> Result<Option<Vec<RawRef>>, AllocError>
    ensures reads { IfOk result (λ o. option_map (λ v. v.items) o ≡ references_from (map view list.now)) }
    ensures short { IfOk result (λ o. IfSome o (λ v. AllByRecursion (λ r. length r.handle < 2 ^ 32) v.items)) }
{
    let mut references = Vec::new(alloc);
    for json in list {
        let Some((handle, index)) = reference_in(json) else {
            return Ok(None);
        };
        let handle = Octets::new(Vec::from_slice(alloc, handle.as_bytes())?);
        references.push(RawRef { handle, index })?;
    }
    Ok(Some(references))
}

#[tactic(auto, using(crate::proofs::Items::each_items_of))]
fn list_octets(alloc: Global, json: &Json) -> Result<Option<Vec<u8>>, AllocError>
    ensures { IfOk result (λ o. option_map (λ v. v.items) o ≡ list_in (view json.now)) }
{
    let Some(list) = json.as_array() else {
        return Ok(None);
    };
    let Some(references) = references_in(alloc, list)? else {
        return Ok(None);
    };
    if u32::try_from(references.len()).is_err() {
        return Ok(None);
    }
    let mut data = Vec::new(alloc);
    put_references(&mut data, &references)?;
    Ok(Some(data))
}

/// What a format says. A key is the text of a secret: no public keys are kept here.
fn octets_by(alloc: Global, format: Format, json: &Json) -> Result<Option<Vec<u8>>, AllocError>
    ensures { IfOk result (λ o. option_map (λ v. v.items) o ≡ data_by format (view json.now)) }
{
    match format {
        Format::Text | Format::Key => text_octets(alloc, json),
        Format::Base64 => base64_octets(alloc, json),
        Format::Hex => hex_octets(alloc, json),
        Format::Admin => admin_octets(alloc, json),
        Format::List => list_octets(alloc, json),
    }
}

/// Data with its format.
#[tactic(auto, unfolding(crate::specs::Data::formatted_in))]
fn formatted_in(alloc: Global, json: &Json) -> Result<Vec<u8>, EntryFault>
    ensures value { IfOk result (λ v. formatted_in (view json.now) ≡ Ok v.items) }
    ensures fault { IfErr result (λ e. (e ≡ EntryFault.Memory) ⊎ (formatted_in (view json.now) ≡ Err e)) }
{
    let Some(name) = text_of(json, "format") else {
        return Err(EntryFault::Data);
    };
    let Some(told) = json.get("value") else {
        return Err(EntryFault::Data);
    };
    let Some(format) = Format::of_name(name) else {
        return Err(EntryFault::Format);
    };
    octets_by(alloc, format, told)?.ok_or(format.fault())
}

/// The data that the JSON says: text, or an object of `format` and `value`.
#[tactic(auto, unfolding(crate::specs::Data::data_in))]
pub(crate) fn data_in(alloc: Global, json: &Json) -> Result<Vec<u8>, EntryFault>
    ensures value { IfOk result (λ v. data_in (view json.now) ≡ Ok v.items) }
    ensures fault { IfErr result (λ e. (e ≡ EntryFault.Memory) ⊎ (data_in (view json.now) ≡ Err e)) }
{
    match json.as_str() {
        Some(text) => Ok(Vec::from_slice(alloc, text.as_bytes())?),
        None => formatted_in(alloc, json),
    }
}
