//! The four kinds of line of a tenants text, by their fields.

ghost use Rattle.std.specs.Prelude.{◌≡◌, ◌≢◌, ◌↔◌, ℕ, List, [], ◌∷◌, codes, map, IsTrue, IfOk, IfErr, MatchOption};
ghost use Rattle.std.specs.Str.{str_to_ascii_lowercase};
ghost use Rattle.hdl_auth.specs.declared.algorithm.Algorithm.{Algorithm};
ghost use Rattle.hdl_name.specs.Name.{IsHandle};
ghost use Rattle.hdl_value.specs.declared.value.Value.{Value};
ghost use Rattle.hdl_tenants.specs.Register as register;
ghost use Rattle.hdl_tenants.specs.Register.{IsPublisherName, IsPrefix};
ghost use Rattle.hdl_tenants.specs.Lines as lines;
ghost use Rattle.hdl_tenants.specs.Lines.{IsPublisherLine, IsPrefixLine, IsSiteText, IsValueText, algorithm_in, algorithm_named, wire_in};
ghost use Rattle.hdl_tenants.specs.Text.{IsSkipped};
ghost use Rattle.hdl_tenants.specs.Steps.{IsNameFault, IsDigitsFault, IsSiteTextFault};

use crate::fault::TenantFault;
use crate::numerals::decimal_u16;
use crate::sites::SITE_MAX;
use hdl_auth::algorithm::Algorithm;
use hdl_limits::{LANES, PUBLISHER_NAME_MAX};
use hdl_name::{Name, is_authority, is_name};
use hdl_value::{Value, ValueFault, Wire, read_value};
use hex::FromHexError;
use std::alloc::{AllocError, Global};

/// A publisher as its line names it: its name, how many lanes it has, its port, and the layout of values on its lanes.
#[derive(Clone, Copy)]
pub struct PublisherLine<'a> {
    pub name: &'a str,
    pub lanes: u16,
    pub port: u16,
    pub wire: Wire,
}

/// A prefix, the name of its publisher, and its hash function on that publisher's lanes.
#[derive(Clone, Copy)]
pub struct PrefixLine<'a> {
    pub prefix: &'a str,
    pub name: &'a str,
    pub algorithm: Algorithm,
}

/// The name of a publisher and the hexadecimal digits of its site information.
#[derive(Clone, Copy)]
pub struct SiteLine<'a> {
    pub name: &'a str,
    pub digits: &'a str,
}

/// A handle and the hexadecimal digits of a value.
#[derive(Clone, Copy)]
pub struct ValueLine<'a> {
    pub handle: &'a str,
    pub digits: &'a str,
}

/// Whether the text is 1 to 32 of `a-z`, `0-9` and `-`.
fn is_publisher_name(name: &str) -> bool
    ensures { IsTrue result ↔ IsPublisherName name.now }
{
    !name.is_empty()
        && name.len() <= PUBLISHER_NAME_MAX
        && name.as_bytes().iter().all(|octet| octet.is_ascii_lowercase()
            || octet.is_ascii_digit()
            || *octet == b'-')
}

/// Whether no letter of the text is in upper case.
fn is_lower(text: &str) -> bool
    ensures { IsTrue result ↔ (str_to_ascii_lowercase text.now ≡ text.now) }
{
    text.as_bytes()
        .iter()
        .all(|octet| octet.to_ascii_lowercase() == *octet)
}

/// Whether the text is a naming authority in canonical form, other than `0.na`.
fn is_prefix(text: &str) -> bool
    ensures { IsTrue result ↔ IsPrefix text.now }
{
    is_authority(text) && is_lower(text) && text != "0.na"
}

/// The layout by the fields behind a publisher's port.
fn wire_in(fields: &[&str]) -> Option<Wire>
    ensures { result ≡ wire_in (map (λ field. field.now) fields.now) }
{
    match fields {
        [] => Some(Wire::Profile),
        [field] => {
            if *field == "handle-net" {
                Some(Wire::HandleNet)
            } else {
                None
            }
        }
        _ => None,
    }
}

/// What the fields of a line `publisher NAME LANES PORT`, or of one with a field more, say.
pub fn publisher_of<'a>(fields: &[&'a str]) -> Option<PublisherLine<'a>>
    ensures { MatchOption result ((p : register.Publisher) → ¬ IsPublisherLine (map (λ field. field.now) fields.now) p)
        (λ p. IsPublisherLine (map (λ field. field.now) fields.now) (record { name = p.name.now; lanes = p.lanes; port = p.port; wire = p.wire })) }
{
    let [word, name, lanes, port, more @ ..] = fields else {
        return None;
    };
    if *word != "publisher" || !is_publisher_name(name) {
        return None;
    }
    let lanes = decimal_u16(lanes)?;
    let port = decimal_u16(port)?;
    if lanes < 2 || lanes as usize > LANES || port == 0 {
        return None;
    }
    let wire = wire_in(more)?;
    Some(PublisherLine {
        name,
        lanes,
        port,
        wire,
    })
}

/// The hash function that a field names: `2` or `3`.
fn algorithm_named(field: &str) -> Option<Algorithm>
    ensures { result ≡ algorithm_named field.now }
{
    if field == "2" {
        Some(Algorithm::Sha1)
    } else if field == "3" {
        Some(Algorithm::Sha256)
    } else {
        None
    }
}

/// The hash function by the fields behind a prefix and its publisher.
fn algorithm_in(fields: &[&str]) -> Option<Algorithm>
    ensures { result ≡ algorithm_in (map (λ field. field.now) fields.now) }
{
    match fields {
        [] => Some(Algorithm::Sha1),
        [field] => algorithm_named(field),
        _ => None,
    }
}

/// What the fields of a line `prefix PREFIX NAME`, or of one with a field more, say.
pub fn prefix_of<'a>(fields: &[&'a str]) -> Option<PrefixLine<'a>>
    ensures { MatchOption result ((prefix name : List ℕ) (a : Algorithm) → ¬ IsPrefixLine (map (λ field. field.now) fields.now) prefix name a)
        (λ p. IsPrefixLine (map (λ field. field.now) fields.now) p.prefix.now p.name.now p.algorithm) }
{
    let [word, prefix, name, more @ ..] = fields else {
        return None;
    };
    if *word != "prefix" || !is_prefix(prefix) {
        return None;
    }
    let algorithm = algorithm_in(more)?;
    Some(PrefixLine {
        prefix,
        name,
        algorithm,
    })
}

/// The second and third field of a line `site NAME HEX`.
pub fn site_of<'a>(fields: &[&'a str]) -> Option<SiteLine<'a>>
    ensures { MatchOption result ((name digits : List ℕ) → map (λ field. field.now) fields.now ≢ codes "site" ∷ name ∷ digits ∷ [])
        (λ s. map (λ field. field.now) fields.now ≡ codes "site" ∷ s.name.now ∷ s.digits.now ∷ []) }
{
    let [word, name, digits] = fields else {
        return None;
    };
    if *word != "site" {
        return None;
    }
    Some(SiteLine { name, digits })
}

/// The second and third field of a line `value HANDLE HEX`.
pub fn value_of<'a>(fields: &[&'a str]) -> Option<ValueLine<'a>>
    ensures { MatchOption result ((handle digits : List ℕ) → map (λ field. field.now) fields.now ≢ codes "value" ∷ handle ∷ digits ∷ [])
        (λ v. map (λ field. field.now) fields.now ≡ codes "value" ∷ v.handle.now ∷ v.digits.now ∷ []) }
{
    let [word, handle, digits] = fields else {
        return None;
    };
    if *word != "value" {
        return None;
    }
    Some(ValueLine { handle, digits })
}

/// The name of the handle.
pub fn name_of(alloc: Global, handle: &str) -> Result<Name, TenantFault>
    ensures name { IfOk result (λ name. name ≡ handle.now) }
    ensures named { IfOk result (λ _. IsHandle handle.now) }
    ensures fault { IfErr result (λ e. IsNameFault handle.now e) }
{
    if !is_name(handle.as_bytes()) {
        return Err(TenantFault::BadLine);
    }
    let Ok(name) = Name::read(alloc, handle.as_bytes()) else {
        return Err(TenantFault::Memory);
    };
    Ok(name)
}

/// The one value that the digits spell, with nothing behind it.
pub fn value_text(alloc: Global, text: &str) -> Result<Value, TenantFault>
    ensures value { IfOk result (λ v. IsValueText text.now v) }
    ensures fault { IfErr result (λ e. IsDigitsFault text.now e) }
{
    let octets = match hex::decode(alloc, text) {
        Ok(octets) => octets,
        Err(fault) => {
            if fault == FromHexError::OutOfMemory {
                return Err(TenantFault::Memory);
            }
            return Err(TenantFault::BadLine);
        }
    };
    match read_value(alloc, &octets) {
        Ok((value, count)) => {
            if count != octets.len() {
                return Err(TenantFault::BadLine);
            }
            Ok(value)
        }
        Err(fault) => {
            if fault == ValueFault::Memory {
                return Err(TenantFault::Memory);
            }
            Err(TenantFault::BadLine)
        }
    }
}

/// The octets of site information that the digits spell.
pub fn site_text(alloc: Global, text: &str) -> Result<Vec<u8>, TenantFault>
    ensures octets { IfOk result (λ octets. IsSiteText text.now octets.items) }
    ensures fault { IfErr result (λ e. IsSiteTextFault text.now e) }
{
    let octets = match hex::decode(alloc, text) {
        Ok(octets) => octets,
        Err(fault) => {
            if fault == FromHexError::OutOfMemory {
                return Err(TenantFault::Memory);
            }
            return Err(TenantFault::BadLine);
        }
    };
    if octets.len() > SITE_MAX {
        return Err(TenantFault::BadLine);
    }
    Ok(octets)
}

/// The fields of a line: what stands between its single spaces.
pub fn fields_of<'a>(alloc: Global, line: &'a str) -> Result<Vec<&'a str>, AllocError>
    ensures { IfOk result (λ fields. map (λ field. field.now) fields.items ≡ lines.fields_of line.now) }
{
    line.split(' ').collect(alloc)
}

/// Whether the line is empty or begins with `#`.
pub fn is_skipped(line: &str) -> bool
    ensures { IsTrue result ↔ IsSkipped line.now }
{
    match line.as_bytes().first() {
        Some(octet) => *octet == b'#',
        None => true,
    }
}
