//! Names where they stand in an address.

ghost use Rattle.std.specs.Prelude.{◌≡◌, IfErr, IfOk, MatchResult, string_bytes};
ghost use Rattle.percent_encoding.specs.Percent.{percent_decode};
ghost use Rattle.hdl_name.specs.Fault.{IsFaultOf};
ghost use Rattle.hdl_name.specs.Name.{IsHandle};
ghost use Rattle.hdl_proxy.specs.Words.{text_of};

use hdl_name::{Name, NameFault};
use percent_encoding::percent_decode;
use std::alloc::{AllocError, Global};

/// The name that these octets are, or its fault, which is never want of memory.
pub fn read_name(alloc: Global, octets: &[u8]) -> Result<Result<Name, NameFault>, AllocError>
    ensures name { IfOk result (λ read. MatchResult read (λ name. (name ≡ octets.now) × IsHandle octets.now) (λ _. ¬ (IsHandle octets.now))) }
    ensures fault { IfOk result (λ read. IfErr read (IsFaultOf octets.now)) }
{
    match Name::read(alloc, octets) {
        Ok(name) => Ok(Ok(name)),
        Err(NameFault::Memory) => Err(AllocError),
        Err(fault) => Ok(Err(fault)),
    }
}

/// The octets that these stand for: their escapes are read once.
pub(crate) fn decode(alloc: Global, text: &[u8]) -> Result<Vec<u8>, AllocError>
    ensures { IfOk result (λ octets. octets.items ≡ percent_decode text.now) }
{
    let mut octets = Vec::new(alloc);
    percent_decode(text).append_to(&mut octets)?;
    Ok(octets)
}

/// The octets that a part of a path stands for: its escapes are read once.
pub fn unescape(alloc: Global, text: &str) -> Result<Vec<u8>, AllocError>
    ensures { IfOk result (λ octets. octets.items ≡ percent_decode text.now) }
{
    decode(alloc, text.as_bytes())
}

/// Octets as text: as they are if they are text, or else their hexadecimal digits.
pub(crate) fn text_of(alloc: Global, octets: &[u8]) -> Result<String, AllocError>
    ensures { IfOk result (λ text. string_bytes text ≡ text_of octets.now) }
{
    match str::from_utf8(octets) {
        Ok(text) => String::from_str(alloc, text),
        Err(_) => hex::encode(alloc, octets),
    }
}
