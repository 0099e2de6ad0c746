//! Names as people paste them: with a scheme, or with the address of a proxy in front.

ghost use Rattle.std.specs.Prelude.{◌≡◌, IfOk, MatchOption, option_copied};
ghost use Rattle.hdl_proxy.specs.Pasted.{IsBehind, IsBehindAddress, IsBehindDoi, IsBehindEither, IsBehindOwn, IsBehindScheme, IsBehindService, IsPasted, IsPastedName, IsWritten, Lacks, between_spaces};

use crate::names::decode;
use std::alloc::{AllocError, Global};

/// The text between the spaces at its ends. Octets that are no text stay as they are.
pub(crate) fn between_spaces(octets: &[u8]) -> &[u8]
    ensures { result.now ≡ between_spaces octets.now }
{
    match str::from_utf8(octets) {
        Ok(text) => text.trim().as_bytes(),
        Err(_) => octets,
    }
}

/// What follows this front, in any case of letters.
fn behind<'a>(text: &'a [u8], front: &[u8]) -> Option<&'a [u8]>
    ensures { MatchOption result (Lacks (IsBehind front.now text.now)) (λ rest. IsBehind front.now text.now rest.now) }
{
    let (found, rest) = text.split_at_checked(front.len())?;
    if found.eq_ignore_ascii_case(front) {
        Some(rest)
    } else {
        None
    }
}

fn behind_either<'a>(text: &'a [u8], first: &[u8], second: &[u8]) -> Option<&'a [u8]>
    ensures { MatchOption result (Lacks (IsBehindEither first.now second.now text.now)) (λ rest. IsBehindEither first.now second.now text.now rest.now) }
{
    match behind(text, first) {
        Some(rest) => Some(rest),
        None => behind(text, second),
    }
}

/// What follows the scheme of a handle.
fn behind_scheme(text: &[u8]) -> Option<&[u8]>
    ensures { MatchOption result (Lacks (IsBehindScheme text.now)) (λ rest. IsBehindScheme text.now rest.now) }
{
    behind_either(text, b"hdl:", b"doi:")
}

/// What follows the address of a DOI.
fn behind_doi(text: &[u8]) -> Option<&[u8]>
    ensures { MatchOption result (Lacks (IsBehindDoi text.now)) (λ rest. IsBehindDoi text.now rest.now) }
{
    match behind_either(text, b"https://doi.org/", b"http://doi.org/") {
        Some(rest) => Some(rest),
        None => behind_either(text, b"https://dx.doi.org/", b"http://dx.doi.org/"),
    }
}

/// What follows the address of a proxy that the world knows.
fn behind_address(text: &[u8]) -> Option<&[u8]>
    ensures { MatchOption result (Lacks (IsBehindAddress text.now)) (λ rest. IsBehindAddress text.now rest.now) }
{
    match behind_either(text, b"https://hdl.handle.net/", b"http://hdl.handle.net/") {
        Some(rest) => Some(rest),
        None => behind_doi(text),
    }
}

/// What follows the site's own address, if it has one.
fn behind_own<'a>(text: &'a [u8], own: Option<&str>) -> Option<&'a [u8]>
    ensures { MatchOption result (Lacks (IsBehindOwn (option_copied own.entry) text.now)) (λ rest. IsBehindOwn (option_copied own.entry) text.now rest.now) }
{
    match own {
        Some(own) => behind(text, own.as_bytes()),
        None => None,
    }
}

/// What follows the site's own address, or that of a proxy that the world knows.
fn behind_service<'a>(text: &'a [u8], own: Option<&str>) -> Option<&'a [u8]>
    ensures { MatchOption result (Lacks (IsBehindService (option_copied own.entry) text.now)) (λ rest. IsBehindService (option_copied own.entry) text.now rest.now) }
{
    match behind_own(text, own) {
        Some(rest) => Some(rest),
        None => behind_address(text),
    }
}

/// The name in a part of a path, with its escapes: what follows a scheme or a proxy's address, or where it has none all of it. A name
/// that itself begins so has its colon escaped, as every path that this crate writes has.
pub(crate) fn name_within(text: &[u8]) -> &[u8]
    ensures { IsWritten text.now result.now }
{
    if let Some(rest) = behind_scheme(text) {
        return rest;
    }
    match behind_address(text) {
        Some(rest) => rest,
        None => text,
    }
}

/// The name in a text that was pasted: what follows a scheme; of the address of this site or of a proxy the rest, its escapes read once; or where it has
/// neither all of it.
fn pasted_part(alloc: Global, text: &[u8], own: Option<&str>) -> Result<Vec<u8>, AllocError>
    ensures { IfOk result (λ name. IsPasted (option_copied own.entry) text.now name.items) }
{
    if let Some(rest) = behind_scheme(text) {
        return Vec::from_slice(alloc, rest);
    }
    match behind_service(text, own) {
        Some(rest) => decode(alloc, rest),
        None => Vec::from_slice(alloc, text),
    }
}

/// The name in a text that was pasted at the site of this address, if it has one. Spaces at its ends, and at those of all that was pasted, don't count. It need be no handle.
pub fn pasted_name(alloc: Global, own: Option<&str>, sent: &str) -> Result<Vec<u8>, AllocError>
    ensures { IfOk result (λ name. IsPastedName (option_copied own.entry) sent.now name.items) }
{
    let part = pasted_part(alloc, between_spaces(sent.as_bytes()), own)?;
    Vec::from_slice(alloc, between_spaces(&part))
}
