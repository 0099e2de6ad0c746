//! Which other handle may be meant by the name of one that isn't there.

ghost use Rattle.std.specs.Prelude.{◌≡◌, IfOk, MatchOption};
ghost use Rattle.hdl_proxy.specs.Guess.{IsGuess, IsOther, bare, is_added};

use crate::alias::is_among;
use crate::names::read_name;
use hdl_name::Name;
use std::alloc::{AllocError, Global};

/// What people put at the end of a name: the end of a sentence, a bracket, a quote, or a folder's slash.
const ADDED: &[u8] = b".,;:!?)]}>\"'/";

fn is_added(octet: u8) -> bool
    ensures { result ≡ is_added octet }
{
    ADDED.contains(&octet)
}

/// The name without what people put at its end.
fn bare(mut name: &[u8]) -> &[u8]
    ensures { result.now ≡ bare name.entry.now }
{
    while let [rest @ .., last] = name
        && is_added(*last)
    {
        name = rest;
    }
    name
}

/// The handle of this name, if it is one that wasn't tried.
fn other_handle(alloc: Global, tried: &[Name], name: &[u8]) -> Result<Option<Name>, AllocError>
    ensures { IfOk result (λ o. MatchOption o (¬ (IsOther tried.now name.now)) (λ other. IsOther tried.now name.now × (other ≡ name.now))) }
{
    match read_name(alloc, name)? {
        Ok(other) if !is_among(tried, &other) => Ok(Some(other)),
        _ => Ok(None),
    }
}

/// The handle that may be meant by this name, if one is left that wasn't tried: the name without what people put at its end, or the same in small letters or in capital ones.
pub(crate) fn guess_after(
    alloc: Global,
    tried: &[Name],
    asked: &[u8],
) -> Result<Option<Name>, AllocError>
    ensures { IfOk result (IsGuess tried.now asked.now) }
{
    let bare = bare(asked);
    if let Some(other) = other_handle(alloc, tried, bare)? {
        return Ok(Some(other));
    }
    let small = bare.to_ascii_lowercase(alloc)?;
    if let Some(other) = other_handle(alloc, tried, &small)? {
        return Ok(Some(other));
    }
    let capital = bare.to_ascii_uppercase(alloc)?;
    other_handle(alloc, tried, &capital)
}
