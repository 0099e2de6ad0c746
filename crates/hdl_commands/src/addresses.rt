//! Addresses, and to which of them a browser is led.

ghost use Rattle.std.specs.Prelude.{◌≡◌, ◌↔◌, ◌++◌, IsTrue, IfOk, drop};
ghost use Rattle.hdl_commands.specs.Addresses.{Begins, IsFollowed, KeepsFollowed, KeepsWeb, StaysFollowed, StaysOf};

use std::alloc::{AllocError, Global};

/// Whether octets begin with these, in letters of any case.
fn begins(octets: &[u8], front: &[u8]) -> bool
    ensures { IsTrue result ↔ Begins octets.now front.now }
{
    match octets.split_at_checked(front.len()) {
        Some((found, _)) => found.eq_ignore_ascii_case(front),
        None => false,
    }
}

/// Whether a browser is led to an address that begins so: with `http://`, `https://`, `ftp://`, `mailto:` or `doi:`, as `hdl proxy` has it.
pub(crate) fn is_followed(octets: &[u8]) -> bool
    ensures { IsTrue result ↔ IsFollowed octets.now }
{
    begins(octets, b"http://")
        || begins(octets, b"https://")
        || begins(octets, b"ftp://")
        || begins(octets, b"mailto:")
        || begins(octets, b"doi:")
}

fn joined(alloc: Global, front: &[u8], rest: &[u8]) -> Result<Vec<u8>, AllocError>
    ensures { IfOk result (λ whole. whole.items ≡ front.now ++ rest.now) }
{
    let mut whole = Vec::from_slice(alloc, front)?;
    whole.extend_from_slice(rest)?;
    Ok(whole)
}

/// Whether an address that begins with the first octets and goes on so is followed with the second ones too, if it is with the first.
fn stays_followed(alloc: Global, old: &[u8], new: &[u8], rest: &[u8]) -> Result<bool, AllocError>
    ensures { IfOk result (λ stays. IsTrue stays ↔ StaysFollowed old.now new.now rest.now) }
{
    if !is_followed(&joined(alloc, old, rest)?) {
        return Ok(true);
    }
    Ok(is_followed(&joined(alloc, new, rest)?))
}

/// What of a scheme follows behind so many octets.
fn rest_of(scheme: &[u8], octets: usize) -> &[u8]
    ensures { result.now ≡ drop octets scheme.now }
{
    match scheme.split_at_checked(octets) {
        Some((_, rest)) => rest,
        None => b"",
    }
}

fn stays_of(alloc: Global, old: &[u8], new: &[u8], scheme: &[u8]) -> Result<bool, AllocError>
    ensures { IfOk result (λ stays. IsTrue stays ↔ StaysOf old.now new.now scheme.now) }
{
    stays_followed(alloc, old, new, rest_of(scheme, old.len()))
}

/// Whether it is so of the shortest addresses of `http://`, `https://` and `ftp://`.
fn keeps_web(alloc: Global, old: &[u8], new: &[u8]) -> Result<bool, AllocError>
    ensures { IfOk result (λ keeps. IsTrue keeps ↔ KeepsWeb old.now new.now) }
{
    Ok(
        stays_of(alloc, old, new, b"http://")?
            && stays_of(alloc, old, new, b"https://")?
            && stays_of(alloc, old, new, b"ftp://")?,
    )
}

/// Whether addresses that begin with the first octets are followed with the second ones too, if they are with the first.
pub(crate) fn keeps_followed(alloc: Global, old: &[u8], new: &[u8]) -> Result<bool, AllocError>
    ensures { IfOk result (λ keeps. IsTrue keeps ↔ KeepsFollowed old.now new.now) }
{
    Ok(
        keeps_web(alloc, old, new)?
            && stays_of(alloc, old, new, b"mailto:")?
            && stays_of(alloc, old, new, b"doi:")?,
    )
}
