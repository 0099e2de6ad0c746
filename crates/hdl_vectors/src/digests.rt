//! Digests, and responses to challenges.

use crate::octets::{octets_of, put_hex, unread};
use hdl_auth::algorithm::{Algorithm, Digest};
use hdl_auth::{check, digest, has_response_form, mac};
use std::alloc::Global;
use std::io;

const FUNCTIONS: [Algorithm; 2] = [Algorithm::Sha1, Algorithm::Sha256];

/// Prints a digest behind the name of its hash function.
pub fn put_digest(rt: &HostRuntime, digest: &Digest) -> io::Result<()> {
    match digest.algorithm() {
        Algorithm::Sha1 => put_hex(rt, "SHA-1", digest.as_slice()),
        Algorithm::Sha256 => put_hex(rt, "SHA-256", digest.as_slice()),
    }
}

/// Prints the digests of the octets.
pub fn put_digests(rt: &HostRuntime, octets: &[u8]) -> io::Result<()> {
    for algorithm in FUNCTIONS {
        put_digest(rt, &digest(algorithm, octets))?;
    }
    Ok(())
}

/// The nonce that is written so.
fn nonce_of(alloc: Global, written: &str) -> io::Result<[u8; 16]> {
    let octets = octets_of(alloc, written)?;
    match <[u8; 16]>::try_from(octets.as_slice()) {
        Ok(nonce) => Ok(nonce),
        Err(_) => Err(unread()),
    }
}

/// Prints the keyed digests of a request.
fn put_keyed(rt: &HostRuntime, key: &[u8], nonce: &[u8; 16], request: &[u8]) -> io::Result<()> {
    for algorithm in FUNCTIONS {
        put_digest(rt, &mac(key, nonce, &digest(algorithm, request)))?;
    }
    Ok(())
}

/// Prints what a response is to the challenge of the request that has this digest.
fn put_verdict(
    rt: &HostRuntime,
    key: &[u8],
    nonce: &[u8; 16],
    digest: &Digest,
    response: &[u8],
) -> io::Result<()> {
    let verdict = check(key, nonce, digest, response);
    let is_good = verdict.is_good();
    let has_form = has_response_form(digest.algorithm(), response);
    println!(rt; "  {verdict:?}, good {is_good}, of its form {has_form}")
}

/// Prints the keyed digests of `KEY | NONCE | REQUEST`.
pub fn put_mac(rt: &HostRuntime, key: &[u8], rest: &str) -> io::Result<()> {
    let Some((nonce, request)) = rest.split_once(" | ") else {
        return Err(unread());
    };
    let nonce = nonce_of(rt.alloc(), nonce)?;
    let request = octets_of(rt.alloc(), request)?;
    put_keyed(rt, key, &nonce, &request)
}

/// Prints what a response is by each hash function.
fn put_verdicts(
    rt: &HostRuntime,
    key: &[u8],
    nonce: &[u8; 16],
    request: &[u8],
    response: &[u8],
) -> io::Result<()> {
    for algorithm in FUNCTIONS {
        put_verdict(rt, key, nonce, &digest(algorithm, request), response)?;
    }
    Ok(())
}

/// Prints what the response of `NONCE | REQUEST | RESPONSE` is under a key.
pub fn put_check(rt: &HostRuntime, key: &[u8], rest: &str) -> io::Result<()> {
    let Some((nonce, rest)) = rest.split_once(" | ") else {
        return Err(unread());
    };
    let Some((request, response)) = rest.split_once(" | ") else {
        return Err(unread());
    };
    let nonce = nonce_of(rt.alloc(), nonce)?;
    let request = octets_of(rt.alloc(), request)?;
    let response = octets_of(rt.alloc(), response)?;
    put_verdicts(rt, key, &nonce, &request, &response)
}
