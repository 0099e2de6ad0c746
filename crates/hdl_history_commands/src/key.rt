//! The key that answers a challenge.

use crate::fault::HistoryFault;
use hdl_client::Key;
use hdl_limits::Octets;
use hdl_value_lines::read_reference;
use std::env;

/// The secret: what the environment's variable says, else the first line of standard input.
fn secret(rt: &HostRuntime) -> Result<String, HistoryFault> {
    match env::var(rt, "HDL_SECRET") {
        Ok(secret) => return Ok(secret),
        Err(env::VarError::NotPresent) => {}
        Err(_) => return Err(HistoryFault::NoSecret),
    }
    let mut line = String::new(rt.alloc());
    if rt.read_line(&mut line).is_err() {
        return Err(HistoryFault::NoSecret);
    }
    Ok(String::from_str(rt.alloc(), line.trim_end_matches(['\n', '\r']))?)
}

/// The key of a reference in words, with its secret.
pub(crate) fn key_of(rt: &HostRuntime, words: &str) -> Result<Key, HistoryFault> {
    let Some((index, handle)) = read_reference(words) else {
        return Err(HistoryFault::Key);
    };
    let secret = secret(rt)?;
    if secret.is_empty() {
        return Err(HistoryFault::NoSecret);
    }
    Ok(Key {
        handle: Octets::new(Vec::from_slice(rt.alloc(), handle.as_bytes())?),
        index,
        secret: Octets::new(Vec::from_slice(rt.alloc(), secret.as_bytes())?),
    })
}
