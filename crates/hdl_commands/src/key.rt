//! Keys: a reference in words, and a secret.

use crate::fault::ArgumentFault;
use hdl_client::Key;
use hdl_limits::Octets;
use hdl_value::RawRef;
use hdl_value_lines::read_reference;
use std::alloc::Global;
use std::env;
use std::io::IsTerminal;

/// The variable of the environment that a secret is looked for in.
pub const SECRET_VARIABLE: &str = "HDL_SECRET";

/// A reference to a key in words.
pub(crate) fn read_key_reference(alloc: Global, words: &str) -> Result<RawRef, ArgumentFault> {
    let Some((index, handle)) = read_reference(words) else {
        return Err(ArgumentFault::Key);
    };
    Ok(RawRef {
        handle: Octets::new(Vec::from_slice(alloc, handle.as_bytes())?),
        index,
    })
}

/// A key by its reference in words, and its secret.
pub(crate) fn read_key(alloc: Global, words: &str, secret: &[u8]) -> Result<Key, ArgumentFault> {
    let RawRef { handle, index } = read_key_reference(alloc, words)?;
    if secret.is_empty() {
        return Err(ArgumentFault::NoSecret);
    }
    Ok(Key {
        handle,
        index,
        secret: Octets::new(Vec::from_slice(alloc, secret)?),
    })
}

/// The secret of a key: what the environment's variable says, else the first line of standard input.
fn secret(rt: &HostRuntime) -> Result<String, ArgumentFault> {
    match env::var(rt, SECRET_VARIABLE) {
        Ok(secret) => return Ok(secret),
        Err(env::VarError::NotPresent) => {}
        Err(_) => return Err(ArgumentFault::NoSecret),
    }
    if rt.stdin().is_terminal() {
        let _ = eprintln!(rt;
            "hdl: HDL_SECRET isn't set: type the secret of the key, and Enter (it will be visible; HDL_SECRET or a file avoids that)"
        );
    }
    let mut line = String::new(rt.alloc());
    if rt.read_line(&mut line).is_err() {
        return Err(ArgumentFault::NoSecret);
    }
    if line.ends_with('\n') {
        line.pop();
    }
    if line.ends_with('\r') {
        line.pop();
    }
    Ok(line)
}

/// The key of a reference in words, with its secret.
pub(crate) fn key_of(rt: &HostRuntime, words: &str) -> Result<Key, ArgumentFault> {
    let secret = secret(rt)?;
    read_key(rt.alloc(), words, secret.as_bytes())
}
