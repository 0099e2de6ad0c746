//! What an audit log says of a change.

use hdl_msg::OpCode;
use percent_encoding::{AsciiSet, CONTROLS, ascii_set, percent_encode};
use std::fmt;

/// What is escaped of a handle: what isn't printable ASCII, the space, and the sign of an escape itself.
const ESCAPED: AsciiSet = ascii_set!(CONTROLS.add(b' ').add(b'%'));

/// The key that a change was asked with.
#[derive(Drop)]
pub struct KeyName {
    pub index: u32,
    /// Its handle, as it was sent.
    pub handle: Vec<u8>,
}

/// A change that was accepted or refused.
#[derive(Drop)]
pub struct Entry {
    /// The number of the operation.
    pub operation: u32,
    /// The handle, as it was sent, where it is certain.
    pub handle: Option<Vec<u8>>,
    /// The key, where the change was challenged.
    pub key: Option<KeyName>,
    /// The code of the reply: 1 where it was accepted.
    pub code: u32,
}

/// The word of an operation that changes a handle.
fn word_of(operation: u32) -> &'static str {
    match OpCode::of(operation) {
        Some(OpCode::ChallengeResponse) | None => "other",
        Some(operation) => operation.name(),
    }
}

/// Operation, handle, key as `INDEX:HANDLE`, and code, with a space between two and `-` for what isn't known.
impl fmt::Display for Entry {
    fn fmt<W: fmt::Write>(&self, f: &mut fmt::Formatter<W>) -> fmt::Result {
        f.write_str(word_of(self.operation))?;
        match &self.handle {
            Some(handle) => write!(f, " {}", percent_encode(handle, ESCAPED))?,
            None => f.write_str(" -")?,
        }
        match &self.key {
            Some(key) => write!(f, " {}:{}", key.index, percent_encode(&key.handle, ESCAPED))?,
            None => f.write_str(" -")?,
        }
        write!(f, " {}", self.code)
    }
}
