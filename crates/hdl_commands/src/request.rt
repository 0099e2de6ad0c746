//! Requests in words.

ghost use Rattle.std.specs.Prelude.{IfOk};
ghost use Rattle.hdl_value.specs.Spelling.{CanBeSpelt};

use crate::fault::ArgumentFault;
use hdl_limits::{Items, Octets};
use hdl_msg::{OpCode, RequestBody};
use hdl_value::{Value, ValueFault};
use hdl_value_lines::{LineFault, index_in, read_value_line};
use std::alloc::{AllocError, Global};

/// Whether values go with an operation.
pub(crate) fn takes_values(operation: OpCode) -> bool {
    matches!(
        operation,
        OpCode::CreateHandle | OpCode::AddValue | OpCode::ModifyValue
    )
}

/// Whether the words of a value name the type of an administrator.
pub(crate) fn is_administrator(words: &str) -> bool {
    match words.split_once(' ') {
        Some((_, rest)) => rest.starts_with("HS_ADMIN "),
        None => false,
    }
}

/// Why words are no value: a tab is named, and the format of an administrator.
fn fault_in(words: &str, fault: LineFault) -> ArgumentFault {
    match fault {
        LineFault::Memory => ArgumentFault::Memory,
        _ if words.contains('\t') => ArgumentFault::Tab,
        LineFault::Value(ValueFault::BadAdmin) => ArgumentFault::AdminFormat,
        other => ArgumentFault::Value(other),
    }
}

/// The value that words say.
pub(crate) fn value_in(alloc: Global, words: &str) -> Result<Value, ArgumentFault>
    ensures { IfOk result CanBeSpelt }
{
    match read_value_line(alloc, words.as_bytes()) {
        Ok(value) => Ok(value),
        Err(fault) => Err(fault_in(words, fault)),
    }
}

/// The indexes, types and values of a request.
#[derive(Drop)]
pub struct RequestDetails {
    pub indexes: Vec<u32>,
    pub types: Vec<Octets>,
    pub values: Vec<Value>,
}

impl RequestDetails {
    pub fn new(alloc: Global) -> RequestDetails {
        RequestDetails {
            indexes: Vec::new(alloc),
            types: Vec::new(alloc),
            values: Vec::new(alloc),
        }
    }

    /// Adds an index in words.
    pub fn push_index(&mut self, digits: &str) -> Result<(), ArgumentFault> {
        let Some(index) = index_in(digits) else {
            return Err(ArgumentFault::Index);
        };
        self.indexes.push(index)?;
        Ok(())
    }

    pub fn push_type(&mut self, alloc: Global, kind: &str) -> Result<(), AllocError> {
        let kind = Octets::new(Vec::from_slice(alloc, kind.as_bytes())?);
        match self.types.push(kind) {
            Ok(()) => Ok(()),
            Err(_) => Err(AllocError),
        }
    }

    /// Adds a value by a word of the command line. A key is refused: others on the machine can read that line.
    pub fn push_word(&mut self, alloc: Global, word: &str) -> Result<(), ArgumentFault> {
        let value = value_in(alloc, word)?;
        if value.is_secret_key() {
            return Err(ArgumentFault::KeyInWords);
        }
        self.values.push(value)?;
        Ok(())
    }

    /// Adds a value by its line.
    pub fn push_value(&mut self, alloc: Global, line: &str) -> Result<(), ArgumentFault> {
        let value = value_in(alloc, line)?;
        self.values.push(value)?;
        Ok(())
    }
}

/// The body of a request. A challenge response is none that words ask for.
pub fn request_of(
    alloc: Global,
    operation: OpCode,
    handle: &str,
    details: RequestDetails,
) -> Result<RequestBody, ArgumentFault> {
    let handle = Octets::new(Vec::from_slice(alloc, handle.as_bytes())?);
    let RequestDetails {
        indexes,
        types,
        values,
    } = details;
    if takes_values(operation) && values.is_empty()
        || operation == OpCode::RemoveValue && indexes.is_empty()
    {
        return Err(ArgumentFault::Missing);
    }
    let indexes = Items::new(indexes);
    let types = Items::new(types);
    let values = Items::new(values);
    match operation {
        OpCode::Resolution => Ok(RequestBody::Resolution {
            handle,
            indexes,
            types,
        }),
        OpCode::ListHandles => Ok(RequestBody::List { handle }),
        OpCode::CreateHandle => Ok(RequestBody::Create { handle, values }),
        OpCode::DeleteHandle => Ok(RequestBody::Delete { handle }),
        OpCode::AddValue => Ok(RequestBody::Add { handle, values }),
        OpCode::RemoveValue => Ok(RequestBody::Remove { handle, indexes }),
        OpCode::ModifyValue => Ok(RequestBody::Modify { handle, values }),
        OpCode::GetSiteInfo | OpCode::ChallengeResponse => Err(ArgumentFault::Operation),
    }
}
