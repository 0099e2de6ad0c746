//! Changes as messages, and as they stand at keys.

use crate::fault::ListFault;
use hdl_journal_entries::{DatedChange, DatedMessage, change_of_message};
use hdl_limits::{Items, MESSAGE_MAX, Octets};
use hdl_msg::{Header, RequestBody, request_len, write_request};
use hdl_name::Name;
use hdl_ops::Change;
use hdl_value::{Value, Wire};
use std::alloc::{AllocError, Global};

/// The header of a message of a change. Its OpCode is that of the body that it is written with.
const PLAIN: Header = Header {
    op_code: 0,
    response_code: 0,
    op_flag: 0,
    serial: 0,
    recursion: 0,
    reserved: 0,
    expiration: 0,
};

/// The length of a moment, in octets.
const MOMENT_LEN: usize = 8;

fn handle_of(alloc: Global, name: &Name) -> Result<Octets, AllocError> {
    Ok(Octets::new(Vec::from_slice(alloc, name.sent())?))
}

pub(crate) fn copies(alloc: Global, values: &[Value]) -> Result<Items<Value>, AllocError> {
    let mut all = Vec::new(alloc);
    for value in values {
        all.push(value.copy(alloc)?)?;
    }
    Ok(Items::new(all))
}

/// The body of the request that makes the change.
fn body_of(alloc: Global, change: &Change) -> Result<RequestBody, AllocError> {
    Ok(match change {
        Change::Create { name, values } => RequestBody::Create {
            handle: handle_of(alloc, name)?,
            values: copies(alloc, values.as_slice())?,
        },
        Change::Delete { name } => RequestBody::Delete {
            handle: handle_of(alloc, name)?,
        },
        Change::Add { name, values } => RequestBody::Add {
            handle: handle_of(alloc, name)?,
            values: copies(alloc, values.as_slice())?,
        },
        Change::Remove { name, indexes } => RequestBody::Remove {
            handle: handle_of(alloc, name)?,
            indexes: Items::new(Vec::from_slice(alloc, indexes.as_slice())?),
        },
        Change::Modify { name, values } => RequestBody::Modify {
            handle: handle_of(alloc, name)?,
            values: copies(alloc, values.as_slice())?,
        },
    })
}

/// The message of the request that this is. None where it would have more octets than a message may.
fn message_of_body(alloc: Global, body: &RequestBody) -> Result<Option<Vec<u8>>, AllocError> {
    if request_len(Wire::Profile, body) > MESSAGE_MAX as usize {
        return Ok(None);
    }
    let message = write_request(alloc, Wire::Profile, PLAIN, body)?;
    Ok(Some(message))
}

/// The change as the message of the request that makes it, with its moment. None where it would have more octets than a message may.
pub fn message_of_change(
    alloc: Global,
    moment: u64,
    change: &Change,
) -> Result<Option<DatedMessage>, AllocError> {
    let body = body_of(alloc, change)?;
    let message = message_of_body(alloc, &body)?;
    Ok(message.map(|message| DatedMessage {
        moment,
        message: Octets::new(message),
    }))
}

/// What stands at a key of a handle or a value: the moment in 8 octets, and the message of the request that makes it.
fn dated_octets(
    alloc: Global,
    moment: u64,
    body: &RequestBody,
) -> Result<Option<Vec<u8>>, AllocError> {
    let Some(message) = message_of_body(alloc, body)? else {
        return Ok(None);
    };
    let mut octets = Vec::from_slice(alloc, &moment.to_be_bytes())?;
    octets.extend_from_slice(&message)?;
    Ok(Some(octets))
}

/// What stands at the key of a handle.
pub(crate) fn handle_octets(
    alloc: Global,
    moment: u64,
    name: &Name,
) -> Result<Option<Vec<u8>>, AllocError> {
    let body = RequestBody::Create {
        handle: handle_of(alloc, name)?,
        values: Items::new(Vec::new(alloc)),
    };
    dated_octets(alloc, moment, &body)
}

/// What stands at the key of a value.
pub(crate) fn value_octets(
    alloc: Global,
    moment: u64,
    name: &Name,
    value: &Value,
) -> Result<Option<Vec<u8>>, AllocError> {
    let mut values = Vec::new(alloc);
    values.push(value.copy(alloc)?)?;
    let body = RequestBody::Add {
        handle: handle_of(alloc, name)?,
        values: Items::new(values),
    };
    dated_octets(alloc, moment, &body)
}

/// The change that stands at a key of a handle or a value.
pub(crate) fn change_at_key(alloc: Global, octets: &[u8]) -> Result<DatedChange, ListFault> {
    let Some((moment, message)) = octets.split_first_chunk::<MOMENT_LEN>() else {
        return Err(ListFault::Layout);
    };
    let change = change_of_message(alloc, message)?;
    Ok(DatedChange {
        moment: u64::from_be_bytes(*moment),
        change,
    })
}
