//! What a server is asked.

use crate::fault::HistoryFault;
use hdl_client::{Key, Session, Transport};
use hdl_history::{Entry, Operation};
use hdl_limits::{Items, Octets};
use hdl_msg::{ContentView, RequestBody, ResponseCode, Values};
use hdl_value::{Value, ValueFault, Wire};
use std::alloc::{AllocError, Global};

/// What a code says, as far as an undo meets it.
fn meaning(code: u32) -> &'static str {
    match ResponseCode::of(code) {
        Some(ResponseCode::ServerBusy) => "the server is busy",
        Some(ResponseCode::OperationDenied) => "the server takes no such changes",
        Some(ResponseCode::HandleAlreadyExists | ResponseCode::ValueAlreadyExists) => {
            "it was made again meanwhile"
        }
        Some(ResponseCode::HandleNotFound | ResponseCode::ValueNotFound) => {
            "it was deleted or removed meanwhile"
        }
        Some(ResponseCode::ServiceReferral) => "another server has this prefix",
        Some(ResponseCode::NotAuthorized) => "the key may not do this",
        Some(ResponseCode::AuthenticationFailed) => "the secret isn't that of the key",
        Some(ResponseCode::UnableToAuthenticate) => "the key isn't there",
        _ => "the server refuses it",
    }
}

fn refused(code: u32) -> HistoryFault {
    HistoryFault::Refused(code, meaning(code))
}

fn whole_values(alloc: Global, values: Values<'_>) -> Result<Vec<Value>, HistoryFault> {
    let mut all = Vec::new(alloc);
    for value in values {
        match value.read(alloc) {
            Ok(value) => all.push(value)?,
            Err(ValueFault::Memory) => return Err(AllocError.into()),
            Err(_) => return Err(refused(ResponseCode::ValueInvalid.number())),
        }
    }
    Ok(all)
}

/// What is asked for: the values of a change, or all where the whole handle is created or deleted.
fn question(alloc: Global, entry: &Entry) -> Result<RequestBody, AllocError> {
    let indexes = match entry.operation {
        Operation::Create | Operation::Delete => Vec::new(alloc),
        Operation::Add | Operation::Remove | Operation::Modify => {
            Vec::from_slice(alloc, entry.indexes.as_slice())?
        }
    };
    Ok(RequestBody::Resolution {
        handle: Octets::new(Vec::from_slice(alloc, entry.handle.as_slice())?),
        indexes: Items::new(indexes),
        types: Items::new(Vec::new(alloc)),
    })
}

/// What stands of the handle of a change, as far as the key may read it: None if it isn't there.
pub(crate) fn ask_values<S: Transport>(
    alloc: Global,
    session: &mut Session<S>,
    wire: Wire,
    entry: &Entry,
    key: &Key,
) -> Result<Option<Vec<Value>>, HistoryFault> {
    let reply = session.ask(wire, &question(alloc, entry)?, Some(key))?;
    let view = reply.view();
    if let ContentView::Values { values, .. } = view.content {
        return Ok(Some(whole_values(alloc, values)?));
    }
    match view.code() {
        Some(ResponseCode::HandleNotFound) => Ok(None),
        Some(ResponseCode::ValueNotFound) => Ok(Some(Vec::new(alloc))),
        _ => Err(refused(view.header.response_code)),
    }
}

/// Sends a change.
pub(crate) fn send_change<S: Transport>(
    session: &mut Session<S>,
    wire: Wire,
    body: &RequestBody,
    key: &Key,
) -> Result<(), HistoryFault> {
    let reply = match session.ask(wire, body, Some(key)) {
        Ok(reply) => reply,
        Err(fault) => return Err(HistoryFault::Sent(fault)),
    };
    let view = reply.view();
    if view.code() == Some(ResponseCode::Success) {
        Ok(())
    } else {
        Err(refused(view.header.response_code))
    }
}
