//! What to do about the code of a reply.

use crate::request::takes_values;
use hdl_client::Task;
use hdl_msg::{Body, OpCode, ResponseCode, read_request};
use hdl_value_lines::{cut_at, printed_octets};
use std::alloc::{AllocError, Global};

/// How a command is given its keys.
#[derive(Clone, Copy, PartialEq, Eq)]
pub(crate) enum KeyWords {
    /// By `--key`, and the secret by HDL_SECRET.
    Options,
    /// By AUTHENTICATE in a batch.
    Batch,
}

/// What was asked about which handle.
#[derive(Clone, Copy)]
pub(crate) struct Asked<'a> {
    pub operation: OpCode,
    pub handle: &'a [u8],
    pub keys: KeyWords,
}

/// What a task asks; None where words ask for no such request.
pub(crate) fn asked_by(task: &Task, keys: KeyWords) -> Option<Asked<'_>> {
    let Ok(request) = read_request(task.request.wire(), task.request.octets()) else {
        return None;
    };
    let (operation, handle) = match request.body() {
        Body::Resolution { handle, .. } => (OpCode::Resolution, *handle),
        Body::Create { handle, .. } => (OpCode::CreateHandle, *handle),
        Body::Delete { handle } => (OpCode::DeleteHandle, *handle),
        Body::Add { handle, .. } => (OpCode::AddValue, *handle),
        Body::Remove { handle, .. } => (OpCode::RemoveValue, *handle),
        Body::Modify { handle, .. } => (OpCode::ModifyValue, *handle),
        Body::List { handle } => (OpCode::ListHandles, *handle),
        Body::Response { .. } | Body::SiteInfo { .. } | Body::Other { .. } => return None,
    };
    Some(Asked {
        operation,
        handle,
        keys,
    })
}

/// What to do if one reply can't say all that was asked for.
fn advice_on_rest(operation: OpCode) -> &'static str {
    match operation {
        OpCode::ListHandles => {
            ": more handles than fit into one reply (65,536 octets). The server's operator can list all: `handled copy --table FILE --to COPY`, then `handled export --table COPY < TENANTS`"
        }
        OpCode::Resolution => {
            ": more values than fit into one reply (65,536 octets): select some with --index or --type"
        }
        _ => "",
    }
}

/// What to do if there is no such handle.
fn advice_on_handle(operation: OpCode) -> &'static str {
    match operation {
        OpCode::AddValue | OpCode::ModifyValue => {
            ": check its name; a new handle is made by `hdl create`"
        }
        _ => "",
    }
}

/// What to do if a handle has no such value.
fn advice_on_value(operation: OpCode) -> &'static str {
    match operation {
        OpCode::ModifyValue => {
            ": resolve the handle; a value with a new index is added by `hdl add`"
        }
        OpCode::Resolution => {
            ": the handle is there; leave out --type and --index to see all (URL isn't Url)"
        }
        _ => "",
    }
}

/// What to do if a server can't read a request whose values have a layout.
fn advice_on_layout(operation: OpCode) -> &'static str {
    if takes_values(operation) {
        ": the port may have the other layout of values: add --handle-net if its line ends with handle-net, or else leave it out"
    } else {
        ""
    }
}

/// What to do about a change that is denied: a server denies all that it takes, or what would make or end a handle under 0.NA.
fn advice_on_change(operation: OpCode) -> &'static str {
    match operation {
        OpCode::CreateHandle | OpCode::DeleteHandle => {
            ": a server with --read-only takes no changes: name the one that does by --server. No server creates or deletes a handle under 0.NA"
        }
        OpCode::AddValue | OpCode::RemoveValue | OpCode::ModifyValue => {
            ": this server takes no changes (--read-only): name the one that does by --server"
        }
        _ => "",
    }
}

/// What to write where the service takes a name for none.
fn advice_on_name(operation: OpCode) -> &'static str {
    match operation {
        OpCode::ListHandles => ": write the prefix alone, such as 10",
        _ => ": write PREFIX/NAME, such as 10/a",
    }
}

/// Whether the octets are the address of a handle, and not the handle.
fn is_address(octets: &[u8]) -> bool {
    octets.starts_with(b"hdl:")
        || octets.starts_with(b"doi:")
        || octets.starts_with(b"http:")
        || octets.starts_with(b"https:")
}

/// Which server to ask, or how a handle is written.
fn advice_on_server(handle: &[u8]) -> &'static str {
    let words = handle.strip_prefix(b"0.NA/").unwrap_or(handle);
    if is_address(words) {
        ": write the handle alone, such as 10/a"
    } else {
        ": this port doesn't serve the prefix: name its publisher's port by --server"
    }
}

/// How a key is given.
fn advice_on_key(keys: KeyWords) -> &'static str {
    match keys {
        KeyWords::Options => ": give --key INDEX:HANDLE, and its secret in HDL_SECRET",
        KeyWords::Batch => {
            ": write AUTHENTICATE SECKEY:INDEX:HANDLE, such as SECKEY:300:0.NA/10, before the operation, and its secret on the next line"
        }
    }
}

/// Where the secret of a key is said.
fn advice_on_secret(keys: KeyWords) -> &'static str {
    match keys {
        KeyWords::Options => ": the secret isn't that of the key: check HDL_SECRET",
        KeyWords::Batch => {
            ": the secret isn't that of the key: check the line after AUTHENTICATE"
        }
    }
}

/// What names the key.
fn key_word(keys: KeyWords) -> &'static str {
    match keys {
        KeyWords::Options => "--key",
        KeyWords::Batch => "AUTHENTICATE",
    }
}

/// The advice that names neither handle nor key.
fn advice_for(asked: &Asked<'_>, code: ResponseCode) -> &'static str {
    let operation = asked.operation;
    match code {
        ResponseCode::Error => advice_on_rest(operation),
        ResponseCode::ServerBusy => {
            ": nothing was done: try again; if it stays so, the server's disk or memory may be full, or what this prefix may hold there: ask its operator"
        }
        ResponseCode::ProtocolError => advice_on_layout(operation),
        ResponseCode::OperationDenied => advice_on_change(operation),
        ResponseCode::HandleNotFound => advice_on_handle(operation),
        ResponseCode::InvalidHandle => advice_on_name(operation),
        ResponseCode::HandleAlreadyExists if operation == OpCode::CreateHandle => {
            ": change it by `hdl modify` or `hdl add`"
        }
        ResponseCode::ValueNotFound => advice_on_value(operation),
        ResponseCode::ValueAlreadyExists if operation == OpCode::AddValue => {
            ": a value with an index that exists is changed by `hdl modify`"
        }
        ResponseCode::ServiceReferral => advice_on_server(asked.handle),
        ResponseCode::AuthenticationNeeded => advice_on_key(asked.keys),
        ResponseCode::AuthenticationFailed => advice_on_secret(asked.keys),
        _ => "",
    }
}

/// The prefix of a handle, as it is shown.
fn shown_prefix(alloc: Global, handle: &[u8]) -> Result<String, AllocError> {
    match cut_at(handle, b'/') {
        Some((prefix, _)) => printed_octets(alloc, prefix),
        None => printed_octets(alloc, handle),
    }
}

/// The handle whose administrators may do what is asked: of a new handle that of its prefix.
fn administered(alloc: Global, asked: &Asked<'_>) -> Result<String, AllocError> {
    if asked.operation != OpCode::CreateHandle {
        return printed_octets(alloc, asked.handle);
    }
    let prefix = shown_prefix(alloc, asked.handle)?;
    format!(in alloc; "0.NA/{prefix}")
}

/// Says which handle's administrators may do what was asked, and how to find them.
fn rights_advice(alloc: Global, asked: &Asked<'_>) -> Result<String, AllocError> {
    let handle = administered(alloc, asked)?;
    let key = key_word(asked.keys);
    format!(in alloc;
        ": the key of {key} is no administrator of {handle} who may do this: `hdl resolve {handle} --type HS_ADMIN` names them; if none is there, see docs/FILE.md, \"If a key is lost\""
    )
}

/// Says which value a new handle lacks.
fn values_advice(alloc: Global, handle: &[u8]) -> Result<String, AllocError> {
    let prefix = shown_prefix(alloc, handle)?;
    format!(in alloc;
        ": a new handle needs an HS_ADMIN value, such as '100 HS_ADMIN 86400 1110 ADMIN 300:111111111111:0.NA/{prefix}'"
    )
}

/// What to do about a reply with this code; nothing where there is nothing to say.
pub(crate) fn advice(alloc: Global, asked: &Asked<'_>, code: u32) -> Result<String, AllocError> {
    match ResponseCode::of(code) {
        None => Ok(String::new(alloc)),
        Some(ResponseCode::NotAuthorized) => rights_advice(alloc, asked),
        Some(ResponseCode::ValueInvalid) if asked.operation == OpCode::CreateHandle => {
            values_advice(alloc, asked.handle)
        }
        Some(ResponseCode::UnableToAuthenticate) => format!(in alloc;
            ": the handle of {} has no such key: check its index and its handle",
            key_word(asked.keys)
        ),
        Some(code) => String::from_str(alloc, advice_for(asked, code)),
    }
}

/// The same for the line of a task: nothing if the task asks for no such request, or without memory for it.
pub(crate) fn line_advice(alloc: Global, asked: Option<Asked<'_>>, code: u32) -> String {
    match asked {
        Some(asked) => advice(alloc, &asked, code).unwrap_or_else(|_| String::new(alloc)),
        None => String::new(alloc),
    }
}
