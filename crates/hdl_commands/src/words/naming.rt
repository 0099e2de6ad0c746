//! The names of operations and response codes.

use hdl_msg::{OpCode, ResponseCode};

/// What an operation is called. Numbers that no operation has are `unknown`.
pub fn operation_name(number: u32) -> &'static str {
    OpCode::of(number).map_or("unknown", OpCode::name)
}

/// The operation that a word names, in capital or small letters. No word names a challenge response.
pub fn operation_in(word: &str) -> Option<OpCode> {
    match word {
        "resolve" | "RESOLVE" => Some(OpCode::Resolution),
        "create" | "CREATE" => Some(OpCode::CreateHandle),
        "delete" | "DELETE" => Some(OpCode::DeleteHandle),
        "add" | "ADD" => Some(OpCode::AddValue),
        "remove" | "REMOVE" => Some(OpCode::RemoveValue),
        "modify" | "MODIFY" => Some(OpCode::ModifyValue),
        "list" | "LIST" => Some(OpCode::ListHandles),
        _ => None,
    }
}

/// What a response code is called, after RFC 3652, section 2.2.2.2, in our profile (docs/PROTOCOL.md, "Message").
pub fn code_name(code: u32) -> &'static str {
    match ResponseCode::of(code) {
        Some(ResponseCode::Success) => "success",
        Some(ResponseCode::Error) => "error",
        Some(ResponseCode::ServerBusy) => "server busy",
        Some(ResponseCode::ProtocolError) => "protocol error",
        Some(ResponseCode::OperationDenied) => "operation denied",
        Some(ResponseCode::HandleNotFound) => "handle not found",
        Some(ResponseCode::HandleAlreadyExists) => "handle already exists",
        Some(ResponseCode::InvalidHandle) => "invalid handle",
        Some(ResponseCode::ValueNotFound) => "value not found",
        Some(ResponseCode::ValueAlreadyExists) => "value already exists",
        Some(ResponseCode::ValueInvalid) => "value invalid",
        Some(ResponseCode::ServiceReferral) => "service referral",
        Some(ResponseCode::NotAuthorized) => "not authorized",
        Some(ResponseCode::AccessDenied) => "access denied",
        Some(ResponseCode::AuthenticationNeeded) => "authentication needed",
        Some(ResponseCode::AuthenticationFailed) => "authentication failed",
        Some(ResponseCode::InvalidCredential) => "invalid credential",
        Some(ResponseCode::AuthenticationTimeout) => "authentication timeout",
        Some(ResponseCode::UnableToAuthenticate) => "unable to authenticate",
        None => "unknown code",
    }
}
