//! What is answered to a change. Nothing here is handed a key.

ghost use Rattle.std.specs.Prelude.{◌≡◌, ◌≢◌, false, IfOk};
ghost use Rattle.hdl_msg.specs.Codes.{response_number};
ghost use Rattle.hdl_proxy.specs.Answer.{Tells};
ghost use Rattle.hdl_proxy.specs.declared.answer.CacheControl.TheVariants.{Never};
ghost use Rattle.hdl_rest.specs.ChangeAnswers.{status_of_change, change_words};
ghost use Rattle.hdl_rest.specs.Sending.{says_done};

use hdl_msg::{RequestBody, ResponseCode};
use hdl_proxy::{Answer, Media, Status, json_answer, put_text, refusal};
use serde_json::{Map, Value as Json, put};
use std::alloc::{AllocError, Global};

/// The status of a change's code: what isn't there isn't found, what is there already is a conflict, values and names that are none are
/// the client's fault, a key that is no administrator or isn't proved isn't authorized, and one that lacks a permission is forbidden.
pub(crate) fn status_of_change(code: u32) -> Status
    ensures status { result ≡ status_of_change code }
    ensures undone { code ≢ response_number ResponseCode.Success → says_done result ≡ false }
{
    match ResponseCode::of(code) {
        Some(ResponseCode::Success) => Status::Success,
        Some(
            ResponseCode::HandleNotFound
            | ResponseCode::ValueNotFound
            | ResponseCode::ServiceReferral,
        ) => Status::NotFound,
        Some(ResponseCode::HandleAlreadyExists | ResponseCode::ValueAlreadyExists) =>
            Status::Conflict,
        Some(ResponseCode::InvalidHandle | ResponseCode::ValueInvalid) => Status::BadRequest,
        Some(
            ResponseCode::NotAuthorized
            | ResponseCode::AuthenticationNeeded
            | ResponseCode::AuthenticationFailed
            | ResponseCode::InvalidCredential
            | ResponseCode::AuthenticationTimeout
            | ResponseCode::UnableToAuthenticate,
        ) => Status::Unauthorized,
        Some(ResponseCode::OperationDenied | ResponseCode::AccessDenied) => Status::Forbidden,
        Some(ResponseCode::ServerBusy) => Status::Unavailable,
        Some(ResponseCode::Error | ResponseCode::ProtocolError) | None => Status::BadGateway,
    }
}

/// What a change's code says.
pub(crate) fn change_words(code: u32) -> &'static str
    ensures { result.now ≡ change_words code }
{
    match ResponseCode::of(code) {
        Some(ResponseCode::Error) => "The server's answer would be too long.",
        Some(ResponseCode::ServerBusy) =>
            "The server is busy, or the space of this prefix there is full. Try again; if it stays so, ask its operator.",
        Some(ResponseCode::OperationDenied) =>
            "This server takes no such change. If it is read-only, send the change to the server that isn't. Handles under 0.NA can't be created or deleted.",
        Some(ResponseCode::HandleNotFound) => "This handle isn't there.",
        Some(ResponseCode::HandleAlreadyExists) => "This handle is there already.",
        Some(ResponseCode::InvalidHandle) => "The server says that this is no handle.",
        Some(ResponseCode::ValueNotFound) => "A value is missing, or the key may not read it.",
        Some(ResponseCode::ValueAlreadyExists) => "A value with this index exists already.",
        Some(ResponseCode::ValueInvalid) =>
            "The server refuses the values: a record has an HS_ADMIN value, and at most 1024 values.",
        Some(ResponseCode::ServiceReferral) =>
            "None of the servers that were asked hosts this prefix.",
        Some(ResponseCode::NotAuthorized) =>
            "The key is no administrator of this handle, or, for a new one, of the prefix's 0.NA/PREFIX.",
        Some(ResponseCode::AccessDenied) => "The key lacks a permission for this.",
        Some(ResponseCode::AuthenticationFailed) => "The secret isn't that of the key.",
        Some(ResponseCode::UnableToAuthenticate) => "There is no such key.",
        Some(
            ResponseCode::Success
            | ResponseCode::ProtocolError
            | ResponseCode::AuthenticationNeeded
            | ResponseCode::InvalidCredential
            | ResponseCode::AuthenticationTimeout,
        )
        | None => "The server couldn't answer.",
    }
}

/// The word of a request.
fn step_word(body: &RequestBody) -> &'static str {
    match body {
        RequestBody::Create { .. } => "create",
        RequestBody::Delete { .. } => "delete",
        RequestBody::Add { .. } => "add",
        RequestBody::Remove { .. } => "remove",
        RequestBody::Modify { .. } => "modify",
        RequestBody::List { .. } => "list",
        RequestBody::Resolution { .. } => "resolve",
        RequestBody::Response { .. } => "response",
    }
}

/// The answer to a change that was done.
pub(crate) fn success(alloc: Global, handle: &[u8], status: Status) -> Result<Answer, AllocError>
    ensures told { IfOk result (Tells status Media.Json) }
    ensures kept { IfOk result (λ answer. answer.cache_control ≡ Never) }
{
    let mut object = Map::new(alloc);
    let code = ResponseCode::Success.number();
    put(&mut object, alloc, "responseCode", Json::from(code))?;
    put_text(alloc, &mut object, "handle", handle)?;
    json_answer(alloc, status, &Json::from(object))
}

/// The words of these requests.
fn step_words(alloc: Global, steps: &[RequestBody]) -> Result<Json, AllocError> {
    let mut words = Vec::new(alloc);
    for step in steps {
        let word = String::from_str(alloc, step_word(step))?;
        words.push(Json::from(word))?;
    }
    Ok(Json::from(words))
}

/// The answer to a change that wasn't done, or not whole: what of it was done, by its requests.
pub(crate) fn failure(
    alloc: Global,
    handle: &[u8],
    status: Status,
    code: u32,
    why: &str,
    done: &[RequestBody],
) -> Result<Answer, AllocError>
    ensures told { IfOk result (Tells status Media.Json) }
    ensures kept { IfOk result (λ answer. answer.cache_control ≡ Never) }
{
    if done.is_empty() {
        return refusal(alloc, status, handle, code, why);
    }
    let mut object = Map::new(alloc);
    put(&mut object, alloc, "responseCode", Json::from(code))?;
    put_text(alloc, &mut object, "handle", handle)?;
    put_text(alloc, &mut object, "message", why.as_bytes())?;
    put(&mut object, alloc, "done", step_words(alloc, done)?)?;
    json_answer(alloc, status, &Json::from(object))
}
