//! One request, asked of a server.

use crate::advice::{Asked, KeyWords, advice};
use crate::exit_status::ExitStatus;
use crate::fault::ArgumentFault;
use crate::key::key_of;
use crate::reporting::{may_be_done, report_fault};
use crate::request::{RequestDetails, is_administrator, request_of, takes_values};
use crate::warnings::{Warning, is_unsayable, warning_of};
use crate::words::{Printout, code_name, push_reply, push_short_reply};
use hdl_client::{ClientFault, Key, Reply, connect};
use hdl_frame::Envelope;
use hdl_msg::{OpCode, ReplyView, RequestBody, ResponseCode};
use hdl_value::{Value, Wire};
use hdl_value_lines::printed_octets;
use std::alloc::{AllocError, Global};
use std::io;
use thiserror::Error;

/// What is asked of which server, and how the answer is shown.
#[derive(Drop)]
pub struct RequestOptions {
    pub operation: OpCode,
    pub handle: String,
    /// Values in words, none a key, or indexes, as the operation takes them; of a resolution the indexes of values.
    pub words: Vec<String>,
    /// The types of values, of a resolution.
    pub types: Vec<String>,
    /// `HOST:PORT`.
    pub server: String,
    /// By whose layout the server speaks of values.
    pub wire: Wire,
    /// A reference to the key that answers a challenge.
    pub key: Option<String>,
    /// Whether only what is asked for is shown, an item a line.
    pub is_short: bool,
    /// Whether the data of keys is shown.
    pub shows_keys: bool,
}

/// Why a question has no answer.
#[derive(Clone, Copy, Debug, PartialEq, Eq, Error)]
pub enum RequestFault {
    #[error("{0}")]
    Words(ArgumentFault),
    /// The value or index at this place is faulty.
    #[error("{1}")]
    Word(usize, ArgumentFault),
    #[error("{0}")]
    Client(ClientFault),
    #[error("standard output can't be written")]
    Output,
}

impl RequestFault {
    /// How the command ends.
    pub fn status(self) -> ExitStatus {
        match self {
            RequestFault::Words(_) | RequestFault::Word(_, _) => ExitStatus::Arguments,
            RequestFault::Client(_) => ExitStatus::NoAnswer,
            RequestFault::Output => ExitStatus::Failure,
        }
    }
}

impl From<ArgumentFault> for RequestFault {
    fn from(fault: ArgumentFault) -> RequestFault {
        RequestFault::Words(fault)
    }
}

impl From<ClientFault> for RequestFault {
    fn from(fault: ClientFault) -> RequestFault {
        RequestFault::Client(fault)
    }
}

impl From<AllocError> for RequestFault {
    fn from(_: AllocError) -> RequestFault {
        RequestFault::Words(ArgumentFault::Memory)
    }
}

impl From<io::Error> for RequestFault {
    fn from(_: io::Error) -> RequestFault {
        RequestFault::Output
    }
}

/// The handle that is asked for. A list may name the naming authority alone.
fn handle_of(alloc: Global, question: &RequestOptions) -> Result<String, AllocError> {
    let handle = question.handle.as_str();
    if question.operation == OpCode::ListHandles && !handle.contains('/') {
        return format!(in alloc; "0.NA/{handle}");
    }
    String::from_str(alloc, handle)
}

/// The values or indexes of a question, and its types.
fn details_of(alloc: Global, question: &RequestOptions) -> Result<RequestDetails, RequestFault> {
    let mut details = RequestDetails::new(alloc);
    for (place, word) in question.words.iter().enumerate() {
        let read = if takes_values(question.operation) {
            details.push_word(alloc, word)
        } else {
            details.push_index(word)
        };
        if let Err(fault) = read {
            return Err(RequestFault::Word(place, fault));
        }
    }
    for kind in &question.types {
        details.push_type(alloc, kind)?;
    }
    Ok(details)
}

fn body_of(alloc: Global, question: &RequestOptions) -> Result<RequestBody, RequestFault> {
    let details = details_of(alloc, question)?;
    let handle = handle_of(alloc, question)?;
    Ok(request_of(alloc, question.operation, &handle, details)?)
}

fn print_reply(
    rt: &HostRuntime,
    question: &RequestOptions,
    envelope: &Envelope,
    reply: &ReplyView<'_>,
) -> Result<(), RequestFault> {
    let mut printout = Printout::new(rt.alloc(), question.shows_keys);
    if question.is_short {
        push_short_reply(&mut printout, reply)?;
    } else {
        push_reply(&mut printout, envelope, reply, Some(question.operation))?;
    }
    print!(rt; "{}", printout.as_str())?;
    Ok(())
}

/// The values that a request writes.
fn written_values(body: &RequestBody) -> &[Value] {
    match body {
        RequestBody::Create { values, .. }
        | RequestBody::Add { values, .. }
        | RequestBody::Modify { values, .. } => values.as_slice(),
        _ => &[],
    }
}

/// Says on standard error what may not be meant so of what was written.
fn report_warnings(rt: &HostRuntime, question: &RequestOptions, body: &RequestBody) {
    if question.operation == OpCode::CreateHandle && is_unsayable(question.handle.as_bytes()) {
        let _ = eprintln!(rt; "warning: {}", Warning::Name);
    }
    for value in written_values(body) {
        if let Some(warning) = warning_of(value.kind.as_slice(), value.bytes.as_slice()) {
            let _ = eprintln!(rt; "warning: value with index {}: {warning}", value.index);
        }
    }
}

/// Prints a reply. Answers success if its code is that of success, and else failure, with the code's name on standard error.
fn show(
    rt: &HostRuntime,
    question: &RequestOptions,
    reply: &Reply,
) -> Result<ExitStatus, RequestFault> {
    let view = reply.view();
    print_reply(rt, question, &reply.envelope(), &view)?;
    if view.code() == Some(ResponseCode::Success) {
        return Ok(ExitStatus::Success);
    }
    let code = view.header.response_code;
    let handle = handle_of(rt.alloc(), question)?;
    let asked = Asked {
        operation: question.operation,
        handle: handle.as_bytes(),
        keys: KeyWords::Options,
    };
    let more = advice(rt.alloc(), &asked, code)?;
    let _ = eprintln!(rt; "hdl: {code} {}{more}", code_name(code));
    Ok(ExitStatus::Failure)
}

fn reply_to(
    rt: &HostRuntime,
    question: &RequestOptions,
    body: &RequestBody,
    key: Option<&Key>,
) -> Result<Reply, ClientFault> {
    let mut session = connect(rt, &question.server)?;
    session.ask(question.wire, body, key)
}

/// Asks this, and shows the reply.
fn show_reply(
    rt: &HostRuntime,
    question: &RequestOptions,
    body: &RequestBody,
    key: Option<&Key>,
) -> Result<ExitStatus, RequestFault> {
    let reply = reply_to(rt, question, body, key)?;
    let status = show(rt, question, &reply)?;
    if status == ExitStatus::Success {
        report_warnings(rt, question, body);
    }
    Ok(status)
}

fn ask_and_show(
    rt: &HostRuntime,
    question: &RequestOptions,
    key: Option<&Key>,
) -> Result<ExitStatus, RequestFault> {
    let body = body_of(rt.alloc(), question)?;
    show_reply(rt, question, &body, key)
}

fn ask_with_key(rt: &HostRuntime, question: &RequestOptions) -> Result<ExitStatus, RequestFault> {
    match &question.key {
        Some(words) => {
            let key = key_of(rt, words)?;
            ask_and_show(rt, question, Some(&key))
        }
        None => ask_and_show(rt, question, None),
    }
}

/// How a value is written.
const VALUE_FORM: &str =
    ": write INDEX TYPE TTL PERMISSIONS FORMAT DATA, such as '1 URL 86400 1110 UTF8 https://example.org/'";

/// The same of an administrator.
const ADMIN_FORM: &str =
    ": write INDEX TYPE TTL PERMISSIONS FORMAT DATA, such as '100 HS_ADMIN 86400 1110 ADMIN 300:111111111111:0.NA/10'";

/// The same of a value that isn't one word.
const UNQUOTED: &str =
    "a value is one argument: put it into quotes, such as '1 URL 86400 1110 UTF8 https://example.org/'";

/// Whether a word is a part of a value whose quotes were forgotten.
fn is_unquoted(word: &str, fault: ArgumentFault) -> bool {
    matches!(fault, ArgumentFault::Value(_)) && !word.contains(' ')
}

/// How a value is written in the place of this word, which has this fault.
fn advice_on_form(word: &str, fault: ArgumentFault) -> &'static str {
    match fault {
        ArgumentFault::AdminFormat => ADMIN_FORM,
        ArgumentFault::Value(_) if is_administrator(word) => ADMIN_FORM,
        ArgumentFault::Value(_) => VALUE_FORM,
        _ => "",
    }
}

/// Whether a secret may stand in a word: in the line of a key, or in the digits of a value.
fn may_have_secret(word: &str) -> bool {
    word.as_bytes().windows(6).any(|part| part.eq_ignore_ascii_case(b"SECKEY")
        || part.eq_ignore_ascii_case(b"OCTETS"))
}

/// The word at this place as it is shown. One in which a secret may stand is only counted.
fn shown_word(alloc: Global, place: usize, word: &str) -> Result<String, AllocError> {
    if may_have_secret(word) {
        return format!(in alloc; "value {}", place.saturating_add(1));
    }
    let printed = printed_octets(alloc, word.as_bytes())?;
    format!(in alloc; "'{printed}'")
}

/// Says on standard error what is wrong with the word at this place.
fn report_word(rt: &HostRuntime, words: &[String], place: usize, fault: ArgumentFault) {
    let word = match words.get(place) {
        Some(word) => word.as_str(),
        None => "",
    };
    if is_unquoted(word, fault) {
        let _ = eprintln!(rt; "hdl: value {}: {UNQUOTED}", place.saturating_add(1));
        return;
    }
    let way = advice_on_form(word, fault);
    let _ = match shown_word(rt.alloc(), place, word) {
        Ok(shown) => eprintln!(rt; "hdl: {shown}: {fault}{way}"),
        Err(_) => eprintln!(rt; "hdl: {fault}{way}"),
    };
}

/// Whether a request may change the table.
fn is_change(operation: OpCode) -> bool {
    takes_values(operation) || matches!(operation, OpCode::RemoveValue | OpCode::DeleteHandle)
}

/// Says on standard error why no reply came, and that a change may have been made.
fn report_no_reply(rt: &HostRuntime, question: &RequestOptions, fault: ClientFault) {
    report_fault(rt, &question.server, fault);
    let more = if is_change(question.operation) && may_be_done(fault) {
        "; the change may have been made: resolve the handle"
    } else {
        ""
    };
    let _ = eprintln!(rt; "{more}");
}

/// Says on standard error why a question has no answer.
fn report(rt: &HostRuntime, question: &RequestOptions, fault: RequestFault) {
    match fault {
        RequestFault::Client(fault) => report_no_reply(rt, question, fault),
        RequestFault::Word(place, fault) => report_word(rt, &question.words, place, fault),
        other => {
            let _ = eprintln!(rt; "hdl: {other}");
        }
    }
}

/// Asks, and prints the answer in words. Answers the exit status: 0 for code 1, 1 for another code, whose name is then on standard
/// error, 2 for words that are no request, 3 where the server can't be reached or says nothing that can be read.
pub fn run_request(rt: &HostRuntime, question: &RequestOptions) -> ExitStatus {
    match ask_with_key(rt, question) {
        Ok(status) => status,
        Err(fault) => {
            report(rt, question, fault);
            fault.status()
        }
    }
}
