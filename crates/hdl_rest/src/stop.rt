//! Why a change wasn't done, and what is answered then.

ghost use Rattle.std.specs.Prelude.{◌≡◌, None, false, IfOk, IfSome};
ghost use Rattle.hdl_proxy.specs.declared.answer.CacheControl.TheVariants.{Never};
ghost use Rattle.hdl_rest.specs.Sending.{IsFailure, code_of, says_done};

use crate::change_answers::{change_words, failure, status_of_change};
use crate::service::NoReply;
use hdl_msg::{RequestBody, ResponseCode};
use hdl_proxy::{Answer, Status, reported_code};
use std::alloc::{AllocError, Global};

/// Why a change, or what it needs, wasn't done.
#[derive(Clone, Copy)]
pub(crate) enum ChangeFault {
    /// A reply of this code.
    Code(u32),
    /// The server wasn't reached, so nothing was sent.
    Unreached,
    /// No reply came that can be read, so what became of the request isn't known.
    Silent,
    /// A request would be longer than a message may be.
    TooLong,
    /// More values would be removed than one request may.
    TooMany,
    Memory,
}

impl From<AllocError> for ChangeFault {
    ghost from_gives = { λ _ fault. code_of fault ≡ None };

    fn from(_: AllocError) -> ChangeFault {
        ChangeFault::Memory
    }
}

impl From<NoReply> for ChangeFault {
    ghost from_gives = { λ _ fault. code_of fault ≡ None };

    fn from(none: NoReply) -> ChangeFault {
        match none {
            NoReply::Memory => ChangeFault::Memory,
            NoReply::Unreached => ChangeFault::Unreached,
            NoReply::Silent => ChangeFault::Silent,
        }
    }
}

const SILENT: &str = "The server sent no answer. The change may or may not have been made.";

const UNREACHED: &str = "The server for changes can't be reached. Nothing was done.";

const UNREACHED_AFTER: &str =
    "The server for changes can't be reached any more. Only what `done` lists was done.";

const TOO_LONG: &str = "The change needs a request of more than 65536 octets. Nothing was done.";

const TOO_MANY: &str = "The change would remove more than 256 values. Nothing was done.";

/// The words for a server that wasn't reached, after the requests that were done.
fn unreached_words(done: usize) -> &'static str {
    if done == 0 {
        UNREACHED
    } else {
        UNREACHED_AFTER
    }
}

/// The status, the code and the words of a stop after the requests that were done. None: memory was refused.
fn words_of_stop(stop: ChangeFault, done: usize) -> Option<(Status, u32, &'static str)>
    requires { IsFailure stop }
    ensures { IfSome result (λ words. says_done words.0 ≡ false) }
{
    let error = ResponseCode::Error.number();
    match stop {
        ChangeFault::Code(code) => {
            Some((
                status_of_change(code),
                reported_code(code),
                change_words(code),
            ))
        }
        ChangeFault::Unreached => Some((Status::BadGateway, error, unreached_words(done))),
        ChangeFault::Silent => Some((Status::BadGateway, error, SILENT)),
        ChangeFault::TooLong => Some((Status::ContentTooLarge, error, TOO_LONG)),
        ChangeFault::TooMany => Some((Status::ContentTooLarge, error, TOO_MANY)),
        ChangeFault::Memory => None,
    }
}

/// The answer to an order that stopped, after those of its requests that were done.
pub(crate) fn answer_to_stop(
    alloc: Global,
    handle: &[u8],
    stop: ChangeFault,
    done: &[RequestBody],
) -> Result<Answer, AllocError>
    requires { IsFailure stop }
    ensures undone { IfOk result (λ answer. says_done answer.status ≡ false) }
    ensures kept { IfOk result (λ answer. answer.cache_control ≡ Never) }
{
    match words_of_stop(stop, done.len()) {
        Some((status, code, why)) => failure(alloc, handle, status, code, why, done),
        None => Err(AllocError),
    }
}
