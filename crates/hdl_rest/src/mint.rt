//! Handles whose suffix is drawn.

ghost use Rattle.std.specs.Prelude.{◌≡◌, IfOk, IfSome};
ghost use Rattle.hdl_proxy.specs.declared.answer.CacheControl.TheVariants.{Never};
ghost use Rattle.hdl_rest.specs.Orders.{Mints, MintsOnce};
ghost use Rattle.hdl_rest.specs.Sending.{CarriesOut};
ghost use Rattle.hdl_rest.specs.Since.{AskedSince};

use crate::asking::{creation, make_change};
use crate::change_answers::{failure, success};
use crate::order::{Order, no_name};
use crate::service::ChangeServer;
use crate::stop::{ChangeFault, answer_to_stop};
use crate::suffix::with_suffix;
use hdl_msg::ResponseCode;
use hdl_proxy::{Answer, Status, read_name};
use hdl_value::Value;
use std::alloc::{AllocError, Global};

/// How many suffixes are drawn at most until one is new.
const DRAWN_MOST: u32 = 8;

const NONE_NEW: &str = "All eight suffixes that were drawn exist already. Nothing was done.";

/// Creates the handle of the order's name with a drawn suffix. None: it is there already.
fn mint_once<S: ChangeServer>(
    alloc: Global,
    service: &mut S,
    order: &Order,
    values: &[Value],
) -> Result<Option<Answer>, AllocError>
    ensures asked { AskedSince S.ChangeServer service.old service.new (MintsOnce order.now.key order.now.name values.now result) }
    ensures kept { IfOk result (λ made. IfSome made (λ answer. answer.cache_control ≡ Never)) }
{
    let drawn = service.draw();
    let octets = with_suffix(alloc, order.name.sent(), &drawn)?;
    let name = match read_name(alloc, &octets)? {
        Ok(name) => name,
        Err(fault) => return Ok(Some(no_name(alloc, order.name.sent(), fault)?)),
    };
    let body = creation(alloc, name.sent(), values)?;
    match make_change(service, order, &body) {
        Ok(()) => Ok(Some(success(alloc, name.sent(), Status::Created)?)),
        Err(ChangeFault::Code(code)) if code == ResponseCode::HandleAlreadyExists.number() => {
            Ok(None)
        }
        Err(stop) => Ok(Some(answer_to_stop(alloc, name.sent(), stop, &[])?)),
    }
}

/// Creates a handle with these values whose name begins as the order's: a suffix is drawn until the handle is new.
pub(crate) fn mint<S: ChangeServer>(
    alloc: Global,
    service: &mut S,
    order: &Order,
    values: &[Value],
) -> Result<Answer, AllocError>
    ensures asked { AskedSince S.ChangeServer service.old service.new (CarriesOut (Mints order.now.key order.now.name values.now) result) }
    ensures kept { IfOk result (λ answer. answer.cache_control ≡ Never) }
{
    for _ in 0..DRAWN_MOST {
        if let Some(answer) = mint_once(alloc, service, order, values)? {
            return Ok(answer);
        }
    }
    let code = ResponseCode::HandleAlreadyExists.number();
    failure(
        alloc,
        order.name.sent(),
        Status::Conflict,
        code,
        NONE_NEW,
        &[],
    )
}
