//! The handles of a prefix.

ghost use Rattle.std.specs.Prelude.{◌≡◌, ◌∷◌, [], Bool, IfErr, IfOk, None};
ghost use Rattle.hdl_msg.specs.Message.{list};
ghost use Rattle.hdl_proxy.specs.declared.answer.CacheControl.TheVariants.{Never};
ghost use Rattle.hdl_rest.specs.Exchange.{reply_of};
ghost use Rattle.hdl_rest.specs.Sending.{SendsAll, Tries, code_of};
ghost use Rattle.hdl_rest.specs.Since.{AskedSince};

use crate::asking::{listing, reply_to};
use crate::change_answers::{failure, status_of_change};
use crate::order::{Order, PageRange};
use crate::service::ChangeServer;
use crate::stop::{ChangeFault, answer_to_stop};
use hdl_client::Reply;
use hdl_limits::Octets;
use hdl_msg::{ContentView, ReplyView, ResponseCode, Strings};
use hdl_proxy::{Answer, Status, json_answer, put_text};
use serde_json::{Map, Value as Json, put};
use std::alloc::{AllocError, Global};

/// How many octets stand before the prefix in an administrative handle: `0.NA/`.
const FRONT_LEN: usize = 5;

/// The handles in a page of a list, and how many the list has.
#[derive(Drop)]
struct ListPage {
    handles: Vec<Json>,
    count: u32,
}

fn is_within(window: Option<PageRange>, place: u64) -> bool {
    let Some(PageRange { page, size }) = window else {
        return true;
    };
    let front = u64::from(page) * u64::from(size);
    place >= front && place - front < u64::from(size)
}

fn text_json(alloc: Global, octets: &[u8]) -> Result<Json, AllocError> {
    match str::from_utf8(octets) {
        Ok(text) => Ok(Json::from(String::from_str(alloc, text)?)),
        Err(_) => Ok(Json::from(hex::encode(alloc, octets)?)),
    }
}

fn page_of(
    alloc: Global,
    mut strings: Strings<'_>,
    window: Option<PageRange>,
) -> Result<ListPage, AllocError> {
    let mut handles = Vec::new(alloc);
    let mut count = 0u32;
    while let Some(handle) = strings.next() {
        if is_within(window, u64::from(count)) {
            handles.push(text_json(alloc, handle)?)?;
        }
        count = count.saturating_add(1);
    }
    Ok(ListPage { handles, count })
}

/// The page of handles that a copy has.
fn page_of_copy(
    alloc: Global,
    copied: &[Octets],
    window: Option<PageRange>,
) -> Result<ListPage, AllocError> {
    let mut handles = Vec::new(alloc);
    let mut count = 0u32;
    for handle in copied {
        if is_within(window, u64::from(count)) {
            handles.push(text_json(alloc, handle.as_slice())?)?;
        }
        count = count.saturating_add(1);
    }
    Ok(ListPage { handles, count })
}

/// The page and its size, as they were asked for: without a size one page has all.
fn told_window(window: Option<PageRange>, count: u32) -> PageRange {
    match window {
        Some(window) => window,
        None => PageRange {
            page: 0,
            size: count,
        },
    }
}

/// The answer of a page: `note` says where its handles are from, unless they are the server's.
fn page_answer(
    alloc: Global,
    handle: &[u8],
    page: ListPage,
    window: Option<PageRange>,
    note: Option<&str>,
) -> Result<Answer, AllocError>
    ensures kept { IfOk result (λ answer. answer.cache_control ≡ Never) }
{
    let ListPage { handles, count } = page;
    let window = told_window(window, count);
    let prefix = handle.get(FRONT_LEN..).unwrap_or(handle);
    let mut object = Map::new(alloc);
    if let Some(note) = note {
        put_text(alloc, &mut object, "message", note.as_bytes())?;
    }
    let code = ResponseCode::Success.number();
    put(&mut object, alloc, "responseCode", Json::from(code))?;
    put_text(alloc, &mut object, "prefix", prefix)?;
    put(&mut object, alloc, "totalCount", Json::from(count))?;
    put(&mut object, alloc, "page", Json::from(window.page))?;
    put(&mut object, alloc, "pageSize", Json::from(window.size))?;
    put(&mut object, alloc, "handles", Json::from(handles))?;
    json_answer(alloc, Status::Success, &Json::from(object))
}

/// What is said of more handles than one reply of a server says.
const LONG_LIST: &str =
    "The prefix has more handles than fit into one reply. The proxy's operator can give it a copy of the table: `handled copy`, then `--lists COPY`.";

/// Where handles are from that a copy has.
const COPIED: &str =
    "The prefix has more handles than fit into one reply: these are from a copy of the table.";

/// What is answered to who may list more handles than one reply of the server says: those that a copy has, where there is one.
fn long_answer<S: ChangeServer>(
    alloc: Global,
    service: &S,
    order: &Order,
    window: Option<PageRange>,
) -> Result<Answer, AllocError>
    ensures kept { IfOk result (λ answer. answer.cache_control ≡ Never) }
{
    let handle = order.name.sent();
    match service.copied(order.name.prefix()) {
        Some(copied) => {
            let page = page_of_copy(alloc, copied, window)?;
            page_answer(alloc, handle, page, window, Some(COPIED))
        }
        None => {
            let code = ResponseCode::Error.number();
            failure(alloc, handle, status_of_change(code), code, LONG_LIST, &[])
        }
    }
}

/// What a reply to the request for a list says. A server answers code 2 just where the key may list the handles and they are too many for a reply.
fn listing_answer<S: ChangeServer>(
    alloc: Global,
    service: &S,
    order: &Order,
    reply: &ReplyView<'_>,
    window: Option<PageRange>,
) -> Result<Answer, AllocError>
    ensures kept { IfOk result (λ answer. answer.cache_control ≡ Never) }
{
    let handle = order.name.sent();
    let code = reply.header.response_code;
    match reply.content {
        ContentView::Handles { handles } => {
            let page = page_of(alloc, handles, window)?;
            page_answer(alloc, handle, page, window, None)
        }
        _ if code == ResponseCode::Error.number() => long_answer(alloc, service, order, window),
        _ if code == ResponseCode::Success.number() => {
            answer_to_stop(alloc, handle, ChangeFault::Silent, &[])
        }
        _ => answer_to_stop(alloc, handle, ChangeFault::Code(code), &[]),
    }
}

/// Asks for the handles of the prefix whose administrative handle the order names.
pub(crate) fn ask_for_list<S: ChangeServer>(
    alloc: Global,
    service: &mut S,
    order: &Order,
) -> Result<Reply, ChangeFault>
    ensures asked { AskedSince S.ChangeServer service.old service.new (Tries order.now.key (list order.now.name) (reply_of result)) }
    ensures unanswered { IfErr result (λ fault. code_of fault ≡ None) }
{
    match listing(alloc, order.name.sent()) {
        Ok(body) => reply_to(service, order, &body),
        Err(_) => Err(ChangeFault::Memory),
    }
}

/// Lists the handles of the prefix whose administrative handle the order names.
pub(crate) fn list_answer<S: ChangeServer>(
    alloc: Global,
    service: &mut S,
    order: &Order,
    window: Option<PageRange>,
) -> Result<Answer, AllocError>
    ensures asked { AskedSince S.ChangeServer service.old service.new (λ xs. (whole : Bool) × SendsAll order.now.key (list order.now.name ∷ []) xs whole) }
    ensures kept { IfOk result (λ answer. answer.cache_control ≡ Never) }
{
    match ask_for_list(alloc, service, order) {
        Ok(reply) => listing_answer(alloc, service, order, &reply.view(), window),
        Err(stop) => answer_to_stop(alloc, order.name.sent(), stop, &[]),
    }
}
