//! What a request that comes with a key asks for.

ghost use Rattle.std.specs.Prelude.{◌≡◌, ℕ, List, false, IfOk};
ghost use Rattle.hdl_proxy.specs.declared.answer.CacheControl.TheVariants.{Never};
ghost use Rattle.hdl_rest.specs.Sending.{says_done};
ghost use Rattle.hdl_proxy.specs.Query.{pairs_of, texts_of};
ghost use Rattle.hdl_rest.specs.Words.{HasKnownWords, IsChanging};

use crate::credentials::{CredentialFault, read_key};
use crate::words::are_known;
use hdl_client::Key;
use hdl_limits::Octets;
use hdl_msg::ResponseCode;
use hdl_name::{Name, NameFault};
use hdl_proxy::{
    Answer, Pair, Status, has_pair, indexes_of, last_named, options, read_name, read_pairs,
    refusal, types_of, unescape, values_named,
};
use std::alloc::{AllocError, Global};

/// Where handles are changed, and read with a key.
const HANDLES_PATH: &str = "/api/handles/";

/// Where the handles of a prefix are listed.
const LIST_PATH: &str = "/api/handles";

/// Where JSON is answered.
const JSON_PATH: &str = "/api/";

/// How the values of a body are put into a handle.
#[derive(Clone, Copy, PartialEq, Eq)]
pub enum WriteMode {
    /// The handle is created; it isn't there.
    Create,
    /// The handle is created, or the values are put in the place of all that it has.
    Replace,
    /// Values that are there are modified, the others are added, and what isn't named stays.
    Merge,
    /// The values are added; none of their indexes is there.
    Add,
}

/// Which page of a list: its number from 0 on, and how many handles a page has.
#[derive(Clone, Copy, PartialEq, Eq)]
pub struct PageRange {
    pub page: u32,
    pub size: u32,
}

/// What a request asks to do.
#[derive(Drop)]
pub enum ChangeAction {
    /// The values of the body are put into the handle; where indexes are named, no others may be among them.
    Put {
        way: WriteMode,
        among: Option<Vec<u32>>,
    },
    /// A handle whose name begins so is created with the values of the body; its suffix is drawn.
    Mint,
    Delete,
    /// The values of these indexes are removed.
    Remove {
        indexes: Vec<u32>,
    },
    /// The handles of a prefix are listed: all of them, or a page. The name is the prefix's administrative handle.
    List {
        window: Option<PageRange>,
    },
    /// What the key may read is read: of these indexes or types, or where none is named all.
    Read {
        indexes: Vec<u32>,
        types: Vec<Octets>,
    },
}

/// What is done to which handle, by whose key.
#[derive(Drop)]
pub struct Order {
    pub name: Name,
    pub key: Key,
    pub act: ChangeAction,
}

impl Order {
    ghost use Rattle.hdl_rest.specs.Orders.{changes};

    /// Whether the request may change the handle.
    pub fn changes(&self) -> bool
        ensures { result ≡ changes self.now.act }
    {
        !matches!(
            self.act,
            ChangeAction::List { .. } | ChangeAction::Read { .. }
        )
    }

    /// Whether it needs the body of its request.
    pub fn takes_body(&self) -> bool {
        matches!(self.act, ChangeAction::Put { .. } | ChangeAction::Mint)
    }
}

/// What is to be done for a request.
#[derive(Drop)]
pub enum ParsedRequest {
    /// It is answered.
    Answer(Answer),
    /// A server is to be asked.
    Order(Order),
    /// It is none that comes with a key.
    Other,
}

/// A request's parts as they were sent: the query without its `?`, and the field `Authorization` if there is one.
#[derive(Clone, Copy)]
pub struct SentRequest<'a> {
    pub method: &'a str,
    pub path: &'a str,
    pub query: &'a str,
    pub authorization: Option<&'a [u8]>,
}

/// Why an address is refused.
#[derive(Drop)]
enum AddressFault {
    Words(&'static str),
    Memory,
}

impl From<AllocError> for AddressFault {
    fn from(_: AllocError) -> AddressFault {
        AddressFault::Memory
    }
}

fn address_fault(why: &'static str) -> AddressFault {
    AddressFault::Words(why)
}

/// The indexes that the query names. None of them may stand twice.
fn named_indexes(alloc: Global, pairs: &[Pair]) -> Result<Vec<u32>, AddressFault> {
    match indexes_of(alloc, pairs)? {
        Some(indexes) => Ok(indexes),
        None => Err(address_fault("An index is a number below 4294967296.")),
    }
}

const ONCE: &str = "overwrite, mintNewSuffix and auth are true or false, each given once.";

fn is_set(alloc: Global, pairs: &[Pair], name: &str) -> Result<Option<bool>, AddressFault> {
    let mut values = values_named(alloc, pairs, name)?;
    if values.len() > 1 {
        return Err(address_fault(ONCE));
    }
    match values.pop() {
        Some("true") => Ok(Some(true)),
        Some("false") => Ok(Some(false)),
        Some(_) => Err(address_fault(ONCE)),
        None => Ok(None),
    }
}

/// Which indexes a body may have: any, or those that are named.
fn among(alloc: Global, pairs: &[Pair]) -> Result<Option<Vec<u32>>, AddressFault> {
    if values_named(alloc, pairs, "index")?
        .iter()
        .any(|word| *word == "various")
    {
        return Ok(None);
    }
    Ok(Some(named_indexes(alloc, pairs)?))
}

/// A handle whose suffix is drawn is new, so nothing is overwritten.
fn minting(alloc: Global, pairs: &[Pair]) -> Result<ChangeAction, AddressFault> {
    if has_pair(pairs, "index") || is_set(alloc, pairs, "overwrite")? == Some(true) {
        return Err(address_fault(
            "mintNewSuffix creates a new handle, so index and overwrite=true are refused.",
        ));
    }
    Ok(ChangeAction::Mint)
}

fn putting(alloc: Global, pairs: &[Pair]) -> Result<ChangeAction, AddressFault> {
    if is_set(alloc, pairs, "mintNewSuffix")? == Some(true) {
        return minting(alloc, pairs);
    }
    let overwrites = is_set(alloc, pairs, "overwrite")?.unwrap_or(true);
    if !has_pair(pairs, "index") {
        let way = if overwrites {
            WriteMode::Replace
        } else {
            WriteMode::Create
        };
        return Ok(ChangeAction::Put { way, among: None });
    }
    let way = if overwrites {
        WriteMode::Merge
    } else {
        WriteMode::Add
    };
    let among = among(alloc, pairs)?;
    Ok(ChangeAction::Put { way, among })
}

fn deleting(alloc: Global, pairs: &[Pair]) -> Result<ChangeAction, AddressFault> {
    if !has_pair(pairs, "index") {
        return Ok(ChangeAction::Delete);
    }
    let indexes = named_indexes(alloc, pairs)?;
    Ok(ChangeAction::Remove { indexes })
}

fn reading(alloc: Global, pairs: &[Pair]) -> Result<ChangeAction, AddressFault> {
    let indexes = named_indexes(alloc, pairs)?;
    let types = types_of(alloc, pairs)?;
    Ok(ChangeAction::Read { indexes, types })
}

/// What is done to a handle by this method.
fn act_of(alloc: Global, method: &str, pairs: &[Pair]) -> Result<ChangeAction, AddressFault> {
    match method {
        "PUT" => putting(alloc, pairs),
        "DELETE" => deleting(alloc, pairs),
        _ => reading(alloc, pairs),
    }
}

/// A number of the query, if it is there.
fn number_of(alloc: Global, pairs: &[Pair], name: &str) -> Result<Option<u32>, AddressFault> {
    match last_named(alloc, pairs, name)? {
        Some(text) => match text.parse::<u32>() {
            Ok(number) => Ok(Some(number)),
            Err(_) => Err(address_fault("page and pageSize are numbers below 4294967296.")),
        },
        None => Ok(None),
    }
}

fn listing(alloc: Global, pairs: &[Pair]) -> Result<ChangeAction, AddressFault> {
    if last_named(alloc, pairs, "prefix")?.is_none() {
        return Err(address_fault("Name the prefix to list, as in /api/handles?prefix=10."));
    }
    let page = number_of(alloc, pairs, "page")?.unwrap_or(0);
    let window = match number_of(alloc, pairs, "pageSize")? {
        Some(size) => Some(PageRange { page, size }),
        None => None,
    };
    Ok(ChangeAction::List { window })
}

fn bad_address(alloc: Global, asked: &[u8], why: &str) -> Result<Answer, AllocError>
    ensures undone { IfOk result (λ answer. says_done answer.status ≡ false) }
    ensures kept { IfOk result (λ answer. answer.cache_control ≡ Never) }
{
    let code = ResponseCode::InvalidHandle.number();
    refusal(alloc, Status::BadRequest, asked, code, why)
}

/// The answer if what is named is no handle, and why.
pub(crate) fn no_name(alloc: Global, asked: &[u8], fault: NameFault) -> Result<Answer, AllocError>
    ensures undone { IfOk result (λ answer. says_done answer.status ≡ false) }
    ensures kept { IfOk result (λ answer. answer.cache_control ≡ Never) }
{
    let why = format!(in alloc; "This is no handle: {fault}.")?;
    bad_address(alloc, asked, &why)
}

/// The name of these octets and the key of this field, or what is answered where one of them can't be read.
fn name_and_key(
    alloc: Global,
    octets: &[u8],
    field: Option<&[u8]>,
) -> Result<Result<(Name, Key), Answer>, AllocError> {
    match read_name(alloc, octets)? {
        Ok(name) => match read_key(alloc, field) {
            Ok(key) => Ok(Ok((name, key))),
            Err(fault) => Ok(Err(no_key(alloc, octets, fault)?)),
        },
        Err(fault) => Ok(Err(no_name(alloc, octets, fault)?)),
    }
}

/// The order of an act, where its name and its key can be read.
fn order_with(
    act: ChangeAction,
    read: Result<Result<(Name, Key), Answer>, AllocError>,
) -> Result<ParsedRequest, AllocError> {
    match read {
        Ok(Ok((name, key))) => Ok(ParsedRequest::Order(Order { name, key, act })),
        Ok(Err(answer)) => Ok(ParsedRequest::Answer(answer)),
        Err(refused) => Err(refused),
    }
}

/// The order of a handle's name, an act and the key that came with it, or why there is none.
fn order_of(
    alloc: Global,
    octets: &[u8],
    act: Result<ChangeAction, AddressFault>,
    field: Option<&[u8]>,
) -> Result<ParsedRequest, AllocError> {
    match act {
        Ok(act) => order_with(act, name_and_key(alloc, octets, field)),
        Err(AddressFault::Memory) => Err(AllocError),
        Err(AddressFault::Words(why)) => Ok(ParsedRequest::Answer(bad_address(
            alloc, octets, why,
        )?)),
    }
}

/// The answer to a request without a key that can be read.
fn no_key(alloc: Global, asked: &[u8], fault: CredentialFault) -> Result<Answer, AllocError> {
    let code = match fault {
        CredentialFault::Memory => return Err(AllocError),
        CredentialFault::Missing => ResponseCode::AuthenticationNeeded,
        _ => ResponseCode::InvalidCredential,
    };
    let why = format!(in alloc; "{fault}")?;
    refusal(alloc, Status::Unauthorized, asked, code.number(), &why)
}

/// The octets of the administrative handle of the prefix that is named.
fn prefix_handle(alloc: Global, pairs: &[Pair]) -> Result<Vec<u8>, AllocError> {
    let mut handle = Vec::from_slice(alloc, b"0.NA/")?;
    if let Some(prefix) = last_named(alloc, pairs, "prefix")? {
        handle.extend_from_slice(prefix.as_bytes())?;
    }
    Ok(handle)
}

fn begin_list(
    alloc: Global,
    sent: SentRequest<'_>,
    pairs: &[Pair],
) -> Result<ParsedRequest, AllocError> {
    let octets = prefix_handle(alloc, pairs)?;
    order_of(alloc, &octets, listing(alloc, pairs), sent.authorization)
}

fn begin_handle(
    alloc: Global,
    sent: SentRequest<'_>,
    text: &str,
    pairs: &[Pair],
) -> Result<ParsedRequest, AllocError> {
    let octets = unescape(alloc, text)?;
    let act = act_of(alloc, sent.method, pairs);
    order_of(alloc, &octets, act, sent.authorization)
}

fn other_method(alloc: Global, path: &str) -> Result<ParsedRequest, AllocError>
    ensures { (method : List ℕ) → (pairs : List (List ℕ × List ℕ)) → IfOk result (HasKnownWords method pairs) }
{
    let why = "Use GET or HEAD to read a handle, PUT or DELETE to change it.";
    let code = ResponseCode::OperationDenied.number();
    let answer = refusal(alloc, Status::MethodNotAllowed, path.as_bytes(), code, why)?;
    Ok(ParsedRequest::Answer(answer))
}

/// A request that reads: with a key where that is asked for.
fn begin_reading(alloc: Global, sent: SentRequest<'_>) -> Result<ParsedRequest, AllocError> {
    let pairs = read_pairs(alloc, sent.query)?;
    if sent.path == LIST_PATH {
        return begin_list(alloc, sent, &pairs);
    }
    let Some(text) = sent.path.strip_prefix(HANDLES_PATH) else {
        return Ok(ParsedRequest::Other);
    };
    match is_set(alloc, &pairs, "auth") {
        Ok(Some(true)) => begin_handle(alloc, sent, text, &pairs),
        Err(AddressFault::Memory) => Err(AllocError),
        _ => Ok(ParsedRequest::Other),
    }
}

const KNOWN: &str =
    "The query has an unknown parameter. Nothing was done. A PUT takes overwrite, index and mintNewSuffix, a DELETE index.";

/// The answer to a query with an unknown parameter: none is ignored, since it may change what is meant.
fn unknown_word(alloc: Global, text: &str) -> Result<ParsedRequest, AllocError>
    ensures { (method : List ℕ) → (pairs : List (List ℕ × List ℕ)) → IfOk result (HasKnownWords method pairs) }
{
    let octets = unescape(alloc, text)?;
    Ok(ParsedRequest::Answer(bad_address(alloc, &octets, KNOWN)?))
}

/// What is to be done for a change of the handle that this text names.
fn begin_change(
    alloc: Global,
    sent: SentRequest<'_>,
    text: &str,
    pairs: &[Pair],
) -> Result<ParsedRequest, AllocError>
    ensures { IfOk result (HasKnownWords sent.entry.method.now (texts_of pairs.now)) }
{
    if !are_known(sent.method, pairs) {
        return unknown_word(alloc, text);
    }
    begin_handle(alloc, sent, text, pairs)
}

fn begin_changing(alloc: Global, sent: SentRequest<'_>) -> Result<ParsedRequest, AllocError>
    ensures { IfOk result (HasKnownWords sent.entry.method.now (pairs_of sent.entry.query.now)) }
{
    match sent.path.strip_prefix(HANDLES_PATH) {
        Some(text) => {
            let pairs = read_pairs(alloc, sent.query)?;
            begin_change(alloc, sent, text, &pairs)
        }
        None => other_method(alloc, sent.path),
    }
}

/// What is to be done for a request, where the proxy changes handles: PUT and DELETE of a handle's address under `/api/handles/`, GET of
/// it with `auth=true`, and GET of `/api/handles`, each with a key; OPTIONS of any address under `/api/`. Every other request that reads is
/// [`ParsedRequest::Other`]. A change is refused where its query has a word that isn't known.
pub fn begin_with_key(alloc: Global, sent: SentRequest<'_>) -> Result<ParsedRequest, AllocError>
    ensures { IsChanging sent.entry.method.now → IfOk result (HasKnownWords sent.entry.method.now (pairs_of sent.entry.query.now)) }
{
    if !sent.path.starts_with(JSON_PATH) {
        return Ok(ParsedRequest::Other);
    }
    match sent.method {
        "GET" | "HEAD" => begin_reading(alloc, sent),
        "PUT" | "DELETE" => begin_changing(alloc, sent),
        "OPTIONS" => Ok(ParsedRequest::Answer(options(alloc))),
        _ => other_method(alloc, sent.path),
    }
}
