//! What is answered, read from JSON.

ghost use Rattle.std.specs.Prelude.{◌≡◌, Ok, map, option_map, option_copied, IfOk, IfErr};
ghost use Rattle.serde_json.specs.Read.{read};
ghost use Rattle.serde_json.specs.View.{view};
ghost use Rattle.hdl_etcd.specs.Answers.{text_in, json_in, IsFault, octets_by, pair_in, pairs_from, pairs_by, puts_from, puts_by, says, revision_in, page_in_json, page_in, outcome_in_json, outcome_in, watched_in_json, watched_in};

use crate::fault::EtcdFault;
use base64::DecodeAllocError;
use base64::engine::general_purpose::STANDARD;
use hdl_limits::{Items, Octets};
use serde_json::Value as Json;
use std::alloc::{AllocError, Global};

/// A key with its value.
#[derive(Drop)]
pub struct Pair {
    pub key: Octets,
    pub value: Octets,
}

/// A page of a range.
#[derive(Drop)]
pub struct RangeResponse {
    pub pairs: Items<Pair>,
    /// Whether keys stand behind it.
    pub has_more: bool,
    /// The number of the revision, in text.
    pub revision: Octets,
}

/// What came of a transaction.
#[derive(Drop)]
pub enum Outcome {
    /// All operations were made.
    Made,
    /// The fence didn't hold, and nothing was made. This stands at the other key, if something does.
    NotMade(Items<Pair>),
}

/// What a line of a watch tells.
#[derive(Drop)]
pub struct WatchEvents {
    /// What was put.
    pub pairs: Items<Pair>,
    /// Whether no line comes after it.
    pub is_over: bool,
}

/// A body as text.
fn text_in(body: &[u8]) -> Option<&str>
    ensures { option_map (λ text. text.now) result ≡ text_in body.now }
{
    match str::from_utf8(body) {
        Ok(text) => Some(text),
        _ => None,
    }
}

/// The JSON that a text is, if it is some.
fn json_of(alloc: Global, text: &str) -> Result<Option<Json>, AllocError>
    ensures { IfOk result (λ o. option_map view o ≡ read text.now) }
{
    match Json::from_str(alloc, text) {
        Ok(json) => Ok(Some(json)),
        Err(error) if error.is_memory() => Err(AllocError),
        Err(_) => Ok(None),
    }
}

/// The JSON that a body is.
fn json_in(alloc: Global, body: &[u8]) -> Result<Json, EtcdFault>
    ensures value { IfOk result (λ json. json_in body.now ≡ Ok (view json)) }
    ensures fault { IfErr result (IsFault (json_in body.now)) }
{
    let Some(text) = text_in(body) else {
        return Err(EtcdFault::Malformed);
    };
    match json_of(alloc, text)? {
        Some(json) => Ok(json),
        None => Err(EtcdFault::Malformed),
    }
}

/// The octets that a member spells in base64. A member that isn't there spells none.
fn octets_of(alloc: Global, json: Option<&Json>) -> Result<Octets, EtcdFault>
    ensures value { IfOk result (λ octets. octets_by (option_map view (option_copied json.entry)) ≡ Ok octets) }
    ensures fault { IfErr result (IsFault (octets_by (option_map view (option_copied json.entry)))) }
{
    let Some(json) = json else {
        return Ok(Octets::new(Vec::new(alloc)));
    };
    let Some(text) = json.as_str() else {
        return Err(EtcdFault::Malformed);
    };
    match STANDARD.decode(alloc, text.as_bytes()) {
        Ok(octets) => Ok(Octets::new(octets)),
        Err(DecodeAllocError::OutOfMemory) => Err(EtcdFault::Memory),
        Err(DecodeAllocError::DecodeError(_)) => Err(EtcdFault::Malformed),
    }
}

#[tactic(auto, unfolding(crate::specs::Answers::pair_in))]
fn pair_of(alloc: Global, json: &Json) -> Result<Pair, EtcdFault>
    ensures value { IfOk result (λ pair. pair_in (view json.now) ≡ Ok pair) }
    ensures fault { IfErr result (IsFault (pair_in (view json.now))) }
{
    let key = octets_of(alloc, json.get("key"))?;
    let value = octets_of(alloc, json.get("value"))?;
    Ok(Pair { key, value })
}

/// The pairs that these are.
fn pairs_from(alloc: Global, list: &[Json]) -> Result<Vec<Pair>, EtcdFault>
    ensures value { IfOk result (λ pairs. pairs_from (map view list.now) ≡ Ok pairs.items) }
    ensures fault { IfErr result (IsFault (pairs_from (map view list.now))) }
{
    let mut pairs = Vec::new(alloc);
    for json in list {
        pairs.push(pair_of(alloc, json)?)?;
    }
    Ok(pairs)
}

/// The pairs of a member that is an array. A member that isn't there has none.
#[tactic(auto, using(crate::proofs::Items::each_items_of))]
fn pairs_of(alloc: Global, json: Option<&Json>) -> Result<Items<Pair>, EtcdFault>
    ensures value { IfOk result (λ pairs. pairs_by (option_map view (option_copied json.entry)) ≡ Ok pairs) }
    ensures fault { IfErr result (IsFault (pairs_by (option_map view (option_copied json.entry)))) }
{
    let Some(json) = json else {
        return Ok(Items::new(Vec::new(alloc)));
    };
    match json.as_array() {
        Some(list) => Ok(Items::new(pairs_from(alloc, list)?)),
        None => Err(EtcdFault::Malformed),
    }
}

/// Whether the member of this name is true.
fn says(json: &Json, name: &str) -> bool
    ensures { result ≡ says name.now (view json.now) }
{
    json.get(name).and_then(Json::as_bool) == Some(true)
}

/// The revision in an answer's header.
fn revision_of(alloc: Global, json: &Json) -> Result<Octets, EtcdFault>
    ensures value { IfOk result (λ revision. revision_in (view json.now) ≡ Ok revision) }
    ensures fault { IfErr result (IsFault (revision_in (view json.now))) }
{
    let Some(header) = json.get("header") else {
        return Err(EtcdFault::Malformed);
    };
    match header.get("revision").and_then(Json::as_str) {
        Some(text) => Ok(Octets::new(Vec::from_slice(alloc, text.as_bytes())?)),
        None => Err(EtcdFault::Malformed),
    }
}

#[tactic(auto, unfolding(crate::specs::Answers::page_in_json))]
fn page_in_json(alloc: Global, json: &Json) -> Result<RangeResponse, EtcdFault>
    ensures value { IfOk result (λ page. page_in_json (view json.now) ≡ Ok page) }
    ensures fault { IfErr result (IsFault (page_in_json (view json.now))) }
{
    let revision = revision_of(alloc, json)?;
    let pairs = pairs_of(alloc, json.get("kvs"))?;
    Ok(RangeResponse {
        pairs,
        has_more: says(json, "more"),
        revision,
    })
}

/// The page that a range is answered by.
#[tactic(auto, unfolding(crate::specs::Answers::page_in))]
pub fn range_response_of(alloc: Global, body: &[u8]) -> Result<RangeResponse, EtcdFault>
    ensures value { IfOk result (λ page. page_in body.now ≡ Ok page) }
    ensures fault { IfErr result (IsFault (page_in body.now)) }
{
    let json = json_in(alloc, body)?;
    page_in_json(alloc, &json)
}

#[tactic(auto, unfolding(crate::specs::Answers::outcome_in_json))]
fn outcome_in_json(alloc: Global, json: &Json) -> Result<Outcome, EtcdFault>
    ensures value { IfOk result (λ outcome. outcome_in_json (view json.now) ≡ Ok outcome) }
    ensures fault { IfErr result (IsFault (outcome_in_json (view json.now))) }
{
    if says(json, "succeeded") {
        return Ok(Outcome::Made);
    }
    let Some(responses) = json.get("responses") else {
        return Err(EtcdFault::Malformed);
    };
    let Some(range) = responses
        .get(0)
        .and_then(|first| first.get("response_range"))
    else {
        return Err(EtcdFault::Malformed);
    };
    Ok(Outcome::NotMade(pairs_of(alloc, range.get("kvs"))?))
}

/// What came of a transaction, by its answer.
#[tactic(auto, unfolding(crate::specs::Answers::outcome_in))]
pub fn transaction_outcome_of(alloc: Global, body: &[u8]) -> Result<Outcome, EtcdFault>
    ensures value { IfOk result (λ outcome. outcome_in body.now ≡ Ok outcome) }
    ensures fault { IfErr result (IsFault (outcome_in body.now)) }
{
    let json = json_in(alloc, body)?;
    outcome_in_json(alloc, &json)
}

/// What these events put.
fn puts_from(alloc: Global, list: &[Json]) -> Result<Vec<Pair>, EtcdFault>
    ensures value { IfOk result (λ pairs. puts_from (map view list.now) ≡ Ok pairs.items) }
    ensures fault { IfErr result (IsFault (puts_from (map view list.now))) }
{
    let mut pairs = Vec::new(alloc);
    for json in list {
        let Some(put) = json.get("kv") else {
            return Err(EtcdFault::Malformed);
        };
        pairs.push(pair_of(alloc, put)?)?;
    }
    Ok(pairs)
}

/// What the events of a member put. A member that isn't there has none.
#[tactic(auto, using(crate::proofs::Items::each_items_of))]
fn puts_of(alloc: Global, json: Option<&Json>) -> Result<Items<Pair>, EtcdFault>
    ensures value { IfOk result (λ pairs. puts_by (option_map view (option_copied json.entry)) ≡ Ok pairs) }
    ensures fault { IfErr result (IsFault (puts_by (option_map view (option_copied json.entry)))) }
{
    let Some(json) = json else {
        return Ok(Items::new(Vec::new(alloc)));
    };
    match json.as_array() {
        Some(list) => Ok(Items::new(puts_from(alloc, list)?)),
        None => Err(EtcdFault::Malformed),
    }
}

#[tactic(auto, unfolding(crate::specs::Answers::watched_in_json))]
fn watched_in_json(alloc: Global, json: &Json) -> Result<WatchEvents, EtcdFault>
    ensures value { IfOk result (λ watched. watched_in_json (view json.now) ≡ Ok watched) }
    ensures fault { IfErr result (IsFault (watched_in_json (view json.now))) }
{
    let Some(told) = json.get("result") else {
        return Err(EtcdFault::Malformed);
    };
    let pairs = puts_of(alloc, told.get("events"))?;
    Ok(WatchEvents {
        pairs,
        is_over: says(told, "canceled"),
    })
}

/// What a line of a watch tells.
#[tactic(auto, unfolding(crate::specs::Answers::watched_in))]
pub fn watch_events_of(alloc: Global, line: &[u8]) -> Result<WatchEvents, EtcdFault>
    ensures value { IfOk result (λ watched. watched_in line.now ≡ Ok watched) }
    ensures fault { IfErr result (IsFault (watched_in line.now)) }
{
    let json = json_in(alloc, line)?;
    watched_in_json(alloc, &json)
}
