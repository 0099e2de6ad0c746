//! What is asked, as JSON.

ghost use Rattle.std.specs.Prelude.{◌≡◌, ◌∷◌, [], Some, map, IfOk, OnOk, string_bytes};
ghost use Rattle.serde_json.specs.Data.{put, string, array, no_members};
ghost use Rattle.serde_json.specs.Read.{read};
ghost use Rattle.serde_json.specs.View.{view, items_of, members_view};
ghost use Rattle.hdl_etcd.specs.Asking.{base64_json, single, keys_members, fence_json, operation_json, read_json, transaction_json, range_json, watch_json};

use base64::engine::general_purpose::STANDARD;
use serde_json::{Map, Value as Json, put};
use std::alloc::{AllocError, Global};

/// What must hold of a key.
#[derive(Clone, Copy)]
pub enum Compare<'a> {
    /// It has this value.
    Has(&'a [u8], &'a [u8]),
    /// It isn't there.
    IsAbsent(&'a [u8]),
}

/// What is done to a key.
#[derive(Clone, Copy)]
pub enum Operation<'a> {
    Put(&'a [u8], &'a [u8]),
    Delete(&'a [u8]),
}

/// If the fence holds, all operations are made, and else the other key is read.
#[derive(Clone, Copy)]
pub struct Transaction<'a> {
    pub fence: Compare<'a>,
    pub operations: &'a [Operation<'a>],
    pub otherwise: &'a [u8],
}

/// Keys from one on, up to another that isn't among them.
#[derive(Clone, Copy)]
pub struct KeyRange<'a> {
    pub from: &'a [u8],
    pub to: &'a [u8],
}

/// Puts octets, in base64, under a name.
fn put_octets(
    alloc: Global,
    object: &mut Map<String, Json>,
    name: &str,
    octets: &[u8],
) -> Result<(), AllocError>
    ensures { OnOk result (members_view object.new.entries ≡ put name.now (base64_json octets.now) (members_view object.old.entries)) }
{
    put(
        object,
        alloc,
        name,
        Json::from(STANDARD.encode(alloc, octets)?),
    )
}

/// Puts text under a name.
fn put_text(
    alloc: Global,
    object: &mut Map<String, Json>,
    name: &str,
    text: &str,
) -> Result<(), AllocError>
    ensures { OnOk result (members_view object.new.entries ≡ put name.now (string text.now) (members_view object.old.entries)) }
{
    put(
        object,
        alloc,
        name,
        Json::from(String::from_str(alloc, text)?),
    )
}

/// An object of one member.
fn single(alloc: Global, name: &str, told: Json) -> Result<Json, AllocError>
    ensures { IfOk result (λ json. view json ≡ single name.now (view told)) }
{
    let mut object = Map::new(alloc);
    put(&mut object, alloc, name, told)?;
    Ok(Json::from(object))
}

/// An array of one item.
fn only(alloc: Global, told: Json) -> Result<Json, AllocError>
    ensures { IfOk result (λ json. view json ≡ array (items_of (view told ∷ []))) }
{
    let mut list = Vec::new(alloc);
    list.push(told)?;
    Ok(Json::from(list))
}

#[tactic(auto, unfolding(crate::specs::Asking::fence_json))]
fn fence_json(alloc: Global, fence: &Compare<'_>) -> Result<Json, AllocError>
    ensures { IfOk result (λ json. view json ≡ fence_json fence.now) }
{
    let mut object = Map::new(alloc);
    put_text(alloc, &mut object, "result", "EQUAL")?;
    match fence {
        Compare::Has(key, value) => {
            put_text(alloc, &mut object, "target", "VALUE")?;
            put_octets(alloc, &mut object, "key", key)?;
            put_octets(alloc, &mut object, "value", value)?;
        }
        Compare::IsAbsent(key) => {
            put_text(alloc, &mut object, "target", "CREATE")?;
            put_octets(alloc, &mut object, "key", key)?;
            put_text(alloc, &mut object, "create_revision", "0")?;
        }
    }
    Ok(Json::from(object))
}

#[tactic(auto, unfolding(crate::specs::Asking::operation_json))]
fn operation_json(alloc: Global, operation: &Operation<'_>) -> Result<Json, AllocError>
    ensures { IfOk result (λ json. view json ≡ operation_json operation.now) }
{
    let mut object = Map::new(alloc);
    match operation {
        Operation::Put(key, value) => {
            put_octets(alloc, &mut object, "key", key)?;
            put_octets(alloc, &mut object, "value", value)?;
            single(alloc, "request_put", Json::from(object))
        }
        Operation::Delete(key) => {
            put_octets(alloc, &mut object, "key", key)?;
            single(alloc, "request_delete_range", Json::from(object))
        }
    }
}

fn operations_json(alloc: Global, operations: &[Operation<'_>]) -> Result<Json, AllocError>
    ensures { IfOk result (λ json. view json ≡ array (items_of (map operation_json operations.now))) }
{
    let mut list = Vec::new(alloc);
    for operation in operations {
        list.push(operation_json(alloc, operation)?)?;
    }
    Ok(Json::from(list))
}

#[tactic(auto, unfolding(crate::specs::Asking::read_json))]
fn read_json(alloc: Global, key: &[u8]) -> Result<Json, AllocError>
    ensures { IfOk result (λ json. view json ≡ read_json key.now) }
{
    let mut object = Map::new(alloc);
    put_octets(alloc, &mut object, "key", key)?;
    single(alloc, "request_range", Json::from(object))
}

#[tactic(auto, unfolding(crate::specs::Asking::transaction_json))]
fn transaction_json(alloc: Global, transaction: &Transaction<'_>) -> Result<Json, AllocError>
    ensures { IfOk result (λ json. view json ≡ transaction_json transaction.now) }
{
    let mut object = Map::new(alloc);
    let fence = only(alloc, fence_json(alloc, &transaction.fence)?)?;
    put(&mut object, alloc, "compare", fence)?;
    let operations = operations_json(alloc, transaction.operations)?;
    put(&mut object, alloc, "success", operations)?;
    let otherwise = only(alloc, read_json(alloc, transaction.otherwise)?)?;
    put(&mut object, alloc, "failure", otherwise)?;
    Ok(Json::from(object))
}

/// The body of `POST /v3/kv/txn`.
pub fn transaction_text(alloc: Global, transaction: &Transaction<'_>) -> Result<String, AllocError>
    ensures reads { IfOk result (λ text. read (string_bytes text) ≡ Some (transaction_json transaction.now)) }
{
    let json = transaction_json(alloc, transaction)?;
    json.to_string(alloc)
}

#[tactic(auto, unfolding(crate::specs::Asking::keys_members))]
fn put_keys(
    alloc: Global,
    object: &mut Map<String, Json>,
    keys: &KeyRange<'_>,
) -> Result<(), AllocError>
    ensures { OnOk result (members_view object.old.entries ≡ no_members → members_view object.new.entries ≡ keys_members keys.now) }
{
    put_octets(alloc, object, "key", keys.from)?;
    put_octets(alloc, object, "range_end", keys.to)
}

#[tactic(auto, unfolding(crate::specs::Asking::range_json))]
fn range_json(
    alloc: Global,
    keys: &KeyRange<'_>,
    limit: u32,
    revision: &str,
) -> Result<Json, AllocError>
    ensures { IfOk result (λ json. view json ≡ range_json keys.now limit revision.now) }
{
    let mut object = Map::new(alloc);
    put_keys(alloc, &mut object, keys)?;
    put(&mut object, alloc, "limit", Json::from(limit))?;
    put_text(alloc, &mut object, "revision", revision)?;
    Ok(Json::from(object))
}

/// The body of `POST /v3/kv/range`: at most so many of the keys, as they are at this revision, the text of a number; at "0" as they are now.
pub fn range_text(
    alloc: Global,
    keys: &KeyRange<'_>,
    limit: u32,
    revision: &str,
) -> Result<String, AllocError>
    ensures reads { IfOk result (λ text. read (string_bytes text) ≡ Some (range_json keys.now limit revision.now)) }
{
    let json = range_json(alloc, keys, limit, revision)?;
    json.to_string(alloc)
}

#[tactic(auto, unfolding(crate::specs::Asking::watch_json))]
fn watch_json(alloc: Global, keys: &KeyRange<'_>, revision: &str) -> Result<Json, AllocError>
    ensures { IfOk result (λ json. view json ≡ watch_json keys.now revision.now) }
{
    let mut object = Map::new(alloc);
    put_keys(alloc, &mut object, keys)?;
    put_text(alloc, &mut object, "start_revision", revision)?;
    let kind = Json::from(String::from_str(alloc, "NODELETE")?);
    put(&mut object, alloc, "filters", only(alloc, kind)?)?;
    single(alloc, "create_request", Json::from(object))
}

/// The body of `POST /v3/watch`: what is put under the keys from this revision on.
pub fn watch_text(alloc: Global, keys: &KeyRange<'_>, revision: &str) -> Result<String, AllocError>
    ensures reads { IfOk result (λ text. read (string_bytes text) ≡ Some (watch_json keys.now revision.now)) }
{
    let json = watch_json(alloc, keys, revision)?;
    json.to_string(alloc)
}
