//! The record of a handle in JSON.

ghost use Rattle.std.specs.Prelude.{◌≡◌, ◌⊎◌, option_map, ◌+◌, ◌≤◌, ◌<◌, ◌^◌, ◌∷◌, [], length, map, IfOk, IfErr, IfNone};
ghost use Rattle.hdl_limits.specs.declared.TheConstants.{WRITTEN_MAX};
ghost use Rattle.hdl_value.specs.Reading.{Reads};
ghost use Rattle.serde_json.specs.Data.{Data};
ghost use Rattle.serde_json.specs.Read.{read};
ghost use Rattle.serde_json.specs.View.{view, items_view};
ghost use Rattle.hdl_rest.specs.Entry.{value_in_json};
ghost use Rattle.hdl_rest.specs.Record.{value_in_record, values_from, has_index, twice_from, distinct_at, entries_in_json, listed_in, is_single, values_in_json, strange_in, record_in_json, text_in, record_in, IsRecordFault};
ghost use Rattle.hdl_rest.specs.Keys.{SaysAgain, SaysOnce};

use crate::entry::value_in_json;
use crate::fault::{EntryFault, RecordFault};
use crate::keys::has_unique_keys;
use crate::shapes::{Shape, all_fit, entry_fits};
use hdl_limits::WRITTEN_MAX;
use hdl_value::Value;
use serde_json::Value as Json;
use std::alloc::{AllocError, Global};

/// The value at this place of a record.
fn value_in_record(alloc: Global, place: u64, json: &Json) -> Result<Value, RecordFault>
    ensures value { IfOk result (λ v. value_in_record place (value_in_json (view json.now)) ≡ Ok v) }
    ensures fault { IfErr result (IsRecordFault (value_in_record place (value_in_json (view json.now)))) }
{
    match value_in_json(alloc, json) {
        Ok(value) => Ok(value),
        Err(EntryFault::Memory) => Err(RecordFault::Memory),
        Err(fault) => Err(RecordFault::Entry { place, fault }),
    }
}

/// The values that these are.
fn values_in(alloc: Global, list: &[Json]) -> Result<Vec<Value>, RecordFault>
    ensures value { IfOk result (λ v. values_from 1 (map view list.now) ≡ Ok v.items) }
    ensures fault { IfErr result (IsRecordFault (values_from 1 (map view list.now))) }
{
    let mut values = Vec::new(alloc);
    let mut place = 1;
    for json in list {
        values.push(value_in_record(alloc, place, json)?)?;
        place += 1;
    }
    Ok(values)
}

/// Whether one of these has this index.
pub(crate) fn has_index(index: u32, values: &[Value]) -> bool
    ensures { result ≡ has_index index values.now }
{
    values.iter().any(|value| value.index == index)
}

/// The place of the first value whose index stands after it again; the first of these values is at `place`.
fn twice_from(place: u64, values: &[Value]) -> Option<u64>
    requires { place + length values.now < 2 ^ 64 }
    ensures { result ≡ twice_from place values.now }
{
    let [value, rest @ ..] = values else {
        return None;
    };
    if has_index(value.index, rest) {
        return Some(place);
    }
    twice_from(place + 1, rest)
}

/// A record of these values: one or more, not too many, no index twice.
#[tactic(auto, unfolding(crate::specs::Record::entries_in_json))]
fn entries_in_json(alloc: Global, list: &[Json]) -> Result<Vec<Value>, RecordFault>
    ensures value { IfOk result (λ v. entries_in_json (map view list.now) ≡ Ok v.items) }
    ensures fault { IfErr result (IsRecordFault (entries_in_json (map view list.now))) }
{
    if list.is_empty() {
        return Err(RecordFault::Empty);
    }
    if list.len() > WRITTEN_MAX {
        return Err(RecordFault::Many);
    }
    let values = values_in(alloc, list)?;
    match twice_from(1, &values) {
        None => Ok(values),
        Some(place) => Err(RecordFault::Twice { place }),
    }
}

/// The list in a body: the body, or its member `values`.
fn listed_in(json: &Json) -> Option<&[Json]>
    ensures { Reads (λ list. items_view list.now) result (listed_in (view json.now)) }
{
    if let Some(list) = json.as_array() {
        return Some(list);
    }
    Some(json.get("values")?.as_array()?)
}

/// A record that is one value.
#[tactic(auto, unfolding(crate::specs::Record::entries_in_json))]
fn single_in_json(alloc: Global, json: &Json) -> Result<Vec<Value>, RecordFault>
    ensures value { IfOk result (λ v. entries_in_json (view json.now ∷ []) ≡ Ok v.items) }
    ensures fault { IfErr result (IsRecordFault (entries_in_json (view json.now ∷ []))) }
{
    let mut values = Vec::new(alloc);
    values.push(value_in_record(alloc, 1, json)?)?;
    Ok(values)
}

/// The values that a body means: an object with a list of values as its `values`, such a list, or one value.
#[tactic(auto, using(crate::proofs::Items::each_items_of), unfolding(crate::specs::Record::values_in_json))]
fn values_in_json(alloc: Global, json: &Json) -> Result<Vec<Value>, RecordFault>
    ensures value { IfOk result (λ v. values_in_json (view json.now) ≡ Ok v.items) }
    ensures fault { IfErr result (IsRecordFault (values_in_json (view json.now))) }
{
    if let Some(list) = listed_in(json) {
        return entries_in_json(alloc, list);
    }
    if json.is_object() && json.get("values").is_none() {
        return single_in_json(alloc, json);
    }
    Err(RecordFault::Shape)
}

/// The first member that isn't known: of the body, or else of its values.
#[tactic(auto, using(crate::proofs::Items::each_items_of))]
fn strange_in(json: &Json) -> Option<RecordFault>
    ensures { result ≡ strange_in (view json.now) }
{
    match listed_in(json) {
        Some(_) if !Shape::Body.fits(json) => Some(RecordFault::Members),
        Some(list) if !all_fit(list) => Some(RecordFault::Strange),
        None if !entry_fits(json) => Some(RecordFault::Strange),
        _ => None,
    }
}

/// The record that a body means, which has no member but those that are known.
#[tactic(auto, unfolding(crate::specs::Record::record_in_json))]
fn record_in_json(alloc: Global, json: &Json) -> Result<Vec<Value>, RecordFault>
    ensures value { IfOk result (λ v. record_in_json (view json.now) ≡ Ok v.items) }
    ensures fault { IfErr result (IsRecordFault (record_in_json (view json.now))) }
{
    let values = values_in_json(alloc, json)?;
    match strange_in(json) {
        None => Ok(values),
        Some(fault) => Err(fault),
    }
}

/// A body as text.
fn text_in(body: &[u8]) -> Option<&str>
    ensures { Reads (λ t. t.now) result (text_in body.now) }
{
    match str::from_utf8(body) {
        Ok(text) => Some(text),
        _ => None,
    }
}

/// The JSON that a text is, if it is some.
fn json_in(alloc: Global, text: &str) -> Result<Option<Json>, AllocError>
    ensures { IfOk result (λ o. option_map view o ≡ read text.now) }
{
    match Json::from_str(alloc, text) {
        Ok(json) => Ok(Some(json)),
        Err(error) if error.is_memory() => Err(AllocError),
        Err(_) => Ok(None),
    }
}

/// The record that a body means, or the first thing that is wrong with it: it is no JSON; it has no list of values, an empty one, or one
/// that is too long; then the first value that is none, by its fields in their order; then an index that stands twice; then a member that isn't known. A
/// body in which an object has a key twice is refused too.
#[tactic(auto, unfolding(crate::specs::Record::record_in))]
pub fn read_record(alloc: Global, body: &[u8]) -> Result<Vec<Value>, RecordFault>
    ensures value { IfOk result (λ v. record_in body.now ≡ Ok v.items) }
    ensures once { IfOk result (λ _. SaysOnce body.now) }
    ensures fault { IfErr result (λ e. IsRecordFault (record_in body.now) e ⊎ ((e ≡ RecordFault.Again) × SaysAgain body.now)) }
{
    let Some(text) = text_in(body) else {
        return Err(RecordFault::Json);
    };
    let Some(json) = json_in(alloc, text)? else {
        return Err(RecordFault::Json);
    };
    if !has_unique_keys(alloc, text, &json)? {
        return Err(RecordFault::Again);
    }
    record_in_json(alloc, &json)
}
