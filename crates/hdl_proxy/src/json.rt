//! Values as JSON, in the form of the Handle.Net proxy's REST interface.

ghost use Rattle.std.specs.Prelude.{◌≡◌, false, List, [], IfOk, OnOk, option_map, string_bytes};
ghost use Rattle.std.specs.List.{AllZip};
ghost use Rattle.serde_json.specs.Data.{Data, array, object, no_members};
ghost use Rattle.serde_json.specs.View.{view, items_of, members_view};
ghost use Rattle.serde_json.specs.Written.{IsInOrder, compact_text, has_float};
ghost use Rattle.hdl_value.specs.Refs.{raw, raws};
ghost use Rattle.hdl_proxy.specs.Json.{put_text as with_text, with_format, reference_members, reference_json, admin_json, list_json, base64_json, text_json, octets_json, data_json, is_text, kept_json, put_written, written_json, put_permissions, value_json, answer_json, refusal_json, IsValueJson, IsJsonOf, IsPrettyOf};
ghost use Rattle.hdl_proxy.specs.Answer.{Tells};

use crate::answer::{Answer, CacheControl, Media, Status};
use crate::names::text_of;
use crate::words::{
    CacheLifetime, cache_lifetime, permission_digits, usual_permissions, value_digits,
    written_words,
};
use base64::engine::general_purpose::STANDARD;
use hdl_value::{
    AdminMask, HS_ADMIN, HS_PUBKEY, HS_SITE, HS_VLIST, Reference, Value, admin_of, vlist_of,
};
use serde_json::{Map, Value as Json, put};
use std::alloc::{AllocError, Global};

/// An answer in JSON, without a space, which others may keep so.
fn kept_answer(
    alloc: Global,
    status: Status,
    cache_control: CacheControl,
    json: &Json,
) -> Result<Answer, AllocError>
    ensures told { IfOk result (Tells status Media.Json) }
    ensures kept { IfOk result (λ a. a.cache_control ≡ cache_control) }
    ensures title { IfOk result (λ a. a.title.items ≡ []) }
    ensures body { IfOk result (λ a. has_float (view json.now) ≡ false → a.body.items ≡ compact_text (view json.now)) }
{
    let text = json.to_string(alloc)?;
    Ok(Answer::new(alloc, status, Media::Json, cache_control, text.into_bytes()))
}

/// An answer in JSON, which may not be cached.
pub fn json_answer(alloc: Global, status: Status, json: &Json) -> Result<Answer, AllocError>
    ensures told { IfOk result (Tells status Media.Json) }
    ensures kept { IfOk result (λ a. a.cache_control ≡ CacheControl.Never) }
    ensures title { IfOk result (λ a. a.title.items ≡ []) }
    ensures body { IfOk result (λ a. has_float (view json.now) ≡ false → a.body.items ≡ compact_text (view json.now)) }
{
    kept_answer(alloc, status, CacheControl::Never, json)
}

/// Puts a member that is text; octets that are none by their hexadecimal digits.
pub fn put_text(
    alloc: Global,
    object: &mut Map<String, Json>,
    key: &str,
    octets: &[u8],
) -> Result<(), AllocError>
    ensures { OnOk result (members_view object.new.entries ≡ with_text key.now octets.now (members_view object.old.entries)) }
{
    let text = text_of(alloc, octets)?;
    put(object, alloc, key, Json::from(text))
}

#[tactic(auto, unfolding(crate::specs::Json::refusal_json))]
fn refusal_json(alloc: Global, asked: &[u8], code: u32, why: &str) -> Result<Json, AllocError>
    ensures { IfOk result (λ json. view json ≡ refusal_json asked.now code why.now) }
{
    let mut object = Map::new(alloc);
    put(&mut object, alloc, "responseCode", Json::from(code))?;
    put_text(alloc, &mut object, "handle", asked)?;
    put_text(alloc, &mut object, "message", why.as_bytes())?;
    Ok(Json::from(object))
}

/// What was asked, and the code of a reply without values.
pub fn refusal(
    alloc: Global,
    status: Status,
    asked: &[u8],
    code: u32,
    why: &str,
) -> Result<Answer, AllocError>
    ensures told { IfOk result (Tells status Media.Json) }
    ensures kept { IfOk result (λ a. a.cache_control ≡ CacheControl.Never) }
    ensures title { IfOk result (λ a. a.title.items ≡ []) }
    ensures body { IfOk result (λ a. a.body.items ≡ compact_text (refusal_json asked.now code why.now)) }
{
    let json = refusal_json(alloc, asked, code, why)?;
    json_answer(alloc, status, &json)
}

#[tactic(auto, unfolding(crate::specs::Json::reference_members))]
fn put_reference(
    alloc: Global,
    object: &mut Map<String, Json>,
    reference: &Reference,
) -> Result<(), AllocError>
    ensures { OnOk result (members_view object.old.entries ≡ no_members → members_view object.new.entries ≡ reference_members (raw reference.now)) }
{
    put_text(alloc, object, "handle", reference.name.sent())?;
    put(object, alloc, "index", Json::from(reference.index))
}

fn reference_json(alloc: Global, reference: &Reference) -> Result<Json, AllocError>
    ensures { IfOk result (λ json. view json ≡ reference_json (raw reference.now)) }
{
    let mut object = Map::new(alloc);
    put_reference(alloc, &mut object, reference)?;
    Ok(Json::from(object))
}

/// The data with its format.
#[tactic(auto, unfolding(crate::specs::Json::with_format))]
fn with_format(alloc: Global, format: &str, told: Json) -> Result<Json, AllocError>
    ensures { IfOk result (λ json. view json ≡ with_format format.now (view told)) }
{
    let mut object = Map::new(alloc);
    let format = String::from_str(alloc, format)?;
    put(&mut object, alloc, "format", Json::from(format))?;
    put(&mut object, alloc, "value", told)?;
    Ok(Json::from(object))
}

fn admin_json(alloc: Global, mask: AdminMask, key: &Reference) -> Result<Json, AllocError>
    ensures { IfOk result (λ json. view json ≡ admin_json (mask.0, raw key.now)) }
{
    let mut object = Map::new(alloc);
    put_reference(alloc, &mut object, key)?;
    let permissions = permission_digits(alloc, mask)?;
    put(&mut object, alloc, "permissions", Json::from(permissions))?;
    with_format(alloc, "admin", Json::from(object))
}

fn list_json(alloc: Global, references: &[Reference]) -> Result<Json, AllocError>
    ensures { IfOk result (λ json. view json ≡ list_json (raws references.now)) }
{
    let mut list = Vec::new(alloc);
    for reference in references {
        list.push(reference_json(alloc, reference)?)?;
    }
    with_format(alloc, "vlist", Json::from(list))
}

/// Whether data of this type is text: all but those whose octets have a layout (RFC 3651, section 3.2).
fn is_text(kind: &[u8]) -> bool
    ensures { result ≡ is_text kind.now }
{
    kind != HS_ADMIN && kind != HS_VLIST && kind != HS_SITE && kind != HS_PUBKEY
}

fn base64_json(alloc: Global, octets: &[u8]) -> Result<Json, AllocError>
    ensures { IfOk result (λ json. view json ≡ base64_json octets.now) }
{
    with_format(alloc, "base64", Json::from(STANDARD.encode(alloc, octets)?))
}

/// Octets that may be text.
#[tactic(auto, unfolding(crate::specs::Json::text_json))]
fn text_json(alloc: Global, octets: &[u8]) -> Result<Json, AllocError>
    ensures { IfOk result (λ json. view json ≡ text_json octets.now) }
{
    match str::from_utf8(octets) {
        Ok(text) => with_format(alloc, "string", Json::from(String::from_str(alloc, text)?)),
        Err(_) => base64_json(alloc, octets),
    }
}

fn octets_json(alloc: Global, kind: &[u8], octets: &[u8]) -> Result<Json, AllocError>
    ensures { IfOk result (λ json. view json ≡ octets_json kind.now octets.now) }
{
    if is_text(kind) {
        text_json(alloc, octets)
    } else {
        base64_json(alloc, octets)
    }
}

#[tactic(auto, unfolding(crate::specs::Json::data_json))]
fn data_json(alloc: Global, value: &Value) -> Result<Json, AllocError>
    ensures { IfOk result (λ json. view json ≡ data_json value.now) }
{
    if let Some((mask, key)) = admin_of(alloc, value)? {
        return admin_json(alloc, mask, &key);
    }
    match vlist_of(alloc, value)? {
        Some(references) => list_json(alloc, &references),
        None => octets_json(alloc, value.kind.as_slice(), value.bytes.as_slice()),
    }
}

fn kept_json(kept: CacheLifetime) -> Json
    ensures { view result ≡ kept_json kept }
{
    match kept {
        CacheLifetime::Seconds(seconds) => Json::from(seconds),
        CacheLifetime::Until(moment) => Json::from(moment),
    }
}

fn written_json(written: Option<String>) -> Json
    ensures { view result ≡ written_json (option_map string_bytes written) }
{
    match written {
        Some(moment) => Json::from(moment),
        None => Json::Null,
    }
}

/// Puts when a value was written. A timestamp of 0 says nothing.
fn put_written(
    alloc: Global,
    object: &mut Map<String, Json>,
    timestamp: u64,
    written: Option<String>,
) -> Result<(), AllocError>
    ensures { OnOk result (members_view object.new.entries ≡ put_written timestamp (option_map string_bytes written) (members_view object.old.entries)) }
{
    if timestamp == 0 {
        return Ok(());
    }
    put(object, alloc, "timestamp", written_json(written))
}

/// Puts the permissions of a value where they aren't the usual ones of its type.
fn put_permissions(
    alloc: Global,
    object: &mut Map<String, Json>,
    value: &Value,
) -> Result<(), AllocError>
    ensures { OnOk result (members_view object.new.entries ≡ put_permissions value.now (members_view object.old.entries)) }
{
    if value.permissions == usual_permissions(value.kind.as_slice()) {
        return Ok(());
    }
    let digits = value_digits(alloc, value.permissions)?;
    put(object, alloc, "permissions", Json::from(digits))
}

#[tactic(auto, unfolding(crate::specs::Json::value_json))]
fn value_json(alloc: Global, value: &Value) -> Result<Json, AllocError>
    ensures { IfOk result (λ json. IsValueJson value.now (view json)) }
{
    let kept = cache_lifetime(alloc, value)?;
    let written = written_words(alloc, value)?;
    let mut object = Map::new(alloc);
    put(&mut object, alloc, "index", Json::from(value.index))?;
    put_text(alloc, &mut object, "type", value.kind.as_slice())?;
    put(&mut object, alloc, "data", data_json(alloc, value)?)?;
    put(&mut object, alloc, "ttl", kept_json(kept))?;
    put_written(alloc, &mut object, value.timestamp, written)?;
    put_permissions(alloc, &mut object, value)?;
    Ok(Json::from(object))
}

fn values_json(alloc: Global, values: &[Value]) -> Result<Json, AllocError>
    ensures { IfOk result (λ json. (ds : List Data) × AllZip IsValueJson values.now ds × (view json ≡ array (items_of ds))) }
{
    let mut list = Vec::new(alloc);
    for value in values {
        list.push(value_json(alloc, value)?)?;
    }
    Ok(Json::from(list))
}

#[tactic(auto, unfolding(crate::specs::Json::answer_json))]
fn answer_json(alloc: Global, handle: &[u8], values: &[Value]) -> Result<Json, AllocError>
    ensures { IfOk result (λ json. (ds : List Data) × AllZip IsValueJson values.now ds × (view json ≡ answer_json handle.now ds)) }
{
    let mut object = Map::new(alloc);
    put(&mut object, alloc, "responseCode", Json::from(1u32))?;
    put_text(alloc, &mut object, "handle", handle)?;
    put(&mut object, alloc, "values", values_json(alloc, values)?)?;
    Ok(Json::from(object))
}

/// The values of a handle, without a space.
pub fn values_answer(
    alloc: Global,
    handle: &[u8],
    values: &[Value],
    cache_control: CacheControl,
) -> Result<Answer, AllocError>
    ensures told { IfOk result (Tells Status.Success Media.Json) }
    ensures kept { IfOk result (λ a. a.cache_control ≡ cache_control) }
    ensures body { IfOk result (λ a. IsJsonOf handle.now values.now a.body.items) }
{
    let json = answer_json(alloc, handle, values)?;
    kept_answer(alloc, Status::Success, cache_control, &json)
}

/// This JSON over many lines.
fn pretty_octets(alloc: Global, json: &Json) -> Result<Vec<u8>, AllocError>
    ensures { IfOk result (λ octets. IsInOrder octets.items (view json.now)) }
{
    json.to_vec_pretty(alloc)
}

/// The values of a handle, over many lines.
pub(crate) fn pretty_answer(
    alloc: Global,
    handle: &[u8],
    values: &[Value],
    cache_control: CacheControl,
) -> Result<Answer, AllocError>
    ensures told { IfOk result (Tells Status.Success Media.Json) }
    ensures kept { IfOk result (λ a. a.cache_control ≡ cache_control) }
    ensures body { IfOk result (λ a. IsPrettyOf handle.now values.now a.body.items) }
{
    let json = answer_json(alloc, handle, values)?;
    let body = pretty_octets(alloc, &json)?;
    Ok(Answer::new(alloc, Status::Success, Media::Json, cache_control, body))
}
