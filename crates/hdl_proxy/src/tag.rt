//! Entity tags, by which a client asks for what it hasn't yet (RFC 9110, sections 8.8.3 and 13.1.2).

ghost use Rattle.std.specs.Prelude.{◌≡◌, ◌↔◌, IfOk, IsTrue, option_map, string_bytes};
ghost use Rattle.hdl_proxy.specs.Tag.{Carries, IsNamedBy, IsNamedIn, IsTaggable, IsTagged, IsUnchanged, tag_of};

use crate::answer::{Answer, CacheControl, Status};
use sha2::{Digest, Sha256};
use std::alloc::{AllocError, Global};

/// The tag of a body: its SHA-256 digest in hexadecimal digits, in quotes.
fn tag_of(alloc: Global, body: &[u8]) -> Result<String, AllocError>
    ensures { IfOk result (λ tag. string_bytes tag ≡ tag_of body.now) }
{
    let digest = Sha256::digest(body);
    let digits = hex::encode(alloc, &digest)?;
    let mut tag = String::from_str(alloc, "\"")?;
    tag.push_str(digits.as_str())?;
    tag.push_str("\"")?;
    Ok(tag)
}

/// Whether others may keep it, so that a tag serves.
fn is_taggable(answer: &Answer) -> bool
    ensures { IsTrue result ↔ IsTaggable answer.now }
{
    answer.status == Status::Success && answer.cache_control != CacheControl::Never
}

/// Whether a field `If-None-Match` names the tag: it is `*`, or has the tag among others, weak or not. A tag has quotes at its ends and none
/// inside, so it is found just where it stands whole.
fn is_named_in(field: &str, tag: &str) -> bool
    ensures { IsTrue result ↔ IsNamedIn field.now tag.now }
{
    field == "*" || field.contains(tag)
}

fn is_named_by(known: Option<&str>, tag: &str) -> bool
    ensures { IsTrue result ↔ IsNamedBy known.entry tag.now }
{
    match known {
        Some(field) => is_named_in(field, tag),
        None => false,
    }
}

/// The answer to a client that has this one already.
fn not_modified(alloc: Global, answer: Answer, tag: String) -> Answer
    ensures { IsUnchanged answer (string_bytes tag) result }
{
    Answer {
        status: Status::NotModified,
        tag: Some(tag),
        body: Vec::new(alloc),
        ..answer
    }
}

fn carrying(answer: Answer, tag: String) -> Answer
    ensures { Carries answer (string_bytes tag) result }
{
    Answer {
        tag: Some(tag),
        ..answer
    }
}

/// The answer with its tag, where others may keep it. Where the field `If-None-Match` of the request names this tag, just that it is
/// unchanged.
pub fn with_tag(alloc: Global, answer: Answer, known: Option<&str>) -> Result<Answer, AllocError>
    ensures { IfOk result (IsTagged answer known.entry) }
{
    if !is_taggable(&answer) {
        return Ok(answer);
    }
    let tag = tag_of(alloc, &answer.body)?;
    if is_named_by(known, tag.as_str()) {
        return Ok(not_modified(alloc, answer, tag));
    }
    Ok(carrying(answer, tag))
}
