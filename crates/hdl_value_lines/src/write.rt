//! Writing of lines.

ghost use Rattle.std.specs.Prelude.{◌≡◌, ◌++◌, ◌∷◌, codes, decimal, IfOk, OnOk, option_map};
ghost use Rattle.std.specs.List.{list_all};
ghost use Rattle.hex.specs.Hex.{encode_lower};
ghost use Rattle.hdl_value.specs.Spelling.{CanBeSpelt};
ghost use Rattle.hdl_value.specs.Refs.{raw, raws};
ghost use Rattle.hdl_value_lines.specs.Fields.{space, is_word};
ghost use Rattle.hdl_value_lines.specs.Data.{admin_text, admin_words, reference_text, have_words, list_text, plain_text, data_text};
ghost use Rattle.hdl_value_lines.specs.Lines.{has_fields, field, fields_text, line_of};

use crate::fields::{is_text, is_word, permission_digits, put_bits, put_number};
use hdl_value::{Reference, Value, admin_of, vlist_of, write_value};
use std::alloc::{AllocError, Global};

/// Whether fields in words say all of the value: its TTL is relative, no permission but the four is set, it has no references, and its
/// type is a word.
pub(crate) fn has_fields(value: &Value) -> bool
    ensures { result ≡ has_fields value.now }
{
    let [how, ..] = value.ttl;
    how == 0
        && value.permissions < 16
        && value.references.as_slice().is_empty()
        && is_word(value.kind.as_slice())
}

/// Puts a field and a space at the end.
pub(crate) fn put_field(out: &mut Vec<u8>, octets: &[u8]) -> Result<(), AllocError>
    ensures { OnOk result (out.new.items ≡ out.old.items ++ field octets.now) }
{
    out.extend_from_slice(octets)?;
    out.push(b' ')?;
    Ok(())
}

/// Puts a number and a space at the end.
pub(crate) fn put_number_field(out: &mut Vec<u8>, number: u32) -> Result<(), AllocError>
    ensures { OnOk result (out.new.items ≡ out.old.items ++ field (decimal number)) }
{
    put_number(out, number)?;
    out.push(b' ')?;
    Ok(())
}

/// Puts index, type, TTL and permissions at the end, and a space after each. They say all but the data of a value that
/// [`has_fields`].
#[tactic(auto, unfolding(crate::specs::Lines::fields_text))]
fn put_fields(out: &mut Vec<u8>, value: &Value) -> Result<(), AllocError>
    ensures { OnOk result (out.new.items ≡ out.old.items ++ fields_text value.now) }
{
    let [_, a, b, c, d] = value.ttl;
    let ttl = u32::from_be_bytes([a, b, c, d]);
    put_number_field(out, value.index)?;
    put_field(out, value.kind.as_slice())?;
    put_number_field(out, ttl)?;
    put_field(out, &permission_digits(value.permissions))
}

/// `ADMIN INDEX:MASK:HANDLE`, if words can say it.
fn admin_words(alloc: Global, mask: u16, key: &Reference) -> Result<Option<Vec<u8>>, AllocError>
    ensures { IfOk result (λ o. option_map (λ v. v.items) o ≡ admin_words (mask, raw key.now)) }
{
    let handle = key.name.sent();
    if mask >= 4096 || !is_word(handle) {
        return Ok(None);
    }
    let mut text = Vec::from_slice(alloc, b"ADMIN ")?;
    put_number(&mut text, key.index)?;
    text.push(b':')?;
    put_bits(&mut text, 12, mask)?;
    text.push(b':')?;
    text.extend_from_slice(handle)?;
    Ok(Some(text))
}

/// The same, if the data is that and words can say it.
fn admin_text(alloc: Global, value: &Value) -> Result<Option<Vec<u8>>, AllocError>
    ensures { IfOk result (λ o. option_map (λ v. v.items) o ≡ admin_text value.now) }
{
    match admin_of(alloc, value)? {
        Some((mask, key)) => admin_words(alloc, mask.0, &key),
        None => Ok(None),
    }
}

fn put_reference(out: &mut Vec<u8>, reference: &Reference) -> Result<(), AllocError>
    ensures { OnOk result (out.new.items ≡ out.old.items ++ space ∷ reference_text (raw reference.now)) }
{
    out.push(b' ')?;
    put_number(out, reference.index)?;
    out.push(b':')?;
    out.extend_from_slice(reference.name.sent())
}

fn are_words(references: &[Reference]) -> bool
    ensures { result ≡ list_all (λ r. is_word r.name) references.now }
{
    references
        .iter()
        .all(|reference| is_word(reference.name.sent()))
}

/// Whether there is a reference, and the handle of each is a word.
fn have_words(references: &[Reference]) -> bool
    ensures { result ≡ have_words (raws references.now) }
{
    !references.is_empty() && are_words(references)
}

/// `LIST INDEX:HANDLE ..`, if the data is that and words can say it.
fn list_text(alloc: Global, value: &Value) -> Result<Option<Vec<u8>>, AllocError>
    ensures { IfOk result (λ o. option_map (λ v. v.items) o ≡ list_text value.now) }
{
    let Some(references) = vlist_of(alloc, value)? else {
        return Ok(None);
    };
    if !have_words(&references) {
        return Ok(None);
    }
    let mut text = Vec::from_slice(alloc, b"LIST")?;
    for reference in &references {
        put_reference(&mut text, reference)?;
    }
    Ok(Some(text))
}

/// `UTF8` and the text, or `HEX` and the digits.
fn plain_text(alloc: Global, octets: &[u8]) -> Result<Vec<u8>, AllocError>
    ensures { IfOk result (λ v. v.items ≡ plain_text octets.now) }
{
    if is_text(octets) {
        let mut text = Vec::from_slice(alloc, b"UTF8 ")?;
        text.extend_from_slice(octets)?;
        return Ok(text);
    }
    let mut text = Vec::from_slice(alloc, b"HEX")?;
    if !octets.is_empty() {
        text.push(b' ')?;
        text.extend_from_slice(hex::encode(alloc, octets)?.as_bytes())?;
    }
    Ok(text)
}

/// FORMAT and DATA.
#[tactic(auto, unfolding(crate::specs::Data::data_text))]
pub(crate) fn data_text(alloc: Global, value: &Value) -> Result<Vec<u8>, AllocError>
    ensures { IfOk result (λ v. v.items ≡ data_text value.now) }
{
    if let Some(text) = admin_text(alloc, value)? {
        return Ok(text);
    }
    match list_text(alloc, value)? {
        Some(text) => Ok(text),
        None => plain_text(alloc, value.bytes.as_slice()),
    }
}

/// `OCTETS` and the digits of a value's octets.
pub(crate) fn octets_line(alloc: Global, octets: &[u8]) -> Result<Vec<u8>, AllocError>
    ensures { IfOk result (λ v. v.items ≡ codes "OCTETS " ++ encode_lower octets.now) }
{
    let mut line = Vec::from_slice(alloc, b"OCTETS ")?;
    line.extend_from_slice(hex::encode(alloc, octets)?.as_bytes())?;
    Ok(line)
}

/// Fields, FORMAT and DATA.
pub(crate) fn fields_line(alloc: Global, value: &Value) -> Result<Vec<u8>, AllocError>
    ensures { IfOk result (λ v. v.items ≡ fields_text value.now ++ data_text value.now) }
{
    let mut line = Vec::new(alloc);
    put_fields(&mut line, value)?;
    let data = data_text(alloc, value)?;
    line.extend_from_slice(&data)?;
    Ok(line)
}

/// The line of a value, in ASCII but for text that isn't. It has no line end. FORMAT is `ADMIN` or `LIST` where the type and the data
/// are such and words can say it, `UTF8` where the data is text on one line, not empty, with no space at an end, and `HEX` otherwise.
/// What fields can't say is `OCTETS`. The caller knows that the value's lengths and counts fit four octets, as those of a value that
/// was read do.
#[tactic(auto, unfolding(crate::specs::Lines::line_of))]
pub fn value_line(alloc: Global, value: &Value) -> Result<Vec<u8>, AllocError>
    requires { CanBeSpelt value.now }
    ensures { IfOk result (λ v. v.items ≡ line_of value.now) }
{
    if has_fields(value) {
        return fields_line(alloc, value);
    }
    let octets = write_value(alloc, value)?;
    octets_line(alloc, &octets)
}
