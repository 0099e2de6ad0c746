//! What of a value is shown: of a key whose data isn't asked for its index, its type and how many octets the data has.
//!
//! The functions that write such a line are handed these alone, and no value.

ghost use Rattle.std.specs.Prelude.{◌≡◌, true, false, IfOk};
ghost use Rattle.hdl_value_lines.specs.Hiding.{is_hidden, hidden_data, hidden_text, hidden_count, value_of_fields, whole_line, whole_data};
ghost use Rattle.hdl_value_lines.specs.Data.{format_and_data, data_text};
ghost use Rattle.hdl_value_lines.specs.Lines.{octets_text};

use crate::fields::{cut_at, put_number};
use crate::write::{data_text, fields_line, has_fields, octets_line, put_field, put_number_field};
use hdl_value::{CutValue, HS_SECKEY, Value};
use std::alloc::{AllocError, Global};

/// Whether the data of a value is hidden: it is a key, and the data of keys isn't shown.
pub fn is_hidden(value: &CutValue<'_>, shows_keys: bool) -> bool
    ensures { result ≡ is_hidden value.now shows_keys }
{
    value.kind() == HS_SECKEY && !shows_keys
}

/// `HIDDEN`, and how many octets, where that is known.
fn hidden_data(alloc: Global, count: Option<u32>) -> Result<Vec<u8>, AllocError>
    ensures { IfOk result (λ v. v.items ≡ hidden_data count) }
{
    let Some(count) = count else {
        return Vec::from_slice(alloc, b"HIDDEN");
    };
    let mut text = Vec::from_slice(alloc, b"HIDDEN ")?;
    put_number(&mut text, count)?;
    text.extend_from_slice(b" octets")?;
    Ok(text)
}

/// Index, type and `HIDDEN`.
fn hidden_text(
    alloc: Global,
    index: u32,
    kind: &[u8],
    count: Option<u32>,
) -> Result<Vec<u8>, AllocError>
    ensures { IfOk result (λ v. v.items ≡ hidden_text index kind.now count) }
{
    let mut line = Vec::new(alloc);
    put_number_field(&mut line, index)?;
    put_field(&mut line, kind)?;
    let data = hidden_data(alloc, count)?;
    line.extend_from_slice(&data)?;
    Ok(line)
}

/// How many octets the data of a sound value has.
fn hidden_count(alloc: Global, value: &CutValue<'_>) -> Result<Option<u32>, AllocError>
    ensures { IfOk result (λ count. count ≡ hidden_count value.now) }
{
    if value.check().is_err() {
        return Ok(None);
    }
    let Ok(value) = value.read(alloc) else {
        return Err(AllocError);
    };
    Ok(Some(value.bytes.as_slice().len() as u32))
}

/// The value, if it is sound and fields say it.
fn value_of_fields(alloc: Global, value: &CutValue<'_>) -> Result<Option<Value>, AllocError>
    ensures { IfOk result (λ o. o ≡ value_of_fields value.now) }
{
    if value.check().is_err() {
        return Ok(None);
    }
    let Ok(value) = value.read(alloc) else {
        return Err(AllocError);
    };
    if !has_fields(&value) {
        return Ok(None);
    }
    Ok(Some(value))
}

/// The line of a value's octets, by our profile's layout.
fn spelling_line(alloc: Global, value: &CutValue<'_>) -> Result<Vec<u8>, AllocError>
    ensures { IfOk result (λ v. v.items ≡ octets_text value.now) }
{
    let mut octets = Vec::new(alloc);
    value.put_spelling(&mut octets)?;
    octets_line(alloc, &octets)
}

fn whole_line(alloc: Global, value: &CutValue<'_>) -> Result<Vec<u8>, AllocError>
    ensures { IfOk result (λ v. v.items ≡ whole_line value.now) }
{
    match value_of_fields(alloc, value)? {
        Some(value) => fields_line(alloc, &value),
        None => spelling_line(alloc, value),
    }
}

/// What follows FORMAT and a space.
fn behind_format(alloc: Global, value: &Value) -> Result<Vec<u8>, AllocError>
    ensures { IfOk result (λ v. v.items ≡ (format_and_data (data_text value.now)).1) }
{
    let text = data_text(alloc, value)?;
    match cut_at(&text, b' ') {
        Some((_, data)) => Vec::from_slice(alloc, data),
        None => Ok(Vec::new(alloc)),
    }
}

fn whole_data(alloc: Global, value: &CutValue<'_>) -> Result<Vec<u8>, AllocError>
    ensures { IfOk result (λ v. v.items ≡ whole_data value.now) }
{
    match value_of_fields(alloc, value)? {
        Some(value) => behind_format(alloc, &value),
        None => spelling_line(alloc, value),
    }
}

/// The line of a value where it stands, as [`crate::value_line`] has it, but that of a hidden key says index and type alone, and
/// how many octets the data has, and is refused as [`crate::LineFault::Hidden`] where it is read. A value that isn't sound is `OCTETS`
/// and its digits; of a hidden key that isn't sound the line doesn't say how many octets.
pub fn shown_line(
    alloc: Global,
    value: &CutValue<'_>,
    shows_keys: bool,
) -> Result<Vec<u8>, AllocError>
    ensures hidden { is_hidden value.now shows_keys ≡ true → IfOk result (λ line. line.items ≡ hidden_text value.now.index value.now.kind (hidden_count value.now)) }
    ensures shown { is_hidden value.now shows_keys ≡ false → IfOk result (λ line. line.items ≡ whole_line value.now) }
{
    if !is_hidden(value, shows_keys) {
        return whole_line(alloc, value);
    }
    let count = hidden_count(alloc, value)?;
    hidden_text(alloc, value.index(), value.kind(), count)
}

/// The data of a value alone, as it stands in its line after the format, and all of a line that has no fields; of a hidden key just
/// `HIDDEN` and how many octets.
pub fn shown_data(
    alloc: Global,
    value: &CutValue<'_>,
    shows_keys: bool,
) -> Result<Vec<u8>, AllocError>
    ensures hidden { is_hidden value.now shows_keys ≡ true → IfOk result (λ text. text.items ≡ hidden_data (hidden_count value.now)) }
    ensures shown { is_hidden value.now shows_keys ≡ false → IfOk result (λ text. text.items ≡ whole_data value.now) }
{
    if is_hidden(value, shows_keys) {
        return hidden_data(alloc, hidden_count(alloc, value)?);
    }
    whole_data(alloc, value)
}
