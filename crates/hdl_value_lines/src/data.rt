//! The data of a value, by its format.

ghost use Rattle.std.specs.Prelude.{◌≡◌, ◌⊎◌, ◌<◌, ◌^◌, ◌==◌, length, map, ok_or, IfOk, IfErr, IfSome, option_map};
ghost use Rattle.std.specs.List.{AllByRecursion, slice_split};
ghost use Rattle.hdl_value.specs.Reading.{Reads};
ghost use Rattle.hdl_value_lines.specs.Fields.{space};
ghost use Rattle.hdl_value_lines.specs.Lines.{data_fault, data_in};
ghost use Rattle.hdl_value_lines.specs.Data.{format_named, format_of, admin_parts, admin_in, reference_in, references_in, list_in, text_in, hex_in, data_by};

use crate::fault::LineFault;
use crate::fields::{cut_at, is_handle_word, is_text, mask_in, number_in};
use hdl_limits::Octets;
use hdl_value::{HS_ADMIN, HS_VLIST, RawRef, put_references, put_string, put_u16, put_u32};
use hex::FromHexError;
use std::alloc::{AllocError, Global};

/// How the data of a value is written.
#[derive(Clone, Copy, PartialEq, Eq)]
pub(crate) enum Format {
    Utf8,
    Admin,
    List,
    Hex,
    Hidden,
}

impl Format {
    /// The format of this name.
    fn of_name(word: &[u8]) -> Option<Format>
        ensures { result ≡ format_named word.now }
    {
        if word == b"UTF8".as_slice() {
            Some(Format::Utf8)
        } else if word == b"ADMIN".as_slice() {
            Some(Format::Admin)
        } else if word == b"LIST".as_slice() {
            Some(Format::List)
        } else if word == b"HEX".as_slice() {
            Some(Format::Hex)
        } else if word == b"HIDDEN".as_slice() {
            Some(Format::Hidden)
        } else {
            None
        }
    }

    /// The format of a type's data where none is named.
    pub(crate) fn of(kind: &[u8]) -> Format
        ensures { result ≡ format_of kind.now }
    {
        if kind == HS_ADMIN {
            Format::Admin
        } else if kind == HS_VLIST {
            Format::List
        } else {
            Format::Utf8
        }
    }
}

/// The octets of hexadecimal digits in either case.
pub(crate) fn octets_in(alloc: Global, digits: &[u8]) -> Result<Option<Vec<u8>>, AllocError>
    ensures { IfOk result (λ o. option_map (λ v. v.items) o ≡ hex_in digits.now) }
{
    match hex::decode(alloc, digits) {
        Ok(octets) => Ok(Some(octets)),
        Err(FromHexError::OutOfMemory) => Err(AllocError),
        Err(_) => Ok(None),
    }
}

/// The data of `INDEX:MASK:HANDLE`.
fn admin_in(alloc: Global, text: &[u8]) -> Result<Option<Vec<u8>>, AllocError>
    ensures { IfOk result (λ o. option_map (λ v. v.items) o ≡ admin_in text.now) }
{
    let Some((index, mask, handle)) = admin_parts(text) else {
        return Ok(None);
    };
    let mut data = Vec::new(alloc);
    put_u16(&mut data, mask)?;
    put_string(&mut data, handle)?;
    put_u32(&mut data, index)?;
    Ok(Some(data))
}

/// Index, mask and handle of `INDEX:MASK:HANDLE`.
#[tactic(auto, unfolding(crate::specs::Data::admin_parts))]
fn admin_parts(text: &[u8]) -> Option<(u32, u16, &[u8])>
    ensures parts { Reads (λ x. (x.1, record { handle = x.2.now; index = x.0 })) result (admin_parts text.now) }
    ensures short { IfSome result (λ x. length x.2.now < 2 ^ 32) }
{
    let (index, rest) = cut_at(text, b':')?;
    let index = number_in(index)?;
    let (mask, handle) = cut_at(rest, b':')?;
    let mask = mask_in(mask)?;
    if !is_handle_word(handle) {
        return None;
    }
    Some((index, mask, handle))
}

/// Index and handle of `INDEX:HANDLE`.
#[tactic(auto, unfolding(crate::specs::Data::reference_in))]
fn reference_in(word: &[u8]) -> Option<(u32, &[u8])>
    ensures reads { Reads (λ x. record { handle = x.1.now; index = x.0 }) result (reference_in word.now) }
    ensures short { IfSome result (λ x. length x.1.now < 2 ^ 32) }
{
    let (index, handle) = cut_at(word, b':')?;
    let index = number_in(index)?;
    if !is_handle_word(handle) {
        return None;
    }
    Some((index, handle))
}

/// What stands between single spaces.
fn words_of(alloc: Global, text: &[u8]) -> Result<Vec<&[u8]>, AllocError>
    ensures { IfOk result (λ words. map (λ word. word.now) words.items ≡ slice_split (λ octet. octet == space) text.now) }
{
    text.split(|octet| *octet == b' ').collect(alloc)
}

/// The references of `INDEX:HANDLE`, one or more with a space between.
fn references_in(alloc: Global, text: &[u8]) -> Result<Option<Vec<RawRef>>, AllocError>
    ensures reads { IfOk result (λ o. option_map (λ v. v.items) o ≡ references_in text.now) }
    ensures short { IfOk result (λ o. IfSome o (λ v. AllByRecursion (λ r. length r.handle < 2 ^ 32) v.items)) }
{
    let words = words_of(alloc, text)?;
    let mut references = Vec::new(alloc);
    for word in &words {
        let Some((index, handle)) = reference_in(word) else {
            return Ok(None);
        };
        let handle = Octets::new(Vec::from_slice(alloc, handle)?);
        references.push(RawRef { handle, index })?;
    }
    Ok(Some(references))
}

/// The data of a list of references.
fn list_in(alloc: Global, text: &[u8]) -> Result<Option<Vec<u8>>, AllocError>
    ensures { IfOk result (λ o. option_map (λ v. v.items) o ≡ list_in text.now) }
{
    let Some(references) = references_in(alloc, text)? else {
        return Ok(None);
    };
    if u32::try_from(references.len()).is_err() {
        return Ok(None);
    }
    let mut data = Vec::new(alloc);
    put_references(&mut data, &references)?;
    Ok(Some(data))
}

fn text_in(alloc: Global, text: &[u8]) -> Result<Option<Vec<u8>>, AllocError>
    ensures { IfOk result (λ o. option_map (λ v. v.items) o ≡ text_in text.now) }
{
    if !is_text(text) {
        return Ok(None);
    }
    Ok(Some(Vec::from_slice(alloc, text)?))
}

/// The data that a text says by a format.
pub(crate) fn data_by(alloc: Global, format: Format, text: &[u8]) -> Result<Vec<u8>, LineFault>
    ensures value { IfOk result (λ v. ok_or (data_by format text.now) (data_fault format) ≡ Ok v.items) }
    ensures fault { IfErr result (λ e. (e ≡ LineFault.Memory) ⊎ (ok_or (data_by format text.now) (data_fault format) ≡ Err e)) }
{
    match format {
        Format::Utf8 => text_in(alloc, text)?.ok_or(LineFault::Text),
        Format::Admin => admin_in(alloc, text)?.ok_or(LineFault::Admin),
        Format::List => list_in(alloc, text)?.ok_or(LineFault::List),
        Format::Hex => octets_in(alloc, text)?.ok_or(LineFault::Hex),
        Format::Hidden => Err(LineFault::Hidden),
    }
}

/// The data that a format and what follows it say.
#[tactic(auto, unfolding(crate::specs::Lines::data_in))]
pub(crate) fn data_in(alloc: Global, text: &[u8]) -> Result<Vec<u8>, LineFault>
    ensures value { IfOk result (λ v. data_in text.now ≡ Ok v.items) }
    ensures fault { IfErr result (λ e. (e ≡ LineFault.Memory) ⊎ (data_in text.now ≡ Err e)) }
{
    let (format, text) = cut_at(text, b' ').unwrap_or((text, b""));
    match Format::of_name(format) {
        Some(format) => data_by(alloc, format, text),
        None => Err(LineFault::Format),
    }
}
