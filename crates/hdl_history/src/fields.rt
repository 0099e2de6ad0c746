//! The fields of a line: numbers, and handles with what isn't graphic ASCII escaped.

ghost use Rattle.std.specs.Prelude.{◌≡◌, ◌++◌, IfOk, OnOk, decimal, option_copied, string_bytes};
ghost use Rattle.hdl_history.specs.Lines.{escaped, field};
ghost use Rattle.hdl_history.specs.Fields.{first_field, long_in, unescaped};

use hdl_limits::Octets;
use hdl_value_lines::cut_at;
use itoa::Buffer;
use percent_encoding::{AsciiSet, CONTROLS, ascii_set, percent_decode, percent_encode};
use std::alloc::{AllocError, Global};

/// What is escaped of a handle: what isn't printable ASCII, the space, and the sign of an escape itself.
pub(crate) const ESCAPED: AsciiSet = ascii_set!(CONTROLS.add(b' ').add(b'%'));

/// A handle as it stands in a line.
pub(crate) fn escaped(alloc: Global, handle: &[u8]) -> Result<String, AllocError>
    ensures { IfOk result (λ text. string_bytes text ≡ escaped handle.now) }
{
    let mut text = String::new(alloc);
    percent_encode(handle, ESCAPED).append_to(&mut text)?;
    Ok(text)
}

/// The handle of a field, if the field is just what is written of it.
#[tactic(auto, unfolding(crate::specs::Fields::unescaped))]
pub(crate) fn unescaped(alloc: Global, text: &[u8]) -> Result<Option<Octets>, AllocError>
    ensures { IfOk result (λ o. o ≡ unescaped text.now) }
{
    let mut octets = Vec::new(alloc);
    percent_decode(text).append_to(&mut octets)?;
    let written = escaped(alloc, &octets)?;
    if written.as_bytes() == text {
        Ok(Some(Octets::new(octets)))
    } else {
        Ok(None)
    }
}

/// Puts the decimal digits of a number at the end.
pub(crate) fn put_number(out: &mut Vec<u8>, number: u64) -> Result<(), AllocError>
    ensures { OnOk result (out.new.items ≡ out.old.items ++ decimal number) }
{
    let mut buffer = Buffer::new();
    out.extend_from_slice(buffer.format(number).as_bytes())
}

/// Puts a field and a tab at the end.
pub(crate) fn put_field(out: &mut Vec<u8>, octets: &[u8]) -> Result<(), AllocError>
    ensures { OnOk result (out.new.items ≡ out.old.items ++ field octets.now) }
{
    out.extend_from_slice(octets)?;
    out.push(b'\t')?;
    Ok(())
}

/// The number below 2^64 that is written so in decimal digits: no sign, no leading zero.
pub(crate) fn long_in(word: &[u8]) -> Option<u64>
    ensures { result ≡ long_in word.now }
{
    let Ok(text) = str::from_utf8(word) else {
        return None;
    };
    let Ok(number) = text.parse::<u64>() else {
        return None;
    };
    let mut buffer = Buffer::new();
    if buffer.format(number).as_bytes() == word {
        Some(number)
    } else {
        None
    }
}

/// The octets before the first tab, and those behind it if there is one.
pub(crate) fn first_field(text: &[u8]) -> (&[u8], Option<&[u8]>)
    ensures field { result.0.now ≡ (first_field text.now).0 }
    ensures rest { option_copied result.1 ≡ (first_field text.now).1 }
{
    match cut_at(text, b'\t') {
        Some((field, rest)) => (field, Some(rest)),
        None => (text, None),
    }
}
