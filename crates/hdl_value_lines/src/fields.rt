//! What fields are made of: words, numbers and binary digits.

ghost use Rattle.std.specs.Prelude.{◌≡◌, ◌+◌, ◌%◌, ◌++◌, ◌<◌, ◌≤◌, ◌^◌, length, decimal, IfSome, OnOk};
ghost use Rattle.std.specs.List.{list_all};
ghost use Rattle.std.specs.Str.{chars};
ghost use Rattle.hdl_value.specs.Reading.{Reads};
ghost use Rattle.hdl_value.specs.Permission.{bits};
ghost use Rattle.hdl_value_lines.specs.Fields.{is_graphic, is_printed, is_line, has_end, is_word, is_text, is_handle_word, cut_at, number_in, number_at, word_at, bit_in, bits_in, mask_in, permissions_in, permissions_at, permission_digits};

use hdl_name::is_name;
use itoa::Buffer;
use std::alloc::AllocError;

fn are_graphic(octets: &[u8]) -> bool
    ensures { result ≡ list_all is_graphic octets.now }
{
    octets.iter().all(|octet| *octet > b' ' && *octet < 127)
}

/// Whether the octets are a word: one or more, each graphic.
pub(crate) fn is_word(octets: &[u8]) -> bool
    ensures { result ≡ is_word octets.now }
{
    !octets.is_empty() && are_graphic(octets)
}

/// Whether the octets are a word and the name of a handle.
pub(crate) fn is_handle_word(octets: &[u8]) -> bool
    ensures { result ≡ is_handle_word octets.now }
{
    is_word(octets) && is_name(octets)
}

fn are_printed(text: &str) -> bool
    ensures { result ≡ list_all is_printed (chars text.now) }
{
    for c in text.chars() {
        if c.is_control() {
            return false;
        }
    }
    true
}

/// Whether the octets are UTF-8 without a control character.
fn is_line(octets: &[u8]) -> bool
    ensures { result ≡ is_line octets.now }
{
    let Ok(text) = str::from_utf8(octets) else {
        return false;
    };
    are_printed(text)
}

/// Whether this is the first octet or the last.
fn has_end(octets: &[u8], octet: u8) -> bool
    requires { 0 < length octets.now }
    ensures { result ≡ has_end octet octets.now }
{
    octets[0] == octet || octets[octets.len() - 1] == octet
}

/// Whether the octets are text on one line, which no space begins or ends.
pub(crate) fn is_text(octets: &[u8]) -> bool
    ensures { result ≡ is_text octets.now }
{
    if octets.is_empty() {
        return false;
    }
    !has_end(octets, b' ') && is_line(octets)
}

/// The octets before the first that is `stop`, and those after it.
pub fn cut_at(octets: &[u8], stop: u8) -> Option<(&[u8], &[u8])>
    ensures { Reads (λ x. (x.0.now, x.1.now)) result (cut_at stop octets.now) }
{
    for (i, octet) in octets.iter().enumerate() {
        if *octet == stop {
            return Some((&octets[..i], &octets[i + 1..]));
        }
    }
    None
}

/// The number below 2^32 that is written so in decimal digits: no sign, no leading zero.
pub fn number_in(word: &[u8]) -> Option<u32>
    ensures { result ≡ number_in word.now }
{
    let Ok(text) = str::from_utf8(word) else {
        return None;
    };
    let Ok(number) = text.parse::<u32>() else {
        return None;
    };
    let mut buffer = Buffer::new();
    if buffer.format(number).as_bytes() == word {
        Some(number)
    } else {
        None
    }
}

/// A number and the space after it, and what follows.
#[tactic(auto, unfolding(crate::specs::Fields::number_at))]
pub(crate) fn number_at(octets: &[u8]) -> Option<(u32, &[u8])>
    ensures { Reads (λ x. (x.0, x.1.now)) result (number_at octets.now) }
{
    let (word, rest) = cut_at(octets, b' ')?;
    Some((number_in(word)?, rest))
}

/// A word and the space after it, and what follows.
#[tactic(auto, unfolding(crate::specs::Fields::word_at))]
pub(crate) fn word_at(octets: &[u8]) -> Option<(&[u8], &[u8])>
    ensures { Reads (λ x. (x.0.now, x.1.now)) result (word_at octets.now) }
{
    let (word, rest) = cut_at(octets, b' ')?;
    if !is_word(word) {
        return None;
    }
    Some((word, rest))
}

fn bit_in(digit: u8) -> Option<u16>
    ensures number { result ≡ bit_in digit }
    ensures below { IfSome result (λ n. n < 2) }
{
    match digit {
        b'0' => Some(0),
        b'1' => Some(1),
        _ => None,
    }
}

/// The number of at most twelve binary digits, the lowest first.
fn bits_in(digits: &[u8]) -> Option<u16>
    requires short { length digits.now ≤ 12 }
    ensures number { result ≡ bits_in digits.now }
    ensures below { IfSome result (λ n. n < 2 ^ length digits.now) }
{
    let [digit, rest @ ..] = digits else {
        return Some(0);
    };
    let bit = bit_in(*digit)?;
    Some(bit + 2 * bits_in(rest)?)
}

/// The permissions of an administrator: twelve binary digits, the lowest first.
pub fn mask_in(digits: &[u8]) -> Option<u16>
    ensures { result ≡ mask_in digits.now }
{
    if digits.len() != 12 {
        return None;
    }
    bits_in(digits)
}

/// The permissions of a value: four binary digits, the highest first.
pub fn permissions_in(digits: &[u8]) -> Option<u8>
    ensures { result ≡ permissions_in digits.now }
{
    let [a, b, c, d] = digits else {
        return None;
    };
    let number = bits_in(&[*d, *c, *b, *a])?;
    Some(number as u8)
}

/// The four digits of permissions and the space after them, and what follows.
#[tactic(auto, unfolding(crate::specs::Fields::permissions_at))]
pub(crate) fn permissions_at(octets: &[u8]) -> Option<(u8, &[u8])>
    ensures { Reads (λ x. (x.0, x.1.now)) result (permissions_at octets.now) }
{
    let (digits, rest) = cut_at(octets, b' ')?;
    Some((permissions_in(digits)?, rest))
}

/// Puts the decimal digits of a number at the end.
pub(crate) fn put_number(out: &mut Vec<u8>, number: u32) -> Result<(), AllocError>
    ensures { OnOk result (out.new.items ≡ out.old.items ++ decimal number) }
{
    let mut buffer = Buffer::new();
    out.extend_from_slice(buffer.format(number).as_bytes())
}

/// Puts `count` binary digits of a number at the end, the lowest first.
pub(crate) fn put_bits(out: &mut Vec<u8>, count: u32, number: u16) -> Result<(), AllocError>
    ensures { OnOk result (out.new.items ≡ out.old.items ++ bits count number) }
{
    let mut rest = number;
    for _ in 0..count {
        out.push(b'0' + (rest % 2) as u8)?;
        rest /= 2;
    }
    Ok(())
}

fn digit(bits: u8) -> u8
    ensures { result ≡ 48 + bits % 2 }
{
    b'0' + bits % 2
}

/// The four digits of a value's permissions: administrator reads, administrator writes, everyone reads, everyone writes.
pub fn permission_digits(bits: u8) -> [u8; 4]
    ensures { result ≡ permission_digits bits }
{
    [
        digit(bits / 8),
        digit(bits / 4),
        digit(bits / 2),
        digit(bits),
    ]
}
