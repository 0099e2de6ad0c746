//! The fields of layouts (numbers, octets and strings), read from the front and appended.

ghost use Rattle.std.specs.Prelude.{◌≡◌, ◌++◌, ◌<◌, ◌^◌, length, OnOk};
ghost use Rattle.std.specs.Int.{w16, w32, w64, to_be_bytes};
ghost use Rattle.hdl_value.specs.Spelling.{string};
ghost use Rattle.hdl_value.specs.Reading.{Reads, number_at, octets_at, octet_at, string_at};

use byteorder::{BigEndian, ByteOrder};
use std::alloc::AllocError;

/// The number in the first two octets, and the octets after it. None if there are fewer.
pub fn u16_at(octets: &[u8]) -> Option<(u16, &[u8])>
    ensures { Reads (λ x. (x.0, x.1.now)) result (number_at w16 octets.now) }
{
    let (front, rest) = octets.split_at_checked(2)?;
    Some((BigEndian::read_u16(front), rest))
}

/// The number in the first four octets, and the octets after it. None if there are fewer.
pub fn u32_at(octets: &[u8]) -> Option<(u32, &[u8])>
    ensures { Reads (λ x. (x.0, x.1.now)) result (number_at w32 octets.now) }
{
    let (front, rest) = octets.split_at_checked(4)?;
    Some((BigEndian::read_u32(front), rest))
}

/// The number in the first eight octets, and the octets after it. None if there are fewer.
pub(crate) fn u64_at(octets: &[u8]) -> Option<(u64, &[u8])>
    ensures { Reads (λ x. (x.0, x.1.now)) result (number_at w64 octets.now) }
{
    let (front, rest) = octets.split_at_checked(8)?;
    Some((BigEndian::read_u64(front), rest))
}

fn octets_at(octets: &[u8], count: u32) -> Option<(&[u8], &[u8])>
    ensures { Reads (λ x. (x.0.now, x.1.now)) result (octets_at count octets.now) }
{
    octets.split_at_checked(count as usize)
}

/// The first octet, and the octets after it. None if there is none.
pub fn octet_at(octets: &[u8]) -> Option<(u8, &[u8])>
    ensures { Reads (λ x. (x.0, x.1.now)) result (octet_at octets.now) }
{
    let (first, rest) = octets.split_first()?;
    Some((*first, rest))
}

/// The string at the front, and the octets after it: a length in four octets, then that number of octets. None if the
/// octets are fewer.
#[tactic(auto, unfolding(crate::specs::Reading::string_at))]
pub fn string_at(octets: &[u8]) -> Option<(&[u8], &[u8])>
    ensures { Reads (λ x. (x.0.now, x.1.now)) result (string_at octets.now) }
{
    let (count, rest) = u32_at(octets)?;
    octets_at(rest, count)
}

/// Appends the number in two octets.
pub fn put_u16(out: &mut Vec<u8>, number: u16) -> Result<(), AllocError>
    ensures { OnOk result (out.new.items ≡ out.old.items ++ to_be_bytes w16 number) }
{
    let mut octets = [0; 2];
    BigEndian::write_u16(&mut octets, number);
    out.extend_from_slice(&octets)
}

/// Appends the number in four octets.
pub fn put_u32(out: &mut Vec<u8>, number: u32) -> Result<(), AllocError>
    ensures { OnOk result (out.new.items ≡ out.old.items ++ to_be_bytes w32 number) }
{
    let mut octets = [0; 4];
    BigEndian::write_u32(&mut octets, number);
    out.extend_from_slice(&octets)
}

pub(crate) fn put_u64(out: &mut Vec<u8>, number: u64) -> Result<(), AllocError>
    ensures { OnOk result (out.new.items ≡ out.old.items ++ to_be_bytes w64 number) }
{
    let mut octets = [0; 8];
    BigEndian::write_u64(&mut octets, number);
    out.extend_from_slice(&octets)
}

/// Appends the string: its length in four octets, then its octets. A refusal may leave the length.
pub fn put_string(out: &mut Vec<u8>, octets: &[u8]) -> Result<(), AllocError>
    requires { length octets.now < 2 ^ 32 }
    ensures { OnOk result (out.new.items ≡ out.old.items ++ string octets.now) }
{
    put_u32(out, octets.len() as u32)?;
    out.extend_from_slice(octets)
}
