//! The numbers of values in words.

ghost use Rattle.std.specs.Prelude.{◌≡◌, ◌+◌, ◌<◌, ◌++◌, IfOk, OnOk, option_map, string_bytes};
ghost use Rattle.hdl_value.specs.Permission.{bits};
ghost use Rattle.hdl_proxy.specs.Words.{day_of, permission_digits, value_digits, usual_permissions, IsMomentText, IsCacheLifetime, IsWritten};

use hdl_value::{AdminMask, HS_SECKEY, Value};
use jiff_core::Timestamp;
use jiff_fmt::temporal::DateTimePrinter;
use std::alloc::{AllocError, Global};

/// Only an administrator reads and writes a value.
const ADMIN_ALONE: u8 = 0b1100;

/// An administrator reads and writes it, and everyone reads it.
const ANYBODY_READS: u8 = 0b1110;

fn digit(bit: u16) -> char
    requires { bit < 2 }
    ensures { result ≡ 48 + bit }
{
    if bit == 0 { '0' } else { '1' }
}

/// Puts `count` binary digits of a number at the end, the lowest first.
fn put_bits(out: &mut String, count: u32, number: u16) -> Result<(), AllocError>
    ensures { OnOk result (string_bytes out.new ≡ string_bytes out.old ++ bits count number) }
{
    let mut rest = number;
    for _ in 0..count {
        out.push(digit(rest % 2))?;
        rest /= 2;
    }
    Ok(())
}

/// The twelve permissions of an administrator, from the lowest bit on.
pub(crate) fn permission_digits(alloc: Global, mask: AdminMask) -> Result<String, AllocError>
    ensures { IfOk result (λ digits. string_bytes digits ≡ permission_digits mask.0) }
{
    let mut digits = String::new(alloc);
    put_bits(&mut digits, 12, mask.0)?;
    Ok(digits)
}

/// The permissions of a value as four digits: administrator reads, administrator writes, everyone reads, everyone writes.
pub(crate) fn value_digits(alloc: Global, permissions: u8) -> Result<String, AllocError>
    ensures { IfOk result (λ digits. string_bytes digits ≡ value_digits permissions) }
{
    let mut digits = String::new(alloc);
    digits.push(digit(u16::from(permissions / 8 % 2)))?;
    digits.push(digit(u16::from(permissions / 4 % 2)))?;
    digits.push(digit(u16::from(permissions / 2 % 2)))?;
    digits.push(digit(u16::from(permissions % 2)))?;
    Ok(digits)
}

/// The permissions of a value of this type where none are said: an administrator reads and writes it, and everyone reads it unless it
/// is a key.
pub fn usual_permissions(kind: &[u8]) -> u8
    ensures { result ≡ usual_permissions kind.now }
{
    if kind == HS_SECKEY {
        ADMIN_ALONE
    } else {
        ANYBODY_READS
    }
}

/// A moment in RFC 3339, at UTC.
fn moment_words(alloc: Global, moment: Timestamp) -> Result<String, AllocError>
    ensures { IfOk result (λ words. IsMomentText moment.nanosecond (string_bytes words)) }
{
    let text = DateTimePrinter::new().timestamp_text(moment);
    String::from_str(alloc, text.as_str())
}

/// When a value was written, as in RFC 3339, in whole seconds, where the calendar has it.
pub(crate) fn written_words(alloc: Global, value: &Value) -> Result<Option<String>, AllocError>
    ensures { IfOk result (λ o. IsWritten value.now (option_map string_bytes o)) }
{
    let nanoseconds = i128::from(value.timestamp / 1000) * 1_000_000_000;
    match Timestamp::from_nanosecond(nanoseconds) {
        Ok(moment) => Ok(Some(moment_words(alloc, moment)?)),
        Err(_) => Ok(None),
    }
}

/// The day of a moment in RFC 3339.
pub(crate) fn day_of(moment: &[u8]) -> &[u8]
    ensures { result.now ≡ day_of moment.now }
{
    match moment.split_at_checked(10) {
        Some((day, _)) => day,
        None => moment,
    }
}

/// How long a value may be kept (RFC 3651, section 3.1): for a number of seconds, or until a moment.
#[derive(Drop)]
pub enum CacheLifetime {
    Seconds(u32),
    Until(String),
}

/// How long a value may be kept: kind 1 is a moment, every other kind counts seconds.
pub(crate) fn cache_lifetime(alloc: Global, value: &Value) -> Result<CacheLifetime, AllocError>
    ensures { IfOk result (IsCacheLifetime value.now) }
{
    let [kind, a, b, c, d] = value.ttl;
    let seconds = u32::from_be_bytes([a, b, c, d]);
    if kind != 1 {
        return Ok(CacheLifetime::Seconds(seconds));
    }
    let Ok(moment) = Timestamp::from_nanosecond(i128::from(seconds) * 1_000_000_000) else {
        unreachable!()
    };
    Ok(CacheLifetime::Until(moment_words(alloc, moment)?))
}
