//! The parts of a value fit their fields, as their types imply. A contract sees a number that is behind a reference, or
//! inside an owned value, without the range of its type. A caller that passes the number here by value gets the range
//! as a clause.
//!
//! Nothing is computed except the walk over the references.

ghost use Rattle.std.specs.Prelude.{◌≡◌, ◌<◌, ◌^◌, length};
ghost use Rattle.std.specs.List.{AllByRecursion};
ghost use Rattle.hdl_limits.specs.Octets.{AreOctets};
ghost use Rattle.hdl_value.specs.Spelling.{IsString, RefFits, CanBeSpelt, Fits};

use crate::references::RawRef;
use crate::value::Value;

/// A number of 32 bits fits into four octets.
pub fn number_fits(number: u32)
    ensures fits { number < 2 ^ 32 }
{
    let _ = number;
}

fn stamp_fits(timestamp: u64)
    ensures fits { timestamp < 2 ^ 64 }
{
    let _ = timestamp;
}

fn octet_fits(octet: u8)
    ensures fits { octet < 2 ^ 8 }
{
    let _ = octet;
}

fn ttl_fits(ttl: [u8; 5])
    ensures length { length ttl ≡ 5 }
    ensures octets { AreOctets ttl }
{
    let _ = ttl.as_slice();
}

/// Each octet of a list is in the range of an octet.
pub(crate) fn octets_fit(octets: &[u8])
    ensures fit { AreOctets octets.now }
{
    let _ = octets;
}

/// Octets are a string if their length fits into four octets.
pub fn string_fits(octets: &[u8])
    requires short { length octets.now < 2 ^ 32 }
    ensures fits { IsString octets.now }
{
    let _ = octets;
}

fn ref_fits(r: &RawRef)
    requires short { length r.now.handle < 2 ^ 32 }
    ensures fits { RefFits r.now }
{
    string_fits(r.handle.as_slice());
    number_fits(r.index);
}

fn refs_fit(refs: &[RawRef])
    requires short { AllByRecursion (λ r. length r.handle < 2 ^ 32) refs.now }
    ensures fit { AllByRecursion RefFits refs.now }
{
    for r in refs {
        ref_fits(r);
    }
}

/// The parts of a value fit their fields if its lengths and counts do.
pub fn value_fits(value: &Value)
    requires short { CanBeSpelt value.now }
    ensures fits { Fits value.now }
{
    number_fits(value.index);
    string_fits(value.kind.as_slice());
    string_fits(value.bytes.as_slice());
    ttl_fits(value.ttl);
    octet_fits(value.permissions);
    stamp_fits(value.timestamp);
    refs_fit(value.references.as_slice());
}
