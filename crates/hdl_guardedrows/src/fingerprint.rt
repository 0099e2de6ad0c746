//! What distinguishes one write from another: its kind and handle, and of its values the indexes, moments and lengths.

use hdl_name::Name;
use hdl_value::Value;

/// The kinds of writes.
#[derive(Clone, Copy)]
pub(crate) enum Kind {
    Create = 1,
    Add = 2,
    Modify = 3,
    Remove = 4,
    Delete = 5,
}

/// The number that each one is mixed with (FNV-1a).
const PRIME: u64 = 0x0000_0100_0000_01b3;

fn mixed(fingerprint: u64, number: u64) -> u64 {
    (fingerprint ^ number).wrapping_mul(PRIME)
}

/// The mark of a write of a handle, without what it writes.
pub(crate) fn fingerprint_of(kind: Kind, name: &Name) -> u64 {
    let mut fingerprint = mixed(PRIME, kind as u64);
    for octet in name.canon() {
        fingerprint = mixed(fingerprint, u64::from(*octet));
    }
    fingerprint
}

/// The mark of a write of values.
pub(crate) fn fingerprint_of_values(kind: Kind, name: &Name, values: &[Value]) -> u64 {
    let mut fingerprint = fingerprint_of(kind, name);
    for value in values {
        fingerprint = mixed(fingerprint, u64::from(value.index));
        fingerprint = mixed(fingerprint, value.timestamp);
        fingerprint = mixed(fingerprint, value.bytes.as_slice().len() as u64);
    }
    fingerprint
}

/// The mark of a write at these indexes.
pub(crate) fn fingerprint_of_indexes(kind: Kind, name: &Name, indexes: &[u32]) -> u64 {
    let mut fingerprint = fingerprint_of(kind, name);
    for index in indexes {
        fingerprint = mixed(fingerprint, u64::from(*index));
    }
    fingerprint
}
