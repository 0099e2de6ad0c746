//! The keys of a cluster, and the octets at its head.

ghost use Rattle.std.specs.Prelude.{◌≡◌, ◌++◌, codes, IfOk};
ghost use Rattle.hdl_value.specs.Reading.{Reads, whole_of};
ghost use Rattle.hdl_journal_entries.specs.Keys.{key_octets, chain_at, chain_octets};

use crate::chain::Chain;
use crate::reading::{number_at, sum_at};
use crate::writing::put_number;
use hdl_name::Name;
use std::alloc::{AllocError, Global};

/// What stands at a key. Numbers are hexadecimal digits, the highest first, so that keys in their order are numbers in theirs.
///
/// ```text
/// NAME/head         how many entries there are, and their sum
/// NAME/e/NUMBER     an entry, 16 digits
/// NAME/h/HANDLE     a moment, and the message that creates a handle without values
/// NAME/v/HANDLE/I   a moment, and the message that adds the value of this index, 8 digits
/// NAME/o/HANDLE     that a handle was opened with its first values
/// ```
#[derive(Clone, Copy)]
pub enum Key<'a> {
    Head,
    Entry(u64),
    Handle(&'a Name),
    Value(&'a Name, u32),
    Opened(&'a Name),
}

/// A part of the keys, and what follows it.
fn below(alloc: Global, name: &[u8], part: &str, rest: &[u8]) -> Result<Vec<u8>, AllocError>
    ensures { IfOk result (λ key. key.items ≡ name.now ++ (part.now ++ rest.now)) }
{
    let mut key = Vec::from_slice(alloc, name)?;
    key.extend_from_slice(part.as_bytes())?;
    key.extend_from_slice(rest)?;
    Ok(key)
}

/// The key below this name. A handle stands in canonical form.
pub fn key_of(alloc: Global, name: &[u8], key: Key<'_>) -> Result<Vec<u8>, AllocError>
    ensures { IfOk result (λ octets. octets.items ≡ key_octets name.now key.entry) }
{
    match key {
        Key::Head => below(alloc, name, "/head", &[]),
        Key::Entry(number) => {
            let digits = hex::encode(alloc, number.to_be_bytes())?;
            below(alloc, name, "/e/", digits.as_bytes())
        }
        Key::Handle(handle) => below(alloc, name, "/h/", handle.canon()),
        Key::Value(handle, index) => {
            let digits = hex::encode(alloc, index.to_be_bytes())?;
            let rest = below(alloc, handle.canon(), "/", digits.as_bytes())?;
            below(alloc, name, "/v/", &rest)
        }
        Key::Opened(handle) => below(alloc, name, "/o/", handle.canon()),
    }
}

/// The octets at the head: the number in 8 octets, and the sum in 32.
pub fn write_chain(alloc: Global, chain: &Chain) -> Result<Vec<u8>, AllocError>
    ensures { IfOk result (λ octets. octets.items ≡ chain_octets chain.now) }
{
    let mut octets = Vec::new(alloc);
    put_number(&mut octets, chain.number)?;
    octets.extend_from_slice(&chain.sum)?;
    Ok(octets)
}

/// The chain that the octets at the head are, all of them.
#[tactic(auto, unfolding(crate::specs::Keys::chain_at))]
pub fn read_chain(octets: &[u8]) -> Option<Chain>
    ensures { Reads (λ chain. chain) result (whole_of chain_at octets.now) }
{
    let (number, rest) = number_at(octets)?;
    let (sum, rest) = sum_at(rest)?;
    if rest.is_empty() {
        Some(Chain { number, sum })
    } else {
        None
    }
}
