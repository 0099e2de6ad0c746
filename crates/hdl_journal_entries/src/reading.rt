//! Reading an entry.

ghost use Rattle.std.specs.Prelude.{◌≡◌, Ok, IfOk, IfErr};
ghost use Rattle.hdl_value.specs.Reading.{Reads, many_at, octets_at, number_at};
ghost use Rattle.std.specs.Int.{w64};
ghost use Rattle.hdl_journal_entries.specs.Entries.{head_at, dated_at, messages_at, entry_at, IsFault, entry_in};
ghost use Rattle.hdl_journal_entries.specs.Raw.{head_view};

use crate::entry::{DatedMessage, Entry, EntryFault};
use byteorder::{BigEndian, ByteOrder};
use hdl_limits::{Items, Octets};
use hdl_value::{string_at, u32_at};
use std::alloc::{AllocError, Global};

/// The number in the first eight octets, and the octets after it.
pub(crate) fn number_at(octets: &[u8]) -> Option<(u64, &[u8])>
    ensures { Reads (λ x. (x.0, x.1.now)) result (number_at w64 octets.now) }
{
    let (front, rest) = octets.split_at_checked(8)?;
    Some((BigEndian::read_u64(front), rest))
}

fn nonce_at(octets: &[u8]) -> Option<([u8; 16], &[u8])>
    ensures { Reads (λ x. (x.0, x.1.now)) result (octets_at 16 octets.now) }
{
    let (front, rest) = octets.split_first_chunk::<16>()?;
    Some((*front, rest))
}

pub(crate) fn sum_at(octets: &[u8]) -> Option<([u8; 32], &[u8])>
    ensures { Reads (λ x. (x.0, x.1.now)) result (octets_at 32 octets.now) }
{
    let (front, rest) = octets.split_first_chunk::<32>()?;
    Some((*front, rest))
}

fn copy_of(alloc: Global, message: &[u8]) -> Result<Octets, AllocError>
    ensures { IfOk result (λ copy. copy ≡ message.now) }
{
    Ok(Octets::new(Vec::from_slice(alloc, message)?))
}

#[tactic(auto, unfolding(crate::specs::Entries::dated_at))]
fn dated_at(alloc: Global, octets: &[u8]) -> Result<Option<(DatedMessage, &[u8])>, AllocError>
    ensures { IfOk result (λ read. Reads (λ x. (x.0, x.1.now)) read (dated_at octets.now)) }
{
    let Some((moment, rest)) = number_at(octets) else {
        return Ok(None);
    };
    let Some((message, rest)) = string_at(rest) else {
        return Ok(None);
    };
    let message = copy_of(alloc, message)?;
    Ok(Some((DatedMessage { moment, message }, rest)))
}

/// So many messages, one after the other.
fn messages_in(
    alloc: Global,
    count: u32,
    octets: &[u8],
) -> Result<Option<(Vec<DatedMessage>, &[u8])>, AllocError>
    ensures { IfOk result (λ read. Reads (λ x. (x.0.items, x.1.now)) read (many_at dated_at count octets.now)) }
{
    let mut messages = Vec::new(alloc);
    let mut rest = octets;
    for _ in 0..count {
        let Some((message, after)) = dated_at(alloc, rest)? else {
            return Ok(None);
        };
        messages.push(message)?;
        rest = after;
    }
    Ok(Some((messages, rest)))
}

#[tactic(auto, unfolding(crate::specs::Entries::messages_at, hdl_value::specs::Reading::counted_at))]
fn messages_at(
    alloc: Global,
    octets: &[u8],
) -> Result<Option<(Vec<DatedMessage>, &[u8])>, AllocError>
    ensures { IfOk result (λ read. Reads (λ x. (x.0.items, x.1.now)) read (messages_at octets.now)) }
{
    match u32_at(octets) {
        Some((count, rest)) => messages_in(alloc, count, rest),
        None => Ok(None),
    }
}

/// The fields before the changes.
#[derive(Clone, Copy)]
struct Head {
    number: u64,
    nonce: [u8; 16],
    before: [u8; 32],
}

#[tactic(auto, unfolding(crate::specs::Entries::head_at))]
fn head_at(octets: &[u8]) -> Option<(Head, &[u8])>
    ensures { Reads (λ x. (head_view x.0, x.1.now)) result (head_at octets.now) }
{
    let (number, rest) = number_at(octets)?;
    let (nonce, rest) = nonce_at(rest)?;
    let (before, rest) = sum_at(rest)?;
    let head = Head {
        number,
        nonce,
        before,
    };
    Some((head, rest))
}

#[tactic(auto, unfolding(crate::specs::Entries::entry_at))]
fn entry_at(alloc: Global, octets: &[u8]) -> Result<Option<(Entry, &[u8])>, AllocError>
    ensures { IfOk result (λ read. Reads (λ x. (x.0, x.1.now)) read (entry_at octets.now)) }
{
    let Some((head, rest)) = head_at(octets) else {
        return Ok(None);
    };
    let Some((messages, rest)) = messages_at(alloc, rest)? else {
        return Ok(None);
    };
    let nonce = head.nonce;
    let before = head.before;
    let entry = Entry {
        number: head.number,
        nonce,
        before,
        changes: Items::new(messages),
    };
    Ok(Some((entry, rest)))
}

/// The entry that the octets are, all of them. A length or a count that lies ends where the octets do.
pub fn read_entry(alloc: Global, octets: &[u8]) -> Result<Entry, EntryFault>
    ensures read { IfOk result (λ entry. entry_in octets.now ≡ Ok entry) }
    ensures fault { IfErr result (IsFault (entry_in octets.now)) }
{
    match entry_at(alloc, octets)? {
        Some((entry, rest)) if rest.is_empty() => Ok(entry),
        _ => Err(EntryFault::Malformed),
    }
}
