//! The last entries of a handle in a file.

ghost use Rattle.std.specs.Prelude.{◌≡◌, ◌-◌, IfOk, filter, length, map, option_copied};
ghost use Rattle.std.specs.Result.{result_ok};
ghost use Rattle.hdl_history.specs.Read.{entry_in};
ghost use Rattle.hdl_history.specs.Last.{entries_in, handle_field, last_lines, lines, names, parts};

use crate::entry::Entry;
use crate::fault::EntryFault;
use crate::fields::escaped;
use crate::read::read_entry;
use hdl_value_lines::cut_at;
use std::alloc::{AllocError, Global};

/// The last entries of a handle.
#[derive(Drop)]
pub struct LastEntries {
    /// The newest first.
    pub entries: Vec<Entry>,
    /// How many of the last lines of the handle can't be read. They are left out of `entries`.
    pub unreadable: usize,
}

/// The lines of a file. What stands after the last line end is none: it wasn't written to its end.
#[tactic(auto, unfolding(crate::specs::Last::lines))]
fn lines(alloc: Global, octets: &[u8]) -> Result<Vec<&[u8]>, AllocError>
    ensures { IfOk result (λ all. map (λ line. line.now) all.items ≡ lines octets.now) }
{
    let mut all = parts(alloc, octets)?;
    all.pop();
    Ok(all)
}

fn parts(alloc: Global, octets: &[u8]) -> Result<Vec<&[u8]>, AllocError>
    ensures { IfOk result (λ all. map (λ line. line.now) all.items ≡ parts octets.now) }
{
    octets.split(|octet| *octet == b'\n').collect(alloc)
}

#[tactic(auto, unfolding(crate::specs::Last::handle_field))]
fn handle_field(line: &[u8]) -> Option<&[u8]>
    ensures { option_copied result ≡ handle_field line.now }
{
    let (_, rest) = cut_at(line, b'\t')?;
    let (_, rest) = cut_at(rest, b'\t')?;
    let (handle, _) = cut_at(rest, b'\t')?;
    Some(handle)
}

/// Whether the third field of a line is this text.
fn names(text: &[u8], line: &[u8]) -> bool
    ensures { result ≡ names text.now line.now }
{
    match handle_field(line) {
        Some(field) => field == text,
        None => false,
    }
}

/// The lines whose third field is this text.
fn named<'a>(alloc: Global, lines: &[&'a [u8]], text: &[u8]) -> Result<Vec<&'a [u8]>, AllocError>
    ensures { IfOk result (λ found. map (λ line. line.now) found.items ≡ filter (names text.now) (map (λ line. line.now) lines.now)) }
{
    let mut found = Vec::new(alloc);
    for line in lines {
        if names(text, line) {
            found.push(*line)?;
        }
    }
    Ok(found)
}

/// The last lines of a handle, the newest first.
#[tactic(auto, unfolding(crate::specs::Last::last_lines))]
fn last_lines<'a>(
    alloc: Global,
    octets: &'a [u8],
    handle: &[u8],
    count: usize,
) -> Result<Vec<&'a [u8]>, AllocError>
    ensures { IfOk result (λ found. map (λ line. line.now) found.items ≡ last_lines count handle.now octets.now) }
{
    let text = escaped(alloc, handle)?;
    let mut found = named(alloc, &lines(alloc, octets)?, text.as_bytes())?;
    found.reverse();
    found.truncate(count);
    Ok(found)
}

/// The entry that a line says, if it says one.
fn entry_of(alloc: Global, line: &[u8]) -> Result<Option<Entry>, AllocError>
    ensures { IfOk result (λ o. o ≡ result_ok (entry_in line.now)) }
{
    match read_entry(alloc, line) {
        Ok(entry) => Ok(Some(entry)),
        Err(EntryFault::Memory) => Err(AllocError),
        Err(_) => Ok(None),
    }
}

/// The entries that lines say.
fn entries_in(alloc: Global, lines: &[&[u8]]) -> Result<Vec<Entry>, AllocError>
    ensures { IfOk result (λ entries. entries.items ≡ entries_in (map (λ line. line.now) lines.now)) }
{
    let mut entries = Vec::new(alloc);
    for line in lines {
        if let Some(entry) = entry_of(alloc, line)? {
            entries.push(entry)?;
        }
    }
    Ok(entries)
}

/// The last `count` lines of a handle, read, the newest first. `octets` are a file, or its end from the start of a line on. What stands
/// after the last line end is no line. A line is the handle's if its third field is what is written of the handle; others are passed
/// over unread. Fails only for want of memory.
pub fn last_entries(
    alloc: Global,
    octets: &[u8],
    handle: &[u8],
    count: usize,
) -> Result<LastEntries, AllocError>
    ensures entries { IfOk result (λ last. last.entries.items ≡ entries_in (last_lines count handle.now octets.now)) }
    ensures unreadable { IfOk result (λ last. last.unreadable ≡ length (last_lines count handle.now octets.now) - length last.entries.items) }
{
    let lines = last_lines(alloc, octets, handle, count)?;
    let entries = entries_in(alloc, &lines)?;
    let unreadable = lines.len().saturating_sub(entries.len());
    Ok(LastEntries {
        entries,
        unreadable,
    })
}
