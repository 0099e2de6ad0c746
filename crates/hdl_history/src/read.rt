//! Reading of lines.

ghost use Rattle.std.specs.Prelude.{◌≡◌, ◌⊎◌, Err, IfErr, IfOk, Ok, map, ok_or, ◌==◌};
ghost use Rattle.std.specs.List.{slice_split};
ghost use Rattle.std.specs.Option.{option_copied, option_map};
ghost use Rattle.hdl_value.specs.Reading.{Reads};
ghost use Rattle.hdl_history.specs.Lines.{comma, tab};
ghost use Rattle.hdl_history.specs.Fields.{author_at, author_in, before_in, handle_at, indexes_in, key_in, moment_at, numbers_in, operation_at};
ghost use Rattle.hdl_history.specs.Read.{entry_in};

use crate::entry::{Author, Entry, Operation, ValuesBefore};
use crate::fault::EntryFault;
use crate::fields::{first_field, long_in, unescaped};
use hdl_limits::{Items, Octets};
use hdl_value::RawRef;
use hdl_value_lines::{cut_at, number_in};
use std::alloc::{AllocError, Global};

/// The moment and the tab behind it, and what follows.
#[tactic(auto, unfolding(crate::specs::Fields::moment_at))]
fn moment_at(text: &[u8]) -> Option<(u64, &[u8])>
    ensures { Reads (λ x. (x.0, x.1.now)) result (moment_at text.now) }
{
    let (word, rest) = cut_at(text, b'\t')?;
    Some((long_in(word)?, rest))
}

/// The operation and the tab behind it, and what follows.
#[tactic(auto, unfolding(crate::specs::Fields::operation_at))]
fn operation_at(text: &[u8]) -> Option<(Operation, &[u8])>
    ensures { Reads (λ x. (x.0, x.1.now)) result (operation_at text.now) }
{
    let (word, rest) = cut_at(text, b'\t')?;
    Some((Operation::of_word(word)?, rest))
}

/// The handle and the tab behind it, and what follows.
#[tactic(auto, unfolding(crate::specs::Fields::handle_at))]
fn handle_at(alloc: Global, text: &[u8]) -> Result<Option<(Octets, &[u8])>, AllocError>
    ensures { IfOk result (λ o. Reads (λ x. (x.0, x.1.now)) o (handle_at text.now)) }
{
    let Some((word, rest)) = cut_at(text, b'\t') else {
        return Ok(None);
    };
    let Some(handle) = unescaped(alloc, word)? else {
        return Ok(None);
    };
    Ok(Some((handle, rest)))
}

#[tactic(auto, unfolding(crate::specs::Fields::key_in))]
fn key_in(alloc: Global, text: &[u8]) -> Result<Option<RawRef>, AllocError>
    ensures { IfOk result (λ o. o ≡ key_in text.now) }
{
    let Some((index, handle)) = cut_at(text, b':') else {
        return Ok(None);
    };
    let Some(index) = number_in(index) else {
        return Ok(None);
    };
    let Some(handle) = unescaped(alloc, handle)? else {
        return Ok(None);
    };
    Ok(Some(RawRef { handle, index }))
}

fn author_in(alloc: Global, text: &[u8]) -> Result<Option<Author>, AllocError>
    ensures { IfOk result (λ o. o ≡ author_in text.now) }
{
    if text == b"-".as_slice() {
        return Ok(Some(Author::Anyone));
    }
    if text == b"*".as_slice() {
        return Ok(Some(Author::OtherServer));
    }
    match key_in(alloc, text)? {
        Some(key) => Ok(Some(Author::Key(key))),
        None => Ok(None),
    }
}

/// Who made the change and the tab behind it, and what follows.
#[tactic(auto, unfolding(crate::specs::Fields::author_at))]
fn author_at(alloc: Global, text: &[u8]) -> Result<Option<(Author, &[u8])>, AllocError>
    ensures { IfOk result (λ o. Reads (λ x. (x.0, x.1.now)) o (author_at text.now)) }
{
    let Some((word, rest)) = cut_at(text, b'\t') else {
        return Ok(None);
    };
    let Some(author) = author_in(alloc, word)? else {
        return Ok(None);
    };
    Ok(Some((author, rest)))
}

/// What stands between two of an octet.
fn words_of(alloc: Global, text: &[u8], stop: u8) -> Result<Vec<&[u8]>, AllocError>
    ensures { IfOk result (λ words. map (λ word. word.now) words.items ≡ slice_split (λ octet. octet == stop) text.now) }
{
    text.split(|octet| *octet == stop).collect(alloc)
}

fn indexes_in(alloc: Global, text: &[u8]) -> Result<Option<Items<u32>>, AllocError>
    ensures { IfOk result (λ o. o ≡ indexes_in text.now) }
{
    if text == b"-".as_slice() {
        return Ok(Some(Items::new(Vec::new(alloc))));
    }
    numbers_in(alloc, &words_of(alloc, text, b',')?)
}

/// The number of each word.
fn numbers_in(alloc: Global, words: &[&[u8]]) -> Result<Option<Items<u32>>, AllocError>
    ensures { IfOk result (λ o. o ≡ numbers_in (map (λ word. word.now) words.now)) }
{
    let mut indexes = Vec::new(alloc);
    for word in words {
        let Some(index) = number_in(word) else {
            return Ok(None);
        };
        indexes.push(index)?;
    }
    Ok(Some(Items::new(indexes)))
}

/// The lines between tabs.
fn lines_in(alloc: Global, text: &[u8]) -> Result<Items<Octets>, AllocError>
    ensures { IfOk result (λ lines. lines ≡ slice_split (λ octet. octet == tab) text.now) }
{
    copies_of(alloc, &words_of(alloc, text, b'\t')?)
}

fn copies_of(alloc: Global, words: &[&[u8]]) -> Result<Items<Octets>, AllocError>
    ensures { IfOk result (λ lines. lines ≡ map (λ word. word.now) words.now) }
{
    let mut lines = Vec::new(alloc);
    for word in words {
        lines.push(Octets::new(Vec::from_slice(alloc, word)?))?;
    }
    Ok(Items::new(lines))
}

fn before_in(alloc: Global, text: Option<&[u8]>) -> Result<Option<ValuesBefore>, AllocError>
    ensures { IfOk result (λ o. o ≡ before_in (option_copied text.entry)) }
{
    let Some(text) = text else {
        return Ok(Some(ValuesBefore::Lines(Items::new(Vec::new(alloc)))));
    };
    if let [b'!', number @ ..] = text {
        return match long_in(number) {
            Some(count) => Ok(Some(ValuesBefore::LeftOut(count))),
            None => Ok(None),
        };
    }
    Ok(Some(ValuesBefore::Lines(lines_in(alloc, text)?)))
}

/// Reads the line of an entry, which has no line end. The values before stay lines: [`hdl_value_lines::read_value_line`] reads them.
///
/// Refuses with the first field that is wrong, from the left.
#[tactic(auto, unfolding(crate::specs::Read::entry_in))]
pub fn read_entry(alloc: Global, line: &[u8]) -> Result<Entry, EntryFault>
    ensures entry { IfOk result (λ entry. entry_in line.now ≡ Ok entry) }
    ensures fault { IfErr result (λ e. (e ≡ EntryFault.Memory) ⊎ (entry_in line.now ≡ Err e)) }
{
    let (moment, rest) = moment_at(line).ok_or(EntryFault::Moment)?;
    let (operation, rest) = operation_at(rest).ok_or(EntryFault::Operation)?;
    let (handle, rest) = handle_at(alloc, rest)?.ok_or(EntryFault::Handle)?;
    let (author, rest) = author_at(alloc, rest)?.ok_or(EntryFault::Author)?;
    let (indexes, rest) = first_field(rest);
    let indexes = indexes_in(alloc, indexes)?.ok_or(EntryFault::Indexes)?;
    let before = before_in(alloc, rest)?.ok_or(EntryFault::Count)?;
    Ok(Entry {
        moment,
        operation,
        handle,
        author,
        indexes,
        before,
    })
}
