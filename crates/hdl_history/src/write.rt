//! Writing of lines.

ghost use Rattle.std.specs.Prelude.{◌≡◌, ◌<◌, ◌≤◌, ◌^◌, ◌⊎◌, ◌↔◌, ◌∷◌, ◌++◌, [], IfOk, IfSome, IsTrue, OnOk, decimal, length, map};
ghost use Rattle.std.specs.Option.{IfNone};
ghost use Rattle.std.specs.List.{AllByRecursion, flat_map};
ghost use Rattle.hdl_value.specs.Spelling.{CanBeSpelt};
ghost use Rattle.hdl_history.specs.Lines.{author_text, before_text, comma, indexes_text, line_of, lines_text, shown, values_before};

use crate::entry::{Author, Entry, ValuesBefore};
use crate::fields::{escaped, put_field, put_number};
use hdl_limits::{Items, Octets};
use hdl_value::{RawRef, Value, cut_value, value_fits, write_value};
use hdl_value_lines::shown_line;
use std::alloc::{AllocError, Global};

/// The most octets that the lines of the values before a change have in a line, with a tab before each.
pub const VALUES_TEXT_MAX: usize = 1_048_576;

/// The longest field of a value that can be spelt.
const FIELD_MAX: usize = u32::MAX as usize;

/// Whether the handle of each reference fits its field.
fn references_fit(references: &[RawRef]) -> bool
    ensures { IsTrue result ↔ AllByRecursion (λ r. length r.handle < 2 ^ 32) references.now }
{
    references
        .iter()
        .all(|reference| reference.handle.as_slice().len() <= FIELD_MAX)
}

/// Whether the lengths and counts of the value fit their fields.
fn can_be_spelt(value: &Value) -> bool
    ensures { IsTrue result ↔ CanBeSpelt value.now }
{
    let references = value.references.as_slice();
    value.kind.as_slice().len() <= FIELD_MAX
        && value.bytes.as_slice().len() <= FIELD_MAX
        && references.len() <= FIELD_MAX
        && references_fit(references)
}

/// The line of a value, its data hidden if it is a key.
fn shown(alloc: Global, value: &Value) -> Result<Octets, AllocError>
    requires { CanBeSpelt value.now }
    ensures { IfOk result (λ line. line ≡ shown value.now) }
{
    let octets = write_value(alloc, value)?;
    value_fits(value);
    let Some((cut, _)) = cut_value(&octets) else {
        unreachable!()
    };
    Ok(Octets::new(shown_line(alloc, &cut, false)?))
}

/// The line of each value; None if they are longer than [`VALUES_TEXT_MAX`] together, or a value has no line.
fn lines_before(alloc: Global, values: &[Value]) -> Result<Option<Items<Octets>>, AllocError>
    ensures lines { IfOk result (λ o. IfSome o (λ lines. (lines ≡ map shown values.now) × (length (lines_text lines) ≤ VALUES_TEXT_MAX))) }
    ensures long { IfOk result (λ o. IfNone o (AllByRecursion CanBeSpelt values.now → VALUES_TEXT_MAX < length (lines_text (map shown values.now)))) }
{
    let mut lines = Vec::new(alloc);
    let mut count = 0;
    for value in values {
        if !can_be_spelt(value) {
            return Ok(None);
        }
        let line = shown(alloc, value)?;
        count += 1 + line.as_slice().len();
        if count > VALUES_TEXT_MAX {
            return Ok(None);
        }
        lines.push(line)?;
    }
    Ok(Some(Items::new(lines)))
}

/// The values before a change, as its line has them: the line of each, or how many there are if their lines are longer than
/// [`VALUES_TEXT_MAX`] together. A value of 2^32 octets or more, which no server has, is left out too. Fails only for want of memory.
#[tactic(auto, unfolding(crate::specs::Lines::values_before))]
pub fn values_before(alloc: Global, values: &[Value]) -> Result<ValuesBefore, AllocError>
    ensures exact { IfOk result (λ before. AllByRecursion CanBeSpelt values.now → before ≡ values_before values.now) }
    ensures always { IfOk result (λ before. (before ≡ values_before values.now) ⊎ (before ≡ ValuesBefore.LeftOut (length values.now))) }
{
    match lines_before(alloc, values)? {
        Some(lines) => Ok(ValuesBefore::Lines(lines)),
        None => Ok(ValuesBefore::LeftOut(values.len() as u64)),
    }
}

fn author_text(alloc: Global, author: &Author) -> Result<Vec<u8>, AllocError>
    ensures { IfOk result (λ text. text.items ≡ author_text author.now) }
{
    let key = match author {
        Author::Anyone => return Vec::from_slice(alloc, b"-"),
        Author::OtherServer => return Vec::from_slice(alloc, b"*"),
        Author::Key(key) => key,
    };
    let mut text = Vec::new(alloc);
    put_number(&mut text, key.index as u64)?;
    text.push(b':')?;
    let handle = escaped(alloc, key.handle.as_slice())?;
    text.extend_from_slice(handle.as_bytes())?;
    Ok(text)
}

/// Puts indexes at the end, a comma between two.
fn put_indexes(out: &mut Vec<u8>, indexes: &[u32]) -> Result<(), AllocError>
    ensures { OnOk result (out.new.items ≡ out.old.items ++ indexes_text indexes.now) }
{
    let [first, rest @ ..] = indexes else {
        return Ok(out.push(b'-')?);
    };
    put_number(out, *first as u64)?;
    put_more(out, rest)
}

/// Puts indexes at the end, a comma before each.
fn put_more(out: &mut Vec<u8>, indexes: &[u32]) -> Result<(), AllocError>
    ensures { OnOk result (out.new.items ≡ out.old.items ++ flat_map (λ i. comma ∷ decimal i) indexes.now) }
{
    for index in indexes {
        out.push(b',')?;
        put_number(out, *index as u64)?;
    }
    Ok(())
}

/// Puts lines at the end, a tab before each.
fn put_lines(out: &mut Vec<u8>, lines: &[Octets]) -> Result<(), AllocError>
    ensures { OnOk result (out.new.items ≡ out.old.items ++ lines_text lines.now) }
{
    for line in lines {
        out.push(b'\t')?;
        out.extend_from_slice(line.as_slice())?;
    }
    Ok(())
}

fn put_before(out: &mut Vec<u8>, before: &ValuesBefore) -> Result<(), AllocError>
    ensures { OnOk result (out.new.items ≡ out.old.items ++ before_text before.now) }
{
    match before {
        ValuesBefore::Lines(lines) => put_lines(out, lines.as_slice()),
        ValuesBefore::LeftOut(count) => {
            out.extend_from_slice(b"\t!")?;
            put_number(out, *count)
        }
    }
}

/// The line of an entry, with the line end behind it. Fails only for want of memory.
#[tactic(auto, unfolding(crate::specs::Lines::line_of))]
pub fn entry_line(alloc: Global, entry: &Entry) -> Result<Vec<u8>, AllocError>
    ensures { IfOk result (λ line. line.items ≡ line_of entry.now ++ 10 ∷ []) }
{
    let mut line = Vec::new(alloc);
    put_number(&mut line, entry.moment)?;
    line.push(b'\t')?;
    put_field(&mut line, entry.operation.word().as_bytes())?;
    let handle = escaped(alloc, entry.handle.as_slice())?;
    put_field(&mut line, handle.as_bytes())?;
    let author = author_text(alloc, &entry.author)?;
    put_field(&mut line, &author)?;
    put_indexes(&mut line, entry.indexes.as_slice())?;
    put_before(&mut line, &entry.before)?;
    line.push(b'\n')?;
    Ok(line)
}
