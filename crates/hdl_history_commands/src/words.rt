//! Changes in words.

use hdl_audit::Moment;
use hdl_history::{Author, Entry, ValuesBefore};
use hdl_value_lines::printed_octets;
use std::alloc::{AllocError, Global};

/// Adds indexes, a comma between two.
fn push_indexes(text: &mut String, alloc: Global, indexes: &[u32]) -> Result<(), AllocError> {
    let mut sign = " ";
    for index in indexes {
        let word = format!(in alloc; "{sign}{index}")?;
        text.push_str(&word)?;
        sign = ",";
    }
    Ok(())
}

fn push_author(text: &mut String, alloc: Global, author: &Author) -> Result<(), AllocError> {
    match author {
        Author::Anyone => text.push_str(" by anyone"),
        Author::OtherServer => text.push_str(" by another server"),
        Author::Key(key) => {
            let handle = printed_octets(alloc, key.handle.as_slice())?;
            let words = format!(in alloc; " by {}:{handle}", key.index)?;
            text.push_str(&words)
        }
    }
}

/// Adds a line of octets behind a sign.
fn push_line(text: &mut String, alloc: Global, sign: &str, line: &[u8]) -> Result<(), AllocError> {
    let line = printed_octets(alloc, line)?;
    text.push_str(sign)?;
    text.push_str(&line)?;
    text.push('\n')
}

/// Adds the line of each value behind a sign, or how many there are.
pub(crate) fn push_values(
    text: &mut String,
    alloc: Global,
    sign: &str,
    values: &ValuesBefore,
) -> Result<(), AllocError> {
    match values {
        ValuesBefore::Lines(lines) => {
            for line in lines.as_slice() {
                push_line(text, alloc, sign, line.as_slice())?;
            }
            Ok(())
        }
        ValuesBefore::LeftOut(count) => {
            let words = format!(in alloc; "{count} values, left out since they are too long")?;
            push_line(text, alloc, sign, words.as_bytes())
        }
    }
}

/// Adds a change: moment, operation, indexes, and who made it.
pub(crate) fn push_change(
    text: &mut String,
    alloc: Global,
    entry: &Entry,
) -> Result<(), AllocError> {
    let moment = Moment(entry.moment);
    let words = format!(in alloc; "{moment} {}", entry.operation.word())?;
    text.push_str(&words)?;
    push_indexes(text, alloc, entry.indexes.as_slice())?;
    push_author(text, alloc, &entry.author)?;
    text.push('\n')
}

/// A change, and under it the values before.
pub(crate) fn change_text(alloc: Global, entry: &Entry) -> Result<String, AllocError> {
    let mut text = String::new(alloc);
    push_change(&mut text, alloc, entry)?;
    push_values(&mut text, alloc, "    ", &entry.before)?;
    Ok(text)
}
