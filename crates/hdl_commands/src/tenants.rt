//! Lines of a tenants text, with values in words.

use crate::batch_text::BatchFault;
use crate::fault::ArgumentFault;
use crate::request::value_in;
use hdl_value::write_value;
use std::alloc::{AllocError, Global};

/// A value's line in hexadecimal digits.
fn value_in_digits(alloc: Global, handle: &str, words: &str) -> Result<String, ArgumentFault> {
    let value = value_in(alloc, words)?;
    let octets = write_value(alloc, &value)?;
    let digits = hex::encode(alloc, &octets)?;
    Ok(format!(in alloc; "value {handle} {digits}\n")?)
}

/// The line as the tenants text has it.
fn line_of(alloc: Global, line: &str) -> Result<String, ArgumentFault> {
    if line.starts_with('\u{feff}') {
        return Err(ArgumentFault::Mark);
    }
    if let Some(("value", rest)) = line.split_once(' ') {
        if let Some((handle, words)) = rest.split_once(' ') {
            if words.contains(' ') {
                return value_in_digits(alloc, handle, words);
            }
        }
    }
    Ok(format!(in alloc; "{line}\n")?)
}

/// The lines of such a text that can't be read, in their order, and why.
pub fn tenants_faults(alloc: Global, text: &str) -> Result<Vec<BatchFault>, AllocError> {
    let mut faults = Vec::new(alloc);
    let mut number = 0usize;
    for line in text.lines() {
        number = number.saturating_add(1);
        match line_of(alloc, line) {
            Ok(_) => {}
            Err(ArgumentFault::Memory) => return Err(AllocError),
            Err(fault) => faults.push(BatchFault {
                line: number,
                fault,
            })?,
        }
    }
    Ok(faults)
}

/// The tenants text whose values stand in words: a line `value HANDLE WORDS` with the words of a value (`hdl_value_lines`) gets the value's
/// octets in hexadecimal digits, with timestamp 0; every other line stays. The fault names the first value that can't be read.
pub fn write_tenants(alloc: Global, text: &str) -> Result<String, BatchFault> {
    let mut out = String::new(alloc);
    let mut number = 0usize;
    for line in text.lines() {
        number = number.saturating_add(1);
        let fault = match line_of(alloc, line) {
            Ok(line) => match out.push_str(&line) {
                Ok(()) => continue,
                Err(_) => ArgumentFault::Memory,
            },
            Err(fault) => fault,
        };
        return Err(BatchFault {
            line: number,
            fault,
        });
    }
    Ok(out)
}
