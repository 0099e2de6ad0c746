//! The values of a tenants text as a table: rows of a CSV file, or lines of JSON.

ghost use Rattle.std.specs.Prelude.{◌≡◌, true, false, IfOk};
ghost use Rattle.hdl_value.specs.Refs.{is_secret_key};
ghost use Rattle.hdl_commands.specs.declared.exports.Exported.TheVariants as exported;

use crate::exit_status::ExitStatus;
use crate::imports::{HEADER, row_of};
use crate::words::line_of;
use hdl_value::{Value, cut_value};
use hdl_value_lines::{cut_at, printed_octets};
use std::alloc::{AllocError, Global};
use std::io::{self, BufRead, BufReader, BufWriter, Write};

/// How the values are written.
#[derive(Clone, Copy, PartialEq, Eq)]
pub enum ExportFormat {
    /// A row for each value, which an import reads as the same value.
    Csv,
    /// An object for each value, on a line of its own.
    Json,
}

/// What a line of a tenants text comes to.
#[derive(Drop)]
enum Exported {
    /// A line of the table.
    Line(Vec<u8>),
    /// A key that is left out.
    Key,
    /// A value that no row says, with its handle and index.
    Unsaid(Vec<u8>, u32),
    /// No value.
    Other,
}

/// How many values came to what.
#[derive(Clone, Copy)]
struct Counts {
    written: usize,
    keys: usize,
    unsaid: usize,
}

/// Adds octets between quotes of JSON.
fn push_string(text: &mut Vec<u8>, octets: &[u8]) -> Result<(), AllocError> {
    text.extend_from_slice(b"\"")?;
    for octet in octets {
        match *octet {
            b'"' => text.extend_from_slice(b"\\\"")?,
            b'\\' => text.extend_from_slice(b"\\\\")?,
            other => text.extend_from_slice(&[other])?,
        }
    }
    text.extend_from_slice(b"\"")
}

/// Adds a member, whose value stands between quotes unless it is a number.
fn push_member(
    text: &mut Vec<u8>,
    name: &[u8],
    told: &[u8],
    is_number: bool,
) -> Result<(), AllocError> {
    if !text.is_empty() {
        text.extend_from_slice(b",")?;
    } else {
        text.extend_from_slice(b"{")?;
    }
    push_string(text, name)?;
    text.extend_from_slice(b":")?;
    if is_number {
        text.extend_from_slice(told)
    } else {
        push_string(text, told)
    }
}

/// The first word of a line, and what follows it.
fn word(line: &[u8]) -> (&[u8], &[u8]) {
    cut_at(line, b' ').unwrap_or((line, b""))
}

/// The object of a value: the parts of its line, each with its name.
fn object_of(alloc: Global, handle: &[u8], value: &Value) -> Result<Option<Vec<u8>>, AllocError> {
    let Some(line) = line_of(alloc, value)? else {
        return Ok(None);
    };
    let mut text = Vec::new(alloc);
    let handle = printed_octets(alloc, handle)?;
    push_member(&mut text, b"handle", handle.as_bytes(), false)?;
    let (index, rest) = word(&line);
    if index == b"OCTETS".as_slice() {
        push_member(&mut text, b"format", index, false)?;
        push_member(&mut text, b"data", rest, false)?;
    } else {
        let (kind, rest) = word(rest);
        let (ttl, rest) = word(rest);
        let (permissions, rest) = word(rest);
        let (format, data) = word(rest);
        push_member(&mut text, b"index", index, true)?;
        push_member(&mut text, b"type", kind, false)?;
        push_member(&mut text, b"format", format, false)?;
        push_member(&mut text, b"data", data, false)?;
        push_member(&mut text, b"ttl", ttl, true)?;
        push_member(&mut text, b"permissions", permissions, false)?;
    }
    text.extend_from_slice(b"}")?;
    Ok(Some(text))
}

/// What a value comes to.
fn exported_value(
    alloc: Global,
    table: ExportFormat,
    shows_keys: bool,
    handle: &[u8],
    value: &Value,
) -> Result<Exported, AllocError>
    ensures hidden { is_secret_key value.now ≡ true → shows_keys ≡ false → IfOk result (λ e. e ≡ exported.Key) }
{
    if value.is_secret_key() && !shows_keys {
        return Ok(Exported::Key);
    }
    let line = match table {
        ExportFormat::Csv => row_of(alloc, handle, value)?,
        ExportFormat::Json => object_of(alloc, handle, value)?,
    };
    match line {
        Some(line) => Ok(Exported::Line(line)),
        None => Ok(Exported::Unsaid(Vec::from_slice(alloc, handle)?, value.index)),
    }
}

/// The value that a line `value HANDLE DIGITS` says, and its handle.
fn value_of(alloc: Global, line: &str) -> Option<(&str, Value)> {
    let (head, rest) = line.split_once(' ')?;
    let (handle, digits) = rest.rsplit_once(' ')?;
    if head != "value" {
        return None;
    }
    let octets = hex::decode(alloc, digits).ok()?;
    match cut_value(&octets)? {
        (cut, []) => Some((handle, cut.read(alloc).ok()?)),
        _ => None,
    }
}

fn exported_line(
    alloc: Global,
    table: ExportFormat,
    shows_keys: bool,
    line: &str,
) -> Result<Exported, AllocError> {
    match value_of(alloc, line) {
        Some((handle, value)) => exported_value(
            alloc,
            table,
            shows_keys,
            handle.as_bytes(),
            &value,
        ),
        None => Ok(Exported::Other),
    }
}

/// Says on standard error that no row says a value.
fn report_unsaid(rt: &HostRuntime, handle: &[u8], index: u32) {
    let alloc = rt.alloc();
    // without memory for it the handle is missing from the line
    let handle = printed_octets(alloc, handle).unwrap_or_else(|_| String::new(alloc));
    let _ = eprintln!(rt;
        "hdl: {handle}: no row of a CSV file says the value with index {index}: --json does"
    );
}

fn export_lines(rt: &HostRuntime, table: ExportFormat, shows_keys: bool) -> io::Result<Counts> {
    let alloc = rt.alloc();
    let mut counts = Counts {
        written: 0,
        keys: 0,
        unsaid: 0,
    };
    let mut input = BufReader::new(alloc, rt.reader())?;
    let mut output = BufWriter::new(alloc, io::writer(rt))?;
    if table == ExportFormat::Csv {
        output.write_all(HEADER.as_bytes())?;
    }
    let mut line = String::new(alloc);
    for _ in 0..u64::MAX {
        line.clear();
        if input.read_line(&mut line)? == 0 {
            break;
        }
        match exported_line(alloc, table, shows_keys, line.trim_end())? {
            Exported::Line(octets) => {
                output.write_all(&octets)?;
                output.write_all(b"\n")?;
                counts.written = counts.written.saturating_add(1);
            }
            Exported::Key => counts.keys = counts.keys.saturating_add(1),
            Exported::Unsaid(handle, index) => {
                report_unsaid(rt, &handle, index);
                counts.unsaid = counts.unsaid.saturating_add(1);
            }
            Exported::Other => {}
        }
    }
    output.flush()?;
    Ok(counts)
}

/// Says on standard error what to do if a text has no value: it may have them in words.
fn report_none(rt: &HostRuntime, counts: Counts) {
    if counts.written == 0 && counts.keys == 0 && counts.unsaid == 0 {
        let _ = eprintln!(rt;
            "hdl: the text has no value in digits: `handled export` makes such a text of a table, and `hdl tenants` of words"
        );
    }
}

/// Writes the values of the tenants text on standard input as a table, without those that are keys unless they are asked for, and says
/// on standard error how many there are. Other lines are passed over. Answers the exit status: 0, or 1 where no row says a value, or
/// a stream failed.
pub fn export_values(rt: &HostRuntime, table: ExportFormat, shows_keys: bool) -> ExitStatus {
    match export_lines(rt, table, shows_keys) {
        Ok(counts) => {
            let Counts {
                written,
                keys,
                unsaid,
            } = counts;
            let _ = eprintln!(rt;
                "hdl: {written} values written, {keys} keys left out, {unsaid} that a CSV row can't express"
            );
            report_none(rt, counts);
            ExitStatus::of_failures(unsaid)
        }
        Err(fault) => {
            let _ = eprintln!(rt; "hdl: {fault}");
            ExitStatus::Failure
        }
    }
}
