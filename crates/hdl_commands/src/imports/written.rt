//! Values as rows of a CSV file, which an import reads as the same values.

ghost use Rattle.std.specs.Prelude.{◌≡◌, IfOk, IfSome};
ghost use Rattle.hdl_commands.specs.Replace.{written_columns, IsRowOf};

use crate::imports::columns::{Columns, fields_in, is_closed};
use crate::imports::row::value_in_row;
use crate::imports::update::is_same;
use crate::words::line_of;
use csv::ByteRecord;
use hdl_value::{HS_ADMIN, HS_VLIST, Value};
use hdl_value_lines::{LineFault, cut_at};
use std::alloc::{AllocError, Global};

/// The first line of a file of such rows.
pub(crate) const HEADER: &str = "handle,index,type,data,ttl,permissions\n";

fn written_columns() -> Columns
    ensures { result ≡ written_columns }
{
    Columns {
        handle: 0,
        kind: 2,
        bytes: 3,
        ttl: Some(4),
        index: Some(1),
        permissions: Some(5),
    }
}

/// Adds a field, in quotes if one of its octets needs them.
fn push_field(row: &mut Vec<u8>, field: &[u8]) -> Result<(), AllocError> {
    let is_plain = field
        .iter()
        .all(|octet| !matches!(*octet, b',' | b';' | b'"'));
    if is_plain {
        return row.extend_from_slice(field);
    }
    row.push(b'"')?;
    for octet in field {
        if *octet == b'"' {
            row.push(b'"')?;
        }
        row.push(*octet)?;
    }
    row.push(b'"')?;
    Ok(())
}

/// The format in which a row says the data of a type.
fn format_of(kind: &[u8]) -> &'static [u8] {
    match kind {
        _ if kind == HS_ADMIN => b"ADMIN",
        _ if kind == HS_VLIST => b"LIST",
        _ => b"UTF8",
    }
}

/// The row of a value by its line, whose parts stand as `INDEX TYPE TTL PERMISSIONS FORMAT DATA`.
fn row_of_line(alloc: Global, handle: &[u8], line: &[u8]) -> Result<Option<Vec<u8>>, AllocError> {
    let Some((index, rest)) = cut_at(line, b' ') else {
        return Ok(None);
    };
    let Some((kind, rest)) = cut_at(rest, b' ') else {
        return Ok(None);
    };
    let Some((ttl, rest)) = cut_at(rest, b' ') else {
        return Ok(None);
    };
    let Some((permissions, rest)) = cut_at(rest, b' ') else {
        return Ok(None);
    };
    let Some((format, data)) = cut_at(rest, b' ') else {
        return Ok(None);
    };
    if format != format_of(kind) {
        return Ok(None);
    }
    let mut row = Vec::new(alloc);
    push_field(&mut row, handle)?;
    for field in [index, kind, data, ttl, permissions] {
        row.push(b',')?;
        push_field(&mut row, field)?;
    }
    Ok(Some(row))
}

fn has_line_end(row: &[u8]) -> bool {
    row.contains(&b'\n') || row.contains(&b'\r')
}

/// The row of a handle's value, without its line end; None of a value that no row says. The row is read as the value: that is looked at.
pub(crate) fn row_of(
    alloc: Global,
    handle: &[u8],
    value: &Value,
) -> Result<Option<Vec<u8>>, AllocError>
    ensures { IfOk result (λ row. IfSome row (λ octets. IsRowOf handle.now value.now octets.items)) }
{
    let Some(line) = line_of(alloc, value)? else {
        return Ok(None);
    };
    let Some(row) = row_of_line(alloc, handle, &line)? else {
        return Ok(None);
    };
    if has_line_end(&row) || !is_closed(&row) {
        return Ok(None);
    }
    let Some(fields) = fields_in(alloc, b',', &row)? else {
        return Ok(None);
    };
    if fields.get(0) != Some(handle) {
        return Ok(None);
    }
    match value_in_row(alloc, &written_columns(), 0, 1, &fields) {
        Ok(back) if is_same(&back, value) => Ok(Some(row)),
        Err(LineFault::Memory) => Err(AllocError),
        _ => Ok(None),
    }
}
