//! The value that a row says.

ghost use Rattle.std.specs.Prelude.{◌≡◌, IfOk, IfErr, option_and_then};
ghost use Rattle.csv.specs.Records.{field_at, fields_of};
ghost use Rattle.hdl_value_lines.specs.Fields as line;
ghost use Rattle.hdl_value_lines.specs.Lines.{IsFaultIn};
ghost use Rattle.hdl_commands.specs.Rows as rows;

use crate::imports::columns::Columns;
use csv::ByteRecord;
use hdl_value::Value;
use hdl_value_lines::{LineFault, number_in, permissions_in, value_by_type};
use std::alloc::Global;

/// The permissions 1110: administrators read and write, everyone reads.
pub(crate) const PUBLIC_READ_PERMISSIONS: u8 = 14;

/// A day, in seconds.
pub(crate) const DAY_SECONDS: u32 = 86_400;

fn number_at(fields: &ByteRecord, column: usize) -> Option<u32>
    ensures { result ≡ option_and_then line.number_in (field_at (fields_of fields.now) column) }
{
    number_in(fields.get(column)?)
}

fn index_in(column: Option<usize>, place: u32, fields: &ByteRecord) -> Option<u32>
    ensures { result ≡ rows.index_in column place (fields_of fields.now) }
{
    match column {
        None => Some(place),
        Some(column) => number_at(fields, column),
    }
}

fn ttl_in(unsaid: u32, field: &[u8]) -> Option<u32>
    ensures { result ≡ rows.ttl_in unsaid field.now }
{
    if field.is_empty() {
        Some(unsaid)
    } else {
        number_in(field)
    }
}

fn ttl_of(unsaid: u32, column: Option<usize>, fields: &ByteRecord) -> Option<u32>
    ensures { result ≡ rows.ttl_of unsaid column (fields_of fields.now) }
{
    match column {
        None => Some(unsaid),
        Some(column) => ttl_in(unsaid, fields.get(column)?),
    }
}

fn permissions_of(column: Option<usize>, fields: &ByteRecord) -> Option<u8>
    ensures { result ≡ rows.permissions_of column (fields_of fields.now) }
{
    match column {
        None => Some(PUBLIC_READ_PERMISSIONS),
        Some(column) => permissions_in(fields.get(column)?),
    }
}

/// The value of a row that stands at this place among the rows of its handle, from 1, or its first field that is wrong. A row that says no TTL
/// has the one that is given.
#[tactic(auto, unfolding(crate::specs::Rows::value_in_row))]
pub(crate) fn value_in_row(
    alloc: Global,
    columns: &Columns,
    ttl: u32,
    place: u32,
    fields: &ByteRecord,
) -> Result<Value, LineFault>
    ensures value { IfOk result (λ v. rows.value_in_row columns.now ttl place (fields_of fields.now) ≡ Ok v) }
    ensures fault { IfErr result (IsFaultIn (rows.value_in_row columns.now ttl place (fields_of fields.now))) }
{
    let Some(index) = index_in(columns.index, place, fields) else {
        return Err(LineFault::Index);
    };
    let Some(kind) = fields.get(columns.kind) else {
        return Err(LineFault::Type);
    };
    let Some(ttl) = ttl_of(ttl, columns.ttl, fields) else {
        return Err(LineFault::Ttl);
    };
    let Some(permissions) = permissions_of(columns.permissions, fields) else {
        return Err(LineFault::Permissions);
    };
    let Some(text) = fields.get(columns.bytes) else {
        return Err(LineFault::Text);
    };
    value_by_type(alloc, index, kind, ttl, permissions, text)
}
