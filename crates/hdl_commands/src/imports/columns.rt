//! Lines of a CSV file, and what its header names.

ghost use Rattle.std.specs.Prelude.{◌≡◌, Some, ◌↔◌, IsTrue, ◌%◌, ◌==◌, count_by, map, IfOk, IfSome, option_map};
ghost use Rattle.std.specs.Char.{to_ascii_lowercase};
ghost use Rattle.csv.specs.Records.{fields_of};
ghost use Rattle.hdl_commands.specs.Rows.{fields_in, name_at, AreNamed};

use crate::fault::ArgumentFault;
use csv::{ByteRecord, ReaderBuilder};
use std::alloc::{AllocError, Global};

/// Where the columns of a file stand, from 0.
#[derive(Clone, Copy, PartialEq, Eq)]
pub struct Columns {
    pub handle: usize,
    pub kind: usize,
    pub bytes: usize,
    pub ttl: Option<usize>,
    pub index: Option<usize>,
    pub permissions: Option<usize>,
}

/// The fields of a line with this octet between them; None of a line that is empty.
pub(crate) fn fields_in(
    alloc: Global,
    separator: u8,
    line: &[u8],
) -> Result<Option<ByteRecord>, AllocError>
    ensures { IfOk result (λ row. option_map fields_of row ≡ fields_in separator line.now) }
{
    let mut reader = ReaderBuilder::new()
        .has_headers(false)
        .delimiter(separator)
        .from_reader(alloc, line);
    let mut row = ByteRecord::new(alloc);
    match reader.read_byte_record(&mut row) {
        Ok(true) => Ok(Some(row)),
        Ok(false) => Ok(None),
        Err(_) => Err(AllocError),
    }
}

/// Whether each quote of a line is closed in it.
pub(crate) fn is_closed(line: &[u8]) -> bool
    ensures { IsTrue result ↔ (count_by (λ octet. octet == 34) line.now % 2 ≡ 0) }
{
    line.iter().filter(|octet| **octet == b'"').count() % 2 == 0
}

/// The first column of this name in letters of any case, of those from `start` on.
fn column_from(names: &ByteRecord, name: &str, start: usize) -> Option<usize>
    ensures { IfSome result (λ place. name_at (fields_of names.now) place ≡ Some (map to_ascii_lowercase name.now)) }
{
    for place in start..names.len() {
        if let Some(field) = names.get(place) {
            if field.eq_ignore_ascii_case(name.as_bytes()) {
                return Some(place);
            }
        }
    }
    None
}

/// Whether a column has this name but for spaces around it.
fn has_near(names: &ByteRecord, name: &str) -> bool {
    for place in 0..names.len() {
        if let Some(field) = names.get(place) {
            if field.trim_ascii().eq_ignore_ascii_case(name.as_bytes()) {
                return true;
            }
        }
    }
    false
}

/// The column of this name, if there is one. One with spaces around its name is refused, since it would be passed over.
fn column(names: &ByteRecord, name: &'static str) -> Result<Option<usize>, ArgumentFault>
    ensures { IfOk result (λ found. IfSome found (λ place. name_at (fields_of names.now) place ≡ Some (map to_ascii_lowercase name.now))) }
{
    let Some(place) = column_from(names, name, 0) else {
        return if has_near(names, name) {
            Err(ArgumentFault::ColumnSpace(name))
        } else {
            Ok(None)
        };
    };
    if column_from(names, name, place.saturating_add(1)).is_some() {
        return Err(ArgumentFault::ColumnTwice(name));
    }
    Ok(Some(place))
}

fn needed_column(names: &ByteRecord, name: &'static str) -> Result<usize, ArgumentFault>
    ensures { IfOk result (λ place. name_at (fields_of names.now) place ≡ Some (map to_ascii_lowercase name.now)) }
{
    column(names, name)?.ok_or(ArgumentFault::Column(name))
}

/// The columns that a header names; the columns of other names are passed over.
pub(crate) fn columns_of(names: &ByteRecord) -> Result<Columns, ArgumentFault>
    ensures { IfOk result (AreNamed (fields_of names.now)) }
{
    Ok(Columns {
        handle: needed_column(names, "handle")?,
        kind: needed_column(names, "type")?,
        bytes: needed_column(names, "data")?,
        ttl: column(names, "ttl")?,
        index: column(names, "index")?,
        permissions: column(names, "permissions")?,
    })
}
