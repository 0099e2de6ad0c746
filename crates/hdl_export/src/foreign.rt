//! The rows of other publishers on which a publisher's answers rest.

ghost use Rattle.std.specs.Prelude.{◌≡◌, ◌++◌, map, OnOk};
ghost use Rattle.std.specs.List.{AllByRecursion};
ghost use Rattle.hdl_value.specs.Refs.{place_of};
ghost use Rattle.hdl_reach.specs.Seen.{places};
ghost use Rattle.hdl_export.specs.Lines as lines;
ghost use Rattle.hdl_export.specs.Lines.{text_of};
ghost use Rattle.hdl_export.specs.Rows.{foreign_at, foreign_rows};
ghost use Rattle.hdl_export.specs.Laws.{IsWritableRow};

use crate::fault::ExportFault;
use crate::line::{is_expressible, put_line, value_line};
use crate::prefixes::is_among;
use crate::rows::name_of;
use hdl_rows::Rows;
use hdl_value::{Reference, Value};
use std::alloc::Global;

/// Puts the line of the value that stands at a place.
fn put_value(
    alloc: Global,
    handle: &[u8],
    value: &Value,
    out: &mut Vec<u8>,
) -> Result<(), ExportFault>
    ensures put { OnOk result (out.new.items ≡ out.old.items ++ lines.with_line_end (lines.value_line (handle.now, value.now))) }
    ensures writable { OnOk result (IsWritableRow (handle.now, value.now)) }
{
    if !is_expressible(handle) {
        return Err(ExportFault::Inexpressible);
    }
    let line = value_line(alloc, handle, value)?;
    put_line(out, line.as_slice())?;
    Ok(())
}

/// Puts the line of the value at a place whose prefix is none of these, if one stands there.
fn put_place<R: Rows>(
    alloc: Global,
    rows: &mut R,
    prefixes: &[&str],
    here: &Reference,
    out: &mut Vec<u8>,
) -> Result<(), ExportFault>
    ensures unchanged { R.content rows.new ≡ R.content rows.old }
    ensures put { OnOk result (out.new.items ≡ out.old.items ++ text_of (map lines.value_line (foreign_at (map (λ p. p.now) prefixes.now) (R.content rows.old) (place_of here.now)))) }
    ensures writable { OnOk result (AllByRecursion IsWritableRow (foreign_at (map (λ p. p.now) prefixes.now) (R.content rows.old) (place_of here.now))) }
{
    let name = name_of(alloc, here.name.canon())?;
    if is_among(name.prefix(), prefixes) {
        return Ok(());
    }
    match rows.at(here)? {
        Some(value) => put_value(alloc, name.sent(), &value, out),
        None => Ok(()),
    }
}

/// Puts the lines of the values at these places whose prefixes are none of these.
pub(crate) fn put_foreign<R: Rows>(
    alloc: Global,
    rows: &mut R,
    prefixes: &[&str],
    references: &[Reference],
    out: &mut Vec<u8>,
) -> Result<(), ExportFault>
    ensures unchanged { R.content rows.new ≡ R.content rows.old }
    ensures put { OnOk result (out.new.items ≡ out.old.items ++ text_of (map lines.value_line (foreign_rows (map (λ p. p.now) prefixes.now) (R.content rows.old) (places references.now)))) }
    ensures writable { OnOk result (AllByRecursion IsWritableRow (foreign_rows (map (λ p. p.now) prefixes.now) (R.content rows.old) (places references.now))) }
{
    for here in references {
        put_place(alloc, rows, prefixes, here, out)?;
    }
    Ok(())
}
