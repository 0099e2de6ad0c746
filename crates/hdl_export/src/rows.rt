//! The rows of a table, a line for each.

ghost use Rattle.std.specs.Prelude.{◌≡◌, ◌++◌, map, IfOk, OnOk};
ghost use Rattle.std.specs.List.{flat_map, AllByRecursion};
ghost use Rattle.hdl_export.specs.Lines.{IsWritable};
ghost use Rattle.hdl_export.specs.Rows.{line_text, handle_text, authority_text, AreWritable, AreWritableUnder};

use crate::fault::ExportFault;
use crate::line::{is_expressible, put_line, value_line};
use crate::prefixes::is_among;
use hdl_limits::Octets;
use hdl_name::{Name, NameFault};
use hdl_rows::Rows;
use hdl_value::Value;
use std::alloc::Global;

/// Puts a line for each of these values of the handle.
fn put_values(
    alloc: Global,
    handle: &[u8],
    values: &[Value],
    out: &mut Vec<u8>,
) -> Result<(), ExportFault>
    ensures put { OnOk result (out.new.items ≡ out.old.items ++ flat_map (line_text handle.now) values.now) }
    ensures writable { OnOk result (AllByRecursion IsWritable values.now) }
{
    for value in values {
        let line = value_line(alloc, handle, value)?;
        put_line(out, line.as_slice())?;
    }
    Ok(())
}

/// The name of a handle of a table.
pub(crate) fn name_of(alloc: Global, handle: &[u8]) -> Result<Name, ExportFault>
    ensures { IfOk result (λ name. name ≡ handle.now) }
{
    match Name::read(alloc, handle) {
        Ok(name) => Ok(name),
        Err(NameFault::Memory) => Err(ExportFault::Memory),
        Err(_) => Err(ExportFault::Row),
    }
}

/// Puts a line for each value of the handle, if it has one of these prefixes and a line can name it.
fn put_handle<R: Rows>(
    alloc: Global,
    rows: &mut R,
    prefixes: &[&str],
    handle: &[u8],
    out: &mut Vec<u8>,
) -> Result<(), ExportFault>
    ensures unchanged { R.content rows.new ≡ R.content rows.old }
    ensures put { OnOk result (out.new.items ≡ out.old.items ++ handle_text (map (λ p. p.now) prefixes.now) (R.content rows.old) handle.now) }
    ensures writable { OnOk result (AreWritable (map (λ p. p.now) prefixes.now) (R.content rows.old) handle.now) }
{
    let name = name_of(alloc, handle)?;
    if !is_expressible(handle) || !is_among(name.prefix(), prefixes) {
        return Ok(());
    }
    let values = rows.values(&name)?;
    put_values(alloc, handle, values.as_slice(), out)
}

/// Puts the lines of these handles.
fn put_handles<R: Rows>(
    alloc: Global,
    rows: &mut R,
    prefixes: &[&str],
    handles: &[Octets],
    out: &mut Vec<u8>,
) -> Result<(), ExportFault>
    ensures unchanged { R.content rows.new ≡ R.content rows.old }
    ensures put { OnOk result (out.new.items ≡ out.old.items ++ flat_map (handle_text (map (λ p. p.now) prefixes.now) (R.content rows.old)) handles.now) }
    ensures writable { OnOk result (AllByRecursion (AreWritable (map (λ p. p.now) prefixes.now) (R.content rows.old)) handles.now) }
{
    for handle in handles {
        put_handle(alloc, rows, prefixes, handle.as_slice(), out)?;
    }
    Ok(())
}

/// Puts the lines of the handles of an authority.
fn put_authority<R: Rows>(
    alloc: Global,
    rows: &mut R,
    prefixes: &[&str],
    authority: &str,
    out: &mut Vec<u8>,
) -> Result<(), ExportFault>
    ensures unchanged { R.content rows.new ≡ R.content rows.old }
    ensures put { OnOk result (out.new.items ≡ out.old.items ++ authority_text (map (λ p. p.now) prefixes.now) (R.content rows.old) authority.now) }
    ensures writable { OnOk result (AreWritableUnder (map (λ p. p.now) prefixes.now) (R.content rows.old) authority.now) }
{
    let handles = rows.names(authority.as_bytes())?;
    put_handles(alloc, rows, prefixes, handles.as_slice(), out)
}

/// Puts the lines of the handles of these authorities.
pub(crate) fn put_rows<R: Rows>(
    alloc: Global,
    rows: &mut R,
    prefixes: &[&str],
    authorities: &[&str],
    out: &mut Vec<u8>,
) -> Result<(), ExportFault>
    ensures unchanged { R.content rows.new ≡ R.content rows.old }
    ensures put { OnOk result (out.new.items ≡ out.old.items ++ flat_map (authority_text (map (λ p. p.now) prefixes.now) (R.content rows.old)) (map (λ a. a.now) authorities.now)) }
    ensures writable { OnOk result (AllByRecursion (AreWritableUnder (map (λ p. p.now) prefixes.now) (R.content rows.old)) (map (λ a. a.now) authorities.now)) }
{
    for authority in authorities {
        put_authority(alloc, rows, prefixes, authority, out)?;
    }
    Ok(())
}
