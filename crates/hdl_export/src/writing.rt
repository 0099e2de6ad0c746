//! The whole text.

ghost use Rattle.std.specs.Prelude.{◌≡◌, map, IfOk, OnOk};
ghost use Rattle.std.specs.List.{IsDistinct};
ghost use Rattle.std.specs.Str.Lines.{lines};
ghost use Rattle.std.specs.String.{string_bytes};
ghost use Rattle.hdl_tenants.specs.Register.{Register};
ghost use Rattle.hdl_tenants.specs.Text.{IsAccepted};
ghost use Rattle.hdl_value.specs.Place.{same_place};
ghost use Rattle.hdl_export.specs.Covers.{places_in, AreKept};
ghost use Rattle.hdl_export.specs.Laws.{IsExport, IsWritten, HasCover, IsPublisherExport};

use crate::cover::Cover;
use crate::fault::ExportFault;
use crate::foreign::put_foreign;
use crate::prefixes::{authorities_of, prefixes_for, prefixes_of};
use crate::rows::put_rows;
use crate::text::put_others;
use hdl_rows::Rows;
use hdl_tenants::{TenantFault, Tenants};
use std::alloc::Global;

/// Reads a text, and forgets what it says.
fn is_read(alloc: Global, text: &str) -> Result<(), (usize, TenantFault)>
    ensures { OnOk result ((r : Register) × IsAccepted (lines text.now) r) }
{
    let _ = Tenants::read(alloc, text)?;
    Ok(())
}

/// The text with the lines of the rows that have these prefixes, not yet read.
fn write_unread<R: Rows>(
    alloc: Global,
    text: &str,
    prefixes: &[&str],
    rows: &mut R,
) -> Result<Vec<u8>, ExportFault>
    ensures unchanged { R.content rows.new ≡ R.content rows.old }
    ensures written { IfOk result (λ out. IsWritten (lines text.now) (map (λ p. p.now) prefixes.now) (R.content rows.old) out.items) }
{
    let authorities = authorities_of(alloc, prefixes)?;
    let mut out = Vec::new(alloc);
    put_others(text, &mut out)?;
    put_rows(alloc, rows, prefixes, authorities.as_slice(), &mut out)?;
    Ok(out)
}

/// The octets as a text, if a server would open with it.
fn sound(alloc: Global, out: Vec<u8>) -> Result<String, ExportFault>
    ensures same { IfOk result (λ text. string_bytes text ≡ out.items) }
    ensures read { OnOk result ((r : Register) × IsAccepted (lines out.items) r) }
{
    let Ok(text) = String::from_utf8(out) else {
        return Err(ExportFault::Row);
    };
    match is_read(alloc, text.as_str()) {
        Ok(()) => Ok(text),
        Err((line, fault)) => Err(unsaid(line, fault)),
    }
}

/// The table as a tenants text: the lines of this one that say publishers, prefixes and site information, and comments, then a line for each value, by rising
/// handle and index, of each handle with one of these prefixes that a line can name.
///
/// Refuses, in this order: Given where the text that is given is faulty; Row where the table has what no write of the service makes; Written
/// where no text says these rows; Memory and Store where room or a look was refused. The table stays.
pub fn export<R: Rows>(alloc: Global, text: &str, rows: &mut R) -> Result<String, ExportFault>
    ensures unchanged { R.content rows.new ≡ R.content rows.old }
    ensures export { IfOk result (λ out. IsExport (lines text.now) (R.content rows.old) (string_bytes out)) }
{
    if let Err((line, fault)) = is_read(alloc, text) {
        return Err(fault_of_text(line, fault));
    }
    let prefixes = prefixes_of(alloc, text)?;
    let out = write_unread(alloc, text, prefixes.as_slice(), rows)?;
    sound(alloc, out)
}

/// What the values of a text refer to.
fn cover_of(alloc: Global, text: &[u8]) -> Result<Cover, ExportFault>
    ensures covered { IfOk result (λ cover. HasCover (lines text.now) (places_in cover)) }
    ensures distinct { IfOk result (λ cover. IsDistinct same_place (places_in cover)) }
    ensures kept { IfOk result AreKept }
{
    let Ok(text) = str::from_utf8(text) else {
        return Err(ExportFault::Row);
    };
    let tenants = match Tenants::read(alloc, text) {
        Ok(tenants) => tenants,
        Err((line, fault)) => return Err(unsaid(line, fault)),
    };
    Ok(Cover::of(alloc, tenants.opening())?)
}

/// One publisher's part of the table as a tenants text: the lines of this one that say publishers, prefixes and site information, and comments; a line for each
/// value of each handle with one of the prefixes of the publisher of this name, as [`export`] writes them; and a line for each value with
/// another prefix on which its answers rest: those to which its values refer, and those to which the lists there refer.
///
/// Refuses, in this order: Given where the text that is given is faulty; Row where the table has what no write of the service makes; Written
/// where no text says these rows; Unsayable where such a value stands at a handle that no line can name; Memory and Store where room or a look
/// was refused. The table stays. Without a publisher of this name there are no such lines.
pub fn export_publisher<R: Rows>(
    alloc: Global,
    text: &str,
    publisher: &str,
    rows: &mut R,
) -> Result<String, ExportFault>
    ensures unchanged { R.content rows.new ≡ R.content rows.old }
    ensures export { IfOk result (λ out. IsPublisherExport (lines text.now) publisher.now (R.content rows.old) (string_bytes out)) }
{
    if let Err((line, fault)) = is_read(alloc, text) {
        return Err(fault_of_text(line, fault));
    }
    let prefixes = prefixes_for(alloc, text, publisher)?;
    let mut out = write_unread(alloc, text, prefixes.as_slice(), rows)?;
    let cover = cover_of(alloc, out.as_slice())?.close(alloc, rows)?;
    put_foreign(
        alloc,
        rows,
        prefixes.as_slice(),
        cover.references.as_slice(),
        &mut out,
    )?;
    sound(alloc, out)
}

/// Why the text that was given isn't read.
fn fault_of_text(line: usize, fault: TenantFault) -> ExportFault {
    match fault {
        TenantFault::Memory => ExportFault::Memory,
        _ => ExportFault::Given { line, fault },
    }
}

/// Why the text that was written isn't read.
fn unsaid(line: usize, fault: TenantFault) -> ExportFault {
    match fault {
        TenantFault::Memory => ExportFault::Memory,
        _ => ExportFault::Written { line, fault },
    }
}
