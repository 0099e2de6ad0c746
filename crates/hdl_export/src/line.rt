//! The line of a value, and lines with their ends.

ghost use Rattle.std.specs.Prelude.{◌≡◌, ◌++◌, ◌∷◌, codes, IsTrue, IfOk, OnOk};
ghost use Rattle.hex.specs.Hex.{IsBytes};
ghost use Rattle.hdl_value.specs.Spelling.{CanBeSpelt};
ghost use Rattle.hdl_export.specs.Lines as lines;
ghost use Rattle.hdl_export.specs.Lines.{IsWritable};

use crate::fault::ExportFault;
use hdl_value::{RawRef, Value, value_fits, write_value};
use std::alloc::{AllocError, Global};

/// The most octets that a field of four octets counts.
const FIELD_MAX: usize = u32::MAX as usize;

/// Whether a line can name the handle: no space divides it, and no line feed.
pub(crate) fn is_expressible(handle: &[u8]) -> bool
    ensures { result ≡ lines.is_expressible handle.now }
{
    handle.iter().all(|octet| *octet != b' ' && *octet != b'\n')
}

/// Whether the handle of each reference fits its field.
fn references_fit(references: &[RawRef]) -> bool
    ensures { IsTrue result → lines.HaveShortHandles references.now }
{
    references
        .iter()
        .all(|reference| reference.handle.as_slice().len() <= FIELD_MAX)
}

/// Whether the lengths and counts of the value fit their fields.
fn can_be_spelt(value: &Value) -> bool
    ensures { IsTrue result → CanBeSpelt value.now }
{
    let references = value.references.as_slice();
    value.kind.as_slice().len() <= FIELD_MAX
        && value.bytes.as_slice().len() <= FIELD_MAX
        && references.len() <= FIELD_MAX
        && references_fit(references)
}

/// Octets are numbers below 256, which a contract sees of a slice alone.
fn octets_fit(octets: &[u8])
    ensures fit { IsBytes octets.now }
{
    let _ = octets;
}

/// The line of a handle and digits.
fn line_of(alloc: Global, handle: &[u8], digits: &[u8]) -> Result<Vec<u8>, AllocError>
    ensures { IfOk result (λ line. line.items ≡ codes "value " ++ (handle.now ++ (32 ∷ digits.now))) }
{
    let mut line = Vec::from_slice(alloc, b"value ")?;
    line.extend_from_slice(handle)?;
    line.push(b' ')?;
    line.extend_from_slice(digits)?;
    Ok(line)
}

/// The line of a value, `value HANDLE HEX`, without its end.
///
/// Refuses a value of which a length doesn't fit its field, which none is that was read.
pub fn value_line(alloc: Global, handle: &[u8], value: &Value) -> Result<Vec<u8>, ExportFault>
    ensures line { IfOk result (λ line. line.items ≡ lines.value_line (handle.now, value.now)) }
    ensures writable { OnOk result (IsWritable value.now) }
{
    if !can_be_spelt(value) {
        return Err(ExportFault::Row);
    }
    value_fits(value);
    let octets = write_value(alloc, value)?;
    octets_fit(octets.as_slice());
    let digits = hex::encode(alloc, octets.as_slice())?;
    Ok(line_of(alloc, handle, digits.as_bytes())?)
}

/// Whether the line ends with CR.
fn ends_with_return(line: &[u8]) -> bool
    ensures { result ≡ lines.ends_with_return line.now }
{
    !line.is_empty() && line[line.len() - 1] == b'\r'
}

/// Puts the line with its end: LF, and CR before it where the line itself ends with one, since reading drops one.
pub(crate) fn put_line(out: &mut Vec<u8>, line: &[u8]) -> Result<(), AllocError>
    ensures { OnOk result (out.new.items ≡ out.old.items ++ lines.with_line_end line.now) }
{
    out.extend_from_slice(line)?;
    if ends_with_return(line) {
        out.push(b'\r')?;
    }
    out.push(b'\n')?;
    Ok(())
}
