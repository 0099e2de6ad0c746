//! The line of a value that isn't a part of a message.

ghost use Rattle.std.specs.Prelude.{◌≡◌, ◌<◌, ◌^◌, length, IsTrue, IfOk, IfSome};
ghost use Rattle.std.specs.List.{AllByRecursion};
ghost use Rattle.hdl_value.specs.Spelling.{CanBeSpelt};
ghost use Rattle.hdl_value_lines.specs.Lines.{line_of};

use hdl_value::{RawRef, Value};
use hdl_value_lines::value_line;
use std::alloc::{AllocError, Global};

/// The most octets and items that a field counts.
const FIELD_MAX: usize = u32::MAX as usize;

/// Whether the handle of each reference fits its field.
fn references_fit(references: &[RawRef]) -> bool
    ensures { IsTrue result → AllByRecursion (λ r. length r.handle < 2 ^ 32) references.now }
{
    references
        .iter()
        .all(|reference| reference.handle.as_slice().len() <= FIELD_MAX)
}

/// Whether the lengths and counts of the value fit their fields.
fn can_be_spelt(value: &Value) -> bool
    ensures { IsTrue result → CanBeSpelt value.now }
{
    let references = value.references.as_slice();
    value.kind.as_slice().len() <= FIELD_MAX
        && value.bytes.as_slice().len() <= FIELD_MAX
        && references.len() <= FIELD_MAX
        && references_fit(references)
}

/// The line of a value as `hdl_value_lines` writes it; None where a length doesn't fit its field, as that of no value that was read.
pub(crate) fn line_of(alloc: Global, value: &Value) -> Result<Option<Vec<u8>>, AllocError>
    ensures { IfOk result (λ found. IfSome found (λ line. line.items ≡ line_of value.now)) }
{
    if !can_be_spelt(value) {
        return Ok(None);
    }
    Ok(Some(value_line(alloc, value)?))
}
