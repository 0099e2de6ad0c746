//! The lines of a text that say no value.

ghost use Rattle.std.specs.Prelude.{◌≡◌, ◌++◌, filter, OnOk};
ghost use Rattle.std.specs.Str.Lines.{lines};
ghost use Rattle.hdl_export.specs.Lines as spec;
ghost use Rattle.hdl_export.specs.Lines.{text_of};

use crate::line::put_line;
use std::alloc::AllocError;

/// Whether the line says no value: whether it begins with another octet than such lines do.
fn is_other(line: &[u8]) -> bool
    ensures { result ≡ spec.is_other line.now }
{
    match line {
        [first, ..] => *first != b'v',
        [] => true,
    }
}

/// Puts the lines of the text that say no value, as they stand.
pub(crate) fn put_others(text: &str, out: &mut Vec<u8>) -> Result<(), AllocError>
    ensures { OnOk result (out.new.items ≡ out.old.items ++ text_of (filter spec.is_other (lines text.now))) }
{
    for line in text.lines() {
        if is_other(line.as_bytes()) {
            put_line(out, line.as_bytes())?;
        }
    }
    Ok(())
}
