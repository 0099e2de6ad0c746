//! The values before a change, read from the lines of the history.

ghost use Rattle.std.specs.Prelude.{◌≡◌, ◌⊎◌, IfErr, IfOk, Ok};
ghost use Rattle.hdl_value_lines.specs.Lines.{value_in};
ghost use Rattle.hdl_undo.specs.Before.{AreRead, HasNoValues, IsUnread, IsWhyUnread, SaysValues, index_of};

use crate::fault::UndoFault;
use hdl_history::ValuesBefore;
use hdl_limits::Octets;
use hdl_value::Value;
use hdl_value_lines::{LineFault, cut_at, number_in, read_value_line};
use std::alloc::Global;

/// The number that a line begins with, or 0.
fn index_of(line: &[u8]) -> u32
    ensures { result ≡ index_of line.now }
{
    let Some((word, _)) = cut_at(line, b' ') else {
        return 0;
    };
    number_in(word).unwrap_or(0)
}

fn value_in_line(alloc: Global, line: &[u8]) -> Result<Value, UndoFault>
    ensures value { IfOk result (λ v. value_in line.now ≡ Ok v) }
    ensures fault { IfErr result (λ e. (e ≡ UndoFault.Memory) ⊎ IsUnread e line.now) }
{
    match read_value_line(alloc, line) {
        Ok(value) => Ok(value),
        Err(LineFault::Memory) => Err(UndoFault::Memory),
        Err(LineFault::Hidden) => Err(UndoFault::HiddenKey(index_of(line))),
        Err(fault) => Err(UndoFault::Unreadable(fault)),
    }
}

fn values_in(alloc: Global, lines: &[Octets]) -> Result<Vec<Value>, UndoFault>
    ensures values { IfOk result (λ values. AreRead lines.now values.items) }
    ensures fault { IfErr result (λ e. IsWhyUnread lines.now e) }
{
    let mut values = Vec::new(alloc);
    for line in lines {
        values.push(value_in_line(alloc, line.as_slice())?)?;
    }
    Ok(values)
}

/// The values before a change.
pub(crate) fn values_before(alloc: Global, before: &ValuesBefore) -> Result<Vec<Value>, UndoFault>
    ensures values { IfOk result (λ values. SaysValues before.now values.items) }
    ensures fault { IfErr result (λ e. HasNoValues before.now e) }
{
    match before {
        ValuesBefore::Lines(lines) => values_in(alloc, lines.as_slice()),
        ValuesBefore::LeftOut(count) => Err(UndoFault::LeftOut(*count)),
    }
}
