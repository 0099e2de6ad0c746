//! A value as a line.

ghost use Rattle.std.specs.Prelude.{◌≡◌, true, false, OnOk};
ghost use Rattle.hdl_value_lines.specs.Hiding.{is_hidden, hidden_text, hidden_data, hidden_count, whole_line, whole_data};
ghost use Rattle.hdl_commands.specs.Printout.{with_line};

use crate::words::printout::Printout;
use hdl_value::{CutValue, Value};
use hdl_value_lines::{is_hidden, shown_data, shown_line};
use jiff::Timestamp;
use std::alloc::AllocError;

/// When the value was written, if that is said and the calendar has it.
fn time_of_write(value: &Value) -> Option<Timestamp> {
    let moment = i64::try_from(value.timestamp).ok()?;
    if moment == 0 {
        return None;
    }
    Timestamp::from_millisecond(moment).ok()
}

/// Adds when a value was written, as a comment, if it is sound and says so.
fn push_written(printout: &mut Printout, value: &CutValue<'_>) -> Result<(), AllocError> {
    let Ok(value) = value.read(printout.alloc) else {
        return Ok(());
    };
    match time_of_write(&value) {
        Some(moment) => {
            let line = format!(in printout.alloc; ";; written {moment}")?;
            printout.push(&line)
        }
        None => Ok(()),
    }
}

fn push_line(printout: &mut Printout, value: &CutValue<'_>) -> Result<(), AllocError>
    ensures hidden { is_hidden value.now printout.old.shows_keys ≡ true → OnOk result (printout.new ≡ with_line printout.old (hidden_text value.now.index value.now.kind (hidden_count value.now))) }
    ensures shown { is_hidden value.now printout.old.shows_keys ≡ false → OnOk result (printout.new ≡ with_line printout.old (whole_line value.now)) }
{
    let line = shown_line(printout.alloc, value, printout.shows_keys)?;
    printout.push_octets(&line)
}

/// Adds a value: when it was written, as a comment, and its line. Of a hidden key it adds just the line, which says no more of the
/// data than how many octets.
pub fn push_value(printout: &mut Printout, value: &CutValue<'_>) -> Result<(), AllocError>
    ensures hidden { is_hidden value.now printout.old.shows_keys ≡ true → OnOk result (printout.new ≡ with_line printout.old (hidden_text value.now.index value.now.kind (hidden_count value.now))) }
{
    if is_hidden(value, printout.shows_keys) {
        return push_line(printout, value);
    }
    push_written(printout, value)?;
    push_line(printout, value)
}

/// Adds the data of a value alone, as it stands in the value's line after the format; of a hidden key just how many octets it has.
pub fn push_data(printout: &mut Printout, value: &CutValue<'_>) -> Result<(), AllocError>
    ensures hidden { is_hidden value.now printout.old.shows_keys ≡ true → OnOk result (printout.new ≡ with_line printout.old (hidden_data (hidden_count value.now))) }
    ensures shown { is_hidden value.now printout.old.shows_keys ≡ false → OnOk result (printout.new ≡ with_line printout.old (whole_data value.now)) }
{
    let data = shown_data(printout.alloc, value, printout.shows_keys)?;
    printout.push_octets(&data)
}
