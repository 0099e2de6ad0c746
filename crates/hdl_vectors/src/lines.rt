//! Lines of values, as `hdl` prints and reads them.

ghost use Rattle.hdl_value.specs.Spelling.{CanBeSpelt};

use crate::octets::{put_hex, put_text};
use hdl_value::{Value, write_value};
use hdl_value_lines::{read_value_line, value_line};
use std::io;

/// Prints the octets of a value, and its line as it is written.
fn put_both(rt: &HostRuntime, value: &Value) -> io::Result<()>
    requires { CanBeSpelt value.now }
{
    put_hex(rt, "octets", &write_value(rt.alloc(), value)?)?;
    put_text(rt, "line", &value_line(rt.alloc(), value)?)
}

/// Prints what a line of a value is read as.
pub fn put_value_line(rt: &HostRuntime, line: &[u8]) -> io::Result<()> {
    match read_value_line(rt.alloc(), line) {
        Ok(value) => put_both(rt, &value),
        Err(fault) => println!(rt; "  {fault}"),
    }
}
