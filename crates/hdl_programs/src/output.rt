//! The octets of an output.

ghost use Rattle.std.specs.Prelude.{◌≡◌, OnOk, IfErr};
ghost use Rattle.std.specs.Io.KnownBytes.{Appends};

use crate::fault::Fault;
use std::io::Write;

/// Writes all octets. A write that fails, an interrupted one too, is a device fault.
pub fn put_all<O: Write>(output: &mut O, octets: &[u8]) -> Result<(), Fault>
    ensures ok { OnOk result (Appends (O.contents output.old) (O.contents output.new) octets.now) }
    ensures err { IfErr result (λ e. e ≡ Fault.Device) }
{
    let mut rest = octets;
    while !rest.is_empty() {
        match output.write(rest) {
            Ok(0) => return Err(Fault::Device),
            Ok(count) => rest = &rest[count..],
            Err(_) => return Err(Fault::Device),
        }
    }
    Ok(())
}
