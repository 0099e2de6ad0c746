//! The layouts of a value: our profile's, and the one that, to our knowledge, the Handle.Net software has
//! (docs/HANDLE_NET.md). Comments call it the layout of the Handle.Net software.

ghost use Rattle.std.specs.Prelude.{◌≡◌, ◌++◌, OnOk};
ghost use Rattle.hdl_value.specs.Spelling.{CanBeSpelt};
ghost use Rattle.hdl_value.specs.HandleNet.{second_of, net_spelling};
ghost use Rattle.hdl_value.specs.Reading.{Reads};
ghost use Rattle.hdl_value.specs.Wires.{wire_value_at, wire_spelling};

use crate::cut::{CutValue, cut_net_value, cut_value};
use crate::fields::{put_string, put_u32};
use crate::references::put_references;
use crate::value::Value;
use crate::write::put_value;
use std::alloc::AllocError;

/// The layout of values in messages. All other parts of a message are the same in both.
#[derive(Clone, Copy, Debug, PartialEq, Eq)]
pub enum Wire {
    /// Our profile's, as [`Value`] documents it.
    Profile,
    /// The one that, to our knowledge, the Handle.Net software has. The fields in order:
    ///
    /// ```text
    /// index        4 octets
    /// timestamp    4 octets, seconds since 1970-01-01 00:00 UTC
    /// TTL          1 octet of kind and 4 of time
    /// permission   1 octet
    /// type         4 octets of length, and that many
    /// data         4 octets of length, and that many
    /// references   4 octets of count, and that many of a handle (a string) and 4 octets of index
    /// ```
    HandleNet,
}

/// The second of a time in milliseconds. Later times than four octets can count become the last second that they can.
fn second_of(moment: u64) -> u32
    ensures { result ≡ second_of moment }
{
    match u32::try_from(moment / 1000) {
        Ok(second) => second,
        Err(_) => u32::MAX,
    }
}

fn put_net_value(out: &mut Vec<u8>, value: &Value) -> Result<(), AllocError>
    requires { CanBeSpelt value.now }
    ensures { OnOk result (out.new.items ≡ out.old.items ++ net_spelling value.now) }
{
    put_u32(out, value.index)?;
    put_u32(out, second_of(value.timestamp))?;
    out.extend_from_slice(&value.ttl)?;
    out.push(value.permissions)?;
    put_string(out, value.kind.as_slice())?;
    put_string(out, value.bytes.as_slice())?;
    put_references(out, value.references.as_slice())?;
    Ok(())
}

impl Wire {
    /// The value at the front, and the octets after it, as [`cut_value`] returns them for our profile's layout.
    pub fn cut(self, octets: &[u8]) -> Option<(CutValue<'_>, &[u8])>
        ensures { Reads (λ x. (x.0, x.1.now)) result (wire_value_at self octets.now) }
    {
        match self {
            Wire::Profile => cut_value(octets),
            Wire::HandleNet => cut_net_value(octets),
        }
    }

    /// Appends the encoding of the value, under the condition of [`put_value`]. A refusal may leave a part of it.
    pub fn put(self, out: &mut Vec<u8>, value: &Value) -> Result<(), AllocError>
        requires { CanBeSpelt value.now }
        ensures { OnOk result (out.new.items ≡ out.old.items ++ wire_spelling self value.now) }
    {
        match self {
            Wire::Profile => put_value(out, value),
            Wire::HandleNet => put_net_value(out, value),
        }
    }
}
