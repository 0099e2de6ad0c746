//! The datagrams of a reply, put together again.

ghost use Rattle.std.specs.Prelude.{◌≡◌, ◌++◌, IfErr, OnOk, OnErr};
ghost use Rattle.hdl_overflow_lane.specs.Joining.{said_of, part_of};

use hdl_frame::{ENVELOPE_LEN, Envelope};
use std::alloc::AllocError;

/// Puts a piece's part of its message after the others. Refused memory changes nothing.
fn push_part(out: &mut Vec<u8>, envelope: Envelope, payload: &[u8]) -> Result<(), AllocError>
    ensures ok { OnOk result (out.new.items ≡ out.old.items ++ part_of envelope payload.now) }
    ensures unchanged { OnErr result (out.new.items ≡ out.old.items) }
{
    if envelope.sequence != 0 {
        return out.extend_from_slice(payload);
    }
    let whole = Envelope {
        flags: 0,
        sequence: 0,
        ..envelope
    };
    push_both(out, &whole.to_octets(), payload)
}

/// Puts octets after the others, and then more. Refused memory changes nothing.
fn push_both(out: &mut Vec<u8>, first: &[u8], second: &[u8]) -> Result<(), AllocError>
    ensures ok { OnOk result (out.new.items ≡ out.old.items ++ (first.now ++ second.now)) }
    ensures unchanged { OnErr result (out.new.items ≡ out.old.items) }
{
    let before = out.len();
    out.extend_from_slice(first)?;
    match out.extend_from_slice(second) {
        Ok(()) => Ok(()),
        Err(refused) => {
            out.truncate(before);
            Err(refused)
        }
    }
}

/// Puts what a datagram says of its reply after the others. Refused memory changes nothing.
pub(crate) fn push_said(out: &mut Vec<u8>, datagram: &[u8]) -> Result<(), AllocError>
    ensures ok { OnOk result (out.new.items ≡ out.old.items ++ said_of datagram.now) }
    ensures unchanged { OnErr result (out.new.items ≡ out.old.items) }
{
    if datagram.len() < ENVELOPE_LEN {
        return out.extend_from_slice(datagram);
    }
    let envelope = Envelope::read(datagram);
    if !envelope.is_truncated() {
        return out.extend_from_slice(datagram);
    }
    push_part(out, envelope, &datagram[ENVELOPE_LEN..])
}
