//! One frame there, and one back.

ghost use Rattle.std.specs.Prelude.{◌≡◌, ◌≤◌, ◌<◌, length, IfOk, IfErr, OnOk};
ghost use Rattle.std.specs.Io.KnownBytes.{Appends, Keeps};
ghost use Rattle.hdl_client.specs.Exchange.{frame_octets, TakesFrame};
ghost use Rattle.hdl_client.specs.declared.fault.ClientFault.TheVariants.{TooLong};

use crate::fault::ClientFault;
use crate::transport::Transport;
use hdl_frame::{ENVELOPE_LEN, Envelope};
use hdl_limits::MESSAGE_MAX;
use std::alloc::{AllocError, Global};

/// The frame of a message, with the SessionId and RequestId of its envelope.
pub fn frame_of(
    alloc: Global,
    session: u32,
    request: u32,
    message: &[u8],
) -> Result<Vec<u8>, AllocError>
    requires short { length message.now ≤ MESSAGE_MAX }
    ensures framed { IfOk result (λ v. v.items ≡ frame_octets session request message.now) }
{
    let envelope = Envelope::of_message(session, request, message.len() as u32);
    let mut octets = Vec::with_capacity(alloc, ENVELOPE_LEN)?;
    octets.extend_from_slice(&envelope.to_octets())?;
    octets.extend_from_slice(message)?;
    Ok(octets)
}

/// Sends a message in one frame. A message of more than 65,536 octets is refused, and nothing is sent.
pub fn send<S: Transport>(
    alloc: Global,
    stream: &mut S,
    session: u32,
    request: u32,
    message: &[u8],
) -> Result<(), ClientFault>
    ensures too_long { IfErr result (λ e. e ≡ TooLong → MESSAGE_MAX < length message.now) }
    ensures sent { OnOk result (Appends (S.sent stream.old) (S.sent stream.new) (frame_octets session request message.now)) }
    ensures received { Keeps (S.received stream.old) (S.received stream.new) }
{
    if message.len() > MESSAGE_MAX as usize {
        return Err(ClientFault::TooLong);
    }
    let octets = frame_of(alloc, session, request, message)?;
    stream.send_all(&octets)?;
    Ok(())
}

/// A frame with memory of its own: its envelope, which is accepted, and its payload.
#[derive(Drop)]
pub struct OwnedFrame {
    pub envelope: Envelope,
    pub payload: Vec<u8>,
}

/// Takes the next frame from the stream, whole and nothing after it. Where the envelope is refused only its 20 octets were taken.
pub fn receive<S: Transport>(alloc: Global, stream: &mut S) -> Result<OwnedFrame, ClientFault>
    ensures taken { IfOk result (TakesFrame (S.received stream.old) (S.received stream.new)) }
    ensures sent { OnOk result (Keeps (S.sent stream.old) (S.sent stream.new)) }
{
    let mut front = [0u8; ENVELOPE_LEN];
    stream.receive_exact(&mut front)?;
    let envelope = Envelope::read(&front);
    if let Some(fault) = envelope.fault() {
        return Err(ClientFault::NoFrame(fault));
    }
    let mut payload = Vec::from_elem(alloc, 0u8, envelope.payload_len())?;
    stream.receive_exact(&mut payload)?;
    Ok(OwnedFrame { envelope, payload })
}
