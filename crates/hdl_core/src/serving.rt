//! Serving one event of one lane.

ghost use Rattle.std.specs.Prelude.{◌≡◌, ◌<◌, true, drop, length, IfOk, IfSome, OnErr};
ghost use Rattle.hdl_frame.specs.Envelope.{envelope_at, is_truncated};
ghost use Rattle.hdl_frame.specs.Splitting.{IsFrameOf};
ghost use Rattle.hdl_msg.specs.Reply.{IsReplyFrame};
ghost use Rattle.hdl_reach.specs.Cost.{ReadsWithin};
ghost use Rattle.hdl_ops.specs.Cost.{anyone_cost, proof_cost};
ghost use Rattle.hdl_laws.specs.Cost.{IsStranger, IsUnchallenged};
ghost use Rattle.hdl_laws.specs.Reveals.{IsReadable};
ghost use Rattle.hdl_core.specs.Held.{state_at};
ghost use Rattle.hdl_core.specs.Serving.{AssemblesAt, outcome_of, received_as, received_of, scene, ReceivesAt, HandlesEventAt};

use crate::lane_context::LaneContext;
use crate::lanes::Lanes;
use crate::messages::handle_message;
use crate::origin::{Origin, Received};
use hdl_events::{Event, Outcome, What};
use hdl_frame::{ENVELOPE_LEN, Envelope, Frame, one_datagram};
use hdl_limits::Octets;
use hdl_msg::{busy, refuse};
use hdl_ops::{Masked, Refused};
use hdl_pool::Taken;

/// A piece of a message that came on an open lane. What came of its message before is forgotten once the whole message is
/// answered; where that is refused it stands as it was.
fn assemble<R: Masked>(
    lane_context: &LaneContext<'_>,
    rows: &mut R,
    lanes: &mut Lanes,
    origin: &Origin,
    frame: &Frame<'_>,
) -> Result<Option<Octets>, Refused>
    requires there { origin.now.lane < length lanes.old }
    requires frame { IsFrameOf frame.now.bytes.now frame.now }
    requires piece { is_truncated (envelope_at frame.now.bytes.now) ≡ true }
    requires envelope { origin.now.envelope ≡ envelope_at frame.now.bytes.now }
    ensures assembled { IfOk result (λ reply. AssemblesAt (scene lane_context.now (R.content rows.old) lanes.old) origin.now.lane (received_as origin.now frame.now.bytes.now) reply lanes.new (R.content rows.new)) }
    ensures read { IfOk result (λ reply. IfSome reply IsReplyFrame) }
    ensures undone { OnErr result (R.content rows.new ≡ R.content rows.old) }
    ensures unchanged { OnErr result (lanes.new ≡ lanes.old) }
    ensures cost { ReadsWithin (R.content rows.old) proof_cost (R.reads rows.old) (R.reads rows.new) }
    ensures stranger { IsUnchallenged (state_at lanes.old origin.now.lane) origin.now.peer → ReadsWithin (R.content rows.old) anyone_cost (R.reads rows.old) (R.reads rows.new) }
{
    let Ok(taken) = lanes.take_piece(origin.lane, origin.peer, frame) else {
        return Err(Refused);
    };
    match taken {
        Taken::Whole(message) => {
            let reply = handle_message(lane_context, rows, lanes, origin, &message)?;
            lanes.free(origin.lane, origin.peer, &origin.envelope);
            Ok(Some(reply))
        }
        Taken::Kept => Ok(None),
        Taken::Ignored => Ok(None),
        Taken::Displaced => Ok(None),
    }
}

/// The outcome of a frame with this envelope.
fn outcome_of(envelope: &Envelope, reply: Result<Option<Octets>, Refused>) -> Outcome
    ensures { result ≡ outcome_of envelope.now reply }
{
    match reply {
        Ok(Some(octets)) => Outcome::Reply(octets),
        Ok(None) => Outcome::Silent,
        Err(_) => Outcome::Busy(busy(envelope)),
    }
}

/// Octets that came on an open lane.
fn receive<R: Masked>(
    lane_context: &LaneContext<'_>,
    rows: &mut R,
    lanes: &mut Lanes,
    received: Received,
) -> Outcome
    requires there { received.lane < length lanes.old }
    ensures received { ReceivesAt (scene lane_context.now (R.content rows.old) lanes.old) received.lane (received_of received) result lanes.new (R.content rows.new) }
    ensures read { IsReadable result }
    ensures cost { ReadsWithin (R.content rows.old) proof_cost (R.reads rows.old) (R.reads rows.new) }
    ensures stranger { IsUnchallenged (state_at lanes.old received.lane) received.peer → ReadsWithin (R.content rows.old) anyone_cost (R.reads rows.old) (R.reads rows.new) }
{
    let Received {
        lane,
        peer,
        moment,
        nonce,
        bytes,
    } = received;
    let Ok(frame) = one_datagram(bytes.as_slice()) else {
        return Outcome::Silent;
    };
    let envelope = frame.envelope;
    let origin = Origin {
        lane,
        peer,
        moment,
        nonce,
        envelope,
    };
    if envelope.is_truncated() {
        let reply = assemble(lane_context, rows, lanes, &origin, &frame);
        return outcome_of(&envelope, reply);
    }
    let message = frame.payload();
    match handle_message(lane_context, rows, lanes, &origin, message) {
        Ok(reply) => Outcome::Reply(reply),
        Err(_) => Outcome::Busy(busy(&envelope)),
    }
}

/// Serves an event of a lane that somebody owns.
pub(crate) fn handle_event<R: Masked>(
    lane_context: &LaneContext<'_>,
    rows: &mut R,
    lanes: &mut Lanes,
    event: Event,
) -> Outcome
    requires there { event.lane < length lanes.old }
    ensures served { HandlesEventAt (scene lane_context.now (R.content rows.old) lanes.old) event.lane event.what result lanes.new (R.content rows.new) }
    ensures read { IsReadable result }
    ensures cost { ReadsWithin (R.content rows.old) proof_cost (R.reads rows.old) (R.reads rows.new) }
    ensures stranger { IsStranger (state_at lanes.old event.lane) event.what → ReadsWithin (R.content rows.old) anyone_cost (R.reads rows.old) (R.reads rows.new) }
{
    let Event { lane, what } = event;
    match what {
        What::Open => {
            lanes.reset(lane, true);
            Outcome::Silent
        }
        What::Close => {
            lanes.reset(lane, false);
            Outcome::Silent
        }
        What::Bad { session, request } => {
            if !lanes.is_open(lane) {
                return Outcome::Silent;
            }
            Outcome::CloseAfter(refuse(&Envelope::of_message(session, request, 0)))
        }
        What::Frame {
            peer,
            moment,
            nonce,
            bytes,
        } => {
            if !lanes.is_open(lane) {
                return Outcome::Silent;
            }
            let received = Received {
                lane,
                peer,
                moment,
                nonce,
                bytes,
            };
            receive(lane_context, rows, lanes, received)
        }
    }
}
