//! The worker of a datagram lane.

ghost use Rattle.std.specs.Prelude.{◌≡◌, ◌≤◌, ◌<◌, ◌++◌, ◌∷◌, [], ◌⊎◌, ◌^◌, ◌-◌, ℕ, List, IsTrue, IsFalse, IfOk, IfSome, MatchOption, MatchResult, length, take, replicate, ◌+◌};
ghost use Rattle.hdl_limits.specs.declared.TheConstants.{UNDER_WAY_MAX};
ghost use Rattle.hdl_workers.specs.declared.worker.EndReason.TheVariants.{Device};
ghost use Rattle.hdl_workers.specs.declared.item.Item.{Item};
ghost use Rattle.hdl_lanes.specs.Lane.{taken_from, all_put, SameOutlet};
ghost use Rattle.hdl_workers.specs.Door.{Counts, Gives};
ghost use Rattle.hdl_workers.specs.Joined.{EndsLane};
ghost use Rattle.hdl_workers.specs.WorkerLane.{put_by, taken_by, SameWorkerLane};
ghost use Rattle.hdl_workers.specs.Sign.{framed, moments_of, nonces_of, MomentsUsed, PutOne, WithEnd};
ghost use Rattle.hdl_workers.specs.Stamps.{StampsUsed};
ghost use Rattle.hdl_workers.specs.Replying.{OnlyReplies};
ghost use Rattle.hdl_workers.specs.Mail.{to_peer, SendsReply, BeginsReply, Sends, Traded, Trades, correspondence_at, correspondence_with, TakesIn, MayTakeIn, Replies, MayReply};

use crate::relay::octets_of;
use crate::worker::{EndReason, WorkerEnd, finish, open, spend};
use crate::worker_lane::WorkerLane;
use crate::{DoorFault, LoopClock, Nonces, Packets, WorkerSide};
use arrayvec::ArrayVec;
use hdl_events::{Outcome, What};
use hdl_frame::{ENVELOPE_LEN, one_datagram, pieces};
use hdl_limits::{MESSAGE_MAX, Octets, PIECE_LEN, UNDER_WAY_MAX};
use std::alloc::Global;

/// The most octets of a datagram that is sent.
const DATAGRAM_MAX: usize = ENVELOPE_LEN + PIECE_LEN as usize;

/// How many octets are received at once: one more than a frame has, so that a datagram that is longer is none when it is cut.
const RECEIVED_MAX: usize = ENVELOPE_LEN + MESSAGE_MAX as usize + 1;

/// Writes an envelope and what follows it to the front of the buffer.
fn join(buffer: &mut [u8], envelope: [u8; ENVELOPE_LEN], payload: &[u8])
    requires room { ENVELOPE_LEN + length payload.now ≤ length buffer.old }
    ensures len { length buffer.new ≡ length buffer.old }
    ensures joined { take (ENVELOPE_LEN + length payload.now) buffer.new ≡ envelope ++ payload.now }
{
    buffer[..ENVELOPE_LEN].copy_from_slice(&envelope);
    buffer[ENVELOPE_LEN..ENVELOPE_LEN + payload.len()].copy_from_slice(payload);
}

/// Sends one datagram: an envelope and a stretch of a message.
fn send_piece<P: Packets>(
    packets: &mut P,
    peer: u16,
    envelope: [u8; ENVELOPE_LEN],
    payload: &[u8],
) -> Result<(), DoorFault>
    requires short { length payload.now ≤ PIECE_LEN }
    ensures faults { Counts result (P.fault_count packets.old) (P.fault_count packets.new) }
    ensures received { IsTrue P.is_observed → P.received packets.new ≡ P.received packets.old }
    ensures sent { IsTrue P.is_observed → MatchResult result
        (λ _. P.sent packets.new ≡ P.sent packets.old ++ to_peer peer (envelope, payload.now) ∷ [])
        (λ _. P.sent packets.new ≡ P.sent packets.old) }
{
    let mut datagram = [0u8; DATAGRAM_MAX];
    join(&mut datagram, envelope, payload);
    packets.send(peer, &datagram[..ENVELOPE_LEN + payload.len()])
}

/// Sends octets as their pieces, up to one that fails. Whether the turns sufficed.
fn send_reply<P: Packets>(packets: &mut P, peer: u16, octets: &[u8], turns: &mut u64) -> bool
    ensures turns { turns.new ≤ turns.old }
    ensures faults { P.fault_count packets.old ≤ P.fault_count packets.new }
    ensures received { IsTrue P.is_observed → P.received packets.new ≡ P.received packets.old }
    ensures whole { IsTrue P.is_observed → IsTrue result → Sends (SendsReply peer octets.now) (P.sent packets.old) (P.fault_count packets.old) (P.sent packets.new) (P.fault_count packets.new) }
    ensures part { IsTrue P.is_observed → Sends (BeginsReply peer octets.now) (P.sent packets.old) (P.fault_count packets.old) (P.sent packets.new) (P.fault_count packets.new) }
{
    for (envelope, payload) in pieces(octets) {
        if !spend(turns) {
            return false;
        }
        match send_piece(packets, peer, envelope, payload) {
            Ok(()) => {}
            Err(_) => return true,
        }
    }
    true
}

/// Puts a frame, with the next moment and nonce, when no outcome is waited for.
fn put_frame<C: LoopClock, N: Nonces>(
    line: &mut WorkerLane,
    clock: &mut C,
    nonces: &mut N,
    peer: u16,
    bytes: Octets,
) -> bool
    ensures line { SameWorkerLane line.old line.new }
    ensures taken { taken_by line.new ≡ taken_by line.old }
    ensures put { IsTrue result → PutOne (framed peer bytes) (put_by line.old) (put_by line.new) }
    ensures unchanged { IsFalse result → put_by line.new ≡ put_by line.old }
    ensures stamps { StampsUsed C.LoopClock N.Nonces (clock.old, nonces.old, put_by line.old) (clock.new, nonces.new, put_by line.new) }
{
    while spend(&mut line.turns) {
        if line.has_room() {
            let moment = clock.now();
            let nonce = nonces.next();
            line.put(What::Frame {
                peer,
                moment,
                nonce,
                bytes,
            });
            clock.note_work();
            return true;
        }
        clock.pause();
    }
    false
}

/// Takes the next outcome.
fn await_outcome<C: LoopClock>(line: &mut WorkerLane, clock: &mut C) -> Option<Outcome>
    ensures line { SameWorkerLane line.old line.new }
    ensures put { put_by line.new ≡ put_by line.old }
    ensures taken { MatchOption result (taken_by line.new ≡ taken_by line.old) (λ outcome. taken_by line.new ≡ taken_by line.old ++ outcome ∷ []) }
    ensures answers { IsTrue C.is_observed → C.answers clock.new ≡ C.answers clock.old }
{
    while spend(&mut line.turns) {
        if let Some(outcome) = line.next() {
            clock.note_work();
            return Some(outcome);
        }
        clock.pause();
    }
    None
}

/// A copy of the octets. Where memory for it is refused it pauses before it tries again.
fn copy<C: LoopClock>(line: &mut WorkerLane, clock: &mut C, octets: &[u8]) -> Option<Octets>
    ensures line { SameWorkerLane line.old line.new }
    ensures taken { taken_by line.new ≡ taken_by line.old }
    ensures put { put_by line.new ≡ put_by line.old }
    ensures copied { IfSome result (λ copy. copy ≡ octets.now) }
    ensures answers { IsTrue C.is_observed → C.answers clock.new ≡ C.answers clock.old }
{
    while line.turns > 0 {
        match line.spares.copy(octets) {
            Ok(copy) => return Some(copy),
            Err(_) => clock.pause(),
        }
        line.turns -= 1;
    }
    None
}

/// Puts the frame that came last. Whether the turns sufficed.
#[tactic(auto, using(crate::proofs::Used::used_rules))]
fn submit<C: LoopClock, N: Nonces>(
    line: &mut WorkerLane,
    clock: &mut C,
    nonces: &mut N,
    peer: u16,
    octets: &[u8],
) -> bool
    ensures line { SameWorkerLane line.old line.new }
    ensures taken { taken_by line.new ≡ taken_by line.old }
    ensures put { IsTrue result → PutOne (framed peer octets.now) (put_by line.old) (put_by line.new) }
    ensures unchanged { IsFalse result → put_by line.new ≡ put_by line.old }
    ensures stamps { StampsUsed C.LoopClock N.Nonces (clock.old, nonces.old, put_by line.old) (clock.new, nonces.new, put_by line.new) }
{
    match copy(line, clock, octets) {
        None => false,
        Some(bytes) => put_frame(line, clock, nonces, peer, bytes),
    }
}

/// Puts the datagram that came last where it is a frame, whose peer then waits for a reply after the others. Whether the turns sufficed.
fn take_in<C: LoopClock, N: Nonces>(
    line: &mut WorkerLane,
    peers: &mut ArrayVec<u16, UNDER_WAY_MAX>,
    clock: &mut C,
    nonces: &mut N,
    peer: u16,
    octets: &[u8],
) -> bool
    requires room { length peers.old.items < UNDER_WAY_MAX }
    ensures line { SameWorkerLane line.old line.new }
    ensures taken { taken_by line.new ≡ taken_by line.old }
    ensures stamps { StampsUsed C.LoopClock N.Nonces (clock.old, nonces.old, put_by line.old) (clock.new, nonces.new, put_by line.new) }
    ensures took { IsTrue result → (sent : List (ℕ × List ℕ)) (faults : ℕ) → TakesIn (peer, octets.now)
        (correspondence_with sent faults line.old peers.old.items) (correspondence_with sent faults line.new peers.new.items) }
    ensures cut { IsFalse result → (sent : List (ℕ × List ℕ)) (faults : ℕ) → MayTakeIn (peer, octets.now)
        (correspondence_with sent faults line.old peers.old.items) (correspondence_with sent faults line.new peers.new.items) }
{
    match one_datagram(octets) {
        Err(_) => true,
        Ok(_) => {
            if !submit(line, clock, nonces, peer, octets) {
                return false;
            }
            peers.push(peer);
            true
        }
    }
}

/// Takes the next outcome, and sends its reply to the peer that waits longest. Whether the turns sufficed.
fn reply_oldest<P: Packets, C: LoopClock>(
    packets: &mut P,
    line: &mut WorkerLane,
    peers: &mut ArrayVec<u16, UNDER_WAY_MAX>,
    clock: &mut C,
) -> bool
    requires some { 0 < length peers.old.items }
    ensures fewer { length peers.new.items < length peers.old.items }
    ensures only_replies { OnlyReplies P.Packets packets.old line.old packets.new line.new }
    ensures answers { IsTrue C.is_observed → C.answers clock.new ≡ C.answers clock.old }
    ensures replied { IsTrue P.is_observed → IsTrue result → Replies
        (correspondence_at P.Packets packets.old line.old peers.old.items) (correspondence_at P.Packets packets.new line.new peers.new.items) }
    ensures cut { IsTrue P.is_observed → IsFalse result → MayReply
        (correspondence_at P.Packets packets.old line.old peers.old.items) (correspondence_at P.Packets packets.new line.new peers.new.items) }
{
    let peer = peers.remove(0);
    match await_outcome(line, clock) {
        None => false,
        Some(outcome) => {
            let sufficed = send_reply(packets, peer, octets_of(&outcome), &mut line.turns);
            packets.end_reply();
            line.spares.keep(outcome);
            sufficed
        }
    }
}

/// Sends the replies that are owed, each once its outcome is there. Whether the turns sufficed.
fn reply_all<P: Packets, C: LoopClock>(
    packets: &mut P,
    line: &mut WorkerLane,
    peers: &mut ArrayVec<u16, UNDER_WAY_MAX>,
    clock: &mut C,
) -> bool
    ensures only_replies { OnlyReplies P.Packets packets.old line.old packets.new line.new }
    ensures answers { IsTrue C.is_observed → C.answers clock.new ≡ C.answers clock.old }
    ensures replied { IsTrue P.is_observed → IsTrue result → Replies
        (correspondence_at P.Packets packets.old line.old peers.old.items) (correspondence_at P.Packets packets.new line.new []) }
    ensures cut { IsTrue P.is_observed → IsFalse result → MayReply
        (correspondence_at P.Packets packets.old line.old peers.old.items) (correspondence_at P.Packets packets.new line.new peers.new.items) }
{
    while !peers.is_empty() {
        if !reply_oldest(packets, line, peers, clock) {
            return false;
        }
    }
    true
}

/// Receives the next datagram, if one more frame may be under way. It waits for one only where no reply is owed.
fn receive_next<P: Packets>(
    packets: &mut P,
    peers: &ArrayVec<u16, UNDER_WAY_MAX>,
    buffer: &mut [u8],
) -> Result<Option<(u16, usize)>, DoorFault>
    ensures faults { Counts result (P.fault_count packets.old) (P.fault_count packets.new) }
    ensures fits { IfOk result (λ came. IfSome came (λ d. d.1 ≤ length buffer.new)) }
    ensures room { IfOk result (λ came. IfSome came (λ _. length peers.now.items < UNDER_WAY_MAX)) }
    ensures sent { IsTrue P.is_observed → P.sent packets.new ≡ P.sent packets.old }
    ensures received { IsTrue P.is_observed → MatchResult result
        (λ came. MatchOption came (P.received packets.new ≡ P.received packets.old) (λ d. P.received packets.new ≡ P.received packets.old ++ (d.0, take d.1 buffer.new) ∷ []))
        (λ _. P.received packets.new ≡ P.received packets.old) }
{
    let most = packets.most_under_way().max(1).min(UNDER_WAY_MAX);
    if peers.len() >= most {
        return Ok(None);
    }
    packets.receive(buffer, peers.is_empty())
}

/// For when no datagram came: sends the oldest reply that is owed, or pauses where none is. Whether the turns sufficed.
fn go_on<P: Packets, C: LoopClock>(
    packets: &mut P,
    line: &mut WorkerLane,
    peers: &mut ArrayVec<u16, UNDER_WAY_MAX>,
    clock: &mut C,
) -> bool
    ensures only_replies { OnlyReplies P.Packets packets.old line.old packets.new line.new }
    ensures answers { IsTrue C.is_observed → C.answers clock.new ≡ C.answers clock.old }
    ensures replied { IsTrue P.is_observed → IsTrue result → Replies
        (correspondence_at P.Packets packets.old line.old peers.old.items) (correspondence_at P.Packets packets.new line.new peers.new.items) }
    ensures cut { IsTrue P.is_observed → IsFalse result → MayReply
        (correspondence_at P.Packets packets.old line.old peers.old.items) (correspondence_at P.Packets packets.new line.new peers.new.items) }
{
    if peers.is_empty() {
        clock.pause();
        return true;
    }
    reply_oldest(packets, line, peers, clock)
}

/// Puts Open and takes its outcome. Whether the turns sufficed.
fn begin<C: LoopClock>(line: &mut WorkerLane, clock: &mut C) -> bool
    requires empty { (put_by line.old ≡ []) × (taken_by line.old ≡ []) }
    ensures line { SameWorkerLane line.old line.new }
    ensures traded { IsTrue result → (n : ℕ) → Traded [] [] n n (put_by line.new) (taken_by line.new) }
    ensures cut { IsFalse result → (n : ℕ) → Trades [] [] n n (put_by line.new) (taken_by line.new) }
    ensures moments { IsTrue C.is_observed → MomentsUsed (C.answers clock.old) (put_by line.old) (C.answers clock.new) (put_by line.new) }
    ensures nonces { nonces_of (put_by line.new) ≡ nonces_of (put_by line.old) }
{
    if !open(line, clock) {
        return false;
    }
    match await_outcome(line, clock) {
        Some(outcome) => {
            drop(outcome);
            true
        }
        None => false,
    }
}

/// One datagram after the other, of which some are under way.
fn serve_packets<P: Packets, C: LoopClock, N: Nonces>(
    packets: &mut P,
    line: &mut WorkerLane,
    clock: &mut C,
    nonces: &mut N,
) -> EndReason
    requires empty { (put_by line.old ≡ []) × (taken_by line.old ≡ []) }
    requires first { IsTrue P.is_observed → (P.received packets.old ≡ []) × (P.sent packets.old ≡ []) }
    ensures line { SameWorkerLane line.old line.new }
    ensures stamps { StampsUsed C.LoopClock N.Nonces (clock.old, nonces.old, put_by line.old) (clock.new, nonces.new, put_by line.new) }
    ensures device { result ≡ Device → (P.fault_count packets.old < P.fault_count packets.new) ⊎ (P.fault_count packets.old ≡ 2 ^ 64 - 1) }
    ensures whole { IsTrue P.is_observed → result ≡ Device → Traded (P.received packets.new) (P.sent packets.new) (P.fault_count packets.old) (P.fault_count packets.new) (put_by line.new) (taken_by line.new) }
    ensures trades { IsTrue P.is_observed → Trades (P.received packets.new) (P.sent packets.new) (P.fault_count packets.old) (P.fault_count packets.new) (put_by line.new) (taken_by line.new) }
{
    if !begin(line, clock) {
        return EndReason::Turns;
    }
    let mut buffer = [0u8; RECEIVED_MAX];
    let mut peers = ArrayVec::new();
    while spend(&mut line.turns) {
        match receive_next(packets, &peers, &mut buffer) {
            Err(_) => {
                if reply_all(packets, line, &mut peers, clock) {
                    return EndReason::Device;
                }
                return EndReason::Turns;
            }
            Ok(None) => {
                if !go_on(packets, line, &mut peers, clock) {
                    return EndReason::Turns;
                }
            }
            Ok(Some((peer, length))) => {
                let octets = &buffer[..length];
                if !take_in(line, &mut peers, clock, nonces, peer, octets) {
                    return EndReason::Turns;
                }
            }
        }
    }
    EndReason::Turns
}

/// Serves datagrams until the turns are spent or `receive` fails: then it sends the replies that are owed, puts End and ends with Device.
///
/// It puts Open, and a Frame for each datagram that is one frame, in order, with the peer that sent it; other datagrams are dropped.
/// Each outcome's octets are sent as their pieces to its event's peer, in the same order. As many frames as the door says are under way at most, so that others
/// are received, without waiting for them, while a reply is owed; where a send fails the rest of that reply is dropped. A growth that is refused is tried again after a pause, as a turn. Full rings, moments and nonces are as with [`stream_worker`](crate::stream_worker).
#[tactic(auto, using(crate::proofs::Used::ended_rules))]
pub fn packet_worker<P: Packets, C: LoopClock, N: Nonces>(
    alloc: Global,
    packets: &mut P,
    clock: &mut C,
    nonces: &mut N,
    side: WorkerSide,
    turns: u64,
) -> WorkerEnd
    requires first { IsTrue P.is_observed → (P.received packets.old ≡ []) × (P.sent packets.old ≡ []) }
    ensures inlet { EndsLane side.inlet result.ended }
    ensures outlet { SameOutlet side.outcomes result.outlet }
    ensures device { result.why ≡ Device → (P.fault_count packets.old < P.fault_count packets.new) ⊎ (P.fault_count packets.old ≡ 2 ^ 64 - 1) }
    ensures moments { IsTrue C.is_observed → Gives 0 (C.answers clock.old) (moments_of (all_put result.ended)) (C.answers clock.new) }
    ensures nonces { IsTrue N.is_observed → Gives (replicate 16 0) (N.answers nonces.old) (nonces_of (all_put result.ended)) (N.answers nonces.new) }
    ensures whole { IsTrue P.is_observed → result.why ≡ Device → (events : List Item) × WithEnd events (all_put result.ended)
        × Traded (P.received packets.new) (P.sent packets.new) (P.fault_count packets.old) (P.fault_count packets.new) events (taken_from result.outlet) }
    ensures trades { IsTrue P.is_observed → (events : List Item) × WithEnd events (all_put result.ended)
        × Trades (P.received packets.new) (P.sent packets.new) (P.fault_count packets.old) (P.fault_count packets.new) events (taken_from result.outlet) }
{
    let mut line = WorkerLane::new(alloc, side, turns);
    let why = serve_packets(packets, &mut line, clock, nonces);
    finish(line, clock, why)
}
