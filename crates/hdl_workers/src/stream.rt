//! The worker of a stream lane.

ghost use Rattle.std.specs.Prelude.{◌≡◌, ◌++◌, ◌∷◌, [], ◌≤◌, ◌<◌, IsTrue, IsFalse, OnOk, ◌⊎◌, ◌^◌, ◌-◌, IfErr, IfOk, OnErr, List, true, length, None, replicate};
ghost use Rattle.hdl_workers.specs.declared.worker.Stop.TheVariants.{Broken};
ghost use Rattle.hdl_workers.specs.declared.worker.EndReason.TheVariants.{Device};
ghost use Rattle.hdl_workers.specs.declared.item.Item.{Item};
ghost use Rattle.hdl_workers.specs.declared.item.Item.TheVariants.{Event};
ghost use Rattle.hdl_events.specs.declared.Outcome.{Outcome};
ghost use Rattle.hdl_events.specs.declared.What.TheVariants.{Bad, Close};
ghost use Rattle.hdl_lanes.specs.Lane.{taken_from, all_put, SameOutlet};
ghost use Rattle.hdl_workers.specs.Door.{fresh, Gives};
ghost use Rattle.hdl_workers.specs.Found.{Finds, fault_found};
ghost use Rattle.hdl_workers.specs.Going.{GoesOn};
ghost use Rattle.hdl_workers.specs.Joined.{EndsLane};
ghost use Rattle.hdl_workers.specs.WorkerLane.{put_by, taken_by, SameWorkerLane};
ghost use Rattle.hdl_workers.specs.Relaying.{Relays};
ghost use Rattle.hdl_workers.specs.Sign.{framed, moments_of, nonces_of, PutOne, WithEnd};
ghost use Rattle.hdl_workers.specs.Stamps.{StampsUsed};
ghost use Rattle.hdl_workers.specs.Talk.{fault_sign, FramesSoFar, Waiting, AllFrames, SomeFrames, AnyBeginning, Underway, CutOff, CanClose, History, Serves};

use crate::copies::copy;
use crate::intake::Intake;
use crate::relay::{await_outcomes, await_room};
use crate::worker::{EndReason, Stop, WorkerEnd, finish, open, spend};
use crate::worker_lane::WorkerLane;
use crate::{Door, LoopClock, Nonces, WorkerSide};
use hdl_events::What;
use hdl_frame::{Cutter, FrameFault};
use hdl_limits::Octets;
use std::alloc::Global;

/// What stands next in a stream.
#[derive(Drop)]
enum Found {
    /// A frame's octets.
    Whole(Octets),
    /// The two numbers of a faulty envelope.
    Fault { session: u32, request: u32 },
    /// Neither.
    Nothing,
}

/// A fault by the two numbers of its envelope.
fn numbers(fault: FrameFault) -> Found
    ensures { fault_found result ≡ fault_sign fault }
{
    match fault {
        FrameFault::Version(e) | FrameFault::Flags(e) | FrameFault::TooLong(e) => Found::Fault {
            session: e.session,
            request: e.request,
        },
        FrameFault::Memory => Found::Nothing,
    }
}

/// Takes what stands next.
fn find<D: Door, C: LoopClock>(
    door: &mut D,
    line: &mut WorkerLane,
    clock: &mut C,
    cutter: &mut Cutter,
) -> Result<Found, Stop>
    requires sound { cutter.old.fault ≡ None }
    ensures relays { Relays D.Door door.old line.old result door.new line.new }
    ensures put { put_by line.new ≡ put_by line.old }
    ensures answers { IsTrue C.is_observed → C.answers clock.new ≡ C.answers clock.old }
    ensures found { IfOk result (λ found. Finds cutter.old found cutter.new) }
{
    match cutter.next_frame() {
        Ok(Some(frame)) => Ok(Found::Whole(copy(door, line, clock, frame.bytes)?)),
        Ok(None) => Ok(Found::Nothing),
        Err(fault) => Ok(numbers(fault)),
    }
}

/// Puts a frame, with the next moment and nonce.
#[tactic(auto, using(crate::proofs::Used::used_rules))]
fn submit_frame<D: Door, C: LoopClock, N: Nonces>(
    door: &mut D,
    line: &mut WorkerLane,
    clock: &mut C,
    nonces: &mut N,
    bytes: Octets,
) -> Result<(), Stop>
    ensures turns { OnOk result (line.new.turns < line.old.turns) }
    ensures relays { Relays D.Door door.old line.old result door.new line.new }
    ensures put { OnOk result (PutOne (framed 0 bytes) (put_by line.old) (put_by line.new)) }
    ensures unchanged { OnErr result (put_by line.new ≡ put_by line.old) }
    ensures stamps { StampsUsed C.LoopClock N.Nonces (clock.old, nonces.old, put_by line.old) (clock.new, nonces.new, put_by line.new) }
{
    await_room(door, line, clock)?;
    let moment = clock.now();
    let nonce = nonces.next();
    line.put(What::Frame {
        peer: 0,
        moment,
        nonce,
        bytes,
    });
    Ok(())
}

/// Puts the fault that stands next.
fn submit_fault<D: Door, C: LoopClock>(
    door: &mut D,
    line: &mut WorkerLane,
    clock: &mut C,
    session: u32,
    request: u32,
) -> Result<(), Stop>
    ensures turns { OnOk result (line.new.turns < line.old.turns) }
    ensures relays { Relays D.Door door.old line.old result door.new line.new }
    ensures put { OnOk result (put_by line.new ≡ put_by line.old ++ Event (Bad session request) ∷ []) }
    ensures unchanged { OnErr result (put_by line.new ≡ put_by line.old) }
    ensures answers { IsTrue C.is_observed → C.answers clock.new ≡ C.answers clock.old }
{
    await_room(door, line, clock)?;
    line.put(What::Bad { session, request });
    Ok(())
}

/// Puts every frame that is there, and the fault after them. Whether there was a fault.
#[tactic(auto, using(crate::proofs::Used::used_rules))]
fn submit_frames<D: Door, C: LoopClock, N: Nonces>(
    door: &mut D,
    line: &mut WorkerLane,
    clock: &mut C,
    nonces: &mut N,
    cutter: &mut Cutter,
) -> Result<bool, Stop>
    requires sound { cutter.old.fault ≡ None }
    requires talk { IsTrue D.is_observed → Underway (FramesSoFar cutter.old.rest) (D.ended door.old) (D.current door.old) (put_by line.old) (taken_by line.old) }
    ensures goes_on { GoesOn D.Door door.old line.old door.new line.new }
    ensures sound { IfOk result (λ faulty. IsFalse faulty → cutter.new.fault ≡ None) }
    ensures stamps { StampsUsed C.LoopClock N.Nonces (clock.old, nonces.old, put_by line.old) (clock.new, nonces.new, put_by line.new) }
    ensures waits { IsTrue D.is_observed → IfOk result (λ faulty. IsFalse faulty → Underway (Waiting cutter.new.rest) (D.ended door.new) (D.current door.new) (put_by line.new) (taken_by line.new)) }
    ensures stops { IsTrue D.is_observed → IfOk result (λ faulty. IsTrue faulty → Underway AllFrames (D.ended door.new) (D.current door.new) (put_by line.new) (taken_by line.new)) }
    ensures cut { IsTrue D.is_observed → CutOff SomeFrames (D.ended door.new) (D.current door.new) (put_by line.new) (taken_by line.new) }
    ensures broken { IsTrue D.is_observed → IfErr result (λ stop. stop ≡ Broken → (D.current door.new).broken ≡ true) }
{
    while line.turns > 0 {
        match find(door, line, clock, cutter)? {
            Found::Whole(bytes) => submit_frame(door, line, clock, nonces, bytes)?,
            Found::Nothing => return Ok(false),
            Found::Fault { session, request } => {
                submit_fault(door, line, clock, session, request)?;
                return Ok(true);
            }
        }
    }
    Err(Stop::Turns)
}

/// Serves the open connection until its peer closes it, a frame is faulty or a call of the door fails.
#[tactic(auto, using(crate::proofs::Used::used_rules))]
fn converse<D: Door, C: LoopClock, N: Nonces>(
    door: &mut D,
    line: &mut WorkerLane,
    clock: &mut C,
    nonces: &mut N,
) -> Result<(), Stop>
    requires talk { IsTrue D.is_observed → Underway (Waiting []) (D.ended door.old) (D.current door.old) (put_by line.old) (taken_by line.old) }
    ensures goes_on { GoesOn D.Door door.old line.old door.new line.new }
    ensures stamps { StampsUsed C.LoopClock N.Nonces (clock.old, nonces.old, put_by line.old) (clock.new, nonces.new, put_by line.new) }
    ensures settled { OnOk result (length (taken_by line.new) ≡ length (put_by line.new)) }
    ensures whole { IsTrue D.is_observed → OnOk result (Underway AllFrames (D.ended door.new) (D.current door.new) (put_by line.new) (taken_by line.new)) }
    ensures cut { IsTrue D.is_observed → CutOff SomeFrames (D.ended door.new) (D.current door.new) (put_by line.new) (taken_by line.new) }
    ensures broken { IsTrue D.is_observed → IfErr result (λ stop. stop ≡ Broken → (D.current door.new).broken ≡ true) }
{
    let mut intake = Intake::new(line.alloc);
    await_outcomes(door, line, clock)?;
    while intake.hear(door, clock, &mut line.turns)? {
        let faulty = submit_frames(door, line, clock, nonces, &mut intake.cutter)?;
        if faulty {
            await_outcomes(door, line, clock)?;
            return Ok(());
        }
        await_outcomes(door, line, clock)?;
    }
    Ok(())
}

/// As `converse`. Whether nothing more is owed to the peer, and not merely the turns were spent.
#[tactic(auto, using(crate::proofs::Used::used_rules))]
fn converse_to_end<D: Door, C: LoopClock, N: Nonces>(
    door: &mut D,
    line: &mut WorkerLane,
    clock: &mut C,
    nonces: &mut N,
) -> bool
    requires talk { IsTrue D.is_observed → Underway (Waiting []) (D.ended door.old) (D.current door.old) (put_by line.old) (taken_by line.old) }
    ensures goes_on { GoesOn D.Door door.old line.old door.new line.new }
    ensures stamps { StampsUsed C.LoopClock N.Nonces (clock.old, nonces.old, put_by line.old) (clock.new, nonces.new, put_by line.new) }
    ensures can_close { IsTrue D.is_observed → IsTrue result → CanClose (D.ended door.new) (D.current door.new) (put_by line.new) (taken_by line.new) }
    ensures cut { IsTrue D.is_observed → CutOff SomeFrames (D.ended door.new) (D.current door.new) (put_by line.new) (taken_by line.new) }
{
    match converse(door, line, clock, nonces) {
        Ok(()) => true,
        Err(Stop::Broken) => true,
        Err(Stop::Turns) => false,
    }
}

/// Puts Close. Outcomes that are taken meanwhile go nowhere.
fn put_close<C: LoopClock>(line: &mut WorkerLane, clock: &mut C) -> bool
    ensures line { SameWorkerLane line.old line.new }
    ensures taken { (more : List Outcome) × (taken_by line.new ≡ taken_by line.old ++ more) }
    ensures put { IsTrue result → put_by line.new ≡ put_by line.old ++ Event Close ∷ [] }
    ensures unchanged { IsFalse result → put_by line.new ≡ put_by line.old }
    ensures answers { IsTrue C.is_observed → C.answers clock.new ≡ C.answers clock.old }
{
    while spend(&mut line.turns) {
        if line.has_room() {
            line.put(What::Close);
            return true;
        }
        if line.next().is_some() {
            clock.note_work();
        } else {
            clock.pause();
        }
    }
    false
}

/// Takes the outcomes that are left, which go nowhere.
fn drop_outcomes<C: LoopClock>(line: &mut WorkerLane, clock: &mut C) -> bool
    ensures line { SameWorkerLane line.old line.new }
    ensures taken { (more : List Outcome) × (taken_by line.new ≡ taken_by line.old ++ more) }
    ensures put { put_by line.new ≡ put_by line.old }
    ensures answers { IsTrue C.is_observed → C.answers clock.new ≡ C.answers clock.old }
    ensures settled { IsTrue result → length (taken_by line.new) ≡ length (put_by line.new) }
{
    while line.waiting > 0 {
        if !spend(&mut line.turns) {
            return false;
        }
        if line.next().is_some() {
            clock.note_work();
        } else {
            clock.pause();
        }
    }
    true
}

/// Serves the connection that was accepted, and leaves it. Whether the turns sufficed.
#[tactic(auto, using(crate::proofs::Used::used_rules))]
fn serve_connection<D: Door, C: LoopClock, N: Nonces>(
    door: &mut D,
    line: &mut WorkerLane,
    clock: &mut C,
    nonces: &mut N,
) -> bool
    requires ready { D.is_open door.old ≡ true }
    requires fresh { IsTrue D.is_observed → D.current door.old ≡ fresh }
    requires history { IsTrue D.is_observed → History (D.ended door.old) (put_by line.old) (taken_by line.old) }
    requires settled { length (taken_by line.old) ≡ length (put_by line.old) }
    ensures faults { D.fault_count door.old ≤ D.fault_count door.new }
    ensures line { SameWorkerLane line.old line.new }
    ensures stamps { StampsUsed C.LoopClock N.Nonces (clock.old, nonces.old, put_by line.old) (clock.new, nonces.new, put_by line.new) }
    ensures settled { IsTrue result → length (taken_by line.new) ≡ length (put_by line.new) }
    ensures history { IsTrue D.is_observed → IsTrue result → History (D.ended door.new) (put_by line.new) (taken_by line.new) }
    ensures cut { IsTrue D.is_observed → IsFalse result → CutOff AnyBeginning (D.ended door.new) (D.current door.new) (put_by line.new) (taken_by line.new) }
{
    if !open(line, clock) {
        return false;
    }
    if !converse_to_end(door, line, clock, nonces) {
        return false;
    }
    if !put_close(line, clock) {
        return false;
    }
    if !drop_outcomes(line, clock) {
        return false;
    }
    if !spend(&mut line.turns) {
        return false;
    }
    door.leave();
    true
}

/// One connection after the other.
#[tactic(auto, using(crate::proofs::Used::used_rules))]
fn serve_door<D: Door, C: LoopClock, N: Nonces>(
    door: &mut D,
    line: &mut WorkerLane,
    clock: &mut C,
    nonces: &mut N,
) -> EndReason
    requires history { IsTrue D.is_observed → History (D.ended door.old) (put_by line.old) (taken_by line.old) }
    requires settled { length (taken_by line.old) ≡ length (put_by line.old) }
    ensures line { SameWorkerLane line.old line.new }
    ensures stamps { StampsUsed C.LoopClock N.Nonces (clock.old, nonces.old, put_by line.old) (clock.new, nonces.new, put_by line.new) }
    ensures device { result ≡ Device → (D.fault_count door.old < D.fault_count door.new) ⊎ (D.fault_count door.old ≡ 2 ^ 64 - 1) }
    ensures whole { IsTrue D.is_observed → result ≡ Device → History (D.ended door.new) (put_by line.new) (taken_by line.new) }
    ensures serves { IsTrue D.is_observed → Serves (D.ended door.new) (D.current door.new) (put_by line.new) (taken_by line.new) }
{
    while spend(&mut line.turns) {
        match door.accept() {
            Err(_) => return EndReason::Device,
            Ok(false) => clock.pause(),
            Ok(true) => {
                if !serve_connection(door, line, clock, nonces) {
                    return EndReason::Turns;
                }
            }
        }
    }
    EndReason::Turns
}

/// Serves one connection after the other until the turns are spent or `accept` fails: then it puts End and ends with Device.
///
/// Of each connection it puts Open, every frame that was read, Bad where a faulty envelope stands next, and Close. It reads at most
/// 8,192 octets at a time, and again only once each event that it put has its outcome and that was written. What it writes is the
/// octets of the outcomes, in order. Where a read or a write fails it puts Close and goes on with the next connection; octets of
/// an unfinished frame are dropped. A growth that is refused is tried again after a pause, as a turn, once what is owed was written; after a second of that the
/// connection is given up, as where a write fails. Where the ring is full it takes outcomes and puts again. Each frame has the next moment of the clock and the next nonce of the source, and none of these is left out.
pub fn stream_worker<D: Door, C: LoopClock, N: Nonces>(
    alloc: Global,
    door: &mut D,
    clock: &mut C,
    nonces: &mut N,
    side: WorkerSide,
    turns: u64,
) -> WorkerEnd
    requires first { IsTrue D.is_observed → D.ended door.old ≡ [] }
    ensures inlet { EndsLane side.inlet result.ended }
    ensures outlet { SameOutlet side.outcomes result.outlet }
    ensures device { result.why ≡ Device → (D.fault_count door.old < D.fault_count door.new) ⊎ (D.fault_count door.old ≡ 2 ^ 64 - 1) }
    ensures moments { IsTrue C.is_observed → Gives 0 (C.answers clock.old) (moments_of (all_put result.ended)) (C.answers clock.new) }
    ensures nonces { IsTrue N.is_observed → Gives (replicate 16 0) (N.answers nonces.old) (nonces_of (all_put result.ended)) (N.answers nonces.new) }
    ensures whole { IsTrue D.is_observed → result.why ≡ Device → (events : List Item) × WithEnd events (all_put result.ended) × History (D.ended door.new) events (taken_from result.outlet) }
    ensures serves { IsTrue D.is_observed → (events : List Item) × WithEnd events (all_put result.ended) × Serves (D.ended door.new) (D.current door.new) events (taken_from result.outlet) }
{
    let mut line = WorkerLane::new(alloc, side, turns);
    let why = serve_door(door, &mut line, clock, nonces);
    finish(line, clock, why)
}
