//! Outcomes on their way to the open connection.

ghost use Rattle.std.specs.Prelude.{◌≡◌, ◌≤◌, ◌<◌, ◌++◌, ◌∷◌, [], List, IsTrue, MatchOption, OnOk, IfErr, true, length};
ghost use mathlib.Core.List.{IsPrefix};
ghost use Rattle.hdl_events.specs.declared.Outcome.{Outcome};
ghost use Rattle.hdl_workers.specs.declared.worker.Stop.TheVariants.{Broken};
ghost use Rattle.hdl_workers.specs.Octets.{octets_of};
ghost use Rattle.hdl_workers.specs.Door.{say};
ghost use Rattle.hdl_workers.specs.Going.{GoesOn, StaysOpen};
ghost use Rattle.hdl_workers.specs.WorkerLane.{put_by, taken_by, HasPlace, SameWorkerLane, Joins, Relayed, RelayedPart};
ghost use Rattle.hdl_workers.specs.Relaying.{Relays};

use crate::worker::{Stop, spend};
use crate::worker_lane::WorkerLane;
use crate::{Door, LoopClock};
use arrayvec::ArrayVec;
use hdl_events::Outcome;

/// The most octets that are joined into one write.
const JOINED: usize = 8192;

/// Writes the octets to the open connection.
fn write_all<D: Door>(door: &mut D, octets: &[u8], turns: &mut u64) -> Result<(), Stop>
    ensures turns { turns.new ≤ turns.old }
    ensures connection { StaysOpen D.Door door.old door.new }
    ensures whole { IsTrue D.is_observed → OnOk result (D.current door.new ≡ say octets.now (D.current door.old)) }
    ensures part { IsTrue D.is_observed → IsPrefix (D.current door.new).written ((D.current door.old).written ++ octets.now) × ((D.current door.new).read ≡ (D.current door.old).read) }
    ensures broken { IsTrue D.is_observed → IfErr result (λ stop. stop ≡ Broken → (D.current door.new).broken ≡ true) }
{
    let mut at = 0;
    while at < octets.len() {
        if !spend(turns) {
            return Err(Stop::Turns);
        }
        match door.write(&octets[at..]) {
            Ok(written) => at += written,
            Err(_) => return Err(Stop::Broken),
        }
    }
    Ok(())
}

/// The octets that are owed for an outcome.
pub(crate) fn octets_of(outcome: &Outcome) -> &[u8]
    ensures { result.now ≡ octets_of outcome.now }
{
    match outcome {
        Outcome::Reply(octets) => octets.as_slice(),
        Outcome::Busy(octets) | Outcome::CloseAfter(octets) => octets,
        Outcome::Silent => &[],
    }
}

/// Writes the octets of an outcome to the open connection.
fn write_outcome<D: Door>(door: &mut D, outcome: &Outcome, turns: &mut u64) -> Result<(), Stop>
    ensures turns { turns.new ≤ turns.old }
    ensures connection { StaysOpen D.Door door.old door.new }
    ensures whole { IsTrue D.is_observed → OnOk result (D.current door.new ≡ say (octets_of outcome.now) (D.current door.old)) }
    ensures part { IsTrue D.is_observed → IsPrefix (D.current door.new).written ((D.current door.old).written ++ octets_of outcome.now) × ((D.current door.new).read ≡ (D.current door.old).read) }
    ensures broken { IsTrue D.is_observed → IfErr result (λ stop. stop ≡ Broken → (D.current door.new).broken ≡ true) }
{
    write_all(door, octets_of(outcome), turns)
}

/// Takes the outcomes that are there while their octets find room after those that are joined. The one that found none.
fn join_ready(line: &mut WorkerLane, joined: &mut ArrayVec<u8, JOINED>) -> Option<Outcome>
    ensures line { SameWorkerLane line.old line.new }
    ensures put { put_by line.new ≡ put_by line.old }
    ensures joined { MatchOption result
        (Joins (taken_by line.old) joined.old.items (taken_by line.new) joined.new.items)
        (λ last. (u : List Outcome) × (taken_by line.new ≡ u ++ last ∷ []) × Joins (taken_by line.old) joined.old.items u joined.new.items) }
{
    while line.waiting > 0 {
        match line.next() {
            None => return None,
            Some(outcome) => match joined.try_extend_from_slice(octets_of(&outcome)) {
                Ok(()) => line.spares.keep(outcome),
                Err(_) => return Some(outcome),
            },
        }
    }
    None
}

/// As `join_ready`. Where outcomes are still owed then, it pauses once, and takes those that came meanwhile too.
fn join<C: LoopClock>(
    line: &mut WorkerLane,
    clock: &mut C,
    joined: &mut ArrayVec<u8, JOINED>,
) -> Option<Outcome>
    ensures line { SameWorkerLane line.old line.new }
    ensures put { put_by line.new ≡ put_by line.old }
    ensures answers { IsTrue C.is_observed → C.answers clock.new ≡ C.answers clock.old }
    ensures joined { MatchOption result
        (Joins (taken_by line.old) joined.old.items (taken_by line.new) joined.new.items)
        (λ last. (u : List Outcome) × (taken_by line.new ≡ u ++ last ∷ []) × Joins (taken_by line.old) joined.old.items u joined.new.items) }
{
    if let Some(last) = join_ready(line, joined) {
        return Some(last);
    }
    if line.waiting > 0 {
        clock.pause();
    }
    join_ready(line, joined)
}

/// Writes an outcome that was taken, and in the same write those that come soon and find room in it.
fn write_joined<D: Door, C: LoopClock>(
    door: &mut D,
    line: &mut WorkerLane,
    clock: &mut C,
    first: &Outcome,
) -> Result<(), Stop>
    ensures goes_on { GoesOn D.Door door.old line.old door.new line.new }
    ensures put { put_by line.new ≡ put_by line.old }
    ensures answers { IsTrue C.is_observed → C.answers clock.new ≡ C.answers clock.old }
    ensures whole { IsTrue D.is_observed → OnOk result ((t : List Outcome) → taken_by line.old ≡ t ++ first.now ∷ [] → Relayed t (D.current door.old) (taken_by line.new) (D.current door.new)) }
    ensures part { IsTrue D.is_observed → (t : List Outcome) → taken_by line.old ≡ t ++ first.now ∷ [] → RelayedPart t (D.current door.old) (taken_by line.new) (D.current door.new) }
    ensures broken { IsTrue D.is_observed → IfErr result (λ stop. stop ≡ Broken → (D.current door.new).broken ≡ true) }
{
    let mut joined = ArrayVec::new();
    match joined.try_extend_from_slice(octets_of(first)) {
        Err(_) => write_outcome(door, first, &mut line.turns),
        Ok(()) => {
            let last = join(line, clock, &mut joined);
            write_all(door, joined.as_slice(), &mut line.turns)?;
            match last {
                Some(outcome) => write_outcome(door, &outcome, &mut line.turns),
                None => Ok(()),
            }
        }
    }
}

/// One try to take an outcome, which is then written, and with it those that are there.
pub(crate) fn relay<D: Door, C: LoopClock>(
    door: &mut D,
    line: &mut WorkerLane,
    clock: &mut C,
) -> Result<(), Stop>
    ensures turns { OnOk result (line.new.turns < line.old.turns) }
    ensures relays { Relays D.Door door.old line.old result door.new line.new }
    ensures put { put_by line.new ≡ put_by line.old }
    ensures answers { IsTrue C.is_observed → C.answers clock.new ≡ C.answers clock.old }
{
    if !spend(&mut line.turns) {
        return Err(Stop::Turns);
    }
    match line.next() {
        Some(outcome) => {
            clock.note_work();
            let written = write_joined(door, line, clock, &outcome);
            line.spares.keep(outcome);
            clock.note_work();
            written
        }
        None => {
            clock.pause();
            Ok(())
        }
    }
}

/// Waits until each event put has its outcome, and that was written.
pub(crate) fn await_outcomes<D: Door, C: LoopClock>(
    door: &mut D,
    line: &mut WorkerLane,
    clock: &mut C,
) -> Result<(), Stop>
    ensures relays { Relays D.Door door.old line.old result door.new line.new }
    ensures put { put_by line.new ≡ put_by line.old }
    ensures answers { IsTrue C.is_observed → C.answers clock.new ≡ C.answers clock.old }
    ensures settled { OnOk result (length (taken_by line.new) ≡ length (put_by line.new)) }
{
    while line.waiting > 0 {
        relay(door, line, clock)?;
    }
    Ok(())
}

/// Waits until the ring has room. Meanwhile outcomes are taken and written.
pub(crate) fn await_room<D: Door, C: LoopClock>(
    door: &mut D,
    line: &mut WorkerLane,
    clock: &mut C,
) -> Result<(), Stop>
    ensures turns { OnOk result (line.new.turns < line.old.turns) }
    ensures relays { Relays D.Door door.old line.old result door.new line.new }
    ensures put { put_by line.new ≡ put_by line.old }
    ensures room { OnOk result (HasPlace line.new) }
    ensures answers { IsTrue C.is_observed → C.answers clock.new ≡ C.answers clock.old }
{
    while spend(&mut line.turns) {
        if line.has_room() {
            return Ok(());
        }
        relay(door, line, clock)?;
    }
    Err(Stop::Turns)
}
