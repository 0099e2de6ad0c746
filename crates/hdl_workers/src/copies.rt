//! Copies of frames of the open connection, and how long memory is waited for.

ghost use Rattle.std.specs.Prelude.{◌≡◌, ◌<◌, IsTrue, OnOk, IfErr, IfOk, true};
ghost use Rattle.hdl_workers.specs.declared.worker.Stop.TheVariants.{Broken};
ghost use Rattle.hdl_workers.specs.Going.{StaysOpen};
ghost use Rattle.hdl_workers.specs.WorkerLane.{put_by};
ghost use Rattle.hdl_workers.specs.Relaying.{Relays};

use crate::relay::relay;
use crate::worker::{Stop, spend};
use crate::worker_lane::WorkerLane;
use crate::{Door, LoopClock};
use hdl_limits::Octets;
use std::time::Duration;

/// For how many seconds memory for what a connection sent is waited for.
const MEMORY_WAIT_SECONDS: u64 = 1;

/// Memory was refused where nothing is owed to the peer. It pauses, or gives the connection up if the wait took a second.
pub(crate) fn await_memory<D: Door, C: LoopClock>(door: &mut D, clock: &mut C) -> Result<(), Stop>
    ensures connection { StaysOpen D.Door door.old door.new }
    ensures same { OnOk result (door.new ≡ door.old) }
    ensures kept { IsTrue D.is_observed → ((D.current door.new).read ≡ (D.current door.old).read) × ((D.current door.new).written ≡ (D.current door.old).written) }
    ensures broken { IsTrue D.is_observed → IfErr result (λ stop. stop ≡ Broken → (D.current door.new).broken ≡ true) }
    ensures answers { IsTrue C.is_observed → C.answers clock.new ≡ C.answers clock.old }
{
    if clock.waited() >= Duration::from_secs(MEMORY_WAIT_SECONDS) {
        door.give_up();
        return Err(Stop::Broken);
    }
    clock.pause();
    Ok(())
}

/// Memory for a frame was refused. What is owed is written first, as outcomes come; it gives back memory too.
fn await_memory_for_frame<D: Door, C: LoopClock>(
    door: &mut D,
    line: &mut WorkerLane,
    clock: &mut C,
) -> Result<(), Stop>
    ensures turns { OnOk result (line.new.turns < line.old.turns) }
    ensures relays { Relays D.Door door.old line.old result door.new line.new }
    ensures put { put_by line.new ≡ put_by line.old }
    ensures answers { IsTrue C.is_observed → C.answers clock.new ≡ C.answers clock.old }
{
    if line.waiting > 0 {
        return relay(door, line, clock);
    }
    if !spend(&mut line.turns) {
        return Err(Stop::Turns);
    }
    await_memory(door, clock)
}

/// A copy of the octets. Where memory for it is refused it waits before it tries again.
pub(crate) fn copy<D: Door, C: LoopClock>(
    door: &mut D,
    line: &mut WorkerLane,
    clock: &mut C,
    octets: &[u8],
) -> Result<Octets, Stop>
    ensures relays { Relays D.Door door.old line.old result door.new line.new }
    ensures put { put_by line.new ≡ put_by line.old }
    ensures answers { IsTrue C.is_observed → C.answers clock.new ≡ C.answers clock.old }
    ensures copied { IfOk result (λ copy. copy ≡ octets.now) }
{
    clock.note_work();
    while line.turns > 0 {
        if let Ok(copy) = line.spares.copy(octets) {
            return Ok(copy);
        }
        await_memory_for_frame(door, line, clock)?;
    }
    Err(Stop::Turns)
}
