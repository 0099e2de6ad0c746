//! What the open connection is read into, and what cuts that into frames.

ghost use Rattle.std.specs.Prelude.{◌≡◌, ◌++◌, [], ◌≤◌, ◌<◌, IsTrue, IsFalse, OnOk, IfErr, IfOk, List, ℕ, None, true};
ghost use Rattle.hdl_workers.specs.declared.worker.Stop.TheVariants.{Broken};
ghost use Rattle.hdl_workers.specs.Door.{hear};
ghost use Rattle.hdl_workers.specs.Going.{StaysOpen};

use crate::copies::await_memory;
use crate::worker::{Stop, spend};
use crate::{Door, LoopClock};
use hdl_frame::Cutter;
use std::alloc::Global;

/// How many octets are asked of a connection at a time.
const READ_AT_ONCE: usize = 8192;

/// A buffer that octets are read into, and the cutter that is fed with them.
#[derive(Drop)]
pub(crate) struct Intake {
    pub(crate) cutter: Cutter,
    buffer: [u8; READ_AT_ONCE],
}

impl Intake {
    /// An intake that heard nothing. It takes no memory.
    pub(crate) fn new(alloc: Global) -> Intake
        ensures empty { result.cutter ≡ record { rest = []; fault = None } }
    {
        Intake {
            cutter: Cutter::new(alloc),
            buffer: [0; READ_AT_ONCE],
        }
    }

    /// Reads once, and feeds the cutter. Whether octets came. Where memory for them is refused it waits before it tries again.
    pub(crate) fn hear<D: Door, C: LoopClock>(
        &mut self,
        door: &mut D,
        clock: &mut C,
        turns: &mut u64,
    ) -> Result<bool, Stop>
        requires sound { self.old.cutter.fault ≡ None }
        ensures turns { (turns.new ≤ turns.old) × OnOk result (turns.new < turns.old) }
        ensures connection { StaysOpen D.Door door.old door.new }
        ensures sound { OnOk result (self.new.cutter.fault ≡ None) }
        ensures came { IsTrue D.is_observed → IfOk result (λ came. IsTrue came → (octets : List ℕ) × (D.current door.new ≡ hear octets (D.current door.old)) × (self.new.cutter ≡ record { rest = self.old.cutter.rest ++ octets; fault = None })) }
        ensures closed { IsTrue D.is_observed → IfOk result (λ came. IsFalse came → (D.current door.new ≡ D.current door.old) × (self.new.cutter ≡ self.old.cutter)) }
        ensures broken { IsTrue D.is_observed → IfErr result (λ stop. stop ≡ Broken → (D.current door.new).broken ≡ true) }
        ensures heard { IsTrue D.is_observed → (octets : List ℕ) × ((D.current door.new).read ≡ (D.current door.old).read ++ octets) × ((D.current door.new).written ≡ (D.current door.old).written) }
        ensures answers { IsTrue C.is_observed → C.answers clock.new ≡ C.answers clock.old }
    {
        if !spend(turns) {
            return Err(Stop::Turns);
        }
        match door.read(&mut self.buffer) {
            Err(_) | Ok(0) => Ok(false),
            Ok(count) => {
                clock.note_work();
                while self.cutter.feed(&self.buffer[..count]).is_err() {
                    if !spend(turns) {
                        return Err(Stop::Turns);
                    }
                    await_memory(door, clock)?;
                }
                Ok(true)
            }
        }
    }
}
