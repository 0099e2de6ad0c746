//! The calls of a door in memory, and which of them fails.

ghost use Rattle.std.specs.Prelude.{◌≡◌};
ghost use Rattle.hdl_workers.specs.Door.{Counts, Raises};

use crate::DoorFault;

/// Counts calls and faults. One call fails.
#[derive(Drop)]
pub(crate) struct Faults {
    /// How many calls are still to come up to the one that fails. 0: none does.
    pub(crate) until: u64,
    pub(crate) count: u64,
}

impl Faults {
    /// Counts a fault.
    pub(crate) fn raise(&mut self) -> DoorFault
        ensures { Raises self.old.count self.new.count }
    {
        if self.count < u64::MAX {
            self.count += 1;
        }
        DoorFault
    }

    /// Counts a call.
    pub(crate) fn call(&mut self) -> Result<(), DoorFault>
        ensures { Counts result self.old.count self.new.count }
    {
        if self.until == 0 {
            return Ok(());
        }
        self.until -= 1;
        if self.until == 0 {
            return Err(self.raise());
        }
        Ok(())
    }
}
