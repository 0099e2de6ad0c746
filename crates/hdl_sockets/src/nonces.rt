//! The machine's random numbers as nonces. They tell nothing.

use hdl_workers::Nonces;
use rand::RngExt;
use rand::rngs::StdRng;

/// Nonces of a generator that the machine's random source seeded.
#[derive(Drop)]
pub struct MachineNonces {
    rng: StdRng,
}

impl MachineNonces {
    pub fn new(rng: StdRng) -> MachineNonces {
        MachineNonces { rng }
    }
}

impl Nonces for MachineNonces {
    ghost use Rattle.std.specs.Prelude.{false, []};

    ghost is_observed = { false };

    ghost answers = { λ _. [] };

    fn next(&mut self) -> [u8; 16] {
        let mut nonce = [0; 16];
        self.rng.fill(&mut nonce);
        nonce
    }
}
