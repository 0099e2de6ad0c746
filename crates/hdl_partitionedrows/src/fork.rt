//! Which partition a handle is in.

ghost use Rattle.std.specs.Prelude.{◌≡◌};
ghost use Rattle.hdl_partitionedrows.specs.Partitioned.{is_second};

use std::hash::{BuildHasher, Hasher, RandomState};

/// The keyed hash, and the bit of it that says in which partition a handle is.
#[derive(Clone, Copy, Drop)]
pub struct Fork {
    hasher: RandomState,
    bit: u64,
}

impl Fork {
    /// By the bits of `bit` in the hash of a name: the first partition has the handles for which they are all 0.
    pub fn new(hasher: RandomState, bit: u64) -> Fork {
        Fork { hasher, bit }
    }

    /// Whether a canonical name is in the second partition.
    pub(crate) fn is_second(&self, name: &[u8]) -> bool
        ensures { result ≡ is_second self.now name.now }
    {
        let mut hasher = self.hasher.build_hasher();
        hasher.write(name);
        hasher.finish() & self.bit != 0
    }
}
