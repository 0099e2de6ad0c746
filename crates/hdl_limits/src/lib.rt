//! The limits of the profile (docs/PROTOCOL.md), each once.
//!
//! Each limit is one constant here. Code compares with it, clauses name it, and the definitions of the crates above
//! import it from `specs.declared.TheConstants`. So the number stands in no other file of `src/` or `specs/`.
//! [`numbers`] states each number, so that none changes unnoticed. To change a limit, change its constant, its clause
//! in [`numbers`], and docs/PROTOCOL.md.
//!
//! This is the lowest crate of the service and depends on no other. It also holds what all layers above share: the
//! definitions of octets (`specs/Octets.antt`) and of 64-bit counters (`specs/Counts.antt`), and [`Items`], a vector
//! that contracts see as a list, such as [`Octets`].
//!
//! ```rust
//! // crates/hdl_vectors/src/names.rt
//! let kept = Octets::new(Vec::from_slice(rt.alloc(), octets)?);
//! put_hex(rt, "kept", kept.as_slice())?;
//! put_hex(rt, "given back", &kept.into_vec())
//! ```
#![tactic(auto)]

mod items;

ghost use Rattle.std.specs.Prelude.{◌≡◌, ◌≤◌, ◌<◌, ◌*◌, ◌-◌};

pub use items::{Items, Octets};

/// The number of lanes, and so the maximum of all publishers together.
pub const LANES: usize = 64;

/// The maximum length of a publisher's name, in octets.
pub const PUBLISHER_NAME_MAX: usize = 32;

/// The maximum of challenges of a lane that wait for their responses.
pub const CHALLENGES_MAX: usize = 8;

/// How long a challenge is valid, in milliseconds.
pub const CHALLENGE_LIFE_MILLIS: u64 = 60_000;

/// The maximum of partial messages of a lane.
pub const PARTIALS_MAX: usize = 4;

/// The maximum of peers of a worker. They are numbered from 1.
pub const PEERS_MAX: usize = 1_024;

/// The maximum of frames of a datagram lane that are being served: their replies aren't complete yet.
pub const UNDER_WAY_MAX: usize = 16;

/// The maximum length of a message without its envelope, in octets.
pub const MESSAGE_MAX: u32 = 65_536;

/// The length of each piece of a message but the last, in octets.
pub const PIECE_LEN: u32 = 492;

/// The number of pieces of the longest message.
pub const PIECES_MAX: u32 = (MESSAGE_MAX + PIECE_LEN - 1) / PIECE_LEN;

/// The maximum length of a handle's name, in octets.
pub const NAME_MAX: usize = 2_048;

/// The maximum length of a value's type, in octets.
pub const TYPE_MAX: usize = 255;

/// The maximum length of a value's data, in octets.
pub const DATA_MAX: usize = 32_768;

/// The maximum of references of a value.
pub const REFERENCES_MAX: u32 = 64;

/// The maximum of values of a handle.
pub const VALUES_MAX: usize = 1_024;

/// The maximum of values, or of indexes, that one request may write.
pub const WRITTEN_MAX: usize = 256;

/// The maximum of masks of administrators that are cached.
pub const MASKS_MAX: usize = 256;

/// `PIECES_MAX` pieces hold the longest message, and one piece fewer doesn't.
pub fn pieces_hold_a_message()
    ensures enough { MESSAGE_MAX ≤ PIECES_MAX * PIECE_LEN }
    ensures no_more { (PIECES_MAX - 1) * PIECE_LEN < MESSAGE_MAX }
{}

/// The number of each limit. docs/PROTOCOL.md, "Limits", lists those that clients see.
pub fn numbers()
    ensures lanes { LANES ≡ 64 }
    ensures publisher_name { PUBLISHER_NAME_MAX ≡ 32 }
    ensures challenges { CHALLENGES_MAX ≡ 8 }
    ensures challenge_life { CHALLENGE_LIFE_MILLIS ≡ 60000 }
    ensures partials { PARTIALS_MAX ≡ 4 }
    ensures peers { PEERS_MAX ≡ 1024 }
    ensures under_way { UNDER_WAY_MAX ≡ 16 }
    ensures message { MESSAGE_MAX ≡ 65536 }
    ensures piece { PIECE_LEN ≡ 492 }
    ensures pieces { PIECES_MAX ≡ 134 }
    ensures name { NAME_MAX ≡ 2048 }
    ensures kind { TYPE_MAX ≡ 255 }
    ensures data { DATA_MAX ≡ 32768 }
    ensures references { REFERENCES_MAX ≡ 64 }
    ensures values { VALUES_MAX ≡ 1024 }
    ensures written { WRITTEN_MAX ≡ 256 }
    ensures masks { MASKS_MAX ≡ 256 }
{}
