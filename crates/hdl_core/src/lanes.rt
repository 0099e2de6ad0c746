//! What is kept of all lanes.

ghost use Rattle.std.specs.Prelude.{◌≡◌, ◌≤◌, ◌<◌, true, length, option_copied, IfOk, OnOk, OnErr};
ghost use Rattle.hdl_frame.specs.Envelope.{envelope_at, is_truncated};
ghost use Rattle.hdl_frame.specs.Splitting.{IsFrameOf};
ghost use Rattle.hdl_pool.specs.Partial.{key_of, piece_of};
ghost use Rattle.hdl_pool.specs.Taking.{take_piece, free_partial, fate_of};
ghost use Rattle.hdl_slots.specs.Lanes.{add_challenge, challenge_of, spend_challenge};
ghost use Rattle.hdl_laws.specs.Lanes.{fresh, with_partials};
ghost use Rattle.hdl_core.specs.Held.{held_at, state_at, with_state};

use crate::lane::Lane;
use hdl_frame::{Envelope, Frame};
use hdl_limits::LANES;
use hdl_pool::{Pool, PoolFault, Taken};
use hdl_slots::{Pending, Slots};
use std::alloc::{AllocError, Global};
use std::marker::Model;

/// The lanes of all publishers, with their partial messages and pending challenges. Contracts see of each lane its publisher and
/// its state; each call is one equation on one lane.
#[derive(Drop)]
pub(crate) struct Lanes {
    lanes: Vec<Lane>,
    pool: Pool,
    slots: Slots,
}

impl Model for Lanes {
    ghost use Rattle.std.specs.Prelude.{◌≡◌, ◌≤◌, List, length};
    ghost use Rattle.hdl_limits.specs.declared.TheConstants.{LANES};
    ghost use Rattle.hdl_core.specs.Held.{Held, held_lanes};

    ghost Value = { List Held };

    ghost view = { λ s. held_lanes s.lanes.items s.pool s.slots };

    ghost invariant = { λ s. (length s.lanes.items ≤ LANES) × (length s.pool ≡ LANES) × (length s.slots ≡ LANES) };
}

impl Lanes {
    ghost use Rattle.hdl_core.specs.Opening.{closed_lanes};

    /// These lanes, with nothing kept of any of them. Refused only for want of memory.
    pub(crate) fn new(alloc: Global, lanes: Vec<Lane>) -> Result<Lanes, AllocError>
        requires few { length lanes.items ≤ LANES }
        ensures { IfOk result (λ all. all ≡ closed_lanes lanes.items) }
    {
        let pool = Pool::new(alloc)?;
        let slots = Slots::new(alloc)?;
        Ok(Lanes { lanes, pool, slots })
    }

    /// How many there are.
    pub(crate) fn len(&self) -> usize
        ensures { result ≡ length self.now }
    {
        self.lanes.len()
    }

    /// Whose lane it is.
    pub(crate) fn publisher(&self, lane: u16) -> usize
        requires there { lane < length self.now }
        ensures { result ≡ (held_at self.now lane).publisher }
    {
        self.lanes[lane as usize].publisher
    }

    /// Whether a connection is open on the lane.
    pub(crate) fn is_open(&self, lane: u16) -> bool
        requires there { lane < length self.now }
        ensures { result ≡ (state_at self.now lane).is_open }
    {
        self.lanes[lane as usize].is_open
    }

    /// Forgets all that is kept of the lane, which is then open or closed.
    pub(crate) fn reset(&mut self, lane: u16, is_open: bool)
        requires there { lane < length self.old }
        ensures { self.new ≡ with_state self.old lane (fresh is_open) }
    {
        self.lanes[lane as usize].is_open = is_open;
        self.pool.drop_lane(lane);
        self.slots.drop_lane(lane);
    }

    /// Takes a piece of a message. Where it makes its message whole, the lane stays as it was, and so it does on a refusal.
    pub(crate) fn take_piece(
        &mut self,
        lane: u16,
        peer: u16,
        frame: &Frame<'_>,
    ) -> Result<Taken, PoolFault>
        requires there { lane < length self.old }
        requires frame { IsFrameOf frame.now.bytes.now frame.now }
        requires piece { is_truncated (envelope_at frame.now.bytes.now) ≡ true }
        ensures fate { IfOk result (λ t. fate_of t ≡ (take_piece (state_at self.old lane).partials (piece_of peer frame.now.bytes.now)).0) }
        ensures lanes { OnOk result (self.new ≡ with_state self.old lane (with_partials (state_at self.old lane) (take_piece (state_at self.old lane).partials (piece_of peer frame.now.bytes.now)).1)) }
        ensures unchanged { OnErr result (self.new ≡ self.old) }
    {
        self.pool.take(lane, peer, frame)
    }

    /// Forgets what came of the message with this peer's envelope.
    pub(crate) fn free(&mut self, lane: u16, peer: u16, envelope: &Envelope)
        requires there { lane < length self.old }
        ensures { self.new ≡ with_state self.old lane (with_partials (state_at self.old lane) (free_partial (state_at self.old lane).partials (key_of peer envelope.now))) }
    {
        self.pool.free(lane, peer, envelope);
    }

    /// The number that the lane's next challenge gets.
    pub(crate) fn next_number(&self, lane: u16) -> u32
        requires there { lane < length self.now }
        ensures { result ≡ (state_at self.now lane).challenges.next }
    {
        self.slots.next_number(lane)
    }

    /// Puts a challenge under the lane's next number.
    pub(crate) fn challenge(&mut self, lane: u16, pending: Pending)
        requires there { lane < length self.old }
        ensures { self.new ≡ with_state self.old lane (record (state_at self.old lane) { challenges = add_challenge (state_at self.old lane).challenges pending }) }
    {
        self.slots.put(lane, pending);
    }

    /// What was sent on the lane to this peer under this number, if it's pending.
    pub(crate) fn find(&self, lane: u16, peer: u16, number: u32) -> Option<&Pending>
        requires there { lane < length self.now }
        ensures { option_copied result ≡ challenge_of (state_at self.now lane).challenges.challenges peer number }
    {
        self.slots.find(lane, peer, number)
    }

    /// Forgets what was sent on the lane to this peer under this number.
    pub(crate) fn spend(&mut self, lane: u16, peer: u16, number: u32)
        requires there { lane < length self.old }
        ensures { self.new ≡ with_state self.old lane (record (state_at self.old lane) { challenges = spend_challenge (state_at self.old lane).challenges peer number }) }
    {
        self.slots.take(lane, peer, number);
    }
}
