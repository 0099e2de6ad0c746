//! The pending challenges of all lanes.

ghost use Rattle.std.specs.Prelude.{◌≡◌, ◌<◌, option_copied, replicate, slice_set, IfOk};
ghost use Rattle.hdl_slots.specs.Lanes.{fresh, lane_at, add_challenge, challenge_of, spend_challenge};

use crate::cells::Cells;
use crate::lane;
use crate::pending::{Challenge, Pending};
use hdl_limits::LANES;
use std::alloc::{AllocError, Global};
use std::marker::Model;

/// Room for eight challenges on each lane: 512 slots of one slab, which are made once and written in place. Contracts
/// see the list of the states of the 64 lanes.
#[derive(Drop)]
pub struct Slots {
    // Each lane's next number.
    numbers: Vec<u32>,
    cells: Cells,
}

impl Model for Slots {
    ghost use Rattle.std.specs.Prelude.{List};
    ghost use Rattle.hdl_slots.specs.Lanes.{LaneState};
    ghost use Rattle.hdl_slots.specs.Places.{states, AreLanes};

    ghost Value = { List LaneState };

    ghost view = { λ s. states s.numbers.items s.cells };

    ghost invariant = { λ s. AreLanes s.numbers.items s.cells };
}

impl Slots {
    /// Empty slots. Each lane's next number is 1. Refused only if memory is refused.
    pub fn new(alloc: Global) -> Result<Slots, AllocError>
        ensures ok { IfOk result (λ slots. slots ≡ replicate LANES fresh) }
    {
        let numbers = vec![in alloc; 1; LANES]?;
        let cells = Cells::new(alloc)?;
        Ok(Slots { numbers, cells })
    }

    /// The number of the lane's next challenge.
    pub fn next_number(&self, lane: u16) -> u32
        requires { lane < LANES }
        ensures number { result ≡ (lane_at self.now lane).next }
    {
        self.numbers[lane as usize]
    }

    /// Stores a challenge under the lane's next number, and returns that number. A pending challenge with this number
    /// is dropped first; a ninth challenge displaces the lane's oldest.
    pub fn put(&mut self, lane: u16, pending: Pending) -> u32
        requires { lane < LANES }
        ensures number { result ≡ (lane_at self.old lane).next }
        ensures slots { self.new ≡ slice_set self.old lane (add_challenge (lane_at self.old lane) pending) }
    {
        let lane = lane as usize;
        let number = self.numbers[lane];
        lane::forget(&mut self.cells, lane, number);
        lane::push(&mut self.cells, lane, Challenge { number, pending });
        self.numbers[lane] = lane::next_after(number);
        number
    }

    /// The pending challenge of this lane, peer and number.
    pub fn find(&self, lane: u16, peer: u16, number: u32) -> Option<&Pending>
        requires { lane < LANES }
        ensures found { option_copied result ≡ challenge_of (lane_at self.now lane).challenges peer number }
    {
        lane::find(&self.cells, lane as usize, peer, number)
    }

    /// Removes and returns the pending challenge of this lane, peer and number.
    pub fn take(&mut self, lane: u16, peer: u16, number: u32) -> Option<Pending>
        requires { lane < LANES }
        ensures found { result ≡ challenge_of (lane_at self.old lane).challenges peer number }
        ensures slots { self.new ≡ slice_set self.old lane (spend_challenge (lane_at self.old lane) peer number) }
    {
        lane::take(&mut self.cells, lane as usize, peer, number)
    }

    /// Drops the lane's challenges. Its numbers start at 1 again.
    pub fn drop_lane(&mut self, lane: u16)
        requires { lane < LANES }
        ensures slots { self.new ≡ slice_set self.old lane fresh }
    {
        let lane = lane as usize;
        lane::clear(&mut self.cells, lane);
        self.numbers[lane] = 1;
    }
}
