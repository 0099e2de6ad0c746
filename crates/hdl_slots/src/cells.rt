//! The slots of all lanes, in one slab.

ghost use Rattle.std.specs.Prelude.{◌≡◌, ◌<◌, ℕ, length, option_copied, replicate, slice_set, slice_index, IfOk};
ghost use Rattle.slab.specs.Slab.{get};

use crate::pending::Challenge;
use hdl_limits::{CHALLENGES_MAX, LANES};
use slab::Slab;
use std::alloc::{AllocError, Global};
use std::marker::Model;
use std::mem;

/// One slot. It has its lane and its place, so the cells of two places are never equal.
#[derive(Drop)]
struct Cell {
    lane: usize,
    place: usize,
    challenge: Option<Challenge>,
}

/// 64 lanes of eight slots. The slots are made once, in one slab, and written in place. The table has the key of each.
#[derive(Drop)]
pub(crate) struct Cells {
    slab: Slab<Cell>,
    keys: Vec<[usize; CHALLENGES_MAX]>,
}

impl Model for Cells {
    ghost use Rattle.std.specs.Prelude.{List, Option};
    ghost use Rattle.hdl_slots.specs.declared.pending.Challenge.{Challenge};

    ghost Value = { List (List (Option Challenge)) };

    ghost use Rattle.hdl_slots.specs.Cells.{lanes_held, IsTable};

    ghost view = { λ c. lanes_held c.slab c.keys.items };

    ghost invariant = { λ c. IsTable c.slab c.keys.items };
}

impl Cells {
    ghost use Rattle.hdl_slots.specs.Places.{places_of, at_place};
    ghost use Rattle.hdl_slots.specs.Cells.{empty_cell};

    /// Empty slots for every lane.
    pub(crate) fn new(alloc: Global) -> Result<Cells, AllocError>
        ensures { IfOk result (λ cells. cells ≡ replicate LANES (replicate CHALLENGES_MAX None)) }
    {
        let mut slab = Slab::with_capacity(alloc, LANES * CHALLENGES_MAX)?;
        let mut keys = Vec::with_capacity(alloc, LANES)?;
        for lane in 0..LANES {
            keys.push(Cells::lane_keys(&mut slab, lane)?)?;
        }
        Ok(Cells { slab, keys })
    }

    /// The challenge in this place of this lane.
    pub(crate) fn at(&self, lane: usize, place: usize) -> Option<&Challenge>
        requires lane { lane < LANES }
        requires place { place < CHALLENGES_MAX }
        ensures { option_copied result ≡ at_place self.now lane place }
    {
        let key = self.keys[lane][place];
        self.slab[key].challenge.as_ref()
    }

    /// Writes this place of this lane, and returns the old contents.
    pub(crate) fn replace(
        &mut self,
        lane: usize,
        place: usize,
        challenge: Option<Challenge>,
    ) -> Option<Challenge>
        requires lane { lane < LANES }
        requires place { place < CHALLENGES_MAX }
        ensures was { result ≡ at_place self.old lane place }
        ensures cells { self.new ≡ slice_set self.old lane (slice_set (places_of self.old lane) place challenge) }
    {
        let key = self.keys[lane][place];
        let cell = &mut self.slab[key];
        mem::replace(&mut cell.challenge, challenge)
    }

    /// Makes a lane's cells, and returns their keys.
    fn lane_keys(slab: &mut Slab<Cell>, lane: usize) -> Result<[usize; CHALLENGES_MAX], AllocError>
        ensures places { IfOk result (λ keys. length keys ≡ CHALLENGES_MAX) }
        ensures made { IfOk result (λ keys. (place : ℕ) → place < CHALLENGES_MAX → get slab.new (slice_index keys place) ≡ Some (empty_cell lane place)) }
        ensures kept { (key : ℕ) (cell : Cell) → get slab.old key ≡ Some cell → get slab.new key ≡ Some cell }
    {
        let mut keys = [0; CHALLENGES_MAX];
        for place in 0..CHALLENGES_MAX {
            keys[place] = slab.insert(Cell {
                lane,
                place,
                challenge: None,
            })?;
        }
        Ok(keys)
    }
}
