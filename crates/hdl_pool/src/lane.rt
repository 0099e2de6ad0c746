//! Calls on the cells of one lane.

ghost use Rattle.std.specs.Prelude.{◌≡◌, ◌<◌, [], position, slice_set, Some, None, OnOk, OnErr, IfOk, IfSome};
ghost use Rattle.hdl_pool.specs.Partial.{IsPiece};
ghost use Rattle.hdl_pool.specs.Taking.{lane_at, begin_partial, take_piece, free_partial, fate_of};
ghost use Rattle.hdl_pool.specs.Arrival.{piece_in};
ghost use Rattle.hdl_pool.specs.Cells.{AreFours, cells_at, cell_at, lanes_of, holds};

use crate::assembly::Assembly;
use crate::cells::Cells;
use crate::piece::{Arrival, MessageKey};
use crate::taken::Taken;
use hdl_limits::{LANES, PARTIALS_MAX, PIECE_LEN};
use std::alloc::{AllocError, Global};

impl Cells {
    /// Whether a cell has the partial message of this key.
    fn holds(&self, lane: usize, place: usize, key: MessageKey) -> bool
        requires lane { lane < LANES }
        requires place { place < PARTIALS_MAX }
        ensures { result ≡ holds key (cell_at self.now lane place) }
    {
        self.get(lane, place)
            .is_some_and(|partial| partial.is_of(key))
    }

    /// Replaces the contents of a cell.
    fn write(&mut self, lane: usize, place: usize, content: Option<Assembly>)
        requires lane { lane < LANES }
        requires place { place < PARTIALS_MAX }
        ensures { self.new ≡ slice_set self.old lane (slice_set (cells_at self.old lane) place content) }
    {
        self.replace(lane, place, content);
    }

    /// The cell of the lane with the partial message of this key.
    fn find(&self, lane: usize, key: MessageKey) -> Option<usize>
        requires lane { lane < LANES }
        requires fours { AreFours self.now }
        ensures first { result ≡ position (holds key) (cells_at self.now lane) }
        ensures within { IfSome result (λ place. place < PARTIALS_MAX) }
    {
        for place in 0..PARTIALS_MAX {
            if self.holds(lane, place, key) {
                return Some(place);
            }
        }
        None
    }

    /// Empties the cell with the partial message of this key, if there is one.
    pub(crate) fn free(&mut self, lane: usize, key: MessageKey)
        requires lane { lane < LANES }
        requires fours { AreFours self.old }
        ensures lanes { lanes_of self.new ≡ slice_set (lanes_of self.old) lane (free_partial (lane_at (lanes_of self.old) lane) key) }
        ensures fours { AreFours self.new }
    {
        for place in 0..PARTIALS_MAX {
            if self.holds(lane, place, key) {
                self.write(lane, place, None);
            }
        }
    }

    pub(crate) fn clear(&mut self, lane: usize)
        requires lane { lane < LANES }
        requires fours { AreFours self.old }
        ensures lanes { lanes_of self.new ≡ slice_set (lanes_of self.old) lane [] }
        ensures fours { AreFours self.new }
    {
        for place in 0..PARTIALS_MAX {
            self.write(lane, place, None);
        }
    }

    /// Inserts a partial message as the newest, in the last cell. Each older one moves one cell to the front, until an
    /// empty cell takes one. If no cell is empty, the oldest is dropped.
    fn store(&mut self, lane: usize, first: Assembly) -> Taken
        requires lane { lane < LANES }
        requires fours { AreFours self.old }
        ensures fate { fate_of result ≡ (begin_partial (lane_at (lanes_of self.old) lane) first).0 }
        ensures lanes { lanes_of self.new ≡ slice_set (lanes_of self.old) lane (begin_partial (lane_at (lanes_of self.old) lane) first).1 }
        ensures fours { AreFours self.new }
    {
        let mut carried = Some(first);
        let mut place = PARTIALS_MAX;
        while place > 0 && carried.is_some() {
            place -= 1;
            carried = self.replace(lane, place, carried);
        }
        if carried.is_some() {
            Taken::Displaced
        } else {
            Taken::Kept
        }
    }

    /// Takes a piece of the partial message in this cell.
    fn grow(
        &mut self,
        alloc: Global,
        lane: usize,
        place: usize,
        piece: Arrival<'_>,
    ) -> Result<Taken, AllocError>
        requires lane { lane < LANES }
        requires place { place < PARTIALS_MAX }
        requires fours { AreFours self.old }
        requires piece { IsPiece (piece_in piece) }
        requires found { Some place ≡ position (holds piece.key) (cells_at self.old lane) }
        ensures fate { IfOk result (λ t. fate_of t ≡ (take_piece (lane_at (lanes_of self.old) lane) (piece_in piece.entry)).0) }
        ensures lanes { OnOk result (lanes_of self.new ≡ slice_set (lanes_of self.old) lane
            (take_piece (lane_at (lanes_of self.old) lane) (piece_in piece.entry)).1) }
        ensures unchanged { OnErr result (self.new ≡ self.old) }
        ensures fours { AreFours self.new }
    {
        let Some(mut partial) = self.replace(lane, place, None) else {
            return Ok(Taken::Ignored);
        };
        let taken = partial.take(alloc, piece);
        self.write(lane, place, Some(partial));
        taken
    }

    /// Takes the first piece of a message.
    fn begin(&mut self, alloc: Global, lane: usize, piece: Arrival<'_>) -> Result<Taken, AllocError>
        requires lane { lane < LANES }
        requires fours { AreFours self.old }
        requires piece { IsPiece (piece_in piece) }
        requires new { None ≡ position (holds piece.key) (cells_at self.old lane) }
        ensures fate { IfOk result (λ t. fate_of t ≡ (take_piece (lane_at (lanes_of self.old) lane) (piece_in piece.entry)).0) }
        ensures lanes { OnOk result (lanes_of self.new ≡ slice_set (lanes_of self.old) lane
            (take_piece (lane_at (lanes_of self.old) lane) (piece_in piece.entry)).1) }
        ensures unchanged { OnErr result (self.new ≡ self.old) }
        ensures fours { AreFours self.new }
    {
        if piece.message_len <= PIECE_LEN {
            return Ok(Taken::Whole(Vec::from_slice(alloc, piece.payload)?));
        }
        let mut first = Assembly::new(alloc, piece.key, piece.message_len)?;
        match first.take(alloc, piece)? {
            Taken::Kept => Ok(self.store(lane, first)),
            taken => Ok(taken),
        }
    }

    /// Takes a piece. An `Err` changes nothing.
    pub(crate) fn take(
        &mut self,
        alloc: Global,
        lane: usize,
        piece: Arrival<'_>,
    ) -> Result<Taken, AllocError>
        requires lane { lane < LANES }
        requires fours { AreFours self.old }
        requires piece { IsPiece (piece_in piece) }
        ensures fate { IfOk result (λ t. fate_of t ≡ (take_piece (lane_at (lanes_of self.old) lane) (piece_in piece.entry)).0) }
        ensures lanes { OnOk result (lanes_of self.new ≡ slice_set (lanes_of self.old) lane
            (take_piece (lane_at (lanes_of self.old) lane) (piece_in piece.entry)).1) }
        ensures unchanged { OnErr result (self.new ≡ self.old) }
        ensures fours { AreFours self.new }
    {
        match self.find(lane, piece.key) {
            Some(place) => self.grow(alloc, lane, place, piece),
            None => self.begin(alloc, lane, piece),
        }
    }
}
