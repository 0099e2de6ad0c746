//! The partial messages of all lanes.

ghost use Rattle.std.specs.Prelude.{◌≡◌, ◌<◌, [], true, replicate, slice_set, OnOk, OnErr, IfOk};
ghost use Rattle.hdl_frame.specs.Envelope.{envelope_at, is_truncated};
ghost use Rattle.hdl_frame.specs.Splitting.{IsFrameOf};
ghost use Rattle.hdl_pool.specs.Partial.{key_of, piece_of};
ghost use Rattle.hdl_pool.specs.Taking.{lane_at, take_piece, free_partial, fate_of};

use crate::cells::Cells;
use crate::piece::{Arrival, MessageKey};
use crate::taken::{PoolFault, Taken};
use hdl_frame::{Envelope, Frame};
use hdl_limits::LANES;
use std::alloc::{AllocError, Global};
use std::marker::Model;

/// The partial messages of all lanes, at most four of each. Contracts see a list of 64 lanes; each lane is the list of
/// its partial messages, the oldest first.
#[derive(Drop)]
pub struct Pool {
    alloc: Global,
    cells: Cells,
}

impl Model for Pool {
    ghost use Rattle.std.specs.Prelude.{List};
    ghost use Rattle.hdl_pool.specs.Partial.{Partial};
    ghost use Rattle.hdl_pool.specs.Cells.{lanes_of, AreFours};

    ghost Value = { List (List Partial) };

    ghost view = { λ p. lanes_of p.cells };

    ghost invariant = { λ p. AreFours p.cells };
}

impl Pool {
    /// A pool of empty slots, which are written in place from then on. Refused only if memory is refused.
    pub fn new(alloc: Global) -> Result<Pool, AllocError>
        ensures ok { IfOk result (λ pool. pool ≡ replicate LANES []) }
    {
        let cells = Cells::new(alloc)?;
        Ok(Pool { alloc, cells })
    }

    /// Takes a piece: a frame with TC of this lane and peer (RFC 3652, section 2.3, in our profile). Its message is
    /// that of the lane, the peer, and the envelope's SessionId and RequestId.
    ///
    /// A piece is ignored if its number came before, or if its MessageLength differs from that of the pieces before it.
    /// If a piece makes its message whole, the call returns a copy of the message, and the pool stays as it was. So the
    /// caller can still abandon this event; [`Pool::free`] drops the pieces that came before. A message in one piece is
    /// whole at once. If the lane has four partial messages, a piece of a fifth displaces the oldest. An `Err` means
    /// that memory was refused, and changes nothing.
    pub fn take(&mut self, lane: u16, peer: u16, frame: &Frame<'_>) -> Result<Taken, PoolFault>
        requires lane { lane < LANES }
        requires frame { IsFrameOf frame.now.bytes.now frame.now }
        requires piece { is_truncated (envelope_at frame.now.bytes.now) ≡ true }
        ensures fate { IfOk result (λ t. fate_of t ≡ (take_piece (lane_at self.old lane) (piece_of peer frame.now.bytes.now)).0) }
        ensures lanes { OnOk result (self.new ≡ slice_set self.old lane (take_piece (lane_at self.old lane) (piece_of peer frame.now.bytes.now)).1) }
        ensures unchanged { OnErr result (self.new ≡ self.old) }
    {
        let piece = Arrival::of(peer, frame);
        Ok(self.cells.take(self.alloc, lane as usize, piece)?)
    }

    /// Drops the pieces of the message with this peer and envelope, if any came. Takes no memory.
    pub fn free(&mut self, lane: u16, peer: u16, envelope: &Envelope)
        requires { lane < LANES }
        ensures lanes { self.new ≡ slice_set self.old lane (free_partial (lane_at self.old lane) (key_of peer envelope.now)) }
    {
        self.cells
            .free(lane as usize, MessageKey::of(peer, envelope));
    }

    /// Drops all partial messages of the lane. Takes no memory.
    pub fn drop_lane(&mut self, lane: u16)
        requires { lane < LANES }
        ensures lanes { self.new ≡ slice_set self.old lane [] }
    {
        self.cells.clear(lane as usize);
    }
}
