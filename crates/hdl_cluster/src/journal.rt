//! The journal whose writes a thread puts into etcd.

ghost use Rattle.std.specs.Prelude.{◌≡◌};
ghost use Rattle.hdl_lanes.specs.Lane.{taken_from};
ghost use Rattle.hdl_durablerows.specs.Writes.{write_of};
ghost use Rattle.hdl_journalrows.specs.Told.{Tells};
ghost use Rattle.hdl_cluster.specs.Told.{told_by};

use hdl_change_list::ClusterStatus;
use hdl_durablerows::{OwnedWrite, Write, WriteState};
use hdl_journalrows::Journal;
use hdl_lanes::{Inlet, Outlet};
use std::alloc::{AllocError, Global};
use std::sync::Arc;
use std::sync::atomic::AtomicBool;
use std::sync::atomic::Ordering::SeqCst;

/// A write that stands in the list of changes.
#[derive(Drop)]
pub struct Written {
    pub write: OwnedWrite,
    /// The number of its entry.
    pub number: u64,
    /// Whether it is the last write of its entry.
    pub is_last: bool,
    /// Whether this server put it.
    pub is_own: bool,
}

/// A write that is to be put behind so many entries.
#[derive(Drop)]
pub struct Order {
    pub write: OwnedWrite,
    pub number: u64,
    /// It is set once it is known whether the write stands there.
    pub ended: Arc<AtomicBool>,
}

/// The list of changes in etcd, as the table of this server has it. A thread of its own brings what stands there, by a ring, and puts what is ordered.
#[derive(Drop)]
pub struct EtcdJournal {
    alloc: Global,
    written: Outlet<Written>,
    orders: Inlet<Order>,
    /// The number of the last entry of which a write was taken, and whether all of its writes were.
    number: u64,
    is_whole: bool,
    /// The flag of the write that is under way.
    ended: Option<Arc<AtomicBool>>,
    /// Whether the next change of others was offered to the table.
    is_offered: Arc<AtomicBool>,
    standing: Arc<ClusterStatus>,
}

impl EtcdJournal {
    /// A journal that has told nothing yet.
    pub(crate) fn new(
        alloc: Global,
        written: Outlet<Written>,
        orders: Inlet<Order>,
        is_offered: Arc<AtomicBool>,
        standing: Arc<ClusterStatus>,
    ) -> EtcdJournal
        ensures { result.written ≡ written }
    {
        EtcdJournal {
            alloc,
            written,
            orders,
            number: 0,
            is_whole: true,
            ended: None,
            is_offered,
            standing,
        }
    }

    /// Takes the next write that stands in the list, if it is this one: this server's own, or another's.
    fn take(&mut self, write: &Write<'_>, is_own: bool) -> WriteState
        ensures tells { Tells result (told_by (taken_from self.old.written)) (told_by (taken_from self.new.written)) (write_of write.now) }
    {
        if !self.written.has_item() {
            return WriteState::Refused;
        }
        let next = self.written.front();
        if next.is_own != is_own || !next.write.is(write) {
            return WriteState::Refused;
        }
        let taken = self.written.take_front();
        self.number = taken.number;
        self.is_whole = taken.is_last;
        self.standing.note_taken(taken.number);
        WriteState::Made
    }

    /// A copy of the write, to be put behind what was taken, and its flag.
    fn ordered(&self, write: &Write<'_>) -> Result<(Order, Arc<AtomicBool>), AllocError> {
        let own = OwnedWrite::copy(self.alloc, write)?;
        let ended = Arc::new(self.alloc, AtomicBool::new(false))?;
        let theirs = Arc::try_clone(&ended)?;
        let order = Order {
            write: own,
            number: self.number,
            ended: theirs,
        };
        Ok((order, ended))
    }

    /// Has the write put behind what was taken.
    fn order(&mut self, write: &Write<'_>) -> WriteState
        ensures tells { Tells result (told_by (taken_from self.old.written)) (told_by (taken_from self.new.written)) (write_of write.now) }
    {
        let is_apart = self.standing.is_cut() || self.standing.has_diverged();
        if !self.is_whole || is_apart {
            return WriteState::Refused;
        }
        let Ok((order, ended)) = self.ordered(write) else {
            return WriteState::Refused;
        };
        match self.orders.put(order) {
            Ok(()) => {
                self.ended = Some(ended);
                WriteState::UnderWay
            }
            Err(_) => WriteState::Refused,
        }
    }
}

impl Journal for EtcdJournal {
    ghost use Rattle.hdl_lanes.specs.Lane.{taken_from};
    ghost use Rattle.hdl_cluster.specs.Told.{told_by};

    ghost told = { λ s. told_by (taken_from s.written) };

    fn begin(&mut self, write: &Write<'_>) -> WriteState {
        let is_offered = self.is_offered.swap(false, SeqCst);
        if is_offered {
            return self.take(write, false);
        }
        self.order(write)
    }

    fn end(&mut self, write: &Write<'_>) -> WriteState {
        if !self.has_ended() {
            return WriteState::UnderWay;
        }
        self.ended = None;
        self.take(write, true)
    }

    fn has_ended(&self) -> bool {
        match &self.ended {
            Some(ended) => ended.load(SeqCst),
            None => true,
        }
    }
}
