//! Whose lanes are asked in a round, and in which order.

ghost use Rattle.std.specs.Prelude.{◌≡◌};

use hdl_core::{Machine, Owing};
use hdl_workers::LaneEnds;
use std::alloc::{AllocError, Global};

/// What was seen as a round began, first of the table and then of the news.
#[derive(Clone, Copy, Debug, PartialEq, Eq, Drop)]
pub(crate) struct Seen {
    /// Whether the table owed a write that had ended. No other is claimed in this round: the news are looked at behind the end of a write and before it is claimed.
    pub(crate) has_ended: bool,
    /// Whether a change of other servers waits. Then no write begins, and an event that is answered busy stays.
    pub(crate) is_behind: bool,
    /// Whether nobody can say when the table's write will have ended. Then each event that waits for it is answered busy, but its own.
    pub(crate) is_cut: bool,
}

impl Seen {
    /// Nothing was owed, and nothing waits.
    pub(crate) const NOTHING: Seen = Seen {
        has_ended: false,
        is_behind: false,
        is_cut: false,
    };
}

/// A publisher's share of each round. Its lanes stand next to each other, and are asked one after another, from the one after that at which its last turn ended.
#[derive(Drop)]
pub(crate) struct TimeSlice {
    /// Where copies of events are made.
    pub(crate) alloc: Global,
    first: usize,
    last: usize,
    /// The place of the lane that is asked next.
    pub(crate) next: usize,
    /// How many events each lane gives at most in this turn.
    pub(crate) most: u64,
    /// What was seen as this round began.
    pub(crate) seen: Seen,
    /// The moment at which this turn began.
    began: u64,
}

impl TimeSlice {
    /// The share of one lane.
    fn at(alloc: Global, place: usize) -> TimeSlice {
        TimeSlice {
            alloc,
            first: place,
            last: place,
            next: place,
            most: 0,
            seen: Seen::NOTHING,
            began: 0,
        }
    }

    /// The place after this one. After the last one comes the first.
    pub(crate) fn behind(&self, place: usize) -> usize {
        if place < self.last {
            place + 1
        } else {
            self.first
        }
    }

    /// A turn begins at this moment, in which each lane gives `most` events at most.
    pub(crate) fn begin(&mut self, most: u64, seen: Seen, moment: u64)
        ensures most { self.new.most ≡ most }
    {
        self.most = most;
        self.seen = seen;
        self.began = moment;
    }

    /// Whether the turn is over at this moment: the clock, which counts milliseconds, went on.
    pub(crate) fn is_over(&self, moment: u64) -> bool {
        moment != self.began
    }
}

/// The shares of all publishers.
#[derive(Drop)]
pub(crate) struct Schedule {
    pub(crate) alloc: Global,
    pub(crate) shares: Vec<TimeSlice>,
    /// How many events each lane gives at most in the next round.
    pub(crate) most: u64,
    /// What was seen as this round began.
    pub(crate) seen: Seen,
}

impl Schedule {
    /// A rota without shares.
    pub(crate) fn new(alloc: Global) -> Schedule {
        Schedule {
            alloc,
            shares: Vec::new(alloc),
            most: 0,
            seen: Seen::NOTHING,
        }
    }

    /// Shares the lanes out, once: those that stand next to each other and have one owner make one share.
    pub(crate) fn assign_lanes<R: Owing + Drop>(
        &mut self,
        machine: &Machine<R>,
        lanes: &[LaneEnds],
    ) -> Result<(), AllocError>
        ensures most { self.new.most ≡ self.old.most }
    {
        if self.shares.is_empty() {
            self.shares = shares_of(self.alloc, machine, lanes)?;
        }
        Ok(())
    }
}

/// A share for each stretch of lanes that have one owner.
fn shares_of<R: Owing + Drop>(
    alloc: Global,
    machine: &Machine<R>,
    lanes: &[LaneEnds],
) -> Result<Vec<TimeSlice>, AllocError> {
    let mut shares = Vec::new(alloc);
    let mut owner = None;
    for (place, ends) in lanes.iter().enumerate() {
        let of = machine.owner(ends.lane);
        if shares.is_empty() || of != owner {
            shares.push(TimeSlice::at(alloc, place))?;
            owner = of;
        }
        if let Some(share) = shares.last_mut() {
            share.last = place;
        }
    }
    Ok(shares)
}
