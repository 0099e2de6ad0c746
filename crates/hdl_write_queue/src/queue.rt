//! The lanes that wait for their writes.

ghost use Rattle.std.specs.Prelude.{◌≡◌, ◌⊎◌, ◌||◌, not, IsTrue, IsFalse, IfOk, Some, None};
ghost use Rattle.hdl_write_queue.specs.Waiting.{is_asked, is_turn, owner_after, owner_without, turn_of, with_lane, without_lane};

use std::alloc::{AllocError, Global};
use std::marker::Model;

/// The lanes whose next event waits for its write, in the order in which they came, and the lane to which the table
/// owes a write. Only one lane may write: the one to which a write is owed, or else the first that waits.
#[derive(Drop)]
pub struct WriteQueue {
    waiting: Vec<u16>,
    /// The lane to which the table owes a write: the step of its event handed it over.
    owner: Option<u16>,
}

impl Model for WriteQueue {
    ghost use Rattle.hdl_write_queue.specs.Waiting.{Waiting};

    ghost Value = { Waiting };

    ghost view = { λ q. record { lanes = q.waiting.items; owner = q.owner } };
}

impl WriteQueue {
    ghost use Rattle.std.specs.Prelude.{[]};

    /// A queue in which no lane waits.
    pub fn new(alloc: Global) -> WriteQueue
        ensures { result ≡ record { lanes = []; owner = None } }
    {
        WriteQueue {
            waiting: Vec::new(alloc),
            owner: None,
        }
    }

    /// A queue in which no lane waits, with room for `lanes`. Refused only if memory is refused.
    pub fn with_capacity(alloc: Global, lanes: usize) -> Result<WriteQueue, AllocError>
        ensures empty { IfOk result (λ queue. queue ≡ record { lanes = []; owner = None }) }
    {
        Ok(WriteQueue {
            waiting: Vec::with_capacity(alloc, lanes)?,
            owner: None,
        })
    }

    /// The lane that may write next: the one to which a write is owed, or else the first that waits. `None` if no lane
    /// waits.
    pub fn turn(&self) -> Option<u16>
        ensures { result ≡ turn_of self.now }
    {
        match self.owner {
            Some(owner) => Some(owner),
            None => self.waiting.first().copied(),
        }
    }

    /// Whether the lane may write now: it is the next, or no lane waits.
    pub fn is_turn(&self, lane: u16) -> bool
        ensures { result ≡ is_turn self.now lane }
    {
        match self.owner {
            Some(owner) => owner == lane,
            None => match self.waiting.first() {
                Some(first) => *first == lane,
                None => true,
            },
        }
    }

    /// Whether the lane's next event is served now. If the lane waits, it is served once no write is being made and it
    /// is the lane's turn.
    pub fn is_asked(&self, lane: u16, is_under_way: bool) -> bool
        ensures { result ≡ is_asked self.now lane is_under_way }
    {
        !self.waiting.contains(&lane) || !is_under_way && self.is_turn(lane)
    }

    /// Whether the event of the lane, whose step was answered busy, stays. It stays while the table owes a write,
    /// whatever the step was busy for. It also stays if it wasn't the lane's turn. Then the lane waits: in its old
    /// place, or else after those that wait already, if there is room.
    pub fn stays(&mut self, lane: u16, owes: bool) -> bool
        ensures stays { result ≡ (owes || not (is_turn self.old lane)) }
        ensures waits { (self.new.lanes ≡ with_lane self.old.lanes lane) ⊎ (self.new.lanes ≡ self.old.lanes) }
        ensures unchanged { IsFalse result → self.new.lanes ≡ self.old.lanes }
        ensures owner { self.new.owner ≡ owner_after self.old.owner lane owes }
    {
        let stays = owes || !self.is_turn(lane);
        self.note_owed(lane, owes);
        if stays && !self.waiting.contains(&lane) {
            let _ = self.waiting.push(lane);
        }
        stays
    }

    /// Notes, after a step of this lane, whether the table owes a write.
    fn note_owed(&mut self, lane: u16, owes: bool)
        ensures { self.new ≡ record self.old { owner = owner_after self.old.owner lane owes } }
    {
        if !owes {
            self.owner = None;
        } else if self.owner.is_none() {
            self.owner = Some(lane);
        }
    }

    /// The lane no longer waits.
    fn leave(&mut self, lane: u16)
        ensures { self.new ≡ record self.old { lanes = without_lane self.old.lanes lane } }
    {
        self.waiting.retain(|waits| *waits != lane);
    }

    /// If a write was owed to the lane, it no longer is.
    fn release(&mut self, lane: u16)
        ensures { self.new ≡ record self.old { owner = owner_without self.old.owner lane } }
    {
        let Some(owner) = self.owner else {
            return;
        };
        if owner == lane {
            self.owner = None;
        }
    }

    /// Notes that the lane's event has its outcome: the lane no longer waits, and no write is owed to it.
    pub fn note_outcome(&mut self, lane: u16)
        ensures { self.new ≡ record self.old { lanes = without_lane self.old.lanes lane; owner = owner_without self.old.owner lane } }
    {
        self.leave(lane);
        self.release(lane);
    }
}
