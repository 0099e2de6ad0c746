//! The lanes between two threads: a ring of fixed capacity, with an inlet on one side and an outlet on the other.
//!
//! ```text
//! one thread     put, has_room -> Inlet ==ring==> Outlet -> take, front  the other thread
//!                finish -> Ended ---------------> settle -> what is left
//! ```
//!
//! In contracts an inlet has the items that were put (`put_into`), and the number of further items for which it knows
//! to have room (`known_room`). An outlet has the items that were taken (`taken_from`), and those that it has seen
//! (`seen_in`). Each list has the oldest first. A put that succeeds appends to the items that were put. If the ring is
//! full, the item is returned and nothing was put. After [`Inlet::has_room`] returned true, the next put succeeds. A
//! take appends its item to those that were taken. An item that was seen can be read in place ([`Outlet::front`]) and
//! taken later. Once both ends are on one thread, [`Outlet::settle`] relates them: the items that were put are those
//! that were taken, followed by its result. So each item came once, and in order.
//!
//! None of the calls waits, and only [`lane`] takes memory. It depends on the kit's `rtrb`.
//!
//! ```rust
//! // crates/hdl_scripts/src/lanes/rings.rt
//! let room = self.inlet.has_room();
//! match self.inlet.put(item) {
//!     Ok(()) => write!(told, " {room}"),
//!     Err(full) => write!(told, " {room} {} back", full.0),
//! }
//! ```
#![tactic(auto)]

ghost use Rattle.std.specs.Prelude.{◌≡◌, ◌≤◌, ◌<◌, ◌+◌, ◌++◌, ◌∷◌, ◌↔◌, [], IfOk, IsOk, IfErr, OnOk, IsTrue};
ghost use Rattle.hdl_lanes.specs.Lane.{put_into, taken_from, known_room, AreEnds, IsEndOf, SameInlet};

mod outlet;

pub use outlet::Outlet;
use rtrb::{Producer, PushError, RingBuffer};
use std::alloc::{AllocError, Global};

/// The end that puts items.
#[derive(Drop)]
pub struct Inlet<T> {
    producer: Producer<T>,
}

/// An inlet that puts no more items. It goes to the thread that has the outlet.
#[derive(Drop)]
pub struct Ended<T> {
    pub(crate) producer: Producer<T>,
}

/// The ring was full. This is the item.
#[derive(Drop)]
pub struct Full<T>(pub T);

/// An empty lane with room for `capacity` items. It takes all its memory now: for the ring, and for the items that may
/// be left in it. If memory is refused, there is no lane.
pub fn lane<T: Drop>(alloc: Global, capacity: usize) -> Result<(Inlet<T>, Outlet<T>), AllocError>
    ensures ends { IfOk result (λ ends. AreEnds ends.0 ends.1) }
    ensures room { IfOk result (λ ends. known_room ends.0 ≡ capacity) }
    ensures empty { IfOk result (λ ends. (put_into ends.0 ≡ []) × (taken_from ends.1 ≡ [])) }
{
    let left = Vec::with_capacity(alloc, capacity)?;
    let (producer, consumer) = RingBuffer::new(alloc, capacity)?;
    Ok((Inlet { producer }, Outlet { consumer, left }))
}

impl<T: Drop> Inlet<T> {
    /// Puts an item, or returns it if the ring is full.
    pub fn put(&mut self, item: T) -> Result<(), Full<T>>
        ensures lane { SameInlet self.old self.new }
        ensures put { OnOk result ((put_into self.new ≡ put_into self.old ++ item ∷ []) × (known_room self.old ≤ known_room self.new + 1)) }
        ensures full { IfErr result (λ full. (full.0 ≡ item) × (put_into self.new ≡ put_into self.old) × (known_room self.new ≡ 0)) }
        ensures succeeds { 0 < known_room self.old → IsOk result }
    {
        match self.producer.push(item) {
            Ok(()) => Ok(()),
            Err(PushError::Full(item)) => Err(Full(item)),
        }
    }

    /// Whether the next put succeeds. If room is known, this reads only the inlet's own count; otherwise it reads the
    /// ring once.
    pub fn has_room(&mut self) -> bool
        ensures lane { SameInlet self.old self.new }
        ensures put { put_into self.new ≡ put_into self.old }
        ensures room { IsTrue result ↔ (0 < known_room self.new) }
        ensures no_room_lost { known_room self.old ≤ known_room self.new }
    {
        !self.producer.is_full()
    }

    /// Ends the inlet: no more items can be put.
    pub fn finish(self) -> Ended<T>
        ensures { IsEndOf self result }
    {
        let Inlet { producer } = self;
        Ended { producer }
    }
}
