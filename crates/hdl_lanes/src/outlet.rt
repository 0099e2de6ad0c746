//! The end that takes items.

ghost use Rattle.std.specs.Prelude.{◌≡◌, ◌≤◌, [], length, vec_capacity};
ghost use Rattle.rtrb.specs.Ring.{known_items, consumer_capacity};

use crate::Ended;
use rtrb::Consumer;

/// The end that takes items, with room for those that are left when the inlet has ended.
#[derive(Drop)]
pub struct Outlet<T> {
    pub(crate) consumer: Consumer<T>,
    pub(crate) left: Vec<T>,
    ghost room: { (left.items ≡ []) × (consumer_capacity consumer ≤ vec_capacity left) },
}

impl<T: Drop> Outlet<T> {
    ghost use Rattle.std.specs.Prelude.{◌≡◌, ◌<◌, ◌++◌, ◌∷◌, [], IsTrue, MatchOption, length};
    ghost use Rattle.rtrb.specs.Ring.{IsPair, received, sent, consumer_capacity};
    ghost use Rattle.hdl_lanes.specs.Lane.{taken_from, seen_in, all_put, AreEnded, IsFrontOf, SameOutlet};

    /// Takes the oldest item, or returns `None` if no item was seen.
    pub fn take(&mut self) -> Option<T>
        ensures lane { SameOutlet self.old self.new }
        ensures taken { MatchOption result (taken_from self.new ≡ taken_from self.old) (λ item. taken_from self.new ≡ taken_from self.old ++ item ∷ []) }
    {
        self.consumer.pop().ok()
    }

    /// Looks whether there is an item to take. None is taken.
    pub fn has_item(&mut self) -> bool
        ensures lane { SameOutlet self.old self.new }
        ensures taken { taken_from self.new ≡ taken_from self.old }
        ensures seen { IsTrue result → 0 < length (seen_in self.new) }
    {
        !self.consumer.is_empty()
    }

    /// The oldest item that was seen. It stays in the ring.
    pub fn front(&self) -> &T
        requires { 0 < length (seen_in self.now) }
        ensures { IsFrontOf result.now self.now }
    {
        self.consumer.peek_known()
    }

    /// Takes the oldest item that was seen.
    pub fn take_front(&mut self) -> T
        requires { 0 < length (seen_in self.old) }
        ensures lane { SameOutlet self.old self.new }
        ensures front { IsFrontOf result self.old }
        ensures taken { taken_from self.new ≡ taken_from self.old ++ result ∷ [] }
    {
        self.consumer.pop_known()
    }

    /// The items that are left in a lane whose inlet has ended, in order. Takes no memory.
    pub fn settle(self, ended: Ended<T>) -> Vec<T>
        requires { AreEnded ended self }
        ensures { all_put ended ≡ taken_from self ++ result.items }
    {
        let Outlet { mut consumer, left } = self;
        let Ended { mut producer } = ended;
        consumer.slots_beside(&mut producer);
        pop_known(&mut consumer, left)
    }
}

/// Moves the items that are known to be in the ring into a `Vec` with room for them.
fn pop_known<T: Drop>(consumer: &mut Consumer<T>, left: Vec<T>) -> Vec<T>
    requires { (left.items ≡ []) × (length (known_items consumer.old) ≤ vec_capacity left) }
    ensures { result.items ≡ known_items consumer.old }
{
    let mut left = left;
    for _ in 0..consumer.cached_slots() {
        left.push_reserved(consumer.pop_known());
    }
    left
}
