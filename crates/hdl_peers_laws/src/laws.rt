//! Laws over a lane and its trail, each the contract of a function without a body.

ghost use Rattle.hdl_peers_laws.specs.Laws.{BeginsFollowed, HoldsWhatComes, HoldsWhatIsKept, StepsFollowed};

/// Nothing is kept of a lane that was just opened, which is what a new trail says.
pub fn begins_followed()
    ensures { BeginsFollowed }
{}

/// Where a trail follows a lane, it does so after each frame: once the outcome's datagrams are seen and settled it has the keys of
/// what the lane then keeps.
pub fn steps_followed()
    ensures { StepsFollowed }
{}

/// A number is held by a trail that follows a lane just where the lane keeps something under it.
pub fn holds_what_is_kept()
    ensures { HoldsWhatIsKept }
{}

/// While frames are under way the lane keeps something only under numbers that the trail holds, or under which one of them came, whatever is replied.
pub fn holds_what_comes()
    ensures { HoldsWhatComes }
{}
