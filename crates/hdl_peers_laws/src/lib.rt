//! The trail of datagram peers has the keys of what the service keeps of their lane.
//!
//! hdl_peers follows a lane by the frames that come and the replies that go, and hdl_laws says what the service keeps of it: messages of which
//! pieces came, and challenges. `specs/Follows.antt` says when the trail has their keys, and what is true of a lane that was opened and got
//! frames since. The laws in [`laws`] are the contracts of functions without a body: it is so at the beginning, and stays so over each frame.
//! So `Peers` gives no number under which the service keeps something to another address.
//!
//! It stands on the definitions of both, and has no state.
#![tactic(auto)]

pub mod laws;
