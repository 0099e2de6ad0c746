//! The outside of a worker: where streams and datagrams come in, a clock, and a source of nonces.
//!
//! None of these calls is given a handle of threads or of waiting, so none waits for another thread. Calls of a socket wait for its peer, as
//! long as the socket lets them. A door in memory is observed, octet by octet; of one that isn't, as a socket's, contracts count
//! faults alone.

ghost use Rattle.std.specs.Prelude.{◌≡◌, ◌≤◌, ◌<◌, ◌++◌, ◌∷◌, [], List, ℕ, Bool, true, length, take, replicate, IfOk, IfSome, IsTrue, MatchOption, MatchResult};
ghost use Rattle.hdl_workers.specs.Door.{Connection, fresh, hear, say, break_off, Counts, Raises, Takes};

use hdl_limits::PEERS_MAX;
use std::time::Duration;

/// A call of a door that failed.
#[derive(Clone, Copy, PartialEq, Eq)]
pub struct DoorFault;

/// A place where streams come in, one connection at a time. Each call that fails raises the count of faults by one, up to the
/// greatest u64.
pub trait Door {
    /// Whether contracts may speak of what the door carries. Of a door that is not observed no clause names an octet.
    ghost is_observed: { Bool };

    /// The connections that were left, oldest first.
    ghost ended: { Self → List Connection };

    /// The connection that is open.
    ghost current: { Self → Connection };

    /// Whether a connection is open.
    ghost is_open: { Self → Bool };

    /// How many calls failed, up to the greatest u64.
    ghost fault_count: { Self → ℕ };

    /// Whether a connection came, which is then open. It may wait for one for a while.
    fn accept(&mut self) -> Result<bool, DoorFault>
        ensures faults { Counts result (fault_count self.old) (fault_count self.new) }
        ensures ended { IsTrue is_observed → ended self.new ≡ ended self.old }
        ensures still_open { IfOk result (λ came. IsTrue came → is_open self.new ≡ true) }
        ensures opened { IsTrue is_observed → IfOk result (λ came. IsTrue came → current self.new ≡ fresh) };

    /// Reads some octets of the open connection to the front of the buffer, and answers how many. 0: the peer closed it.
    fn read(&mut self, buffer: &mut [u8]) -> Result<usize, DoorFault>
        ensures faults { Counts result (fault_count self.old) (fault_count self.new) }
        ensures fits { IfOk result (λ n. n ≤ length buffer.new) }
        ensures ended { IsTrue is_observed → ended self.new ≡ ended self.old }
        ensures still_open { is_open self.new ≡ is_open self.old }
        ensures heard { IsTrue is_observed → MatchResult result (λ n. current self.new ≡ hear (take n buffer.new) (current self.old)) (λ _. current self.new ≡ current self.old) };

    /// Writes a beginning of the octets to the open connection, and answers how many; of 0 the caller tries again. A connection
    /// on which a write failed is broken.
    fn write(&mut self, octets: &[u8]) -> Result<usize, DoorFault>
        ensures faults { Counts result (fault_count self.old) (fault_count self.new) }
        ensures fits { IfOk result (λ n. n ≤ length octets.now) }
        ensures ended { IsTrue is_observed → ended self.new ≡ ended self.old }
        ensures still_open { is_open self.new ≡ is_open self.old }
        ensures said { IsTrue is_observed → MatchResult result (λ n. current self.new ≡ say (take n octets.now) (current self.old)) (λ _. current self.new ≡ break_off (current self.old)) };

    /// Gives the open connection up, for want of memory. It is broken, as after a write that failed, and a fault is counted.
    fn give_up(&mut self)
        ensures faults { Raises (fault_count self.old) (fault_count self.new) }
        ensures ended { IsTrue is_observed → ended self.new ≡ ended self.old }
        ensures still_open { is_open self.new ≡ is_open self.old }
        ensures broken { IsTrue is_observed → current self.new ≡ break_off (current self.old) };

    /// Closes the open connection.
    fn leave(&mut self)
        requires ready { is_open self.old ≡ true }
        ensures faults { fault_count self.new ≡ fault_count self.old }
        ensures ended { IsTrue is_observed → ended self.new ≡ ended self.old ++ current self.old ∷ [] };

    /// How many calls failed.
    fn faults(&self) -> u64
        ensures { result ≡ fault_count self.now };
}

/// Moments in milliseconds, and a pause.
pub trait LoopClock {
    /// Whether contracts may speak of the answers. Of a clock that is not observed no clause names a moment.
    ghost is_observed: { Bool };

    /// The answers still to give, the next first. After them come zeros.
    ghost answers: { Self → List ℕ };

    /// The moment, in milliseconds. Where the machine's clock fails it is the last answer again, at first 0.
    fn now(&mut self) -> u64
        ensures { IsTrue is_observed → Takes 0 (answers self.old) result (answers self.new) };

    /// Lets other threads run. Workers and `serve` call it after a try that gave nothing.
    fn pause(&mut self)
        ensures { IsTrue is_observed → answers self.new ≡ answers self.old };

    /// How long the wait is that goes on: since its first pause. Zero where none does, where the machine's clock fails, and of a clock that
    /// doesn't tell.
    fn waited(&self) -> Duration {
        Duration::ZERO
    }

    /// Something was done, so the next pause begins a wait. Workers call it once they put what came through their door, and when they took
    /// an outcome or wrote one; `serve` after a turn that answered.
    fn note_work(&mut self)
        ensures { IsTrue is_observed → answers self.new ≡ answers self.old }
    {}
}

/// Numbers used once, for challenges.
pub trait Nonces {
    /// Whether contracts may speak of the answers. Of a source that is not observed no clause names a nonce.
    ghost is_observed: { Bool };

    /// The answers still to give, the next first. After them come zeros.
    ghost answers: { Self → List (List ℕ) };

    /// The next number.
    fn next(&mut self) -> [u8; 16]
        ensures { IsTrue is_observed → Takes (replicate 16 0) (answers self.old) result (answers self.new) };
}

/// A place where datagrams come in from numbered peers. Each call that fails raises the count of faults by one, up to the
/// greatest u64.
pub trait Packets {
    /// Whether contracts may speak of what the door carries. Of a door that is not observed no clause names an octet.
    ghost is_observed: { Bool };

    /// Every datagram that was received, with its peer, oldest first.
    ghost received: { Self → List (ℕ × List ℕ) };

    /// Every datagram that was sent, with its peer, oldest first.
    ghost sent: { Self → List (ℕ × List ℕ) };

    /// How many calls failed, up to the greatest u64.
    ghost fault_count: { Self → ℕ };

    /// A datagram at the front of the buffer: its peer, from 1 to `PEERS_MAX`, and its length. None: none came, for a while where it may wait for one, or one of a
    /// peer beyond.
    /// A datagram longer than the buffer is cut to it.
    fn receive(
        &mut self,
        buffer: &mut [u8],
        may_wait: bool,
    ) -> Result<Option<(u16, usize)>, DoorFault>
        ensures faults { Counts result (fault_count self.old) (fault_count self.new) }
        ensures fits { IfOk result (λ came. IfSome came (λ d. (0 < d.0) × (d.0 ≤ PEERS_MAX) × (d.1 ≤ length buffer.new))) }
        ensures sent { IsTrue is_observed → sent self.new ≡ sent self.old }
        ensures received { IsTrue is_observed → MatchResult result
            (λ came. MatchOption came (received self.new ≡ received self.old) (λ d. received self.new ≡ received self.old ++ (d.0, take d.1 buffer.new) ∷ []))
            (λ _. received self.new ≡ received self.old) };

    /// Sends one datagram to the peer.
    fn send(&mut self, peer: u16, octets: &[u8]) -> Result<(), DoorFault>
        ensures faults { Counts result (fault_count self.old) (fault_count self.new) }
        ensures received { IsTrue is_observed → received self.new ≡ received self.old }
        ensures sent { IsTrue is_observed → MatchResult result
            (λ _. sent self.new ≡ sent self.old ++ (peer, octets.now) ∷ [])
            (λ _. sent self.new ≡ sent self.old) };

    /// What was sent is all that goes of the reply to the oldest frame without one.
    fn end_reply(&mut self)
        ensures faults { fault_count self.new ≡ fault_count self.old }
        ensures received { IsTrue is_observed → received self.new ≡ received self.old }
        ensures sent { IsTrue is_observed → sent self.new ≡ sent self.old }
    {}

    /// How many frames may be under way, without a reply, before the next datagram is received: 1 to `UNDER_WAY_MAX`; others count as the nearest.
    /// A door that doesn't say has one.
    fn most_under_way(&self) -> usize {
        1
    }

    /// How many calls failed.
    fn faults(&self) -> u64
        ensures { result ≡ fault_count self.now };
}
