//! What other servers changed.

ghost use Rattle.std.specs.Prelude.{◌≡◌, ◌++◌, ◌∷◌, [], List, Option, Some, None, MatchOption};

use hdl_core::Change;

/// A change that another server made, and the moment in milliseconds with which it stamped the values.
#[derive(Drop)]
pub struct StampedChange {
    pub moment: u64,
    pub change: Change,
}

/// The changes that other servers made, in the order of the one list of changes.
pub trait RemoteChanges {
    ghost use Rattle.hdl_serve.specs.declared.news.StampedChange.{StampedChange};

    /// The changes that were taken so far, the oldest first.
    ghost taken: { Self → List StampedChange };

    /// The next change, if one is seen.
    ghost seen: { Self → Option StampedChange };

    /// Looks whether the next change has come. Nothing is taken. What is seen is offered to the table until it is taken or left.
    fn look(&mut self)
        ensures { taken self.new ≡ taken self.old };

    /// The next change, if one is seen. It stays.
    fn front(&self) -> Option<&StampedChange>
        ensures { MatchOption result (seen self.now ≡ None) (λ change. seen self.now ≡ Some change.now) };

    /// Takes the change that is seen: it is in the table.
    fn take(&mut self)
        ensures { MatchOption (seen self.old) (taken self.new ≡ taken self.old) (λ change. taken self.new ≡ taken self.old ++ change ∷ []) };

    /// Leaves the change that is seen: the table doesn't have it yet. It is offered no more until the next look.
    fn leave(&mut self)
        ensures { taken self.new ≡ taken self.old };

    /// Whether nobody can say when a write of this server will have ended.
    fn is_cut(&self) -> bool;
}

/// The news of a server beside which there is no other.
#[derive(Drop)]
pub(crate) struct NoRemoteChanges;

impl RemoteChanges for NoRemoteChanges {
    ghost taken = { λ _. [] };

    ghost seen = { λ _. None };

    fn look(&mut self) {}

    fn front(&self) -> Option<&StampedChange> {
        None
    }

    fn take(&mut self) {}

    fn leave(&mut self) {}

    fn is_cut(&self) -> bool {
        false
    }
}
