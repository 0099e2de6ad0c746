//! What other servers changed.

ghost use Rattle.std.specs.Prelude.{◌≡◌, ◌<◌, true, length};
ghost use Rattle.hdl_lanes.specs.Lane.{seen_in};

use hdl_change_list::ClusterStatus;
use hdl_lanes::Outlet;
use hdl_serve::{RemoteChanges, StampedChange};
use std::sync::Arc;
use std::sync::atomic::AtomicBool;
use std::sync::atomic::Ordering::SeqCst;

/// The changes that other servers made, as a thread brings them by a ring.
#[derive(Drop)]
pub struct EtcdChanges {
    changes: Outlet<StampedChange>,
    is_seen: bool,
    /// Whether the next change is offered to the table, which the journal looks at.
    is_offered: Arc<AtomicBool>,
    standing: Arc<ClusterStatus>,
    ghost seen: { is_seen ≡ true → 0 < length (seen_in changes) },
}

impl EtcdChanges {
    /// News of which nothing was taken yet.
    pub(crate) fn new(
        changes: Outlet<StampedChange>,
        is_offered: Arc<AtomicBool>,
        standing: Arc<ClusterStatus>,
    ) -> EtcdChanges
        ensures { result.changes ≡ changes }
    {
        EtcdChanges {
            changes,
            is_seen: false,
            is_offered,
            standing,
        }
    }
}

impl RemoteChanges for EtcdChanges {
    ghost use Rattle.hdl_lanes.specs.Lane.{taken_from, seen_in};
    ghost use Rattle.hdl_cluster.specs.Told.{seen_by};

    ghost taken = { λ s. taken_from s.changes };

    ghost seen = { λ s. seen_by s.is_seen (seen_in s.changes) };

    fn look(&mut self) {
        self.is_seen = false;
        self.is_seen = self.changes.has_item();
        self.is_offered.store(self.is_seen, SeqCst);
    }

    fn front(&self) -> Option<&StampedChange> {
        if self.is_seen {
            Some(self.changes.front())
        } else {
            None
        }
    }

    fn take(&mut self) {
        if self.is_seen {
            self.is_seen = false;
            drop(self.changes.take_front());
        }
        self.is_offered.store(false, SeqCst);
    }

    fn leave(&mut self) {
        self.is_offered.store(false, SeqCst);
    }

    fn is_cut(&self) -> bool {
        self.standing.is_cut()
    }
}
