//! A guard, and what it is asked and informed of.

use crate::guard::{Effect, Guard, WriteResult};
use hdl_rows::{Owed, Owing};

/// A guard, whether the call may have its turn, and the write that was begun last.
#[derive(Drop)]
pub(crate) struct Gate<G> {
    guard: G,
    may_write: bool,
    begun: u64,
}

/// Whether the table owes no write.
fn owes_nothing<R: Owing>(rows: &R) -> bool {
    matches!(rows.owed(), Owed::Nothing)
}

impl<G: Guard> Gate<G> {
    /// The gate of a table that owes nothing. The guard isn't asked before a call has its turn: what opens a table is no change.
    pub(crate) fn new(guard: G) -> Gate<G> {
        Gate {
            guard,
            may_write: false,
            begun: 0,
        }
    }

    /// The guard.
    pub(crate) fn into_guard(self) -> G {
        self.guard
    }

    /// Whether a write of the calls that come may be handed over.
    pub(crate) fn set_turn(&mut self, may_write: bool) {
        self.may_write = may_write;
    }

    /// Whether the write with this mark may be made. Where one is owed, or it isn't this call's turn, the table itself decides.
    pub(crate) fn try_pass<R: Owing>(
        &mut self,
        rows: &R,
        effect: Effect,
        fingerprint: u64,
    ) -> bool {
        if !self.may_write || !owes_nothing(rows) {
            return true;
        }
        let may = self.guard.authorize(effect);
        if may {
            self.begun = fingerprint;
        }
        may
    }

    /// A write isn't let through.
    pub(crate) fn forbid(&mut self) {
        self.guard.note(WriteResult::Forbidden);
    }

    /// Tells the guard what became of the write with this mark.
    pub(crate) fn tell<R: Owing>(&mut self, rows: &R, fingerprint: u64, is_made: bool) {
        if is_made {
            self.guard.note(WriteResult::Made);
        } else if self.may_write && owes_nothing(rows) {
            self.guard.note(if fingerprint == self.begun {
                WriteResult::Failed
            } else {
                WriteResult::Deferred
            });
        }
    }
}
