//! The file beside a table in memory.

ghost use Rattle.std.specs.Prelude.{◌≡◌, ◌⊎◌, ◌+◌, min, None, Some, IsTrue};
ghost use Rattle.hdl_rows.specs.Debt.{is_owed};
ghost use Rattle.hdl_rows.specs.Table.{Table, IsPlaced, most};
ghost use Rattle.hdl_rows.specs.Write.{CanWrite};
ghost use Rattle.hdl_durablerows.specs.declared.pending.Pending.TheVariants.{Begun, Ahead, Undoing};
ghost use Rattle.hdl_durablerows.specs.Durable.{Keeps, Makes, owes_by, shut_notices_after};
ghost use Rattle.hdl_durablerows.specs.Pending.{IsBacking, OwesAtMost, owed_by, is_unknown};
ghost use Rattle.hdl_durablerows.specs.Writes.{write_of, write_in};

use crate::durable_file::DurableFile;
use crate::inverse::inverse_of;
use crate::observer::{ShutObserver, note_if_shut};
use crate::pending::{Pending, pending_undo, pending_write};
use crate::places::put;
use crate::write::{OwnedWrite, Write};
use hdl_rows::{Owed, Rows};
use std::alloc::Global;
use std::mem;

/// The file beside a table in memory, and the write that stands between them.
#[derive(Drop)]
pub struct BackingFile<F: DurableFile + Drop, A: ShutObserver + Drop> {
    pub file: F,
    pub pending: Pending,
    /// Whether a write of the calls that come may be handed over.
    pub may_write: bool,
    /// For the copy of a write that stands between.
    pub alloc: Global,
    pub observer: A,
}

impl<F: DurableFile + Drop, A: ShutObserver + Drop> BackingFile<F, A> {
    /// The file.
    pub(crate) fn into_file(self) -> F
        ensures { result ≡ self.file }
    {
        let BackingFile {
            file,
            pending,
            observer: _alarm,
            ..
        } = self;
        drop(pending);
        file
    }

    /// What is owed. Once nobody can tell what the file has, nothing is.
    pub(crate) fn owed(&self) -> Owed
        ensures { is_owed result ≡ owes_by (is_unknown self.now.pending) (owed_by self.now.pending) }
    {
        match &self.pending {
            Pending::Nothing | Pending::Unknown(_) | Pending::UndoUnknown(_, _) => Owed::Nothing,
            Pending::Ahead(_) => Owed::Ended,
            Pending::Begun(_) | Pending::Undoing(_, _) => self.begun(),
        }
    }

    /// A write was begun.
    fn begun(&self) -> Owed
        ensures { IsTrue (is_owed result) }
    {
        if self.file.has_ended() {
            Owed::Ended
        } else {
            Owed::UnderWay
        }
    }

    /// Begins the write of a call, in its turn.
    fn start(&mut self, write: &Write<'_>) -> Pending
        requires can { (t : Table) × F.stands self.old.file (Keeps t) × CanWrite t (write_of write.now) }
        ensures stands { (t : Table) → IsPlaced t → F.stands self.old.file (Keeps t) → CanWrite t (write_of write.now) → IsBacking (F.stands self.new.file) t result }
        ensures owed { (owed_by result ≡ None) ⊎ (owed_by result ≡ Some (write_of write.now)) }
        ensures observer { self.new.observer ≡ self.old.observer }
        ensures beside { F.is_threaded self.new.file ≡ F.is_threaded self.old.file }
    {
        if self.file.hands_over() && !self.may_write {
            return Pending::Nothing;
        }
        let Ok(own) = OwnedWrite::copy(self.alloc, write) else {
            return Pending::Nothing;
        };
        let state = self.file.begin(write);
        pending_write(own, state)
    }

    /// Ends the write that was begun, unless it goes on.
    fn end(&mut self, own: OwnedWrite) -> Pending
        requires begun { (t : Table) × F.stands self.old.file (Makes t (write_in own)) }
        ensures stands { (t : Table) → IsBacking (F.stands self.old.file) t (Begun own) → IsBacking (F.stands self.new.file) t result }
        ensures owed { (owed_by result ≡ None) ⊎ (owed_by result ≡ Some (write_in own)) }
        ensures observer { self.new.observer ≡ self.old.observer }
        ensures beside { F.is_threaded self.new.file ≡ F.is_threaded self.old.file }
    {
        let state = self.file.end(&own.as_write());
        pending_write(own, state)
    }

    /// Ends the write that undoes one, unless it goes on.
    fn end_undo(&mut self, own: OwnedWrite, undo: OwnedWrite) -> Pending
        requires begun { (t : Table) × F.stands self.old.file (Makes t (write_in undo)) }
        ensures stands { (t : Table) → IsBacking (F.stands self.old.file) t (Undoing own undo) → IsBacking (F.stands self.new.file) t result }
        ensures owed { (owed_by result ≡ None) ⊎ (owed_by result ≡ Some (write_in own)) }
        ensures observer { self.new.observer ≡ self.old.observer }
        ensures beside { F.is_threaded self.new.file ≡ F.is_threaded self.old.file }
    {
        let state = self.file.end(&undo.as_write());
        pending_undo(own, undo, state)
    }

    /// Begins to undo in the file the write that memory hasn't, unless memory for that is refused.
    fn undo<R: Rows>(&mut self, rows: &mut R, own: OwnedWrite) -> Pending
        requires stands { IsBacking (F.stands self.old.file) (R.content rows.old) (Ahead own) }
        ensures stands { IsBacking (F.stands self.new.file) (R.content rows.old) result }
        ensures owed { (owed_by result ≡ None) ⊎ (owed_by result ≡ Some (write_in own)) }
        ensures observer { self.new.observer ≡ self.old.observer }
        ensures beside { F.is_threaded self.new.file ≡ F.is_threaded self.old.file }
        ensures unchanged { R.content rows.new ≡ R.content rows.old }
        ensures count { (R.refused rows.new ≡ R.refused rows.old) ⊎ (R.refused rows.new ≡ min (R.refused rows.old + 1) most) }
    {
        let Ok(undo) = inverse_of(self.alloc, rows, &own) else {
            return Pending::Ahead(own);
        };
        let state = self.file.undo(&undo.as_write());
        pending_undo(own, undo, state)
    }

    /// Whether a call of this write goes on with the one that stands between: with its own, or in its turn with another's.
    fn goes_on(&self, own: &OwnedWrite, write: &Write<'_>) -> bool {
        self.may_write || own.is(write)
    }

    /// Ends the write that was begun, if it is the call's own or in the call's turn.
    fn claim(&mut self, own: OwnedWrite, write: &Write<'_>) -> Pending
        requires begun { (t : Table) × F.stands self.old.file (Makes t (write_in own)) }
        ensures stands { (t : Table) → IsBacking (F.stands self.old.file) t (Begun own) → IsBacking (F.stands self.new.file) t result }
        ensures owed { (owed_by result ≡ None) ⊎ (owed_by result ≡ Some (write_in own)) }
        ensures observer { self.new.observer ≡ self.old.observer }
        ensures beside { F.is_threaded self.new.file ≡ F.is_threaded self.old.file }
    {
        if self.goes_on(&own, write) {
            self.end(own)
        } else {
            Pending::Begun(own)
        }
    }

    /// Ends the write that undoes one, if that is the call's own or it is the call's turn.
    fn claim_undo(&mut self, own: OwnedWrite, undo: OwnedWrite, write: &Write<'_>) -> Pending
        requires begun { (t : Table) × F.stands self.old.file (Makes t (write_in undo)) }
        ensures stands { (t : Table) → IsBacking (F.stands self.old.file) t (Undoing own undo) → IsBacking (F.stands self.new.file) t result }
        ensures owed { (owed_by result ≡ None) ⊎ (owed_by result ≡ Some (write_in own)) }
        ensures observer { self.new.observer ≡ self.old.observer }
        ensures beside { F.is_threaded self.new.file ≡ F.is_threaded self.old.file }
    {
        if self.goes_on(&own, write) {
            self.end_undo(own, undo)
        } else {
            Pending::Undoing(own, undo)
        }
    }

    /// Leaves the write that the file has to its own call, or undoes it in another call's turn.
    fn make_way<R: Rows>(&mut self, rows: &mut R, own: OwnedWrite, write: &Write<'_>) -> Pending
        requires stands { IsBacking (F.stands self.old.file) (R.content rows.old) (Ahead own) }
        ensures stands { IsBacking (F.stands self.new.file) (R.content rows.old) result }
        ensures owed { (owed_by result ≡ None) ⊎ (owed_by result ≡ Some (write_in own)) }
        ensures observer { self.new.observer ≡ self.old.observer }
        ensures beside { F.is_threaded self.new.file ≡ F.is_threaded self.old.file }
        ensures unchanged { R.content rows.new ≡ R.content rows.old }
        ensures count { (R.refused rows.new ≡ R.refused rows.old) ⊎ (R.refused rows.new ≡ min (R.refused rows.old + 1) most) }
    {
        if self.may_write && !own.is(write) {
            self.undo(rows, own)
        } else {
            Pending::Ahead(own)
        }
    }

    /// What stands between next, as a call of this write finds what stands between.
    fn next<R: Rows>(&mut self, rows: &mut R, pending: Pending, write: &Write<'_>) -> Pending
        requires stands { IsBacking (F.stands self.old.file) (R.content rows.old) pending }
        requires can { CanWrite (R.content rows.old) (write_of write.now) }
        ensures stands { IsBacking (F.stands self.new.file) (R.content rows.old) result }
        ensures owed { OwesAtMost (owed_by pending) (write_of write.now) (owed_by result) }
        ensures observer { self.new.observer ≡ self.old.observer }
        ensures beside { F.is_threaded self.new.file ≡ F.is_threaded self.old.file }
        ensures unchanged { R.content rows.new ≡ R.content rows.old }
        ensures count { (R.refused rows.new ≡ R.refused rows.old) ⊎ (R.refused rows.new ≡ min (R.refused rows.old + 1) most) }
    {
        match pending {
            Pending::Nothing => self.start(write),
            Pending::Begun(own) => self.claim(own, write),
            Pending::Ahead(own) => self.make_way(rows, own, write),
            Pending::Undoing(own, undo) => self.claim_undo(own, undo, write),
            Pending::Unknown(own) => Pending::Unknown(own),
            Pending::UndoUnknown(own, undo) => Pending::UndoUnknown(own, undo),
        }
    }

    /// Goes on with the write of a call as far as may be, and rings where nobody can tell any more what the file has.
    pub(crate) fn continue_write<R: Rows>(&mut self, rows: &mut R, write: &Write<'_>)
        requires stands { IsBacking (F.stands self.old.file) (R.content rows.old) self.old.pending }
        requires can { CanWrite (R.content rows.old) (write_of write.now) }
        ensures stands { IsBacking (F.stands self.new.file) (R.content rows.old) self.new.pending }
        ensures owed { OwesAtMost (owed_by self.old.pending) (write_of write.now) (owed_by self.new.pending) }
        ensures rung { A.shut_notices self.new.observer ≡ shut_notices_after (is_unknown self.old.pending) (is_unknown self.new.pending) (A.shut_notices self.old.observer) }
        ensures beside { F.is_threaded self.new.file ≡ F.is_threaded self.old.file }
        ensures unchanged { R.content rows.new ≡ R.content rows.old }
        ensures count { (R.refused rows.new ≡ R.refused rows.old) ⊎ (R.refused rows.new ≡ min (R.refused rows.old + 1) most) }
    {
        let pending = mem::replace(&mut self.pending, Pending::Nothing);
        let was_shut = pending.is_shut();
        let pending = self.next(rows, pending, write);
        note_if_shut(&mut self.observer, was_shut, pending.is_shut());
        put(&mut self.pending, pending);
    }
}
