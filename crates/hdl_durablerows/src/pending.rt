//! The write that stands between a table in memory and its file.

ghost use Rattle.std.specs.Prelude.{◌≡◌, ◌⊎◌, None, Some, IsTrue};
ghost use Rattle.hdl_rows.specs.Table.{Table};
ghost use Rattle.hdl_rows.specs.Write.{CanWrite, after_write};
ghost use Rattle.hdl_durablerows.specs.Inverse.{IsUndo};
ghost use Rattle.hdl_durablerows.specs.Durable.{left_by};
ghost use Rattle.hdl_durablerows.specs.Pending.{owed_by, ahead_by, is_unknown, standing, IsAllowed};
ghost use Rattle.hdl_durablerows.specs.Writes.{write_of, write_in};

use crate::durable_file::WriteState;
use crate::write::{OwnedWrite, Write};

/// The write that stands between a table in memory and its file.
#[derive(Drop)]
pub enum Pending {
    /// None: the file has just what memory has.
    Nothing,
    /// It was begun, and no call has claimed it yet.
    Begun(OwnedWrite),
    /// The file has it, and memory refused it so far.
    Ahead(OwnedWrite),
    /// The file has it, memory hasn't, and the second write, which undoes it, was begun.
    Undoing(OwnedWrite, OwnedWrite),
    /// Nobody can tell whether the file has it. The table takes no more writes.
    Unknown(OwnedWrite),
    /// The same, since nobody can tell whether the second write has undone it.
    UndoUnknown(OwnedWrite, OwnedWrite),
}

impl Pending {
    /// Whether nobody can tell what the file has.
    pub(crate) fn is_shut(&self) -> bool
        ensures { result ≡ is_unknown self.now }
    {
        matches!(self, Pending::Unknown(_) | Pending::UndoUnknown(_, _))
    }

    /// Whether the file has this write, and memory shall have it next.
    pub(crate) fn is_ahead_by(&self, write: &Write<'_>) -> bool
        ensures { IsTrue result → ahead_by self.now ≡ Some (write_of write.now) }
    {
        match self {
            Pending::Ahead(own) => own.is(write),
            _ => false,
        }
    }
}

/// What stands between once a write was begun, or asked for, over a table that the file and memory had.
pub(crate) fn pending_write(own: OwnedWrite, state: WriteState) -> Pending
    ensures standing { (t : Table) → standing t result ≡ left_by t (write_in own) state }
    ensures allowed { (t : Table) → CanWrite t (write_in own) → IsAllowed t result }
    ensures owed { (owed_by result ≡ None) ⊎ (owed_by result ≡ Some (write_in own)) }
{
    match state {
        WriteState::Made => Pending::Ahead(own),
        WriteState::Refused => Pending::Nothing,
        WriteState::UnderWay => Pending::Begun(own),
        WriteState::Unknown => Pending::Unknown(own),
    }
}

/// What stands between once a write that undoes one was begun, or asked for.
pub(crate) fn pending_undo(own: OwnedWrite, undo: OwnedWrite, state: WriteState) -> Pending
    ensures standing { (t : Table) → IsUndo t (write_in own) (write_in undo) → standing t result ≡ left_by (after_write t (write_in own)) (write_in undo) state }
    ensures allowed { (t : Table) → CanWrite t (write_in own) → IsUndo t (write_in own) (write_in undo) → IsAllowed t result }
    ensures owed { (owed_by result ≡ None) ⊎ (owed_by result ≡ Some (write_in own)) }
{
    match state {
        WriteState::Made => {
            drop(own);
            drop(undo);
            Pending::Nothing
        }
        WriteState::Refused => {
            drop(undo);
            Pending::Ahead(own)
        }
        WriteState::UnderWay => Pending::Undoing(own, undo),
        WriteState::Unknown => Pending::UndoUnknown(own, undo),
    }
}
