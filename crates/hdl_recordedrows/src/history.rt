//! Who hears of changes.

ghost use Rattle.std.specs.Prelude.{◌≡◌, ◌++◌, ◌∷◌, [], Bool, true, List, IsTrue};
ghost use Rattle.hdl_recordedrows.specs.Recorded.{Told, told_of};

use hdl_name::Name;
use hdl_rows::Provenance;
use hdl_value::Value;

/// A write of a handle.
#[derive(Clone, Copy)]
pub enum DoneWrite<'a> {
    /// The handle was created with these values.
    Create(&'a [Value]),
    /// These values were added.
    Add(&'a [Value]),
    /// These values stand in the places of others.
    Modify(&'a [Value]),
    /// The values at these indexes were removed.
    Remove(&'a [u32]),
    /// The handle was deleted.
    Delete,
}

/// A change that was done.
#[derive(Clone, Copy)]
pub struct DoneChange<'a> {
    pub name: &'a Name,
    pub write: DoneWrite<'a>,
    /// The values that were replaced or removed: in the order of the write's indexes. Of a delete all values, by rising index.
    pub before: &'a [Value],
    pub provenance: &'a Provenance<'a>,
}

/// Who hears of the changes of a table.
pub trait History {
    /// Whether contracts may speak of what it hears. One that isn't observed may keep nothing.
    ghost is_observed: { Bool };

    /// What it heard, oldest first.
    ghost told: { Self → List Told };

    /// Whether it keeps anything. If not, nothing is read for it, and it hears of nothing.
    fn is_kept(&self) -> bool
        ensures kept { IsTrue is_observed → result ≡ true };

    /// This change was done.
    fn note(&mut self, change: &DoneChange<'_>)
        ensures told { IsTrue is_observed → told self.new ≡ told self.old ++ told_of change.now ∷ [] };
}
