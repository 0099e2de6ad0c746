//! The contract of a table.

ghost use Rattle.std.specs.Prelude.{◌≡◌, ℕ, map, true, false, is_some, IfOk, OnOk, OnErr};
ghost use Rattle.hdl_name.specs.Name.{canonical};
ghost use Rattle.hdl_value.specs.Refs.{place_of};
ghost use Rattle.hdl_rows.specs.Heads.{heads_of};
ghost use Rattle.hdl_rows.specs.Reads.{reads_after, nothing, of_value, values_octets, names_octets};
ghost use Rattle.hdl_rows.specs.Table.{Table, has, at, values_of, values_in, names_of, HaveTheirIndexes, with_new_handle, with_values, without_values, without_handle, AreDistinct, AreAbsent, ArePresent, indexes, refusals_after};

use crate::provenance::Provenance;
use hdl_limits::Octets;
use hdl_name::Name;
use hdl_value::{Reference, Value};
use std::alloc::AllocError;

/// The store or memory was refused. The table is as it was, and its number of refusals rose by one.
#[derive(Clone, Copy, Debug, PartialEq, Eq, Drop)]
pub struct Refused;

impl From<AllocError> for Refused {
    fn from(_: AllocError) -> Refused {
        Refused
    }
}

/// A finite set of canonical handles, and a finite map from places (canonical handle, index) to values.
///
/// A name stands for its canonical form in every call: `10.ABC/x` and `10.abc/x` are one handle. Each call does the
/// whole of its operation, or is refused and leaves the table as it was. What becomes of the table doesn't depend on
/// who asks for a write.
pub trait Rows {
    /// The contents, for any storage.
    ghost content: { Self → Table };

    /// How many of its calls were refused, up to the greatest `u64`.
    ghost refused: { Self → ℕ };

    /// How many octets its calls returned, up to the greatest `u64`: a few for each call, and the result. A write
    /// returns nothing. What a table reads internally doesn't count.
    ghost reads: { Self → ℕ };

    /// Whether the handle is there.
    fn exists(&mut self, name: &Name) -> Result<bool, Refused>
        ensures found { IfOk result (λ is. is ≡ has (content self.old) (canonical name.now)) }
        ensures unchanged { content self.new ≡ content self.old }
        ensures count { refused self.new ≡ refusals_after result (refused self.old) }
        ensures reads { reads self.new ≡ reads_after nothing result (reads self.old) };

    /// The value at a reference, if there is one.
    fn at(&mut self, reference: &Reference) -> Result<Option<Value>, Refused>
        ensures found { IfOk result (λ value. value ≡ at (content self.old) (place_of reference.now)) }
        ensures unchanged { content self.new ≡ content self.old }
        ensures count { refused self.new ≡ refusals_after result (refused self.old) }
        ensures reads { reads self.new ≡ reads_after of_value result (reads self.old) };

    /// The values of a handle, by rising index, each at its own index. An absent handle has none.
    fn values(&mut self, name: &Name) -> Result<Vec<Value>, Refused>
        ensures found { IfOk result (λ all. all.items ≡ values_of (content self.old) (canonical name.now)) }
        ensures by_index { IfOk result (λ all. HaveTheirIndexes (content self.old) (canonical name.now) all.items) }
        ensures unchanged { content self.new ≡ content self.old }
        ensures count { refused self.new ≡ refusals_after result (refused self.old) }
        ensures reads { reads self.new ≡ reads_after (λ all. values_octets all.items) result (reads self.old) };

    /// The values of a handle, by rising index, each at its own index. `None` if the handle is absent. This one call
    /// returns what [`exists`](Rows::exists) and [`values`](Rows::values) return.
    fn look(&mut self, name: &Name) -> Result<Option<Vec<Value>>, Refused>
        ensures there { IfOk result (λ all. is_some all ≡ has (content self.old) (canonical name.now)) }
        ensures found { IfOk result (λ all. values_in all ≡ values_of (content self.old) (canonical name.now)) }
        ensures by_index { IfOk result (λ all. HaveTheirIndexes (content self.old) (canonical name.now) (values_in all)) }
        ensures unchanged { content self.new ≡ content self.old }
        ensures count { refused self.new ≡ refusals_after result (refused self.old) }
        ensures reads { reads self.new ≡ reads_after (λ all. values_octets (values_in all)) result (reads self.old) };

    /// The heads of the values of a handle, by rising index: all but their data and their references. `None` if the handle is absent.
    fn heads(&mut self, name: &Name) -> Result<Option<Vec<Value>>, Refused>
        ensures there { IfOk result (λ all. is_some all ≡ has (content self.old) (canonical name.now)) }
        ensures found { IfOk result (λ all. values_in all ≡ heads_of (content self.old) (canonical name.now)) }
        ensures by_index { OnOk result (HaveTheirIndexes (content self.old) (canonical name.now) (values_of (content self.old) (canonical name.now))) }
        ensures unchanged { content self.new ≡ content self.old }
        ensures count { refused self.new ≡ refusals_after result (refused self.old) }
        ensures reads { reads self.new ≡ reads_after (λ all. values_octets (values_in all)) result (reads self.old) };

    /// The canonical handles of an authority, rising by octets. The authority is in canonical form.
    fn names(&mut self, authority: &[u8]) -> Result<Vec<Octets>, Refused>
        ensures found { IfOk result (λ all. all.items ≡ names_of (content self.old) authority.now) }
        ensures unchanged { content self.new ≡ content self.old }
        ensures count { refused self.new ≡ refusals_after result (refused self.old) }
        ensures reads { reads self.new ≡ reads_after (λ all. names_octets all.items) result (reads self.old) };

    /// Creates an absent handle with these values.
    fn create(
        &mut self,
        name: &Name,
        values: &[Value],
        provenance: &Provenance<'_>,
    ) -> Result<(), Refused>
        requires absent { has (content self.old) (canonical name.now) ≡ false }
        requires distinct { AreDistinct (indexes values.now) }
        ensures done { OnOk result (content self.new ≡ with_new_handle (content self.old) (canonical name.now) values.now) }
        ensures undone { OnErr result (content self.new ≡ content self.old) }
        ensures count { refused self.new ≡ refusals_after result (refused self.old) }
        ensures reads { reads self.new ≡ reads self.old };

    /// Adds values to a handle, at indexes where there is none.
    fn add(
        &mut self,
        name: &Name,
        values: &[Value],
        provenance: &Provenance<'_>,
    ) -> Result<(), Refused>
        requires there { has (content self.old) (canonical name.now) ≡ true }
        requires distinct { AreDistinct (indexes values.now) }
        requires free { AreAbsent (content self.old) (canonical name.now) (indexes values.now) }
        ensures done { OnOk result (content self.new ≡ with_values (content self.old) (canonical name.now) values.now) }
        ensures undone { OnErr result (content self.new ≡ content self.old) }
        ensures count { refused self.new ≡ refusals_after result (refused self.old) }
        ensures reads { reads self.new ≡ reads self.old };

    /// Replaces the values of a handle at these indexes as a whole.
    fn modify(
        &mut self,
        name: &Name,
        values: &[Value],
        provenance: &Provenance<'_>,
    ) -> Result<(), Refused>
        requires there { has (content self.old) (canonical name.now) ≡ true }
        requires distinct { AreDistinct (indexes values.now) }
        requires taken { ArePresent (content self.old) (canonical name.now) (indexes values.now) }
        ensures done { OnOk result (content self.new ≡ with_values (content self.old) (canonical name.now) values.now) }
        ensures undone { OnErr result (content self.new ≡ content self.old) }
        ensures count { refused self.new ≡ refusals_after result (refused self.old) }
        ensures reads { reads self.new ≡ reads self.old };

    /// Removes values from a handle. The handle stays, even without values.
    fn remove(
        &mut self,
        name: &Name,
        indexes: &[u32],
        provenance: &Provenance<'_>,
    ) -> Result<(), Refused>
        requires there { has (content self.old) (canonical name.now) ≡ true }
        requires distinct { AreDistinct indexes.now }
        requires taken { ArePresent (content self.old) (canonical name.now) indexes.now }
        ensures done { OnOk result (content self.new ≡ without_values (content self.old) (canonical name.now) indexes.now) }
        ensures undone { OnErr result (content self.new ≡ content self.old) }
        ensures count { refused self.new ≡ refusals_after result (refused self.old) }
        ensures reads { reads self.new ≡ reads self.old };

    /// Deletes a handle with all its values.
    fn delete(&mut self, name: &Name, provenance: &Provenance<'_>) -> Result<(), Refused>
        requires there { has (content self.old) (canonical name.now) ≡ true }
        ensures done { OnOk result (content self.new ≡ without_handle (content self.old) (canonical name.now)) }
        ensures undone { OnErr result (content self.new ≡ content self.old) }
        ensures count { refused self.new ≡ refusals_after result (refused self.old) }
        ensures reads { reads self.new ≡ reads self.old };

    /// How many calls were refused, up to the greatest `u64`.
    fn refusals(&self) -> u64
        ensures { result ≡ refused self.now };

    /// How many octets its calls returned, up to the greatest `u64`.
    fn reads(&self) -> u64
        ensures { result ≡ reads self.now };
}
