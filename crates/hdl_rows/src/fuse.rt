//! A table that refuses some calls, for tests.

ghost use Rattle.std.specs.Prelude.{◌≡◌, ◌+◌, min, map, true, false, is_some, IfOk, OnOk, OnErr};
ghost use Rattle.hdl_name.specs.Name.{canonical};
ghost use Rattle.hdl_value.specs.Refs.{place_of};
ghost use Rattle.hdl_rows.specs.Heads.{heads_of};
ghost use Rattle.hdl_rows.specs.Reads.{reads_after, nothing, of_value, values_octets, names_octets};
ghost use Rattle.hdl_rows.specs.Table.{most, refusals_after, has, at, values_of, values_in, names_of, HaveTheirIndexes, with_new_handle, with_values, without_values, without_handle, AreDistinct, AreAbsent, ArePresent, indexes};

use crate::owing::{Owed, Owing};
use crate::provenance::Provenance;
use crate::rows::{Refused, Rows};
use hdl_limits::Octets;
use hdl_name::Name;
use hdl_value::{Reference, Value};

/// Which calls are refused, and how many came.
#[derive(Clone, Copy, Drop)]
struct FuseWire {
    first: u64,
    last: u64,
    calls: u64,
    refusals: u64,
}

impl FuseWire {
    ghost use Rattle.hdl_rows.specs.Fuse.{is_blown, after_call};

    /// Counts a call, and returns whether it is refused.
    fn count_call(&mut self) -> bool
        ensures refused { result ≡ is_blown self.old }
        ensures refusals_after { self.new ≡ after_call self.old }
    {
        self.calls = self.calls.saturating_add(1);
        let refused = self.first <= self.calls && self.calls <= self.last;
        if refused {
            self.refusals = self.refusals.saturating_add(1);
        }
        refused
    }
}

/// Refuses its calls from `first` to `last`, counted from 1 up to the greatest `u64`, without calling the inner table.
/// `refusals` isn't counted as a call.
#[derive(Drop)]
pub struct Fuse<R> {
    inner: R,
    wire: FuseWire,
}

impl<R: Rows> Fuse<R> {
    ghost use Rattle.hdl_rows.specs.Fuse.{inner_of, wire_of};

    /// Wraps a table. If `first` is above `last`, no call is refused.
    pub fn new(inner: R, first: u64, last: u64) -> Fuse<R>
        ensures inner { inner_of result ≡ inner }
        ensures wire { wire_of result ≡ record { first = first; last = last; calls = 0; refusals = 0 } }
        ensures content { ⟦<Fuse<R> as Rows>⟧.content result ≡ R.content inner }
    {
        Fuse {
            inner,
            wire: FuseWire {
                first,
                last,
                calls: 0,
                refusals: 0,
            },
        }
    }
}

impl<R: Rows> Rows for Fuse<R> {
    ghost use Rattle.hdl_rows.specs.Fuse.{inner_of, wire_of, refusals_of, reads_of, after_call, Blows, Passes};

    ghost content = { λ s. R.content (inner_of s) };

    ghost refused = { λ s. refusals_of R.refused s };

    ghost reads = { λ s. reads_of R.reads s };

    fn exists(&mut self, name: &Name) -> Result<bool, Refused>
        ensures found { IfOk result (λ is. is ≡ has (R.content (inner_of self.old)) (canonical name.now)) }
        ensures unchanged { R.content (inner_of self.new) ≡ R.content (inner_of self.old) }
        ensures count { refusals_of R.refused self.new ≡ refusals_after result (refusals_of R.refused self.old) }
        ensures reads { reads_of R.reads self.new ≡ reads_after nothing result (reads_of R.reads self.old) }
        ensures wire { wire_of self.new ≡ after_call (wire_of self.old) }
        ensures blown { Blows self.old self.new result }
        ensures passed { Passes R.refused self.old self.new result }
    {
        if self.wire.count_call() {
            return Err(Refused);
        }
        self.inner.exists(name)
    }

    fn at(&mut self, reference: &Reference) -> Result<Option<Value>, Refused>
        ensures found { IfOk result (λ value. value ≡ at (R.content (inner_of self.old)) (place_of reference.now)) }
        ensures unchanged { R.content (inner_of self.new) ≡ R.content (inner_of self.old) }
        ensures count { refusals_of R.refused self.new ≡ refusals_after result (refusals_of R.refused self.old) }
        ensures reads { reads_of R.reads self.new ≡ reads_after of_value result (reads_of R.reads self.old) }
        ensures wire { wire_of self.new ≡ after_call (wire_of self.old) }
        ensures blown { Blows self.old self.new result }
        ensures passed { Passes R.refused self.old self.new result }
    {
        if self.wire.count_call() {
            return Err(Refused);
        }
        self.inner.at(reference)
    }

    fn values(&mut self, name: &Name) -> Result<Vec<Value>, Refused>
        ensures found { IfOk result (λ all. all.items ≡ values_of (R.content (inner_of self.old)) (canonical name.now)) }
        ensures by_index { IfOk result (λ all. HaveTheirIndexes (R.content (inner_of self.old)) (canonical name.now) all.items) }
        ensures unchanged { R.content (inner_of self.new) ≡ R.content (inner_of self.old) }
        ensures count { refusals_of R.refused self.new ≡ refusals_after result (refusals_of R.refused self.old) }
        ensures reads { reads_of R.reads self.new ≡ reads_after (λ all. values_octets all.items) result (reads_of R.reads self.old) }
        ensures wire { wire_of self.new ≡ after_call (wire_of self.old) }
        ensures blown { Blows self.old self.new result }
        ensures passed { Passes R.refused self.old self.new result }
    {
        if self.wire.count_call() {
            return Err(Refused);
        }
        self.inner.values(name)
    }

    fn look(&mut self, name: &Name) -> Result<Option<Vec<Value>>, Refused>
        ensures there { IfOk result (λ all. is_some all ≡ has (R.content (inner_of self.old)) (canonical name.now)) }
        ensures found { IfOk result (λ all. values_in all ≡ values_of (R.content (inner_of self.old)) (canonical name.now)) }
        ensures by_index { IfOk result (λ all. HaveTheirIndexes (R.content (inner_of self.old)) (canonical name.now) (values_in all)) }
        ensures unchanged { R.content (inner_of self.new) ≡ R.content (inner_of self.old) }
        ensures count { refusals_of R.refused self.new ≡ refusals_after result (refusals_of R.refused self.old) }
        ensures reads { reads_of R.reads self.new ≡ reads_after (λ all. values_octets (values_in all)) result (reads_of R.reads self.old) }
        ensures wire { wire_of self.new ≡ after_call (wire_of self.old) }
        ensures blown { Blows self.old self.new result }
        ensures passed { Passes R.refused self.old self.new result }
    {
        if self.wire.count_call() {
            return Err(Refused);
        }
        self.inner.look(name)
    }

    fn heads(&mut self, name: &Name) -> Result<Option<Vec<Value>>, Refused>
        ensures there { IfOk result (λ all. is_some all ≡ has (R.content (inner_of self.old)) (canonical name.now)) }
        ensures found { IfOk result (λ all. values_in all ≡ heads_of (R.content (inner_of self.old)) (canonical name.now)) }
        ensures by_index { OnOk result (HaveTheirIndexes (R.content (inner_of self.old)) (canonical name.now) (values_of (R.content (inner_of self.old)) (canonical name.now))) }
        ensures unchanged { R.content (inner_of self.new) ≡ R.content (inner_of self.old) }
        ensures count { refusals_of R.refused self.new ≡ refusals_after result (refusals_of R.refused self.old) }
        ensures reads { reads_of R.reads self.new ≡ reads_after (λ all. values_octets (values_in all)) result (reads_of R.reads self.old) }
        ensures wire { wire_of self.new ≡ after_call (wire_of self.old) }
        ensures blown { Blows self.old self.new result }
        ensures passed { Passes R.refused self.old self.new result }
    {
        if self.wire.count_call() {
            return Err(Refused);
        }
        self.inner.heads(name)
    }

    fn names(&mut self, authority: &[u8]) -> Result<Vec<Octets>, Refused>
        ensures found { IfOk result (λ all. all.items ≡ names_of (R.content (inner_of self.old)) authority.now) }
        ensures unchanged { R.content (inner_of self.new) ≡ R.content (inner_of self.old) }
        ensures count { refusals_of R.refused self.new ≡ refusals_after result (refusals_of R.refused self.old) }
        ensures reads { reads_of R.reads self.new ≡ reads_after (λ all. names_octets all.items) result (reads_of R.reads self.old) }
        ensures wire { wire_of self.new ≡ after_call (wire_of self.old) }
        ensures blown { Blows self.old self.new result }
        ensures passed { Passes R.refused self.old self.new result }
    {
        if self.wire.count_call() {
            return Err(Refused);
        }
        self.inner.names(authority)
    }

    fn create(
        &mut self,
        name: &Name,
        values: &[Value],
        provenance: &Provenance<'_>,
    ) -> Result<(), Refused>
        requires absent { has (R.content (inner_of self.old)) (canonical name.now) ≡ false }
        requires distinct { AreDistinct (indexes values.now) }
        ensures done { OnOk result (R.content (inner_of self.new) ≡ with_new_handle (R.content (inner_of self.old)) (canonical name.now) values.now) }
        ensures undone { OnErr result (R.content (inner_of self.new) ≡ R.content (inner_of self.old)) }
        ensures count { refusals_of R.refused self.new ≡ refusals_after result (refusals_of R.refused self.old) }
        ensures reads { reads_of R.reads self.new ≡ reads_of R.reads self.old }
        ensures wire { wire_of self.new ≡ after_call (wire_of self.old) }
        ensures blown { Blows self.old self.new result }
        ensures passed { Passes R.refused self.old self.new result }
    {
        if self.wire.count_call() {
            return Err(Refused);
        }
        self.inner.create(name, values, provenance)
    }

    fn add(
        &mut self,
        name: &Name,
        values: &[Value],
        provenance: &Provenance<'_>,
    ) -> Result<(), Refused>
        requires there { has (R.content (inner_of self.old)) (canonical name.now) ≡ true }
        requires distinct { AreDistinct (indexes values.now) }
        requires free { AreAbsent (R.content (inner_of self.old)) (canonical name.now) (indexes values.now) }
        ensures done { OnOk result (R.content (inner_of self.new) ≡ with_values (R.content (inner_of self.old)) (canonical name.now) values.now) }
        ensures undone { OnErr result (R.content (inner_of self.new) ≡ R.content (inner_of self.old)) }
        ensures count { refusals_of R.refused self.new ≡ refusals_after result (refusals_of R.refused self.old) }
        ensures reads { reads_of R.reads self.new ≡ reads_of R.reads self.old }
        ensures wire { wire_of self.new ≡ after_call (wire_of self.old) }
        ensures blown { Blows self.old self.new result }
        ensures passed { Passes R.refused self.old self.new result }
    {
        if self.wire.count_call() {
            return Err(Refused);
        }
        self.inner.add(name, values, provenance)
    }

    fn modify(
        &mut self,
        name: &Name,
        values: &[Value],
        provenance: &Provenance<'_>,
    ) -> Result<(), Refused>
        requires there { has (R.content (inner_of self.old)) (canonical name.now) ≡ true }
        requires distinct { AreDistinct (indexes values.now) }
        requires taken { ArePresent (R.content (inner_of self.old)) (canonical name.now) (indexes values.now) }
        ensures done { OnOk result (R.content (inner_of self.new) ≡ with_values (R.content (inner_of self.old)) (canonical name.now) values.now) }
        ensures undone { OnErr result (R.content (inner_of self.new) ≡ R.content (inner_of self.old)) }
        ensures count { refusals_of R.refused self.new ≡ refusals_after result (refusals_of R.refused self.old) }
        ensures reads { reads_of R.reads self.new ≡ reads_of R.reads self.old }
        ensures wire { wire_of self.new ≡ after_call (wire_of self.old) }
        ensures blown { Blows self.old self.new result }
        ensures passed { Passes R.refused self.old self.new result }
    {
        if self.wire.count_call() {
            return Err(Refused);
        }
        self.inner.modify(name, values, provenance)
    }

    fn remove(
        &mut self,
        name: &Name,
        indexes: &[u32],
        provenance: &Provenance<'_>,
    ) -> Result<(), Refused>
        requires there { has (R.content (inner_of self.old)) (canonical name.now) ≡ true }
        requires distinct { AreDistinct indexes.now }
        requires taken { ArePresent (R.content (inner_of self.old)) (canonical name.now) indexes.now }
        ensures done { OnOk result (R.content (inner_of self.new) ≡ without_values (R.content (inner_of self.old)) (canonical name.now) indexes.now) }
        ensures undone { OnErr result (R.content (inner_of self.new) ≡ R.content (inner_of self.old)) }
        ensures count { refusals_of R.refused self.new ≡ refusals_after result (refusals_of R.refused self.old) }
        ensures reads { reads_of R.reads self.new ≡ reads_of R.reads self.old }
        ensures wire { wire_of self.new ≡ after_call (wire_of self.old) }
        ensures blown { Blows self.old self.new result }
        ensures passed { Passes R.refused self.old self.new result }
    {
        if self.wire.count_call() {
            return Err(Refused);
        }
        self.inner.remove(name, indexes, provenance)
    }

    fn delete(&mut self, name: &Name, provenance: &Provenance<'_>) -> Result<(), Refused>
        requires there { has (R.content (inner_of self.old)) (canonical name.now) ≡ true }
        ensures done { OnOk result (R.content (inner_of self.new) ≡ without_handle (R.content (inner_of self.old)) (canonical name.now)) }
        ensures undone { OnErr result (R.content (inner_of self.new) ≡ R.content (inner_of self.old)) }
        ensures count { refusals_of R.refused self.new ≡ refusals_after result (refusals_of R.refused self.old) }
        ensures reads { reads_of R.reads self.new ≡ reads_of R.reads self.old }
        ensures wire { wire_of self.new ≡ after_call (wire_of self.old) }
        ensures blown { Blows self.old self.new result }
        ensures passed { Passes R.refused self.old self.new result }
    {
        if self.wire.count_call() {
            return Err(Refused);
        }
        self.inner.delete(name, provenance)
    }

    fn refusals(&self) -> u64 {
        self.inner.refusals().saturating_add(self.wire.refusals)
    }

    fn reads(&self) -> u64 {
        self.inner.reads()
    }
}

impl<R: Owing> Owing for Fuse<R> {
    ghost use Rattle.hdl_rows.specs.Fuse.{inner_of};

    ghost debt = { λ s. R.debt (inner_of s) };

    fn hands_over(&self) -> bool {
        self.inner.hands_over()
    }

    fn owed(&self) -> Owed {
        self.inner.owed()
    }

    fn set_may_write(&mut self, may_write: bool) {
        self.inner.set_may_write(may_write);
    }
}
