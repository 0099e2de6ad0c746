//! The table.

ghost use Rattle.std.specs.Prelude.{◌≡◌, ◌+◌, min, true, false, map, sum_by, is_some, is_ok, IfOk, OnOk, OnErr};
ghost use Rattle.hdl_boundedrows.specs.Bounded as counted;
ghost use Rattle.hdl_boundedrows.specs.Bounded.{are_permitted, none, holding_after, holding_at_first, IsWithin};
ghost use Rattle.std.specs.List.{AllByRecursion};
ghost use Rattle.hdl_boundedrows.specs.Amount.{in_handles, in_values, in_octets, with_handle, values_at};
ghost use Rattle.hdl_limits.specs.Counts.{at_most_u64};
ghost use Rattle.hdl_name.specs.Name.{canonical, prefix};
ghost use Rattle.hdl_value.specs.Refs.{place_of};
ghost use Rattle.hdl_rows.specs.Heads.{heads_of};
ghost use Rattle.hdl_rows.specs.Reads.{reads_after, nothing, of_value, values_octets, names_octets};
ghost use Rattle.hdl_rows.specs.Table.{most, refusals_after, has, at, values_of, values_in, names_of, HaveTheirIndexes, with_new_handle, with_values, without_values, without_handle, AreDistinct, AreAbsent, ArePresent, indexes};

use crate::account::{Account, Accounts, Bound, CountChange};
use crate::amount::{Count, count_of_indexes, count_of_replaced, handle_count, values_count};
use hdl_limits::Octets;
use hdl_name::Name;
use hdl_rows::reads::{found_octets, names_octets, seen_octets, values_octets, with_call};
use hdl_rows::{Owed, Owing, Provenance, Refused, Rows};
use hdl_value::{Reference, Value};
use std::alloc::Global;
use std::marker::Model;

/// Is informed of each write that a bound refused, and of what publishers with a bound hold.
pub trait BoundObserver {
    /// The publisher at this place among the bounds would have more than its bound.
    fn note_exceeded(&mut self, place: usize, bound: &Bound);

    /// The publisher at this place holds so much now.
    fn note_held(&mut self, place: usize, held: Count);
}

/// A table with a bound for each of some publishers. Contracts see what the table holds, how many calls were refused by it or by a bound,
/// what was read, what is counted for each publisher with a bound, and what the table owes.
#[derive(Drop)]
pub struct BoundedRows<R: Owing + Drop, A: BoundObserver + Drop> {
    rows: R,
    accounts: Accounts,
    refusals: u64,
    reads: u64,
    observer: A,
}

impl<R: Owing + Drop, A: BoundObserver + Drop> Model for BoundedRows<R, A> {
    ghost use Rattle.std.specs.Prelude.{◌+◌, min, map};
    ghost use Rattle.hdl_rows.specs.Table.{most};
    ghost use Rattle.hdl_boundedrows.specs.Bounded.{Bounded, bounded_code, holding_of};

    ghost Value = { Bounded };

    ghost coded = { bounded_code };

    ghost view = { λ s. record { table = R.content s.rows; refused = min (R.refused s.rows + s.refusals) most; reads = s.reads; holdings = map holding_of s.accounts; debt = R.debt s.rows } };
}

/// Refuses a write that would take a publisher beyond its bound, counts that, and tells of it.
fn permit<A: BoundObserver>(
    accounts: &Accounts,
    refusals: &mut u64,
    observer: &mut A,
    prefix: &[u8],
    change: CountChange,
) -> Result<(), Refused>
    ensures permitted { is_ok result ≡ are_permitted accounts.now prefix.now change }
    ensures count { refusals.new ≡ refusals_after result refusals.old }
{
    if accounts.permit(prefix, change) {
        return Ok(());
    }
    if let Some((place, bound)) = accounts.first_beyond(prefix, change) {
        observer.note_exceeded(place, bound);
    }
    *refusals = refusals.saturating_add(1);
    Err(Refused)
}

/// Tells what each publisher holds for which handles of this prefix count.
fn note_held<A: BoundObserver>(accounts: &Accounts, observer: &mut A, prefix: &[u8]) {
    for (place, account) in accounts.as_slice().iter().enumerate() {
        if account.counts(prefix) {
            observer.note_held(place, account.held);
        }
    }
}

/// What the administrative handle of a prefix counts.
fn held_at_root<R: Rows>(rows: &mut R, root: &Name) -> Result<Count, Refused>
    ensures unchanged { R.content rows.new ≡ R.content rows.old }
    ensures handles { IfOk result (λ held. held.handles ≡ at_most_u64 (counted.held_at_root in_handles (R.content rows.old) root.now)) }
    ensures values { IfOk result (λ held. held.amount.values ≡ at_most_u64 (counted.held_at_root in_values (R.content rows.old) root.now)) }
    ensures octets { IfOk result (λ held. held.amount.octets ≡ at_most_u64 (counted.held_at_root in_octets (R.content rows.old) root.now)) }
{
    match rows.look(root)? {
        Some(values) => Ok(handle_count(root.canon(), &values)),
        None => Ok(Count::NONE),
    }
}

/// What the handle with these octets counts, which must be a name in canonical form.
fn held_at<R: Rows>(alloc: Global, rows: &mut R, handle: &[u8]) -> Result<Count, Refused>
    ensures unchanged { R.content rows.new ≡ R.content rows.old }
    ensures handles { IfOk result (λ held. held.handles ≡ at_most_u64 (counted.held_at in_handles (R.content rows.old) handle.now)) }
    ensures values { IfOk result (λ held. held.amount.values ≡ at_most_u64 (counted.held_at in_values (R.content rows.old) handle.now)) }
    ensures octets { IfOk result (λ held. held.amount.octets ≡ at_most_u64 (counted.held_at in_octets (R.content rows.old) handle.now)) }
{
    let Ok(name) = Name::read(alloc, handle) else {
        return Err(Refused);
    };
    if name.canon() != handle {
        return Err(Refused);
    }
    let values = rows.values(&name)?;
    Ok(handle_count(handle, &values))
}

/// What the handles of a prefix count, its administrative handle among them.
fn held_under<R: Rows>(alloc: Global, rows: &mut R, root: &Name) -> Result<Count, Refused>
    ensures unchanged { R.content rows.new ≡ R.content rows.old }
    ensures handles { IfOk result (λ held. held.handles ≡ at_most_u64 (counted.held_under in_handles (R.content rows.old) root.now)) }
    ensures values { IfOk result (λ held. held.amount.values ≡ at_most_u64 (counted.held_under in_values (R.content rows.old) root.now)) }
    ensures octets { IfOk result (λ held. held.amount.octets ≡ at_most_u64 (counted.held_under in_octets (R.content rows.old) root.now)) }
{
    let mut sum = held_at_root(rows, root)?;
    let names = rows.names(root.prefix())?;
    for handle in &names {
        sum = sum.plus(held_at(alloc, rows, handle.as_slice())?);
    }
    Ok(sum)
}

/// What the handles of these prefixes count.
fn held_by<R: Rows>(alloc: Global, rows: &mut R, roots: &[Name]) -> Result<Count, Refused>
    ensures unchanged { R.content rows.new ≡ R.content rows.old }
    ensures handles { IfOk result (λ held. held.handles ≡ at_most_u64 (counted.held_by in_handles (R.content rows.old) roots.now)) }
    ensures values { IfOk result (λ held. held.amount.values ≡ at_most_u64 (counted.held_by in_values (R.content rows.old) roots.now)) }
    ensures octets { IfOk result (λ held. held.amount.octets ≡ at_most_u64 (counted.held_by in_octets (R.content rows.old) roots.now)) }
{
    let mut sum = Count::NONE;
    for root in roots {
        sum = sum.plus(held_under(alloc, rows, root)?);
    }
    Ok(sum)
}

impl<R: Owing + Drop, A: BoundObserver + Drop> BoundedRows<R, A> {
    /// A table that is there already, with these bounds. What each publisher holds is counted.
    ///
    /// Refused where the table refuses a look, for want of memory, or where a handle of a prefix isn't a name in canonical form. The table is
    /// dropped then.
    pub fn new(
        alloc: Global,
        mut rows: R,
        bounds: Vec<Bound>,
        mut observer: A,
    ) -> Result<BoundedRows<R, A>, Refused>
        ensures table { IfOk result (λ bounded. bounded.table ≡ R.content rows) }
        ensures holdings { IfOk result (λ bounded. bounded.holdings ≡ map (holding_at_first (R.content rows)) bounds.items) }
    {
        let mut accounts = Accounts::new(alloc);
        for bound in bounds {
            let held = held_by(alloc, &mut rows, &bound.roots)?;
            accounts.push(Account { bound, held })?;
        }
        for (place, account) in accounts.as_slice().iter().enumerate() {
            observer.note_held(place, account.held);
        }
        Ok(BoundedRows {
            rows,
            accounts,
            refusals: 0,
            reads: 0,
            observer,
        })
    }

    /// The table, without its bounds.
    pub fn into_rows(self) -> R
        ensures { R.content result ≡ self.table }
    {
        self.rows
    }
}

impl<R: Owing + Drop, A: BoundObserver + Drop> Rows for BoundedRows<R, A> {
    ghost content = { λ s. s.table };

    ghost refused = { λ s. s.refused };

    ghost reads = { λ s. s.reads };

    fn exists(&mut self, name: &Name) -> Result<bool, Refused>
        ensures found { IfOk result (λ is. is ≡ has self.old.table (canonical name.now)) }
        ensures unchanged { self.new.table ≡ self.old.table }
        ensures count { self.new.refused ≡ refusals_after result self.old.refused }
        ensures reads { self.new.reads ≡ reads_after nothing result self.old.reads }
        ensures holdings { self.new.holdings ≡ self.old.holdings }
    {
        let is = self.rows.exists(name)?;
        self.reads = with_call(self.reads, 0);
        Ok(is)
    }

    fn at(&mut self, reference: &Reference) -> Result<Option<Value>, Refused>
        ensures found { IfOk result (λ value. value ≡ at self.old.table (place_of reference.now)) }
        ensures unchanged { self.new.table ≡ self.old.table }
        ensures count { self.new.refused ≡ refusals_after result self.old.refused }
        ensures reads { self.new.reads ≡ reads_after of_value result self.old.reads }
        ensures holdings { self.new.holdings ≡ self.old.holdings }
    {
        let value = self.rows.at(reference)?;
        self.reads = with_call(self.reads, found_octets(&value));
        Ok(value)
    }

    fn values(&mut self, name: &Name) -> Result<Vec<Value>, Refused>
        ensures found { IfOk result (λ all. all.items ≡ values_of self.old.table (canonical name.now)) }
        ensures by_index { IfOk result (λ all. HaveTheirIndexes self.old.table (canonical name.now) all.items) }
        ensures unchanged { self.new.table ≡ self.old.table }
        ensures count { self.new.refused ≡ refusals_after result self.old.refused }
        ensures reads { self.new.reads ≡ reads_after (λ all. values_octets all.items) result self.old.reads }
        ensures holdings { self.new.holdings ≡ self.old.holdings }
    {
        let values = self.rows.values(name)?;
        self.reads = with_call(self.reads, values_octets(&values));
        Ok(values)
    }

    fn look(&mut self, name: &Name) -> Result<Option<Vec<Value>>, Refused>
        ensures there { IfOk result (λ all. is_some all ≡ has self.old.table (canonical name.now)) }
        ensures found { IfOk result (λ all. values_in all ≡ values_of self.old.table (canonical name.now)) }
        ensures by_index { IfOk result (λ all. HaveTheirIndexes self.old.table (canonical name.now) (values_in all)) }
        ensures unchanged { self.new.table ≡ self.old.table }
        ensures count { self.new.refused ≡ refusals_after result self.old.refused }
        ensures reads { self.new.reads ≡ reads_after (λ all. values_octets (values_in all)) result self.old.reads }
        ensures holdings { self.new.holdings ≡ self.old.holdings }
    {
        let seen = self.rows.look(name)?;
        self.reads = with_call(self.reads, seen_octets(&seen));
        Ok(seen)
    }

    fn heads(&mut self, name: &Name) -> Result<Option<Vec<Value>>, Refused>
        ensures there { IfOk result (λ all. is_some all ≡ has self.old.table (canonical name.now)) }
        ensures found { IfOk result (λ all. values_in all ≡ heads_of self.old.table (canonical name.now)) }
        ensures by_index { OnOk result (HaveTheirIndexes self.old.table (canonical name.now) (values_of self.old.table (canonical name.now))) }
        ensures unchanged { self.new.table ≡ self.old.table }
        ensures count { self.new.refused ≡ refusals_after result self.old.refused }
        ensures reads { self.new.reads ≡ reads_after (λ all. values_octets (values_in all)) result self.old.reads }
        ensures holdings { self.new.holdings ≡ self.old.holdings }
    {
        let seen = self.rows.heads(name)?;
        self.reads = with_call(self.reads, seen_octets(&seen));
        Ok(seen)
    }

    fn names(&mut self, authority: &[u8]) -> Result<Vec<Octets>, Refused>
        ensures found { IfOk result (λ all. all.items ≡ names_of self.old.table authority.now) }
        ensures unchanged { self.new.table ≡ self.old.table }
        ensures count { self.new.refused ≡ refusals_after result self.old.refused }
        ensures reads { self.new.reads ≡ reads_after (λ all. names_octets all.items) result self.old.reads }
        ensures holdings { self.new.holdings ≡ self.old.holdings }
    {
        let names = self.rows.names(authority)?;
        self.reads = with_call(self.reads, names_octets(&names));
        Ok(names)
    }

    fn create(
        &mut self,
        name: &Name,
        values: &[Value],
        provenance: &Provenance<'_>,
    ) -> Result<(), Refused>
        requires absent { has self.old.table (canonical name.now) ≡ false }
        requires distinct { AreDistinct (indexes values.now) }
        ensures done { OnOk result (self.new.table ≡ with_new_handle self.old.table (canonical name.now) values.now) }
        ensures undone { OnErr result (self.new.table ≡ self.old.table) }
        ensures count { self.new.refused ≡ refusals_after result self.old.refused }
        ensures reads { self.new.reads ≡ self.old.reads }
        ensures unchanged { OnErr result (self.new.holdings ≡ self.old.holdings) }
        ensures settled { OnOk result (self.new.holdings ≡ map (holding_after (prefix name.now) (λ m. with_handle m (canonical name.now) values.now) none) self.old.holdings) }
        ensures within { OnOk result (AllByRecursion (λ h. IsWithin (prefix name.now) h (holding_after (prefix name.now) (λ m. with_handle m (canonical name.now) values.now) none h)) self.old.holdings) }
    {
        let prefix = name.prefix();
        if !self.accounts.count(prefix) {
            return self.rows.create(name, values, provenance);
        }
        let change = CountChange {
            gain: handle_count(name.canon(), values),
            back: Count::NONE,
        };
        permit(
            &self.accounts,
            &mut self.refusals,
            &mut self.observer,
            prefix,
            change,
        )?;
        self.rows.create(name, values, provenance)?;
        self.accounts.count_change(prefix, change);
        note_held(&self.accounts, &mut self.observer, prefix);
        Ok(())
    }

    fn add(
        &mut self,
        name: &Name,
        values: &[Value],
        provenance: &Provenance<'_>,
    ) -> Result<(), Refused>
        requires there { has self.old.table (canonical name.now) ≡ true }
        requires distinct { AreDistinct (indexes values.now) }
        requires free { AreAbsent self.old.table (canonical name.now) (indexes values.now) }
        ensures done { OnOk result (self.new.table ≡ with_values self.old.table (canonical name.now) values.now) }
        ensures undone { OnErr result (self.new.table ≡ self.old.table) }
        ensures count { self.new.refused ≡ refusals_after result self.old.refused }
        ensures reads { self.new.reads ≡ self.old.reads }
        ensures unchanged { OnErr result (self.new.holdings ≡ self.old.holdings) }
        ensures settled { OnOk result (self.new.holdings ≡ map (holding_after (prefix name.now) (λ m. sum_by m.value values.now) none) self.old.holdings) }
        ensures within { OnOk result (AllByRecursion (λ h. IsWithin (prefix name.now) h (holding_after (prefix name.now) (λ m. sum_by m.value values.now) none h)) self.old.holdings) }
    {
        let prefix = name.prefix();
        if !self.accounts.count(prefix) {
            return self.rows.add(name, values, provenance);
        }
        let change = CountChange {
            gain: values_count(values),
            back: Count::NONE,
        };
        permit(
            &self.accounts,
            &mut self.refusals,
            &mut self.observer,
            prefix,
            change,
        )?;
        self.rows.add(name, values, provenance)?;
        self.accounts.count_change(prefix, change);
        note_held(&self.accounts, &mut self.observer, prefix);
        Ok(())
    }

    fn modify(
        &mut self,
        name: &Name,
        values: &[Value],
        provenance: &Provenance<'_>,
    ) -> Result<(), Refused>
        requires there { has self.old.table (canonical name.now) ≡ true }
        requires distinct { AreDistinct (indexes values.now) }
        requires taken { ArePresent self.old.table (canonical name.now) (indexes values.now) }
        ensures done { OnOk result (self.new.table ≡ with_values self.old.table (canonical name.now) values.now) }
        ensures undone { OnErr result (self.new.table ≡ self.old.table) }
        ensures count { self.new.refused ≡ refusals_after result self.old.refused }
        ensures reads { self.new.reads ≡ self.old.reads }
        ensures unchanged { OnErr result (self.new.holdings ≡ self.old.holdings) }
        ensures settled { OnOk result (self.new.holdings ≡ map (holding_after (prefix name.now) (λ m. sum_by m.value values.now) (λ m. values_at m (values_of self.old.table (canonical name.now)) (indexes values.now))) self.old.holdings) }
        ensures within { OnOk result (AllByRecursion (λ h. IsWithin (prefix name.now) h (holding_after (prefix name.now) (λ m. sum_by m.value values.now) (λ m. values_at m (values_of self.old.table (canonical name.now)) (indexes values.now)) h)) self.old.holdings) }
    {
        let prefix = name.prefix();
        if !self.accounts.count(prefix) {
            return self.rows.modify(name, values, provenance);
        }
        let held = self.rows.values(name)?;
        let change = CountChange {
            gain: values_count(values),
            back: count_of_replaced(&held, values),
        };
        permit(
            &self.accounts,
            &mut self.refusals,
            &mut self.observer,
            prefix,
            change,
        )?;
        self.rows.modify(name, values, provenance)?;
        self.accounts.count_change(prefix, change);
        note_held(&self.accounts, &mut self.observer, prefix);
        Ok(())
    }

    fn remove(
        &mut self,
        name: &Name,
        indexes: &[u32],
        provenance: &Provenance<'_>,
    ) -> Result<(), Refused>
        requires there { has self.old.table (canonical name.now) ≡ true }
        requires distinct { AreDistinct indexes.now }
        requires taken { ArePresent self.old.table (canonical name.now) indexes.now }
        ensures done { OnOk result (self.new.table ≡ without_values self.old.table (canonical name.now) indexes.now) }
        ensures undone { OnErr result (self.new.table ≡ self.old.table) }
        ensures count { self.new.refused ≡ refusals_after result self.old.refused }
        ensures reads { self.new.reads ≡ self.old.reads }
        ensures unchanged { OnErr result (self.new.holdings ≡ self.old.holdings) }
        ensures settled { OnOk result (self.new.holdings ≡ map (holding_after (prefix name.now) none (λ m. values_at m (values_of self.old.table (canonical name.now)) indexes.now)) self.old.holdings) }
    {
        let prefix = name.prefix();
        if !self.accounts.count(prefix) {
            return self.rows.remove(name, indexes, provenance);
        }
        let held = self.rows.values(name)?;
        let change = CountChange {
            gain: Count::NONE,
            back: count_of_indexes(&held, indexes),
        };
        self.rows.remove(name, indexes, provenance)?;
        self.accounts.count_change(prefix, change);
        note_held(&self.accounts, &mut self.observer, prefix);
        Ok(())
    }

    fn delete(&mut self, name: &Name, provenance: &Provenance<'_>) -> Result<(), Refused>
        requires there { has self.old.table (canonical name.now) ≡ true }
        ensures done { OnOk result (self.new.table ≡ without_handle self.old.table (canonical name.now)) }
        ensures undone { OnErr result (self.new.table ≡ self.old.table) }
        ensures count { self.new.refused ≡ refusals_after result self.old.refused }
        ensures reads { self.new.reads ≡ self.old.reads }
        ensures unchanged { OnErr result (self.new.holdings ≡ self.old.holdings) }
        ensures settled { OnOk result (self.new.holdings ≡ map (holding_after (prefix name.now) none (λ m. with_handle m (canonical name.now) (values_of self.old.table (canonical name.now)))) self.old.holdings) }
    {
        let prefix = name.prefix();
        if !self.accounts.count(prefix) {
            return self.rows.delete(name, provenance);
        }
        let held = self.rows.values(name)?;
        let change = CountChange {
            gain: Count::NONE,
            back: handle_count(name.canon(), &held),
        };
        self.rows.delete(name, provenance)?;
        self.accounts.count_change(prefix, change);
        note_held(&self.accounts, &mut self.observer, prefix);
        Ok(())
    }

    fn refusals(&self) -> u64 {
        self.rows.refusals().saturating_add(self.refusals)
    }

    fn reads(&self) -> u64 {
        self.reads
    }
}

impl<R: Owing + Drop, A: BoundObserver + Drop> Owing for BoundedRows<R, A> {
    ghost debt = { λ s. s.debt };

    fn hands_over(&self) -> bool {
        self.rows.hands_over()
    }

    fn owed(&self) -> Owed {
        self.rows.owed()
    }

    fn set_may_write(&mut self, may_write: bool) {
        self.rows.set_may_write(may_write);
    }
}
