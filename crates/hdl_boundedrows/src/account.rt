//! What a publisher holds, and how much it may.

ghost use Rattle.std.specs.Prelude.{◌≡◌, map, not, option_map, position, slice_get, [], ◌∷◌, ◌++◌, IfSome, OnOk, OnErr};
ghost use Rattle.hdl_boundedrows.specs.Amount as spec;
ghost use Rattle.hdl_boundedrows.specs.Bounded as bounded;
ghost use Rattle.hdl_boundedrows.specs.Bounded.{is_among, roots_of, with_root, has_prefix, is_counted, are_permitted, after_change, may_change};

use crate::amount::{Amount, Count, handle_count, values_count};
use hdl_name::Name;
use hdl_rows::Refused;
use hdl_value::Value;
use std::alloc::{AllocError, Global};
use std::marker::Model;
use std::slice;

/// The authority of the administrative handles, which no publisher hosts.
const ROOT: &[u8] = b"0.na";

/// How much a publisher may hold.
#[derive(Drop)]
pub struct Bound {
    /// The publisher's name, for the report.
    pub publisher: String,
    /// The most that the handles of its prefixes may count.
    pub most: Amount,
    /// The administrative handles of these prefixes, such as 0.NA/10.
    pub(crate) roots: Vec<Name>,
}

impl Bound {
    /// The bound of a publisher, for which no handle counts yet.
    pub fn new(alloc: Global, publisher: String, most: Amount) -> Bound
        ensures publisher { result.publisher ≡ publisher }
        ensures most { result.most ≡ most }
        ensures roots { roots_of result ≡ [] }
    {
        Bound {
            publisher,
            most,
            roots: Vec::new(alloc),
        }
    }

    /// Adds a prefix, whose handles count from now on. It is named by its administrative handle, which counts too. A prefix counts once; another
    /// handle than an administrative one changes nothing, and neither does 0.NA/0.NA.
    pub fn add(&mut self, root: Name) -> Result<(), AllocError>
        ensures roots { OnOk result (roots_of self.new ≡ with_root (roots_of self.old) root) }
        ensures unchanged { OnErr result (roots_of self.new ≡ roots_of self.old) }
        ensures publisher { self.new.publisher ≡ self.old.publisher }
        ensures most { self.new.most ≡ self.old.most }
    {
        let prefix = root.prefix();
        if !root.is_admin_handle() || prefix == ROOT || self.has(prefix) {
            return Ok(());
        }
        self.roots.push(root)?;
        Ok(())
    }

    /// Whether handles of this prefix count.
    pub(crate) fn has(&self, prefix: &[u8]) -> bool
        ensures { result ≡ is_among self.now.roots.items prefix.now }
    {
        self.roots.iter().any(|root| root.prefix() == prefix)
    }

    /// The amount of the rows of a text, each handle once.
    pub fn amount_of_rows(
        &self,
        alloc: Global,
        rows: &[(Name, Value)],
    ) -> Result<Amount, AllocError> {
        let mut handles = Vec::new(alloc);
        let mut sum = Count::NONE;
        for row in rows {
            if self.has(row.0.prefix()) {
                handles.push(row.0.canon())?;
                sum = sum.plus(values_count(slice::from_ref(&row.1)));
            }
        }
        handles.sort()?;
        let mut last: Option<&[u8]> = None;
        for handle in handles {
            if last != Some(handle) {
                sum = sum.plus(handle_count(handle, &[]));
                last = Some(handle);
            }
        }
        Ok(sum.amount)
    }
}

/// What a write makes of a count.
#[derive(Clone, Copy, Drop)]
pub(crate) struct CountChange {
    pub(crate) gain: Count,
    pub(crate) back: Count,
}

/// A bound, and what is held.
#[derive(Drop)]
pub(crate) struct Account {
    pub(crate) bound: Bound,
    pub(crate) held: Count,
}

/// A count once some was given back and some gained. The greatest stays.
fn moved_count(held: u64, gain: u64, back: u64) -> u64
    ensures { result ≡ spec.moved_count held gain back }
{
    if held == u64::MAX {
        return held;
    }
    held.saturating_sub(back).saturating_add(gain)
}

/// Whether a count may become this.
fn may_become(bound: u64, held: u64, next: u64) -> bool
    ensures { result ≡ spec.may_become bound held next }
{
    next < u64::MAX && (next <= bound || next <= held)
}

impl Amount {
    /// What is held once some was given back and some gained.
    fn moved(self, gain: Amount, back: Amount) -> Amount
        ensures values { result.values ≡ spec.moved_count self.values gain.values back.values }
        ensures octets { result.octets ≡ spec.moved_count self.octets gain.octets back.octets }
    {
        Amount {
            values: moved_count(self.values, gain.values, back.values),
            octets: moved_count(self.octets, gain.octets, back.octets),
        }
    }
}

impl Count {
    /// What is held after a change.
    fn after(self, change: CountChange) -> Count
        ensures handles { result.handles ≡ spec.moved_count self.handles change.gain.handles change.back.handles }
        ensures values { result.amount.values ≡ spec.moved_count self.amount.values change.gain.amount.values change.back.amount.values }
        ensures octets { result.amount.octets ≡ spec.moved_count self.amount.octets change.gain.amount.octets change.back.amount.octets }
    {
        let CountChange { gain, back } = change;
        Count {
            handles: moved_count(self.handles, gain.handles, back.handles),
            amount: self.amount.moved(gain.amount, back.amount),
        }
    }
}

impl Account {
    /// Whether handles of this prefix count.
    pub(crate) fn counts(&self, prefix: &[u8]) -> bool
        ensures { result ≡ has_prefix self.now prefix.now }
    {
        self.bound.roots.iter().any(|root| root.prefix() == prefix)
    }

    /// Whether the publisher may hold what a change makes of it.
    fn may_take(&self, change: CountChange) -> bool
        ensures { result ≡ may_change self.now change }
    {
        let most = self.bound.most;
        let held = self.held.amount;
        let next = self.held.after(change).amount;
        may_become(most.values, held.values, next.values)
            && may_become(most.octets, held.octets, next.octets)
    }

    /// Whether the change of a handle of this prefix is nothing to the publisher, or one that it may make.
    fn is_permitted(&self, prefix: &[u8], change: CountChange) -> bool
        ensures { result ≡ bounded.is_permitted prefix.now change self.now }
    {
        !self.counts(prefix) || self.may_take(change)
    }

    /// Counts the change of a handle of this prefix.
    fn take(&mut self, prefix: &[u8], change: CountChange)
        ensures { self.new ≡ after_change prefix.now change self.old }
    {
        if self.counts(prefix) {
            self.held = self.held.after(change);
        }
    }
}

/// The accounts of all publishers that have a bound. Contracts see the list of them.
#[derive(Drop)]
pub(crate) struct Accounts {
    all: Vec<Account>,
}

impl Model for Accounts {
    ghost use Rattle.std.specs.Prelude.{List};
    ghost use Rattle.hdl_boundedrows.specs.declared.account.Account.{Account};

    ghost Value = { List Account };

    ghost view = { λ s. s.all.items };
}

impl Accounts {
    /// The accounts of no bound.
    pub(crate) fn new(alloc: Global) -> Accounts
        ensures { result ≡ [] }
    {
        Accounts {
            all: Vec::new(alloc),
        }
    }

    /// All of them, in the order of their bounds.
    pub(crate) fn as_slice(&self) -> &[Account]
        ensures { result.now ≡ self.now }
    {
        self.all.as_slice()
    }

    /// One more.
    pub(crate) fn push(&mut self, account: Account) -> Result<(), Refused>
        ensures { OnOk result (self.new ≡ self.old ++ account ∷ []) }
    {
        match self.all.push(account) {
            Ok(()) => Ok(()),
            Err(_) => Err(Refused),
        }
    }

    /// Whether a handle of this prefix counts for some publisher.
    pub(crate) fn count(&self, prefix: &[u8]) -> bool
        ensures { result ≡ is_counted self.now prefix.now }
    {
        self.all.iter().any(|account| account.counts(prefix))
    }

    /// Whether each publisher for which handles of this prefix count may hold what a change makes of it.
    pub(crate) fn permit(&self, prefix: &[u8], change: CountChange) -> bool
        ensures { result ≡ are_permitted self.now prefix.now change }
    {
        self.all
            .iter()
            .all(|account| account.is_permitted(prefix, change))
    }

    /// The place of the first publisher that may not.
    fn place_beyond(&self, prefix: &[u8], change: CountChange) -> Option<usize>
        ensures { result ≡ position (λ account. not (bounded.is_permitted prefix.now change account)) self.now }
    {
        self.all
            .iter()
            .position(|account| !account.is_permitted(prefix, change))
    }

    /// The place of the first publisher that may not, and its bound.
    pub(crate) fn first_beyond(&self, prefix: &[u8], change: CountChange) -> Option<(usize, &Bound)>
        ensures first { option_map (λ found. found.0) result ≡ position (λ account. not (bounded.is_permitted prefix.now change account)) self.now }
        ensures bound { IfSome result (λ found. option_map (λ account. account.bound) (slice_get self.now found.0) ≡ Some found.1.now) }
    {
        match self.place_beyond(prefix, change) {
            Some(place) => Some((place, &self.all[place].bound)),
            None => None,
        }
    }

    /// Counts the change of a handle of this prefix.
    pub(crate) fn count_change(&mut self, prefix: &[u8], change: CountChange)
        ensures { self.new ≡ map (after_change prefix.now change) self.old }
    {
        for account in self.all.iter_mut() {
            account.take(prefix, change);
        }
    }
}
