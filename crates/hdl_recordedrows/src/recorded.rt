//! The table.

ghost use Rattle.std.specs.Prelude.{◌≡◌, ◌+◌, [], min, true, false, IsTrue, OnErr, OnOk};
ghost use Rattle.hdl_name.specs.Name.{canonical};
ghost use Rattle.hdl_rows.specs.Table.{AreAbsent, AreDistinct, ArePresent, has, indexes, most, refusals_after, values_of, with_new_handle, with_values, without_handle, without_values};
ghost use Rattle.hdl_rows.specs.Write.{Add, Create, Delete, Modify, Remove};
ghost use Rattle.hdl_recordedrows.specs.Before.{standing};
ghost use Rattle.hdl_recordedrows.specs.Recorded.{is_clients, told_by, told_of, Hears};

use crate::before::{values_at, values_replaced};
use crate::history::{DoneChange, DoneWrite, History};
use hdl_limits::Octets;
use hdl_name::Name;
use hdl_rows::reads::{found_octets, names_octets, seen_octets, values_octets, with_call};
use hdl_rows::{Agent, Owed, Owing, Provenance, Refused, Rows};
use hdl_value::{Reference, Value};
use std::alloc::Global;
use std::marker::Model;

/// A table whose changes are told to a history. Contracts see what the table holds, how many calls were refused, what its callers read, what the table owes, and the history.
#[derive(Drop)]
pub struct RecordedRows<R: Owing + Drop, H: History + Drop> {
    alloc: Global,
    rows: R,
    history: H,
    refusals: u64,
    reads: u64,
}

impl<R: Owing + Drop, H: History + Drop> Model for RecordedRows<R, H> {
    ghost use Rattle.std.specs.Prelude.{◌+◌, min};
    ghost use Rattle.hdl_rows.specs.Table.{most};
    ghost use Rattle.hdl_recordedrows.specs.Recorded.{Recorded, recorded_code};

    ghost Value = { Recorded H };

    ghost coded = { recorded_code H.code };

    ghost view = { λ s. record { table = R.content s.rows; refused = min (R.refused s.rows + s.refusals) most; reads = s.reads; debt = R.debt s.rows; history = s.history } };
}

/// Whether a write with this provenance is told to the history. What opens a table is no change, and each server keeps the changes that it decided.
fn is_told<H: History>(history: &H, provenance: &Provenance<'_>) -> bool
    ensures told { IsTrue H.is_observed → result ≡ is_clients provenance.now.agent }
{
    match provenance.agent {
        Agent::Anyone | Agent::Key { .. } => history.is_kept(),
        Agent::Opening | Agent::Server => false,
    }
}

impl<R: Owing + Drop, H: History + Drop> RecordedRows<R, H> {
    /// The table, whose changes this history hears of.
    pub fn new(alloc: Global, rows: R, history: H) -> RecordedRows<R, H>
        ensures table { result.table ≡ R.content rows }
        ensures history { result.history ≡ history }
    {
        RecordedRows {
            alloc,
            rows,
            history,
            refusals: 0,
            reads: 0,
        }
    }

    /// The table behind.
    pub fn into_inner(self) -> R
        ensures { R.content result ≡ self.table }
    {
        let RecordedRows { rows, .. } = self;
        rows
    }
}

/// Tells the history of a change that was done, if it is one that it hears of.
fn note_done<H: History>(history: &mut H, change: &DoneChange<'_>)
    ensures told { IsTrue H.is_observed → Hears change.now.provenance.now (told_of change.now) (H.told history.old) (H.told history.new) }
{
    if is_told(history, change.provenance) {
        history.note(change);
    }
}

impl<R: Owing + Drop, H: History + Drop> Rows for RecordedRows<R, H> {
    ghost content = { λ s. s.table };

    ghost refused = { λ s. s.refused };

    ghost reads = { λ s. s.reads };

    fn exists(&mut self, name: &Name) -> Result<bool, Refused> {
        let is = self.rows.exists(name)?;
        self.reads = with_call(self.reads, 0);
        Ok(is)
    }

    fn at(&mut self, reference: &Reference) -> Result<Option<Value>, Refused> {
        let value = self.rows.at(reference)?;
        self.reads = with_call(self.reads, found_octets(&value));
        Ok(value)
    }

    fn values(&mut self, name: &Name) -> Result<Vec<Value>, Refused> {
        let values = self.rows.values(name)?;
        self.reads = with_call(self.reads, values_octets(&values));
        Ok(values)
    }

    fn look(&mut self, name: &Name) -> Result<Option<Vec<Value>>, Refused> {
        let seen = self.rows.look(name)?;
        self.reads = with_call(self.reads, seen_octets(&seen));
        Ok(seen)
    }

    fn heads(&mut self, name: &Name) -> Result<Option<Vec<Value>>, Refused> {
        let heads = self.rows.heads(name)?;
        self.reads = with_call(self.reads, seen_octets(&heads));
        Ok(heads)
    }

    fn names(&mut self, authority: &[u8]) -> Result<Vec<Octets>, Refused> {
        let names = self.rows.names(authority)?;
        self.reads = with_call(self.reads, names_octets(&names));
        Ok(names)
    }

    fn create(
        &mut self,
        name: &Name,
        values: &[Value],
        provenance: &Provenance<'_>,
    ) -> Result<(), Refused>
        requires absent { has self.old.table (canonical name.now) ≡ false }
        requires distinct { AreDistinct (indexes values.now) }
        ensures done { OnOk result (self.new.table ≡ with_new_handle self.old.table (canonical name.now) values.now) }
        ensures undone { OnErr result (self.new.table ≡ self.old.table) }
        ensures count { self.new.refused ≡ refusals_after result self.old.refused }
        ensures reads { self.new.reads ≡ self.old.reads }
        ensures told { IsTrue H.is_observed → OnOk result (Hears provenance.now (told_by provenance.now (Create (canonical name.now) values.now) []) (H.told self.old.history) (H.told self.new.history)) }
        ensures untold { IsTrue H.is_observed → OnErr result (H.told self.new.history ≡ H.told self.old.history) }
    {
        self.rows.create(name, values, provenance)?;
        let change = DoneChange {
            name,
            write: DoneWrite::Create(values),
            before: &[],
            provenance,
        };
        note_done(&mut self.history, &change);
        Ok(())
    }

    fn add(
        &mut self,
        name: &Name,
        values: &[Value],
        provenance: &Provenance<'_>,
    ) -> Result<(), Refused>
        requires there { has self.old.table (canonical name.now) ≡ true }
        requires distinct { AreDistinct (indexes values.now) }
        requires free { AreAbsent self.old.table (canonical name.now) (indexes values.now) }
        ensures done { OnOk result (self.new.table ≡ with_values self.old.table (canonical name.now) values.now) }
        ensures undone { OnErr result (self.new.table ≡ self.old.table) }
        ensures count { self.new.refused ≡ refusals_after result self.old.refused }
        ensures reads { self.new.reads ≡ self.old.reads }
        ensures told { IsTrue H.is_observed → OnOk result (Hears provenance.now (told_by provenance.now (Add (canonical name.now) values.now) []) (H.told self.old.history) (H.told self.new.history)) }
        ensures untold { IsTrue H.is_observed → OnErr result (H.told self.new.history ≡ H.told self.old.history) }
    {
        self.rows.add(name, values, provenance)?;
        let change = DoneChange {
            name,
            write: DoneWrite::Add(values),
            before: &[],
            provenance,
        };
        note_done(&mut self.history, &change);
        Ok(())
    }

    fn modify(
        &mut self,
        name: &Name,
        values: &[Value],
        provenance: &Provenance<'_>,
    ) -> Result<(), Refused>
        requires there { has self.old.table (canonical name.now) ≡ true }
        requires distinct { AreDistinct (indexes values.now) }
        requires taken { ArePresent self.old.table (canonical name.now) (indexes values.now) }
        ensures done { OnOk result (self.new.table ≡ with_values self.old.table (canonical name.now) values.now) }
        ensures undone { OnErr result (self.new.table ≡ self.old.table) }
        ensures count { self.new.refused ≡ refusals_after result self.old.refused }
        ensures reads { self.new.reads ≡ self.old.reads }
        ensures told { IsTrue H.is_observed → OnOk result (Hears provenance.now (told_by provenance.now (Modify (canonical name.now) values.now) (standing self.old.table (canonical name.now) (indexes values.now))) (H.told self.old.history) (H.told self.new.history)) }
        ensures untold { IsTrue H.is_observed → OnErr result (H.told self.new.history ≡ H.told self.old.history) }
    {
        if !is_told(&self.history, provenance) {
            return self.rows.modify(name, values, provenance);
        }
        let refusals = &mut self.refusals;
        let before = values_replaced(self.alloc, &mut self.rows, refusals, name, values)?;
        self.rows.modify(name, values, provenance)?;
        let change = DoneChange {
            name,
            write: DoneWrite::Modify(values),
            before: &before,
            provenance,
        };
        note_done(&mut self.history, &change);
        Ok(())
    }

    fn remove(
        &mut self,
        name: &Name,
        indexes: &[u32],
        provenance: &Provenance<'_>,
    ) -> Result<(), Refused>
        requires there { has self.old.table (canonical name.now) ≡ true }
        requires distinct { AreDistinct indexes.now }
        requires taken { ArePresent self.old.table (canonical name.now) indexes.now }
        ensures done { OnOk result (self.new.table ≡ without_values self.old.table (canonical name.now) indexes.now) }
        ensures undone { OnErr result (self.new.table ≡ self.old.table) }
        ensures count { self.new.refused ≡ refusals_after result self.old.refused }
        ensures reads { self.new.reads ≡ self.old.reads }
        ensures told { IsTrue H.is_observed → OnOk result (Hears provenance.now (told_by provenance.now (Remove (canonical name.now) indexes.now) (standing self.old.table (canonical name.now) indexes.now)) (H.told self.old.history) (H.told self.new.history)) }
        ensures untold { IsTrue H.is_observed → OnErr result (H.told self.new.history ≡ H.told self.old.history) }
    {
        if !is_told(&self.history, provenance) {
            return self.rows.remove(name, indexes, provenance);
        }
        let refusals = &mut self.refusals;
        let before = values_at(self.alloc, &mut self.rows, refusals, name, indexes)?;
        self.rows.remove(name, indexes, provenance)?;
        let change = DoneChange {
            name,
            write: DoneWrite::Remove(indexes),
            before: &before,
            provenance,
        };
        note_done(&mut self.history, &change);
        Ok(())
    }

    fn delete(&mut self, name: &Name, provenance: &Provenance<'_>) -> Result<(), Refused>
        requires there { has self.old.table (canonical name.now) ≡ true }
        ensures done { OnOk result (self.new.table ≡ without_handle self.old.table (canonical name.now)) }
        ensures undone { OnErr result (self.new.table ≡ self.old.table) }
        ensures count { self.new.refused ≡ refusals_after result self.old.refused }
        ensures reads { self.new.reads ≡ self.old.reads }
        ensures told { IsTrue H.is_observed → OnOk result (Hears provenance.now (told_by provenance.now (Delete (canonical name.now)) (values_of self.old.table (canonical name.now))) (H.told self.old.history) (H.told self.new.history)) }
        ensures untold { IsTrue H.is_observed → OnErr result (H.told self.new.history ≡ H.told self.old.history) }
    {
        if !is_told(&self.history, provenance) {
            return self.rows.delete(name, provenance);
        }
        let before = self.rows.values(name)?;
        self.rows.delete(name, provenance)?;
        let change = DoneChange {
            name,
            write: DoneWrite::Delete,
            before: &before,
            provenance,
        };
        note_done(&mut self.history, &change);
        Ok(())
    }

    fn refusals(&self) -> u64 {
        self.rows.refusals().saturating_add(self.refusals)
    }

    fn reads(&self) -> u64 {
        self.reads
    }
}

impl<R: Owing + Drop, H: History + Drop> Owing for RecordedRows<R, H> {
    ghost debt = { λ s. s.debt };

    fn hands_over(&self) -> bool {
        self.rows.hands_over()
    }

    fn owed(&self) -> Owed {
        self.rows.owed()
    }

    fn set_may_write(&mut self, may_write: bool) {
        self.rows.set_may_write(may_write);
    }
}
