//! The table.

ghost use Rattle.std.specs.Prelude.{◌≡◌, ◌+◌, min};
ghost use Rattle.hdl_rows.specs.Table.{most, refusals_after};

use crate::fingerprint::{Kind, fingerprint_of, fingerprint_of_indexes, fingerprint_of_values};
use crate::gate::Gate;
use crate::guard::{Effect, Guard};
use crate::sizes::takes_no_more;
use hdl_limits::Octets;
use hdl_name::Name;
use hdl_rows::reads::{found_octets, names_octets, seen_octets, values_octets, with_call};
use hdl_rows::{Owed, Owing, Provenance, Refused, Rows};
use hdl_value::{Reference, Value};
use std::marker::Model;

/// A table with a guard before its writes. Contracts see what the table holds, how many calls were refused by it or by the guard, what was read, and what the table owes.
#[derive(Drop)]
pub struct GuardedRows<R: Owing + Drop, G: Guard + Drop> {
    rows: R,
    gate: Gate<G>,
    refusals: u64,
    reads: u64,
}

impl<R: Owing + Drop, G: Guard + Drop> Model for GuardedRows<R, G> {
    ghost use Rattle.std.specs.Prelude.{◌+◌, min};
    ghost use Rattle.hdl_rows.specs.Table.{most};
    ghost use Rattle.hdl_guardedrows.specs.Guarded.{Guarded, guarded_code};

    ghost Value = { Guarded };

    ghost coded = { guarded_code };

    ghost view = { λ s. record { table = R.content s.rows; refused = min (R.refused s.rows + s.refusals) most; reads = s.reads; debt = R.debt s.rows } };
}

/// Counts a write that isn't made.
fn refuse(refusals: &mut u64) -> Refused
    ensures { refusals.new ≡ min (refusals.old + 1) most }
{
    *refusals = refusals.saturating_add(1);
    Refused
}

/// Asks for the write with this effect and mark, and counts one that isn't permitted.
fn permit<R: Owing, G: Guard>(
    rows: &R,
    gate: &mut Gate<G>,
    refusals: &mut u64,
    effect: Effect,
    fingerprint: u64,
) -> Result<(), Refused>
    ensures count { refusals.new ≡ refusals_after result refusals.old }
{
    if gate.try_pass(rows, effect, fingerprint) {
        return Ok(());
    }
    gate.forbid();
    Err(refuse(refusals))
}

/// What a modify does, by the values that are held.
fn effect_of(held: &[Value], values: &[Value]) -> Effect {
    if takes_no_more(held, values) {
        Effect::Frees
    } else {
        Effect::Takes
    }
}

impl<R: Owing + Drop, G: Guard + Drop> GuardedRows<R, G> {
    /// The table, guarded by this guard.
    pub fn new(rows: R, guard: G) -> GuardedRows<R, G>
        ensures { result.table ≡ R.content rows }
    {
        GuardedRows {
            rows,
            gate: Gate::new(guard),
            refusals: 0,
            reads: 0,
        }
    }

    /// The guarded table, and the guard.
    pub fn into_parts(self) -> (R, G)
        ensures { R.content result.0 ≡ self.table }
    {
        let GuardedRows { rows, gate, .. } = self;
        (rows, gate.into_guard())
    }
}

impl<R: Owing + Drop, G: Guard + Drop> Rows for GuardedRows<R, G> {
    ghost content = { λ s. s.table };

    ghost refused = { λ s. s.refused };

    ghost reads = { λ s. s.reads };

    fn exists(&mut self, name: &Name) -> Result<bool, Refused> {
        let is = self.rows.exists(name)?;
        self.reads = with_call(self.reads, 0);
        Ok(is)
    }

    fn at(&mut self, reference: &Reference) -> Result<Option<Value>, Refused> {
        let value = self.rows.at(reference)?;
        self.reads = with_call(self.reads, found_octets(&value));
        Ok(value)
    }

    fn values(&mut self, name: &Name) -> Result<Vec<Value>, Refused> {
        let values = self.rows.values(name)?;
        self.reads = with_call(self.reads, values_octets(&values));
        Ok(values)
    }

    fn look(&mut self, name: &Name) -> Result<Option<Vec<Value>>, Refused> {
        let seen = self.rows.look(name)?;
        self.reads = with_call(self.reads, seen_octets(&seen));
        Ok(seen)
    }

    fn heads(&mut self, name: &Name) -> Result<Option<Vec<Value>>, Refused> {
        let heads = self.rows.heads(name)?;
        self.reads = with_call(self.reads, seen_octets(&heads));
        Ok(heads)
    }

    fn names(&mut self, authority: &[u8]) -> Result<Vec<Octets>, Refused> {
        let names = self.rows.names(authority)?;
        self.reads = with_call(self.reads, names_octets(&names));
        Ok(names)
    }

    fn create(
        &mut self,
        name: &Name,
        values: &[Value],
        provenance: &Provenance<'_>,
    ) -> Result<(), Refused> {
        let fingerprint = fingerprint_of_values(Kind::Create, name, values);
        permit(
            &self.rows,
            &mut self.gate,
            &mut self.refusals,
            Effect::Takes,
            fingerprint,
        )?;
        let done = self.rows.create(name, values, provenance);
        self.gate.tell(&self.rows, fingerprint, done.is_ok());
        done
    }

    fn add(
        &mut self,
        name: &Name,
        values: &[Value],
        provenance: &Provenance<'_>,
    ) -> Result<(), Refused> {
        let fingerprint = fingerprint_of_values(Kind::Add, name, values);
        permit(
            &self.rows,
            &mut self.gate,
            &mut self.refusals,
            Effect::Takes,
            fingerprint,
        )?;
        let done = self.rows.add(name, values, provenance);
        self.gate.tell(&self.rows, fingerprint, done.is_ok());
        done
    }

    /// If the table may not take more, it is checked whether the replaced values have as many octets.
    fn modify(
        &mut self,
        name: &Name,
        values: &[Value],
        provenance: &Provenance<'_>,
    ) -> Result<(), Refused> {
        let fingerprint = fingerprint_of_values(Kind::Modify, name, values);
        if !self.gate.try_pass(&self.rows, Effect::Takes, fingerprint) {
            let held = self.rows.values(name)?;
            permit(
                &self.rows,
                &mut self.gate,
                &mut self.refusals,
                effect_of(&held, values),
                fingerprint,
            )?;
        }
        let done = self.rows.modify(name, values, provenance);
        self.gate.tell(&self.rows, fingerprint, done.is_ok());
        done
    }

    fn remove(
        &mut self,
        name: &Name,
        indexes: &[u32],
        provenance: &Provenance<'_>,
    ) -> Result<(), Refused> {
        let fingerprint = fingerprint_of_indexes(Kind::Remove, name, indexes);
        permit(
            &self.rows,
            &mut self.gate,
            &mut self.refusals,
            Effect::Frees,
            fingerprint,
        )?;
        let done = self.rows.remove(name, indexes, provenance);
        self.gate.tell(&self.rows, fingerprint, done.is_ok());
        done
    }

    fn delete(&mut self, name: &Name, provenance: &Provenance<'_>) -> Result<(), Refused> {
        let fingerprint = fingerprint_of(Kind::Delete, name);
        permit(
            &self.rows,
            &mut self.gate,
            &mut self.refusals,
            Effect::Frees,
            fingerprint,
        )?;
        let done = self.rows.delete(name, provenance);
        self.gate.tell(&self.rows, fingerprint, done.is_ok());
        done
    }

    fn refusals(&self) -> u64 {
        self.rows.refusals().saturating_add(self.refusals)
    }

    fn reads(&self) -> u64 {
        self.reads
    }
}

impl<R: Owing + Drop, G: Guard + Drop> Owing for GuardedRows<R, G> {
    ghost debt = { λ s. s.debt };

    fn hands_over(&self) -> bool {
        self.rows.hands_over()
    }

    fn owed(&self) -> Owed {
        self.rows.owed()
    }

    fn set_may_write(&mut self, may_write: bool) {
        self.gate.set_turn(may_write);
        self.rows.set_may_write(may_write);
    }
}
