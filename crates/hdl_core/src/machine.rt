//! The machine: a service, and what its table owes.

ghost use Rattle.std.specs.Prelude.{◌≡◌, ◌≢◌, true, false};
ghost use Rattle.hdl_rows.specs.Debt.{is_owed};
ghost use Rattle.hdl_laws.specs.Laws.{HostsNoRoot};
ghost use Rattle.hdl_laws.specs.Runs.{HasStep};
ghost use Rattle.hdl_laws.specs.Reveals.{IsReadable, Reveals};
ghost use Rattle.hdl_laws.specs.Worlds.{lane_of, owner, with_table};
ghost use Rattle.hdl_laws.specs.Cost.{IsStranger};
ghost use Rattle.hdl_ops.specs.Cost.{anyone_cost, proof_cost};
ghost use Rattle.hdl_ops.specs.Tables.{apply, CanApply};
ghost use Rattle.hdl_reach.specs.Cost.{ReadsWithin, heads_cost};

use crate::lane_context::LaneContext;
use crate::lanes::Lanes;
use crate::letting::{RemoteChangeResult, apply_remote, refusal};
use crate::service::Service;
use crate::serving::handle_event;
use hdl_events::{Event, Outcome};
use hdl_laws::laws::reply_told;
use hdl_ops::{Change, MaskedRows, Owner, Rows, Tenants};
use hdl_rows::{Owed, Owing};
use hdl_tenants::root_is_nobodys;
use std::alloc::Global;
use std::marker::Model;

/// A service that serves one event after another, for who serves lanes: it tells also what its table owes. Contracts see its world and its table.
#[derive(Drop)]
pub struct Machine<R: Rows + Drop> {
    pub(crate) alloc: Global,
    pub(crate) tenants: Tenants,
    pub(crate) takes_changes: bool,
    pub(crate) lanes: Lanes,
    pub(crate) rows: MaskedRows<R>,
}

impl<R: Rows + Drop> Model for Machine<R> {
    ghost use Rattle.hdl_core.specs.Machine.{Machine, machine_code};
    ghost use Rattle.hdl_core.specs.Worlds.{world_of};

    ghost Value = { Machine R };

    ghost use Rattle.std.specs.Coded.{codes};
    ghost use Rattle.std.specs.FinMap as map;
    ghost use Rattle.std.specs.FinSet as set;

    ghost coded = { machine_code (Prim.hlevel (codes, map.code, set.code)) R.code };

    ghost view = { λ s. record { world = world_of s.tenants s.takes_changes s.lanes (R.content s.rows); rows = s.rows } };
}

/// What came of an event.
#[derive(Drop)]
pub struct StepResult {
    pub outcome: Outcome,
    /// What the table owes behind it.
    pub owed: Owed,
}

impl<R: Owing + Drop> Machine<R> {
    /// Serves one event, as [`Service::step`](crate::Service::step) does, whose write may be handed over or may not. Gives back what the table owes with the outcome.
    pub fn step(&mut self, event: Event, may_write: bool) -> StepResult
        ensures step { HasStep self.old.world event result.outcome self.new.world }
        ensures told { Reveals self.old.world event result.outcome }
        ensures read { IsReadable result.outcome }
        ensures cost { ReadsWithin self.old.world.table proof_cost (R.reads self.old.rows) (R.reads self.new.rows) }
        ensures stranger { IsStranger (lane_of self.old.world event.lane) event.what → ReadsWithin self.old.world.table anyone_cost (R.reads self.old.rows) (R.reads self.new.rows) }
        ensures owed { is_owed result.owed ≡ (R.debt self.new.rows).owes }
    {
        self.rows.set_may_write(may_write);
        let outcome = self.handle_event(event);
        StepResult {
            outcome,
            owed: self.rows.owed(),
        }
    }

    /// Serves one event: the answer, or Busy with the world as it was.
    fn handle_event(&mut self, event: Event) -> Outcome
        ensures step { HasStep self.old.world event result self.new.world }
        ensures told { Reveals self.old.world event result }
        ensures read { IsReadable result }
        ensures cost { ReadsWithin self.old.world.table proof_cost (R.reads self.old.rows) (R.reads self.new.rows) }
        ensures stranger { IsStranger (lane_of self.old.world event.lane) event.what → ReadsWithin self.old.world.table anyone_cost (R.reads self.old.rows) (R.reads self.new.rows) }
    {
        reply_told();
        if event.lane as usize >= self.lanes.len() {
            return Outcome::Silent;
        }
        let owner = Owner {
            alloc: self.alloc,
            tenants: &self.tenants,
            publisher: self.lanes.publisher(event.lane),
        };
        let lane_context = LaneContext {
            owner,
            takes_changes: self.takes_changes,
        };
        handle_event(&lane_context, &mut self.rows, &mut self.lanes, event)
    }

    /// Does a change that another server decided, as [`Service::apply_remote`](crate::Service::apply_remote) does.
    pub fn apply_remote(&mut self, moment: u64, change: &Change) -> RemoteChangeResult
        ensures done { result ≡ RemoteChangeResult.Done → CanApply self.old.world.table change.now × (self.new.world ≡ with_table self.old.world (apply self.old.world.table moment change.now)) }
        ensures unfit { result ≡ RemoteChangeResult.Unfit → ¬ CanApply self.old.world.table change.now }
        ensures undone { result ≢ RemoteChangeResult.Done → self.new.world ≡ self.old.world }
        ensures refused { result ≡ RemoteChangeResult.Refused → (R.debt self.new.rows).owes ≡ false }
        ensures owed { result ≡ RemoteChangeResult.Owed → (R.debt self.new.rows).owes ≡ true }
        ensures cost { ReadsWithin self.old.world.table heads_cost (R.reads self.old.rows) (R.reads self.new.rows) }
    {
        self.rows.set_may_write(true);
        let Ok(is_done) = apply_remote(self.alloc, &mut self.rows, moment, change) else {
            return refusal(self.rows.owed());
        };
        if is_done {
            return RemoteChangeResult::Done;
        }
        RemoteChangeResult::Unfit
    }

    /// Whether the table hands writes over at all.
    pub fn hands_over(&self) -> bool
        ensures { result ≡ (R.debt self.now.rows).hands_over }
    {
        self.rows.hands_over()
    }

    /// What the table owes.
    pub fn owed(&self) -> Owed
        ensures { is_owed result ≡ (R.debt self.now.rows).owes }
    {
        self.rows.owed()
    }
}

impl<R: Rows + Drop> Machine<R> {
    pub(crate) fn alloc(&self) -> Global {
        self.alloc
    }

    /// Whose lane it is, by the place of the publisher. It is nobody's beyond the last one.
    pub fn owner(&self, lane: u16) -> Option<usize>
        ensures { result ≡ owner self.now.world.site lane }
    {
        if lane as usize >= self.lanes.len() {
            return None;
        }
        Some(self.lanes.publisher(lane))
    }

    /// The table.
    pub fn rows(&self) -> &R
        ensures rows { result.now ≡ self.now.rows }
        ensures table { R.content result.now ≡ self.now.world.table }
    {
        self.rows.get_ref()
    }

    /// The table, as the last step left it.
    pub(crate) fn into_rows(self) -> R
        ensures { R.content result ≡ self.world.table }
    {
        self.rows.into_inner()
    }

    /// Nobody hosts the prefix of the administrative handles.
    pub(crate) fn root_is_unhosted(&self)
        ensures { HostsNoRoot self.now.world.site }
    {
        let _ = self.tenants.opening();
        root_is_nobodys();
    }

    /// The service of this machine.
    pub fn into_service(self) -> Service<R>
        ensures { result ≡ self }
    {
        Service { machine: self }
    }
}
