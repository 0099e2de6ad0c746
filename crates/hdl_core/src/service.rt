//! The service over any table.

ghost use Rattle.std.specs.Prelude.{◌≡◌, ◌≢◌, true, false, All, IfOk, IfErr, OnErr};
ghost use Rattle.hdl_reach.specs.Cost.{ReadsWithin, heads_cost};
ghost use Rattle.hdl_ops.specs.Cost.{anyone_cost, proof_cost};
ghost use Rattle.hdl_ops.specs.Tables.{apply, CanApply};
ghost use Rattle.hdl_laws.specs.Cost.{IsStranger, HasRunReads};
ghost use Rattle.hdl_laws.specs.Laws.{Hidden, HostsNoRoot, Isolated};
ghost use Rattle.hdl_laws.specs.Runs.{HasRun, HasStep};
ghost use Rattle.hdl_laws.specs.Reveals.{IsReadable, Reveals};
ghost use Rattle.hdl_laws.specs.Worlds.{lane_of, read_only, with_table};

use crate::letting::RemoteChangeResult;
use crate::machine::Machine;
use hdl_events::{Event, Outcome};
use hdl_laws::laws::{restricted, runs_joined, twin_replies};
use hdl_ops::{Change, Rows};
use hdl_rows::Owing;
use std::marker::Model;

/// A service of several publishers, over a table. Contracts see its world, which is the lanes' owners, the hosted prefixes, the table's content
/// and the lanes' states, and the table itself, which counts what is read of it.
#[derive(Drop)]
pub struct Service<R: Rows + Drop> {
    pub(crate) machine: Machine<R>,
}

impl<R: Rows + Drop> Model for Service<R> {
    ghost use Rattle.hdl_core.specs.Machine.{Machine, machine_code};

    ghost Value = { Machine R };

    ghost use Rattle.std.specs.Coded.{codes};
    ghost use Rattle.std.specs.FinMap as map;
    ghost use Rattle.std.specs.FinSet as set;

    ghost coded = { machine_code (Prim.hlevel (codes, map.code, set.code)) R.code };

    ghost view = { λ s. s.machine };
}

/// Room for a run's outcomes was refused: the events come back as they were, and nothing changed.
#[derive(Drop)]
pub struct Early(pub Vec<Event>);

impl<R: Owing + Drop> Service<R> {
    /// Serves one event: the answer, or Busy with the world as it was.
    ///
    /// On a lane that nobody owns, and of everything but Open on a lane that isn't open, the outcome is Silent. A Frame whose
    /// octets aren't one frame is Silent; a message out of the grammar gets the short reply with code 4; a request is decided.
    ///
    /// A reply holds nothing of the table but what is told with its code: with code 1 the values that its caller may read, or
    /// the handles of the prefix that is listed (`told`). What is sent is one frame, and `hdl_msg::read_reply` reads its message
    /// (`read`).
    ///
    /// What it reads of the table is bounded by what the table's values, heads, handles and lists count. For a peer to whom no challenge is pending
    /// (`stranger`) these are the heads of one handle's values, a constant (`READ_MAX` of hdl_ops) and one value, whatever the handle holds. For any event
    /// (`cost`) a search for a mask is added, and the key's value; a list is read in place of values.
    pub fn step(&mut self, event: Event) -> Outcome
        ensures step { HasStep self.old.world event result self.new.world }
        ensures told { Reveals self.old.world event result }
        ensures read { IsReadable result }
        ensures cost { ReadsWithin self.old.world.table proof_cost (R.reads self.old.rows) (R.reads self.new.rows) }
        ensures stranger { IsStranger (lane_of self.old.world event.lane) event.what → ReadsWithin self.old.world.table anyone_cost (R.reads self.old.rows) (R.reads self.new.rows) }
    {
        self.machine.step(event, true).outcome
    }

    /// Serves each event in turn, with one outcome for each. Its room is taken first; where that is refused nothing changed and
    /// the events come back.
    ///
    /// Each publisher's outcomes other than Busy are those of a service that holds its rows and the values at a cover alone, and
    /// serves the events so answered alone, so long as no other publisher changed these (`isolated`). Beyond codes no reply depends on a
    /// value of the first table that nobody in the run was allowed to read (`hidden`).
    pub fn run(&mut self, events: Vec<Event>) -> Result<Vec<Outcome>, Early>
        ensures run { IfOk result (λ outcomes. HasRun self.old.world events.items outcomes.items self.new.world) }
        ensures isolated { IfOk result (λ outcomes. Isolated self.old.world events.items outcomes.items) }
        ensures hidden { IfOk result (λ outcomes. Hidden self.old.world events.items outcomes.items) }
        ensures read { IfOk result (λ outcomes. All IsReadable outcomes.items) }
        ensures cost { IfOk result (λ outcomes. HasRunReads self.old.world events.items outcomes.items self.new.world (R.reads self.old.rows) (R.reads self.new.rows)) }
        ensures early { IfErr result (λ back. back.0.items ≡ events.items) }
        ensures unchanged { OnErr result (self.new ≡ self.old) }
    {
        let mut outcomes = Vec::new(self.machine.alloc());
        if outcomes.reserve_exact(events.len()).is_err() {
            return Err(Early(events));
        }
        self.root_is_unhosted();
        runs_joined();
        restricted();
        twin_replies();
        for event in events {
            let outcome = self.step(event);
            let pushed = outcomes.push(outcome).is_ok();
            prove!(pushed);
        }
        Ok(outcomes)
    }

    /// Does a change that another server decided, at the moment of its decision in milliseconds. It tests itself whether the table
    /// can have the change. Lanes and site stay as they are, and the masks and searches that the change may touch are forgotten.
    ///
    /// `Refused` and `Owed` leave the world as it was, and the same call may be made again. A table that makes its own writes never
    /// answers `Owed`. What it reads of the table are the heads of one handle's values at most (`cost`).
    pub fn apply_remote(&mut self, moment: u64, change: &Change) -> RemoteChangeResult
        ensures done { result ≡ RemoteChangeResult.Done → CanApply self.old.world.table change.now × (self.new.world ≡ with_table self.old.world (apply self.old.world.table moment change.now)) }
        ensures unfit { result ≡ RemoteChangeResult.Unfit → ¬ CanApply self.old.world.table change.now }
        ensures undone { result ≢ RemoteChangeResult.Done → self.new.world ≡ self.old.world }
        ensures refused { result ≡ RemoteChangeResult.Refused → (R.debt self.new.rows).owes ≡ false }
        ensures owed { result ≡ RemoteChangeResult.Owed → (R.debt self.new.rows).owes ≡ true }
        ensures cost { ReadsWithin self.old.world.table heads_cost (R.reads self.old.rows) (R.reads self.new.rows) }
    {
        self.machine.apply_remote(moment, change)
    }
}

impl<R: Rows + Drop> Service<R> {
    /// The table. What is said of it beside [`Rows`], as what a crash leaves of a table that lasts, is said of the service's.
    pub fn rows(&self) -> &R
        ensures table { R.content result.now ≡ self.now.world.table }
        ensures rows { result.now ≡ self.now.rows }
    {
        self.machine.rows()
    }

    /// The table, as the run left it.
    pub fn into_rows(self) -> R
        ensures { R.content result ≡ self.world.table }
    {
        self.machine.into_rows()
    }

    /// The service that takes no changes: each request for one is answered 5, "operation denied", at once and without a challenge. So
    /// its table stays (`hdl_laws::laws::reads_only`).
    pub fn into_read_only(mut self) -> Service<R>
        ensures world { result.world ≡ read_only self.world }
        ensures rows { result.rows ≡ self.rows }
    {
        self.machine.takes_changes = false;
        self
    }

    /// Nobody hosts the prefix of the administrative handles. Whoever joins runs of a service needs it to isolate publishers in the
    /// whole.
    pub fn root_is_unhosted(&self)
        ensures { HostsNoRoot self.now.world.site }
    {
        self.machine.root_is_unhosted();
    }

    /// The machine of the service, for who serves lanes by it.
    pub fn into_machine(self) -> Machine<R>
        ensures { result ≡ self }
    {
        self.machine
    }
}
