//! The serving loop.

ghost use Rattle.std.specs.Prelude.{◌≡◌, ◌≤◌, ◌<◌, ◌⊎◌, [], List, IsTrue, length, true};
ghost use Rattle.std.specs.List.{AllByRecursion, AllZip};
ghost use Rattle.hdl_laws.specs.Worlds.{World};
ghost use Rattle.hdl_workers.specs.declared.ends.LaneEnds.{LaneEnds};
ghost use Rattle.hdl_serve.specs.declared.news.StampedChange.{StampedChange};
ghost use Rattle.hdl_serve.specs.Rounds.{GaveEnd, IsServing};
ghost use Rattle.hdl_serve.specs.Served.{IsServed};
ghost use Rattle.hdl_serve.specs.Shared.{IsShared, IsUnfit};
ghost use Rattle.hdl_workers.specs.Ends.{AreDistinct};

use crate::news::{NoRemoteChanges, RemoteChanges};
use crate::remote_changes::apply_remote_changes;
use crate::rounds::serve_round;
use crate::schedule::{Schedule, Seen};
use hdl_core::{Machine, Owed, Owing, Rows, Service};
use hdl_laws::laws::{restricted, twin_replies};
use hdl_workers::{LaneEnds, LoopClock};
use hdl_write_queue::WriteQueue;
use std::alloc::Global;

/// How many events of a lane are served in a row.
const IN_A_ROW: u64 = 16;

/// What serving gives back: the service as its run left it, and the lanes' ends.
#[derive(Drop)]
pub struct Served<R: Rows + Drop> {
    pub service: Service<R>,
    /// The lanes' ends, in their order.
    pub lanes: Vec<LaneEnds>,
    /// How many of the turns are left: none, unless each lane has given End.
    pub turns: u64,
}

/// Why serving beside other servers ended.
#[derive(Clone, Copy, Debug, PartialEq, Eq, Drop)]
pub enum SharedEnd {
    /// The turns are spent, or each lane has given End.
    Over,
    /// The table can't have the next change of the others.
    Diverged,
}

/// What serving beside other servers gives back.
#[derive(Drop)]
pub struct Shared<R: Rows + Drop> {
    pub served: Served<R>,
    pub end: SharedEnd,
}

/// Tells the clock that a round did something, or pauses.
fn end_round<C: LoopClock>(clock: &mut C, has_worked: bool) {
    if has_worked {
        clock.note_work();
    } else {
        clock.pause();
    }
}

fn end_with<R: Rows + Drop>(
    machine: Machine<R>,
    lanes: Vec<LaneEnds>,
    turns: u64,
    end: SharedEnd,
) -> Shared<R>
    ensures world { result.served.service.world ≡ machine.world }
    ensures lanes { result.served.lanes.items ≡ lanes.items }
    ensures turns { result.served.turns ≡ turns }
    ensures end { result.end ≡ end }
{
    Shared {
        served: Served {
            service: machine.into_service(),
            lanes,
            turns,
        },
        end,
    }
}

/// Whether each of the first `lanes` lanes has given End.
fn have_ended(ended: &[bool], lanes: usize) -> bool
    ensures { IsTrue result → (length ended.now ≡ lanes) × AllByRecursion (λ e. e ≡ true) ended.now }
{
    ended.len() == lanes && ended.iter().all(|ended| *ended)
}

/// One round, of as many turns at most as the rota says. How many it took: 0 where nothing was served. Where the memory for it is refused no lane is asked.
fn round<R: Owing + Drop, C: LoopClock>(
    machine: &mut Machine<R>,
    lanes: &mut [LaneEnds],
    ended: &mut Vec<bool>,
    queue: &mut WriteQueue,
    clock: &mut C,
    schedule: &mut Schedule,
) -> u64
    requires some { 0 < schedule.old.most }
    ensures few { result ≤ schedule.old.most }
    ensures serving { (w : World) (before : List LaneEnds) (changes : List StampedChange) → IsServing w before changes machine.old.world lanes.old ended.old.items → IsServing w before changes machine.new.world lanes.new ended.new.items }
{
    if schedule.assign_lanes(machine, lanes).is_err() {
        return 0;
    }
    if ended.resize(lanes.len(), false).is_err() {
        return 0;
    }
    serve_round(machine, lanes, ended.as_mut_slice(), queue, clock, schedule)
}

/// Goes round the lanes until each has given End or the turns are spent. A turn serves at most one event of
/// each lane whose inlet for outcomes has room, and of none that gave End. A round is up to 16 turns, publisher by publisher and lane by lane: it serves a
/// lane's events one after another, and puts each outcome before the next event is taken, so nothing that was taken is without
/// an outcome. A publisher's turn ends once the clock has gone on by a millisecond, and its next one begins at the lane after it. Lanes are one publisher's where they
/// stand next to each other and the service says so.
/// If the table hands its writes over, an event whose step was answered busy can stay in its lane, and so does one of which no copy can be had: the queue says which
/// lane may write, and no Busy is put while the table owes a write. The lane whose turn it is to write is asked before all others, for one event; where it gives that, this was the round.
/// Where the memory for a round is refused nothing is taken. After a round that served nothing it calls `pause`, after any other `note_work`.
///
/// There are one list of events and one list of their outcomes that are a run from the service handed in to the one given back;
/// each publisher is isolated in it, and no reply tells of a value that may not be read. The lanes' ends come back in their
/// order. What was taken from each lane is its events in that list, followed by at most one End; what was put into it is these events'
/// outcomes, in order. Each event of that list bears the number of a lane that was handed in: the list is what was taken from the
/// lanes, and nothing else. The lanes that come back may be served again.
pub fn serve<R: Owing + Drop, C: LoopClock>(
    alloc: Global,
    service: Service<R>,
    lanes: Vec<LaneEnds>,
    clock: &mut C,
    queue: &mut WriteQueue,
    turns: u64,
) -> Served<R>
    requires { AreDistinct lanes.items }
    ensures served { IsServed service.world lanes.items result.service.world result.lanes.items }
    ensures ended { (result.turns ≡ 0) ⊎ AllZip GaveEnd lanes.items result.lanes.items }
    ensures distinct { AreDistinct result.lanes.items }
{
    service.root_is_unhosted();
    restricted();
    twin_replies();
    let served = Served {
        service,
        lanes,
        turns,
    };
    let mut news = NoRemoteChanges;
    serve_shared(alloc, served, clock, queue, &mut news).served
}

/// Goes round the lanes as [`serve`] does. Before each round it lets in the changes that the news gives, each once and in order. It waits while the table owes another write.
/// A change that is refused, or whose write is owed, is let in later. The caller's clock should end a pause if a change comes.
/// If a change waits for the table's own write, an event that is answered busy stays in its lane: it may have lost a race against that change, and is decided again behind it.
/// If nobody can say when the table's write will have ended, each event that waits for it is answered busy, but its own.
///
/// There is one list of turns and of tables that were taken over. It leads from the service handed in to the one given back. Each of these tables is the one before it with the next
/// change of the news, which that table could have. The lanes gave the events of the turns and were given their outcomes, as `serve` says it.
///
/// If the table can't have the next change, this server has parted from the others. Then nothing more is served, and the change stays with the news.
pub fn serve_shared<R: Owing + Drop, C: LoopClock, N: RemoteChanges>(
    alloc: Global,
    served: Served<R>,
    clock: &mut C,
    queue: &mut WriteQueue,
    news: &mut N,
) -> Shared<R>
    requires { AreDistinct served.lanes.items }
    ensures shared { IsShared served.service.world served.lanes.items (N.taken news.old) result.served.service.world result.served.lanes.items (N.taken news.new) }
    ensures over { result.end ≡ SharedEnd.Over → (result.served.turns ≡ 0) ⊎ AllZip GaveEnd served.lanes.items result.served.lanes.items }
    ensures parted { result.end ≡ SharedEnd.Diverged → IsUnfit (N.seen news.new) result.served.service.world.table }
    ensures distinct { AreDistinct result.served.lanes.items }
{
    let Served {
        service,
        lanes,
        turns,
    } = served;
    let mut machine = service.into_machine();
    let mut lanes = lanes;
    let mut turns = turns;
    let mut ended = Vec::new(alloc);
    let mut schedule = Schedule::new(alloc);
    let mut is_handed_over = false;
    let mut has_worked = false;
    while turns > 0 && (has_worked || !have_ended(ended.as_slice(), lanes.len())) {
        let has_ended = machine.owed() == Owed::Ended;
        let Ok(progress) = apply_remote_changes(&mut machine, news, &mut is_handed_over) else {
            return end_with(machine, lanes, turns, SharedEnd::Diverged);
        };
        schedule.most = turns.min(IN_A_ROW);
        schedule.seen = Seen {
            has_ended,
            is_behind: progress.is_behind,
            is_cut: news.is_cut(),
        };
        let served = round(
            &mut machine,
            lanes.as_mut_slice(),
            &mut ended,
            queue,
            clock,
            &mut schedule,
        );
        has_worked = progress.has_worked || served > 0;
        end_round(clock, has_worked);
        turns -= served.max(1);
    }
    end_with(machine, lanes, turns, SharedEnd::Over)
}
