//! A round over the lanes: each gives some of its events, and is given their outcomes.

ghost use Rattle.std.specs.Prelude.{◌≡◌, ◌≤◌, ◌<◌, ◌⊎◌, ◌∷◌, [], Bool, true, false, List, length, IfOk, IsTrue, IsFalse, MatchOption};
ghost use Rattle.hdl_lanes.specs.Lane.{known_room, seen_in, IsFrontOf};
ghost use Rattle.hdl_laws.specs.Worlds.{World};
ghost use Rattle.hdl_laws.specs.Runs.{is_busy};
ghost use Rattle.hdl_workers.specs.declared.item.Item.{Item};
ghost use Rattle.hdl_workers.specs.declared.ends.LaneEnds.{LaneEnds};
ghost use Rattle.hdl_write_queue.specs.Waiting.{is_turn, without_lane};
ghost use Rattle.hdl_rows.specs.Debt.{is_owed};
ghost use Rattle.hdl_serve.specs.declared.news.StampedChange.{StampedChange};
ghost use Rattle.hdl_serve.specs.Rounds.{Answers, IsCopyOf, IsServing, Passes, PutsNoBusy, Serves};

use crate::schedule::{Schedule, Seen, TimeSlice};
use hdl_core::{Machine, Owed, Owing, StepResult};
use hdl_events::{Event, Outcome, What};
use hdl_laws::laws::runs_joined;
use hdl_limits::Octets;
use hdl_workers::{Item, LaneEnds, LoopClock};
use hdl_write_queue::WriteQueue;
use std::alloc::{AllocError, Global};

/// The lane's next event, if one is seen and its outcome finds room. A lane that gave End isn't asked again.
fn take_event(ends: &mut LaneEnds, ended: &mut bool) -> Option<What>
    ensures { MatchOption result (Passes ended.old ended.new [] [] ends.old ends.new) (λ what. Passes ended.old ended.new (what ∷ []) [] ends.old ends.new × (0 < known_room ends.new.outcomes)) }
{
    if *ended {
        return None;
    }
    match ends.next() {
        None => None,
        Some(Item::End) => {
            *ended = true;
            None
        }
        Some(Item::Event(what)) => Some(what),
    }
}

/// Puts the outcome of an event that the lane gave.
fn give_back(ends: &mut LaneEnds, outcome: Outcome)
    requires { 0 < known_room ends.old.outcomes }
    ensures { Answers outcome ends.old ends.new }
{
    let _ = ends.answer(outcome);
}

/// Takes the lane's next event and serves it, if one is seen and its outcome finds room. Whether there was one.
fn serve_taken<R: Owing + Drop>(
    machine: &mut Machine<R>,
    ends: &mut LaneEnds,
    ended: &mut bool,
) -> bool
    ensures { Serves ended.old ended.new machine.old.world machine.new.world ends.old ends.new }
{
    let lane = ends.lane;
    let Some(what) = take_event(ends, ended) else {
        return false;
    };
    let outcome = machine.step(Event { lane, what }, true).outcome;
    give_back(ends, outcome);
    true
}

/// The same happening, in memory of its own.
fn copy_of(alloc: Global, what: &What) -> Result<What, AllocError>
    ensures { IfOk result (λ copy. copy ≡ what.now) }
{
    Ok(match what {
        What::Open => What::Open,
        What::Frame {
            peer,
            moment,
            nonce,
            bytes,
        } => What::Frame {
            peer: *peer,
            moment: *moment,
            nonce: *nonce,
            bytes: Octets::new(Vec::from_slice(alloc, bytes.as_slice())?),
        },
        What::Bad { session, request } => What::Bad {
            session: *session,
            request: *request,
        },
        What::Close => What::Close,
    })
}

/// What stands first in a lane.
#[derive(Drop)]
enum Front {
    End,
    /// A copy of the event.
    Event(What),
    /// Memory for a copy was refused.
    NoMemory,
}

/// What stands first in a lane, of which an item is seen. It stays there.
fn copy_of_front(alloc: Global, ends: &LaneEnds) -> Front
    requires { 0 < length (seen_in ends.now.items) }
    ensures { IsCopyOf result ends.now.items }
{
    match ends.items.front() {
        Item::End => Front::End,
        Item::Event(what) => match copy_of(alloc, what) {
            Ok(copy) => Front::Event(copy),
            Err(_) => Front::NoMemory,
        },
    }
}

/// Whether an item of the lane is seen, and an outcome finds room. Nothing is taken.
fn is_ready(ends: &mut LaneEnds) -> bool
    ensures passes { (f : Bool) → Passes f f [] [] ends.old ends.new }
    ensures ready { IsTrue result → (0 < known_room ends.new.outcomes) × (0 < length (seen_in ends.new.items)) }
{
    ends.outcomes.has_room() && ends.items.has_item()
}

fn is_busy(outcome: &Outcome) -> bool
    ensures { result ≡ is_busy outcome.now }
{
    matches!(outcome, Outcome::Busy(_))
}

pub(crate) fn is_owed(owed: Owed) -> bool
    ensures { result ≡ is_owed owed }
{
    !matches!(owed, Owed::Nothing)
}

/// Whether the event of a step with this outcome stays, after which the table owes a write or doesn't. It stays if it is busy while a change of other servers waits: that change may be
/// why. Its lane keeps its place among those that wait.
fn stays(queue: &mut WriteQueue, lane: u16, outcome: &Outcome, owes: bool, seen: Seen) -> bool
    ensures busy { IsTrue result → is_busy outcome.now ≡ true }
    ensures owed { IsFalse seen.is_cut ⊎ (is_turn queue.old lane ≡ true) → IsTrue owes → IsFalse result → is_busy outcome.now ≡ false }
    ensures unchanged { IsFalse result → queue.new.lanes ≡ queue.old.lanes }
{
    if !is_busy(outcome) || seen.is_cut && owes && !queue.is_turn(lane) {
        return false;
    }
    seen.is_behind && !owes || queue.stays(lane, owes)
}

/// Whether an event of the lane may begin a write now, or claim the one that the table owes.
fn may_write<R: Owing + Drop>(
    machine: &Machine<R>,
    queue: &WriteQueue,
    lane: u16,
    seen: Seen,
) -> bool {
    queue.is_turn(lane) && (!seen.is_behind || is_owed(machine.owed()))
}

/// Serves a copy of the lane's next event, which is taken once its outcome is put. Whether it was. No Busy is put while the table owes a write: the event that it owes it
/// stays, and so does each other that is busy meanwhile, unless nobody can say when that ends.
fn serve_copy<R: Owing + Drop>(
    machine: &mut Machine<R>,
    ends: &mut LaneEnds,
    copy: What,
    queue: &mut WriteQueue,
    seen: Seen,
) -> bool
    requires room { 0 < known_room ends.old.outcomes }
    requires front { IsFrontOf (Item.Event copy) ends.old.items }
    ensures served { Serves false false machine.old.world machine.new.world ends.old ends.new }
    ensures owed { IsFalse seen.is_cut ⊎ (is_turn queue.old ends.old.lane ≡ true) → (R.debt machine.new.rows).owes ≡ true → PutsNoBusy ends.old ends.new }
    ensures left { IsTrue result → queue.new.lanes ≡ without_lane queue.old.lanes ends.old.lane }
{
    let may_write = may_write(machine, queue, ends.lane, seen);
    let event = Event {
        lane: ends.lane,
        what: copy,
    };
    let StepResult { outcome, owed } = machine.step(event, may_write);
    if stays(queue, ends.lane, &outcome, is_owed(owed), seen) {
        return false;
    }
    drop(ends.items.take_front());
    give_back(ends, outcome);
    queue.note_outcome(ends.lane);
    true
}

/// Serves the lane's next event, if one is seen and its outcome finds room, and doesn't take it before its outcome is put. Whether there was one.
fn serve_front<R: Owing + Drop>(
    alloc: Global,
    machine: &mut Machine<R>,
    ends: &mut LaneEnds,
    ended: &mut bool,
    queue: &mut WriteQueue,
    seen: Seen,
) -> bool
    ensures served { Serves ended.old ended.new machine.old.world machine.new.world ends.old ends.new }
    ensures owed { IsFalse seen.is_cut ⊎ (is_turn queue.old ends.old.lane ≡ true) → (R.debt machine.new.rows).owes ≡ true → PutsNoBusy ends.old ends.new }
{
    let is_under_way = is_owed(machine.owed()) && !seen.has_ended;
    if *ended || !seen.is_cut && !queue.is_asked(ends.lane, is_under_way) {
        return false;
    }
    if !is_ready(ends) {
        return false;
    }
    match copy_of_front(alloc, ends) {
        Front::End => {
            drop(ends.items.take_front());
            *ended = true;
            false
        }
        Front::Event(copy) => serve_copy(machine, ends, copy, queue, seen),
        Front::NoMemory => false,
    }
}

/// Serves the lane's next event, if there is one to be served now. Whether there was.
fn serve_next<R: Owing + Drop>(
    alloc: Global,
    machine: &mut Machine<R>,
    ends: &mut LaneEnds,
    ended: &mut bool,
    queue: &mut WriteQueue,
    seen: Seen,
) -> bool
    ensures served { Serves ended.old ended.new machine.old.world machine.new.world ends.old ends.new }
    ensures owed { IsFalse seen.is_cut ⊎ (is_turn queue.old ends.old.lane ≡ true) → (R.debt machine.old.rows).hands_over ≡ true → (R.debt machine.new.rows).owes ≡ true → PutsNoBusy ends.old ends.new }
{
    if machine.hands_over() {
        serve_front(alloc, machine, ends, ended, queue, seen)
    } else {
        serve_taken(machine, ends, ended)
    }
}

/// How many events a lane gave in a row, and whether its publisher's turn is over.
#[derive(Clone, Copy)]
struct Given {
    events: u64,
    is_over: bool,
}

/// Serves the lane's events as long as one is seen, at most as many as a lane gives in its publisher's turn, and until that is over.
fn serve_lane<R: Owing + Drop, C: LoopClock>(
    machine: &mut Machine<R>,
    ends: &mut LaneEnds,
    ended: &mut bool,
    queue: &mut WriteQueue,
    clock: &mut C,
    share: &TimeSlice,
) -> Given
    ensures few { result.events ≤ share.now.most }
    ensures served { Serves ended.old ended.new machine.old.world machine.new.world ends.old ends.new }
{
    runs_joined();
    for served in 0..share.most {
        if !serve_next(share.alloc, machine, ends, ended, queue, share.seen) {
            return Given {
                events: served,
                is_over: false,
            };
        }
        if share.is_over(clock.now()) {
            return Given {
                events: served + 1,
                is_over: true,
            };
        }
    }
    Given {
        events: share.most,
        is_over: false,
    }
}

/// Serves the lanes of a publisher one after another, until its turn is over or each of them was asked. The most that one of them gave.
fn serve_share<R: Owing + Drop, C: LoopClock>(
    machine: &mut Machine<R>,
    lanes: &mut [LaneEnds],
    ended: &mut [bool],
    queue: &mut WriteQueue,
    clock: &mut C,
    share: &mut TimeSlice,
) -> u64
    requires ended { length ended.old ≡ length lanes.old }
    ensures few { result ≤ share.old.most }
    ensures serving { (w : World) (before : List LaneEnds) (changes : List StampedChange) → IsServing w before changes machine.old.world lanes.old ended.old → IsServing w before changes machine.new.world lanes.new ended.new }
{
    let begun = share.next;
    let mut longest = 0;
    for _ in 0..lanes.len() {
        let place = share.next;
        if place >= lanes.len() {
            return longest;
        }
        let given = serve_lane(
            machine,
            &mut lanes[place],
            &mut ended[place],
            queue,
            clock,
            share,
        );
        longest = longest.max(given.events);
        share.next = share.behind(place);
        if given.is_over || share.next == begun {
            return longest;
        }
    }
    longest
}

/// Each publisher has its turn. The most that one lane gave.
fn serve_shares<R: Owing + Drop, C: LoopClock>(
    machine: &mut Machine<R>,
    lanes: &mut [LaneEnds],
    ended: &mut [bool],
    queue: &mut WriteQueue,
    clock: &mut C,
    schedule: &mut Schedule,
) -> u64
    requires ended { length ended.old ≡ length lanes.old }
    ensures few { result ≤ schedule.old.most }
    ensures serving { (w : World) (before : List LaneEnds) (changes : List StampedChange) → IsServing w before changes machine.old.world lanes.old ended.old → IsServing w before changes machine.new.world lanes.new ended.new }
{
    let most = schedule.most;
    let seen = schedule.seen;
    let mut longest = 0;
    for i in 0..schedule.shares.len() {
        let Some(share) = schedule.shares.get_mut(i) else {
            return longest;
        };
        share.begin(most, seen, clock.now());
        let served = serve_share(machine, lanes, ended, queue, clock, share);
        longest = longest.max(served);
    }
    longest
}

/// Serves the next event of the lane whose turn it is to write. Whether there was one.
fn serve_writer<R: Owing + Drop>(
    alloc: Global,
    machine: &mut Machine<R>,
    lanes: &mut [LaneEnds],
    ended: &mut [bool],
    queue: &mut WriteQueue,
    seen: Seen,
) -> bool
    requires ended { length ended.old ≡ length lanes.old }
    ensures { (w : World) (before : List LaneEnds) (changes : List StampedChange) → IsServing w before changes machine.old.world lanes.old ended.old → IsServing w before changes machine.new.world lanes.new ended.new }
{
    let Some(writer) = queue.turn() else {
        return false;
    };
    let Some(at) = lanes.iter().position(|ends| ends.lane == writer) else {
        return false;
    };
    serve_next(alloc, machine, &mut lanes[at], &mut ended[at], queue, seen)
}

/// One round: the next event of the lane whose turn it is to write, or where that gives none each publisher's turn. The most that one lane gave.
pub(crate) fn serve_round<R: Owing + Drop, C: LoopClock>(
    machine: &mut Machine<R>,
    lanes: &mut [LaneEnds],
    ended: &mut [bool],
    queue: &mut WriteQueue,
    clock: &mut C,
    schedule: &mut Schedule,
) -> u64
    requires ended { length ended.old ≡ length lanes.old }
    requires some { 0 < schedule.old.most }
    ensures few { result ≤ schedule.old.most }
    ensures serving { (w : World) (before : List LaneEnds) (changes : List StampedChange) → IsServing w before changes machine.old.world lanes.old ended.old → IsServing w before changes machine.new.world lanes.new ended.new }
{
    if serve_writer(schedule.alloc, machine, lanes, ended, queue, schedule.seen) {
        return 1;
    }
    serve_shares(machine, lanes, ended, queue, clock, schedule)
}
