//! Playing a row.

ghost use Rattle.std.specs.Prelude.{◌≡◌, IfSome, false};
ghost use Rattle.hdl_laws.specs.Runs.{is_busy};

use crate::opening::{Opening, Refusing};
use crate::row::{StoredScript, TRIES};
use crate::table::Table;
use hdl_core::{Early, Owing, Service, Tenants};
use hdl_events::{Event, Outcome};
use hdl_replay::{events_of, line_of, parts_of};

/// More than the calls of the table that any row makes.
const MOST_CALLS: u64 = 1000;

/// What came of playing a row.
#[derive(Clone, Copy)]
pub(crate) enum PlayResult {
    /// The service couldn't be opened.
    Unopened,
    /// Each event came to its outcome, and so many were Busy or came back before.
    Right { refusals: u32 },
    /// The event of this number, counted from 1, came to another outcome, or was refused each time.
    Wrong { event: usize },
}

/// The outcome of one event that wasn't answered Busy.
fn only_outcome(mut outcomes: Vec<Outcome>) -> Option<Outcome>
    ensures never_busy { IfSome result (λ outcome. is_busy outcome ≡ false) }
{
    match outcomes.pop() {
        Some(Outcome::Busy(_)) => None,
        outcome => outcome,
    }
}

/// Whether the line of an outcome is this one.
fn is_line(rt: &HostRuntime, lane: u16, outcome: &Outcome, wanted: &str) -> bool {
    for _ in 0..TRIES {
        if let Ok(line) = line_of(rt.alloc(), lane, outcome) {
            return line.strip_suffix('\n') == Some(wanted);
        }
    }
    false
}

/// Sends the event of a script's line, and once more where it is Busy or comes back, which is counted. Tells whether it then came to
/// the outcome of the wanted line.
fn is_answered<R: Owing + Drop>(
    rt: &HostRuntime,
    service: &mut Service<R>,
    line: &str,
    wanted: &str,
    refusals: &mut u32,
) -> bool {
    let mut back: Option<Vec<Event>> = None;
    for _ in 0..TRIES {
        let events = match back.take() {
            Some(events) => events,
            None => match events_of(rt.alloc(), line, 0) {
                Ok(events) => events,
                Err(_) => continue,
            },
        };
        let Some(lane) = events.first().map(|event| event.lane) else {
            return false;
        };
        let refusal = match service.run(events) {
            Ok(outcomes) => match only_outcome(outcomes) {
                Some(outcome) => return is_line(rt, lane, &outcome, wanted),
                None => "busy",
            },
            Err(Early(events)) => {
                back = Some(events);
                "early"
            }
        };
        *refusals = refusals.saturating_add(1);
        let _ = eprintln!(rt; "{refusal}");
    }
    false
}

/// Opens a service of a tenants text.
fn open_service<O: Opening>(
    rt: &HostRuntime,
    opening: &O,
    tenants: &str,
) -> Option<Service<O::Rows>> {
    let Ok(tenants) = Tenants::read(rt.alloc(), tenants) else {
        return None;
    };
    match opening.open(tenants) {
        Ok(service) => Some(service),
        Err(fault) => {
            let _ = eprintln!(rt; "{fault}");
            None
        }
    }
}

/// Sends the events of a script in turn, and tells what they came to beside the lines that are expected.
fn play_events<R: Owing + Drop>(
    rt: &HostRuntime,
    service: &mut Service<R>,
    script: &str,
    expected: &str,
) -> PlayResult {
    let mut refusals = 0;
    let mut expected = expected.lines();
    let mut event = 0usize;
    for line in script.lines() {
        event = event.saturating_add(1);
        let wanted = expected.next().unwrap_or("");
        if !is_answered(rt, service, line, wanted, &mut refusals) {
            return PlayResult::Wrong { event };
        }
    }
    match expected.next() {
        Some("status 0") => PlayResult::Right { refusals },
        _ => PlayResult::Wrong { event },
    }
}

/// Plays a row over the service that is opened for it.
fn play_once<O: Opening>(rt: &HostRuntime, row: &StoredScript, opening: &O) -> PlayResult {
    let parts = parts_of(&row.script);
    match open_service(rt, opening, parts.tenants) {
        Some(mut service) => play_events(rt, &mut service, parts.script, &row.expected),
        None => PlayResult::Unopened,
    }
}

/// Plays a row. What can't be opened is tried once more.
pub(crate) fn play<O: Opening>(rt: &HostRuntime, row: &StoredScript, opening: &O) -> PlayResult {
    for _ in 0..TRIES {
        let ending = play_once(rt, row, opening);
        if !matches!(ending, PlayResult::Unopened) {
            return ending;
        }
    }
    PlayResult::Unopened
}

/// Plays a row with each call of the table refused in turn that follows the opening, until a whole row meets none.
pub(crate) fn each_call(rt: &HostRuntime, row: &StoredScript, table: Table) -> PlayResult {
    for nth in 1..=MOST_CALLS {
        let opening = Refusing {
            alloc: rt.alloc(),
            table,
            nth,
        };
        match play(rt, row, &opening) {
            // a call of the opening, or one behind it
            PlayResult::Unopened | PlayResult::Right { refusals: 1 } => {}
            ending => return ending,
        }
    }
    PlayResult::Unopened
}
