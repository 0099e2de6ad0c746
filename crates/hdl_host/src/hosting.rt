//! The service on the calling thread, which the sockets' workers reach by rings.

ghost use Rattle.std.specs.Prelude.{◌≡◌};
ghost use Rattle.hdl_rows.specs.Table.{no_rows};
ghost use Rattle.hdl_workers.specs.Ends.{AreDistinct};

use crate::bounds::Notices;
use crate::resource_monitor::{MonitoringClock, ResourceMonitor, resource_monitor_of};
use hdl_boundedrows::{Bound, BoundedRows};
use hdl_core::{OpenFault, Owing, Service, Tenants};
use hdl_listeners::{
    ActiveMonitoring, HostFault, Limits, MonitoringSockets, PublisherSockets, ServerConfig,
    join_workers, open_monitoring, open_publishers, or_device_fault, remove_socket, start_workers,
};
use hdl_programs::{ExitStatus, Fault, put_all, tenants_of};
use hdl_rows::PlainRows;
use hdl_serve::{LaneEnds, LoopClock, WorkerEnd, WorkerSide, lanes_of, serve};
use hdl_sockets::{CallTimeouts, IdlePoll, MachineClock, OverflowLane, ThreadRole};
use hdl_write_queue::WriteQueue;
use std::alloc::Global;
use std::fs::Files;
use std::io::Write;
use std::mem;
use std::net::{Net, TcpListener, TcpStream};
use std::random::RandomSource;
use std::rt::Clock;
use std::thread::{JoinHandle, Threads};

/// How many items a lane's ring has room for, each way.
const RING_ITEMS: usize = 16;

/// The sleep of the thread that serves, the sockets of each publisher, what is said once all of them listen and the lines that tell where they are, and the sockets at which the server is
/// watched.
#[derive(Drop)]
pub(crate) struct OpenedSockets {
    pub(crate) idle_poll: IdlePoll,
    publishers: Vec<PublisherSockets<OverflowLane>>,
    startup_line: String,
    lines: String,
    monitoring_sockets: MonitoringSockets,
}

/// What is there before anything is served: every lane, the queue of lanes whose writes wait, every socket, who looks at the table's file, and how many turns each worker and the
/// service have.
#[derive(Drop)]
pub(crate) struct PreparedServer {
    ends: Vec<LaneEnds>,
    sides: Vec<WorkerSide>,
    queue: WriteQueue,
    pub(crate) opened: OpenedSockets,
    monitor: ResourceMonitor,
    turns: u64,
    ghost distinct: { AreDistinct ends.items },
}

/// The bounds of publishers, who hears that one is reached, and whether changes are taken.
#[derive(Drop)]
pub(crate) struct ChangeLimits {
    bounds: Vec<Bound>,
    notices: Notices,
    takes_changes: bool,
}

/// Listens for each publisher, and for those who watch the server.
fn open_sockets<R: Net<Listener = TcpListener, Stream = TcpStream> + Clock + Files>(
    rt: &R,
    alloc: Global,
    tenants: &Tenants,
    config: &mut ServerConfig,
) -> Result<OpenedSockets, HostFault> {
    let most = CallTimeouts::of(config.limits.turns).events;
    let idle_poll = or_device_fault(IdlePoll::new(rt, alloc, most))?;
    let (publishers, lines) = open_publishers(rt, alloc, tenants, config)?;
    let monitoring_sockets = open_monitoring(
        rt,
        alloc,
        &mut config.monitoring,
        publishers.as_slice(),
    )?;
    let startup_line = mem::replace(&mut config.monitoring.startup_line, String::new(alloc));
    Ok(OpenedSockets {
        idle_poll,
        publishers,
        startup_line,
        lines,
        monitoring_sockets,
    })
}

/// Makes the lanes of the tenants and listens for each publisher.
fn prepare_lanes<R: Net<Listener = TcpListener, Stream = TcpStream> + Clock + Files>(
    rt: &R,
    alloc: Global,
    tenants: &Tenants,
    config: &mut ServerConfig,
) -> Result<PreparedServer, HostFault> {
    let (ends, sides) = lanes_of(alloc, tenants.lanes(), RING_ITEMS)?;
    let queue = WriteQueue::with_capacity(alloc, ends.len())?;
    let opened = open_sockets(rt, alloc, tenants, config)?;
    let monitor = resource_monitor_of(alloc, &mut config.monitoring)?;
    Ok(PreparedServer {
        ends,
        sides,
        queue,
        opened,
        monitor,
        turns: config.limits.turns,
    })
}

/// Makes the lanes of the tenants and listens for each publisher. With what is ready come the limits of changes, and the path of the socket at which
/// the word to end is taken: all else of a configuration ends here, so that who opens a table owns little.
pub(crate) fn prepare<R: Net<Listener = TcpListener, Stream = TcpStream> + Clock + Files>(
    rt: &R,
    alloc: Global,
    tenants: &Tenants,
    mut config: ServerConfig,
) -> Result<(PreparedServer, ChangeLimits, Option<String>), HostFault> {
    let ready = prepare_lanes(rt, alloc, tenants, &mut config)?;
    let ServerConfig {
        bounds,
        takes_changes,
        monitoring,
        ..
    } = config;
    let change_limits = ChangeLimits {
        bounds,
        notices: Notices::new(monitoring.bounds),
        takes_changes,
    };
    Ok((ready, change_limits, monitoring.control))
}

/// What serves lanes on the calling thread, until each of them ended or the turns are spent.
///
/// What starts and joins the workers is generic over it: proving a function that owns a `Service` costs several times as much.
pub(crate) trait LaneServer {
    /// Serves the lanes, and gives back what served them.
    fn serve_lanes<C: LoopClock>(
        self,
        alloc: Global,
        ends: Vec<LaneEnds>,
        clock: &mut C,
        queue: &mut WriteQueue,
        turns: u64,
    ) -> Self
        requires distinct { AreDistinct ends.items };

    /// Whether each lane was served to its end. Else no worker is waited for.
    fn is_whole(&self) -> bool {
        true
    }
}

impl<T: Owing + Drop> LaneServer for Service<T> {
    fn serve_lanes<C: LoopClock>(
        self,
        alloc: Global,
        ends: Vec<LaneEnds>,
        clock: &mut C,
        queue: &mut WriteQueue,
        turns: u64,
    ) -> Service<T> {
        serve(alloc, self, ends, clock, queue, turns).service
    }
}

/// The workers that run, what is looked at meanwhile, and the sleep of the thread that serves them.
#[derive(Drop)]
struct StartedWorkers {
    workers: Vec<JoinHandle<WorkerEnd>>,
    active: ActiveMonitoring,
    idle_poll: IdlePoll,
}

/// Starts what answers at the sockets at which the server is watched, and a worker for each lane.
fn start_all<R: Threads + Clock + RandomSource + Eprint + Copy + Send + Drop + 'static>(
    rt: &R,
    alloc: Global,
    opened: OpenedSockets,
    sides: Vec<WorkerSide>,
    turns: u64,
) -> Result<StartedWorkers, Fault> {
    let OpenedSockets {
        idle_poll,
        publishers,
        monitoring_sockets,
        ..
    } = opened;
    let active = monitoring_sockets.start(rt, alloc)?;
    let workers = start_workers(rt, alloc, publishers, sides, &idle_poll, turns)?;
    Ok(StartedWorkers {
        workers,
        active,
        idle_poll,
    })
}

/// Starts the workers, serves on this thread, joins them, and gives back what served.
fn run_workers<
    R: Threads + Clock + RandomSource + Files + Eprint + Copy + Send + Drop + 'static,
    S: LaneServer + Drop,
>(rt: &R, alloc: Global, service: S, ready: PreparedServer) -> Result<S, Fault> {
    let PreparedServer {
        ends,
        sides,
        mut queue,
        opened,
        monitor,
        turns,
        ..
    } = ready;
    let StartedWorkers {
        workers,
        active,
        idle_poll,
    } = start_all(rt, alloc, opened, sides, turns)?;
    let clock = MachineClock::new(*rt, ThreadRole::Serving(idle_poll));
    let mut clock = MonitoringClock::new(*rt, clock, monitor);
    let service = service.serve_lanes(alloc, ends, &mut clock, &mut queue, turns);
    let joined = if service.is_whole() {
        join_workers(rt, workers, &active.shutdown)
    } else {
        Ok(())
    };
    active.flush(rt);
    joined?;
    Ok(service)
}

/// Says that serving begins, tells where it listens, serves, and gives back what served.
pub(crate) fn announce_and_serve<
    R: Threads + Clock + RandomSource + Files + Eprint + Copy + Send + Drop + 'static,
    S: LaneServer + Drop,
    W: Write,
>(rt: &R, alloc: Global, service: S, ready: PreparedServer, output: &mut W) -> Result<S, Fault> {
    let startup_line = ready.opened.startup_line.as_str();
    let _ = eprint!(rt; "{startup_line}");
    put_all(output, ready.opened.lines.as_bytes())?;
    run_workers(rt, alloc, service, ready)
}

/// Why no service was opened, as the fault of a run.
pub(crate) fn opening_fault(fault: OpenFault) -> Fault {
    match fault {
        OpenFault::Memory => Fault::NoMemory,
        OpenFault::Store => Fault::StoreRefused,
    }
}

/// The service, which takes changes or none.
fn with_changes<T: Owing + Drop>(service: Service<T>, takes_changes: bool) -> Service<T> {
    if takes_changes {
        service
    } else {
        service.into_read_only()
    }
}

/// The service of the tenants over an empty table within these limits.
fn open_within<T: Owing + Drop>(
    alloc: Global,
    rows: T,
    change_limits: ChangeLimits,
    tenants: Tenants,
) -> Result<Service<BoundedRows<T, Notices>>, Fault>
    requires empty { T.content rows ≡ no_rows }
{
    let ChangeLimits {
        bounds,
        notices,
        takes_changes,
    } = change_limits;
    let Ok(rows) = BoundedRows::new(alloc, rows, bounds, notices) else {
        return Err(Fault::StoreRefused);
    };
    match Service::open(alloc, tenants, rows) {
        Ok(service) => Ok(with_changes(service, takes_changes)),
        Err(fault) => Err(opening_fault(fault)),
    }
}

/// The service of the tenants over a table that is there already, within these limits.
pub(crate) fn resume_within<T: Owing + Drop>(
    alloc: Global,
    rows: T,
    change_limits: ChangeLimits,
    tenants: Tenants,
) -> Result<Service<BoundedRows<T, Notices>>, Fault> {
    let ChangeLimits {
        bounds,
        notices,
        takes_changes,
    } = change_limits;
    let Ok(rows) = BoundedRows::new(alloc, rows, bounds, notices) else {
        return Err(Fault::StoreRefused);
    };
    match Service::resume(alloc, tenants, rows) {
        Ok(service) => Ok(with_changes(service, takes_changes)),
        Err(fault) => Err(opening_fault(fault)),
    }
}

/// Opens the service of the tenants over an empty table within these limits, tells where it listens, and serves.
fn open_and_serve<
    R: Threads + Clock + RandomSource + Files + Eprint + Copy + Send + Drop + 'static,
    T: Owing + Drop,
    W: Write,
>(
    rt: &R,
    alloc: Global,
    rows: T,
    tenants: Tenants,
    prepared: (PreparedServer, ChangeLimits),
    output: &mut W,
) -> Result<(), Fault>
    requires empty { T.content rows ≡ no_rows }
{
    let (ready, change_limits) = prepared;
    let service = open_within(alloc, rows, change_limits, tenants)?;
    drop(announce_and_serve(rt, alloc, service, ready, output)?);
    Ok(())
}

/// Resumes the service of the tenants over a table that is there already, within these limits, tells where it listens, serves, and gives the table back.
fn resume_and_serve<
    R: Threads + Clock + RandomSource + Files + Eprint + Copy + Send + Drop + 'static,
    T: Owing + Drop,
    W: Write,
>(
    rt: &R,
    alloc: Global,
    rows: T,
    tenants: Tenants,
    prepared: (PreparedServer, ChangeLimits),
    output: &mut W,
) -> Result<T, Fault> {
    let (ready, change_limits) = prepared;
    let service = resume_within(alloc, rows, change_limits, tenants)?;
    let service = announce_and_serve(rt, alloc, service, ready, output)?;
    Ok(service.into_rows().into_rows())
}

/// Takes the socket away at which the word to end was taken.
pub(crate) fn remove_control_socket<R: Files>(rt: &R, path: &Option<String>) {
    if let Some(path) = path {
        // a socket that stays is taken away by the next start
        let _ = remove_socket(rt, path.as_str());
    }
}

/// Serves the tenants over an empty table within the bounds of the configuration, until each worker ended or the turns are spent. What begins is said and the lines that
/// tell where are written once all sockets listen, and before a worker starts.
///
/// Refusals: memory, the table's refusal of an opening row, `Listen` where a port can't be had at one of the addresses, and `Device` where
/// another thing of the machine isn't to be had (at once, with nothing joined), or where a worker's device failed.
pub fn host_tenants<
    R: Net<Listener = TcpListener, Stream = TcpStream>
        + Threads
        + Clock
        + RandomSource
        + Files
        + Eprint
        + Copy
        + Send
        + Drop
        + 'static,
    T: Owing + Drop,
    W: Write,
>(
    rt: &R,
    alloc: Global,
    rows: T,
    tenants: Tenants,
    config: ServerConfig,
    output: &mut W,
) -> Result<(), HostFault>
    requires empty { T.content rows ≡ no_rows }
{
    let (ready, change_limits, control) = prepare(rt, alloc, &tenants, config)?;
    let served = open_and_serve(rt, alloc, rows, tenants, (ready, change_limits), output);
    remove_control_socket(rt, &control);
    Ok(served?)
}

/// Serves the tenants over a table that is there already, as [`host_tenants`] does, and gives the table back. The table is dropped with a refusal.
pub fn host_resumed<
    R: Net<Listener = TcpListener, Stream = TcpStream>
        + Threads
        + Clock
        + RandomSource
        + Files
        + Eprint
        + Copy
        + Send
        + Drop
        + 'static,
    T: Owing + Drop,
    W: Write,
>(
    rt: &R,
    alloc: Global,
    rows: T,
    tenants: Tenants,
    config: ServerConfig,
    output: &mut W,
) -> Result<T, HostFault> {
    let (ready, change_limits, control) = prepare(rt, alloc, &tenants, config)?;
    let served = resume_and_serve(rt, alloc, rows, tenants, (ready, change_limits), output);
    remove_control_socket(rt, &control);
    Ok(served?)
}

/// Serves the tenants of the text over TCP and UDP, over an empty table, as [`host_tenants`] does.
fn host_text<
    R: Net<Listener = TcpListener, Stream = TcpStream>
        + Threads
        + Clock
        + RandomSource
        + Files
        + Eprint
        + Copy
        + Send
        + Drop
        + 'static,
    T: Owing + Drop,
    W: Write,
>(
    rt: &R,
    alloc: Global,
    rows: T,
    text: &str,
    limits: Limits,
    output: &mut W,
) -> Result<(), HostFault>
    requires empty { T.content rows ≡ no_rows }
{
    let tenants = tenants_of(alloc, text)?;
    let config = ServerConfig::on_loopback(alloc, limits)?;
    host_tenants(rt, alloc, rows, tenants, config, output)
}

/// Serves the tenants of the text over TCP and UDP on 127.0.0.1, over an empty table in memory and within the limits of [`Limits::DEFAULT`], until each worker
/// ended or the turns are spent. Writes `NAME 127.0.0.1:PORT` for each publisher to the output once all of them listen, and a fault line to the faults.
/// Answers the exit status (docs/PROTOCOL.md, "The tenants text and scripts"); a fault line that can't be written changes none.
pub fn host<
    R: Net<Listener = TcpListener, Stream = TcpStream>
        + Threads
        + Clock
        + RandomSource
        + Files
        + AllocGlobal
        + Eprint
        + Copy
        + Send
        + Drop
        + 'static,
    W: Write,
    F: Write,
>(rt: &R, tenants: &str, turns: u64, output: &mut W, faults: &mut F) -> u8 {
    let alloc = rt.alloc();
    let mut limits = Limits::DEFAULT;
    limits.turns = turns;
    match host_text(rt, alloc, PlainRows::new(alloc), tenants, limits, output) {
        Ok(()) => ExitStatus::Success.number(),
        Err(fault) => {
            let _ = writeln!(faults, "{fault}");
            fault.status().number()
        }
    }
}
