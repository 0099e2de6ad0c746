//! Serving a table that other servers have too.

ghost use Rattle.hdl_workers.specs.Ends.{AreDistinct};

use crate::bounds::Notices;
use crate::hosting::{
    ChangeLimits, LaneServer, PreparedServer, announce_and_serve, opening_fault, prepare,
    remove_control_socket, resume_within,
};
use hdl_boundedrows::BoundedRows;
use hdl_cluster::{ClusterStatus, ClusterSync, EtcdChanges, ListFault, WakeServer};
use hdl_core::{Owing, RemoteChangeResult, Rows, Service, Tenants};
use hdl_listeners::{HostFault, ServerConfig, or_device_fault};
use hdl_programs::Fault;
use hdl_serve::{LaneEnds, LoopClock, RemoteChanges, Served, SharedEnd, serve_shared};
use hdl_sockets::{LoopWaker, ShutdownFlag};
use hdl_write_queue::WriteQueue;
use std::alloc::Global;
use std::fs::Files;
use std::io::Write;
use std::net::{Net, TcpListener, TcpStream};
use std::random::RandomSource;
use std::rt::Clock;
use std::sync::Arc;
use std::thread;
use std::thread::Threads;

/// What brings other servers' changes, puts this one's, and tells how the server stands beside them.
#[derive(Drop)]
pub struct Sharing<R> {
    pub news: EtcdChanges,
    pub keeper: ClusterSync<R>,
    pub standing: Arc<ClusterStatus>,
}

/// The service of a table that others change too, and what they changed.
#[derive(Drop)]
struct SharedService<T: Rows + Drop> {
    service: Service<T>,
    news: EtcdChanges,
    standing: Arc<ClusterStatus>,
}

impl<T: Owing + Drop> LaneServer for SharedService<T> {
    fn serve_lanes<C: LoopClock>(
        self,
        alloc: Global,
        ends: Vec<LaneEnds>,
        clock: &mut C,
        queue: &mut WriteQueue,
        turns: u64,
    ) -> SharedService<T> {
        let SharedService {
            service,
            mut news,
            standing,
        } = self;
        let served = Served {
            service,
            lanes: ends,
            turns,
        };
        let shared = serve_shared(alloc, served, clock, queue, &mut news);
        if shared.end == SharedEnd::Diverged {
            standing.note_divergence();
        }
        SharedService {
            service: shared.served.service,
            news,
            standing,
        }
    }

    fn is_whole(&self) -> bool {
        !self.standing.has_diverged()
    }
}

/// How the thread that serves is told.
#[derive(Drop)]
struct ServerWaker {
    waker: Arc<LoopWaker>,
    shutdown: Arc<ShutdownFlag>,
}

impl WakeServer for ServerWaker {
    fn wake(&self) {
        self.waker.wake();
    }

    fn end(&self) {
        self.shutdown.request();
    }
}

/// Lets in all that the news have.
fn apply_all_remote<T: Owing + Drop, N: RemoteChanges>(
    service: &mut Service<T>,
    news: &mut N,
) -> Result<(), Fault> {
    for _ in 0..u64::MAX {
        news.look();
        let Some(next) = news.front() else {
            break;
        };
        match service.apply_remote(next.moment, &next.change) {
            RemoteChangeResult::Done => news.take(),
            RemoteChangeResult::Unfit => return Err(Fault::StoreRefused),
            RemoteChangeResult::Refused | RemoteChangeResult::Owed => return Err(Fault::NoMemory),
        }
    }
    Ok(())
}

/// Reads the whole table, part by part, into the service.
fn load<R: Net<Stream = TcpStream> + Clock + Eprint + Drop, T: Owing + Drop>(
    service: &mut Service<T>,
    news: &mut EtcdChanges,
    keeper: &mut ClusterSync<R>,
) -> Result<(), HostFault> {
    let mut loading = keeper.load()?;
    for _ in 0..u64::MAX {
        if !keeper.load_part(&mut loading)? {
            break;
        }
        apply_all_remote(service, news)?;
    }
    Ok(())
}

/// The table that the servers of a cluster have, read into one that is empty so far. Nothing is put into the cluster.
pub fn read_shared<R: Net<Stream = TcpStream> + Clock + Eprint + Drop, T: Owing + Drop>(
    alloc: Global,
    rows: T,
    tenants: Tenants,
    mut sharing: Sharing<R>,
) -> Result<T, HostFault> {
    match Service::resume(alloc, tenants, rows) {
        Ok(mut service) => {
            load(&mut service, &mut sharing.news, &mut sharing.keeper)?;
            Ok(service.into_rows())
        }
        Err(fault) => Err(HostFault::from(opening_fault(fault))),
    }
}

/// What a thread beside the one that serves does.
trait BackgroundTask {
    fn run(self);
}

/// A keeper, and how it tells the thread that serves.
#[derive(Drop)]
struct ClusterSyncTask<R> {
    keeper: ClusterSync<R>,
    waker: ServerWaker,
}

impl<R: Net<Stream = TcpStream> + Clock + Eprint + Drop> BackgroundTask for ClusterSyncTask<R> {
    fn run(self) {
        let ClusterSyncTask { keeper, waker } = self;
        keeper.keep(waker);
    }
}

/// Starts the thread that keeps the server beside the others.
fn start_cluster_sync<R: Threads, K: BackgroundTask + Send + Drop + 'static>(
    rt: &R,
    task: K,
) -> Result<(), Fault> {
    match thread::spawn(rt, move || task.run()) {
        Ok(_) => Ok(()),
        Err(_) => Err(Fault::Device),
    }
}

/// Opens the service over the table that the others have. With it comes what keeps it beside them.
fn open_shared<R: Net<Stream = TcpStream> + Clock + Eprint + Drop, T: Owing + Drop>(
    alloc: Global,
    rows: T,
    tenants: Tenants,
    change_limits: ChangeLimits,
    mut sharing: Sharing<R>,
) -> Result<(SharedService<BoundedRows<T, Notices>>, ClusterSync<R>), HostFault> {
    sharing.keeper.open_all(tenants.opening())?;
    let mut service = resume_within(alloc, rows, change_limits, tenants)?;
    load(&mut service, &mut sharing.news, &mut sharing.keeper)?;
    let Sharing {
        news,
        keeper,
        standing,
    } = sharing;
    let service = SharedService {
        service,
        news,
        standing,
    };
    Ok((service, keeper))
}

/// Starts the thread that keeps the server beside the others, tells where it listens, and serves.
///
/// It is generic over what serves and what keeps it beside the others: each way out of a function drops what it owns.
fn keep_and_serve<
    R: Threads + Clock + RandomSource + Files + Eprint + Copy + Send + Drop + 'static,
    S: LaneServer + Drop,
    K: BackgroundTask + Send + Drop + 'static,
    W: Write,
>(
    rt: &R,
    alloc: Global,
    (service, task): (S, K),
    ready: PreparedServer,
    output: &mut W,
) -> Result<(), Fault> {
    start_cluster_sync(rt, task)?;
    drop(announce_and_serve(rt, alloc, service, ready, output)?);
    Ok(())
}

/// Opens the service over the table that the others have, tells where it listens, and serves.
fn share_and_serve<
    R: Net<Listener = TcpListener, Stream = TcpStream>
        + Threads
        + Clock
        + RandomSource
        + Files
        + Eprint
        + Copy
        + Send
        + Drop
        + 'static,
    T: Owing + Drop,
    W: Write,
>(
    rt: &R,
    alloc: Global,
    rows: T,
    tenants: Tenants,
    ((ready, change_limits), sharing, shutdown): (
        (PreparedServer, ChangeLimits),
        Sharing<R>,
        Arc<ShutdownFlag>,
    ),
    output: &mut W,
) -> Result<(), HostFault> {
    let loop_waker = or_device_fault(ready.opened.idle_poll.waker())?;
    let waker = ServerWaker {
        waker: loop_waker,
        shutdown,
    };
    let (service, keeper) = open_shared(alloc, rows, tenants, change_limits, sharing)?;
    let task = ClusterSyncTask { keeper, waker };
    Ok(keep_and_serve(rt, alloc, (service, task), ready, output)?)
}

/// Serves the tenants over a table that other servers have too, which is empty so far, as [`host_tenants`](crate::host_tenants) does. First the handles that were never opened are put
/// with their first values, and what the others have is read. If it ends since it has parted from the others, its standing says so.
pub fn host_shared<
    R: Net<Listener = TcpListener, Stream = TcpStream>
        + Threads
        + Clock
        + RandomSource
        + Files
        + Eprint
        + Copy
        + Send
        + Drop
        + 'static,
    T: Owing + Drop,
    W: Write,
>(
    rt: &R,
    alloc: Global,
    rows: T,
    tenants: Tenants,
    (config, sharing): (ServerConfig, Sharing<R>),
    output: &mut W,
) -> Result<(), HostFault> {
    let shutdown = Arc::try_clone(&config.monitoring.shutdown)?;
    let (ready, change_limits, control) = prepare(rt, alloc, &tenants, config)?;
    let shared = ((ready, change_limits), sharing, shutdown);
    let served = share_and_serve(rt, alloc, rows, tenants, shared, output);
    remove_control_socket(rt, &control);
    served
}
