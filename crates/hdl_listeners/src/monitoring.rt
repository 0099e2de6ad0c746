//! What a server tells of itself in addition to its answers, and how it takes words.

use crate::clients::serve_clients;
use crate::control::{Control, listen};
use crate::fault::HostFault;
use crate::listening::{PublisherSockets, or_device_fault};
use crate::reporter::{Reporter, run_reporter};
use crate::status::StatusPage;
use hdl_change_list::ClusterStatus;
use hdl_programs::Fault;
use hdl_sockets::ShutdownFlag;
use hdl_telemetry::{
    BoundStatus, Counts, FileWatch, Health, Log, LogFile, LogSender, LogStatus, ProcessMetrics,
    PublisherTelemetry,
};
use std::alloc::{AllocError, Global};
use std::fs::Files;
use std::net::{IpAddr, Net, SocketAddr, TcpListener, TcpStream};
use std::os::unix::net::UnixListener;
use std::rt::Clock;
use std::sync::Arc;
use std::thread::Threads;
use std::time::Duration;
use std::{io, thread};

/// How many times a server that ends looks whether all lines are written, and for how many milliseconds it waits each time.
const CHECKS_MOST: u32 = 100;

const CHECK_MILLIS: u64 = 20;

/// What a server tells of itself, and how it takes the word to end.
#[derive(Drop)]
pub struct Monitoring {
    /// What is said on standard error once the server listens.
    pub startup_line: String,
    /// Where a line of each change goes.
    pub log: Option<Log>,
    /// Where each change goes with the values before.
    pub history: Option<Log>,
    /// What opens the files of both anew, as far as they are files.
    pub log_files: Vec<LogFile>,
    /// Where the status page is had over HTTP.
    pub status: Option<SocketAddr>,
    /// The path of the Unix socket at which words are taken: to end, and to open the log anew.
    pub control: Option<String>,
    /// The address of a proxy that says by the PROXY protocol whose each of its connections is, for the log.
    pub proxied: Option<IpAddr>,
    /// Whether the table takes changes.
    pub health: Arc<Health>,
    /// What the server takes of the machine.
    pub process_metrics: Arc<ProcessMetrics>,
    /// The table's file, as it was opened, where it has one.
    pub file: Option<FileWatch>,
    /// What is said and counted of each bound, in their order.
    pub bounds: Arc<Vec<BoundStatus>>,
    /// Whether the server is asked to end.
    pub shutdown: Arc<ShutdownFlag>,
    /// How the server stands beside others, if others have its table.
    pub beside: Option<Arc<ClusterStatus>>,
}

impl Monitoring {
    /// No log, no status page, no control socket.
    pub fn none(alloc: Global) -> Result<Monitoring, AllocError> {
        Ok(Monitoring {
            startup_line: String::new(alloc),
            log: None,
            history: None,
            log_files: Vec::new(alloc),
            status: None,
            control: None,
            proxied: None,
            health: Arc::new(alloc, Health::new(alloc, 0)?)?,
            process_metrics: Arc::new(alloc, ProcessMetrics::new())?,
            file: None,
            bounds: Arc::new(alloc, Vec::new(alloc))?,
            shutdown: Arc::new(alloc, ShutdownFlag::new())?,
            beside: None,
        })
    }

    /// Senders of lines for `lanes` lanes; none where there is no log.
    fn senders(&mut self, alloc: Global, lanes: u16) -> Result<Vec<LogSender>, AllocError> {
        let mut senders = Vec::new(alloc);
        if let Some(log) = &mut self.log {
            for _ in 0..lanes {
                senders.push(log.sender(alloc)?)?;
            }
        }
        Ok(senders)
    }

    /// The recorders of a publisher with `lanes` lanes, if a log or a status page is asked for.
    pub fn telemetry_of(
        &mut self,
        alloc: Global,
        publisher: &str,
        lanes: u16,
    ) -> io::Result<Option<PublisherTelemetry>> {
        if self.log.is_none() && self.status.is_none() {
            return Ok(None);
        }
        let counts = Arc::new(alloc, Counts::new(alloc, publisher, lanes)?)?;
        let senders = self.senders(alloc, lanes)?.into_iter();
        Ok(Some(PublisherTelemetry { counts, senders }))
    }
}

/// The sockets at which a server is watched and ended, its log and its history, and what it may have to say.
#[derive(Drop)]
pub struct MonitoringSockets {
    status: Option<(TcpListener, StatusPage)>,
    control: Option<(UnixListener, Control)>,
    log: Option<Log>,
    history: Option<Log>,
    active: ActiveMonitoring,
}

/// What is looked at while a server runs, and at its end.
#[derive(Drop)]
pub struct ActiveMonitoring {
    /// Whether the server is asked to end.
    pub shutdown: Arc<ShutdownFlag>,
    reporter: Reporter,
}

impl ActiveMonitoring {
    /// Whether everything is said, and the last lines of log and history are written.
    fn is_reported(&self) -> bool {
        self.reporter.are_logs_written() && !self.reporter.has_due()
    }

    /// Once all lanes have ended: waits until all lines are written, two seconds at most.
    pub fn flush<R: Clock>(&self, rt: &R) {
        self.reporter.end_logs();
        for _ in 0..CHECKS_MOST {
            if self.is_reported() {
                break;
            }
            thread::sleep(rt, Duration::from_millis(CHECK_MILLIS));
        }
    }
}

/// The counts of all publishers.
fn all_counts<C>(
    alloc: Global,
    publishers: &[PublisherSockets<C>],
) -> io::Result<Vec<Arc<Counts>>> {
    let mut all = Vec::new(alloc);
    for publisher in publishers {
        if let Some(telemetry) = &publisher.telemetry {
            all.push(Arc::try_clone(&telemetry.counts)?)?;
        }
    }
    Ok(all)
}

/// How the lines of this log go, where there is one.
fn log_status_of(log: &Option<Log>) -> Result<Option<Arc<LogStatus>>, AllocError> {
    match log {
        Some(log) => Ok(Some(log.status()?)),
        None => Ok(None),
    }
}

/// How the lines of log and history go, where there are any.
fn log_statuses_of(
    alloc: Global,
    monitoring: &Monitoring,
) -> Result<Vec<Arc<LogStatus>>, AllocError> {
    let mut all = Vec::new(alloc);
    if let Some(log) = &monitoring.log {
        all.push(log.status()?)?;
    }
    if let Some(history) = &monitoring.history {
        all.push(history.status()?)?;
    }
    Ok(all)
}

/// How the lines go of those that are files.
fn file_statuses_of(
    alloc: Global,
    monitoring: &Monitoring,
) -> Result<Vec<Arc<LogStatus>>, AllocError> {
    let mut all = Vec::new(alloc);
    for file in monitoring.log_files.iter() {
        all.push(file.status()?)?;
    }
    Ok(all)
}

/// How the server stands beside others, if others have its table.
fn standing_of(monitoring: &Monitoring) -> Result<Option<Arc<ClusterStatus>>, AllocError> {
    match &monitoring.beside {
        Some(standing) => Ok(Some(Arc::try_clone(standing)?)),
        None => Ok(None),
    }
}

/// What the status page tells.
fn page_of<C>(
    alloc: Global,
    monitoring: &Monitoring,
    publishers: &[PublisherSockets<C>],
) -> io::Result<StatusPage> {
    Ok(StatusPage {
        counts: all_counts(alloc, publishers)?,
        health: Arc::try_clone(&monitoring.health)?,
        process_metrics: Arc::try_clone(&monitoring.process_metrics)?,
        bounds: Arc::try_clone(&monitoring.bounds)?,
        log: log_status_of(&monitoring.log)?,
        history: log_status_of(&monitoring.history)?,
        beside: standing_of(monitoring)?,
    })
}

/// What takes the words.
fn control_of(alloc: Global, monitoring: &Monitoring) -> io::Result<Control> {
    Ok(Control {
        shutdown: Arc::try_clone(&monitoring.shutdown)?,
        logs: file_statuses_of(alloc, monitoring)?,
    })
}

/// What is looked at while the server runs.
fn active_of(alloc: Global, monitoring: &Monitoring) -> io::Result<ActiveMonitoring> {
    Ok(ActiveMonitoring {
        shutdown: Arc::try_clone(&monitoring.shutdown)?,
        reporter: Reporter {
            health: Arc::try_clone(&monitoring.health)?,
            bounds: Arc::try_clone(&monitoring.bounds)?,
            logs: Arc::new(alloc, log_statuses_of(alloc, monitoring)?)?,
        },
    })
}

/// Opens the sockets at which a server is watched and ended, and takes its log and its history.
pub fn open_monitoring<R: Net<Listener = TcpListener, Stream = TcpStream> + Files, C>(
    rt: &R,
    alloc: Global,
    monitoring: &mut Monitoring,
    publishers: &[PublisherSockets<C>],
) -> Result<MonitoringSockets, HostFault> {
    let status = match monitoring.status {
        Some(at) => match TcpListener::bind(rt, at) {
            Ok(listener) => Some((
                listener,
                or_device_fault(page_of(alloc, monitoring, publishers))?,
            )),
            Err(e) => return Err(HostFault::Listen(at, e.kind())),
        },
        None => None,
    };
    let control = match &monitoring.control {
        Some(path) => match listen(rt, path.as_str()) {
            Ok(listener) => Some((listener, or_device_fault(control_of(alloc, monitoring))?)),
            Err(e) => return Err(HostFault::Control(e.kind())),
        },
        None => None,
    };
    let active = or_device_fault(active_of(alloc, monitoring))?;
    Ok(MonitoringSockets {
        status,
        control,
        log: monitoring.log.take(),
        history: monitoring.history.take(),
        active,
    })
}

/// Starts the thread of the status page.
fn start_status<R: Threads + Clock + Copy + Send + Drop + 'static>(
    rt: &R,
    alloc: Global,
    listener: TcpListener,
    page: StatusPage,
) -> Result<(), Fault> {
    let theirs = *rt;
    match thread::spawn(rt, move || {
        serve_clients(&theirs, alloc, &listener, &page);
    }) {
        Ok(_) => Ok(()),
        Err(_) => Err(Fault::Device),
    }
}

/// Starts the thread that takes words.
fn start_control<R: Threads + Clock + Copy + Send + Drop + 'static>(
    rt: &R,
    alloc: Global,
    listener: UnixListener,
    control: Control,
) -> Result<(), Fault> {
    let theirs = *rt;
    match thread::spawn(rt, move || {
        serve_clients(&theirs, alloc, &listener, &control);
    }) {
        Ok(_) => Ok(()),
        Err(_) => Err(Fault::Device),
    }
}

/// Starts the thread that writes a log, if there is one.
fn start_log<R: Threads + Clock + Eprint + Copy + Send + Drop + 'static>(
    rt: &R,
    log: Option<Log>,
) -> Result<(), Fault> {
    let Some(log) = log else {
        return Ok(());
    };
    let theirs = *rt;
    match thread::spawn(rt, move || {
        let mut log = log;
        log.write_lines(&theirs);
    }) {
        Ok(_) => Ok(()),
        Err(_) => Err(Fault::Device),
    }
}

/// Starts the thread that says what is due.
fn start_reporter<R: Threads + Clock + Eprint + Copy + Send + Drop + 'static>(
    rt: &R,
    reporter: Reporter,
) -> Result<(), Fault> {
    let theirs = *rt;
    match thread::spawn(rt, move || {
        run_reporter(&theirs, &reporter);
    }) {
        Ok(_) => Ok(()),
        Err(_) => Err(Fault::Device),
    }
}

impl MonitoringSockets {
    /// Starts what answers at these sockets, writes log and history and says what is due, on threads that end with the program.
    pub fn start<R: Threads + Clock + Eprint + Copy + Send + Drop + 'static>(
        self,
        rt: &R,
        alloc: Global,
    ) -> Result<ActiveMonitoring, Fault> {
        let MonitoringSockets {
            status,
            control,
            log,
            history,
            active,
        } = self;
        if let Some((listener, page)) = status {
            start_status(rt, alloc, listener, page)?;
        }
        if let Some((listener, control)) = control {
            start_control(rt, alloc, listener, control)?;
        }
        start_log(rt, log)?;
        start_log(rt, history)?;
        start_reporter(rt, active.reporter.try_clone()?)?;
        Ok(active)
    }
}
