//! What a command line asks for.

use hdl_programs::ExitStatus;
use std::alloc::AllocError;
use std::net::{IpAddr, SocketAddr};

/// The file of a table that lasts.
#[derive(Drop)]
pub struct TableFile {
    pub path: String,
    /// Whether a new one gets sums on its pages.
    pub has_sums: bool,
    /// Whether it is opened where its log isn't whole, or isn't its own.
    pub accepts_loss: bool,
}

/// The words after `--cluster` and `--cluster-name`.
#[derive(Drop)]
pub struct ClusterOptions {
    /// The members of etcd, each as `HOST:PORT` or `unix:PATH`: at least one.
    pub members: Vec<String>,
    /// What all keys of the cluster begin with.
    pub name: String,
}

/// A word after `--bound`: a publisher's name, and how many values and octets it may hold at most.
#[derive(Drop)]
pub struct BoundOption {
    pub publisher: String,
    pub values: u64,
    pub octets: u64,
}

/// The options of `serve` by which turns, waiting and crowds have a limit.
#[derive(Clone, Copy)]
pub struct LimitOptions {
    pub turns: Option<u64>,
    /// For how many seconds a connection may be silent while another client waits.
    pub idle_seconds: Option<u32>,
    pub amplify: Option<u32>,
    /// How many connections an overflow lane serves at most.
    pub crowd: Option<u32>,
    /// How many octets of memory are kept aside.
    pub reserve: Option<usize>,
}

/// The options of `serve` by which a server is watched and ended.
#[derive(Drop)]
pub struct MonitoringOptions {
    /// The path of the log of changes, `-` for standard error.
    pub log: Option<String>,
    /// The path of the history of changes.
    pub history: Option<String>,
    pub status: Option<SocketAddr>,
    /// The path of the socket at which the word to end is taken.
    pub control: Option<String>,
    /// A proxy that says by the PROXY protocol whose its connections are.
    pub proxied: Option<IpAddr>,
}

/// The options of `serve`.
#[derive(Drop)]
pub struct ServeOptions {
    /// The file that the tenants text is in. Without one it is on standard input.
    pub text: Option<String>,
    /// Where each publisher's port is opened: at least one address.
    pub addresses: Vec<IpAddr>,
    pub limits: LimitOptions,
    pub monitoring: MonitoringOptions,
    /// The bounds, at most one per publisher.
    pub bounds: Vec<BoundOption>,
    /// Whether changes are taken.
    pub takes_changes: bool,
    /// How many octets the handles that were read last may take.
    pub row_cache: Option<usize>,
    /// The file of the table; None: the table is in memory alone, or shared.
    pub table: Option<TableFile>,
    /// Where the table is that other servers have too. Then it has no file.
    pub cluster: Option<ClusterOptions>,
}

/// Where the table is that is exported.
#[derive(Drop)]
pub enum ExportSource {
    File(TableFile),
    Cluster(ClusterOptions),
}

/// The options of `export`.
#[derive(Drop)]
pub struct ExportOptions {
    pub source: ExportSource,
    /// The file that the text with publishers and prefixes is in. Without one it is on standard input.
    pub text: Option<String>,
    /// Whose part is written. Without one it is the whole table.
    pub publisher: Option<String>,
    /// The new file that it is written to. Without one it is printed.
    pub to: Option<String>,
}

/// What the command line asks for.
#[derive(Drop)]
pub enum Invocation {
    /// A script on standard input, over the table in a file, if one is named.
    Replay {
        table: Option<TableFile>,
    },
    /// The tenants text is served with these options.
    Serve(ServeOptions),
    /// The table's file is copied, though a server may have it open.
    Copy {
        from: String,
        to: String,
    },
    /// A copy of the table's file is put in its place.
    Restore {
        from: String,
        table: String,
    },
    /// The server that listens at this socket is asked to end.
    Stop {
        control: String,
    },
    /// The server that listens at this socket is asked to open the files of its log and history anew.
    Reopen {
        control: String,
    },
    /// The table in a file, or that of a cluster, is written as a tenants text.
    Export(ExportOptions),
    /// The tenants text is checked, and whether its ports can be had at these addresses.
    Check {
        /// The file that it is in. Without one it is on standard input.
        text: Option<String>,
        addresses: Vec<IpAddr>,
    },
    /// Nothing: help, the version or a fault was printed, and this is the exit status.
    Ended(ExitStatus),
}

/// Why the command line can't be answered.
#[derive(Clone, Copy)]
pub enum OptionsFault {
    Memory,
    /// What was asked for can't be written.
    Device,
}

impl From<AllocError> for OptionsFault {
    fn from(_: AllocError) -> OptionsFault {
        OptionsFault::Memory
    }
}
