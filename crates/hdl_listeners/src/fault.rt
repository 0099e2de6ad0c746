//! Why a server ends with a fault line.

use hdl_change_list::ListFault;
use hdl_programs::{ExitStatus, Fault};
use std::alloc::{AllocError, AllocFailed};
use std::fmt;
use std::io::ErrorKind;
use std::net::SocketAddr;

/// Why a server didn't serve, or ended with a fault.
#[derive(Clone, Copy, Debug)]
pub enum HostFault {
    /// The faults that a run of a script has too.
    Run(Fault),
    /// The system doesn't let the server listen here, for a reason of this kind.
    Listen(SocketAddr, ErrorKind),
    /// The socket at which the word to end is taken can't be made, for a reason of this kind.
    Control(ErrorKind),
    /// The list of changes that servers share can't be had.
    Cluster(ListFault),
}

impl HostFault {
    /// How the server ends.
    pub fn status(&self) -> ExitStatus {
        match self {
            HostFault::Run(fault) => fault.status(),
            HostFault::Listen(_, _) | HostFault::Control(_) => Fault::Device.status(),
            HostFault::Cluster(_) => ExitStatus::Cluster,
        }
    }
}

/// What is wrong with an address, and what to do.
fn advice(kind: ErrorKind) -> &'static str {
    match kind {
        ErrorKind::AddrInUse => {
            "another program uses this port, or the address is given twice: end that program, or choose another port"
        }
        ErrorKind::AddrNotAvailable => {
            "this machine doesn't have the address: name one that `ip address` shows"
        }
        ErrorKind::PermissionDenied => {
            "not permitted: choose a port from 1024 on, or give the program CAP_NET_BIND_SERVICE"
        }
        ErrorKind::Unsupported => "the system has no addresses of this kind: leave it out",
        _ => "the system refused: check the address, and the limit on open files",
    }
}

/// What is wrong with the path of a socket, and what to do.
fn advice_on_path(kind: ErrorKind) -> &'static str {
    match kind {
        ErrorKind::AddrInUse => {
            "another program listens there, or the path is that of a file: end that program, or name another path"
        }
        ErrorKind::NotFound => "its folder is missing: create it",
        ErrorKind::PermissionDenied => "the program may not write there: name a folder of its own",
        ErrorKind::InvalidInput => "a socket's path has at most 107 octets: name a shorter one",
        _ => "the system refused: check the path and its folder",
    }
}

/// The fault line is the last one. What helps stands before it.
impl fmt::Display for HostFault {
    fn fmt<W: fmt::Write>(&self, f: &mut fmt::Formatter<W>) -> fmt::Result {
        match self {
            HostFault::Run(fault) => write!(f, "{fault}"),
            HostFault::Listen(address, kind) => {
                let advice = advice(*kind);
                write!(f, "cannot listen on {address}: {advice}\n{}", Fault::Device)
            }
            HostFault::Control(kind) => {
                let advice = advice_on_path(*kind);
                write!(
                    f,
                    "cannot make the socket of --control: {advice}\n{}",
                    Fault::Device
                )
            }
            HostFault::Cluster(fault) => write!(f, "cluster: {fault}"),
        }
    }
}

impl From<Fault> for HostFault {
    fn from(fault: Fault) -> HostFault {
        HostFault::Run(fault)
    }
}

impl From<ListFault> for HostFault {
    fn from(fault: ListFault) -> HostFault {
        match fault {
            ListFault::Memory => HostFault::Run(Fault::NoMemory),
            fault => HostFault::Cluster(fault),
        }
    }
}

impl From<AllocError> for HostFault {
    fn from(_: AllocError) -> HostFault {
        HostFault::Run(Fault::NoMemory)
    }
}

impl<T: Drop> From<AllocFailed<T>> for HostFault {
    fn from(_: AllocFailed<T>) -> HostFault {
        HostFault::Run(Fault::NoMemory)
    }
}
