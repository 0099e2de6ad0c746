//! Whether the sockets of a server can be had, before the file of its table is made or the server is started.

use hdl_core::Tenants;
use hdl_host::HostFault;
use hdl_programs::ExitStatus;
use std::alloc::{AllocError, Global};
use std::fs;
use std::io::{self, ErrorKind};
use std::net::{IpAddr, Net, SocketAddr, TcpListener, TcpStream, UdpSocket};
use std::os::unix::fs::FileTypeExt;
use std::os::unix::net::{UnixListener, UnixStream};

/// Opens each publisher's port at each of these addresses, by TCP and UDP, and that of the status page, if there is one, and closes all of them: the
/// fault with which a server would end that opened them now.
pub fn try_listeners<R: Net<Listener = TcpListener, Stream = TcpStream>>(
    rt: &R,
    alloc: Global,
    tenants: &Tenants,
    addresses: &[IpAddr],
    status: Option<SocketAddr>,
) -> Result<(), HostFault> {
    // all are open at once, so that a port that is given twice is found
    let mut listeners = Vec::new(alloc);
    let mut sockets = Vec::new(alloc);
    for place in 0..tenants.publishers() {
        let Some((_, _, port)) = tenants.publisher(place) else {
            break;
        };
        for address in addresses {
            let at = SocketAddr::new(*address, port);
            match TcpListener::bind(rt, at) {
                Ok(listener) => listeners.push(listener)?,
                Err(e) => return Err(HostFault::Listen(at, e.kind())),
            }
            match UdpSocket::bind(rt, at) {
                Ok(socket) => sockets.push(socket)?,
                Err(e) => return Err(HostFault::Listen(at, e.kind())),
            }
        }
    }
    if let Some(at) = status {
        if let Err(e) = TcpListener::bind(rt, at) {
            return Err(HostFault::Listen(at, e.kind()));
        }
    }
    Ok(())
}

/// Makes a Unix socket at a path, and takes it away. What a killed server left there is taken away by the start; anything else that is there stays.
fn try_path(rt: &HostRuntime, path: &str) -> io::Result<()> {
    if let Ok(found) = fs::symlink_metadata(rt, path) {
        if !found.file_type().is_socket() {
            return Err(io::Error::from(ErrorKind::AddrInUse));
        }
    }
    match UnixStream::connect(rt, path) {
        Ok(_) => return Err(io::Error::from(ErrorKind::AddrInUse)),
        Err(e) if e.kind() == ErrorKind::ConnectionRefused => return Ok(()),
        Err(_) => {}
    }
    drop(UnixListener::bind(rt, path)?);
    fs::remove_file(rt, path)
}

/// Makes the socket at which a server takes words, if one is named, and takes it away: the fault with which a server would end that made it now.
pub fn try_control_socket(rt: &HostRuntime, control: &Option<String>) -> Result<(), HostFault> {
    let Some(path) = control else {
        return Ok(());
    };
    match try_path(rt, path.as_str()) {
        Ok(()) => Ok(()),
        Err(e) => Err(HostFault::Control(e.kind())),
    }
}

/// The name of an earlier publisher that has this port.
fn earlier_at(tenants: &Tenants, place: usize, port: u16) -> Option<&str> {
    for before in 0..place {
        if let Some((name, _, taken)) = tenants.publisher(before) {
            if taken == port {
                return Some(name);
            }
        }
    }
    None
}

/// Says on standard error which publishers have one port; whether some have.
fn report_shared_ports(rt: &HostRuntime, tenants: &Tenants) -> bool {
    let mut is_shared = false;
    for place in 0..tenants.publishers() {
        let Some((name, _, port)) = tenants.publisher(place) else {
            break;
        };
        if let Some(other) = earlier_at(tenants, place, port) {
            is_shared = true;
            let _ = eprintln!(rt;
                "tenants: {other} and {name} have one port, {port}: give one of them another"
            );
        }
    }
    is_shared
}

/// Says on standard error that a text is empty, if it is, as a command's input is that was given none. Answers whether that is so.
pub fn report_empty(rt: &HostRuntime, text: &str) -> bool {
    if !text.is_empty() {
        return false;
    }
    let _ = eprintln!(rt;
        "tenants: the text is empty: end the command with < TEXT, or name the file of the text by --text"
    );
    true
}

/// Says on standard error why no server can start with the tenants of this text: there is no publisher, or some have one port. Answers whether that is so.
pub fn report_unservable(rt: &HostRuntime, text: &str, tenants: &Tenants) -> bool {
    if tenants.publishers() > 0 {
        return report_shared_ports(rt, tenants);
    }
    if report_empty(rt, text) {
        return true;
    }
    let _ = eprintln!(rt;
        "tenants: the text has no publisher: give each a line `publisher NAME LANES PORT`, and each of its prefixes a line `prefix PREFIX NAME`; `hdl init PREFIX > WORDS`, then `hdl tenants < WORDS` makes such a text"
    );
    true
}

/// Opens a port by TCP and UDP, and closes both.
fn try_port(rt: &HostRuntime, at: SocketAddr) -> io::Result<()> {
    let _listener = TcpListener::bind(rt, at)?;
    let _socket = UdpSocket::bind(rt, at)?;
    Ok(())
}

/// What is said of a publisher's port that can't be had: if it is taken, that a start needs it free, or else what is said of it at a start.
fn line_of(
    alloc: Global,
    at: SocketAddr,
    name: &str,
    kind: ErrorKind,
) -> Result<String, AllocError> {
    if kind == ErrorKind::AddrInUse {
        return format!(in alloc;
            "check: {at} of {name} is taken now, by a server that runs or by another program: a start needs it free"
        );
    }
    // the last line of the fault is that of its status
    let fault = format!(in alloc; "{}", HostFault::Listen(at, kind))?;
    let line = fault.lines().next().unwrap_or("");
    format!(in alloc; "check: {line}")
}

/// Whether no port can be had at an address because of this.
fn is_of_address(kind: ErrorKind) -> bool {
    matches!(kind, ErrorKind::AddrNotAvailable | ErrorKind::Unsupported)
}

/// Says on standard error which ports of the publishers can't be had at this address now; answers the exit status, as [`report_unavailable`] does.
fn report_unavailable_at(
    rt: &HostRuntime,
    alloc: Global,
    tenants: &Tenants,
    address: IpAddr,
) -> Result<ExitStatus, AllocError> {
    let mut status = ExitStatus::Success;
    for place in 0..tenants.publishers() {
        let Some((name, _, port)) = tenants.publisher(place) else {
            break;
        };
        let at = SocketAddr::new(address, port);
        let kind = match try_port(rt, at) {
            Ok(()) => continue,
            Err(e) => e.kind(),
        };
        let line = line_of(alloc, at, name, kind)?;
        let _ = eprintln!(rt; "{line}");
        if kind != ErrorKind::AddrInUse {
            status = HostFault::Listen(at, kind).status();
        }
        if is_of_address(kind) {
            break;
        }
    }
    Ok(status)
}

/// Says on standard error which ports of the publishers can't be had at these addresses now, once of an address at which none can. Answers the exit status: success if
/// each can be had once it isn't taken, or else that of a start.
pub fn report_unavailable(
    rt: &HostRuntime,
    alloc: Global,
    tenants: &Tenants,
    addresses: &[IpAddr],
) -> Result<ExitStatus, AllocError> {
    let mut status = ExitStatus::Success;
    for address in addresses {
        match report_unavailable_at(rt, alloc, tenants, *address)? {
            ExitStatus::Success => {}
            unavailable => status = unavailable,
        }
    }
    Ok(status)
}
