//! The Unix socket at which a server takes the word to end, or to open its log anew.

use crate::clients::{RequestHandler, Response};
use hdl_sockets::ShutdownFlag;
use hdl_telemetry::LogStatus;
use std::alloc::Global;
use std::fs;
use std::fs::{Files, Permissions};
use std::io::{self, ErrorKind};
use std::net::Net;
use std::os::unix::fs::{FileTypeExt, PermissionsExt};
use std::os::unix::net::{UnixListener, UnixStream};
use std::sync::Arc;

/// The word that asks for the end.
pub const STOP: &[u8] = b"stop\n";

/// The word that asks for the file of the log to be opened anew, and the answer of a server that has none.
pub const REOPEN: &[u8] = b"reopen\n";

const NO_LOG: &[u8] = b"no log\n";

/// Only the program's own user may connect.
const MODE: u32 = 0o600;

/// Removes the socket at a path. What isn't a socket stays, such as a table that was named by mistake: then the path is in use.
pub fn remove_socket<R: Files>(rt: &R, path: &str) -> io::Result<()> {
    if !fs::symlink_metadata(rt, path)?.file_type().is_socket() {
        return Err(io::Error::from(ErrorKind::AddrInUse));
    }
    fs::remove_file(rt, path)
}

/// Listens at a path. First removes what a killed server left there: a socket at which no process listens.
pub fn listen<R: Files + Net>(rt: &R, path: &str) -> io::Result<UnixListener> {
    match UnixStream::connect(rt, path) {
        Ok(_) => return Err(io::Error::from(ErrorKind::AddrInUse)),
        Err(e) if e.kind() == ErrorKind::ConnectionRefused => remove_socket(rt, path)?,
        Err(_) => {}
    }
    let listener = UnixListener::bind(rt, path)?;
    fs::set_permissions(rt, path, Permissions::from_mode(MODE))?;
    Ok(listener)
}

/// Takes the words.
#[derive(Drop)]
pub struct Control {
    pub shutdown: Arc<ShutdownFlag>,
    /// How the lines of log and history go, as far as these are files.
    pub logs: Vec<Arc<LogStatus>>,
}

impl Control {
    /// Asks for the files of log and history to be opened anew, if there are any. Who asks is answered by no octet then.
    fn reopen(&self, alloc: Global) -> Response {
        for log in self.logs.iter() {
            log.request_reopen();
        }
        let said = if self.logs.is_empty() {
            Vec::from_slice(alloc, NO_LOG)
        } else {
            Ok(Vec::new(alloc))
        };
        match said {
            Ok(octets) => Response::Octets(octets),
            Err(_) => Response::Close,
        }
    }
}

impl RequestHandler for Control {
    /// A client that asked for the end stays connected, and so sees when the program has ended.
    fn answer(&self, alloc: Global, request: &[u8]) -> Response {
        if request == STOP {
            self.shutdown.request();
            return Response::KeepOpen;
        }
        if request == REOPEN {
            return self.reopen(alloc);
        }
        if STOP.starts_with(request) || REOPEN.starts_with(request) {
            Response::NeedMore
        } else {
            Response::Close
        }
    }
}
