//! What a server tells of itself, and the words that a running one takes.

use hdl_host::{Log, LogKind, Monitoring, REOPEN, STOP};
use hdl_programs::{ExitStatus, Fault};
use hdl_server_options::ServeOptions;
use std::fs;
use std::io::{self, ErrorKind, Read, Write};
use std::os::unix::net::UnixStream;

/// The word that stands for standard error.
const ERRORS: &str = "-";

fn try_open_log(rt: &HostRuntime, path: &str, monitoring: &mut Monitoring) -> io::Result<()> {
    if path == ERRORS {
        monitoring.log = Some(Log::to_errors(rt.alloc())?);
        return Ok(());
    }
    let (log, file) = Log::to_file(rt, LogKind::Log, path)?;
    monitoring.log = Some(log);
    monitoring.log_files.push(file)?;
    Ok(())
}

fn try_open_history(rt: &HostRuntime, path: &str, monitoring: &mut Monitoring) -> io::Result<()> {
    let (history, file) = Log::to_file(rt, LogKind::History, path)?;
    monitoring.history = Some(history);
    monitoring.log_files.push(file)?;
    Ok(())
}

/// Whether two paths lead to one file that is there.
pub fn is_one_file(rt: &HostRuntime, path: &str, other: &str) -> bool {
    match (fs::canonicalize(rt, path), fs::canonicalize(rt, other)) {
        (Ok(path), Ok(other)) => path.as_str() == other.as_str(),
        _ => path == other,
    }
}

/// The option that names the file at this path of a log too, if one does.
fn option_at(rt: &HostRuntime, log: &str, options: &ServeOptions) -> Option<&'static str> {
    if let Some(file) = &options.table {
        if is_one_file(rt, log, file.path.as_str()) {
            return Some("--table");
        }
    }
    if let Some(text) = &options.text {
        if is_one_file(rt, log, text.as_str()) {
            return Some("--text");
        }
    }
    None
}

/// The option that names the file at the path of the history too, if one does.
fn option_at_history(
    rt: &HostRuntime,
    history: &str,
    options: &ServeOptions,
) -> Option<&'static str> {
    if let Some(log) = &options.monitoring.log {
        if is_one_file(rt, history, log.as_str()) {
            return Some("--log");
        }
    }
    option_at(rt, history, options)
}

/// Says on standard error that the file of this option is another one's too, if it is. Answers whether that is so.
fn report_conflict(rt: &HostRuntime, name: &str, path: &str, option: Option<&'static str>) -> bool {
    let Some(option) = option else {
        return false;
    };
    let _ = eprintln!(rt;
        "error: invalid value '{path}' for '--{name} <FILE>': this is the file of {option}: name another one\n\nFor more information, try '--help'."
    );
    true
}

/// Says on standard error that lines of the log or of the history would be written into a file of another option. Answers whether that is so.
pub fn report_log_conflict(rt: &HostRuntime, options: &ServeOptions) -> bool {
    if let Some(log) = &options.monitoring.log {
        if report_conflict(
            rt,
            "log",
            log.as_str(),
            option_at(rt, log.as_str(), options),
        ) {
            return true;
        }
    }
    let Some(history) = &options.monitoring.history else {
        return false;
    };
    let option = option_at_history(rt, history.as_str(), options);
    report_conflict(rt, "history", history.as_str(), option)
}

/// Opens the log of changes. What can't be opened is said on standard error.
pub fn open_log(rt: &HostRuntime, path: &str, monitoring: &mut Monitoring) -> Result<(), Fault> {
    match try_open_log(rt, path, monitoring) {
        Ok(()) => Ok(()),
        Err(e) => {
            let _ = eprintln!(rt;
                "log: cannot open {path}: {e}: name a file in a folder that the program may write to"
            );
            Err(Fault::Device)
        }
    }
}

/// Opens the history of changes. What can't be opened is said on standard error.
pub fn open_history(
    rt: &HostRuntime,
    path: &str,
    monitoring: &mut Monitoring,
) -> Result<(), Fault> {
    match try_open_history(rt, path, monitoring) {
        Ok(()) => Ok(()),
        Err(e) => {
            let _ = eprintln!(rt;
                "history: cannot open {path}: {e}: name a file in a folder that the program may write to"
            );
            Err(Fault::Device)
        }
    }
}

/// Says a word, and waits until the server has ended or answered. How many octets it answered.
fn send_command(rt: &HostRuntime, control: &str, word: &[u8]) -> io::Result<usize> {
    let mut stream = UnixStream::connect(rt, control)?;
    stream.write_all(word)?;
    let mut octets = [0; 1];
    match stream.read(&mut octets) {
        // the server's end may break the connection
        Err(e) if e.kind() == ErrorKind::ConnectionReset => Ok(0),
        answered => answered,
    }
}

/// What can be done where no server takes the word for a reason of this kind.
fn advice_for(kind: ErrorKind) -> &'static str {
    match kind {
        ErrorKind::PermissionDenied => {
            "only root and the server's user may: run the command as one of them"
        }
        ErrorKind::ConnectionRefused => {
            "its server was killed, and the next start replaces the socket; or the path is that of a file"
        }
        _ => {
            "name the path of a running server's --control; one that is still starting has none yet: wait for its lines"
        }
    }
}

/// Says on standard error that no server takes the word.
fn report_no_server(rt: &HostRuntime, word: &str, control: &str, error: io::Error) {
    let way = advice_for(error.kind());
    let _ = eprintln!(rt; "{word}: no server answers at {control}: {error}: {way}");
}

/// Ends the server that takes the word at this socket, and answers the exit status.
pub fn stop(rt: &HostRuntime, control: &str) -> ExitStatus {
    match send_command(rt, control, STOP) {
        Ok(_) => ExitStatus::Success,
        Err(e) => {
            report_no_server(rt, "stop", control, e);
            Fault::Device.status()
        }
    }
}

/// Has the server that takes the word at this socket open its log anew, and answers the exit status.
pub fn reopen(rt: &HostRuntime, control: &str) -> ExitStatus {
    match send_command(rt, control, REOPEN) {
        Ok(0) => return ExitStatus::Success,
        Ok(_) => {
            let _ = eprintln!(rt;
                "reopen: the server at {control} writes its log into no file: start it with --log FILE"
            );
        }
        Err(e) => report_no_server(rt, "reopen", control, e),
    }
    Fault::Device.status()
}
