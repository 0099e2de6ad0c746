//! The file of a log, which is opened anew once another program has moved it.

use crate::log_status::LogStatus;
use hdl_lanes::Inlet;
use std::alloc::AllocError;
use std::fs::{self, File, OpenOptions};
use std::io::{self, Read, Seek, SeekFrom};
use std::os::unix::fs::{FileTypeExt, OpenOptionsExt};
use std::sync::Arc;

/// The program's own user alone reads a log: it tells who changes what.
const MODE: u32 = 0o600;

/// What ends a line.
const LF: u8 = b'\n';

/// Whether a FIFO is there.
pub(crate) fn is_fifo(rt: &HostRuntime, path: &str) -> bool {
    match fs::metadata(rt, path) {
        Ok(found) => found.file_type().is_fifo(),
        Err(_) => false,
    }
}

/// Opens the file of a log, and makes it if it isn't there.
pub(crate) fn open_log(rt: &HostRuntime, path: &str) -> io::Result<File> {
    let mut options = OpenOptions::new();
    options.append(true).create(true).mode(MODE);
    // who opens a FIFO to read too waits for no reader, and lines wait in it for one
    options.read(is_fifo(rt, path));
    options.open(rt, path)
}

/// Where the last whole line of a file of this length ends.
fn end_of_lines(file: &mut File, length: u64) -> io::Result<u64> {
    for torn in 0..length {
        let end = length - torn;
        file.seek(SeekFrom::Start(end - 1))?;
        let mut last = [0];
        file.read(&mut last)?;
        if last == [LF] {
            return Ok(end);
        }
    }
    Ok(0)
}

/// Takes off what a crash left of a line, so that the file has whole lines only.
pub(crate) fn drop_torn_line(rt: &HostRuntime, path: &str) -> io::Result<()> {
    let mut options = OpenOptions::new();
    options.read(true).append(true).create(true).mode(MODE);
    let mut file = options.open(rt, path)?;
    let length = file.seek(SeekFrom::End(0))?;
    let end = end_of_lines(&mut file, length)?;
    if end < length {
        file.set_len(end)?;
    }
    Ok(())
}

/// Takes the last octets off a file.
pub(crate) fn drop_last(file: &File, octets: usize) -> io::Result<()> {
    let length = file.metadata()?.len();
    file.set_len(length.saturating_sub(octets as u64))
}

/// What opens the file of a log anew. It's another thread than the one that writes lines.
#[derive(Drop)]
pub struct LogFile {
    pub(crate) rt: HostRuntime,
    pub(crate) path: String,
    pub(crate) files: Inlet<File>,
    pub(crate) status: Arc<LogStatus>,
}

impl LogFile {
    /// How the lines of the log go.
    pub fn status(&self) -> Result<Arc<LogStatus>, AllocError> {
        Ok(Arc::try_clone(&self.status)?)
    }

    /// Opens the file anew, if that was asked for. If it can't be opened, lines go on into the one that is open, and that is said.
    pub fn reopen_if_requested(&mut self) {
        if !self.status.take_reopen_request() {
            return;
        }
        match open_log(&self.rt, self.path.as_str()) {
            Ok(file) => {
                // if the thread that writes hasn't taken the one before, this is tried again
                if self.files.put(file).is_err() {
                    self.status.request_reopen();
                }
            }
            Err(_) => self.status.note_reopen_failed(),
        }
    }
}
