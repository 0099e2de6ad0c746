//! Whether a table's file and its log are those that the server opened.

use std::alloc::{AllocError, Global};
use std::fs;
use std::fs::Files;
use std::io::{self, ErrorKind};
use std::os::unix::fs::MetadataExt;

/// What became of a file that another program changed.
#[derive(Clone, Copy, Debug, PartialEq, Eq)]
pub enum FileChange {
    /// Nothing is at its path.
    Gone,
    /// Another file is there.
    Replaced,
    /// It was written.
    Overwritten,
}

/// What is seen of a file at its path.
#[derive(Clone, Copy, PartialEq, Eq)]
struct FileStat {
    device: u64,
    inode: u64,
    size: u64,
    seconds: i64,
    nanos: i64,
}

/// Looks at the file at a path.
fn stat_at<R: Files>(rt: &R, path: &str) -> io::Result<FileStat> {
    let found = fs::metadata(rt, path)?;
    Ok(FileStat {
        device: found.dev(),
        inode: found.ino(),
        size: found.size(),
        seconds: found.mtime(),
        nanos: found.mtime_nsec(),
    })
}

/// How a file is known once the server wrote: as it is now, unless it was taken away meanwhile.
fn noted(seen: Option<FileStat>, now: io::Result<FileStat>) -> Option<FileStat> {
    match (seen, now) {
        (Some(seen), Ok(now)) if now.device == seen.device && now.inode == seen.inode => Some(now),
        (None, Ok(now)) => Some(now),
        (seen, _) => seen,
    }
}

/// What became of a file that was seen so. A path that can't be looked at tells nothing.
fn change_of(seen: Option<FileStat>, now: io::Result<FileStat>) -> Option<FileChange> {
    let seen = seen?;
    match now {
        Ok(now) if now == seen => None,
        Ok(now) if now.device == seen.device && now.inode == seen.inode => {
            Some(FileChange::Overwritten)
        }
        Ok(_) => Some(FileChange::Replaced),
        Err(e) if e.kind() == ErrorKind::NotFound => Some(FileChange::Gone),
        Err(_) => None,
    }
}

/// A table's file and the log next to it, as they were seen last.
#[derive(Drop)]
pub struct FileWatch {
    path: String,
    log: String,
    file_seen: Option<FileStat>,
    log_seen: Option<FileStat>,
}

impl FileWatch {
    /// A watch of the file at this path, as it is now.
    pub fn new<R: Files>(rt: &R, alloc: Global, path: &str) -> Result<FileWatch, AllocError> {
        let mut watch = FileWatch {
            path: String::from_str(alloc, path)?,
            log: format!(in alloc; "{path}-wal")?,
            file_seen: None,
            log_seen: None,
        };
        watch.note(rt);
        Ok(watch)
    }

    /// The server wrote: both are as it left them.
    pub fn note<R: Files>(&mut self, rt: &R) {
        self.file_seen = noted(self.file_seen, stat_at(rt, self.path.as_str()));
        self.log_seen = noted(self.log_seen, stat_at(rt, self.log.as_str()));
    }

    /// How many octets both have now; 0 of one that can't be looked at.
    pub fn sizes<R: Files>(&self, rt: &R) -> (u64, u64) {
        let size_of = |path: &str| stat_at(rt, path).map_or(0, |stat| stat.size);
        (size_of(self.path.as_str()), size_of(self.log.as_str()))
    }

    /// What another program made of one of them since.
    pub fn change<R: Files>(&self, rt: &R) -> Option<FileChange> {
        let file = change_of(self.file_seen, stat_at(rt, self.path.as_str()));
        file.or(change_of(self.log_seen, stat_at(rt, self.log.as_str())))
    }

    /// The same, while the server may write: what is written tells nothing.
    pub fn loss<R: Files>(&self, rt: &R) -> Option<FileChange> {
        match self.change(rt) {
            Some(FileChange::Overwritten) => None,
            change => change,
        }
    }
}
