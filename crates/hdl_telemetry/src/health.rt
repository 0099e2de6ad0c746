//! Whether a server's table takes changes, and why not.

use crate::file_watch::FileChange;
use crate::histogram::Histogram;
use crate::memory::can_allocate;
use crate::notice::Notice;
use std::alloc::{AllocError, Global};
use std::sync::atomic::Ordering::SeqCst;
use std::sync::atomic::{AtomicBool, AtomicU64};
use std::time::Duration;

/// What is said on standard error.
const SHUT: &str =
    "table: shut for writes: a sync failed, so the file may have the last change or not. Reads go on; changes are answered busy. Repair the disk, then restart";

const GONE: &str =
    "table: shut for writes: the file or its log is gone from its path. Reads go on; changes are answered busy. Move both back: changes then go on. Or copy them from /proc/PID/fd of this process, and restart";

const REPLACED: &str =
    "table: shut for writes: another file is at the path of the file or its log. Reads go on; changes are answered busy. Move both back: changes then go on. Or copy them from /proc/PID/fd of this process, and restart with one of the two";

const BACK: &str = "table: the file and its log are back: changes are taken again";

const OVERWRITTEN: &str =
    "table: shut for writes: another program wrote the file or its log. Reads go on; changes are answered busy. If nothing else wrote them (`touch` counts), restart; otherwise restore a copy";

const FAILING: &str =
    "table: a change can't be written: the disk may be full, or memory short. Reads go on; such a change is answered busy, and nothing of it is done. Make room";

const SHORT: &str =
    "memory: less is left than is kept aside (--reserve): changes that need memory are answered busy. Reads, deletes and removes go on. Delete handles, bound publishers (--bound), or give the process more memory";

const ASKED: &str = "handled: ends: asked by `handled stop`";

const SPENT: &str = "handled: ends: its --turns are spent";

/// Whether the table takes changes, and why not; and why the server ends. What keeps it says so; the status page and the thread that says the lines read it.
#[derive(Drop)]
pub struct Health {
    shut: Notice,
    gone: Notice,
    replaced: Notice,
    back: Notice,
    overwritten: Notice,
    failing: Notice,
    short: Notice,
    asked: Notice,
    spent: Notice,
    /// Whether its file was gone or replaced when it was seen last.
    is_away: AtomicBool,
    /// Whether the last change couldn't be written, and how many couldn't.
    is_failing: AtomicBool,
    failures: AtomicU64,
    /// How long changes took until they were in the file.
    commits: Histogram,
    /// How many octets of memory are kept aside, whether they couldn't be had when that was seen last, and how many changes were refused for that.
    reserve: usize,
    is_memory_short: AtomicBool,
    refusals: AtomicU64,
}

impl Health {
    /// The table takes changes. `reserve` octets of memory are kept aside.
    pub fn new(alloc: Global, reserve: usize) -> Result<Health, AllocError> {
        Ok(Health {
            shut: Notice::new(alloc, SHUT)?,
            gone: Notice::new(alloc, GONE)?,
            replaced: Notice::new(alloc, REPLACED)?,
            back: Notice::new(alloc, BACK)?,
            overwritten: Notice::new(alloc, OVERWRITTEN)?,
            failing: Notice::new(alloc, FAILING)?,
            short: Notice::new(alloc, SHORT)?,
            asked: Notice::new(alloc, ASKED)?,
            spent: Notice::new(alloc, SPENT)?,
            is_away: AtomicBool::new(false),
            is_failing: AtomicBool::new(false),
            failures: AtomicU64::new(0),
            commits: Histogram::new(alloc)?,
            reserve,
            is_memory_short: AtomicBool::new(false),
            refusals: AtomicU64::new(0),
        })
    }

    /// Notes that the table takes no more changes, since a sync of its file failed.
    pub fn shut(&self) {
        self.shut.raise();
    }

    /// Notes what another program made of the table's file, as it was seen just now. While the file is away the table takes no changes, and once it was overwritten never again.
    pub fn note_file(&self, change: Option<FileChange>) {
        let is_away = matches!(change, Some(FileChange::Gone | FileChange::Replaced));
        let was_away = self.is_away.swap(is_away, SeqCst);
        match change {
            Some(FileChange::Gone) => self.gone.raise(),
            Some(FileChange::Replaced) => self.replaced.raise(),
            Some(FileChange::Overwritten) => self.overwritten.raise(),
            None => {
                if was_away && !self.is_shut() {
                    self.back.raise();
                }
            }
        }
    }

    /// Whether its file is away or overwritten.
    fn has_lost_file(&self) -> bool {
        self.is_away.load(SeqCst) || self.overwritten.is_raised()
    }

    /// Whether the table takes no more changes.
    pub fn is_shut(&self) -> bool {
        self.shut.is_raised() || self.has_lost_file()
    }

    /// Notes whether a change could be written.
    pub fn note_write(&self, is_made: bool) {
        self.is_failing.store(!is_made, SeqCst);
        if !is_made {
            self.failures.fetch_add(1, SeqCst);
            self.failing.raise();
        }
    }

    /// Notes how long a change took until it was in the file.
    pub fn note_commit(&self, time: Duration) {
        self.commits.count(time);
    }

    /// How long changes took until they were in the file.
    pub fn commits(&self) -> &Histogram {
        &self.commits
    }

    /// Whether the last change couldn't be written.
    pub fn is_failing(&self) -> bool {
        self.is_failing.load(SeqCst)
    }

    /// How many changes couldn't be written.
    pub fn failures(&self) -> u64 {
        self.failures.load(SeqCst)
    }

    /// Sees whether as much memory can be had as is kept aside.
    pub fn check_memory(&self, alloc: Global) -> bool {
        let is_there = can_allocate(alloc, self.reserve);
        self.is_memory_short.store(!is_there, SeqCst);
        is_there
    }

    /// Whether less could be had when that was seen last.
    pub fn is_memory_short(&self) -> bool {
        self.is_memory_short.load(SeqCst)
    }

    /// A change was refused, since less memory could be had.
    pub fn note_refusal(&self) {
        self.refusals.fetch_add(1, SeqCst);
        self.short.raise();
    }

    /// How many changes were refused so.
    pub fn refusals(&self) -> u64 {
        self.refusals.load(SeqCst)
    }

    /// What is wrong now, in words, if something is.
    pub fn trouble(&self) -> Option<&'static str> {
        if self.shut.is_raised() {
            Some(
                "the table is shut for writes: a sync of its file failed; reads go on. Repair the disk, then restart\n",
            )
        } else if self.has_lost_file() {
            Some(
                "the table is shut for writes: its file or log was moved, replaced or written by another program; reads go on. Standard error says what to do\n",
            )
        } else if self.is_failing() {
            Some(
                "the last change couldn't be written: the disk may be full, or memory short; reads go on\n",
            )
        } else if self.is_memory_short() {
            Some(
                "memory is short: changes that need memory are answered busy; reads, deletes and removes go on\n",
            )
        } else {
            None
        }
    }

    /// The server ends, since asked by `handled stop`, or since its turns are spent.
    pub fn end(&self, was_asked: bool) {
        if was_asked {
            self.asked.raise();
        } else {
            self.spent.raise();
        }
    }

    /// Each line that may have to be said.
    fn notices(&self) -> [&Notice; 9] {
        [
            &self.shut,
            &self.gone,
            &self.replaced,
            &self.back,
            &self.overwritten,
            &self.failing,
            &self.short,
            &self.asked,
            &self.spent,
        ]
    }

    /// Whether a line is still to be printed.
    pub fn has_due(&self) -> bool {
        self.notices().iter().any(|notice| notice.is_due())
    }

    /// Says on standard error what is due.
    pub fn print_due<R: Eprint>(&self, rt: &R) {
        for notice in self.notices() {
            notice.print_if_due(rt);
        }
    }
}
