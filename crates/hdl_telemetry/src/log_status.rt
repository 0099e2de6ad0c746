//! How the lines of a log go.

use crate::notice::Notice;
use std::alloc::{AllocError, Global};
use std::sync::atomic::Ordering::SeqCst;
use std::sync::atomic::{AtomicBool, AtomicU64};

/// What is said of a log on standard error: once lines begin to be lost, if the file can't be opened anew, and if a line can't be written.
#[derive(Clone, Copy)]
struct LogWarnings {
    losing: &'static str,
    reopen_failed: &'static str,
    failing: &'static str,
}

const OF_LOG: LogWarnings = LogWarnings {
    losing: "log: lines are lost: the log's reader or its disk is too slow. Changes are answered as before; how many lines were lost is said here once they are written again\n",
    reopen_failed: "log: the file can't be opened anew, so lines go on into the one that is open: see that the program may write in its folder, and ask again\n",
    failing: "log: a line can't be written: the disk may be full. Changes are answered as before; their lines are lost until there is room",
};

const OF_HISTORY: LogWarnings = LogWarnings {
    losing: "history: lines are lost: its disk is too slow. Changes are answered as before; how many lines were lost is said here once they are written again\n",
    reopen_failed: "history: the file can't be opened anew, so lines go on into the one that is open: see that the program may write in its folder, and ask again\n",
    failing: "history: a line can't be written: the disk may be full. Changes are answered as before; their lines are lost until there is room",
};

/// What a log keeps.
#[derive(Clone, Copy, Debug, PartialEq, Eq)]
pub enum LogKind {
    /// Who asked for each change, for whoever watches the server.
    Log,
    /// Each change with the values before, for whoever undoes one.
    History,
}

impl LogKind {
    /// How many lines of a sender wait at most to be written.
    pub(crate) fn lines_most(self) -> usize {
        match self {
            LogKind::Log => 1024,
            LogKind::History => 65_536,
        }
    }

    /// How many octets of a sender's lines wait at most to be written.
    pub(crate) fn octets_most(self) -> u64 {
        match self {
            LogKind::Log => 131_072,
            LogKind::History => 67_108_864,
        }
    }

    /// How the lines about it begin.
    fn name(self) -> &'static str {
        match self {
            LogKind::Log => "log",
            LogKind::History => "history",
        }
    }

    fn warnings(self) -> LogWarnings {
        match self {
            LogKind::Log => OF_LOG,
            LogKind::History => OF_HISTORY,
        }
    }
}

/// How many octets of a sender's lines wait to be written. The sender and the thread that writes share it.
#[derive(Drop)]
pub(crate) struct Backlog {
    octets: AtomicU64,
    most: u64,
}

impl Backlog {
    /// A backlog of no octets, which may become so many.
    pub(crate) fn new(most: u64) -> Backlog {
        Backlog {
            octets: AtomicU64::new(0),
            most,
        }
    }

    /// Takes room for octets that are to wait too. False: there is no room for them.
    pub(crate) fn reserve(&self, octets: u64) -> bool {
        let before = self.octets.fetch_add(octets, SeqCst);
        let has_room = before.saturating_add(octets) <= self.most;
        if !has_room {
            self.release(octets);
        }
        has_room
    }

    /// Gives the room back of octets that wait no more.
    pub(crate) fn release(&self, octets: u64) {
        self.octets.fetch_sub(octets, SeqCst);
    }
}

/// How many lines were lost, and what is said of that; whether the file is to be opened anew; whether more lines come, and whether all are written. Senders, the thread that writes, the
/// one that tells and who opens the file share it.
#[derive(Drop)]
pub struct LogStatus {
    kind: LogKind,
    lost: AtomicU64,
    /// How many lost lines may be reported, and how many were.
    to_report: AtomicU64,
    reported: AtomicU64,
    /// Whether it was said that lines are lost, since the last report.
    is_losing: AtomicBool,
    failing: Notice,
    /// Whether the file is to be opened anew, and whether it couldn't be.
    is_reopen_requested: AtomicBool,
    has_reopen_failed: AtomicBool,
    has_ended: AtomicBool,
    is_written: AtomicBool,
}

impl LogStatus {
    /// The status of a log of which no line was lost.
    pub(crate) fn new(alloc: Global, kind: LogKind) -> Result<LogStatus, AllocError> {
        Ok(LogStatus {
            kind,
            lost: AtomicU64::new(0),
            to_report: AtomicU64::new(0),
            reported: AtomicU64::new(0),
            is_losing: AtomicBool::new(false),
            failing: Notice::new(alloc, kind.warnings().failing)?,
            is_reopen_requested: AtomicBool::new(false),
            has_reopen_failed: AtomicBool::new(false),
            has_ended: AtomicBool::new(false),
            is_written: AtomicBool::new(false),
        })
    }

    /// A line is lost.
    pub(crate) fn count_lost(&self) {
        self.lost.fetch_add(1, SeqCst);
    }

    /// How many lines were lost.
    pub fn lost(&self) -> u64 {
        self.lost.load(SeqCst)
    }

    /// A line couldn't be written. The reason is raised first, so that it is what is said of the loss.
    pub(crate) fn fail(&self) {
        self.failing.raise();
        self.count_lost();
    }

    /// Lines are written again: from now on the number of lost lines is to be reported.
    pub(crate) fn report_lost(&self) {
        self.to_report.store(self.lost(), SeqCst);
    }

    /// How many lines were lost since the last report.
    fn unreported(&self) -> u64 {
        self.to_report
            .load(SeqCst)
            .wrapping_sub(self.reported.load(SeqCst))
    }

    /// Whether lines are lost of which nothing was said yet.
    fn has_new_loss(&self) -> bool {
        self.lost() != self.reported.load(SeqCst) && !self.is_losing.load(SeqCst)
    }

    /// Whether a line is still to be printed.
    pub fn has_due(&self) -> bool {
        self.failing.is_due()
            || self.has_new_loss()
            || self.unreported() > 0
            || self.has_reopen_failed.load(SeqCst)
    }

    /// Says that lines are lost, by the reason if it is known.
    fn print_losing<R: Eprint>(&self, rt: &R) {
        if self.failing.is_due() {
            self.failing.print_if_due(rt);
        } else {
            let losing = self.kind.warnings().losing;
            let _ = eprint!(rt; "{losing}");
        }
        self.is_losing.store(true, SeqCst);
    }

    /// Says how many lines were lost since the last report.
    fn print_lost<R: Eprint>(&self, rt: &R, more: u64) {
        let name = self.kind.name();
        let _ = eprint!(rt;
            "{name}: {more} lines were lost: its reader was too slow, or the disk was full. Their changes were answered as before\n"
        );
        self.reported.fetch_add(more, SeqCst);
        self.is_losing.store(false, SeqCst);
    }

    /// Says on standard error what is due. One thread alone does.
    pub fn print_due<R: Eprint>(&self, rt: &R) {
        let more = self.unreported();
        if self.failing.is_due() || more == 0 && self.has_new_loss() {
            self.print_losing(rt);
        }
        if more > 0 {
            self.print_lost(rt, more);
        }
        if self.has_reopen_failed.swap(false, SeqCst) {
            let failed = self.kind.warnings().reopen_failed;
            let _ = eprint!(rt; "{failed}");
        }
    }

    /// Asks for the file to be opened anew.
    pub fn request_reopen(&self) {
        self.is_reopen_requested.store(true, SeqCst);
    }

    /// Whether that was asked for since the last look.
    pub(crate) fn take_reopen_request(&self) -> bool {
        self.is_reopen_requested.swap(false, SeqCst)
    }

    /// The file couldn't be opened anew.
    pub(crate) fn note_reopen_failed(&self) {
        self.has_reopen_failed.store(true, SeqCst);
    }

    /// Notes that no more lines come.
    pub fn end(&self) {
        self.has_ended.store(true, SeqCst);
    }

    pub(crate) fn has_ended(&self) -> bool {
        self.has_ended.load(SeqCst)
    }

    pub(crate) fn set_written(&self) {
        self.is_written.store(true, SeqCst);
    }

    /// Whether all lines up to the last one were written, or lost.
    pub fn is_written(&self) -> bool {
        self.is_written.load(SeqCst)
    }
}
