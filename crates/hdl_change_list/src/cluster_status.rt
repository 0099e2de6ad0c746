//! How a server stands beside the others.

use std::sync::atomic::Ordering::SeqCst;
use std::sync::atomic::{AtomicBool, AtomicU64};

/// How many changes a server may be behind.
const BEHIND_MAX: u64 = 1_000;

/// How a server stands beside the others. Its threads note it, and the status page reads it.
#[derive(Drop)]
pub struct ClusterStatus {
    /// How many changes this server has, and how many it knows of.
    taken: AtomicU64,
    known: AtomicU64,
    /// A part of the sum of the changes that it knows of.
    sum: AtomicU64,
    /// How many changes were refused: another server's stands in their place, or etcd doesn't take them.
    refusals: AtomicU64,
    /// How many times a change was sent again.
    resent: AtomicU64,
    /// Whether no member answered for some seconds.
    is_cut: AtomicBool,
    /// Whether the server ends, since it has parted from the others.
    has_diverged: AtomicBool,
}

impl ClusterStatus {
    /// Nothing is known yet.
    pub fn new() -> ClusterStatus {
        ClusterStatus {
            taken: AtomicU64::new(0),
            known: AtomicU64::new(0),
            sum: AtomicU64::new(0),
            refusals: AtomicU64::new(0),
            resent: AtomicU64::new(0),
            is_cut: AtomicBool::new(false),
            has_diverged: AtomicBool::new(false),
        }
    }

    /// Notes how many changes this server has.
    pub fn note_taken(&self, number: u64) {
        self.taken.store(number, SeqCst);
    }

    /// Notes how many changes it knows of, and a part of their sum.
    pub fn note_known(&self, number: u64, sum: u64) {
        // no number is read with another one's sum
        self.known.store(0, SeqCst);
        self.sum.store(sum, SeqCst);
        self.known.store(number, SeqCst);
    }

    /// How many changes it knows of, and a part of their sum; `None` if these are being noted.
    pub fn known(&self) -> Option<(u64, u64)> {
        let number = self.known.load(SeqCst);
        let sum = self.sum.load(SeqCst);
        let is_same = self.known.load(SeqCst) == number;
        if is_same && number > 0 {
            Some((number, sum))
        } else {
            None
        }
    }

    /// Notes that a change was refused.
    pub fn note_refusal(&self) {
        self.refusals.fetch_add(1, SeqCst);
    }

    /// Notes that a change is sent again.
    pub fn note_resent(&self) {
        self.resent.fetch_add(1, SeqCst);
    }

    /// Notes whether members answer. Whether they did before.
    pub fn set_cut(&self, is_cut: bool) -> bool {
        self.is_cut.swap(is_cut, SeqCst)
    }

    /// The server ends, since it has parted from the others.
    pub fn note_divergence(&self) {
        self.has_diverged.store(true, SeqCst);
    }

    /// How many changes this server has.
    pub fn changes(&self) -> u64 {
        self.taken.load(SeqCst)
    }

    /// How many changes it knows of and hasn't.
    pub fn behind(&self) -> u64 {
        self.known.load(SeqCst).saturating_sub(self.changes())
    }

    /// How many changes were refused: another server's stands in their place, or etcd doesn't take them.
    pub fn refusals(&self) -> u64 {
        self.refusals.load(SeqCst)
    }

    /// How many times a change was sent again.
    pub fn resent(&self) -> u64 {
        self.resent.load(SeqCst)
    }

    /// Whether no member answered for some seconds.
    pub fn is_cut(&self) -> bool {
        self.is_cut.load(SeqCst)
    }

    /// Whether the server ends, since it has parted from the others.
    pub fn has_diverged(&self) -> bool {
        self.has_diverged.load(SeqCst)
    }

    /// What is wrong now, in words, if something is.
    pub fn trouble(&self) -> Option<&'static str> {
        if self.has_diverged() {
            Some("the server has parted from the others, and ends. Standard error says why\n")
        } else if self.is_cut() {
            Some(
                "no member of etcd at the addresses of --cluster answers: changes are answered busy; reads go on. Check --cluster and the members. Standard error says since when\n",
            )
        } else if self.behind() > BEHIND_MAX {
            Some("the server is more than 1000 changes behind the others; reads go on\n")
        } else {
            None
        }
    }
}
