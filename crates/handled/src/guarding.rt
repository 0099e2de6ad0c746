//! What is checked before a change is written, and reported of it.

use hdl_guardedrows::{Effect, Guard, WriteResult};
use hdl_host::{FileChange, FileWatch, Health};
use std::sync::Arc;
use std::time::Instant;

/// Forbids what takes more while memory is short, and everything while the table's file isn't as the server left it.
#[derive(Drop)]
pub struct TableGuard {
    rt: HostRuntime,
    health: Arc<Health>,
    /// The table's file, where it has one, and what another program had made of it when it was looked at last.
    file: Option<FileWatch>,
    change: Option<FileChange>,
    /// Whether other servers have the table too. Then a write can be refused since another server's is first, which isn't a fault.
    is_shared: bool,
    /// When the write that is under way was begun, where the clock said it.
    begun: Option<Instant>,
    /// Whether less memory could be had than is kept aside, when that was seen last.
    is_memory_short: bool,
}

impl TableGuard {
    pub fn new(rt: &HostRuntime, health: Arc<Health>, file: Option<FileWatch>) -> TableGuard {
        TableGuard {
            rt: *rt,
            health,
            file,
            change: None,
            is_shared: false,
            begun: None,
            is_memory_short: false,
        }
    }

    /// The guard of a table that other servers have too.
    pub fn of_shared(rt: &HostRuntime, health: Arc<Health>) -> TableGuard {
        TableGuard {
            is_shared: true,
            ..TableGuard::new(rt, health, None)
        }
    }

    /// Whether the table's file is as the server left it. What is seen is reported.
    pub fn check_file(&mut self) -> bool {
        if let Some(file) = &self.file {
            self.change = file.change(&self.rt);
            self.health.note_file(self.change);
        }
        self.change.is_none()
    }

    /// Reports how long the write took that was under way, if it is in the file.
    fn note_commit(&mut self, fate: WriteResult) {
        let begun = self.begun.take();
        if let (Some(begun), Ok(now)) = (begun, Instant::now(&self.rt)) {
            if fate != WriteResult::Failed {
                let time = now.saturating_duration_since(begun);
                self.health.note_commit(time);
            }
        }
    }

    /// Whether as much memory can be had as is kept aside. What is seen is reported.
    fn check_room(&mut self) -> bool {
        let is_there = self.health.check_memory(self.rt.alloc());
        self.is_memory_short = !is_there;
        is_there
    }
}

impl Guard for TableGuard {
    fn authorize(&mut self, effect: Effect) -> bool {
        let may = self.check_file() && (effect == Effect::Frees || self.check_room());
        if may && self.file.is_some() {
            self.begun = Instant::now(&self.rt).ok();
        }
        may
    }

    fn note(&mut self, fate: WriteResult) {
        if fate == WriteResult::Forbidden {
            if self.change.is_none() {
                self.health.note_refusal();
            }
            return;
        }
        if let Some(file) = &mut self.file {
            file.note(&self.rt);
        }
        self.note_commit(fate);
        if fate != WriteResult::Deferred && !self.is_shared {
            self.health.note_write(fate == WriteResult::Made);
        }
        if self.is_memory_short {
            self.check_room();
        }
    }
}
