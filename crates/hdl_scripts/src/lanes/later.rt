//! A table's file whose writes are made once it is said so: what a thread does beside the one that serves, on one thread and at a chosen line.

ghost use Rattle.std.specs.Prelude.{true, false};
ghost use Rattle.sqlite.specs.Held.{state};
ghost use Rattle.hdl_rows.specs.Table.{Table};
ghost use Rattle.hdl_durablerows.specs.Durable.{Keeps, StandsIn};
ghost use Rattle.hdl_scripts.specs.Later.{StandsLater};

use hdl_durablerows::{DurableFile, FileRows, Write, WriteState};
use sqlite::Alter;
use std::sync::Arc;
use std::sync::atomic::AtomicBool;
use std::sync::atomic::Ordering::SeqCst;

/// Rows in a database that hand each write over. It is made at the first call that asks for it once it may be.
#[derive(Drop)]
pub struct LaterFile<S: Alter + Drop> {
    pub file: FileRows<S>,
    may_be_made: Arc<AtomicBool>,
    /// Whether the write that was begun was tried.
    pub is_tried: bool,
}

impl<S: Alter + Drop> LaterFile<S> {
    /// The rows of this database. What is shared says whether the write that was begun may be made.
    pub fn over(file: FileRows<S>, may_be_made: Arc<AtomicBool>) -> LaterFile<S>
        ensures { (t : Table) → StandsIn (state S.Store file) (Keeps t) → StandsLater result.is_tried (state S.Store result.file) (Keeps t) }
    {
        LaterFile {
            file,
            may_be_made,
            is_tried: false,
        }
    }
}

impl<S: Alter + Drop> DurableFile for LaterFile<S> {
    ghost stands = { λ s k. StandsLater s.is_tried (state S.Store s.file) k };

    ghost is_threaded = { λ _. true };

    fn begin(&mut self, _write: &Write<'_>) -> WriteState {
        self.may_be_made.store(false, SeqCst);
        self.is_tried = false;
        WriteState::UnderWay
    }

    fn end(&mut self, write: &Write<'_>) -> WriteState {
        if !self.has_ended() {
            return WriteState::UnderWay;
        }
        if self.is_tried {
            return self.file.end(write);
        }
        self.is_tried = true;
        self.file.begin(write)
    }

    fn hands_over(&self) -> bool {
        true
    }

    fn has_ended(&self) -> bool {
        self.may_be_made.load(SeqCst)
    }
}
