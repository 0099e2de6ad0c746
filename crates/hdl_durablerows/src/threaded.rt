//! A file whose writes a thread makes.

ghost use Rattle.std.specs.Prelude.{◌≡◌, Bool, IfOk, IfErr, is_some};
ghost use Rattle.sqlite.specs.State.{HasCleanDisk};
ghost use Rattle.sqlite.specs.Files.{file_state};
ghost use Rattle.hdl_rows.specs.Table.{Table};
ghost use Rattle.hdl_rows.specs.Write.{CanWrite};
ghost use Rattle.hdl_durablerows.specs.Durable.{Standing, Keeps, Makes, IsKept, LeavesIn, StandsIn, left_by};
ghost use Rattle.hdl_durablerows.specs.Writes.{write_of, write_in};
ghost use Rattle.hdl_durablerows.specs.Threaded.{StandsAt, IsHandedOver, IfHere, is_somewhere};

use crate::disk::{DiskRows, Store};
use crate::durable_file::{DurableFile, WriteState};
use crate::filerows::FileRows;
use crate::places::put;
use crate::write::{OwnedWrite, Write};
use std::alloc::{AllocError, Global};
use std::snapshot::Snapshot;
use std::sync::Arc;
use std::sync::atomic::AtomicBool;
use std::sync::atomic::Ordering::SeqCst;
use std::thread::{Promise, PromisedHandle, Threads};
use std::{mem, thread};

/// What a thread gives back: the file, and what is known of its write.
#[derive(Drop)]
pub struct WriteOutcome {
    pub file: DiskRows,
    pub state: WriteState,
}

/// That the file which a thread gives back is what its write left of the one that it was given.
#[derive(Drop)]
pub struct WritePromise {
    pub file: Snapshot<DiskRows>,
    pub write: Snapshot<OwnedWrite>,
}

impl Promise<WriteOutcome> for WritePromise {
    ghost use Rattle.sqlite.specs.Files.{file_state};
    ghost use Rattle.hdl_durablerows.specs.Durable.{LeavesIn};
    ghost use Rattle.hdl_durablerows.specs.Writes.{write_in};

    ghost kept_by = { λ p r. LeavesIn (file_state p.file.value.rows) (file_state r.file.rows) (write_in p.write.value) r.state };
}

/// Where a file is.
#[derive(Drop)]
pub enum FileHolder {
    Here(DiskRows),
    /// A thread has it, makes a write, and sets the flag once it is done.
    Away(Arc<AtomicBool>, PromisedHandle<WriteOutcome, WritePromise>),
    /// In the hands of a call.
    Nowhere,
}

/// What starts the threads that make a file's writes, and whether they do. Else each write is made by its call.
#[derive(Drop)]
pub struct WriterThreads<T: Threads + Drop> {
    pub rt: T,
    pub alloc: Global,
    pub is_threaded: bool,
}

/// A file whose writes a thread makes, one at a time. What is shared with the thread is a flag that it sets when it is done.
#[derive(Drop)]
pub struct ThreadedFile<T: Threads + Drop> {
    writer: WriterThreads<T>,
    pub place: FileHolder,
}

/// Gives the file and the write to a thread of their own, or makes the write where no thread can be started.
fn start<T: Threads>(
    rt: &T,
    file: DiskRows,
    write: OwnedWrite,
    ended: Arc<AtomicBool>,
) -> Result<PromisedHandle<WriteOutcome, WritePromise>, WriteOutcome>
    requires can { (t : Table) × IsKept t (file_state file.rows) × CanWrite t (write_in write) }
    ensures given { IfOk result (λ thread. (thread.promise.file.value ≡ file) × (thread.promise.write.value ≡ write)) }
    ensures made { IfErr result (λ back. LeavesIn (file_state file.rows) (file_state back.file.rows) (write_in write) back.state) }
{
    let promise = WritePromise {
        file: Snapshot::of(&file),
        write: Snapshot::of(&write),
    };
    let job = move || -> WriteOutcome
        requires { (t : Table) × IsKept t (file_state file.rows) × CanWrite t (write_in write) }
        ensures { LeavesIn (file_state file.rows) (file_state result.file.rows) (write_in write) result.state }
    {
        let mut file = file;
        let state = file.begin(&write.as_write());
        ended.store(true, SeqCst);
        WriteOutcome { file, state }
    };
    match thread::spawn_with(rt, promise, job) {
        Ok(thread) => Ok(thread),
        Err(refused) => Err((refused.value)()),
    }
}

/// Makes the write by the call itself.
fn make_here(mut file: DiskRows, write: &Write<'_>) -> (FileHolder, WriteState)
    requires can { (t : Table) × IsKept t (file_state file.rows) × CanWrite t (write_of write.now) }
    ensures { (t : Table) → IsKept t (file_state file.rows) → CanWrite t (write_of write.now) → StandsAt result.0 (left_by t (write_of write.now) result.1) }
{
    let state = file.begin(write);
    (FileHolder::Here(file), state)
}

/// Asks the file, which is here, again.
fn end_here(mut file: DiskRows, write: &Write<'_>) -> (FileHolder, WriteState)
    requires begun { (t : Table) × StandsIn (file_state file.rows) (Makes t (write_of write.now)) }
    ensures { (t : Table) → StandsIn (file_state file.rows) (Makes t (write_of write.now)) → StandsAt result.0 (left_by t (write_of write.now) result.1) }
{
    let state = file.end(write);
    (FileHolder::Here(file), state)
}

/// What a thread gets, with a flag that isn't set, and the flag once more.
fn with_flag<W: Drop>(
    alloc: Global,
    own: W,
) -> Result<(W, Arc<AtomicBool>, Arc<AtomicBool>), AllocError>
    ensures { IfOk result (λ all. all.0 ≡ own) }
{
    let ended = Arc::new(alloc, AtomicBool::new(false))?;
    let theirs = Arc::try_clone(&ended)?;
    Ok((own, ended, theirs))
}

/// What a thread is given beside the file: the write, and the flag, which stays here too.
fn copies(
    alloc: Global,
    write: &Write<'_>,
) -> Result<(OwnedWrite, Arc<AtomicBool>, Arc<AtomicBool>), AllocError>
    ensures { IfOk result (λ all. write_in all.0 ≡ write_of write.now) }
{
    let own = OwnedWrite::copy(alloc, write)?;
    let all = with_flag(alloc, own)?;
    Ok(all)
}

impl<T: Threads + Drop> ThreadedFile<T> {
    /// A file that is here.
    pub fn over(file: DiskRows, writer: WriterThreads<T>) -> ThreadedFile<T>
        ensures kept { (k : Standing) → StandsIn (file_state file.rows) k → StandsAt result.place k }
        ensures clean { IfHere result.place (λ s. HasCleanDisk s → HasCleanDisk (file_state file.rows)) }
    {
        ThreadedFile {
            writer,
            place: FileHolder::Here(file),
        }
    }

    /// The file, once no thread has it.
    pub fn into_file(self) -> Option<FileRows<Store>>
        ensures given { is_some result ≡ is_somewhere self.place }
    {
        let ThreadedFile { writer, place } = self;
        match place {
            FileHolder::Here(file) => Some(file.rows),
            FileHolder::Away(_ended, thread) => Some(thread.join(&writer.rt).file.rows),
            FileHolder::Nowhere => None,
        }
    }

    /// Begins to make the write in a thread.
    fn hand_over(&self, file: DiskRows, write: &Write<'_>) -> (FileHolder, WriteState)
        requires can { (t : Table) × IsKept t (file_state file.rows) × CanWrite t (write_of write.now) }
        ensures { (t : Table) → IsKept t (file_state file.rows) → CanWrite t (write_of write.now) → StandsAt result.0 (left_by t (write_of write.now) result.1) }
    {
        let Ok((goes, ended, theirs)) = copies(self.writer.alloc, write) else {
            return (FileHolder::Here(file), WriteState::Refused);
        };
        match start(&self.writer.rt, file, goes, theirs) {
            Ok(thread) => (FileHolder::Away(ended, thread), WriteState::UnderWay),
            Err(back) => (FileHolder::Here(back.file), back.state),
        }
    }

    /// Makes the write, or begins to.
    fn begin_at(&self, place: FileHolder, write: &Write<'_>) -> (FileHolder, WriteState)
        requires can { (t : Table) × StandsAt place (Keeps t) × CanWrite t (write_of write.now) }
        ensures { (t : Table) → StandsAt place (Keeps t) → CanWrite t (write_of write.now) → StandsAt result.0 (left_by t (write_of write.now) result.1) }
    {
        match place {
            FileHolder::Here(file) => {
                if self.writer.is_threaded {
                    self.hand_over(file, write)
                } else {
                    make_here(file, write)
                }
            }
            place => (place, WriteState::Unknown),
        }
    }

    /// Takes the file back from the thread, if that is done.
    fn end_away(
        &self,
        ended: Arc<AtomicBool>,
        thread: PromisedHandle<WriteOutcome, WritePromise>,
        write: &Write<'_>,
    ) -> (FileHolder, WriteState)
        ensures { (t : Table) → IsHandedOver thread t (write_of write.now) → StandsAt result.0 (left_by t (write_of write.now) result.1) }
    {
        if !ended.load(SeqCst) {
            return (FileHolder::Away(ended, thread), WriteState::UnderWay);
        }
        let WriteOutcome { file, state } = thread.join(&self.writer.rt);
        (FileHolder::Here(file), state)
    }

    /// Ends the write that was begun, unless it goes on.
    fn end_at(&self, place: FileHolder, write: &Write<'_>) -> (FileHolder, WriteState)
        requires begun { (t : Table) × StandsAt place (Makes t (write_of write.now)) }
        ensures { (t : Table) → StandsAt place (Makes t (write_of write.now)) → StandsAt result.0 (left_by t (write_of write.now) result.1) }
    {
        match place {
            FileHolder::Here(file) => end_here(file, write),
            FileHolder::Away(ended, thread) => self.end_away(ended, thread, write),
            FileHolder::Nowhere => (FileHolder::Nowhere, WriteState::Unknown),
        }
    }
}

impl<T: Threads + Drop> DurableFile for ThreadedFile<T> {
    ghost use Rattle.hdl_durablerows.specs.Threaded.{StandsAt};

    ghost stands = { λ s k. StandsAt s.place k };

    ghost is_threaded = { λ s. s.writer.is_threaded };

    fn begin(&mut self, write: &Write<'_>) -> WriteState {
        let place = mem::replace(&mut self.place, FileHolder::Nowhere);
        let (place, state) = self.begin_at(place, write);
        put(&mut self.place, place);
        state
    }

    fn end(&mut self, write: &Write<'_>) -> WriteState {
        let place = mem::replace(&mut self.place, FileHolder::Nowhere);
        let (place, state) = self.end_at(place, write);
        put(&mut self.place, place);
        state
    }

    fn hands_over(&self) -> bool {
        self.writer.is_threaded
    }

    fn has_ended(&self) -> bool {
        match &self.place {
            FileHolder::Away(ended, _) => ended.load(SeqCst),
            _ => true,
        }
    }
}
