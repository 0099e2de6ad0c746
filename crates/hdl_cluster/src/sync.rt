//! The thread that keeps a server beside the others.

ghost use Rattle.std.specs.Prelude.{◌≡◌, IfOk, IfSome, string_bytes};
ghost use Rattle.hdl_durablerows.specs.Writes.{write_in};
ghost use Rattle.hdl_cluster.specs.Writes.{write_at, IsOfWrite, PutsWrite};

use crate::journal::{Order, Written};
use crate::writes::{change_of_write, moment_of, write_of_change};
use hdl_change_list::{
    ChangeList, ClusterStatus, EtcdFault, ListFault, PreparedPut, PutResult, TableLoad,
    message_of_change,
};
use hdl_durablerows::OwnedWrite;
use hdl_journal_entries::{
    DatedChange, DatedMessage, Entry, EntryFault, change_of_message, changes_of_entry,
};
use hdl_lanes::{Inlet, Outlet};
use hdl_name::Name;
use hdl_ops::Change;
use hdl_serve::StampedChange;
use hdl_value::Value;
use std::alloc::{AllocError, Global};
use std::net::{Net, TcpStream};
use std::rt::Clock;
use std::sync::Arc;
use std::sync::atomic::Ordering::SeqCst;
use std::thread;
use std::time::{Duration, Instant};

/// For how many seconds no member answers until changes are refused.
const SILENCE_SECONDS: u64 = 5;

/// How many milliseconds a short wait takes.
const WAIT_MILLIS: u64 = 1;

/// After how many short waits others' changes are looked for: without a watch, and beside one, which tells of them before.
const WAITS: u32 = 20;

const WAITS_WATCHED: u32 = 1_000;

/// How many seconds pass at least from the beginning of a watch to that of another.
const WATCH_SECONDS: u64 = 1;

/// After how many short waits a change without an answer is sent again.
const WAITS_AGAIN: u32 = 50;

/// A line is printed each time this many handles and values were read.
const STEP: u64 = 100_000;

/// How the server is told.
pub trait WakeServer {
    /// Something came for the table.
    fn wake(&self);

    /// The server shall end.
    fn end(&self);
}

/// What keeps a server beside the others: it brings what they changed, and puts what this server changes.
#[derive(Drop)]
pub struct ClusterSync<R> {
    rt: R,
    alloc: Global,
    list: ChangeList<R>,
    written: Inlet<Written>,
    changes: Inlet<StampedChange>,
    orders: Outlet<Order>,
    standing: Arc<ClusterStatus>,
    /// The number of the last entry that was told.
    told: u64,
    /// How many handles and values of the table were read.
    loaded: u64,
    /// When a member answered last.
    heard: Option<Instant>,
    /// When a watch was begun last.
    watched: Option<Instant>,
}

/// A change that stands in the list, and the write that it makes.
#[derive(Drop)]
struct Told {
    write: OwnedWrite,
    change: StampedChange,
}

/// The ends of the rings that a keeper has.
#[derive(Drop)]
pub(crate) struct ClusterSyncEnds {
    pub(crate) written: Inlet<Written>,
    pub(crate) changes: Inlet<StampedChange>,
    pub(crate) orders: Outlet<Order>,
}

impl<R: Net<Stream = TcpStream> + Clock + Eprint + Drop> ClusterSync<R> {
    pub(crate) fn new(
        rt: R,
        alloc: Global,
        list: ChangeList<R>,
        ends: ClusterSyncEnds,
        standing: Arc<ClusterStatus>,
    ) -> ClusterSync<R> {
        let ClusterSyncEnds {
            written,
            changes,
            orders,
        } = ends;
        ClusterSync {
            rt,
            alloc,
            list,
            written,
            changes,
            orders,
            standing,
            told: 0,
            loaded: 0,
            heard: None,
            watched: None,
        }
    }

    fn wait(&self) {
        thread::sleep(&self.rt, Duration::from_millis(WAIT_MILLIS));
    }

    /// Says which members were asked at the start, if none answered.
    fn say_asked(&self, fault: ListFault) {
        if fault != ListFault::Member(EtcdFault::NoAnswer) {
            return;
        }
        if let Ok(asked) = endpoints(self.alloc, self.list.addresses()) {
            let _ = eprintln!(self.rt;
                "cluster: no member answers at {asked}: check --cluster, and of a socket that this program's user may enter its folder; `etcdctl --endpoints {asked} endpoint status --cluster` says how members are"
            );
        }
    }

    /// Puts the handles of a text with their first values, those that were never opened.
    pub fn open_all(&mut self, opening: &[(Name, Value)]) -> Result<(), ListFault> {
        let opened = self.list.open_all(opening);
        if let Err(fault) = opened {
            self.say_asked(fault);
        }
        opened
    }

    /// Begins to read the table.
    pub fn load(&mut self) -> Result<TableLoad, ListFault> {
        let loading = self.list.load();
        if let Err(fault) = &loading {
            self.say_asked(*fault);
        }
        loading
    }

    /// Brings the next part of the table, which has to be let in before the next call. Whether there was one.
    pub fn load_part(&mut self, loading: &mut TableLoad) -> Result<bool, ListFault> {
        let Some(changes) = self.list.next_page(loading)? else {
            return Ok(false);
        };
        let number = self.list.number();
        for change in changes {
            let told = self.told_of(change)?;
            self.tell(told, number, true);
            self.note_loaded();
        }
        self.note_known();
        self.standing.note_taken(number);
        Ok(true)
    }

    /// Notes that one more handle or value was read.
    fn note_loaded(&mut self) {
        self.loaded = self.loaded.saturating_add(1);
        if self.loaded % STEP == 0 {
            let _ = eprintln!(self.rt; "cluster: {} handles and values read", self.loaded);
        }
    }

    /// Notes how many changes are known.
    fn note_known(&self) {
        self.standing
            .note_known(self.list.number(), self.list.short_sum());
    }

    /// A change that stands in the list, with the write that it makes.
    fn told_of(&self, change: DatedChange) -> Result<Told, ListFault>
        ensures write { IfOk result (λ told. write_in told.write ≡ write_at change.moment change.change) }
        ensures change { IfOk result (λ told. told.change ≡ record { moment = change.moment; change = change.change }) }
    {
        let DatedChange { moment, change } = change;
        let write = write_of_change(self.alloc, moment, &change)?;
        let change = StampedChange { moment, change };
        Ok(Told { write, change })
    }

    /// Tells a change that stands in the list, once there is room. The journal has it before the news have.
    fn tell(&mut self, told: Told, number: u64, is_last: bool) {
        for _ in 0..u64::MAX {
            if self.written.has_room() && self.changes.has_room() || self.standing.has_diverged() {
                break;
            }
            self.wait();
        }
        let Told { write, change } = told;
        let written = Written {
            write,
            number,
            is_last,
            is_own: false,
        };
        let _ = self.written.put(written);
        let _ = self.changes.put(change);
        self.told = number;
    }

    /// The changes of an entry.
    fn all_told(&self, entry: &Entry) -> Result<Vec<Told>, ListFault> {
        let mut all = Vec::new(self.alloc);
        for change in changes_of_entry(self.alloc, entry)? {
            all.push(self.told_of(change)?)?;
        }
        Ok(all)
    }

    /// Tells the changes of an entry, however long memory for that is refused.
    fn tell_entry(&mut self, entry: &Entry) -> Result<(), ListFault> {
        for _ in 0..u64::MAX {
            let all = match self.all_told(entry) {
                Ok(all) => all,
                Err(ListFault::Memory) => {
                    self.wait();
                    continue;
                }
                Err(fault) => return Err(fault),
            };
            let mut left = all.len();
            for told in all {
                left = left.saturating_sub(1);
                self.tell(told, entry.number, left == 0);
            }
            return Ok(());
        }
        Err(ListFault::Memory)
    }

    /// Brings what others changed. Whether something was there.
    fn follow(&mut self) -> Result<bool, ListFault> {
        let entries = self.list.next_entries()?;
        self.note_known();
        for entry in &entries {
            self.tell_entry(entry)?;
        }
        Ok(!entries.is_empty())
    }

    /// Says a line on standard error.
    fn say(&self, fault: ListFault) {
        let _ = eprintln!(self.rt; "cluster: {fault}");
    }

    /// For how long no member answered.
    fn silence(&mut self) -> Duration {
        let Ok(now) = Instant::now(&self.rt) else {
            return Duration::ZERO;
        };
        match self.heard {
            Some(heard) => now.saturating_duration_since(heard),
            None => {
                self.heard = Some(now);
                Duration::ZERO
            }
        }
    }

    /// Notes that a member answered.
    fn note_answer(&mut self) {
        self.heard = Instant::now(&self.rt).ok();
        if self.standing.set_cut(false) {
            let behind = self.standing.behind();
            let _ = eprintln!(self.rt; "cluster: members answer again, {behind} changes behind");
        }
    }

    /// Notes a fault. Whether the server has parted from the others.
    fn note_fault(&mut self, fault: ListFault) -> bool {
        if fault.is_final() {
            self.say(fault);
            self.standing.note_divergence();
            return true;
        }
        if self.silence() >= Duration::from_secs(SILENCE_SECONDS) && !self.standing.set_cut(true) {
            let _ = eprintln!(self.rt;
                "cluster: no member answers for {SILENCE_SECONDS} seconds: changes are answered busy, resolutions go on"
            );
        }
        false
    }

    /// Looks for what others changed. Whether something was there.
    fn look(&mut self) -> bool {
        match self.follow() {
            Ok(found) => {
                self.note_answer();
                found
            }
            Err(fault) => {
                self.list.end_watch();
                self.note_fault(fault);
                false
            }
        }
    }

    /// Begins to watch, unless a watch is there or one was begun just now. It brings nothing: it only tells when to look.
    fn watch(&mut self) {
        if self.list.has_watch() {
            return;
        }
        let Ok(now) = Instant::now(&self.rt) else {
            return;
        };
        let pause = Duration::from_secs(WATCH_SECONDS);
        if let Some(begun) = self.watched {
            if now.saturating_duration_since(begun) < pause {
                return;
            }
        }
        self.watched = Some(now);
        // without a watch others' changes are looked for more often
        let _ = self.list.watch();
    }

    /// Looks since it is time, and sees that a watch is there. One that didn't tell what was found is over.
    fn look_in_time(&mut self) {
        let is_told = self.list.poll_watch();
        let found = self.look();
        if found && !is_told && self.list.is_watched() {
            self.list.end_watch();
        }
        self.watch();
    }

    /// After how many short waits it is time to look, though no watch tells so.
    fn waits(&self) -> u32 {
        if self.list.is_watched() && !self.standing.has_diverged() {
            WAITS_WATCHED
        } else {
            WAITS
        }
    }

    /// The message of a change that makes the write, and the change, if the message reads as this very write.
    fn message_of(&self, write: &OwnedWrite) -> Result<Option<(DatedMessage, Change)>, ListFault>
        ensures { IfOk result (λ found. IfSome found (λ put. IsOfWrite (write_in write.now) put.0)) }
    {
        let named = write.as_write();
        let moment = moment_of(&named);
        let change = change_of_write(self.alloc, &named)?;
        let Some(message) = message_of_change(self.alloc, moment, &change)? else {
            return Ok(None);
        };
        let read = change_of_message(self.alloc, message.message.as_slice())?;
        if write_of_change(self.alloc, message.moment, &read)?.is(&named) {
            Ok(Some((message, change)))
        } else {
            Ok(None)
        }
    }

    /// The write as it is put, if its message reads as the same write.
    fn put_of(&mut self, write: &OwnedWrite) -> Result<Option<PreparedPut>, ListFault>
        ensures { IfOk result (λ found. IfSome found (λ put. PutsWrite self.old.list.name.items self.old.list.chain (write_in write.now) put.nonce put.behind (string_bytes put.text))) }
    {
        match self.message_of(write)? {
            Some((message, change)) => Ok(Some(self.list.put_of(message, &change)?)),
            None => Ok(None),
        }
    }

    /// Sends a change until it is known what became of it. Whether it stands in the list.
    fn send(&mut self, put: &PreparedPut) -> bool {
        for sent in 0..u64::MAX {
            let fault = match self.list.send(put) {
                Ok(answer) => {
                    self.note_answer();
                    return answer == PutResult::Made;
                }
                Err(fault) => fault,
            };
            if sent == 0 && is_refusal(fault) {
                self.say(fault);
                return false;
            }
            if self.note_fault(fault) {
                return false;
            }
            self.standing.note_resent();
            for _ in 0..WAITS_AGAIN {
                self.wait();
            }
        }
        false
    }

    /// Puts a write behind what was told. Whether it stands there.
    fn put(&mut self, write: &OwnedWrite) -> bool {
        match self.put_of(write) {
            Ok(Some(put)) => {
                let is_made = self.send(&put);
                if !is_made {
                    let _ = self.look();
                }
                is_made
            }
            Ok(None) => false,
            Err(fault) => {
                self.note_fault(fault);
                false
            }
        }
    }

    /// Puts what is ordered, and tells what became of it.
    fn serve(&mut self, order: Order) {
        let Order {
            write,
            number,
            ended,
        } = order;
        let is_next = number == self.told && !self.standing.has_diverged();
        if is_next && self.put(&write) {
            let number = self.list.number();
            let written = Written {
                write,
                number,
                is_last: true,
                is_own: true,
            };
            // all that was told was taken before this was ordered, so there is room
            let _ = self.written.put(written);
            self.told = number;
            self.note_known();
        } else {
            self.standing.note_refusal();
        }
        ended.store(true, SeqCst);
    }

    /// Waits until something is ordered, or until it is time to look. The server is woken as long as it hasn't taken all that it was told.
    fn rest<W: WakeServer>(&mut self, waking: &W) {
        waking.wake();
        for _ in 0..self.waits() {
            let is_due = self.list.poll_watch() && !self.standing.has_diverged();
            if is_due || self.orders.has_item() {
                return;
            }
            if self.standing.behind() > 0 {
                waking.wake();
            }
            self.wait();
        }
    }

    /// Keeps the server beside the others. Once it has parted from them it refuses what is ordered.
    pub fn keep<W: WakeServer + Drop>(mut self, waking: W) {
        for _ in 0..u64::MAX {
            match self.orders.take() {
                Some(order) => self.serve(order),
                None if self.standing.has_diverged() => waking.end(),
                None => self.look_in_time(),
            }
            self.rest(&waking);
        }
    }
}

/// The members as etcdctl takes them: with commas, and two strokes before the path of a Unix socket.
fn endpoints(alloc: Global, addresses: &[String]) -> Result<String, AllocError> {
    let mut all = String::new(alloc);
    for address in addresses {
        if !all.is_empty() {
            all.push_str(",")?;
        }
        match address.as_str().strip_prefix("unix:") {
            Some(path) => {
                all.push_str("unix://")?;
                all.push_str(path)?;
            }
            None => all.push_str(address.as_str())?,
        }
    }
    Ok(all)
}

/// Whether etcd refused a change, which then isn't made.
fn is_refusal(fault: ListFault) -> bool {
    matches!(
        fault,
        ListFault::Member(EtcdFault::Refused | EtcdFault::Spent)
    )
}
