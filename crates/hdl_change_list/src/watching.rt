//! What a watch tells of the list: only that it is time to read.

ghost use Rattle.std.specs.Prelude.{◌≡◌, IsTrue};
ghost use Rattle.hdl_change_list.specs.Sequence.{is_taken};

use crate::fault::ListFault;
use crate::list::{ChangeList, NOW, with_last};
use hdl_etcd::{KeyRange, WatchEvents, watch_text};
use hdl_journal_entries::{Chain, Key, read_chain};
use std::net::{Net, TcpStream};

/// How many lines of a watch are taken in one call.
const LINES_PER_CALL: u32 = 16;

/// Whether all changes of a head were taken.
fn is_taken(chain: &Chain, head: &[u8]) -> bool
    ensures { result ≡ is_taken chain.now head.now }
{
    match read_chain(head) {
        Some(told) => told.number <= chain.number,
        None => false,
    }
}

impl<R: Net<Stream = TcpStream>> ChangeList<R> {
    /// Has the member that answered last tell when the head is put. Its answer isn't waited for.
    pub fn watch(&mut self) -> Result<(), ListFault>
        ensures same { (self.new.chain ≡ self.old.chain) × (self.new.name ≡ self.old.name) }
    {
        let head = self.key(Key::Head)?;
        let to = with_last(self.alloc, &head)?;
        let keys = KeyRange {
            from: &head,
            to: &to,
        };
        let text = watch_text(self.alloc, &keys, NOW)?;
        Ok(self.members.begin_watch(text.as_str())?)
    }

    /// Watches no more.
    pub fn end_watch(&mut self) {
        self.members.end_watch();
    }

    /// Whether a watch was begun, and isn't over.
    pub fn has_watch(&self) -> bool {
        self.members.has_watch()
    }

    /// Whether a watch tells when the head is put.
    pub fn is_watched(&self) -> bool {
        self.members.is_watched()
    }

    /// Takes what a watch told. What isn't understood, or tells of no head, may be of any change.
    fn take_told(&mut self, told: &WatchEvents)
        ensures kept { IsTrue self.old.is_due → IsTrue self.new.is_due }
        ensures same { (self.new.chain ≡ self.old.chain) × (self.new.name ≡ self.old.name) }
    {
        let is_read = match told.pairs.as_slice().last() {
            Some(pair) => is_taken(&self.chain, pair.value.as_slice()),
            None => false,
        };
        if !is_read {
            self.is_due = true;
        }
    }

    /// Whether it is time to read: the watch told of changes that weren't taken, or is over. It doesn't wait. What was told is kept until entries are read.
    pub fn poll_watch(&mut self) -> bool
        ensures kept { IsTrue self.old.is_due → IsTrue result }
        ensures same { (self.new.chain ≡ self.old.chain) × (self.new.name ≡ self.old.name) }
    {
        for _ in 0..LINES_PER_CALL {
            match self.members.watched() {
                Ok(None) => break,
                Ok(Some(told)) => self.take_told(&told),
                Err(_) => self.is_due = true,
            }
        }
        self.is_due
    }
}
