//! The list of changes in etcd.

ghost use Rattle.std.specs.Prelude.{◌≡◌, ℕ, ◌++◌, ◌∷◌, [], List, Some, IfOk, OnOk, OnErr, string_bytes};
ghost use Rattle.std.specs.List.{AllZip, Any};
ghost use Rattle.serde_json.specs.Read.{read};
ghost use Rattle.hdl_journal_entries.specs.Chain.{place_of, after_entry};
ghost use Rattle.hdl_journal_entries.specs.Keys.{key_octets, chain_octets};
ghost use Rattle.hdl_etcd.specs.Asking.{transaction_json};
ghost use Rattle.hdl_etcd.specs.declared.asking.Transaction.{Transaction};
ghost use Rattle.hdl_change_list.specs.declared.keyed.KeyWrite.{KeyWrite};
ghost use Rattle.hdl_change_list.specs.Sequence.{Follow, FollowsOne, Writes, Makes, IsAsTaken, IsFenced, IsPut};

use crate::fault::ListFault;
use crate::keyed::{KeyWrite, KeyWrites};
use crate::members::Members;
use hdl_etcd::{
    Compare, EtcdFault, KeyRange, Operation, Outcome, Pair, RangeResponse, Transaction,
    range_response_of, range_text, transaction_outcome_of, transaction_text,
};
use hdl_journal_entries::{
    Chain, DatedMessage, Entry, EntryOrder, Key, entry_read_as_spelt, key_of, read_chain,
    read_entry, write_chain, write_entry,
};
use hdl_limits::{Items, MESSAGE_MAX};
use hdl_name::Name;
use hdl_ops::Change;
use rand::RngExt;
use rand::rngs::StdRng;
use std::alloc::{AllocError, Global};
use std::net::{Net, TcpStream};

/// How many entries stay.
const ENTRIES_KEPT: u64 = 16_384;

/// How many keys are read at once.
const PAGE: u32 = 1_000;

/// The revision of what stands there now.
pub(crate) const NOW: &str = "0";

/// The list of changes in etcd, as far as this server has read it.
#[derive(Drop)]
pub struct ChangeList<R> {
    pub(crate) alloc: Global,
    pub(crate) members: Members<R>,
    /// What all keys begin with.
    pub(crate) name: Vec<u8>,
    pub(crate) chain: Chain,
    /// Whether the list has changes that weren't read, as far as is known.
    pub(crate) is_due: bool,
    rng: StdRng,
}

/// A change that was put into words, to be sent as it is however often: it is made once at most.
#[derive(Drop)]
pub struct PreparedPut {
    text: String,
    nonce: [u8; 16],
    /// The chain with the change.
    behind: Chain,
}

/// What became of a change that was sent.
#[derive(Clone, Copy, Debug, PartialEq, Eq, Drop)]
pub enum PutResult {
    /// It stands behind those that were taken, and was taken.
    Made,
    /// Another one stands there.
    Lost,
}

/// The keys from this one on, up to the last one that is as long and begins so.
pub(crate) fn with_last(alloc: Global, last: &[u8]) -> Result<Vec<u8>, AllocError>
    ensures { IfOk result (λ to. to.items ≡ last.now ++ 0 ∷ []) }
{
    let mut to = Vec::from_slice(alloc, last)?;
    to.push(0)?;
    Ok(to)
}

/// The operations that make these writes.
fn operations_of(alloc: Global, writes: &[KeyWrite]) -> Result<Vec<Operation<'_>>, AllocError>
    ensures { IfOk result (λ all. AllZip Makes writes.now all.items) }
{
    let mut operations = Vec::new(alloc);
    for write in writes {
        operations.push(write.operation())?;
    }
    Ok(operations)
}

/// That the head has these octets, which are those of the chain; if the chain has no entry, that it isn't there.
fn fence_of<'a>(chain: &Chain, head: &'a [u8], octets: &'a [u8]) -> Compare<'a>
    ensures { (name : List ℕ) → head.now ≡ key_octets name Key.Head → octets.now ≡ chain_octets chain.now → IsAsTaken name chain.now result }
{
    if chain.number == 0 {
        Compare::IsAbsent(head)
    } else {
        Compare::Has(head, octets)
    }
}

impl<R: Net<Stream = TcpStream>> ChangeList<R> {
    /// The list below a name, of which nothing is read yet.
    pub fn new(
        rt: R,
        alloc: Global,
        addresses: Vec<String>,
        name: Vec<u8>,
        rng: StdRng,
    ) -> ChangeList<R> {
        ChangeList {
            alloc,
            members: Members::new(rt, alloc, addresses),
            name,
            chain: Chain::new(),
            is_due: false,
            rng,
        }
    }

    /// The addresses of all members.
    pub fn addresses(&self) -> &[String] {
        self.members.addresses()
    }

    /// How many entries were taken.
    pub fn number(&self) -> u64
        ensures { result ≡ self.now.chain.number }
    {
        self.chain.number
    }

    /// The first six octets of the sum of the entries that were taken, as a number.
    pub fn short_sum(&self) -> u64 {
        let mut sum = 0u64;
        for octet in self.chain.sum.iter().take(6) {
            sum = (sum << 8) | u64::from(*octet);
        }
        sum
    }

    pub(crate) fn key(&self, key: Key<'_>) -> Result<Vec<u8>, AllocError>
        ensures { IfOk result (λ octets. octets.items ≡ key_octets self.now.name.items key.entry) }
    {
        key_of(self.alloc, &self.name, key)
    }

    /// At most `limit` of the keys, at a revision. Each member is asked once, until one answers.
    pub(crate) fn range(
        &mut self,
        keys: &KeyRange<'_>,
        limit: u32,
        revision: &str,
    ) -> Result<RangeResponse, ListFault>
        ensures same { (self.new.chain ≡ self.old.chain) × (self.new.name ≡ self.old.name) }
    {
        let text = range_text(self.alloc, keys, limit, revision)?;
        let mut fault = EtcdFault::NoAnswer;
        for _ in 0..self.members.addresses().len() {
            match self.members.ask("/v3/kv/range", text.as_str()) {
                Ok(body) => return Ok(range_response_of(self.alloc, &body)?),
                Err(other) => fault = other,
            }
        }
        Err(ListFault::from(fault))
    }

    /// What stands at a key now.
    pub(crate) fn at_key(&mut self, key: &[u8]) -> Result<RangeResponse, ListFault> {
        let to = with_last(self.alloc, key)?;
        self.range(&KeyRange { from: key, to: &to }, 1, NOW)
    }

    /// Whether something stands at a key now.
    pub(crate) fn has(&mut self, key: Key<'_>) -> Result<bool, ListFault> {
        let key = self.key(key)?;
        let page = self.at_key(&key)?;
        Ok(!page.pairs.as_slice().is_empty())
    }

    /// Takes what the head says for what was taken. The revision at which it was read.
    pub(crate) fn take_head(&mut self) -> Result<RangeResponse, ListFault> {
        let key = self.key(Key::Head)?;
        let page = self.at_key(&key)?;
        self.chain = match page.pairs.as_slice().first() {
            None => Chain::new(),
            Some(pair) => match read_chain(pair.value.as_slice()) {
                Some(chain) => chain,
                None => return Err(ListFault::Layout),
            },
        };
        Ok(page)
    }

    /// The keys of the values of a handle.
    fn value_keys(&mut self, handle: &Name) -> Result<Vec<KeyWrite>, ListFault>
        ensures same { (self.new.chain ≡ self.old.chain) × (self.new.name ≡ self.old.name) }
    {
        let mut from = self.key(Key::Value(handle, 0))?;
        let length = from.len();
        let last = self.key(Key::Value(handle, u32::MAX))?;
        let to = with_last(self.alloc, &last)?;
        let mut deletes = Vec::new(self.alloc);
        for _ in 0..u64::MAX {
            let page = self.range(
                &KeyRange {
                    from: &from,
                    to: &to,
                },
                PAGE,
                NOW,
            )?;
            for pair in page.pairs.as_slice() {
                from = with_last(self.alloc, pair.key.as_slice())?;
                if pair.key.as_slice().len() == length {
                    let key = Vec::from_slice(self.alloc, pair.key.as_slice())?;
                    deletes.push(KeyWrite::delete(key))?;
                }
            }
            if !page.has_more {
                break;
            }
        }
        Ok(deletes)
    }

    /// The transaction with these operations, which is made only if the list is as it was taken. Else what stands at the other key is answered.
    pub(crate) fn transaction(
        &self,
        writes: &[KeyWrite],
        otherwise: &[u8],
    ) -> Result<String, AllocError>
        ensures { IfOk result (λ text. (t : Transaction) × IsFenced self.now.name.items self.now.chain writes.now otherwise.now t × (read (string_bytes text) ≡ Some (transaction_json t))) }
    {
        let operations = operations_of(self.alloc, writes)?;
        let head = self.key(Key::Head)?;
        let chain = write_chain(self.alloc, &self.chain)?;
        transaction_text(
            self.alloc,
            &Transaction {
                fence: fence_of(&self.chain, &head, &chain),
                operations: &operations,
                otherwise,
            },
        )
    }

    /// Sends a transaction, and takes its answer.
    pub(crate) fn ask_transaction(&mut self, text: &str) -> Result<Vec<u8>, EtcdFault>
        ensures same { (self.new.chain ≡ self.old.chain) × (self.new.name ≡ self.old.name) }
    {
        self.members.ask("/v3/kv/txn", text)
    }

    /// The next entry, with this change.
    fn next_entry(&mut self, message: DatedMessage) -> Result<Entry, ListFault>
        ensures next { IfOk result (λ entry. place_of self.old.chain entry ≡ EntryOrder.Next) }
        ensures changes { IfOk result (λ entry. entry.changes ≡ message ∷ []) }
        ensures same { (self.new.chain ≡ self.old.chain) × (self.new.name ≡ self.old.name) }
    {
        let Some(number) = self.chain.number.checked_add(1) else {
            return Err(ListFault::Layout);
        };
        let mut nonce = [0; 16];
        self.rng.fill(&mut nonce);
        let mut changes = Vec::new(self.alloc);
        changes.push(message)?;
        Ok(Entry {
            number,
            nonce,
            before: self.chain.sum,
            changes: Items::new(changes),
        })
    }

    /// Has the entry go that has been there for so long.
    fn drop_old(&self, writes: &mut Vec<KeyWrite>, number: u64) -> Result<(), AllocError>
        ensures { (more : List KeyWrite) × (writes.new.items ≡ writes.old.items ++ more) }
    {
        if number > ENTRIES_KEPT {
            let old = self.key(Key::Entry(number - ENTRIES_KEPT))?;
            writes.push(KeyWrite::delete(old))?;
        }
        Ok(())
    }

    /// What the put of an entry writes beside what its change writes: the head, the entry, and that an old one goes.
    fn put_entry(
        &self,
        writes: &mut Vec<KeyWrite>,
        number: u64,
        octets: Vec<u8>,
    ) -> Result<Chain, AllocError>
        ensures behind { IfOk result (λ behind. behind ≡ after_entry number octets.items) }
        ensures entry { OnOk result (Any (Writes (key_octets self.now.name.items (Key.Entry number)) octets.items) writes.new.items) }
        ensures head { IfOk result (λ behind. Any (Writes (key_octets self.now.name.items Key.Head) (chain_octets behind)) writes.new.items) }
    {
        let behind = Chain::behind(number, &octets);
        let head = write_chain(self.alloc, &behind)?;
        writes.push(KeyWrite::put(self.key(Key::Head)?, head))?;
        writes.push(KeyWrite::put(self.key(Key::Entry(number))?, octets))?;
        self.drop_old(writes, number)?;
        Ok(behind)
    }

    /// Puts a change into words, with what it writes to other keys.
    pub(crate) fn put_with(
        &mut self,
        message: DatedMessage,
        mut writes: Vec<KeyWrite>,
    ) -> Result<PreparedPut, ListFault>
        ensures put { IfOk result (λ put. IsPut self.old.name.items self.old.chain message put.nonce put.behind (string_bytes put.text)) }
        ensures same { (self.new.chain ≡ self.old.chain) × (self.new.name ≡ self.old.name) }
    {
        if message.message.as_slice().len() > MESSAGE_MAX as usize {
            return Err(ListFault::Member(EtcdFault::Refused));
        }
        let entry = self.next_entry(message)?;
        let octets = write_entry(self.alloc, &entry)?;
        let behind = self.put_entry(&mut writes, entry.number, octets)?;
        let otherwise = self.key(Key::Entry(entry.number))?;
        let text = self.transaction(&writes, &otherwise)?;
        Ok(PreparedPut {
            text,
            nonce: entry.nonce,
            behind,
        })
    }

    /// Puts a change into words, to stand behind those that were taken. The message is that of the change. For a delete etcd is asked for the keys of the handle's values.
    pub fn put_of(
        &mut self,
        message: DatedMessage,
        change: &Change,
    ) -> Result<PreparedPut, ListFault>
        ensures put { IfOk result (λ put. IsPut self.old.name.items self.old.chain message put.nonce put.behind (string_bytes put.text)) }
        ensures same { (self.new.chain ≡ self.old.chain) × (self.new.name ≡ self.old.name) }
    {
        let mut writes = match change {
            Change::Delete { name } => self.value_keys(name)?,
            _ => Vec::new(self.alloc),
        };
        let mut keyed = KeyWrites::new(self.alloc, &self.name);
        keyed.put_change(message.moment, change)?;
        for write in keyed.all {
            writes.push(write)?;
        }
        self.put_with(message, writes)
    }

    /// Whether what stands at the number of a change is this very one, sent before.
    fn is_own(&self, put: &PreparedPut, pairs: &[Pair]) -> Result<bool, ListFault> {
        let Some(pair) = pairs.first() else {
            return Ok(false);
        };
        let entry = read_entry(self.alloc, pair.value.as_slice())?;
        Ok(entry.nonce == put.nonce)
    }

    /// Sends the change. Without an answer nobody can tell what became of it: it is then sent again as it is.
    pub fn send(&mut self, put: &PreparedPut) -> Result<PutResult, ListFault>
        ensures made { IfOk result (λ sent. sent ≡ PutResult.Made → self.new.chain ≡ put.now.behind) }
        ensures lost { IfOk result (λ sent. sent ≡ PutResult.Lost → self.new.chain ≡ self.old.chain) }
        ensures fault { OnErr result (self.new.chain ≡ self.old.chain) }
    {
        let body = self.ask_transaction(put.text.as_str())?;
        let is_made = match transaction_outcome_of(self.alloc, &body)? {
            Outcome::Made => true,
            Outcome::NotMade(pairs) => self.is_own(put, pairs.as_slice())?,
        };
        if !is_made {
            return Ok(PutResult::Lost);
        }
        self.chain = put.behind;
        Ok(PutResult::Made)
    }

    /// The entry that the octets are, if it is the next one, which is taken then. An earlier one isn't.
    fn take_entry(&mut self, octets: &[u8]) -> Result<Option<Entry>, ListFault>
        ensures { IfOk result (FollowsOne self.old.chain self.new.chain) }
    {
        entry_read_as_spelt();
        let entry = read_entry(self.alloc, octets)?;
        let behind = Chain::behind(entry.number, octets);
        match self.chain.place_of(&entry) {
            EntryOrder::Next => {
                self.chain = behind;
                Ok(Some(entry))
            }
            EntryOrder::Earlier
                if behind.number == self.chain.number && behind.sum != self.chain.sum => {
                Err(ListFault::NotBehind(entry.number))
            }
            EntryOrder::Earlier => Ok(None),
            EntryOrder::Later => Err(ListFault::FellBehind),
            EntryOrder::Elsewhere => Err(ListFault::NotBehind(entry.number)),
        }
    }

    fn take_page(&mut self, pairs: &[Pair]) -> Result<Vec<Entry>, ListFault>
        ensures { IfOk result (λ entries. Follow self.old.chain self.new.chain entries.items) }
    {
        if pairs.is_empty() && self.chain.number > 0 {
            return Err(ListFault::WentBack(self.chain.number));
        }
        let mut entries = Vec::new(self.alloc);
        for pair in pairs {
            if let Some(entry) = self.take_entry(pair.value.as_slice())? {
                entries.push(entry)?;
            }
        }
        Ok(entries)
    }

    /// The entries that stand behind those that were taken, and are taken now: a thousand at most, none if there are no more. After a fault none was taken.
    pub fn next_entries(&mut self) -> Result<Vec<Entry>, ListFault>
        ensures read { IfOk result (λ entries. Follow self.old.chain self.new.chain entries.items) }
        ensures fault { OnErr result (self.new.chain ≡ self.old.chain) }
    {
        // the last one that was taken is read too: it tells whether the list is still the same
        self.is_due = false;
        let from = self.key(Key::Entry(self.chain.number.max(1)))?;
        let last = self.key(Key::Entry(u64::MAX))?;
        let to = with_last(self.alloc, &last)?;
        let page = self.range(
            &KeyRange {
                from: &from,
                to: &to,
            },
            PAGE,
            NOW,
        )?;
        self.is_due = page.has_more;
        let chain = self.chain;
        let taken = self.take_page(page.pairs.as_slice());
        if taken.is_err() {
            self.chain = chain;
        }
        taken
    }
}
