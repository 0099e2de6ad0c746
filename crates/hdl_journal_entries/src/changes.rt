//! The changes that messages make.

ghost use Rattle.std.specs.Prelude.{◌≡◌, Ok, IfOk, IfErr};
ghost use Rattle.hdl_msg.specs.Views.{numbers_of, values_of};
ghost use Rattle.hdl_journal_entries.specs.Entries.{IsFault};
ghost use Rattle.hdl_journal_entries.specs.Changes.{sound, values_from, named, change_by, change_in, dated_in, changes_in};

use crate::entry::{DatedMessage, Entry, EntryFault};
use hdl_limits::Items;
use hdl_msg::{Body, CutValue, Numbers, Request, Values, read_request};
use hdl_name::{Name, NameFault, names_decided};
use hdl_ops::Change;
use hdl_value::{Value, Wire};
use std::alloc::{AllocError, Global};

/// A change of the table, and the moment at which it is made.
#[derive(Drop)]
pub struct DatedChange {
    pub moment: u64,
    pub change: Change,
}

fn value_in(alloc: Global, value: &CutValue<'_>) -> Result<Value, EntryFault>
    ensures value { IfOk result (λ v. sound value.now ≡ Ok v) }
    ensures fault { IfErr result (IsFault (sound value.now)) }
{
    if value.check().is_err() {
        return Err(EntryFault::NoChange);
    }
    match value.read(alloc) {
        Ok(value) => Ok(value),
        Err(_) => Err(EntryFault::Memory),
    }
}

fn values_in(alloc: Global, mut values: Values<'_>) -> Result<Items<Value>, EntryFault>
    ensures value { IfOk result (λ all. values_from (values_of values.entry) ≡ Ok all) }
    ensures fault { IfErr result (IsFault (values_from (values_of values.entry))) }
{
    let mut all = Vec::new(alloc);
    while let Some(value) = values.next() {
        all.push(value_in(alloc, &value)?)?;
    }
    Ok(Items::new(all))
}

fn indexes_in(alloc: Global, mut indexes: Numbers<'_>) -> Result<Items<u32>, AllocError>
    ensures { IfOk result (λ all. all ≡ numbers_of indexes.entry) }
{
    let mut all = Vec::new(alloc);
    while let Some(index) = indexes.next() {
        all.push(index)?;
    }
    Ok(Items::new(all))
}

fn name_in(alloc: Global, handle: &[u8]) -> Result<Name, EntryFault>
    ensures value { IfOk result (λ name. named handle.now ≡ Ok name) }
    ensures fault { IfErr result (IsFault (named handle.now)) }
{
    names_decided();
    match Name::read(alloc, handle) {
        Ok(name) => Ok(name),
        Err(NameFault::Memory) => Err(EntryFault::Memory),
        Err(_) => Err(EntryFault::NoChange),
    }
}

fn change_of_request(alloc: Global, request: &Request<'_>) -> Result<Change, EntryFault>
    ensures value { IfOk result (λ change. change_by request.now.operation ≡ Ok change) }
    ensures fault { IfErr result (IsFault (change_by request.now.operation)) }
{
    match request.body() {
        Body::Create { handle, values } => {
            let name = name_in(alloc, handle)?;
            let values = values_in(alloc, *values)?;
            Ok(Change::Create { name, values })
        }
        Body::Delete { handle } => {
            let name = name_in(alloc, handle)?;
            Ok(Change::Delete { name })
        }
        Body::Add { handle, values } => {
            let name = name_in(alloc, handle)?;
            let values = values_in(alloc, *values)?;
            Ok(Change::Add { name, values })
        }
        Body::Remove { handle, indexes } => {
            let name = name_in(alloc, handle)?;
            let indexes = indexes_in(alloc, *indexes)?;
            Ok(Change::Remove { name, indexes })
        }
        Body::Modify { handle, values } => {
            let name = name_in(alloc, handle)?;
            let values = values_in(alloc, *values)?;
            Ok(Change::Modify { name, values })
        }
        Body::Resolution { .. } => Err(EntryFault::NoChange),
        Body::SiteInfo { .. } => Err(EntryFault::NoChange),
        Body::List { .. } => Err(EntryFault::NoChange),
        Body::Response { .. } => Err(EntryFault::NoChange),
        Body::Other { .. } => Err(EntryFault::NoChange),
    }
}

/// The change that a message makes: that of a request that creates, deletes, adds, removes or modifies, whose handle is a name and whose values are sound.
#[tactic(auto, unfolding(crate::specs::Changes::change_in))]
pub fn change_of_message(alloc: Global, message: &[u8]) -> Result<Change, EntryFault>
    ensures value { IfOk result (λ change. change_in message.now ≡ Ok change) }
    ensures fault { IfErr result (IsFault (change_in message.now)) }
{
    match read_request(Wire::Profile, message) {
        Ok(request) => change_of_request(alloc, &request),
        Err(_) => Err(EntryFault::NoChange),
    }
}

fn dated_in(alloc: Global, dated: &DatedMessage) -> Result<DatedChange, EntryFault>
    ensures value { IfOk result (λ change. dated_in dated.now ≡ Ok change) }
    ensures fault { IfErr result (IsFault (dated_in dated.now)) }
{
    let change = change_of_message(alloc, dated.message.as_slice())?;
    Ok(DatedChange {
        moment: dated.moment,
        change,
    })
}

fn all_in(alloc: Global, messages: &[DatedMessage]) -> Result<Vec<DatedChange>, EntryFault>
    ensures value { IfOk result (λ all. changes_in messages.now ≡ Ok all.items) }
    ensures fault { IfErr result (IsFault (changes_in messages.now)) }
{
    let mut all = Vec::new(alloc);
    for dated in messages {
        all.push(dated_in(alloc, dated)?)?;
    }
    Ok(all)
}

/// The changes of an entry, in their order.
pub fn changes_of_entry(alloc: Global, entry: &Entry) -> Result<Vec<DatedChange>, EntryFault>
    ensures value { IfOk result (λ all. changes_in entry.now.changes ≡ Ok all.items) }
    ensures fault { IfErr result (IsFault (changes_in entry.now.changes)) }
{
    all_in(alloc, entry.changes.as_slice())
}
