//! What is kept of the changes of a table.

use hdl_history::{Author, Entry, Operation, entry_line, values_before};
use hdl_host::{LogSender, ServerConfig};
use hdl_limits::{Items, Octets};
use hdl_programs::Fault;
use hdl_recordedrows::{DoneChange, DoneWrite, History};
use hdl_rows::Agent;
use hdl_value::{RawRef, Value};
use std::alloc::{AllocError, Global};

/// Sends a line of each change to the thread that writes the history, if one is asked for.
#[derive(Drop)]
pub struct ChangeHistory {
    alloc: Global,
    sender: Option<LogSender>,
}

/// What hears of the changes of a server in this setting.
pub fn history_of(rt: &HostRuntime, config: &mut ServerConfig) -> Result<ChangeHistory, Fault> {
    let alloc = rt.alloc();
    let sender = match &mut config.monitoring.history {
        Some(history) => Some(history.sender(alloc)?),
        None => None,
    };
    Ok(ChangeHistory { alloc, sender })
}

fn operation_of(write: DoneWrite<'_>) -> Operation {
    match write {
        DoneWrite::Create(_) => Operation::Create,
        DoneWrite::Add(_) => Operation::Add,
        DoneWrite::Modify(_) => Operation::Modify,
        DoneWrite::Remove(_) => Operation::Remove,
        DoneWrite::Delete => Operation::Delete,
    }
}

fn indexes_of_values(alloc: Global, values: &[Value]) -> Result<Vec<u32>, AllocError> {
    let mut indexes = Vec::new(alloc);
    for value in values {
        indexes.push(value.index)?;
    }
    Ok(indexes)
}

/// The indexes that a write wrote or removed, rising.
fn indexes_of(alloc: Global, write: DoneWrite<'_>) -> Result<Items<u32>, AllocError> {
    let mut indexes = match write {
        DoneWrite::Create(values) | DoneWrite::Add(values) | DoneWrite::Modify(values) => {
            indexes_of_values(alloc, values)?
        }
        DoneWrite::Remove(indexes) => Vec::from_slice(alloc, indexes)?,
        DoneWrite::Delete => Vec::new(alloc),
    };
    indexes.sort()?;
    Ok(Items::new(indexes))
}

fn author_of(alloc: Global, agent: Agent<'_>) -> Result<Author, AllocError> {
    match agent {
        Agent::Key { handle, index } => {
            let handle = Octets::new(Vec::from_slice(alloc, handle)?);
            Ok(Author::Key(RawRef { handle, index }))
        }
        Agent::Anyone | Agent::Opening | Agent::Server => Ok(Author::Anyone),
    }
}

/// The line of a change.
fn line_of(alloc: Global, change: &DoneChange<'_>) -> Result<Vec<u8>, AllocError> {
    let entry = Entry {
        moment: change.provenance.moment,
        operation: operation_of(change.write),
        handle: Octets::new(Vec::from_slice(alloc, change.name.canon())?),
        author: author_of(alloc, change.provenance.agent)?,
        indexes: indexes_of(alloc, change.write)?,
        before: values_before(alloc, change.before)?,
    };
    entry_line(alloc, &entry)
}

impl History for ChangeHistory {
    ghost use Rattle.std.specs.Prelude.{false, []};

    ghost is_observed = { false };

    ghost told = { λ _. [] };

    fn is_kept(&self) -> bool {
        self.sender.is_some()
    }

    fn note(&mut self, change: &DoneChange<'_>) {
        let Some(sender) = &mut self.sender else {
            return;
        };
        let Ok(line) = line_of(self.alloc, change) else {
            return sender.count_lost();
        };
        match String::from_utf8(line) {
            Ok(line) => sender.send(line),
            Err(_) => sender.count_lost(),
        }
    }
}
