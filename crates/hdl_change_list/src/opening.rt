//! Putting the first values of handles.

use crate::fault::ListFault;
use crate::keyed::KeyWrites;
use crate::list::{ChangeList, PutResult};
use crate::messages::{copies, message_of_change};
use hdl_etcd::{EtcdFault, Outcome, transaction_outcome_of};
use hdl_journal_entries::Key;
use hdl_name::Name;
use hdl_ops::Change;
use hdl_value::Value;
use std::alloc::{AllocError, Global};
use std::net::{Net, TcpStream};

/// How often a handle is tried, if others change the list meanwhile.
const TRIES: u64 = 1_000;

/// How many of these tries may be left without an answer.
const UNANSWERED_TRIES: u64 = 5;

/// A handle with its first values.
#[derive(Drop)]
struct First<'a> {
    name: &'a Name,
    values: Vec<Value>,
}

/// The rows of a text by rising handle, and by rising index in each.
fn in_order<'a>(
    alloc: Global,
    opening: &'a [(Name, Value)],
) -> Result<Vec<&'a (Name, Value)>, AllocError> {
    let mut rows = Vec::new(alloc);
    for row in opening {
        rows.push(row)?;
    }
    rows.sort_by_key(|row| (row.0.canon(), row.1.index))?;
    Ok(rows)
}

/// The handles of a text with their first values.
fn firsts_of<'a>(
    alloc: Global,
    opening: &'a [(Name, Value)],
) -> Result<Vec<First<'a>>, AllocError> {
    let mut firsts: Vec<First<'a>> = Vec::new(alloc);
    for row in &in_order(alloc, opening)? {
        let row = *row;
        let value = row.1.copy(alloc)?;
        match firsts.last_mut() {
            Some(first) if first.name.canon() == row.0.canon() => first.values.push(value)?,
            _ => {
                let mut values = Vec::new(alloc);
                values.push(value)?;
                firsts.push(First {
                    name: &row.0,
                    values,
                })?;
            }
        }
    }
    Ok(firsts)
}

impl<R: Net<Stream = TcpStream>> ChangeList<R> {
    /// The transaction by which a handle is noted as opened.
    fn opened_text(&self, name: &Name) -> Result<String, AllocError> {
        let mut writes = KeyWrites::new(self.alloc, &self.name);
        writes.put_opened(name)?;
        let head = self.key(Key::Head)?;
        self.transaction(writes.all.as_slice(), &head)
    }

    /// Notes that a handle which is there was opened, if the list is as it was taken. Whether it was noted.
    fn note_opened(&mut self, name: &Name) -> Result<bool, ListFault> {
        let text = self.opened_text(name)?;
        let body = self.ask_transaction(text.as_str())?;
        Ok(matches!(transaction_outcome_of(self.alloc, &body)?, Outcome::Made))
    }

    /// Creates a handle with its first values, if the list is as it was taken. Whether it was created.
    fn create_first(&mut self, first: &First<'_>) -> Result<bool, ListFault> {
        let moment = first.values.first().map_or(0, |value| value.timestamp);
        let Ok(name) = Name::read(self.alloc, first.name.sent()) else {
            return Err(ListFault::Memory);
        };
        let values = copies(self.alloc, first.values.as_slice())?;
        let change = Change::Create { name, values };
        let Some(message) = message_of_change(self.alloc, moment, &change)? else {
            return Err(ListFault::Member(EtcdFault::Refused));
        };
        let mut writes = KeyWrites::new(self.alloc, &self.name);
        writes.put_opened(first.name)?;
        writes.put_change(moment, &change)?;
        let writes = writes.all;
        let put = self.put_with(message, writes)?;
        Ok(self.send(&put)? == PutResult::Made)
    }

    /// Opens a handle, if the list is as it was taken. Whether it is opened.
    fn try_first(&mut self, first: &First<'_>) -> Result<bool, ListFault> {
        if self.has(Key::Opened(first.name))? {
            return Ok(true);
        }
        drop(self.take_head()?);
        if self.has(Key::Handle(first.name))? {
            self.note_opened(first.name)
        } else {
            self.create_first(first)
        }
    }

    fn open_first(&mut self, first: &First<'_>) -> Result<(), ListFault> {
        let mut silent = 0;
        for _ in 0..TRIES {
            match self.try_first(first) {
                Ok(true) => return Ok(()),
                Ok(false) => {}
                Err(ListFault::Member(EtcdFault::NoAnswer)) if silent < UNANSWERED_TRIES =>
                    silent += 1,
                Err(fault) => return Err(fault),
            }
        }
        Err(ListFault::Member(EtcdFault::NoAnswer))
    }

    /// Puts the handles of a text with their values, each that was never opened here. A handle that a client created stays as it is.
    pub fn open_all(&mut self, opening: &[(Name, Value)]) -> Result<(), ListFault> {
        for first in &firsts_of(self.alloc, opening)? {
            self.open_first(first)?;
        }
        Ok(())
    }
}
