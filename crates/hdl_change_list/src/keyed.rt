//! What a change does to the keys of handles and values.

ghost use Rattle.hdl_change_list.specs.Sequence.{Writes, Makes};

use crate::messages::{handle_octets, value_octets};
use hdl_etcd::Operation;
use hdl_journal_entries::{Key, key_of};
use hdl_name::Name;
use hdl_ops::Change;
use hdl_value::Value;
use std::alloc::{AllocError, Global};

/// What is done to a key: it is put with a value, or deleted.
#[derive(Drop)]
pub(crate) struct KeyWrite {
    key: Vec<u8>,
    value: Option<Vec<u8>>,
}

impl KeyWrite {
    pub(crate) fn put(key: Vec<u8>, value: Vec<u8>) -> KeyWrite
        ensures { Writes key.items value.items result }
    {
        KeyWrite {
            key,
            value: Some(value),
        }
    }

    pub(crate) fn delete(key: Vec<u8>) -> KeyWrite {
        KeyWrite { key, value: None }
    }

    /// The operation of a transaction.
    pub(crate) fn operation(&self) -> Operation<'_>
        ensures { Makes self.now result }
    {
        match &self.value {
            Some(value) => Operation::Put(&self.key, value),
            None => Operation::Delete(&self.key),
        }
    }
}

/// The keys below a cluster's name that changes write.
#[derive(Drop)]
pub(crate) struct KeyWrites<'a> {
    alloc: Global,
    name: &'a [u8],
    pub(crate) all: Vec<KeyWrite>,
}

impl<'a> KeyWrites<'a> {
    pub(crate) fn new(alloc: Global, name: &'a [u8]) -> KeyWrites<'a> {
        KeyWrites {
            alloc,
            name,
            all: Vec::new(alloc),
        }
    }

    fn put(&mut self, key: Key<'_>, value: Option<Vec<u8>>) -> Result<(), AllocError> {
        let Some(value) = value else {
            return Err(AllocError);
        };
        let key = key_of(self.alloc, self.name, key)?;
        self.all.push(KeyWrite::put(key, value))?;
        Ok(())
    }

    fn delete(&mut self, key: Key<'_>) -> Result<(), AllocError> {
        let key = key_of(self.alloc, self.name, key)?;
        self.all.push(KeyWrite::delete(key))?;
        Ok(())
    }

    fn put_values(
        &mut self,
        moment: u64,
        handle: &Name,
        values: &[Value],
    ) -> Result<(), AllocError> {
        for value in values {
            let octets = value_octets(self.alloc, moment, handle, value)?;
            self.put(Key::Value(handle, value.index), octets)?;
        }
        Ok(())
    }

    /// Notes that a handle was opened with its first values.
    pub(crate) fn put_opened(&mut self, handle: &Name) -> Result<(), AllocError> {
        let nothing = Vec::new(self.alloc);
        self.put(Key::Opened(handle), Some(nothing))
    }

    /// What the change writes, beside the keys of values that a delete takes away.
    pub(crate) fn put_change(&mut self, moment: u64, change: &Change) -> Result<(), AllocError> {
        match change {
            Change::Create { name, values } => {
                let octets = handle_octets(self.alloc, moment, name)?;
                self.put(Key::Handle(name), octets)?;
                self.put_values(moment, name, values.as_slice())
            }
            Change::Delete { name } => self.delete(Key::Handle(name)),
            Change::Add { name, values } => self.put_values(moment, name, values.as_slice()),
            Change::Modify { name, values } => self.put_values(moment, name, values.as_slice()),
            Change::Remove { name, indexes } => {
                for index in indexes.as_slice() {
                    self.delete(Key::Value(name, *index))?;
                }
                Ok(())
            }
        }
    }
}
