//! Changes, as the history keeps them.

ghost use Rattle.std.specs.Prelude.{◌≡◌};
ghost use Rattle.hdl_history.specs.Lines.{operation_word};
ghost use Rattle.hdl_history.specs.Fields.{operation_named};

use hdl_limits::{Items, Octets};
use hdl_value::RawRef;

/// What a change did.
#[derive(Clone, Copy, Debug, PartialEq, Eq)]
pub enum Operation {
    Create,
    Delete,
    Add,
    Remove,
    Modify,
}

impl Operation {
    /// Its word in a line: `create`, `delete`, `add`, `remove` or `modify`.
    pub fn word(self) -> &'static str
        ensures { result.now ≡ operation_word self }
    {
        match self {
            Operation::Create => "create",
            Operation::Delete => "delete",
            Operation::Add => "add",
            Operation::Remove => "remove",
            Operation::Modify => "modify",
        }
    }

    /// The operation of a word.
    pub(crate) fn of_word(word: &[u8]) -> Option<Operation>
        ensures { result ≡ operation_named word.now }
    {
        if word == b"create".as_slice() {
            Some(Operation::Create)
        } else if word == b"delete".as_slice() {
            Some(Operation::Delete)
        } else if word == b"add".as_slice() {
            Some(Operation::Add)
        } else if word == b"remove".as_slice() {
            Some(Operation::Remove)
        } else if word == b"modify".as_slice() {
            Some(Operation::Modify)
        } else {
            None
        }
    }
}

/// Who made a change.
#[derive(Drop)]
pub enum Author {
    /// No key was needed: anyone may make the change.
    Anyone,
    /// The key that answered the challenge.
    Key(RawRef),
    /// Another server of the cluster decided it.
    OtherServer,
}

/// The values before a change.
#[derive(Drop)]
pub enum ValuesBefore {
    /// The line of each, by rising index. That of a key says how many octets its data has, and not which.
    Lines(Items<Octets>),
    /// How many values there were. Their lines are longer than [`crate::VALUES_TEXT_MAX`], so they were left out.
    LeftOut(u64),
}

/// A change of a handle.
#[derive(Drop)]
pub struct Entry {
    /// Milliseconds since 1970-01-01 00:00 UTC. Values that the change wrote have it as their timestamp.
    pub moment: u64,
    pub operation: Operation,
    /// The canonical handle.
    pub handle: Octets,
    pub author: Author,
    /// The indexes that were written or removed.
    pub indexes: Items<u32>,
    /// The values before: all of a handle that was deleted, those at the indexes for modify and remove, none for create and add.
    pub before: ValuesBefore,
}
