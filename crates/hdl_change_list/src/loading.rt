//! Reading the whole table, as it is at one revision.

use crate::fault::ListFault;
use crate::list::ChangeList;
use crate::messages::change_at_key;
use crate::unread::UnreadKeys;
use hdl_etcd::{KeyRange, Pair, RangeResponse};
use hdl_journal_entries::DatedChange;
use hdl_limits::Octets;
use std::alloc::{AllocError, Global};
use std::net::{Net, TcpStream};

/// How many keys are read at once.
const PAGE: u32 = 1_000;

/// What is read of a table next.
#[derive(Clone, Copy, PartialEq, Eq, Drop)]
enum Part {
    Handles,
    Values,
}

/// How far a table is read, at one revision.
#[derive(Drop)]
pub struct TableLoad {
    revision: Octets,
    part: Part,
    unread: UnreadKeys,
}

/// The keys of a part.
fn keys_of(alloc: Global, name: &[u8], part: Part) -> Result<UnreadKeys, AllocError> {
    let (first, last) = match part {
        Part::Handles => ("/h/", "/h0"),
        Part::Values => ("/v/", "/v0"),
    };
    let mut from = Vec::from_slice(alloc, name)?;
    from.extend_from_slice(first.as_bytes())?;
    let mut to = Vec::from_slice(alloc, name)?;
    to.extend_from_slice(last.as_bytes())?;
    Ok(UnreadKeys::new(from, to))
}

fn changes_in(alloc: Global, pairs: &[Pair]) -> Result<Vec<DatedChange>, ListFault> {
    let mut changes = Vec::new(alloc);
    for pair in pairs {
        changes.push(change_at_key(alloc, pair.value.as_slice())?)?;
    }
    Ok(changes)
}

impl<R: Net<Stream = TcpStream>> ChangeList<R> {
    /// Begins to read the table as it is now. What the list has by now is taken with it.
    pub fn load(&mut self) -> Result<TableLoad, ListFault> {
        let RangeResponse {
            pairs,
            revision,
            ..
        } = self.take_head()?;
        drop(pairs);
        self.members.begin_load();
        Ok(TableLoad {
            revision,
            part: Part::Handles,
            unread: keys_of(self.alloc, &self.name, Part::Handles)?,
        })
    }

    /// The next changes that make the table of an empty one, some thousand at most. None once the whole table is read.
    pub fn next_page(
        &mut self,
        loading: &mut TableLoad,
    ) -> Result<Option<Vec<DatedChange>>, ListFault> {
        if loading.unread.is_empty() {
            if loading.part == Part::Values {
                self.members.end_load();
                return Ok(None);
            }
            loading.unread = keys_of(self.alloc, &self.name, Part::Values)?;
            loading.part = Part::Values;
        }
        let Ok(revision) = str::from_utf8(loading.revision.as_slice()) else {
            return Err(ListFault::Layout);
        };
        let end = loading.unread.end(self.alloc)?;
        let keys = KeyRange {
            from: loading.unread.from(),
            to: &end,
        };
        let page = self.range(&keys, PAGE, revision)?;
        let changes = changes_in(self.alloc, page.pairs.as_slice())?;
        loading.unread.pass(self.alloc, &page, end)?;
        Ok(Some(changes))
    }
}
