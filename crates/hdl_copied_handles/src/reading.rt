//! Reading a copy.

use crate::fault::CopyFault;
use crate::handles::CopiedHandles;
use crate::listed::{CopiedKind, CopiedValue, ListedHandle, copy, listed};
use hdl_limits::Octets;
use sqlite::types::ValueRef;
use sqlite::{Alter, Connection, Row, params};
use std::alloc::{AllocError, Global};
use std::fs::File;

/// The types of the values that are read.
const URL: &[u8] = b"URL";

const HS_GONE: &[u8] = b"HS_GONE";

/// The bit of a value's permissions by which anybody may read it.
const PUBLIC_READ: i64 = 2;

/// The octets in a cell.
fn octets_at(row: &Row, at: usize) -> Result<&[u8], CopyFault> {
    match row.get_ref(at)? {
        ValueRef::Blob(octets) => Ok(octets),
        _ => Err(CopyFault::Layout),
    }
}

/// What a value of this type says of its handle.
fn kind_of(kind: &[u8]) -> CopiedKind {
    if kind == URL {
        CopiedKind::Url
    } else {
        CopiedKind::Gone
    }
}

/// The value in a row.
fn value_in(alloc: Global, row: &Row) -> Result<CopiedValue, CopyFault> {
    let permissions: i64 = row.get(2)?;
    Ok(CopiedValue {
        kind: kind_of(octets_at(row, 1)?),
        is_public: permissions & PUBLIC_READ != 0,
        octets: copy(alloc, octets_at(row, 3)?)?,
    })
}

/// The handles that have such values, by rising octets, as far as they were read; and the values of the next one.
#[derive(Drop)]
struct Reading {
    alloc: Global,
    done: Vec<ListedHandle>,
    name: Octets,
    values: Vec<CopiedValue>,
}

impl Reading {
    fn new(alloc: Global) -> Reading {
        Reading {
            alloc,
            done: Vec::new(alloc),
            name: Octets::new(Vec::new(alloc)),
            values: Vec::new(alloc),
        }
    }

    /// All such values of the handle were read.
    fn close(&mut self) -> Result<(), AllocError> {
        if !self.values.is_empty() {
            let handle = listed(self.alloc, self.name.as_slice(), &self.values)?;
            self.done.push(handle)?;
            self.values.clear();
        }
        Ok(())
    }

    /// Takes the next value, of this handle.
    fn take(&mut self, name: &[u8], value: CopiedValue) -> Result<(), AllocError> {
        if self.name.as_slice() != name {
            self.close()?;
            self.name = copy(self.alloc, name)?;
        }
        self.values.push(value)?;
        Ok(())
    }
}

/// The handles of a database that have URLs, or are gone. No other value is read.
fn marked_in<S: Alter>(
    conn: &mut Connection<S>,
    alloc: Global,
) -> Result<Vec<ListedHandle>, CopyFault> {
    let mut reading = Reading::new(alloc);
    let mut rows = conn.query(
        "SELECT name, kind, perm, bytes FROM entries WHERE kind = ?1 OR kind = ?2 ORDER BY name, idx",
        params![URL, HS_GONE],
    )?;
    for _ in 0..u64::MAX {
        let Some(row) = rows.next()? else {
            reading.close()?;
            return Ok(reading.done);
        };
        reading.take(octets_at(row, 0)?, value_in(alloc, row)?)?;
    }
    // No memory holds as many values as that.
    Err(CopyFault::Memory)
}

/// What is known of the handle of this name, if it is one of these.
fn marked<'a>(handles: &'a [ListedHandle], name: &[u8]) -> Option<&'a ListedHandle> {
    match handles.binary_search_by(|one| one.name.as_slice().cmp(name)) {
        Ok(place) => handles.get(place),
        Err(_) => None,
    }
}

/// Puts the handle of a row after the others.
fn take_row(
    alloc: Global,
    row: &Row,
    with_values: &[ListedHandle],
    copied: &mut CopiedHandles,
) -> Result<(), CopyFault> {
    let prefix = octets_at(row, 0)?;
    let name = octets_at(row, 1)?;
    let known = marked(with_values, name);
    let handle = ListedHandle {
        name: copy(alloc, name)?,
        url: copy(alloc, known.map_or(&[], |one| one.url.as_slice()))?,
        is_gone: known.map_or(false, |one| one.is_gone),
    };
    copied.push(prefix, handle)?;
    Ok(())
}

/// The handles of a database.
fn handles_in<S: Alter>(
    conn: &mut Connection<S>,
    alloc: Global,
) -> Result<CopiedHandles, CopyFault> {
    let with_values = marked_in(conn, alloc)?;
    let mut copied = CopiedHandles::new(alloc);
    let mut rows = conn.query(
        "SELECT authority, name FROM handles ORDER BY authority, name",
        &[],
    )?;
    for _ in 0..u64::MAX {
        let Some(row) = rows.next()? else {
            return Ok(copied);
        };
        take_row(alloc, row, &with_values, &mut copied)?;
    }
    // No memory holds as many handles as that.
    Err(CopyFault::Memory)
}

/// The handles of the copy at this path, which stays as it is. An empty log is made next to it, as by any program that opens it.
pub fn read_copy(rt: &HostRuntime, path: &str) -> Result<CopiedHandles, CopyFault> {
    // A file that isn't there would be made.
    if File::open(rt, path).is_err() {
        return Err(CopyFault::CannotOpen);
    }
    let mut conn = Connection::open(rt, path)?;
    handles_in(&mut conn, rt.alloc())
}
