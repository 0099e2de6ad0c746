//! Loading the rows of a database into a table in memory.

ghost use Rattle.std.specs.Prelude.{◌≡◌, false, OnOk};
ghost use Rattle.sqlite.specs.State.{HasCleanDisk, IsUnchanged, Survives};
ghost use Rattle.sqlite.specs.Held.{state};
ghost use Rattle.hdl_rows.specs.Table.{no_rows, IsPlaced};
ghost use Rattle.hdl_sqlrows.specs.Layout.{layout};
ghost use Rattle.hdl_sqlrows.specs.Stored.{IsBetweenCalls};
ghost use Rattle.hdl_sqlrows.specs.Filed.{KeepsCommitted, IsFiled};
ghost use Rattle.hdl_sqlrows.specs.Loaded.{handles_alone, IsLoaded};

use crate::fault::LoadFault;
use crate::taken::{take_entry, take_handle};
use hdl_rows::Rows;
use sqlite::{Alter, Connection};
use std::alloc::Global;

/// Receives a load's progress: after each row, how many of its kind were read.
pub trait Progress {
    fn handles(&mut self, count: u64);

    fn values(&mut self, count: u64);
}

/// Puts the rows of `handles` into an empty table.
fn load_handles<S: Alter, R: Rows, P: Progress>(
    conn: &mut Connection<S>,
    alloc: Global,
    rows: &mut R,
    progress: &mut P,
) -> Result<(), LoadFault>
    requires layout { HasCleanDisk (state S.Store conn.old) → (state S.Store conn.old).now.schema ≡ layout }
    requires empty { R.content rows.old ≡ no_rows }
    ensures mode { conn.old.in_transaction ≡ false → conn.new.in_transaction ≡ false }
    ensures same { OnOk result (HasCleanDisk (state S.Store conn.new) → IsUnchanged (state S.Store conn.old) (state S.Store conn.new)) }
    ensures loaded { OnOk result (HasCleanDisk (state S.Store conn.new) → IsLoaded (handles_alone (state S.Store conn.new).now.trees) (R.content rows.new)) }
    ensures placed { OnOk result (IsPlaced (R.content rows.new)) }
    ensures kept { KeepsCommitted (state S.Store conn.old) (state S.Store conn.new) }
    ensures survives { Survives (state S.Store conn.old) (state S.Store conn.new) (λ _. ⊥) }
{
    let mut found = conn.query("SELECT rowid, name, authority FROM handles", &[])?;
    let mut last = None;
    'rows: for before in 0..u64::MAX {
        let Some(row) = found.next()? else {
            return Ok(());
        };
        last = Some(take_handle(alloc, row, last, rows)?);
        progress.handles(before + 1);
    }
    // No memory holds that many handles.
    Err(LoadFault::Memory)
}

/// Reads the rows of `entries`, after those of `handles`.
fn load_entries<S: Alter, R: Rows, P: Progress>(
    conn: &mut Connection<S>,
    alloc: Global,
    rows: &mut R,
    progress: &mut P,
) -> Result<(), LoadFault>
    requires layout { HasCleanDisk (state S.Store conn.old) → (state S.Store conn.old).now.schema ≡ layout }
    requires handles { HasCleanDisk (state S.Store conn.old) → IsLoaded (handles_alone (state S.Store conn.old).now.trees) (R.content rows.old) }
    requires placed { IsPlaced (R.content rows.old) }
    ensures mode { conn.old.in_transaction ≡ false → conn.new.in_transaction ≡ false }
    ensures same { OnOk result (HasCleanDisk (state S.Store conn.new) → IsUnchanged (state S.Store conn.old) (state S.Store conn.new)) }
    ensures loaded { OnOk result (HasCleanDisk (state S.Store conn.new) → IsLoaded (state S.Store conn.new).now.trees (R.content rows.new)) }
    ensures placed { OnOk result (IsPlaced (R.content rows.new)) }
    ensures kept { KeepsCommitted (state S.Store conn.old) (state S.Store conn.new) }
    ensures survives { Survives (state S.Store conn.old) (state S.Store conn.new) (λ _. ⊥) }
{
    let mut found = conn.query(
        "SELECT idx, kind, bytes, ttl, perm, stamp, refs, name, rowid FROM entries",
        &[],
    )?;
    let mut last = None;
    'rows: for before in 0..u64::MAX {
        let Some(row) = found.next()? else {
            return Ok(());
        };
        last = Some(take_entry(alloc, row, last, rows)?);
        progress.values(before + 1);
    }
    // No memory holds that many values.
    Err(LoadFault::Memory)
}

/// Puts the rows of a database of this layout into an empty table. It reads them one at a time, and writes nothing.
///
/// If the disk returned what was written to it, the table is then the one that is filed, and the rows are as the writes
/// need them. The load is refused if memory, the store or the table refused; otherwise at the first row that is
/// unsound. The table then has the rows before that one. The database is as it was, unless its store closed.
pub fn load<S: Alter, R: Rows, P: Progress>(
    conn: &mut Connection<S>,
    alloc: Global,
    rows: &mut R,
    progress: &mut P,
) -> Result<(), LoadFault>
    requires mode { conn.old.in_transaction ≡ false }
    requires layout { HasCleanDisk (state S.Store conn.old) → (state S.Store conn.old).now.schema ≡ layout }
    requires empty { R.content rows.old ≡ no_rows }
    ensures mode { conn.new.in_transaction ≡ false }
    ensures loaded { OnOk result (HasCleanDisk (state S.Store conn.new) → IsFiled (state S.Store conn.new) (R.content rows.new)) }
    ensures placed { OnOk result (IsPlaced (R.content rows.new)) }
    ensures settled { OnOk result (HasCleanDisk (state S.Store conn.new) → IsBetweenCalls (state S.Store conn.new)) }
    ensures kept { KeepsCommitted (state S.Store conn.old) (state S.Store conn.new) }
    ensures survives { Survives (state S.Store conn.old) (state S.Store conn.new) (λ _. ⊥) }
{
    load_handles(conn, alloc, rows, progress)?;
    load_entries(conn, alloc, rows, progress)?;
    let _committed = conn.is_autocommit();
    Ok(())
}
