//! Replacing rows, within a transaction.

ghost use Rattle.std.specs.Prelude.{◌≡◌, ◌≢◌, None, IsTrue, OnOk};
ghost use Rattle.std.specs.FinMap as map;
ghost use Rattle.hdl_value.specs.Spelling.{references};
ghost use Rattle.hdl_rows.specs.Table.{place, at, with_values, ArePresent, indexes};
ghost use Rattle.sqlite.specs.State.{HasCleanDisk, Survives};
ghost use Rattle.sqlite.specs.Held.{state};
ghost use Rattle.hdl_sqlrows.specs.Filed.{WhereOpen, KeepsCommitted, IsDraft, draft_table};
ghost use Rattle.hdl_sqlrows.specs.Stored.{IsInside};
ghost use Rattle.hdl_sqlrows.specs.Shows.{AreShort};

use crate::fault::StoreFault;
use crate::put::refs_of;
use hdl_value::Value;
use sqlite::{Alter, Transaction, params};
use std::alloc::Global;

/// Replaces the row at a value's index by one for this value, with its references as octets.
fn replace_cells<'x, S: Alter>(
    tx: &mut Transaction<'_, S>,
    name: &'x [u8],
    value: &'x Value,
    refs: &'x [u8],
) -> Result<(), StoreFault>
    requires inside { WhereOpen (state S.Store tx.old.conn.now) (IsInside (state S.Store tx.old.conn.now)) }
    requires spelt { refs.now ≡ references value.now.references }
    requires short { AreShort value.now.references }
    requires there { WhereOpen (state S.Store tx.old.conn.now) (at (draft_table (state S.Store tx.old.conn.now)) (place name.now value.now.index) ≢ None) }
    ensures same_reference { tx.new.conn.ghost_name ≡ tx.old.conn.ghost_name }
    ensures survives { Survives (state S.Store tx.old.conn.now) (state S.Store tx.new.conn.now) (λ _. ⊥) }
    ensures committed { KeepsCommitted (state S.Store tx.old.conn.now) (state S.Store tx.new.conn.now) }
    ensures put { OnOk result (HasCleanDisk (state S.Store tx.new.conn.now) → IsTrue (state S.Store tx.old.conn.now).is_open × IsDraft (state S.Store tx.new.conn.now) (record (draft_table (state S.Store tx.old.conn.now)) { values = map.insert (draft_table (state S.Store tx.old.conn.now)).values (place name.now value.now.index) value.now })) }
    ensures beside { OnOk result (HasCleanDisk (state S.Store tx.new.conn.now) → (state S.Store tx.new.conn.now).now.trees 4 ≡ (state S.Store tx.old.conn.now).now.trees 4) }
{
    let timestamp = value.timestamp.to_be_bytes();
    tx.execute(
        "UPDATE entries SET kind = ?3, bytes = ?4, ttl = ?5, perm = ?6, stamp = ?7, refs = ?8 WHERE name = ?1 AND idx = ?2",
        params![
            name,
            value.index,
            value.kind.as_slice(),
            value.bytes.as_slice(),
            value.ttl.as_slice(),
            u32::from(value.permissions),
            timestamp.as_slice(),
            refs
        ],
    )?;
    Ok(())
}

/// Replaces the value with the same index.
fn replace_entry<S: Alter>(
    tx: &mut Transaction<'_, S>,
    alloc: Global,
    name: &[u8],
    value: &Value,
) -> Result<(), StoreFault>
    requires inside { WhereOpen (state S.Store tx.old.conn.now) (IsInside (state S.Store tx.old.conn.now)) }
    requires there { WhereOpen (state S.Store tx.old.conn.now) (at (draft_table (state S.Store tx.old.conn.now)) (place name.now value.now.index) ≢ None) }
    ensures same_reference { tx.new.conn.ghost_name ≡ tx.old.conn.ghost_name }
    ensures survives { Survives (state S.Store tx.old.conn.now) (state S.Store tx.new.conn.now) (λ _. ⊥) }
    ensures committed { KeepsCommitted (state S.Store tx.old.conn.now) (state S.Store tx.new.conn.now) }
    ensures put { OnOk result (HasCleanDisk (state S.Store tx.new.conn.now) → IsTrue (state S.Store tx.old.conn.now).is_open × IsDraft (state S.Store tx.new.conn.now) (record (draft_table (state S.Store tx.old.conn.now)) { values = map.insert (draft_table (state S.Store tx.old.conn.now)).values (place name.now value.now.index) value.now })) }
    ensures beside { OnOk result (HasCleanDisk (state S.Store tx.new.conn.now) → (state S.Store tx.new.conn.now).now.trees 4 ≡ (state S.Store tx.old.conn.now).now.trees 4) }
{
    let refs = refs_of(alloc, value.references.as_slice())?;
    replace_cells(tx, name, value, &refs)
}

/// Replaces values, each by the one with its index.
pub(crate) fn replace_entries<S: Alter>(
    tx: &mut Transaction<'_, S>,
    alloc: Global,
    name: &[u8],
    values: &[Value],
) -> Result<(), StoreFault>
    requires inside { WhereOpen (state S.Store tx.old.conn.now) (IsInside (state S.Store tx.old.conn.now)) }
    requires there { WhereOpen (state S.Store tx.old.conn.now) (ArePresent (draft_table (state S.Store tx.old.conn.now)) name.now (indexes values.now)) }
    ensures same_reference { tx.new.conn.ghost_name ≡ tx.old.conn.ghost_name }
    ensures survives { Survives (state S.Store tx.old.conn.now) (state S.Store tx.new.conn.now) (λ _. ⊥) }
    ensures committed { KeepsCommitted (state S.Store tx.old.conn.now) (state S.Store tx.new.conn.now) }
    ensures put { OnOk result (HasCleanDisk (state S.Store tx.new.conn.now) → IsTrue (state S.Store tx.old.conn.now).is_open → IsDraft (state S.Store tx.new.conn.now) (with_values (draft_table (state S.Store tx.old.conn.now)) name.now values.now)) }
    ensures beside { OnOk result (HasCleanDisk (state S.Store tx.new.conn.now) → (state S.Store tx.new.conn.now).now.trees 4 ≡ (state S.Store tx.old.conn.now).now.trees 4) }
{
    for value in values {
        replace_entry(tx, alloc, name, value)?;
    }
    Ok(())
}
