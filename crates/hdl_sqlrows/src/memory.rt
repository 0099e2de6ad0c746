//! The writes of a table in memory: the disk has always returned what was written, and the store is open.

ghost use Rattle.std.specs.Prelude.{◌≡◌, true, false, OnOk, OnErr};
ghost use Rattle.hdl_name.specs.Name.{authority as authority_of};
ghost use Rattle.hdl_rows.specs.Table.{no_rows, has, with_new_handle, with_values, without_values, without_handle, AreDistinct, AreAbsent, ArePresent, indexes};
ghost use Rattle.hdl_sqlrows.specs.Stored.{IsBlank, IsBetweenCalls, state_of, table_of};

use crate::fault::StoreFault;
use crate::{layout, writes};
use hdl_value::Value;
use sqlite::{Connection, MemStore};
use std::alloc::Global;

/// Creates the tables in an empty database.
pub(crate) fn make_tables(conn: &mut Connection<MemStore>) -> Result<(), StoreFault>
    requires mode { conn.old.in_transaction ≡ false }
    requires blank { IsBlank (state_of conn.old) }
    ensures settled { OnOk result (IsBetweenCalls (state_of conn.new)) }
    ensures empty { OnOk result (table_of conn.new ≡ no_rows) }
{
    layout::make_tables(conn)
}

/// Creates a handle with these values.
pub(crate) fn create(
    conn: &mut Connection<MemStore>,
    alloc: Global,
    name: &[u8],
    authority: &[u8],
    values: &[Value],
) -> Result<(), StoreFault>
    requires settled { IsBetweenCalls (state_of conn.old) }
    requires authority { authority.now ≡ authority_of name.now }
    requires none { has (table_of conn.old) name.now ≡ false }
    requires absent { AreAbsent (table_of conn.old) name.now (indexes values.now) }
    requires distinct { AreDistinct (indexes values.now) }
    ensures settled { IsBetweenCalls (state_of conn.new) }
    ensures done { OnOk result (table_of conn.new ≡ with_new_handle (table_of conn.old) name.now values.now) }
    ensures undone { OnErr result (table_of conn.new ≡ table_of conn.old) }
{
    writes::create(conn, alloc, name, authority, values)
}

/// Adds values at indexes where there is none.
pub(crate) fn add(
    conn: &mut Connection<MemStore>,
    alloc: Global,
    name: &[u8],
    values: &[Value],
) -> Result<(), StoreFault>
    requires settled { IsBetweenCalls (state_of conn.old) }
    requires absent { AreAbsent (table_of conn.old) name.now (indexes values.now) }
    requires distinct { AreDistinct (indexes values.now) }
    ensures settled { IsBetweenCalls (state_of conn.new) }
    ensures done { OnOk result (table_of conn.new ≡ with_values (table_of conn.old) name.now values.now) }
    ensures undone { OnErr result (table_of conn.new ≡ table_of conn.old) }
{
    writes::add(conn, alloc, name, values)
}

/// Replaces values, each by the one with its index.
pub(crate) fn modify(
    conn: &mut Connection<MemStore>,
    alloc: Global,
    name: &[u8],
    values: &[Value],
) -> Result<(), StoreFault>
    requires settled { IsBetweenCalls (state_of conn.old) }
    requires there { ArePresent (table_of conn.old) name.now (indexes values.now) }
    ensures settled { IsBetweenCalls (state_of conn.new) }
    ensures done { OnOk result (table_of conn.new ≡ with_values (table_of conn.old) name.now values.now) }
    ensures undone { OnErr result (table_of conn.new ≡ table_of conn.old) }
{
    writes::modify(conn, alloc, name, values)
}

/// Removes the values with these indexes.
pub(crate) fn remove(
    conn: &mut Connection<MemStore>,
    name: &[u8],
    indexes: &[u32],
) -> Result<(), StoreFault>
    requires settled { IsBetweenCalls (state_of conn.old) }
    ensures settled { IsBetweenCalls (state_of conn.new) }
    ensures done { OnOk result (table_of conn.new ≡ without_values (table_of conn.old) name.now indexes.now) }
    ensures undone { OnErr result (table_of conn.new ≡ table_of conn.old) }
{
    writes::remove(conn, name, indexes)
}

/// Deletes a handle with all its values.
pub(crate) fn delete(conn: &mut Connection<MemStore>, name: &[u8]) -> Result<(), StoreFault>
    requires settled { IsBetweenCalls (state_of conn.old) }
    requires there { has (table_of conn.old) name.now ≡ true }
    ensures settled { IsBetweenCalls (state_of conn.new) }
    ensures done { OnOk result (table_of conn.new ≡ without_handle (table_of conn.old) name.now) }
    ensures undone { OnErr result (table_of conn.new ≡ table_of conn.old) }
{
    writes::delete(conn, name)
}
