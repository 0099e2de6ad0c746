//! Queries for the heads of values. Their results have neither data nor references.

ghost use Rattle.std.specs.Prelude.{◌≡◌, is_some, IfOk, OnOk, map};
ghost use Rattle.hdl_rows.specs.Heads as spec;
ghost use Rattle.hdl_rows.specs.Table.{has, values_of, values_in, HaveTheirIndexes, IsPlaced};
ghost use Rattle.hdl_sqlrows.specs.Stored.{IsBetweenCalls, state_of, table_of};
ghost use Rattle.hdl_sqlrows.specs.Shows.{head_of};

use crate::cells::{number_at, octet_at, octets_at, stamp_at, ttl_at};
use crate::fault::{CellFault, StoreFault};
use crate::queries::has_handle;
use hdl_limits::Octets;
use hdl_value::{RawRefs, Value};
use sqlite::{Connection, MemStore, Row, params};
use std::alloc::Global;

fn rows_of_heads(conn: &mut Connection<MemStore>, name: &[u8]) -> Result<Vec<Row>, StoreFault>
    requires { IsBetweenCalls (state_of conn.old) }
    ensures settled { IsBetweenCalls (state_of conn.new) }
    ensures same { (state_of conn.new).now ≡ (state_of conn.old).now }
    ensures found { IfOk result (λ rows. map head_of rows.items ≡ spec.heads_of (table_of conn.old) name.now) }
    ensures by_index { OnOk result (HaveTheirIndexes (table_of conn.old) name.now (values_of (table_of conn.old) name.now)) }
{
    Ok(conn.query_all(
        "SELECT idx, kind, ttl, perm, stamp FROM entries WHERE name = ?1 ORDER BY name, idx",
        params![name],
    )?)
}

/// The head in a row of cells.
fn head_from(alloc: Global, row: &Row) -> Result<Value, CellFault>
    ensures { IfOk result (λ head. head ≡ head_of row.now) }
{
    let index = number_at(row, 0)?;
    let kind = octets_at(alloc, row, 1)?;
    let ttl = ttl_at(row, 2)?;
    let permissions = octet_at(row, 3)?;
    let timestamp = stamp_at(row, 4)?;
    Ok(Value {
        index,
        kind,
        bytes: Octets::new(Vec::new(alloc)),
        ttl,
        permissions,
        timestamp,
        references: RawRefs::new(Vec::new(alloc)),
    })
}

/// The heads in the rows.
fn all_heads(alloc: Global, rows: &[Row]) -> Result<Vec<Value>, StoreFault>
    ensures { IfOk result (λ heads. heads.items ≡ map head_of rows.now) }
{
    let mut heads = Vec::new(alloc);
    for row in rows {
        heads.push(head_from(alloc, row)?)?;
    }
    Ok(heads)
}

/// The heads of a handle's values, by rising index.
fn heads_of(
    conn: &mut Connection<MemStore>,
    alloc: Global,
    name: &[u8],
) -> Result<Vec<Value>, StoreFault>
    requires { IsBetweenCalls (state_of conn.old) }
    ensures settled { IsBetweenCalls (state_of conn.new) }
    ensures same { (state_of conn.new).now ≡ (state_of conn.old).now }
    ensures found { IfOk result (λ all. all.items ≡ spec.heads_of (table_of conn.old) name.now) }
    ensures by_index { OnOk result (HaveTheirIndexes (table_of conn.old) name.now (values_of (table_of conn.old) name.now)) }
{
    let rows = rows_of_heads(conn, name)?;
    all_heads(alloc, &rows)
}

/// The heads of a handle's values, by rising index. `None` if it is absent. A handle with values is there, so `handles`
/// is queried only if there are none.
pub(crate) fn heads(
    conn: &mut Connection<MemStore>,
    alloc: Global,
    name: &[u8],
) -> Result<Option<Vec<Value>>, StoreFault>
    requires settled { IsBetweenCalls (state_of conn.old) }
    requires placed { IsPlaced (table_of conn.old) }
    ensures settled { IsBetweenCalls (state_of conn.new) }
    ensures same { (state_of conn.new).now ≡ (state_of conn.old).now }
    ensures there { IfOk result (λ all. is_some all ≡ has (table_of conn.old) name.now) }
    ensures found { IfOk result (λ all. values_in all ≡ spec.heads_of (table_of conn.old) name.now) }
    ensures by_index { OnOk result (HaveTheirIndexes (table_of conn.old) name.now (values_of (table_of conn.old) name.now)) }
{
    let heads = heads_of(conn, alloc, name)?;
    if !heads.is_empty() {
        return Ok(Some(heads));
    }
    if has_handle(conn, name)? {
        Ok(Some(heads))
    } else {
        Ok(None)
    }
}
