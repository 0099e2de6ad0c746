//! Opening a service from a tenants text.

ghost use Rattle.std.specs.Prelude.{◌≡◌, [], None, map, IfOk, OnOk};
ghost use Rattle.std.specs.List.Sorted.{IsPermutation};
ghost use Rattle.hdl_rows.specs.Table.{no_rows, at};
ghost use Rattle.hdl_tenants.specs.Register.{lane_count, place, AreDistinct};
ghost use Rattle.hdl_core.specs.Opening.{IsOpening, IsResumed, closed_lanes as closed, opening_table, with_row, row_at, first_lanes};

use crate::lane::Lane;
use crate::lanes::Lanes;
use crate::machine::Machine;
use crate::service::Service;
use hdl_name::Name;
use hdl_ops::{MaskedRows, Provenance, Refused, Rows, Tenants};
use hdl_value::Value;
use std::alloc::{AllocError, Global};
use std::slice;
use thiserror::Error;

/// Why a service can't be opened.
#[derive(Clone, Copy, Debug, PartialEq, Eq, Error)]
pub enum OpenFault {
    /// Room for the lanes, for the masks that are kept, or for the order of the opening rows was refused.
    #[error("no memory")]
    Memory,
    /// The table refused an opening row.
    #[error("store refused")]
    Store,
}

/// The lanes of all publishers, closed.
fn closed_lanes(alloc: Global, tenants: &Tenants) -> Result<Vec<Lane>, AllocError>
    ensures { IfOk result (λ lanes. lanes.items ≡ first_lanes tenants.now (lane_count tenants.now.publishers)) }
{
    let mut lanes = Vec::new(alloc);
    for number in 0..tenants.lanes() {
        let publisher = tenants.owner(number).unwrap_or(0);
        lanes.push(Lane {
            publisher,
            is_open: false,
        })?;
    }
    Ok(lanes)
}

/// Puts an opening row into the table, whose handle is made if it isn't there.
fn put_row<R: Rows>(rows: &mut R, name: &Name, value: &Value) -> Result<(), Refused>
    requires free { at (R.content rows.old) (place (name.now, value.now)) ≡ None }
    ensures { OnOk result (R.content rows.new ≡ with_row (R.content rows.old) (name.now, value.now)) }
{
    let values = slice::from_ref(value);
    if rows.exists(name)? {
        rows.add(name, values, &Provenance::opening())
    } else {
        rows.create(name, values, &Provenance::opening())
    }
}

/// The opening rows by rising handle, and by rising index in each. Tables keep their rows in order, so that one which isn't the
/// last moves all behind it.
fn in_order<'a>(
    alloc: Global,
    opening: &'a [(Name, Value)],
) -> Result<Vec<&'a (Name, Value)>, AllocError>
    ensures { IfOk result (λ rows. IsPermutation opening.now (map row_at rows.items)) }
{
    let mut rows = Vec::new(alloc);
    for row in opening {
        rows.push(row)?;
    }
    rows.sort_by_key(|row| (row.0.canon(), row.1.index))?;
    Ok(rows)
}

/// Puts rows into an empty table.
fn put_rows<R: Rows>(rows: &mut R, opening: &[&(Name, Value)]) -> Result<(), Refused>
    requires empty { R.content rows.old ≡ no_rows }
    requires distinct { AreDistinct (map place (map row_at opening.now)) }
    ensures { OnOk result (R.content rows.new ≡ opening_table (map row_at opening.now)) }
{
    for row in opening {
        let row = *row;
        put_row(rows, &row.0, &row.1)?;
    }
    Ok(())
}

/// Puts all opening rows into an empty table, whatever their order.
fn load<R: Rows>(alloc: Global, rows: &mut R, opening: &[(Name, Value)]) -> Result<(), OpenFault>
    requires empty { R.content rows.old ≡ no_rows }
    requires distinct { AreDistinct (map place opening.now) }
    ensures { OnOk result (R.content rows.new ≡ opening_table opening.now) }
{
    let Ok(order) = in_order(alloc, opening) else {
        return Err(OpenFault::Memory);
    };
    match put_rows(rows, &order) {
        Ok(()) => Ok(()),
        Err(_) => Err(OpenFault::Store),
    }
}

/// What is kept of all lanes, each closed.
fn room_for(alloc: Global, tenants: &Tenants) -> Result<Lanes, OpenFault>
    ensures { IfOk result (λ lanes. lanes ≡ closed (first_lanes tenants.now (lane_count tenants.now.publishers))) }
{
    let Ok(lanes) = closed_lanes(alloc, tenants) else {
        return Err(OpenFault::Memory);
    };
    let _ = tenants.opening();
    let Ok(lanes) = Lanes::new(alloc, lanes) else {
        return Err(OpenFault::Memory);
    };
    Ok(lanes)
}

/// The table, of which no masks are kept yet.
fn with_masks<R: Rows + Drop>(alloc: Global, rows: R) -> Result<MaskedRows<R>, OpenFault>
    ensures { IfOk result (λ masked. masked ≡ rows) }
{
    match MaskedRows::new(alloc, rows) {
        Ok(masked) => Ok(masked),
        Err(_) => Err(OpenFault::Memory),
    }
}

/// The table with the opening rows, of which no masks are kept yet.
fn loaded<R: Rows + Drop>(
    alloc: Global,
    mut rows: R,
    opening: &[(Name, Value)],
) -> Result<MaskedRows<R>, OpenFault>
    requires empty { R.content rows ≡ no_rows }
    requires distinct { AreDistinct (map place opening.now) }
    ensures { IfOk result (λ masked. R.content masked ≡ opening_table opening.now) }
{
    load(alloc, &mut rows, opening)?;
    let masked = with_masks(alloc, rows)?;
    Ok(masked)
}

/// The lanes of a service that opens, closed, and its table.
fn opened<R: Rows + Drop>(
    alloc: Global,
    tenants: &Tenants,
    rows: R,
) -> Result<(Lanes, MaskedRows<R>), OpenFault>
    requires empty { R.content rows ≡ no_rows }
    ensures lanes { IfOk result (λ parts. parts.0 ≡ closed (first_lanes tenants.now (lane_count tenants.now.publishers))) }
    ensures table { IfOk result (λ parts. R.content parts.1 ≡ opening_table tenants.now.opening) }
{
    let lanes = room_for(alloc, tenants)?;
    let rows = loaded(alloc, rows, tenants.opening())?;
    Ok((lanes, rows))
}

/// The lanes of a service over a table that is there already, closed, and that table.
fn resumed<R: Rows + Drop>(
    alloc: Global,
    tenants: &Tenants,
    rows: R,
) -> Result<(Lanes, MaskedRows<R>), OpenFault>
    ensures lanes { IfOk result (λ parts. parts.0 ≡ closed (first_lanes tenants.now (lane_count tenants.now.publishers))) }
    ensures table { IfOk result (λ parts. R.content parts.1 ≡ R.content rows) }
{
    let lanes = room_for(alloc, tenants)?;
    let rows = with_masks(alloc, rows)?;
    Ok((lanes, rows))
}

impl<R: Rows + Drop> Service<R> {
    /// The service of a tenants text over an empty table: every lane closed, and the opening rows in the table.
    ///
    /// Refused: `Memory` for the lanes, the masks that are kept or the order of the rows, `Store` where the table refused a row. The
    /// table is dropped then.
    pub fn open(alloc: Global, tenants: Tenants, rows: R) -> Result<Service<R>, OpenFault>
        requires empty { R.content rows ≡ no_rows }
        ensures opening { IfOk result (λ service. IsOpening tenants service.world) }
    {
        let (lanes, rows) = opened(alloc, &tenants, rows)?;
        Ok(Service {
            machine: Machine {
                alloc,
                tenants,
                takes_changes: true,
                lanes,
                rows,
            },
        })
    }

    /// The service of a tenants text over a table that is there already: every lane closed, and the table as it is. The text's
    /// opening rows aren't put into it.
    ///
    /// Refused: `Memory` for the lanes or the masks that are kept. The table is dropped then.
    pub fn resume(alloc: Global, tenants: Tenants, rows: R) -> Result<Service<R>, OpenFault>
        ensures resumed { IfOk result (λ service. IsResumed tenants (R.content rows) service.world) }
    {
        let (lanes, rows) = resumed(alloc, &tenants, rows)?;
        Ok(Service {
            machine: Machine {
                alloc,
                tenants,
                takes_changes: true,
                lanes,
                rows,
            },
        })
    }
}
