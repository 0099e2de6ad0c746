//! A table in four partitions.

ghost use Rattle.std.specs.Prelude.{◌≡◌, IfOk};
ghost use Rattle.hdl_rows.specs.Table.{no_rows};

use crate::assertion::same;
use crate::rows::{each_call, list_handles};
use crate::writes::{create, delete};
use hdl_name::Name;
use hdl_partitionedrows::{Fork, PartitionedRows};
use hdl_rows::{PlainRows, Rows};
use std::alloc::Global;
use std::hash::RandomState;
use std::process::Abort;
use std::test::Fail;

type Halves = PartitionedRows<PlainRows>;

fn halves(alloc: Global, hasher: RandomState) -> Result<Halves, Fail>
    ensures { IfOk result (λ rows. rows.table ≡ no_rows) }
{
    let (first, second) = (PlainRows::new(alloc), PlainRows::new(alloc));
    let rows = PartitionedRows::new(alloc, first, second, Fork::new(hasher, 2))?;
    Ok(rows)
}

fn quarters(alloc: Global, hasher: RandomState) -> Result<PartitionedRows<Halves>, Fail> {
    let (first, second) = (halves(alloc, hasher)?, halves(alloc, hasher)?);
    let rows = PartitionedRows::new(alloc, first, second, Fork::new(hasher, 1))?;
    Ok(rows)
}

/// The handles of `10.abc` with these numbers, in order, with a space behind each.
fn in_order(alloc: Global) -> Result<Vec<u8>, Fail> {
    let mut all = vec![in alloc]?;
    for number in 10..100u32 {
        let text = format!(in alloc; "10.abc/{number} ")?;
        all.extend_from_slice(text.as_bytes())?;
    }
    Ok(all)
}

/// Creates them from the last to the first, each once more after it was deleted.
fn makes<R: Rows>(rt: &impl Abort, alloc: Global, rows: &mut R) -> Result<(), Fail> {
    for number in 10..100u32 {
        let before_last = 109 - number;
        let text = format!(in alloc; "10.abc/{before_last}")?;
        let name = Name::read(alloc, text.as_bytes())?;
        create(rt, rows, &name, &[])?;
        delete(rt, rows, &name)?;
        create(rt, rows, &name, &[])?;
    }
    Ok(())
}

#[test]
fn each_call_in_partitions(rt: HostRuntime) -> Result<(), Fail> {
    let mut rows = quarters(rt.alloc(), RandomState::new(&rt)?)?;
    each_call(&rt, rt.alloc(), &mut rows)
}

#[test]
fn names_rise_over_partitions(rt: HostRuntime) -> Result<(), Fail> {
    let mut rows = quarters(rt.alloc(), RandomState::new(&rt)?)?;
    makes(&rt, rt.alloc(), &mut rows)?;
    let told = list_handles(rt.alloc(), &mut rows, b"10.abc")?;
    let wanted = in_order(rt.alloc())?;
    same(&rt, "names", told.as_slice(), wanted.as_slice());
    Ok(())
}
