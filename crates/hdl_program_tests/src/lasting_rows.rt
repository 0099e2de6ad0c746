//! A table in memory with a database beside it: made, written, and opened again.

use crate::assertion::same;
use crate::rows::{are, list_handles};
use crate::writes::{add, create, delete, modify, reference, remove};
use hdl_durablerows::{DurableRows, FileRows, ShutObserver, TableFault, table_with_file};
use hdl_name::Name;
use hdl_rows::{Fuse, Owed, Owing, PlainRows, Provenance, Rows};
use hdl_sqlrows::load::Progress;
use hdl_tests::made::value;
use hdl_value::Value;
use sqlite::{Connection, MemStore};
use std::alloc::Global;
use std::process::Abort;
use std::test::Fail;

/// Hears nothing.
#[derive(Clone, Copy, Drop)]
pub(crate) struct NoObserver;

impl ShutObserver for NoObserver {
    ghost use Rattle.hdl_rows.specs.Table.{most};

    ghost shut_notices = { λ _. most };

    fn note_shut(&mut self) {}
}

impl Progress for NoObserver {
    fn handles(&mut self, _count: u64) {}

    fn values(&mut self, _count: u64) {}
}

type Table = DurableRows<PlainRows, FileRows<MemStore>, NoObserver>;

/// A table of which memory refuses calls.
type Refusing = DurableRows<Fuse<PlainRows>, FileRows<MemStore>, NoObserver>;

/// The table over a database, with one first value of the text.
fn over(
    alloc: Global,
    conn: Connection<MemStore>,
    name: Name,
    first: Value,
) -> Result<Table, Fail> {
    if !conn.is_autocommit() {
        return Err(TableFault::Device.into());
    }
    let rows = PlainRows::new(alloc);
    let spare = PlainRows::new(alloc);
    Ok(table_with_file(alloc, conn, rows, spare, &[(name, first)], NoObserver)?)
}

/// The same, with the value of index 1 at `10.abc/text`.
fn over_text(alloc: Global, conn: Connection<MemStore>) -> Result<Table, Fail> {
    let name = Name::read(alloc, b"10.abc/text")?;
    over(alloc, conn, name, value(alloc, 1, b"URL", b"one")?)
}

fn create_two<R: Rows>(rt: &impl Abort, alloc: Global, rows: &mut R) -> Result<(), Fail> {
    let name = Name::read(alloc, b"10.abc/x")?;
    let all = [
        value(alloc, 5, b"URL", b"five")?,
        value(alloc, 2, b"URL", b"two")?,
    ];
    create(rt, rows, &name, &all)
}

fn add_third<R: Rows>(rt: &impl Abort, alloc: Global, rows: &mut R) -> Result<(), Fail> {
    let place = reference(alloc, b"10.abc/x", 3)?;
    let third = value(alloc, place.index, b"URL", b"three")?;
    add(rt, rows, &place, third)
}

fn modify_third<R: Rows>(rt: &impl Abort, alloc: Global, rows: &mut R) -> Result<(), Fail> {
    let place = reference(alloc, b"10.abc/x", 3)?;
    let third = value(alloc, place.index, b"URL", b"third")?;
    modify(rt, rows, &place, third)
}

/// Asserts that the handle of this text has these values.
fn has_values<R: Rows>(
    rt: &impl Abort,
    alloc: Global,
    rows: &mut R,
    text: &[u8],
    wanted: &[(u32, &[u8])],
) -> Result<(), Fail> {
    let values = rows.values(&Name::read(alloc, text)?)?;
    same(rt, "its values", are(&values, wanted), true);
    Ok(())
}

/// Asserts what the handles of the authority are, with a space behind each, and the values of `10.abc/x`.
fn stand<R: Rows>(
    rt: &impl Abort,
    alloc: Global,
    table: &mut R,
    handles: &[u8],
) -> Result<(), Fail> {
    let all = list_handles(alloc, table, b"10.abc")?;
    same(rt, "handles", all.as_slice(), handles);
    has_values(rt, alloc, table, b"10.abc/x", &[(2, b"two"), (3, b"third")])?;
    same(rt, "refusals", table.refusals(), 0);
    Ok(())
}

/// Each of the five writes, of which the last deletes the handle of the text. They are one call, since each call at a table of many parts is dear to prove.
fn each_write<R: Rows>(rt: &impl Abort, alloc: Global, rows: &mut R) -> Result<(), Fail> {
    has_values(rt, alloc, rows, b"10.abc/text", &[(1, b"one")])?;
    create_two(rt, alloc, rows)?;
    add_third(rt, alloc, rows)?;
    modify_third(rt, alloc, rows)?;
    remove(rt, rows, &reference(alloc, b"10.abc/x", 5)?)?;
    stand(rt, alloc, rows, b"10.abc/text 10.abc/x ")?;
    delete(rt, rows, &Name::read(alloc, b"10.abc/text")?)
}

/// A database in which each write was made.
fn make_writes(rt: &impl Abort, alloc: Global) -> Result<Connection<MemStore>, Fail> {
    let mut table = over_text(alloc, Connection::open_in_memory(alloc)?)?;
    each_write(rt, alloc, &mut table)?;
    Ok(table.into_connection())
}

/// The next open finds what was written, and opens the handle of the text no second time.
#[test]
fn writes_last(rt: HostRuntime) -> Result<(), Fail> {
    let alloc = rt.alloc();
    let mut table = over_text(alloc, make_writes(&rt, alloc)?)?;
    stand(&rt, alloc, &mut table, b"10.abc/x ")
}

/// Asserts that the late handle has its value, and the others are as they were.
fn stand_late<R: Rows>(rt: &impl Abort, alloc: Global, table: &mut R) -> Result<(), Fail> {
    has_values(rt, alloc, table, b"10.abc/late", &[(9, b"nine")])?;
    stand(rt, alloc, table, b"10.abc/late 10.abc/x ")
}

/// The table over a database, with a handle of the text that came later.
fn over_late(alloc: Global, conn: Connection<MemStore>) -> Result<Table, Fail> {
    let name = Name::read(alloc, b"10.ABC/late")?;
    over(alloc, conn, name, value(alloc, 9, b"URL", b"nine")?)
}

/// A handle that comes into the text later is opened then, and the others stay as they are.
#[test]
fn late_handle_is_opened(rt: HostRuntime) -> Result<(), Fail> {
    let alloc = rt.alloc();
    let mut table = over_late(alloc, make_writes(&rt, alloc)?)?;
    stand_late(&rt, alloc, &mut table)
}

/// A table of which memory refuses this call, counted from 1; none with 0.
fn over_refusing(alloc: Global, conn: Connection<MemStore>, nth: u64) -> Result<Refusing, Fail> {
    if !conn.is_autocommit() {
        return Err(TableFault::Device.into());
    }
    let rows = Fuse::new(PlainRows::new(alloc), nth, nth);
    let spare = Fuse::new(PlainRows::new(alloc), 0, 0);
    Ok(table_with_file(alloc, conn, rows, spare, &[], NoObserver)?)
}

/// Whether an absent handle is made.
fn is_made<R: Rows>(rows: &mut R, name: &Name) -> Result<bool, Fail> {
    if rows.exists(name)? {
        return Ok(false);
    }
    Ok(rows.create(name, &[], &Provenance::opening()).is_ok())
}

/// Asserts whether an absent handle is made, and what is then owed.
fn comes_to<R: Owing>(
    rt: &impl Abort,
    rows: &mut R,
    name: &Name,
    made: bool,
    owed: Owed,
) -> Result<(), Fail> {
    same(rt, "made", is_made(rows, name)?, made);
    same(rt, "owed", rows.owed(), owed);
    Ok(())
}

/// What memory refused and the file has is owed: the same write is made in memory when it comes again.
fn claim_write<R: Owing>(rt: &impl Abort, alloc: Global, rows: &mut R) -> Result<(), Fail> {
    let name = Name::read(alloc, b"10.abc/x")?;
    comes_to(rt, rows, &name, false, Owed::Ended)?;
    comes_to(rt, rows, &name, true, Owed::Nothing)
}

/// Another write that comes in its turn undoes it in the file, and is made when it comes again.
fn undo_write<R: Owing>(rt: &impl Abort, alloc: Global, rows: &mut R) -> Result<(), Fail> {
    let name = Name::read(alloc, b"10.abc/x")?;
    comes_to(rt, rows, &name, false, Owed::Ended)?;
    let other = Name::read(alloc, b"10.abc/y")?;
    comes_to(rt, rows, &other, false, Owed::Nothing)?;
    comes_to(rt, rows, &other, true, Owed::Nothing)
}

/// Asserts that the other handle alone is there.
fn stand_undone<R: Rows>(rt: &impl Abort, alloc: Global, rows: &mut R) -> Result<(), Fail> {
    let all = list_handles(alloc, rows, b"10.abc")?;
    same(rt, "handles", all.as_slice(), b"10.abc/y ".as_slice());
    Ok(())
}

#[test]
fn owed_write_is_claimed(rt: HostRuntime) -> Result<(), Fail> {
    let alloc = rt.alloc();
    let mut table = over_refusing(alloc, Connection::open_in_memory(alloc)?, 2)?;
    claim_write(&rt, alloc, &mut table)
}

/// A database in which a write was undone.
fn undone(rt: &impl Abort, alloc: Global) -> Result<Connection<MemStore>, Fail> {
    let mut table = over_refusing(alloc, Connection::open_in_memory(alloc)?, 2)?;
    undo_write(rt, alloc, &mut table)?;
    Ok(table.into_connection())
}

#[test]
fn unclaimed_write_is_undone(rt: HostRuntime) -> Result<(), Fail> {
    let alloc = rt.alloc();
    let mut table = over_refusing(alloc, undone(&rt, alloc)?, 0)?;
    stand_undone(&rt, alloc, &mut table)
}
