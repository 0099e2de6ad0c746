//! The tables through the bound: in memory, behind a fuse, and in SQL.

use crate::agreement::writes_agree;
use crate::assertion::same;
use crate::awkward::keeps_fields;
use crate::writes::{add, create, delete, modify, reference, remove};
use hdl_name::Name;
use hdl_rows::{Fuse, PlainRows, Provenance, Refused, Rows};
use hdl_sqlrows::SqlRows;
use hdl_tests::made::value;
use hdl_value::Value;
use std::alloc::Global;
use std::process::Abort;
use std::test::Fail;

/// Whether the values have these indexes and data, in this order.
pub(crate) fn are(values: &[Value], wanted: &[(u32, &[u8])]) -> bool {
    values.len() == wanted.len()
        && values.iter().zip(wanted).all(|(value, want)| value.index == want.0
            && value.bytes.as_slice() == want.1)
}

/// Whether the handle is there with these values, by one call and by two.
fn holds<R: Rows>(rows: &mut R, name: &Name, wanted: &[(u32, &[u8])]) -> Result<bool, Fail> {
    match rows.look(name)? {
        Some(values) => Ok(
            are(&values, wanted) && rows.exists(name)? && are(&rows.values(name)?, wanted),
        ),
        None => Ok(false),
    }
}

/// Whether the handle is absent, by one call and by two.
fn lacks<R: Rows>(rows: &mut R, name: &Name) -> Result<bool, Fail> {
    Ok(rows.look(name)?.is_none() && !rows.exists(name)? && are(&rows.values(name)?, &[]))
}

/// Asserts that the handle of this text is there with these values.
fn stands<R: Rows>(
    rt: &impl Abort,
    alloc: Global,
    rows: &mut R,
    text: &[u8],
    wanted: &[(u32, &[u8])],
) -> Result<(), Fail> {
    let name = Name::read(alloc, text)?;
    same(rt, "its values", holds(rows, &name, wanted)?, true);
    Ok(())
}

/// What `10.abc/x` has once it is created, a value is added, modified and another removed.
const CREATED: [(u32, &[u8]); 3] = [(2, b"two"), (5, b""), (9, b"nine")];

const ADDED: [(u32, &[u8]); 4] = [(2, b"two"), (3, b"three"), (5, b""), (9, b"nine")];

const MODIFIED: [(u32, &[u8]); 4] = [(2, b"two"), (3, b""), (5, b""), (9, b"nine")];

const REMOVED: [(u32, &[u8]); 3] = [(2, b"two"), (3, b""), (9, b"nine")];

/// Values come out by rising index, in whatever order they were given, and a name stands for its canonical form.
fn creates<R: Rows>(rt: &impl Abort, alloc: Global, rows: &mut R) -> Result<(), Fail> {
    let sent = Name::read(alloc, b"10.ABC/x")?;
    let all = [
        value(alloc, 9, b"URL", b"nine")?,
        value(alloc, 2, b"URL", b"two")?,
        value(alloc, 5, b"URL", b"")?,
    ];
    create(rt, rows, &sent, &all)
}

/// A handle of the local name `X` is another one.
fn other_local_name<R: Rows>(rt: &impl Abort, alloc: Global, rows: &mut R) -> Result<(), Fail> {
    let other = reference(alloc, b"10.abc/X", 2)?;
    same(rt, "the other", lacks(rows, &other.name)?, true);
    same(rt, "its value", rows.at(&other)?.is_none(), true);
    same(rt, "refusals", rows.refusals(), 0);
    Ok(())
}

/// An added value comes among those that are there.
fn adds<R: Rows>(rt: &impl Abort, alloc: Global, rows: &mut R) -> Result<(), Fail> {
    let place = reference(alloc, b"10.abc/x", 3)?;
    let three = value(alloc, place.index, b"URL", b"three")?;
    add(rt, rows, &place, three)
}

/// A modified value is replaced whole.
fn modifies<R: Rows>(rt: &impl Abort, alloc: Global, rows: &mut R) -> Result<(), Fail> {
    let place = reference(alloc, b"10.abc/x", 3)?;
    let empty = value(alloc, place.index, b"URL", b"")?;
    modify(rt, rows, &place, empty)
}

/// A removed value is gone, and the handle stays.
fn removes<R: Rows>(rt: &impl Abort, alloc: Global, rows: &mut R) -> Result<(), Fail> {
    remove(rt, rows, &reference(alloc, b"10.abc/x", 5)?)
}

/// A deleted handle is gone with its values.
fn deletes<R: Rows>(rt: &impl Abort, alloc: Global, rows: &mut R) -> Result<(), Fail> {
    let name = Name::read(alloc, b"10.abc/x")?;
    delete(rt, rows, &name)?;
    same(rt, "deleted", lacks(rows, &name)?, true);
    Ok(())
}

/// A handle without values is there.
fn creates_empty<R: Rows>(rt: &impl Abort, alloc: Global, rows: &mut R) -> Result<(), Fail> {
    create(rt, rows, &Name::read(alloc, b"10.abc/empty")?, &[])
}

fn calls_in_turn<R: Rows>(rt: &impl Abort, alloc: Global, rows: &mut R) -> Result<(), Fail> {
    creates(rt, alloc, rows)?;
    stands(rt, alloc, rows, b"10.abc/x", &CREATED)?;
    other_local_name(rt, alloc, rows)?;
    adds(rt, alloc, rows)?;
    stands(rt, alloc, rows, b"10.abc/x", &ADDED)?;
    modifies(rt, alloc, rows)?;
    stands(rt, alloc, rows, b"10.abc/x", &MODIFIED)?;
    removes(rt, alloc, rows)?;
    stands(rt, alloc, rows, b"10.abc/x", &REMOVED)?;
    deletes(rt, alloc, rows)?;
    creates_empty(rt, alloc, rows)?;
    stands(rt, alloc, rows, b"10.abc/empty", &[])
}

/// The handles of an authority, with a space behind each.
pub(crate) fn list_handles<R: Rows>(
    alloc: Global,
    rows: &mut R,
    authority: &[u8],
) -> Result<Vec<u8>, Fail> {
    let mut all = vec![in alloc]?;
    for name in &rows.names(authority)? {
        all.extend_from_slice(name.as_slice())?;
        all.push(b' ')?;
    }
    Ok(all)
}

/// Handles of three authorities.
const LISTED: [&[u8]; 5] = [
    b"10.abc/b",
    b"10.abcd/a",
    b"10.abc/a",
    b"10/abc",
    b"10.ABC/B",
];

/// The handles of an authority rise by octets, and those of a longer authority that begins alike are left out.
fn lists<R: Rows>(rt: &impl Abort, alloc: Global, rows: &mut R) -> Result<(), Fail> {
    for &text in &LISTED {
        create(rt, rows, &Name::read(alloc, text)?, &[])?;
    }
    let all = list_handles(alloc, rows, b"10.abc")?;
    same(
        rt,
        "all",
        all.as_slice(),
        b"10.abc/B 10.abc/a 10.abc/b ".as_slice(),
    );
    Ok(())
}

/// Deletes the handles of an authority.
fn clear<R: Rows>(
    rt: &impl Abort,
    alloc: Global,
    rows: &mut R,
    authority: &[u8],
) -> Result<(), Fail> {
    for handle in &rows.names(authority)? {
        delete(rt, rows, &Name::read(alloc, handle.as_slice())?)?;
    }
    Ok(())
}

/// The authorities of whose handles one part of the tests speaks behind another.
const AUTHORITIES: [&[u8]; 3] = [b"10.abc", b"10.abcd", b"10"];

fn clear_all<R: Rows>(rt: &impl Abort, alloc: Global, rows: &mut R) -> Result<(), Fail> {
    for &authority in &AUTHORITIES {
        clear(rt, alloc, rows, authority)?;
    }
    Ok(())
}

/// Each call in turn, lists, fields that are awkward, and many writes, each over an empty table. They are one call, since each call at a table of
/// many parts is dear to prove.
pub(crate) fn each_call<R: Rows>(rt: &impl Abort, alloc: Global, rows: &mut R) -> Result<(), Fail> {
    calls_in_turn(rt, alloc, rows)?;
    clear_all(rt, alloc, rows)?;
    lists(rt, alloc, rows)?;
    clear_all(rt, alloc, rows)?;
    keeps_fields(rt, alloc, rows)?;
    clear_all(rt, alloc, rows)?;
    writes_agree(rt, &mut PlainRows::new(alloc), rows, alloc)
}

#[test]
fn each_call_in_memory(rt: HostRuntime) -> Result<(), Fail> {
    each_call(&rt, rt.alloc(), &mut PlainRows::new(rt.alloc()))
}

#[test]
fn each_call_behind_a_fuse(rt: HostRuntime) -> Result<(), Fail> {
    each_call(
        &rt,
        rt.alloc(),
        &mut Fuse::new(PlainRows::new(rt.alloc()), 1, 0),
    )
}

#[test]
fn each_call_in_sql(rt: HostRuntime) -> Result<(), Fail> {
    each_call(&rt, rt.alloc(), &mut SqlRows::new(rt.alloc())?)
}

/// A fuse's first and last call, which of four calls it refuses, and how many it then counted.
const FUSES: [(u64, u64, [bool; 4], u64); 4] = [
    (1, 1, [true, false, false, false], 1),
    (2, 3, [false, true, true, false], 2),
    (3, 2, [false, false, false, false], 0),
    (1, u64::MAX, [true, true, true, true], 4),
];

/// Whether just these of four calls are refused, and so many are then counted.
fn refuses(fuse: &mut Fuse<PlainRows>, name: &Name, refused: &[bool; 4], count: u64) -> bool {
    let mut are_these = true;
    for want in refused {
        are_these &= (fuse.exists(name) == Err(Refused)) == *want;
    }
    are_these && fuse.refusals() == count
}

#[test]
fn fuses(rt: HostRuntime) -> Result<(), Fail> {
    let name = Name::read(rt.alloc(), b"10/a")?;
    for &(first, last, refused, count) in &FUSES {
        let mut fuse = Fuse::new(PlainRows::new(rt.alloc()), first, last);
        same(
            &rt,
            format_args!("{first} to {last}"),
            refuses(&mut fuse, &name, &refused, count),
            true,
        );
    }
    Ok(())
}

/// A refused write leaves the table as it was.
fn refused_and_made(rt: &impl Abort, fuse: &mut Fuse<PlainRows>, name: &Name) -> Result<(), Fail> {
    assert!(rt; !fuse.exists(name)?);
    same(
        rt,
        "refused",
        fuse.create(name, &[], &Provenance::opening()),
        Err(Refused),
    );
    create(rt, fuse, name, &[])?;
    same(rt, "made", fuse.exists(name)?, true);
    Ok(())
}

#[test]
fn refused_write(rt: HostRuntime) -> Result<(), Fail> {
    let name = Name::read(rt.alloc(), b"10/a")?;
    let mut fuse = Fuse::new(PlainRows::new(rt.alloc()), 2, 2);
    refused_and_made(&rt, &mut fuse, &name)
}
