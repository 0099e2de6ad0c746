//! Masks by searches that go on from call to call.

use crate::assertion::same;
use crate::made::value;
use crate::reach::put;
use hdl_cache::{Masked, MaskedRows};
use hdl_name::Name;
use hdl_rows::{Fuse, PlainRows, Provenance, Refused, Rows};
use hdl_value::{AdminMask, Reference, put_string, put_u32};
use std::alloc::{AllocError, Global};
use std::process::Abort;
use std::test::Fail;

/// The administrator of `10/c` is a list with this number of references: `20/keys` from index 1 on.
const LISTED: u32 = 3_000;

/// The heads of the handle's values, its HS_ADMIN value, its list, and each reference of the list; and the four calls by which two handles are made.
const LOOKS: u64 = 3_003 + 4;

/// The mask of who may do everything.
const ALL: Result<Option<AdminMask>, Refused> = Ok(Some(AdminMask(0x0fff)));

fn list(alloc: Global) -> Result<Vec<u8>, AllocError> {
    let mut data = Vec::new(alloc);
    put_u32(&mut data, LISTED)?;
    for index in 1..=LISTED {
        put_string(&mut data, b"20/keys")?;
        put_u32(&mut data, index)?;
    }
    Ok(data)
}

/// A table whose calls are answered up to this one, and refused behind it.
fn table(rt: &impl Abort, alloc: Global, answered: u64) -> Result<Fuse<PlainRows>, Fail> {
    let mut rows = PlainRows::new(alloc);
    let admin = value(alloc, 100, b"HS_ADMIN", b"\x0f\xff\0\0\0\x0410/g\0\0\0\x01")?;
    put(rt, alloc, &mut rows, b"10/c", admin)?;
    let list = list(alloc)?;
    let listed = value(alloc, 1, b"HS_VLIST", list.as_slice())?;
    put(rt, alloc, &mut rows, b"10/g", listed)?;
    Ok(Fuse::new(rows, answered.saturating_add(1), u64::MAX))
}

fn key(alloc: Global, index: u32) -> Result<Reference, Fail> {
    Ok(Reference {
        name: Name::read(alloc, b"20/keys")?,
        index,
    })
}

/// Makes a handle without values, which is absent: two calls.
fn create(rt: &impl Abort, alloc: Global, rows: &mut impl Rows, handle: &[u8]) -> Result<(), Fail> {
    let name = Name::read(alloc, handle)?;
    assert!(rt; !rows.exists(&name)?);
    rows.create(&name, &[], &Provenance::opening())?;
    Ok(())
}

/// The mask of a key of this handle, as far as one call finds it, is the one that is wanted.
fn finds(
    rt: &impl Abort,
    what: &str,
    rows: &mut impl Masked,
    name: &Name,
    key: &Reference,
    wanted: Result<Option<AdminMask>, Refused>,
) {
    same(rt, what, rows.mask(name, key), wanted);
}

/// The search that a key began goes on by one that somebody made up, and serves for all.
fn serves_every_key<R: Masked>(
    rt: &impl Abort,
    alloc: Global,
    rows: &mut R,
    name: &Name,
    last: &Reference,
) -> Result<(), Fail> {
    let made_up = key(alloc, LISTED + 1)?;
    finds(rt, "second", rows, name, &made_up, Err(Refused));
    finds(rt, "third", rows, name, &made_up, Ok(None));
    finds(rt, "the last", rows, name, last, ALL);
    finds(rt, "the first", rows, name, &key(alloc, 1)?, ALL);
    same(rt, "refused", rows.refusals(), 0);
    Ok(())
}

/// A change of a handle that the search didn't see leaves it; one of a handle in a list ends it.
fn ends_by_a_change<R: Masked>(
    rt: &impl Abort,
    alloc: Global,
    rows: &mut R,
    name: &Name,
    last: &Reference,
) -> Result<(), Fail> {
    create(rt, alloc, rows, b"20/key")?;
    finds(rt, "of another handle", rows, name, last, ALL);
    create(rt, alloc, rows, b"20/keys")?;
    finds(rt, "of a key's handle", rows, name, last, Err(Refused));
    same(rt, "refused", rows.refusals(), 1);
    Ok(())
}

fn goes_on<R: Masked>(
    rt: &impl Abort,
    alloc: Global,
    rows: &mut R,
    name: &Name,
    last: &Reference,
) -> Result<(), Fail> {
    serves_every_key(rt, alloc, rows, name, last)?;
    ends_by_a_change(rt, alloc, rows, name, last)
}

/// One call looks up the list, which counts 45,074 octets, and as many of its references as 20,462 octets more are, 32 each; the next 2,048 of these.
/// Both are refused, which no table counts. The third ends, and each reference was looked up once. What was found serves for every key, those that
/// somebody made up too: the table is asked nothing more. A change of a handle that the search didn't see leaves it; one of a handle in a list ends it.
#[test]
fn a_search_goes_on_until_its_handles_change(rt: HostRuntime) -> Result<(), Fail> {
    let rows = table(&rt, rt.alloc(), LOOKS)?;
    let mut rows = MaskedRows::new(rt.alloc(), rows)?;
    let name = Name::read(rt.alloc(), b"10/c")?;
    let last = key(rt.alloc(), LISTED)?;
    let first = rows.mask(&name, &last);
    same(&rt, "first", first, Err(Refused));
    goes_on(&rt, rt.alloc(), &mut rows, &name, &last)
}

/// How many lists of the same references there are.
const LISTS: u32 = 4;

/// The data of a list of these lists.
fn list_of_lists(alloc: Global) -> Result<Vec<u8>, AllocError> {
    let mut data = Vec::new(alloc);
    put_u32(&mut data, LISTS)?;
    for index in 0..LISTS {
        put_string(&mut data, b"10/g")?;
        put_u32(&mut data, index.saturating_add(2))?;
    }
    Ok(data)
}

/// Puts a list of this data.
fn put_list(
    rt: &impl Abort,
    alloc: Global,
    rows: &mut PlainRows,
    index: u32,
    data: &[u8],
) -> Result<(), Fail> {
    put(
        rt,
        alloc,
        rows,
        b"10/g",
        value(alloc, index, b"HS_VLIST", data)?,
    )
}

/// Puts a handle whose list leads to these lists.
fn put_lists(rt: &impl Abort, alloc: Global, rows: &mut PlainRows) -> Result<(), Fail> {
    let admin = value(alloc, 100, b"HS_ADMIN", b"\x0f\xff\0\0\0\x0410/g\0\0\0\x01")?;
    put(rt, alloc, rows, b"10/c", admin)?;
    put_list(rt, alloc, rows, 1, &list_of_lists(alloc)?)?;
    let data = list(alloc)?;
    for index in 0..LISTS {
        put_list(rt, alloc, rows, index.saturating_add(2), &data)?;
    }
    Ok(())
}

fn table_of_lists(rt: &impl Abort, alloc: Global) -> Result<PlainRows, Fail> {
    let mut rows = PlainRows::new(alloc);
    put_lists(rt, alloc, &mut rows)?;
    Ok(rows)
}

/// The mask of the key is found by the fourth call.
fn finds_by_four<R: Masked>(rt: &impl Abort, rows: &mut R, name: &Name, key: &Reference) {
    for what in ["first", "second", "third"] {
        finds(rt, what, rows, name, key, Err(Refused));
    }
    finds(rt, "fourth", rows, name, key, ALL);
}

/// What lists hold counts where it was known too: the fourth list of the same references takes a call more, though it brings none.
#[test]
fn what_lists_hold_counts(rt: HostRuntime) -> Result<(), Fail> {
    let name = Name::read(rt.alloc(), b"10/c")?;
    let last = key(rt.alloc(), LISTED)?;
    let rows = table_of_lists(&rt, rt.alloc())?;
    let mut rows = MaskedRows::new(rt.alloc(), rows)?;
    finds_by_four(&rt, &mut rows, &name, &last);
    Ok(())
}
