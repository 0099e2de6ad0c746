//! A table that keeps what was read last: through the bound, over one that refuses to be asked again, with a handle that is too large, and with more
//! handles than it keeps. What it answers over the table in SQL is seen by tools/replays.py.

use crate::assertion::same;
use crate::rows::{are, each_call};
use crate::writes::{create, reference, remove};
use hdl_cachedrows::{CachedRows, LIMIT_DEFAULT};
use hdl_name::Name;
use hdl_rows::{Fuse, PlainRows, Provenance, Refused, Rows};
use hdl_tests::made::value;
use hdl_value::Reference;
use std::alloc::Global;
use std::hash::RandomState;
use std::process::Abort;
use std::test::Fail;

/// A bound for 85 handles of one short value, and how many are made.
const SMALL: usize = 32_768;

const HANDLES: u32 = 200;

#[test]
fn each_call_through_a_cache(rt: HostRuntime) -> Result<(), Fail> {
    let rows = PlainRows::new(rt.alloc());
    let mut cached = CachedRows::new(rt.alloc(), rows, LIMIT_DEFAULT, RandomState::new(&rt)?)?;
    each_call(&rt, rt.alloc(), &mut cached)
}

/// Whether each call that reads tells just this value of the handle.
fn has_just<R: Rows>(rows: &mut R, place: &Reference, data: &[u8]) -> Result<bool, Fail> {
    let wanted = [(place.index, data)];
    let looked = match rows.look(&place.name)? {
        Some(values) => are(&values, &wanted),
        None => false,
    };
    Ok(
        looked
            && rows.exists(&place.name)?
            && are(&rows.values(&place.name)?, &wanted)
            && rows.at(place)?.is_some(),
    )
}

/// A refused write forgets the handle too, so a look behind it is refused.
fn forgets<R: Rows>(rt: &impl Abort, rows: &mut R, name: &Name) -> Result<(), Fail> {
    assert!(rt; rows.exists(name)?);
    same(
        rt,
        "a write",
        rows.delete(name, &Provenance::opening()),
        Err(Refused),
    );
    same(rt, "a look", rows.look(name).is_err(), true);
    same(rt, "refusals", rows.refusals(), 2);
    Ok(())
}

/// A handle is read again and again without a call of the table, until it is written.
fn keeps<R: Rows>(rt: &impl Abort, rows: &mut R, place: &Reference) -> Result<(), Fail> {
    for turn in 0..2u32 {
        same(rt, turn, has_just(rows, place, b"two")?, true);
    }
    forgets(rt, rows, &place.name)
}

/// What was created is kept.
fn keeps_created<R: Rows>(rt: &impl Abort, alloc: Global, rows: &mut R) -> Result<(), Fail> {
    let place = reference(alloc, b"10.abc/x", 2)?;
    let two = value(alloc, 2, b"URL", b"two")?;
    create(rt, rows, &place.name, &[two])?;
    keeps(rt, rows, &place)
}

/// The table answers the two calls that make a handle.
#[test]
fn a_created_handle_is_not_asked_for(rt: HostRuntime) -> Result<(), Fail> {
    let fuse = Fuse::new(PlainRows::new(rt.alloc()), 3, u64::MAX);
    let mut cached = CachedRows::new(rt.alloc(), fuse, LIMIT_DEFAULT, RandomState::new(&rt)?)?;
    keeps_created(&rt, rt.alloc(), &mut cached)
}

/// What was looked at is kept, after a removal forgot what was created.
fn keeps_looked_at<R: Rows>(rt: &impl Abort, alloc: Global, rows: &mut R) -> Result<(), Fail> {
    let place = reference(alloc, b"10.abc/x", 2)?;
    let removed = reference(alloc, b"10.abc/x", 3)?;
    let values = [
        value(alloc, 2, b"URL", b"two")?,
        value(alloc, 3, b"URL", b"three")?,
    ];
    create(rt, rows, &place.name, &values)?;
    remove(rt, rows, &removed)?;
    keeps(rt, rows, &place)
}

/// The table answers four calls, two to make a handle, one to remove a value and one to look at what is left.
#[test]
fn a_kept_handle_is_not_asked_for(rt: HostRuntime) -> Result<(), Fail> {
    let fuse = Fuse::new(PlainRows::new(rt.alloc()), 5, u64::MAX);
    let mut cached = CachedRows::new(rt.alloc(), fuse, LIMIT_DEFAULT, RandomState::new(&rt)?)?;
    keeps_looked_at(&rt, rt.alloc(), &mut cached)
}

/// Of a handle that wasn't created nothing is kept, and it can be created later.
fn keeps_none_refused<R: Rows>(rt: &impl Abort, alloc: Global, rows: &mut R) -> Result<(), Fail> {
    let place = reference(alloc, b"10.abc/x", 2)?;
    let one = value(alloc, 2, b"URL", b"one")?;
    let two = value(alloc, 2, b"URL", b"two")?;
    assert!(rt; !rows.exists(&place.name)?);
    same(
        rt,
        "a creation",
        rows.create(&place.name, &[one], &Provenance::opening()),
        Err(Refused),
    );
    same(rt, "a look", rows.look(&place.name)?.is_none(), true);
    create(rt, rows, &place.name, &[two])?;
    same(rt, "its value", has_just(rows, &place, b"two")?, true);
    Ok(())
}

/// The table refuses its second call, which would create a handle.
#[test]
fn a_refused_creation_is_not_kept(rt: HostRuntime) -> Result<(), Fail> {
    let fuse = Fuse::new(PlainRows::new(rt.alloc()), 2, 2);
    let mut cached = CachedRows::new(rt.alloc(), fuse, LIMIT_DEFAULT, RandomState::new(&rt)?)?;
    keeps_none_refused(&rt, rt.alloc(), &mut cached)
}

/// Whether the handle has just one value, whose head has this index.
fn has_head<R: Rows>(rows: &mut R, place: &Reference) -> Result<bool, Fail> {
    Ok(match rows.heads(&place.name)? {
        Some(heads) => are(&heads, &[(place.index, b"")]),
        None => false,
    })
}

/// Of a handle whose value costs too much the head is kept. So the table is asked for the value alone.
fn keeps_heads<R: Rows>(rt: &impl Abort, alloc: Global, rows: &mut R) -> Result<(), Fail> {
    let place = reference(alloc, b"10.abc/x", 2)?;
    let other = reference(alloc, b"10.abc/x", 3)?;
    create(
        rt,
        rows,
        &place.name,
        &[value(alloc, 2, b"URL", &[7; 1_000])?],
    )?;
    for turn in 0..2u32 {
        same(rt, turn, has_head(rows, &place)?, true);
    }
    assert!(rt; rows.exists(&place.name)?);
    assert!(rt; rows.at(&other)?.is_none());
    same(rt, "its value", rows.at(&place).is_err(), true);
    same(rt, "all values", rows.values(&place.name).is_err(), true);
    same(rt, "refusals", rows.refusals(), 2);
    Ok(())
}

/// The table answers the two calls that make a handle.
#[test]
fn heads_of_a_large_handle_are_kept(rt: HostRuntime) -> Result<(), Fail> {
    let fuse = Fuse::new(PlainRows::new(rt.alloc()), 3, u64::MAX);
    let mut cached = CachedRows::new(rt.alloc(), fuse, SMALL, RandomState::new(&rt)?)?;
    keeps_heads(&rt, rt.alloc(), &mut cached)
}

fn place_of(alloc: Global, number: u32) -> Result<Reference, Fail> {
    let text = format!(in alloc; "10.abc/{number}")?;
    reference(alloc, text.as_bytes(), 1)
}

/// Makes handles, each with its number as data.
fn makes<R: Rows>(rt: &impl Abort, alloc: Global, rows: &mut R) -> Result<(), Fail> {
    for number in 0..HANDLES {
        let place = place_of(alloc, number)?;
        let data = value(alloc, 1, b"URL", &number.to_be_bytes())?;
        create(rt, rows, &place.name, &[data])?;
    }
    Ok(())
}

/// Reads all of them, in turn.
fn reads<R: Rows>(rt: &impl Abort, alloc: Global, rows: &mut R) -> Result<(), Fail> {
    for number in 0..HANDLES {
        let place = place_of(alloc, number)?;
        let told = has_just(rows, &place, &number.to_be_bytes())?;
        same(rt, number, told, true);
    }
    Ok(())
}

/// Where more handles are read in turn than fit, each is pushed out before it is read again.
fn pushes_out<R: Rows>(rt: &impl Abort, alloc: Global, rows: &mut R) -> Result<(), Fail> {
    makes(rt, alloc, rows)?;
    reads(rt, alloc, rows)?;
    reads(rt, alloc, rows)
}

#[test]
fn handles_push_out_others(rt: HostRuntime) -> Result<(), Fail> {
    let rows = PlainRows::new(rt.alloc());
    let mut cached = CachedRows::new(rt.alloc(), rows, SMALL, RandomState::new(&rt)?)?;
    pushes_out(&rt, rt.alloc(), &mut cached)?;
    let octets = cached.octets();
    same(&rt, "full", SMALL - 512 < octets && octets <= SMALL, true);
    Ok(())
}
