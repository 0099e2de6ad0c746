//! Two tables side by side, which answer alike after each of many writes, and count alike what they gave.

use crate::assertion::same;
use crate::values::great;
use crate::writes::{add, create, delete, modify, reference, remove};
use hdl_name::Name;
use hdl_rows::{PlainRows, Rows};
use hdl_value::Reference;
use std::alloc::Global;
use std::process::Abort;
use std::test::Fail;

/// A write at the place that the table allows there, chosen by the number.
fn write<R: Rows>(
    rt: &impl Abort,
    alloc: Global,
    rows: &mut R,
    place: &Reference,
    number: u32,
) -> Result<(), Fail> {
    let value = great(alloc, place.index, &number.to_be_bytes())?;
    if !rows.exists(&place.name)? {
        create(rt, rows, &place.name, &[value])
    } else if rows.at(place)?.is_none() {
        add(rt, rows, place, value)
    } else if number.is_multiple_of(2) {
        modify(rt, rows, place, value)
    } else if number.is_multiple_of(5) {
        delete(rt, rows, &place.name)
    } else {
        remove(rt, rows, place)
    }
}

/// What the table answers of the handle and of its authority.
fn answers<R: Rows>(alloc: Global, rows: &mut R, name: &Name) -> Result<Vec<u8>, Fail> {
    let mut all = Vec::new(alloc);
    all.push(u8::from(rows.look(name)?.is_some()))?;
    for value in &rows.values(name)? {
        all.extend_from_slice(&value.index.to_be_bytes())?;
        all.extend_from_slice(value.bytes.as_slice())?;
    }
    for name in &rows.names(b"10.abc")? {
        all.extend_from_slice(name.as_slice())?;
    }
    Ok(all)
}

/// The same write to both tables, and whether they then answer alike.
fn agree<R: Rows>(
    rt: &impl Abort,
    plain: &mut PlainRows,
    other: &mut R,
    place: &Reference,
    number: u32,
    alloc: Global,
) -> Result<bool, Fail> {
    write(rt, alloc, &mut *plain, place, number)?;
    write(rt, alloc, &mut *other, place, number)?;
    let told = answers(alloc, other, &place.name)?;
    Ok(told.as_slice() == answers(alloc, plain, &place.name)?.as_slice())
}

/// Five hundred writes in no order. Both tables give the same, so their counts of what they gave stay as far apart as they were.
pub(crate) fn writes_agree<R: Rows>(
    rt: &impl Abort,
    plain: &mut PlainRows,
    other: &mut R,
    alloc: Global,
) -> Result<(), Fail> {
    let names: [&[u8]; 4] = [b"10.abc/b", b"10.abc/a", b"10.abcd/a", b"10.abc/ab"];
    let apart = other.reads().wrapping_sub(plain.reads());
    let mut state = 1u32;
    for turn in 0..500u32 {
        state = state.wrapping_mul(1_664_525).wrapping_add(1_013_904_223);
        let number = state >> 16;
        let place = reference(alloc, names[(number % 4) as usize], number / 4 % 5 + 1)?;
        same(
            rt,
            turn,
            agree(rt, plain, other, &place, number / 20, alloc)?,
            true,
        );
    }
    let reads = other.reads().wrapping_sub(plain.reads());
    same(rt, "reads", reads, apart);
    Ok(())
}
