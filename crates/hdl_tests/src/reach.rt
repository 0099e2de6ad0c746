//! Masks over tables in memory, and behind a fuse.

ghost use Rattle.std.specs.Prelude.{◌≡◌, IfOk};

use crate::assertion::same;
use crate::made::value;
use hdl_name::Name;
use hdl_reach::mask;
use hdl_rows::{Fuse, PlainRows, Provenance, Refused, Rows};
use hdl_value::{AdminMask, Reference, Value, put_string, put_u32};
use std::alloc::{AllocError, Global};
use std::process::Abort;
use std::test::Fail;

const ADMIN: &[u8] = b"HS_ADMIN";

const LIST: &[u8] = b"HS_VLIST";

const SECRET_KEY: &[u8] = b"HS_SECKEY";

/// A handle, and of one value of it the index, the type and the data.
type Row = (&'static [u8], u32, &'static [u8], &'static [u8]);

/// A reference, and its mask.
type Want = (&'static [u8], u32, Option<AdminMask>);

fn reference(alloc: Global, handle: &[u8], index: u32) -> Result<Reference, Fail>
    ensures { IfOk result (λ r. r.index ≡ index) }
{
    Ok(Reference {
        name: Name::read(alloc, handle)?,
        index,
    })
}

/// Puts a value where none stands, of a handle that is made where it is absent.
pub(crate) fn put(
    rt: &impl Abort,
    alloc: Global,
    rows: &mut PlainRows,
    handle: &[u8],
    value: Value,
) -> Result<(), Fail> {
    let place = reference(alloc, handle, value.index)?;
    if !rows.exists(&place.name)? {
        rows.create(&place.name, &[value], &Provenance::opening())?;
        return Ok(());
    }
    assert!(rt; rows.at(&place)?.is_none());
    rows.add(&place.name, &[value], &Provenance::opening())?;
    Ok(())
}

fn table(rt: &impl Abort, alloc: Global, values: &[Row]) -> Result<PlainRows, Fail> {
    let mut rows = PlainRows::new(alloc);
    for (handle, index, kind, bytes) in values {
        put(
            rt,
            alloc,
            &mut rows,
            handle,
            value(alloc, *index, kind, bytes)?,
        )?;
    }
    Ok(rows)
}

/// Sees that these are the masks of the references for a handle.
fn are_masks<R: Rows>(
    rt: &impl Abort,
    alloc: Global,
    what: &str,
    rows: &mut R,
    handle: &[u8],
    wanted: &[Want],
) -> Result<(), Fail> {
    let name = Name::read(alloc, handle)?;
    for &(key, index, want) in wanted {
        let key = reference(alloc, key, index)?;
        let found = mask(alloc, rows, &name, &key)?;
        same(rt, what, (key.index, found), (index, want));
    }
    Ok(())
}

/// The administrator of `10/c` is a list,
const ADMIN_LIST: Row = (b"10/c", 100, ADMIN, b"\x0f\xff\0\0\0\x0410/g\0\0\0\x01");

/// which leads to a second one,
const FIRST: Row = (b"10/g", 1, LIST, b"\0\0\0\x01\0\0\0\x0410/g\0\0\0\x02");

/// and that to a key.
const SECOND: Row = (b"10/g", 2, LIST, b"\0\0\0\x01\0\0\0\x0720/keys\0\0\0\x03");

const KEY: Row = (b"20/keys", 3, SECRET_KEY, b"k1");

const TWO_LISTS: [Row; 4] = [ADMIN_LIST, FIRST, SECOND, KEY];

/// What it is, a table, a handle, and the masks of references for it.
const CASES: [(&str, &[Row], &[u8], &[Want]); 10] = [
    (
        "lists lead to the key",
        &TWO_LISTS,
        b"10/c",
        &[
            (b"10/g", 1, Some(AdminMask(0x0fff))),
            (b"10/g", 2, Some(AdminMask(0x0fff))),
            (b"20/keys", 3, Some(AdminMask(0x0fff))),
            (b"20/keys", 2, None),
            (b"20/Keys", 3, None),
            (b"10/c", 100, None),
        ],
    ),
    (
        "of another handle",
        &TWO_LISTS,
        b"10/g",
        &[(b"20/keys", 3, None)],
    ),
    (
        "two lists that refer to each other lead to themselves and to nothing else",
        &[
            ADMIN_LIST,
            FIRST,
            KEY,
            (b"10/g", 2, LIST, b"\0\0\0\x01\0\0\0\x0410/g\0\0\0\x01"),
        ],
        b"10/c",
        &[
            (b"10/g", 1, Some(AdminMask(0x0fff))),
            (b"10/g", 2, Some(AdminMask(0x0fff))),
            (b"20/keys", 3, None),
        ],
    ),
    (
        "three lists in a circle, the last of which lists a key, itself and nothing",
        &[
            (b"10/c", 1, ADMIN, b"\0\x10\0\0\0\x0410/g\0\0\0\x02"),
            (b"10/g", 1, LIST, b"\0\0\0\x01\0\0\0\x0410/g\0\0\0\x02"),
            (b"10/g", 2, LIST, b"\0\0\0\x01\0\0\0\x0410/G\0\0\0\x03"),
            (
                b"10/G",
                3,
                LIST,
                b"\0\0\0\x04\0\0\0\x0410/G\0\0\0\x03\0\0\0\x0410/g\0\0\0\x01\0\0\0\x0410/g\0\0\0\0\0\0\0\x0420/k\0\0\0\x01",
            ),
        ],
        b"10/c",
        &[
            (b"10/g", 1, Some(AdminMask(0x0010))),
            (b"10/G", 3, Some(AdminMask(0x0010))),
            (b"20/k", 1, Some(AdminMask(0x0010))),
            (b"10/g", 0, None),
        ],
    ),
    (
        "two administrators of one handle for one key, which is absent, and one for another",
        &[
            (b"10/c", 1, ADMIN, b"\0\x03\0\0\0\x0720/keys\0\0\0\x03"),
            (b"10/c", 2, ADMIN, b"\0\x50\0\0\0\x0720/keys\0\0\0\x03"),
            (b"10/c", 3, ADMIN, b"\x08\0\0\0\0\x0720/keys\0\0\0\x04"),
            (b"10/c", 4, ADMIN, b"\0\0\0\0\0\x0720/keys\0\0\0\x05"),
        ],
        b"10/c",
        &[
            (b"20/keys", 3, Some(AdminMask(0x0053))),
            (b"20/keys", 4, Some(AdminMask(0x0800))),
            (b"20/keys", 5, Some(AdminMask(0))),
            (b"20/keys", 6, None),
        ],
    ),
    (
        "three administrators with bits of their own, whose lists refer to each other",
        &[
            (b"10/c", 1, ADMIN, b"\0\x01\0\0\0\x0410/g\0\0\0\x01"),
            (b"10/c", 2, ADMIN, b"\0\x02\0\0\0\x0410/g\0\0\0\x02"),
            (b"10/c", 3, ADMIN, b"\0\x04\0\0\0\x0420/k\0\0\0\x02"),
            (
                b"10/g",
                1,
                LIST,
                b"\0\0\0\x02\0\0\0\x0410/g\0\0\0\x02\0\0\0\x0420/k\0\0\0\x01",
            ),
            (
                b"10/g",
                2,
                LIST,
                b"\0\0\0\x02\0\0\0\x0410/g\0\0\0\x01\0\0\0\x0420/k\0\0\0\x02",
            ),
        ],
        b"10/c",
        &[
            (b"10/g", 1, Some(AdminMask(3))),
            (b"10/g", 2, Some(AdminMask(3))),
            (b"20/k", 1, Some(AdminMask(3))),
            (b"20/k", 2, Some(AdminMask(7))),
        ],
    ),
    (
        "an absent list lists nothing, and is an administrator itself",
        &[ADMIN_LIST, FIRST, KEY],
        b"10/c",
        &[(b"10/g", 2, Some(AdminMask(0x0fff))), (b"20/keys", 3, None)],
    ),
    (
        "index 0 refers to nothing, in HS_ADMIN and HS_VLIST values and where it is asked for",
        &[
            (b"10/c", 1, ADMIN, b"\0\x03\0\0\0\x0420/k\0\0\0\0"),
            (b"10/c", 2, ADMIN, b"\0\x50\0\0\0\x0410/g\0\0\0\x01"),
            (
                b"10/g",
                1,
                LIST,
                b"\0\0\0\x02\0\0\0\x0420/k\0\0\0\0\0\0\0\x0420/k\0\0\0\x02",
            ),
        ],
        b"10/c",
        &[
            (b"20/k", 0, None),
            (b"20/k", 1, None),
            (b"20/k", 2, Some(AdminMask(0x0050))),
        ],
    ),
    (
        "a value of another type, or with bad data, lists nothing and gives no mask",
        &[
            ADMIN_LIST,
            (b"10/g", 1, b"URL", b"\0\0\0\x01\0\0\0\x0720/keys\0\0\0\x03"),
            (
                b"10/c",
                1,
                b"hs_admin",
                b"\0\x03\0\0\0\x0720/keys\0\0\0\x03",
            ),
            (b"10/c", 2, ADMIN, b"\0\x03\0\0\0\x0720/keys\0\0\0\x03\0"),
        ],
        b"10/c",
        &[(b"10/g", 1, Some(AdminMask(0x0fff))), (b"20/keys", 3, None)],
    ),
    (
        "handles are compared in canonical form, and an administrative handle's list is a list",
        &[
            (
                b"10.abc/c",
                1,
                ADMIN,
                b"\x0f\xff\0\0\0\x0b0.NA/10.ABC\0\0\0\x07",
            ),
            (
                b"0.na/10.abc",
                7,
                LIST,
                b"\0\0\0\x01\0\0\0\x0710.Ab/k\0\0\0\x03",
            ),
        ],
        b"10.ABC/c",
        &[
            (b"0.na/10.Abc", 7, Some(AdminMask(0x0fff))),
            (b"10.aB/k", 3, Some(AdminMask(0x0fff))),
            (b"10.ab/K", 3, None),
        ],
    ),
];

#[test]
fn chains(rt: HostRuntime) -> Result<(), Fail> {
    for &(what, values, handle, wanted) in &CASES {
        let mut rows = table(&rt, rt.alloc(), values)?;
        are_masks(&rt, rt.alloc(), what, &mut rows, handle, wanted)?;
    }
    Ok(())
}

/// The data of a list of 64 references to one handle, from this index on.
fn sixty_four(alloc: Global, first: u32) -> Result<Vec<u8>, AllocError> {
    let mut data = Vec::from_slice(alloc, b"\0\0\0\x40")?;
    for place in 0..64u32 {
        put_string(&mut data, b"10/g")?;
        put_u32(&mut data, first.saturating_add(place))?;
    }
    Ok(data)
}

/// Three levels of 64 references each; the last of a level is the list of the next.
#[test]
fn long_lists(rt: HostRuntime) -> Result<(), Fail> {
    let mut rows = table(
        &rt,
        rt.alloc(),
        &[(b"10/c", 1, ADMIN, b"\0\x01\0\0\0\x0410/g\0\0\0\x40")],
    )?;
    for (index, first) in [(64, 65), (128, 129), (192, 193)] {
        let data = sixty_four(rt.alloc(), first)?;
        let list = value(rt.alloc(), index, LIST, data.as_slice())?;
        put(&rt, rt.alloc(), &mut rows, b"10/g", list)?;
    }
    let wanted: [Want; 4] = [
        (b"10/g", 65, Some(AdminMask(1))),
        (b"10/g", 193, Some(AdminMask(1))),
        (b"10/g", 256, Some(AdminMask(1))),
        (b"10/g", 257, None),
    ];
    are_masks(&rt, rt.alloc(), "long lists", &mut rows, b"10/c", &wanted)
}

/// The look that a fuse refuses is passed on and counted once, and the table stays.
#[test]
fn behind_a_fuse(rt: HostRuntime) -> Result<(), Fail> {
    let name = Name::read(rt.alloc(), b"10/c")?;
    let key = reference(rt.alloc(), b"20/keys", 3)?;
    for look in 1..=4u64 {
        let inner = table(&rt, rt.alloc(), &TWO_LISTS)?;
        let mut rows = Fuse::new(inner, look, look);
        same(
            &rt,
            look,
            mask(rt.alloc(), &mut rows, &name, &key),
            Err(Refused),
        );
        same(&rt, look, rows.refusals(), 1);
        let again = mask(rt.alloc(), &mut rows, &name, &key)?;
        same(&rt, look, again, Some(AdminMask(0x0fff)));
    }
    Ok(())
}

/// Two administrators that share a list.
const SHARED_LIST: [Row; 4] = [
    (b"10/c", 1, ADMIN, b"\0\x01\0\0\0\x0410/g\0\0\0\x01"),
    (b"10/c", 2, ADMIN, b"\0\x02\0\0\0\x0410/g\0\0\0\x02"),
    (b"10/g", 2, LIST, b"\0\0\0\x01\0\0\0\x0410/g\0\0\0\x01"),
    (b"10/g", 1, LIST, b"\0\0\0\x01\0\0\0\x0720/keys\0\0\0\x03"),
];

/// Of two administrators that share a list, each reference is looked up once for both: the handle's heads, its two HS_ADMIN values, and three references.
#[test]
fn looks_once(rt: HostRuntime) -> Result<(), Fail> {
    let name = Name::read(rt.alloc(), b"10/c")?;
    let key = reference(rt.alloc(), b"20/keys", 3)?;
    for (look, want) in [(6, Err(Refused)), (7, Ok(Some(AdminMask(3))))] {
        let mut rows = Fuse::new(table(&rt, rt.alloc(), &SHARED_LIST)?, look, look);
        let found = mask(rt.alloc(), &mut rows, &name, &key);
        same(&rt, look, found, want);
    }
    Ok(())
}
