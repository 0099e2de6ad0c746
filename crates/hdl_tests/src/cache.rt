use crate::assertion::same;
use hdl_cache::Masks;
use hdl_name::Name;
use hdl_value::{AdminMask, Reference};
use std::alloc::Global;
use std::process::Abort;
use std::test::Fail;

const ALL: Option<AdminMask> = Some(AdminMask(0x0fff));

const ONE: Option<AdminMask> = Some(AdminMask(1));

/// A key's reference.
fn key(alloc: Global, index: u32) -> Result<Reference, Fail> {
    Ok(Reference {
        name: Name::read(alloc, b"20/keys")?,
        index,
    })
}

/// Keeps a mask, or that there is none, of the key at this index for a handle.
fn keep(
    alloc: Global,
    masks: &mut Masks,
    handle: &[u8],
    index: u32,
    mask: Option<AdminMask>,
) -> Result<(), Fail> {
    masks.keep(&Name::read(alloc, handle)?, &key(alloc, index)?, mask);
    Ok(())
}

/// Sees what is kept of the key at this index for a handle.
fn sees(
    rt: &impl Abort,
    alloc: Global,
    masks: &mut Masks,
    place: (&[u8], u32),
    wanted: Option<Option<AdminMask>>,
) -> Result<(), Fail> {
    let (handle, index) = place;
    let found = masks.find(&Name::read(alloc, handle)?, &key(alloc, index)?)?;
    same(rt, index, found, wanted);
    Ok(())
}

/// A mask is found, in another case of the handle too, until all are let go.
fn what_is_kept_is_found(rt: &impl Abort, alloc: Global, masks: &mut Masks) -> Result<(), Fail> {
    sees(rt, alloc, masks, (b"10.ABC/c", 3), None)?;
    keep(alloc, masks, b"10.ABC/c", 3, ALL)?;
    sees(rt, alloc, masks, (b"10.abc/c", 3), Some(ALL))?;
    masks.clear();
    sees(rt, alloc, masks, (b"10.ABC/c", 3), None)
}

fn that_there_is_no_mask_is_kept(
    rt: &impl Abort,
    alloc: Global,
    masks: &mut Masks,
) -> Result<(), Fail> {
    keep(alloc, masks, b"10/c", 3, None)?;
    sees(rt, alloc, masks, (b"10/c", 3), Some(None))?;
    sees(rt, alloc, masks, (b"10/d", 3), None)
}

/// Keeps a mask of each of 256 keys.
fn fill(alloc: Global, masks: &mut Masks) -> Result<(), Fail> {
    for index in 1..=256 {
        keep(alloc, masks, b"10/c", index, ONE)?;
    }
    Ok(())
}

/// Of 257 masks the one that was used least recently isn't kept.
fn the_least_recently_used_goes(
    rt: &impl Abort,
    alloc: Global,
    masks: &mut Masks,
) -> Result<(), Fail> {
    fill(alloc, masks)?;
    sees(rt, alloc, masks, (b"10/c", 1), Some(ONE))?;
    keep(alloc, masks, b"10/c", 257, None)?;
    sees(rt, alloc, masks, (b"10/c", 1), Some(ONE))?;
    sees(rt, alloc, masks, (b"10/c", 2), None)?;
    sees(rt, alloc, masks, (b"10/c", 257), Some(None))
}

/// One behind the other, over masks that are empty each time.
fn each_in_turn(rt: &impl Abort, alloc: Global, masks: &mut Masks) -> Result<(), Fail> {
    what_is_kept_is_found(rt, alloc, masks)?;
    that_there_is_no_mask_is_kept(rt, alloc, masks)?;
    masks.clear();
    the_least_recently_used_goes(rt, alloc, masks)
}

#[test]
fn masks_are_kept(rt: HostRuntime) -> Result<(), Fail> {
    let mut masks = Masks::new(rt.alloc())?;
    each_in_turn(&rt, rt.alloc(), &mut masks)
}
