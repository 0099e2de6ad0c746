//! The keys by which a search tells references apart.

ghost use Rattle.std.specs.Prelude.{◌≡◌, IfOk};
ghost use Rattle.hdl_value.specs.Refs.{place_of};
ghost use Rattle.hdl_reach.specs.Seen.{place_at};

use hdl_name::Name;
use hdl_value::Reference;
use std::alloc::{AllocError, Global};

/// The octets of a handle in canonical form, and an index. References to one place have the same key.
pub(crate) type PlaceKey = (Vec<u8>, u32);

pub(crate) fn key_of(alloc: Global, one: &Reference) -> Result<PlaceKey, AllocError>
    ensures { IfOk result (λ key. place_at key ≡ place_of one.now) }
{
    Ok((Vec::from_slice(alloc, one.name.canon())?, one.index))
}

fn copy_of_name(alloc: Global, name: &Name) -> Result<Name, AllocError>
    ensures { IfOk result (λ copy. copy ≡ name.now) }
{
    Name::read(alloc, name.sent()).map_err(|_| AllocError)
}

/// A reference to no value of the handle yet.
pub(crate) fn reference_to(alloc: Global, name: &Name) -> Result<Reference, AllocError>
    ensures { IfOk result (λ here. here.name ≡ name.now) }
{
    Ok(Reference {
        name: copy_of_name(alloc, name)?,
        index: 0,
    })
}

pub(crate) fn copy_of(alloc: Global, one: &Reference) -> Result<Reference, AllocError>
    ensures { IfOk result (λ copy. copy ≡ one.now) }
{
    Ok(Reference {
        name: copy_of_name(alloc, &one.name)?,
        index: one.index,
    })
}
