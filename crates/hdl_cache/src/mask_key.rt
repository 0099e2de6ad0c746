//! The key of a cached mask.

ghost use Rattle.std.specs.Prelude.{◌≡◌, IfOk};
ghost use Rattle.hdl_name.specs.Name.{canonical};
ghost use Rattle.hdl_value.specs.Refs.{place_of};
ghost use Rattle.hdl_cache.specs.Masks.{subject, subject_of};

use hdl_name::Name;
use hdl_value::Reference;
use std::alloc::{AllocError, Global};

/// A handle and a key, both in canonical form.
#[derive(PartialEq, Eq, Hash, Drop)]
pub(crate) struct MaskKey {
    handle: Vec<u8>,
    key: Vec<u8>,
    index: u32,
}

impl MaskKey {
    pub(crate) fn new(alloc: Global, name: &Name, key: &Reference) -> Result<MaskKey, AllocError>
        ensures { IfOk result (λ pair. subject_of pair ≡ subject (canonical name.now) (place_of key.now)) }
    {
        Ok(MaskKey {
            handle: Vec::from_slice(alloc, name.canon())?,
            key: Vec::from_slice(alloc, key.name.canon())?,
            index: key.index,
        })
    }
}
